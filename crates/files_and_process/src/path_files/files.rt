//! The files that paths stand for.

use crate::own_process::{MARK, marked};
use history_model::Text;
use std::alloc::{AllocError, Global};
use std::fs::Files;
use std::io::ErrorKind;
use std::{fs, io};

/// What is at a path.
#[derive(Clone, Copy, Drop)]
pub enum Kind {
    /// A file that may be a definition.
    File,
    /// A folder that can't be listed, with the reason; or, with `InvalidFilename`, a file whose name is not UTF-8: the path shows what of it is.
    Unlisted(ErrorKind),
    /// A folder without a file that may be a definition.
    Empty,
}

/// A file that a path stands for, or a folder that stands for none.
#[derive(Drop)]
pub struct Found {
    pub path: String,
    pub kind: Kind,
}

/// The files that the paths name, in their order. A folder names its files whose names end in `.plist` or `.json`, in
/// byte order of names, and not its folders. After them comes what of it can't be listed, or the folder if it has none
/// of them. Any other path names itself; one that `marked_words` marked does not name a file. `AllocError` if memory
/// ran out.
pub fn files_at<R: Files + AllocGlobal>(rt: &R, paths: &[Text]) -> Result<Vec<Found>, AllocError> {
    let mut found = Vec::new(rt.alloc());
    for path in paths {
        if is_folder(rt, path.as_str()) {
            add_folder(rt, path.as_str(), &mut found)?;
        } else {
            add_file(rt.alloc(), path.as_str(), &mut found)?;
        }
    }
    Ok(found)
}

fn is_folder<R: Files>(rt: &R, path: &str) -> bool {
    match fs::metadata(rt, path) {
        Ok(data) => data.is_dir(),
        Err(_) => false,
    }
}

fn add(alloc: Global, path: &str, kind: Kind, found: &mut Vec<Found>) -> Result<(), AllocError> {
    let path = String::from_str(alloc, path)?;
    found.push(Found { path, kind })?;
    Ok(())
}

fn add_file(alloc: Global, path: &str, found: &mut Vec<Found>) -> Result<(), AllocError> {
    match path.strip_suffix(MARK) {
        Some(shown) => add(
            alloc,
            shown,
            Kind::Unlisted(ErrorKind::InvalidFilename),
            found,
        ),
        None => add(alloc, path, Kind::File, found),
    }
}

fn add_folder<R: Files + AllocGlobal>(
    rt: &R,
    folder: &str,
    found: &mut Vec<Found>,
) -> Result<(), AllocError> {
    let mut names = Vec::new(rt.alloc());
    let listed = list(rt, folder, &mut names);
    names.sort()?;
    for name in names.iter() {
        add_file(rt.alloc(), name.as_str(), found)?;
    }
    match listed {
        Ok(()) if names.is_empty() => add(rt.alloc(), folder, Kind::Empty, found),
        Ok(()) => Ok(()),
        Err(error) => add(rt.alloc(), folder, Kind::Unlisted(error.kind()), found),
    }
}

// Adds the paths of the folder's definitions, as far as it can be listed. A name that is not UTF-8 is marked.
fn list<R: Files + AllocGlobal>(rt: &R, folder: &str, names: &mut Vec<String>) -> io::Result<()> {
    let end = if folder.ends_with('/') { "" } else { "/" };
    let front = format!(in rt.alloc(); "{folder}{end}")?;
    let mut listing = rt.open_dir(front.as_str())?;
    let mut bytes = Vec::new(rt.alloc());
    // Into room for many names: the system refuses a read into less than one takes.
    let listed = io::copy(&mut listing, &mut bytes);
    drop(listing);
    for name in bytes.as_slice().split(|byte| *byte == 0) {
        let is_wanted = name.ends_with(b".plist") || name.ends_with(b".json");
        if is_wanted {
            add_name(rt, front.as_str(), name, names)?;
        }
    }
    match listed {
        Ok(_) => Ok(()),
        Err(error) => Err(error),
    }
}

fn add_name<R: Files + AllocGlobal>(
    rt: &R,
    front: &str,
    name: &[u8],
    names: &mut Vec<String>,
) -> Result<(), AllocError> {
    let name = marked(rt.alloc(), name)?;
    let path = format!(in rt.alloc(); "{front}{}", name.as_str())?;
    if is_folder(rt, path.as_str()) {
        return Ok(());
    }
    names.push(path)?;
    Ok(())
}
