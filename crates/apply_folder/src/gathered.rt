//! The files that paths mean, each read once.

use crate::boot::left_at_boot;
use ctl_protocol::LINE_LIMIT;
use definition_digest::digest_of_value;
use files_and_process::path_files::{Found, Kind, files_at, read_file};
use history_model::Text;
use json_kinds::json_value;
use load_plan::FileState;
use serde_json::Value;
use std::alloc::{AllocError, Global};
use std::fs;
use std::io::{Error, ErrorKind};
use std::slice::from_ref;

/// A file, and what it says.
#[derive(Drop)]
pub(crate) struct Filed {
    /// Its path, by the arguments.
    pub(crate) path: String,
    /// Its number among the folders, if it is a file of one.
    pub(crate) folder: Option<usize>,
    /// The folder that it is in, from the root, if it is named by itself.
    pub(crate) parent: Option<String>,
    /// The label in it; if it has none, the one that its name says.
    pub(crate) label: String,
    /// The digest of its definition; empty, if the file is not JSON.
    pub(crate) digest: String,
    pub(crate) standing: FileState,
    /// The definition, as it was read.
    pub(crate) text: String,
    /// What keeps it from being loaded; empty, if nothing does.
    pub(crate) why: String,
    /// The other label under which an earlier apply of its folder loaded it.
    pub(crate) former: Option<String>,
}

impl Filed {
    /// The name of its file within its folder.
    pub(crate) fn name(&self) -> &str {
        name_in(self.path.as_str())
    }

    /// Whether it is named LABEL.json.
    pub(crate) fn is_named(&self) -> bool {
        match self.name().strip_suffix(".json") {
            Some(stem) => stem == self.label.as_str(),
            None => false,
        }
    }
}

/// The files of the paths, and their folders.
#[derive(Drop)]
pub(crate) struct Gathered {
    pub(crate) files: Vec<Filed>,
    /// The folders among the paths, from the root.
    pub(crate) folders: Vec<String>,
}

/// What was read of one file.
#[derive(Drop)]
struct Contents {
    label: Option<String>,
    digest: String,
    standing: FileState,
    text: String,
    why: String,
}

/// The last part of a path.
pub(crate) fn name_in(path: &str) -> &str {
    match path.rsplit_once('/') {
        Some((_, name)) => name,
        None => path,
    }
}

// The label that a file's name says.
fn label_by(name: &str) -> &str {
    match name.strip_suffix(".json") {
        Some(stem) => stem,
        None => name.strip_suffix(".plist").unwrap_or(name),
    }
}

/// What is known of the next boot: the launcher's user, and the folder that is loaded then, if it is known.
#[derive(Clone, Copy)]
pub(crate) struct NextBoot<'a> {
    pub(crate) user: u32,
    pub(crate) folder: Option<&'a str>,
}

/// The files that the paths mean, in their order.
pub(crate) fn gather(
    host: &HostRuntime,
    alloc: Global,
    paths: &[Text],
    boot: NextBoot<'_>,
) -> Result<Gathered, AllocError> {
    let mut gathered = Gathered {
        files: Vec::new(alloc),
        folders: Vec::new(alloc),
    };
    for path in paths {
        add_path(host, alloc, path, boot, &mut gathered)?;
    }
    Ok(gathered)
}

fn add_path(
    host: &HostRuntime,
    alloc: Global,
    path: &Text,
    boot: NextBoot<'_>,
    gathered: &mut Gathered,
) -> Result<(), AllocError> {
    let folder = add_folder(host, alloc, path.as_str(), gathered)?;
    let earlier = gathered.files.len();
    let found = files_at(host, from_ref(path))?;
    let over = match folder {
        Some(_) => folder_left(host, alloc, path.as_str(), boot.user)?,
        None => String::new(alloc),
    };
    let parent = match folder {
        Some(_) => None,
        None => Some(from_root(host, alloc, parent_of(path.as_str()))?),
    };
    let is_of_boot = folder.is_some() || is_in_boot(host, alloc, &parent, boot)?;
    for file in &found {
        let mut filed = filed_of(host, alloc, file, folder, &parent)?;
        if is_of_boot {
            leave_at_boot(host, alloc, over.as_str(), boot.user, &mut filed)?;
        }
        add_filed(gathered, earlier, filed)?;
    }
    drop(parent);
    drop(over);
    drop(found);
    Ok(())
}

// Does not add a file that an earlier path names too; the earlier file then belongs to the folder. The first `earlier` files are those of
// earlier paths.
fn add_filed(
    gathered: &mut Gathered,
    earlier: usize,
    filed: Option<Filed>,
) -> Result<(), AllocError> {
    let Some(filed) = filed else {
        return Ok(());
    };
    for known in gathered.files.iter_mut().take(earlier) {
        if known.path.as_str() == filed.path.as_str() {
            if known.folder.is_none() {
                known.folder = filed.folder;
            }
            return Ok(());
        }
    }
    gathered.files.push(filed)?;
    Ok(())
}

// Its number among the folders, if it is one.
fn add_folder(
    host: &HostRuntime,
    alloc: Global,
    path: &str,
    gathered: &mut Gathered,
) -> Result<Option<usize>, AllocError> {
    let is_folder = match fs::metadata(host, path) {
        Ok(data) => data.is_dir(),
        Err(_) => false,
    };
    if !is_folder {
        return Ok(None);
    }
    let number = gathered.folders.len();
    gathered.folders.push(from_root(host, alloc, path)?)?;
    Ok(Some(number))
}

fn from_root(host: &HostRuntime, alloc: Global, path: &str) -> Result<String, AllocError> {
    match fs::canonicalize(host, path) {
        Ok(whole) => Ok(whole.into_string()),
        Err(error) if error.kind() == ErrorKind::OutOfMemory => Err(AllocError),
        Err(_) => String::from_str(alloc, path),
    }
}

// Whether a file is one of the folder that a boot loads.
fn is_in_boot(
    host: &HostRuntime,
    alloc: Global,
    parent: &Option<String>,
    boot: NextBoot<'_>,
) -> Result<bool, AllocError> {
    let (Some(folder), Some(parent)) = (boot.folder, parent) else {
        return Ok(false);
    };
    let boots = from_root(host, alloc, folder)?;
    let is_same = parent.as_str() == boots.as_str();
    drop(boots);
    Ok(is_same)
}

// The folder that a file is in, by its path.
fn parent_of(path: &str) -> &str {
    match path.rsplit_once('/') {
        Some((parent, _)) if !parent.is_empty() => parent,
        Some(_) => "/",
        None => ".",
    }
}

// Why a boot would leave all files of the folder out; empty, if it would not.
fn folder_left(
    host: &HostRuntime,
    alloc: Global,
    path: &str,
    user: u32,
) -> Result<String, AllocError> {
    match fs::metadata(host, path) {
        Ok(data) => left_at_boot(alloc, &data, user, "its folder is "),
        Err(_) => Ok(String::new(alloc)),
    }
}

// What the file comes to. None: it is a folder without a definition.
fn filed_of(
    host: &HostRuntime,
    alloc: Global,
    found: &Found,
    folder: Option<usize>,
    parent: &Option<String>,
) -> Result<Option<Filed>, AllocError> {
    let path = found.path.as_str();
    let contents = match found.kind {
        Kind::Empty => return Ok(None),
        Kind::Unlisted(ErrorKind::InvalidFilename) => unread(alloc, &"its name is not UTF-8")?,
        Kind::Unlisted(kind) => unread(alloc, &Error::from(kind))?,
        Kind::File => read_at(host, alloc, path)?,
    };
    let mut filed = filed_with(alloc, path, folder, contents)?;
    if let Some(parent) = parent {
        filed.parent = Some(String::from_str(alloc, parent.as_str())?);
    }
    Ok(Some(filed))
}

fn filed_with(
    alloc: Global,
    path: &str,
    folder: Option<usize>,
    contents: Contents,
) -> Result<Filed, AllocError> {
    let Contents {
        label,
        digest,
        standing,
        text,
        why,
    } = contents;
    let label = match label {
        Some(label) => label,
        None => String::from_str(alloc, label_by(name_in(path)))?,
    };
    Ok(Filed {
        path: String::from_str(alloc, path)?,
        folder,
        parent: None,
        label,
        digest,
        standing,
        text,
        why,
        former: None,
    })
}

// Asks what a boot asks of a file that is well. Over all files of a folder there may be a reason to leave them out.
fn leave_at_boot(
    host: &HostRuntime,
    alloc: Global,
    over: &str,
    user: u32,
    filed: &mut Option<Filed>,
) -> Result<(), AllocError> {
    match filed {
        Some(filed) if matches!(filed.standing, FileState::Good) => {
            let why = why_left(host, alloc, over, user, filed.path.as_str())?;
            if !why.is_empty() {
                filed.standing = FileState::LeftAtBoot;
                filed.why = why;
            }
            Ok(())
        }
        _ => Ok(()),
    }
}

fn why_left(
    host: &HostRuntime,
    alloc: Global,
    over: &str,
    user: u32,
    path: &str,
) -> Result<String, AllocError> {
    if !over.is_empty() {
        return String::from_str(alloc, over);
    }
    match fs::metadata(host, path) {
        Ok(data) => left_at_boot(alloc, &data, user, ""),
        Err(_) => Ok(String::new(alloc)),
    }
}

fn unread<D: std::fmt::Display>(alloc: Global, why: &D) -> Result<Contents, AllocError> {
    Ok(Contents {
        label: None,
        digest: String::new(alloc),
        standing: FileState::Unread,
        text: String::new(alloc),
        why: why.to_string(alloc)?,
    })
}

fn read_at(host: &HostRuntime, alloc: Global, path: &str) -> Result<Contents, AllocError> {
    match read_file(host, alloc, path, LINE_LIMIT) {
        Ok(Some(bytes)) => match String::from_utf8(bytes) {
            Ok(text) => contents_of(alloc, text),
            Err(_) => unread(alloc, &"not UTF-8"),
        },
        Ok(None) => unread(alloc, &"too long for a request"),
        Err(error) if error.kind() == ErrorKind::OutOfMemory => Err(AllocError),
        Err(error) => unread(alloc, &error),
    }
}

fn contents_of(alloc: Global, text: String) -> Result<Contents, AllocError> {
    match json_value(alloc, text.as_bytes())? {
        Some(value) => {
            let digest = digest_of_value(alloc, &value)?;
            let digest = String::from_str(alloc, digest.as_str())?;
            let label = label_in(alloc, &value)?;
            drop(value);
            Ok(Contents {
                label,
                digest,
                standing: FileState::Good,
                text,
                why: String::new(alloc),
            })
        }
        None => Ok(Contents {
            label: None,
            digest: String::new(alloc),
            standing: FileState::Unread,
            text,
            why: String::from_str(alloc, "not JSON")?,
        }),
    }
}

fn label_in(alloc: Global, value: &Value) -> Result<Option<String>, AllocError> {
    match value.get("Label") {
        Some(Value::String(label)) => Ok(Some(String::from_str(alloc, label.as_str())?)),
        _ => Ok(None),
    }
}
