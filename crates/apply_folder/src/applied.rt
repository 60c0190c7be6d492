//! What applies of folders loaded, as a file next to the launcher's store keeps it. It has a line of JSON for each folder, with its files and the
//! labels under which they were loaded, and a line for each definition.

use json_kinds::json_value;
use json_lines::put_quoted;
use run_times::Piece::Text;
use run_times::TextWriter;
use serde_json::Value;
use std::alloc::{AllocError, Global};
use std::fs::OpenOptions;
use std::io::Write;
use std::os::unix::fs::{MetadataExt, OpenOptionsExt};
use std::{fs, io};

/// How many bytes it may have: a definition for each of the most jobs that a launcher holds.
const LONGEST: usize = 67_108_864;

/// What a line of a definition begins with.
const DEFINITION: &str = "{\"definition\":\"";

/// A file of a folder, and the label under which it was loaded.
#[derive(Drop)]
pub(crate) struct AppliedFile {
    pub(crate) folder: String,
    pub(crate) name: String,
    pub(crate) label: String,
}

/// What was read.
#[derive(Drop)]
pub(crate) struct Applied {
    pub(crate) files: Vec<AppliedFile>,
    /// All lines.
    pub(crate) text: String,
}

impl Applied {
    /// Nothing was applied.
    pub(crate) fn nothing(alloc: Global) -> Applied {
        Applied {
            files: Vec::new(alloc),
            text: String::new(alloc),
        }
    }

    /// The index of this file of this folder. It is looked for at the given index first: it is there if files are asked for in their order.
    pub(crate) fn index_of_file(&self, at: usize, folder: &str, name: &str) -> Option<usize> {
        if let Some(file) = self.files.get(at) {
            if is_file(file, folder, name) {
                return Some(at);
            }
        }
        self.files
            .iter()
            .position(|file| is_file(file, folder, name))
    }

    /// The definition with this digest, if it is kept.
    pub(crate) fn definition(
        &self,
        alloc: Global,
        digest: &str,
    ) -> Result<Option<String>, AllocError> {
        for line in self.text.lines() {
            if digest_in(line) == Some(digest) {
                return text_in(alloc, line);
            }
        }
        Ok(None)
    }
}

fn is_file(file: &AppliedFile, folder: &str, name: &str) -> bool {
    file.name.as_str() == name && file.folder.as_str() == folder
}

/// The digest of a line that keeps a definition.
pub(crate) fn digest_in(line: &str) -> Option<&str> {
    let (digest, _) = line.strip_prefix(DEFINITION)?.split_once('"')?;
    Some(digest)
}

fn text_in(alloc: Global, line: &str) -> Result<Option<String>, AllocError> {
    let Some(value) = json_value(alloc, line.as_bytes())? else {
        return Ok(None);
    };
    let text = member(&value, "text");
    if text.is_empty() {
        return Ok(None);
    }
    Ok(Some(String::from_str(alloc, text)?))
}

fn member<'a>(value: &'a Value, key: &'static str) -> &'a str {
    match value.get(key) {
        Some(text) => text.as_str().unwrap_or(""),
        None => "",
    }
}

/// Reads the file, which must be a plain one of this user. If the file is missing, it returns an empty `Applied`.
pub(crate) fn read_applied(
    host: &HostRuntime,
    alloc: Global,
    path: &str,
    user: u32,
) -> io::Result<Applied> {
    match fs::symlink_metadata(host, path) {
        Ok(data) if !data.is_file() || data.uid() != user => {
            return Err(io::Error::new(
                io::ErrorKind::InvalidInput,
                "it is not a plain file of the launcher's user",
            ));
        }
        Ok(_) => {}
        Err(error) if error.kind() == io::ErrorKind::NotFound => return Ok(Applied::nothing(alloc)),
        Err(error) => return Err(error),
    }
    let Some(bytes) = files_and_process::path_files::read_file(host, alloc, path, LONGEST)? else {
        return Err(io::Error::new(io::ErrorKind::InvalidInput, "it is too long"));
    };
    match applied_in(alloc, bytes) {
        Ok(applied) => Ok(applied),
        Err(_) => Err(io::Error::from(io::ErrorKind::OutOfMemory)),
    }
}

fn applied_in(alloc: Global, bytes: Vec<u8>) -> Result<Applied, AllocError> {
    let Ok(text) = String::from_utf8(bytes) else {
        return Ok(Applied::nothing(alloc));
    };
    let mut files = Vec::new(alloc);
    for line in text.lines() {
        if line.starts_with("{\"folder\":") {
            add_line(alloc, line, &mut files)?;
        }
    }
    Ok(Applied { files, text })
}

fn add_line(alloc: Global, line: &str, files: &mut Vec<AppliedFile>) -> Result<(), AllocError> {
    let Some(value) = json_value(alloc, line.as_bytes())? else {
        return Ok(());
    };
    if let Some(Value::Array(list)) = value.get("files") {
        for file in list {
            add_file(alloc, member(&value, "folder"), file, files)?;
        }
    }
    Ok(())
}

fn add_file(
    alloc: Global,
    folder: &str,
    file: &Value,
    files: &mut Vec<AppliedFile>,
) -> Result<(), AllocError> {
    files.push(AppliedFile {
        folder: String::from_str(alloc, folder)?,
        name: String::from_str(alloc, member(file, "file"))?,
        label: String::from_str(alloc, member(file, "label"))?,
    })?;
    Ok(())
}

/// Adds the line of a folder with these of the files.
pub(crate) fn put_folder(writer: &mut TextWriter, folder: &str, files: &[AppliedFile]) {
    writer.put("{\"folder\":");
    put_quoted(writer, folder);
    writer.put(",\"files\":[");
    let mut between = "";
    for file in files {
        if file.folder.as_str() == folder {
            writer.put(between);
            put_file(writer, file);
            between = ",";
        }
    }
    writer.put("]}\n");
}

fn put_file(writer: &mut TextWriter, file: &AppliedFile) {
    writer.put("{\"file\":");
    put_quoted(writer, file.name.as_str());
    writer.put(",\"label\":");
    put_quoted(writer, file.label.as_str());
    writer.put("}");
}

/// Adds the line of a definition.
pub(crate) fn put_definition(writer: &mut TextWriter, digest: &str, text: &str) {
    writer.put_all(&[Text(DEFINITION), Text(digest), Text("\",\"text\":")]);
    put_quoted(writer, text);
    writer.put("}\n");
}

/// Puts the text in the place of the file. Only this user may read and write it.
pub(crate) fn write_applied(
    host: &HostRuntime,
    alloc: Global,
    path: &str,
    text: &str,
) -> io::Result<()> {
    let beside = format!(in alloc; "{path}.new")?;
    // An apply that was killed may have left it.
    let _gone = fs::remove_file(host, beside.as_str());
    let written = write_beside(host, beside.as_str(), text);
    let put = match written {
        Ok(()) => fs::rename(host, beside.as_str(), path),
        Err(error) => Err(error),
    };
    if put.is_err() {
        let _gone = fs::remove_file(host, beside.as_str());
    }
    drop(beside);
    put
}

fn write_beside(host: &HostRuntime, path: &str, text: &str) -> io::Result<()> {
    let mut options = OpenOptions::new();
    options.write(true).create_new(true).mode(0o600);
    let mut file = options.open(host, path)?;
    let written = file.write_all(text.as_bytes());
    drop(file);
    written
}
