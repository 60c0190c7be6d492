//! The line of the file: one object of JSON.

use json::Writer;
use json_kinds::json_value;
use serde_json::Value;
use std::alloc::{AllocError, Global};

/// What is written.
#[derive(Clone, Copy)]
pub struct PlacesTold<'a> {
    /// The launcher's process, and the time of its start in ticks since the boot, as field 22 of `/proc/PID/stat` has it.
    pub pid: u32,
    pub began: u64,
    /// Paths from the root. None: it keeps no such file.
    pub journal: Option<&'a str>,
    pub status_file: Option<&'a str>,
    pub store: &'a str,
    pub spool: &'a str,
    /// The folder of definitions, if one is named to it.
    pub jobs: Option<&'a str>,
}

/// What is read.
#[derive(Drop)]
pub struct Places {
    pub pid: u32,
    pub began: u64,
    pub journal: Option<String>,
    pub status_file: Option<String>,
    pub store: String,
    pub spool: String,
    pub jobs: Option<String>,
}

/// The line, with its newline.
pub fn places_line(alloc: Global, told: &PlacesTold<'_>) -> Result<Vec<u8>, AllocError> {
    let mut writer = Writer::new(Vec::new(alloc));
    match put_all(&mut writer, told) {
        Ok(()) => {
            let mut bytes = writer.into_inner();
            bytes.push(b'\n')?;
            Ok(bytes)
        }
        Err(_) => {
            drop(writer);
            Err(AllocError)
        }
    }
}

fn put_all(writer: &mut Writer, told: &PlacesTold<'_>) -> Result<(), AllocError> {
    put_begin(writer)?;
    put_count(writer, "pid", told.pid as u64)?;
    put_count(writer, "began", told.began)?;
    put_path(writer, "journal", told.journal)?;
    put_path(writer, "status_file", told.status_file)?;
    put_path(writer, "store", Some(told.store))?;
    put_path(writer, "spool", Some(told.spool))?;
    put_path(writer, "jobs", told.jobs)?;
    put_end(writer)
}

fn put_begin(writer: &mut Writer) -> Result<(), AllocError> {
    match writer.begin_object() {
        Ok(()) => Ok(()),
        Err(_) => Err(AllocError),
    }
}

fn put_end(writer: &mut Writer) -> Result<(), AllocError> {
    match writer.end_object() {
        Ok(()) => Ok(()),
        Err(_) => Err(AllocError),
    }
}

fn put_key(writer: &mut Writer, key: &str) -> Result<(), AllocError> {
    match writer.key(key) {
        Ok(()) => Ok(()),
        Err(_) => Err(AllocError),
    }
}

fn put_count(writer: &mut Writer, key: &str, count: u64) -> Result<(), AllocError> {
    put_key(writer, key)?;
    match writer.u64(count) {
        Ok(()) => Ok(()),
        Err(_) => Err(AllocError),
    }
}

fn put_path(writer: &mut Writer, key: &str, path: Option<&str>) -> Result<(), AllocError> {
    put_key(writer, key)?;
    let put = match path {
        Some(path) => writer.string(path).is_ok(),
        None => writer.null().is_ok(),
    };
    if put { Ok(()) } else { Err(AllocError) }
}

/// What a line says, without its newline or with it. None: a launcher did not write it.
pub fn places_in(alloc: Global, line: &[u8]) -> Result<Option<Places>, AllocError> {
    match json_value(alloc, line)? {
        Some(value) => {
            let found = places_of(alloc, &value);
            drop(value);
            found
        }
        None => Ok(None),
    }
}

fn places_of(alloc: Global, value: &Value) -> Result<Option<Places>, AllocError> {
    let (Some(pid), Some(began)) = (count_in(value, "pid"), count_in(value, "began")) else {
        return Ok(None);
    };
    let (Some(store), Some(spool)) = (path_in(value, "store"), path_in(value, "spool")) else {
        return Ok(None);
    };
    let Ok(pid) = u32::try_from(pid) else {
        return Ok(None);
    };
    Ok(Some(Places {
        pid,
        began,
        journal: copy_if(alloc, path_in(value, "journal"))?,
        status_file: copy_if(alloc, path_in(value, "status_file"))?,
        store: String::from_str(alloc, store)?,
        spool: String::from_str(alloc, spool)?,
        jobs: copy_if(alloc, path_in(value, "jobs"))?,
    }))
}

fn count_in(value: &Value, key: &str) -> Option<u64> {
    value.get(key)?.as_u64()
}

// Paths begin at the root.
fn path_in<'a>(value: &'a Value, key: &str) -> Option<&'a str> {
    let path = value.get(key)?.as_str()?;
    if path.starts_with('/') {
        Some(path)
    } else {
        None
    }
}

fn copy_if(alloc: Global, path: Option<&str>) -> Result<Option<String>, AllocError> {
    match path {
        Some(path) => Ok(Some(String::from_str(alloc, path)?)),
        None => Ok(None),
    }
}
