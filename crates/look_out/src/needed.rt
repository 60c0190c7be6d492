//! What the system opens besides a program's own file before it is started (execve(2)). This is the interpreter that a
//! script names in its first line, or the loader that an ELF file names (elf(5), `PT_INTERP`). What such an interpreter
//! needs is opened too.

use crate::told::Told;
use crate::walking::may_go;
use std::alloc::{AllocError, Global};
use std::fs::{File, Files};
use std::io::{Read, Write};
use std::os::unix::fs::FileExt;
use std::rt::Env;
use std::{fs, io};

/// How many bytes of a program the system reads to see what kind it is.
const HEAD: usize = 256;

/// How many interpreters are followed. The system refuses a program after this number at the latest: four of scripts
/// are run.
const LEVELS: usize = 6;

/// How long the path of a loader may be, with its NUL.
const LONGEST: usize = 4_096;

/// The part of an ELF file that names its loader.
const NAMES_LOADER: u64 = 3;

/// Reads the first bytes of the program, of its interpreter, and so on: what hangs there has hung here. A path that
/// does not begin with a slash is taken from the folder. Of what may not be read only the metadata is read. False: one
/// of them leads to where nothing is asked now.
pub(crate) fn follow<R: AllocGlobal + Env + Files<File = File>, S: Write>(
    rt: &R,
    told: &Told,
    socket: &mut S,
    folder: &str,
    program: &str,
) -> io::Result<bool> {
    let alloc = rt.alloc();
    let mut path = String::from_str(alloc, program)?;
    for _ in 0..=LEVELS {
        let found = needed_by(rt, alloc, path.as_str())?;
        path.clear();
        match found {
            None => break,
            Some(needed) => {
                let is_put = put_below(&mut path, folder, needed.as_str());
                drop(needed);
                is_put?;
            }
        }
        if !may_go(rt, alloc, told, socket, path.as_str(), false)? {
            drop(path);
            return Ok(false);
        }
    }
    drop(path);
    Ok(true)
}

/// The path as it is from the folder; from this process's own if that has no name.
pub(crate) fn put_below(text: &mut String, folder: &str, path: &str) -> Result<(), AllocError> {
    if !path.starts_with('/') && !folder.is_empty() {
        text.push_str(folder)?;
        text.push_str("/")?;
    }
    text.push_str(path)
}

// What the file at the path names, if it is a plain file that may be read.
fn needed_by<R: Files<File = File>>(
    rt: &R,
    alloc: Global,
    path: &str,
) -> Result<Option<String>, AllocError> {
    match fs::metadata(rt, path) {
        Ok(data) if data.is_file() => {}
        _ => return Ok(None),
    }
    let Ok(file) = File::open(rt, path) else {
        return Ok(None);
    };
    let mut file = file;
    let mut head = [0u8; HEAD];
    let count = match file.read(&mut head) {
        Ok(count) => count,
        Err(_) => 0,
    };
    let needed = needed_in(alloc, &file, &head[..count]);
    drop(file);
    needed
}

fn needed_in(alloc: Global, file: &File, head: &[u8]) -> Result<Option<String>, AllocError> {
    if let Some(name) = interpreter_in(head) {
        return Ok(Some(String::from_str(alloc, name)?));
    }
    let Some(table) = table_in(head) else {
        return Ok(None);
    };
    for line in 0..table.lines {
        let mut part = [0u8; 56];
        let place = table.place.saturating_add(table.width.saturating_mul(line));
        if file
            .read_exact_at(&mut part[..table.read.min(56)], place)
            .is_err()
        {
            return Ok(None);
        }
        if let Some((place, length)) = loader_in(&table, &part) {
            return loader_at(alloc, file, place, length);
        }
    }
    Ok(None)
}

fn loader_at(
    alloc: Global,
    file: &File,
    place: u64,
    length: usize,
) -> Result<Option<String>, AllocError> {
    let mut room = [0u8; LONGEST];
    let length = length.min(LONGEST);
    if file.read_exact_at(&mut room[..length], place).is_err() {
        return Ok(None);
    }
    match name_in(&room[..length]) {
        Some(name) => Ok(Some(String::from_str(alloc, name)?)),
        None => Ok(None),
    }
}

/// The interpreter that the first line of a script names: after `#!` and blanks, up to a blank, a NUL or the end of the
/// line. One whose end is not within the head is none, since the system refuses it.
pub(crate) fn interpreter_in(head: &[u8]) -> Option<&str> {
    let line = head.strip_prefix(b"#!".as_slice())?;
    let from = count_while(line, Kind::Blank);
    let name = &line[from.min(line.len())..];
    let length = count_while(name, Kind::Name);
    if length >= name.len() && head.len() >= HEAD {
        return None;
    }
    name_in(&name[..length.min(name.len())])
}

// The text up to a NUL, if there is one.
fn name_in(bytes: &[u8]) -> Option<&str> {
    let length = count_while(bytes, Kind::NoNul);
    match std::str::from_utf8(&bytes[..length.min(bytes.len())]) {
        Ok(name) if !name.is_empty() => Some(name),
        _ => None,
    }
}

/// Which bytes are counted.
#[derive(Clone, Copy)]
enum Kind {
    /// Blanks and tabs.
    Blank,
    /// Those of a name in the first line of a script.
    Name,
    /// All but a NUL.
    NoNul,
}

fn is_of(kind: Kind, byte: u8) -> bool {
    match kind {
        Kind::Blank => byte == b' ' || byte == b'\t',
        Kind::Name => byte != b' ' && byte != b'\t' && byte != b'\n' && byte != 0,
        Kind::NoNul => byte != 0,
    }
}

// How many bytes at the front are of the kind.
fn count_while(bytes: &[u8], kind: Kind) -> usize {
    let mut count = 0usize;
    for byte in bytes {
        if !is_of(kind, *byte) {
            return count;
        }
        count = count.saturating_add(1);
    }
    count
}

/// Where an ELF file lists its parts: how many lines of this width, and how many bytes are read of each.
#[derive(Clone, Copy)]
struct Table {
    place: u64,
    width: u64,
    lines: u64,
    read: usize,
    is_wide: bool,
    is_big: bool,
}

fn table_in(head: &[u8]) -> Option<Table> {
    if !head.starts_with(b"\x7fELF".as_slice()) {
        return None;
    }
    let is_wide = number_in(head, 4, 1, false) == 2;
    let is_big = number_in(head, 5, 1, false) == 2;
    let (place, width, lines, read) = if is_wide {
        (
            number_in(head, 32, 8, is_big),
            number_in(head, 54, 2, is_big),
            number_in(head, 56, 2, is_big),
            56,
        )
    } else {
        (
            number_in(head, 28, 4, is_big),
            number_in(head, 42, 2, is_big),
            number_in(head, 44, 2, is_big),
            32,
        )
    };
    Some(Table {
        place,
        width,
        lines,
        read,
        is_wide,
        is_big,
    })
}

// Where the loader's path is in the file, and its length, if the line is the one that says it.
fn loader_in(table: &Table, line: &[u8]) -> Option<(u64, usize)> {
    if number_in(line, 0, 4, table.is_big) != NAMES_LOADER {
        return None;
    }
    let (place, length) = if table.is_wide {
        (
            number_in(line, 8, 8, table.is_big),
            number_in(line, 32, 8, table.is_big),
        )
    } else {
        (
            number_in(line, 4, 4, table.is_big),
            number_in(line, 16, 4, table.is_big),
        )
    };
    match usize::try_from(length) {
        Ok(length) => Some((place, length)),
        Err(_) => None,
    }
}

// The number of `width` bytes at this place; a byte that is not there is 0.
fn number_in(bytes: &[u8], place: usize, width: usize, is_big: bool) -> u64 {
    let mut number = 0u64;
    for at in 0..width {
        let behind = width.saturating_sub(at).saturating_sub(1);
        let byte = match bytes.get(place.saturating_add(if is_big { at } else { behind })) {
            Some(byte) => *byte,
            None => 0,
        };
        number = number.wrapping_mul(256) | u64::from(byte);
    }
    number
}
