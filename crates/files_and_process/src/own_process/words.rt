//! The arguments of a program.

use super::program::{Program, program_meant};
use std::alloc::{AllocError, Global};
use std::rt::Env;
use std::{env, io, str};

/// How many bytes the longest argument has with which Linux starts a program (`MAX_ARG_STRLEN`).
const LONGEST: usize = 131_072;

/// The arguments of this program, its own name first. It fails for want of memory, and if one of them is not UTF-8.
pub fn own_words<R: Env + AllocGlobal>(rt: &R) -> io::Result<Vec<String>> {
    let mut words = Vec::new(rt.alloc());
    for word in env::args(rt)? {
        words.push(word)?;
    }
    Ok(words)
}

/// The last character of a text that was not UTF-8. No file's name has it, so none is taken for another.
pub const MARK: char = '\0';

/// The bytes as a text. If they are not UTF-8, it has U+FFFD for the invalid ones, and [`MARK`] at its end. It fails
/// for want of memory.
pub(crate) fn marked(alloc: Global, bytes: &[u8]) -> Result<String, AllocError> {
    let mut text = String::from_utf8_lossy(alloc, bytes)?;
    if str::from_utf8(bytes).is_err() {
        text.push(MARK)?;
    }
    Ok(text)
}

/// The arguments of this program, its own name first. An argument that is not UTF-8 is marked. It fails for want of
/// memory.
pub fn marked_words<R: Env + AllocGlobal>(rt: &R) -> Result<Vec<String>, AllocError> {
    let mut room = Vec::from_elem(rt.alloc(), 0, LONGEST)?;
    let mut words = Vec::new(rt.alloc());
    for number in 0..usize::MAX {
        match rt.arg(number, room.as_mut_slice()) {
            Ok(length) => words.push(marked(rt.alloc(), &room.as_slice()[..length])?)?,
            Err(_) => break,
        }
    }
    Ok(words)
}

/// The program that its name means, also if the name or another argument is not UTF-8. It fails for want of memory.
pub fn own_program<R: Env + AllocGlobal>(rt: &R) -> Result<Program, AllocError> {
    let mut room = Vec::from_elem(rt.alloc(), 0, LONGEST)?;
    match rt.arg(0, room.as_mut_slice()) {
        Ok(length) => Ok(program_meant(&room.as_slice()[..length])),
        Err(_) => Ok(Program::Jobd),
    }
}
