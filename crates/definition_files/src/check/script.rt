//! Whether the system can start a program: a script by its interpreter, an ELF file by its processor, its loader and its length.

use crate::check::there::{PathFound, found_at};
use files_and_process::path_files::read_front;
use run_times::TextWriter;
use std::alloc::Global;
use std::fs::metadata;

/// How much of a program is looked at, in bytes: the name of an interpreter, and the headers of an ELF file.
const FRONT: usize = 4096;

/// Adds why the system can't start the executable file at the path. It is a text without `#!`, its interpreter or its loader is missing, it
/// is for another processor, or it is cut. It adds nothing if the file can't be read.
pub(crate) fn add_script(host: &HostRuntime, alloc: Global, path: &str, writer: &mut TextWriter) {
    let mut front = Vec::new(alloc);
    if read_front(host, path, FRONT, &mut front).is_ok() {
        let told = why_not(host, alloc, path, front.as_slice());
        if !told.is_empty() {
            writer.put_plain(path);
            writer.put(told);
            match interpreter_in(front.as_slice()) {
                Some(interpreter) if told.ends_with(' ') => {
                    writer.put_plain(interpreter);
                    writer.put(" is not there, or not executable");
                }
                _ => {}
            }
        }
    }
    drop(front);
}

// Why a file with this front can't be started; with a blank at its end if the name of the interpreter follows.
fn why_not(host: &HostRuntime, alloc: Global, path: &str, front: &[u8]) -> &'static str {
    if front.starts_with(b"\x7FELF") {
        return why_no_elf(host, alloc, path, front);
    }
    if is_bare(front) {
        return " is a text file without #! in its first line, which the system can't start; begin it with #!/bin/sh, or with another interpreter";
    }
    let Some(interpreter) = interpreter_in(front) else {
        return "";
    };
    if interpreter.ends_with('\r') {
        return " is a script with CR LF at the ends of its lines: the system takes the CR for a part of the interpreter's name; write LF alone";
    }
    match found_at(host, interpreter) {
        Ok(PathFound::Program) => "",
        _ => " is a script whose interpreter ",
    }
}

// Numbers of ELF files of 64 bits, as elf(5) has them: e_machine, and the program headers.
const MACHINE: usize = 18;

fn why_no_elf(host: &HostRuntime, alloc: Global, path: &str, front: &[u8]) -> &'static str {
    let mut own = Vec::new(alloc);
    let is_read = read_front(host, "/proc/self/exe", 64, &mut own).is_ok();
    let is_other = is_read && is_foreign(front, own.as_slice());
    drop(own);
    let size = match metadata(host, path) {
        Ok(data) => data.len(),
        Err(_) => u64::MAX,
    };
    if is_other {
        " is a program for another processor"
    } else if size < 64 || is_cut(front, size) {
        " is a program that is cut off: its file is shorter than its headers say"
    } else {
        ""
    }
}

// A processor of 32 bits is that of the same family, if this machine's programs are for x86 (62 and 3) or Arm (183 and 40).
fn is_foreign(front: &[u8], own: &[u8]) -> bool {
    let theirs = number_at(front, MACHINE, 2);
    let ours = number_at(own, MACHINE, 2);
    let is_family = (ours == 62 && theirs == 3) || (ours == 183 && theirs == 40);
    ours != 0 && front.len() >= 20 && theirs != ours && !is_family
}

// Whether a part of a file of 64 bits that must be loaded, by its headers, goes beyond the file's end.
fn is_cut(front: &[u8], size: u64) -> bool {
    if front.get(4) != Some(&2) || front.get(5) != Some(&1) {
        return false;
    }
    let first = number_at(front, 32, 8) as usize;
    let each = number_at(front, 54, 2) as usize;
    let count = number_at(front, 56, 2) as usize;
    for index in 0..count.min(64) {
        let at = first.saturating_add(each.saturating_mul(index));
        let is_loaded = number_at(front, at, 4) == 1;
        let begin = number_at(front, at.saturating_add(8), 8);
        let end = begin.saturating_add(number_at(front, at.saturating_add(32), 8));
        if is_loaded && end > size {
            return true;
        }
    }
    false
}

// The number in `count` bytes there, the least first; a byte beyond the end is 0.
fn number_at(bytes: &[u8], at: usize, count: usize) -> u64 {
    let mut number: u64 = 0;
    for index in 0..count {
        let back = count.saturating_sub(index).saturating_sub(1);
        let byte = match bytes.get(at.saturating_add(back)) {
            Some(byte) => *byte,
            None => 0,
        };
        number = number.saturating_mul(256).saturating_add(u64::from(byte));
    }
    number
}

// A text, or nothing at all, that does not begin with #!.
fn is_bare(front: &[u8]) -> bool {
    !front.starts_with(b"#!") && !front.contains(&0) && !front.starts_with(b"\x7FELF")
}

// The first part after #!, with a CR that ends its line.
fn interpreter_in(front: &[u8]) -> Option<&str> {
    let rest = front.strip_prefix(b"#!")?;
    let mut end: usize = 0;
    for byte in rest {
        if *byte == b'\n' {
            break;
        }
        end = end.saturating_add(1);
    }
    let line = str::from_utf8(rest.get(..end)?).ok()?;
    let line = line.trim_start_matches([' ', '\t']);
    line.split([' ', '\t']).next()
}
