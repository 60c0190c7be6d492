//! What no clause says: lines as other programs write and read them, and that each call succeeds.

use ctl_protocol::{
    LineRoom, ReadFault, event_line, header_line, read_event, read_header, read_request,
    read_target, request_line,
};
use std::alloc::{AllocError, Global};

pub mod cases;
pub mod outcomes;

/// What a line is read as.
#[derive(Clone, Copy)]
pub enum Kind {
    Event,
    Request,
    Header,
    Target,
}

/// The bytes of a label, and a newline.
fn label_line(alloc: Global, label: &str) -> Result<Vec<u8>, AllocError> {
    let mut line = Vec::new(alloc);
    line.extend_from_slice(label.as_bytes())?;
    line.push(b'\n')?;
    Ok(line)
}

/// The line, read and written again. A target has no line of its own: its label is written.
pub fn again(alloc: Global, kind: Kind, line: &str) -> Result<Vec<u8>, ReadFault> {
    let mut room = LineRoom::new(alloc)?;
    let written = match kind {
        Kind::Event => match read_event(alloc, line.as_bytes(), &mut room) {
            Ok(event) => {
                let line = event_line(alloc, &event);
                drop(event);
                line
            }
            Err(fault) => return Err(fault),
        },
        Kind::Request => match read_request(alloc, line.as_bytes(), &mut room) {
            Ok(request) => {
                let line = request_line(alloc, &request);
                drop(request);
                line
            }
            Err(fault) => return Err(fault),
        },
        Kind::Header => match read_header(alloc, line.as_bytes()) {
            Ok(header) => {
                let line = header_line(alloc, &header);
                drop(header);
                line
            }
            Err(fault) => return Err(fault),
        },
        Kind::Target => match read_target(alloc, line) {
            Ok(label) => label_line(alloc, label.as_str()),
            Err(fault) => return Err(fault),
        },
    };
    match written {
        Ok(line) => Ok(line),
        Err(_) => Err(ReadFault::NoMemory),
    }
}

/// Whether the line is written again as it is. Not if memory ran out.
fn is_kept(alloc: Global, kind: Kind, line: &str) -> bool {
    match again(alloc, kind, line) {
        Ok(written) => outcomes::is_line(written.as_slice(), line),
        Err(_) => false,
    }
}

/// Whether each line is.
pub fn are_kept(alloc: Global, kind: Kind, lines: &str) -> bool {
    let mut are_kept = true;
    for line in lines.lines() {
        are_kept &= is_kept(alloc, kind, line);
    }
    are_kept
}
