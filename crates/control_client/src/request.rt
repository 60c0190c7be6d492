//! What is asked of the launcher.

use crate::fault::Fault;
use ctl_protocol::{LINE_LIMIT, Outside, Request, event_line, request_line};
use files_and_process::path_files::{read_file, read_front};
use history_model::Text;
use job_defs::{DefFault, read_def};
use std::alloc::Global;
use std::fs::Files;
use std::io;

/// What a process has open already: the user named it, and it is waited for.
const STREAMS: [&str; 3] = ["/dev/stdin", "/dev/fd/", "/proc/self/fd/"];

/// The text of the file. A fault: it can't be read, is not a plain file, is too long for a line, or is not UTF-8. Only plain files are opened, since
/// others may wait; the exception is this process's own streams.
pub(crate) fn text_at<R: Files>(rt: &R, alloc: Global, path: &str) -> Result<Text, Fault> {
    let read = if STREAMS.iter().any(|front| path.starts_with(*front)) {
        read_stream(rt, alloc, path)
    } else {
        read_file(rt, alloc, path, LINE_LIMIT)
    };
    match read {
        Ok(Some(bytes)) => match String::from_utf8(bytes) {
            Ok(text) => Ok(Text::new(text)),
            Err(_) => Err(Fault::NotText),
        },
        Ok(None) => Err(Fault::TooLong),
        Err(error) => Err(Fault::of_file(error)),
    }
}

fn read_stream<R: Files>(rt: &R, alloc: Global, path: &str) -> io::Result<Option<Vec<u8>>> {
    let mut bytes = Vec::new(alloc);
    read_front(rt, path, LINE_LIMIT, &mut bytes)?;
    Ok(if bytes.len() <= LINE_LIMIT {
        Some(bytes)
    } else {
        None
    })
}

/// The label of the definition that the text is. A fault: it is not a definition.
pub(crate) fn label_of(alloc: Global, text: Text) -> Result<Text, Fault> {
    let read = read_def(alloc, text.as_str().as_bytes());
    drop(text);
    match read {
        Ok(def) => {
            let label = Text::copy_of(alloc, def.label());
            drop(def);
            match label {
                Ok(label) => Ok(label),
                Err(_) => Err(Fault::NoMemory),
            }
        }
        Err(DefFault::NoMemory) => Err(Fault::NoMemory),
        Err(fault) => Err(Fault::Definition(fault)),
    }
}

// The journal may say `false` where the event has `true`, once of the job's sockets and once of the store.
const REFUSED_MORE: usize = 2;

/// The line that asks this, with its newline. TooLong: it has more than [`LINE_LIMIT`] bytes before it. LongRecord: the line that the
/// launcher's journal may get for it has.
pub fn request_of(alloc: Global, request: &Request<'_>) -> Result<Vec<u8>, Fault> {
    let line = request_line(alloc, request)?;
    if line.len() > LINE_LIMIT + 1 {
        return Err(Fault::TooLong);
    }
    if record_len(alloc, request)? > LINE_LIMIT + 1 {
        return Err(Fault::LongRecord);
    }
    Ok(line)
}

// The longest that the journal's line for the request may be, with its newline.
fn record_len(alloc: Global, request: &Request<'_>) -> Result<usize, Fault> {
    let record = event_line(alloc, &request.with(Outside::unasked()))?;
    Ok(record.len().saturating_add(REFUSED_MORE))
}
