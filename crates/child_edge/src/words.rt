//! The lines of the edge's notices: forms whose holes are filled. Each is absent where there was no memory for it.

use Hole::{Error, Host, Number, Text};
use history_model::definition::{Address, Socket};
use std::alloc::{AllocError, Global};
use std::fmt::Write;
use std::io;
use std::net::Ipv4Addr;

/// How many bytes of a text are logged: the longest path has no more.
const LONGEST: usize = 1_024;

/// What is in a hole.
#[derive(Clone, Copy)]
pub(crate) enum Hole<'a> {
    Text(&'a str),
    Number(u64),
    Error(io::Error),
    Host(Ipv4Addr),
}

/// The form, in which each `$` stands for the next of the holes. Holes for which there is no `$` are left out.
pub(crate) fn filled(alloc: Global, form: &str, holes: &[Hole<'_>]) -> Option<String> {
    let mut line = String::new(alloc);
    let answer = fill(&mut line, form, holes);
    whole(line, answer)
}

/// The refusal that the form says, after the job's label and the run if it is one of a run.
pub(crate) fn refusal(
    alloc: Global,
    label: &str,
    run: Option<u64>,
    form: &str,
    holes: &[Hole<'_>],
) -> Option<String> {
    let mut line = String::new(alloc);
    let answer = match begin(&mut line, label, run) {
        Ok(()) => fill(&mut line, form, holes),
        Err(error) => Err(error),
    };
    whole(line, answer)
}

// The line, if it found memory.
fn whole(line: String, answer: Result<(), AllocError>) -> Option<String> {
    match answer {
        Ok(()) => Some(line),
        Err(_) => {
            drop(line);
            None
        }
    }
}

fn begin(line: &mut String, label: &str, run: Option<u64>) -> Result<(), AllocError> {
    match put_plain(line, label) {
        Ok(()) => {}
        Err(error) => return Err(error),
    }
    match run {
        Some(run) => write!(line, ": run {run}: "),
        None => line.push_str(": "),
    }
}

fn fill(line: &mut String, form: &str, holes: &[Hole<'_>]) -> Result<(), AllocError> {
    let mut next = 0usize;
    for letter in form.chars() {
        let answer = if letter == '$' {
            let hole = holes.get(next);
            next = next.saturating_add(1);
            put(line, hole)
        } else {
            line.push(letter)
        };
        match answer {
            Ok(()) => {}
            Err(error) => return Err(error),
        }
    }
    Ok(())
}

fn put(line: &mut String, hole: Option<&Hole<'_>>) -> Result<(), AllocError> {
    match hole {
        Some(Text(text)) => put_plain(line, *text),
        Some(Number(number)) => write!(line, "{number}"),
        Some(Error(error)) => write!(line, "{error}"),
        Some(Host(host)) => write!(line, "{host}"),
        None => Ok(()),
    }
}

// The text with `?` for each control character: a path may hold a newline, and what comes after it would pass for a
// line of the launcher's own. Of a longer text the beginning is logged: a pipe then takes a line whole, which takes
// 4,096 bytes.
fn put_plain(line: &mut String, text: &str) -> Result<(), AllocError> {
    let start = line.len();
    for letter in text.chars() {
        if line.len().saturating_sub(start) >= LONGEST {
            return line.push_str("...");
        }
        let plain = if letter.is_control() { '?' } else { letter };
        match line.push(plain) {
            Ok(()) => {}
            Err(error) => return Err(error),
        }
    }
    Ok(())
}

/// What is logged of a socket that could not be bound.
pub(crate) fn cannot_bind(
    socket: Option<&Socket>,
    error: io::Error,
) -> (&'static str, [Hole<'_>; 3]) {
    let fault = Error(error);
    let Some(socket) = socket else {
        return ("cannot bind its sockets: $", [fault; 3]);
    };
    match &socket.address {
        Address::Unix(path) => ("cannot bind $: $", [Text(path.as_str()), fault, fault]),
        Address::Inet { host, port } => {
            let host = Ipv4Addr::from_octets(*host);
            let holes = [Host(host), Number(u64::from(*port)), fault];
            ("cannot bind $ port $: $", holes)
        }
    }
}
