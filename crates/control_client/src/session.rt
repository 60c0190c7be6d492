//! The requests of one run, in their order, and the exit status that they come to.

use crate::connection::Connection;
use crate::fault::{Fault, tell, tell_unnamed};
use crate::program::Watched;
use crate::reply::Replied;
use crate::request::request_of;
use ctl_protocol::Request;
use exit_status::{BAD_OUTPUT, NO_ANSWER};
use history_model::Text;
use plain_text::plain_char;
use std::alloc::{AllocError, Global};
use std::net::Net;

/// One connection for all requests, made for the first.
#[derive(Drop)]
pub(crate) struct Session {
    socket: Text,
    connection: Option<Connection>,
    // The longest wait for a part of an answer, in seconds; 0 means no limit.
    patience: u32,
    // Nothing names the socket, and the package's socket exists.
    is_unnamed: bool,
    // The first that is not 0.
    status: u8,
}

impl Session {
    /// No request yet to the launcher at the socket. Its answers are waited for `patience` seconds, or for ever if they are
    /// 0. `is_unnamed`: nothing names the socket, and that of the package exists.
    pub(crate) fn new(socket: Text, patience: u32, is_unnamed: bool) -> Session {
        Session {
            socket,
            connection: None,
            patience,
            is_unnamed,
            status: 0,
        }
    }

    /// The path of the launcher's control socket.
    pub(crate) fn socket(&self) -> &str {
        self.socket.as_str()
    }

    pub(crate) fn status(&self) -> u8 {
        self.status
    }

    pub(crate) fn note(&mut self, status: u8) {
        if self.status == 0 {
            self.status = status;
        }
    }

    /// Sends the request and prints the reply's text, after the name if there are both. Returns the reply's code.
    pub(crate) fn ask<R: Net + Print + Eprint + Watched>(
        &mut self,
        rt: &R,
        alloc: Global,
        request: &Request<'_>,
        name: Option<&str>,
    ) -> Result<u8, Fault> {
        let line = request_of(alloc, request)?;
        let reply = self.exchange(rt, alloc, line.as_slice())?;
        self.note(reply.code);
        print(rt, alloc, &reply, name)?;
        Ok(reply.code)
    }

    /// Sends the request, prints the reply's text, and reports what kept the request from its reply. Returns the reply's
    /// code.
    pub(crate) fn ask_once<R: Net + Print + Eprint + Watched>(
        &mut self,
        rt: &R,
        alloc: Global,
        request: &Request<'_>,
    ) -> Option<u8> {
        match self.ask(rt, alloc, request, None) {
            Ok(code) => Some(code),
            Err(fault) => {
                self.fail(rt, alloc, "request", &fault);
                None
            }
        }
    }

    /// Asks this. The reply is not printed, and makes no difference to the exit status.
    pub(crate) fn look<R: Net>(
        &mut self,
        rt: &R,
        alloc: Global,
        request: &Request<'_>,
    ) -> Result<Replied, Fault> {
        let line = request_of(alloc, request)?;
        let replied = self.exchange(rt, alloc, line.as_slice());
        drop(line);
        if replied.is_err() {
            self.connection = None;
        }
        replied
    }

    fn exchange<R: Net>(&mut self, rt: &R, alloc: Global, line: &[u8]) -> Result<Replied, Fault> {
        if self.connection.is_none() {
            let connection = Connection::open(rt, alloc, self.socket.as_str(), self.patience)?;
            self.connection = Some(connection);
        }
        match &mut self.connection {
            Some(connection) => connection.ask(alloc, line),
            None => Err(Fault::NoReply),
        }
    }

    /// Reports what kept the request for the file from its reply. It does not report that the output's reader has closed it.
    pub(crate) fn fail<R: Eprint>(&mut self, rt: &R, alloc: Global, file: &str, fault: &Fault) {
        let status = fault.status();
        let about = match status {
            NO_ANSWER => self.socket.as_str(),
            BAD_OUTPUT => "standard output",
            _ => file,
        };
        if status == NO_ANSWER && self.is_unnamed {
            tell_unnamed(rt, about, fault);
        } else {
            tell(rt, alloc, about, fault);
        }
        self.note(status);
    }
}

// Prints to the standard output at code 0, else to the standard error. The file's name comes first if there is one, but on
// the standard output only if there is text. On a terminal the only control characters are its newlines and tabs.
fn print<R: Print + Eprint + Watched>(
    rt: &R,
    alloc: Global,
    reply: &Replied,
    name: Option<&str>,
) -> Result<(), Fault> {
    let is_terminal = if reply.code == 0 {
        rt.is_shown()
    } else {
        rt.is_watched()
    };
    if !is_terminal {
        return print_text(rt, reply.code, reply.text.as_str(), name);
    }
    let shown = shown_text(alloc, reply.text.as_str())?;
    print_text(rt, reply.code, shown.as_str(), name)
}

fn print_text<R: Print + Eprint>(
    rt: &R,
    code: u8,
    text: &str,
    name: Option<&str>,
) -> Result<(), Fault> {
    let (front, name, end) = match name {
        Some(name) if code != 0 || !text.is_empty() => ("jobctl: ", name, ":\n"),
        _ => ("", "", ""),
    };
    if code != 0 {
        let _written = eprint!(rt; "{front}{name}{end}{text}");
        return Ok(());
    }
    match print!(rt; "{front}{name}{end}{text}") {
        Ok(()) => Ok(()),
        Err(error) => Err(Fault::Output(error)),
    }
}

// The text with each hidden character as U+FFFD, but for newlines and tabs.
fn shown_text(alloc: Global, text: &str) -> Result<String, AllocError> {
    let mut shown = String::new(alloc);
    for c in text.chars() {
        shown.push(if c == '\n' || c == '\t' {
            c
        } else {
            plain_char(c)
        })?;
    }
    Ok(shown)
}
