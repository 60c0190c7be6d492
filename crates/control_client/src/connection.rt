//! The connection to the launcher.

use crate::fault::Fault;
use crate::reply::{Replied, read_reply};
use std::alloc::Global;
use std::io;
use std::io::{BufRead, BufReader, ErrorKind, Read, Write};
use std::net::Net;
use std::os::unix::net::UnixStream;
use std::time::Duration;

/// How many bytes a reply has at most before its newline.
pub const REPLY: usize = 1_048_576;

/// A connection to a launcher's control socket.
#[derive(Drop)]
pub struct Connection {
    reader: BufReader<UnixStream>,
    // The longest wait for a part of an answer, in seconds; 0 means no limit.
    patience: u32,
}

impl Connection {
    /// Connects to the launcher whose socket is at the path. An answer is waited for `patience` seconds, or for ever if
    /// they are 0.
    pub fn open<R: Net>(
        rt: &R,
        alloc: Global,
        socket: &str,
        patience: u32,
    ) -> Result<Connection, Fault> {
        match connect(rt, alloc, socket, patience) {
            Ok(reader) => Ok(Connection { reader, patience }),
            Err(error) => Err(Fault::of_connection(error)),
        }
    }

    /// Sends a request's line, and waits for its reply. A launcher that has no room for a client says so and ends the
    /// connection. So it reads that reply also if the request can't be sent.
    pub fn ask(&mut self, alloc: Global, request: &[u8]) -> Result<Replied, Fault> {
        let sent = self.reader.get_mut().write_all(request);
        match sent {
            Ok(()) => self.receive_in_time(alloc),
            Err(error) if error.kind() == ErrorKind::WouldBlock => {
                Err(Fault::Silent(self.patience))
            }
            Err(error) => match receive(alloc, &mut self.reader) {
                Ok(reply) => Ok(reply),
                Err(_) => Err(Fault::of_connection(error)),
            },
        }
    }

    fn receive_in_time(&mut self, alloc: Global) -> Result<Replied, Fault> {
        match receive(alloc, &mut self.reader) {
            Err(Fault::Connection(error)) if error.kind() == ErrorKind::WouldBlock => {
                Err(Fault::Silent(self.patience))
            }
            received => received,
        }
    }
}

/// Waits for the next reply and takes it. A fault: the connection fails or ends before the reply does, the reply has more
/// than [`REPLY`] bytes before its newline, or it is not a reply; want of memory.
pub fn receive<B: BufRead>(alloc: Global, reader: &mut B) -> Result<Replied, Fault> {
    let mut line = Vec::new(alloc);
    match read_line(reader, &mut line) {
        Ok(()) => replied_in(alloc, line.as_slice()),
        Err(error) => Err(Fault::of_connection(error)),
    }
}

// Adds the bytes up to the next newline, or one more than a reply may have.
fn read_line<B: BufRead>(reader: &mut B, line: &mut Vec<u8>) -> io::Result<()> {
    let mut front = reader.by_ref().take(REPLY as u64 + 1);
    let _count = front.read_until(b'\n', line)?;
    Ok(())
}

fn connect<R: Net>(
    rt: &R,
    alloc: Global,
    socket: &str,
    patience: u32,
) -> io::Result<BufReader<UnixStream>> {
    let stream = UnixStream::connect(rt, socket)?;
    if patience > 0 {
        let longest = Some(Duration::from_secs(u64::from(patience)));
        stream.set_read_timeout(longest)?;
        stream.set_write_timeout(longest)?;
    }
    BufReader::new(alloc, stream)
}

fn replied_in(alloc: Global, line: &[u8]) -> Result<Replied, Fault> {
    let Some((b'\n', reply)) = line.split_last() else {
        return Err(if line.len() <= REPLY {
            Fault::NoReply
        } else {
            Fault::LongReply
        });
    };
    match read_reply(alloc, reply)? {
        Some(answered) => Ok(answered),
        None => Err(Fault::BadReply),
    }
}
