//! A client of a job's socket.

ghost use Rattle.std.specs.Io.{ReadsAtMost};

use mio::net::{TcpStream, UnixStream};
use std::io;
use std::io::{Read, Write};

/// The connection of a client that came to a job's socket. It does not block: a read or a write that would is the error
/// `WouldBlock`.
#[derive(Drop)]
pub enum Client {
    Unix(UnixStream),
    Inet(TcpStream),
}

impl Client {
    /// Reads what came, up to the length of `piece`; 0 if the client sends no more.
    pub fn read(&mut self, piece: &mut [u8]) -> io::Result<usize>
        ensures { ReadsAtMost result piece.new }
    {
        match self {
            Client::Unix(stream) => stream.read(piece),
            Client::Inet(stream) => stream.read(piece),
        }
    }
}

impl Write for Client {
    /// Sends what the client's side takes of `piece` at once, and says how many bytes that was.
    fn write(&mut self, piece: &[u8]) -> io::Result<usize> {
        match self {
            Client::Unix(stream) => stream.write(piece),
            Client::Inet(stream) => stream.write(piece),
        }
    }

    fn flush(&mut self) -> io::Result<()> {
        match self {
            Client::Unix(stream) => stream.flush(),
            Client::Inet(stream) => stream.flush(),
        }
    }
}
