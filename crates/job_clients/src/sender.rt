//! A client's connection, as its request is read.

ghost use Rattle.std.specs.Prelude.{◌≡◌, ℕ, List, Option, Some, None};
ghost use Rattle.std.specs.Io.{ReadsAtMost};
ghost use Rattle.std.specs.Io.KnownBytes.{ReadConsumes};

use child_edge::Client;
use mio::{Interest, Registry, Token};
use std::io;
use std::io::Read;

/// A client that sends a request. A connection of the system does not say what it will send. One in memory does: it is a slice of bytes,
/// all of which are there at once.
pub trait Sender {
    /// The bytes that it sends from here on, where they are known.
    ghost remaining: { Self → Option (List ℕ) } = { λ _. None };

    /// Reads what came, up to the length of `piece`; 0 if the client sends no more.
    fn read(&mut self, piece: &mut [u8]) -> io::Result<usize>
        ensures bound { ReadsAtMost result piece.new }
        ensures bytes { ReadConsumes (remaining self.old) (remaining self.new) result piece.new };

    /// Has what the client sends and takes wake the poll, under the token.
    fn register(&mut self, registry: &Registry, token: Token) -> io::Result<()>
        ensures { remaining self.new ≡ remaining self.old };
}

impl Sender for Client {
    fn read(&mut self, piece: &mut [u8]) -> io::Result<usize> {
        Client::read(self, piece)
    }

    fn register(&mut self, registry: &Registry, token: Token) -> io::Result<()> {
        let interest = Interest::READABLE | Interest::WRITABLE;
        match self {
            Client::Unix(stream) => registry.register(stream, token, interest),
            Client::Inet(stream) => registry.register(stream, token, interest),
        }
    }
}

impl Sender for &[u8] {
    ghost remaining = { λ bytes. Some bytes.now };

    fn read(&mut self, piece: &mut [u8]) -> io::Result<usize> {
        Read::read(self, piece)
    }

    fn register(&mut self, _registry: &Registry, _token: Token) -> io::Result<()> {
        Ok(())
    }
}
