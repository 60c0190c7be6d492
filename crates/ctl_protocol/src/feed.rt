//! The feed of lines: a stream that comes in pieces, cut at its newlines.

ghost use Rattle.std.specs.Prelude.{◌≡◌, ◌≤◌, [], length, IsTrue, OnOk, OnErr, IfOk, IsErrOf, IsOkUnless, false};
ghost use Rattle.ctl_protocol.specs.Lines.{Feed, lines_of, rest_of, takes, fed, stopped, GivesLine};
ghost use Rattle.ctl_protocol.specs.declared.feed.LineFault.TheVariants.{NoMemory};

use crate::cut::{Scan, add, go_over, rest_in, stop, take_line};
use bytes::{Bytes, BytesMut};
use std::alloc::{AllocError, Global};
use std::marker::Model;

/// The most bytes of a line before its newline, for requests and journals alike.
pub const LINE_LIMIT: usize = 262_144;

/// Why a piece was not taken, or no line was given.
#[derive(Clone, Copy, PartialEq, Eq)]
pub enum LineFault {
    /// Memory ran out. The piece was not taken, or the line still comes.
    NoMemory,
    /// A line, or what no newline has ended, passes the limit; so is every later piece.
    TooLong,
}

impl From<AllocError> for LineFault {
    ghost from_gives = { λ _ e. e ≡ NoMemory };

    fn from(_e: AllocError) -> LineFault {
        LineFault::NoMemory
    }
}

/// The lines of a stream that comes in pieces.
#[derive(Drop)]
pub struct LineFeed {
    buffer: BytesMut,
    rest_len: usize,
    limit: usize,
    is_refusing: bool,
}

impl Model for LineFeed {
    ghost Value = { Feed };

    ghost view = { λ f. record {
      lines = lines_of f.buffer.items;
      rest = rest_of f.buffer.items;
      limit = f.limit;
      refusing = f.is_refusing;
    } };

    ghost invariant = { λ f. (f.rest_len ≡ length (rest_of f.buffer.items))
        × (f.rest_len ≤ f.limit) };
}

impl LineFeed {
    /// No bytes yet. A line may have `limit` bytes before its newline.
    pub fn new(alloc: Global, limit: usize) -> LineFeed
        ensures { result ≡ record { lines = []; rest = []; limit = limit; refusing = false } }
    {
        LineFeed {
            buffer: BytesMut::new(alloc),
            rest_len: 0,
            limit,
            is_refusing: false,
        }
    }

    /// Takes the next piece. TooLong: it has a line, or leaves a rest, that passes the limit; the lines before that one
    /// still come, and every later piece is refused too. NoMemory: the piece was not taken.
    pub fn feed(&mut self, piece: &[u8]) -> Result<(), LineFault>
        ensures ok { OnOk result (IsTrue (takes self.old piece.now)
            × (self.new ≡ fed self.old piece.now)) }
        ensures too_long { IsErrOf result LineFault.TooLong → (takes self.old piece.now ≡ false)
            × (self.new ≡ stopped self.old piece.now) }
        ensures no_memory { IsErrOf result LineFault.NoMemory → self.new ≡ self.old }
        ensures refusing { IsTrue self.old.refusing → IsErrOf result LineFault.TooLong }
    {
        if self.is_refusing {
            return Err(LineFault::TooLong);
        }
        let rest = rest_in(self.buffer.as_slice(), self.rest_len);
        match go_over(rest, piece, self.limit) {
            Scan::Fits { rest_len } => {
                add(&mut self.buffer, piece)?;
                self.rest_len = rest_len;
                Ok(())
            }
            Scan::Long { at, line_len } => {
                stop(&mut self.buffer, piece, at, line_len, self.limit)?;
                self.rest_len = 0;
                self.is_refusing = true;
                Err(LineFault::TooLong)
            }
        }
    }

    /// The next line that a newline has ended, without its newline; None if there is none. NoMemory, the one fault,
    /// leaves the line to come.
    pub fn next_line(&mut self) -> Result<Option<Bytes>, LineFault>
        ensures line { IfOk result (λ line. GivesLine self.old line self.new) }
        ensures err { OnErr result (self.new ≡ self.old) }
        ensures only { IsOkUnless result LineFault.NoMemory }
    {
        // What has come of a line is not gone over again at each of its pieces.
        if self.rest_len == self.buffer.len() {
            return Ok(None);
        }
        Ok(take_line(&mut self.buffer)?)
    }

    /// What no newline has ended.
    pub fn rest(&self) -> &[u8]
        ensures { result.now ≡ self.now.rest }
    {
        rest_in(self.buffer.as_slice(), self.rest_len)
    }
}
