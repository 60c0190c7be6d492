//! The writer of a journal, and what was refused to the journal.

ghost use Rattle.std.specs.Prelude.{◌≡◌, Some};
ghost use Rattle.std.specs.Io.KnownBytes.{Keeps};
ghost use Rattle.ctl_protocol.specs.Writing.{Takes};
ghost use Rattle.launcher.specs.Journals.{Poured, cause_after};

use ctl_protocol::write_text;
use std::alloc::AllocError;
use std::io::Write;
use std::marker::Model;

/// What was refused to a journal.
#[derive(Clone, Copy, PartialEq, Eq)]
pub enum Cause {
    /// A write or a flush, by the writer. A write that takes no byte counts as refused.
    Writer,
    /// Memory for a line.
    Memory,
}

/// A writer, and what was refused to it. To a contract, the bytes that it holds if they are known, and the cause.
#[derive(Drop)]
pub(crate) struct JournalWriter<W: Write> {
    writer: W,
    cause: Option<Cause>,
}

impl<W: Write> Model for JournalWriter<W> {
    ghost use Rattle.launcher.specs.Journals.{Poured};

    ghost Value = { Poured };

    ghost view = { λ w. record { bytes = W.contents w.writer; cause = w.cause } };
}

impl<W: Write> JournalWriter<W> {
    /// A writer to which nothing was refused yet.
    pub(crate) fn new(writer: W) -> JournalWriter<W>
        ensures { result ≡ record { bytes = W.contents writer; cause = None } }
    {
        JournalWriter {
            writer,
            cause: None,
        }
    }

    /// Writes all of a text, and says whether it could.
    pub(crate) fn write(&mut self, text: &[u8]) -> bool
        ensures bytes { Takes result self.old.bytes self.new.bytes text.now }
        ensures cause { self.new.cause ≡ cause_after result Cause.Writer self.old.cause }
    {
        let is_written = write_text(&mut self.writer, text);
        if !is_written {
            self.cause = Some(Cause::Writer);
        }
        is_written
    }

    /// Passes on what the writer still keeps back, and says whether it could.
    pub(crate) fn flush(&mut self) -> bool
        ensures bytes { Keeps self.old.bytes self.new.bytes }
        ensures cause { self.new.cause ≡ cause_after result Cause.Writer self.old.cause }
    {
        match self.writer.flush() {
            Ok(()) => true,
            Err(_) => {
                self.cause = Some(Cause::Writer);
                false
            }
        }
    }

    /// Keeps that memory for a line was refused.
    pub(crate) fn miss(&mut self, _want: AllocError)
        ensures { self.new ≡ record { bytes = self.old.bytes; cause = Some Cause.Memory } }
    {
        self.cause = Some(Cause::Memory);
    }

    /// What was refused, if anything was.
    pub(crate) fn cause(&self) -> Option<Cause>
        ensures { result ≡ self.now.cause }
    {
        self.cause
    }
}

impl<W: Write + Drop> JournalWriter<W> {
    /// The writer itself.
    pub(crate) fn into_inner(self) -> W
        ensures { W.contents result ≡ self.bytes }
    {
        self.writer
    }
}
