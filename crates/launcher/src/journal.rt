//! A journal and its lines.

ghost use Rattle.std.specs.Prelude.{◌≡◌, ◌↔◌, IfOk, IsTrue, List, OnErr, ℕ, None, true, false, [], is_some};
ghost use Rattle.ctl_protocol.specs.EventWriter as events;
ghost use Rattle.ctl_protocol.specs.HeaderLines as headers;
ghost use Rattle.launcher.specs.Journals.{Grows, fresh, reported, held, is_writing};

use crate::journal_writer::{Cause, JournalWriter};
use ctl_protocol::{Header, event_line, header_line};
use history_model::Event;
use std::alloc::{AllocError, Global};
use std::io::Write;
use std::marker::Model;

/// What state a journal is in.
#[derive(Clone, Copy)]
pub enum Phase {
    /// Each line so far was written.
    Open,
    /// A write was refused, or a line found no memory, and this was not reported yet. Nothing more is written.
    Closed,
    /// As `Closed`, and it was reported.
    Reported,
}

/// The journal of a launcher, over its writer. To a contract it is whether there is a writer, the bytes that this holds
/// if they are known, what was refused to it, and its state. It is open exactly if nothing was refused to it.
#[derive(Drop)]
pub struct Journal<W: Write> {
    writer: Option<JournalWriter<W>>,
    phase: Phase,
}

impl<W: Write> Model for Journal<W> {
    ghost use Rattle.launcher.specs.Journals.{JournalState, IsSound, poured_bytes, poured_cause};
    ghost use Rattle.std.specs.Prelude.{is_some};

    ghost Value = { JournalState };

    ghost view = { λ j. record {
      has_writer = is_some j.writer;
      bytes = poured_bytes j.writer;
      cause = poured_cause j.writer;
      phase = j.phase;
    } };

    ghost invariant = { λ j. IsSound j.phase (poured_cause j.writer) };
}

impl<W: Write> Journal<W> {
    /// No journal: nothing is written, and it is never closed.
    pub fn none() -> Journal<W>
        ensures { result ≡ fresh None false }
    {
        Journal {
            writer: None,
            phase: Phase::Open,
        }
    }

    /// A journal that begins with the header's line.
    fn headed(alloc: Global, writer: W, header: &Header) -> Journal<W>
        ensures { Grows (fresh (W.contents writer) true) result (headers.header_line header.now) }
    {
        let mut journal = Journal {
            writer: Some(JournalWriter::new(writer)),
            phase: Phase::Open,
        };
        match header_line(alloc, header) {
            Ok(line) => journal.append(line.as_slice()),
            Err(want) => journal.close(want),
        }
        journal
    }

    /// A journal that begins with the header's line. The writer passes it on at once. So a launcher that is killed
    /// before its first event leaves a journal that can be replayed.
    pub fn begin(alloc: Global, writer: W, header: &Header) -> Journal<W>
        ensures { Grows (fresh (W.contents writer) true) result (headers.header_line header.now) }
    {
        let mut journal = Journal::headed(alloc, writer, header);
        journal.flush();
        journal
    }

    /// Whether lines are still written.
    pub fn is_writing(&self) -> bool
        ensures is { result ≡ is_writing self.now }
        // If no line is written, none is missed.
        ensures shut { result ≡ false → (text : List ℕ) → Grows self.now self.now text }
    {
        match self.phase {
            Phase::Open => self.writer.is_some(),
            Phase::Closed => false,
            Phase::Reported => false,
        }
    }

    /// Adds a text, unless it is closed.
    fn append(&mut self, text: &[u8])
        ensures { Grows self.old self.new text.now }
    {
        if !self.is_writing() {
            return;
        }
        let is_written = match &mut self.writer {
            Some(writer) => writer.write(text),
            None => true,
        };
        if !is_written {
            self.phase = Phase::Closed;
        }
    }

    /// Closes the journal, for this want of memory for its next line. A journal that is closed, and no journal, stay as they
    /// are.
    fn close(&mut self, want: AllocError)
        ensures { (text : List ℕ) → Grows self.old self.new text }
    {
        if !self.is_writing() {
            return;
        }
        match &mut self.writer {
            Some(writer) => writer.miss(want),
            None => return,
        }
        self.phase = Phase::Closed;
    }

    /// Writes the event's line. Want of memory for it closes the journal.
    pub fn note(&mut self, alloc: Global, event: &Event<'_>)
        ensures { Grows self.old self.new (events.event_line event.now) }
    {
        if !self.is_writing() {
            return;
        }
        match event_line(alloc, event) {
            Ok(line) => self.append(line.as_slice()),
            Err(want) => self.close(want),
        }
    }

    /// Passes on what the writer still keeps back; this ends each turn. A writer that refuses closes the journal.
    pub fn flush(&mut self)
        ensures { Grows self.old self.new [] }
    {
        if !self.is_writing() {
            return;
        }
        let is_flushed = match &mut self.writer {
            Some(writer) => writer.flush(),
            None => true,
        };
        if !is_flushed {
            self.phase = Phase::Closed;
        }
    }

    /// What was refused to it and closed it, if anything was.
    pub fn cause(&self) -> Option<Cause>
        ensures { result ≡ self.now.cause }
    {
        match &self.writer {
            Some(writer) => writer.cause(),
            None => None,
        }
    }

    /// Whether it was closed since this was asked last: true once at most.
    pub fn report_closing(&mut self) -> bool
        ensures reported { IsTrue result ↔ (self.old.phase ≡ Phase.Closed) }
        ensures after { self.new ≡ reported self.old }
    {
        match self.phase {
            Phase::Open => false,
            Phase::Closed => {
                self.phase = Phase::Reported;
                true
            }
            Phase::Reported => false,
        }
    }
}

impl<W: Write + Drop> Journal<W> {
    /// The writer, if lines are still written to it.
    pub fn into_open(self) -> Option<W>
        ensures has_writer { is_some result ≡ is_writing self }
        ensures bytes { is_writing self ≡ true → held W.contents result ≡ self.bytes }
    {
        let Journal { writer, phase } = self;
        match phase {
            Phase::Open => match writer {
                Some(writer) => Some(writer.into_inner()),
                None => None,
            },
            Phase::Closed => None,
            Phase::Reported => None,
        }
    }
}
