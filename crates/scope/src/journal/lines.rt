//! The lines of a journal that comes in pieces.

ghost use Rattle.std.specs.Prelude.{◌≡◌, ℕ, List, [], IfOk, OnOk};
ghost use Rattle.scope.specs.Journals.{ReceivesLine, ReceivesLines, HandsOn, Drains, IsFed};

use crate::journal::fault::JournalFault;
use ctl_protocol::{LINE_LIMIT, LineFault, LineFeed};
use std::alloc::Global;

/// How many bytes of a journal's beginning are kept, to know it by.
const HEAD: usize = 256;

/// Receives a journal line by line.
pub trait Receives {
    /// It represents these lines, the header first.
    ghost stands: { Self → List (List ℕ) → Type 0 };

    /// Receives the next line, of which the first is the header, and adds what is to be shown of it. It returns whether the line is an
    /// event, or the header. Another line is left out.
    fn receive(
        &mut self,
        line: &[u8],
        is_header: bool,
        shown: &mut String,
    ) -> Result<bool, JournalFault>
        ensures { IfOk result (λ _. ReceivesLine stands self.old line.now is_header self.new) };
}

/// The lines of a journal that comes in pieces, and what was counted of them.
#[derive(Drop)]
pub struct JournalLines {
    feed: LineFeed,
    is_long: bool,
    /// How many lines were read, the header too.
    pub(crate) count: u64,
    /// How many of them are not events, and the number of the first of these.
    pub(crate) bad: u64,
    pub(crate) first_bad: u64,
    /// How many bytes came, and the first of them.
    pub(crate) offset: u64,
    pub(crate) head: Vec<u8>,
    /// What is to be shown of them, and is not written yet.
    pub(crate) shown: String,
}

impl JournalLines {
    ghost use Rattle.std.specs.Prelude.{false};
    ghost use Rattle.ctl_protocol.specs.Lines.{line_limit};

    /// No line was read.
    pub fn new(alloc: Global) -> JournalLines
        ensures feed { result.feed ≡ record {
          lines = [];
          rest = [];
          limit = line_limit;
          refusing = false;
        } }
        ensures counted { result.count ≡ 0 }
    {
        JournalLines {
            feed: LineFeed::new(alloc, LINE_LIMIT),
            is_long: false,
            count: 0,
            bad: 0,
            first_bad: 0,
            offset: 0,
            head: Vec::new(alloc),
            shown: String::new(alloc),
        }
    }

    /// Takes the next piece.
    pub(crate) fn take(&mut self, piece: &[u8]) -> Result<(), JournalFault>
        ensures { OnOk result (IsFed self.old piece.now self.new) }
    {
        let room = HEAD.saturating_sub(self.head.len()).min(piece.len());
        let front = piece.get(..room).unwrap_or(&[]);
        let is_kept = self.head.extend_from_slice(front).is_ok();
        self.offset = self.offset.saturating_add(piece.len() as u64);
        match self.feed.feed(piece) {
            Ok(()) if is_kept => Ok(()),
            Err(LineFault::TooLong) if is_kept => {
                self.is_long = true;
                Ok(())
            }
            _ => Err(JournalFault::NoMemory),
        }
    }

    // Passes on the next whole line, and returns whether there was one.
    fn hand_on<H: Receives>(&mut self, receiver: &mut H) -> Result<bool, JournalFault>
        ensures { IfOk result (λ more.
            HandsOn H.stands more self.old receiver.old self.new receiver.new) }
    {
        match self.feed.next_line() {
            Ok(Some(line)) => {
                let is_header = self.count == 0;
                self.count = self.count.saturating_add(1);
                let received = receiver.receive(line.as_slice(), is_header, &mut self.shown);
                drop(line);
                match received {
                    Ok(is_event) => {
                        self.count_line(is_event);
                        Ok(true)
                    }
                    Err(fault) => Err(fault),
                }
            }
            Ok(None) if self.is_long => Err(JournalFault::LongLine(self.count.saturating_add(1))),
            Ok(None) => Ok(false),
            Err(_) => Err(JournalFault::NoMemory),
        }
    }

    /// Passes on each whole line.
    pub(crate) fn hand_all_on<H: Receives>(&mut self, receiver: &mut H) -> Result<(), JournalFault>
        ensures received { OnOk result
            (ReceivesLines H.stands self.old.count receiver.old self.old.feed.lines receiver.new) }
        ensures drained { OnOk result (Drains self.old self.new) }
    {
        'lines: loop {
            match self.hand_on(receiver) {
                Ok(true) => {}
                Ok(false) => return Ok(()),
                Err(fault) => return Err(fault),
            }
        }
    }

    fn count_line(&mut self, is_event: bool)
        ensures { self.new ≡ record self.old { bad = self.new.bad; first_bad = self.new.first_bad } }
    {
        if is_event {
            return;
        }
        self.bad = self.bad.saturating_add(1);
        if self.bad == 1 {
            self.first_bad = self.count;
        }
    }
}
