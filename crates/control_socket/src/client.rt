//! A client of the control socket.

ghost use Rattle.std.specs.Prelude.{◌≡◌, ◌≢◌, [], None, OnErr, OnOk, true};
ghost use Rattle.control_socket.specs.Clients.{IsFresh, IsStuck, MayEnd, MayGo, Waits};
ghost use Rattle.control_socket.specs.Dialogues.{Converses, EndsWith, Reads, SendsOn};
ghost use Rattle.control_socket.specs.Serving.{Serves};

use crate::dialogue::Dialogue;
use crate::turn::{Answers, Limit, Turn};
use mio::net::UnixStream;
use std::alloc::Global;
use std::io::{ErrorKind, Read, Write};
use std::{io, mem};

/// What a client gets for which there is no place.
pub(crate) const TOO_MANY: &[u8] = b"{\"code\":2,\"text\":\"too many clients\\n\"}\n";

/// What a client's connection may do next.
#[derive(Clone, Copy)]
pub(crate) enum Progress {
    /// The client has to go on first.
    Waits,
    /// There may be more to read, to answer or to send at once.
    MayGoOn,
    /// All was answered and sent.
    Ended,
}

/// How many pieces are read in a call of `serve`.
pub(crate) const PIECES: u32 = 4;

/// How often a write is tried in a call of `serve`.
const WRITES: u32 = 4;

/// For how many milliseconds a client may take nothing of its reply, before it may be disconnected for a new one.
const STUCK: u64 = 1_000;

#[derive(Drop)]
pub(crate) struct Client {
    stream: UnixStream,
    dialogue: Dialogue,
    // The number of the last `serve` that checked it; 0 if none did since it came, or since something came between two.
    looked: u64,
    // The number of the last `serve` in which it came, sent something, or had a line or a reply under way.
    received: u64,
    // The `up` at which it last took something of a reply, or had none to take.
    taken: u64,
    // A read between two calls of `serve` failed so.
    failed: Option<io::Error>,
}

impl Client {
    /// A client that came after the `serve` of this number.
    pub(crate) fn new(alloc: Global, stream: UnixStream, round: u64) -> Client
        ensures { IsFresh result }
    {
        Client {
            stream,
            dialogue: Dialogue::new(alloc),
            looked: 0,
            received: round,
            taken: 0,
            failed: None,
        }
    }

    pub(crate) fn has_unsent(&self) -> bool
        ensures { result ≡ true → self.now.dialogue.replies.items ≢ [] }
    {
        !self.dialogue.to_send().is_empty()
    }

    /// Whether no `serve` checked it yet, or none since something came.
    pub(crate) fn is_new(&self) -> bool {
        self.looked == 0
    }

    /// Since which `serve` the client is silent, if the one of this number checked it and found nothing under way.
    pub(crate) fn silent_since(&self, round: u64) -> Option<u64> {
        (self.looked == round && self.received < round).then_some(self.received)
    }

    /// Since which `up` the client takes nothing of its reply, if the `serve` of this number found it so, and that is a
    /// second ago.
    pub(crate) fn stuck_since(&self, round: u64, up: u64) -> Option<u64> {
        (self.looked == round && self.is_stuck(up)).then_some(self.taken)
    }

    fn is_stuck(&self, up: u64) -> bool
        ensures { result ≡ true → IsStuck up self.now }
    {
        self.has_unsent() && up.saturating_sub(self.taken) >= STUCK
    }

    /// Takes a piece that came between two calls of `serve`. True: one came, or the read failed, and the next `serve`
    /// has to check it first.
    pub(crate) fn receive(&mut self, room: &mut [u8]) -> bool
        ensures { Waits self.old self.new }
    {
        let has_come = self.read_or_note(room);
        if has_come {
            // The next `serve` answers it.
            self.received = self.looked.saturating_add(1);
            self.looked = 0;
        }
        has_come
    }

    // As `read`. An error is kept for the next `serve`, and true is given.
    fn read_or_note(&mut self, room: &mut [u8]) -> bool
        ensures { Waits self.old self.new }
    {
        match self.read(room) {
            Ok(has_come) => has_come,
            Err(error) => {
                drop(mem::replace(&mut self.failed, Some(error)));
                true
            }
        }
    }

    /// Whether it may be disconnected for another one. It may if it is silent, and then it gets the reply that there is
    /// no place for it. It may also if it takes nothing of its reply.
    pub(crate) fn makes_way(&mut self, up: u64) -> bool
        ensures waits { Waits self.old self.new }
        ensures may { result ≡ true → MayGo up self.new }
    {
        if self.failed.is_some() {
            return false;
        }
        if self.dialogue.is_silent() {
            let _sent = self.stream.write(TOO_MANY);
            return true;
        }
        self.is_stuck(up)
    }

    /// Reads what came, by pieces of the room's length, answers whole lines, and sends what is taken. An error is want of
    /// memory, or that of a read or a write.
    pub(crate) fn advance<A: Answers, L: Limit>(
        &mut self,
        alloc: Global,
        room: &mut [u8],
        turn: &mut Turn<'_, A, L>,
    ) -> io::Result<Progress>
        ensures converses { OnOk result ((self.old.failed ≡ None)
            × Converses A.Answered self.old.dialogue turn.old.answers.now self.new.dialogue turn.new.answers.now) }
        ensures ends { MayEnd A.Answered self.old turn.old.answers.now turn.new.answers.now }
        ensures serves { Serves A.Answered turn.old.answers.now turn.new.answers.now }
        ensures name { turn.new.answers.ghost_name ≡ turn.old.answers.ghost_name }
    {
        if let Some(error) = self.failed.take() {
            return Err(error);
        }
        self.looked = turn.number;
        if !self.has_unsent() {
            self.taken = turn.up;
        }
        let is_more = match self.converse(alloc, room, turn) {
            Ok(is_more) => is_more,
            Err(error) => return Err(error),
        };
        match self.send(turn.up) {
            Ok(()) => {}
            Err(error) => return Err(error),
        }
        if !self.dialogue.is_silent() {
            self.received = self.looked;
        }
        Ok(self.progress(is_more))
    }

    fn progress(&self, is_more: bool) -> Progress {
        if self.dialogue.is_over() {
            Progress::Ended
        } else if is_more || self.dialogue.may_answer() {
            Progress::MayGoOn
        } else {
            Progress::Waits
        }
    }

    // Whether more may be there to be read at once.
    fn converse<A: Answers, L: Limit>(
        &mut self,
        alloc: Global,
        room: &mut [u8],
        turn: &mut Turn<'_, A, L>,
    ) -> io::Result<bool>
        ensures converses { OnOk result (Converses A.Answered self.old.dialogue turn.old.answers.now self.new.dialogue turn.new.answers.now) }
        ensures ends { OnErr result (EndsWith A.Answered self.old.dialogue turn.old.answers.now turn.new.answers.now) }
        ensures serves { Serves A.Answered turn.old.answers.now turn.new.answers.now }
        ensures name { turn.new.answers.ghost_name ≡ turn.old.answers.ghost_name }
    {
        turn.left = turn.lines;
        self.dialogue.answer(alloc, turn)?;
        for _ in 0..turn.pieces {
            if !self.dialogue.wants_more() {
                return Ok(false);
            }
            if !self.read(room)? {
                return Ok(false);
            }
            self.dialogue.answer(alloc, turn)?;
        }
        Ok(self.dialogue.wants_more())
    }

    // Takes the next piece, or the end. False: nothing is there yet.
    fn read(&mut self, room: &mut [u8]) -> io::Result<bool>
        ensures reads { OnOk result (Reads self.old.dialogue self.new.dialogue) }
        ensures taken { self.new.taken ≡ self.old.taken }
        ensures failed { self.new.failed ≡ self.old.failed }
    {
        match self.stream.read(room) {
            Ok(0) => self.dialogue.end(),
            Ok(count) => {
                self.received = self.looked;
                self.dialogue.take(&room[..count])?;
            }
            Err(error) if error.kind() == ErrorKind::WouldBlock => return Ok(false),
            Err(error) if error.kind() == ErrorKind::Interrupted => {}
            Err(error) => return Err(error),
        }
        Ok(true)
    }

    // Sends what the client's side takes at once.
    fn send(&mut self, up: u64) -> io::Result<()>
        ensures { OnOk result (SendsOn self.old.dialogue self.new.dialogue) }
    {
        for _ in 0..WRITES {
            if self.dialogue.to_send().is_empty() {
                return Ok(());
            }
            if !self.send_some(up)? {
                return Ok(());
            }
        }
        Ok(())
    }

    // Sends once. False: the client's side takes nothing now.
    fn send_some(&mut self, up: u64) -> io::Result<bool>
        ensures { OnOk result (SendsOn self.old.dialogue self.new.dialogue) }
    {
        match self.stream.write(self.dialogue.to_send()) {
            Ok(count) => {
                self.taken = up;
                self.dialogue.sent(count);
                Ok(true)
            }
            Err(error) if error.kind() == ErrorKind::WouldBlock => Ok(false),
            Err(error) if error.kind() == ErrorKind::Interrupted => Ok(true),
            Err(error) => Err(error),
        }
    }
}
