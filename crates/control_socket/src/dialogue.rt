//! What passes between a client and the launcher: the requests that came and are not yet answered, and the replies that are
//! not yet sent.

ghost use Rattle.std.specs.Prelude.{◌≡◌, ◌++◌, [], OnErr, OnOk, true, false};
ghost use Rattle.ctl_protocol.specs.OutcomeLines.{reply_line as line_of};
ghost use Rattle.control_socket.specs.Serving.{Serves};
ghost use Rattle.control_socket.specs.Dialogues.{AnswersNext, Ends, IsEmpty, Loses, Sends, Takes, TalkEnds, Talks, intake_after, told_after};

use crate::turn::{Answers, LINES, Limit, Turn};
use ctl_protocol::{LINE_LIMIT, LineFault, LineFeed, reply_line};
use history_model::{Refusal, Reply, Text};
use std::alloc::{AllocError, Global};

/// If more bytes of replies than these wait to be sent, no further request is read or answered.
pub const UNSENT: usize = 65_536;

/// What is still taken from a client.
#[derive(Clone, Copy)]
enum Intake {
    /// Further bytes.
    Open,
    /// Only the lines that came whole: the client sends no more.
    Ended,
    /// Only the lines before the one that is too long, which is then refused.
    TooLong,
    /// Nothing: what the client sends on is dropped.
    Refused,
    /// Nothing, and nothing comes.
    Over,
}

#[derive(Drop)]
pub(crate) struct Dialogue {
    requests: LineFeed,
    replies: Vec<u8>,
    intake: Intake,
    // A whole line may be left among the requests.
    has_lines: bool,
}

impl Dialogue {
    pub(crate) fn new(alloc: Global) -> Dialogue
        ensures { IsEmpty result }
    {
        Dialogue {
            requests: LineFeed::new(alloc, LINE_LIMIT),
            replies: Vec::new(alloc),
            intake: Intake::Open,
            has_lines: false,
        }
    }

    /// Whether the next piece may come: each whole line is answered, and not too much waits to be sent.
    pub(crate) fn wants_more(&self) -> bool {
        let is_read = matches!(self.intake, Intake::Open | Intake::Refused);
        is_read && !self.has_lines && self.replies.len() <= UNSENT
    }

    /// Takes the next piece of what the client sends. What comes after a line that is too long is dropped.
    pub(crate) fn take(&mut self, piece: &[u8]) -> Result<(), AllocError>
        ensures { OnOk result (Takes piece.now self.old self.new) }
    {
        if !matches!(self.intake, Intake::Open) {
            return Ok(());
        }
        self.has_lines = true;
        match self.requests.feed(piece) {
            Ok(()) => Ok(()),
            Err(LineFault::TooLong) => {
                self.intake = Intake::TooLong;
                Ok(())
            }
            Err(LineFault::NoMemory) => Err(AllocError),
        }
    }

    /// The client sends no more: a last line without a newline is dropped.
    pub(crate) fn end(&mut self)
        ensures { Ends self.old self.new }
    {
        match self.intake {
            Intake::Open => {
                self.intake = Intake::Ended;
                self.has_lines = true;
            }
            Intake::Refused => self.intake = Intake::Over,
            Intake::Ended | Intake::TooLong | Intake::Over => {}
        }
    }

    /// Answers whole lines in their order, until none is left, too much waits to be sent, or the client's turn is over.
    pub(crate) fn answer<A: Answers, L: Limit>(
        &mut self,
        alloc: Global,
        turn: &mut Turn<'_, A, L>,
    ) -> Result<(), AllocError>
        ensures talks { OnOk result (Talks A.Answered self.old turn.old.answers.now self.new turn.new.answers.now) }
        ensures breaks { OnErr result (TalkEnds A.Answered self.old turn.old.answers.now turn.new.answers.now) }
        ensures serves { Serves A.Answered turn.old.answers.now turn.new.answers.now }
        ensures name { turn.new.answers.ghost_name ≡ turn.old.answers.ghost_name }
    {
        for _ in 0..=LINES {
            if !self.may_answer() || !turn.may_answer() {
                return Ok(());
            }
            self.answer_next(alloc, turn)?;
        }
        Ok(())
    }

    fn answer_next<A: Answers, L: Limit>(
        &mut self,
        alloc: Global,
        turn: &mut Turn<'_, A, L>,
    ) -> Result<(), AllocError>
        requires { self.old.has_lines ≡ true }
        ensures next { OnOk result (AnswersNext A.Answered self.old turn.old.answers.now self.new turn.new.answers.now) }
        ensures loses { OnErr result (Loses A.Answered self.old turn.old.answers.now turn.new.answers.now) }
        ensures serves { Serves A.Answered turn.old.answers.now turn.new.answers.now }
        ensures name { turn.new.answers.ghost_name ≡ turn.old.answers.ghost_name }
    {
        let Ok(next) = self.requests.next_line() else {
            return Err(AllocError);
        };
        match next {
            Some(line) => {
                let reply = turn.answer(alloc, line.as_slice());
                self.add(alloc, &reply)
            }
            None => {
                self.has_lines = false;
                self.close_intake(alloc)
            }
        }
    }

    // Each whole line is answered.
    fn close_intake(&mut self, alloc: Global) -> Result<(), AllocError>
        ensures requests { self.new.requests ≡ self.old.requests }
        ensures lines { self.new.has_lines ≡ self.old.has_lines }
        ensures intake { OnOk result (self.new.intake ≡ intake_after self.old.intake) }
        ensures replies { OnOk result (self.new.replies.items ≡ self.old.replies.items ++ told_after self.old.intake) }
    {
        match self.intake {
            Intake::Open | Intake::Refused | Intake::Over => Ok(()),
            Intake::Ended => {
                self.intake = Intake::Over;
                Ok(())
            }
            Intake::TooLong => {
                self.intake = Intake::Refused;
                let reply = Reply {
                    refusal: Some(Refusal::BadRequest),
                    text: Text::new(String::new(alloc)),
                };
                self.add(alloc, &reply)
            }
        }
    }

    fn add(&mut self, alloc: Global, reply: &Reply) -> Result<(), AllocError>
        ensures requests { self.new.requests ≡ self.old.requests }
        ensures lines { self.new.has_lines ≡ self.old.has_lines }
        ensures intake { self.new.intake ≡ self.old.intake }
        ensures replies { OnOk result (self.new.replies.items ≡ self.old.replies.items ++ line_of reply.now) }
    {
        let line = reply_line(alloc, reply)?;
        self.replies.extend_from_slice(line.as_slice())
    }

    /// What is still to be sent.
    pub(crate) fn to_send(&self) -> &[u8]
        ensures { result.now ≡ self.now.replies.items }
    {
        self.replies.as_slice()
    }

    /// `count` bytes of it were sent.
    pub(crate) fn sent(&mut self, count: usize)
        ensures { Sends count self.old self.new }
    {
        let count = count.min(self.replies.len());
        let _ = self.replies.drain(..count);
    }

    /// Whether lines may be left, and not too much waits to be sent.
    pub(crate) fn may_answer(&self) -> bool
        ensures { result ≡ true → self.now.has_lines ≡ true }
    {
        self.has_lines && self.replies.len() <= UNSENT
    }

    /// No whole line is left to be answered, and nothing to be sent: at most a part of a line came.
    pub(crate) fn is_silent(&self) -> bool
        ensures { result ≡ true → (self.now.has_lines ≡ false) × (self.now.replies.items ≡ []) }
    {
        !self.has_lines && self.replies.is_empty()
    }

    /// Nothing is left to be answered or sent, and nothing comes.
    pub(crate) fn is_over(&self) -> bool {
        matches!(self.intake, Intake::Refused | Intake::Over) && self.replies.is_empty()
    }
}
