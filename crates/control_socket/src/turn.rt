//! One call of `serve`: who answers in it, and how much.

ghost use Rattle.std.specs.Prelude.{◌≡◌, ℕ, Bool, List};
ghost use Rattle.history_model.specs.declared.Reply.{Reply as Answer};

use history_model::Reply;
use std::alloc::Global;

/// Who answers the line of a request.
pub trait Answers {
    /// To the line this reply may lead from the one to the other.
    ghost Answered: { List ℕ → Answer → Self → Self → Type 0 };

    /// The reply to the line, which comes without its newline.
    fn answer(&mut self, alloc: Global, line: &[u8]) -> Reply
        ensures { Self.Answered line.now result self.old self.new };
}

/// Who says how long the clients may be served in a call of `serve`.
pub trait Limit {
    /// To the question for time this answer may lead from the one to the other.
    ghost Timed: { Bool → Self → Self → Type 0 };

    /// Whether there is time for a further line. It is asked after each line that was answered, so a `serve` that has
    /// lines answers one at least.
    fn has_time(&mut self) -> bool
        ensures { Self.Timed result self.old self.new };

    /// The milliseconds since a fixed time, by a clock that never goes back. It is asked once in each `serve`, before
    /// the first line. By it a client that takes nothing of its reply is known. Where it stays 0, no such client is
    /// disconnected.
    fn up(&mut self) -> u64 {
        0
    }
}

/// How many lines of a client are answered in a call of `serve`.
pub const LINES: u32 = 16;

/// A call of `serve`, with what may still be answered in it.
#[derive(Drop)]
pub(crate) struct Turn<'a, A, L> {
    answers: &'a mut A,
    limit: &'a mut L,
    /// The calls of `serve` are counted from 1.
    pub(crate) number: u64,
    /// The milliseconds at the beginning of the `serve`.
    pub(crate) up: u64,
    /// How many pieces of each client are read in this pass, and how many lines of it answered.
    pub(crate) pieces: u32,
    pub(crate) lines: u32,
    /// How many further lines of the client whose turn it is are answered.
    pub(crate) left: u32,
    /// Whether there is time for a further line, and for a further client.
    pub(crate) has_time: bool,
}

impl<'a, A: Answers, L: Limit> Turn<'a, A, L> {
    /// The first pass of the `serve` of this number: a piece and a line of each client.
    pub(crate) fn new(number: u64, answers: &'a mut A, limit: &'a mut L) -> Turn<'a, A, L>
        ensures name { result.answers.ghost_name ≡ answers.entry.ghost_name }
        ensures now { result.answers.now ≡ answers.old }
    {
        let up = limit.up();
        Turn {
            answers,
            limit,
            number,
            up,
            pieces: 1,
            lines: 1,
            left: 0,
            has_time: true,
        }
    }

    /// Whether a further line of the client is answered in this `serve`.
    pub(crate) fn may_answer(&self) -> bool {
        self.has_time && self.left > 0
    }

    /// The reply to the client's next line.
    pub(crate) fn answer(&mut self, alloc: Global, line: &[u8]) -> Reply
        ensures answered { A.Answered line.now result self.old.answers.now self.new.answers.now }
        ensures name { self.new.answers.ghost_name ≡ self.old.answers.ghost_name }
    {
        let reply = self.answers.answer(alloc, line);
        self.left = self.left.saturating_sub(1);
        self.has_time = self.limit.has_time();
        reply
    }
}
