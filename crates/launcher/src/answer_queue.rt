//! The answers of a turn that are still to be made events. The room that turns need for them is reserved once.

ghost use Rattle.std.specs.Prelude.{◌≡◌, ◌<◌, ◌≤◌, ◌*◌, List, [], ◌∷◌, ◌++◌, length, slice_index_or};
ghost use Rattle.std.specs.Vec.{vec_capacity};
ghost use Rattle.history_model.specs.declared.TheConstants.{MAX_JOBS};
ghost use Rattle.std.specs.List.{AllByRecursion};
ghost use Rattle.outside.specs.declared.pending_answer.PendingAnswer.{PendingAnswer as Answered};
ghost use Rattle.outside.specs.Orders.{IsTellablePending};

use history_model::MAX_JOBS;
use outside::PendingAnswer;
use std::alloc::{AllocError, Global};
use std::marker::Model;

/// How many answers one turn has at most: of each job one spawn, one KILL and one TERM.
const MOST_ANSWERS: usize = 3 * MAX_JOBS;

/// The answers of a turn, oldest first, with room for all that a turn can have. A line can say each. To a contract,
/// their list.
#[derive(Drop)]
pub struct AnswerQueue {
    answers: Vec<PendingAnswer>,
}

impl Model for AnswerQueue {
    ghost Value = { List Answered };

    ghost view = { λ q. q.answers.items };

    ghost invariant = { λ q.
        (3 * MAX_JOBS ≤ vec_capacity q.answers) × (length q.answers.items ≤ 3 * MAX_JOBS)
        × AllByRecursion IsTellablePending q.answers.items };
}

impl AnswerQueue {
    /// A queue with no answer, and with all room that it ever needs. `AllocError` if memory for it was refused.
    pub fn new(alloc: Global) -> Result<AnswerQueue, AllocError> {
        let answers = Vec::with_capacity(alloc, MOST_ANSWERS)?;
        Ok(AnswerQueue { answers })
    }

    /// Forgets the answers of the turn before. Takes no memory.
    pub fn clear(&mut self)
        ensures { self.new ≡ [] }
    {
        self.answers.clear();
    }

    /// How many answers the turn has had, at most 3,072.
    pub fn len(&self) -> usize
        ensures length { result ≡ length self.now }
        ensures few { length self.now ≤ 3 * MAX_JOBS }
        ensures tellable { AllByRecursion IsTellablePending self.now }
    {
        self.answers.len()
    }

    /// The answer at a place, counted from 0. The caller's condition: the place is below the queue's length.
    pub(crate) fn at(&self, place: usize) -> PendingAnswer
        requires { place < length self.now }
        ensures { result ≡ slice_index_or self.now place result }
    {
        self.answers[place]
    }

    /// Puts an answer after the others, if there is room for it. Takes no memory. The caller's condition: a line can
    /// say it.
    pub(crate) fn keep(&mut self, answer: PendingAnswer)
        requires { IsTellablePending answer }
        ensures { length self.old < 3 * MAX_JOBS → self.new ≡ self.old ++ answer ∷ [] }
    {
        if self.len() < MOST_ANSWERS {
            self.answers.push_reserved(answer);
        }
    }
}
