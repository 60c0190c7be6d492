//! The machine that a run drives: a header line opens it, and it answers each line after that by a text.
ghost use Rattle.std.specs.Prelude.{ℕ, List, [], Option, None, IfOk};
ghost use Rattle.replay_loop.specs.LineMachine.{Opens, GoesOn};

use std::alloc::{AllocError, Global};

/// A machine that a header line opens, and that answers each line after the header by a text.
pub trait LineMachine: Drop + Sized {
    /// This is written for all lines of an input, the header first: nothing, if it is missing or refused.
    ghost output: { List (List ℕ) → Option (List ℕ) → Type 0 };

    /// The machine will write these texts for the lines that still come.
    ghost will_write: { Self → (List (List ℕ) → List ℕ) → Type 0 };

    /// The machine of a header line, without its newline, or `None`, if the line is not a readable header.
    fn open(alloc: Global, header: &[u8]) -> Result<Option<Self>, AllocError>
        ensures { IfOk result (λ opened. Opens output will_write header.now opened) };

    /// The text that answers a line, which comes without its newline. After an `Err` nothing is known of the machine.
    fn handle(&mut self, alloc: Global, line: &[u8]) -> Result<Vec<u8>, AllocError>
        ensures { IfOk result (λ text. GoesOn will_write self.old self.new line.now text.items) };

    /// An input with no line has no header.
    ghost no_header: { output [] None };
}
