//! A helper process that checks files and opens them in its launcher's place. So a file system which hangs, a FIFO or a
//! lease stops the helper and not the launcher. A [`Looks`] asks and does not wait. An [`Openings`] asks at once and
//! waits half a second at most. Both remember what hung in a [`Hung`].
#![tactic(auto)]

mod ahead;
mod answer;
mod batch;
mod far;
mod helper;
mod hung;
mod inbox;
mod left;
mod looking;
mod looks;
mod mounts;
mod needed;
mod opening;
mod openings;
mod own;
mod question;
mod shut;
mod spare;
mod telling;
mod told;
mod walking;

ghost use Rattle.std.specs.Prelude.{◌≡◌, Some};

pub use answer::{Answer, LENGTH};
pub use batch::Seen;
pub use far::{by_input, serve};
pub use helper::{NAME, no_answer};
pub use hung::Hung;
pub use left::MOST;
pub use looks::Looks;
pub use openings::{Openings, QuestionOutcome};
pub use question::{Asks, LONGEST, Question, stream_asked};

/// What crosses the socket is the answer that was given.
pub fn crossed(answer: Answer) -> Option<Answer>
    ensures { result ≡ Some answer }
{
    Answer::from_bytes(answer.to_bytes())
}
