//! What a process has to know of itself: its arguments, whether its standard streams are open, and whether it sees the
//! exits of its children. Which limits and ignored signals it was started with, and what it does by its name.

mod by_name;
mod child;
mod program;
mod standing;
mod streams;
mod words;

pub use by_name::{Programs, run_by_name};
pub use child::sees_children;
pub use program::{Program, program_of};
pub(crate) use standing::own_user;
pub use standing::{ProcessState, Signal};
pub use streams::open_null_streams;
pub(crate) use words::marked;
pub use words::{MARK, marked_words, own_program, own_words};
