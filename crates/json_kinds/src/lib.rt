//! JSON values by key and kind, as the readers of definitions and of lines take them: a text of JSON; a value's kind, length,
//! range and form. A key is required or may be absent. Each fault names its key. With them come the names that both readers know:
//! of keys and of reasons.
#![tactic(auto)]

mod digits;
mod fault;
mod json_reader;
mod json_text;
pub mod keys;
pub mod kinds;
pub mod names;
mod number;

pub use digits::all_digits;
pub use fault::DefFault;
pub use json_text::{JsonRoom, json_value};
pub use names::{key_name, reason_name};
pub use number::number_in;
