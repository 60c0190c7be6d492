//! The version of the programs, as the file VERSION of the repository has it.

/// The line that ends each help text.
pub const VERSION_LINE: &str = "Kivgrond 0.4.0";
