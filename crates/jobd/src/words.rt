//! What is said of invalid arguments.

use exit_status::{NO_MEMORY, STREAMS, USAGE};
use launchctl_words::explain_daemon;
use std::alloc::Global;

/// Says why the arguments are invalid, on standard error with 64. The help that they ask for goes to standard output
/// with 0.
pub(crate) fn explain<R: Eprint + Print>(rt: &R, alloc: Global, words: &[String]) -> u8 {
    match explain_daemon(alloc, words) {
        Ok(explanation) => {
            if explanation.is_help {
                help(rt, explanation.text.as_str())
            } else {
                let _written = eprint!(rt; "{}", explanation.text);
                USAGE
            }
        }
        Err(_) => NO_MEMORY,
    }
}

fn help(rt: &impl Print, text: &str) -> u8 {
    match print!(rt; "{text}") {
        Ok(()) => 0,
        Err(_) => STREAMS,
    }
}
