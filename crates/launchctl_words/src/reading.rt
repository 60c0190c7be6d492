//! What arguments mean, or why they mean nothing.
ghost use Rattle.std.specs.Prelude.{map, string_bytes};
ghost use Rattle.command_words.specs.Jobctl as spec;
ghost use Rattle.command_words.specs.Jobd.{daemon_meant};
ghost use Rattle.launchctl_words.specs.Saying.{Says};

use command_words::{DaemonCommand, WordFault, Words, control_command, daemon_command};
use std::alloc::Global;

/// What the arguments mean, the first being the program's own name, as launchctl(1) says.
///
/// Usage: they do not form a command of jobctl, a LABEL is not a label, or a TARGET names none; `explain` gives the text to print
/// then.
pub fn read_words(alloc: Global, words: &[String]) -> Result<Words, WordFault>
    ensures { Says result (spec.meant (map string_bytes words.now)) }
{
    read_words_beside(alloc, words, "jobd.sock")
}

/// The same, but that the socket is `default` if the arguments name none.
pub fn read_words_beside(alloc: Global, words: &[String], default: &str) -> Result<Words, WordFault>
    ensures { Says result (spec.meant_beside default.now (map string_bytes words.now)) }
{
    match control_command(alloc, words, default) {
        Ok(Some(meant)) => Ok(meant),
        Ok(None) => Err(WordFault::Usage),
        Err(_) => Err(WordFault::NoMemory),
    }
}

/// What the arguments mean, the first being the program's own name.
///
/// Usage: they do not form a command of jobd, or both zone options are given; `explain_daemon` gives the text to print then.
pub fn read_daemon_words(alloc: Global, words: &[String]) -> Result<DaemonCommand, WordFault>
    ensures { Says result (daemon_meant (map string_bytes words.now)) }
{
    match daemon_command(alloc, words) {
        Ok(Some(meant)) => Ok(meant),
        Ok(None) => Err(WordFault::Usage),
        Err(_) => Err(WordFault::NoMemory),
    }
}
