//! The replay of a journal over the program's own streams: standard input is the journal, and standard output gets one outcome
//! line for each event.

use crate::replaying::replay;
use crate::status::status_of;
use exit_status::NO_MEMORY;
use replay_loop::ReplayFault;
use std::io;
use std::io::{BufWriter, Write};

/// Replays standard input, and returns the exit status for how it ended.
pub fn replay_input<R: Input + Print + AllocGlobal>(rt: &R) -> u8 {
    let Ok(mut writer) = BufWriter::new(rt.alloc(), io::writer(rt)) else {
        return NO_MEMORY;
    };
    let ending = replay(rt.alloc(), &mut rt.reader(), &mut writer);
    match (writer.flush(), ending) {
        (Err(_), Ok(())) => status_of(Err(ReplayFault::Write)),
        (_, ending) => status_of(ending),
    }
}
