//! Judges one replay.

use crate::sink::Sink;
use crate::source::Source;
use replay::{replay, status_of};
use std::io;
use std::io::ErrorKind;

/// More reads and writes than any replay makes.
pub const MANY: usize = 100_000;

/// Replays the input. It prints only the name if the replay wrote what is expected and exited with the expected status.
pub fn judge(
    rt: &HostRuntime,
    name: &str,
    input: &[u8],
    wanted: &[u8],
    wanted_status: u8,
) -> io::Result<()> {
    let mut reader = Source {
        rest: input,
        piece: usize::MAX,
        reads: MANY,
        failure: ErrorKind::Other,
    };
    let mut writer = Sink {
        taken: Vec::new(rt.alloc()),
        piece: usize::MAX,
        writes: MANY,
        failure: None,
    };
    let status = status_of(replay(rt.alloc(), &mut reader, &mut writer));
    let is_wanted = writer.taken.as_slice() == wanted;
    drop(writer);
    if status != wanted_status {
        return println!(rt; "{name}: status {status}, wanted {wanted_status}");
    }
    let fault = if is_wanted {
        ""
    } else {
        ": other outcomes than wanted"
    };
    println!(rt; "{name}{fault}")
}
