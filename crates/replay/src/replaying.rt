//! Replaying a journal.
ghost use Rattle.std.specs.Prelude.{OnOk, IfErr, ◌^◌};
ghost use Rattle.replay_loop.specs.Reading.{Finished, Failed};
ghost use Rattle.table_opening.specs.Output.{IsOutput};

use crate::journal_machine::JournalMachine;
use replay_loop::{ReplayFault, run_within};
use std::alloc::Global;
use std::io::{Read, Write};

/// Replays a journal in at most `reads` reads: a header line, then one event a line, each answered by one outcome line.
pub fn replay_within<R: Read, W: Write>(
    alloc: Global,
    reader: &mut R,
    writer: &mut W,
    reads: u64,
) -> Result<(), ReplayFault>
    ensures ok { OnOk result (Finished IsOutput (R.remaining reader.old) (R.remaining reader.new)
        (W.contents writer.old) (W.contents writer.new)) }
    ensures err { IfErr result (λ e. Failed IsOutput reads (record {
      unread = R.remaining reader.old;
      rest = R.remaining reader.new;
      held = W.contents writer.old;
      holds = W.contents writer.new;
    }) e) }
{
    match run_within::<JournalMachine, R, W>(alloc, reader, writer, reads) {
        Ok(()) => Ok(()),
        Err(e) => Err(e),
    }
}

/// Replays a journal: a header line, then one event a line, each answered by one outcome line. It reads until the reader
/// has no more, at most 2^32 times, and takes the bytes however the reader cuts them.
pub fn replay<R: Read, W: Write>(
    alloc: Global,
    reader: &mut R,
    writer: &mut W,
) -> Result<(), ReplayFault>
    ensures ok { OnOk result (Finished IsOutput (R.remaining reader.old) (R.remaining reader.new)
        (W.contents writer.old) (W.contents writer.new)) }
    ensures err { IfErr result (λ e. Failed IsOutput (2 ^ 32) (record {
      unread = R.remaining reader.old;
      rest = R.remaining reader.new;
      held = W.contents writer.old;
      holds = W.contents writer.new;
    }) e) }
{
    match replay_within(alloc, reader, writer, 1 << 32) {
        Ok(()) => Ok(()),
        Err(e) => Err(e),
    }
}
