//! The loop over reads.
ghost use Rattle.std.specs.Prelude.{◌≡◌, ◌≢◌, IfErr, OnOk, None, true};
ghost use Rattle.ctl_protocol.specs.Lines.{fed, takes};
ghost use Rattle.replay_loop.specs.Handling.{Leads, LeadsPast, Ends, Stops, LastStops, PieceStops, drained};
ghost use Rattle.replay_loop.specs.ReplayOutcomes.{last_line};
ghost use Rattle.replay_loop.specs.Reading.{Finished, Failed};

use crate::fault::ReplayFault;
use crate::lines::{drain, handle};
use crate::machine::LineMachine;
use ctl_protocol::{LINE_LIMIT, LineFault, LineFeed};
use std::alloc::Global;
use std::io::{Read, Write};

/// Takes a piece of the input, and handles the lines that it ends.
fn take_piece<M: LineMachine, W: Write>(
    alloc: Global,
    feed: &mut LineFeed,
    stage: &mut Option<M>,
    piece: &[u8],
    writer: &mut W,
) -> Result<(), ReplayFault>
    ensures ok { OnOk result ((takes feed.old piece.now ≡ true)
        × (feed.new ≡ drained (fed feed.old piece.now))
        × Leads M.output M.will_write (record {
          old = stage.old;
          new = stage.new;
          held = W.contents writer.old;
          holds = W.contents writer.new;
        }) (fed feed.old piece.now).lines) }
    ensures err { IfErr result (λ e. Ends M.will_write stage.old (PieceStops M.output (record {
      feed = feed.old;
      piece = piece.now;
      held = W.contents writer.old;
      holds = W.contents writer.new;
    }) e)) }
{
    match feed.feed(piece) {
        Ok(()) => match drain(alloc, feed, stage, writer) {
            Ok(()) => Ok(()),
            Err(e) => Err(e),
        },
        Err(LineFault::NoMemory) => Err(ReplayFault::NoMemory),
        Err(LineFault::TooLong) => match drain(alloc, feed, stage, writer) {
            Ok(()) => match stage {
                Some(_) => Err(ReplayFault::TooLong),
                None => Err(ReplayFault::Header),
            },
            Err(e) => Err(e),
        },
    }
}

/// Handles the last line, which no newline ends, unless it is empty.
fn handle_last<M: LineMachine, W: Write>(
    alloc: Global,
    rest: &[u8],
    stage: &mut Option<M>,
    writer: &mut W,
) -> Result<(), ReplayFault>
    ensures ok { OnOk result (Leads M.output M.will_write (record {
      old = stage.old;
      new = stage.new;
      held = W.contents writer.old;
      holds = W.contents writer.new;
    }) (last_line rest.now)) }
    ensures err { IfErr result (λ e. Ends M.will_write stage.old (Stops M.output (record {
      lines = last_line rest.now;
      held = W.contents writer.old;
      holds = W.contents writer.new;
    }) e)) }
{
    if rest.is_empty() {
        return Ok(());
    }
    match handle(alloc, stage, rest, writer) {
        Ok(()) => Ok(()),
        Err(e) => Err(e),
    }
}

/// Handles what is left at the end of the input, which had a header or it is refused.
fn finish<M: LineMachine, W: Write>(
    alloc: Global,
    rest: &[u8],
    stage: &mut Option<M>,
    writer: &mut W,
) -> Result<(), ReplayFault>
    ensures ok { OnOk result (LeadsPast M.output M.will_write (record {
      old = stage.old;
      new = stage.new;
      held = W.contents writer.old;
      holds = W.contents writer.new;
    }) (last_line rest.now)) }
    ensures err { IfErr result (λ e. Ends M.will_write stage.old (LastStops M.output (record {
      lines = last_line rest.now;
      held = W.contents writer.old;
      holds = W.contents writer.new;
    }) e)) }
{
    match handle_last(alloc, rest, stage, writer) {
        Ok(()) => match stage {
            Some(_) => Ok(()),
            None => Err(ReplayFault::Header),
        },
        Err(e) => Err(e),
    }
}

/// Runs the machine `M` over an input in at most `reads` reads, however the reader cuts it. The first line opens the machine, and
/// what it answers to each later line is written. A newline ends a line; a last line without one counts too, unless it is empty.
///
/// Each `read` and `write` is called by this function's own loops, so an interrupted one is a fault too.
pub fn run_within<M: LineMachine, R: Read, W: Write>(
    alloc: Global,
    reader: &mut R,
    writer: &mut W,
    reads: u64,
) -> Result<(), ReplayFault>
    ensures ok { OnOk result (Finished M.output (R.remaining reader.old) (R.remaining reader.new)
        (W.contents writer.old) (W.contents writer.new)) }
    ensures err { IfErr result (λ e. Failed M.output reads (record {
      unread = R.remaining reader.old;
      rest = R.remaining reader.new;
      held = W.contents writer.old;
      holds = W.contents writer.new;
    }) e) }
{
    let mut feed = LineFeed::new(alloc, LINE_LIMIT);
    let mut stage: Option<M> = None;
    let mut piece = [0u8; 4096];
    'reads: for _ in 0..reads {
        match reader.read(&mut piece) {
            Ok(0) => match finish(alloc, feed.rest(), &mut stage, writer) {
                Ok(()) => return Ok(()),
                Err(e) => return Err(e),
            },
            Ok(n) => match take_piece(alloc, &mut feed, &mut stage, &piece[..n], writer) {
                Ok(()) => {}
                Err(e) => return Err(e),
            },
            Err(_) => return Err(ReplayFault::Read),
        }
    }
    Err(ReplayFault::ReadCount)
}
