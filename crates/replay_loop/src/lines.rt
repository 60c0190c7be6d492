//! Handling lines: the header opens the machine, and what it answers to each later line is written.
ghost use Rattle.std.specs.Prelude.{◌≡◌, IfOk, IfErr, OnOk, [], ◌∷◌};
ghost use Rattle.replay_loop.specs.Handling.{Leads, Ends, Stops, HandlesNext, drained};

use crate::fault::ReplayFault;
use crate::machine::LineMachine;
use ctl_protocol::{LineFeed, write_text};
use std::alloc::Global;
use std::io::Write;

/// Handles one line, the header or a later one.
pub(crate) fn handle<M: LineMachine, W: Write>(
    alloc: Global,
    stage: &mut Option<M>,
    line: &[u8],
    writer: &mut W,
) -> Result<(), ReplayFault>
    ensures ok { OnOk result (Leads M.output M.will_write (record {
      old = stage.old;
      new = stage.new;
      held = W.contents writer.old;
      holds = W.contents writer.new;
    }) (line.now ∷ [])) }
    ensures err { IfErr result (λ e. Ends M.will_write stage.old (Stops M.output (record {
      lines = line.now ∷ [];
      held = W.contents writer.old;
      holds = W.contents writer.new;
    }) e)) }
{
    match stage {
        None => match M::open(alloc, line) {
            Ok(Some(machine)) => {
                *stage = Some(machine);
                Ok(())
            }
            Ok(None) => Err(ReplayFault::Header),
            Err(_) => Err(ReplayFault::NoMemory),
        },
        Some(machine) => match machine.handle(alloc, line) {
            Ok(text) => match write_text(writer, text.as_slice()) {
                true => Ok(()),
                false => Err(ReplayFault::Write),
            },
            Err(_) => Err(ReplayFault::NoMemory),
        },
    }
}

/// Handles the next line that the feed has, and returns whether there was one.
fn handle_next<M: LineMachine, W: Write>(
    alloc: Global,
    feed: &mut LineFeed,
    stage: &mut Option<M>,
    writer: &mut W,
) -> Result<bool, ReplayFault>
    ensures ok { IfOk result (λ more. HandlesNext M.output M.will_write more feed.old feed.new
        (record {
          old = stage.old;
          new = stage.new;
          held = W.contents writer.old;
          holds = W.contents writer.new;
        })) }
    ensures err { IfErr result (λ e. Ends M.will_write stage.old (Stops M.output (record {
      lines = feed.old.lines;
      held = W.contents writer.old;
      holds = W.contents writer.new;
    }) e)) }
{
    let Ok(next) = feed.next_line() else {
        return Err(ReplayFault::NoMemory);
    };
    let Some(line) = next else {
        return Ok(false);
    };
    let handled = handle(alloc, stage, line.as_slice(), writer);
    match handled {
        Ok(()) => Ok(true),
        Err(e) => Err(e),
    }
}

/// Handles each line that the feed has.
pub(crate) fn drain<M: LineMachine, W: Write>(
    alloc: Global,
    feed: &mut LineFeed,
    stage: &mut Option<M>,
    writer: &mut W,
) -> Result<(), ReplayFault>
    ensures ok { OnOk result (Leads M.output M.will_write (record {
      old = stage.old;
      new = stage.new;
      held = W.contents writer.old;
      holds = W.contents writer.new;
    }) feed.old.lines) }
    ensures feed { OnOk result (feed.new ≡ drained feed.old) }
    ensures err { IfErr result (λ e. Ends M.will_write stage.old (Stops M.output (record {
      lines = feed.old.lines;
      held = W.contents writer.old;
      holds = W.contents writer.new;
    }) e)) }
{
    'lines: loop {
        match handle_next(alloc, feed, stage, writer) {
            Ok(true) => {}
            Ok(false) => return Ok(()),
            Err(e) => return Err(e),
        }
    }
}
