//! How the line of a cause begins.

ghost use Rattle.std.specs.Prelude.{◌++◌};
ghost use Rattle.std.specs.Fmt.{decimal};
ghost use Rattle.run_times.specs.Written.{Adds};
ghost use Rattle.scope.specs.Fronts.{front_of, front_of_child, front_of_order, front_of_connections};

use crate::journal::telling::JobCause;
use history_model::{Act, StandingChild};
use run_times::Piece::{Number, Text};
use run_times::TextWriter;

/// Adds how the line of the cause begins, with its numbers.
pub(crate) fn put_front(writer: &mut TextWriter, cause: JobCause)
    ensures { Adds (front_of cause) writer.old writer.new }
{
    match cause {
        JobCause::Removing => writer.put("  It is being removed"),
        JobCause::Child(child) => put_child(writer, child),
        JobCause::Awaited(act) => put_order(writer, act),
        JobCause::LaunchSpent => writer.put(
            "  It does not start again: LaunchOnlyOnce is true, and a start went well.",
        ),
        JobCause::RunsSpent => {
            writer.put("  It does not start again: 2^63 starts were ordered since its load.")
        }
        JobCause::Throttled(_) => writer.put("  It is throttled until "),
        JobCause::NotWanted => writer.put("  Nothing wants it."),
        JobCause::Demand => writer.put("  It is wanted: "),
        JobCause::Connections(count) => put_connections(writer, count),
        JobCause::KeepAlive => writer.put("  It is wanted: KeepAlive is true."),
        JobCause::SuccessfulExit => writer.put("  It is wanted: KeepAlive SuccessfulExit is "),
        JobCause::Crashed => writer.put("  It is wanted: KeepAlive Crashed is "),
        JobCause::PathState => writer.put("  It is wanted: KeepAlive PathState, and "),
        JobCause::QueueDirectories => writer.put("  It is wanted: QueueDirectories, and "),
    }
}

fn put_child(writer: &mut TextWriter, child: StandingChild)
    ensures { Adds (front_of_child child) writer.old writer.new }
{
    put_numbered(writer, "  Run ", child.run);
    put_numbered(writer, " is running, PID ", u64::from(child.pid));
}

fn put_numbered(writer: &mut TextWriter, words: &str, number: u64)
    ensures { Adds (words.now ++ decimal number) writer.old writer.new }
{
    writer.put_all(&[Text(words), Number(number)]);
}

// Adds how the line of an order begins whose answer is awaited.
fn put_order(writer: &mut TextWriter, act: Act)
    ensures { Adds (front_of_order act) writer.old writer.new }
{
    let (what, run) = match act {
        Act::Spawn { run, .. } => ("  The start of run ", run),
        Act::Term { run } => ("  TERM for run ", run),
        Act::Kill { run } => ("  KILL for run ", run),
        Act::Close { .. } | Act::Gone => return writer.put("  An answer is awaited."),
    };
    writer.put_all(&[
        Text(what),
        Number(run),
        Text(" was ordered, and the answer is awaited."),
    ]);
}

fn put_connections(writer: &mut TextWriter, count: usize)
    ensures { Adds (front_of_connections count) writer.old writer.new }
{
    if count == 1 {
        return writer.put("  It is wanted: a connection waits.");
    }
    writer.put_all(&[
        Text("  It is wanted: "),
        Number(count as u64),
        Text(" connections wait."),
    ]);
}
