//! The trials.

use crate::journal::{HEADER, JOURNAL, OUTCOMES, outcomes_of, wanted_of};
use crate::judge::MANY;
use crate::sink::Sink;
use crate::source::Source;
use replay::{ReplayFault, replay, replay_within};
use std::alloc::Global;
use std::io;
use std::io::ErrorKind;

/// A trial, which is made for each number of a range.
#[derive(Clone, Copy)]
enum Trial {
    /// The journal in pieces of that many bytes is answered whole.
    Pieces,
    /// This many reads of a number of bytes, and then one that fails so, leave the outcome lines of the lines before.
    Reads(usize, ErrorKind),
    /// This many written bytes, and then a write that fails so, or takes no byte, leave these bytes.
    Writes(Option<ErrorKind>),
    /// This many reads of one byte, and no more, leave the outcome lines of the lines before.
    Counts,
    /// The fewest reads that a reader of pieces of that many bytes makes, and one at its end, are enough for the whole journal: reads are
    /// counted, and not bytes.
    LongReads,
    /// A journal that ends after this many bytes is answered as far as it goes. Its last line needs no newline. If that line is cut, it is
    /// not an event.
    Fronts,
}

/// A run: how the journal is read and written, how many reads there may be if that is bounded, how it ends, and what is written then.
#[derive(Drop)]
struct Run {
    rest: &'static [u8],
    /// The most bytes that one read gives, how many reads succeed, and how the next one fails.
    reads: (usize, usize, ErrorKind),
    /// The most bytes that one write takes, how many writes succeed, and how the next one fails.
    writes: (usize, usize, Option<ErrorKind>),
    most: Option<usize>,
    ending: Result<(), ReplayFault>,
    wanted: (&'static [u8], &'static [u8]),
}

/// The whole journal, read and written in long pieces.
const WHOLE: Run = Run {
    rest: JOURNAL,
    reads: (64, MANY, ErrorKind::Other),
    writes: (MANY, MANY, None),
    most: None,
    ending: Ok(()),
    wanted: (OUTCOMES, b""),
};

/// The run of the trial's number. The journal and its outcomes are named once, since each place that names a long constant is expensive to
/// prove.
fn run_of(trial: Trial, number: usize) -> Run {
    let mut run = WHOLE;
    match trial {
        Trial::Pieces => {
            run.reads = (number, MANY, ErrorKind::Other);
            run.writes = (number, MANY, None);
        }
        Trial::Reads(piece, failure) => {
            run.reads = (piece, number, failure);
            run.ending = Err(ReplayFault::Read);
            run.wanted = (outcomes_of(piece.saturating_mul(number)), b"");
        }
        Trial::Writes(failure) => {
            let (outcomes, _) = run.wanted;
            run.writes = (1, number, failure);
            run.ending = Err(ReplayFault::Write);
            run.wanted = (&outcomes[..number.min(outcomes.len())], b"");
        }
        Trial::Counts => {
            run.reads = (1, MANY, ErrorKind::Other);
            run.most = Some(number);
            run.ending = Err(ReplayFault::ReadCount);
            run.wanted = (outcomes_of(number), b"");
        }
        Trial::LongReads => {
            let reads = run.rest.len().div_ceil(number.max(1));
            run.reads = (number, MANY, ErrorKind::Other);
            run.most = Some(reads.saturating_add(1));
        }
        Trial::Fronts => {
            run.rest = &run.rest[..number.min(run.rest.len())];
            if number < HEADER {
                run.ending = Err(ReplayFault::Header);
                run.wanted = (b"", b"");
            } else {
                run.wanted = wanted_of(number);
            }
        }
    }
    run
}

/// Whether the run ends, and leaves written, as expected.
fn holds(alloc: Global, run: &Run) -> bool {
    let (piece, reads, failure) = run.reads;
    let mut reader = Source {
        rest: run.rest,
        piece,
        reads,
        failure,
    };
    let (piece, writes, failure) = run.writes;
    let mut writer = Sink {
        taken: Vec::new(alloc),
        piece,
        writes,
        failure,
    };
    let ending = match run.most {
        Some(most) => replay_within(alloc, &mut reader, &mut writer, most as u64),
        None => replay(alloc, &mut reader, &mut writer),
    };
    let (lines, last) = run.wanted;
    let text = writer.taken.as_slice();
    ending == run.ending && text.strip_prefix(lines) == Some(last)
}

/// The least and the greatest number of the trial.
fn range(trial: Trial) -> (usize, usize) {
    match trial {
        Trial::Pieces => (1, 300),
        Trial::Reads(piece, _) => (0, JOURNAL.len() / piece.max(1)),
        Trial::Writes(_) => (0, OUTCOMES.len().saturating_sub(1)),
        Trial::Counts => (0, JOURNAL.len()),
        Trial::LongReads => (1, 600),
        Trial::Fronts => (0, JOURNAL.len().saturating_sub(1)),
    }
}

/// Whether the trial holds for each number.
fn always_holds(alloc: Global, trial: Trial) -> bool {
    let (least, greatest) = range(trial);
    let mut are_so = true;
    for number in least..=greatest {
        let is_so = holds(alloc, &run_of(trial, number));
        are_so = are_so && is_so;
    }
    are_so
}

static TRIALS: &[(&str, Trial)] = &[
    ("pieces_of_any_length", Trial::Pieces),
    (
        "each_read_of_a_byte_fails",
        Trial::Reads(1, ErrorKind::Other),
    ),
    (
        "each_read_of_seven_bytes_fails",
        Trial::Reads(7, ErrorKind::BrokenPipe),
    ),
    (
        "each_read_is_interrupted",
        Trial::Reads(1, ErrorKind::Interrupted),
    ),
    ("each_write_fails", Trial::Writes(Some(ErrorKind::Other))),
    (
        "each_write_is_interrupted",
        Trial::Writes(Some(ErrorKind::Interrupted)),
    ),
    ("each_write_takes_no_byte", Trial::Writes(None)),
    ("reads_are_counted", Trial::Counts),
    ("few_long_reads_suffice", Trial::LongReads),
    ("each_front_is_answered", Trial::Fronts),
];

/// Makes each trial, and names it.
pub fn try_all(rt: &HostRuntime) -> io::Result<()> {
    for (name, trial) in TRIALS {
        let fault = if always_holds(rt.alloc(), *trial) {
            ""
        } else {
            ": other than wanted"
        };
        println!(rt; "{name}{fault}")?;
    }
    Ok(())
}
