//! What is known of a job's runs, by a journal or by its launcher's file. The sentences and objects of both are made of it.

ghost use Rattle.std.specs.Option.{option_map};
ghost use Rattle.std.specs.Prelude.{◌≡◌, is_some};
ghost use Rattle.status_page.specs.Failing.{is_refused_last, is_start_refused, last_end_in};
ghost use Rattle.scope.specs.KnownFaults.{end_in, past_in, recorded_end};

use history_model::{Ended, Reading, StandingChild};
use run_log::{RefusedStart, RunEnd, RunFacts};
use status_file::JobNote;
use status_page::{LastEnd, PastRuns, is_crash, is_refused_last, last_end_of};

/// How the last run ended.
#[derive(Clone, Copy)]
pub(crate) struct KnownEnd {
    pub(crate) how: Ended,
    /// Whether TERM or KILL was ordered for it.
    pub(crate) is_ordered: bool,
    pub(crate) began: Reading,
    pub(crate) ended: Reading,
}

impl KnownEnd {
    pub(crate) fn is_crash(&self) -> bool {
        is_crash(self.how, self.is_ordered)
    }

    /// How many milliseconds the run ran.
    pub(crate) fn lived(&self) -> u64 {
        self.ended.up.saturating_sub(self.began.up)
    }
}

/// What is known of the runs of a load.
#[derive(Clone, Copy)]
pub(crate) struct KnownRuns<'a> {
    /// How many starts were ordered, refused ones too.
    pub(crate) starts: u64,
    /// When the last start was ordered.
    pub(crate) started: Option<Reading>,
    /// Since when its child is running.
    pub(crate) began: Option<Reading>,
    /// Whether the system refused to wait for it. The launcher's file does not say it.
    pub(crate) is_lost: bool,
    /// When the first TERM, and the last KILL, was ordered since the last start.
    pub(crate) term: Option<Reading>,
    pub(crate) kill: Option<Reading>,
    pub(crate) last: Option<KnownEnd>,
    /// The last start that was refused, if no run began after it.
    pub(crate) refused: Option<RefusedStart<'a>>,
}

impl<'a> KnownRuns<'a> {
    /// By what a journal says: what is recorded of the load, and since when its child is running. `is_lost`: the wait for its present run was refused.
    pub(crate) fn recorded(
        facts: RunFacts<'a>,
        began: Option<Reading>,
        is_lost: bool,
    ) -> KnownRuns<'a>
        ensures last { end_in result.last ≡ recorded_end facts.entry.last_end }
        ensures refused { is_some result.refused ≡ is_refused_last
            (option_map (λ start. start.run) facts.entry.refused)
            (option_map (λ end. end.run) facts.entry.last_end)
            (is_some began) }
    {
        KnownRuns {
            starts: facts.starts,
            started: facts.started,
            began,
            is_lost,
            term: facts.term,
            kill: facts.kill,
            last: end_recorded(facts.last_end),
            refused: last_refused(facts.refused, facts.last_end, began.is_some()),
        }
    }

    /// By what the launcher's file says of the job, and of its child.
    pub(crate) fn noted(note: &JobNote<'a>, child: Option<StandingChild>) -> KnownRuns<'a>
        ensures refused { is_some result.refused ≡ is_start_refused note.now (is_some child) }
        ensures last { end_in result.last ≡ last_end_in note.now }
    {
        let began = match child {
            Some(_) => Some(note.since),
            None => None,
        };
        KnownRuns {
            starts: note.starts,
            started: note.started,
            began,
            is_lost: false,
            term: note.term,
            kill: note.kill,
            last: end_noted(note),
            refused: last_refused(note.refused, note.last_end, child.is_some()),
        }
    }

    /// When the last start was refused, if it was.
    pub(crate) fn refused_at(&self) -> Option<Reading> {
        match &self.refused {
            Some(start) => Some(start.at),
            None => None,
        }
    }

    /// What the system said of the last start, if it refused that, as far as it is known.
    pub(crate) fn reason(&self) -> Option<&'a str> {
        match &self.refused {
            Some(start) => start.reason,
            None => None,
        }
    }

    /// What says whether a job with this `ThrottleInterval` is failing.
    pub(crate) fn past(&self, throttle: u32) -> PastRuns
        ensures { result ≡ past_in self.now throttle }
    {
        PastRuns {
            is_refused: self.refused.is_some(),
            last: last_of(self.last),
            began: up_of(self.began),
            throttle,
        }
    }
}

fn up_of(at: Option<Reading>) -> Option<u64>
    ensures { result ≡ option_map (λ at. at.up) at }
{
    match at {
        Some(at) => Some(at.up),
        None => None,
    }
}

fn last_of(end: Option<KnownEnd>) -> Option<LastEnd>
    ensures { result ≡ end_in end }
{
    match end {
        Some(end) => Some(LastEnd {
            how: end.how,
            is_ordered: end.is_ordered,
        }),
        None => None,
    }
}

// The last start that was refused, if no run began after it.
fn last_refused<'a>(
    refused: Option<RefusedStart<'a>>,
    ended: Option<RunEnd>,
    is_running: bool,
) -> Option<RefusedStart<'a>>
    ensures { is_some result ≡ is_refused_last
        (option_map (λ start. start.run) refused.entry)
        (option_map (λ end. end.run) ended)
        is_running }
{
    let start = refused?;
    let ended = match ended {
        Some(end) => Some(end.run),
        None => None,
    };
    if is_refused_last(Some(start.run), ended, is_running) {
        Some(start)
    } else {
        None
    }
}

// The end that a journal has.
fn end_recorded(end: Option<RunEnd>) -> Option<KnownEnd>
    ensures { end_in result ≡ recorded_end end }
{
    match end {
        Some(end) => Some(KnownEnd {
            how: end.how,
            is_ordered: end.ordered.unwrap_or(false),
            began: end.began,
            ended: end.ended,
        }),
        None => None,
    }
}

// The end that the launcher's file has.
fn end_noted(note: &JobNote<'_>) -> Option<KnownEnd>
    ensures { end_in result ≡ last_end_in note.now }
{
    let end = note.last_end?;
    let last = last_end_of(note)?;
    Some(KnownEnd {
        how: last.how,
        is_ordered: last.is_ordered,
        began: end.began,
        ended: end.ended,
    })
}
