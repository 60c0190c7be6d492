//! What is reported of one job, and the sentences that say it.

use crate::journal::job::JobRequest;
use crate::known_runs::KnownRuns;
use history_model::Reading;
use run_times::Filling;
use status_file::{JobFacts, JobKeys};

/// A sentence: its form, and what fills its holes. An empty form says nothing.
pub(crate) type Sentence<'a> = (&'static str, [Filling<'a>; 4]);

/// Fills the places for which a form has no hole.
pub(crate) const NONE: Filling<'static> = Filling::Text("");

/// What says nothing.
pub(crate) const SILENCE: Sentence<'static> = ("", [NONE; 4]);

/// How many sentences a line may have after its beginning.
pub(crate) const MOST_SENTENCES: usize = 6;

/// The sentences of a line, in order.
pub(crate) type Sentences<'a> = [Sentence<'a>; MOST_SENTENCES];

/// A sentence without holes; nothing, if it does not hold.
pub(crate) fn said_if(holds: bool, words: &'static str) -> Sentence<'static> {
    (if holds { words } else { "" }, [NONE; 4])
}

/// A single sentence, with two holes at most.
pub(crate) fn alone<'a>(
    form: &'static str,
    first: Filling<'a>,
    second: Filling<'a>,
) -> Sentences<'a> {
    let mut said = [SILENCE; MOST_SENTENCES];
    said[0] = (form, [first, second, NONE, NONE]);
    said
}

/// A job, what the table says of it, and what is kept of its past.
#[derive(Clone, Copy)]
pub(crate) struct ToldJob<'a> {
    /// The clock reading as of which the job is reported.
    pub(crate) at: Reading,
    pub(crate) facts: JobFacts<'a>,
    /// What was asked of it last, or of all jobs.
    pub(crate) asked: Option<(JobRequest, Reading)>,
    /// What is known of its runs.
    pub(crate) runs: KnownRuns<'a>,
    pub(crate) keys: JobKeys<'a>,
    /// The next minute of its calendar.
    pub(crate) calendar: CalendarNext,
}

/// The next minute that an entry of a calendar matches.
#[derive(Clone, Copy)]
pub(crate) enum CalendarNext {
    /// There is no entry.
    Absent,
    /// It is beyond what is looked ahead.
    Far,
    /// The minute that begins at this second of `wall`.
    At(u64),
}
