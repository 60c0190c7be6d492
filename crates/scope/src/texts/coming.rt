//! What can come to want a job that nothing wants now, in sentences.

ghost use Rattle.std.specs.Prelude.{◌≡◌, ◌≤◌};
ghost use Rattle.calendar_due.specs.ZoneRules.{minute_at};
ghost use Rattle.history_model.specs.declared.TheConstants.{MAX_WALL};
ghost use Rattle.scope.specs.Told.{IsCalendarNext, last_looked_at};

use crate::texts::by_facts::{StartWord, start_word};
use crate::texts::told::{
    CalendarNext, MOST_SENTENCES, NONE, SILENCE, Sentence, Sentences, ToldJob, said_if,
};
use calendar_due::{Calendar, Zone};
use history_model::{Entry, MAX_WALL};
use run_times::Filling;
use run_times::Filling::{Coming, Minute, Number};
use status_file::{JobKeys, KeyPaths};
use status_page::FARTHEST;

/// Why its conditions do not want it, and when the clocks will.
pub(crate) fn unmet_said(told: &ToldJob<'_>) -> Sentences<'static> {
    let has_ended = told.runs.last.is_some();
    let mut said = [SILENCE; MOST_SENTENCES];
    said[0] = said_if(has_ended, exit_unmet(told.keys.successful_exit));
    said[1] = said_if(has_ended, crash_unmet(told.keys.crashed));
    said[2] = said_if(true, " It will be wanted");
    said[3] = calendar_said(told.calendar);
    said[4] = interval_said(told.keys.start_interval, told.facts.moments.interval);
    said
}

/// By which of the paths that are watched.
pub(crate) fn watched_said<'a>(paths: KeyPaths<'a>) -> Sentence<'a> {
    paths_said(
        paths,
        " once $ changes (WatchPaths),",
        " once $ changes, or another of the $ paths of WatchPaths,",
    )
}

/// By which of its folders.
pub(crate) fn queued_said<'a>(folders: KeyPaths<'a>) -> Sentence<'a> {
    paths_said(
        folders,
        " once $ has an entry (QueueDirectories),",
        " once $ has an entry, or another of the $ folders of QueueDirectories,",
    )
}

/// Its sockets, and the command with which a client can ask for a start.
pub(crate) fn asked_said(told: &ToldJob<'_>) -> Sentences<'static> {
    let mut said = [SILENCE; MOST_SENTENCES];
    said[0] = said_if(
        told.keys.has_sockets,
        " once a connection comes to its sockets,",
    );
    let word = start_name(start_word(&told.facts.reasons));
    let form = if has_way(told) {
        " or by `jobctl $`."
    } else {
        " by `jobctl $`."
    };
    said[1] = (form, [Filling::Text(word), NONE, NONE, NONE]);
    said
}

// The path by which it comes to be wanted. One form is for a single path, and the other for the first of several.
fn paths_said<'a>(paths: KeyPaths<'a>, one: &'static str, several: &'static str) -> Sentence<'a> {
    let Some(first) = paths.first else {
        return SILENCE;
    };
    let form = if paths.count == 1 { one } else { several };
    (
        form,
        [Filling::Text(first), Number(paths.count), NONE, NONE],
    )
}

/// By which condition of `PathState`.
pub(crate) fn conditions_said<'a>(keys: &JobKeys<'a>) -> Sentence<'a> {
    let (Some(first), Some(exists)) = (keys.path_state.first, keys.first_exists) else {
        return SILENCE;
    };
    let form = match (exists, keys.path_state.count) {
        (true, 1) => " once $ exists (KeepAlive PathState),",
        (false, 1) => " once $ does not exist (KeepAlive PathState),",
        (true, _) =>
            " once $ exists, or another of the $ paths of KeepAlive PathState is as it says,",
        (false, _) => {
            " once $ does not exist, or another of the $ paths of KeepAlive PathState is as it says,"
        }
    };
    let count = Number(keys.path_state.count);
    (form, [Filling::Text(first), count, NONE, NONE])
}

// Whether something but a client can want it.
fn has_way(told: &ToldJob<'_>) -> bool {
    let keys = &told.keys;
    let has_calendar = match told.calendar {
        CalendarNext::Absent => false,
        CalendarNext::Far | CalendarNext::At(_) => true,
    };
    has_calendar
        || told.facts.moments.interval.is_some()
        || keys.watch_paths.count > 0
        || keys.queue_directories.count > 0
        || keys.path_state.count > 0
        || keys.has_sockets
}

// Why the condition of its last end does not want it: the reasons say that it does not hold.
fn exit_unmet(successful_exit: Option<bool>) -> &'static str {
    match successful_exit {
        Some(true) => {
            " KeepAlive SuccessfulExit is true, and its last run did not exit with code 0."
        }
        Some(false) => " KeepAlive SuccessfulExit is false, and its last run exited with code 0.",
        None => "",
    }
}

fn crash_unmet(crashed: Option<bool>) -> &'static str {
    match crashed {
        Some(true) => " KeepAlive Crashed is true, and its last run did not crash.",
        Some(false) => " KeepAlive Crashed is false, and its last run crashed.",
        None => "",
    }
}

/// The next minute that one of the entries matches in the zone after this second of `wall`.
pub(crate) fn calendar_next(entries: &[Entry], zone: &Zone, after: u64) -> CalendarNext
    ensures { IsCalendarNext (minute_at zone.now) entries.now after result }
{
    if entries.is_empty() {
        return CalendarNext::Absent;
    }
    match Calendar::next(entries, zone, after, last_looked_at(after)) {
        Some(wall) => CalendarNext::At(wall),
        None => CalendarNext::Far,
    }
}

fn last_looked_at(after: u64) -> u64
    ensures value { result ≡ last_looked_at after }
    ensures range { result ≤ MAX_WALL }
{
    after.saturating_add(FARTHEST).min(MAX_WALL)
}

fn calendar_said(next: CalendarNext) -> Sentence<'static> {
    let (form, wall) = match next {
        CalendarNext::Absent => ("", 0),
        CalendarNext::Far => (
            " in no minute of the next 400 days (StartCalendarInterval),",
            0,
        ),
        CalendarNext::At(wall) => (" at $ (StartCalendarInterval),", wall),
    };
    (form, [Minute(wall), NONE, NONE, NONE])
}

// When its interval is over, and its seconds.
fn interval_said(interval: Option<u32>, end: Option<u64>) -> Sentence<'static> {
    match (interval, end) {
        (Some(seconds), Some(up)) => (
            " at $ (StartInterval is $),",
            [Coming(up), Number(u64::from(seconds)), NONE, NONE],
        ),
        _ => SILENCE,
    }
}

fn start_name(word: StartWord) -> &'static str {
    match word {
        StartWord::Start => "start",
        StartWord::Kickstart => "kickstart -k",
    }
}
