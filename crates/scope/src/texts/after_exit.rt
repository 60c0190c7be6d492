//! What happens to a job once its present run exits.

ghost use Rattle.std.specs.Prelude.{◌≡◌};
ghost use Rattle.scope.specs.AfterExits.{after_exit, wants_anyway};

use crate::journal::shown::is_spent;
use crate::texts::cause_lines::add_ways;
use crate::texts::causes::throttle_of;
use crate::texts::told::ToldJob;
use history_model::{Reasons, Wants};
use run_times::Filling::Time;
use run_times::Page;

/// What happens to a job once its present run exits, if nothing else happens until then.
#[derive(Clone, Copy)]
pub(crate) enum AfterExit {
    /// It is removed, or no start can come of its load. Its causes say it.
    Leaves,
    /// It starts again.
    Starts,
    /// Its conditions on the exit decide.
    Depends,
    /// Nothing wants it.
    Idles,
}

/// What happens to the job once its run exits, by its reasons, and by `SuccessfulExit` and `Crashed` of its `KeepAlive`.
pub(crate) fn after_exit(
    reasons: &Reasons,
    successful_exit: Option<bool>,
    crashed: Option<bool>,
) -> AfterExit
    ensures { result ≡ after_exit reasons.now successful_exit crashed }
{
    if reasons.is_removing || is_spent(reasons) {
        AfterExit::Leaves
    } else if wants_anyway(&reasons.wants) {
        AfterExit::Starts
    } else if successful_exit.is_some() || crashed.is_some() {
        AfterExit::Depends
    } else {
        AfterExit::Idles
    }
}

// Whether something wants the job, however its run exits.
fn wants_anyway(wants: &Wants) -> bool
    ensures { result ≡ wants_anyway wants.now }
{
    wants.demand
        || wants.connections > 0
        || wants.keep_alive
        || wants.path_state
        || wants.queue_directories
}

/// Adds what happens to a job once its run exits, if it has one.
pub(crate) fn add_after_exit(page: &mut Page<'_>, told: &ToldJob<'_>) {
    let reasons = &told.facts.reasons;
    if reasons.child.is_none() {
        return;
    }
    let (code, crash) = (told.keys.successful_exit, told.keys.crashed);
    match after_exit(reasons, code, crash) {
        AfterExit::Leaves => {}
        AfterExit::Starts => add_start(page, told, ["", "", ""]),
        AfterExit::Depends => {
            let both = code.is_some() && crash.is_some();
            let or = if both { ", or" } else { "" };
            add_start(page, told, [code_words(code), or, crash_words(crash)]);
        }
        AfterExit::Idles => {
            page.writer
                .put("  When it exits, it stays idle, since nothing wants it.");
            add_ways(page, told);
            page.writer.put("\n");
        }
    }
}

// Adds that it starts again, on which conditions, and from when on.
fn add_start(page: &mut Page<'_>, told: &ToldJob<'_>, conditions: [&'static str; 3]) {
    page.writer.put("  When it exits, it starts again");
    for words in conditions {
        page.writer.put(words);
    }
    if let Some(up) = told.facts.reasons.throttled_until {
        let end = throttle_of(&told.runs, told.keys.throttle_interval, up, told.at);
        page.add(", at $ at the earliest", &[Time(end.told)]);
    }
    page.writer.put(".\n");
}

fn code_words(successful_exit: Option<bool>) -> &'static str {
    match successful_exit {
        Some(true) => " if the code is 0 (KeepAlive SuccessfulExit is true)",
        Some(false) => " unless the code is 0 (KeepAlive SuccessfulExit is false)",
        None => "",
    }
}

fn crash_words(crashed: Option<bool>) -> &'static str {
    match crashed {
        Some(true) => " if it crashes (KeepAlive Crashed is true)",
        Some(false) => " unless it crashes (KeepAlive Crashed is false)",
        None => "",
    }
}
