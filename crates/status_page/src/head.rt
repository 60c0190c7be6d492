//! Who the launcher of a status file is, whether it is running, and how old the file is.

use crate::standing::StatusRead;
use history_model::SECOND;
use launcher_life::Life;
use run_times::Filling::{Moment, Number, Text, Time};
use run_times::Page;
use status_file::{JournalStatus, LauncherStatus};

/// The line of the head of a launcher that shuts down.
pub const ENDING: &str = "It is shutting down: it starts no job.\n";

/// Adds the report on the launcher at a second: as of when the file is, how old it is, whether its process is running, and what it could not write. A
/// line follows if it shuts down.
pub fn add_head(page: &mut Page<'_>, standing: &StatusRead, second: u64) {
    let Some(launcher) = standing.launcher() else {
        return;
    };
    page.add("As of $, ", &[Moment(launcher.at.wall)]);
    if second < launcher.at.wall {
        page.writer.put("which is later than the clock shows now. ");
    } else {
        let age = (second - launcher.at.wall).saturating_mul(SECOND);
        page.writer.put_span(age, false);
        page.writer.put(" ago. ");
    }
    let (form, seconds) = match standing.seen.life {
        Life::Runs => (
            "The launcher is running (PID $): durations are measured to the present.\n",
            0,
        ),
        Life::Stopped => (
            "The launcher (PID $) is stopped by a signal: it starts nothing until it gets CONT.\n",
            0,
        ),
        Life::Silent(seconds) => (
            "The launcher (PID $) has written nothing for $ s: it hangs or can't write.\n",
            seconds,
        ),
        Life::NotSeen => (
            "The launcher (PID $) is not seen here: it exited, or runs in another container.\n",
            0,
        ),
        Life::Exited => ("The launcher (PID $) exited in order, at $.\n", 0),
        Life::Killed => (
            "The launcher (PID $) exited or was killed, and its jobs are no longer supervised.\n",
            0,
        ),
        Life::Unknown => (
            "It is not known whether the launcher (PID $) is running: /proc does not show it.\n",
            0,
        ),
    };
    let process = standing.seen.pid.unwrap_or(launcher.pid);
    let second = match standing.seen.life {
        Life::Exited => Time(launcher.at.wall),
        _ => Number(seconds),
    };
    page.add(form, &[Number(u64::from(process)), second]);
    add_faults(page, &launcher);
    page.writer
        .put(if standing.is_ending() { ENDING } else { "" });
}

fn add_faults(page: &mut Page<'_>, launcher: &LauncherStatus<'_>) {
    if let JournalStatus::Closed(reason) = launcher.journal {
        page.add("Its journal is closed: $.\n", &[Text(reason)]);
    }
    if let Some(refused) = launcher.store {
        page.add("Its store refused something: $.\n", &[Text(refused)]);
    }
}
