//! The time as of which a journal is reported, how long ago that was, and whether its launcher was running then.

use history_model::{Reading, SECOND};
use launcher_life::{LauncherSeen, Life, foretells, may_live};
use run_times::Filling::{Moment, Number, Time};
use run_times::Page;
use status_page::{ENDING, gone_on, within_limits};

/// The time as of which a journal is reported.
#[derive(Clone, Copy)]
pub(crate) enum AsOf {
    /// Its end, whatever the clock shows now, and what is seen of its launcher, if that is asked.
    End(Option<LauncherSeen>),
    /// Its end, seen at this second, and what is seen of its launcher then; None if it has no file. Last, whether that launcher was asked for a shutdown.
    Seen(u64, Option<LauncherSeen>, bool),
    /// The last event up to this second. The journal has later ones, but if it ends there. No launcher is known to have run then if `is_gap`.
    Moment {
        second: u64,
        is_end: bool,
        is_gap: bool,
    },
}

impl AsOf {
    /// Whether something may be foretold of the jobs: their launcher ran then, as far as that is asked.
    pub(crate) fn foretells(self) -> bool {
        match self {
            AsOf::End(Some(seen)) | AsOf::Seen(_, Some(seen), _) => foretells(seen.life),
            AsOf::End(None) | AsOf::Seen(_, None, _) => true,
            AsOf::Moment { is_gap, .. } => !is_gap,
        }
    }

    /// Whether what the journal says of jobs may hold then.
    pub(crate) fn may_live(self) -> bool {
        match self {
            AsOf::End(Some(seen)) | AsOf::Seen(_, Some(seen), _) => may_live(seen.life),
            AsOf::End(None) | AsOf::Seen(_, None, _) => true,
            AsOf::Moment { is_gap, .. } => !is_gap,
        }
    }
}

/// The clock reading as of which a journal is reported, if `last` is that of its last event. The clocks went on while a running launcher wrote
/// nothing. If no launcher is known to run, they stay at the last event.
pub(crate) fn reading_as_of(as_of: AsOf, last: Reading) -> Reading {
    match as_of {
        AsOf::Seen(second, Some(seen), _) if foretells(seen.life) => {
            gone_on(within_limits(last), second)
        }
        AsOf::Moment { second, is_end, .. } if !is_end => gone_on(within_limits(last), second),
        _ => last,
    }
}

/// The clock reading that the clocks show then, if they went on alike, whether a launcher looked at them or not.
pub(crate) fn clock_as_of(as_of: AsOf, last: Reading) -> Reading {
    match as_of {
        AsOf::Seen(second, _, _) => gone_on(within_limits(last), second),
        as_of => reading_as_of(as_of, last),
    }
}

/// Adds the head of a report: when the last event was, how long ago that was, and who writes the journal now.
pub(crate) fn add_head(page: &mut Page<'_>, as_of: AsOf, last: Reading) {
    match as_of {
        AsOf::End(seen) => {
            page.add("As of $:\n", &[Moment(last.wall)]);
            if !as_of.foretells() {
                add_launcher(page, seen, last);
            }
        }
        AsOf::Moment { second, is_gap, .. } => {
            page.add(
                "As of $, the last event up to $:\n",
                &[Moment(last.wall), Time(second)],
            );
            if is_gap {
                page.add(
                    "No launcher ran then: the one before exited or was killed, or its journal closed, after $.\n",
                    &[Time(last.wall)],
                );
            }
        }
        AsOf::Seen(second, seen, is_ending) => {
            page.add("As of $, the journal's last event, ", &[Moment(last.wall)]);
            add_age(page, second, last.wall);
            add_launcher(page, seen, last);
            page.writer.put(if is_ending && as_of.may_live() {
                ENDING
            } else {
                ""
            });
        }
    }
}

fn add_age(page: &mut Page<'_>, now: u64, last: u64) {
    if now < last {
        page.writer
            .put("which is later than the clock shows now.\n");
        return;
    }
    let age = (now - last).saturating_mul(SECOND);
    page.writer.put_span(age, false);
    page.writer.put(" ago.\n");
}

fn add_launcher(page: &mut Page<'_>, seen: Option<LauncherSeen>, last: Reading) {
    let Some(seen) = seen else {
        return;
    };
    let process = Number(u64::from(seen.pid.unwrap_or(0)));
    let (form, hole) = match seen.life {
        Life::Runs => (
            "The launcher that writes this journal is running (PID $): durations are measured to the present.\n",
            process,
        ),
        Life::Stopped => (
            "The launcher that writes this journal is stopped by a signal (PID $): it starts nothing until it gets CONT.\n",
            process,
        ),
        Life::Silent(seconds) => (
            "The launcher that writes this journal has written nothing for $ s: it hangs or can't write.\n",
            Number(seconds),
        ),
        Life::NotSeen => (
            "The launcher that writes this journal is not seen here: it exited, its journal closed after $, or it runs in another container.\n",
            Time(last.wall),
        ),
        Life::Exited => (
            "No launcher writes this journal now: it exited in order, at $.\n",
            Time(last.wall),
        ),
        Life::Killed => (
            "No launcher writes this journal now: it was killed, or its journal closed, after $.\n",
            Time(last.wall),
        ),
        Life::Unknown => (
            "It is not known whether a launcher writes this journal now: /proc/locks can't be read.\n",
            process,
        ),
    };
    page.add(form, &[hole]);
}
