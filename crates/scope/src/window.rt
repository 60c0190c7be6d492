//! Which part of a journal is reported: the times of the arguments, and the seconds that they mean by a journal's zone.

use crate::clock::now;
use crate::found::{Findings, NO_CLOCK, WELL};
use crate::journal::fault::JournalFault;
use crate::printed_times::read_printed;
use calendar_due::Zone;
use history_model::{MAX_WALL, Text};
use launchctl_words::{ScopeCommand, ScopeTask, SpanWords};
use moment_words::{Moment, WANTED, read_moment, second_of};

/// The times of the arguments.
#[derive(Clone, Copy)]
pub(crate) struct Window {
    /// That which is asked of.
    at: Option<Moment>,
    since: Option<Moment>,
    until: Option<Moment>,
    /// The second that is now, for the times of `since` and `until`.
    pub(crate) now: u64,
}

/// The whole of a journal.
pub(crate) const WHOLE: Window = Window {
    at: None,
    since: None,
    until: None,
    now: 0,
};

/// The seconds of Unix time between which a journal is reported.
#[derive(Clone, Copy)]
pub(crate) struct ReportedSpan {
    pub(crate) since: u64,
    pub(crate) until: u64,
}

/// The times that the arguments name, as they write them.
#[derive(Clone, Copy)]
struct TimeWords<'a> {
    at: Option<&'a Text>,
    since: Option<&'a Text>,
    until: Option<&'a Text>,
}

/// No time is named.
const NO_TIMES: TimeWords<'static> = TimeWords {
    at: None,
    since: None,
    until: None,
};

fn times_of(task: &ScopeTask) -> TimeWords<'_> {
    match task {
        ScopeTask::Why(why) => TimeWords {
            at: why.at.as_ref(),
            ..NO_TIMES
        },
        ScopeTask::Log(log) => times_in(&log.span),
        ScopeTask::Runs(span) => times_in(span),
        ScopeTask::Picture(picture) => times_in(&picture.span),
        ScopeTask::Check(_)
        | ScopeTask::Next(_)
        | ScopeTask::Status
        | ScopeTask::Metrics
        | ScopeTask::Cron(_)
        | ScopeTask::Plist(_)
        | ScopeTask::Show
        | ScopeTask::Drift => NO_TIMES,
    }
}

fn times_in(span: &SpanWords) -> TimeWords<'_> {
    TimeWords {
        at: None,
        since: span.since.as_ref(),
        until: span.until.as_ref(),
    }
}

/// The times that the arguments name. If one is not a time, or if the clock can't be read, it reports that and returns what that means.
pub(crate) fn window_of(host: &HostRuntime, of: &ScopeCommand) -> Result<Window, Findings> {
    let words = times_of(&of.task);
    let at = moment_of(host, "--at", words.at)?;
    let since = moment_of(host, "--since", words.since)?;
    let until = moment_of(host, "--until", words.until)?;
    let second = match (of.from, since, until) {
        (Some(second), _, _) => Some(second),
        (None, None, None) => Some(0),
        _ => now(host),
    };
    match second {
        Some(now) => Ok(Window {
            at,
            since,
            until,
            now,
        }),
        None => Err(NO_CLOCK),
    }
}

fn moment_of(
    host: &HostRuntime,
    option: &str,
    text: Option<&Text>,
) -> Result<Option<Moment>, Findings> {
    let Some(text) = text else {
        return Ok(None);
    };
    let text = text.as_str();
    let moment = read_moment(text).or(read_printed(text));
    if moment.is_none() {
        let wanted = WANTED;
        let _written = eprintln!(host; "jobscope: {option} {text:?}: expected {wanted}");
        return Err(Findings {
            is_misused: true,
            ..WELL
        });
    }
    Ok(moment)
}

impl Window {
    /// The time after which a journal is not read for the task, if there is one, and the second that is now for it. None for that second: the
    /// second of the journal's last event.
    pub(crate) fn end(&self, task: &ScopeTask) -> Option<(Moment, Option<u64>)> {
        match task {
            ScopeTask::Why(_) => Some((self.at?, None)),
            ScopeTask::Runs(_) | ScopeTask::Picture(_) => Some((self.until?, Some(self.now))),
            ScopeTask::Check(_)
            | ScopeTask::Next(_)
            | ScopeTask::Status
            | ScopeTask::Metrics
            | ScopeTask::Log(_)
            | ScopeTask::Cron(_)
            | ScopeTask::Plist(_)
            | ScopeTask::Show
            | ScopeTask::Drift => None,
        }
    }

    /// The same window, but that this second is its end.
    pub(crate) fn up_to(self, second: u64) -> Window {
        let end = Some(Moment::Second(second));
        match self.at {
            Some(_) => Window { at: end, ..self },
            None => Window { until: end, ..self },
        }
    }

    /// The seconds that it means by the zone.
    pub(crate) fn told(&self, zone: &Zone) -> Result<ReportedSpan, JournalFault> {
        let since = self.second(self.since, zone, 0)?;
        let until = self.second(self.until, zone, u64::MAX)?;
        Ok(ReportedSpan { since, until })
    }

    // The second of the time, or the other one if there is none.
    fn second(&self, moment: Option<Moment>, zone: &Zone, other: u64) -> Result<u64, JournalFault> {
        match moment {
            Some(moment) => meant(moment, zone, self.now),
            None => Ok(other),
        }
    }
}

/// The second of Unix time that `moment` means at this second.
pub(crate) fn meant(moment: Moment, zone: &Zone, now: u64) -> Result<u64, JournalFault> {
    match second_of(moment, zone, now.min(MAX_WALL)) {
        Some(second) => Ok(second),
        None => Err(JournalFault::NoDate),
    }
}
