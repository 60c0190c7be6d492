//! The journal for people: a line for each event that matters.

use crate::joined::reason_beside;
use crate::journal::job::KeptJob;
use crate::journal::news::{News, What};
use crate::journal::reader::OpenJournal;
use crate::journal::run::JobRun;
use crate::journal::waiting::Wait;
use crate::texts::causes::throttle_of;
use crate::texts::words::{asked_name, demand_words, end_words, refusal_name, refusal_words};
use crate::view::by_journal::missed_by;
use history_model::{DemandKind, Reading, Refusal, Wants};
use pace::Signal;
use run_times::Filling::{Now, Number, Span, Text, Time};
use run_times::{Filling, Page, coming_second};
use status_page::StatusRead;

/// What ends the line of the third end in turn that is odd.
const BACKGROUND: &str =
    ". Does its program put itself in the background? It has to stay in the foreground.\n";

/// Whether the label is among those; without labels, each is.
pub(crate) fn is_named(labels: &[history_model::Text], label: &str) -> bool {
    for named in labels {
        if named.as_str() == label {
            return true;
        }
    }
    labels.is_empty()
}

/// Adds what the last line of the journal gave, a line each, of the labels that are named, or of all if none is. What has no label is of
/// each. Why a start was refused is that of the status file of the journal's launcher, if that was read.
pub(crate) fn add_lines(
    page: &mut Page<'_>,
    journal: &OpenJournal,
    labels: &[history_model::Text],
    standing: Option<&StatusRead>,
) {
    for news in &journal.past.news {
        let label = news.label.as_str();
        if label.is_empty() || is_named(labels, label) {
            let path = match &news.what {
                What::Ordered { .. } => journal.table.path_that_holds(label),
                _ => None,
            };
            let until = until_of(journal, news, page.now);
            let reason = reason_of(news, standing, page.now);
            add_news(page, news, path, until, reason);
            add_missed(page, journal, news);
        }
    }
}

// Why a start was refused, if the line says that one was.
fn reason_of<'a>(news: &News, standing: Option<&'a StatusRead>, now: Reading) -> Option<&'a str> {
    match news.what {
        What::NotBegun { run, .. } => reason_beside(standing, news.label.as_str(), run, now),
        _ => None,
    }
}

/// Whether the last line of the journal says that a start was refused of a label that is named.
pub(crate) fn tells_refused(journal: &OpenJournal, labels: &[history_model::Text]) -> bool {
    for news in &journal.past.news {
        match news.what {
            What::NotBegun { .. } if is_named(labels, news.label.as_str()) => return true,
            _ => {}
        }
    }
    false
}

// After a load it adds that a minute of the job's calendar passed while no launcher ran, if one did.
fn add_missed(page: &mut Page<'_>, journal: &OpenJournal, news: &News) {
    let missed = match news.what {
        What::Loaded => match journal.past.jobs.get(news.label.as_str()) {
            Some(job) => missed_by(journal, job),
            None => None,
        },
        _ => None,
    };
    if let Some(minute) = missed {
        page.add(
            "$  $: $ passed while no launcher ran\n",
            &[Now, Text(news.label.as_str()), Time(minute)],
        );
    }
}

// The second at which the throttle is over for whose end the job waits; 0, if it waits for none.
fn until_of(journal: &OpenJournal, news: &News, now: Reading) -> u64 {
    let up = match news.what {
        What::NotBegun {
            wait: Wait::Throttled(up),
            ..
        } => up,
        What::Ended {
            wait: Wait::Throttled(up),
            ..
        } => up,
        _ => return 0,
    };
    match journal.past.jobs.get(news.label.as_str()) {
        Some(
            KeptJob {
                def: Some(def),
                record,
                ..
            },
        ) => throttle_of(&record.known(), def.throttle_interval(), up, now).told,
        _ => coming_second(now, up),
    }
}

// For an order of a start, `path` is the one that keeps its job wanted. If the job waits for its throttle, this lasts until `until`. Of a start that
// was refused `reason` says why.
fn add_news(
    page: &mut Page<'_>,
    news: &News,
    path: Option<&str>,
    until: u64,
    reason: Option<&str>,
) {
    let label = news.label.as_str();
    let front = if label.is_empty() { "$  " } else { "$  $: " };
    page.add(front, &[Now, Text(label)]);
    match &news.what {
        What::Ordered {
            run,
            connection: None,
            demand,
            wants,
        } => {
            let (form, cause) = order_words(*demand, path, wants);
            page.add(form, &[Number(*run), Text(cause)]);
        }
        What::LoadRefused(refusal) => add_refused(page, *refusal),
        What::Ended { run, .. } => add_ended(page, run),
        What::NotBegun { run, .. } => add_not_begun(page, *run, reason),
        what => add_what(page, what),
    }
    add_wait(page, &news.what, until);
}

fn add_refused(page: &mut Page<'_>, refusal: Refusal) {
    let [words, reason, key] = refusal_words(refusal);
    let form = if key.is_empty() {
        "load refused: $"
    } else {
        "load refused: $$ $"
    };
    page.add(form, &[Text(words), Text(reason), Text(key)]);
}

fn add_not_begun(page: &mut Page<'_>, run: u64, reason: Option<&str>) {
    match reason {
        Some(reason) => page.add("run $ was refused: $", &[Number(run), Text(reason)]),
        None => page.add("run $ was refused", &[Number(run)]),
    }
}

// The news that one form with two holes can say.
fn add_what(page: &mut Page<'_>, what: &What) {
    let none = Text("");
    let (form, first, second) = match *what {
        What::Loaded => ("loaded", none, none),
        What::Asked(asked) => ("$ was asked", Text(asked_name(asked)), none),
        What::Declined(asked, refusal) => (
            "$ was asked and refused: $",
            Text(asked_name(asked)),
            Text(refusal_name(refusal)),
        ),
        What::Came(number) => ("connection $ came", Number(number), none),
        What::Left(number) => (
            "connection $ was given up by its client",
            Number(number),
            none,
        ),
        What::Ordered {
            run,
            connection: Some(number),
            ..
        } => (
            "run $ was ordered: connection $ waits",
            Number(run),
            Number(number),
        ),
        What::Lost { run } => (
            "run $: the system refused to wait for it, so its exit is not seen",
            Number(run),
            none,
        ),
        What::Began { run, pid } => { ("run $ began, PID $", Number(run), Number(u64::from(pid))) }
        What::Told { run, signal } => ("$ was ordered for run $", signal_name(signal), Number(run)),
        What::Untold { run, signal } => (
            "$ could not be sent to run $",
            signal_name(signal),
            Number(run),
        ),
        _ => ("removed", none, none),
    };
    page.add(form, &[first, second]);
}

fn signal_name(signal: Signal) -> Filling<'static> {
    Text(match signal {
        Signal::Term => "TERM",
        Signal::Kill => "KILL",
    })
}

fn add_ended(page: &mut Page<'_>, run: &JobRun) {
    let (words, end) = end_words(run.end);
    let crash = if run.is_crash { " (a crash)" } else { "" };
    let holes = [
        Number(run.run),
        Text(words),
        Number(u64::from(end)),
        Text(crash),
        Span(run.lived(page.now)),
    ];
    page.add("run $ $$$ after $", &holes);
}

// The wait that follows, and the line's end.
fn add_wait(page: &mut Page<'_>, what: &What, until: u64) {
    let form = match what {
        What::NotBegun { wait, .. } | What::Ended { wait, .. } => wait_words(wait),
        _ => "",
    };
    page.add(form, &[Time(until)]);
    page.writer.put(match what {
        What::Ended { is_odd: true, .. } => BACKGROUND,
        _ => "\n",
    });
}

fn wait_words(wait: &Wait) -> &'static str {
    match *wait {
        Wait::Unwanted => "; nothing wants it",
        Wait::Throttled(_) => "; it waits until $ (throttled)",
        Wait::Leaves | Wait::Other => "",
    }
}

// An order of a start, with holes for its run and its cause, and the cause.
fn order_words<'a>(
    demand: Option<DemandKind>,
    path: Option<&'a str>,
    wants: &Wants,
) -> (&'static str, &'a str) {
    let words = if wants.demand {
        demand_words(demand)
    } else {
        level_words(wants)
    };
    match path {
        Some(path) if !wants.demand => {
            let form = if wants.path_state {
                "run $ was ordered: $ is as KeepAlive PathState says"
            } else {
                "run $ was ordered: $ has an entry (QueueDirectories)"
            };
            (form, path)
        }
        _ => ("run $ was ordered: $", words),
    }
}

fn level_words(wants: &Wants) -> &'static str {
    if wants.keep_alive {
        "KeepAlive is true"
    } else if wants.successful_exit {
        "its last exit is as KeepAlive SuccessfulExit says"
    } else if wants.crashed {
        "its last exit is as KeepAlive Crashed says"
    } else {
        "connections wait"
    }
}
