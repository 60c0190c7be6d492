//! Why a job is in its state, as an object.

use crate::age::AsOf;
use crate::joined::Disabled;
use crate::journal::labels::KnownLabel;
use crate::known_runs::KnownRuns;
use crate::objects::lines::{end_of, moment_of, text_of};
use crate::texts::words::refusal_name;
use crate::view::UnloadedView;
use history_model::Reading;
use json_lines::Value::{Absent, Flag, Moment, Number, Text};
use json_lines::{Field, Value, put_line};
use launcher_life::{LauncherSeen, Life, foretells, may_live};
use run_times::Page;
use status_page::Fault;

/// As of when jobs are reported, and what is known of their launcher.
#[derive(Clone, Copy)]
pub(crate) struct ReportContext {
    /// The second of the last event, or of the file.
    pub(crate) as_of: u64,
    pub(crate) launcher: Value<'static>,
    /// Whether the report of the jobs may still hold now.
    pub(crate) may_live: bool,
    /// Whether something may be foretold of them.
    pub(crate) foretells: bool,
}

/// What the object of a job has besides what is kept of its runs.
#[derive(Clone, Copy)]
pub(crate) struct Beside<'a> {
    pub(crate) state: &'static str,
    /// The list of its causes.
    pub(crate) causes: Value<'a>,
    pub(crate) fault: Option<Fault>,
    /// What the system said of its last start, which it refused.
    pub(crate) reason: Value<'a>,
    /// The file that its errors went to, if its last run failed.
    pub(crate) errors: Value<'a>,
    /// When it starts by time alone.
    pub(crate) next: Value<'static>,
    pub(crate) is_disabled: bool,
    /// Since when, if that is known.
    pub(crate) disabled_since: Value<'static>,
    pub(crate) known: KnownLabel,
}

/// What is known of the launcher of a journal that is reported as of then.
pub(crate) fn around_journal(as_of: AsOf, last: Reading) -> ReportContext {
    let launcher = match as_of {
        AsOf::Seen(_, Some(seen), _) | AsOf::End(Some(seen)) => Text(life_name(seen.life)),
        AsOf::Moment { is_gap: true, .. } => Text("none"),
        AsOf::Seen(_, None, _) | AsOf::End(None) | AsOf::Moment { .. } => Absent,
    };
    ReportContext {
        as_of: last.wall,
        launcher,
        may_live: as_of.may_live(),
        foretells: as_of.foretells(),
    }
}

/// What is known of the launcher of a status file.
pub(crate) fn around_file(seen: LauncherSeen, at: Reading) -> ReportContext {
    ReportContext {
        as_of: at.wall,
        launcher: Text(life_name(seen.life)),
        may_live: may_live(seen.life),
        foretells: foretells(seen.life),
    }
}

// The name of what is known of a launcher.
fn life_name(life: Life) -> &'static str {
    match life {
        Life::Runs => "lives",
        Life::Stopped => "stopped",
        Life::Silent(_) => "silent",
        Life::NotSeen => "not_seen",
        Life::Exited => "exited",
        Life::Killed => "gone",
        Life::Unknown => "unknown",
    }
}

/// Adds the line of a job.
pub(crate) fn put_job(
    page: &mut Page<'_>,
    label: &str,
    runs: &KnownRuns<'_>,
    beside: &Beside<'_>,
    around: ReportContext,
) {
    let how = match &runs.last {
        Some(last) => Some(last.how),
        None => None,
    };
    let [code, signal] = end_of(how);
    let (crash, ended, lived) = match &runs.last {
        Some(last) => (
            Flag(last.is_crash()),
            Moment(last.ended.wall),
            Number(last.lived()),
        ),
        None => (Absent, Absent, Absent),
    };
    let [load, refusal] = load_of(beside.known);
    let fields = [
        Field("state", Text(beside.state)),
        Field("causes", beside.causes),
        Field("fault", fault_value(beside.fault)),
        Field("minute_passed", minute_of(beside.fault)),
        Field("starts", Number(runs.starts)),
        code,
        signal,
        Field("last_crash", crash),
        Field("last_end", ended),
        Field("last_lived_ms", lived),
        Field("start_refused", moment_of(runs.refused_at())),
        Field("reason", beside.reason),
        Field("errors", beside.errors),
        Field("next_start", beside.next),
        Field("is_disabled", Flag(beside.is_disabled)),
        Field("disabled_since", beside.disabled_since),
        load,
        refusal,
        Field("as_of", Moment(around.as_of)),
        Field("launcher", around.launcher),
    ];
    put_line(page, "label", label, &fields);
}

/// Adds the line of a label that is not loaded, and since when, if it was.
pub(crate) fn put_unloaded(page: &mut Page<'_>, label: UnloadedView<'_>, around: ReportContext) {
    let UnloadedView {
        label,
        gone,
        known,
        unbound,
        ..
    } = label;
    let [load, refusal] = load_of(known);
    let fields = [
        Field("state", Text("unloaded")),
        Field("removed", moment_of(gone)),
        Field("is_disabled", Flag(known.disabled.is_some())),
        Field("disabled_since", disabled_since(known)),
        load,
        refusal,
        Field("load_reason", text_of(unbound)),
        Field("as_of", Moment(around.as_of)),
        Field("launcher", around.launcher),
    ];
    put_line(page, "label", label, &fields);
}

/// Since when a label is disabled by this, if that is known.
pub(crate) fn since_value(disabled: Option<Disabled>) -> Value<'static> {
    match disabled {
        Some(disabled) => moment_of(disabled.since()),
        None => Absent,
    }
}

/// Since when the label is disabled by the journal, if that is known.
pub(crate) fn disabled_since(known: KnownLabel) -> Value<'static> {
    moment_of(known.since())
}

// When its last load was refused, and why.
fn load_of(known: KnownLabel) -> [Field<'static>; 2] {
    let (at, why) = match known.refused {
        Some((refusal, at)) => (Moment(at.wall), Text(refusal_name(refusal))),
        None => (Absent, Absent),
    };
    [Field("load_refused", at), Field("load_refusal", why)]
}

fn fault_value(fault: Option<Fault>) -> Value<'static> {
    match fault {
        Some(Fault::Refused) => Text("start_refused"),
        Some(Fault::Ended(_)) => Text("ended"),
        Some(Fault::NotRunning) => Text("not_running"),
        Some(Fault::LauncherGone) => Text("launcher_gone"),
        Some(Fault::Missed(_)) => Text("minute_passed"),
        None => Absent,
    }
}

// The minute that passed while no launcher ran, if that is the fault.
fn minute_of(fault: Option<Fault>) -> Value<'static> {
    match fault {
        Some(Fault::Missed(minute)) => Moment(minute),
        _ => Absent,
    }
}
