//! The causes of a job as objects of a list.

ghost use Rattle.std.specs.Prelude.{◌≡◌, IfOk, string_bytes};
ghost use Rattle.scope.specs.CauseObjects.{kind_text, TellsCause, TellsCauses, TellsMore, IsCauseList};

use crate::journal::job::JobRequest;
use crate::journal::telling::{JobCause, causes};
use crate::objects::lines::{NONE, moment_of, text_of};
use crate::texts::by_facts::{OrderWhen, kill_when, term_when};
use crate::texts::causes::throttle_of;
use crate::texts::told::ToldJob;
use crate::texts::words::asked_name;
use history_model::{Act, DemandKind, Reading, StandingChild};
use json_lines::Value::{Absent, Flag, Moment, Number, Text};
use json_lines::{Field, Value, put_object};
use run_times::{Page, TextWriter, coming_second};
use std::alloc::AllocError;
use std::mem;

/// How many keys an object has at most after its kind.
const MOST: usize = 9;

/// The list of the causes of the job as JSON: an object for each thing that the table's reasons say, in order, and none besides. The page is as before,
/// if memory was not refused.
pub(crate) fn causes_list(page: &mut Page<'_>, told: &ToldJob<'_>) -> Result<String, AllocError>
    ensures { IfOk result (λ text. IsCauseList told.now.facts.reasons (string_bytes text)) }
{
    let list = causes(page.alloc, &told.facts.reasons)?;
    let page_writer = mem::replace(&mut page.writer, TextWriter::new(page.alloc));
    page.writer.put("[");
    put_causes(page, told, list.as_slice());
    page.writer.put("]");
    drop(list);
    mem::replace(&mut page.writer, page_writer).into_text()
}

// An object for each of the causes, in order, with commas between.
fn put_causes(page: &mut Page<'_>, told: &ToldJob<'_>, causes: &[JobCause])
    ensures { TellsCauses causes.now page.old.writer page.new.writer }
{
    if let Some((first, more)) = causes.split_first() {
        put_cause(page, told, *first);
        put_more(page, told, more);
    }
}

fn put_more(page: &mut Page<'_>, told: &ToldJob<'_>, causes: &[JobCause])
    ensures { TellsMore causes.now page.old.writer page.new.writer }
{
    for cause in causes {
        page.writer.put(",");
        put_cause(page, told, *cause);
    }
}

fn put_cause(page: &mut Page<'_>, told: &ToldJob<'_>, cause: JobCause)
    ensures { TellsCause cause page.old.writer page.new.writer }
{
    put_object(page, "kind", kind_of(cause), &fields_of(told, cause));
}

// The name of a cause.
fn kind_of(cause: JobCause) -> &'static str
    ensures { result.now ≡ kind_text cause }
{
    match cause {
        JobCause::Removing => "removing",
        JobCause::Child(_) => "running",
        JobCause::Awaited(_) => "awaited",
        JobCause::LaunchSpent => "launch_only_once",
        JobCause::RunsSpent => "runs_used_up",
        JobCause::Throttled(_) => "throttled",
        JobCause::NotWanted => "not_wanted",
        JobCause::Demand => "demand",
        JobCause::Connections(_) => "connections",
        JobCause::KeepAlive => "keep_alive",
        JobCause::SuccessfulExit => "successful_exit",
        JobCause::Crashed => "crashed",
        JobCause::PathState => "path_state",
        JobCause::QueueDirectories => "queue_directories",
    }
}

// The fields of a cause besides its kind.
fn fields_of<'a>(told: &ToldJob<'a>, cause: JobCause) -> [Field<'a>; MOST] {
    if let JobCause::Child(child) = cause {
        return child_fields(told, child);
    }
    let path = match cause {
        JobCause::PathState => told.facts.path,
        // A path of `PathState` is named in place of a folder.
        JobCause::QueueDirectories if !told.facts.reasons.wants.path_state => told.facts.path,
        _ => None,
    };
    let (first, value) = first_of(told, cause);
    let (second, more) = second_of(told, cause);
    [
        Field("path", text_of(path)),
        Field(first, value),
        Field(second, more),
        NONE,
        NONE,
        NONE,
        NONE,
        NONE,
        NONE,
    ]
}

// The first key of a cause after that of its path.
fn first_of(told: &ToldJob<'_>, cause: JobCause) -> (&'static str, Value<'static>) {
    match cause {
        JobCause::Removing => ("by", asked_by(told.asked)),
        JobCause::Awaited(act) => ("order", Text(order_of(act).0)),
        JobCause::Throttled(up) => {
            let end = throttle_of(&told.runs, told.keys.throttle_interval, up, told.at);
            ("until", Moment(end.told))
        }
        JobCause::Demand => ("by", demand_value(told.facts.demand)),
        JobCause::Connections(count) => ("count", Number(count as u64)),
        JobCause::SuccessfulExit => ("value", flag_value(told.keys.successful_exit)),
        JobCause::Crashed => ("value", flag_value(told.keys.crashed)),
        JobCause::PathState => ("exists", flag_value(told.keys.path_exists)),
        JobCause::Child(_)
        | JobCause::QueueDirectories
        | JobCause::LaunchSpent
        | JobCause::RunsSpent
        | JobCause::NotWanted
        | JobCause::KeepAlive => ("", Absent),
    }
}

// The second one.
fn second_of(told: &ToldJob<'_>, cause: JobCause) -> (&'static str, Value<'static>) {
    match cause {
        JobCause::Removing => ("asked", asked_at(told.asked)),
        JobCause::Awaited(act) => ("run", order_of(act).1),
        JobCause::Throttled(up) => ("left_ms", Number(up.saturating_sub(told.at.up))),
        _ => ("", Absent),
    }
}

fn asked_by(asked: Option<(JobRequest, Reading)>) -> Value<'static> {
    match asked {
        Some((word, _)) => Text(asked_name(word)),
        None => Absent,
    }
}

fn asked_at(asked: Option<(JobRequest, Reading)>) -> Value<'static> {
    match asked {
        Some((_, at)) => Moment(at.wall),
        None => Absent,
    }
}

// The run that is running, and what was asked and ordered for its end.
fn child_fields<'a>(told: &ToldJob<'a>, child: StandingChild) -> [Field<'a>; MOST] {
    let (began, lived) = match told.runs.began {
        Some(began) => (
            Moment(began.wall),
            Number(told.at.up.saturating_sub(began.up)),
        ),
        None => (Absent, Absent),
    };
    let kill = match told.runs.term {
        Some(_) if told.runs.kill.is_none() => kill_when(&told.facts.moments, told.at.up),
        _ => OrderWhen::Never,
    };
    [
        Field("run", Number(child.run)),
        Field("pid", Number(u64::from(child.pid))),
        Field("began", began),
        Field("lived_ms", lived),
        Field("is_stopped", Flag(child.is_stopped || child.is_struck)),
        Field("term", moment_of(told.runs.term)),
        Field("kill", moment_of(told.runs.kill)),
        Field("kill_from", coming(told, kill)),
        Field(
            "term_from",
            coming(told, term_when(&told.facts.moments, told.at.up)),
        ),
    ]
}

fn coming(told: &ToldJob<'_>, when: OrderWhen) -> Value<'static> {
    match when {
        OrderWhen::At(up) => Moment(coming_second(told.at, up)),
        OrderWhen::Never | OrderWhen::AtOnce => Absent,
    }
}

// The name of an order whose answer is awaited, and its run.
fn order_of(act: Act) -> (&'static str, Value<'static>) {
    match act {
        Act::Spawn { run, .. } => ("start", Number(run)),
        Act::Term { run } => ("term", Number(run)),
        Act::Kill { run } => ("kill", Number(run)),
        Act::Close { .. } => ("close", Absent),
        Act::Gone => ("gone", Absent),
    }
}

fn demand_value(demand: Option<DemandKind>) -> Value<'static> {
    match demand {
        Some(DemandKind::Load) => Text("load"),
        Some(DemandKind::Start) => Text("start"),
        Some(DemandKind::Kickstart) => Text("kickstart"),
        Some(DemandKind::Interval) => Text("interval"),
        Some(DemandKind::Calendar) => Text("calendar"),
        Some(DemandKind::Path) => Text("path"),
        None => Absent,
    }
}

fn flag_value(flag: Option<bool>) -> Value<'static> {
    match flag {
        Some(flag) => Flag(flag),
        None => Absent,
    }
}
