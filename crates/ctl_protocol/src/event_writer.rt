//! Writes the lines of events: those of a journal, and requests.

ghost use Rattle.std.specs.Prelude.{◌≡◌, IfOk, OnOk, Some, codes, ◌∷◌, [], true};
ghost use Rattle.history_model.specs.declared.event.Event.TheVariants as events;
ghost use Rattle.history_model.specs.declared.event.JobItem.TheVariants as happens;
ghost use Rattle.history_model.specs.declared.Ask.TheVariants as asks;
ghost use Rattle.history_model.specs.declared.Answer.TheVariants as answers;
ghost use Rattle.serde_json.specs.View.{view};
ghost use Rattle.serde_json.specs.Written.{compact_text};
ghost use Rattle.ctl_protocol.specs.EventLines.{event_at, request_at};
ghost use Rattle.ctl_protocol.specs.declared.members.Form.TheVariants as forms;
ghost use Rattle.ctl_protocol.specs.Objects.{flag, flags_of, plains_of, plain_of};
ghost use Rattle.ctl_protocol.specs.EventWriter as lines;
ghost use Rattle.ctl_protocol.specs.EventWriter.{end_member, event_object, name_of_setting, of_answer, of_connection, of_job, of_run, is_request, is_writable, line_object, request_object};

use crate::members::Form;
use crate::object::{Cell, line_from, put_all, put_flags};
use crate::request::{Outside, Request};
use history_model::{Answer, Ask, Ended, Event, JobItem, Obs, Reading, TextRef};
use serde_json::{Map, Value};
use std::alloc::{AllocError, Global};

/// The object of a line: its tag, its keys and, in a journal, the answers.
fn line_value(
    alloc: Global,
    form: Form,
    name: &str,
    keys: &[(&str, Cell<'_>)],
    answers: &[(&str, bool)],
) -> Result<Value, AllocError>
    ensures { IfOk result (λ v. view v
        ≡ line_object form name.now (plains_of keys.now) (flags_of answers.now)) }
{
    let mut map = Map::new(alloc);
    put_all(&mut map, alloc, &[(form.tag(), Cell::Text(name))])?;
    put_all(&mut map, alloc, keys)?;
    if form == Form::Event {
        put_flags(&mut map, alloc, answers)?;
    }
    Ok(Value::Object(map))
}

fn end_cell(how: Ended) -> (&'static str, Cell<'static>)
    ensures { (result.0.now, plain_of result.1) ≡ end_member how }
{
    match how {
        Ended::Code(code) => ("code", Cell::Count(code as u64)),
        Ended::Signal(signal) => ("signal", Cell::Count(signal as u64)),
    }
}

fn job_value(alloc: Global, form: Form, name: &str, job: &TextRef<'_>) -> Result<Value, AllocError>
    ensures { IfOk result (λ v. view v ≡ line_object form name.now (of_job job.now ∷ []) []) }
{
    line_value(alloc, form, name, &[("job", Cell::Text(job.as_str()))], &[])
}

/// The name of a setting.
fn setting_name(disabled: bool) -> &'static str
    ensures { result.now ≡ name_of_setting disabled }
{
    if disabled { "disable" } else { "enable" }
}

fn setting_value(
    alloc: Global,
    form: Form,
    job: &TextRef<'_>,
    disabled: bool,
    store: bool,
) -> Result<Value, AllocError>
    ensures { IfOk result (λ v. view v ≡ event_object form (events.Set job.now disabled store)) }
{
    let keys = [("job", Cell::Text(job.as_str()))];
    line_value(
        alloc,
        form,
        setting_name(disabled),
        &keys,
        &[("store", store)],
    )
}

fn connection_value(
    alloc: Global,
    form: Form,
    name: &str,
    job: &TextRef<'_>,
    conn: u64,
) -> Result<Value, AllocError>
    ensures { IfOk result
        (λ v. view v ≡ line_object form name.now (of_connection job.now conn) []) }
{
    let keys = [
        ("conn", Cell::Count(conn)),
        ("job", Cell::Text(job.as_str())),
    ];
    line_value(alloc, form, name, &keys, &[])
}

fn run_value(
    alloc: Global,
    form: Form,
    name: &str,
    job: &TextRef<'_>,
    run: u64,
) -> Result<Value, AllocError>
    ensures { IfOk result (λ v. view v ≡ line_object form name.now (of_run job.now run) []) }
{
    let keys = [("job", Cell::Text(job.as_str())), ("run", Cell::Count(run))];
    line_value(alloc, form, name, &keys, &[])
}

fn ok_value(
    alloc: Global,
    form: Form,
    name: &str,
    job: &TextRef<'_>,
    run: u64,
    ok: bool,
) -> Result<Value, AllocError>
    ensures { IfOk result (λ v. view v ≡ line_object form name.now (of_answer job.now run ok) []) }
{
    let keys = [
        ("job", Cell::Text(job.as_str())),
        ("ok", Cell::Flag(ok)),
        ("run", Cell::Count(run)),
    ];
    line_value(alloc, form, name, &keys, &[])
}

fn saw_value(alloc: Global, form: Form, path: &TextRef<'_>, obs: Obs) -> Result<Value, AllocError>
    ensures { IfOk result (λ v. view v ≡ event_object form (events.Saw path.now obs)) }
{
    let keys = [
        ("exists", Cell::Flag(obs.present)),
        ("nonempty", Cell::Flag(obs.nonempty_dir)),
        ("path", Cell::Text(path.as_str())),
        ("stamp", Cell::Count(obs.stamp)),
    ];
    line_value(alloc, form, "saw", &keys, &[])
}

fn clock_value(alloc: Global, form: Form, at: Reading) -> Result<Value, AllocError>
    ensures { IfOk result (λ v. view v ≡ event_object form (events.Clock at)) }
{
    let keys = [("up", Cell::Count(at.up)), ("wall", Cell::Count(at.wall))];
    line_value(alloc, form, "clock", &keys, &[])
}

fn unload_value(
    alloc: Global,
    form: Form,
    job: &TextRef<'_>,
    writes_setting: bool,
    store: bool,
) -> Result<Value, AllocError>
    ensures { IfOk result (λ v. view v
        ≡ event_object form (events.Unload job.now writes_setting store)) }
{
    let keys = [
        ("job", Cell::Text(job.as_str())),
        ("w", Cell::Flag(writes_setting)),
    ];
    line_value(alloc, form, "unload", &keys, &[("store", store)])
}

fn kickstart_value(
    alloc: Global,
    form: Form,
    job: &TextRef<'_>,
    kills_first: bool,
) -> Result<Value, AllocError>
    ensures { IfOk result (λ v. view v
        ≡ event_object form (events.OfJob job.now (happens.Asked (asks.Kickstart kills_first)))) }
{
    let keys = [
        ("job", Cell::Text(job.as_str())),
        ("k", Cell::Flag(kills_first)),
    ];
    line_value(alloc, form, "kickstart", &keys, &[])
}

/// The object of what a client asks of a job.
fn asked_value(alloc: Global, form: Form, job: &TextRef<'_>, ask: Ask) -> Result<Value, AllocError>
    ensures { IfOk result (λ v. view v
        ≡ event_object form (events.OfJob job.now (happens.Asked ask))) }
{
    match ask {
        Ask::Start => job_value(alloc, form, "start", job),
        Ask::Stop => job_value(alloc, form, "stop", job),
        Ask::Kickstart(kills_first) => kickstart_value(alloc, form, job, kills_first),
        Ask::Unload => job_value(alloc, form, "unload", job),
        Ask::Shutdown => job_value(alloc, form, "shutdown", job),
    }
}

fn spawned_value(
    alloc: Global,
    form: Form,
    job: &TextRef<'_>,
    run: u64,
    pid: u32,
) -> Result<Value, AllocError>
    ensures { IfOk result (λ v. view v
        ≡ event_object form (events.OfJob job.now (happens.Answered (answers.Spawned run pid)))) }
{
    let keys = [
        ("job", Cell::Text(job.as_str())),
        ("pid", Cell::Count(pid as u64)),
        ("run", Cell::Count(run)),
    ];
    line_value(alloc, form, "spawned", &keys, &[])
}

/// The object of an answer to an order.
fn answered_value(
    alloc: Global,
    form: Form,
    job: &TextRef<'_>,
    answer: Answer,
) -> Result<Value, AllocError>
    ensures { IfOk result (λ v. view v
        ≡ event_object form (events.OfJob job.now (happens.Answered answer))) }
{
    match answer {
        Answer::Spawned { run, pid } => spawned_value(alloc, form, job, run, pid),
        Answer::SpawnRefused { run } => run_value(alloc, form, "spawn_refused", job, run),
        Answer::Termed { run, ok } => ok_value(alloc, form, "termed", job, run, ok),
        Answer::Killed { run, ok } => ok_value(alloc, form, "killed", job, run, ok),
    }
}

fn ended_value(
    alloc: Global,
    form: Form,
    job: &TextRef<'_>,
    run: u64,
    how: Ended,
) -> Result<Value, AllocError>
    ensures { IfOk result (λ v. view v
        ≡ event_object form (events.OfJob job.now (happens.Ended run how))) }
{
    let keys = [
        end_cell(how),
        ("job", Cell::Text(job.as_str())),
        ("run", Cell::Count(run)),
    ];
    line_value(alloc, form, "ended", &keys, &[])
}

/// The object of what happens to a job.
fn item_value(
    alloc: Global,
    form: Form,
    job: &TextRef<'_>,
    item: JobItem,
) -> Result<Value, AllocError>
    ensures { IfOk result (λ v. view v ≡ event_object form (events.OfJob job.now item)) }
{
    match item {
        JobItem::Asked(ask) => asked_value(alloc, form, job, ask),
        JobItem::Came(conn) => connection_value(alloc, form, "came", job, conn),
        JobItem::Left(conn) => connection_value(alloc, form, "left", job, conn),
        JobItem::Answered(answer) => answered_value(alloc, form, job, answer),
        JobItem::Ended { run, how } => ended_value(alloc, form, job, run, how),
        JobItem::WaitRefused { run } => run_value(alloc, form, "wait_refused", job, run),
    }
}

/// The object of an event.
fn event_value(alloc: Global, form: Form, event: &Event<'_>) -> Result<Value, AllocError>
    ensures { IfOk result (λ v. view v ≡ event_object form event.now) }
{
    match event {
        Event::Load {
            def,
            writes_setting,
            force,
            bind,
            store,
        } => {
            let keys = [
                ("F", Cell::Flag(*force)),
                ("def", Cell::Text(def.as_str())),
                ("w", Cell::Flag(*writes_setting)),
            ];
            let answers = [("bind", *bind), ("store", *store)];
            line_value(alloc, form, "load", &keys, &answers)
        }
        Event::Unload {
            job,
            writes_setting,
            store,
        } => unload_value(alloc, form, job, *writes_setting, *store),
        Event::Set {
            job,
            disabled,
            store,
        } => setting_value(alloc, form, job, *disabled, *store),
        Event::List => line_value(alloc, form, "list", &[], &[]),
        Event::Print { job } => job_value(alloc, form, "print", job),
        Event::Shutdown => line_value(alloc, form, "shutdown", &[], &[]),
        Event::Clock(at) => clock_value(alloc, form, *at),
        Event::Saw { path, obs } => saw_value(alloc, form, path, *obs),
        Event::OfJob { job, item } => item_value(alloc, form, job, *item),
    }
}

/// The line of a journal that records the event, with its newline: an object of every key of the event's shape, in byte order.
/// `Err` says only that memory ran out.
pub fn event_line(alloc: Global, event: &Event<'_>) -> Result<Vec<u8>, AllocError>
    ensures text { IfOk result (λ line. line.items ≡ lines.event_line event.now) }
    // The line, without its newline, is read as the event.
    ensures reads_back { OnOk result (is_writable event.now ≡ true
        → event_at (compact_text (event_object forms.Event event.now)) ≡ Some event.now) }
{
    let value = event_value(alloc, Form::Event, event)?;
    line_from(alloc, &value)
}

/// The line by which a control client asks, with its newline: the event's shape without the answers of the outside. `Err` says only
/// that memory ran out.
pub fn request_line(alloc: Global, request: &Request<'_>) -> Result<Vec<u8>, AllocError>
    ensures text { IfOk result (λ line. line.items ≡ lines.request_line request.now) }
    // The line, without its newline, is read as what was asked.
    ensures reads_back { OnOk result (is_request request.now ≡ true
        → request_at (compact_text (request_object request.now)) ≡ Some request.now) }
{
    let event = request.with(Outside::unasked());
    let value = event_value(alloc, Form::Request, &event)?;
    line_from(alloc, &value)
}
