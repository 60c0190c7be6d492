//! Reads the lines of events: those of a journal, and requests.

ghost use Rattle.std.specs.Prelude.{◌≡◌};
ghost use Rattle.ctl_protocol.specs.Members.{Reads};
ghost use Rattle.ctl_protocol.specs.Line.{seen};
ghost use Rattle.json_kinds.specs.JsonKinds.{texts_in};
ghost use Rattle.ctl_protocol.specs.EventLines.{event_at, event_shape, request_at, request_shape_of, asked_shape, journal_shape, load_shape, unload_shape, job_shape, target_shape, kickstart_shape, bare_shape, answers_in as answers_told, answered_shape, clock_shape, saw_shape, observation_keys, has_saw_keys as saw_keys, connection_shape, pid_key, spawned_shape, run_shape, answer_shape, byte_key, end_key, ended_shape};

use crate::line::Line;
use crate::members::{
    Form, ReadFault, flag_in, flag_or_in, has_only_keys, label_in, number_in, target_in, text_in,
};
use crate::request::{LoadRequest, Outside, Request};
use crate::written::written_event;
use history_model::{Answer, Ask, Ended, Event, JobItem, Obs, Reading, TextRef};
use json::Scratch;
use std::alloc::{AllocError, Global};

#[tactic(auto, unfolding(crate::specs::EventLines::load_shape))]
fn load_in<'a>(form: Form, line: &Line<'a>) -> Result<Request<'a>, ReadFault>
    ensures { Reads result (load_shape form (seen line.now)) }
{
    if !has_only_keys(form, line, &["def", "w", "F"], &["bind", "store"]) {
        return Err(ReadFault::BadRequest);
    }
    let def = text_in(line, "def")?;
    let writes_setting = flag_or_in(line, "w", false)?;
    let force = flag_or_in(line, "F", false)?;
    Ok(Request::Load(LoadRequest {
        def: TextRef::new(def),
        writes_setting,
        force,
    }))
}

#[tactic(auto, unfolding(crate::specs::EventLines::unload_shape))]
fn unload_in<'a>(form: Form, line: &Line<'a>) -> Result<Request<'a>, ReadFault>
    ensures { Reads result (unload_shape form (seen line.now)) }
{
    if !has_only_keys(form, line, &["job", "w"], &["store"]) {
        return Err(ReadFault::BadRequest);
    }
    let job = label_in(line, "job")?;
    let writes_setting = flag_or_in(line, "w", false)?;
    Ok(Request::Unload {
        job,
        writes_setting,
    })
}

#[tactic(auto, unfolding(crate::specs::EventLines::job_shape))]
fn job_in<'a>(ask: Ask, form: Form, line: &Line<'a>) -> Result<Request<'a>, ReadFault>
    ensures { Reads result (job_shape ask form (seen line.now)) }
{
    if !has_only_keys(form, line, &["job"], &[]) {
        return Err(ReadFault::BadRequest);
    }
    let job = label_in(line, "job")?;
    Ok(Request::Ask { job, ask })
}

#[tactic(auto, unfolding(crate::specs::EventLines::target_shape))]
fn lone_target_in<'a>(
    form: Form,
    line: &Line<'a>,
    answers: &[&str],
) -> Result<TextRef<'a>, ReadFault>
    ensures { Reads result (target_shape (texts_in answers.now) form (seen line.now)) }
{
    if !has_only_keys(form, line, &["job"], answers) {
        return Err(ReadFault::BadRequest);
    }
    target_in(line, "job")
}

#[tactic(auto, unfolding(crate::specs::EventLines::kickstart_shape))]
fn kickstart_in<'a>(form: Form, line: &Line<'a>) -> Result<Request<'a>, ReadFault>
    ensures { Reads result (kickstart_shape form (seen line.now)) }
{
    if !has_only_keys(form, line, &["job", "k"], &[]) {
        return Err(ReadFault::BadRequest);
    }
    let job = target_in(line, "job")?;
    let kills_first = flag_or_in(line, "k", false)?;
    Ok(Request::Ask {
        job,
        ask: Ask::Kickstart(kills_first),
    })
}

#[tactic(auto, unfolding(crate::specs::EventLines::bare_shape))]
fn bare_in<'a>(request: Request<'a>, form: Form, line: &Line<'_>) -> Result<Request<'a>, ReadFault>
    ensures { Reads result (bare_shape request.entry form (seen line.now)) }
{
    if !has_only_keys(form, line, &[], &[]) {
        return Err(ReadFault::BadRequest);
    }
    Ok(request)
}

/// The shape of what a client asks, of either form.
#[tactic(auto, unfolding(crate::specs::EventLines::asked_shape))]
fn request_named<'a>(name: &str, form: Form, line: &Line<'a>) -> Result<Request<'a>, ReadFault>
    ensures { Reads result (asked_shape name.now form (seen line.now)) }
{
    match name {
        "load" => load_in(form, line),
        "unload" => unload_in(form, line),
        "start" => job_in(Ask::Start, form, line),
        "stop" => job_in(Ask::Stop, form, line),
        "kickstart" => kickstart_in(form, line),
        "enable" => {
            let job = lone_target_in(form, line, &["store"])?;
            let disabled = false;
            Ok(Request::Set { job, disabled })
        }
        "disable" => {
            let job = lone_target_in(form, line, &["store"])?;
            let disabled = true;
            Ok(Request::Set { job, disabled })
        }
        "list" => bare_in(Request::List, form, line),
        "print" => {
            let job = lone_target_in(form, line, &[])?;
            Ok(Request::Print { job })
        }
        "shutdown" => bare_in(Request::Shutdown, form, line),
        _ => Err(ReadFault::BadRequest),
    }
}

/// What the outside answered, as a journal records it. Where no answer is recorded, the launcher did not ask.
#[tactic(auto, unfolding(crate::specs::EventLines::answers_in))]
fn answers_in(line: &Line<'_>) -> Result<Outside, ReadFault>
    ensures { Reads result (answers_told (seen line.now)) }
{
    let bind = flag_or_in(line, "bind", true)?;
    let store = flag_or_in(line, "store", true)?;
    Ok(Outside { bind, store })
}

/// The shape of what a client asked, with the outside's answers.
#[tactic(auto, unfolding(crate::specs::EventLines::answered_shape))]
fn answered_named<'a>(name: &str, line: &Line<'a>) -> Result<Event<'a>, ReadFault>
    ensures { Reads result (answered_shape name.now (seen line.now)) }
{
    let request = request_named(name, Form::Event, line)?;
    let outside = answers_in(line)?;
    Ok(request.with(outside))
}

#[tactic(auto, unfolding(crate::specs::EventLines::clock_shape))]
fn clock_in<'a>(line: &Line<'a>) -> Result<Event<'a>, ReadFault>
    ensures { Reads result (clock_shape (seen line.now)) }
{
    if !has_only_keys(Form::Event, line, &["up", "wall"], &[]) {
        return Err(ReadFault::BadRequest);
    }
    let up = number_in(line, "up")?;
    let wall = number_in(line, "wall")?;
    Ok(Event::Clock(Reading { up, wall }))
}

#[tactic(auto, unfolding(crate::specs::EventLines::observation_keys))]
fn observation_in(line: &Line<'_>) -> Result<Obs, ReadFault>
    ensures { Reads result (observation_keys (seen line.now)) }
{
    let present = flag_in(line, "exists")?;
    let nonempty_dir = flag_in(line, "nonempty")?;
    let stamp = number_in(line, "stamp")?;
    Ok(Obs {
        present,
        nonempty_dir,
        stamp,
    })
}

#[tactic(auto, unfolding(crate::specs::EventLines::has_saw_keys))]
fn has_saw_keys(line: &Line<'_>) -> bool
    ensures { result ≡ saw_keys (seen line.now) }
{
    has_only_keys(
        Form::Event,
        line,
        &["path", "exists", "nonempty", "stamp"],
        &[],
    )
}

#[tactic(auto, unfolding(crate::specs::EventLines::saw_shape))]
fn saw_in<'a>(line: &Line<'a>) -> Result<Event<'a>, ReadFault>
    ensures { Reads result (saw_shape (seen line.now)) }
{
    if !has_saw_keys(line) {
        return Err(ReadFault::BadRequest);
    }
    let path = text_in(line, "path")?;
    let obs = observation_in(line)?;
    Ok(Event::Saw {
        path: TextRef::new(path),
        obs,
    })
}

#[tactic(auto, unfolding(crate::specs::EventLines::connection_shape))]
fn connection_in<'a>(line: &Line<'a>) -> Result<(TextRef<'a>, u64), ReadFault>
    ensures { Reads result (connection_shape (seen line.now)) }
{
    if !has_only_keys(Form::Event, line, &["job", "conn"], &[]) {
        return Err(ReadFault::BadRequest);
    }
    let job = label_in(line, "job")?;
    let conn = number_in(line, "conn")?;
    Ok((job, conn))
}

#[tactic(auto, unfolding(crate::specs::EventLines::pid_key))]
fn pid_in(line: &Line<'_>) -> Result<u32, ReadFault>
    ensures { Reads result (pid_key (seen line.now)) }
{
    match number_in(line, "pid")? {
        pid if 0 < pid && pid <= 0xffff_ffff => Ok(pid as u32),
        _ => Err(ReadFault::BadRequest),
    }
}

#[tactic(auto, unfolding(crate::specs::EventLines::spawned_shape))]
fn spawned_in<'a>(line: &Line<'a>) -> Result<Event<'a>, ReadFault>
    ensures { Reads result (spawned_shape (seen line.now)) }
{
    if !has_only_keys(Form::Event, line, &["job", "run", "pid"], &[]) {
        return Err(ReadFault::BadRequest);
    }
    let job = label_in(line, "job")?;
    let run = number_in(line, "run")?;
    let pid = pid_in(line)?;
    Ok(Event::OfJob {
        job,
        item: JobItem::Answered(Answer::Spawned { run, pid }),
    })
}

#[tactic(auto, unfolding(crate::specs::EventLines::run_shape))]
fn run_in<'a>(line: &Line<'a>) -> Result<(TextRef<'a>, u64), ReadFault>
    ensures { Reads result (run_shape (seen line.now)) }
{
    if !has_only_keys(Form::Event, line, &["job", "run"], &[]) {
        return Err(ReadFault::BadRequest);
    }
    let job = label_in(line, "job")?;
    let run = number_in(line, "run")?;
    Ok((job, run))
}

#[tactic(auto, unfolding(crate::specs::EventLines::answer_shape))]
fn answer_in<'a>(line: &Line<'a>) -> Result<(TextRef<'a>, u64, bool), ReadFault>
    ensures { Reads result (answer_shape (seen line.now)) }
{
    if !has_only_keys(Form::Event, line, &["job", "run", "ok"], &[]) {
        return Err(ReadFault::BadRequest);
    }
    let job = label_in(line, "job")?;
    let run = number_in(line, "run")?;
    let ok = flag_in(line, "ok")?;
    Ok((job, run, ok))
}

#[tactic(auto, unfolding(crate::specs::EventLines::byte_key))]
fn byte_in(line: &Line<'_>, key: &str) -> Result<u8, ReadFault>
    ensures { Reads result (byte_key key.now (seen line.now)) }
{
    match number_in(line, key)? {
        n if n < 256 => Ok(n as u8),
        _ => Err(ReadFault::BadRequest),
    }
}

/// Exactly one of `code` and `signal`.
#[tactic(auto, unfolding(crate::specs::EventLines::end_key))]
fn end_in(line: &Line<'_>) -> Result<Ended, ReadFault>
    ensures { Reads result (end_key (seen line.now)) }
{
    match (line.has("code"), line.has("signal")) {
        (true, false) => {
            let code = byte_in(line, "code")?;
            Ok(Ended::Code(code))
        }
        (false, true) => {
            let signal = byte_in(line, "signal")?;
            Ok(Ended::Signal(signal))
        }
        _ => Err(ReadFault::BadRequest),
    }
}

#[tactic(auto, unfolding(crate::specs::EventLines::ended_shape))]
fn ended_in<'a>(line: &Line<'a>) -> Result<Event<'a>, ReadFault>
    ensures { Reads result (ended_shape (seen line.now)) }
{
    if !has_only_keys(Form::Event, line, &["job", "run", "code", "signal"], &[]) {
        return Err(ReadFault::BadRequest);
    }
    let job = label_in(line, "job")?;
    let run = number_in(line, "run")?;
    let how = end_in(line)?;
    Ok(Event::OfJob {
        job,
        item: JobItem::Ended { run, how },
    })
}

/// The shape of any event.
#[tactic(auto, unfolding(crate::specs::EventLines::journal_shape))]
fn journal_in<'a>(name: &str, line: &Line<'a>) -> Result<Event<'a>, ReadFault>
    ensures { Reads result (journal_shape name.now (seen line.now)) }
{
    match name {
        "clock" => clock_in(line),
        "saw" => saw_in(line),
        "came" => {
            let (job, conn) = connection_in(line)?;
            let item = JobItem::Came(conn);
            Ok(Event::OfJob { job, item })
        }
        "left" => {
            let (job, conn) = connection_in(line)?;
            let item = JobItem::Left(conn);
            Ok(Event::OfJob { job, item })
        }
        "spawned" => spawned_in(line),
        "spawn_refused" => {
            let (job, run) = run_in(line)?;
            let item = JobItem::Answered(Answer::SpawnRefused { run });
            Ok(Event::OfJob { job, item })
        }
        "termed" => {
            let (job, run, ok) = answer_in(line)?;
            let item = JobItem::Answered(Answer::Termed { run, ok });
            Ok(Event::OfJob { job, item })
        }
        "killed" => {
            let (job, run, ok) = answer_in(line)?;
            let item = JobItem::Answered(Answer::Killed { run, ok });
            Ok(Event::OfJob { job, item })
        }
        "ended" => ended_in(line),
        "wait_refused" => {
            let (job, run) = run_in(line)?;
            let item = JobItem::WaitRefused { run };
            Ok(Event::OfJob { job, item })
        }
        _ => answered_named(name, line),
    }
}

#[tactic(auto, unfolding(crate::specs::EventLines::event_shape))]
fn event_in<'a>(line: &Line<'a>) -> Result<Event<'a>, ReadFault>
    ensures { Reads result (event_shape (seen line.now)) }
{
    let name = text_in(line, Form::Event.tag())?;
    journal_in(name, line)
}

#[tactic(auto, unfolding(crate::specs::EventLines::request_shape_of))]
fn request_in<'a>(line: &Line<'a>) -> Result<Request<'a>, ReadFault>
    ensures { Reads result (request_shape_of (seen line.now)) }
{
    let name = text_in(line, Form::Request.tag())?;
    request_named(name, Form::Request, line)
}

/// The room in which lines are read, kept from line to line.
#[derive(Drop)]
pub struct LineRoom {
    scratch: Option<Box<Scratch>>,
}

impl LineRoom {
    /// The room for lines without escaped texts; others make it wider. `AllocError` if memory for it was refused.
    pub fn new(alloc: Global) -> Result<LineRoom, AllocError> {
        let scratch = Box::new(alloc, Scratch::new(alloc))?;
        Ok(LineRoom {
            scratch: Some(scratch),
        })
    }

    /// Takes the room out, so that an event can be borrowed of it while its owner changes; it is to be put back. Meanwhile the
    /// owner has none, and a line that is read there makes it again. Takes no memory.
    pub fn take(&mut self) -> LineRoom {
        LineRoom {
            scratch: self.scratch.take(),
        }
    }

    /// The room, lent. `AllocError` if there was none, and memory for it was refused.
    fn lent(&mut self, alloc: Global) -> Result<&mut Scratch, AllocError> {
        if self.scratch.is_none() {
            self.scratch = Some(Box::new(alloc, Scratch::new(alloc))?);
        }
        match &mut self.scratch {
            Some(scratch) => Ok(scratch),
            None => unreachable!(),
        }
    }
}

/// The event that a line of a journal is, the newline left out. BadRequest if it is none: no JSON object (RFC
/// 8259), a key too few or too many, or a value of another kind or range. Its texts are borrowed of the line, or of the room.
#[tactic(auto, unfolding(crate::specs::EventLines::event_at))]
pub fn read_event<'a>(
    alloc: Global,
    line: &'a [u8],
    room: &'a mut LineRoom,
) -> Result<Event<'a>, ReadFault>
    ensures { Reads result (event_at line.now) }
{
    if let Some(event) = written_event(line) {
        return Ok(event);
    }
    let line = Line::read(alloc, line, room.lent(alloc)?)?;
    event_in(&line)
}

/// What a control client's line asks, the newline left out. BadRequest if it is not a request. Its texts are borrowed of the
/// line, or of the room.
#[tactic(auto, unfolding(crate::specs::EventLines::request_at))]
pub fn read_request<'a>(
    alloc: Global,
    line: &'a [u8],
    room: &'a mut LineRoom,
) -> Result<Request<'a>, ReadFault>
    ensures { Reads result (request_at line.now) }
{
    let line = Line::read(alloc, line, room.lent(alloc)?)?;
    request_in(&line)
}
