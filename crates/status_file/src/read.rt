//! The lines of a file, read.

ghost use Rattle.std.specs.Prelude.{◌≡◌, ◌∷◌, ◌++◌, [], map, Some, None, IfErr, IfOk, IfSome, OnOk, codes, option_and_then};
ghost use Rattle.std.specs.List.{AllZip};
ghost use Rattle.history_model.specs.declared.Entry.{Entry};
ghost use Rattle.json_kinds.specs.Json.{json_in};
ghost use Rattle.serde_json.specs.Find.{at};
ghost use Rattle.serde_json.specs.View.{view};
ghost use Rattle.status_file.specs.Reads.{IsReading, NullOr, object_of, value_at};
ghost use Rattle.status_file.specs.Readings.{BindAt, CalendarAt, ChildAt, ConditionsAt, DemandAt, DisabledAt, EndAt, EntryAt, FactsAt, HasRun, JobAt, JournalAt, KeysAt, LaterCount, LaterFlag, LaterReading, LaterText, LauncherAt, NoteAt, OrderAt, PaceAt, PartAt, PathsAt, ReadingIf, ReasonsAt, RefusedAt, WantsAt};
ghost use Rattle.status_file.specs.Tokens.{order_text};
ghost use Rattle.status_file.specs.declared.read.StatusFault.TheVariants.{NotJson};

use crate::facts::JobFacts;
use crate::fields::Fields;
use crate::names::{DEMANDS, demand_name, disabled_name, order_name};
use crate::status::{
    BindStatus, DisabledBy, JobKeys, JobNote, JobStatus, JournalStatus, KeyPaths, LauncherStatus,
    RefusedStart, RunEnd,
};
use history_model::{Act, DemandKind, Ended, Entry, Reading, Reasons, StandingChild, Wants};
use job_table::Moments;
use json_kinds::json_value;
use serde_json::Value;
use std::alloc::Global;

/// Why a line does not belong in a status file.
#[derive(Clone, Copy)]
pub enum StatusFault {
    /// Memory ran out. This says nothing of the line.
    NoMemory,
    /// It is not a JSON text.
    NotJson,
    /// This key is missing, which is required.
    Missing(&'static str),
    /// The value of this key is not an allowed one.
    Wrong(&'static str),
}

/// A line that was read as JSON. It lends what it says.
#[derive(Drop)]
pub struct StatusLine {
    value: Value,
}

/// The line, without its newline. NotJson if it is not a JSON text; NoMemory.
pub fn read_line(alloc: Global, line: &[u8]) -> Result<StatusLine, StatusFault>
    ensures value { IfOk result (λ read. json_in line.now ≡ Some (view read.value)) }
    ensures not_json { IfErr result (λ fault. fault ≡ NotJson → json_in line.now ≡ None) }
{
    match json_value(alloc, line) {
        Ok(Some(value)) => Ok(StatusLine { value }),
        Ok(None) => Err(StatusFault::NotJson),
        Err(_) => Err(StatusFault::NoMemory),
    }
}

impl StatusLine {
    /// What a line says of the launcher. Missing and Wrong, with the key of the first fault.
    pub fn launcher(&self) -> Result<LauncherStatus<'_>, StatusFault>
        ensures { IfOk result (λ launcher.
            LauncherAt (value_at (codes "launcher") (Some (view self.now.value))) launcher) }
    {
        let mut line = Fields::of(&self.value);
        let mut fields = line.inside("launcher");
        let launcher = LauncherStatus {
            version: fields.text("version"),
            pid: fields.short("pid"),
            began: fields.count("began"),
            header: fields.text("header"),
            at: reading_in(&mut fields, "at"),
            journal: journal_in(&mut fields),
            store: fields.text_if("store"),
            renewed_each: later_count(&mut fields, "renewed_each"),
            failed_calls: later_count(&mut fields, "failed_calls"),
            is_shutting_down: later_flag(&mut fields, "shutting_down"),
            jobs: fields.count("jobs"),
        };
        match fields.fault {
            Some(fault) => Err(fault),
            None => Ok(launcher),
        }
    }

    /// The load at this place among those of the launcher's line that were refused, since a socket could not be bound. None: there is none. Wrong, with the
    /// key, if it does not say all.
    pub fn refused_bind(&self, place: usize) -> Result<Option<BindStatus<'_>>, StatusFault>
        ensures { IfOk result (λ found. IfSome found (λ bind.
            BindAt (option_and_then (at place) (value_at (codes "refused_binds") (value_at (codes "launcher") (Some (view self.now.value))))) bind)) }
    {
        let mut line = Fields::of(&self.value);
        let mut fields = line.inside("launcher");
        let Some(list) = fields.found("refused_binds") else {
            return Ok(None);
        };
        match list.get(place) {
            Some(item) => bind_in(item),
            None => Ok(None),
        }
    }

    /// What a line says of a job. Missing and Wrong, with the key of the first fault.
    pub fn job(&self) -> Result<JobStatus<'_>, StatusFault>
        ensures { IfOk result (λ job.
            JobAt (value_at (codes "job") (Some (view self.now.value))) job) }
    {
        let mut line = Fields::of(&self.value);
        let mut fields = line.inside("job");
        let job = JobStatus {
            label: fields.text("label"),
            facts: facts_in(&mut fields),
            note: note_in(&mut fields),
            keys: keys_in(&mut fields),
            disabled: disabled_in(&mut fields),
        };
        match fields.fault {
            Some(fault) => Err(fault),
            None => Ok(job),
        }
    }

    /// The entries of the calendar of a job. Missing and Wrong, with the key; NoMemory.
    pub fn calendar(&self, alloc: Global) -> Result<Vec<Entry>, StatusFault>
        ensures { IfOk result (λ entries.
            CalendarAt (value_at (codes "job") (Some (view self.now.value))) entries.items) }
    {
        let mut line = Fields::of(&self.value);
        let mut fields = line.inside("job");
        let list = fields.list("calendar");
        match (fields.fault, list) {
            (None, Some(list)) => entries_in(alloc, list),
            (Some(fault), _) => Err(fault),
            (None, None) => Err(StatusFault::Missing("calendar")),
        }
    }
}

fn bind_in<'a>(item: &'a Value) -> Result<Option<BindStatus<'a>>, StatusFault>
    ensures { IfOk result (λ found. IfSome found (λ bind. BindAt (Some (view item.now)) bind)) }
{
    let mut fields = Fields::of(item);
    let bind = BindStatus {
        label: fields.text("label"),
        reason: fields.text("reason"),
        at: reading_in(&mut fields, "at"),
    };
    match fields.fault {
        Some(fault) => Err(fault),
        None => Ok(Some(bind)),
    }
}

fn entries_in(alloc: Global, list: &[Value]) -> Result<Vec<Entry>, StatusFault>
    ensures { IfOk result (λ entries. AllZip EntryAt (map view list.now) entries.items) }
{
    let mut entries = Vec::new(alloc);
    for item in list {
        add_entry(&mut entries, item)?;
    }
    Ok(entries)
}

fn add_entry(entries: &mut Vec<Entry>, item: &Value) -> Result<(), StatusFault>
    ensures { OnOk result ((entry : Entry) × (entries.new.items ≡ entries.old.items ++ entry ∷ []) × EntryAt (view item.now) entry) }
{
    let Some(entry) = entry_in(item) else {
        return Err(StatusFault::Wrong("calendar"));
    };
    match entries.push(entry) {
        Ok(()) => Ok(()),
        Err(_) => Err(StatusFault::NoMemory),
    }
}

fn journal_in<'a>(fields: &mut Fields<'a>) -> JournalStatus<'a>
    ensures object { fields.new.object ≡ fields.old.object }
    ensures kept { fields.new.fault ≡ None → fields.old.fault ≡ None }
    ensures value { fields.new.fault ≡ None → JournalAt (object_of fields.old) result }
{
    let word = fields.text("journal");
    let reason = fields.text_if("journal_reason");
    if word == "open" {
        return JournalStatus::Open;
    }
    if word == "closed" {
        return JournalStatus::Closed(reason.unwrap_or(""));
    }
    if word != "none" {
        fields.refuse("journal");
    }
    JournalStatus::None
}

// Five numbers, each or null.
fn entry_in(item: &Value) -> Option<Entry>
    ensures { IfSome result (λ entry. EntryAt (view item.now) entry) }
{
    if item.get(5).is_some() {
        return None;
    }
    Some(Entry {
        minute: part_in(item, 0)?,
        hour: part_in(item, 1)?,
        day: part_in(item, 2)?,
        weekday: part_in(item, 3)?,
        month: part_in(item, 4)?,
    })
}

fn part_in(item: &Value, place: usize) -> Option<Option<u8>>
    ensures { IfSome result (λ part. PartAt (at place (view item.now)) part) }
{
    let part = item.get(place)?;
    if part.is_null() {
        return Some(None);
    }
    let count = part.as_u64()?;
    if count < 60 {
        Some(Some(count as u8))
    } else {
        None
    }
}

fn disabled_in(fields: &mut Fields<'_>) -> Option<DisabledBy>
    ensures object { fields.new.object ≡ fields.old.object }
    ensures kept { fields.new.fault ≡ None → fields.old.fault ≡ None }
    ensures value { fields.new.fault ≡ None → DisabledAt (object_of fields.old) result }
{
    let word = fields.text_if("disabled")?;
    for by in [DisabledBy::Definition, DisabledBy::Override] {
        if word == disabled_name(by) {
            return Some(by);
        }
    }
    fields.refuse("disabled");
    None
}

// The clock reading under the key; both clocks are 0 after a fault.
fn reading_in(fields: &mut Fields<'_>, key: &'static str) -> Reading
    ensures object { fields.new.object ≡ fields.old.object }
    ensures kept { fields.new.fault ≡ None → fields.old.fault ≡ None }
    ensures value { fields.new.fault ≡ None → IsReading (value_at key.now (object_of fields.old)) result }
{
    let mut inside = fields.inside(key);
    let at = inside.reading();
    fields.with(inside);
    at
}

fn reading_if(fields: &mut Fields<'_>, key: &'static str) -> Option<Reading>
    ensures object { fields.new.object ≡ fields.old.object }
    ensures kept { fields.new.fault ≡ None → fields.old.fault ≡ None }
    ensures value { fields.new.fault ≡ None → ReadingIf key.now (object_of fields.old) result }
{
    let mut inside = fields.inside_if(key)?;
    let at = inside.reading();
    fields.with(inside);
    Some(at)
}

fn note_in<'a>(fields: &mut Fields<'a>) -> JobNote<'a>
    ensures object { fields.new.object ≡ fields.old.object }
    ensures kept { fields.new.fault ≡ None → fields.old.fault ≡ None }
    ensures value { fields.new.fault ≡ None → NoteAt (object_of fields.old) result }
{
    JobNote {
        since: reading_in(fields, "since"),
        run: fields.count("run"),
        starts: fields.count("starts"),
        unsuccessful: fields.count("failures"),
        refusals: fields.count("refusals"),
        started: reading_if(fields, "started"),
        term: reading_if(fields, "term"),
        kill: reading_if(fields, "kill"),
        last_end: end_in(fields),
        succeeded: succeeded_in(fields),
        refused: refused_in(fields),
        definition: definition_in(fields),
        disabled_at: disabled_at_in(fields),
    }
}

// The number, or null, under a key that a launcher of version 0.3.0 does not write.
fn later_count(fields: &mut Fields<'_>, key: &'static str) -> Option<u64>
    ensures object { fields.new.object ≡ fields.old.object }
    ensures kept { fields.new.fault ≡ None → fields.old.fault ≡ None }
    ensures value { fields.new.fault ≡ None → LaterCount key.now (object_of fields.old) result }
{
    if fields.has(key) {
        fields.count_if(key)
    } else {
        None
    }
}

// Such a flag, or null.
fn later_flag(fields: &mut Fields<'_>, key: &'static str) -> Option<bool>
    ensures object { fields.new.object ≡ fields.old.object }
    ensures kept { fields.new.fault ≡ None → fields.old.fault ≡ None }
    ensures value { fields.new.fault ≡ None → LaterFlag key.now (object_of fields.old) result }
{
    if fields.has(key) {
        fields.flag_if(key)
    } else {
        None
    }
}

// Such a launcher does not write this.
fn definition_in<'a>(fields: &mut Fields<'a>) -> Option<&'a str>
    ensures object { fields.new.object ≡ fields.old.object }
    ensures kept { fields.new.fault ≡ None → fields.old.fault ≡ None }
    ensures value { fields.new.fault ≡ None → LaterText (codes "definition") (object_of fields.old) result }
{
    if fields.has("definition") {
        fields.text_if("definition")
    } else {
        None
    }
}

// Nor this.
fn succeeded_in(fields: &mut Fields<'_>) -> Option<Reading>
    ensures object { fields.new.object ≡ fields.old.object }
    ensures kept { fields.new.fault ≡ None → fields.old.fault ≡ None }
    ensures value { fields.new.fault ≡ None → LaterReading (codes "succeeded") (object_of fields.old) result }
{
    if fields.has("succeeded") {
        reading_if(fields, "succeeded")
    } else {
        None
    }
}

// Nor since when a label is disabled.
fn disabled_at_in(fields: &mut Fields<'_>) -> Option<Reading>
    ensures object { fields.new.object ≡ fields.old.object }
    ensures kept { fields.new.fault ≡ None → fields.old.fault ≡ None }
    ensures value { fields.new.fault ≡ None → LaterReading (codes "disabled_at") (object_of fields.old) result }
{
    if fields.has("disabled_at") {
        reading_if(fields, "disabled_at")
    } else {
        None
    }
}

// Nor where the errors of a job go.
fn errors_in<'a>(keys: &mut Fields<'a>) -> Option<&'a str>
    ensures object { keys.new.object ≡ keys.old.object }
    ensures kept { keys.new.fault ≡ None → keys.old.fault ≡ None }
    ensures value { keys.new.fault ≡ None → LaterText (codes "errors") (object_of keys.old) result }
{
    if keys.has("errors") {
        keys.text_if("errors")
    } else {
        None
    }
}

fn end_in(fields: &mut Fields<'_>) -> Option<RunEnd>
    ensures object { fields.new.object ≡ fields.old.object }
    ensures kept { fields.new.fault ≡ None → fields.old.fault ≡ None }
    ensures value { fields.new.fault ≡ None → NullOr EndAt (value_at (codes "last_end") (object_of fields.old)) result }
{
    let mut end = fields.inside_if("last_end")?;
    let is_code = end.has("code");
    let kind = if is_code { "code" } else { "signal" };
    let number = end.count(kind);
    let short = match u8::try_from(number) {
        Ok(short) => short,
        Err(_) => {
            end.refuse(kind);
            0
        }
    };
    let told = RunEnd {
        run: end.count("run"),
        how: if is_code {
            Ended::Code(short)
        } else {
            Ended::Signal(short)
        },
        ordered: later_flag(&mut end, "ordered"),
        began: reading_in(&mut end, "began"),
        ended: reading_in(&mut end, "ended"),
    };
    fields.with(end);
    Some(told)
}

fn refused_in<'a>(fields: &mut Fields<'a>) -> Option<RefusedStart<'a>>
    ensures object { fields.new.object ≡ fields.old.object }
    ensures kept { fields.new.fault ≡ None → fields.old.fault ≡ None }
    ensures value { fields.new.fault ≡ None → NullOr RefusedAt (value_at (codes "refused") (object_of fields.old)) result }
{
    let mut start = fields.inside_if("refused")?;
    let told = RefusedStart {
        run: start.count("run"),
        reason: start.text_if("reason"),
        at: reading_in(&mut start, "at"),
    };
    fields.with(start);
    Some(told)
}

fn paths_in<'a>(fields: &mut Fields<'a>, count: &'static str, first: &'static str) -> KeyPaths<'a>
    ensures object { fields.new.object ≡ fields.old.object }
    ensures kept { fields.new.fault ≡ None → fields.old.fault ≡ None }
    ensures value { fields.new.fault ≡ None → PathsAt count.now first.now (object_of fields.old) result }
{
    KeyPaths {
        count: fields.count(count),
        first: fields.text_if(first),
    }
}

// Of the conditions of `KeepAlive`: `SuccessfulExit`, `Crashed`, the paths, what the first path is to be, and what the one that holds is.
fn conditions_in<'a>(
    keys: &mut Fields<'a>,
) -> (
    Option<bool>,
    Option<bool>,
    KeyPaths<'a>,
    Option<bool>,
    Option<bool>,
)
    ensures object { keys.new.object ≡ keys.old.object }
    ensures kept { keys.new.fault ≡ None → keys.old.fault ≡ None }
    ensures value { keys.new.fault ≡ None →
        ConditionsAt (object_of keys.old) result.0 result.1 result.2 result.3 result.4 }
{
    let successful_exit = keys.flag_if("successful_exit");
    let crashed = keys.flag_if("crashed");
    let paths = paths_in(keys, "path_state", "first_condition");
    let first_exists = keys.flag_if("first_exists");
    let path_exists = keys.flag_if("path_exists");
    (successful_exit, crashed, paths, first_exists, path_exists)
}

// `StartInterval`, `ThrottleInterval` and `ExitTimeOut`.
fn pace_in(keys: &mut Fields<'_>) -> (Option<u32>, u32, u32)
    ensures object { keys.new.object ≡ keys.old.object }
    ensures kept { keys.new.fault ≡ None → keys.old.fault ≡ None }
    ensures value { keys.new.fault ≡ None → PaceAt (object_of keys.old) result.0 result.1 result.2 }
{
    let start_interval = keys.short_if("start_interval");
    let throttle_interval = keys.short("throttle_interval");
    let exit_time_out = keys.short("exit_time_out");
    (start_interval, throttle_interval, exit_time_out)
}

fn keys_in<'a>(fields: &mut Fields<'a>) -> JobKeys<'a>
    ensures object { fields.new.object ≡ fields.old.object }
    ensures kept { fields.new.fault ≡ None → fields.old.fault ≡ None }
    ensures value { fields.new.fault ≡ None → KeysAt (value_at (codes "keys") (object_of fields.old)) result }
{
    let mut keys = fields.inside("keys");
    let run_at_load = keys.flag("run_at_load");
    let (successful_exit, crashed, path_state, first_exists, path_exists) = conditions_in(
        &mut keys,
    );
    let (start_interval, throttle_interval, exit_time_out) = pace_in(&mut keys);
    let told = JobKeys {
        run_at_load,
        successful_exit,
        crashed,
        path_state,
        first_exists,
        path_exists,
        start_interval,
        throttle_interval,
        exit_time_out,
        watch_paths: paths_in(&mut keys, "watch_paths", "first_watched"),
        queue_directories: paths_in(&mut keys, "queue_directories", "first_queue"),
        has_sockets: keys.flag("sockets"),
        knows_errors: keys.has("errors"),
        errors: errors_in(&mut keys),
    };
    fields.with(keys);
    told
}

fn facts_in<'a>(fields: &mut Fields<'a>) -> JobFacts<'a>
    ensures object { fields.new.object ≡ fields.old.object }
    ensures kept { fields.new.fault ≡ None → fields.old.fault ≡ None }
    ensures value { fields.new.fault ≡ None → FactsAt (object_of fields.old) result }
{
    let reasons = reasons_in(fields);
    let mut moments = fields.inside("moments");
    let told = Moments {
        term: moments.count_if("term"),
        kill: moments.count_if("kill"),
        interval: moments.count_if("interval"),
    };
    let spawns_from = moments.count_if("spawn");
    fields.with(moments);
    JobFacts {
        reasons,
        moments: told,
        spawns_from,
        demand: demand_in(fields),
        path: fields.text_if("path"),
    }
}

fn demand_in(fields: &mut Fields<'_>) -> Option<DemandKind>
    ensures object { fields.new.object ≡ fields.old.object }
    ensures kept { fields.new.fault ≡ None → fields.old.fault ≡ None }
    ensures value { fields.new.fault ≡ None → DemandAt (object_of fields.old) result }
{
    let word = fields.text_if("demand")?;
    for kind in DEMANDS {
        if word == demand_name(kind) {
            return Some(kind);
        }
    }
    fields.refuse("demand");
    None
}

fn reasons_in(fields: &mut Fields<'_>) -> Reasons
    ensures object { fields.new.object ≡ fields.old.object }
    ensures kept { fields.new.fault ≡ None → fields.old.fault ≡ None }
    ensures value { fields.new.fault ≡ None → ReasonsAt (value_at (codes "reasons") (object_of fields.old)) result }
{
    let mut reasons = fields.inside("reasons");
    let child = child_in(&mut reasons);
    let awaited = awaited_in(&mut reasons);
    let wants = wants_in(&mut reasons);
    let told = Reasons {
        is_removing: reasons.flag("removing"),
        child,
        awaited,
        wants,
        throttled_until: reasons.count_if("throttled_until"),
        is_launch_spent: reasons.flag("launch_spent"),
        are_runs_spent: reasons.flag("runs_spent"),
    };
    fields.with(reasons);
    told
}

fn child_in(reasons: &mut Fields<'_>) -> Option<StandingChild>
    ensures object { reasons.new.object ≡ reasons.old.object }
    ensures kept { reasons.new.fault ≡ None → reasons.old.fault ≡ None }
    ensures value { reasons.new.fault ≡ None → NullOr ChildAt (value_at (codes "child") (object_of reasons.old)) result }
{
    let mut child = reasons.inside_if("child")?;
    let told = StandingChild {
        run: child.count("run"),
        pid: child.short("pid"),
        is_stopped: child.flag("stopped"),
        is_struck: child.flag("struck"),
    };
    reasons.with(child);
    Some(told)
}

fn awaited_in(reasons: &mut Fields<'_>) -> Option<Act>
    ensures object { reasons.new.object ≡ reasons.old.object }
    ensures kept { reasons.new.fault ≡ None → reasons.old.fault ≡ None }
    ensures value { reasons.new.fault ≡ None → NullOr OrderAt (value_at (codes "awaited") (object_of reasons.old)) result }
{
    let mut order = reasons.inside_if("awaited")?;
    let run = order.count_if("run").unwrap_or(0);
    let conn = order.count_if("conn");
    let word = order.text("order");
    let told = act_named(word, run, conn);
    if told.is_none() {
        order.refuse("order");
    }
    reasons.with(order);
    told
}

// The order of this name.
fn act_named(word: &str, run: u64, conn: Option<u64>) -> Option<Act>
    ensures named { IfSome result (λ act. word.now ≡ order_text act) }
    ensures with { IfSome result (λ act. HasRun run conn act) }
{
    let spawn = Act::Spawn { run, conn };
    if word == order_name(spawn) {
        return Some(spawn);
    }
    let term = Act::Term { run };
    if word == order_name(term) {
        return Some(term);
    }
    let kill = Act::Kill { run };
    if word == order_name(kill) {
        return Some(kill);
    }
    let close = Act::Close {
        conn: conn.unwrap_or(0),
    };
    if word == order_name(close) {
        return Some(close);
    }
    if word == order_name(Act::Gone) {
        Some(Act::Gone)
    } else {
        None
    }
}

fn wants_in(reasons: &mut Fields<'_>) -> Wants
    ensures object { reasons.new.object ≡ reasons.old.object }
    ensures kept { reasons.new.fault ≡ None → reasons.old.fault ≡ None }
    ensures value { reasons.new.fault ≡ None → WantsAt (value_at (codes "wants") (object_of reasons.old)) result }
{
    let mut wants = reasons.inside("wants");
    let told = Wants {
        demand: wants.flag("demand"),
        connections: wants.count("connections") as usize,
        keep_alive: wants.flag("keep_alive"),
        successful_exit: wants.flag("successful_exit"),
        crashed: wants.flag("crashed"),
        path_state: wants.flag("path_state"),
        queue_directories: wants.flag("queue_directories"),
    };
    reasons.with(wants);
    told
}
