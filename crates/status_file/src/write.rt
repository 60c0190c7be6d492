//! The lines of a file, written.

ghost use Rattle.std.specs.Prelude.{◌≡◌, ◌++◌, ◌∷◌, [], decimal};
ghost use Rattle.json.specs.Token.{number};
ghost use Rattle.std.specs.List.{flat_map};
ghost use Rattle.status_file.specs.Lines.{Adds, Puts};
ghost use Rattle.status_file.specs.Tokens.{awaited_tokens, bind_front_tokens, bind_tokens, binds_tokens, calendar_tokens, child_pid, child_tokens, conditions_tokens, count_token, counts_tokens, demand_token, disabled_token, loaded_tokens, end_front_tokens, end_key, end_number, end_tokens, entry_tokens, front_tokens, held_tokens, job_tokens, journal_tokens, keys_tokens, launcher_tokens, limits_tokens, moment_tokens, moments_tokens, name_tokens, note_tokens, order_conn, order_run, others_tokens, process_tokens, reasons_tokens, refused_tokens, run_end_tokens, start_front_tokens, start_tokens, tallies_tokens, times_tokens, token_in, wanted_tokens, wants_tokens};

use crate::facts::JobFacts;
use crate::line::Piece::{Close, CloseList, Count, Flag, Key, Null, Open, OpenList, Text};
use crate::line::{LineWriter, Piece, StatusText, count_piece, flag_piece, text_piece};
use crate::names::{demand_name, disabled_name, order_name, state_name};
use crate::status::{
    BindStatus, DisabledBy, JobKeys, JobNote, JobStatus, JournalStatus, LauncherStatus,
    RefusedStart, RunEnd, state_of,
};
use history_model::{
    Act, DemandKind, Ended, Entry, JobState, Reading, Reasons, StandingChild, Wants,
};
use job_table::Moments;
use std::alloc::Global;

/// Adds the launcher's line, which is the first of a file, with the loads that were refused since a socket could not be bound.
pub fn add_launcher(
    text: &mut StatusText,
    alloc: Global,
    launcher: &LauncherStatus<'_>,
    binds: &[BindStatus<'_>],
)
    ensures { Adds (launcher_tokens launcher.now binds.now) text.old text.new }
{
    let mut line = text.begin(alloc);
    put_process(&mut line, *launcher);
    put_moment(&mut line, "at", Some(launcher.at));
    put_journal(&mut line, launcher.journal);
    put_binds(&mut line, binds);
    put_tallies(&mut line, *launcher);
    text.end(line);
}

fn put_process(line: &mut LineWriter, launcher: LauncherStatus<'_>)
    ensures { Puts (process_tokens launcher.entry) line.old line.new }
{
    line.put(&[
        Open,
        Key("launcher"),
        Open,
        Key("version"),
        Text(launcher.version),
        Key("pid"),
        wide_piece(launcher.pid),
        Key("began"),
        Count(launcher.began),
        Key("header"),
        Text(launcher.header),
    ]);
}

fn put_journal(line: &mut LineWriter, journal: JournalStatus<'_>)
    ensures { Puts (journal_tokens journal.entry) line.old line.new }
{
    match journal {
        JournalStatus::None => line.put(&[
            Key("journal"),
            Text("none"),
            Key("journal_reason"),
            Null,
        ]),
        JournalStatus::Open => line.put(&[
            Key("journal"),
            Text("open"),
            Key("journal_reason"),
            Null,
        ]),
        JournalStatus::Closed(reason) => line.put(&[
            Key("journal"),
            Text("closed"),
            Key("journal_reason"),
            Text(reason),
        ]),
    }
}

fn put_binds(line: &mut LineWriter, binds: &[BindStatus<'_>])
    ensures { Puts (binds_tokens binds.now) line.old line.new }
{
    line.put(&[Key("refused_binds"), OpenList]);
    put_each_bind(line, binds);
    line.put(&[CloseList]);
}

fn put_each_bind(line: &mut LineWriter, binds: &[BindStatus<'_>])
    ensures { Puts (flat_map bind_tokens binds.now) line.old line.new }
{
    for bind in binds {
        put_bind(line, *bind);
    }
}

fn put_bind(line: &mut LineWriter, bind: BindStatus<'_>)
    ensures { Puts (bind_tokens bind.entry) line.old line.new }
{
    put_bind_front(line, bind);
    put_moment(line, "at", Some(bind.at));
    line.put(&[Close]);
}

fn put_bind_front(line: &mut LineWriter, bind: BindStatus<'_>)
    ensures { Puts (bind_front_tokens bind.entry) line.old line.new }
{
    line.put(&[
        Open,
        Key("label"),
        Text(bind.label),
        Key("reason"),
        Text(bind.reason),
    ]);
}

// What the store refused last, and the counts.
fn put_tallies(line: &mut LineWriter, launcher: LauncherStatus<'_>)
    ensures { Puts (tallies_tokens launcher.entry) line.old line.new }
{
    line.put(&[
        Key("store"),
        text_piece(launcher.store),
        Key("renewed_each"),
        count_piece(launcher.renewed_each),
        Key("failed_calls"),
        count_piece(launcher.failed_calls),
        Key("shutting_down"),
        flag_piece(launcher.is_shutting_down),
        Key("jobs"),
        Count(launcher.jobs),
        Close,
        Close,
    ]);
}

/// Adds the line of a job, with the entries of its calendar.
pub(crate) fn add_job(text: &mut StatusText, alloc: Global, job: &JobStatus<'_>, calendar: &[Entry])
    ensures { Adds (job_tokens job.now calendar.now) text.old text.new }
{
    let mut line = text.begin(alloc);
    put_front(&mut line, job);
    put_note(&mut line, &job.note);
    put_reasons(&mut line, &job.facts.reasons);
    put_moments(&mut line, &job.facts);
    put_keys(&mut line, job.keys);
    put_calendar(&mut line, calendar);
    text.end(line);
}

fn child_pid(child: Option<StandingChild>) -> Option<u64>
    ensures { result ≡ child_pid child }
{
    match child {
        Some(child) => Some(child.pid as u64),
        None => None,
    }
}

fn disabled_piece(by: Option<DisabledBy>) -> Piece<'static>
    ensures { token_in result ≡ disabled_token by }
{
    match by {
        Some(by) => Text(disabled_name(by)),
        None => Null,
    }
}

fn put_front(line: &mut LineWriter, job: &JobStatus<'_>)
    ensures { Puts (front_tokens job.now) line.old line.new }
{
    put_name(line, job.label, state_of(&job.facts.reasons));
    put_counts(
        line,
        child_pid(job.facts.reasons.child),
        job.note.run,
        job.note.starts,
        job.note.unsuccessful,
        job.note.refusals,
        job.facts.reasons.wants.connections,
    );
    put_loaded(line, job.disabled, job.note.definition);
}

fn put_name(line: &mut LineWriter, label: &str, state: JobState)
    ensures { Puts (name_tokens label.now state) line.old line.new }
{
    line.put(&[
        Open,
        Key("job"),
        Open,
        Key("label"),
        Text(label),
        Key("state"),
        Text(state_name(state)),
    ]);
}

fn put_counts(
    line: &mut LineWriter,
    pid: Option<u64>,
    run: u64,
    starts: u64,
    failures: u64,
    refusals: u64,
    connections: usize,
)
    ensures { Puts (counts_tokens pid run starts failures refusals connections) line.old line.new }
{
    line.put(&[
        Key("pid"),
        count_piece(pid),
        Key("run"),
        Count(run),
        Key("starts"),
        Count(starts),
        Key("failures"),
        Count(failures),
        Key("refusals"),
        Count(refusals),
        Key("connections"),
        Count(connections as u64),
    ]);
}

// By what its label is disabled, and the digest of its definition.
fn put_loaded(line: &mut LineWriter, by: Option<DisabledBy>, definition: Option<&str>)
    ensures { Puts (loaded_tokens by definition.entry) line.old line.new }
{
    line.put(&[
        Key("disabled"),
        disabled_piece(by),
        Key("definition"),
        text_piece(definition),
    ]);
}

fn end_parts(how: Ended) -> (&'static str, u64)
    ensures key { result.0.now ≡ end_key how }
    ensures number { result.1 ≡ end_number how }
{
    match how {
        Ended::Code(code) => ("code", code as u64),
        Ended::Signal(signal) => ("signal", signal as u64),
    }
}

// A clock reading under its key.
fn put_moment(line: &mut LineWriter, name: &str, at: Option<Reading>)
    ensures { Puts (moment_tokens name.now at) line.old line.new }
{
    match at {
        Some(at) => line.put(&[
            Key(name),
            Open,
            Key("up"),
            Count(at.up),
            Key("wall"),
            Count(at.wall),
            Close,
        ]),
        None => line.put(&[Key(name), Null]),
    }
}

fn put_end(line: &mut LineWriter, end: Option<RunEnd>)
    ensures { Puts (end_tokens end) line.old line.new }
{
    match end {
        Some(end) => put_run_end(line, end),
        None => line.put(&[Key("last_end"), Null]),
    }
}

fn put_run_end(line: &mut LineWriter, end: RunEnd)
    ensures { Puts (run_end_tokens end) line.old line.new }
{
    put_end_front(line, end);
    put_moment(line, "began", Some(end.began));
    put_moment(line, "ended", Some(end.ended));
    line.put(&[Close]);
}

fn put_end_front(line: &mut LineWriter, end: RunEnd)
    ensures { Puts (end_front_tokens end) line.old line.new }
{
    let (kind, number) = end_parts(end.how);
    line.put(&[
        Key("last_end"),
        Open,
        Key("run"),
        Count(end.run),
        Key(kind),
        Count(number),
        Key("ordered"),
        flag_piece(end.ordered),
    ]);
}

fn put_refused(line: &mut LineWriter, refused: Option<RefusedStart<'_>>)
    ensures { Puts (refused_tokens refused.entry) line.old line.new }
{
    match refused {
        Some(start) => put_start(line, start),
        None => line.put(&[Key("refused"), Null]),
    }
}

fn put_start(line: &mut LineWriter, start: RefusedStart<'_>)
    ensures { Puts (start_tokens start.entry) line.old line.new }
{
    put_start_front(line, start.run, start.reason);
    put_moment(line, "at", Some(start.at));
    line.put(&[Close]);
}

fn put_start_front(line: &mut LineWriter, run: u64, reason: Option<&str>)
    ensures { Puts (start_front_tokens run reason.entry) line.old line.new }
{
    line.put(&[
        Key("refused"),
        Open,
        Key("run"),
        Count(run),
        Key("reason"),
        text_piece(reason),
    ]);
}

fn put_note(line: &mut LineWriter, note: &JobNote<'_>)
    ensures { Puts (note_tokens note.now) line.old line.new }
{
    put_moment(line, "since", Some(note.since));
    put_moment(line, "started", note.started);
    put_moment(line, "term", note.term);
    put_moment(line, "kill", note.kill);
    put_end(line, note.last_end);
    put_refused(line, note.refused);
    put_moment(line, "succeeded", note.succeeded);
    put_moment(line, "disabled_at", note.disabled_at);
}

fn put_reasons(line: &mut LineWriter, reasons: &Reasons)
    ensures { Puts (reasons_tokens reasons.now) line.old line.new }
{
    put_held(line, *reasons);
    put_child(line, reasons.child);
    put_awaited(line, reasons.awaited);
    put_wants(line, reasons.wants);
    line.put(&[Close]);
}

fn put_held(line: &mut LineWriter, reasons: Reasons)
    ensures { Puts (held_tokens reasons) line.old line.new }
{
    line.put(&[
        Key("reasons"),
        Open,
        Key("removing"),
        Flag(reasons.is_removing),
        Key("throttled_until"),
        count_piece(reasons.throttled_until),
        Key("launch_spent"),
        Flag(reasons.is_launch_spent),
        Key("runs_spent"),
        Flag(reasons.are_runs_spent),
    ]);
}

/// The number.
fn wide_piece(count: u32) -> Piece<'static>
    ensures { token_in result ≡ number (decimal count) }
{
    Count(count as u64)
}

fn put_child(line: &mut LineWriter, child: Option<StandingChild>)
    ensures { Puts (child_tokens child) line.old line.new }
{
    match child {
        Some(child) => line.put(&[
            Key("child"),
            Open,
            Key("run"),
            Count(child.run),
            Key("pid"),
            wide_piece(child.pid),
            Key("stopped"),
            Flag(child.is_stopped),
            Key("struck"),
            Flag(child.is_struck),
            Close,
        ]),
        None => line.put(&[Key("child"), Null]),
    }
}

/// The run of an order, and its connection.
fn order_parts(order: Act) -> (Option<u64>, Option<u64>)
    ensures run { result.0 ≡ order_run order }
    ensures conn { result.1 ≡ order_conn order }
{
    match order {
        Act::Spawn { run, conn } => (Some(run), conn),
        Act::Term { run } | Act::Kill { run } => (Some(run), None),
        Act::Close { conn } => (None, Some(conn)),
        Act::Gone => (None, None),
    }
}

fn put_awaited(line: &mut LineWriter, awaited: Option<Act>)
    ensures { Puts (awaited_tokens awaited) line.old line.new }
{
    match awaited {
        Some(order) => {
            let (run, conn) = order_parts(order);
            line.put(&[
                Key("awaited"),
                Open,
                Key("order"),
                Text(order_name(order)),
                Key("run"),
                count_piece(run),
                Key("conn"),
                count_piece(conn),
                Close,
            ]);
        }
        None => line.put(&[Key("awaited"), Null]),
    }
}

fn put_wants(line: &mut LineWriter, wants: Wants)
    ensures { Puts (wants_tokens wants) line.old line.new }
{
    line.put(&[
        Key("wants"),
        Open,
        Key("demand"),
        Flag(wants.demand),
        Key("connections"),
        Count(wants.connections as u64),
        Key("keep_alive"),
        Flag(wants.keep_alive),
        Key("successful_exit"),
        Flag(wants.successful_exit),
        Key("crashed"),
        Flag(wants.crashed),
        Key("path_state"),
        Flag(wants.path_state),
        Key("queue_directories"),
        Flag(wants.queue_directories),
        Close,
    ]);
}

fn demand_piece(demand: Option<DemandKind>) -> Piece<'static>
    ensures { token_in result ≡ demand_token demand }
{
    match demand {
        Some(demand) => Text(demand_name(demand)),
        None => Null,
    }
}

fn put_moments(line: &mut LineWriter, facts: &JobFacts<'_>)
    ensures { Puts (moments_tokens facts.now) line.old line.new }
{
    put_times(line, facts.moments, facts.spawns_from);
    put_wanted(line, facts.demand, facts.path);
}

fn put_times(line: &mut LineWriter, moments: Moments, spawn: Option<u64>)
    ensures { Puts (times_tokens moments spawn) line.old line.new }
{
    line.put(&[
        Key("moments"),
        Open,
        Key("term"),
        count_piece(moments.term),
        Key("kill"),
        count_piece(moments.kill),
        Key("interval"),
        count_piece(moments.interval),
        Key("spawn"),
        count_piece(spawn),
        Close,
    ]);
}

fn put_wanted(line: &mut LineWriter, demand: Option<DemandKind>, path: Option<&str>)
    ensures { Puts (wanted_tokens demand path.entry) line.old line.new }
{
    line.put(&[
        Key("demand"),
        demand_piece(demand),
        Key("path"),
        text_piece(path),
    ]);
}

fn put_keys(line: &mut LineWriter, keys: JobKeys<'_>)
    ensures { Puts (keys_tokens keys.entry) line.old line.new }
{
    put_conditions(line, keys);
    put_limits(line, keys);
    put_others(line, keys);
}

fn put_conditions(line: &mut LineWriter, keys: JobKeys<'_>)
    ensures { Puts (conditions_tokens keys.entry) line.old line.new }
{
    line.put(&[
        Key("keys"),
        Open,
        Key("run_at_load"),
        Flag(keys.run_at_load),
        Key("successful_exit"),
        flag_piece(keys.successful_exit),
        Key("crashed"),
        flag_piece(keys.crashed),
        Key("path_state"),
        Count(keys.path_state.count),
        Key("first_condition"),
        text_piece(keys.path_state.first),
        Key("first_exists"),
        flag_piece(keys.first_exists),
        Key("path_exists"),
        flag_piece(keys.path_exists),
    ]);
}

fn wide_piece_if(count: Option<u32>) -> Piece<'static>
    ensures { token_in result ≡ count_token count }
{
    match count {
        Some(count) => Count(count as u64),
        None => Null,
    }
}

fn put_limits(line: &mut LineWriter, keys: JobKeys<'_>)
    ensures { Puts (limits_tokens keys.entry) line.old line.new }
{
    line.put(&[
        Key("start_interval"),
        wide_piece_if(keys.start_interval),
        Key("throttle_interval"),
        wide_piece(keys.throttle_interval),
        Key("exit_time_out"),
        wide_piece(keys.exit_time_out),
    ]);
}

fn put_others(line: &mut LineWriter, keys: JobKeys<'_>)
    ensures { Puts (others_tokens keys.entry) line.old line.new }
{
    line.put(&[
        Key("watch_paths"),
        Count(keys.watch_paths.count),
        Key("first_watched"),
        text_piece(keys.watch_paths.first),
        Key("queue_directories"),
        Count(keys.queue_directories.count),
        Key("first_queue"),
        text_piece(keys.queue_directories.first),
        Key("sockets"),
        Flag(keys.has_sockets),
        Key("errors"),
        text_piece(keys.errors),
        Close,
    ]);
}

fn short_piece(count: Option<u8>) -> Piece<'static>
    ensures { token_in result ≡ count_token count }
{
    match count {
        Some(count) => Count(count as u64),
        None => Null,
    }
}

fn put_calendar(line: &mut LineWriter, calendar: &[Entry])
    ensures { Puts (calendar_tokens calendar.now) line.old line.new }
{
    line.put(&[Key("calendar"), OpenList]);
    put_entries(line, calendar);
    line.put(&[CloseList, Close, Close]);
}

fn put_entries(line: &mut LineWriter, calendar: &[Entry])
    ensures { Puts (flat_map entry_tokens calendar.now) line.old line.new }
{
    for entry in calendar {
        put_entry(line, *entry);
    }
}

fn put_entry(line: &mut LineWriter, entry: Entry)
    ensures { Puts (entry_tokens entry) line.old line.new }
{
    line.put(&[
        OpenList,
        short_piece(entry.minute),
        short_piece(entry.hour),
        short_piece(entry.day),
        short_piece(entry.weekday),
        short_piece(entry.month),
        CloseList,
    ]);
}
