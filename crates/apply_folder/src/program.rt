//! One run of `jobctl apply`.

use crate::applied::{Applied, read_applied};
use crate::before::{find_before, mark_applied};
use crate::carried::wait_for_one;
use crate::client::Client;
use crate::gathered::{Filed, Gathered, NextBoot, gather};
use crate::judged::{has_open, judge_all};
use crate::kept::keep;
use crate::left::report_left;
use crate::loaded::{Look, ReportedJob, job_of, look_at, status_path};
use crate::locked::lock_beside;
use crate::planned::{Progress, Scene, apply_once, awaited_in};
use crate::shown::{StepLine, show, show_same};
use crate::stop::Stop;
use crate::words::{ApplyWords, Meant, meaning_of};
use calendar_due::Zone;
use control_client::{Environment, Fault, PACKAGED, SOCKET, settings_of, tell_setting};
use definition_files::check::{Change, changes_ahead};
use exit_status::{NO_ANSWER, NO_MEMORY, READER_GONE, USAGE};
use files_and_process::own_files::LockFile;
use history_model::{MAX_WALL, Refusal, Text};
use launcher_places::{Places, PlacesFault, owner_of, places_beside};
use plain_text::plain;
use status_page::named_path;
use std::alloc::{AllocError, Global};
use std::fs::metadata;
use std::io;
use std::io::ErrorKind;
use std::time::SystemTime;

/// The text of its help.
const HELP: &str = "Brings files and folders of job definitions into effect

Usage: jobctl [--socket PATH] apply [--dry-run] [--prune] [--now] [--strict] [--wait] [--json] [--] PATH..

It loads what is new, unloads and loads again what changed, and leaves the rest as it is. It prints a line for each step. It stops no run, except that of a job that is kept alive and changed.

  --dry-run  Show the steps, and do nothing
  --prune    Unload what an earlier apply of the folder loaded and no file has any more
  --now      Stop the runs of jobs that changed
  --strict   Do nothing if a job definition has a warning
  --wait     Wait until runs exit, and then bring their files into effect
  --json     Print a JSON object for each step
  --socket PATH  The launcher's control socket (default: JOBD_SOCKET, else jobd.sock)

Exit status:
   0 in effect
   2 something was left, or waits
  64 invalid arguments
  65 a file can't be read
  69 no answer from the launcher
Otherwise it is the code of the launcher's first refusal.
";

/// The name of the file in the folder of the launcher's store.
const APPLIED: &str = "applied.jsonl";

/// Does what the arguments ask, if they ask for `apply`, and returns the exit status. The first argument is the program's own name. None: they ask
/// for something else.
pub fn jobctl_apply(host: &HostRuntime, alloc: Global, words: &[String]) -> Option<u8> {
    match meaning_of(alloc, words) {
        Ok(Meant::Other) => None,
        Ok(Meant::Help) => Some(put_help(host)),
        Ok(Meant::Wrong(why, word)) => {
            let status = tell_wrong(host, alloc, why, word.as_str());
            drop(word);
            Some(status)
        }
        Ok(Meant::Apply(words)) => {
            let status = run(host, alloc, &words);
            drop(words);
            Some(status)
        }
        Err(AllocError) => Some(want_memory(host)),
    }
}

fn put_help(host: &HostRuntime) -> u8 {
    match print!(host; "{HELP}") {
        Ok(()) => 0,
        Err(error) => Fault::Output(error).status(),
    }
}

fn want_memory(host: &HostRuntime) -> u8 {
    let _written = eprintln!(host; "jobctl: no memory");
    NO_MEMORY
}

fn tell_wrong(host: &HostRuntime, alloc: Global, why: &'static str, word: &str) -> u8 {
    let Ok(word) = plain(alloc, word) else {
        return want_memory(host);
    };
    let _written = eprintln!(host;
        "jobctl: apply: {why}{word}; jobctl apply --help lists the options"
    );
    drop(word);
    USAGE
}

fn run(host: &HostRuntime, alloc: Global, words: &ApplyWords) -> u8 {
    let settings = match settings_of(host) {
        Ok(settings) => settings,
        Err(fault) => return tell_setting(host, fault),
    };
    let ended = run_beside(host, alloc, words, &settings);
    drop(settings);
    ended
}

fn run_beside(host: &HostRuntime, alloc: Global, words: &ApplyWords, settings: &Environment) -> u8 {
    let named = socket_of(host, words, settings);
    let socket = match Text::copy_of(alloc, named) {
        Ok(socket) => socket,
        Err(_) => return want_memory(host),
    };
    let mut client = Client::new(socket, settings.patience);
    let ended = apply(host, alloc, words, &mut client);
    let status = match ended {
        Ok(status) => status,
        Err(stop) => tell_stop(host, named, stop),
    };
    drop(client);
    status
}

// The socket of the arguments, else of the environment; else the one here, else the package's.
fn socket_of<'a>(host: &HostRuntime, words: &'a ApplyWords, settings: &'a Environment) -> &'a str {
    match (&words.socket, &settings.socket) {
        (Some(socket), _) => socket.as_str(),
        (None, Some(socket)) => socket.as_str(),
        (None, None) if metadata(host, SOCKET).is_err() && metadata(host, PACKAGED).is_ok() => {
            PACKAGED
        }
        (None, None) => SOCKET,
    }
}

fn tell_stop(host: &HostRuntime, socket: &str, stop: Stop) -> u8 {
    match stop {
        Stop::NoMemory => want_memory(host),
        Stop::Told(status) => status,
        Stop::Ask(fault) => {
            let status = fault.status();
            if status != READER_GONE {
                let _written = eprintln!(host; "jobctl: apply: {socket}: {fault}");
            }
            drop(fault);
            status
        }
    }
}

fn apply(
    host: &HostRuntime,
    alloc: Global,
    words: &ApplyWords,
    client: &mut Client,
) -> Result<u8, Stop> {
    let socket = String::from_str(alloc, client.socket.as_str())?;
    let user = user_of(host, socket.as_str())?;
    let lock = if words.flags.dry_run {
        None
    } else {
        lock_beside(host, alloc, socket.as_str(), user)?
    };
    let ended = apply_beside(host, alloc, words, client, socket.as_str(), user);
    release(host, lock);
    drop(socket);
    ended
}

fn release(host: &HostRuntime, lock: Option<LockFile>) {
    if let Some(lock) = lock {
        lock.remove(host);
        drop(lock);
    }
}

// The number of the launcher's user.
fn user_of(host: &HostRuntime, socket: &str) -> Result<u32, Stop> {
    match owner_of(host, socket) {
        Ok(user) => Ok(user),
        Err(error) => {
            let _written = eprintln!(host; "jobctl: apply: {socket}: {error}");
            Err(Stop::Told(NO_ANSWER))
        }
    }
}

// Without them the status file is known only by the variable.
fn without_places(host: &HostRuntime) -> Result<Option<Places>, Stop> {
    match named_path(host, &None::<Text>)? {
        Some(path) => {
            drop(path);
            Ok(None)
        }
        None => Err(Stop::Told(NO_ANSWER)),
    }
}

fn places_of(host: &HostRuntime, alloc: Global, socket: &str) -> Result<Option<Places>, Stop> {
    match places_beside(host, alloc, socket) {
        Ok(places) => Ok(places),
        Err(PlacesFault::NoMemory) => Err(Stop::NoMemory),
        Err(PlacesFault::Read(error)) => {
            let _written = eprintln!(host; "jobctl: apply: {socket}.places: {error}");
            drop(error);
            without_places(host)
        }
        Err(PlacesFault::NotPlaces) => {
            let _written = eprintln!(host;
                "jobctl: apply: {socket}.places: it is not a file of a launcher's places"
            );
            Ok(None)
        }
    }
}

fn apply_beside(
    host: &HostRuntime,
    alloc: Global,
    words: &ApplyWords,
    client: &mut Client,
    socket: &str,
    user: u32,
) -> Result<u8, Stop> {
    // The launcher writes its status file because of the list, so the file is newer than this.
    let asked = SystemTime::now(host);
    // A launcher writes its places before its first reply.
    let listed = client.list(host, alloc)?;
    drop(listed);
    let places = places_of(host, alloc, socket)?;
    let path = status_path(host, alloc, socket, &places, user)?;
    let folder = jobs_in(&places);
    let boot = NextBoot { user, folder };
    let mut gathered = gather(host, alloc, words.paths.as_slice(), boot)?;
    let state = state_path(alloc, &places)?;
    let ground = Ground {
        host,
        alloc,
        words,
        places: &places,
        path: path.as_str(),
        user,
        asked: &asked,
    };
    let ended = match &state {
        Some(state) => with_state(&ground, client, &mut gathered, state.as_str()),
        None => {
            tell_no_state(host, words);
            let applied = Applied::nothing(alloc);
            let ended = rounds(&ground, client, &mut gathered, &applied, None);
            drop(applied);
            ended
        }
    };
    drop(state);
    drop(gathered);
    drop(path);
    drop(places);
    ended
}

fn jobs_in(places: &Option<Places>) -> Option<&str> {
    match places {
        Some(
            Places {
                jobs: Some(jobs),
                ..
            },
        ) => Some(jobs.as_str()),
        _ => None,
    }
}

/// What stays as it is through an apply.
#[derive(Clone, Copy)]
struct Ground<'a> {
    host: &'a HostRuntime,
    alloc: Global,
    words: &'a ApplyWords,
    places: &'a Option<Places>,
    // The status file.
    path: &'a str,
    user: u32,
    // Before the first question to the launcher.
    asked: &'a io::Result<SystemTime>,
}

// The path of the file that keeps what applies loaded.
fn state_path(alloc: Global, places: &Option<Places>) -> Result<Option<String>, AllocError> {
    let Some(places) = places else {
        return Ok(None);
    };
    match places.store.as_str().rsplit_once('/') {
        Some((folder, _)) => Ok(Some(format!(in alloc; "{folder}/{APPLIED}")?)),
        None => Ok(None),
    }
}

fn tell_no_state(host: &HostRuntime, words: &ApplyWords) {
    if words.flags.prune {
        let _written = eprintln!(host;
            "jobctl: apply: it is not known what an earlier apply loaded, so nothing is pruned"
        );
    }
}

fn with_state(
    ground: &Ground<'_>,
    client: &mut Client,
    gathered: &mut Gathered,
    state: &str,
) -> Result<u8, Stop> {
    let host = ground.host;
    let (applied, is_known) = match read_applied(host, ground.alloc, state, ground.user) {
        Ok(applied) => (applied, true),
        Err(error) if error.kind() == ErrorKind::OutOfMemory => return Err(Stop::NoMemory),
        Err(error) => {
            let _written = eprintln!(host;
                "jobctl: apply: {state}: {error}: it is not known what an earlier apply loaded, so nothing is pruned"
            );
            drop(error);
            (Applied::nothing(ground.alloc), false)
        }
    };
    let kept = if is_known { Some(state) } else { None };
    let ended = rounds(ground, client, gathered, &applied, kept);
    drop(applied);
    ended
}

// Plans until nothing is waited for.
fn rounds(
    ground: &Ground<'_>,
    client: &mut Client,
    gathered: &mut Gathered,
    applied: &Applied,
    state: Option<&str>,
) -> Result<u8, Stop> {
    let mut progress = Progress::new(ground.alloc);
    for turn in 0..u64::MAX {
        let is_over = round(
            ground,
            client,
            gathered,
            applied,
            state,
            turn == 0,
            &mut progress,
        )?;
        if is_over {
            break;
        }
    }
    report_left(
        ground.host,
        ground.alloc,
        ground.places,
        progress.ended.as_slice(),
    )?;
    let flags = ground.words.flags;
    show_same(
        ground.host,
        ground.alloc,
        flags.json,
        progress.same,
        progress.has_changed,
    )?;
    let status = progress.ending.status();
    drop(progress);
    Ok(status)
}

// Whether nothing is waited for any more.
fn round(
    ground: &Ground<'_>,
    client: &mut Client,
    gathered: &mut Gathered,
    applied: &Applied,
    state: Option<&str>,
    is_first: bool,
    progress: &mut Progress,
) -> Result<bool, Stop> {
    let (host, alloc) = (ground.host, ground.alloc);
    let now = SystemTime::now(host);
    let asked = if is_first { ground.asked } else { &now };
    let mut look = look_at(host, alloc, client, ground.path, ground.places, asked)?;
    mark_applied(host, alloc, gathered, applied, look.jobs.as_mut_slice())?;
    find_before(
        host,
        alloc,
        gathered.files.as_slice(),
        applied,
        ground.places,
        ground.user,
        look.jobs.as_mut_slice(),
    )?;
    let zone = look.standing.zone(alloc, false)?;
    if is_first {
        progress.has_warning = judged(ground, gathered, &look, &zone)?;
    }
    let shuts_down = is_shutting_down(host, alloc, client, look.jobs.as_slice())?;
    let scene = Scene {
        files: gathered.files.as_slice(),
        jobs: look.jobs.as_slice(),
        zone: &zone,
        flags: ground.words.flags,
        has_warning: progress.has_warning,
        shuts_down,
        is_first,
    };
    progress.in_effect.clear();
    if is_first {
        show_left_out(host, alloc, &scene, progress)?;
    }
    let applied_once = apply_once(host, alloc, client, &scene, progress);
    let noted = show_disabled(host, alloc, &scene, progress);
    let kept = keep_progress(ground, gathered, &look, applied, state, progress);
    drop(zone);
    drop(look);
    applied_once?;
    noted?;
    kept?;
    wait_on(ground, client, progress)
}

// Whether the launcher shuts down. It is asked where all jobs are being removed, by a load that it refuses in any case: for the shutdown first.
fn is_shutting_down(
    host: &HostRuntime,
    alloc: Global,
    client: &mut Client,
    jobs: &[ReportedJob],
) -> Result<bool, Fault> {
    if jobs.is_empty() {
        return Ok(false);
    }
    for job in jobs {
        if !job.is_going {
            return Ok(false);
        }
    }
    let replied = client.load(host, alloc, "{}")?;
    let shuts_down = replied.code == Refusal::ShuttingDown.code();
    drop(replied);
    Ok(shuts_down)
}

// Only of the first plan, since files are read once.
fn judged(
    ground: &Ground<'_>,
    gathered: &mut Gathered,
    look: &Look,
    zone: &Zone,
) -> Result<bool, AllocError> {
    let jobs = look.jobs.as_slice();
    if !has_open(gathered.files.as_slice(), jobs) {
        return Ok(false);
    }
    let changes = changes_now(ground, zone)?;
    let files = gathered.files.as_mut_slice();
    let judged = judge_all(ground.host, ground.alloc, files, jobs, changes.as_slice());
    drop(changes);
    judged
}

fn changes_now(ground: &Ground<'_>, zone: &Zone) -> Result<Vec<Change>, AllocError> {
    let second = match SystemTime::now(ground.host) {
        Ok(time) => match time.duration_since(SystemTime::UNIX_EPOCH) {
            Ok(since) => since.as_secs().min(MAX_WALL),
            Err(_) => 0,
        },
        Err(_) => 0,
    };
    changes_ahead(ground.alloc, zone, second)
}

fn keep_progress(
    ground: &Ground<'_>,
    gathered: &Gathered,
    look: &Look,
    applied: &Applied,
    state: Option<&str>,
    progress: &Progress,
) -> Result<(), Stop> {
    let Some(state) = state else {
        return Ok(());
    };
    if ground.words.flags.dry_run {
        return Ok(());
    }
    let host = ground.host;
    let jobs = look.jobs.as_slice();
    match keep(
        host,
        ground.alloc,
        state,
        ground.user,
        gathered,
        jobs,
        applied,
        progress,
    ) {
        Ok(()) => Ok(()),
        Err(error) if error.kind() == ErrorKind::OutOfMemory => Err(Stop::NoMemory),
        Err(error) => {
            let _written = eprintln!(host;
                "jobctl: apply: {state}: {error}: a later --prune does not know what was loaded now"
            );
            Ok(())
        }
    }
}

fn wait_on(
    ground: &Ground<'_>,
    client: &mut Client,
    progress: &mut Progress,
) -> Result<bool, Stop> {
    if progress.awaited.is_empty() || ground.words.flags.dry_run {
        return Ok(true);
    }
    let awaited = awaited_in(ground.alloc, progress)?;
    let has_come = wait_for_one(ground.host, ground.alloc, client, awaited.as_slice());
    drop(awaited);
    match has_come {
        Ok(has_come) => Ok(!has_come),
        Err(fault) => Err(Stop::from(fault)),
    }
}

// A line for each job that is as its file says, and goes on though its label is disabled.
fn show_disabled(
    host: &HostRuntime,
    alloc: Global,
    scene: &Scene<'_>,
    progress: &Progress,
) -> Result<(), Stop> {
    if !scene.is_first {
        return Ok(());
    }
    for place in &progress.in_effect {
        if let Some(file) = scene.files.get(*place) {
            if is_disabled(scene, file.label.as_str()) {
                show_goes_on(host, alloc, scene, file)?;
            }
        }
    }
    Ok(())
}

fn is_disabled(scene: &Scene<'_>, label: &str) -> bool {
    match job_of(scene.jobs, label) {
        Some(job) => job.is_disabled,
        None => false,
    }
}

fn show_goes_on(
    host: &HostRuntime,
    alloc: Global,
    scene: &Scene<'_>,
    file: &Filed,
) -> Result<(), Stop> {
    let line = StepLine {
        word: "disabled",
        label: file.label.as_str(),
        file: file.path.as_str(),
        keys: "[]",
        reason: "it is loaded, and stays loaded until it is unloaded",
        done: false,
    };
    show(host, alloc, scene.flags.json, &line)
}

// A line for each file that another one decides over, since that is named for the label.
fn show_left_out(
    host: &HostRuntime,
    alloc: Global,
    scene: &Scene<'_>,
    progress: &mut Progress,
) -> Result<(), Stop> {
    let mut named = Vec::new(alloc);
    for file in scene.files {
        if file.is_named() {
            named.push(file.label.as_str())?;
        }
    }
    named.sort()?;
    for file in scene.files {
        let label = file.label.as_str();
        if !file.is_named() && named.binary_search(&label).is_ok() {
            progress.has_twice = true;
            let reason = format!(in alloc; "{label}.json is used; {} is ignored", file.name())?;
            let line = StepLine {
                word: "twice",
                label,
                file: file.path.as_str(),
                keys: "[]",
                reason: reason.as_str(),
                done: false,
            };
            show(host, alloc, scene.flags.json, &line)?;
            drop(reason);
        }
    }
    drop(named);
    Ok(())
}
