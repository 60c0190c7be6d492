//! What is loaded, as the launcher's status file says it.

use crate::client::Client;
use crate::stop::Stop;
use exit_status::NO_ANSWER;
use history_model::{JobState, Text};
use launcher_places::{Places, check_own_file};
use status_file::{DisabledBy, JobStatus, LauncherStatus, StatusFault, StatusLine, state_of};
use status_page::{Diagnostic, StatusRead, named_path, read_standing};
use std::alloc::{AllocError, Global};
use std::io::ErrorKind;
use std::time::{Duration, SystemTime};
use std::{fs, io, thread};

/// For how many milliseconds a file may be out of date. A launcher writes it within a second of a change, in the next passes of its event loop.
/// These are late on a busy machine. So it is asked once for each pass that it may need to write the file: with each answer a pass is over.
const BEHIND: u64 = 1_200;

/// How many bytes of the file the launcher writes in one pass, and how many passes more it may take.
const IN_ONE_PASS: u64 = 65_536;

const MORE_PASSES: u64 = 3;

/// How often it is looked at again, and how many milliseconds are between: three seconds and a half.
const LOOKS: u32 = 70;

const BETWEEN: u64 = 50;

/// After this many looks a job counts even if the file does not have its definition, as just after a load.
const UNTOLD: u32 = 40;

/// A loaded job, as the status file reports it.
#[derive(Drop)]
pub(crate) struct ReportedJob {
    pub(crate) label: String,
    /// Empty, if the launcher does not report it.
    pub(crate) digest: String,
    pub(crate) is_running: bool,
    pub(crate) is_kept_alive: bool,
    pub(crate) is_going: bool,
    /// Whether a setting disables its label.
    pub(crate) is_disabled: bool,
    /// Whether its definition disables it, and no setting does.
    pub(crate) has_disabled: bool,
    /// Whether an earlier apply of one of the folders loaded it.
    pub(crate) was_applied: bool,
    /// The number of its run, and the second in which it began.
    pub(crate) run: u64,
    pub(crate) since: u64,
    /// In seconds; 0 means no limit.
    pub(crate) exit_time_out: u32,
    /// Whether a file says something else of it, so that its definition is wanted; and that, if it was found.
    pub(crate) wants_before: bool,
    pub(crate) before: Option<String>,
    /// Whether that has `Disabled`.
    pub(crate) was_disabled: bool,
}

/// What is loaded, by rising bytes of labels, and the file that says so.
#[derive(Drop)]
pub(crate) struct Look {
    pub(crate) jobs: Vec<ReportedJob>,
    pub(crate) standing: StatusRead,
}

/// What is loaded, as it was when the clock showed `asked` or later.
pub(crate) fn look_at(
    host: &HostRuntime,
    alloc: Global,
    client: &mut Client,
    path: &str,
    places: &Option<Places>,
    asked: &io::Result<SystemTime>,
) -> Result<Look, Stop> {
    for turn in 0..LOOKS {
        if let Some(look) = look_once(host, alloc, client, path, places, asked)? {
            if all_told(look.jobs.as_slice()) {
                return Ok(look);
            }
            if turn >= UNTOLD {
                return checked(host, path, look);
            }
            drop(look);
        }
        thread::sleep(host, Duration::from_millis(BETWEEN));
    }
    let _written = eprintln!(host;
        "jobctl: apply: {path}: it does not exist or is out of date, so it does not say what is loaded"
    );
    Err(Stop::Told(NO_ANSWER))
}

// A launcher of an earlier version does not report the definition of any job.
fn checked(host: &HostRuntime, path: &str, look: Look) -> Result<Look, Stop> {
    for job in &look.jobs {
        if !job.digest.is_empty() {
            return Ok(look);
        }
    }
    drop(look);
    match stale(host, path, "its launcher does not report job definitions") {
        Ok(()) => Err(Stop::Told(NO_ANSWER)),
        Err(stop) => Err(stop),
    }
}

fn all_told(jobs: &[ReportedJob]) -> bool {
    for job in jobs {
        if job.digest.is_empty() {
            return false;
        }
    }
    true
}

// None: the file may be out of date.
fn look_once(
    host: &HostRuntime,
    alloc: Global,
    client: &mut Client,
    path: &str,
    places: &Option<Places>,
    asked: &io::Result<SystemTime>,
) -> Result<Option<Look>, Stop> {
    match currency_of(host, path, asked) {
        Currency::Written => {}
        Currency::Behind => return Ok(None),
        Currency::Old(length) => {
            for _ in 0..length / IN_ONE_PASS + MORE_PASSES {
                drop(client.list(host, alloc)?);
            }
            if let Currency::Behind = currency_of(host, path, asked) {
                return Ok(None);
            }
        }
    }
    let standing = standing_at(host, alloc, path)?;
    check_launcher(host, path, &standing, places)?;
    let jobs = jobs_of(alloc, standing.jobs())?;
    let replied = client.list(host, alloc)?;
    if !have_labels(jobs.as_slice(), replied.text.as_str()) {
        return Ok(None);
    }
    Ok(Some(Look { jobs, standing }))
}

fn standing_at(host: &HostRuntime, alloc: Global, path: &str) -> Result<StatusRead, Stop> {
    match read_standing(host, alloc, path, &[]) {
        Ok(standing) => Ok(standing),
        Err(diagnostic) => Err(print_diagnostic(host, path, diagnostic)),
    }
}

fn print_diagnostic(host: &HostRuntime, path: &str, diagnostic: Diagnostic) -> Stop {
    let _written = match diagnostic {
        Diagnostic::NoMemory | Diagnostic::Line(_, StatusFault::NoMemory) => return Stop::NoMemory,
        Diagnostic::Read(error) => eprintln!(host; "jobctl: apply: {path}: {error}"),
        _ => eprintln!(host; "jobctl: apply: {path}: it is not a complete status file"),
    };
    Stop::Told(NO_ANSWER)
}

// Whether the file has all that held when it was asked for. It was written after that, or a second and more before: then a launcher whose passes are not
// late would have written it again.
#[derive(Clone, Copy)]
enum Currency {
    Written,
    /// Of this number of bytes.
    Old(u64),
    Behind,
}

fn currency_of(host: &HostRuntime, path: &str, asked: &io::Result<SystemTime>) -> Currency {
    let (Ok(asked), Ok(now)) = (asked, SystemTime::now(host)) else {
        return Currency::Behind;
    };
    let data = match fs::metadata(host, path) {
        Ok(data) => data,
        // A launcher that begins has not written it yet. Whoever reads the file reports what else keeps it from being read.
        Err(error) if error.kind() == ErrorKind::NotFound => return Currency::Behind,
        Err(_) => return Currency::Written,
    };
    let Ok(written) = data.modified() else {
        return Currency::Behind;
    };
    if written.duration_since(*asked).is_ok() {
        return Currency::Written;
    }
    match now.duration_since(written) {
        Ok(age) if age >= Duration::from_millis(BEHIND) => Currency::Old(data.len()),
        _ => Currency::Behind,
    }
}

// The file must be that of a running launcher, and of the one at the socket.
fn check_launcher(
    host: &HostRuntime,
    path: &str,
    standing: &StatusRead,
    places: &Option<Places>,
) -> Result<(), Stop> {
    let Some(launcher) = standing.launcher() else {
        return stale(host, path, "it does not name a launcher");
    };
    if !standing.may_live() {
        return stale(host, path, "the launcher that wrote it has exited");
    }
    match places {
        Some(places) if !is_of(places, &launcher) => {
            stale(host, path, "another launcher wrote it")
        }
        _ => Ok(()),
    }
}

fn is_of(places: &Places, launcher: &LauncherStatus<'_>) -> bool {
    places.pid == launcher.pid && places.began == launcher.began
}

fn stale(host: &HostRuntime, path: &str, why: &str) -> Result<(), Stop> {
    let _written = eprintln!(host;
        "jobctl: apply: {path}: {why}, so it does not say what is loaded"
    );
    Err(Stop::Told(NO_ANSWER))
}

// Whether the lines of a list, each with its label after the last tab, are those of these jobs.
fn have_labels(jobs: &[ReportedJob], list: &str) -> bool {
    let mut count: usize = 0;
    for line in list.lines().skip(1) {
        let label = match line.rsplit_once('\t') {
            Some((_, label)) => label,
            None => line,
        };
        if index_of_job(jobs, label).is_none() {
            return false;
        }
        count = count.saturating_add(1);
    }
    count == jobs.len()
}

/// The index of the job of this label.
pub(crate) fn index_of_job(jobs: &[ReportedJob], label: &str) -> Option<usize> {
    let place = jobs.partition_point(|job| job.label.as_str() < label);
    match jobs.get(place) {
        Some(job) if job.label.as_str() == label => Some(place),
        _ => None,
    }
}

/// The job of this label.
pub(crate) fn job_of<'a>(jobs: &'a [ReportedJob], label: &str) -> Option<&'a ReportedJob> {
    jobs.get(index_of_job(jobs, label)?)
}

fn jobs_of(alloc: Global, lines: &[StatusLine]) -> Result<Vec<ReportedJob>, AllocError> {
    let mut jobs = Vec::new(alloc);
    for line in lines {
        add_job(alloc, line, &mut jobs)?;
    }
    Ok(jobs)
}

fn add_job(
    alloc: Global,
    line: &StatusLine,
    jobs: &mut Vec<ReportedJob>,
) -> Result<(), AllocError> {
    let (Ok(status), Ok(entries)) = (line.job(), line.calendar(alloc)) else {
        return Err(AllocError);
    };
    let has_calendar = !entries.is_empty();
    drop(entries);
    let job = job_with(alloc, &status, has_calendar)?;
    jobs.push(job)?;
    Ok(())
}

fn job_with(
    alloc: Global,
    status: &JobStatus<'_>,
    has_calendar: bool,
) -> Result<ReportedJob, AllocError> {
    let state = state_of(&status.facts.reasons);
    let since = match status.note.started {
        Some(at) => at.wall,
        None => 0,
    };
    Ok(ReportedJob {
        label: String::from_str(alloc, status.label)?,
        digest: String::from_str(alloc, status.note.definition.unwrap_or(""))?,
        is_running: !matches!(state, JobState::Idle),
        is_kept_alive: is_kept_alive(status, has_calendar),
        is_going: matches!(state, JobState::Removing),
        is_disabled: matches!(status.disabled, Some(DisabledBy::Override)),
        has_disabled: matches!(status.disabled, Some(DisabledBy::Definition)),
        was_applied: false,
        run: status.note.run,
        since,
        exit_time_out: status.keys.exit_time_out,
        wants_before: false,
        before: None,
        was_disabled: false,
    })
}

// Whether something keeps it alive, and it has no schedule.
fn is_kept_alive(status: &JobStatus<'_>, has_calendar: bool) -> bool {
    let keys = &status.keys;
    let has_condition = keys.successful_exit.is_some()
        || keys.crashed.is_some()
        || keys.path_state.count > 0;
    let has_clock = has_calendar || keys.start_interval.is_some();
    (status.facts.reasons.wants.keep_alive || has_condition) && !has_clock
}

// Checks the status file that the places file names. It is opened only if it is a plain file of the launcher's user; it may be missing yet.
fn check_status(host: &HostRuntime, path: &str, user: u32) -> Result<(), Stop> {
    match check_own_file(host, path, user) {
        Ok(()) => Ok(()),
        Err(error) if error.kind() == ErrorKind::NotFound => Ok(()),
        Err(error) => {
            let _written = eprintln!(host; "jobctl: apply: {path}: {error}");
            drop(error);
            Err(Stop::Told(NO_ANSWER))
        }
    }
}

/// Where the status file is: by the variable, else by the places file next to the socket.
pub(crate) fn status_path(
    host: &HostRuntime,
    alloc: Global,
    socket: &str,
    places: &Option<Places>,
    user: u32,
) -> Result<String, Stop> {
    if let Some(path) = named_path(host, &None::<Text>)? {
        return Ok(path);
    }
    match places {
        Some(
            Places {
                status_file: Some(path),
                ..
            },
        ) => {
            check_status(host, path.as_str(), user)?;
            Ok(String::from_str(alloc, path.as_str())?)
        }
        _ => {
            let _written = eprintln!(host;
                "jobctl: apply: the launcher at {socket} has no status file (JOBD_STATUS_FILE), so it is not known what is loaded"
            );
            Err(Stop::Told(NO_ANSWER))
        }
    }
}
