//! The coming starts of calendars and intervals, in the order of time.

ghost use Rattle.std.specs.Prelude.{◌≡◌, IfOk};
ghost use Rattle.job_defs.specs.Keys.{def_of};
ghost use Rattle.definition_files.specs.Reads.{AreVerdicts, Reads, ReadsOne, load_verdict, starts_status};

use crate::coming::{calendar_after, interval_after};
use crate::files::{Contents, DefinitionQuery, DefinitionSource};
use crate::verdict::{Verdict, Verdicts};
use calendar_due::Zone;
use files_and_process::path_files::Found;
use history_model::Reading;
use job_defs::{Def, DefFault, read_def};
use json_lines::{Field, Value, put_line};
use run_times::Filling::Moment;
use run_times::Piece::{Number, Text};
use run_times::telling::{Outcome, tell_line, tell_of};
use run_times::{Filling, Page, TextWriter};
use std::alloc::{AllocError, Global};

/// A definition, and when the clock wants it next: by an entry of its calendar, and by its interval.
#[derive(Drop)]
struct NextStarts {
    def: Def,
    by_calendar: Option<u64>,
    by_interval: Option<u64>,
}

/// The next `count` starts of the definitions, in the order of time, each after the second. Each file is read once. An interval is counted from
/// the second, as if the job were loaded then. The status is 65 if a file can't be read or is not a definition: the others' starts are written
/// all the same. A job that the clock never starts is reported.
pub fn coming_starts<S: DefinitionSource>(
    host: &HostRuntime,
    alloc: Global,
    source: &mut S,
    files: &[Found],
    of: &DefinitionQuery<'_>,
    count: u64,
) -> Result<Outcome, AllocError>
    ensures status { IfOk result (λ outcome. Reads files.now
        (λ found. outcome.status ≡ starts_status found) (S.told source.old) (S.told source.new)) }
{
    let mut jobs = Vec::new(alloc);
    let added = add_jobs(host, alloc, source, files, of, &mut jobs);
    tell_never(host, files, jobs.as_slice());
    let text = starts_text(alloc, count, of, &mut jobs);
    drop(jobs);
    match (added, text) {
        (Ok(verdicts), Ok(text)) => Ok(Outcome {
            text,
            status: verdicts.starts_status(),
        }),
        (_, text) => {
            drop(text);
            Err(AllocError)
        }
    }
}

// Adds the jobs of the files, and returns the verdicts on them.
fn add_jobs<S: DefinitionSource>(
    host: &HostRuntime,
    alloc: Global,
    source: &mut S,
    files: &[Found],
    of: &DefinitionQuery<'_>,
    jobs: &mut Vec<NextStarts>,
) -> Result<Verdicts, AllocError>
    ensures { IfOk result (λ verdicts. Reads files.now (AreVerdicts verdicts)
        (S.told source.old) (S.told source.new)) }
{
    let mut verdicts = Verdicts::none();
    for file in files {
        match add_job(host, alloc, source, of, file, jobs) {
            Ok(verdict) => verdicts = verdicts.with(verdict),
            Err(error) => return Err(error),
        }
    }
    Ok(verdicts)
}

// Adds the file's job, if it has one. A fault was reported.
fn add_job<S: DefinitionSource>(
    host: &HostRuntime,
    alloc: Global,
    source: &mut S,
    of: &DefinitionQuery<'_>,
    file: &Found,
    jobs: &mut Vec<NextStarts>,
) -> Result<Verdict, AllocError>
    ensures { IfOk result (λ verdict. ReadsOne file.now verdict (S.told source.old)
        (S.told source.new)) }
{
    match source.read(alloc, of.longest, file) {
        Ok(Contents::Bytes(bytes)) => {
            let path = file.path.as_str();
            let verdict = add_definition(host, alloc, of, path, bytes.as_slice(), jobs);
            drop(bytes);
            verdict
        }
        Ok(Contents::Unread | Contents::TooLong) => Ok(Verdict::Unread),
        Ok(Contents::Nothing) => Ok(Verdict::Well),
        Err(error) => Err(error),
    }
}

fn add_definition(
    host: &HostRuntime,
    alloc: Global,
    of: &DefinitionQuery<'_>,
    path: &str,
    bytes: &[u8],
    jobs: &mut Vec<NextStarts>,
) -> Result<Verdict, AllocError>
    ensures { IfOk result (λ verdict. verdict ≡ load_verdict (def_of bytes.now)) }
{
    match read_def(alloc, bytes) {
        Ok(def) => {
            jobs.push(job_of(of, def))?;
            Ok(Verdict::Well)
        }
        Err(DefFault::NoMemory) => Err(AllocError),
        Err(fault) => {
            tell_of(host, path, &fault);
            Ok(Verdict::Refused)
        }
    }
}

// When the clock wants the job first.
fn job_of(of: &DefinitionQuery<'_>, def: Def) -> NextStarts {
    let by_calendar = calendar_after(def.calendar(), of.zone, of.from);
    let by_interval = match def.start_interval() {
        Some(every) => interval_after(every, of.from),
        None => None,
    };
    NextStarts {
        def,
        by_calendar,
        by_interval,
    }
}

// Reports how many jobs the clock never starts. For a single file it says why.
fn tell_never(host: &HostRuntime, files: &[Found], jobs: &[NextStarts]) {
    let mut clockless: u64 = 0;
    for job in jobs {
        clockless = clockless.saturating_add(u64::from(second_of(job) == u64::MAX));
    }
    match (files, jobs) {
        ([file], [job]) if clockless > 0 => {
            tell_of(host, file.path.as_str(), &never_words(&job.def));
        }
        _ => tell_clockless(host, "", clockless, jobs.len() as u64),
    }
}

/// Reports how many of the jobs have no schedule, if it is one at least. The name of what has them comes first, if there is one.
pub fn tell_clockless(host: &HostRuntime, name: &str, clockless: u64, jobs: u64) {
    if clockless == 0 {
        return;
    }
    let mut line = TextWriter::new(host.alloc());
    line.put("jobscope: ");
    if !name.is_empty() {
        line.fill("$: ", &[Text(name)]);
    }
    let has = if clockless == 1 { "has" } else { "have" };
    line.fill(
        "$ of $ $ no schedule\n",
        &[Number(clockless), Number(jobs), Text(has)],
    );
    tell_line(host, line);
}

// Why the clock never starts the job.
fn never_words(def: &Def) -> &'static str {
    if def.calendar().is_empty() {
        "neither StartCalendarInterval nor StartInterval starts it"
    } else {
        "no minute of the next 8 years matches StartCalendarInterval"
    }
}

fn starts_text(
    alloc: Global,
    count: u64,
    of: &DefinitionQuery<'_>,
    jobs: &mut Vec<NextStarts>,
) -> Result<String, AllocError> {
    let now = Reading {
        up: 0,
        wall: of.from,
    };
    let mut page = Page::new(alloc, of.zone, now);
    if !of.is_json {
        page.writer.put(of.zone_line);
    }
    for _ in 0..count {
        let index = soonest(jobs.as_slice());
        let Some(job) = jobs.get_mut(index) else {
            break;
        };
        let second = second_of(job);
        let every = interval_of(job, second);
        if of.is_json {
            put_start(&mut page, job.def.label(), second, of.from, every);
        } else {
            add_start(&mut page, job.def.label(), second, every);
        }
        go_on(job, second, of.zone);
    }
    page.into_text()
}

// The seconds of the interval that is over at the second, if one is.
fn interval_of(job: &NextStarts, second: u64) -> Option<u32> {
    if job.by_interval == Some(second) {
        job.def.start_interval()
    } else {
        None
    }
}

// The next start is the one after this second.
fn go_on(job: &mut NextStarts, second: u64, zone: &Zone) {
    if job.by_interval == Some(second) {
        job.by_interval = interval_after(job.def.start_interval().unwrap_or(0), second);
    }
    if job.by_calendar == Some(second) {
        job.by_calendar = calendar_after(job.def.calendar(), zone, second);
    }
}

// The index of the job that the clock wants first, of several the first; the length of the slice if it wants none.
fn soonest(jobs: &[NextStarts]) -> usize {
    let mut found = jobs.len();
    let mut least = u64::MAX;
    let mut index: usize = 0;
    for job in jobs {
        let second = second_of(job);
        if second < least {
            least = second;
            found = index;
        }
        index = index.saturating_add(1);
    }
    found
}

// The second at which the clock wants the job next; the greatest number if it never does.
fn second_of(job: &NextStarts) -> u64 {
    let by_calendar = job.by_calendar.unwrap_or(u64::MAX);
    let by_interval = job.by_interval.unwrap_or(u64::MAX);
    by_calendar.min(by_interval)
}

// Adds the line of a start. An interval is counted from the page's second.
fn add_start(page: &mut Page<'_>, label: &str, second: u64, every: Option<u32>) {
    let from = page.now.wall;
    page.add("$  $  in ", &[Moment(second), Filling::Text(label)]);
    let left = second.saturating_sub(from).saturating_mul(1000);
    page.writer.put_span(left, false);
    if let Some(every) = every {
        let form = " (each $ s from a load at $)";
        page.add(form, &[Filling::Number(u64::from(every)), Moment(from)]);
    }
    page.writer.put("\n");
}

/// Adds a start as an object: the label, when it comes, how far that is from now, and the seconds of the interval that is over then, if one is.
pub fn put_start(page: &mut Page<'_>, label: &str, second: u64, now: u64, every: Option<u32>) {
    let left = second.saturating_sub(now).saturating_mul(1000);
    let every = match every {
        Some(every) => Value::Number(u64::from(every)),
        None => Value::Absent,
    };
    let fields = [
        Field("start", Value::Moment(second)),
        Field("left_ms", Value::Number(left)),
        Field("interval_seconds", every),
    ];
    put_line(page, "label", label, &fields);
}
