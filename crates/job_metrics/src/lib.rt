//! The state of a launcher and its jobs, as the text that Prometheus reads (its text-based format 0.0.4). Each family has a text on what it is, and a
//! line a sample.
#![tactic(auto)]

ghost use Rattle.std.specs.Prelude.{◌≡◌, ◌++◌, [], false, IfOk, IsOk, string_bytes, chars, encode_utf8};
ghost use Rattle.run_times.specs.Written.{Adds};
ghost use Rattle.job_metrics.specs.Samples.{family_name, family_kind, family_help, head_text, flag_value, job_value, escape, hex_digit, label_char, label_text, sample_text, samples_text, bare_sample, family_text, families_text, launcher_text, launcher_samples, metrics_text};

use plain_text::is_hidden;
use run_times::{Piece, TextWriter};
use std::alloc::{AllocError, Global};

/// What a monitor asks of a launcher.
#[derive(Clone, Copy)]
pub struct LauncherSample {
    /// Whether its process is running. None if that is not known.
    pub is_up: Option<bool>,
    /// Whether its journal is open. None if it writes none.
    pub journal_is_open: Option<bool>,
    /// As of when this was written, in seconds of Unix time.
    pub told: u64,
    /// How many definitions its boot left out. None if that is not known.
    pub left_out: Option<u64>,
    /// Since which second of Unix time the counts of jobs go on. None: each since its job's load.
    pub counted_since: Option<u64>,
    /// How many calls for its jobs the system refused since the launcher began. None if that is not known.
    pub failed_calls: Option<u64>,
}

/// What a monitor asks of a job.
#[derive(Clone, Copy)]
pub struct JobSample<'a> {
    pub label: &'a str,
    /// Whether a run of it is running.
    pub is_running: bool,
    /// How many starts were ordered, refused ones too.
    pub starts: u64,
    /// How many of its runs failed.
    pub failures: u64,
    /// How many of its starts the system refused.
    pub refusals: u64,
    /// When its last run ended, in seconds of Unix time. None if none has.
    pub last_end: Option<u64>,
    /// When time alone starts it next. None if it does not.
    pub next_start: Option<u64>,
    /// When a run of it last exited with code 0, in seconds of Unix time. None if none has.
    pub last_success: Option<u64>,
    /// How its last run ended: its exit code, or 128 and the number of the signal. None if none has.
    pub last_exit: Option<u64>,
    /// The bytes of its process in memory, and the seconds of processor time that this took. None if they are not known.
    pub resident: Option<u64>,
    pub processor: Option<u64>,
    /// Whether its label is disabled.
    pub is_disabled: bool,
}

/// What the samples of one name say.
#[derive(Clone, Copy)]
pub enum Family {
    Up,
    JournalOpen,
    Told,
    LeftOut,
    CountedSince,
    FailedCalls,
    Running,
    Starts,
    Failures,
    Refusals,
    LastEnd,
    NextStart,
    LastSuccess,
    LastExit,
    Resident,
    Processor,
    Disabled,
}

/// The families that have a sample for each job, in the order of the text.
const OF_JOBS: [Family; 11] = [
    Family::Running,
    Family::Starts,
    Family::Failures,
    Family::Refusals,
    Family::LastEnd,
    Family::NextStart,
    Family::LastSuccess,
    Family::LastExit,
    Family::Resident,
    Family::Processor,
    Family::Disabled,
];

fn family_name(family: Family) -> &'static str
    ensures { result.now ≡ family_name family }
{
    match family {
        Family::Up => "jobd_up",
        Family::JournalOpen => "jobd_journal_open",
        Family::Told => "jobd_status_timestamp_seconds",
        Family::LeftOut => "jobd_definitions_not_loaded",
        Family::CountedSince => "jobd_counted_since_timestamp_seconds",
        Family::FailedCalls => "jobd_edge_failures_total",
        Family::Running => "jobd_job_running",
        Family::Starts => "jobd_job_starts_total",
        Family::Failures => "jobd_job_failures_total",
        Family::Refusals => "jobd_job_refused_total",
        Family::LastEnd => "jobd_job_last_end_timestamp_seconds",
        Family::NextStart => "jobd_job_next_start_timestamp_seconds",
        Family::LastSuccess => "jobd_job_last_success_timestamp_seconds",
        Family::LastExit => "jobd_job_last_exit_code",
        Family::Resident => "jobd_job_resident_bytes",
        Family::Processor => "jobd_job_cpu_seconds_total",
        Family::Disabled => "jobd_job_disabled",
    }
}

fn family_kind(family: Family) -> &'static str
    ensures { result.now ≡ family_kind family }
{
    match family {
        Family::Starts | Family::Failures | Family::Refusals | Family::Processor => "counter",
        Family::FailedCalls => "counter",
        _ => "gauge",
    }
}

fn family_help(family: Family) -> &'static str
    ensures { result.now ≡ family_help family }
{
    match family {
        Family::Up => "Whether the launcher is running.",
        Family::JournalOpen => "Whether the journal of the launcher is open.",
        Family::Told => "When the launcher wrote the status file.",
        Family::LeftOut => "Job definitions that were not loaded at boot, nor since.",
        Family::CountedSince =>
            "Since when starts, failures and refused starts are counted. Absent if since each load.",
        Family::FailedCalls =>
            "Calls of the launcher for its jobs that failed since it began, as starts and path checks.",
        Family::Running => "Whether a run of the job is running.",
        Family::Starts => "Starts that were ordered, including refused ones.",
        Family::Failures =>
            "Runs that failed: they exited with a code above 0, or by a signal that the launcher did not give.",
        Family::Refusals => "Starts that the system refused.",
        Family::LastEnd => "When the last run of the job exited.",
        Family::NextStart => "When the job is scheduled to start next.",
        Family::LastSuccess => "When a run of the job last exited with code 0.",
        Family::LastExit =>
            "The exit code of the last run of the job, or 128 plus the signal that killed it.",
        Family::Resident => "The resident memory of the process of the job.",
        Family::Processor => "The processor time that the process of the job has used.",
        Family::Disabled => "Whether the label of the job is disabled.",
    }
}

// What a family says of a job. None if it has nothing to say.
fn job_value(family: Family, job: &JobSample<'_>) -> Option<u64>
    ensures { result ≡ job_value family job.now }
{
    match family {
        Family::Running => flag_value(Some(job.is_running)),
        Family::Starts => Some(job.starts),
        Family::Failures => Some(job.failures),
        Family::Refusals => Some(job.refusals),
        Family::LastEnd => job.last_end,
        Family::NextStart => job.next_start,
        Family::LastSuccess => job.last_success,
        Family::LastExit => job.last_exit,
        Family::Resident => job.resident,
        Family::Processor => job.processor,
        Family::Disabled => flag_value(Some(job.is_disabled)),
        _ => None,
    }
}

fn put_head(writer: &mut TextWriter, family: Family)
    ensures { Adds (head_text family) writer.old writer.new }
{
    let name = Piece::Text(family_name(family));
    writer.put_all(&[
        Piece::Text("# HELP "),
        name,
        Piece::Text(" "),
        Piece::Text(family_help(family)),
        Piece::Text("\n# TYPE "),
        name,
        Piece::Text(" "),
        Piece::Text(family_kind(family)),
        Piece::Text("\n"),
    ]);
}

// A label between the quotes of a sample: a text of others, with its backslashes and quotes escaped, and a hidden character by its number, as in JSON.
fn put_label(writer: &mut TextWriter, label: &str)
    ensures { Adds (label_text (chars label.now)) writer.old writer.new }
{
    for c in label.chars() {
        put_label_char(writer, c);
    }
}

fn put_label_char(writer: &mut TextWriter, c: char)
    ensures { Adds (label_char c) writer.old writer.new }
{
    if is_hidden(c) {
        put_escape(writer, u32::from(c));
    } else {
        if c == '\\' || c == '"' {
            writer.put("\\");
        }
        writer.put_char(c);
    }
}

// A character by its number: each that is hidden has four digits at most. The format has no such escape, so its backslash is escaped.
fn put_escape(writer: &mut TextWriter, c: u32)
    ensures { Adds (escape c) writer.old writer.new }
{
    writer.put("\\\\u");
    put_digit(writer, c / 4096);
    put_digit(writer, c / 256);
    put_digit(writer, c / 16);
    put_digit(writer, c);
}

fn put_digit(writer: &mut TextWriter, number: u32)
    ensures { Adds (encode_utf8 (hex_digit number)) writer.old writer.new }
{
    let digit = (number % 16) as u8;
    writer.put_char(char::from(if digit < 10 {
        b'0' + digit
    } else {
        b'W' + digit
    }));
}

fn put_sample(writer: &mut TextWriter, family: Family, job: &JobSample<'_>)
    ensures { Adds (sample_text family job.now) writer.old writer.new }
{
    if let Some(value) = job_value(family, job) {
        writer.put_all(&[Piece::Text(family_name(family)), Piece::Text("{label=\"")]);
        put_label(writer, job.label);
        writer.put_all(&[Piece::Text("\"} "), Piece::Number(value), Piece::Text("\n")]);
    }
}

fn put_family(writer: &mut TextWriter, family: Family, jobs: &[JobSample<'_>])
    ensures { Adds (family_text jobs.now family) writer.old writer.new }
{
    put_head(writer, family);
    put_samples(writer, family, jobs);
}

fn put_samples(writer: &mut TextWriter, family: Family, jobs: &[JobSample<'_>])
    ensures { Adds (samples_text family jobs.now) writer.old writer.new }
{
    for job in jobs {
        put_sample(writer, family, job);
    }
}

fn put_families(writer: &mut TextWriter, families: &[Family], jobs: &[JobSample<'_>])
    ensures { Adds (families_text jobs.now families.now) writer.old writer.new }
{
    for family in families {
        put_family(writer, *family, jobs);
    }
}

// A family with the one sample of the launcher; nothing, if there is none.
fn put_single(writer: &mut TextWriter, family: Family, value: Option<u64>)
    ensures { Adds (launcher_text family value) writer.old writer.new }
{
    if let Some(value) = value {
        put_head(writer, family);
        put_value(writer, family, value);
    }
}

fn put_value(writer: &mut TextWriter, family: Family, value: u64)
    ensures { Adds (bare_sample family value) writer.old writer.new }
{
    writer.put_all(&[
        Piece::Text(family_name(family)),
        Piece::Text(" "),
        Piece::Number(value),
        Piece::Text("\n"),
    ]);
}

/// The text of all samples: of the launcher, then of each job by families.
pub fn metrics(
    alloc: Global,
    launcher: &LauncherSample,
    jobs: &[JobSample<'_>],
) -> Result<String, AllocError>
    ensures { IfOk result (λ text. string_bytes text ≡ metrics_text launcher.now jobs.now) }
{
    let mut writer = TextWriter::new(alloc);
    put_launcher(&mut writer, launcher);
    put_families(&mut writer, &OF_JOBS, jobs);
    writer.into_text()
}

fn put_launcher(writer: &mut TextWriter, launcher: &LauncherSample)
    ensures { Adds (launcher_samples launcher.now) writer.old writer.new }
{
    put_single(writer, Family::Up, flag_value(launcher.is_up));
    put_single(
        writer,
        Family::JournalOpen,
        flag_value(launcher.journal_is_open),
    );
    put_single(writer, Family::Told, Some(launcher.told));
    put_single(writer, Family::LeftOut, launcher.left_out);
    put_single(writer, Family::CountedSince, launcher.counted_since);
    put_single(writer, Family::FailedCalls, launcher.failed_calls);
}

fn flag_value(flag: Option<bool>) -> Option<u64>
    ensures { result ≡ flag_value flag }
{
    match flag {
        Some(true) => Some(1),
        Some(false) => Some(0),
        None => None,
    }
}
