//! What the sources of a launcher say of a label together: its status file has the present, and its journal the past.

ghost use Rattle.std.specs.Prelude.{◌≡◌};
ghost use Rattle.scope.specs.Joined.{disabled_joined, disabled_now, is_later, or_definition, reason_joined, refused_in, runs_joined, setting_in, setting_told, since_else, since_setting, since_told, start_joined};

use crate::journal::job::JobRequest;
use crate::journal::labels::DisabledBy;
use crate::journal::reader::OpenJournal;
use crate::known_runs::KnownRuns;
use history_model::Reading;
use run_log::RefusedStart;
use status_file::{DisabledBy as DisabledNow, JobStatus, StatusLine};
use status_page::{StatusRead, reading_of};

/// By what a label is disabled.
#[derive(Clone, Copy)]
pub(crate) enum Disabled {
    /// A client disabled it by this request, at this clock reading.
    Client(JobRequest, Reading),
    /// By a setting of which the status file has the clock reading alone.
    Since(Reading),
    /// By a setting that the journal begins with.
    Before,
    /// By a setting of which nothing more is known.
    Unknown,
    /// By its definition, which has `Disabled`.
    Definition,
}

/// What a status file says of a label of which it has the job.
#[derive(Clone, Copy)]
pub(crate) struct LabelNow<'a> {
    /// The clock reading at which it was written.
    pub(crate) at: Reading,
    pub(crate) disabled: Option<DisabledNow>,
    /// When its setting was written first.
    pub(crate) disabled_at: Option<Reading>,
    /// The last start that was refused.
    pub(crate) refused: Option<RefusedStart<'a>>,
}

/// What a journal says of the setting of a label.
#[derive(Clone, Copy)]
pub(crate) struct LabelPast {
    /// The clock reading of its last event.
    pub(crate) last: Reading,
    pub(crate) disabled: Option<DisabledBy>,
}

impl<'a> LabelNow<'a> {
    /// By a job of a file with this clock reading.
    pub(crate) fn of(job: &JobStatus<'a>, at: Reading) -> LabelNow<'a> {
        LabelNow {
            at,
            disabled: job.disabled,
            disabled_at: job.note.disabled_at,
            refused: job.note.refused,
        }
    }
}

/// What the status file says of the label, if one was read, and if it has the job.
pub(crate) fn label_now<'a>(standing: Option<&'a StatusRead>, label: &str) -> Option<LabelNow<'a>> {
    let standing = standing?;
    let line = line_with(standing.jobs(), label)?;
    match line.job() {
        Ok(job) => Some(LabelNow::of(&job, reading_of(standing))),
        Err(_) => None,
    }
}

/// The line of the job with this label among lines that are in the order of their labels.
pub(crate) fn line_with<'a>(lines: &'a [StatusLine], label: &str) -> Option<&'a StatusLine> {
    let line = lines.get(lines.partition_point(|line| is_below(line, label)))?;
    match line.job() {
        Ok(job) if job.label == label => Some(line),
        _ => None,
    }
}

fn is_below(line: &StatusLine, label: &str) -> bool {
    match line.job() {
        Ok(job) => job.label < label,
        Err(_) => false,
    }
}

/// What the journal says of the setting of the label, if one was read.
pub(crate) fn label_past(journal: Option<&OpenJournal>, label: &str) -> Option<LabelPast> {
    let journal = journal?;
    Some(LabelPast {
        last: journal.table.reading(),
        disabled: journal.past.labels.of(label).disabled,
    })
}

/// By what a label is disabled, if it is, by the sources that were read.
pub(crate) fn disabled_joined(
    past: Option<LabelPast>,
    file: Option<LabelNow<'_>>,
) -> Option<Disabled>
    ensures { result ≡ disabled_joined past file.entry }
{
    let setting = setting_in(past);
    match file {
        None => setting,
        Some(file) if is_later(past, file) => {
            disabled_now(file.disabled, file.disabled_at, setting)
        }
        Some(file) => or_definition(setting, file.disabled),
    }
}

fn setting_in(past: Option<LabelPast>) -> Option<Disabled>
    ensures { result ≡ setting_in past }
{
    match past {
        Some(past) => setting_told(past.disabled),
        None => None,
    }
}

/// By what a label is disabled by a journal, if a setting does it.
pub(crate) fn setting_told(disabled: Option<DisabledBy>) -> Option<Disabled>
    ensures { result ≡ setting_told disabled }
{
    match disabled {
        Some(DisabledBy::Client(asked, at)) => Some(Disabled::Client(asked, at)),
        Some(DisabledBy::Header) => Some(Disabled::Before),
        None => None,
    }
}

// Whether the status file is later than the journal's last event.
fn is_later(past: Option<LabelPast>, file: LabelNow<'_>) -> bool
    ensures { result ≡ is_later past file.entry }
{
    match past {
        Some(past) => past.last.up < file.at.up,
        None => true,
    }
}

fn disabled_now(
    disabled: Option<DisabledNow>,
    at: Option<Reading>,
    setting: Option<Disabled>,
) -> Option<Disabled>
    ensures { result ≡ disabled_now disabled at setting }
{
    match disabled {
        Some(DisabledNow::Definition) => Some(Disabled::Definition),
        Some(DisabledNow::Override) => Some(since_told(setting, at)),
        None => None,
    }
}

fn since_told(setting: Option<Disabled>, at: Option<Reading>) -> Disabled
    ensures { result ≡ since_told setting at }
{
    match setting {
        Some(setting) => since_setting(setting, at),
        None => since_else(at, Disabled::Unknown),
    }
}

fn since_setting(setting: Disabled, at: Option<Reading>) -> Disabled
    ensures { result ≡ since_setting setting at }
{
    match setting {
        Disabled::Client(asked, by) => Disabled::Client(asked, by),
        before => since_else(at, before),
    }
}

fn since_else(at: Option<Reading>, other: Disabled) -> Disabled
    ensures { result ≡ since_else at other }
{
    match at {
        Some(at) => Disabled::Since(at),
        None => other,
    }
}

fn or_definition(setting: Option<Disabled>, file: Option<DisabledNow>) -> Option<Disabled>
    ensures { result ≡ or_definition setting file }
{
    match (setting, file) {
        (Some(setting), _) => Some(setting),
        (None, Some(DisabledNow::Definition)) => Some(Disabled::Definition),
        (None, _) => None,
    }
}

impl Disabled {
    /// Since when, if that is known.
    pub(crate) fn since(self) -> Option<Reading> {
        match self {
            Disabled::Client(_, at) | Disabled::Since(at) => Some(at),
            Disabled::Before | Disabled::Unknown | Disabled::Definition => None,
        }
    }
}

/// The runs of a journal; if its last start was refused, with the reason that the status file has of that start.
pub(crate) fn runs_joined<'a>(runs: KnownRuns<'a>, file: Option<LabelNow<'a>>) -> KnownRuns<'a>
    ensures { result ≡ runs_joined runs.entry file.entry }
{
    let mut joined = runs;
    joined.refused = match runs.refused {
        Some(start) => Some(start_joined(start, refused_in(file))),
        None => None,
    };
    joined
}

fn refused_in<'a>(file: Option<LabelNow<'a>>) -> Option<RefusedStart<'a>>
    ensures { result ≡ refused_in file.entry }
{
    match file {
        Some(file) => file.refused,
        None => None,
    }
}

fn start_joined<'a>(start: RefusedStart<'a>, other: Option<RefusedStart<'a>>) -> RefusedStart<'a>
    ensures { result ≡ start_joined start.entry other.entry }
{
    match other {
        Some(other) if other.run == start.run => RefusedStart {
            reason: other.reason,
            ..start
        },
        _ => start,
    }
}

/// What the system said of the start with this number that was refused at this clock reading by a journal, if the status file has the same start. It
/// keeps the last refused start of a job alone.
pub(crate) fn reason_joined<'a>(
    run: u64,
    at: Reading,
    other: Option<RefusedStart<'a>>,
) -> Option<&'a str>
    ensures { result ≡ reason_joined run at other.entry }
{
    match other {
        Some(other) if other.run == run && other.at.up == at.up => other.reason,
        _ => None,
    }
}

/// The reason of the status file of a start of the label that was refused by a journal.
pub(crate) fn reason_beside<'a>(
    standing: Option<&'a StatusRead>,
    label: &str,
    run: u64,
    at: Reading,
) -> Option<&'a str> {
    reason_joined(run, at, refused_in(label_now(standing, label)))
}

/// Which sources of a launcher were read.
#[derive(Clone, Copy)]
pub(crate) enum SourcesRead {
    /// Its journal and its status file.
    Both,
    JournalAlone,
    FileAlone,
    /// Its status file alone, since its journal has too many bytes.
    FileOfLongJournal,
    /// Its status file alone, which has all that is asked for.
    FileEnough,
}

/// Which sources were read, as a line of the head, and what is not known without the other one.
pub(crate) fn sources_said(sources: SourcesRead) -> &'static str {
    match sources {
        SourcesRead::Both => "Its journal and its status file were read.\n",
        SourcesRead::JournalAlone => {
            "Its journal alone was read: why starts were refused, what runs left running, and what the boot left out are not known.\n"
        }
        SourcesRead::FileAlone => {
            "Its status file alone was read: refused loads, who disabled a label, and unsupported conditions are not known.\n"
        }
        SourcesRead::FileOfLongJournal => {
            "Its status file alone was read, since its journal has more than 32 MiB: refused loads, who disabled a label, and unsupported conditions are not known.\n"
        }
        SourcesRead::FileEnough => "Its status file was read.\n",
    }
}

/// The same for coming starts.
pub(crate) fn sources_of_next(sources: SourcesRead) -> &'static str {
    match sources {
        SourcesRead::Both => "Its journal and its status file were read.\n",
        SourcesRead::JournalAlone => {
            "Its journal alone was read: what the boot left out is not known.\n"
        }
        SourcesRead::FileAlone => {
            "Its status file alone was read: jobs that were loaded in the last two seconds may be missing.\n"
        }
        SourcesRead::FileOfLongJournal => {
            "Its status file alone was read, since its journal has more than 32 MiB: jobs that were loaded in the last two seconds may be missing.\n"
        }
        SourcesRead::FileEnough => "Its status file was read.\n",
    }
}
