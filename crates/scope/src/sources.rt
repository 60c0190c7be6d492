//! What a command reads of a launcher: its status file, or journals.

ghost use Rattle.std.specs.Prelude.{◌≡◌};
ghost use Rattle.scope.specs.Sources.{answers_in, either_unless, found_source, named_source, source_found, status_source, why_source};

use launchctl_words::ScopeTask;

/// What is read.
#[derive(Clone, Copy)]
pub(crate) enum Source {
    /// The status file of the arguments.
    NamedFile,
    /// The status file of `JOBD_STATUS_FILE`.
    VariableFile,
    /// The status file of the launcher of `JOBD_SOCKET`, else of the package's.
    LauncherFile,
    /// The journals: of the arguments, else of `JOBD_JOURNAL`, else of that launcher.
    Journals,
}

/// Which sources answer a task.
#[derive(Clone, Copy)]
pub(crate) enum Answers {
    /// A status file alone.
    StatusFile,
    /// A status file as well as journals.
    Either,
    /// Journals alone.
    Journals,
}

/// What the arguments and the variables name.
#[derive(Clone, Copy)]
pub(crate) struct NamedSources {
    /// The arguments name a status file.
    pub(crate) file: bool,
    /// The arguments name a journal, or ask for what only a journal has.
    pub(crate) journal: bool,
    /// `JOBD_STATUS_FILE` names a file.
    pub(crate) variable_file: bool,
    /// `JOBD_JOURNAL` names a journal.
    pub(crate) variable_journal: bool,
}

/// What the task reads of the named ones. None: none that it can read is named.
pub(crate) fn named_source(task: &ScopeTask, named: NamedSources) -> Option<Source>
    ensures { result ≡ named_source task.now named }
{
    match task {
        ScopeTask::Status | ScopeTask::Metrics => source_of_status(named),
        ScopeTask::Why(_) | ScopeTask::Next(_) => source_of_why(named),
        ScopeTask::Check(_)
        | ScopeTask::Log(_)
        | ScopeTask::Runs(_)
        | ScopeTask::Picture(_)
        | ScopeTask::Cron(_)
        | ScopeTask::Plist(_)
        | ScopeTask::Show
        | ScopeTask::Drift => Some(Source::Journals),
    }
}

fn source_of_status(named: NamedSources) -> Option<Source>
    ensures { result ≡ status_source named }
{
    if named.file {
        Some(Source::NamedFile)
    } else if named.variable_file {
        Some(Source::VariableFile)
    } else {
        None
    }
}

fn source_of_why(named: NamedSources) -> Option<Source>
    ensures { result ≡ why_source named }
{
    if named.file {
        Some(Source::NamedFile)
    } else if named.journal {
        Some(Source::Journals)
    } else if named.variable_file {
        Some(Source::VariableFile)
    } else if named.variable_journal {
        Some(Source::Journals)
    } else {
        None
    }
}

/// What the task reads of the launcher, given whether its journal can be opened and goes on, and whether it has a status file. None: nothing.
pub(crate) fn found_source(task: &ScopeTask, opens: bool, has_file: bool) -> Option<Source>
    ensures { result ≡ found_source task.now opens has_file }
{
    match task {
        ScopeTask::Status | ScopeTask::Metrics if has_file => Some(Source::LauncherFile),
        ScopeTask::Status | ScopeTask::Metrics => None,
        ScopeTask::Why(_) | ScopeTask::Next(_) => Some(source_found(opens, has_file)),
        ScopeTask::Check(_)
        | ScopeTask::Log(_)
        | ScopeTask::Runs(_)
        | ScopeTask::Picture(_)
        | ScopeTask::Cron(_)
        | ScopeTask::Plist(_)
        | ScopeTask::Show
        | ScopeTask::Drift => Some(Source::Journals),
    }
}

// The status file only if the journal can't be opened, or is closed.
fn source_found(opens: bool, has_file: bool) -> Source
    ensures { result ≡ source_found opens has_file }
{
    if has_file && !opens {
        Source::LauncherFile
    } else {
        Source::Journals
    }
}

/// Which sources answer the task. `why` at a time is asked of no status file.
pub(crate) fn answers_of(task: &ScopeTask) -> Answers
    ensures { result ≡ answers_in task.now }
{
    match task {
        ScopeTask::Status | ScopeTask::Metrics => Answers::StatusFile,
        ScopeTask::Why(why) => either_unless(why.at.is_some()),
        ScopeTask::Next(_) => Answers::Either,
        ScopeTask::Check(_)
        | ScopeTask::Log(_)
        | ScopeTask::Runs(_)
        | ScopeTask::Picture(_)
        | ScopeTask::Cron(_)
        | ScopeTask::Plist(_)
        | ScopeTask::Show
        | ScopeTask::Drift => Answers::Journals,
    }
}

fn either_unless(is_of_journal: bool) -> Answers
    ensures { result ≡ either_unless is_of_journal }
{
    if is_of_journal {
        Answers::Journals
    } else {
        Answers::Either
    }
}
