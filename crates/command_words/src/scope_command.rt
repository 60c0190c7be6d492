//! The commands that arguments of `jobscope` can mean.

use crate::command::{Paths, ZoneWords};
use history_model::Text;

/// A subcommand of `jobscope`, with what its arguments say for it alone.
#[derive(Drop)]
pub enum ScopeTask {
    /// Read the definitions as a load would, and say what is wrong with each, and what may be.
    Check(CheckWords),
    /// Show the coming starts of the definitions, or of the loaded jobs.
    Next(NextWords),
    /// Show the state of each job of a launcher, a line a job.
    Status,
    /// Write the same as samples that a monitor reads.
    Metrics,
    /// Say of each job why it runs or not, and what will make it run.
    Why(WhyWords),
    /// Print the journal's events.
    Log(LogWords),
    /// Count each job's runs between two times.
    Runs(SpanWords),
    /// Draw each job's runs over time.
    Picture(PictureWords),
    /// Write a definition for each line of a crontab. The one line `-` stands for those of standard input.
    Cron(CronWords),
    /// Write property lists in XML as definitions in JSON.
    Plist(ListWords),
    /// Show the definitions that are loaded.
    Show,
    /// Compare files of definitions with what is loaded.
    Drift,
}

/// How definitions are checked.
#[derive(Drop)]
pub struct CheckWords {
    /// A warning fails too.
    pub is_strict: bool,
    /// The zone in which calendar entries are looked at.
    pub zone: ZoneWords,
}

/// Which coming starts are shown.
#[derive(Drop)]
pub struct NextWords {
    /// The zone in which the calendar entries of definitions are looked at.
    pub zone: ZoneWords,
    /// Each of the coming starts of loaded jobs, and not the next of each job alone.
    pub is_all: bool,
    /// How many.
    pub count: Option<u64>,
}

/// Of which jobs, and as of when, it is said why they run or not.
#[derive(Drop)]
pub struct WhyWords {
    /// Only failing jobs.
    pub is_failing: bool,
    /// The time of a journal; where absent, now.
    pub at: Option<Text>,
}

/// From when on, and until when, a journal's events are reported.
#[derive(Drop)]
pub struct SpanWords {
    pub since: Option<Text>,
    pub until: Option<Text>,
}

/// Which events are printed.
#[derive(Drop)]
pub struct LogWords {
    /// Those that come later too, as they come.
    pub follows: bool,
    pub span: SpanWords,
}

/// Which runs are drawn, and as what.
#[derive(Drop)]
pub struct PictureWords {
    /// The picture is a whole page by itself.
    pub is_page: bool,
    pub span: SpanWords,
}

/// How the lines of a crontab become definitions.
#[derive(Drop)]
pub struct CronWords {
    /// The lines have a user's field.
    pub has_user: bool,
    /// The folder in which each definition becomes a file.
    pub into: Option<Text>,
    /// The folder in which the output of each job is kept.
    pub logs: Option<Text>,
}

/// Where property lists go.
#[derive(Drop)]
pub struct ListWords {
    /// The folder in which each becomes a file.
    pub into: Option<Text>,
}

/// A subcommand, and the arguments that most of them take. What the subcommand does not take is absent.
#[derive(Drop)]
pub struct ScopeCommand {
    pub task: ScopeTask,
    /// The paths of the journals, which are read as one.
    pub journals: Paths,
    /// The path of a launcher's status file.
    pub status_file: Option<Text>,
    /// The output is objects of JSON, a line each.
    pub is_json: bool,
    /// Times are shown in UTC, and not in the journal's zone; of definitions, if no zone is named: in UTC, and not in the machine's.
    pub is_utc: bool,
    /// The second of Unix time after which starts are shown, from which on the clock is looked at, or that is now in place of the clock's.
    pub from: Option<u64>,
    /// The paths of definitions, the labels of the jobs that are shown (of none, all are), or the lines of a crontab.
    pub words: Paths,
}

/// The meaning of arguments that clap takes.
#[derive(Drop)]
pub enum Meaning {
    Command(ScopeCommand),
    /// They do not form a command, as this text says.
    Wrong(String),
}
