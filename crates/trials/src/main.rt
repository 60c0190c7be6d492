//! Tries what no contract says, no line of a journal shows and no proof sees. It tries calls of the crates, the real system, stores, turns, want of
//! memory, and the first runs of `jobd` and `jobctl`. All is in one program, so that the libraries are read and compiled once. Its first argument
//! says what it does; `trials` is all of it, with a line for each list of cases:
//!
//! - `calls`: those over tables of cases. The cases are read off the rules of launchd.plist(5), launchctl(1), crontab(5), signal(7), the shell's
//!   manual and the line protocol, and off no run of this code. The name of a folder of `src/` tries some of them.
//! - `short`: the calls that take memory. It starts itself with that argument and its memory limited by the shell.
//! - `runs`: the first runs of a launcher and its clients (`data/first_runs.py`). They start this file again through links that are named as the
//!   programs are.
//!
//! By any other argument, or none, it is the program that its name means: `jobd` or `jobctl`.
#![tactic(auto)]

mod again;
mod cases;
mod edges;
mod little_memory;
mod memory_stage;
mod parts;
mod rounds;
mod stores;
mod tables;
mod turns;

use crate::cases::Line;
use anyhow::Result;
use control_client::jobctl;
use files_and_process::own_process::{Programs, run_by_name};
use jobd::jobd;
use std::env;
use std::process::ExitCode;
use std::sync::Wait;

/// A list of cases.
#[derive(Clone, Copy)]
enum List {
    Jobs,
    Lines,
    Tables,
    Edges,
    Rounds,
    Stores,
    Turns,
    Journals,
}

fn lines_of(list: List) -> &'static [Line] {
    match list {
        List::Jobs => parts::job_list(),
        List::Lines => parts::lines_list(),
        List::Tables => tables::list(),
        List::Edges => edges::list(),
        List::Rounds => rounds::list(),
        List::Stores => stores::list(),
        List::Turns => turns::launchers::list(),
        List::Journals => turns::journal_lines(),
    }
}

/// All lists, in order.
const CALLS: &[List] = &[
    List::Jobs,
    List::Lines,
    List::Tables,
    List::Edges,
    List::Rounds,
    List::Stores,
    List::Turns,
    List::Journals,
];

#[derive(Clone, Copy)]
enum Task {
    All,
    Calls(&'static [List]),
    Short,
    Runs,
}

static TASKS: &[(&str, Task)] = &[
    ("trials", Task::All),
    ("calls", Task::Calls(CALLS)),
    ("parts", Task::Calls(&[List::Jobs, List::Lines])),
    ("tables", Task::Calls(&[List::Tables])),
    ("edges", Task::Calls(&[List::Edges])),
    ("rounds", Task::Calls(&[List::Rounds])),
    ("stores", Task::Calls(&[List::Stores])),
    ("turns", Task::Calls(&[List::Turns, List::Journals])),
    ("short", Task::Short),
    ("runs", Task::Runs),
];

/// What the first argument asks for, if it is one of these.
fn task_of(rt: &HostRuntime) -> Option<Task> {
    let mut words = env::args(rt).ok()?;
    let first = words.nth(1)?;
    for (word, task) in TASKS {
        if *word == first.as_str() {
            return Some(*task);
        }
    }
    None
}

const SHELL: &str = "/bin/sh";

/// Runs a program again with its memory limited to 512 MB. Linux does not count the stack in this limit, so the stack can still grow when
/// all memory is held.
const WITH_LITTLE: [&str; 2] = ["-c", "ulimit -d 524288 && exec \"$0\" short"];

const PYTHON: &str = "/usr/bin/python3";

/// Makes the first runs of `data/` with a program as each of the two: as their users run them, with real children, files, sockets and clients.
const RUNS: [&str; 2] = ["first_runs.py", "--by"];

/// Tries the calls of these lists with ample memory.
fn try_calls(rt: &HostRuntime, lists: &[List]) -> Result<()> {
    for list in lists {
        cases::try_all(rt, lines_of(*list))?;
    }
    Ok(())
}

fn do_task(rt: &HostRuntime, task: Task) -> Result<()> {
    match task {
        Task::All => {
            try_calls(rt, CALLS)?;
            again::run_by(rt, SHELL, WITH_LITTLE)?;
            again::run_by(rt, PYTHON, RUNS)
        }
        Task::Calls(lists) => try_calls(rt, lists),
        Task::Short => little_memory::try_all(rt),
        Task::Runs => again::run_by(rt, PYTHON, RUNS),
    }
}

/// The exit status of the task. It reports a fault.
fn status_of(rt: &HostRuntime, task: Task) -> u8 {
    match do_task(rt, task) {
        Ok(()) => 0,
        Err(fault) => {
            let _told = eprintln!(rt; "trials: {fault}");
            1
        }
    }
}

struct OneFile;

impl Programs for OneFile {
    fn jobd<L: Wait>(&self, host: &HostRuntime, waits: &L, words: &[String]) -> u8 {
        jobd(host, waits, host.alloc(), words)
    }

    fn jobctl(&self, host: &HostRuntime, words: &[String]) -> u8 {
        jobctl(host, host.alloc(), words)
    }

    // It is not tried here.
    fn jobscope<L: Wait>(&self, _host: &HostRuntime, _waits: &L, _words: &[String]) -> u8 {
        64
    }

    fn look_out(&self, host: &HostRuntime) -> u8 {
        look_out::by_input(host)
    }
}

fn main(rt: HostRuntime) -> ExitCode {
    let status = match task_of(&rt) {
        Some(task) => status_of(&rt, task),
        None => run_by_name(&rt, &rt, &OneFile),
    };
    ExitCode::from(status)
}
