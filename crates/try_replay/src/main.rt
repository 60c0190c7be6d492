//! Replays worked inputs, and then one journal over readers and writers that cut it anywhere and fail at every turn. It prints the name of
//! each input whose outcomes and exit status are as expected, and of each kind of trial that ended as it must. A failed read must leave the
//! outcome lines of the lines before, a failed write a front. For any other it prints what differs, too. Then it counts the minutes and the
//! calendars of 400 days. At last it replays standard input as `jobd replay` does, and exits with its status.
//!
//! With the argument `time` it only counts, and writes how long each count took. With `look` it only replays standard input: `make run`
//! builds it for that, in a fraction of the time that the whole of `jobd` takes.
#![tactic(auto)]

mod calendars;
mod journal;
mod judge;
mod long;
mod sink;
mod source;
mod stored;
mod trials;

use replay::replay_input;
use std::process::ExitCode;
use std::{env, io};

/// Tries what its arguments ask for, and returns whether standard input is to be replayed.
fn tries(rt: &HostRuntime) -> io::Result<bool> {
    let mut is_timed = false;
    let mut is_look = false;
    for word in env::args(rt)? {
        is_timed = word.as_str() == "time";
        is_look = word.as_str() == "look";
    }
    if is_look {
        return Ok(true);
    }
    if !is_timed {
        stored::judge_all(rt)?;
        long::judge_all(rt)?;
        trials::try_all(rt)?;
    }
    calendars::count_all(rt, rt.alloc(), is_timed)?;
    Ok(!is_timed)
}

fn main(rt: HostRuntime) -> ExitCode {
    match tries(&rt) {
        Ok(true) => ExitCode::from(replay_input(&rt)),
        Ok(false) => ExitCode::SUCCESS,
        Err(_) => ExitCode::FAILURE,
    }
}
