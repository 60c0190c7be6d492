//! Whether a process can serve as it was started, and what it reports of its limits and ignored signals.

use crate::plan::Plan;
use crate::reporting::{Level, report, tell};
use child_edge::{System, room_for};
use exit_status::{CLOCK_OR_WAITING, NO_MEMORY};
use files_and_process::own_process::{ProcessState, Signal, sees_children};
use std::alloc::Global;
use std::io;

/// Status 9 if too few descriptors are allowed, or the exits of children can't be seen. It reports a shell that can't
/// be started.
pub fn check_standing<R: System>(rt: &R, alloc: Global, plan: &Plan) -> Result<(), u8> {
    let level = plan.requested.level;
    if room_for(plan.standing.descriptors, 0) == 0 {
        return Err(refuse_serving(
            rt,
            level,
            "the limit on open files",
            "at least 32 descriptors are needed (ulimit -n)",
        ));
    }
    match sees_children(rt, alloc) {
        Ok(true) => Ok(()),
        Ok(false) => Err(refuse_serving(
            rt,
            level,
            "children",
            "their exits can't be seen, since SIGCHLD is ignored; try /bin/sh -c 'exec jobd serve ..'",
        )),
        Err(error) if error.kind() == io::ErrorKind::OutOfMemory => Err(NO_MEMORY),
        Err(error) => {
            report(rt, level, "shell", "/bin/sh", &error);
            Ok(())
        }
    }
}

fn refuse_serving(rt: &impl Eprint, level: Level, part: &str, why: &str) -> u8 {
    tell(rt, level, part, why);
    CLOCK_OR_WAITING
}

/// Reports the limit on the size of files, if the system ends who goes past it, and the signals that each job will
/// ignore.
pub fn tell_standing(rt: &impl Eprint, plan: &Plan) {
    let (standing, level) = (&plan.standing, plan.requested.level);
    if standing.file_size.is_some() && !standing.ignores(Signal::Xfsz) {
        let why = "SIGXFSZ kills the launcher if a file would grow past it (ulimit -f)";
        tell(rt, level, "the limit on the file size", why);
    }
    let hup = word_if(standing, Signal::Hup, " HUP");
    let int = word_if(standing, Signal::Int, " INT");
    let quit = word_if(standing, Signal::Quit, " QUIT");
    let term = word_if(standing, Signal::Term, " TERM");
    if [hup, int, quit, term].iter().any(|word| !word.is_empty()) {
        let front = level.warning();
        let _written = eprintln!(rt;
            "{front}jobd: ignored signals:{hup}{int}{quit}{term}: each job ignores them too"
        );
    }
}

fn word_if(standing: &ProcessState, signal: Signal, word: &'static str) -> &'static str {
    if standing.ignores(signal) { word } else { "" }
}
