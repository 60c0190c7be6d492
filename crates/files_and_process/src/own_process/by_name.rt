//! Which of the programs runs: they are one file, which acts by the name that it was started under.

use super::program::{Program, program_of};
use super::words::{marked_words, own_program, own_words};
use exit_status::{NO_MEMORY, USAGE};
use std::io;
use std::sync::Wait;

/// What the file does as each of its programs, by the arguments of the process. Each call answers the exit status. Only
/// what takes `waits` may wait.
pub trait Programs {
    fn jobd<L: Wait>(&self, host: &HostRuntime, waits: &L, words: &[String]) -> u8;

    fn jobctl(&self, host: &HostRuntime, words: &[String]) -> u8;

    fn jobscope<L: Wait>(&self, host: &HostRuntime, waits: &L, words: &[String]) -> u8;

    /// What a launcher starts to check and open paths in its place: it answers what comes at its standard input, a
    /// socket, until its end.
    fn look_out(&self, host: &HostRuntime) -> u8;
}

/// Does as the program that the name of this process means, by its arguments, and gives the exit status. Arguments that
/// are not all UTF-8 are invalid, but for `jobctl`, which gets them marked (`marked_words`). Both `host` and `waits`
/// are the runtime of `main`: only what takes it may wait.
pub fn run_by_name<L: Wait, P: Programs>(host: &HostRuntime, waits: &L, programs: &P) -> u8 {
    match own_words(host) {
        Ok(words) => match program_of(words.as_slice()) {
            Program::Jobd => programs.jobd(host, waits, words.as_slice()),
            Program::Jobctl => programs.jobctl(host, words.as_slice()),
            Program::Jobscope => programs.jobscope(host, waits, words.as_slice()),
            Program::LookOut => programs.look_out(host),
        },
        Err(fault) => refuse(host, programs, &fault),
    }
}

// If memory ran out it prints nothing.
fn refuse<P: Programs>(host: &HostRuntime, programs: &P, fault: &io::Error) -> u8 {
    if fault.kind() == io::ErrorKind::OutOfMemory {
        return NO_MEMORY;
    }
    let _written = match own_program(host) {
        Ok(Program::Jobd) => eprintln!(host; "jobd: an argument is not UTF-8"),
        Ok(Program::Jobctl) => match marked_words(host) {
            Ok(words) => return programs.jobctl(host, words.as_slice()),
            Err(_) => return NO_MEMORY,
        },
        Ok(Program::Jobscope) => eprintln!(host; "jobscope: {fault}"),
        Ok(Program::LookOut) => return USAGE,
        Err(_) => return NO_MEMORY,
    };
    USAGE
}
