//! What a start asks its helper process: all at once, one question for each part that has a path.

use crate::failure::{Failure, Part};
use crate::held::Held;
use crate::start::Start;
use history_model::Text;
use history_model::definition::{Address, Def, Socket};
use look_out::{Answer, Asks, Hung, Openings, Question, QuestionOutcome, no_answer, stream_asked};
use std::alloc::{AllocError, Global};
use std::fs::Files;
use std::io;
use std::io::ErrorKind;
use std::net::Net;
use std::process::{OpenProcess, Processes};
use std::rt::Clock;

/// The questions, and which part of the start each is about.
#[derive(Drop)]
struct Asking<'a> {
    questions: Vec<Question<'a>>,
    parts: Vec<Part>,
}

impl<'a> Asking<'a> {
    fn add(&mut self, part: Part, asks: Asks, path: &'a str) -> Result<(), AllocError> {
        self.questions.push(Question { asks, path })?;
        self.parts.push(part)?;
        Ok(())
    }

    // A stream of this process's own is not asked about: to the helper its path means another.
    fn add_stream(
        &mut self,
        part: Part,
        asks: Asks,
        path: Option<&'a str>,
    ) -> Result<(), AllocError> {
        match path.and_then(stream_asked) {
            Some(path) => self.add(part, asks, path),
            None => Ok(()),
        }
    }

    // The folder, the streams, and the program.
    fn add_all(
        &mut self,
        start: Start<'a>,
        program: &'a str,
        asks: Asks,
    ) -> Result<(), AllocError> {
        let def = start.def;
        if let Some(folder) = def.working_directory() {
            self.add(Part::Folder, Asks::Enter, folder)?;
        }
        if start.conn.is_none() {
            self.add_stream(Part::Input, Asks::Read, def.standard_in_path())?;
            self.add_stream(Part::Output, Asks::Append, def.standard_out_path())?;
        }
        self.add_stream(Part::Errors, Asks::Append, def.standard_error_path())?;
        self.add(Part::Program, asks, program)
    }

    fn part_at(&self, at: usize) -> Part {
        self.parts.get(at).copied().unwrap_or(Part::Program)
    }
}

/// Asks about all that the start needs, and waits half a second at most. What it opens is held until a `forget`. An
/// error if a part hangs, is refused, or is of a kind whose open may wait. Nothing is held if the system starts no
/// helper.
pub(crate) fn hold<
    P: OpenProcess + Drop,
    R: AllocGlobal + Clock + Files + Net + Processes<Started = P>,
>(
    rt: &R,
    alloc: Global,
    openings: &mut Openings,
    hung: &mut Hung<P>,
    start: Start<'_>,
    up: u64,
) -> Result<Held, Failure> {
    let (program, asks) = match program_asked(alloc, start.def) {
        Ok(asked) => asked,
        Err(error) => return Err(of_program(io::Error::from(error))),
    };
    let mut asking = Asking {
        questions: Vec::new(alloc),
        parts: Vec::new(alloc),
    };
    let held = match asking.add_all(start, program.as_str(), asks) {
        Ok(()) => ask(rt, alloc, openings, hung, &asking, up),
        Err(error) => Err(of_program(io::Error::from(error))),
    };
    drop(asking);
    drop(program);
    held
}

/// This start is expected after the next one: what it needs is asked about once the next one's questions were answered.
pub(crate) fn expect(alloc: Global, openings: &mut Openings, start: Start<'_>) {
    let Ok((program, asks)) = program_asked(alloc, start.def) else {
        return;
    };
    let mut asking = Asking {
        questions: Vec::new(alloc),
        parts: Vec::new(alloc),
    };
    if asking.add_all(start, program.as_str(), asks).is_ok() {
        openings.expect(asking.questions.as_slice());
    }
    drop(asking);
    drop(program);
}

fn of_program(error: io::Error) -> Failure {
    let part = Part::Program;
    Failure { part, error }
}

fn ask<P: OpenProcess + Drop, R: AllocGlobal + Clock + Files + Net + Processes<Started = P>>(
    rt: &R,
    alloc: Global,
    openings: &mut Openings,
    hung: &mut Hung<P>,
    asking: &Asking<'_>,
    up: u64,
) -> Result<Held, Failure> {
    let mut answers = Vec::new(alloc);
    let asked = openings.ask(rt, hung, asking.questions.as_slice(), &mut answers, up);
    let held = match asked {
        QuestionOutcome::Answered => held_in(openings.id(), asking, answers.as_slice()),
        QuestionOutcome::Unasked(error) | QuestionOutcome::Refused(error) => Err(of_program(error)),
        QuestionOutcome::Unstarted => Ok(Held::nothing()),
        silent => {
            let part = asking.part_at(silent.silent_at().unwrap_or(usize::MAX));
            let error = no_answer();
            Err(Failure { part, error })
        }
    };
    drop(answers);
    held
}

// The first stream that is refused counts, and else the folder. What is wrong with the program the system says at the
// start.
fn held_in(id: Option<u32>, asking: &Asking<'_>, answers: &[Answer]) -> Result<Held, Failure> {
    let mut held = Held::by(id);
    let mut of_folder = None;
    for (part, answer) in asking.parts.iter().zip(answers.iter()) {
        let part = *part;
        if let Some(error) = apply(&mut held, part, *answer) {
            if matches!(part, Part::Folder) {
                of_folder = Some(error);
            } else {
                return Err(Failure { part, error });
            }
        }
    }
    match of_folder {
        Some(error) => {
            let part = Part::Folder;
            Err(Failure { part, error })
        }
        None => Ok(held),
    }
}

// What the answer says of the part: that it is held, or why not.
fn apply(held: &mut Held, part: Part, answer: Answer) -> Option<io::Error> {
    if matches!(part, Part::Program) && answer != Answer::Shut {
        return None;
    }
    match held_number(answer) {
        Some(number) => {
            held.keep(part, number);
            None
        }
        None => refusal_of(answer),
    }
}

fn held_number(answer: Answer) -> Option<u64> {
    match answer {
        Answer::Held { number } => Some(number),
        _ => None,
    }
}

/// Why a path was not opened.
fn refusal_of(answer: Answer) -> Option<io::Error> {
    let words = match answer {
        Answer::Refused { error } => return Some(error_of(error)),
        Answer::Shut => return Some(no_answer()),
        Answer::Fifo => "is a FIFO, not a plain file",
        Answer::Socket => "is a socket, not a plain file",
        Answer::Folder => "is a folder, not a plain file",
        Answer::Device => "is a device whose open may wait, not a plain file",
        _ => return None,
    };
    Some(io::Error::new(ErrorKind::InvalidInput, words))
}

/// The error of this number.
pub(crate) fn error_of(number: u64) -> io::Error {
    match i32::try_from(number) {
        Ok(number) => io::Error::from_raw_os_error(number),
        Err(_) => io::Error::from(ErrorKind::InvalidData),
    }
}

// What is asked about the program: a path as it is from the child's folder; or a name, with the child's search path if the definition
// says one.
fn program_asked(alloc: Global, def: &Def) -> Result<(String, Asks), AllocError> {
    let program = def.program();
    if program.contains('/') {
        let path = match def.working_directory() {
            Some(folder) if !program.starts_with('/') => format!(in alloc; "{folder}/{program}")?,
            _ => String::from_str(alloc, program)?,
        };
        return Ok((path, Asks::Program));
    }
    let text = match search_path(def) {
        Some(path) => format!(in alloc; "{program}/{}", path.as_str())?,
        None => String::from_str(alloc, program)?,
    };
    Ok((text, Asks::Search))
}

// The last value that the definition gives it.
fn search_path(def: &Def) -> Option<&Text> {
    let mut path = None;
    for variable in def.environment() {
        if variable.name.as_str() == "PATH" {
            path = Some(&variable.value);
        }
    }
    path
}

/// The place of the first of these sockets whose path can't be known to answer, and why: to bind it, or to remove its file, might wait.
pub(crate) fn first_silent<
    P: OpenProcess + Drop,
    R: AllocGlobal + Clock + Files + Net + Processes<Started = P>,
>(
    rt: &R,
    alloc: Global,
    openings: &mut Openings,
    hung: &mut Hung<P>,
    sockets: &[Socket],
    up: u64,
) -> Option<(usize, io::Error)> {
    let mut at = 0usize;
    for socket in sockets {
        if let Address::Unix(path) = &socket.address {
            if let Some(error) = silence(rt, alloc, openings, hung, path.as_str(), up) {
                return Some((at, error));
            }
        }
        at = at.saturating_add(1);
    }
    None
}

/// Why it is not known that the path answers: it gives no answer within half a second, or the system starts no helper
/// now.
pub(crate) fn silence<
    P: OpenProcess + Drop,
    R: AllocGlobal + Clock + Files + Net + Processes<Started = P>,
>(
    rt: &R,
    alloc: Global,
    openings: &mut Openings,
    hung: &mut Hung<P>,
    path: &str,
    up: u64,
) -> Option<io::Error> {
    let asks = Asks::Look;
    let mut answers = Vec::new(alloc);
    let asked = openings.ask(rt, hung, &[Question { asks, path }], &mut answers, up);
    let is_shut = answers.first().copied() == Some(Answer::Shut);
    drop(answers);
    match asked {
        QuestionOutcome::Answered if is_shut => Some(no_answer()),
        QuestionOutcome::Answered | QuestionOutcome::Unstarted => None,
        QuestionOutcome::Unasked(error) | QuestionOutcome::Refused(error) => Some(error),
        _ => Some(no_answer()),
    }
}
