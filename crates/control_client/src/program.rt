//! One run of the control program.

use crate::fault::{Fault, tell};
use crate::labels::tell_about;
use crate::left::report_left;
use crate::request::{label_of, text_at};
use crate::session::Session;
use crate::settings::{Environment, SettingFault, settings_of};
use ctl_protocol::{LoadRequest, Request};
use exit_status::{NO_MEMORY, USAGE};
use files_and_process::own_process::MARK;
use files_and_process::path_files::{Found, Kind, files_at};
use history_model::{Ask, KeyName, Reason, Refusal, Text, TextRef, is_label};
use launchctl_words::{Command, Paths, WordFault, Words, explain, read_words, read_words_beside};
use plain_text::plain;
use std::alloc::Global;
use std::fs::{File, Files, metadata, symlink_metadata};
use std::io::{self, ErrorKind, IsTerminal};
use std::net::Net;
use std::rt::{Clock, Env};

/// The control socket if nothing names one.
pub const SOCKET: &str = "jobd.sock";

/// The control socket of the package.
pub const PACKAGED: &str = "/run/jobd/jobd.sock";

/// Whether standard error, and standard output, is a terminal, so that somebody reads at once what is printed there.
pub trait Watched {
    fn is_watched(&self) -> bool;

    fn is_shown(&self) -> bool;
}

impl Watched for HostRuntime {
    fn is_watched(&self) -> bool {
        self.stderr().is_terminal()
    }

    fn is_shown(&self) -> bool {
        self.stdout().is_terminal()
    }
}

/// What is done with each file.
#[derive(Clone, Copy)]
enum Operation {
    Load { writes_setting: bool, force: bool },
    Unload { writes_setting: bool },
}

/// What the arguments ask for.
enum CommandTask<'a> {
    Files(Operation, &'a Paths),
    Request(Request<'a>),
}

fn asked(label: &Text, ask: Ask) -> CommandTask<'_> {
    CommandTask::Request(Request::Ask {
        job: TextRef::new(label.as_str()),
        ask,
    })
}

fn set(label: &Text, disabled: bool) -> CommandTask<'_> {
    CommandTask::Request(Request::Set {
        job: TextRef::new(label.as_str()),
        disabled,
    })
}

fn task_of(command: &Command) -> CommandTask<'_> {
    match command {
        Command::Load {
            writes_setting,
            force,
            paths,
        } => CommandTask::Files(
            Operation::Load {
                writes_setting: *writes_setting,
                force: *force,
            },
            paths,
        ),
        Command::Unload {
            writes_setting,
            paths,
        } => CommandTask::Files(
            Operation::Unload {
                writes_setting: *writes_setting,
            },
            paths,
        ),
        Command::Start { label } => asked(label, Ask::Start),
        Command::Stop { label } => asked(label, Ask::Stop),
        Command::Enable { label } => set(label, false),
        Command::Disable { label } => set(label, true),
        Command::Kickstart { kills_first, label } => asked(label, Ask::Kickstart(*kills_first)),
        Command::List => CommandTask::Request(Request::List),
        Command::Print { label } => CommandTask::Request(Request::Print {
            job: TextRef::new(label.as_str()),
        }),
        Command::Shutdown => CommandTask::Request(Request::Shutdown),
    }
}

/// Does what the arguments ask, and returns the exit status. The first argument is the program's own name. The status is the first that is not 0 of
/// the replies' codes and the faults', else 0. It makes one request for each file, in their order, and a file's fault leaves out that file alone.
///
/// A fault's status is 64 for the arguments, 65 for a file, 74 for the standard output, and 1 for want of memory. It is 69 if the launcher can't be
/// reached or sends no reply of at most [`crate::REPLY`] bytes.
///
/// A reply's text goes to the standard output at code 0, else to the standard error. If there are several files, a line with the file's name comes
/// first. After the reply to a faulty definition, a terminal gets a hint which command shows where the fault is. A fault is one line on the standard
/// error that names what it is about, and the reason. If the standard output's reader has closed it, nothing is reported and the status is
/// [`crate::READER_GONE`].
///
/// An argument of an unload may be the label of a loaded job, if it is not a path and no file has this name. After an unload, if its run ends
/// within a third of a second, the standard error gets a line for each process that runs of the job left running.
///
/// In the environment, `JOBD_SOCKET` is the control socket if the arguments name none. `JOBCTL_TIMEOUT` is how many seconds it waits for an answer
/// (30 if absent; 0 means no limit); after them the status is 69. If a variable can't be read, the status is 64.
///
/// An argument that was not UTF-8 has a [`MARK`] at its end. If it names a file to load or to unload, it is that file's fault. Any other makes the
/// arguments invalid: 64.
pub fn jobctl<
    R: Net
        + Files<File = File>
        + Env
        + Clock
        + Print
        + Eprint
        + Watched
        + AllocGlobal
        + Clone
        + Drop,
>(rt: &R, alloc: Global, words: &[String]) -> u8 {
    let settings = match settings_of(rt) {
        Ok(settings) => settings,
        Err(fault) => return tell_setting(rt, fault),
    };
    let patience = settings.patience;
    let has_named = settings.socket.is_some();
    let meant = read_by(alloc, &settings, words);
    drop(settings);
    match meant {
        Ok(Words { socket, command }) => {
            if has_more_marks(words, &command) {
                drop(socket);
                drop(command);
                return refuse_mark(rt);
            }
            let is_unnamed = !has_named
                && socket.as_str() == SOCKET
                && metadata(rt, PACKAGED).is_ok();
            let mut session = Session::new(socket, patience, is_unnamed);
            match task_of(&command) {
                CommandTask::Files(operation, paths) => deliver(
                    rt,
                    alloc,
                    &mut session,
                    operation,
                    paths,
                ),
                CommandTask::Request(request) => {
                    if let Some(code) = session.ask_once(rt, alloc, &request) {
                        tell_about(rt, alloc, &mut session, &command, code);
                    }
                }
            }
            drop(command);
            let status = session.status();
            drop(session);
            status
        }
        Err(WordFault::Usage) if marks_of(words) > 0 => refuse_mark(rt),
        Err(WordFault::Usage) => explain_words(rt, alloc, words),
        Err(WordFault::NoMemory) => want_memory(rt),
    }
}

// How many of the arguments are not UTF-8, the program's own name left out.
fn marks_of(words: &[String]) -> usize {
    let mut count = 0usize;
    for word in words.iter().skip(1) {
        if word.as_str().ends_with(MARK) {
            count = count.saturating_add(1);
        }
    }
    count
}

// Whether an argument is not UTF-8 and does not name a file to load or to unload.
fn has_more_marks(words: &[String], command: &Command) -> bool {
    let mut left = marks_of(words);
    match command {
        Command::Load { paths, .. } | Command::Unload { paths, .. } => {
            for path in paths.as_slice() {
                if path.as_str().ends_with(MARK) {
                    left = left.saturating_sub(1);
                }
            }
        }
        _ => {}
    }
    left > 0
}

fn refuse_mark<R: Eprint>(rt: &R) -> u8 {
    let _written = eprintln!(rt; "jobctl: an argument is not UTF-8");
    USAGE
}

// What the arguments mean, given the environment's socket, if it names one.
fn read_by(alloc: Global, settings: &Environment, words: &[String]) -> Result<Words, WordFault> {
    match &settings.socket {
        Some(socket) => read_words_beside(alloc, words, socket.as_str()),
        None => read_words(alloc, words),
    }
}

/// Reports what keeps the environment from being read, and returns the exit status.
pub fn tell_setting<R: Eprint>(rt: &R, fault: SettingFault) -> u8 {
    let (name, why) = match fault {
        SettingFault::NoMemory => return want_memory(rt),
        SettingFault::Socket => ("JOBD_SOCKET", "not UTF-8"),
        SettingFault::Patience => ("JOBCTL_TIMEOUT", "not a number of seconds"),
    };
    let _written = eprintln!(rt; "jobctl: {name}: {why}");
    USAGE
}

fn want_memory<R: Eprint>(rt: &R) -> u8 {
    let _written = eprintln!(rt; "jobctl: no memory");
    NO_MEMORY
}

fn explain_words<R: Print + Eprint>(rt: &R, alloc: Global, words: &[String]) -> u8 {
    let Ok(explanation) = explain(alloc, words) else {
        return want_memory(rt);
    };
    let text = explanation.text.as_str();
    if !explanation.is_help {
        let _written = eprint!(rt; "{text}");
        return USAGE;
    }
    match print!(rt; "{text}") {
        Ok(()) => 0,
        Err(error) => {
            let fault = Fault::Output(error);
            tell(rt, alloc, "standard output", &fault);
            fault.status()
        }
    }
}

fn deliver<
    R: Net + Files<File = File> + Clock + Print + Eprint + Watched + AllocGlobal + Clone + Drop,
>(rt: &R, alloc: Global, session: &mut Session, operation: Operation, paths: &Paths) {
    let Ok(files) = files_at(rt, paths.as_slice()) else {
        session.note(want_memory(rt));
        return;
    };
    let is_named = files.len() > 1;
    let mut unloaded = Vec::new(alloc);
    for file in files.iter() {
        match deliver_one(rt, alloc, session, operation, file, is_named) {
            Ok(Some(label)) => note_unloaded(label, &mut unloaded),
            Ok(None) => {}
            Err(fault) => {
                session.fail(rt, alloc, file.path.as_str(), &fault);
                let is_last = fault.is_last();
                drop(fault);
                if is_last {
                    break;
                }
            }
        }
    }
    drop(files);
    report_left(rt, alloc, session.socket(), unloaded.as_slice());
}

// If there is no memory for it, it does not look for what its runs left.
fn note_unloaded(label: Text, unloaded: &mut Vec<Text>) {
    let noted = unloaded.push(label);
    drop(noted);
}

// The label, if it was unloaded.
fn deliver_one<R: Net + Files + Print + Eprint + Watched>(
    rt: &R,
    alloc: Global,
    session: &mut Session,
    operation: Operation,
    file: &Found,
    is_named: bool,
) -> Result<Option<Text>, Fault> {
    let path = file.path.as_str();
    let shown = plain(alloc, path)?;
    let name = shown.as_str();
    match file.kind {
        Kind::Unlisted(ErrorKind::InvalidFilename) => {
            let error = io::Error::new(ErrorKind::InvalidFilename, "its name is not UTF-8");
            return Err(Fault::File(error));
        }
        Kind::Unlisted(kind) => return Err(Fault::File(io::Error::from(kind))),
        Kind::Empty => {
            let _written = eprintln!(rt;
                "jobctl: {name}: no definition in this folder (*.plist, *.json)"
            );
            return Ok(None);
        }
        Kind::File => {}
    }
    let heading = if is_named { Some(name) } else { None };
    let read = match word_for(rt, alloc, session, operation, path) {
        Some(label) => Ok(label),
        None => text_for(rt, alloc, operation, path),
    };
    match read {
        Ok(text) => {
            let answer = session.ask(rt, alloc, &request_with(operation, &text), heading);
            match (operation, answer) {
                (Operation::Unload { .. }, Ok(0)) => Ok(Some(text)),
                (_, answer) => {
                    drop(text);
                    point_out(rt, operation, name, answer?);
                    Ok(None)
                }
            }
        }
        Err(fault) => Err(fault),
    }
}

// The label that the argument of an unload means, if no file has this name, and a job of this label is loaded.
fn word_for<R: Net + Files>(
    rt: &R,
    alloc: Global,
    session: &mut Session,
    operation: Operation,
    path: &str,
) -> Option<Text> {
    if !matches!(operation, Operation::Unload { .. }) || !may_be_label(path) || is_there(rt, path) {
        return None;
    }
    let request = Request::Print {
        job: TextRef::new(path),
    };
    let replied = session.look(rt, alloc, &request).ok()?;
    let is_loaded = replied.code == 0;
    drop(replied);
    if is_loaded {
        Text::copy_of(alloc, path).ok()
    } else {
        None
    }
}

// Whether an argument is a label, and neither a path nor the name of a definition's file.
fn may_be_label(word: &str) -> bool {
    let is_file = word.contains('/') || word.ends_with(".json") || word.ends_with(".plist");
    !is_file && is_label(word)
}

fn is_there<R: Files>(rt: &R, path: &str) -> bool {
    match symlink_metadata(rt, path) {
        Ok(_) => true,
        Err(error) => error.kind() != ErrorKind::NotFound,
    }
}

// On a terminal, names the command that shows where a faulty definition has its fault.
fn point_out<R: Eprint + Watched>(rt: &R, operation: Operation, name: &str, code: u8) {
    let is_faulty = code == Refusal::BadDefinition(Reason::NotJson, KeyName::NoKey).code();
    if is_faulty && matches!(operation, Operation::Load { .. }) && rt.is_watched() {
        let _written = eprintln!(rt; "jobctl: `jobscope check {name}` says where");
    }
}

/// What the request for a file says: the text of its definition, or for an unload the label in it. A fault of the file: it can't be read, is too long
/// for a line, or is not UTF-8. For an unload it is a fault too if the file is not a definition, so that its label is not known.
fn text_for<R: Files>(
    rt: &R,
    alloc: Global,
    operation: Operation,
    path: &str,
) -> Result<Text, Fault> {
    let text = text_at(rt, alloc, path)?;
    match operation {
        Operation::Load { .. } => Ok(text),
        Operation::Unload { .. } => label_of(alloc, text),
    }
}

/// The request that says this.
fn request_with(operation: Operation, text: &Text) -> Request<'_> {
    let said = TextRef::new(text.as_str());
    match operation {
        Operation::Load {
            writes_setting,
            force,
        } => Request::Load(LoadRequest {
            def: said,
            writes_setting,
            force,
        }),
        Operation::Unload { writes_setting } => Request::Unload {
            job: said,
            writes_setting,
        },
    }
}
