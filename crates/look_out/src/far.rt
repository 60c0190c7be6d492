//! The helper's side: it answers questions until its peer closes. Each is a letter, a space, and a text that a NUL
//! ends.

ghost use Rattle.std.specs.Prelude.{◌≡◌, ◌+◌, ◌*◌, length, OnOk};
ghost use Rattle.look_out.specs.Answers.{asked_in};

use crate::answer::Answer;
use crate::looking::{INVALID, look, refused};
use crate::opening::{enter, open, program, search};
use crate::question::{LONGEST, NEXT_START};
use crate::told::Told;
use crate::walking::may_go;
use std::alloc::{AllocError, Global};
use std::fs::{File, Files};
use std::io::{Read, Write};
use std::os::fd::AsFd;
use std::os::unix::net::UnixStream;
use std::rt::Env;
use std::{io, mem};

/// How many bytes of questions are read at a time.
const ROOM: usize = 4_096;

/// How long a question may be. The first of a start has one byte more than the others.
const MOST: usize = LONGEST + 1;

/// What a helper has: what it holds open, the folder of the start that it was asked about, where nothing is asked now,
/// and the question that still comes.
#[derive(Drop)]
struct Far {
    alloc: Global,
    held: Vec<File>,
    // What was opened for the start before.
    older: Vec<File>,
    folder: String,
    told: Told,
    question: Vec<u8>,
}

/// Answers the questions that come at the socket, in their order, until its end. It answers each before it reads the
/// next, so that the first without an answer is the one that hangs. Besides the answers it names where links lead. What
/// a question opens stays open until the one that forgets it.
pub fn serve<R: AllocGlobal + Clone + Drop + Env + Files<File = File>, S: Read + Write>(
    rt: &R,
    alloc: Global,
    socket: &mut S,
) -> io::Result<()> {
    let mut far = Far {
        alloc,
        held: Vec::new(alloc),
        older: Vec::new(alloc),
        folder: String::new(alloc),
        told: Told::new(alloc),
        question: Vec::new(alloc),
    };
    let mut answers: Vec<u8> = Vec::new(alloc);
    let mut room = [0u8; ROOM];
    for _ in 0..u64::MAX {
        let count = socket.read(&mut room)?;
        if count == 0 {
            break;
        }
        for byte in &room[..count] {
            answers.clear();
            receive(rt, &mut far, socket, &[*byte], &mut answers)?;
            if !answers.is_empty() {
                socket.write_all(answers.as_slice())?;
            }
        }
    }
    Ok(())
}

// Answers each question that ends within the bytes.
fn receive<R: AllocGlobal + Clone + Drop + Env + Files<File = File>, S: Write>(
    rt: &R,
    far: &mut Far,
    socket: &mut S,
    bytes: &[u8],
    answers: &mut Vec<u8>,
) -> Result<(), AllocError>
    ensures { OnOk result (length answers.new.items ≡ length answers.old.items + 9 * asked_in bytes.now) }
{
    for byte in bytes {
        take_byte(rt, far, socket, *byte, answers)?;
    }
    Ok(())
}

// One byte more. It ends a question if it is a NUL; of a question that is too long the rest is left out.
fn take_byte<R: AllocGlobal + Clone + Drop + Env + Files<File = File>, S: Write>(
    rt: &R,
    far: &mut Far,
    socket: &mut S,
    byte: u8,
    answers: &mut Vec<u8>,
) -> Result<(), AllocError>
    ensures end { byte ≡ 0 → OnOk result (length answers.new.items ≡ length answers.old.items + 9) }
    ensures within { (byte ≡ 0 → ⊥) → OnOk result (answers.new.items ≡ answers.old.items) }
{
    if byte == 0 {
        let answer = answer_to(rt, far, socket);
        far.question.clear();
        answers.extend_from_slice(&answer.to_bytes())
    } else if far.question.len() <= MOST {
        far.question.push(byte).map_err(AllocError::from)
    } else {
        Ok(())
    }
}

fn answer_to<R: AllocGlobal + Clone + Drop + Env + Files<File = File>, S: Write>(
    rt: &R,
    far: &mut Far,
    socket: &mut S,
) -> Answer {
    let none = Answer::Refused { error: INVALID };
    if far.question.len() > MOST {
        return none;
    }
    let Ok(text) = std::str::from_utf8(far.question.as_slice()) else {
        return none;
    };
    let text = match text.strip_prefix(NEXT_START) {
        Some(first) => {
            far.older = mem::replace(&mut far.held, Vec::new(far.alloc));
            far.folder.clear();
            first
        }
        None => text,
    };
    let Some((letter, path)) = text.split_once(' ') else {
        return none;
    };
    match letter {
        "s" => search(rt, &far.told, socket, far.folder.as_str(), path),
        "l" | "r" | "a" | "d" | "p" => {
            match may_go(rt, far.alloc, &far.told, socket, path, true) {
                Ok(true) => {}
                Ok(false) => return Answer::Shut,
                Err(error) => return refused(&error),
            }
            match letter {
                "l" => look(rt, path),
                "r" => open(rt, path, true, &mut far.held),
                "a" => open(rt, path, false, &mut far.held),
                "d" => {
                    far.folder.clear();
                    match far.folder.push_str(path) {
                        Ok(()) => enter(rt, far.alloc, path, &mut far.held),
                        Err(error) => refused(&io::Error::from(error)),
                    }
                }
                _ => program(rt, &far.told, socket, far.folder.as_str(), path),
            }
        }
        "f" => {
            far.held.clear();
            far.older.clear();
            far.folder.clear();
            Answer::Absent
        }
        _ => take_told(&mut far.told, letter, path),
    }
}

// What it learns of where nothing is asked.
fn take_told(told: &mut Told, letter: &str, path: &str) -> Answer {
    let is_taken = match letter {
        "x" => {
            told.clear();
            Ok(())
        }
        "k" => {
            told.close();
            Ok(())
        }
        "m" => told.add_mount(path),
        "o" => told.add_path(path),
        _ => return Answer::Refused { error: INVALID },
    };
    match is_taken {
        Ok(()) => Answer::Absent,
        Err(error) => refused(&io::Error::from(error)),
    }
}

/// Answers what comes at standard input, a socket, until its end: 0, or 1 if the system refuses.
pub fn by_input(host: &HostRuntime) -> u8 {
    let Ok(input) = host.stdin().as_fd().try_clone_to_owned() else {
        return 1;
    };
    let mut socket = UnixStream::from(input);
    u8::from(serve(host, host.alloc(), &mut socket).is_err())
}
