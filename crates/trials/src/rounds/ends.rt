//! Passes of the event loop over the real system, with children of its own. The launcher's store and its journal are in memory. The jobs are loaded
//! by turns, and a client of the control socket asks the rest.

use crate::edges::control_stage::received;
use crate::edges::places::new_folder;
use crate::memory_stage::{MemoryStore, Sink};
use crate::rounds::refusals::launcher_over;
use child_edge::OsEdge;
use control_socket::ControlSocket;
use ctl_protocol::reply_line;
use jobd::{RoundLauncher, SleepEdge};
use launcher::{Host, Input};
use live_loop::{Live, LoopHost, System, round};
use replay::replay;
use std::alloc::Global;
use std::io::Write;
use std::os::unix::net::UnixStream;
use std::str::from_utf8;
use std::time::Duration;
use std::{fs, thread};

/// A job that runs at its load: its label, how long it has to end after TERM, in seconds, and what its shell does.
pub struct Job {
    pub label: &'static str,
    pub timeout: u32,
    pub script: &'static str,
}

/// What is asked, and what is expected.
pub enum Step {
    /// The request is answered so.
    Asks(&'static str, &'static str),
    /// The request, asked again and again, comes to be answered by a text that has this part.
    Comes(&'static str, &'static str),
    /// The file comes to be there.
    IsThere(&'static str),
}

/// The jobs, and the steps. Its name is that of its folder, in which the jobs run.
pub struct Ends {
    pub name: &'static str,
    pub jobs: &'static [Job],
    pub steps: &'static [Step],
}

/// How many passes a case has at most.
const MOST: u32 = 6_000;

/// How long it waits between two looks at what is to come, in milliseconds: an end by KILL is a second away.
const BETWEEN: u64 = 10;

const DONE: &str = "{\"code\":0,\"text\":\"\"}\n";

const PRINT: &str = "{\"req\":\"print\",\"job\":\"a\"}\n";

const PRINT_B: &str = "{\"req\":\"print\",\"job\":\"b\"}\n";

const STOP: &str = "{\"req\":\"stop\",\"job\":\"a\"}\n";

const RUNS: &str = "\\tstate = running\\n";

/// Two jobs run at once: the one ends only once the other has made a file.
pub const AT_ONCE: &Ends = &Ends {
    name: "at-once",
    jobs: &[
        Job {
            label: "a",
            timeout: 20,
            script: "until test -e made; do sleep 0.02; done; exit 3",
        },
        Job {
            label: "b",
            timeout: 20,
            script: ": > made; exit 4",
        },
    ],
    steps: &[
        Step::Comes(PRINT, "\\tlast exit = code 3\\n"),
        Step::Comes(PRINT_B, "\\tlast exit = code 4\\n"),
    ],
};

/// An exit by a code.
pub const BY_CODE: &Ends = &Ends {
    name: "by-code",
    jobs: &[Job {
        label: "a",
        timeout: 20,
        script: "exit 7",
    }],
    steps: &[Step::Comes(PRINT, "\\tlast exit = code 7\\n")],
};

/// An end by TERM, after which no KILL would come.
pub const BY_TERM: &Ends = &Ends {
    name: "by-term",
    jobs: &[Job {
        label: "a",
        timeout: 0,
        script: "while :; do :; done",
    }],
    steps: &[
        Step::Comes(PRINT, RUNS),
        Step::Asks(STOP, DONE),
        Step::Comes(PRINT, "\\tlast exit = signal 15\\n"),
    ],
};

/// TERM is ignored, so the end comes by KILL, a second later.
pub const BY_KILL: &Ends = &Ends {
    name: "by-kill",
    jobs: &[Job {
        label: "a",
        timeout: 1,
        script: "trap '' TERM; : > held; while :; do :; done",
    }],
    steps: &[
        Step::IsThere("held"),
        Step::Asks(STOP, DONE),
        Step::Comes(PRINT, "\\tlast exit = signal 9\\n"),
    ],
};

/// The request that loads the job, which runs in the folder.
fn load_line(alloc: Global, folder: &str, job: &Job) -> Option<String> {
    let label = job.label;
    let timeout = job.timeout;
    let script = job.script;
    format!(in alloc;
        "{{\"req\":\"load\",\"def\":\"{{\\\"Label\\\":\\\"{label}\\\",\\\"ProgramArguments\\\":[\\\"/bin/sh\\\",\\\"-c\\\",\\\"{script}\\\"],\\\"RunAtLoad\\\":true,\\\"ExitTimeOut\\\":{timeout},\\\"WorkingDirectory\\\":\\\"{folder}\\\"}}\"}}"
    ).ok()
}

/// Loads the jobs by turns, and adds the lines of the replies.
fn load_all(
    alloc: Global,
    host: &mut Host<MemoryStore, OsEdge<HostRuntime>, Sink>,
    folder: &str,
    jobs: &[Job],
    replies: &mut Vec<u8>,
) -> Option<()> {
    for job in jobs {
        let line = load_line(alloc, folder, job)?;
        let reply = host.turn(alloc, Input::Line(line.as_bytes()));
        let told = reply_line(alloc, &reply);
        drop(reply);
        match told {
            Ok(told) => replies.extend_from_slice(told.as_slice()).ok()?,
            Err(_) => return None,
        }
    }
    Some(())
}

/// Whether the line has its newline.
fn is_whole(line: &[u8]) -> bool {
    match line.last() {
        Some(byte) => *byte == b'\n',
        None => false,
    }
}

/// What a case is played with: the loop, its client, what was replied so far, and how many passes are left.
#[derive(Drop)]
struct Stage<'a, R, H> {
    rt: &'a R,
    folder: &'a str,
    live: Live<H>,
    client: UnixStream,
    replies: Vec<u8>,
    left: u32,
}

impl<R: System, H: LoopHost + Drop> Stage<'_, R, H> {
    // Makes a pass, if one is left. It returns whether the loop goes on.
    fn goes_on(&mut self) -> bool {
        if self.left == 0 {
            return false;
        }
        self.left = self.left.saturating_sub(1);
        matches!(round(self.rt, self.rt.alloc(), &mut self.live), Ok(false))
    }

    // Sends the request, and makes passes until its reply has come.
    fn reply_to(&mut self, request: &str) -> Option<Vec<u8>> {
        let sent = self.client.write(request.as_bytes()).ok()?;
        if sent != request.len() {
            return None;
        }
        let mut reply = Vec::new(self.rt.alloc());
        for _ in 0..MOST {
            if !self.goes_on() {
                return None;
            }
            let _is_end = received(&mut self.client, &mut reply)?;
            if is_whole(reply.as_slice()) {
                self.replies.extend_from_slice(reply.as_slice()).ok()?;
                return Some(reply);
            }
        }
        None
    }

    // Whether the reply comes to have the part.
    fn comes(&mut self, request: &str, part: &str) -> bool {
        for _ in 0..MOST {
            match self.reply_to(request) {
                Some(reply) => {
                    let text = from_utf8(reply.as_slice()).unwrap_or("");
                    if text.split_once(part).is_some() {
                        return true;
                    }
                }
                None => return false,
            }
            thread::sleep(self.rt, Duration::from_millis(BETWEEN));
        }
        false
    }

    // Whether the file comes to be there.
    fn is_there(&mut self, name: &str) -> bool {
        let folder = self.folder;
        let Ok(path) = format!(in self.rt.alloc(); "{folder}/{name}") else {
            return false;
        };
        for _ in 0..MOST {
            if !self.goes_on() {
                return false;
            }
            if fs::symlink_metadata(self.rt, path.as_str()).is_ok() {
                return true;
            }
            thread::sleep(self.rt, Duration::from_millis(BETWEEN));
        }
        false
    }

    fn play(&mut self, step: &Step) -> bool {
        match *step {
            Step::Asks(request, wanted) => match self.reply_to(request) {
                Some(reply) => reply.as_slice() == wanted.as_bytes(),
                None => false,
            },
            Step::Comes(request, part) => self.comes(request, part),
            Step::IsThere(name) => self.is_there(name),
        }
    }
}

/// Whether the outcome has the code and the text of the reply.
pub fn is_told(outcome: Option<&str>, reply: Option<&str>) -> bool {
    let (Some(outcome), Some(reply)) = (outcome, reply) else {
        return false;
    };
    let told = outcome.split_once(",\"orders\":");
    match (told, reply.split_once(",\"text\":")) {
        (Some((front, rest)), Some((code, text))) => front == code && rest.ends_with(text),
        _ => false,
    }
}

/// Whether the line of a journal is one of a request.
fn is_request(line: &str) -> bool {
    let is_load = line.split_once("\"ev\":\"load\"").is_some();
    let is_print = line.split_once("\"ev\":\"print\"").is_some();
    let is_stop = line.split_once("\"ev\":\"stop\"").is_some();
    is_load || is_print || is_stop
}

/// Whether a replay of the journal gives each request the code and the text of its reply, and no reply is left.
fn are_replayed(alloc: Global, journal: &[u8], replies: &[u8]) -> bool {
    let mut written = Vec::new(alloc);
    let mut reader = journal;
    let is_replayed = replay(alloc, &mut reader, &mut written).is_ok();
    let mut outcomes = from_utf8(written.as_slice()).unwrap_or("").lines();
    let mut replies = from_utf8(replies).unwrap_or("").lines();
    let mut lines = from_utf8(journal).unwrap_or("").lines();
    let _header = lines.next();
    let mut are_told = is_replayed;
    for line in lines {
        let outcome = outcomes.next();
        if is_request(line) {
            are_told = is_told(outcome, replies.next()) && are_told;
        }
    }
    are_told && replies.next().is_none()
}

/// The control socket in the folder, and a client of it.
fn asked_by(rt: &HostRuntime, folder: &str) -> Option<(ControlSocket, UnixStream)> {
    let path = format!(in rt.alloc(); "{folder}/socket").ok()?;
    let control = ControlSocket::open(rt, rt.alloc(), path.as_str()).ok()?;
    let client = UnixStream::connect(rt, path.as_str()).ok()?;
    client.set_nonblocking(true).ok()?;
    Some((control, client))
}

/// Plays the steps over the launcher. It returns whether each went as it says, what was replied, and the launcher.
fn played<R: System, H: LoopHost + Drop>(
    rt: &R,
    host: H,
    asked_by: (ControlSocket, UnixStream),
    folder: &str,
    replies: Vec<u8>,
    steps: &[Step],
) -> Option<(bool, Vec<u8>, H)> {
    let (control, client) = asked_by;
    let live = Live::new(rt, rt.alloc(), host, control).ok()?;
    let mut stage = Stage {
        rt,
        folder,
        live,
        client,
        replies,
        left: MOST,
    };
    let mut all_go = true;
    for step in steps {
        all_go = all_go && stage.play(step);
    }
    let Stage {
        live,
        client,
        replies,
        ..
    } = stage;
    drop(client);
    Some((all_go, replies, live.into_host()))
}

/// Whether the case is played as it says in the folder, and its journal then gives the replies.
fn is_played(rt: &HostRuntime, ends: &Ends, folder: &str) -> Option<bool> {
    let alloc = rt.alloc();
    let own = rt.clone().ok()?;
    let asked_by = asked_by(rt, folder)?;
    let Some(mut host) = launcher_over(own, folder) else {
        drop(asked_by);
        return None;
    };
    let mut replies = Vec::new(alloc);
    let are_loaded = load_all(alloc, &mut host, folder, ends.jobs, &mut replies).is_some();
    let slept = host.edge().slept();
    let launcher = RoundLauncher::new(host, slept);
    let (all_go, replies, launcher) = played(rt, launcher, asked_by, folder, replies, ends.steps)?;
    let RoundLauncher { host, .. } = launcher;
    let (table, store, edge, journal) = host.into_parts();
    drop(table);
    drop(store);
    drop(edge);
    match journal {
        Some(sink) => {
            let are_replayed = are_replayed(alloc, sink.taken.as_slice(), replies.as_slice());
            Some(are_loaded & all_go & are_replayed)
        }
        None => None,
    }
}

/// The same, in a new folder, if that could then be removed.
pub fn is_so(rt: &HostRuntime, ends: &Ends) -> Option<bool> {
    let folder = new_folder(rt, ends.name)?;
    let is_played = is_played(rt, ends, folder.as_str()) == Some(true);
    let is_left = fs::remove_dir_all(rt, folder.as_str()).is_ok();
    Some(is_played && is_left)
}
