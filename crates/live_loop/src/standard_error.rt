//! Standard error: a line at a time, and only while it takes lines without a wait. To a terminal, or another device, a
//! line goes letter by letter, and the system is asked before each. A device that says that it takes something may have
//! room for one byte alone.

ghost use Rattle.std.specs.Prelude.{◌≡◌, ◌++◌, ◌∷◌, [], IfOk, string_bytes, chars, codes};
ghost use Rattle.plain_text.specs.Plain.{plain_text};

use child_edge::{Notice, NoticeKind};
use mio::unix::SourceFd;
use mio::{Events, Interest, Poll, Token};
use plain_text::add_plain;
use std::alloc::{AllocError, Global};
use std::fs;
use std::fs::Files;
use std::net::Net;
use std::os::fd::RawFd;
use std::os::unix::fs::FileTypeExt;
use std::time::Duration;

const STANDARD_ERROR: RawFd = 2;

/// Standard error is all that its poll knows.
const TAKING: Token = Token(0);

/// What says of which kind it is.
const ITS_FILE: &str = "/proc/self/fd/2";

/// How many letters go to a device in a pass of the loop. Each takes three calls of the system.
const LETTERS: usize = 4096;

/// A poll that knows when standard error takes something. A pipe or a socket then takes 4,096 bytes without a wait, and a line has
/// fewer, since no text within it is longer than 1,024 bytes.
#[derive(Drop)]
struct Watch {
    poll: Poll,
    events: Events,
}

#[derive(Drop)]
pub(crate) struct StandardError {
    // Each line begins with its level, as the journal of systemd takes it: 4 for a refusal, 6 for a run.
    pub(crate) is_leveled: bool,
    // Absent if standard error is a file, or what else no poll waits for.
    watch: Option<Watch>,
    is_device: bool,
    alloc: Global,
    // What is left of a line for a device, from this byte on.
    rest: String,
    from: usize,
    // How many letters may go to a device in this pass still.
    left: usize,
}

impl Watch {
    fn new(net: &impl Net, events: Events) -> Option<Watch> {
        let Ok(poll) = Poll::new(net) else {
            drop(events);
            return None;
        };
        let mut source = SourceFd(&STANDARD_ERROR);
        match poll
            .registry()
            .register(&mut source, TAKING, Interest::WRITABLE)
        {
            Ok(()) => Some(Watch { poll, events }),
            Err(_) => {
                drop((poll, events));
                None
            }
        }
    }

    // Whether something is taken now. The poll reports to a new registration what is ready already. If the system
    // refuses to say, it is tried.
    fn is_taking(&mut self) -> bool {
        let mut source = SourceFd(&STANDARD_ERROR);
        let registry = self.poll.registry();
        if registry
            .reregister(&mut source, TAKING, Interest::WRITABLE)
            .is_err()
        {
            return true;
        }
        match self.poll.poll(&mut self.events, Some(Duration::ZERO)) {
            Ok(()) => self.events.iter().next().is_some(),
            Err(_) => true,
        }
    }
}

impl StandardError {
    pub(crate) fn new<R: Files + Net>(rt: &R, alloc: Global) -> Result<StandardError, AllocError> {
        let events = Events::with_capacity(alloc, 1)?;
        let is_device = match fs::metadata(rt, ITS_FILE) {
            Ok(data) => data.file_type().is_char_device(),
            Err(_) => true,
        };
        Ok(StandardError {
            is_leveled: false,
            watch: Watch::new(rt, events),
            is_device,
            alloc,
            rest: String::new(alloc),
            from: 0,
            left: 0,
        })
    }

    /// A pass of the loop begins to log.
    pub(crate) fn begin(&mut self) {
        self.left = LETTERS;
    }

    /// Whether nothing is left of a line.
    pub(crate) fn is_done(&self) -> bool {
        self.from >= self.rest.len()
    }

    /// Logs the notice in a line. False: that would have to wait, and nothing of it was written.
    pub(crate) fn tell<R: Eprint>(&mut self, rt: &R, notice: &Notice) -> bool {
        if !self.go_on(rt) || !self.is_taking() {
            return false;
        }
        let level = match notice.kind {
            _ if !self.is_leveled => "",
            NoticeKind::Refusal => "<4>",
            NoticeKind::Run => "<6>",
        };
        // Without memory the line is not logged.
        self.from = 0;
        match line_of(self.alloc, level, notice.text.as_str()) {
            Ok(line) => self.rest = line,
            Err(_) => return true,
        }
        if self.is_device {
            let _is_done = self.go_on(rt);
        } else {
            let _written = eprint!(rt; "{}", self.rest.as_str());
            self.rest.clear();
        }
        true
    }

    /// Writes what is left of a line, letter by letter, while that is taken without a wait and the letters of the pass
    /// are not spent. True: nothing is left.
    pub(crate) fn go_on<R: Eprint>(&mut self, rt: &R) -> bool {
        for _ in 0..self.rest.len() {
            if self.is_done() {
                return true;
            }
            if self.left == 0 || !self.is_taking() {
                return false;
            }
            self.left = self.left.saturating_sub(1);
            let letter = match self.rest.as_str().get(self.from..) {
                Some(left) => first_of(left),
                None => "",
            };
            let _written = eprint!(rt; "{letter}");
            // A letter is never empty.
            self.from = self.from.saturating_add(letter.len().max(1));
        }
        self.is_done()
    }

    fn is_taking(&mut self) -> bool {
        match &mut self.watch {
            None => true,
            Some(watch) => watch.is_taking(),
        }
    }
}

// The line of the text, which may be of others: level, name of the program, and the text as `plain_text` has it.
fn line_of(alloc: Global, level: &str, text: &str) -> Result<String, AllocError>
    ensures { IfOk result (λ line. string_bytes line
        ≡ level.now ++ (codes "jobd: " ++ (plain_text (chars text.now) ++ 10 ∷ []))) }
{
    let mut line = String::new(alloc);
    let is_begun = line.push_str(level).is_ok();
    let is_named = line.push_str("jobd: ").is_ok();
    let is_told = add_plain(&mut line, text).is_ok();
    let is_ended = line.push('\n').is_ok();
    if is_begun && is_named && is_told && is_ended {
        Ok(line)
    } else {
        drop(line);
        Err(AllocError)
    }
}

// The first letter of the text.
fn first_of(text: &str) -> &str {
    for bytes in 1..5 {
        if let Some(letter) = text.get(..bytes) {
            return letter;
        }
    }
    text
}
