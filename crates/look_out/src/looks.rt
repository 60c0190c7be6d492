//! Path checks that nobody waits for: paths are asked about, and the answers taken as they come.

use crate::answer::Answer;
use crate::batch::{Batch, MOST, Seen};
use crate::helper::{Helper, is_end, is_missing};
use crate::hung::Hung;
use crate::inbox::Inbox;
use crate::question::{Asks, can_be_asked};
use crate::spare::{LEAST_OF_NEW, Spare};
use crate::telling::Telling;
use std::alloc::{AllocError, Global};
use std::fs::Files;
use std::io;
use std::io::{ErrorKind, Read, Write};
use std::net::Net;
use std::process::{OpenProcess, Processes};

/// How many bytes of questions are on their way at most.
const ON_THE_WAY: usize = 32_768;

/// How many bytes of answers are read at a time.
const ROOM: usize = 9_216;

/// How many times in a row a helper may exit before the question that it has is given up.
const LOSSES: u32 = 2;

/// The questions about paths, and the helper that is asked: none before the first question.
#[derive(Drop)]
pub struct Looks {
    alloc: Global,
    helper: Option<Helper>,
    telling: Telling,
    // How many of the next answers are to what it had to learn, and not to a question about a path.
    owed: usize,
    batch: Batch,
    // The text of the questions, and how much of it was sent.
    text: Vec<u8>,
    sent: usize,
    inbox: Inbox,
    // The `up` at which the last answer came, or the first question that waits was asked; and how long it may still
    // wait for answers that don't come.
    since: u64,
    spare: Spare,
    losses: u32,
    // One has answered.
    is_known: bool,
}

impl Looks {
    pub fn new(alloc: Global) -> Looks {
        Looks {
            alloc,
            helper: None,
            telling: Telling::new(alloc),
            owed: 0,
            batch: Batch::new(alloc),
            text: Vec::new(alloc),
            sent: 0,
            inbox: Inbox::new(alloc),
            since: 0,
            spare: Spare::new(),
            losses: 0,
            is_known: false,
        }
    }

    /// A series of checks begins: what was asked before and is not taken is no longer taken.
    pub fn begin_round(&mut self) {
        self.batch.leave();
        self.make_room();
    }

    /// Asks what is at the path, if that was not asked in this series yet. False: there is no room for a further
    /// question before those that were asked are taken.
    pub fn ask<P: OpenProcess + Drop, R: AllocGlobal + Files>(
        &mut self,
        rt: &R,
        hung: &mut Hung<P>,
        path: &str,
        up: u64,
    ) -> bool {
        self.make_room();
        let is_behind = match self.batch.entries.last() {
            Some(last) => last.path.as_str() < path,
            None => true,
        };
        if !is_behind && self.batch.find(path).is_some() {
            return true;
        }
        let is_short = self.text.len().saturating_add(path.len()) < ON_THE_WAY;
        if self.batch.entries.len() >= MOST || !(is_short || self.text.is_empty()) {
            return false;
        }
        self.add(rt, hung, path, up);
        true
    }

    // Once all are decided and taken, they make room. What was not sent of the text stays.
    fn make_room(&mut self) {
        if self.batch.is_decided() && self.batch.taken >= self.batch.entries.len() {
            self.batch.clear();
            if self.sent >= self.text.len() {
                self.text.clear();
                self.sent = 0;
            }
        }
    }

    fn add<P: OpenProcess + Drop, R: AllocGlobal + Files>(
        &mut self,
        rt: &R,
        hung: &mut Hung<P>,
        path: &str,
        up: u64,
    ) {
        let seen = if !can_be_asked(path) {
            Seen::Failed(io::Error::from(ErrorKind::InvalidInput))
        } else if hung.is_shut(rt, path, up, true) {
            Seen::Silent
        } else {
            Seen::Waits
        };
        if !matches!(seen, Seen::Waits) {
            drop(self.batch.add(path, seen));
            return;
        }
        if self.batch.is_decided() {
            self.since = up;
            if self.tell(hung, up).is_err() {
                self.ask_anew(hung, up);
            }
        }
        if self.batch.add(path, seen).is_ok() && put_question(&mut self.text, path).is_err() {
            self.ask_anew(hung, up);
        }
    }

    // Without memory for the text, no answer comes: the helper is killed, and the questions are asked again.
    fn ask_anew<P: OpenProcess + Drop>(&mut self, hung: &mut Hung<P>, up: u64) {
        self.text.clear();
        self.sent = 0;
        self.release(hung, up);
    }

    // What is new of where nothing is asked goes before the next question, once none waits.
    fn tell<P: OpenProcess + Drop>(&mut self, hung: &Hung<P>, up: u64) -> Result<(), AllocError> {
        let count = self.telling.make(hung, up, true)?;
        self.owed = self.owed.saturating_add(count);
        self.text.extend_from_slice(self.telling.news())
    }

    /// Whether it is known what became of the question about the path. It does not wait for that. A path that was not asked about is asked
    /// about.
    pub fn is_seen<P: OpenProcess + Drop, R: AllocGlobal + Files + Net + Processes<Started = P>>(
        &mut self,
        rt: &R,
        hung: &mut Hung<P>,
        path: &str,
        up: u64,
    ) -> bool {
        match self.batch.find(path) {
            Some((_, Seen::Waits)) => {}
            Some(_) => return true,
            None => {
                if self.batch.is_decided() && self.batch.entries.len() >= MOST {
                    self.begin_round();
                }
                if self.batch.entries.len() < MOST {
                    self.add(rt, hung, path, up);
                }
            }
        }
        self.go_on(rt, hung, up);
        match self.batch.find(path) {
            None | Some((_, Seen::Waits)) => false,
            Some(_) => true,
        }
    }

    /// What became of the question about the path, if it was asked. It is then taken, and so are those before it.
    pub fn take(&mut self, path: &str) -> Seen {
        match self.batch.find(path) {
            Some((at, seen)) => {
                self.batch.taken = at.saturating_add(1);
                seen
            }
            None => Seen::Waits,
        }
    }

    /// Sends what is not sent yet, and takes in the answers that came. One that does not come for half a second will not come.
    pub fn go_on<P: OpenProcess + Drop, R: AllocGlobal + Files + Net + Processes<Started = P>>(
        &mut self,
        rt: &R,
        hung: &mut Hung<P>,
        up: u64,
    ) {
        if self.batch.is_decided() {
            return;
        }
        self.spare.go_on(up);
        match self.begin(rt, hung, up) {
            Ok(()) => {}
            Err(_) if is_missing(rt) => {
                self.give_in(Seen::Unstarted);
                return;
            }
            Err(error) => {
                self.give_in(Seen::Failed(error));
                return;
            }
        }
        match self.exchange(hung) {
            Ok(true) => {
                self.since = up;
                self.losses = 0;
                self.is_known = true;
            }
            Ok(false) => {
                let patience = self.patience(hung);
                if up.saturating_sub(self.since) >= patience {
                    self.give_up(rt, hung, up, patience);
                }
            }
            Err(error) => self.lose(hung, error, up),
        }
    }

    // How many milliseconds the question that waits may take: less once others hung, or if this path did.
    fn patience<P: OpenProcess + Drop>(&self, hung: &Hung<P>) -> u64 {
        let patience = self.spare.patience(false);
        match self.batch.waiting() {
            Some(path) => patience.min(hung.own_patience(path)).max(LEAST_OF_NEW),
            None => patience,
        }
    }

    // Starts a helper, if there is none. It is asked all that waits.
    fn begin<P: OpenProcess + Drop, R: Net + Processes<Started = P>>(
        &mut self,
        rt: &R,
        hung: &mut Hung<P>,
        up: u64,
    ) -> io::Result<()> {
        if self.helper.is_some() {
            return Ok(());
        }
        match self.put_all(hung, up) {
            Ok(()) => {}
            Err(error) => return Err(io::Error::from(error)),
        }
        match hung.start(rt, false) {
            Ok(helper) => {
                self.helper = Some(helper);
                Ok(())
            }
            Err(error) => Err(error),
        }
    }

    // There is no helper for what waits.
    fn give_in(&mut self, seen: Seen) {
        for entry in self.batch.entries.iter_mut() {
            if matches!(entry.seen, Seen::Waits) {
                entry.seen = seen;
            }
        }
        self.batch.pass();
    }

    // The text of all questions that wait, and before them of what a new helper has to learn.
    fn put_all<P: OpenProcess + Drop>(
        &mut self,
        hung: &Hung<P>,
        up: u64,
    ) -> Result<(), AllocError> {
        self.text.clear();
        self.sent = 0;
        self.inbox.clear();
        self.owed = 0;
        self.telling.begin();
        self.tell(hung, up)?;
        for entry in self.batch.entries.iter() {
            if matches!(entry.seen, Seen::Waits) {
                put_question(&mut self.text, entry.path.as_str())?;
            }
        }
        Ok(())
    }

    // Whether an answer came.
    fn exchange<P: OpenProcess + Drop>(&mut self, hung: &mut Hung<P>) -> io::Result<bool> {
        let Some(helper) = &mut self.helper else {
            return Ok(false);
        };
        if self.sent < self.text.len() {
            match helper.socket.write(&self.text.as_slice()[self.sent..]) {
                Ok(count) => self.sent = self.sent.saturating_add(count),
                Err(error) if is_later(&error) => {}
                Err(error) => return Err(error),
            }
        }
        let mut room = [0u8; ROOM];
        let count = match helper.socket.read(&mut room) {
            Ok(0) => return Err(io::Error::from(ErrorKind::UnexpectedEof)),
            Ok(count) => count,
            Err(error) if is_later(&error) => return Ok(false),
            Err(error) => return Err(error),
        };
        match self.inbox.put(&room[..count]) {
            Ok(()) => self.receive(hung),
            Err(error) => Err(io::Error::from(error)),
        }
    }

    // Each answer is that to the first question that waits, after those that are owed.
    fn receive<P: OpenProcess + Drop>(&mut self, hung: &mut Hung<P>) -> io::Result<bool> {
        let mut has_come = false;
        for _ in 0..u64::MAX {
            let answer = match self.inbox.next() {
                Ok(Some(answer)) => answer,
                Ok(None) => break,
                Err(error) => return Err(error),
            };
            has_come = true;
            if self.owed > 0 {
                self.owed -= 1;
            } else if !self.take_answer(hung, answer) {
                return Err(io::Error::from(ErrorKind::InvalidData));
            }
        }
        Ok(has_come)
    }

    // False: no question waits for it.
    fn take_answer<P: OpenProcess + Drop>(&mut self, hung: &mut Hung<P>, answer: Answer) -> bool {
        if answer == Answer::Shut {
            let is_asked = self.batch.decide(Seen::Silent);
            self.batch.pass();
            return is_asked;
        }
        if let Some(path) = self.batch.waiting() {
            hung.answered(path);
        }
        self.batch.apply(answer)
    }

    // The first question that waits hangs. The others are asked of another helper, but for those at the same place.
    fn give_up<P: OpenProcess + Drop, R: AllocGlobal + Files>(
        &mut self,
        rt: &R,
        hung: &mut Hung<P>,
        up: u64,
        waited: u64,
    ) {
        self.spare.spend(waited);
        if let (Some(helper), Some(asked)) = (self.helper.take(), self.batch.waiting()) {
            let path = self.inbox.place_of(asked);
            hung.hangs(rt, asked, path, helper, up, waited, true);
        }
        self.decide(Seen::Silent);
        for at in self.batch.next..self.batch.entries.len() {
            self.shut(rt, hung, at, up);
        }
        self.batch.pass();
        self.since = up;
    }

    // A question that waits is not asked again if its place is shut by now.
    fn shut<P: OpenProcess + Drop, R: AllocGlobal + Files>(
        &mut self,
        rt: &R,
        hung: &Hung<P>,
        at: usize,
        up: u64,
    ) {
        if let Some(entry) = self.batch.entries.get_mut(at) {
            let waits = matches!(entry.seen, Seen::Waits);
            if waits && hung.is_shut(rt, entry.path.as_str(), up, true) {
                entry.seen = Seen::Silent;
            }
        }
    }

    fn decide(&mut self, seen: Seen) {
        self.batch.decide(seen);
        self.batch.pass();
    }

    // The helper exited. What waits is asked once more, and the first question then no more; nothing, if none has ever
    // answered.
    fn lose<P: OpenProcess + Drop>(&mut self, hung: &mut Hung<P>, error: io::Error, up: u64) {
        self.release(hung, up);
        self.losses = self.losses.saturating_add(1);
        if self.losses >= LOSSES {
            self.losses = 0;
            if !self.is_known && is_end(&error) {
                self.give_in(Seen::Unstarted);
            } else {
                self.decide(Seen::Failed(error));
            }
        }
        self.since = up;
    }

    /// Kills the helper, if there is one: also one that was stopped. It is waited for later.
    pub fn release<P: OpenProcess + Drop>(&mut self, hung: &mut Hung<P>, up: u64) {
        if let Some(helper) = self.helper.take() {
            hung.end(helper, up);
        }
    }
}

fn is_later(error: &io::Error) -> bool {
    matches!(error.kind(), ErrorKind::WouldBlock | ErrorKind::Interrupted)
}

fn put_question(text: &mut Vec<u8>, path: &str) -> Result<(), AllocError> {
    text.extend_from_slice(Asks::Look.letter().as_bytes())?;
    text.extend_from_slice(path.as_bytes())?;
    text.push(0).map_err(AllocError::from)
}
