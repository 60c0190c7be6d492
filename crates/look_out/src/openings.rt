//! Questions that are asked at once and waited for, half a second at most: what a start or a bind needs.

ghost use Rattle.std.specs.Prelude.{◌≡◌, ℕ, None, Err, true, false, [], length, OnOk, OnErr};

use crate::ahead::Ahead;
use crate::answer::Answer;
use crate::helper::{Helper, is_end, is_missing};
use crate::hung::Hung;
use crate::inbox::Inbox;
use crate::question::{Asks, NEXT_START, Question, can_be_asked};
use crate::spare::{PATIENCE, Spare};
use crate::telling::Telling;
use std::alloc::Global;
use std::fs::Files;
use std::io::{ErrorKind, Read, Write};
use std::marker::Model;
use std::net::Net;
use std::os::unix::net::UnixStream;
use std::process::{OpenProcess, Processes};
use std::rt::Clock;
use std::time::{Duration, Instant};
use std::{fs, io};

/// How many bytes of answers are read at a time.
const ROOM: usize = 512;

/// What became of questions.
#[derive(Clone, Copy)]
pub enum QuestionOutcome {
    /// Each was answered, in their order.
    Answered,
    /// The question at this place got no answer in time: its path hangs.
    Hangs(usize),
    /// None was asked: what hung at the path of this one hangs there still.
    StillHangs(usize),
    /// A path can't be asked about, or the helper exited twice before its answer, which says nothing of the paths.
    Unasked(io::Error),
    /// The system starts no helper now, and this is its reason. None was asked.
    Refused(io::Error),
    /// This program's own file is not there to be started as a helper, or what is there is not one: none that was
    /// started has ever answered.
    Unstarted,
}

impl QuestionOutcome {
    /// The place of the question whose path hangs.
    pub fn silent_at(self) -> Option<usize> {
        match self {
            QuestionOutcome::Hangs(at) | QuestionOutcome::StillHangs(at) => Some(at),
            _ => None,
        }
    }
}

/// Why questions have no answers.
#[derive(Clone, Copy)]
enum Lack {
    /// They did not come in time.
    Late,
    /// The system starts no helper.
    Refused(io::Error),
    /// The helper exited, or what it sent is not an answer, or memory lacked for them.
    Lost(io::Error),
}

/// The helper that is asked: none before the first questions.
#[derive(Drop)]
pub struct Openings {
    alloc: Global,
    helper: Option<Helper>,
    telling: Telling,
    inbox: Inbox,
    ahead: Ahead,
    // How many answers are still to come that nobody waits for.
    owed: usize,
    // What may be waited altogether for answers that don't come.
    spare: Spare,
    // What it holds can be opened.
    is_open: bool,
    // One has answered.
    is_known: bool,
}

impl Model for Openings {
    ghost use Rattle.std.specs.Prelude.{Bool, is_some};

    // whether one is kept
    ghost Value = { Bool };

    ghost view = { λ k. is_some k.helper };
}

impl Openings {
    pub fn new(alloc: Global) -> Openings
        ensures { result ≡ false }
    {
        Openings {
            alloc,
            helper: None,
            telling: Telling::new(alloc),
            inbox: Inbox::new(alloc),
            ahead: Ahead::new(alloc),
            owed: 0,
            spare: Spare::new(),
            is_open: false,
            is_known: false,
        }
    }

    /// Asks all questions at this `up`, and waits half a second at most, or less where one hung before. All waits that
    /// end without an answer take two seconds at most, one of them at paths that hung before, and half of the time
    /// after that. Then none is asked. The answers replace the contents of `answers`. A helper that gave no answer in
    /// time is kept no longer: what it says late is nobody's answer, and what it held is held no longer.
    ///
    /// What was opened for the questions before the last ones is closed. If all are answered and nothing hangs, those that are
    /// [expected](Openings::expect) are sent. Asked next, they are not sent again.
    pub fn ask<
        P: OpenProcess + Drop,
        R: AllocGlobal + Clock + Files + Net + Processes<Started = P>,
    >(
        &mut self,
        rt: &R,
        hung: &mut Hung<P>,
        questions: &[Question<'_>],
        answers: &mut Vec<Answer>,
        up: u64,
    ) -> QuestionOutcome
        ensures late { (at : ℕ) → result ≡ QuestionOutcome.Hangs at → self.new ≡ false }
        ensures still { (at : ℕ) → result ≡ QuestionOutcome.StillHangs at → (self.new ≡ self.old) × (answers.new.items ≡ []) }
        ensures held { result ≡ QuestionOutcome.Answered → (self.new ≡ true) × (length answers.new.items ≡ length questions.now) }
    {
        let asked = self.ask_now(rt, hung, questions, answers, up);
        if matches!(asked, QuestionOutcome::Answered) {
            self.send_ahead(hung, up);
        }
        self.ahead.forget_next();
        asked
    }

    fn ask_now<
        P: OpenProcess + Drop,
        R: AllocGlobal + Clock + Files + Net + Processes<Started = P>,
    >(
        &mut self,
        rt: &R,
        hung: &mut Hung<P>,
        questions: &[Question<'_>],
        answers: &mut Vec<Answer>,
        up: u64,
    ) -> QuestionOutcome
        ensures late { (at : ℕ) → result ≡ QuestionOutcome.Hangs at → self.new ≡ false }
        ensures still { (at : ℕ) → result ≡ QuestionOutcome.StillHangs at → (self.new ≡ self.old) × (answers.new.items ≡ []) }
        ensures held { result ≡ QuestionOutcome.Answered → (self.new ≡ true) × (length answers.new.items ≡ length questions.now) }
    {
        answers.clear();
        hung.reap();
        self.spare.go_on(up);
        let spare = self.spare;
        if let Some(at) = first_shut(rt, hung, spare, questions, up) {
            return QuestionOutcome::StillHangs(at);
        }
        let text = match text_of(self.alloc, questions) {
            Ok(text) => text,
            Err(error) => return QuestionOutcome::Unasked(error),
        };
        let asking = Asking {
            text: text.as_slice(),
            count: questions.len(),
            patience: patience_for(hung, spare, questions),
            up,
        };
        let begun = Instant::now(rt);
        let first = self.ask_once(rt, hung, &asking, answers);
        let last = match first {
            Err(Lack::Lost(_)) => self.ask_once(rt, hung, &asking, answers),
            answer => answer,
        };
        let patience = asking.patience;
        drop(text);
        match last {
            Ok(()) => {
                self.is_known = true;
                open_all(hung, questions, answers.as_slice());
                QuestionOutcome::Answered
            }
            Err(Lack::Late) => {
                let at = answers.len();
                self.spare.spend(spent_since(rt, begun).max(patience));
                self.give_up(rt, hung, path_at(questions, at), up, patience);
                QuestionOutcome::Hangs(at)
            }
            Err(Lack::Refused(_)) if is_missing(rt) => QuestionOutcome::Unstarted,
            Err(Lack::Refused(error)) => QuestionOutcome::Refused(error),
            Err(Lack::Lost(error)) if !self.is_known && is_end(&error) =>
                QuestionOutcome::Unstarted,
            Err(Lack::Lost(error)) => QuestionOutcome::Unasked(error),
        }
    }

    // An error in time says nothing of the paths; the helper is then kept no longer.
    fn ask_once<P: OpenProcess + Drop, R: Clock + Files + Net + Processes<Started = P>>(
        &mut self,
        rt: &R,
        hung: &mut Hung<P>,
        asking: &Asking<'_>,
        answers: &mut Vec<Answer>,
    ) -> Result<(), Lack>
        ensures answered { OnOk result ((self.new ≡ true) × (length answers.new.items ≡ asking.now.count)) }
        ensures late { result ≡ Err Lack.Late → self.new ≡ true }
    {
        answers.clear();
        let is_sent = self.is_sent_ahead(hung, asking);
        if !is_sent && self.ahead.is_sent() {
            self.release(hung, asking.up);
        }
        match self.begin(rt, hung) {
            Ok(()) => {}
            Err(error) => return Err(Lack::Refused(error)),
        }
        let told = match self.telling.make(hung, asking.up, false) {
            Ok(count) => count,
            Err(error) => return Err(Lack::Lost(io::Error::from(error))),
        };
        self.owed = self.owed.saturating_add(told);
        let owed = self.owed;
        let text = if is_sent { b"".as_slice() } else { asking.text };
        let answer = match &mut self.helper {
            Some(helper) => {
                let news = self.telling.news();
                let inbox = &mut self.inbox;
                exchange(rt, helper, inbox, news, text, asking, owed, answers)
            }
            None => Err(Lack::Lost(io::Error::from(ErrorKind::NotFound))),
        };
        match answer {
            Ok(()) => {
                self.owed = 0;
                self.ahead.begin();
            }
            Err(Lack::Late) => {}
            Err(_) => self.release(hung, asking.up),
        }
        answer
    }

    // Whether the questions were sent ahead to the helper that is kept, and nothing hung since.
    fn is_sent_ahead<P: OpenProcess + Drop>(&self, hung: &Hung<P>, asking: &Asking<'_>) -> bool
        ensures { result ≡ true → self.now ≡ true }
    {
        self.helper.is_some() && hung.is_quiet() && self.ahead.has(asking.text, asking.up)
    }

    // Sends what is expected, unless something hangs or hung.
    fn send_ahead<P: OpenProcess + Drop>(&mut self, hung: &Hung<P>, up: u64)
        ensures { self.new ≡ self.old }
    {
        if !hung.is_calm() || !self.telling.is_empty() || self.spare.is_spent(false) {
            return;
        }
        if let Some(helper) = &mut self.helper {
            self.ahead.send(&mut helper.socket, up);
        }
    }

    // Starts a helper, if there is none.
    fn begin<P: OpenProcess + Drop, R: Files + Net + Processes<Started = P>>(
        &mut self,
        rt: &R,
        hung: &mut Hung<P>,
    ) -> io::Result<()>
        ensures kept { OnOk result (self.new ≡ true) }
        ensures none { OnErr result (self.new ≡ false) }
    {
        if self.helper.is_some() {
            return Ok(());
        }
        match hung.start(rt, true) {
            Ok(helper) => {
                self.owed = 0;
                self.telling.begin();
                self.inbox.clear();
                self.ahead.begin();
                self.is_open = reaches(rt, self.alloc, helper.id);
                self.helper = Some(helper);
                Ok(())
            }
            Err(error) => Err(error),
        }
    }

    /// The PID of the helper that is kept, if what it holds can be opened: by `/proc/ID/fd/NUMBER`. Linux closes that
    /// folder to others where this program's file may not be read, or has capabilities of its own.
    pub fn id(&self) -> Option<u32>
        ensures { self.now ≡ false → result ≡ None }
    {
        match &self.helper {
            Some(helper) if self.is_open => Some(helper.id),
            _ => None,
        }
    }

    /// These questions are expected after the next ones: so their answers may be there once they are asked. If others are asked
    /// then, or more than half a second later, the helper is replaced.
    pub fn expect(&mut self, questions: &[Question<'_>])
        ensures { self.new ≡ self.old }
    {
        match text_of(self.alloc, questions) {
            Ok(text) => self.ahead.expect(text),
            Err(_) => self.ahead.forget_next(),
        }
    }

    /// What was opened is held no longer, or no longer than up to the next questions, if these were sent ahead. It does not wait
    /// for that.
    pub fn forget<P: OpenProcess + Drop>(&mut self, hung: &mut Hung<P>, up: u64) {
        if !self.ahead.may_close() {
            return;
        }
        let is_asked = match &mut self.helper {
            Some(helper) => helper.socket.write_all(b"f \0".as_slice()).is_ok(),
            None => return,
        };
        if is_asked {
            self.owed = self.owed.saturating_add(1);
        } else {
            self.release(hung, up);
        }
    }

    // Kills the helper, which hangs where what was asked led, and does not wait for that.
    fn give_up<P: OpenProcess + Drop, R: AllocGlobal + Files>(
        &mut self,
        rt: &R,
        hung: &mut Hung<P>,
        asked: &str,
        up: u64,
        waited: u64,
    )
        requires { self.old ≡ true }
        ensures { self.new ≡ false }
    {
        if let Some(helper) = self.helper.take() {
            let path = self.inbox.place_of(asked);
            hung.hangs(rt, asked, path, helper, up, waited, false);
        }
    }

    /// Kills the helper that is kept, if there is one: also one that was stopped. It is waited for later.
    pub fn release<P: OpenProcess + Drop>(&mut self, hung: &mut Hung<P>, up: u64)
        ensures { self.new ≡ false }
    {
        if let Some(helper) = self.helper.take() {
            hung.end(helper, up);
        }
    }
}

/// Questions that are sent: their text and number, how many milliseconds their answers may take, and the `up` of now.
#[derive(Clone, Copy)]
struct Asking<'a> {
    text: &'a [u8],
    count: usize,
    patience: u64,
    up: u64,
}

// What a read or a write of the socket says: it ends at its time.
fn lack_of(error: io::Error) -> Lack {
    if error.kind() == ErrorKind::WouldBlock {
        Lack::Late
    } else {
        Lack::Lost(error)
    }
}

// Whether the folder of what the process holds is open to this one. Its input is a socket, whose metadata can then be
// read.
fn reaches<R: Files>(rt: &R, alloc: Global, id: u32) -> bool {
    match format!(in alloc; "/proc/{id}/fd/0") {
        Ok(path) => {
            let is_open = fs::metadata(rt, path.as_str()).is_ok();
            drop(path);
            is_open
        }
        Err(_) => false,
    }
}

// How many milliseconds have passed since then; a helper's start takes its time too.
fn spent_since<R: Clock>(rt: &R, begun: io::Result<Instant>) -> u64 {
    let Ok(begun) = begun else {
        return 0;
    };
    match begun.elapsed(rt) {
        Ok(passed) => u64::try_from(passed.as_millis()).unwrap_or(u64::MAX),
        Err(_) => 0,
    }
}

// Sends the news and the text, and takes in all answers that are owed and that were asked for.
fn exchange<R: Clock>(
    rt: &R,
    helper: &mut Helper,
    inbox: &mut Inbox,
    news: &[u8],
    text: &[u8],
    asking: &Asking<'_>,
    owed: usize,
    answers: &mut Vec<Answer>,
) -> Result<(), Lack>
    requires { answers.old.items ≡ [] }
    ensures { OnOk result (length answers.new.items ≡ asking.now.count) }
{
    let since = match Instant::now(rt) {
        Ok(since) => since,
        Err(error) => return Err(Lack::Lost(error)),
    };
    match send(&mut helper.socket, news, text) {
        Ok(()) => {}
        Err(error) => return Err(lack_of(error)),
    }
    let patience = asking.patience;
    for _ in 0..owed {
        match next_answer(rt, helper, inbox, since, patience) {
            Ok(_) => {}
            Err(lack) => return Err(lack),
        }
    }
    take_answers(rt, helper, inbox, asking.count, answers, since, patience)
}

fn send(socket: &mut UnixStream, news: &[u8], text: &[u8]) -> io::Result<()> {
    if !news.is_empty() {
        socket.write_all(news)?;
    }
    socket.write_all(text)
}

fn take_answers<R: Clock>(
    rt: &R,
    helper: &mut Helper,
    inbox: &mut Inbox,
    count: usize,
    answers: &mut Vec<Answer>,
    since: Instant,
    patience: u64,
) -> Result<(), Lack>
    requires { answers.old.items ≡ [] }
    ensures { OnOk result (length answers.new.items ≡ count) }
{
    for _ in 0..count {
        match next_answer(rt, helper, inbox, since, patience) {
            Ok(answer) => {
                if answers.push(answer).is_err() {
                    return Err(Lack::Lost(io::Error::from(ErrorKind::OutOfMemory)));
                }
            }
            Err(lack) => return Err(lack),
        }
    }
    Ok(())
}

// The next answer: it may have come already.
fn next_answer<R: Clock>(
    rt: &R,
    helper: &mut Helper,
    inbox: &mut Inbox,
    since: Instant,
    patience: u64,
) -> Result<Answer, Lack> {
    for _ in 0..u64::MAX {
        match inbox.next() {
            Ok(Some(answer)) => return Ok(answer),
            Ok(None) => {}
            Err(error) => return Err(Lack::Lost(error)),
        }
        match read_more(rt, helper, inbox, since, patience) {
            Ok(()) => {}
            Err(lack) => return Err(lack),
        }
    }
    Err(Lack::Late)
}

fn read_more<R: Clock>(
    rt: &R,
    helper: &mut Helper,
    inbox: &mut Inbox,
    since: Instant,
    patience: u64,
) -> Result<(), Lack> {
    let passed = match since.elapsed(rt) {
        Ok(passed) => u64::try_from(passed.as_millis()).unwrap_or(u64::MAX),
        Err(error) => return Err(Lack::Lost(error)),
    };
    let left = patience.saturating_sub(passed);
    if left == 0 {
        return Err(Lack::Late);
    }
    match wait_at_most(helper, left) {
        Ok(()) => {}
        Err(error) => return Err(Lack::Lost(error)),
    }
    let mut room = [0u8; ROOM];
    match helper.socket.read(&mut room) {
        Ok(0) => Err(Lack::Lost(io::Error::from(ErrorKind::UnexpectedEof))),
        Ok(count) => match inbox.put(&room[..count]) {
            Ok(()) => Ok(()),
            Err(error) => Err(Lack::Lost(io::Error::from(error))),
        },
        Err(error) => Err(lack_of(error)),
    }
}

// A read of its socket ends after `left` milliseconds. What was said last is not said again.
fn wait_at_most(helper: &mut Helper, left: u64) -> io::Result<()> {
    if helper.waits == left {
        return Ok(());
    }
    helper.waits = left;
    helper
        .socket
        .set_read_timeout(Some(Duration::from_millis(left)))
}

fn first_shut<P: OpenProcess + Drop, R: AllocGlobal + Files>(
    rt: &R,
    hung: &Hung<P>,
    spare: Spare,
    questions: &[Question<'_>],
    up: u64,
) -> Option<usize> {
    let mut at = 0usize;
    for question in questions {
        let path = question.path;
        if question.asks != Asks::Forget
            && (spare.is_spent(hung.hung_before(path)) || hung.is_shut(rt, path, up, false))
        {
            return Some(at);
        }
        at = at.saturating_add(1);
    }
    None
}

fn patience_for<P: OpenProcess + Drop>(
    hung: &Hung<P>,
    spare: Spare,
    questions: &[Question<'_>],
) -> u64 {
    let mut patience = PATIENCE;
    for question in questions {
        if question.asks != Asks::Forget {
            let path = question.path;
            patience = patience
                .min(spare.patience(hung.hung_before(path)))
                .min(hung.own_patience(path));
        }
    }
    patience
}

// What was asked about is open, but where a way led to what is shut.
fn open_all<P: OpenProcess + Drop>(
    hung: &mut Hung<P>,
    questions: &[Question<'_>],
    answers: &[Answer],
) {
    let mut at = 0usize;
    for question in questions {
        if answers.get(at).copied() != Some(Answer::Shut) {
            hung.answered(question.path);
        }
        at = at.saturating_add(1);
    }
}

fn path_at<'a>(questions: &[Question<'a>], at: usize) -> &'a str {
    match questions.get(at) {
        Some(question) => question.path,
        None => "",
    }
}

// They belong to another start than those before. `InvalidInput`: a path can't be asked about.
fn text_of(alloc: Global, questions: &[Question<'_>]) -> io::Result<Vec<u8>> {
    let mut text = Vec::new(alloc);
    let mut answer = begin_start(&mut text, questions);
    for question in questions {
        if answer.is_err() {
            break;
        }
        answer = put_question(&mut text, question);
    }
    match answer {
        Ok(()) => Ok(text),
        Err(error) => {
            drop(text);
            Err(error)
        }
    }
}

// No questions have no text.
fn begin_start(text: &mut Vec<u8>, questions: &[Question<'_>]) -> io::Result<()> {
    if questions.is_empty() {
        return Ok(());
    }
    text.extend_from_slice(NEXT_START.as_bytes())?;
    Ok(())
}

fn put_question(text: &mut Vec<u8>, question: &Question<'_>) -> io::Result<()> {
    if !can_be_asked(question.path) {
        return Err(io::Error::from(ErrorKind::InvalidInput));
    }
    text.extend_from_slice(question.asks.letter().as_bytes())?;
    text.extend_from_slice(question.path.as_bytes())?;
    text.extend_from_slice(b"\0".as_slice())?;
    Ok(())
}
