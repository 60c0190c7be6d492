//! Questions that are sent before they are asked, while the launcher starts another process. Their answers have come
//! then once they are asked.

ghost use Rattle.std.specs.Prelude.{◌≡◌, ◌≤◌, ◌+◌, true};

use std::alloc::Global;
use std::io::Write;

/// How many bytes of questions are sent ahead at most. A helper reads this number at once, and a socket has room for more.
const MOST: usize = 4_096;

/// How many milliseconds after they were sent they may be asked.
const WINDOW: u64 = 500;

/// The questions that are expected next, and those that were sent and not asked yet.
#[derive(Drop)]
pub(crate) struct Ahead {
    // Empty: none are expected.
    next: Vec<u8>,
    // Empty: none were sent, or not all of them, or what they opened was closed since.
    sent: Vec<u8>,
    // Something was sent to the helper, after this `up`.
    is_sent: bool,
    at: u64,
    // It was sent since the last time that something was to be closed.
    is_new: bool,
}

impl Ahead {
    pub(crate) fn new(alloc: Global) -> Ahead {
        Ahead {
            next: Vec::new(alloc),
            sent: Vec::new(alloc),
            is_sent: false,
            at: 0,
            is_new: false,
        }
    }

    /// Nothing that was sent is still to be answered.
    pub(crate) fn begin(&mut self) {
        self.sent.clear();
        self.is_sent = false;
        self.is_new = false;
    }

    /// The text is expected next. An empty text: none is.
    pub(crate) fn expect(&mut self, text: Vec<u8>) {
        self.next = text;
    }

    /// What was expected is no longer.
    pub(crate) fn forget_next(&mut self) {
        self.next.clear();
    }

    /// Whether something was sent ahead to the helper, and not asked yet.
    pub(crate) fn is_sent(&self) -> bool {
        self.is_sent
    }

    /// Whether this text was sent ahead, as a whole and alone, and not long before this `up`.
    pub(crate) fn has(&self, text: &[u8], up: u64) -> bool
        ensures same { result ≡ true → self.now.sent.items ≡ text.now }
        ensures fresh { result ≡ true → up ≤ self.now.at + 500 }
    {
        !text.is_empty() && up <= self.at.saturating_add(WINDOW) && self.sent.as_slice() == text
    }

    /// Sends what is expected next, if there is something and nothing else is on its way. Its questions were asked at this
    /// `up` at the earliest.
    pub(crate) fn send<S: Write>(&mut self, socket: &mut S, up: u64) {
        if self.is_sent || self.next.is_empty() || self.next.len() > MOST {
            return;
        }
        self.is_sent = true;
        self.is_new = true;
        self.at = up;
        self.sent.clear();
        if socket.write_all(self.next.as_slice()).is_ok()
            && self.sent.extend_from_slice(self.next.as_slice()).is_err()
        {
            self.sent.clear();
        }
    }

    /// What the helper holds is to be closed. False: not now, since questions were sent after it. The first of them closes it.
    pub(crate) fn may_close(&mut self) -> bool {
        let may_close = !self.is_new;
        self.is_new = false;
        if may_close {
            self.sent.clear();
        }
        may_close
    }
}
