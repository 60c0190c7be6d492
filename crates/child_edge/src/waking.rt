//! Which children a pass of the loop asks the system about, with a helper that reports their exits; and what the helper
//! writes.

ghost use Rattle.std.specs.Prelude.{◌≡◌, ◌+◌, ◌<◌, ◌≤◌, true, false};
ghost use Rattle.child_edge.specs.Waking.{is_asked_in, asks_all_in, sent_in, unsent_in};

/// After how many milliseconds all children are asked again, whatever the helper reports.
const SWEEP: u64 = 10_000;

/// What the helper knows of a child.
#[derive(Clone, Copy, PartialEq, Eq)]
pub(crate) enum Watch {
    /// The child is not known to it.
    Unsent,
    /// The child is known to it, and it reported no exit.
    Sent,
    /// It reported the exit; or the child has exited, or the system refused to wait for it.
    Due,
}

/// Whether a pass asks the system about a child. All are asked if `asks_all` says so. Only a child that the helper
/// knows, and whose exit it did not report, is ever left out.
pub(crate) fn is_asked(watch: Watch, asks_all: bool) -> bool
    ensures { result ≡ is_asked_in asks_all watch }
{
    match watch {
        Watch::Sent => asks_all,
        Watch::Unsent | Watch::Due => true,
    }
}

/// What the helper knows of a child, once it knows all children.
pub(crate) fn sent(watch: Watch) -> Watch
    ensures { result ≡ sent_in watch }
{
    match watch {
        Watch::Unsent | Watch::Sent => Watch::Sent,
        Watch::Due => Watch::Due,
    }
}

/// What the next helper knows of a child. No child is left out for what the last one knew.
pub(crate) fn unsent(watch: Watch) -> Watch
    ensures exact { result ≡ unsent_in watch }
    ensures asked { is_asked_in false result ≡ true }
{
    match watch {
        Watch::Unsent | Watch::Sent => Watch::Unsent,
        Watch::Due => Watch::Due,
    }
}

/// Whether a pass that begins now asks about all children: the helper gave no answer, or this pass is one of those that
/// ask about all.
pub(crate) fn asks_all(is_sweep: bool, is_answered: bool) -> bool
    ensures { result ≡ asks_all_in is_sweep is_answered }
{
    if is_answered { is_sweep } else { true }
}

/// Whether it is time to ask about all children again, who were all asked at `swept`.
pub(crate) fn is_sweep_due(up: u64, swept: u64) -> bool
    ensures early { up < swept + 10_000 → result ≡ false }
    ensures due { swept + 10_000 ≤ up → result ≡ true }
{
    if up.saturating_sub(swept) < SWEEP {
        return false;
    }
    true
}

/// What part of a line comes next from the helper.
#[derive(Clone, Copy, PartialEq, Eq)]
enum Field {
    Start,
    Job,
    Pid,
}

/// What a byte of the helper's ends.
#[derive(Clone, Copy, PartialEq, Eq)]
pub(crate) enum Received {
    /// The line goes on.
    Part,
    /// The child of the job that has this PID has exited.
    Exit { job: u32, pid: u32 },
    /// The answer: all that have exited were reported.
    Answer,
    /// No helper writes this.
    Wrong,
}

/// The line that comes in part.
#[derive(Clone, Copy)]
pub(crate) struct AnswerLine {
    field: Field,
    job: u32,
    pid: u32,
}

impl AnswerLine {
    pub(crate) fn new() -> AnswerLine {
        AnswerLine {
            field: Field::Start,
            job: 0,
            pid: 0,
        }
    }

    /// Takes one byte more. A line is a job's number, a blank and a PID; an empty one is the answer.
    pub(crate) fn take(&mut self, byte: u8) -> Received {
        match (byte, self.field) {
            (b'\n', Field::Start) => Received::Answer,
            (b'\n', Field::Pid) => {
                let AnswerLine { job, pid, .. } = *self;
                *self = AnswerLine::new();
                Received::Exit { job, pid }
            }
            (b' ', Field::Job) => {
                self.field = Field::Pid;
                Received::Part
            }
            (b'0'..=b'9', _) => self.digit(u32::from(byte.wrapping_sub(b'0'))),
            _ => Received::Wrong,
        }
    }

    fn digit(&mut self, digit: u32) -> Received {
        let number = if self.field == Field::Pid {
            self.pid
        } else {
            self.job
        };
        let Some(longer) = longer_by(number, digit) else {
            return Received::Wrong;
        };
        if self.field == Field::Pid {
            self.pid = longer;
        } else {
            self.field = Field::Job;
            self.job = longer;
        }
        Received::Part
    }
}

// The number with one digit more, if a `u32` holds it.
fn longer_by(number: u32, digit: u32) -> Option<u32> {
    number.checked_mul(10)?.checked_add(digit)
}
