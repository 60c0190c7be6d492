//! The exit status of an apply.

ghost use Rattle.std.specs.Prelude.{◌≡◌, ◌||◌, false, ◌==◌, if◌then◌else◌};
ghost use Rattle.exit_status.specs.declared.TheConstants as statuses;

use exit_status::{BAD_FILE, DIFFERS};

/// What became of steps, as far as the exit status says it.
#[derive(Clone, Copy)]
pub struct Ending {
    /// A file could not be read.
    pub has_unread: bool,
    /// The code of the first refusal; 0, if there was none.
    pub refusal: u8,
    /// A step was left, or waits.
    pub has_left: bool,
}

impl Ending {
    /// All is in effect.
    pub fn well() -> Ending
        ensures { (result.has_unread ≡ false) × (result.refusal ≡ 0) × (result.has_left ≡ false) }
    {
        Ending {
            has_unread: false,
            refusal: 0,
            has_left: false,
        }
    }

    /// That, and then this.
    pub fn and(self, next: Ending) -> Ending
        ensures unread { result.has_unread ≡ self.has_unread || next.has_unread }
        ensures left { result.has_left ≡ self.has_left || next.has_left }
        ensures refusal { result.refusal ≡ if self.refusal == 0 then next.refusal else self.refusal }
    {
        Ending {
            has_unread: self.has_unread || next.has_unread,
            refusal: if self.refusal == 0 {
                next.refusal
            } else {
                self.refusal
            },
            has_left: self.has_left || next.has_left,
        }
    }

    /// 65, if a file could not be read; else the code of the first refusal; else 2, if something was left or waits; else 0.
    pub fn status(self) -> u8
        ensures { result ≡ if self.has_unread then statuses.BAD_FILE else if self.refusal == 0 then (if self.has_left then statuses.DIFFERS else 0) else self.refusal }
    {
        if self.has_unread {
            BAD_FILE
        } else if self.refusal != 0 {
            self.refusal
        } else if self.has_left {
            DIFFERS
        } else {
            0
        }
    }
}
