//! What is said of a file of definitions as a whole, and of several.

ghost use Rattle.std.specs.Prelude.{◌≡◌, ◌||◌, false, if◌then◌else◌};
ghost use Rattle.exit_status.specs.declared.TheConstants as statuses;
ghost use Rattle.definition_files.specs.Reads.{is_refused, is_unread};

use exit_status::{BAD_FILE, REFUSED};

/// What is said of a file of definitions.
#[derive(Clone, Copy)]
pub enum Verdict {
    /// A load would take its definition, or it is a folder without one.
    Well,
    /// A load would refuse its definition.
    Refused,
    /// It could not be read, or is too long.
    Unread,
}

/// What is said of several files: whether one could not be read, and whether a definition would be refused.
#[derive(Clone, Copy)]
pub(crate) struct Verdicts {
    pub(crate) has_unread: bool,
    pub(crate) has_refused: bool,
}

impl Verdicts {
    /// The verdicts on no file.
    pub(crate) fn none() -> Verdicts
        ensures { result ≡ record { has_unread = false; has_refused = false } }
    {
        Verdicts {
            has_unread: false,
            has_refused: false,
        }
    }

    /// The verdicts with one more.
    pub(crate) fn with(self, verdict: Verdict) -> Verdicts
        ensures unread { result.has_unread ≡ self.has_unread || is_unread verdict }
        ensures refused { result.has_refused ≡ self.has_refused || is_refused verdict }
    {
        match verdict {
            Verdict::Well => self,
            Verdict::Refused => Verdicts {
                has_unread: self.has_unread,
                has_refused: true,
            },
            Verdict::Unread => Verdicts {
                has_unread: true,
                has_refused: self.has_refused,
            },
        }
    }

    /// The exit status of a check. The caller says whether there are warnings that count as refusals.
    pub(crate) fn check_status(self, is_warned: bool) -> u8
        ensures { result ≡ if self.has_unread then statuses.BAD_FILE else
            if self.has_refused || is_warned then statuses.REFUSED else 0 }
    {
        if self.has_unread {
            BAD_FILE
        } else if self.has_refused || is_warned {
            REFUSED
        } else {
            0
        }
    }

    /// The exit status of the coming starts.
    pub(crate) fn starts_status(self) -> u8
        ensures { result ≡ if self.has_unread || self.has_refused then statuses.BAD_FILE else 0 }
    {
        if self.has_unread || self.has_refused {
            BAD_FILE
        } else {
            0
        }
    }
}
