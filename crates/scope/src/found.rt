//! What a report on journals or on a status file found besides what it writes, and the exit status that follows from it.

ghost use Rattle.std.specs.Prelude.{◌≡◌};
ghost use Rattle.scope.specs.Findings.{both_found, findings_status};

use exit_status::{BAD_CLOCK, BAD_FILE, DIFFERS, USAGE};

/// What was found.
#[derive(Clone, Copy)]
pub(crate) struct Findings {
    /// The clock could not be read.
    pub(crate) has_no_clock: bool,
    /// A journal or the status file was not found, could not be read to its end, or is of another kind.
    pub(crate) is_unreadable: bool,
    /// A line of a journal is not an event.
    pub(crate) is_damaged: bool,
    /// Nothing has one of the named labels; for `show`, it is not loaded.
    pub(crate) is_nowhere: bool,
    /// A time of the arguments is invalid.
    pub(crate) is_misused: bool,
    /// Failing jobs are asked for, and one fails; or files differ from what is loaded.
    pub(crate) differs: bool,
}

/// All is well.
pub(crate) const WELL: Findings = Findings {
    has_no_clock: false,
    is_unreadable: false,
    is_damaged: false,
    is_nowhere: false,
    is_misused: false,
    differs: false,
};

/// A source could not be read.
pub(crate) const UNREADABLE: Findings = Findings {
    has_no_clock: false,
    is_unreadable: true,
    is_damaged: false,
    is_nowhere: false,
    is_misused: false,
    differs: false,
};

/// The clock could not be read.
pub(crate) const NO_CLOCK: Findings = Findings {
    has_no_clock: true,
    is_unreadable: false,
    is_damaged: false,
    is_nowhere: false,
    is_misused: false,
    differs: false,
};

/// Nothing has one of the named labels, if that is so.
pub(crate) fn nowhere_if(is_nowhere: bool) -> Findings {
    Findings { is_nowhere, ..WELL }
}

/// A job fails or a file differs, if that is so and asked for.
pub(crate) fn differing_if(differs: bool) -> Findings {
    Findings { differs, ..WELL }
}

impl Findings {
    /// What either found.
    pub(crate) fn and(self, other: Findings) -> Findings
        ensures { result ≡ both_found self other }
    {
        Findings {
            has_no_clock: self.has_no_clock | other.has_no_clock,
            is_unreadable: self.is_unreadable | other.is_unreadable,
            is_damaged: self.is_damaged | other.is_damaged,
            is_nowhere: self.is_nowhere | other.is_nowhere,
            is_misused: self.is_misused | other.is_misused,
            differs: self.differs | other.differs,
        }
    }

    /// The exit status: 71 if the clock can't be read, else 65 for a source or a label, else 64 for a time that is invalid. Else it is 2 if a job fails or a
    /// file differs.
    pub(crate) fn status(self) -> u8
        ensures { result ≡ findings_status self }
    {
        if self.has_no_clock {
            BAD_CLOCK
        } else if self.is_unreadable | self.is_damaged | self.is_nowhere {
            BAD_FILE
        } else if self.is_misused {
            USAGE
        } else if self.differs {
            DIFFERS
        } else {
            0
        }
    }
}
