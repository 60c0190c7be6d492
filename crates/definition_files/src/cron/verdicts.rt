//! What was said of the lines so far.

ghost use Rattle.std.specs.Prelude.{◌≡◌, ◌||◌, false, if◌then◌else◌};
ghost use Rattle.exit_status.specs.declared.TheConstants as statuses;
ghost use Rattle.definition_files.specs.LineStatus.{is_refused, is_unkept};

use crate::cron::keeper::LineVerdict;
use exit_status::{BAD_FILE, REFUSED};

/// Whether a line was refused, and whether a definition could not be kept.
#[derive(Clone, Copy)]
pub(crate) struct LineVerdicts {
    pub(crate) has_refused: bool,
    pub(crate) has_unkept: bool,
}

impl LineVerdicts {
    /// The verdicts on no line.
    pub(crate) fn none() -> LineVerdicts
        ensures { result ≡ record { has_refused = false; has_unkept = false } }
    {
        LineVerdicts {
            has_refused: false,
            has_unkept: false,
        }
    }

    /// The verdicts with one more.
    pub(crate) fn with(self, verdict: LineVerdict) -> LineVerdicts
        ensures refused { result.has_refused ≡ self.has_refused || is_refused verdict }
        ensures unkept { result.has_unkept ≡ self.has_unkept || is_unkept verdict }
    {
        match verdict {
            LineVerdict::Well => self,
            LineVerdict::Refused => LineVerdicts {
                has_refused: true,
                has_unkept: self.has_unkept,
            },
            LineVerdict::Unkept => LineVerdicts {
                has_refused: self.has_refused,
                has_unkept: true,
            },
        }
    }

    /// The exit status of the lines.
    pub(crate) fn status(self) -> u8
        ensures { result ≡ if self.has_unkept then statuses.BAD_FILE else
            if self.has_refused then statuses.REFUSED else 0 }
    {
        if self.has_unkept {
            BAD_FILE
        } else if self.has_refused {
            REFUSED
        } else {
            0
        }
    }
}
