//! What is printed for a step.

ghost use Rattle.std.specs.Prelude.{◌≡◌, Some};
ghost use Rattle.load_plan.specs.Texts.{left_word, operation_word, reason_named, reason_text};

use crate::{Operation, Reason};

/// Why a job is left as it is. No other reason has this text.
pub fn reason_text(reason: Reason) -> &'static str
    ensures text { result.now ≡ reason_text reason }
    ensures names { reason_named result.now ≡ Some reason }
{
    match reason {
        Reason::Runs => "its run would be ended",
        Reason::Goes => "it is still being removed",
        Reason::Several => "several files name it, and not one alone is named for it",
        Reason::Refused => "its definition would be refused",
        Reason::Unread => "its file can't be read",
        Reason::LeftAtBoot => "a boot would leave its file out",
        Reason::Disabled => "its label is disabled",
        Reason::Orphan => "no file names it any more",
        Reason::UnreadBeside => "no file names it any more, but one of them can't be read",
        Reason::Warned => "there is a warning (--strict)",
        Reason::ShutsDown => "the launcher shuts down",
        Reason::Meanwhile => "it was loaded meanwhile",
    }
}

fn left_word(reason: Reason) -> &'static str
    ensures { result.now ≡ left_word reason }
{
    match reason {
        Reason::Runs => "running",
        Reason::Goes => "waits",
        Reason::Several => "twice",
        Reason::Refused => "refused",
        Reason::Unread => "unread",
        Reason::LeftAtBoot => "at boot",
        Reason::Disabled => "disabled",
        Reason::Orphan => "orphan",
        Reason::UnreadBeside => "orphan",
        Reason::Warned => "warned",
        Reason::ShutsDown => "shutdown",
        Reason::Meanwhile => "loaded",
    }
}

/// What the line of a step begins with. For a job that is unloaded it says whether its file has another label now.
pub fn operation_word(operation: &Operation<'_>, is_renamed: bool) -> &'static str
    ensures { result.now ≡ operation_word operation.now is_renamed }
{
    match operation {
        Operation::Load(_) => "new",
        Operation::Replace(_) => "changed",
        Operation::Unload if is_renamed => "renamed",
        Operation::Unload => "orphan",
        Operation::Leave(why) => left_word(*why),
    }
}
