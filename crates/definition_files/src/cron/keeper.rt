//! Who keeps what is made of the lines, and reports what is refused.

ghost use Rattle.std.specs.Prelude.{◌≡◌, List, [], ◌∷◌, Option, None, IfOk};
ghost use Rattle.definition_files.specs.LineStatus.{LineJudged, TellsLine, is_fault, is_refused};

use crate::cron::definition::Made;
use crate::cron::fault::LineFault;
use crate::folder::{laid_out, put_new};
use history_model::Text;
use std::alloc::{AllocError, Global};

/// What a line came to.
#[derive(Clone, Copy)]
pub enum LineVerdict {
    /// Its definition is kept, or it asks for none.
    Well,
    /// It was refused, and this was reported.
    Refused,
    /// Its definition could not be kept, and this was reported.
    Unkept,
}

/// Keeps definitions.
pub trait LineKeeper {
    /// The lines that were judged, oldest first, each with the verdict. None for a keeper that does not record it.
    ghost told: { Self → Option (List LineJudged) };

    /// Keeps what was made of the line of this number, in the text if it has no other place; or reports why there is nothing. A line is
    /// refused exactly if it has a fault. The one error is of memory.
    fn keep(
        &mut self,
        alloc: Global,
        number: usize,
        line: &Text,
        made: Result<Option<Made>, LineFault>,
        text: &mut String,
    ) -> Result<LineVerdict, AllocError>
        ensures fits { IfOk result (λ verdict. is_refused verdict ≡ is_fault made) }
        ensures told { IfOk result (λ verdict. TellsLine (Self.told self.old)
            ((line.now, verdict) ∷ []) (Self.told self.new)) };
}

/// Keeps definitions in a folder, or in the text if there is none. It does not record what was judged.
#[derive(Clone, Copy)]
pub struct HostLines<'a> {
    pub host: &'a HostRuntime,
    /// The folder in which each definition becomes a file of its own.
    pub into: Option<&'a str>,
}

impl LineKeeper for HostLines<'_> {
    ghost told = { λ _. None };

    fn keep(
        &mut self,
        alloc: Global,
        number: usize,
        _line: &Text,
        made: Result<Option<Made>, LineFault>,
        text: &mut String,
    ) -> Result<LineVerdict, AllocError> {
        match made {
            Ok(Some(made)) => {
                let kept = keep_made(self.host, alloc, self.into, &made, text);
                drop(made);
                match kept {
                    Ok(true) => Ok(LineVerdict::Well),
                    Ok(false) => Ok(LineVerdict::Unkept),
                    Err(error) => Err(error),
                }
            }
            Ok(None) => Ok(LineVerdict::Well),
            Err(LineFault::NoMemory) => Err(AllocError),
            Err(LineFault::Refused(why)) => {
                let shown = why.as_str();
                let _written = eprintln!(self.host; "cron:{number}: error: {shown}");
                drop(why);
                Ok(LineVerdict::Refused)
            }
        }
    }
}

// Whether the definition was kept; if not, this was reported.
fn keep_made(
    host: &HostRuntime,
    alloc: Global,
    into: Option<&str>,
    made: &Made,
    text: &mut String,
) -> Result<bool, AllocError> {
    let Some(folder) = into else {
        text.push_str(made.text.as_str())?;
        return Ok(true);
    };
    let shown = laid_out(alloc, made.text.as_str())?;
    let is_put = put_new(host, alloc, folder, made.label.as_str(), shown.as_slice());
    drop(shown);
    is_put
}
