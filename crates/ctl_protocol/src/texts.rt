//! The texts of refusals.

ghost use Rattle.std.specs.Prelude.{◌≡◌, ◌++◌, IfOk};
ghost use Rattle.std.specs.String.{string_bytes};
ghost use Rattle.history_model.specs.RefusalTexts as texts;
ghost use Rattle.history_model.specs.declared.Refusal.TheVariants.{BadDefinition};

use history_model::{KeyName, Reason, Refusal};
use json_kinds::{key_name, reason_name};
use std::alloc::{AllocError, Global};

fn fault_text(alloc: Global, reason: Reason, key: KeyName) -> Result<String, AllocError>
    ensures { IfOk result (λ text. string_bytes text
        ≡ texts.refusal_text (BadDefinition reason key)) }
{
    let mut text = String::from_str(alloc, "bad definition: ")?;
    text.push_str(reason_name(reason))?;
    text.push_str(" ")?;
    text.push_str(key_name(key))?;
    text.push_str("\n")?;
    Ok(text)
}

/// The text of a refusal, with its newline.
pub(crate) fn refusal_text(alloc: Global, refusal: Refusal) -> Result<String, AllocError>
    ensures { IfOk result (λ text. string_bytes text ≡ texts.refusal_text refusal) }
{
    let text = match refusal {
        Refusal::NoMemory => "no memory\n",
        Refusal::BadRequest => "bad request\n",
        Refusal::NoSuchJob => "no such job\n",
        Refusal::AlreadyLoaded => "already loaded\n",
        Refusal::Disabled => "disabled\n",
        Refusal::Removing => "being removed\n",
        Refusal::NotRunning => "not running\n",
        Refusal::BadDefinition(reason, key) => return fault_text(alloc, reason, key),
        Refusal::StoreRefused => "store refused\n",
        Refusal::TooManyJobs => "too many jobs\n",
        Refusal::SocketRefused => "socket refused\n",
        Refusal::TooManyConnections => "too many connections\n",
        Refusal::Stale => "stale\n",
        Refusal::ClockRefused => "clock refused\n",
        Refusal::ShuttingDown => "shutting down\n",
    };
    String::from_str(alloc, text)
}
