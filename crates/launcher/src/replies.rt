//! What a launcher replies to an input.

ghost use Rattle.std.specs.Prelude.{◌≡◌, IfOk, Some, [], is_some, true};
ghost use Rattle.loaded_jobs.specs.Loads.{refused_with};
ghost use Rattle.launcher.specs.LoadTurns.{is_memory};

use history_model::{Refusal, Reply, Text};
use std::alloc::Global;

/// Whether a reply says that memory ran out.
pub(crate) fn is_want(refusal: Option<Refusal>) -> bool
    ensures { result ≡ is_memory refusal }
{
    match refusal {
        Some(Refusal::NoMemory) => true,
        _ => false,
    }
}

/// The reply that says a refusal. It has no text: the writers of lines put in the refusal's own.
pub(crate) fn refused(alloc: Global, refusal: Refusal) -> Reply
    ensures refusal { result.refusal ≡ Some refusal }
    ensures quiet { is_some result.refusal ≡ true → result.text ≡ [] }
{
    Reply {
        refusal: Some(refusal),
        text: Text::new(String::new(alloc)),
    }
}

/// The reply to what has no text.
pub(crate) fn done(alloc: Global, answer: Result<(), Refusal>) -> Reply
    ensures refusal { result.refusal ≡ refused_with answer }
    ensures text { result.text ≡ [] }
    ensures quiet { is_some result.refusal ≡ true → result.text ≡ [] }
{
    let refusal = match answer {
        Ok(()) => None,
        Err(refusal) => Some(refusal),
    };
    Reply {
        refusal,
        text: Text::new(String::new(alloc)),
    }
}

/// The reply to what is answered by a text.
pub(crate) fn told(alloc: Global, answer: Result<Text, Refusal>) -> Reply
    ensures refusal { result.refusal ≡ refused_with answer }
    ensures text { IfOk answer (λ text. result.text ≡ text) }
    ensures quiet { is_some result.refusal ≡ true → result.text ≡ [] }
{
    match answer {
        Ok(text) => Reply {
            refusal: None,
            text,
        },
        Err(refusal) => Reply {
            refusal: Some(refusal),
            text: Text::new(String::new(alloc)),
        },
    }
}
