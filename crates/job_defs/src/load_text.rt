//! The text that answers a load: the keys of its definition that are not supported (launchctl(1), load; the layout is this
//! project's own). What `list` and `print` show is the table's.

ghost use Rattle.std.specs.Prelude.{◌≡◌, ◌∷◌, ◌++◌, IfOk, OnOk, codes};
ghost use Rattle.std.specs.List.{flat_map};
ghost use Rattle.std.specs.String.{string_bytes};
ghost use Rattle.history_model.specs.Texts.{load_text};

use history_model::Text;
use std::alloc::{AllocError, Global};

/// What a load answers: the keys that are not supported, by name, or nothing if each key is.
pub fn loaded(alloc: Global, ignored: &[Text]) -> Result<String, AllocError>
    ensures { IfOk result (λ text. string_bytes text ≡ load_text ignored.now) }
{
    match ignored.split_first() {
        None => Ok(String::new(alloc)),
        Some((first, others)) => named(alloc, first.as_str(), others),
    }
}

fn named(alloc: Global, first: &str, others: &[Text]) -> Result<String, AllocError>
    ensures { IfOk result (λ text. string_bytes text ≡ load_text (first.now ∷ others.now)) }
{
    let mut text = String::new(alloc);
    text.push_str("not acted on: ")?;
    text.push_str(first)?;
    push_others(&mut text, others)?;
    text.push_str("\n")?;
    Ok(text)
}

fn push_others(text: &mut String, others: &[Text]) -> Result<(), AllocError>
    ensures { OnOk result (string_bytes text.new
        ≡ string_bytes text.old ++ flat_map (λ name. codes ", " ++ name) others.now) }
{
    for name in others {
        text.push_str(", ")?;
        text.push_str(name.as_str())?;
    }
    Ok(())
}
