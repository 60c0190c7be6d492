//! What is known of a label besides its job: by what it is disabled, and why its last load was refused.

use crate::joined::Disabled;
use crate::journal::labels::KnownLabel;
use crate::texts::told::NONE;
use crate::texts::words::{asked_name, refusal_words};
use history_model::Refusal;
use run_times::Filling::{Text, Time};
use run_times::Page;

/// Adds by what the label is disabled, if it is, and since when.
pub(crate) fn add_disabled(page: &mut Page<'_>, label: &str, disabled: Option<Disabled>) {
    let Some(disabled) = disabled else {
        return;
    };
    let name = Text(label);
    let (form, holes) = match disabled {
        Disabled::Client(asked, at) => (
            "  It is disabled since $ (jobctl $): `jobctl enable $`.\n",
            [Time(at.wall), Text(asked_name(asked)), name],
        ),
        Disabled::Since(at) => (
            "  It is disabled since $: `jobctl enable $`.\n",
            [Time(at.wall), name, NONE],
        ),
        Disabled::Before => (
            "  It is disabled since before the journal's first event: `jobctl enable $`.\n",
            [name, NONE, NONE],
        ),
        Disabled::Unknown => ("  It is disabled: `jobctl enable $`.\n", [name, NONE, NONE]),
        Disabled::Definition => (
            "  It is disabled, since its definition has Disabled: `jobctl enable $` lets it be loaded.\n",
            [name, NONE, NONE],
        ),
    };
    page.add(form, &holes);
}

/// Adds by what the label is disabled, and why its last load was refused, if that is known. `unbound`: why a socket could not be bound then.
pub(crate) fn add_label(
    page: &mut Page<'_>,
    label: &str,
    known: KnownLabel,
    unbound: Option<&str>,
    disabled: Option<Disabled>,
) {
    add_disabled(page, label, disabled);
    let Some((refusal, at)) = known.refused else {
        return;
    };
    let [words, reason, key] = refusal_words(refusal);
    let form = match unbound {
        Some(_) => "  Its load at $ was refused: $: $.\n",
        None if key.is_empty() => "  Its load at $ was refused: $.\n",
        None => "  Its load at $ was refused: $$ $.\n",
    };
    let reason = unbound.unwrap_or(reason);
    page.add(form, &[Time(at.wall), Text(words), Text(reason), Text(key)]);
    match (refusal, disabled) {
        (Refusal::Disabled, None) => page.add(
            "  Its definition has Disabled: `jobctl enable $` lets it be loaded.\n",
            &[Text(label)],
        ),
        _ => {}
    }
}
