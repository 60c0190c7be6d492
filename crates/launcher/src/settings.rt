//! The order of the settings that a store gave.

ghost use Rattle.std.specs.Prelude.{◌≡◌, ◌↔◌, IsTrue, IsUtf8, map};
ghost use Rattle.std.specs.List.{AllByRecursion};
ghost use Rattle.history_model.specs.Labels.{is_before};
ghost use Rattle.history_model.specs.MachineLaws.{AreInOrder};

use crate::lent_facts::lend_text;
use history_model::Setting;
use std::cmp::Ordering;

/// Whether a label is before another, byte by byte.
fn is_before<'x>(label: &'x str, other: &'x str) -> bool
    ensures { result ≡ is_before label.now other.now }
{
    match Ord::cmp(&label, &other) {
        Ordering::Less => true,
        _ => false,
    }
}

/// Whether each label is before all that follow, in byte order. These labels are UTF-8.
pub(crate) fn are_in_order(settings: &[Setting]) -> bool
    ensures order { IsTrue result ↔ AreInOrder (map (λ s. s.label) settings.now) }
    ensures texts { IsTrue result → AllByRecursion (λ s. IsUtf8 s.label) settings.now }
{
    let Some((first, rest)) = settings.split_first() else {
        return true;
    };
    let mut last = first.label.as_str();
    lend_text(last); // for the proof
    for setting in rest {
        let label = setting.label.as_str();
        lend_text(label); // for the proof
        if !is_before(last, label) {
            return false;
        }
        last = label;
    }
    true
}
