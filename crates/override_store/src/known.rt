//! The settings that a store must hold, in memory: each label once, in falling byte order. Since each label is there once, this
//! order can take the place of newest first.

ghost use Rattle.std.specs.Prelude.{◌≡◌, ◌<◌, ◌≤◌, ◌∷◌, ◌↔◌, IfOk, IsTrue, length, reverse};
ghost use Rattle.std.specs.List.{list_any, position};
ghost use Rattle.std.specs.Vec.{vec_capacity, vec_len};
ghost use Rattle.history_model.specs.Labels.{is_before};
ghost use Rattle.override_store.specs.KnownSettings.{IsOneTooMany, TellAlike, is_known_as, settings_of};

use crate::StoreFault;
use history_model::{Setting, Text};
use std::alloc::Global;
use std::cmp::Ordering;

/// How many labels have a setting at most, not counting those that a store had before. Each takes two pages of a database at most.
pub const MOST_LABELS: usize = 16_384;

/// A label's setting, and the second of Unix time in which it was made.
#[derive(Drop)]
pub struct Known {
    pub setting: Setting,
    pub changed: u64,
}

impl Known {
    pub(crate) fn label(&self) -> &str
        ensures { result.now ≡ self.now.setting.label }
    {
        self.setting.label.as_str()
    }

    fn is_of(&self, label: &str) -> bool
        ensures { result ≡ is_known_as label.now self.now }
    {
        label == self.setting.label.as_str()
    }
}

fn is_behind<'x>(label: &'x str, other: &'x str) -> bool {
    match Ord::cmp(&label, &other) {
        Ordering::Greater => true,
        _ => false,
    }
}

fn is_above(one: &Known, label: &str) -> bool {
    is_behind(one.label(), label)
}

/// The index of the label, or else where it belongs.
fn place_in_order(known: &[Known], label: &str) -> usize
    ensures { result ≤ length known.now }
{
    known.partition_point(|one| is_above(one, label))
}

/// The first index of the label.
fn known_place(known: &[Known], label: &str) -> Option<usize>
    ensures { result ≡ position (is_known_as label.now) known.now }
{
    known.iter().position(|one| one.is_of(label))
}

fn has_one(known: &[Known], label: &str) -> bool
    ensures { result ≡ list_any (is_known_as label.now) known.now }
{
    known.iter().any(|one| one.is_of(label))
}

/// Whether the label has no setting, and too many have one for a further one.
pub(crate) fn is_one_too_many(known: &[Known], label: &str) -> bool
    ensures { IsTrue result ↔ IsOneTooMany known.now label.now }
{
    known.len() >= MOST_LABELS && !has_one(known, label)
}

/// Makes this the setting of its label. There is room for one more.
pub(crate) fn put(known: &mut Vec<Known>, one: Known)
    requires { vec_len known.old < vec_capacity known.old }
    ensures { TellAlike known.new.items (one ∷ known.old.items) }
{
    match known_place(known, one.label()) {
        Some(place) => known[place] = one,
        None => {
            let place = place_in_order(known, one.label());
            match known.insert(place, one) {
                Ok(()) => {}
                Err(_) => unreachable!(),
            }
        }
    }
}

fn is_same(one: &Known, other: &Known) -> bool
    ensures { IsTrue result → one.now ≡ other.now }
{
    let is_label = one.label() == other.label();
    let is_setting = one.setting.disabled == other.setting.disabled;
    let is_second = one.changed == other.changed;
    is_label && is_setting && is_second
}

/// Whether both lists are the same.
pub(crate) fn are_same(known: &[Known], found: &[Known]) -> bool
    ensures { IsTrue result → found.now ≡ known.now }
{
    if known.len() != found.len() {
        return false;
    }
    for place in 0..known.len() {
        if !is_same(&known[place], &found[place]) {
            return false;
        }
    }
    true
}

fn copy_of(alloc: Global, setting: &Setting) -> Result<Setting, StoreFault>
    ensures { IfOk result (λ copy. copy ≡ setting.now) }
{
    match Text::copy_of(alloc, setting.label.as_str()) {
        Ok(label) => Ok(Setting {
            label,
            disabled: setting.disabled,
        }),
        Err(_) => Err(StoreFault::NoMemory),
    }
}

/// The settings, by rising bytes of their labels.
pub(crate) fn rising(alloc: Global, known: &[Known]) -> Result<Vec<Setting>, StoreFault>
    ensures { IfOk result (λ all. reverse all.items ≡ settings_of known.now) }
{
    let mut all = Vec::new(alloc);
    for one in known {
        let copy = match copy_of(alloc, &one.setting) {
            Ok(copy) => copy,
            Err(fault) => return Err(fault),
        };
        match all.push(copy) {
            Ok(()) => {}
            Err(_) => return Err(StoreFault::NoMemory),
        }
    }
    all.reverse();
    Ok(all)
}
