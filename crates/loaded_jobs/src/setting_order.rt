//! The order of the settings: in byte order of labels, each label once, so that halves find one.

ghost use Rattle.std.specs.Prelude.{◌≡◌, ◌<◌, ◌+◌, ◌∷◌, ◌++◌, Some, IfOk, IfErr, length, take, drop, reverse, []};
ghost use Rattle.std.specs.List.{position};
ghost use Rattle.std.specs.Vec.{vec_capacity, vec_len};
ghost use Rattle.history_model.specs.Labels.{is_before};
ghost use Rattle.history_model.specs.Machine.{sets};
ghost use Rattle.loaded_jobs.specs.StandsFor.{KeepsSettings};
ghost use Rattle.loaded_jobs.specs.TableSettings.{AreSet, IsPlaceFor};
ghost use Rattle.loaded_jobs.specs.Room.{held_with};

use crate::byte_order::is_before;
use history_model::Setting;

/// The place of the label's setting, or else the place that a new one takes.
pub fn setting_place(settings: &[Setting], label: &str) -> Result<usize, usize>
    requires { AreSet settings.now }
    ensures found { IfOk result (λ place. Some place ≡ position (sets label.now) settings.now) }
    ensures absent { IfErr result (IsPlaceFor label.now settings.now) }
{
    let place = settings.partition_point(|setting| is_below(setting, label));
    if place >= settings.len() {
        return Err(place);
    }
    if is_of(&settings[place], label) {
        return Ok(place);
    }
    Err(place)
}

/// Whether the setting's label is before this one.
fn is_below(setting: &Setting, label: &str) -> bool
    ensures { result ≡ is_before setting.now.label label.now }
{
    is_before(setting.label.as_str(), label)
}

/// Whether this is the setting's label.
fn is_of(setting: &Setting, label: &str) -> bool
    ensures { result ≡ sets label.now setting.now }
{
    label == setting.label.as_str()
}

/// Makes this the setting of its label: in the place of an older one, or at its own place. There is room for one more.
pub fn put(settings: &mut Vec<Setting>, setting: Setting)
    requires order { AreSet settings.old.items }
    requires room { vec_len settings.old < vec_capacity settings.old }
    ensures kept { KeepsSettings settings.new.items (setting ∷ settings.old.items) }
    ensures held { length settings.new.items ≡ held_with setting.label settings.old.items }
    ensures order { AreSet settings.new.items }
    ensures room { vec_capacity settings.new ≡ vec_capacity settings.old }
{
    match setting_place(settings, setting.label.as_str()) {
        Ok(place) => settings[place] = setting,
        Err(place) => match settings.insert(place, setting) {
            Ok(()) => {}
            Err(_) => unreachable!(),
        },
    }
}

/// Each label's newest setting, in byte order of labels. The given ones are oldest first. It takes no memory.
pub fn in_order(overrides: Vec<Setting>) -> Vec<Setting>
    ensures kept { KeepsSettings result.items (reverse overrides.items) }
    ensures order { AreSet result.items }
{
    let mut settings = overrides;
    let mut left = settings.len();
    while left > 0 {
        left -= 1;
        settle(&mut settings, left);
    }
    settings
}

/// Puts the setting at this place among those after it, which are newer and in order; if one of them has its label, it is
/// dropped.
fn settle(settings: &mut Vec<Setting>, left: usize)
    requires inside { left < length settings.old.items }
    requires order { AreSet (drop (left + 1) settings.old.items) }
    ensures rest { take left settings.new.items ≡ take left settings.old.items }
    ensures kept { KeepsSettings (drop left settings.new.items)
        (drop (left + 1) settings.old.items ++ take 1 (drop left settings.old.items)) }
    ensures order { AreSet (drop left settings.new.items) }
{
    match setting_place(&settings[left + 1..], settings[left].label.as_str()) {
        Ok(_) => {
            let _older = settings.remove(left);
        }
        Err(place) => move_back(settings, left, place),
    }
}

/// Moves the setting at this place after the first `count` of those that follow it.
fn move_back(settings: &mut Vec<Setting>, left: usize, count: usize)
    requires { left + count < length settings.old.items }
    ensures rest { take left settings.new.items ≡ take left settings.old.items }
    ensures moved { drop left settings.new.items
        ≡ take count (drop (left + 1) settings.old.items)
        ++ (take 1 (drop left settings.old.items)
        ++ drop count (drop (left + 1) settings.old.items)) }
{
    if count == 0 {
        return;
    }
    let setting = settings.remove(left);
    match settings.insert(left + count, setting) {
        Ok(()) => {}
        Err(_) => unreachable!(),
    }
}
