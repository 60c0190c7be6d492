//! Labels and the targets that name them.

ghost use Rattle.std.specs.Prelude.{◌≡◌, option_map};
ghost use Rattle.ctl_protocol.specs.Members.{Reads};
ghost use Rattle.ctl_protocol.specs.Targets as targets;
ghost use Rattle.ctl_protocol.specs.Targets.{is_user_number, SplitsAtSlash};

use crate::members::ReadFault;
use history_model::{Text, is_label};
use json_kinds::all_digits;
use std::alloc::Global;

fn is_number(text: &str) -> bool
    ensures { result ≡ is_user_number text.now }
{
    0 < text.len() && text.len() <= 10 && all_digits(text.as_bytes())
}

/// The parts before and after the first slash.
fn split_at_slash(text: &str) -> Option<(&str, &str)>
    ensures { SplitsAtSlash text.now result }
{
    text.split_once('/')
}

#[tactic(auto, unfolding(crate::specs::Targets::behind_number))]
fn behind_number(text: &str) -> Option<&str>
    ensures { option_map (λ s. s.now) result ≡ targets.behind_number text.now }
{
    match split_at_slash(text) {
        Some((number, label)) if is_number(number) => Some(label),
        _ => None,
    }
}

#[tactic(auto, unfolding(crate::specs::Targets::behind_domain))]
fn behind_domain(text: &str) -> Option<&str>
    ensures { option_map (λ s. s.now) result ≡ targets.behind_domain text.now }
{
    let Some((domain, rest)) = split_at_slash(text) else {
        return Some(text);
    };
    if domain == "system" {
        Some(rest)
    } else if domain == "user" || domain == "gui" {
        behind_number(rest)
    } else {
        None
    }
}

/// The label that a target names.
#[tactic(auto, unfolding(crate::specs::Targets::label_named))]
pub(crate) fn label_named(text: &str) -> Option<&str>
    ensures { option_map (λ s. s.now) result ≡ targets.label_named text.now }
{
    match behind_domain(text) {
        Some(label) if is_label(label) => Some(label),
        _ => None,
    }
}

/// The label that a target names, as launchctl(1) writes targets: `LABEL`, `system/LABEL`, `user/N/LABEL` or
/// `gui/N/LABEL`, with a number N of one to ten decimal digits. BadRequest for any other text.
pub fn read_target(alloc: Global, text: &str) -> Result<Text, ReadFault>
    ensures { Reads result (targets.label_named text.now) }
{
    match label_named(text) {
        Some(label) => Ok(Text::copy_of(alloc, label)?),
        None => Err(ReadFault::BadRequest),
    }
}
