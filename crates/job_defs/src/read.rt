//! How a definition is read.

ghost use Rattle.std.specs.Prelude.{◌≡◌, option_map};
ghost use Rattle.serde_json.specs.View.{view};
ghost use Rattle.json_kinds.specs.DefFaults.{Gives};
ghost use Rattle.job_defs.specs.Keys.{refusals_at, def_at, def_of, def_or_fault};

use crate::demand::{demand_keys, pace_keys};
use crate::ignored::not_acted_on_of;
use crate::launch::launch_keys;
use crate::sockets::sockets_and_inetd_of;
use crate::surroundings::surroundings_keys;
use history_model::definition::Def;
use history_model::{KeyName, Reason};
use json_kinds::keys::refused_key_of;
use json_kinds::{DefFault, JsonRoom, json_value};
use serde_json::Value;
use std::alloc::Global;

/// Reads the bytes of a job's definition: a JSON object (RFC 8259) with the keys of launchd.plist(5).
///
/// The keys are checked from `Label` to `RootDirectory`. Within a key a collection is checked for its kind, then for its count,
/// then member by member: arrays by position, objects by byte order of keys. A value is checked for its kind, its length, its
/// range or form, and then for what is not supported. The first fault is the answer.
///
/// Refusals: `NotJson` (not UTF-8, not a JSON text, or nested more than 127 deep) and `NotObject`, both with the key `NoKey`.
/// Else it is the fault of the first key that has one, with that key. `DefFault::NoMemory` says only that memory ran out.
#[tactic(auto, unfolding(crate::specs::Keys::def_of))]
pub fn read_def(alloc: Global, bytes: &[u8]) -> Result<Def, DefFault>
    ensures { Gives (λ def. def) result (def_of bytes.now) }
{
    let found = json_value(alloc, bytes)?;
    def_found(alloc, found)
}

/// What [`read_def`] gives of the bytes, read over a room that is kept from definition to definition: whatever was read there before.
#[tactic(auto, unfolding(crate::specs::Keys::def_of))]
pub fn read_def_in(alloc: Global, bytes: &[u8], room: &mut JsonRoom) -> Result<Def, DefFault>
    ensures { Gives (λ def. def) result (def_of bytes.now) }
{
    let found = room.value(alloc, bytes)?;
    def_found(alloc, found)
}

// What was read as JSON, as a definition.
fn def_found(alloc: Global, found: Option<Value>) -> Result<Def, DefFault>
    ensures { Gives (λ def. def) result (def_or_fault (option_map view found)) }
{
    match found {
        Some(value) => read_value(alloc, &value),
        None => Err(DefFault::Bad {
            reason: Reason::NotJson,
            key: KeyName::NoKey,
        }),
    }
}

/// What [`read_def`] gives of bytes that are this value in JSON. Refusals are those of [`read_def`], but for `NotJson`.
#[tactic(auto, unfolding(crate::specs::Keys::def_at))]
pub fn read_value(alloc: Global, value: &Value) -> Result<Def, DefFault>
    ensures { Gives (λ def. def) result (def_at (view value.now)) }
{
    if value.as_object().is_none() {
        return Err(DefFault::Bad {
            reason: Reason::NotObject,
            key: KeyName::NoKey,
        });
    }
    let launch = given!(launch_keys(alloc, value));
    let demand = given!(demand_keys(alloc, value));
    let pace = given!(pace_keys(value));
    let surroundings = given!(surroundings_keys(alloc, value));
    let sockets = given!(sockets_and_inetd_of(alloc, value));
    given!(refusals_keys(value));
    let not_acted_on = not_acted_on_of(alloc, !sockets.is_empty(), value)?;
    Ok(Def::of(
        alloc,
        launch,
        demand,
        pace,
        surroundings,
        sockets,
        not_acted_on,
    )?)
}

/// Keys that would change who or where the job is.
#[tactic(auto, unfolding(crate::specs::Keys::refusals_at))]
fn refusals_keys(def: &Value) -> Result<(), DefFault>
    ensures { Gives (λ done. done) result (refusals_at (view def.now)) }
{
    given!(refused_key_of(def, KeyName::UserName));
    given!(refused_key_of(def, KeyName::GroupName));
    refused_key_of(def, KeyName::RootDirectory)
}
