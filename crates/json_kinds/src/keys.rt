//! Keys that a definition has or has not.

ghost use Rattle.std.specs.Prelude.{◌≡◌, ◌≤◌, IfOk, IfSome, ⊤};
ghost use Rattle.serde_json.specs.View.{view};
ghost use Rattle.serde_json.specs.Find.{get};
ghost use Rattle.json_kinds.specs.DefFaults.{Gives};
ghost use Rattle.json_kinds.specs.JsonKinds.{required, bool_at, bool_key, integer_key, optional, optional_integer, optional_text, optional_path, unsupported_key, refused_key};

use crate::fault::DefFault;
use crate::kinds::{bool_of, filled_of, integer_of};
use crate::names::key_name;
use history_model::{KeyName, Reason, Text};
use serde_json::Value;
use std::alloc::Global;

/// The longest path, in bytes.
pub const PATH_LIMIT: usize = 1024;

/// The value of a key of a definition. Missing if the key is absent.
#[tactic(auto, unfolding(crate::specs::JsonKinds::required))]
pub fn required_of(def: &Value, key: KeyName) -> Result<&Value, DefFault>
    ensures { Gives (λ found. view found.now) result (required key (view def.now)) }
{
    match def.get(key_name(key)) {
        Some(found) => Ok(found),
        None => Err(DefFault::Bad {
            reason: Reason::Missing,
            key,
        }),
    }
}

/// The boolean under a key of a definition, or `absent` if there is none. WrongKind as [`bool_of`].
#[tactic(auto, unfolding(crate::specs::JsonKinds::bool_key))]
pub fn bool_key_of(def: &Value, key: KeyName, absent: bool) -> Result<bool, DefFault>
    ensures { Gives (λ holds. holds) result (bool_key absent key (view def.now)) }
{
    match def.get(key_name(key)) {
        Some(found) => bool_of(found, key),
        None => Ok(absent),
    }
}

/// The boolean of an object inside the definition, if it is present. WrongKind as [`bool_of`].
pub fn optional_bool_of(part: &Value, name: &str, key: KeyName) -> Result<Option<bool>, DefFault>
    ensures { Gives (λ holds. holds) result
        (optional (bool_at key) (get name.now (view part.now))) }
{
    match part.get(name) {
        Some(found) => Ok(Some(bool_of(found, key)?)),
        None => Ok(None),
    }
}

/// The integer under a key of a definition, or `absent` if there is none. Faults as [`integer_of`].
#[tactic(auto, unfolding(crate::specs::JsonKinds::integer_key))]
pub fn integer_key_of(
    def: &Value,
    key: KeyName,
    low: u32,
    high: u32,
    absent: u32,
) -> Result<u32, DefFault>
    requires { absent ≤ high }
    ensures value { Gives (λ n. n) result (integer_key low high absent key (view def.now)) }
    ensures range { IfOk result (λ n. n ≤ high) }
{
    match def.get(key_name(key)) {
        Some(found) => integer_of(found, key, low, high),
        None => Ok(absent),
    }
}

/// The integer under a key of a definition, if it is present. Faults as [`integer_of`].
#[tactic(auto, unfolding(crate::specs::JsonKinds::optional_integer))]
pub fn optional_integer_of(
    def: &Value,
    key: KeyName,
    low: u32,
    high: u32,
) -> Result<Option<u32>, DefFault>
    ensures value { Gives (λ n. n) result (optional_integer low high key (view def.now)) }
    ensures range { IfOk result (λ read. IfSome read (λ n. (low ≤ n) × (n ≤ high))) }
{
    match def.get(key_name(key)) {
        Some(found) => Ok(Some(integer_of(found, key, low, high)?)),
        None => Ok(None),
    }
}

/// The string under a key of a definition, of 1 to `limit` bytes, if it is present. Faults as [`filled_of`].
#[tactic(auto, unfolding(crate::specs::JsonKinds::optional_text))]
pub fn optional_text_of(
    alloc: Global,
    def: &Value,
    key: KeyName,
    limit: usize,
) -> Result<Option<Text>, DefFault>
    ensures { Gives (λ text. text) result (optional_text limit key (view def.now)) }
{
    match def.get(key_name(key)) {
        Some(found) => Ok(Some(Text::copy_of(alloc, filled_of(found, key, limit)?)?)),
        None => Ok(None),
    }
}

/// The path under a key of a definition, if it is present. Faults as [`filled_of`].
#[tactic(auto, unfolding(crate::specs::JsonKinds::optional_path))]
pub fn optional_path_of(alloc: Global, def: &Value, key: KeyName) -> Result<Option<Text>, DefFault>
    ensures { Gives (λ path. path) result (optional_path key (view def.now)) }
{
    match def.get(key_name(key)) {
        Some(found) => Ok(Some(Text::copy_of(alloc, filled_of(found, key, PATH_LIMIT)?)?)),
        None => Ok(None),
    }
}

/// Unsupported if the object has the key, whatever its value.
pub fn refused_of(part: &Value, name: &str, key: KeyName) -> Result<(), DefFault>
    ensures { Gives (λ done. done) result (unsupported_key key (get name.now (view part.now))) }
{
    match part.get(name) {
        Some(_) => Err(DefFault::Bad {
            reason: Reason::Unsupported,
            key,
        }),
        None => Ok(()),
    }
}

/// The same of a key of a definition.
#[tactic(auto, unfolding(crate::specs::JsonKinds::refused_key))]
pub fn refused_key_of(def: &Value, key: KeyName) -> Result<(), DefFault>
    ensures { Gives (λ done. done) result (refused_key key (view def.now)) }
{
    refused_of(def, key_name(key), key)
}
