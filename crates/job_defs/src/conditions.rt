//! `KeepAlive`: a boolean, or conditions.

ghost use Rattle.std.specs.Prelude.{◌≡◌, ◌≤◌, [], ◌∷◌, length, vec_len, IfOk};
ghost use Rattle.serde_json.specs.View.{view, members_view};
ghost use Rattle.json_kinds.specs.DefFaults.{Gives};
ghost use Rattle.json_kinds.specs.JsonKinds.{each_member};
ghost use Rattle.job_defs.specs.Conditions.{path_state_in, path_state_at, conditions_at, keep_at, keep_key};
ghost use Rattle.history_model.specs.DefinitionParts.{keep_of};
ghost use Rattle.job_defs.specs.declared.limits.TheConstants.{LIST_LIMIT};

use crate::limits::LIST_LIMIT;
use history_model::definition::{Keep, PathState};
use history_model::{KeyName, Reason, Text};
use json_kinds::DefFault;
use json_kinds::keys::{PATH_LIMIT, optional_bool_of};
use json_kinds::kinds::{bool_of, filled_text, object_of};
use json_kinds::names::{CRASHED, PATH_STATE, SUCCESSFUL_EXIT, key_name};
use serde_json::{Map, Value};
use std::alloc::Global;

/// `KeepAlive`; if it is absent, an `OnDemand` of false stands for `true`.
#[tactic(auto, unfolding(crate::specs::Conditions::keep_key))]
pub(crate) fn keep_key_of(alloc: Global, on_demand: bool, def: &Value) -> Result<Keep, DefFault>
    ensures value { Gives keep_of result (keep_key on_demand (view def.now)) }
    ensures count { IfOk result (λ keep. vec_len keep.path_state ≤ LIST_LIMIT) }
{
    match def.get(key_name(KeyName::KeepAlive)) {
        Some(found) => keep_of(alloc, found),
        None => Ok(unconditional(alloc, !on_demand)),
    }
}

fn unconditional(alloc: Global, always: bool) -> Keep
    ensures value { keep_of result ≡ Rattle.job_defs.specs.Conditions.unconditional always }
    ensures count { vec_len result.path_state ≡ 0 }
{
    Keep {
        always,
        successful_exit: None,
        crashed: None,
        path_state: Vec::new(alloc),
    }
}

#[tactic(auto, unfolding(crate::specs::Conditions::keep_at))]
fn keep_of(alloc: Global, found: &Value) -> Result<Keep, DefFault>
    ensures value { Gives keep_of result (keep_at (view found.now)) }
    ensures count { IfOk result (λ keep. vec_len keep.path_state ≤ LIST_LIMIT) }
{
    match found.as_bool() {
        Some(always) => Ok(unconditional(alloc, always)),
        None => conditions_of(alloc, found),
    }
}

#[tactic(auto, unfolding(crate::specs::Conditions::conditions_at))]
fn conditions_of(alloc: Global, found: &Value) -> Result<Keep, DefFault>
    ensures value { Gives keep_of result (conditions_at (view found.now)) }
    ensures count { IfOk result (λ keep. vec_len keep.path_state ≤ LIST_LIMIT) }
{
    given!(object_of(found, KeyName::KeepAlive));
    let crashed = given!(optional_bool_of(found, CRASHED, KeyName::KeepAlive));
    let path_state = match found.get(PATH_STATE) {
        Some(paths) => given!(path_state_of(alloc, paths)),
        None => Vec::new(alloc),
    };
    let successful_exit = given!(optional_bool_of(found, SUCCESSFUL_EXIT, KeyName::KeepAlive));
    Ok(Keep {
        always: false,
        successful_exit,
        crashed,
        path_state,
    })
}

#[tactic(auto, using(json_kinds::proofs::CountLemmas::members_count), unfolding(crate::specs::Conditions::path_state_at))]
fn path_state_of(alloc: Global, found: &Value) -> Result<Vec<PathState>, DefFault>
    ensures value { Gives (λ paths. paths.items) result (path_state_at (view found.now)) }
    ensures count { IfOk result (λ paths. vec_len paths ≤ LIST_LIMIT) }
{
    let members = given!(object_of(found, KeyName::KeepAlive));
    if members.len() > LIST_LIMIT {
        return Err(DefFault::Bad {
            reason: Reason::TooLong,
            key: KeyName::KeepAlive,
        });
    }
    each_path_state(alloc, members)
}

fn each_path_state(alloc: Global, members: &Map<String, Value>) -> Result<Vec<PathState>, DefFault>
    ensures value { Gives (λ paths. paths.items) result
        (each_member path_state_in (members_view members.now.entries)) }
    ensures count { IfOk result (λ paths. vec_len paths ≤ length members.now.entries) }
{
    let mut paths = Vec::new(alloc);
    for (path, present) in members.iter() {
        paths.push(path_state(alloc, path.as_str(), present)?)?;
    }
    Ok(paths)
}

#[tactic(auto, unfolding(crate::specs::Conditions::path_state_in))]
fn path_state(alloc: Global, path: &str, present: &Value) -> Result<PathState, DefFault>
    ensures { Gives (λ condition. condition ∷ []) result
        (path_state_in path.now (view present.now)) }
{
    let path = given!(filled_text(path, KeyName::KeepAlive, PATH_LIMIT));
    let present = given!(bool_of(present, KeyName::KeepAlive));
    Ok(PathState {
        path: Text::copy_of(alloc, path)?,
        present,
    })
}
