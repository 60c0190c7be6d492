//! When a job runs, and how fast: the keys from `OnDemand` to `ExitTimeOut`.

ghost use Rattle.std.specs.Prelude.{◌≡◌, ◌≤◌, ◌+◌, length, vec_len, IfOk, IfSome};
ghost use Rattle.serde_json.specs.View.{view, items_view};
ghost use Rattle.json_kinds.specs.DefFaults.{Gives};
ghost use Rattle.json_kinds.specs.JsonKinds.{each_item, path_at};
ghost use Rattle.job_defs.specs.Paths.{paths_key};
ghost use Rattle.job_defs.specs.Keys.{demand_at, pace_at};
ghost use Rattle.history_model.specs.DefinitionParts.{demand_of, pace_of};
ghost use Rattle.job_defs.specs.declared.limits.TheConstants.{LIST_LIMIT, INTERVAL_LEAST, INTERVAL_MOST, PACE_MOST};

use crate::calendars::calendar_key_of;
use crate::conditions::keep_key_of;
use crate::limits::{INTERVAL_LEAST, INTERVAL_MOST, LIST_LIMIT, PACE_LEAST, PACE_MOST};
use history_model::definition::{Demand, Pace};
use history_model::{KeyName, Reason, Text};
use json_kinds::DefFault;
use json_kinds::keys::{PATH_LIMIT, bool_key_of, integer_key_of, optional_integer_of};
use json_kinds::kinds::{array_of, filled_of};
use json_kinds::names::key_name;
use serde_json::Value;
use std::alloc::Global;

#[tactic(auto, unfolding(crate::specs::Keys::demand_at))]
pub(crate) fn demand_keys(alloc: Global, def: &Value) -> Result<Demand, DefFault>
    ensures value { Gives demand_of result (demand_at (view def.now)) }
    ensures range { IfOk result (λ demand. IfSome demand.start_interval (λ seconds. (INTERVAL_LEAST ≤ seconds)
        × (seconds ≤ INTERVAL_MOST))) }
{
    let on_demand = given!(bool_key_of(def, KeyName::OnDemand, true));
    let keep = given!(keep_key_of(alloc, on_demand, def));
    let before = keep.path_state.len();
    let watch_paths = given!(paths_key_of(alloc, before, def, KeyName::WatchPaths));
    let before = before + watch_paths.len();
    let queue_directories = given!(paths_key_of(alloc, before, def, KeyName::QueueDirectories));
    let start_interval = given!(optional_integer_of(
        def,
        KeyName::StartInterval,
        INTERVAL_LEAST,
        INTERVAL_MOST
    ));
    let calendar = given!(calendar_key_of(alloc, def));
    Ok(Demand {
        keep,
        watch_paths,
        queue_directories,
        start_interval,
        calendar,
    })
}

#[tactic(auto, unfolding(crate::specs::Keys::pace_at))]
pub(crate) fn pace_keys(def: &Value) -> Result<Pace, DefFault>
    ensures value { Gives pace_of result (pace_at (view def.now)) }
    ensures range { IfOk result (λ pace. (pace.throttle_interval ≤ PACE_MOST)
        × (pace.exit_time_out ≤ PACE_MOST)) }
{
    let throttle_interval = given!(integer_key_of(
        def,
        KeyName::ThrottleInterval,
        PACE_LEAST,
        PACE_MOST,
        10
    ));
    let exit_time_out = given!(integer_key_of(
        def,
        KeyName::ExitTimeOut,
        PACE_LEAST,
        PACE_MOST,
        20
    ));
    Ok(Pace {
        throttle_interval,
        exit_time_out,
    })
}

/// A list of paths, in a definition that had `before` paths before this list.
#[tactic(auto, using(json_kinds::proofs::CountLemmas::items_count), unfolding(crate::specs::Paths::paths_key, crate::specs::Paths::paths_at))]
fn paths_key_of(
    alloc: Global,
    before: usize,
    def: &Value,
    key: KeyName,
) -> Result<Vec<Text>, DefFault>
    requires { before ≤ LIST_LIMIT }
    ensures value { Gives (λ paths. paths.items) result (paths_key before key (view def.now)) }
    ensures count { IfOk result (λ paths. before + vec_len paths ≤ LIST_LIMIT) }
{
    let Some(found) = def.get(key_name(key)) else {
        return Ok(Vec::new(alloc));
    };
    let items = given!(array_of(found, key));
    if items.len() > LIST_LIMIT - before {
        return Err(DefFault::Bad {
            reason: Reason::TooLong,
            key,
        });
    }
    each_path(alloc, items, key)
}

fn each_path(alloc: Global, items: &[Value], key: KeyName) -> Result<Vec<Text>, DefFault>
    ensures value { Gives (λ paths. paths.items) result
        (each_item (path_at key) (items_view items.now)) }
    ensures count { IfOk result (λ paths. vec_len paths ≡ length items.now) }
{
    let mut paths = Vec::new(alloc);
    for item in items {
        paths.push(Text::copy_of(alloc, filled_of(item, key, PATH_LIMIT)?)?)?;
    }
    Ok(paths)
}
