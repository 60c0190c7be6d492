//! What is around a child: the keys from `EnvironmentVariables` to `StandardErrorPath`.

ghost use Rattle.std.specs.Prelude.{◌≡◌};
ghost use Rattle.std.specs.List.{list_any};
ghost use Rattle.std.specs.Option.{option_to_list};
ghost use Rattle.serde_json.specs.View.{view, members_view};
ghost use Rattle.serde_json.specs.Find.{as_str};
ghost use Rattle.json_kinds.specs.DefFaults.{Gives};
ghost use Rattle.json_kinds.specs.JsonKinds.{each_member};
ghost use Rattle.job_defs.specs.Variables.{is_equals, variable_in, variable_by, environment_key};
ghost use Rattle.job_defs.specs.Keys.{surroundings_at};
ghost use Rattle.history_model.specs.DefinitionParts.{surroundings_of};

use crate::limits::{VARIABLE_NAME_LIMIT, VARIABLES_LIMIT, WORD_LIMIT};
use history_model::definition::{Surroundings, Variable};
use history_model::{KeyName, Reason, Text};
use json_kinds::DefFault;
use json_kinds::keys::optional_path_of;
use json_kinds::kinds::{filled_text, object_of, plain_text};
use json_kinds::names::key_name;
use serde_json::{Map, Value};
use std::alloc::Global;

#[tactic(auto, unfolding(crate::specs::Keys::surroundings_at))]
pub(crate) fn surroundings_keys(alloc: Global, def: &Value) -> Result<Surroundings, DefFault>
    ensures { Gives surroundings_of result (surroundings_at (view def.now)) }
{
    let environment = given!(environment_key_of(alloc, def));
    let working_directory = given!(optional_path_of(alloc, def, KeyName::WorkingDirectory));
    let standard_in_path = given!(optional_path_of(alloc, def, KeyName::StandardInPath));
    let standard_out_path = given!(optional_path_of(alloc, def, KeyName::StandardOutPath));
    let standard_error_path = given!(optional_path_of(alloc, def, KeyName::StandardErrorPath));
    Ok(Surroundings {
        environment,
        working_directory,
        standard_in_path,
        standard_out_path,
        standard_error_path,
    })
}

#[tactic(auto, using(json_kinds::proofs::CountLemmas::members_count), unfolding(crate::specs::Variables::environment_key, crate::specs::Variables::environment_at))]
fn environment_key_of(alloc: Global, def: &Value) -> Result<Vec<Variable>, DefFault>
    ensures { Gives (λ variables. variables.items) result (environment_key (view def.now)) }
{
    let Some(found) = def.get(key_name(KeyName::EnvironmentVariables)) else {
        return Ok(Vec::new(alloc));
    };
    let members = given!(object_of(found, KeyName::EnvironmentVariables));
    if members.len() > VARIABLES_LIMIT {
        return Err(DefFault::Bad {
            reason: Reason::TooLong,
            key: KeyName::EnvironmentVariables,
        });
    }
    each_variable(alloc, members)
}

fn each_variable(alloc: Global, members: &Map<String, Value>) -> Result<Vec<Variable>, DefFault>
    ensures { Gives (λ variables. variables.items) result
        (each_member variable_in (members_view members.now.entries)) }
{
    let mut variables = Vec::new(alloc);
    for (name, value) in members.iter() {
        if let Some(variable) = variable_of(alloc, name.as_str(), value)? {
            variables.push(variable)?;
        }
    }
    Ok(variables)
}

/// A variable; None if its value is not a string.
#[tactic(auto, unfolding(crate::specs::Variables::variable_in))]
fn variable_of(alloc: Global, name: &str, value: &Value) -> Result<Option<Variable>, DefFault>
    ensures { Gives (λ variable. option_to_list variable) result
        (variable_in name.now (view value.now)) }
{
    let name = given!(filled_text(name, KeyName::EnvironmentVariables, VARIABLE_NAME_LIMIT));
    if has_equals(name) {
        return Err(DefFault::Bad {
            reason: Reason::OutOfRange,
            key: KeyName::EnvironmentVariables,
        });
    }
    valued(alloc, name, value)
}

#[tactic(auto, unfolding(crate::specs::Variables::variable_by))]
fn valued(alloc: Global, name: &str, value: &Value) -> Result<Option<Variable>, DefFault>
    ensures { Gives (λ variable. option_to_list variable) result
        (variable_by name.now (as_str (view value.now))) }
{
    let Some(value) = value.as_str() else {
        return Ok(None);
    };
    let value = given!(plain_text(value, KeyName::EnvironmentVariables, WORD_LIMIT));
    Ok(Some(Variable {
        name: Text::copy_of(alloc, name)?,
        value: Text::copy_of(alloc, value)?,
    }))
}

fn has_equals(name: &str) -> bool
    ensures { result ≡ list_any is_equals name.now }
{
    name.as_bytes().contains(&b'=')
}
