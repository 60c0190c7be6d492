//! What is run: the keys from `Label` to `Disabled`.

ghost use Rattle.std.specs.Prelude.{◌≡◌, None, Some};
ghost use Rattle.serde_json.specs.View.{view, items_view};
ghost use Rattle.json_kinds.specs.DefFaults.{Gives};
ghost use Rattle.json_kinds.specs.JsonKinds.{each_item};
ghost use Rattle.job_defs.specs.Commands.{label_key, word_at, command_in, command_at, command_key};
ghost use Rattle.job_defs.specs.Keys.{launch_at};
ghost use Rattle.history_model.specs.DefinitionParts.{command_of, launch_of};

use crate::limits::{ARGUMENTS_LIMIT, WORD_LIMIT};
use history_model::definition::{Command, Launch};
use history_model::{KeyName, Reason, Text, is_label};
use json_kinds::DefFault;
use json_kinds::keys::{bool_key_of, optional_text_of, required_of};
use json_kinds::kinds::{array_of, filled_of, plain_of, text_of};
use json_kinds::names::key_name;
use serde_json::Value;
use std::alloc::Global;

#[tactic(auto, unfolding(crate::specs::Keys::launch_at))]
pub(crate) fn launch_keys(alloc: Global, def: &Value) -> Result<Launch, DefFault>
    ensures { Gives launch_of result (launch_at (view def.now)) }
{
    let label = given!(label_key_of(alloc, def));
    let program = given!(optional_text_of(alloc, def, KeyName::Program, WORD_LIMIT));
    let command = given!(command_key_of(alloc, program, def));
    let run_at_load = given!(bool_key_of(def, KeyName::RunAtLoad, false));
    let launch_only_once = given!(bool_key_of(def, KeyName::LaunchOnlyOnce, false));
    let disabled = given!(bool_key_of(def, KeyName::DisabledKey, false));
    Ok(Launch {
        label,
        command,
        run_at_load,
        launch_only_once,
        disabled,
    })
}

#[tactic(auto, unfolding(crate::specs::Commands::label_key))]
fn label_key_of(alloc: Global, def: &Value) -> Result<Text, DefFault>
    ensures { Gives (λ label. label) result (label_key (view def.now)) }
{
    let found = given!(required_of(def, KeyName::Label));
    let text = given!(text_of(found, KeyName::Label));
    if !is_label(text) {
        return Err(DefFault::Bad {
            reason: Reason::BadLabel,
            key: KeyName::Label,
        });
    }
    Ok(Text::copy_of(alloc, text)?)
}

#[tactic(auto, unfolding(crate::specs::Commands::command_key))]
fn command_key_of(alloc: Global, program: Option<Text>, def: &Value) -> Result<Command, DefFault>
    ensures { Gives command_of result (command_key program (view def.now)) }
{
    match (def.get(key_name(KeyName::ProgramArguments)), program) {
        (Some(found), program) => command_of(alloc, program, found),
        (None, Some(program)) => Ok(Command {
            program,
            arguments: Vec::new(alloc),
        }),
        (None, None) => Err(DefFault::Bad {
            reason: Reason::Missing,
            key: KeyName::ProgramArguments,
        }),
    }
}

#[tactic(auto, using(json_kinds::proofs::CountLemmas::items_count), unfolding(crate::specs::Commands::command_at))]
fn command_of(alloc: Global, program: Option<Text>, found: &Value) -> Result<Command, DefFault>
    ensures { Gives command_of result (command_at program (view found.now)) }
{
    let words = given!(array_of(found, KeyName::ProgramArguments));
    if words.len() > ARGUMENTS_LIMIT {
        return Err(DefFault::Bad {
            reason: Reason::TooLong,
            key: KeyName::ProgramArguments,
        });
    }
    match program {
        Some(program) => command_beside(alloc, program, words),
        None => command_alone(alloc, words),
    }
}

/// With `Program`, the first argument is checked and not used.
#[tactic(auto, unfolding(crate::specs::Commands::command_in))]
fn command_beside(alloc: Global, program: Text, words: &[Value]) -> Result<Command, DefFault>
    ensures { Gives command_of result (command_in (Some program) (items_view words.now)) }
{
    let arguments = match words.split_first() {
        Some((first, rest)) => {
            given!(plain_of(first, KeyName::ProgramArguments, WORD_LIMIT));
            given!(words_of(alloc, rest))
        }
        None => Vec::new(alloc),
    };
    Ok(Command { program, arguments })
}

/// Without `Program`, the first argument is the executable.
#[tactic(auto, unfolding(crate::specs::Commands::command_in))]
fn command_alone(alloc: Global, words: &[Value]) -> Result<Command, DefFault>
    ensures { Gives command_of result (command_in None (items_view words.now)) }
{
    let Some((first, rest)) = words.split_first() else {
        return Err(DefFault::Bad {
            reason: Reason::Missing,
            key: KeyName::ProgramArguments,
        });
    };
    let first = given!(filled_of(first, KeyName::ProgramArguments, WORD_LIMIT));
    let program = Text::copy_of(alloc, first)?;
    let arguments = given!(words_of(alloc, rest));
    Ok(Command { program, arguments })
}

fn words_of(alloc: Global, items: &[Value]) -> Result<Vec<Text>, DefFault>
    ensures { Gives (λ words. words.items) result (each_item word_at (items_view items.now)) }
{
    let mut words = Vec::new(alloc);
    for item in items {
        let word = given!(plain_of(item, KeyName::ProgramArguments, WORD_LIMIT));
        words.push(Text::copy_of(alloc, word)?)?;
    }
    Ok(words)
}
