//! What a child is started with, out of its job's definition.

ghost use Rattle.std.specs.Prelude.{◌≡◌, ◌++◌, ℕ, List, None, Some, IfOk, OnOk, option_map};
ghost use Rattle.std.specs.Process.{command_program, command_args, command_dir, command_arg0, command_var, SameEnv, SameDir, SameOtherVars, SameProgramAndArgs};
ghost use Rattle.child_edge.specs.Command.{SetsVariables, said_after, folder_at};

use history_model::Text;
use history_model::definition::{Def, Variable};
use std::alloc::{AllocError, Global};
use std::os::unix::process::CommandExt;
use std::process::Command;

/// The command that the definition says. It has its program, which is also the child's own name for itself, and its
/// arguments. It has its directory, or the place where that is held, and its variables besides the launcher's. What the
/// run itself has is set first, so that the definition's value of such a variable counts. It has no streams yet.
pub(crate) fn command_of(
    alloc: Global,
    def: &Def,
    run: &[Variable],
    held: Option<&str>,
) -> Result<Command, AllocError>
    ensures program { IfOk result (λ c. command_program c ≡ def.now.program) }
    ensures name { IfOk result (λ c. command_arg0 c ≡ Some def.now.program) }
    ensures arguments { IfOk result (λ c. command_args c ≡ def.now.arguments) }
    ensures directory { IfOk result (λ c. command_dir c
        ≡ folder_at def.now.working_directory (option_map (λ place. place.now) held.entry)) }
    ensures variables { IfOk result (λ c. (name : List ℕ) →
        command_var c name ≡ said_after name (said_after name None run.now) def.now.environment) }
{
    let mut command = Command::new(alloc, def.program())?;
    match set_up(&mut command, def, run, held) {
        Ok(()) => Ok(command),
        Err(error) => {
            drop(command);
            Err(error)
        }
    }
}

// What the definition says besides the program. The command is lent, so that no `?` has to drop it.
fn set_up(
    command: &mut Command,
    def: &Def,
    run: &[Variable],
    held: Option<&str>,
) -> Result<(), AllocError>
    requires { command_dir command.old ≡ None }
    ensures program { OnOk result (command_program command.new ≡ command_program command.old) }
    ensures name { OnOk result (command_arg0 command.new ≡ Some def.now.program) }
    ensures arguments { OnOk result
        (command_args command.new ≡ command_args command.old ++ def.now.arguments) }
    ensures directory { OnOk result (command_dir command.new
        ≡ folder_at def.now.working_directory (option_map (λ place. place.now) held.entry)) }
    ensures variables { OnOk result ((name : List ℕ) → command_var command.new name
        ≡ said_after name (said_after name (command_var command.old name) run.now) def.now.environment) }
{
    add_words(command, def.arguments())?;
    add_variables(command, run)?;
    add_variables(command, def.environment())?;
    set_folder(command, def.working_directory(), held)?;
    command.arg0(def.program())?;
    Ok(())
}

fn set_folder(
    command: &mut Command,
    folder: Option<&str>,
    held: Option<&str>,
) -> Result<(), AllocError>
    requires { command_dir command.old ≡ None }
    ensures call { OnOk result (SameProgramAndArgs command.old command.new) }
    ensures env { OnOk result (SameEnv command.old command.new) }
    ensures folder { OnOk result (command_dir command.new ≡ folder_at
        (option_map (λ s. s.now) folder.entry) (option_map (λ place. place.now) held.entry)) }
{
    if let Some(folder) = folder {
        let place = match held {
            Some(held) => held,
            None => folder,
        };
        command.current_dir(place)?;
    }
    Ok(())
}

fn add_words(command: &mut Command, words: &[Text]) -> Result<(), AllocError>
    ensures words { OnOk result (command_args command.new ≡ command_args command.old ++ words.now) }
    ensures program { OnOk result (command_program command.new ≡ command_program command.old) }
    ensures env { OnOk result (SameEnv command.old command.new) }
    ensures dir { OnOk result (SameDir command.old command.new) }
{
    for word in words {
        command.arg(word.as_str())?;
    }
    Ok(())
}

fn add_variables(command: &mut Command, variables: &[Variable]) -> Result<(), AllocError>
    ensures call { OnOk result (SameProgramAndArgs command.old command.new) }
    ensures dir { OnOk result (SameDir command.old command.new) }
    ensures set { OnOk result
        (SetsVariables variables.now (command_var command.old) (command_var command.new)) }
{
    for variable in variables {
        set_variable(command, variable)?;
    }
    Ok(())
}

fn set_variable(command: &mut Command, variable: &Variable) -> Result<(), AllocError>
    ensures call { OnOk result (SameProgramAndArgs command.old command.new) }
    ensures dir { OnOk result (SameDir command.old command.new) }
    ensures set { OnOk result
        (command_var command.new variable.now.name ≡ Some (Some variable.now.value)) }
    ensures others { OnOk result (SameOtherVars command.old command.new variable.now.name) }
{
    command.env(variable.name.as_str(), variable.value.as_str())?;
    Ok(())
}
