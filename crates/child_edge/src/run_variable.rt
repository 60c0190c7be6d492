//! The variables that a run has of the launcher: the one by which what it leaves running is found.

ghost use Rattle.std.specs.Prelude.{◌≡◌, ◌∷◌, [], IfOk};
ghost use Rattle.child_edge.specs.Command.{own_of_run};

use files_and_process::run_names::{LauncherId, RUN_VARIABLE, run_name};
use history_model::Text;
use history_model::definition::Variable;
use std::alloc::{AllocError, Global};

/// `JOBD_RUN` with the name of the run; no variable if it is not known which process the launcher is.
pub(crate) fn own_variables(
    alloc: Global,
    launcher: Option<LauncherId>,
    label: &str,
    run: u64,
) -> Result<Vec<Variable>, AllocError>
    ensures { IfOk result (λ own. own.items ≡ own_of_run launcher label.now run) }
{
    let mut own = Vec::new(alloc);
    if let Some(launcher) = launcher {
        own.push(named(alloc, launcher, label, run)?)?;
    }
    Ok(own)
}

fn named(alloc: Global, launcher: LauncherId, label: &str, run: u64) -> Result<Variable, AllocError>
    ensures { IfOk result (λ variable. own_of_run (Some launcher) label.now run ≡ variable ∷ []) }
{
    let name = Text::copy_of(alloc, RUN_VARIABLE)?;
    let value = run_name(alloc, launcher, label, run)?;
    Ok(Variable {
        name,
        value: Text::new(value),
    })
}
