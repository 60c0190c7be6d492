//! All faults of a definition, as the reader says them: the first one is asked for, mended, and the next one asked for.

ghost use Rattle.std.specs.Prelude.{◌≡◌, ◌∷◌, IfOk};
ghost use Rattle.serde_json.specs.View.{view};
ghost use Rattle.definition_files.specs.Faults.{AreSaid};
ghost use Rattle.definition_files.specs.declared.check.faults.TheConstants.{MOST_FAULTS};

use crate::check::mend::mended;
use crate::check::search::{Place, place_of};
use crate::check::way::Step;
use history_model::{KeyName, Reason};
use job_defs::{DefFault, read_value};
use serde_json::Value;
use std::alloc::{AllocError, Global};

/// A fault of a definition: what the reader says, and the way to the value that has it. The way is empty, if the key is absent.
#[derive(Drop)]
pub struct FaultAt {
    pub reason: Reason,
    pub key: KeyName,
    pub way: Vec<Step>,
}

/// The most faults of a definition that are listed.
const MOST_FAULTS: usize = 256;

/// The faults of a value of JSON as a definition, at most 256. The first one is what a load says; each later one is what it says once the
/// values of the keys of those before are mended. After the last a load takes the definition, if there are fewer than 256.
pub fn faults_of(alloc: Global, value: &Value) -> Result<Vec<FaultAt>, AllocError>
    ensures { IfOk result (λ faults. AreSaid MOST_FAULTS (view value.now) faults.items) }
{
    let def = value.clone()?;
    faults_from(alloc, def, MOST_FAULTS)
}

// The faults of the definition, up to this number.
fn faults_from(alloc: Global, def: Value, most: usize) -> Result<Vec<FaultAt>, AllocError>
    ensures { IfOk result (λ faults. AreSaid most (view def) faults.items) }
{
    if most == 0 {
        drop(def);
        return Ok(Vec::new(alloc));
    }
    match read_value(alloc, &def) {
        Ok(read) => {
            drop(read);
            drop(def);
            Ok(Vec::new(alloc))
        }
        Err(DefFault::Bad { reason, key }) => {
            let Place { way, most: kept } = place_of(alloc, &def, reason, key)?;
            let next = mended(alloc, def, key, way.as_slice(), kept)?;
            let others = faults_from(alloc, next, most - 1)?;
            with_first(alloc, FaultAt { reason, key, way }, others)
        }
        Err(DefFault::NoMemory) => {
            drop(def);
            Err(AllocError)
        }
    }
}

fn with_first(
    alloc: Global,
    first: FaultAt,
    others: Vec<FaultAt>,
) -> Result<Vec<FaultAt>, AllocError>
    ensures { IfOk result (λ faults. faults.items ≡ first ∷ others.items) }
{
    let mut others = others;
    let mut faults = Vec::new(alloc);
    faults.push(first)?;
    faults.append(&mut others)?;
    Ok(faults)
}
