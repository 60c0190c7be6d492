//! A definition with a fault mended, so that the reader goes on to the next one.

ghost use Rattle.std.specs.Prelude.{◌≡◌, ℕ, List, IfOk};
ghost use Rattle.serde_json.specs.View.{view, members_view};
ghost use Rattle.serde_json.specs.Find.{get, get_member};
ghost use Rattle.history_model.specs.RefusalTexts.{key_text};
ghost use Rattle.definition_files.specs.Faults.{ChangesKey};

use crate::check::way::{Step, place_mut};
use history_model::KeyName;
use json_kinds::key_name;
use json_kinds::names::{PATH_NAME, SERVICE_NAME, WAIT};
use serde_json::{Map, Value};
use std::alloc::{AllocError, Global};

/// The definition with the fault of this key at the place mended. Of a collection with too many members the first `most` stay. Else the value
/// is taken out, or a proper one put there, where it is wanted or counts. Other keys keep their values. For a fault without a key there is a
/// proper definition instead.
pub(crate) fn mended(
    alloc: Global,
    def: Value,
    key: KeyName,
    way: &[Step],
    most: Option<usize>,
) -> Result<Value, AllocError>
    ensures { IfOk result (λ next. ChangesKey key (view def) (view next)) }
{
    if key == KeyName::NoKey {
        drop(def);
        return proper_def(alloc);
    }
    let value = mended_value(alloc, &def, key, way, most)?;
    changed(alloc, def, key, value)
}

// The definition with this value of the key, or without the key. A value that is not an object stays.
fn changed(
    alloc: Global,
    def: Value,
    key: KeyName,
    value: Option<Value>,
) -> Result<Value, AllocError>
    ensures { IfOk result (λ next. ChangesKey key (view def) (view next)) }
{
    match def {
        Value::Object(members) => with_key(alloc, members, key, value),
        Value::Null => Ok(Value::Null),
        Value::Bool(flag) => Ok(Value::Bool(flag)),
        Value::Number(number) => Ok(Value::Number(number)),
        Value::String(text) => Ok(Value::String(text)),
        Value::Array(items) => Ok(Value::Array(items)),
    }
}

// The object with this value of the key, or without the key.
fn with_key(
    alloc: Global,
    members: Map<String, Value>,
    key: KeyName,
    value: Option<Value>,
) -> Result<Value, AllocError>
    ensures { IfOk result (λ next. (name : List ℕ) → (name ≡ key_text key → ⊥)
        → get name (view next) ≡ get_member name (members_view members.entries)) }
{
    match value {
        Some(value) => with_value(alloc, members, key, value),
        None => Ok(without(members, key)),
    }
}

fn with_value(
    alloc: Global,
    members: Map<String, Value>,
    key: KeyName,
    value: Value,
) -> Result<Value, AllocError>
    ensures { IfOk result (λ next. (name : List ℕ) → (name ≡ key_text key → ⊥)
        → get name (view next) ≡ get_member name (members_view members.entries)) }
{
    let mut members = members;
    let name = String::from_str(alloc, key_name(key))?;
    drop(members.insert(name, value)?);
    Ok(Value::Object(members))
}

fn without(members: Map<String, Value>, key: KeyName) -> Value
    ensures { (name : List ℕ) → (name ≡ key_text key → ⊥)
        → get name (view result) ≡ get_member name (members_view members.entries) }
{
    let mut members = members;
    drop(members.remove(key_name(key)));
    Value::Object(members)
}

// The value of the key with the fault mended; none, if the key is taken out.
fn mended_value(
    alloc: Global,
    def: &Value,
    key: KeyName,
    way: &[Step],
    most: Option<usize>,
) -> Result<Option<Value>, AllocError> {
    let mut copy = def.clone()?;
    mend(alloc, &mut copy, key, way, most)?;
    match copy.as_object_mut() {
        Some(members) => Ok(members.remove(key_name(key))),
        None => Ok(None),
    }
}

// A definition that a load takes.
fn proper_def(alloc: Global) -> Result<Value, AllocError> {
    let mut members = Map::new(alloc);
    let label = String::from_str(alloc, key_name(KeyName::Label))?;
    drop(members.insert(label, proper_text(alloc)?)?);
    let program = String::from_str(alloc, key_name(KeyName::Program))?;
    drop(members.insert(program, proper_text(alloc)?)?);
    Ok(Value::Object(members))
}

// Mends the fault in place.
fn mend(
    alloc: Global,
    def: &mut Value,
    key: KeyName,
    way: &[Step],
    most: Option<usize>,
) -> Result<(), AllocError> {
    if let Some(most) = most {
        return cut(alloc, def, way, key, most);
    }
    let Some((last, before)) = way.split_last() else {
        return put_key(alloc, def, key);
    };
    let proper = proper_at(alloc, key, way)?;
    match (last, place_mut(def, before), proper) {
        (Step::Key(name), Some(Value::Object(members)), Some(proper)) => {
            drop(members.insert(name.clone()?, proper)?);
        }
        (Step::Key(name), Some(Value::Object(members)), None) => {
            drop(members.remove(name.as_str()));
            if key == KeyName::KeepAlive && before.len() == 2 {
                put_state(alloc, members)?;
            }
        }
        (Step::Member(index), Some(Value::Array(items)), Some(proper)) => {
            if let Some(member) = items.get_mut(*index) {
                *member = proper;
            }
        }
        _ => {}
    }
    Ok(())
}

// Puts another path into PathState, since its paths count with those of other keys.
fn put_state(alloc: Global, members: &mut Map<String, Value>) -> Result<(), AllocError> {
    for number in 0..=members.len() {
        let path = format!(in alloc; "path {number}")?;
        if !members.contains_key(path.as_str()) {
            drop(members.insert(path, Value::Bool(true))?);
            return Ok(());
        }
    }
    Ok(())
}

// Takes members from the end of the collection, until no more than these are left.
fn cut(
    alloc: Global,
    def: &mut Value,
    way: &[Step],
    key: KeyName,
    most: usize,
) -> Result<(), AllocError> {
    match place_mut(def, way) {
        Some(Value::Array(items)) => items.truncate(most),
        Some(Value::Object(members)) if key == KeyName::Sockets => cut_sockets(
            alloc, members, most,
        )?,
        Some(Value::Object(members)) => {
            for _ in most..members.len() {
                drop(members.pop_last());
            }
        }
        _ => {}
    }
    Ok(())
}

// The same of sockets, each of which counts where several have one name.
fn cut_sockets(
    alloc: Global,
    members: &mut Map<String, Value>,
    most: usize,
) -> Result<(), AllocError> {
    let mut names = Vec::new(alloc);
    for (name, _) in members.iter() {
        names.push(name.clone()?)?;
    }
    let mut room = most;
    for name in &names {
        if room == 0 {
            drop(members.remove(name.as_str()));
        }
        let count = match members.get_mut(name.as_str()) {
            Some(Value::Array(items)) => {
                items.truncate(room);
                items.len()
            }
            _ => 1,
        };
        room = room.saturating_sub(count);
    }
    Ok(())
}

// Puts a proper value of the key into the definition, which lacks it.
fn put_key(alloc: Global, def: &mut Value, key: KeyName) -> Result<(), AllocError> {
    let Some(proper) = proper_key(alloc, key)? else {
        return Ok(());
    };
    if let Value::Object(members) = def {
        drop(members.insert(String::from_str(alloc, key_name(key))?, proper)?);
    }
    Ok(())
}

// What to put at the place of a fault; nothing, where the value can be taken out.
fn proper_at(alloc: Global, key: KeyName, way: &[Step]) -> Result<Option<Value>, AllocError> {
    if way.len() < 2 {
        return proper_key(alloc, key);
    }
    match way.last() {
        Some(Step::Key(name)) if name.as_str() == WAIT && key == KeyName::InetdCompatibility => Ok(
            Some(Value::Bool(false)),
        ),
        Some(Step::Key(name)) if way.len() > 2 && key == KeyName::Sockets => proper_part(
            alloc,
            name.as_str(),
        ),
        Some(Step::Key(_)) if key != KeyName::Sockets => Ok(None),
        _ => Ok(Some(proper_member(alloc, key)?)),
    }
}

// A proper value of a key that is wanted, or without which another key would be; nothing for others.
fn proper_key(alloc: Global, key: KeyName) -> Result<Option<Value>, AllocError> {
    Ok(match key {
        KeyName::Label | KeyName::Program => Some(proper_text(alloc)?),
        KeyName::ProgramArguments | KeyName::Sockets => Some(proper_members(alloc, key, 1)?),
        KeyName::InetdCompatibility => Some(object_with(alloc, WAIT, Value::Bool(false))?),
        _ => None,
    })
}

// A proper member of an array of this key, or a proper socket.
fn proper_member(alloc: Global, key: KeyName) -> Result<Value, AllocError> {
    match key {
        KeyName::Sockets => object_with(alloc, PATH_NAME, proper_text(alloc)?),
        KeyName::StartCalendarInterval => Ok(Value::Object(Map::new(alloc))),
        _ => proper_text(alloc),
    }
}

/// A value of the key, or a `PathState`, with this number of proper members.
pub(crate) fn proper_members(
    alloc: Global,
    key: KeyName,
    count: usize,
) -> Result<Value, AllocError> {
    if let KeyName::KeepAlive | KeyName::EnvironmentVariables = key {
        let mut members = Map::new(alloc);
        for number in 0..count {
            let name = format!(in alloc; "{number}")?;
            drop(members.insert(name, Value::Bool(true))?);
        }
        return Ok(Value::Object(members));
    }
    let mut items = Vec::new(alloc);
    for _ in 0..count {
        items.push(proper_member(alloc, key)?)?;
    }
    match key {
        KeyName::Sockets => object_with(alloc, "sockets", Value::Array(items)),
        _ => Ok(Value::Array(items)),
    }
}

// What to put in place of a part of a socket: the parts that make its address are wanted.
fn proper_part(alloc: Global, name: &str) -> Result<Option<Value>, AllocError> {
    if name == PATH_NAME || name == SERVICE_NAME {
        return Ok(Some(Value::String(String::from_str(alloc, "1")?)));
    }
    Ok(None)
}

fn proper_text(alloc: Global) -> Result<Value, AllocError> {
    Ok(Value::String(String::from_str(alloc, "word")?))
}

fn object_with(alloc: Global, name: &str, value: Value) -> Result<Value, AllocError> {
    let mut members = Map::new(alloc);
    drop(members.insert(String::from_str(alloc, name)?, value)?);
    Ok(Value::Object(members))
}
