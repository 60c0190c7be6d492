//! Where a fault of a definition is, as the reader says it of definitions with less in them.

use crate::check::mend::proper_members;
use crate::check::wanted::{SOCKET, sockets_in};
use crate::check::way::{Step, count_in, place_mut, value_at};
use history_model::{KeyName, Reason};
use job_defs::{DefFault, read_value};
use json_kinds::key_name;
use json_kinds::names::WAIT;
use serde_json::Value;
use std::alloc::{AllocError, Global};

/// The place of a fault: the way to it, and if a collection has too many members, how many of them may stay.
#[derive(Drop)]
pub(crate) struct Place {
    pub(crate) way: Vec<Step>,
    pub(crate) most: Option<usize>,
}

/// What is sought: the fault that the reader says.
#[derive(Clone, Copy)]
struct Sought {
    alloc: Global,
    reason: Reason,
    key: KeyName,
}

impl Sought {
    // Whether the reader says this fault of the definition.
    fn is_of(&self, def: &Value) -> Result<bool, AllocError> {
        match read_value(self.alloc, def) {
            Ok(read) => {
                drop(read);
                Ok(false)
            }
            Err(DefFault::Bad { reason, key }) => Ok(reason == self.reason && key == self.key),
            Err(DefFault::NoMemory) => Err(AllocError),
        }
    }

    // Whether the reader says it of the definition with this number of proper members at the place.
    fn is_with(&self, def: &Value, way: &[Step], count: usize) -> Result<bool, AllocError> {
        let mut other = def.clone()?;
        let proper = proper_members(self.alloc, self.key, count)?;
        if let Some(place) = place_mut(&mut other, way) {
            *place = proper;
        }
        self.is_of(&other)
    }

    // Whether the reader says it of the definition with the first members at the place, of this number.
    fn is_with_front(
        &self,
        def: &Value,
        way: &[Step],
        names: &[String],
        count: usize,
    ) -> Result<bool, AllocError> {
        let mut less = def.clone()?;
        keep(&mut less, way, names, count);
        self.is_of(&less)
    }
}

/// The most steps to a fault: to the key, its member, the key within, the socket, and the key of that.
const STEPS: usize = 5;

/// Where the definition has the fault that the reader says of it. From the key's value it goes to the member that brings the fault: with those
/// before it the reader does not say it, and with this one it does. It ends at a collection whose members are too many, or that has the fault
/// without any of them.
pub(crate) fn place_of(
    alloc: Global,
    def: &Value,
    reason: Reason,
    key: KeyName,
) -> Result<Place, AllocError> {
    let mut place = Place {
        way: Vec::new(alloc),
        most: None,
    };
    if def.get(key_name(key)).is_none() {
        return Ok(place);
    }
    place
        .way
        .push(Step::Key(String::from_str(alloc, key_name(key))?))?;
    let sought = Sought { alloc, reason, key };
    let mut less = def.clone()?;
    for _ in 1..STEPS {
        if !go_on(&sought, &mut less, &mut place)? {
            break;
        }
    }
    Ok(place)
}

// Goes one step on, to the member that brings the fault, and takes the members after it out. False, if the place itself has the fault.
fn go_on(sought: &Sought, def: &mut Value, place: &mut Place) -> Result<bool, AllocError> {
    place.most = most_of(sought, def, place.way.as_slice())?;
    if place.most.is_some() {
        return Ok(false);
    }
    let Some(value) = value_at(def, place.way.as_slice()) else {
        return Ok(false);
    };
    let total = count_in(value);
    let has_wait = place.way.len() == 1 && value.get(WAIT).is_some();
    let names = names_of(sought.alloc, value, sought.key, place.way.len())?;
    let count = bringing(sought, def, place.way.as_slice(), names.as_slice(), total)?;
    if count == 0 {
        // Without its member inetdCompatibility has the same fault.
        if has_wait && sought.key == KeyName::InetdCompatibility {
            place
                .way
                .push(Step::Key(String::from_str(sought.alloc, WAIT)?))?;
        }
        return Ok(false);
    }
    keep(def, place.way.as_slice(), names.as_slice(), count);
    let last = count.saturating_sub(1);
    let step = match names.get(last) {
        Some(name) => Step::Key(name.clone()?),
        None => Step::Member(last),
    };
    place.way.push(step)?;
    Ok(true)
}

// How many members may stay at the place, if the reader says the fault of the same number of proper ones.
fn most_of(sought: &Sought, def: &Value, way: &[Step]) -> Result<Option<usize>, AllocError> {
    let is_counted = if sought.key == KeyName::KeepAlive {
        way.len() == 2
    } else {
        way.len() == 1
    };
    let total = match value_at(def, way) {
        Some(value) if sought.key == KeyName::Sockets => sockets_in(value),
        Some(value) => count_in(value),
        None => 0,
    };
    if sought.reason != Reason::TooLong || !is_counted || !sought.is_with(def, way, total)? {
        return Ok(None);
    }
    let mut few: usize = 0;
    let mut many = total;
    for _ in 0..u64::BITS {
        let half = many.saturating_sub(few) / 2;
        if half == 0 {
            break;
        }
        let count = few.saturating_add(half);
        if sought.is_with(def, way, count)? {
            many = count;
        } else {
            few = count;
        }
    }
    Ok(Some(few))
}

// The names in an object, in the order in which the reader looks at them: of a socket in that of the table, else in byte order.
fn names_of(
    alloc: Global,
    value: &Value,
    key: KeyName,
    steps: usize,
) -> Result<Vec<String>, AllocError> {
    let mut names = Vec::new(alloc);
    let Value::Object(members) = value else {
        return Ok(names);
    };
    let is_socket = key == KeyName::Sockets && steps > 1;
    if is_socket {
        for part in SOCKET {
            if value.get(part.name).is_some() {
                names.push(String::from_str(alloc, part.name)?)?;
            }
        }
    }
    for (name, _) in members.iter() {
        if !is_socket || !is_part(name.as_str()) {
            names.push(name.clone()?)?;
        }
    }
    Ok(names)
}

fn is_part(name: &str) -> bool {
    for part in SOCKET {
        if part.name == name {
            return true;
        }
    }
    false
}

// How many of the members at the place, from the first on, bring the fault; 0, if the place has it without them.
fn bringing(
    sought: &Sought,
    def: &Value,
    way: &[Step],
    names: &[String],
    total: usize,
) -> Result<usize, AllocError> {
    if total == 0 || sought.is_with_front(def, way, names, 0)? {
        return Ok(0);
    }
    let mut without: usize = 0;
    let mut with = total;
    for _ in 0..u64::BITS {
        let half = with.saturating_sub(without) / 2;
        if half == 0 {
            break;
        }
        let count = without.saturating_add(half);
        if sought.is_with_front(def, way, names, count)? {
            with = count;
        } else {
            without = count;
        }
    }
    Ok(with)
}

// Takes the members at the place out, but for the first ones of this number. Those of an object are in the order of the names.
fn keep(def: &mut Value, way: &[Step], names: &[String], count: usize) {
    match place_mut(def, way) {
        Some(Value::Array(items)) => items.truncate(count),
        Some(Value::Object(members)) => {
            for name in names.get(count..).unwrap_or(&[]) {
                drop(members.remove(name.as_str()));
            }
        }
        _ => {}
    }
}
