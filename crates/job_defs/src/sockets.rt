//! `Sockets` and `inetdCompatibility`.

ghost use Rattle.std.specs.Prelude.{◌≡◌, ◌+◌, nat_lt};
ghost use Rattle.serde_json.specs.View.{view, items_view, members_view};
ghost use Rattle.json_kinds.specs.DefFaults.{Gives};
ghost use Rattle.json_kinds.specs.JsonKinds.{each_item, each_member};
ghost use Rattle.job_defs.specs.Sockets.{socket_at, socket_count, sockets_in, sockets_key, inetd_at, inetd_key, sockets_and_inetd};
ghost use Rattle.job_defs.specs.declared.limits.TheConstants.{SOCKETS_LIMIT};

use crate::limits::SOCKETS_LIMIT;
use crate::socket::socket_of;
use history_model::definition::Socket;
use history_model::{KeyName, Reason};
use json_kinds::DefFault;
use json_kinds::keys::optional_bool_of;
use json_kinds::kinds::{members_or_one_of, object_of};
use json_kinds::names::{WAIT, key_name};
use serde_json::{Map, Value};
use std::alloc::Global;

/// The sockets of a definition. A fault names `Sockets` or `inetdCompatibility`; `NoMemory` says only that memory ran
/// out.
#[tactic(auto, unfolding(crate::specs::Sockets::sockets_and_inetd))]
pub fn sockets_and_inetd_of(alloc: Global, def: &Value) -> Result<Vec<Socket>, DefFault>
    ensures { Gives (λ sockets. sockets.items) result (sockets_and_inetd (view def.now)) }
{
    let sockets = given!(sockets_key_of(alloc, def));
    given!(inetd_key_of(!sockets.is_empty(), def));
    Ok(sockets)
}

#[tactic(auto, unfolding(crate::specs::Sockets::sockets_key, crate::specs::Sockets::sockets_at))]
fn sockets_key_of(alloc: Global, def: &Value) -> Result<Vec<Socket>, DefFault>
    ensures { Gives (λ sockets. sockets.items) result (sockets_key (view def.now)) }
{
    let Some(found) = def.get(key_name(KeyName::Sockets)) else {
        return Ok(Vec::new(alloc));
    };
    let members = given!(object_of(found, KeyName::Sockets));
    if has_too_many(members) {
        return Err(DefFault::Bad {
            reason: Reason::TooLong,
            key: KeyName::Sockets,
        });
    }
    each_name(alloc, members)
}

/// Whether there are more sockets under all names than a definition may have.
#[tactic(auto, using(json_kinds::proofs::CountLemmas::items_count))]
fn has_too_many(members: &Map<String, Value>) -> bool
    ensures { result ≡ nat_lt SOCKETS_LIMIT (socket_count (members_view members.now.entries)) }
{
    let mut room: usize = SOCKETS_LIMIT;
    for (_, found) in members.iter() {
        let count = members_or_one_of(found).len();
        if count > room {
            return true;
        }
        room -= count;
    }
    false
}

#[tactic(auto, unfolding(crate::specs::Sockets::sockets_in))]
fn each_name(alloc: Global, members: &Map<String, Value>) -> Result<Vec<Socket>, DefFault>
    ensures { Gives (λ sockets. sockets.items) result
        (each_member sockets_in (members_view members.now.entries)) }
{
    let mut sockets = Vec::new(alloc);
    for (_, found) in members.iter() {
        let mut named = given!(each_socket(alloc, members_or_one_of(found)));
        sockets.append(&mut named)?;
    }
    Ok(sockets)
}

fn each_socket(alloc: Global, items: &[Value]) -> Result<Vec<Socket>, DefFault>
    ensures { Gives (λ sockets. sockets.items) result (each_item socket_at (items_view items.now)) }
{
    let mut sockets = Vec::new(alloc);
    for item in items {
        let socket = given!(socket_of(alloc, item));
        if sockets.push(socket).is_err() {
            return Err(DefFault::NoMemory);
        }
    }
    Ok(sockets)
}

#[tactic(auto, unfolding(crate::specs::Sockets::inetd_key))]
fn inetd_key_of(has_sockets: bool, def: &Value) -> Result<(), DefFault>
    ensures { Gives (λ done. done) result (inetd_key has_sockets (view def.now)) }
{
    match def.get(key_name(KeyName::InetdCompatibility)) {
        Some(found) => inetd_of(has_sockets, found),
        None if has_sockets => Err(DefFault::Bad {
            reason: Reason::Unsupported,
            key: KeyName::InetdCompatibility,
        }),
        None => Ok(()),
    }
}

#[tactic(auto, unfolding(crate::specs::Sockets::inetd_at))]
fn inetd_of(has_sockets: bool, found: &Value) -> Result<(), DefFault>
    ensures { Gives (λ done. done) result (inetd_at has_sockets (view found.now)) }
{
    given!(object_of(found, KeyName::InetdCompatibility));
    match optional_bool_of(found, WAIT, KeyName::InetdCompatibility)? {
        Some(false) => Ok(()),
        _ if has_sockets => Err(DefFault::Bad {
            reason: Reason::Unsupported,
            key: KeyName::InetdCompatibility,
        }),
        _ => Ok(()),
    }
}
