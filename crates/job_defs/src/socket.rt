//! The keys of one socket.

ghost use Rattle.std.specs.Prelude.{◌≡◌, ⊤};
ghost use Rattle.serde_json.specs.View.{view};
ghost use Rattle.serde_json.specs.Find.{get};
ghost use Rattle.history_model.specs.declared.KeyName.TheVariants as keys;
ghost use Rattle.json_kinds.specs.DefFaults.{Gives};
ghost use Rattle.json_kinds.specs.Names as names;
ghost use Rattle.job_defs.specs.Sockets as sockets;
ghost use Rattle.json_kinds.specs.JsonKinds.{where_there, optional, filled_at, texts_in};
ghost use Rattle.job_defs.specs.Sockets.{one_of, passive_at, host_at, any_host, port_in, port_at, port_by, address_of, socket_at};
ghost use Rattle.job_defs.specs.declared.limits.TheConstants.{SOCKET_PATH_LIMIT};

use crate::host::{host_in, number_in};
use crate::limits::{PORT_LEAST, PORT_MOST, SOCKET_PATH_LIMIT};
use history_model::definition::{Address, Socket};
use history_model::{KeyName, Reason, Text};
use json_kinds::DefFault;
use json_kinds::keys::refused_of;
use json_kinds::kinds::{bool_of, filled_of, is_among, number_of, object_of, text_of};
use json_kinds::names::{
    FAMILY, NODE_NAME, PASSIVE, PATH_NAME, PROTOCOL, SECURE_KEY, SERVICE_NAME, SOCKET_TYPE,
};
use serde_json::Value;
use std::alloc::Global;

#[tactic(auto, unfolding(crate::specs::Sockets::socket_at))]
pub(crate) fn socket_of(alloc: Global, found: &Value) -> Result<Socket, DefFault>
    ensures { Gives (λ socket. socket) result (socket_at (view found.now)) }
{
    given!(object_of(found, KeyName::Sockets));
    given!(refused_of(found, SECURE_KEY, KeyName::Sockets));
    given!(one_of_key(found, SOCKET_TYPE, &["stream"]));
    given!(passive_key(found));
    given!(one_of_key(found, FAMILY, &["IPv4", "Unix"]));
    given!(one_of_key(found, PROTOCOL, &["TCP"]));
    let path = given!(path_key(alloc, found));
    let host = given!(host_key(found));
    let port = given!(port_key(found));
    let address = given!(address(path, host, port));
    Ok(Socket { address })
}

#[tactic(auto, unfolding(crate::specs::Sockets::address_of))]
fn address(path: Option<Text>, host: [u8; 4], port: Option<u16>) -> Result<Address, DefFault>
    ensures { Gives (λ address. address) result (address_of path host port) }
{
    match (path, port) {
        (Some(path), _) => Ok(Address::Unix(path)),
        (None, Some(port)) => Ok(Address::Inet { host, port }),
        (None, None) => Err(DefFault::Bad {
            reason: Reason::Missing,
            key: KeyName::Sockets,
        }),
    }
}

/// A text that has to be one of `texts`.
#[tactic(auto, unfolding(crate::specs::Sockets::one_of))]
fn one_of_key(socket: &Value, name: &str, texts: &[&str]) -> Result<(), DefFault>
    ensures { Gives (λ done. done) result
        (where_there (one_of (texts_in texts.now)) tt (get name.now (view socket.now))) }
{
    let Some(found) = socket.get(name) else {
        return Ok(());
    };
    let text = given!(text_of(found, KeyName::Sockets));
    if is_among(texts, text) {
        return Ok(());
    }
    Err(DefFault::Bad {
        reason: Reason::Unsupported,
        key: KeyName::Sockets,
    })
}

#[tactic(auto, unfolding(crate::specs::Sockets::passive_at))]
fn passive_key(socket: &Value) -> Result<(), DefFault>
    ensures { Gives (λ done. done) result
        (where_there passive_at tt (get names.passive (view socket.now))) }
{
    let Some(found) = socket.get(PASSIVE) else {
        return Ok(());
    };
    if given!(bool_of(found, KeyName::Sockets)) {
        return Ok(());
    }
    Err(DefFault::Bad {
        reason: Reason::Unsupported,
        key: KeyName::Sockets,
    })
}

fn path_key(alloc: Global, socket: &Value) -> Result<Option<Text>, DefFault>
    ensures { Gives (λ path. path) result
        (optional (filled_at SOCKET_PATH_LIMIT keys.Sockets) (get names.path_name (view socket.now))) }
{
    match socket.get(PATH_NAME) {
        Some(found) => {
            let path = filled_of(found, KeyName::Sockets, SOCKET_PATH_LIMIT)?;
            Ok(Some(Text::copy_of(alloc, path)?))
        }
        None => Ok(None),
    }
}

#[tactic(auto, unfolding(crate::specs::Sockets::host_at))]
fn host_key(socket: &Value) -> Result<[u8; 4], DefFault>
    ensures { Gives (λ host. host) result
        (where_there host_at any_host (get names.node_name (view socket.now))) }
{
    let Some(found) = socket.get(NODE_NAME) else {
        return Ok([0, 0, 0, 0]);
    };
    match host_in(given!(text_of(found, KeyName::Sockets))) {
        Some(host) => Ok(host),
        None => Err(DefFault::Bad {
            reason: Reason::Unsupported,
            key: KeyName::Sockets,
        }),
    }
}

/// A port, as a number or as the digits of one.
#[tactic(auto, unfolding(crate::specs::Sockets::port_at, crate::specs::Sockets::port_by))]
fn port_key(socket: &Value) -> Result<Option<u16>, DefFault>
    ensures { Gives (λ port. port) result
        (optional port_at (get names.service_name (view socket.now))) }
{
    let Some(found) = socket.get(SERVICE_NAME) else {
        return Ok(None);
    };
    let port = match found.as_number() {
        Some(number) => given!(number_of(number, KeyName::Sockets, PORT_LEAST, PORT_MOST)) as u16,
        None => given!(port_in(given!(text_of(found, KeyName::Sockets)))),
    };
    Ok(Some(port))
}

#[tactic(auto, unfolding(crate::specs::Sockets::port_in))]
fn port_in(text: &str) -> Result<u16, DefFault>
    ensures { Gives (λ port. port) result (sockets.port_in text.now) }
{
    match number_in(text, 5) {
        Some(port) if PORT_LEAST <= port && port <= PORT_MOST => Ok(port as u16),
        Some(_) => Err(DefFault::Bad {
            reason: Reason::OutOfRange,
            key: KeyName::Sockets,
        }),
        None => Err(DefFault::Bad {
            reason: Reason::Unsupported,
            key: KeyName::Sockets,
        }),
    }
}
