//! What may be wrong with where sockets wait.

use crate::check::finding::Severity;
use crate::check::finding_list::FindingList;
use crate::check::in_use::{has_address, is_path_in_use, is_port_barred, is_port_in_use};
use crate::check::there::{PathFound, found_at};
use history_model::KeyName;
use job_defs::{Address, Def, Socket};
use run_times::Piece::{Number, Text};

/// Adds a warning if two sockets wait at one place, and a note for each place at which some socket waits now.
pub(crate) fn add_sockets(host: &HostRuntime, def: &Def, finding_list: &mut FindingList<'_>) {
    let sockets = def.sockets();
    for (index, socket) in sockets.iter().enumerate() {
        let behind = sockets.get(index.saturating_add(1)..).unwrap_or(&[]);
        if stands_in(socket, behind) {
            add_twice(&socket.address, finding_list);
        }
        add_in_use(host, &socket.address, finding_list);
    }
}

fn stands_in(socket: &Socket, sockets: &[Socket]) -> bool {
    for other in sockets {
        if is_same(&socket.address, &other.address) {
            return true;
        }
    }
    false
}

// A host of four zeros has each address of the machine.
fn is_same(one: &Address, other: &Address) -> bool {
    match (one, other) {
        (Address::Unix(path), Address::Unix(other)) => path.as_str() == other.as_str(),
        (
            Address::Inet { host, port },
            Address::Inet {
                host: other,
                port: at,
            },
        ) => port == at && (host == other || *host == [0; 4] || *other == [0; 4]),
        _ => false,
    }
}

fn add_twice(address: &Address, finding_list: &mut FindingList<'_>) {
    let (form, shown) = match address {
        Address::Unix(path) => (
            "Sockets: two sockets wait at $; a load is refused",
            Text(path.as_str()),
        ),
        Address::Inet { port, .. } => (
            "Sockets: two sockets wait at port $; a load is refused",
            Number(u64::from(*port)),
        ),
    };
    finding_list.add(Severity::Warning, KeyName::Sockets, form, &[shown]);
}

// Adds a note if a socket waits there now, as the system reports it.
fn add_in_use(host: &HostRuntime, address: &Address, finding_list: &mut FindingList<'_>) {
    match address {
        Address::Unix(path) => {
            if is_path_in_use(host, finding_list.alloc, path.as_str()) {
                finding_list.add(
                    Severity::Note,
                    KeyName::Sockets,
                    "Sockets: a socket waits at $ now; if it is not that of this job, a load is refused while it does",
                    &[Text(path.as_str())],
                );
            }
            add_other(host, path.as_str(), finding_list);
        }
        Address::Inet { host: own, port } => {
            let told = "Sockets: this machine does not have this address; a load here is refused";
            let has = has_address(host, finding_list.alloc, own);
            finding_list.add_if(!has, KeyName::Sockets, told);
            if is_port_barred(host, finding_list.alloc, *port) {
                let told = "Sockets: port $ is one of root's; a load by this user is refused";
                let pieces = [Number(u64::from(*port))];
                finding_list.add(Severity::Warning, KeyName::Sockets, told, &pieces);
            }
            if is_port_in_use(host, finding_list.alloc, own, *port) {
                finding_list.add(
                    Severity::Note,
                    KeyName::Sockets,
                    "Sockets: a socket waits at port $ now; if it is not that of this job, a load is refused while it does",
                    &[Number(u64::from(*port))],
                );
            }
        }
    }
}

// Adds a warning if what is at the path is not a socket: a bind there is refused.
fn add_other(host: &HostRuntime, path: &str, finding_list: &mut FindingList<'_>) {
    let told = match found_at(host, path) {
        Ok(PathFound::Nothing | PathFound::Socket) | Err(_) => return,
        Ok(_) => "Sockets: $ exists and is not a socket; a load is refused",
    };
    finding_list.add(Severity::Warning, KeyName::Sockets, told, &[Text(path)]);
}
