//! Passes of the event loop over a system that refuses, with one job. The launcher's store and its journal are in memory.

use crate::edges::places::{edge_over, new_folder};
use crate::edges::refusing::{Found, Grants, Refusing, new_refusing};
use crate::memory_stage::{LINES, MemoryStore, Sink, header, new_sink};
use child_edge::OsEdge;
use control_socket::ControlSocket;
use jobd::RoundLauncher;
use launcher::{Host, Input};
use live_loop::{Live, LoopHost, System, round};
use std::fs;
use std::io::ErrorKind;

const LOAD: &[u8] =
    b"{\"req\":\"load\",\"def\":\"{\\\"Label\\\":\\\"a\\\",\\\"Program\\\":\\\"/bin/x\\\",\\\"RunAtLoad\\\":true,\\\"WatchPaths\\\":[\\\"/w\\\"],\\\"Sockets\\\":{\\\"s\\\":{\\\"SockNodeName\\\":\\\"localhost\\\",\\\"SockServiceName\\\":7}},\\\"inetdCompatibility\\\":{\\\"Wait\\\":false}}\"}";

/// It has neither clock readings nor observations nor connections. It has each wait as it was answered.
const JOURNAL: &[u8] = b"{\"overrides\":{},\"up\":0,\"wall\":1700000000,\"zone\":\"UTC0\"}\n\
{\"F\":false,\"bind\":true,\"def\":\"{\\\"Label\\\":\\\"a\\\",\\\"Program\\\":\\\"/bin/x\\\",\\\"RunAtLoad\\\":true,\\\"WatchPaths\\\":[\\\"/w\\\"],\\\"Sockets\\\":{\\\"s\\\":{\\\"SockNodeName\\\":\\\"localhost\\\",\\\"SockServiceName\\\":7}},\\\"inetdCompatibility\\\":{\\\"Wait\\\":false}}\",\"ev\":\"load\",\"store\":true,\"w\":false}\n\
{\"ev\":\"spawned\",\"job\":\"a\",\"pid\":7,\"run\":1}\n\
{\"ev\":\"wait_refused\",\"job\":\"a\",\"run\":1}\n\
{\"code\":3,\"ev\":\"ended\",\"job\":\"a\",\"run\":1}\n";

/// The first pass reports each refusal; the second finds the child's end.
const TOLD: &str =
    "jobd: no helper process can be started from /proc/self/exe: a path that hangs stops the launcher
jobd: a: run 1: cannot wait for its end: permission denied
jobd: cannot check /w: permission denied
jobd: a: cannot let a client in: Invalid argument (os error 22)
jobd: control socket: cannot check its file: permission denied
";

/// A child for which the first two waits are refused.
const FOUND: Option<Found> = Some(Found {
    pid: 7,
    refusals: 2,
});

/// A launcher with no job over the runtime's system, which spools in the folder.
pub fn launcher_over<R: System>(
    own: R,
    folder: &str,
) -> Option<Host<MemoryStore, OsEdge<R>, Sink>> {
    let alloc = own.alloc();
    let edge = edge_over(own, folder)?;
    let Some(header) = header(alloc, "UTC0", 0) else {
        drop(edge);
        return None;
    };
    let store = MemoryStore {
        alloc,
        held: Vec::new(alloc),
        answer: true,
        fault: None,
        asked: 0,
    };
    Host::new(alloc, header, store, edge, Some(new_sink(alloc, LINES))).ok()
}

/// Makes two passes with the control socket, and returns whether both go on, and the launcher.
fn rounds_of<R: System, H: LoopHost + Drop>(
    rt: &R,
    host: H,
    control: ControlSocket,
) -> Option<(bool, H)> {
    let mut live = Live::new(rt, rt.alloc(), host, control).ok()?;
    let first = matches!(round(rt, rt.alloc(), &mut live), Ok(false));
    let second = matches!(round(rt, rt.alloc(), &mut live), Ok(false));
    Some((first && second, live.into_host()))
}

/// Whether the journal is as expected.
fn holds<R: System>(host: Host<MemoryStore, OsEdge<R>, Sink>) -> bool {
    let (table, store, edge, journal) = host.into_parts();
    drop(table);
    drop(store);
    drop(edge);
    match journal {
        Some(sink) => sink.taken.as_slice() == JOURNAL,
        None => false,
    }
}

/// Whether two passes of a launcher that has the job, with a control socket in the folder, go on, and the journal then is as expected.
fn is_journaled(host_rt: &HostRuntime, rt: &Refusing, folder: &str) -> Option<bool> {
    let own = rt.clone().ok()?;
    let path = format!(in rt.alloc(); "{folder}/socket").ok()?;
    let control = ControlSocket::open(host_rt, rt.alloc(), path.as_str()).ok()?;
    match launcher_over(own, folder) {
        Some(host) => {
            let mut host = host;
            drop(host.turn(rt.alloc(), Input::Line(LOAD)));
            let (go_on, launcher) = rounds_of(rt, RoundLauncher::new(host, 0), control)?;
            let RoundLauncher { host, .. } = launcher;
            Some(holds(host) && go_on)
        }
        None => {
            drop(control);
            None
        }
    }
}

/// Whether a pass takes each refusal as it should, goes on, and reports it. A refused wait is an event, and the next wait's end too. A refused path
/// check, clock or client does not become an event.
pub fn are_taken(rt: &HostRuntime) -> Option<bool> {
    let system = new_refusing(rt, ErrorKind::PermissionDenied, FOUND, Grants::Openings)?;
    let Some(folder) = new_folder(rt, "refusals") else {
        drop(system);
        return None;
    };
    let is_journaled = is_journaled(rt, &system, folder.as_str()) == Some(true);
    let is_clear = fs::remove_dir_all(rt, folder.as_str()).is_ok();
    let is_told = match system.told.try_borrow() {
        Ok(told) => told.as_str() == TOLD,
        Err(_) => false,
    };
    drop(system);
    Some(is_journaled && is_clear && is_told)
}
