//! Where a test's files are, and what it has at hand there: an edge that spools, a poll, a port.

use child_edge::{OsEdge, System};
use mio::{Events, Poll, Token};
use std::net::{Ipv4Addr, SocketAddr, TcpListener};
use std::time::Duration;
use std::{fs, process, thread};

/// The name of a test's folder.
pub fn folder_name(rt: &HostRuntime, name: &str) -> Option<String> {
    let id = process::id(rt.process());
    format!(in rt.alloc(); "/tmp/trials-{id}-{name}").ok()
}

/// A new folder of this name.
pub fn new_folder(rt: &HostRuntime, name: &str) -> Option<String> {
    let folder = folder_name(rt, name)?;
    fs::create_dir(rt, folder.as_str()).ok()?;
    Some(folder)
}

/// An edge over the runtime's system, which spools in the folder.
pub fn edge_over<R: System>(own: R, folder: &str) -> Option<OsEdge<R>> {
    let alloc = own.alloc();
    match String::from_str(alloc, folder) {
        Ok(spool) => OsEdge::new(own, alloc, spool).ok(),
        Err(_) => {
            drop(own);
            None
        }
    }
}

/// 127.0.0.1 with the port.
pub fn address(port: u16) -> SocketAddr {
    SocketAddr::from((Ipv4Addr::LOCALHOST, port))
}

/// A port that nobody listens on.
pub fn free_port(rt: &HostRuntime) -> Option<u16> {
    let listener = TcpListener::bind(rt, address(0)).ok()?;
    let own = listener.local_addr().ok()?;
    Some(own.port())
}

/// Waits a hundredth of a second.
pub fn pause(rt: &HostRuntime) {
    thread::sleep(rt, Duration::from_millis(10));
}

/// A poll, with room for what wakes it.
#[derive(Drop)]
pub struct Watch {
    pub poll: Poll,
    pub events: Events,
}

pub fn new_watch(rt: &HostRuntime) -> Option<Watch> {
    let events = Events::with_capacity(rt.alloc(), 8).ok()?;
    let poll = Poll::new(rt).ok()?;
    Some(Watch { poll, events })
}

/// Whether the poll is woken under the token, or is not.
pub fn is_woken(watch: &mut Watch, token: Token, is_woken: bool) -> bool {
    let wait = Duration::from_millis(if is_woken { 5_000 } else { 50 });
    let is_polled = watch.poll.poll(&mut watch.events, Some(wait)).is_ok();
    let mut is_token = false;
    for event in watch.events.iter() {
        is_token = is_token || event.token() == token;
    }
    is_polled && is_token == is_woken
}
