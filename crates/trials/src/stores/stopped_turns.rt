//! A launcher over a store whose disks refuse calls, or stop.

use crate::memory_stage::{Sink, edge, header};
use crate::stores::asked::{Asked, last_of};
use child_edge::MemoryEdge;
use launcher::{Host, Input};
use outside::SettingStore;
use std::alloc::Global;

/// What a client of the launcher asks for, by the places of the settings.
const LINES: [&[u8]; 5] = [
    b"",
    b"",
    b"{\"req\":\"enable\",\"job\":\"a\"}",
    b"{\"req\":\"disable\",\"job\":\"c\"}",
    b"{\"req\":\"enable\",\"job\":\"c\"}",
];

const LOAD: &[u8] =
    b"{\"req\":\"load\",\"def\":\"{\\\"Label\\\":\\\"a\\\",\\\"ProgramArguments\\\":[\\\"/bin/a\\\"]}\"}";

/// A launcher over this store; none if the store refused.
fn launched<T: SettingStore + Drop>(alloc: Global, store: T) -> Option<Host<T, MemoryEdge, Sink>> {
    match (header(alloc, "UTC0", 0), edge(alloc, &[])) {
        (Some(header), Some(edge)) => Host::new(alloc, header, store, edge, None).ok(),
        (header, edge) => {
            drop(store);
            drop(header);
            drop(edge);
            None
        }
    }
}

fn code<T: SettingStore>(alloc: Global, host: &mut Host<T, MemoryEdge, Sink>, line: &[u8]) -> u8 {
    match host.turn(alloc, Input::Line(line)).refusal {
        Some(refusal) => refusal.code(),
        None => 0,
    }
}

/// Asks the launcher for each setting that has no answer yet. Whether each one is made or refused, and a load of `a` is refused exactly if `a` is
/// disabled by what was made.
fn is_asked<T: SettingStore>(
    alloc: Global,
    host: &mut Host<T, MemoryEdge, Sink>,
    asked: &mut [Asked],
) -> bool {
    let mut is_so = true;
    for (one, line) in asked.iter_mut().zip(&LINES) {
        if one.answer.is_none() {
            let code = code(alloc, host, line);
            one.answer = Some(code == 0);
            is_so &= code == 0 || code == 9;
        }
    }
    let loaded = code(alloc, host, LOAD);
    match last_of(asked, asked.len(), "a") {
        Some((_, true, _)) => is_so && loaded == 5,
        _ => is_so && loaded == 0,
    }
}

/// The same of a launcher that is made over the store, and dropped.
pub fn turned<T: SettingStore + Drop>(alloc: Global, store: T, asked: &mut [Asked]) -> bool {
    match launched(alloc, store) {
        Some(host) => {
            let mut host = host;
            let is_so = is_asked(alloc, &mut host, asked);
            let (table, store, edge, journal) = host.into_parts();
            drop(table);
            drop(store);
            drop(edge);
            drop(journal);
            is_so
        }
        None => false,
    }
}
