//! A launcher over an edge, a store and a journal in memory. What lets a launcher go is proved for its whole type, so most trials are
//! generic over it.

use crate::memory_stage::memory_store::MemoryStore;
use crate::memory_stage::sink::{Sink, new_sink};
use child_edge::{EdgeCall, MemoryEdge, Scripted};
use ctl_protocol::{Header, HeaderSettings, ZoneText};
use history_model::{Reading, Reply, Setting, Text};
use launcher::{Host, HostFault, Input};
use std::alloc::{AllocError, Global};

pub type Stage = Host<MemoryStore, MemoryEdge, Sink>;

/// What a launcher is made of.
pub type Parts = (Header, MemoryStore, MemoryEdge);

/// How many lines a journal takes; more than are written.
pub const LINES: usize = 10_000;

/// The clocks as launchers begin.
const START: Reading = Reading {
    up: 0,
    wall: 1_700_000_000,
};

/// An edge that gives the answers besides these calls.
pub fn edge(alloc: Global, calls: &[(EdgeCall, Scripted)]) -> Option<MemoryEdge> {
    let mut answers = Vec::new(alloc);
    for (_call, answer) in calls {
        answers.push(*answer).ok()?;
    }
    MemoryEdge::new(alloc, answers, 16).ok()
}

/// A header of this zone and `up`.
pub fn header(alloc: Global, zone: &str, up: u64) -> Option<Header> {
    let rule = Text::copy_of(alloc, zone).ok()?;
    Some(Header {
        reading: Reading { up, ..START },
        zone: ZoneText::Posix(rule),
        overrides: HeaderSettings::new(Vec::new(alloc)),
    })
}

/// A setting for each of these names, in their order: it is disabled.
fn disabled(alloc: Global, names: &[&str]) -> Result<Vec<Setting>, AllocError> {
    let mut held = Vec::new(alloc);
    for name in names {
        let label = Text::copy_of(alloc, name)?;
        held.push(Setting {
            label,
            disabled: true,
        })?;
    }
    Ok(held)
}

/// What a launcher is made of: a header of this zone and `up`, a store that disables these labels and takes each setting, and an edge. The edge gives
/// these calls their answers.
pub fn parts_of(
    alloc: Global,
    zone: &str,
    up: u64,
    held: &[&str],
    calls: &[(EdgeCall, Scripted)],
) -> Option<Parts> {
    let edge = edge(alloc, calls)?;
    match (header(alloc, zone, up), disabled(alloc, held)) {
        (Some(header), Ok(held)) => {
            let store = MemoryStore {
                alloc,
                held,
                answer: true,
                fault: None,
                asked: 0,
            };
            Some((header, store, edge))
        }
        (header, held) => {
            drop(edge);
            drop(header);
            drop(held);
            None
        }
    }
}

/// A launcher, whatever it is made of.
pub trait Launched {
    /// A launcher of the parts, whose journal takes this many writes.
    fn open(alloc: Global, parts: Parts, writes: usize) -> Result<Self, HostFault>;

    /// What it replies to the input.
    fn reply_to(&mut self, alloc: Global, input: Input<'_>) -> Reply;

    /// How many calls it has made.
    fn calls(&mut self) -> usize;

    /// Whether its journal was closed, and that was not reported yet.
    fn has_closed(&mut self) -> bool;

    /// What is left of it.
    fn into_left(self) -> Left;
}

/// What is left of a launcher: whether it had a job, its store and its edge, and its journal, if that was not closed.
#[derive(Drop)]
pub struct Left {
    pub has_job: bool,
    pub store: MemoryStore,
    pub edge: MemoryEdge,
    pub journal: Option<Sink>,
}

impl Launched for Stage {
    fn open(alloc: Global, parts: Parts, writes: usize) -> Result<Stage, HostFault> {
        let (header, store, edge) = parts;
        Host::new(alloc, header, store, edge, Some(new_sink(alloc, writes)))
    }

    fn reply_to(&mut self, alloc: Global, input: Input<'_>) -> Reply {
        self.turn(alloc, input)
    }

    fn calls(&mut self) -> usize {
        self.edge().calls().len()
    }

    fn has_closed(&mut self) -> bool {
        self.report_journal_closing()
    }

    fn into_left(self) -> Left {
        let (table, store, edge, journal) = self.into_parts();
        let has_job = !table.is_empty();
        drop(table);
        Left {
            has_job,
            store,
            edge,
            journal,
        }
    }
}

/// The code and whether the text is this one.
pub fn asked<H: Launched>(alloc: Global, host: &mut H, input: Input<'_>, text: &str) -> (u8, bool) {
    let reply = host.reply_to(alloc, input);
    let code = match reply.refusal {
        Some(refusal) => refusal.code(),
        None => 0,
    };
    (code, reply.text.as_str() == text)
}
