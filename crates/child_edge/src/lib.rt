//! The outside of the launcher as four small traits: children, sockets, paths and the clock. Each records its calls
//! with their answers, and counts its failures. [`MemoryEdge`] answers from a script, for tests.
#![tactic(auto)]

mod asking;
mod bound;
mod children;
mod clearing;
mod client;
mod clock;
mod command;
mod connection;
mod connections;
mod edge;
mod failure;
mod fault;
mod held;
mod listener;
mod maps;
mod memory;
mod notices;
mod os;
mod paths;
mod plain;
mod reserve;
mod room;
mod run_variable;
mod shell;
mod sockets;
mod spool;
mod start;
mod streams;
mod system;
mod wake_file;
mod waker;
mod waking;
mod words;

pub use clearing::clear_spool;
pub use client::Client;
pub use edge::{ChildEdge, ClockEdge, Edge, PathEdge, SocketEdge};
pub use memory::MemoryEdge;
pub use notices::{Notice, NoticeKind};
pub use os::OsEdge;
pub use plain::{EdgeCall, EdgeFault, Scripted};
pub use room::room_for;
pub use system::System;
