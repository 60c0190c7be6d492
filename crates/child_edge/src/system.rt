//! What a launcher asks of its runtime.

use std::fs::{File, Files};
use std::net::{Net, TcpListener, TcpStream};
use std::process::Processes;
use std::rt::Clock;

/// Children, files, sockets and clocks of the system.
pub trait System: AllocGlobal
    + Clock
    + Clone
    + Drop
    + Eprint
    + Files<File = File>
    + Net<Listener = TcpListener, Stream = TcpStream>
    + Processes {}

impl<
    R: AllocGlobal
        + Clock
        + Clone
        + Drop
        + Eprint
        + Files<File = File>
        + Net<Listener = TcpListener, Stream = TcpStream>
        + Processes,
> System for R {}
