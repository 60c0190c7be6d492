//! One listening socket: a Unix socket at a path, or TCP on IPv4. None of them blocks.

use crate::Client;
use files_and_process::socket_file;
use files_and_process::socket_file::SocketMark;
use history_model::Text;
use history_model::definition::{Address, Socket};
use mio::net::{TcpListener, UnixListener};
use mio::{Interest, Registry, Token};
use std::alloc::Global;
use std::fs::{File, Files};
use std::io;
use std::io::ErrorKind;
use std::net::{Ipv4Addr, Net, SocketAddr};

/// How many clients that have left are passed over at a time.
const GONE: u32 = 64;

#[derive(Drop)]
pub(crate) enum Listener {
    Unix {
        socket: UnixListener,
        path: Text,
        mark: SocketMark,
    },
    Inet(TcpListener),
}

impl Listener {
    /// Binds the socket that the definition says. A Unix socket is for this user alone.
    pub(crate) fn bind<
        R: Files<File = File> + Net<Listener = std::net::TcpListener, Stream = std::net::TcpStream>,
    >(rt: &R, alloc: Global, wanted: &Socket) -> io::Result<Listener> {
        match &wanted.address {
            Address::Unix(path) => bind_unix(rt, alloc, path.as_str()),
            Address::Inet { host, port } => {
                bind_inet(rt, SocketAddr::from((Ipv4Addr::from_octets(*host), *port)))
            }
        }
    }

    /// Removes the socket's file, if it is still the one that was bound.
    pub(crate) fn give_up<R: Files<File = File>>(&self, rt: &R) {
        if let Listener::Unix { path, mark, .. } = self {
            socket_file::remove(rt, path.as_str(), *mark);
        }
    }

    /// The path of a Unix socket.
    pub(crate) fn path(&self) -> Option<&str> {
        match self {
            Listener::Unix { path, .. } => Some(path.as_str()),
            Listener::Inet(_) => None,
        }
    }

    /// Whether this is the socket at the path.
    pub(crate) fn is_at(&self, path: &str) -> bool {
        match self {
            Listener::Unix { path: own, .. } => own.as_str() == path,
            Listener::Inet(_) => false,
        }
    }

    /// The next client that waits, if one does. One that left before it was let in is passed over.
    pub(crate) fn accept(&self) -> io::Result<Option<Client>> {
        for _ in 0..GONE {
            match self.try_accept() {
                Ok(client) => return Ok(Some(client)),
                Err(error) => match error.kind() {
                    ErrorKind::WouldBlock => return Ok(None),
                    ErrorKind::Interrupted | ErrorKind::ConnectionAborted => {}
                    _ => return Err(error),
                },
            }
        }
        Ok(None)
    }

    fn try_accept(&self) -> io::Result<Client> {
        match self {
            Listener::Unix { socket, .. } => Ok(Client::Unix(socket.accept()?.0)),
            Listener::Inet(socket) => Ok(Client::Inet(socket.accept()?.0)),
        }
    }

    /// Has clients that come wake the poll.
    pub(crate) fn register(&mut self, registry: &Registry, token: Token) -> io::Result<()> {
        match self {
            Listener::Unix { socket, .. } => registry.register(socket, token, Interest::READABLE),
            Listener::Inet(socket) => registry.register(socket, token, Interest::READABLE),
        }
    }
}

fn bind_inet<R: Net<Listener = std::net::TcpListener, Stream = std::net::TcpStream>>(
    rt: &R,
    place: SocketAddr,
) -> io::Result<Listener> {
    let socket = match rt.bind(place) {
        Ok(socket) => socket,
        Err(error) => return Err(error),
    };
    match socket.set_nonblocking(true) {
        Ok(()) => Ok(Listener::Inet(TcpListener::from_std(socket))),
        Err(error) => {
            drop(socket);
            Err(error)
        }
    }
}

fn bind_unix<R: Files<File = File> + Net>(
    rt: &R,
    alloc: Global,
    path: &str,
) -> io::Result<Listener> {
    let path = match Text::copy_of(alloc, path) {
        Ok(path) => path,
        Err(error) => return Err(io::Error::from(error)),
    };
    match socket_file::bind(rt, alloc, path.as_str()) {
        Ok((socket, mark)) => Ok(Listener::Unix { socket, path, mark }),
        Err(error) => {
            drop(path);
            Err(error)
        }
    }
}
