//! The control socket: its files, and who is served on it.

ghost use Rattle.std.specs.Prelude.{◌≡◌, [], IfOk, IsTrue, max, min};
ghost use Rattle.control_socket.specs.Lives.{IsVacant};
ghost use Rattle.control_socket.specs.Serving.{Serves};
ghost use Rattle.control_socket.specs.Clients.{AllGoOn, MovesOn, StaysOrGoes};

use crate::accepting::spare_descriptor;
use crate::client::{Client, PIECES, Progress};
use crate::notices::Notices;
use crate::turn::{Answers, LINES, Limit, Turn};
use files_and_process::own_files::LockFile;
use files_and_process::socket_file;
use files_and_process::socket_file::SocketMark;
use history_model::Text;
use mio::net::UnixListener;
use mio::{Interest, Registry, Token};
use slab::Slab;
use std::alloc::{AllocError, Global};
use std::fs::{File, Files};
use std::io::{Error, ErrorKind};
use std::net::Net;
use std::{io, mem};

/// How many clients are served at a time, if no lower number is set.
pub const CLIENTS: usize = 64;

/// How many bytes are read at once.
const PIECE: usize = 16_384;

/// The control socket: one listener at a path, and its clients.
///
/// Each call of `serve` tries every client. A client takes at most the memory of its longest
/// line ([`ctl_protocol::LINE_LIMIT`]) and of the replies that it has not taken: [`crate::UNSENT`] bytes and one reply more.
pub struct ControlSocket {
    pub(crate) alloc: Global,
    pub(crate) listener: UnixListener,
    path: Text,
    mark: SocketMark,
    lock: LockFile,
    pub(crate) token: Token,
    pub(crate) clients: Slab<Client>,
    // How many are served at a time.
    pub(crate) most: usize,
    pub(crate) room: Vec<u8>,
    pub(crate) notices: Notices,
    // A descriptor that is kept for an accept which finds none free. None, as long as the system gives none.
    pub(crate) spare: Option<File>,
    // Whether clients may wait: the poll was woken, and no accept found nobody since.
    pub(crate) may_have_come: bool,
    // How many calls of `serve` there were, and the `up` of the last.
    pub(crate) rounds: u64,
    pub(crate) up: u64,
    // The `up` from which on the socket's file is checked again.
    pub(crate) next_look: u64,
    // The next `serve` begins with this key.
    first: usize,
    // The last `serve` checked every client.
    pub(crate) is_whole: bool,
    // Since this `up` no place was found for a new client.
    pub(crate) full_since: Option<u64>,
}

// for the proof: who drops it calls this, in place of dropping each part
impl Drop for ControlSocket {
    fn drop(self) {
        let ControlSocket {
            alloc: _,
            listener: _,
            path: _,
            mark: _,
            lock: _,
            token: _,
            clients: _,
            most: _,
            room: _,
            notices: _,
            spare: _,
            may_have_come: _,
            rounds: _,
            up: _,
            next_look: _,
            first: _,
            is_whole: _,
            full_since: _,
        } = self;
    }
}

impl ControlSocket {
    /// Binds the socket at the path, for this user alone (mode 0600). A socket file on which nobody listens any more is
    /// replaced. While the socket is open, it holds a lock on the file of the path and `.lock`, which is made if it is
    /// absent. `AddrInUse`: somebody listens at the path or holds the lock, or a file of another kind is at one of
    /// them; it is left as it is. Any other error is that of the system's call, or `OutOfMemory`; then no socket of
    /// ours is left.
    pub fn open<R: Files<File = File> + Net>(
        rt: &R,
        alloc: Global,
        path: &str,
    ) -> io::Result<ControlSocket>
        ensures nobody { IfOk result (λ control. IsVacant control.clients) }
    {
        let (own_path, room, clients) = match memory_for(alloc, path) {
            Ok(memory) => memory,
            Err(error) => return Err(Error::from(error)),
        };
        let (lock, listener, mark) = match bind(rt, alloc, path) {
            Ok(bound) => bound,
            Err(error) => {
                drop(own_path);
                drop(room);
                drop(clients);
                return Err(error);
            }
        };
        Ok(ControlSocket {
            alloc,
            listener,
            path: own_path,
            mark,
            lock,
            token: Token(0),
            clients,
            most: CLIENTS,
            room,
            notices: Notices::new(),
            spare: spare_descriptor(rt),
            may_have_come: true,
            rounds: 0,
            up: 0,
            next_look: 0,
            first: 0,
            is_whole: true,
            full_since: None,
        })
    }

    /// Has clients that come wake the poll, under the token, and what they send too. An error is that of the system's call.
    pub fn register(&mut self, registry: &Registry, token: Token) -> io::Result<()>
        ensures clients { self.new.clients ≡ self.old.clients }
    {
        self.token = token;
        registry.register(&mut self.listener, token, Interest::READABLE)
    }

    /// The poll was woken under this token: if it is that of the socket, clients may wait there.
    pub fn wake_by(&mut self, token: Token)
        ensures clients { self.new.clients ≡ self.old.clients }
        ensures up { self.new.up ≡ self.old.up }
        ensures kept { IsTrue self.old.may_have_come → IsTrue self.new.may_have_come }
        ensures woken { token.0 ≡ self.old.token.0 → IsTrue self.new.may_have_come }
    {
        if token == self.token {
            self.may_have_come = true;
        }
    }

    /// How many clients are served at a time from now on, one at least and [`CLIENTS`] at most. This disconnects none.
    pub fn set_room(&mut self, clients: usize)
        ensures most { self.new.most ≡ min 64 (max 1 clients) }
        ensures clients { self.new.clients ≡ self.old.clients }
    {
        self.most = clients.max(1).min(CLIENTS);
    }

    /// Which file the socket is.
    pub fn mark(&self) -> SocketMark {
        self.mark
    }

    /// Moves each client on. From each it reads what came, at most 65,536 bytes. It answers whole lines in their order,
    /// at most [`crate::LINES`], and sends what is taken. First each client has one piece and one line; further ones
    /// come after those of all clients.
    ///
    /// The limit may say, after a line was answered, that there is no more time. Then no further line is answered and
    /// no further client moved on, and the next call begins with the client after it. A client that is done, has left,
    /// or finds no memory is closed. True: one of them may go on at once.
    pub fn serve<A: Answers, L: Limit>(
        &mut self,
        alloc: Global,
        answers: &mut A,
        limit: &mut L,
    ) -> bool
        ensures serves { Serves A.Answered answers.old answers.new }
        // Each line that is answered is the next one of a client, whose dialogue alone has the reply.
        ensures clients { AllGoOn A.Answered self.old.clients answers.old self.new.clients answers.new }
    {
        self.rounds = self.rounds.saturating_add(1);
        let mut turn = Turn::new(self.rounds, answers, limit);
        self.up = turn.up;
        let is_busy = self.pass(alloc, &mut turn);
        self.is_whole = is_busy.is_some();
        match is_busy {
            Some(false) => false,
            Some(true) => {
                turn.pieces = PIECES - 1;
                turn.lines = LINES - 1;
                self.pass(alloc, &mut turn).unwrap_or(true)
            }
            None => true,
        }
    }

    // Moves each client on, and says whether one of them may go on at once. None: there was no time for all.
    fn pass<A: Answers, L: Limit>(
        &mut self,
        alloc: Global,
        turn: &mut Turn<'_, A, L>,
    ) -> Option<bool>
        ensures clients { AllGoOn A.Answered self.old.clients turn.old.answers.now self.new.clients turn.new.answers.now }
        ensures serves { Serves A.Answered turn.old.answers.now turn.new.answers.now }
        ensures name { turn.new.answers.ghost_name ≡ turn.old.answers.ghost_name }
    {
        let first = self.first;
        let mut is_busy = false;
        for step in 0..CLIENTS {
            let key = first.wrapping_add(step) % CLIENTS;
            if !turn.has_time {
                self.first = key;
                return None;
            }
            let may_go_on = self.move_on(alloc, key, turn);
            is_busy = is_busy || may_go_on;
        }
        Some(is_busy)
    }

    // Moves the client of the key on, if there is one. True: it may go on at once.
    fn move_on<A: Answers, L: Limit>(
        &mut self,
        alloc: Global,
        key: usize,
        turn: &mut Turn<'_, A, L>,
    ) -> bool
        ensures moved { MovesOn A.Answered key self.old.clients turn.old.answers.now self.new.clients turn.new.answers.now }
        ensures serves { Serves A.Answered turn.old.answers.now turn.new.answers.now }
        ensures name { turn.new.answers.ghost_name ≡ turn.old.answers.ghost_name }
    {
        let Some(client) = self.clients.get_mut(key) else {
            return false;
        };
        let progress = client.advance(alloc, &mut self.room, turn);
        self.settle(key, progress)
    }

    // Closes the client of the key if it is done, or has left. True: it may go on at once.
    fn settle(&mut self, key: usize, progress: io::Result<Progress>) -> bool
        ensures { StaysOrGoes key progress self.old.clients self.new.clients }
    {
        match progress {
            Ok(Progress::Waits) => false,
            Ok(Progress::MayGoOn) => true,
            Ok(Progress::Ended) => {
                self.notices.ended_well();
                drop(self.clients.try_remove(key));
                false
            }
            Err(error) => {
                self.notices.disconnected(error);
                drop(self.clients.try_remove(key));
                false
            }
        }
    }

    // Checks that the socket's file is still the one that was bound, and then the lock's. If the first is not, it binds
    // the socket again as `open` does, and keeps its clients. If the second is not, it takes the lock on a new file. It
    // reports that, or why it can't be done. If the system does not say whether a file is there, it reports this, and
    // makes nothing.
    pub(crate) fn keep_file<R: Files<File = File> + Net>(&mut self, rt: &R, registry: &Registry)
        ensures { self.new.clients ≡ self.old.clients }
    {
        match socket_file::is_at(rt, self.path.as_str(), self.mark) {
            Ok(true) => self.keep_lock(rt),
            Ok(false) => match self.bind_again(rt, registry) {
                Ok(()) => self.notices.made_again(),
                Err(error) => self.notices.not_made_again(error),
            },
            Err(error) => self.notices.look_refused(error),
        }
    }

    // Takes the lock on a new file if its file was removed, or another is in its place. The one that is held is kept
    // until then.
    fn keep_lock<R: Files<File = File>>(&mut self, rt: &R)
        ensures { self.new.clients ≡ self.old.clients }
    {
        match self.lock.is_at_its_path(rt) {
            Ok(true) => self.notices.files_stand(),
            Ok(false) => match self.lock_again(rt) {
                Ok(()) => self.notices.taken_again(),
                Err(error) => self.notices.not_taken_again(error),
            },
            Err(error) => self.notices.look_refused(error),
        }
    }

    fn lock_again<R: Files<File = File>>(&mut self, rt: &R) -> io::Result<()>
        ensures { self.new.clients ≡ self.old.clients }
    {
        match lock_beside(rt, self.alloc, self.path.as_str()) {
            Ok(lock) => {
                drop(mem::replace(&mut self.lock, lock));
                Ok(())
            }
            Err(error) => Err(error),
        }
    }

    // Under the lock that is held; if the lock's file was removed too, under a new one.
    fn bind_again<R: Files<File = File> + Net>(
        &mut self,
        rt: &R,
        registry: &Registry,
    ) -> io::Result<()>
        ensures { self.new.clients ≡ self.old.clients }
    {
        if let Ok(false) = self.lock.is_at_its_path(rt) {
            self.lock_again(rt)?;
        }
        let (mut listener, mark) = match socket_file::bind(rt, self.alloc, self.path.as_str()) {
            Ok(bound) => bound,
            Err(error) => return Err(error),
        };
        match registry.register(&mut listener, self.token, Interest::READABLE) {
            Ok(()) => {
                self.mark = mark;
                self.may_have_come = true;
                drop(mem::replace(&mut self.listener, listener));
                Ok(())
            }
            Err(error) => {
                socket_file::remove(rt, self.path.as_str(), mark);
                drop(listener);
                Err(error)
            }
        }
    }

    /// The next line on what was refused, without a newline. It is about an accept, or about a client that was
    /// disconnected for want of memory or since a read or a write failed. Each is logged once, and again when its
    /// reason changes.
    ///
    /// An accept is logged again also after a call of `accept` that took a client and was refused nothing. A client is
    /// logged again also after one that had all its replies. A client that only went away is not logged.
    ///
    /// That the socket's file or the lock's was removed and is made again is logged each time. Why it can't be made
    /// again, or checked, is logged once for each reason, until both are there.
    pub fn next_notice(&mut self) -> Option<Text>
        ensures clients { self.new.clients ≡ self.old.clients }
    {
        self.notices.next(self.alloc)
    }

    /// Whether no client has a reply that is not yet sent. A client that never reads keeps it false, so whoever waits for it
    /// waits for some time only.
    pub fn is_quiet(&self) -> bool {
        for (_, client) in self.clients.iter() {
            if client.has_unsent() {
                return false;
            }
        }
        true
    }

    /// Removes the socket's file and then the lock's, at a clean end. A file that somebody else put in the place of one is left.
    pub fn remove<R: Files<File = File>>(&self, rt: &R) {
        socket_file::remove(rt, self.path.as_str(), self.mark);
        self.lock.remove(rt);
    }
}

// The socket's path, the room for a piece, and that for the clients.
fn memory_for(alloc: Global, path: &str) -> Result<(Text, Vec<u8>, Slab<Client>), AllocError>
    ensures nobody { IfOk result (λ memory. memory.2.slots ≡ []) }
{
    let path = match Text::copy_of(alloc, path) {
        Ok(path) => path,
        Err(error) => return Err(error),
    };
    let room = match Vec::from_elem(alloc, 0u8, PIECE) {
        Ok(room) => room,
        Err(error) => {
            drop(path);
            return Err(error);
        }
    };
    match Slab::with_capacity(alloc, CLIENTS) {
        Ok(clients) => Ok((path, room, clients)),
        Err(error) => {
            drop(path);
            drop(room);
            Err(error)
        }
    }
}

// The listener at the path, with the lock next to it.
fn bind<R: Files<File = File> + Net>(
    rt: &R,
    alloc: Global,
    path: &str,
) -> io::Result<(LockFile, UnixListener, SocketMark)> {
    let lock = match lock_beside(rt, alloc, path) {
        Ok(lock) => lock,
        Err(error) => return Err(error),
    };
    match socket_file::bind(rt, alloc, path) {
        Ok((listener, mark)) => Ok((lock, listener, mark)),
        Err(error) => {
            lock.remove(rt);
            drop(lock);
            Err(error)
        }
    }
}

// The lock on the file of the socket's path and `.lock`.
fn lock_beside<R: Files<File = File>>(rt: &R, alloc: Global, path: &str) -> io::Result<LockFile> {
    let beside = match format!(in alloc; "{path}.lock") {
        Ok(beside) => beside,
        Err(error) => return Err(Error::from(error)),
    };
    match LockFile::take(rt, beside) {
        Ok(lock) => Ok(lock),
        Err(error) => Err(match error.kind() {
            ErrorKind::ResourceBusy => {
                Error::new(ErrorKind::AddrInUse, "another launcher holds its lock")
            }
            ErrorKind::AlreadyExists => {
                Error::new(ErrorKind::AddrInUse, "its lock is not a plain file")
            }
            _ => error,
        }),
    }
}
