//! Who comes: it accepts the clients that wait, and disconnects one for a new one where there is no place.

ghost use Rattle.std.specs.Prelude.{◌≡◌, IfSome, true};
ghost use Rattle.slab.specs.Slab.{get};
ghost use Rattle.control_socket.specs.Clients.{AllWait, LeavesClients, LetsWait, MayGo, WaitsAt};

use crate::client::{Client, TOO_MANY};
use crate::control::{CLIENTS, ControlSocket};
use mio::net::UnixStream;
use mio::{Interest, Registry};
use std::fs::{File, Files};
use std::io::{Error, ErrorKind, Read, Write};
use std::mem;
use std::net::Net;

/// How many milliseconds of `up` lie at least between two checks of the socket's file.
const BETWEEN_LOOKS: u64 = 1_000;

/// For how many milliseconds of `up` no place must have been found before a new client is turned away.
const FULL: u64 = 1_000;

/// Where a new client can be.
#[derive(Clone, Copy)]
enum ClientPlace {
    Free,
    /// In the place of the client of this key, which is disconnected.
    Of(usize),
    /// Not known until a `serve` checked every client.
    Unknown,
    Nowhere,
}

/// How it goes in a call of `accept`.
#[derive(Drop)]
struct Taking {
    // The last client that came was taken, and no accept was refused.
    is_well: bool,
    // An accept was refused, and a descriptor was given up for one more.
    is_short: bool,
    // Why it was refused, if it is not known whether somebody waits.
    untold: Option<Error>,
    is_over: bool,
}

/// In which way a client does nothing: it sends nothing, or it takes nothing of its reply.
#[derive(Clone, Copy)]
enum Still {
    Silent,
    Stuck,
}

impl ControlSocket {
    /// Takes the clients that wait. Call it after a `serve`, which closes the clients that are done. It answers no line
    /// of a client. It asks the system only if clients may wait: the poll was woken (`wake_by`), or an accept before did
    /// not find that nobody waits. Once a second of `up` it asks in any case.
    ///
    /// If there are already the most clients that may be ([`set_room`](ControlSocket::set_room)), a silent or a stuck
    /// client is disconnected for the new one. The new client waits if there is neither, and is turned away after a
    /// second (`place`). Without a free descriptor it accepts by the one that is kept for this (`try_once_more`). Once
    /// a second of `up` at most it checks the files of the socket and of its lock (`keep_file`).
    pub fn accept<R: Files<File = File> + Net>(&mut self, rt: &R, registry: &Registry)
        ensures { AllWait self.old.up self.old.clients self.new.clients }
    {
        let is_look_due = self.up >= self.next_look;
        self.may_have_come = self.may_have_come || is_look_due;
        self.accept_all(rt, registry);
        if is_look_due {
            self.next_look = self.up.saturating_add(BETWEEN_LOOKS);
            self.keep_file(rt, registry);
        }
    }

    // Takes the clients that wait, if some may.
    fn accept_all<R: Files<File = File>>(&mut self, rt: &R, registry: &Registry)
        ensures { LetsWait self.old self.new }
    {
        if !self.may_have_come {
            return;
        }
        self.keep_spare(rt);
        let mut taking = Taking {
            is_well: false,
            is_short: false,
            untold: None,
            is_over: false,
        };
        for _ in 0..2 * CLIENTS {
            self.accept_next(rt, registry, &mut taking);
        }
        drop(taking);
        self.keep_spare(rt);
    }

    // Takes the next client that waits, if there is a place for it.
    fn accept_next<R: Files<File = File>>(
        &mut self,
        rt: &R,
        registry: &Registry,
        taking: &mut Taking,
    )
        ensures { LetsWait self.old self.new }
    {
        if taking.is_over {
            return;
        }
        let place = self.place();
        if let ClientPlace::Unknown = place {
            taking.is_over = true;
            return;
        }
        match self.listener.accept() {
            Ok((stream, _)) => self.take(rt, registry, stream, place, taking),
            Err(error) => self.go_on(error, taking),
        }
    }

    // A client came. If a descriptor was given up for it, one is kept again first.
    fn take<R: Files<File = File>>(
        &mut self,
        rt: &R,
        registry: &Registry,
        stream: UnixStream,
        place: ClientPlace,
        taking: &mut Taking,
    )
        ensures { LetsWait self.old self.new }
    {
        self.make_good(rt, taking);
        let is_welcome = self.welcome(registry, stream, place);
        taking.is_well = is_welcome && !taking.is_short;
    }

    fn make_good<R: Files<File = File>>(&mut self, rt: &R, taking: &mut Taking)
        ensures { LetsWait self.old self.new }
    {
        if let Some(error) = taking.untold.take() {
            self.give_way(rt, error);
        }
    }

    // No client came, for this reason: nobody waits, or it is tried again.
    fn go_on(&mut self, error: Error, taking: &mut Taking)
        ensures { LetsWait self.old self.new }
    {
        match error.kind() {
            ErrorKind::Interrupted => drop(error),
            ErrorKind::WouldBlock => {
                drop(error);
                self.end_well(taking);
            }
            _ => self.try_once_more(error, taking),
        }
    }

    // Nobody waits any more. It disconnects nobody and reports nothing; `accept_all` keeps a descriptor again.
    fn end_well(&mut self, taking: &mut Taking)
        ensures { LeavesClients self.old self.new }
    {
        self.may_have_come = false;
        taking.is_over = true;
        if taking.is_well {
            self.notices.accepted();
        }
    }

    fn end_refused(&mut self, error: Error, taking: &mut Taking)
        ensures { LeavesClients self.old self.new }
    {
        taking.is_over = true;
        self.notices.accept_refused(error);
    }

    // An accept was refused. Without a free descriptor the system refuses an accept also if nobody waits. So a
    // descriptor is given up once for one more.
    fn try_once_more(&mut self, error: Error, taking: &mut Taking)
        ensures { LetsWait self.old self.new }
    {
        if taking.is_short {
            self.end_refused(error, taking);
            return;
        }
        if self.free_descriptor() {
            taking.is_short = true;
            taking.is_well = false;
            drop(mem::replace(&mut taking.untold, Some(error)));
        } else {
            self.end_refused(error, taking);
        }
    }

    // Whether there is a spare descriptor now.
    fn keep_spare<R: Files<File = File>>(&mut self, rt: &R) -> bool
        ensures { LeavesClients self.old self.new }
    {
        if self.spare.is_none() {
            drop(mem::replace(&mut self.spare, spare_descriptor(rt)));
        }
        self.spare.is_some()
    }

    // Frees a descriptor for one more accept: the spare one, or if a client has it, that of the longest silent one.
    // False: no client is silent. Then a later call disconnects the one that becomes silent first, unless a descriptor
    // becomes free before. Until then a new client has to wait.
    fn free_descriptor(&mut self) -> bool
        ensures { LetsWait self.old self.new }
    {
        if self.spare.take().is_some() {
            return true;
        }
        self.disconnect_silent()
    }

    // Somebody waited where an accept was refused with this error. It reports the refusal. It disconnects the longest
    // silent client if it can keep no descriptor again in another way.
    fn give_way<R: Files<File = File>>(&mut self, rt: &R, error: Error)
        ensures { LetsWait self.old self.new }
    {
        self.notices.accept_refused(error);
        if !self.keep_spare(rt) {
            self.disconnect_silent();
        }
    }

    // False: no client is silent.
    fn disconnect_silent(&mut self) -> bool
        ensures { LetsWait self.old self.new }
    {
        match self.silent() {
            Some(key) => {
                self.disconnect(key);
                true
            }
            None => false,
        }
    }

    // The client that is silent for longest, and still is. The last `serve` found nothing new of it, no whole line to
    // answer and nothing to send. A client that sent something since that `serve` is not silent.
    fn silent(&mut self) -> Option<usize>
        ensures { LetsWait self.old self.new }
    {
        for _ in 0..CLIENTS {
            let Some(key) = self.longest(Still::Silent) else {
                return None;
            };
            if !self.receive(key) {
                return Some(key);
            }
        }
        None
    }

    // Takes what the client of the key sent since the last `serve`. False: nothing came.
    fn receive(&mut self, key: usize) -> bool
        ensures waits { WaitsAt key self.old.up self.old.clients self.new.clients }
        ensures up { self.new.up ≡ self.old.up }
    {
        match self.clients.get_mut(key) {
            Some(client) => client.receive(&mut self.room),
            None => false,
        }
    }

    // Disconnects the client of the key for another one, if it may. A silent one gets the reply `too many clients` of
    // code 2.
    fn disconnect(&mut self, key: usize)
        ensures { LetsWait self.old self.new }
    {
        if self.makes_way(key) {
            drop(self.clients.try_remove(key));
        }
    }

    fn makes_way(&mut self, key: usize) -> bool
        ensures waits { WaitsAt key self.old.up self.old.clients self.new.clients }
        ensures may { result ≡ true → IfSome (get self.new.clients key) (MayGo self.old.up) }
        ensures up { self.new.up ≡ self.old.up }
    {
        let up = self.up;
        match self.clients.get_mut(key) {
            Some(client) => client.makes_way(up),
            None => false,
        }
    }

    // False: the system refuses to report when the client is ready.
    fn welcome(&mut self, registry: &Registry, stream: UnixStream, place: ClientPlace) -> bool
        ensures { LetsWait self.old self.new }
    {
        match place {
            ClientPlace::Free => self.admit(registry, stream),
            ClientPlace::Of(key) => {
                self.disconnect(key);
                self.admit(registry, stream)
            }
            ClientPlace::Unknown | ClientPlace::Nowhere => {
                self.turn_away(stream);
                true
            }
        }
    }

    // False: the system refuses to report when the client is ready.
    fn admit(&mut self, registry: &Registry, stream: UnixStream) -> bool
        ensures { LetsWait self.old self.new }
    {
        let mut stream = stream;
        let interest = Interest::READABLE | Interest::WRITABLE;
        match registry.register(&mut stream, self.token, interest) {
            Ok(()) => {
                self.add_client(stream);
                true
            }
            Err(error) => {
                drop(stream);
                self.notices.accept_refused(error);
                false
            }
        }
    }

    // The new client has a place, if there is memory for it.
    fn add_client(&mut self, stream: UnixStream)
        ensures { LetsWait self.old self.new }
    {
        let client = Client::new(self.alloc, stream, self.rounds);
        match self.clients.insert(client) {
            Ok(_) => {}
            Err(failed) => drop(failed),
        }
    }

    // What the client sent already is taken first: a close before that would take its reply from it.
    fn turn_away(&mut self, stream: UnixStream)
        ensures { LeavesClients self.old self.new }
    {
        let mut stream = stream;
        let _taken = stream.read(&mut self.room);
        let _sent = stream.write(TOO_MANY);
    }

    // The place of the next client. A client is turned away only if no place was found for a second; until then it
    // waits.
    fn place(&mut self) -> ClientPlace
        ensures { LetsWait self.old self.new }
    {
        let place = self.place_now();
        match place {
            ClientPlace::Free | ClientPlace::Of(_) => {
                self.full_since = None;
                return place;
            }
            ClientPlace::Unknown | ClientPlace::Nowhere => {}
        }
        let since = self.full_since.unwrap_or(self.up);
        self.full_since = Some(since);
        if self.up.saturating_sub(since) < FULL {
            return ClientPlace::Unknown;
        }
        place
    }

    // A free place, or else that of the client that is silent for longest. If none is silent, that of the one that takes
    // nothing of its reply for longest, and for a second at least. `Nowhere` only if the last `serve` checked every
    // client, and nothing came since.
    fn place_now(&mut self) -> ClientPlace
        ensures { LetsWait self.old self.new }
    {
        if self.clients.len() < self.most {
            return ClientPlace::Free;
        }
        if let Some(key) = self.silent() {
            return ClientPlace::Of(key);
        }
        match self.longest(Still::Stuck) {
            Some(key) => ClientPlace::Of(key),
            None if self.is_whole && !self.has_new() => ClientPlace::Nowhere,
            None => ClientPlace::Unknown,
        }
    }

    fn has_new(&self) -> bool {
        for (_, client) in self.clients.iter() {
            if client.is_new() {
                return true;
            }
        }
        false
    }

    // The client that does nothing in this way for longest.
    fn longest(&self, how: Still) -> Option<usize> {
        let mut least = u64::MAX;
        let mut longest = None;
        for (key, client) in self.clients.iter() {
            let since = match how {
                Still::Silent => client.silent_since(self.rounds),
                Still::Stuck => client.stuck_since(self.rounds, self.up),
            };
            if let Some(since) = since {
                if since < least {
                    least = since;
                    longest = Some(key);
                }
            }
        }
        longest
    }
}

// The null device is opened for its descriptor alone. None: the system gives none.
pub(crate) fn spare_descriptor<R: Files<File = File>>(rt: &R) -> Option<File> {
    File::open(rt, "/dev/null").ok()
}
