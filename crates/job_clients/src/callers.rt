//! The clients of jobs' sockets whose request still comes, within the room that there is.

ghost use Rattle.std.specs.Prelude.{◌≡◌, ◌≤◌, ◌+◌, ◌++◌, [], IfOk, None, vec_capacity, vec_len};
ghost use Rattle.std.specs.Option.{option_map};
ghost use Rattle.slab.specs.Slab.{get, slab_len};
ghost use Rattle.job_clients.specs.Callers.{GrowsAt, ReceivesAt, IsNobody, MayComeIn, Rouses, Sets, Welcomes, coming_in, coming_of};
ghost use Rattle.job_clients.specs.Crowds.{CanListBinds, CanListClients, binds_in, received_in};
ghost use Rattle.job_clients.specs.Places.{IsPlace, room_by, shared_room};

use crate::caller::{Caller, Gathered, Origin};
use crate::drop_notices::Loss;
use crate::places::{CallerPlace, CallerRoom, Received, jobs_among, place_for, share_of};
use crate::sender::Sender;
use child_edge::Client;
use mio::{Registry, Token};
use slab::Slab;
use socket_demand::Exchange;
use std::alloc::{AllocError, Global};
use std::mem;

/// How many clients are heard at a time, if no lower number is set.
pub const CALLERS: usize = 256;

/// How many clients of a job are heard at a time at most.
const CALLERS_OF_A_JOB: usize = 64;

/// What a client sends and takes wakes the poll under its key and this number.
const FIRST: usize = 2;

#[derive(Drop)]
pub struct Callers<C = Client> {
    alloc: Global,
    held: Slab<Caller<C>>,
    // Those of `held`, when a further one comes.
    received: Vec<Received>,
    // The binds of those that had no place in this pass and in the last one, though their job had fewer than its share.
    waits: Vec<u64>,
    waited: Vec<u64>,
    // The binds of all of them, to count the jobs.
    binds: Vec<u64>,
    room: CallerRoom,
    // How many had to wait whose request was whole.
    turns: u64,
}

// A job may have a third of the room, so that one job's clients leave room for those of others.
fn room_of(in_all: usize) -> CallerRoom
    ensures { result ≡ room_by in_all }
{
    let in_all = in_all.min(CALLERS);
    CallerRoom {
        of_a_job: (in_all / 3).max(1).min(CALLERS_OF_A_JOB),
        in_all,
        share: in_all,
    }
}

impl<C: Sender + Drop> Callers<C> {
    /// Room for all clients that may be heard, with none yet.
    pub fn new(alloc: Global) -> Result<Callers<C>, AllocError>
        ensures { IfOk result (λ callers. IsNobody (coming_in callers)) }
    {
        let held = Slab::with_capacity(alloc, CALLERS)?;
        let received = Vec::with_capacity(alloc, CALLERS)?;
        let waits = Vec::with_capacity(alloc, CALLERS)?;
        let waited = Vec::with_capacity(alloc, CALLERS)?;
        let binds = Vec::with_capacity(alloc, 2 * CALLERS)?;
        Ok(Callers {
            alloc,
            held,
            received,
            waits,
            waited,
            binds,
            room: room_of(CALLERS),
            turns: 0,
        })
    }

    /// How many are heard at a time from now on, and a third of them, at most 64, of one job. This disconnects nobody:
    /// who is heard still is.
    pub fn set_room(&mut self, in_all: usize)
        ensures room { self.new ≡ record self.old { room = room_by in_all } }
        ensures coming { coming_in self.new ≡ coming_in self.old }
    {
        self.room = room_of(in_all);
    }

    pub fn is_empty(&self) -> bool {
        self.held.is_empty()
    }

    /// To whose sockets the client of the key came, if there is one.
    pub fn origin_of(&self, key: usize) -> Option<Origin>
        ensures { result ≡ option_map (λ coming. coming.origin) (coming_in self.now key) }
    {
        match self.held.get(key) {
            Some(caller) => Some(caller.origin),
            None => None,
        }
    }

    /// Whether bytes of the client of the key, or itself, came at this `up`.
    pub fn was_received_at(&self, key: usize, up: u64) -> bool {
        match self.held.get(key) {
            Some(caller) => caller.received_at == up,
            None => false,
        }
    }

    /// Takes what the client of the key has sent by this `up`, as [`Caller::gather`] does. Where there is none, nothing comes.
    pub fn gather(&mut self, key: usize, up: u64) -> Gathered
        ensures receives { ReceivesAt C.remaining key result self.old.held self.new.held }
        ensures grows { GrowsAt key (coming_in self.old) (coming_in self.new) }
    {
        receive(&mut self.held, key, up)
    }

    /// Gives the client of the key, if there is one, which is held no more.
    pub fn remove(&mut self, key: usize) -> Option<Caller<C>>
        ensures value { result ≡ get self.old.held key }
        ensures client { option_map coming_of result ≡ coming_in self.old key }
        ensures gone { Sets key None (coming_in self.old) (coming_in self.new) }
    {
        self.held.try_remove(key)
    }

    /// Something may have come of the client whose token this is.
    pub fn wake(&mut self, token: Token)
        ensures { coming_in self.new ≡ coming_in self.old }
    {
        let Some(key) = token.0.checked_sub(FIRST) else {
            return;
        };
        rouse(&mut self.held, key);
    }

    /// A pass over all sockets begins: those that had no place in the last one are those that wait. It counts the share
    /// of a job from the jobs whose clients are heard or wait, if there is room to list all of these.
    pub fn begin_pass(&mut self)
        ensures coming { coming_in self.new ≡ coming_in self.old }
        ensures waited { self.new.waited.items ≡ self.old.waits.items }
        ensures none_yet { self.new.waits.items ≡ [] }
        ensures share { CanListBinds self.old → self.new.room ≡ shared_room self.old.room
            (binds_in self.old.held ++ self.old.waits.items) }
    {
        mem::swap(&mut self.waits, &mut self.waited);
        self.waits.clear();
        list_binds(&self.held, &self.waited, &mut self.binds);
        self.room.share = share_of(self.room.in_all, jobs_among(&self.binds));
    }

    /// Where a client can be that comes at this `up`, by this bind. The place is that of [`place_for`], for all clients
    /// that are heard, those that wait since the last pass, and the room. Without room to list all clients, it leaves
    /// some out. A client whose request is whole is not disconnected for another one of its own job.
    pub fn place(&mut self, bind: u64, up: u64) -> CallerPlace
        ensures coming { coming_in self.new ≡ coming_in self.old }
        ensures place { CanListClients self.old → IsPlace self.old.room
            (received_in bind up self.old.held) self.old.waited.items bind up result }
        ensures kept { self.new.room ≡ self.old.room }
    {
        list_received(&self.held, bind, up, &mut self.received);
        let place = place_for(&self.received, &self.waited, bind, self.room, up);
        if matches!(place, CallerPlace::Next) && self.waits.len() < CALLERS {
            let _noted = self.waits.push(bind);
        }
        place
    }

    /// Whether one that came by this bind was not read yet.
    pub fn has_new(&self, bind: u64) -> bool {
        for (_, caller) in self.held.iter() {
            if caller.is_new && caller.origin.bind == bind {
                return true;
            }
        }
        false
    }

    /// Whether the client of the key waits with a whole request.
    pub fn is_waiting(&self, key: usize) -> bool {
        match self.held.get(key) {
            Some(caller) => caller.turn.is_some(),
            None => false,
        }
    }

    /// The request of the client of the key is whole: from this `up` on it waits for a place, after those that wait
    /// already.
    pub fn line_up(&mut self, key: usize, up: u64)
        ensures { coming_in self.new ≡ coming_in self.old }
    {
        self.turns = self.turns.saturating_add(1);
        let turn = self.turns;
        give_turn(&mut self.held, key, turn, up);
    }

    /// Of those that wait with a whole request the first whose turn is above this one: its turn and its key.
    pub fn next_in_line(&self, turn: u64) -> Option<(u64, usize)> {
        let mut first: Option<(u64, usize)> = None;
        for (key, caller) in self.held.iter() {
            first = match (caller.turn, first) {
                (Some(own), Some((least, _))) if turn < own && own < least => Some((own, key)),
                (Some(own), None) if turn < own => Some((own, key)),
                _ => first,
            };
        }
        first
    }

    /// Takes in a client for which there is a place. After an `Err` the client is disconnected, for this reason.
    pub fn welcome(
        &mut self,
        registry: &Registry,
        origin: Origin,
        client: C,
        up: u64,
    ) -> Result<(), Loss>
        ensures welcomes { Welcomes C.remaining origin client result self.old.held self.new.held }
        ensures comes { MayComeIn origin (coming_in self.old) (coming_in self.new) }
    {
        let Ok(exchange) = Exchange::new(self.alloc) else {
            return Err(Loss::NoMemory);
        };
        let mut caller = Caller {
            origin,
            client,
            exchange,
            came: up,
            received_at: up,
            is_ready: true,
            is_new: true,
            turn: None,
        };
        let token = Token(self.held.vacant_key().saturating_add(FIRST));
        match caller.client.register(registry, token) {
            Ok(()) => {
                let _ = self.held.insert(caller);
                Ok(())
            }
            Err(error) => Err(Loss::System(error)),
        }
    }
}

// Lists the bind of each client that is heard, and then those that wait.
fn list_binds<C>(held: &Slab<Caller<C>>, waited: &Vec<u64>, binds: &mut Vec<u64>)
    ensures { slab_len held.now + vec_len waited.now ≤ vec_capacity binds.old →
        binds.new.items ≡ binds_in held.now ++ waited.now.items }
{
    binds.clear();
    for (_, caller) in held.iter() {
        let _listed = binds.push(caller.origin.bind);
    }
    let _listed = binds.extend_from_slice(waited.as_slice());
}

// Lists the clients that are heard, as one sees them that comes at this `up`, by this bind.
fn list_received<C>(held: &Slab<Caller<C>>, bind: u64, up: u64, received: &mut Vec<Received>)
    ensures { slab_len held.now ≤ vec_capacity received.old →
        received.new.items ≡ received_in bind up held.now }
{
    received.clear();
    for (key, caller) in held.iter() {
        let _listed = received.push(Received {
            key,
            bind: caller.origin.bind,
            came: caller.came_before(bind, up),
        });
    }
}

// What the client of the key has sent by this `up`.
fn receive<C: Sender>(held: &mut Slab<Caller<C>>, key: usize, up: u64) -> Gathered
    ensures { ReceivesAt C.remaining key result held.old held.new }
{
    let Some(caller) = held.get_mut(key) else {
        return Gathered::Waits;
    };
    caller.gather(up)
}

// Something may have come of the client of the key.
fn rouse<C>(held: &mut Slab<Caller<C>>, key: usize)
    ensures { Rouses key held.old held.new }
{
    if let Some(caller) = held.get_mut(key) {
        caller.is_ready = true;
    }
}

// The client of the key has this turn, and waits since this `up`.
fn give_turn<C>(held: &mut Slab<Caller<C>>, key: usize, turn: u64, up: u64)
    ensures { Rouses key held.old held.new }
{
    if let Some(caller) = held.get_mut(key) {
        caller.turn = Some(turn);
        caller.came = up;
    }
}
