//! A client of a job's socket whose request still comes.

ghost use Rattle.std.specs.Prelude.{◌≡◌};
ghost use Rattle.job_clients.specs.Callers.{Receives, Takes, WaitsOrLost};
ghost use Rattle.job_clients.specs.Crowds.{came_before};

use crate::drop_notices::Loss;
use crate::sender::Sender;
use child_edge::Client;
use history_model::{JobNo, SECOND};
use socket_demand::Exchange;
use std::io::ErrorKind;

/// What became of a client's request in a pass of the event loop.
#[derive(Clone, Copy)]
pub enum Gathered {
    /// No more has come.
    Waits,
    /// More may be there to read at once.
    MayGoOn,
    /// The client closed its half: the request is whole.
    Whole,
    /// The client has left, or the launcher must disconnect it for this reason.
    Lost(Option<Loss>),
}

/// How many pieces are read in a pass of the event loop.
const PIECES: u32 = 16;

/// For how many milliseconds a client may send nothing before the launcher disconnects it.
const LONGEST_SILENCE: u64 = 60 * SECOND;

/// To whose sockets a client came: the job, and the bind that gave it these. The job's number alone does not say:
/// another job may have it since.
#[derive(Clone, Copy)]
pub struct Origin {
    pub job: JobNo,
    pub bind: u64,
}

/// A client, with what came of its request.
#[derive(Drop)]
pub struct Caller<C = Client> {
    pub origin: Origin,
    pub client: C,
    pub exchange: Exchange,
    // The `up` at which it came.
    pub came: u64,
    // The `up` at which bytes came last, or the client itself.
    pub received_at: u64,
    // Something may be there to be read.
    pub is_ready: bool,
    // It was not read yet.
    pub is_new: bool,
    // If its request is whole and it waits for a place: the number of those that came so before it.
    pub turn: Option<u64>,
}

impl<C> Caller<C> {
    /// The `up` at which it counts as come, for a client that comes now by this bind. If it is of the same job and its
    /// request is whole, it counts as come at this `up`.
    pub(crate) fn came_before(&self, bind: u64, up: u64) -> u64
        ensures { result ≡ came_before bind up self.now }
    {
        if self.turn.is_some() && self.origin.bind == bind {
            up
        } else {
            self.came
        }
    }
}

impl<C: Sender> Caller<C> {
    /// Takes what came of the request by this `up`, at most 65,536 bytes. Once a client's request is whole, nothing
    /// more comes of it, and it may be silent.
    pub fn gather(&mut self, up: u64) -> Gathered
        ensures { Receives C.remaining result self.old self.new }
    {
        if self.turn.is_some() {
            return Gathered::Waits;
        }
        if !self.is_ready {
            return self.waits(up);
        }
        self.is_new = false;
        for _ in 0..PIECES {
            match self.read(up) {
                Gathered::MayGoOn => {}
                gathered => return gathered,
            }
        }
        Gathered::MayGoOn
    }

    fn waits(&self, up: u64) -> Gathered
        ensures { WaitsOrLost result }
    {
        if up.saturating_sub(self.received_at) >= LONGEST_SILENCE {
            Gathered::Lost(Some(Loss::Silent))
        } else {
            Gathered::Waits
        }
    }

    fn read(&mut self, up: u64) -> Gathered
        ensures { Receives C.remaining result self.old self.new }
    {
        let mut piece = [0u8; 4096];
        match self.client.read(&mut piece) {
            Ok(0) => Gathered::Whole,
            Ok(count) => self.take(&piece[..count], up),
            Err(error) => match error.kind() {
                ErrorKind::WouldBlock => {
                    self.is_ready = false;
                    Gathered::Waits
                }
                ErrorKind::Interrupted => Gathered::MayGoOn,
                _ => Gathered::Lost(Loss::of_read(error)),
            },
        }
    }

    fn take(&mut self, piece: &[u8], up: u64) -> Gathered
        ensures takes { Takes piece.now result self.old.exchange.request self.new.exchange.request }
        ensures client { self.new.client ≡ self.old.client }
        ensures origin { self.new.origin ≡ self.old.origin }
    {
        self.received_at = up;
        match self.exchange.request(piece) {
            Ok(()) => Gathered::MayGoOn,
            Err(_) => Gathered::Lost(Some(Loss::TooLong)),
        }
    }
}
