//! The launcher with what its live loop waits on.

ghost use Rattle.std.specs.Prelude.{◌≡◌, IfOk};
ghost use Rattle.live_loop.specs.Kept.{desk_in, left_in};
ghost use Rattle.live_loop.specs.Looks.{IsEmpty};
ghost use Rattle.live_loop.specs.Rounds.{IsNew};
ghost use Rattle.live_loop.specs.Observing.{known_in};

use crate::fault::ServeFault;
use crate::job_sockets::JobSockets;
use crate::label_room::LabelRoom;
use crate::loop_host::LoopHost;
use crate::paths::Observations;
use crate::round_poll::RoundPoll;
use crate::standard_error::StandardError;
use crate::waiting::SHORTEST;
use child_edge::{Notice, System};
use control_socket::ControlSocket;
use history_model::JobNo;
use mio::{Events, Poll, Token};
use std::alloc::{AllocError, Global};

/// Under this token the control socket and its clients wake the poll.
const CONTROL: Token = Token(0);

/// How many events the poll reports at a time. It reports the others in the next pass of the loop.
const EVENTS: usize = 128;

/// A launcher with its control socket, the poll that both wait on, and what its passes remember of one another.
#[derive(Drop)]
pub struct Live<H> {
    pub(crate) host: H,
    pub(crate) control: ControlSocket,
    pub(crate) poll: RoundPoll,
    pub(crate) rooms: Rooms,
    // What standard error would have had to wait for.
    pub(crate) untold: Option<Notice>,
    // The journal was closed, and this was not logged.
    pub(crate) has_journal_closed: bool,
    // The longest wait of the next pass, in milliseconds.
    pub(crate) pause: u64,
    // How many of the next passes are quick.
    pub(crate) quick: u32,
    // The next pass asks about the child of this job first, or of the next above it.
    pub(crate) next_child: JobNo,
    // A client may go on at once, or a child was left.
    pub(crate) is_busy: bool,
    // The `up` of the clock reading at which no job was left after a shutdown.
    pub(crate) ended_at: Option<u64>,
}

/// What the passes keep.
#[derive(Drop)]
pub(crate) struct Rooms {
    pub(crate) events: Events,
    pub(crate) observations: Observations,
    pub(crate) sockets: JobSockets,
    pub(crate) label: LabelRoom,
    pub(crate) standard_error: StandardError,
}

fn make_rooms<R: System>(rt: &R, alloc: Global) -> Result<Rooms, AllocError>
    ensures { IfOk result (λ rooms. IsEmpty (known_in rooms.observations) × IsNew (desk_in rooms.sockets)) }
{
    let label = LabelRoom::new(alloc)?;
    let events = match Events::with_capacity(alloc, EVENTS) {
        Ok(events) => events,
        Err(fault) => {
            drop(label);
            return Err(fault);
        }
    };
    let standard_error = match StandardError::new(rt, alloc) {
        Ok(standard_error) => standard_error,
        Err(fault) => {
            drop((label, events));
            return Err(fault);
        }
    };
    match senses(alloc) {
        Ok((observations, sockets)) => Ok(Rooms {
            events,
            observations,
            sockets,
            label,
            standard_error,
        }),
        Err(fault) => {
            drop((label, events, standard_error));
            Err(fault)
        }
    }
}

fn senses(alloc: Global) -> Result<(Observations, JobSockets), AllocError>
    ensures { IfOk result (λ both. IsEmpty (known_in both.0) × IsNew (desk_in both.1)) }
{
    let observations = Observations::new(alloc)?;
    match JobSockets::new(alloc) {
        Ok(sockets) => Ok((observations, sockets)),
        Err(fault) => {
            drop(observations);
            Err(fault)
        }
    }
}

// A poll that the control socket wakes.
fn poll_with<R: System>(rt: &R, control: &mut ControlSocket) -> Result<Poll, ServeFault> {
    let Ok(poll) = Poll::new(rt) else {
        return Err(ServeFault::Poll);
    };
    if control.register(poll.registry(), CONTROL).is_err() {
        drop(poll);
        return Err(ServeFault::Poll);
    }
    Ok(poll)
}

impl<H: LoopHost + Drop> Live<H> {
    /// The launcher, which waits for its first pass; it was given no observation yet. NoMemory, or Poll, if the system
    /// refuses the poll or the control socket's registration. After an `Err` the arguments are dropped: the control
    /// socket's lock is released, and its file and the lock's are left. Who has the socket's mark can remove its file
    /// by that.
    pub fn new<R: System>(
        rt: &R,
        alloc: Global,
        host: H,
        control: ControlSocket,
    ) -> Result<Live<H>, ServeFault>
        ensures { IfOk result (λ live. ((left_in live).host ≡ host) × IsEmpty (left_in live).known × IsNew (left_in live).desk) }
    {
        let mut control = control;
        // The poll first: no room is made if the system refuses it.
        let poll = match poll_with(rt, &mut control) {
            Ok(poll) => poll,
            Err(fault) => {
                drop((host, control));
                return Err(fault);
            }
        };
        match make_rooms(rt, alloc) {
            Ok(rooms) => Ok(Live {
                host,
                control,
                poll: RoundPoll::new(poll),
                rooms,
                untold: None,
                has_journal_closed: false,
                pause: SHORTEST,
                quick: 0,
                next_child: 0,
                is_busy: false,
                ended_at: None,
            }),
            Err(_) => {
                drop((host, control, poll));
                Err(ServeFault::NoMemory)
            }
        }
    }
}

impl<H> Live<H> {
    /// The launcher. Whoever wants to ask something of it does so by the control socket.
    pub fn host(&self) -> &H
        ensures { result.now ≡ self.now.host }
    {
        &self.host
    }

    /// The launcher, for whoever wants no further pass. All else is dropped: the control socket's lock is released, and
    /// its file and the lock's are left.
    pub fn into_host(self) -> H
        ensures { result ≡ self.host }
    {
        let Live {
            host,
            control,
            poll,
            rooms,
            untold,
            ..
        } = self;
        drop((control, poll, rooms, untold));
        host
    }

    /// From now on each line on standard error begins with its level, as the journal of systemd takes it. That is `<4>`
    /// for what was refused, `<6>` for what became of a run. Takes no memory.
    pub fn set_leveled(&mut self) {
        self.rooms.standard_error.is_leveled = true;
    }

    /// How many clients there is room for until the first pass. In that, as in each, the loop asks the launcher for the
    /// room, but it serves the control socket before. 256 if this is not called. Takes no memory.
    pub fn set_room(&mut self, clients: usize) {
        self.rooms.sockets.callers.set_room(clients);
        self.control.set_room(clients);
    }
}
