//! The listening sockets that are bound, by job, and how many clients they leave room for.

ghost use Rattle.std.specs.Prelude.{◌≡◌, ◌<◌, length, IsErr};
ghost use Rattle.child_edge.specs.Listeners.{how_many, and_more};
ghost use Rattle.child_edge.specs.Rooms.{room_by};

use crate::Client;
use crate::asking::silence;
use crate::bound::Bound;
use crate::listener::Listener;
use crate::maps::key_from;
use crate::notices::{Notices, SystemRequest};
use crate::room::room_for;
use crate::words::cannot_bind;
use history_model::definition::{Address, Def, Socket};
use history_model::{JobNo, MAX_JOBS, Text};
use look_out::{Hung, Openings};
use mio::{Registry, Token};
use std::alloc::Global;
use std::collections::BTreeMap;
use std::fs::{File, Files};
use std::io;
use std::io::ErrorKind;
use std::net::Net;
use std::process::{OpenProcess, Processes};
use std::rt::Clock;

/// The sockets of each job. The room for clients is what the limit and the sockets that are held now leave.
#[derive(Drop)]
pub(crate) struct Sockets {
    alloc: Global,
    jobs: BTreeMap<JobNo, Bound>,
    // How many descriptors this process may have, if that is known.
    limit: Option<u64>,
    room: usize,
    // How many binds were made.
    binds: u64,
    // A poll may not know each socket.
    may_be_unknown: bool,
    ghost reckoned: { room ≡ room_by limit (how_many jobs) },
}

// How many sockets are held.
fn count_of(jobs: &BTreeMap<JobNo, Bound>) -> u64
    ensures { result ≡ how_many jobs.now }
{
    jobs.values().fold(0u64, |count, bound| {
        count.saturating_add(bound.listeners.len() as u64)
    })
}

// How many clients the sockets that are held leave room for.
fn room_beside(jobs: &BTreeMap<JobNo, Bound>, limit: Option<u64>) -> usize
    ensures { result ≡ room_by limit (how_many jobs.now) }
{
    room_for(limit, count_of(jobs))
}

/// Which socket of a definition was refused, by its place in it, and why. A place past the last is none of them.
#[derive(Clone, Copy)]
pub(crate) struct BindFault {
    pub(crate) socket: usize,
    pub(crate) error: io::Error,
}

impl BindFault {
    fn of_all(kind: ErrorKind) -> BindFault {
        BindFault {
            socket: usize::MAX,
            error: io::Error::from(kind),
        }
    }
}

impl Sockets {
    pub(crate) fn new(alloc: Global) -> Sockets {
        let jobs = BTreeMap::new(alloc);
        let room = room_beside(&jobs, None);
        Sockets {
            alloc,
            jobs,
            limit: None,
            room,
            binds: 0,
            may_be_unknown: false,
        }
    }

    /// From now on the room is calculated by this limit on descriptors, or as if there were none.
    pub(crate) fn set_limit(&mut self, limit: Option<u64>)
        ensures limit { self.new.limit ≡ limit }
        ensures jobs { self.new.jobs ≡ self.old.jobs }
    {
        self.limit = limit;
        self.room = room_beside(&self.jobs, limit);
    }

    /// How many clients the sockets that are held now leave room for.
    pub(crate) fn room(&self) -> usize
        ensures { result ≡ room_by self.now.limit (how_many self.now.jobs) }
    {
        self.room
    }

    /// Binds each socket of the definition for the job, or none, which is logged. A job that has sockets is refused.
    pub(crate) fn bind<
        R: Files<File = File> + Net<Listener = std::net::TcpListener, Stream = std::net::TcpStream>,
    >(&mut self, rt: &R, notices: &mut Notices, job: JobNo, def: &Def) -> io::Result<()>
        ensures limit { self.new.limit ≡ self.old.limit }
        ensures crowded { room_by self.old.limit (and_more self.old.jobs (length def.now.sockets)) ≡ 0 →
            IsErr result × (self.new ≡ self.old) }
    {
        match self.bind_new(rt, job, def.label(), def.sockets()) {
            Ok(()) => {
                notices.bound(job);
                Ok(())
            }
            Err(fault) => tell_fault(notices, job, def, fault),
        }
    }

    /// It is not known that the path of the definition's socket at this place answers: none is bound, which is logged.
    pub(crate) fn hangs(
        &self,
        notices: &mut Notices,
        job: JobNo,
        def: &Def,
        socket: usize,
        error: io::Error,
    ) -> io::Result<()> {
        tell_fault(notices, job, def, BindFault { socket, error })
    }

    /// Why it is not known that the path of each of the job's sockets answers.
    pub(crate) fn any_silent<
        P: OpenProcess + Drop,
        R: AllocGlobal + Clock + Files + Net + Processes<Started = P>,
    >(
        &self,
        rt: &R,
        alloc: Global,
        openings: &mut Openings,
        hung: &mut Hung<P>,
        job: JobNo,
        up: u64,
    ) -> Option<io::Error> {
        let bound = self.jobs.get(&job)?;
        for listener in bound.listeners.iter() {
            if let Some(path) = listener.path() {
                let silence = silence(rt, alloc, openings, hung, path, up);
                if silence.is_some() {
                    return silence;
                }
            }
        }
        None
    }

    /// Gives up the job's sockets, leaves their files, and logs that: it is not known that the path of one of them
    /// answers.
    pub(crate) fn leave(&mut self, notices: &mut Notices, job: JobNo, error: io::Error) {
        if let Some(bound) = self.take_out(job) {
            let form = "cannot remove the files of its sockets: $";
            bound.refused(notices, job, SystemRequest::Bind, form, error);
            drop(bound);
        }
    }

    // The job has no sockets from now on: they are the result, and their room is free.
    fn take_out(&mut self, job: JobNo) -> Option<Bound>
        ensures { self.new.limit ≡ self.old.limit }
    {
        let gone = self.jobs.remove(&job);
        self.room = room_beside(&self.jobs, self.limit);
        gone
    }

    // Nothing is opened if no room for clients would be left.
    fn bind_new<
        R: Files<File = File> + Net<Listener = std::net::TcpListener, Stream = std::net::TcpStream>,
    >(&mut self, rt: &R, job: JobNo, label: &str, wanted: &[Socket]) -> Result<(), BindFault>
        ensures limit { self.new.limit ≡ self.old.limit }
        ensures crowded { room_by self.old.limit (and_more self.old.jobs (length wanted.now)) ≡ 0 →
            IsErr result × (self.new ≡ self.old) }
    {
        let count = count_of(&self.jobs).saturating_add(wanted.len() as u64);
        if room_for(self.limit, count) == 0 {
            return Err(BindFault {
                socket: usize::MAX,
                error: io::Error::other("too few descriptors are left for clients (ulimit -n)"),
            });
        }
        if self.jobs.contains_key(&job) {
            return Err(BindFault::of_all(ErrorKind::AddrInUse));
        }
        if let Some(socket) = self.first_taken(wanted) {
            let error = io::Error::from(ErrorKind::AddrInUse);
            return Err(BindFault { socket, error });
        }
        self.bind_beside(rt, job, label, wanted)
    }

    // Opens the sockets. The caller has seen that they leave room for clients.
    fn bind_beside<
        R: Files<File = File> + Net<Listener = std::net::TcpListener, Stream = std::net::TcpStream>,
    >(&mut self, rt: &R, job: JobNo, label: &str, wanted: &[Socket]) -> Result<(), BindFault>
        requires { 0 < room_by self.old.limit (and_more self.old.jobs (length wanted.now)) }
        ensures { self.new.limit ≡ self.old.limit }
    {
        let label = match Text::copy_of(self.alloc, label) {
            Ok(label) => label,
            Err(_) => return Err(BindFault::of_all(ErrorKind::OutOfMemory)),
        };
        match bind_all(rt, self.alloc, wanted) {
            Ok(listeners) => self.keep(rt, job, label, listeners),
            Err(fault) => {
                drop(label);
                Err(fault)
            }
        }
    }

    // The job has these sockets from now on. After an `Err` they are given up.
    fn keep<R: Files<File = File>>(
        &mut self,
        rt: &R,
        job: JobNo,
        label: Text,
        listeners: Vec<Listener>,
    ) -> Result<(), BindFault>
        ensures { self.new.limit ≡ self.old.limit }
    {
        let bound = Bound {
            label,
            listeners,
            bind: self.binds,
            registered: 0,
        };
        self.binds = self.binds.wrapping_add(1);
        self.may_be_unknown = true;
        let kept = self.jobs.insert(job, bound);
        self.room = room_beside(&self.jobs, self.limit);
        match kept {
            Ok(other) => {
                drop(other);
                Ok(())
            }
            Err(failed) => {
                give_up(rt, &failed.value.1.listeners);
                drop(failed);
                Err(BindFault::of_all(ErrorKind::OutOfMemory))
            }
        }
    }

    // The place of the first of these sockets that a job has already.
    fn first_taken(&self, wanted: &[Socket]) -> Option<usize> {
        let mut place = 0usize;
        for socket in wanted {
            if self.has(socket) {
                return Some(place);
            }
            place = place.saturating_add(1);
        }
        None
    }

    // Whether a job has the Unix socket already. To ask at its path who listens there would be a client's call.
    fn has(&self, wanted: &Socket) -> bool {
        let Address::Unix(path) = &wanted.address else {
            return false;
        };
        for bound in self.jobs.values() {
            for listener in bound.listeners.iter() {
                if listener.is_at(path.as_str()) {
                    return true;
                }
            }
        }
        false
    }

    /// Gives up the job's sockets, and removes their files.
    pub(crate) fn release<R: Files<File = File>>(&mut self, rt: &R, job: JobNo) {
        if let Some(bound) = self.take_out(job) {
            give_up(rt, &bound.listeners);
            drop(bound);
        }
    }

    /// The job's label, if it has sockets.
    pub(crate) fn label(&self, job: JobNo) -> Option<&str> {
        match self.jobs.get(&job) {
            Some(bound) => Some(bound.label.as_str()),
            None => None,
        }
    }

    /// The next client that waits at one of the job's sockets, if there is one. An accept that the system refuses is
    /// logged, and left for later.
    pub(crate) fn accept(&self, notices: &mut Notices, job: JobNo) -> Option<Client> {
        let bound = self.jobs.get(&job)?;
        for listener in bound.listeners.iter() {
            match listener.accept() {
                Ok(None) => {}
                Ok(Some(client)) => {
                    notices.done(job, SystemRequest::Accept);
                    return Some(client);
                }
                Err(error) => {
                    let form = "cannot let a client in: $";
                    bound.refused(notices, job, SystemRequest::Accept, form, error);
                }
            }
        }
        None
    }

    /// The least number, this one or above it, of a job that has sockets.
    pub(crate) fn listener_from(&self, job: JobNo) -> Option<JobNo> {
        key_from(&self.jobs, job)
    }

    /// Which bind gave the job its sockets, if it has some: each bind has a number of its own.
    pub(crate) fn bind_of(&self, job: JobNo) -> Option<u64> {
        let bound = self.jobs.get(&job)?;
        Some(bound.bind)
    }

    /// Has clients that come to a socket which the poll doesn't know yet wake it, under the token. A socket that the
    /// poll refuses is logged and tried again at the next call, and those of other jobs are tried all the same. `Err`
    /// then.
    pub(crate) fn register(
        &mut self,
        notices: &mut Notices,
        registry: &Registry,
        token: Token,
    ) -> io::Result<()> {
        if !self.may_be_unknown {
            return Ok(());
        }
        let answer = register_all(&mut self.jobs, notices, registry, token);
        self.room = room_beside(&self.jobs, self.limit);
        self.may_be_unknown = answer.is_err();
        answer
    }
}

// The last refusal, if there is one.
fn register_all(
    jobs: &mut BTreeMap<JobNo, Bound>,
    notices: &mut Notices,
    registry: &Registry,
    token: Token,
) -> io::Result<()> {
    let mut answer = Ok(());
    let mut next = 0;
    for _ in 0..MAX_JOBS {
        let Some(job) = key_from(jobs, next) else {
            break;
        };
        next = job.saturating_add(1);
        if let Some(bound) = jobs.get_mut(&job) {
            if let Err(error) = bound.register(notices, registry, token, job) {
                answer = Err(error);
            }
        }
    }
    answer
}

// Logs that the job's sockets were not bound.
fn tell_fault(notices: &mut Notices, job: JobNo, def: &Def, fault: BindFault) -> io::Result<()>
    ensures { IsErr result }
{
    let socket = def.sockets().get(fault.socket);
    let (form, holes) = cannot_bind(socket, fault.error);
    notices.not_bound(job, def.label(), form, &holes);
    Err(fault.error)
}

fn give_up<R: Files<File = File>>(rt: &R, listeners: &[Listener]) {
    for listener in listeners {
        listener.give_up(rt);
    }
}

fn bind_all<
    R: Files<File = File> + Net<Listener = std::net::TcpListener, Stream = std::net::TcpStream>,
>(rt: &R, alloc: Global, wanted: &[Socket]) -> Result<Vec<Listener>, BindFault> {
    let mut listeners = Vec::new(alloc);
    let mut answer = Ok(());
    for socket in wanted {
        answer = bind_next(rt, alloc, socket, &mut listeners);
        if answer.is_err() {
            break;
        }
    }
    match answer {
        Ok(()) => Ok(listeners),
        Err(error) => {
            give_up(rt, &listeners);
            let socket = listeners.len();
            drop(listeners);
            Err(BindFault { socket, error })
        }
    }
}

// Binds one more.
fn bind_next<
    R: Files<File = File> + Net<Listener = std::net::TcpListener, Stream = std::net::TcpStream>,
>(rt: &R, alloc: Global, wanted: &Socket, listeners: &mut Vec<Listener>) -> io::Result<()> {
    if listeners.reserve(1).is_err() {
        return Err(io::Error::from(ErrorKind::OutOfMemory));
    }
    match Listener::bind(rt, alloc, wanted) {
        Ok(listener) => {
            listeners.push_reserved(listener);
            Ok(())
        }
        Err(error) => Err(error),
    }
}
