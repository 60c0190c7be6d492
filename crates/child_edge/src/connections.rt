//! Connections of jobs' sockets, from the end of their request to the end of their reply.
//!
//! Three kinds are held. The first wait for their run. The run of the second goes on. The run of the third is over, and
//! their client has still to take what it wrote. One of the third kind is disconnected for a further client only if it
//! is spent: its client was offered the reply for 5 seconds and took nothing of it. Of these the one is disconnected
//! that took nothing for longest. One whose run is still to come or goes on is never disconnected for another.
//!
//! Three bounds are kept. Beyond them a further client has to wait until a connection is spent or has ended. Of all
//! jobs together no more are held than there is room for, since each takes two descriptors. Of each job 64 of the third
//! kind are held. Clients who wait for one slow job must leave room for those of others. So a job has no more of the
//! first two kinds than its share: 64 at most, and fewer than those of all jobs leave room for. A job alone has half
//! the room, two have a third each.

ghost use Rattle.std.specs.Prelude.{◌≡◌, None, true};
ghost use Rattle.std.specs.Option.{IsSomeAnd};
ghost use Rattle.child_edge.specs.Places.{IsSpent, ReleasesSpent, TakesOne, held_at};

use crate::Client;
use crate::children::{Kept, RunKey};
use crate::command::command_of;
use crate::connection::{Connection, Progress};
use crate::failure::{Failure, Part, culprit};
use crate::held::Held;
use crate::maps::key_from;
use crate::notices::{Disconnection, Notices, OF_ROOM, SystemRequest};
use crate::run_variable::own_variables;
use crate::spool::Spooled;
use crate::start::Start;
use crate::streams::{own_streams, served_streams};
use crate::words::Hole::{Error, Text as Words};
use files_and_process::run_names::LauncherId;
use history_model::{Ended, JobNo, MAX_CONNECTIONS, Text};
use socket_demand::Exchange;
use std::alloc::{AllocError, Global};
use std::collections::BTreeMap;
use std::fs::{File, Files};
use std::io;
use std::io::ErrorKind;
use std::process::Command;
use std::rt::Clock;
use std::time::{Duration, Instant};

/// A connection's job and its number.
type Key = (JobNo, u64);

/// How many connections of a job are held whose run is over.
const OVER: usize = 64;

/// For how many milliseconds replies are forwarded at a time. Then those of the other connections are left for the next
/// time.
const LONGEST: u64 = 5;

/// A connection that is spent, and since when its client takes nothing.
#[derive(Clone, Copy)]
struct Still {
    key: Key,
    since: Instant,
}

/// What is held, as one job sees it: how many, and of those that are spent the one whose client takes nothing for longest.
#[derive(Clone, Copy)]
struct Tally {
    // Of one job, those whose run is still to come or goes on.
    served: usize,
    // Of that job, those whose run is over.
    over: usize,
    stillest_of_job: Option<Still>,
    // Of all jobs, those whose run is still to come or goes on.
    of_all: usize,
    stillest: Option<Still>,
}

#[derive(Drop)]
pub(crate) struct Connections {
    alloc: Global,
    folder: String,
    // Which process this launcher is, if runs are to have its name.
    launcher: Option<LauncherId>,
    held: BTreeMap<Key, Connection>,
    // The clock, as it was read last.
    now: Instant,
    // The next time begins with the reply of this connection, or of the next above it.
    first: Key,
    // A client had to wait for a place.
    is_wanted: bool,
}

impl Connections {
    pub(crate) fn new(alloc: Global, folder: String, now: Instant) -> Connections {
        Connections {
            alloc,
            folder,
            launcher: None,
            held: BTreeMap::new(alloc),
            now,
            first: (0, 0),
            is_wanted: false,
        }
    }

    /// From now on each run has this launcher's name in its variables.
    pub(crate) fn name_runs(&mut self, launcher: LauncherId)
        ensures { self.new.held ≡ self.old.held }
    {
        self.launcher = Some(launcher);
    }

    // A clock that can't be read does not go on.
    fn read_clock(&mut self, rt: &impl Clock)
        ensures { self.new.held ≡ self.old.held }
    {
        if let Ok(now) = Instant::now(rt) {
            self.now = now;
        }
    }

    /// Whether a further client of the job has to wait: none of the bounds leaves room for it, also if a spent one is
    /// disconnected.
    pub(crate) fn must_wait(&mut self, job: JobNo, room: usize) -> bool {
        let held = self.tally(job);
        let is_full = self.held.len() >= room && held.stillest.is_none();
        let is_crowded = held.over >= OVER && held.stillest_of_job.is_none();
        // Where there is room for nobody it is refused.
        let must_wait = room > 0 && (held.has_share(room) || is_full || is_crowded);
        self.is_wanted = self.is_wanted | must_wait;
        must_wait
    }

    /// Spools the request and holds the connection. A number that is in use is refused. One more connection is refused
    /// if its job has its share, or if the connections fill the room and none is spent. Another one is disconnected
    /// only if it is spent. After an `Err` the client is disconnected and no file is left. It logs why, unless the
    /// number was in use.
    pub(crate) fn take<R: Clock + Files<File = File>>(
        &mut self,
        rt: &R,
        notices: &mut Notices,
        key: Key,
        label: Option<&str>,
        room: usize,
        client: Client,
        mut exchange: Exchange,
    ) -> io::Result<()>
        ensures { TakesOne self.old.held self.new.held }
    {
        if self.held.contains_key(&key) {
            drop((client, exchange));
            return Err(io::Error::from(ErrorKind::AlreadyExists));
        }
        if let Some(why) = self.want_of_room(rt, notices, key.0, room) {
            notices.disconnected(key.0, label, why);
            drop((client, exchange));
            return Err(io::Error::from(ErrorKind::Other));
        }
        exchange.request_end();
        match self.hold(rt, key, label, client, exchange) {
            Ok(()) => {
                notices.done(key.0, SystemRequest::Spool);
                Ok(())
            }
            Err(error) => {
                let form = "a client was disconnected: cannot spool its request in $: $";
                let holes = [Words(self.folder.as_str()), Error(error)];
                notices.refused(key.0, SystemRequest::Spool, label, None, form, &holes);
                Err(error)
            }
        }
    }

    // Makes the connection's files and adds it to the others. After an `Err` no file is left.
    fn hold<R: Files<File = File>>(
        &mut self,
        rt: &R,
        key: Key,
        label: Option<&str>,
        client: Client,
        exchange: Exchange,
    ) -> io::Result<()>
        ensures { held_at self.old.held key ≡ None → TakesOne self.old.held self.new.held }
    {
        let folder = self.folder.as_str();
        match Spooled::make(rt, self.alloc, folder, key, exchange.request_bytes()) {
            Ok((files, reply)) => {
                let label = match label {
                    Some(label) => Text::copy_of(self.alloc, label).ok(),
                    None => None,
                };
                let connection = Connection {
                    client,
                    exchange,
                    files,
                    reply,
                    label,
                    is_over: false,
                    refused: None,
                };
                self.put(rt, key, connection)
            }
            Err(error) => {
                drop((client, exchange));
                Err(error)
            }
        }
    }

    // Adds the connection to the others. After an `Err` its files are removed.
    fn put<R: Files>(&mut self, rt: &R, key: Key, connection: Connection) -> io::Result<()>
        ensures { held_at self.old.held key ≡ None → TakesOne self.old.held self.new.held }
    {
        match self.held.insert(key, connection) {
            Ok(other) => {
                drop(other);
                Ok(())
            }
            Err(failed) => {
                failed.value.1.files.remove(rt);
                drop(failed);
                Err(io::Error::from(ErrorKind::OutOfMemory))
            }
        }
    }

    // Why one more of the job can't be held, also if another were disconnected. None: there is room for it now.
    fn want_of_room<R: Files>(
        &mut self,
        rt: &R,
        notices: &mut Notices,
        job: JobNo,
        room: usize,
    ) -> Option<Disconnection>
        ensures { ReleasesSpent self.old.held self.new.held }
    {
        let held = self.tally(job);
        if held.has_share(room) {
            return Some(Disconnection::Share);
        }
        if self.held.len() < room {
            if held.served == 0 && held.over == 0 {
                notices.all_done(job, OF_ROOM);
            }
            return None;
        }
        let Some(still) = held.stillest else {
            return Some(Disconnection::NoRoom(room));
        };
        if self.release_spent(rt, notices, still.key, Disconnection::Room(room)) {
            None
        } else {
            Some(Disconnection::NoRoom(room))
        }
    }

    fn tally(&self, job: JobNo) -> Tally {
        let mut tally = Tally {
            served: 0,
            over: 0,
            stillest_of_job: None,
            of_all: 0,
            stillest: None,
        };
        for (key, connection) in self.held.iter() {
            tally.add(job, *key, connection);
        }
        tally
    }

    // Disconnects the client for a further one, if its connection is spent. It says whether it was.
    fn release_spent<R: Files>(
        &mut self,
        rt: &R,
        notices: &mut Notices,
        key: Key,
        why: Disconnection,
    ) -> bool
        ensures { ReleasesSpent self.old.held self.new.held }
    {
        match take_spent(&mut self.held, key) {
            Some(connection) => {
                notices.disconnected(key.0, connection.label(), why);
                connection.files.remove(rt);
                drop(connection);
                true
            }
            None => false,
        }
    }

    /// The command that the start's definition says, with its streams. What a helper process holds is taken from there.
    pub(crate) fn command_for<R: Files<File = File>>(
        &mut self,
        rt: &R,
        notices: &mut Notices,
        start: Start<'_>,
        held: &Held,
    ) -> Result<Command, Failure> {
        let mut command = match self.command_at(start, held) {
            Ok(command) => command,
            Err(error) => {
                let error = io::Error::from(error);
                return Err(culprit(rt, self.alloc, start.def, held, error));
            }
        };
        match self.give_streams(rt, notices, start, held, &mut command) {
            Ok(()) => Ok(command),
            Err(failure) => {
                drop(command);
                Err(failure)
            }
        }
    }

    // The command, whose folder is the one that is held, if it is.
    fn command_at(&self, start: Start<'_>, held: &Held) -> Result<Command, AllocError> {
        let place = held.path_of(self.alloc, Part::Folder)?;
        let command = match &place {
            Some(place) => self.command_in(start, Some(place.as_str())),
            None => self.command_in(start, None),
        };
        drop(place);
        command
    }

    fn command_in(&self, start: Start<'_>, place: Option<&str>) -> Result<Command, AllocError> {
        let own = own_variables(self.alloc, self.launcher, start.def.label(), start.key.1)?;
        let command = command_of(self.alloc, start.def, own.as_slice(), place);
        drop(own);
        command
    }

    // A run that serves a connection reads its request and writes its reply. If one of these files is lost, the client
    // is disconnected. The run is started without it, as one whose client sent nothing and takes nothing: what waits
    // after it is served.
    fn give_streams<R: Files<File = File>>(
        &mut self,
        rt: &R,
        notices: &mut Notices,
        start: Start<'_>,
        held: &Held,
        command: &mut Command,
    ) -> Result<(), Failure> {
        let alloc = self.alloc;
        let Some(conn) = start.conn else {
            return own_streams(rt, alloc, start.def, held, command);
        };
        let key = (start.key.0, conn);
        let files = match self.held.get(&key) {
            Some(connection) => Some(&connection.files),
            None => None,
        };
        match served_streams(rt, alloc, start.def, held, files, command) {
            Err(failure) if failure.is_lost() => {
                notices.spool_lost(start, failure);
                self.close(rt, notices, key, None);
                served_streams(rt, alloc, start.def, held, None, command)
            }
            answer => answer,
        }
    }

    /// The run has exited so, of which this was kept.
    pub(crate) fn run_ended<R: Clock + Files>(
        &mut self,
        rt: &R,
        notices: &mut Notices,
        key: RunKey,
        ended: Ended,
        kept: Option<Kept>,
    ) {
        notices.done(key.0, SystemRequest::Wait);
        let Some(kept) = kept else {
            return;
        };
        if let Some(conn) = kept.conn {
            self.end(rt, notices, (key.0, conn));
        }
        notices.ended(rt, key.1, ended, &kept);
        drop(kept);
    }

    // The run that served the connection has exited.
    fn end<R: Files>(&mut self, rt: &R, notices: &mut Notices, key: Key) {
        if let Some(connection) = self.held.get_mut(&key) {
            connection.is_over = true;
        }
        self.bound_over(rt, notices, key.0);
    }

    // If more of the job's are over than may be, one is disconnected, if one is spent.
    fn bound_over<R: Files>(&mut self, rt: &R, notices: &mut Notices, job: JobNo)
        ensures { ReleasesSpent self.old.held self.new.held }
    {
        let held = self.tally(job);
        if held.over <= OVER {
            return;
        }
        let Some(still) = held.stillest_of_job else {
            return;
        };
        let _was_spent = self.release_spent(rt, notices, still.key, Disconnection::Job(OVER));
    }

    /// Closes the connection, if it is held, and removes its files. It logs why it disconnected the client, if it did.
    pub(crate) fn close<R: Files>(
        &mut self,
        rt: &R,
        notices: &mut Notices,
        key: Key,
        why: Option<Disconnection>,
    ) {
        let Some(connection) = self.held.remove(&key) else {
            return;
        };
        if let Some(why) = why {
            notices.disconnected(key.0, connection.label(), why);
        }
        connection.files.remove(rt);
        drop(connection);
    }

    /// Closes each connection, and removes its files.
    pub(crate) fn close_all<R: Files>(&mut self, rt: &R, notices: &mut Notices) {
        for _ in 0..self.held.len() {
            if let Some(key) = key_from(&self.held, (0, 0)) {
                self.close(rt, notices, key, None);
            }
        }
    }

    /// Sends each client what its run has written since. It closes the connections of those that have it all, and of
    /// those that can't be sent it. Once 5 milliseconds are over, those of the other connections are left for the next
    /// time, which begins with them. It says whether one may go on at once, or one that had to wait may have a place.
    /// Where none is held no call of the system is made.
    pub(crate) fn forward<R: Clock + Files>(&mut self, rt: &R, notices: &mut Notices) -> bool {
        if self.held.is_empty() {
            return false;
        }
        self.read_clock(rt);
        let begun = self.now;
        let before = self.held.len();
        let mut is_busy = false;
        let mut next = self.first;
        for _ in 0..before {
            let Some(key) = self.next_from(next) else {
                break;
            };
            next = (key.0, key.1.saturating_add(1));
            if self.forward_one(rt, notices, key) {
                is_busy = true;
                self.read_clock(rt);
                if self.now.saturating_duration_since(begun) >= Duration::from_millis(LONGEST) {
                    self.first = next;
                    break;
                }
            }
        }
        is_busy || self.has_place_for_who_waits(before)
    }

    // Whether a client that had to wait may have a place now, since fewer are held than before.
    fn has_place_for_who_waits(&mut self, before: usize) -> bool {
        let is_free = self.is_wanted && self.held.len() < before;
        self.is_wanted = self.is_wanted && !is_free;
        is_free
    }

    // The first from this one on, or the first of all.
    fn next_from(&self, from: Key) -> Option<Key> {
        match key_from(&self.held, from) {
            Some(key) => Some(key),
            None => key_from(&self.held, (0, 0)),
        }
    }

    // It says whether this connection may go on at once.
    fn forward_one<R: Files>(&mut self, rt: &R, notices: &mut Notices, key: Key) -> bool {
        let now = self.now;
        let progress = match self.held.get_mut(&key) {
            Some(connection) => connection.forward(now),
            None => return false,
        };
        let why = match progress {
            Progress::Waits => return false,
            Progress::MayGoOn => return true,
            Progress::Ended => {
                notices.done(key.0, SystemRequest::Client);
                None
            }
            Progress::Lost(why) => Some(why),
        };
        self.close(rt, notices, key, why);
        false
    }
}

impl Tally {
    // Whether 64 of the job's connections wait or are served, or no fewer than those of all jobs leave room for.
    fn has_share(&self, room: usize) -> bool {
        let share = room.saturating_sub(self.of_all).min(MAX_CONNECTIONS);
        self.served > 0 && self.served >= share
    }

    // One more is held, besides those of the job.
    fn add(&mut self, job: JobNo, key: Key, connection: &Connection) {
        let is_own = key.0 == job;
        if !connection.is_over {
            self.of_all = self.of_all.saturating_add(1);
            self.served = self.served.saturating_add(usize::from(is_own));
            return;
        }
        self.over = self.over.saturating_add(usize::from(is_own));
        if let Some(since) = connection.spent_since() {
            let still = Still { key, since };
            self.stillest = Some(stiller(self.stillest, still));
            if is_own {
                self.stillest_of_job = Some(stiller(self.stillest_of_job, still));
            }
        }
    }
}

// Whether the connection is held, and spent.
fn is_spent_at(held: &BTreeMap<Key, Connection>, key: Key) -> bool
    ensures { result ≡ true → IsSomeAnd (held_at held.now key) IsSpent }
{
    match held.get(&key) {
        Some(connection) => connection.is_spent(),
        None => false,
    }
}

// The connection, which is held no more, if it is spent.
fn take_spent(held: &mut BTreeMap<Key, Connection>, key: Key) -> Option<Connection>
    ensures { ReleasesSpent held.old held.new }
{
    if is_spent_at(held, key) {
        held.remove(&key)
    } else {
        None
    }
}

// The one whose client takes nothing for longer, the first of two that take nothing for as long.
fn stiller(stillest: Option<Still>, one: Still) -> Still {
    match stillest {
        Some(stillest) if stillest.since <= one.since => stillest,
        _ => one,
    }
}
