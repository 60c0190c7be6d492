//! The edge of the operating system: real children, job sockets with their connections, paths and the clock. It does
//! not record its calls.

ghost use Rattle.std.specs.Prelude.{◌≡◌, ◌<◌, None, IfOk, OnOk, OnErr};
ghost use Rattle.child_edge.specs.Calls.{one_more};

use crate::asking::{expect, first_silent, hold};
use crate::children::{Children, RunKey};
use crate::connections::Connections;
use crate::failure::Failure;
use crate::fault::fault_of;
use crate::held::Held;
use crate::notices::{Notices, SystemRequest};
use crate::reserve::{Reserve, lacks_descriptor};
use crate::shell::KeptShell;
use crate::sockets::Sockets;
use crate::start::Start;
use crate::wake_file::WakeFile;
use crate::waker::Waker;
use crate::{
    ChildEdge, Client, ClockEdge, Edge, EdgeFault, Notice, PathEdge, SocketEdge, clock, paths,
};
use files_and_process::run_names::LauncherId;
use history_model::definition::Def;
use history_model::{Ended, JobNo, Obs, Reading};
use look_out::{Hung, Looks, Openings, Seen};
use mio::{Registry, Token};
use socket_demand::Exchange;
use std::alloc::Global;
use std::fs::{File, Files};
use std::io;
use std::marker::Model;
use std::net::Net;
use std::process::Processes;
use std::rt::Clock;
use std::time::Instant;

/// Does what is asked by the system of its runtime, and counts what fails.
pub struct OsEdge<R: Processes> {
    rt: R,
    alloc: Global,
    made: Instant,
    children: Children<R::Started>,
    // The clock was read since the helper that reports exits was asked: a pass of the event loop has begun.
    is_new_round: bool,
    waker: Waker<R::Started>,
    // It was logged that the system starts none.
    is_unstarted_told: bool,
    shell: KeptShell<R::Started>,
    // One is asked what is at paths and not waited for; the other is asked what starts and binds need. What hung is remembered for both.
    looks: Looks,
    openings: Openings,
    hung: Hung<R::Started>,
    // It was logged that what the helper holds can't be opened, and that there can be no helper.
    is_shut_told: bool,
    is_alone_told: bool,
    // Released for a start that lacks a descriptor, a TERM, the first question of a series of checks, and a check of
    // the edge's own.
    reserve: Reserve,
    is_first_question: bool,
    // The last start lacked a descriptor.
    is_short: bool,
    sockets: Sockets,
    connections: Connections,
    notices: Notices,
    failures: u64,
}

// for the proof: who drops it calls this, in place of dropping each part
impl<R: Drop + Processes> Drop for OsEdge<R> {
    fn drop(self) {
        let OsEdge {
            rt: _,
            alloc: _,
            made: _,
            children: _,
            is_new_round: _,
            waker: _,
            is_unstarted_told: _,
            shell: _,
            looks: _,
            openings: _,
            hung: _,
            is_shut_told: _,
            is_alone_told: _,
            reserve: _,
            is_first_question: _,
            is_short: _,
            sockets: _,
            connections: _,
            notices: _,
            failures: _,
        } = self;
    }
}

impl<R: Processes> Model for OsEdge<R> {
    ghost use Rattle.std.specs.Prelude.{ℕ};

    ghost Value = { ℕ };

    ghost view = { λ e. e.failures };
}

impl<R: Clock + Drop + Processes> OsEdge<R> {
    /// An edge that has no children and no sockets, with the folder in which it spools connections. Its `up` counts from
    /// now on; an `Err` if the clock could not be read.
    pub fn new(rt: R, alloc: Global, spool: String) -> io::Result<OsEdge<R>>
        ensures { IfOk result (λ e. e ≡ 0) }
    {
        let made = Instant::now(&rt)?;
        let hung = Hung::new(alloc)?;
        Ok(OsEdge {
            rt,
            alloc,
            made,
            children: Children::new(alloc),
            is_new_round: true,
            waker: Waker::new(alloc),
            is_unstarted_told: false,
            shell: KeptShell::new(alloc),
            looks: Looks::new(alloc),
            openings: Openings::new(alloc),
            hung,
            is_shut_told: false,
            is_alone_told: false,
            reserve: Reserve::new(alloc),
            is_first_question: false,
            is_short: false,
            sockets: Sockets::new(alloc),
            connections: Connections::new(alloc, spool, made),
            notices: Notices::new(alloc),
            failures: 0,
        })
    }
}

impl<R: Processes> OsEdge<R> {
    /// How many calls failed. After the greatest `u64` comes 0. Takes no memory.
    pub fn failures(&self) -> u64
        ensures { result ≡ self.now }
    {
        self.failures
    }

    /// The oldest notice that has to be logged and was not, if there is one. It is what the system refused, with its
    /// own reason. Or it is what became of runs, if [`log_runs`](OsEdge::log_runs) asked for that. 64 wait at most; of
    /// further ones the number is logged. A refusal is logged at its first time, when its reason changes, and again
    /// after the call was done. Want of memory drops it.
    pub fn next_notice(&mut self) -> Option<Notice>
        ensures { self.new ≡ self.old }
    {
        self.notices.next()
    }

    /// Why the last start was refused: what could not be done, with the system's reason. None if it went well, or if
    /// there was no memory for the reason.
    pub fn start_refusal(&self) -> Option<&str> {
        match &self.notices.start_refusal {
            Some(words) => Some(words.as_str()),
            None => None,
        }
    }

    /// Why the sockets of the last load were not bound: what could not be done, with the system's reason. None if they were bound, or if there was no memory
    /// for the reason.
    pub fn bind_refusal(&self) -> Option<&str> {
        match &self.notices.bind_refusal {
            Some(words) => Some(words.as_str()),
            None => None,
        }
    }

    /// A request of a control client was answered: it was refused for want of memory, or not. The first such refusal is
    /// logged, and the first after 1,000 other answers in a row. Takes no memory.
    pub fn note_answer(&mut self, is_short: bool)
        ensures { self.new ≡ self.old }
    {
        self.notices.answered(is_short);
    }

    /// From now on each start, exit, TERM and KILL of a run is logged too. Takes no memory.
    pub fn log_runs(&mut self)
        ensures { self.new ≡ self.old }
    {
        self.notices.tells_runs = true;
    }

    /// From now on each run has `JOBD_RUN` with its name in its variables, by which what it leaves running is found (see
    /// [`run_name`](files_and_process::run_names::run_name)). Without this call a run has no such variable. Takes no memory.
    pub fn name_runs(&mut self, launcher: LauncherId)
        ensures { self.new ≡ self.old }
    {
        self.connections.name_runs(launcher);
    }

    /// How many clients there is room for now, besides the sockets of jobs that are held: see
    /// [`room_for`](crate::room_for). The whole launcher holds at most this number of connections of jobs' sockets at a
    /// time, each with two descriptors. They are those that wait for their run, those whose run goes on, and those
    /// whose client has still to take what its run wrote. Of the last kind a job holds at most 64. Takes no memory.
    pub fn room(&self) -> usize {
        self.sockets.room()
    }

    /// The next client that waits at one of the job's sockets, if there is one. A client that the system does not let
    /// in gives a notice, once until one comes in.
    pub fn accept(&mut self, job: JobNo) -> Option<Client>
        ensures { self.new ≡ self.old }
    {
        self.sockets.accept(&mut self.notices, job)
    }

    /// The least number, this one or above it, of a job that has sockets. Takes no memory.
    pub fn listener_from(&self, job: JobNo) -> Option<JobNo> {
        self.sockets.listener_from(job)
    }

    /// Which bind gave the job its sockets, if it has some. Each bind of this edge has a number of its own, so a client
    /// that came to sockets which were given up since is known. Takes no memory.
    pub fn bind_of(&self, job: JobNo) -> Option<u64> {
        self.sockets.bind_of(job)
    }

    /// The least number, this one or above it, of a job whose child has exited, or of whose child the system says
    /// nothing; and the child's run. It asks the system once about each child up to that one, and counts no failure.
    /// The child stays: `poll` says how it exited, or is refused. Takes no memory.
    ///
    /// With a helper that reports exits (see [`use_waker`](OsEdge::use_waker)) it asks the helper first, once after each
    /// clock reading. If the helper answers in time, it leaves out the children that the helper knows and whose exit it did
    /// not report. Once in ten seconds it asks about each.
    pub fn over_from(&mut self, job: JobNo) -> Option<(JobNo, u64)>
    where
        R: Clock,
        ensures { self.new ≡ self.old }
    {
        let is_pass = job == 0;
        if is_pass {
            self.hung.reap();
        }
        if is_pass | self.is_new_round {
            self.is_new_round = false;
            self.waker
                .begin_round(&self.rt, self.made, &mut self.children, is_pass);
        }
        self.children.over_from(job, self.waker.asks_all)
    }

    /// Has clients that come to a job's socket wake the poll of this registry, under the token; asked again, it does so for
    /// the sockets that were bound since. An `Err` if the poll refuses: it may be asked again. The helper that reports
    /// exits wakes the poll too, under the greatest token.
    pub fn register(&mut self, registry: &Registry, token: Token) -> io::Result<()>
        ensures { self.new ≡ self.old }
    {
        self.waker.register(registry);
        self.sockets.register(&mut self.notices, registry, token)
    }

    // Counts an error as a failure.
    fn fail(&mut self, error: io::Error) -> EdgeFault
        ensures { self.new ≡ one_more self.old }
    {
        self.failures = self.failures.wrapping_add(1);
        fault_of(error)
    }

    // The answer to who asked: an error is counted.
    fn answered(&mut self, answer: io::Result<()>) -> Result<(), EdgeFault>
        ensures fault { OnErr result (self.new ≡ one_more self.old) }
        ensures success { OnOk result (self.new ≡ self.old) }
    {
        match answer {
            Ok(()) => Ok(()),
            Err(error) => Err(self.fail(error)),
        }
    }

    // What was asked for the run's child was refused: that is logged and counted.
    fn refuse(
        &mut self,
        key: RunKey,
        asked: SystemRequest,
        what: &str,
        error: io::Error,
    ) -> EdgeFault
        ensures { self.new ≡ one_more self.old }
    {
        let label = self.children.label(key);
        self.notices.run_refused(key, asked, label, what, error);
        self.fail(error)
    }

    // What became of a signal for the run's child.
    fn signalled(
        &mut self,
        key: RunKey,
        asked: SystemRequest,
        signal: &str,
        answer: io::Result<()>,
    ) -> Result<(), EdgeFault>
        ensures fault { OnErr result (self.new ≡ one_more self.old) }
        ensures success { OnOk result (self.new ≡ self.old) }
    {
        match answer {
            Ok(()) => {
                let label = self.children.label(key);
                self.notices.signalled(key, asked, label, signal);
                Ok(())
            }
            Err(error) => Err(self.refuse(key, asked, signal, error)),
        }
    }
}

impl<R: Clock + Files<File = File> + Processes> OsEdge<R> {
    /// How many descriptors this process may have, if that is known. From now on room for clients is calculated by
    /// that, and a bind that would leave none is refused. From now on too, what a start, a TERM and a path check need
    /// of descriptors is held back, by the null device, opened: no client takes it.
    pub fn set_limit(&mut self, descriptors: Option<u64>)
        ensures { self.new ≡ self.old }
    {
        self.sockets.set_limit(descriptors);
        self.reserve.take(&self.rt);
    }

    /// Whether a further client of the job whose request came whole has to wait for a place. First case: the job has 64
    /// that wait or are served, or the most that those of all jobs leave room for. Second case: the connections fill
    /// the [`room`](OsEdge::room), and none of them is spent. Third case: 64 of the job have a run that is over, and
    /// none of these is spent. One is spent if its run is over and its client was offered the reply for 5 seconds and
    /// took nothing of it. Takes no memory.
    pub fn must_wait(&mut self, job: JobNo) -> bool
        ensures { self.new ≡ self.old }
    {
        let room = self.sockets.room();
        self.connections.must_wait(job, room)
    }

    /// Whether the exit of a child wakes the poll that [`register`](OsEdge::register) was given: there is a helper that
    /// reports exits, and it owes no answer. Takes no memory.
    pub fn is_woken_by_exits(&self) -> bool {
        self.waker.reports()
    }

    /// Holds a connection whose request came whole, under the job and a number that it has had for no other. Its
    /// request is spooled, and the run that is started with the number serves it.
    ///
    /// If the connections fill the [`room`](OsEdge::room), a spent one is disconnected for it, and no other; of these
    /// the one whose client takes nothing for longest. If none is spent, or the job has its share, the new one is
    /// refused; ask before whether it [`must_wait`](OsEdge::must_wait). After an `Err`, which is counted as a failure,
    /// the client is disconnected and nothing is left. It logs why, unless the number was in use.
    pub fn take(
        &mut self,
        job: JobNo,
        conn: u64,
        client: Client,
        exchange: Exchange,
    ) -> Result<(), EdgeFault>
        ensures fault { OnErr result (self.new ≡ one_more self.old) }
        ensures success { OnOk result (self.new ≡ self.old) }
    {
        let label = self.sockets.label(job);
        let room = self.sockets.room();
        let notices = &mut self.notices;
        let key = (job, conn);
        let answer = self
            .connections
            .take(&self.rt, notices, key, label, room, client, exchange);
        self.answered(answer)
    }

    /// Sends the client of each connection what its run has written since, up to what it takes at once. It closes a
    /// connection whose run has exited and whose client has all that it wrote. It also disconnects a client that has
    /// left or has taken nothing of its reply for a minute, and logs that. It says whether one may go on at once. While
    /// none is held it makes no call of the system for them. In the end it names to the helper that reports exits the
    /// children that were started since.
    pub fn forward(&mut self) -> bool
    where
        R: Net,
        ensures { self.new ≡ self.old }
    {
        let may_go_on = self.connections.forward(&self.rt, &mut self.notices);
        self.tell_waker();
        may_go_on
    }

    // Sends the helper the new children. The first refusal to start one is logged.
    fn tell_waker(&mut self)
    where
        R: Net,
        ensures { self.new ≡ self.old }
    {
        let told = self.waker.tell(&self.rt, self.made, &mut self.children);
        if let Err(error) = told {
            if !self.is_unstarted_told {
                self.is_unstarted_told = true;
                self.notices.no_waker(error);
            }
        }
    }

    /// From now on a helper reports exits: the program `jobd-wake`, next to the program of this process or in `../libexec`
    /// of that. Nobody but root and this user may be able to change it. What it reports can only make the edge ask earlier. If
    /// there is none, or the user is not known, a notice says why.
    pub fn use_waker(&mut self, user: Option<u32>)
    where
        R: AllocGlobal,
        ensures { self.new ≡ self.old }
    {
        let answer = match user {
            Some(user) => WakeFile::open(&self.rt, self.alloc, user),
            None => Err(io::Error::other("the user of this process is not known")),
        };
        match answer {
            Ok(program) => self.waker.set_program(program),
            Err(error) => self.notices.no_waker(error),
        }
    }

    /// Closes each connection that is held, and removes its files from the spool. It is for the end, so that nothing is
    /// left there of clients that took no reply. Ends the shell that is kept for TERM and all helper processes, even if
    /// they were stopped. Takes no memory.
    pub fn release_all(&mut self)
        ensures { self.new ≡ self.old }
    {
        self.connections.close_all(&self.rt, &mut self.notices);
        self.shell.end();
        self.waker.end();
        let up = clock::up(&self.rt, self.made);
        self.looks.release(&mut self.hung, up);
        self.openings.release(&mut self.hung, up);
        self.hung.reap();
    }

    // Checks a path without a helper.
    fn look_alone(&mut self, path: &str) -> io::Result<Obs>
    where
        R: AllocGlobal + Clone + Drop,
        ensures { self.new ≡ self.old }
    {
        self.tell_alone();
        self.reserve.release();
        let answer = paths::look(&self.rt, path);
        self.reserve.take(&self.rt);
        answer
    }

    // Starts the run. If that fails for want of a descriptor, those in reserve are released, and it is tried once more.
    fn launch_at_last(&mut self, start: Start<'_>) -> Result<u32, Failure>
    where
        R: AllocGlobal + Net,
        ensures pid { IfOk result (λ pid. 0 < pid) }
        ensures failures { self.new ≡ self.old }
    {
        let answer = self.launch(start);
        self.is_short = match &answer {
            Err(failure) => lacks_descriptor(&failure.error),
            Ok(_) => false,
        };
        if self.is_short {
            self.reserve.release();
            self.launch(start)
        } else {
            answer
        }
    }

    // Starts the run over what a helper holds for it, and has that forgotten.
    fn launch(&mut self, start: Start<'_>) -> Result<u32, Failure>
    where
        R: AllocGlobal + Net,
        ensures pid { IfOk result (λ pid. 0 < pid) }
        ensures failures { self.new ≡ self.old }
    {
        let up = clock::up(&self.rt, self.made);
        let held = match hold(
            &self.rt,
            self.alloc,
            &mut self.openings,
            &mut self.hung,
            start,
            up,
        ) {
            Ok(held) => held,
            Err(failure) => {
                self.openings.forget(&mut self.hung, up);
                return Err(failure);
            }
        };
        let answer = self.launch_over(start, held);
        self.tell_shut(held);
        self.openings.forget(&mut self.hung, up);
        answer
    }

    fn launch_over(&mut self, start: Start<'_>, held: Held) -> Result<u32, Failure>
        ensures pid { IfOk result (λ pid. 0 < pid) }
        ensures failures { self.new ≡ self.old }
    {
        let notices = &mut self.notices;
        let is_timed = notices.tells_runs;
        match self
            .connections
            .command_for(&self.rt, notices, start, &held)
        {
            Ok(command) => self
                .children
                .start(&self.rt, self.alloc, start, is_timed, command, &held),
            Err(failure) => Err(failure),
        }
    }

    // Logs, at the first start or path check for which there can be no helper, that there can be none.
    fn tell_alone(&mut self)
        ensures { self.new ≡ self.old }
    {
        if !self.is_alone_told {
            self.is_alone_told = true;
            self.notices.alone();
        }
    }

    // Logs, at the first start over a helper whose folder in /proc is closed, that it is.
    fn tell_shut(&mut self, held: Held)
        ensures { self.new ≡ self.old }
    {
        if !held.is_asked {
            self.tell_alone();
        }
        if held.is_asked && !self.is_shut_told && self.openings.id().is_none() {
            self.is_shut_told = true;
            self.notices.shut();
        }
    }
}

impl<R: Processes> Edge for OsEdge<R> {
    ghost told = { λ _. None };

    ghost failures = { λ failures. failures };
}

impl<R: AllocGlobal + Clock + Files<File = File> + Net + Processes> ChildEdge for OsEdge<R> {
    // A start that is tried twice asks twice: then nothing must be on its way.
    fn expect(&mut self, job: JobNo, run: u64, def: &Def, conn: Option<u64>) {
        if !self.is_short {
            let start = Start {
                key: (job, run),
                def,
                conn,
            };
            expect(self.alloc, &mut self.openings, start);
        }
    }

    fn start(
        &mut self,
        job: JobNo,
        run: u64,
        def: &Def,
        conn: Option<u64>,
    ) -> Result<u32, EdgeFault> {
        let start = Start {
            key: (job, run),
            def,
            conn,
        };
        let answer = self.launch_at_last(start);
        self.reserve.take(&self.rt);
        self.notices.started(start, answer);
        match answer {
            Ok(pid) => Ok(pid),
            Err(failure) => Err(self.fail(failure.error)),
        }
    }

    fn term(&mut self, job: JobNo, run: u64) -> Result<(), EdgeFault> {
        self.reserve.release();
        let answer = self.children.term(&self.rt, &mut self.shell, (job, run));
        self.reserve.take(&self.rt);
        self.signalled((job, run), SystemRequest::Term, "TERM", answer)
    }

    fn kill(&mut self, job: JobNo, run: u64) -> Result<(), EdgeFault> {
        let answer = self.children.kill((job, run));
        self.signalled((job, run), SystemRequest::Kill, "KILL", answer)
    }

    fn poll(&mut self, job: JobNo, run: u64) -> Result<Option<Ended>, EdgeFault> {
        let key = (job, run);
        match self.children.poll(key) {
            Ok(None) => Ok(None),
            Ok(Some(ended)) => {
                let kept = self.children.remove(key);
                self.connections
                    .run_ended(&self.rt, &mut self.notices, key, ended, kept);
                Ok(Some(ended))
            }
            Err(error) => Err(self.refuse(key, SystemRequest::Wait, "wait for its end", error)),
        }
    }
}

impl<R: AllocGlobal + Clock + Clone + Drop + Files<File = File> + Net + Processes> PathEdge
    for OsEdge<R> {
    // it keeps no record of its checks
    ghost Looks = { λ path answer old new. Unit {0} };

    fn begin_looks(&mut self) {
        self.looks.begin_round();
        self.is_first_question = true;
    }

    fn ask(&mut self, path: &str) -> bool {
        let up = clock::up(&self.rt, self.made);
        self.looks.ask(&self.rt, &mut self.hung, path, up)
    }

    // The first question of a series starts the helper, if there is none.
    fn is_seen(&mut self, path: &str) -> bool {
        let up = clock::up(&self.rt, self.made);
        if self.is_first_question {
            self.reserve.release();
        }
        let is_seen = self.looks.is_seen(&self.rt, &mut self.hung, path, up);
        if self.is_first_question {
            self.reserve.take(&self.rt);
            self.is_first_question = false;
        }
        is_seen
    }

    fn look(&mut self, path: &str) -> Result<Obs, EdgeFault> {
        let _is_seen = PathEdge::is_seen(self, path);
        let answer = match self.looks.take(path) {
            Seen::Unstarted => self.look_alone(path),
            seen => paths::observation_of_seen(seen),
        };
        self.notices.looked(path, answer);
        match answer {
            Ok(seen) => Ok(seen),
            Err(error) => Err(self.fail(error)),
        }
    }
}

impl<R: Clock + Processes> ClockEdge for OsEdge<R> {
    fn read(&mut self) -> Result<Reading, EdgeFault> {
        self.is_new_round = true;
        match clock::read(&self.rt, self.made) {
            Ok(reading) => Ok(reading),
            Err(error) => Err(self.fail(error)),
        }
    }
}

impl<
    R: AllocGlobal
        + Clock
        + Files<File = File>
        + Net<Listener = std::net::TcpListener, Stream = std::net::TcpStream>
        + Processes,
> SocketEdge for OsEdge<R> {
    fn bind(&mut self, job: JobNo, def: &Def) -> Result<(), EdgeFault> {
        let up = clock::up(&self.rt, self.made);
        let silent = first_silent(
            &self.rt,
            self.alloc,
            &mut self.openings,
            &mut self.hung,
            def.sockets(),
            up,
        );
        let answer = match silent {
            None => self.sockets.bind(&self.rt, &mut self.notices, job, def),
            Some((at, error)) => self.sockets.hangs(&mut self.notices, job, def, at, error),
        };
        self.answered(answer)
    }

    fn close(&mut self, job: JobNo, conn: u64) {
        self.connections
            .close(&self.rt, &mut self.notices, (job, conn), None);
    }

    fn release(&mut self, job: JobNo) {
        let up = clock::up(&self.rt, self.made);
        let silence = self.sockets.any_silent(
            &self.rt,
            self.alloc,
            &mut self.openings,
            &mut self.hung,
            job,
            up,
        );
        match silence {
            Some(error) => self.sockets.leave(&mut self.notices, job, error),
            None => self.sockets.release(&self.rt, job),
        }
    }
}
