//! The events of one job: when each is refused, and what it changes.

ghost use Rattle.std.specs.Prelude.{true, not, ◌||◌, ◌≡◌, ◌≤◌, filter, OnErr};
ghost use Rattle.history_model.specs.Items.{Read, Saw, Asked, Came, Left, Answered, RunEnded, WaitRefused};
ghost use Rattle.history_model.specs.declared.Answer.TheVariants.{Spawned as SpawnOk, SpawnRefused as SpawnNo, Termed as TermAnswer, Killed as KillAnswer};
ghost use Rattle.history_model.specs.Demands.{carries};
ghost use Rattle.history_model.specs.Refusals.{is_number_used};
ghost use Rattle.history_model.specs.ByFacts.{fired_by, conn_of, Follows};
ghost use Rattle.history_model.specs.DueByFacts.{is_busy_by};

use super::Job;
use history_model::{Act, Ask, Child, DemandKind, Ended, MAX_UP, MAX_WALL, Obs, Reading, Refusal};
use pace::Signal;
use socket_demand::Waiting;

impl Job {
    ghost use Rattle.job_core.specs.JobFields.{facts, is_spawn_awaited};

    pub(super) fn read(&mut self, at: Reading, calendar: bool, now: Reading) -> Result<(), Refusal>
        ensures follows { Follows (facts self.old) (Read at calendar) now result (facts self.new) }
        ensures unchanged { OnErr result (self.new ≡ self.old) }
    {
        if at.up < now.up || at.up > MAX_UP || at.wall > MAX_WALL {
            return Err(Refusal::ClockRefused);
        }
        if calendar {
            self.fired(DemandKind::Calendar);
        } else if self.interval.crossed(now.up, at.up) {
            self.fired(DemandKind::Interval);
        }
        Ok(())
    }

    pub(super) fn saw(&mut self, path: &str, obs: Obs, now: Reading) -> Result<(), Refusal>
        ensures follows { Follows (facts self.old) (Saw path.now obs) now result (facts self.new) }
        ensures unchanged { OnErr result (self.new ≡ self.old) }
    {
        let fires = self.watches.saw(path, obs);
        self.conditions.saw(path, obs);
        self.queues.saw(path, obs);
        if fires {
            self.fired(DemandKind::Path);
        }
        Ok(())
    }

    pub(super) fn came(&mut self, conn: u64, now: Reading) -> Result<(), Refusal>
        ensures follows { Follows (facts self.old) (Came conn) now result (facts self.new) }
        ensures unchanged { OnErr result (self.new ≡ self.old) }
    {
        if self.is_removing {
            return Err(Refusal::Removing);
        }
        if !self.has_sockets || self.is_used(conn) {
            return Err(Refusal::Stale);
        }
        if self.waiting.came(conn).is_err() {
            return Err(Refusal::TooManyConnections);
        }
        self.last_number = Some(conn);
        Ok(())
    }

    /// Whether the number is not above every earlier one.
    fn is_used(&self, conn: u64) -> bool
        ensures { result ≡ is_number_used (facts self.now).last_number conn }
    {
        match self.last_number {
            None => false,
            Some(last) => conn <= last,
        }
    }

    pub(super) fn left(&mut self, conn: u64, now: Reading) -> Result<(), Refusal>
        ensures follows { Follows (facts self.old) (Left conn) now result (facts self.new) }
        ensures unchanged { OnErr result (self.new ≡ self.old) }
    {
        if !self.waiting.contains(conn) {
            return Err(Refusal::Stale);
        }
        self.waiting.left(conn);
        Ok(())
    }

    pub(super) fn asked(&mut self, ask: Ask, now: Reading) -> Result<(), Refusal>
        ensures follows { Follows (facts self.old) (Asked ask) now result (facts self.new) }
        ensures unchanged { OnErr result (self.new ≡ self.old) }
    {
        if self.is_removing && ask != Ask::Shutdown {
            return Err(Refusal::Removing);
        }
        match ask {
            Ask::Start => self.started(false, DemandKind::Start),
            Ask::Kickstart(kills_first) => {
                self.started(kills_first, DemandKind::Kickstart);
                if kills_first && self.is_busy() {
                    self.ending.struck();
                }
            }
            Ask::Stop => {
                if !self.is_busy() {
                    return Err(Refusal::NotRunning);
                }
                self.is_stopping = true;
            }
            Ask::Unload | Ask::Shutdown => {
                self.is_stopping = self.is_busy();
                self.is_removing = true;
            }
        }
        Ok(())
    }

    /// A start was asked. It makes a start request, unless there is a run already that nobody stops; with the flag then too.
    fn started(&mut self, again: bool, kind: DemandKind)
        ensures { facts self.new
            ≡ fired_by (again || (not (is_busy_by (facts self.old)) || (facts self.old).is_stopping))
            kind (facts self.old) }
    {
        if again || !self.is_busy() || self.is_stopping {
            self.fired(kind);
        }
    }

    /// A start request of this kind came.
    fn fired(&mut self, kind: DemandKind)
        ensures { facts self.new ≡ fired_by true kind (facts self.old) }
    {
        self.demand = Some(kind);
        self.new_demand = Some(kind);
    }

    pub(super) fn termed(&mut self, run: u64, ok: bool, now: Reading) -> Result<(), Refusal>
        requires { now.up ≤ MAX_UP }
        ensures follows { Follows (facts self.old) (Answered (TermAnswer run ok)) now result
            (facts self.new) }
        ensures unchanged { OnErr result (self.new ≡ self.old) }
    {
        match self.awaited {
            Some(Act::Term { run: awaited }) if awaited == run => {}
            _ => return Err(Refusal::Stale),
        }
        self.awaited = None;
        if ok {
            self.ending.answered(Signal::Term);
        } else {
            self.ending.term_refused(now.up);
        }
        Ok(())
    }

    pub(super) fn killed(&mut self, run: u64, ok: bool, now: Reading) -> Result<(), Refusal>
        requires { now.up ≤ MAX_UP }
        ensures follows { Follows (facts self.old) (Answered (KillAnswer run ok)) now result
            (facts self.new) }
        ensures unchanged { OnErr result (self.new ≡ self.old) }
    {
        match self.awaited {
            Some(Act::Kill { run: awaited }) if awaited == run => {}
            _ => return Err(Refusal::Stale),
        }
        self.awaited = None;
        if ok {
            self.ending.answered(Signal::Kill);
        } else {
            self.ending.kill_refused(now.up);
        }
        Ok(())
    }

    pub(super) fn wait_refused(&self, run: u64, now: Reading) -> Result<(), Refusal>
        ensures { Follows (facts self.now) (WaitRefused run) now result (facts self.now) }
    {
        match self.child {
            Some(child) if child.run == run => Ok(()),
            _ => Err(Refusal::Stale),
        }
    }

    /// Whether the spawn of this run is awaited.
    fn awaits_spawn(&self, run: u64) -> bool
        ensures { result ≡ is_spawn_awaited (facts self.now).awaited_act run }
    {
        match self.awaited {
            Some(Act::Spawn { run: awaited, .. }) => awaited == run,
            _ => false,
        }
    }

    /// The connection that the awaited spawn carries.
    fn carried(&self) -> Option<u64>
        ensures { result ≡ conn_of (facts self.now).awaited_act }
    {
        match self.awaited {
            Some(Act::Spawn { conn, .. }) => conn,
            _ => None,
        }
    }

    pub(super) fn spawned(&mut self, run: u64, pid: u32, now: Reading) -> Result<(), Refusal>
        ensures follows { Follows (facts self.old) (Answered (SpawnOk run pid)) now result
            (facts self.new) }
        ensures unchanged { OnErr result (self.new ≡ self.old) }
    {
        if !self.awaits_spawn(run) {
            return Err(Refusal::Stale);
        }
        let conn = self.carried();
        take_out(&mut self.waiting, conn);
        self.child = Some(Child { run, pid });
        self.awaited = None;
        self.demand = self.new_demand;
        self.spawned_before = true;
        Ok(())
    }

    pub(super) fn spawn_refused(&mut self, run: u64, now: Reading) -> Result<(), Refusal>
        requires { now.up ≤ MAX_UP }
        ensures follows { Follows (facts self.old) (Answered (SpawnNo run)) now result
            (facts self.new) }
        ensures unchanged { OnErr result (self.new ≡ self.old) }
    {
        if !self.awaits_spawn(run) {
            return Err(Refusal::Stale);
        }
        self.awaited = None;
        self.throttle.refused(now.up);
        self.is_stopping = false;
        self.ending.spared();
        Ok(())
    }

    pub(super) fn ended(&mut self, run: u64, how: Ended, now: Reading) -> Result<(), Refusal>
        ensures follows { Follows (facts self.old) (RunEnded run how) now result (facts self.new) }
        ensures unchanged { OnErr result (self.new ≡ self.old) }
    {
        match self.child {
            Some(child) if child.run == run => {}
            _ => return Err(Refusal::Stale),
        }
        self.child = None;
        // The end of a run is also the answer to what was to end it.
        match self.awaited {
            Some(Act::Term { run: stopped } | Act::Kill { run: stopped }) if stopped == run => {
                self.awaited = None;
            }
            _ => {}
        }
        self.conditions.ended(run, how, self.is_ordered_to_end);
        self.is_stopping = false;
        self.ending.spared();
        Ok(())
    }
}

/// Takes out the connection that a run carries, if it carries one.
fn take_out(waiting: &mut Waiting, conn: Option<u64>)
    ensures { waiting.new ≡ filter (λ c. not (carries c conn)) waiting.old }
{
    if let Some(conn) = conn {
        waiting.left(conn);
    }
}
