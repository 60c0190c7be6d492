//! What a pass of the live loop finds, delivered to the launcher one by one.

ghost use Rattle.std.specs.Prelude.{◌≡◌, ℕ, List, true, false};
ghost use Rattle.launcher.specs.Inputs.{input_event, wants_memory};
ghost use Rattle.launcher.specs.LoadTurns.{is_memory};

use crate::keeper::Keeper;
use crate::kill_waits::{counted, counting};
use crate::news::{is_news, later_of};
use crate::round_edge::{RoundEdge, SleepEdge};
use child_edge::{ChildEdge, Client, EdgeFault, Notice, PathEdge, SocketEdge};
use control_socket::Answers;
use history_model::{JobNo, Obs, Reading, Refusal, Reply};
use launcher::{Host, Input};
use live_loop::{Caller, Delivered, LabelRoom, LauncherState, LoopHost, Origin, PathHost};
use mio::{Registry, Token};
use outside::SettingStore;
use std::alloc::Global;
use std::io::Write;

/// A launcher at the clock reading of the present pass of the loop. The launcher gets that clock reading before any
/// other input of the pass, and else only if it may change something. Its `up` counts the time in which the machine
/// slept too. Each sleep counts from the first clock reading on at which no job waits for its KILL, so that none loses
/// the time that it has to exit.
#[derive(Drop)]
pub struct RoundLauncher<T: SettingStore, E: ChildEdge + SocketEdge, W: Write> {
    pub host: Host<T, E, W>,
    at: Reading,
    // How long the machine had slept at the beginning, by the edge; and how many milliseconds of later sleep count.
    before: u64,
    slept: u64,
    // The launcher had no memory for the clock reading that it was given last.
    is_refused: bool,
    // Something happened in this pass that is an input.
    is_active: bool,
    // A load was accepted since the paths were checked.
    has_loaded: bool,
}

impl<T: SettingStore, E: ChildEdge + SocketEdge, W: Write> RoundLauncher<T, E, W> {
    ghost use Rattle.jobd.specs.Launches.{ReceivedReading, Reads, ReadsIf, ReadsClock, DeliversNews, Shows, Gives, Tells, PollsRun};

    /// The launcher at its own latest clock reading, from which on sleeps count; `before` is what its edge said of
    /// sleeps then.
    pub fn new(host: Host<T, E, W>, before: u64) -> RoundLauncher<T, E, W>
        ensures host { result.host ≡ host }
        ensures at { result.at ≡ host.table.reading }
        ensures sleep { (result.before ≡ before) × (result.slept ≡ 0) }
        ensures received { (result.is_refused ≡ false) × (result.has_loaded ≡ false) }
    {
        let at = host.table().reading();
        RoundLauncher {
            host,
            at,
            before,
            slept: 0,
            is_refused: false,
            is_active: false,
            has_loaded: false,
        }
    }

    // Delivers the clock reading of the pass before, if the launcher had no memory for it.
    fn deliver_missed(&mut self, alloc: Global)
        ensures { ReadsIf E.told T.told T.holds T.stamped self.old.is_refused self.old self.new }
    {
        if self.is_refused {
            self.deliver_time(alloc);
        }
    }

    // Reads the clock, if a launcher may accept what it shows after the clock reading that it has.
    fn read(&mut self)
    where
        E: SleepEdge,
        ensures { ReadsClock E.told T.told T.holds T.stamped self.old self.new }
    {
        let slept = self.host.edge().slept();
        let answer = self.host.edge().read();
        let shown = self.shown(answer, slept);
        self.at = later_of(self.at, shown);
        let at = self.at;
        self.host.edge().note_time(at);
    }

    // What a clock shows that counts sleeps, by the answer of one that stops in them; or what it showed before. Further
    // sleeps are counted if no job waits for its KILL.
    fn shown(&mut self, answer: Result<Reading, EdgeFault>, slept: u64) -> Reading
        ensures shows { Shows answer slept self.old self.new.slept result }
        ensures same { self.new ≡ record self.old { slept = self.new.slept } }
    {
        let Ok(awake) = answer else {
            return self.at;
        };
        let slept = slept.saturating_sub(self.before);
        let up = counting(awake, self.slept).up;
        self.slept = counted(self.host.table(), up, self.slept, slept);
        counting(awake, self.slept)
    }

    // Delivers the clock reading of the pass, if it may change something.
    fn deliver_news(&mut self, alloc: Global)
        ensures { DeliversNews E.told T.told T.holds T.stamped self.old self.new }
    {
        if is_news(self.host.table(), self.at) {
            self.receive_time(alloc);
        }
    }

    // Delivers the clock reading of the pass, unless it is the launcher's own already.
    fn deliver_time(&mut self, alloc: Global)
        ensures { Reads E.told T.told T.holds T.stamped self.old self.new }
    {
        if self.host.table().reading() == self.at {
            return;
        }
        self.receive_time(alloc);
    }

    fn receive_time(&mut self, alloc: Global)
        ensures { ReceivedReading E.told T.told T.holds T.stamped self.old self.new }
    {
        let reply = self.host.turn(alloc, Input::Clock(self.at));
        let is_refused = reply.refusal.is_some();
        drop(reply);
        self.is_refused = is_refused;
        self.is_active = self.is_active | !is_refused;
    }

    /// Delivers what happened, after the clock reading of the pass. A refused wait comes in each pass, so it does not
    /// shorten the next pause.
    pub fn give(&mut self, alloc: Global, input: Input<'_>) -> Reply
        ensures memory { is_memory result.refusal ≡ true → wants_memory input.entry ≡ true }
        ensures gives { Gives E.told T.told T.holds T.stamped (input_event input.entry) result.refusal result.text self.old self.new }
    {
        let is_active = self.is_active || !matches!(input, Input::WaitRefused(_, _));
        self.deliver_time(alloc);
        self.is_active = is_active;
        self.host.turn(alloc, input)
    }

    // Delivers what happened, and gives why it was refused.
    fn tell(&mut self, alloc: Global, input: Input<'_>) -> Option<Refusal>
        ensures memory { is_memory result ≡ true → wants_memory input.entry ≡ true }
        ensures tells { Tells E.told T.told T.holds T.stamped (input_event input.entry) result self.old self.new }
    {
        let reply = self.give(alloc, input);
        let refusal = reply.refusal;
        drop(reply);
        refusal
    }

    // Delivers how the run of the job exited, or that the wait for it was refused. The table can't lend the label while
    // the child is polled.
    fn poll(&mut self, alloc: Global, room: &mut LabelRoom, job: JobNo, run: u64)
        ensures { PollsRun E.told T.told T.holds T.stamped job run self.old self.new }
    {
        room.copy(self.host.table().last_step().label(job));
        let label = room.as_str();
        match self.host.edge().poll(job, run) {
            Ok(None) => {}
            Ok(Some(how)) => {
                let _refusal = self.tell(alloc, Input::Ended(label, run, how));
            }
            Err(_) => {
                let _refusal = self.tell(alloc, Input::WaitRefused(label, run));
            }
        }
    }
}

impl<T: SettingStore, E: RoundEdge, W: Write> RoundLauncher<T, E, W> {
    ghost use Rattle.jobd.specs.Launches.{lent};
    ghost use Rattle.jobd.specs.Standings.{IsStatusText};

    /// Has the status file written, if it is kept and must be written in this pass. True: the file got its text, that
    /// of the table as it is now.
    pub fn write_status(&mut self) -> bool
        ensures asks { (edge : E) × (E.told edge ≡ E.told self.old.host.edge) × (self.new ≡ lent edge self.old) }
        ensures handed { result ≡ true → (text : List ℕ) × (edge : E) × IsStatusText self.old.host.table text × E.Hands text edge self.new.host.edge }
    {
        let (at, is_short, is_active) = (self.at, self.is_refused, self.is_active);
        match self.host.edge().lend_keeper(at, is_short, is_active) {
            Some(keeper) => self.write_by(keeper, at),
            None => false,
        }
    }

    fn write_by(&mut self, keeper: Keeper, at: Reading) -> bool
        ensures asks { (edge : E) × (E.told edge ≡ E.told self.old.host.edge) × (self.new ≡ lent edge self.old) }
        ensures handed { result ≡ true → (text : List ℕ) × (edge : E) × IsStatusText self.old.host.table text × E.Hands text edge self.new.host.edge }
    {
        let mut keeper = keeper;
        let is_whole = keeper.write(self.host.table(), at);
        self.host.edge().hand(keeper, is_whole, at);
        is_whole
    }
}

impl<T: SettingStore, E: RoundEdge, W: Write> Answers for RoundLauncher<T, E, W> {
    ghost use Rattle.jobd.specs.Launches.{AnswersLine};

    ghost Answered = { AnswersLine E.told T.told T.holds T.stamped };

    // A load that was accepted is noted, for the path checks.
    fn answer(&mut self, alloc: Global, line: &[u8]) -> Reply {
        let reply = self.give(alloc, Input::Line(line));
        let has_loaded = self.host.has_loaded();
        self.has_loaded = self.has_loaded | has_loaded;
        self.host.edge().note_reply(line, has_loaded, reply.refusal);
        reply
    }
}

impl<T: SettingStore, E: ChildEdge + SocketEdge + PathEdge, W: Write> PathHost
    for RoundLauncher<T, E, W> {
    ghost use Rattle.jobd.specs.Launches.{DoesPath, ListsNext};

    ghost round_up = { λ round. round.at.up };

    ghost IsNext = { ListsNext };

    ghost Did = { DoesPath E.told T.told T.holds T.stamped E.Looks };

    fn up(&self) -> u64 {
        self.at.up
    }

    fn begin_looks(&mut self) {
        self.host.edge().begin_looks();
    }

    fn take_loaded(&mut self) -> bool {
        let has_loaded = self.has_loaded;
        self.has_loaded = false;
        has_loaded
    }

    fn path_after(&self, path: &str) -> Option<&str> {
        self.host.table().path_after(path)
    }

    fn ask(&mut self, path: &str) -> bool {
        self.host.edge().ask(path)
    }

    fn is_seen(&mut self, path: &str) -> bool {
        self.host.edge().is_seen(path)
    }

    fn look(&mut self, path: &str) -> Option<Obs> {
        self.host.edge().look(path).ok()
    }

    fn saw(&mut self, alloc: Global, path: &str, obs: Obs) {
        let _refusal = self.tell(alloc, Input::Saw(path, obs));
    }
}

impl<T: SettingStore, E: RoundEdge, W: Write> LoopHost for RoundLauncher<T, E, W> {
    ghost use Rattle.jobd.specs.Ended.{SaysState};
    ghost use Rattle.jobd.specs.Launches.{AsksEdge, Begins, PollsFrom, ComesIn, TakesClient};

    ghost Begun = { Begins E.told T.told T.holds T.stamped };

    ghost Polled = { PollsFrom E.told T.told T.holds T.stamped E.Finds };

    ghost Asked = { AsksEdge E.told };

    ghost Taken = { TakesClient E.told E.Accepts };

    ghost Came = { ComesIn E.told T.told T.holds T.stamped E.Holds };

    ghost Says = { λ round has_ended next. SaysState round.host.table round.is_refused has_ended next };

    ghost rises = { λ first job old new polled. E.rises first job polled.0 old.host.edge polled.1 polled.3 };

    // The pass has the clock reading of the one before if the clock can't be read, or if a launcher would refuse what it
    // shows now. If the launcher had no memory for the clock reading before, that is delivered first.
    fn begin(&mut self, alloc: Global) {
        self.is_active = false;
        self.deliver_missed(alloc);
        self.read();
        self.deliver_news(alloc);
    }

    fn up_now(&mut self) -> u64 {
        match self.host.edge().read() {
            Ok(awake) => counting(awake, self.slept).up,
            Err(_) => self.at.up,
        }
    }

    fn standing(&self) -> LauncherState {
        let table = self.host.table();
        let is_ending = table.is_shutting_down();
        let is_empty = table.is_empty();
        let next = table.next_up();
        LauncherState {
            is_active: self.is_active,
            has_ended: is_ending && is_empty,
            next_moment: if self.is_refused { None } else { next },
        }
    }

    fn poll_from(&mut self, alloc: Global, room: &mut LabelRoom, first: JobNo) -> Option<JobNo> {
        match self.host.edge().over_from(first) {
            Some((job, run)) => {
                self.poll(alloc, room, job, run);
                Some(job)
            }
            None => None,
        }
    }

    fn register(&mut self, registry: &Registry, token: Token) -> bool {
        self.host.edge().register(registry, token)
    }

    fn listener_from(&mut self, job: JobNo) -> Option<Origin> {
        self.host.edge().listener_from(job)
    }

    fn room(&mut self) -> usize {
        self.host.edge().room()
    }

    fn must_wait(&mut self, job: JobNo) -> bool {
        self.host.edge().must_wait(job)
    }

    fn is_woken_by_exits(&mut self) -> bool {
        self.host.edge().is_woken_by_exits()
    }

    fn listens_at(&mut self, origin: Origin) -> bool {
        self.host.edge().listens_at(origin)
    }

    fn label(&self, job: JobNo) -> &str {
        self.host.table().last_step().label(job)
    }

    fn accept(&mut self, job: JobNo) -> Option<Client> {
        self.host.edge().accept(job)
    }

    fn deliver(
        &mut self,
        alloc: Global,
        room: &mut LabelRoom,
        conn: u64,
        caller: Caller,
    ) -> Delivered {
        let job = caller.origin.job;
        if !self.host.edge().take(conn, caller) {
            return Delivered::Dropped;
        }
        room.copy(self.host.table().last_step().label(job));
        match self.tell(alloc, Input::Came(room.as_str(), conn)) {
            None => Delivered::Received,
            Some(refusal) => {
                self.host.edge().close(job, conn);
                Delivered::Refused(refusal)
            }
        }
    }

    // Each pass asks this last, before it logs what there is to log. After a text that the file got the next pass comes at once.
    fn forward(&mut self) -> bool {
        let may_go_on = self.host.edge().forward();
        may_go_on | self.write_status()
    }

    // The status file says how things are at the end.
    fn release_all(&mut self) {
        self.host.edge().release_all();
        let _is_written = self.write_status();
    }

    fn next_notice(&mut self) -> Option<Notice> {
        self.host.edge().next_notice()
    }

    fn report_journal_closing(&mut self) -> bool {
        if self.host.report_journal_closing() {
            self.host.edge().note_closing();
            true
        } else {
            false
        }
    }
}
