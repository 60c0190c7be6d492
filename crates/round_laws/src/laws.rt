//! What holds of a launcher over any list of passes of the event loop. The functions do nothing: their contracts are
//! the laws. A pass is what `live_loop::round` promises of it; each begins with what the one before left.

ghost use Rattle.std.specs.Prelude.{◌≡◌, false, List, Option};
ghost use Rattle.child_edge.specs.Calls.{ToldCall};
ghost use Rattle.ctl_protocol.specs.declared.header.Header.{Header};
ghost use Rattle.history_model.specs.LeftOut.{MayBeLeftOut};
ghost use Rattle.history_model.specs.Items.{History};
ghost use Rattle.history_model.specs.Labels.{Label};
ghost use Rattle.history_model.specs.Machine.{State};
ghost use Rattle.history_model.specs.Refusals.{is_clock_refused};
ghost use Rattle.launcher.specs.HostTurns.{IsLed};
ghost use Rattle.launcher.specs.Hosts.{IsNew, stands};
ghost use Rattle.loaded_jobs.specs.StandsFor.{KeepsState};
ghost use Rattle.launcher.specs.Journals.{JournalState};
ghost use Rattle.launcher_laws.specs.Lasting.{Lasts};
ghost use Rattle.launcher_laws.specs.TurnRuns.{AreTurns, Snapshot};
ghost use Rattle.live_loop.specs.Looks.{IsEmpty};
ghost use Rattle.live_loop.specs.Rounds.{IsNew as IsNobodyYet, Left, one_round};
ghost use Rattle.outside.specs.Stores.{StoreCall};
ghost use Rattle.jobd.specs.declared.round_launcher.RoundLauncher.{RoundLauncher as Launcher};
ghost use Rattle.round_laws.specs.Called.{AsksBetween};
ghost use Rattle.round_laws.specs.BeforeClocks.{turns_up_to};
ghost use Rattle.round_laws.specs.DueStarts.{IsDueAt, IsStartedIn, StartsAllDue, StartsWhatWaits};
ghost use Rattle.round_laws.specs.Following.{AreFollowed, operations_of};
ghost use Rattle.round_laws.specs.Receiving.{DecideAsOne, Decides, ReceivedReadings, lines_of};
ghost use Rattle.round_laws.specs.Marks.{Mark, snapshot, turns_in};
ghost use Rattle.round_laws.specs.Outside.{ArePasses, IsPass, around, delivered, delivered_in, jobds, turns, turns_of_pass};

use jobd::{RoundEdge, RoundLauncher};
use outside::SettingStore;
use std::io::Write;

/// Any passes are turns, one after another, between which only the edge was asked. They are the turns of what each pass
/// found, in its order.
pub fn rounds_are_turns<T: SettingStore, E: RoundEdge, W: Write>(round: &RoundLauncher<T, E, W>)
    ensures { let by = around E.told T.told T.holds T.stamped E.Finds E.Looks E.Accepts E.Holds in
        (first last : Left (Launcher T E W)) →
        (rounds : ArePasses by first last) →
        AreTurns T.holds (snapshot E.told T.told first.host.host)
        (turns by rounds)
        (snapshot E.told T.told last.host.host) }
{
    let _ = round;
}

/// Over any passes, the edge is called within turns for what each turn says. Between turns it gets questions alone,
/// about a child, a path or the clocks. Or it closes a connection: that of a client that was refused, by `TellsCame` of
/// `jobd`. Only a turn starts or signals a child, and binds or gives up a socket.
pub fn between_turns_are_questions<T: SettingStore, E: RoundEdge, W: Write>(
    round: &RoundLauncher<T, E, W>,
)
    ensures { let by = around E.told T.told T.holds T.stamped E.Finds E.Looks E.Accepts E.Holds in
        (first last : Left (Launcher T E W)) →
        (rounds : ArePasses by first last) →
        AsksBetween (E.told first.host.host.edge)
        (delivered by rounds)
        (E.told last.host.host.edge) }
{
    let _ = round;
}

/// A launcher was not given some clock readings and observations, each of which may be left out. Its turns decide as if
/// all of them had been delivered.
pub fn what_was_spared_changes_nothing<T: SettingStore>(store: &T)
    ensures { (header : Header) (calls : Option (List ToldCall)) (stores : Option (List StoreCall))
        (journal : JournalState) (first last : Snapshot T) (marks : List (Mark T)) →
        (new : IsNew header calls stores journal first.stands
        (T.holds store.now) (T.holds first.store)) →
        (lasts : Lasts T.holds new.machine (turns_in marks) last) →
        MayBeLeftOut new.machine.reading new.machine (lines_of marks lasts.parts) →
        DecideAsOne new.machine marks lasts.parts }
{
    let _ = store;
}

/// Take any passes of a new launcher, to which no observation was delivered yet. They decide as if each clock reading
/// and each observation had been delivered, in the order of the passes. Each clock reading that was left out would have changed nothing.
/// Where an observation was left out, each job that lists the path had last seen the same. All else was delivered at
/// the last clock reading. The condition: memory was not wanting at a clock reading.
pub fn rounds_decide_as_one<T: SettingStore, E: RoundEdge, W: Write>(round: &RoundLauncher<T, E, W>)
    ensures { let by = around E.told T.told T.holds T.stamped E.Finds E.Looks E.Accepts E.Holds in
        (header : Header) (calls : Option (List ToldCall)) (stores : Option (List StoreCall))
        (journal : JournalState) (before : T) (first last : Left (Launcher T E W)) →
        (new : IsNew header calls stores journal (stands E.told T.told first.host.host)
        (T.holds before) (T.holds first.host.host.store)) →
        first.host.at ≡ first.host.host.table.reading → IsEmpty first.known →
        (rounds : ArePasses by first last) →
        ReceivedReadings (delivered by rounds) →
        Decides new.machine (delivered by rounds) }
{
    let _ = round;
}

/// Over any passes of a new loop each client of a job's socket is followed from its coming to its number. The edge took
/// it at a socket of its job. It was delivered at most once, for that job, under the number after that of the client
/// before. It came with all that was read of its request in between and nothing else, at most 65,536 bytes. The edge
/// was given its connection under that number, and then the job heard of it, as `ComesIn` says.
pub fn each_client_is_followed<T: SettingStore, E: RoundEdge, W: Write>(
    round: &RoundLauncher<T, E, W>,
)
    ensures { let by = around E.told T.told T.holds T.stamped E.Finds E.Looks E.Accepts E.Holds in
        (first last : Left (Launcher T E W)) → IsNobodyYet first.desk →
        (rounds : ArePasses by first last) →
        AreFollowed (jobds by) (operations_of (jobds by) rounds) }
{
    let _ = round;
}

/// A job is wanted and free from some time on, and needs no event. It is ordered to start in the first pass whose clock
/// reading is not before that time. That clock reading is delivered, and the start is ordered in its turn. This holds
/// of each machine that the table represented when the clocks were read, if it accepts the clock reading. The
/// condition: memory was not wanting at a clock reading.
pub fn a_due_start_is_ordered_in_its_round<T: SettingStore, E: RoundEdge, W: Write>(
    round: &RoundLauncher<T, E, W>,
)
    ensures one { let by = around E.told T.told T.holds T.stamped E.Finds E.Looks E.Accepts E.Holds in
        (old new : Left (Launcher T E W)) →
        (round : IsPass by old new) →
        ReceivedReadings (delivered_in by round) →
        (s : State) → KeepsState round.begins.begun.host.table s → IsLed s →
        is_clock_refused s.reading round.begins.begun.at ≡ false →
        (label : Label) (past : History) → IsDueAt s label past round.begins.begun.at →
        IsStartedIn label past round.begins.begun.at
        (turns_of_pass by round) }
    // This holds in each pass of a new launcher: it takes only clock readings that the machine accepts.
    ensures each { let by = around E.told T.told T.holds T.stamped E.Finds E.Looks E.Accepts E.Holds in
        (header : Header) (calls : Option (List ToldCall)) (stores : Option (List StoreCall))
        (journal : JournalState) (before : T) (first old new : Left (Launcher T E W)) →
        (opened : IsNew header calls stores journal (stands E.told T.told first.host.host)
        (T.holds before) (T.holds first.host.host.store)) →
        first.host.at ≡ first.host.host.table.reading →
        (more : ArePasses by first old) →
        (round : IsPass by old new) →
        ReceivedReadings (delivered by (one_round more round)) →
        StartsAllDue opened.machine (turns_up_to by more round)
        round.begins.begun.host.table round.begins.begun.at
        (turns_of_pass by round) }
    // And a job may wait so after any passes. It is started in the passes that come then, or in the first one whose
    // clock reading is late enough. This holds if nothing happens to it meanwhile but that the clocks are read.
    ensures waits { let by = around E.told T.told T.holds T.stamped E.Finds E.Looks E.Accepts E.Holds in
        (header : Header) (calls : Option (List ToldCall)) (stores : Option (List StoreCall))
        (journal : JournalState) (before : T) (first from old new : Left (Launcher T E W)) →
        (opened : IsNew header calls stores journal (stands E.told T.told first.host.host)
        (T.holds before) (T.holds first.host.host.store)) →
        first.host.at ≡ first.host.host.table.reading →
        (more : ArePasses by first from) →
        (meanwhile : ArePasses by from old) →
        (round : IsPass by old new) →
        ReceivedReadings (delivered by more) →
        ReceivedReadings (delivered by (one_round meanwhile round)) →
        StartsWhatWaits opened.machine (turns by more)
        from.host.host.table (turns_up_to by meanwhile round)
        round.begins.begun.at
        (turns_of_pass by round) }
{
    let _ = round;
}
