//! The load of a job: it is made ready, the outside is asked, its line is written, and if the outside answered well the
//! job is loaded.

ghost use Rattle.std.specs.Prelude.{◌≡◌, ◌&&◌, ℕ, Bool, List, [], IfOk, None, true, false};
ghost use Rattle.std.specs.String.{string_bytes};
ghost use Rattle.history_model.specs.Acceptance.{refusal_in};
ghost use Rattle.history_model.specs.Labels.{is_label};
ghost use Rattle.history_model.specs.Machine.{State};
ghost use Rattle.history_model.specs.Step.{outcome, set_if};
ghost use Rattle.ctl_protocol.specs.Requests.{unasked};
ghost use Rattle.loaded_jobs.specs.StandsFor.{KeepsState};
ghost use Rattle.loaded_jobs.specs.Loads.{IsReady, described_in, refused_with};
ghost use Rattle.launcher.specs.Journals.{JournalState, Grows};
ghost use Rattle.outside.specs.Asking.{told_of};
ghost use Rattle.outside.specs.Stores.{HoldsAfter, stamp_if};
ghost use Rattle.launcher.specs.Hosts.{stands};
ghost use Rattle.launcher.specs.HostTurns.{IsLed, trace};
ghost use Rattle.launcher.specs.JournaledLines.{load_line};
ghost use Rattle.launcher.specs.LoadTurns.{LoadTurnOf, IsUntouched, Makes, EndsLoad, is_memory, label_written, load_event, ready_load, settings_after, stamps_after};

use crate::host::Host;
use crate::request_lines::{note_load, note_load_refused};
use child_edge::{ChildEdge, SocketEdge};
use ctl_protocol::{LoadRequest, Outside};
use history_model::{Refusal, Text};
use job_defs::loaded;
use job_table::{Ready, refused_outside};
use outside::{SettingStore, ask_outside};
use std::alloc::Global;
use std::io::Write;

/// What a load came to.
#[derive(Drop)]
pub(crate) struct Loaded {
    /// What the outside answered. What it was not asked counts as true.
    pub outside: Outside,
    /// The text of a load that was made, or why it was refused.
    pub reply: Result<Text, Refusal>,
}

/// What the outside answered, and what it refused.
#[derive(Clone, Copy)]
struct Answered {
    outside: Outside,
    refusal: Option<Refusal>,
}

/// Drops a load that was made ready.
fn discard(_ready: Ready) {}

/// A load that was refused before the outside was asked.
fn uncalled(refusal: Refusal) -> Loaded
    ensures { result ≡ record { outside = unasked; reply = Err refusal } }
{
    Loaded {
        outside: Outside::unasked(),
        reply: Err(refusal),
    }
}

/// A load that the outside was asked about, with the text that it has if it was made.
fn reply_to(answered: Answered, text: String) -> Loaded
    ensures outside { result.outside ≡ answered.outside }
    ensures reply { refused_with result.reply ≡ answered.refusal }
    ensures text { IfOk result.reply (λ said. said ≡ string_bytes text) }
{
    let reply = match answered.refusal {
        Some(refusal) => Err(refusal),
        None => Ok(Text::new(text)),
    };
    Loaded {
        outside: answered.outside,
        reply,
    }
}

impl<T: SettingStore, E: ChildEdge + SocketEdge, W: Write> Host<T, E, W> {
    /// Loads the job that was made ready, carries out what is ordered, and makes each answer the next event.
    fn load_ready(&mut self, alloc: Global, ready: Ready)
        requires ready { IsReady self.old.table ready }
        requires label { is_label (described_in ready).label ≡ true }
        requires empty { self.old.answers ≡ [] }
        ensures made { (s : State) (force bind store : Bool) (line : List ℕ)
            (written : JournalState) →
            Grows written self.old.journal line → IsLed s → KeepsState self.old.table s
            → refusal_in s (ready_load ready force bind store) ≡ None
            → Makes s (ready_load ready force bind store) line ready self.old.table self.new.table
            (trace (E.told self.old.edge) written)
            (trace (E.told self.new.edge) self.new.journal) }
        ensures store { self.new.store ≡ self.old.store }
    {
        self.table.commit_load(ready);
        self.finish(alloc);
    }

    /// Asks the outside about the load that was made ready, writes its line, and makes it if the outside answered well.
    fn ask_and_load(&mut self, alloc: Global, ready: Ready, load: &LoadRequest<'_>) -> Answered
        requires ready { IsReady self.old.table ready }
        requires label { is_label (described_in ready).label ≡ true }
        requires empty { self.old.answers ≡ [] }
        ensures ends { EndsLoad ready load.now.writes_setting self.old.table.reading.wall result.outside
            result.refusal (load_line load.now result.outside)
            (stands E.told T.told self.old) (stands E.told T.told self.new) }
        ensures stored { HoldsAfter T.holds
            (set_if (load.now.writes_setting && (result.outside.bind && result.outside.store))
            (described_in ready).label false)
            self.old.store self.new.store }
        ensures stamped { HoldsAfter T.stamped
            (stamp_if (load.now.writes_setting && (result.outside.bind && result.outside.store))
            (described_in ready).label self.old.table.reading.wall)
            self.old.store self.new.store }
    {
        let changed = self.table.reading().wall;
        let outside = ask_outside(
            &mut self.edge,
            &mut self.store,
            ready.job(),
            ready.def(),
            load.writes_setting,
            changed,
        );
        note_load(&mut self.journal, alloc, load, outside);
        let refusal = refused_outside(
            ready.def(),
            load.writes_setting,
            outside.bind,
            outside.store,
        );
        match refusal {
            Some(_) => discard(ready),
            None => self.load_ready(alloc, ready),
        }
        Answered { outside, refusal }
    }

    /// A turn that begins with a load, as `load` of launchctl(1). It takes all memory before it asks the outside, but
    /// for that of the journal's lines. Want of memory for a line closes the journal and changes nothing else. The
    /// journal gets the line of the load with what the outside answered, also of a refused load. Then it gets the line
    /// of each answer.
    ///
    /// Refusals, in this order: ShuttingDown, BadDefinition, Removing or AlreadyLoaded, TooManyJobs (1,024), Disabled;
    /// NoMemory; SocketRefused, if the sockets were not bound; StoreRefused, if the setting was not stored. Sockets
    /// that were bound are given up after StoreRefused. A refused load leaves the state that the table represents as it
    /// was. A load that found no memory has no line.
    pub(crate) fn load(&mut self, alloc: Global, load: &LoadRequest<'_>) -> Loaded
        ensures memory { is_memory (refused_with result.reply) ≡ true →
            IsUntouched self.old.table self.new.table
            (told_of (E.told self.old.edge) (T.told self.old.store))
            (told_of (E.told self.new.edge) (T.told self.new.store)) }
        ensures silent { is_memory (refused_with result.reply) ≡ true →
            self.new.journal ≡ self.old.journal }
        ensures turn { is_memory (refused_with result.reply) ≡ false → (s : State) → IsLed s →
            KeepsState self.old.table s
            → LoadTurnOf s load.now result.outside (refused_with result.reply)
            (stands E.told T.told self.old) (stands E.told T.told self.new) }
        ensures stored { (s : State) → KeepsState self.old.table s
            → T.holds self.old.store s.settings
            → T.holds self.new.store (settings_after (refused_with result.reply) s
            (load_event result.outside load.now)) }
        ensures stamped { (s : State) → KeepsState self.old.table s → HoldsAfter T.stamped
            (stamps_after (label_written load.now) (refused_with result.reply) s.reading.wall)
            self.old.store self.new.store }
        ensures text { IfOk result.reply (λ text. (s : State) → KeepsState self.old.table s
            → (outcome s (load_event result.outside load.now)).text ≡ text) }
    {
        self.answers.clear();
        match self.table.prepare_load(
            alloc,
            load.def.as_str().as_bytes(),
            load.writes_setting,
            load.force,
        ) {
            Ok(ready) => match loaded(alloc, ready.def().not_acted_on()) {
                Ok(text) => {
                    let ended = self.ask_and_load(alloc, ready, load);
                    reply_to(ended, text)
                }
                Err(_) => {
                    discard(ready);
                    uncalled(Refusal::NoMemory)
                }
            },
            Err(refusal) => {
                note_load_refused(&mut self.journal, alloc, load, refusal);
                uncalled(refusal)
            }
        }
    }
}
