//! A turn of the launcher, by what comes to it: what happens is one event, and the answers to all that it orders are the next.

ghost use Rattle.std.specs.Prelude.{◌≡◌, Err, IfOk, Some, true, false};
ghost use Rattle.history_model.specs.declared.Refusal.TheVariants.{NoMemory};
ghost use Rattle.history_model.specs.declared.event.Event.TheVariants as journaled;
ghost use Rattle.ctl_protocol.specs.EventWriter.{event_line};
ghost use Rattle.loaded_jobs.specs.Loads.{refused_with};
ghost use Rattle.history_model.specs.Machine.{State};
ghost use Rattle.history_model.specs.Step.{outcome};
ghost use Rattle.loaded_jobs.specs.StandsFor.{KeepsState};
ghost use Rattle.loaded_jobs.specs.TableOutcomes.{UnlessMemory};
ghost use Rattle.job_table.specs.Taking.{machine_event};
ghost use Rattle.launcher.specs.Inputs.{Incoming, event_if_label, happened, input_event, takes_none, wants_memory};
ghost use Rattle.launcher.specs.LoadTurns.{is_memory};
ghost use Rattle.launcher.specs.TakenTurns.{TakesTurn};
ghost use Rattle.launcher.specs.AtOnce.{IsAtOnce, NamesStay, is_happening};
ghost use Rattle.launcher.specs.HostTurns.{Turns, IsUncalled, NamesLabel, trace};
ghost use Rattle.launcher.specs.Writable.{WritesWhat};

use crate::events::receive;
use crate::host::Host;
use crate::input::Input;
use crate::lent_facts::lend_input;
use crate::replies::{is_want, refused, told};
use child_edge::{ChildEdge, SocketEdge};
use history_model::{Event, JobItem, Refusal, Reply, Text, TextRef};
use job_defs::is_label;
use outside::SettingStore;
use std::alloc::Global;
use std::io::Write;

impl<T: SettingStore, E: ChildEdge + SocketEdge, W: Write> Host<T, E, W> {
    /// One turn. The launcher makes the input an event and carries out what it orders. It makes each answer of the
    /// outside the next event, first in first out, until none remains. The journal gets the line of each event, and is
    /// flushed at the end. The reply is that of the input; a refusal has no text.
    ///
    /// BadRequest answers a line that is not a request, and what happened under a name that is not a label. Neither is
    /// an event. NoMemory comes only to a line or a clock reading, before anything was carried out. This too is not an
    /// event, and the journal is then as it was, not even flushed.
    pub fn turn(&mut self, alloc: Global, input: Input<'_>) -> Reply
        ensures turn { TakesTurn E.told T.told T.holds T.stamped (input_event input.entry)
            result.refusal result.text self.old self.new }
        ensures writable { WritesWhat result.refusal (input_event input.entry) }
        ensures memory { is_memory result.refusal ≡ true → wants_memory input.entry ≡ true }
    {
        let reply = self.receive(alloc, input);
        if is_want(reply.refusal) {
            return reply;
        }
        self.journal.flush();
        reply
    }

    /// The turn, without the flush.
    fn receive(&mut self, alloc: Global, input: Input<'_>) -> Reply
        ensures turn { TakesTurn E.told T.told T.holds T.stamped (input_event input.entry)
            result.refusal result.text self.old self.new }
        ensures writable { WritesWhat result.refusal (input_event input.entry) }
        ensures memory { is_memory result.refusal ≡ true → wants_memory input.entry ≡ true }
    {
        lend_input(input); // for the proof
        match input {
            Input::Line(line) => self.line(alloc, line),
            Input::Clock(at) => self.happen(alloc, &Event::Clock(at)),
            Input::Saw(path, obs) => {
                let path = TextRef::new(path);
                self.happen(alloc, &Event::Saw { path, obs })
            }
            Input::Came(job, conn) => self.happen_to(alloc, job, JobItem::Came(conn)),
            Input::Left(job, conn) => self.happen_to(alloc, job, JobItem::Left(conn)),
            Input::Ended(job, run, how) => self.happen_to(alloc, job, JobItem::Ended { run, how }),
            Input::WaitRefused(job, run) => self.happen_to(
                alloc,
                job,
                JobItem::WaitRefused { run },
            ),
        }
    }

    /// What happens to the job of this label. BadRequest answers a name that is not a label.
    fn happen_to(&mut self, alloc: Global, job: &str, item: JobItem) -> Reply
        ensures turn { TakesTurn E.told T.told T.holds T.stamped (event_if_label job.now (journaled.OfJob job.now item))
            result.refusal result.text self.old self.new }
        ensures memory { is_memory result.refusal ≡ true → ⊥ }
    {
        if is_label(job) {
            let job = TextRef::new(job);
            self.happen(alloc, &Event::OfJob { job, item })
        } else {
            self.has_loaded = false;
            refused(alloc, Refusal::BadRequest)
        }
    }

    /// What happens, with its reply.
    pub(crate) fn happen(&mut self, alloc: Global, what: &Event<'_>) -> Reply
        requires { is_happening what.now ≡ true }
        ensures turn { TakesTurn E.told T.told T.holds T.stamped (Some (happened what.now))
            result.refusal result.text self.old self.new }
        ensures memory { is_memory result.refusal ≡ true → takes_none what.now ≡ false }
    {
        self.receive_at_once(alloc, what)
    }

    /// What comes and is this event at once, with its reply: nothing outside is first asked for it.
    pub(crate) fn receive_at_once(&mut self, alloc: Global, what: &Event<'_>) -> Reply
        ensures turn { (incoming : Incoming) → IsAtOnce incoming what.now →
            TakesTurn E.told T.told T.holds T.stamped (Some incoming)
            result.refusal result.text self.old self.new }
        ensures memory { is_memory result.refusal ≡ true → takes_none what.now ≡ false }
    {
        let answer = self.apply(alloc, what);
        self.has_loaded = false;
        told(alloc, answer)
    }

    /// Makes what comes an event, and carries out what it orders, each order by its one call of the edge. It makes each
    /// answer the next event, first in first out, until none remains. The journal gets the line of each event. The
    /// result is the event's text, or its refusal, and then no call was made. After NoMemory it is not an event:
    /// nothing was carried out, and no line was written.
    pub(crate) fn apply(&mut self, alloc: Global, what: &Event<'_>) -> Result<Text, Refusal>
        ensures turn { NamesLabel (machine_event what.now) → NamesStay what.now → UnlessMemory result
            (Turns (machine_event what.now) (event_line what.now)
            (refused_with result) self.old.table self.new.table
            (trace (E.told self.old.edge) self.old.journal)
            (trace (E.told self.new.edge) self.new.journal)) }
        ensures text { IfOk result (λ text. (s : State) → KeepsState self.old.table s →
            (outcome s (machine_event what.now)).text ≡ text) }
        ensures uncalled { result ≡ Err NoMemory →
            IsUncalled self.old.table self.new.table (E.told self.old.edge) (E.told self.new.edge)
            × (self.new.journal ≡ self.old.journal) }
        ensures memory { result ≡ Err NoMemory → takes_none what.now ≡ false }
        ensures store { self.new.store ≡ self.old.store }
    {
        self.answers.clear();
        match receive(
            &mut self.table,
            &mut self.edge,
            alloc,
            what,
            &mut self.answers,
        ) {
            Ok(text) => {
                self.journal.note(alloc, what);
                self.settle(alloc);
                Ok(text)
            }
            Err(Refusal::NoMemory) => Err(Refusal::NoMemory),
            Err(refusal) => {
                self.journal.note(alloc, what);
                Err(refusal)
            }
        }
    }
}
