//! The fields of the table, and the parts of which its events are made.

ghost use Rattle.std.specs.Prelude.{◌≡◌, ◌<◌, List, OnOk, OnErr, map, length, Some};
ghost use Rattle.std.specs.List.{filter, position};
ghost use Rattle.history_model.specs.Search.{first};
ghost use Rattle.history_model.specs.Machine.{Job, is_of, past_in};
ghost use Rattle.history_model.specs.Labels.{Label};
ghost use Rattle.history_model.specs.Acceptance.{refusal_at};
ghost use Rattle.history_model.specs.Step.{received_one};
ghost use Rattle.history_model.specs.JobItems.{item_of};
ghost use Rattle.loaded_jobs.specs.StandsFor.{KeepsJobs};
ghost use Rattle.loaded_jobs.specs.Numbers.{KeepsNames};
ghost use Rattle.loaded_jobs.specs.Room.{HasSameRoom};
ghost use Rattle.loaded_jobs.specs.JobSlots.{rows, name, has_label, AllStay};
ghost use Rattle.loaded_jobs.specs.Counts.{counts, Counts};
ghost use Rattle.job_core.specs.Memory.{NeedsNoMemory};
ghost use Rattle.loaded_jobs.specs.Loads.{refused_with};
ghost use Rattle.loaded_jobs.specs.Touched.{IsChangedAt, IsHandedAt};
ghost use Rattle.loaded_jobs.specs.Telling.{IsTold};
ghost use Rattle.loaded_jobs.specs.AskedJobs.{CanAsk, AsksReached};
ghost use Rattle.loaded_jobs.specs.Begun.{IsBegun, HasBegun};
ghost use Rattle.loaded_jobs.specs.Receiving.{Brings};
ghost use Rattle.loaded_jobs.specs.AffectedJobs.{item_for, reaches, nothing_for, is_at};
ghost use Rattle.std.specs.Option.{ForSome};

use crate::gone_jobs::Gone;
use crate::held_slot::HeldSlot;
use crate::job_slot::AffectedJobs;
use crate::marks::mark_touched;
use crate::settings::Settings;
use crate::trigger::Listed;
use crate::visits::{visit_at, visit_ready};
use calendar_due::Zone;
use history_model::{JobItem, Order, Reading, Refusal};
use place_set::PlaceSet;
use slab::Slab;
use timer_heap::TimerHeap;

/// The loaded jobs in byte order of labels, what decides over them, and the orders of the last event.
pub struct Jobs {
    pub(crate) reading: Reading,
    pub(crate) zone: Zone,
    pub(crate) settings: Settings,
    pub(crate) is_shutting_down: bool,
    pub(crate) job_slots: Vec<HeldSlot>,
    pub(crate) numbers: Slab<()>,
    pub(crate) orders: Vec<Order>,
    pub(crate) visited: u32,
    pub(crate) index: Index,
    /// Which jobs the last event may have removed.
    pub(crate) gone: Gone,
    /// A job that is loaded, or that went at the last event, has calendar entries.
    pub(crate) has_calendars: bool,
    /// What touches those jobs, in order.
    pub(crate) triggers: Vec<Listed>,
}

// for the proof: the owner that drops it calls this, in place of a drop of each part
impl Drop for Jobs {
    fn drop(self) {
        let Jobs {
            reading: _,
            zone: _,
            settings: _,
            is_shutting_down: _,
            job_slots: _,
            numbers: _,
            orders: _,
            visited: _,
            index: _,
            gone: _,
            has_calendars: _,
            triggers: _,
        } = self;
    }
}

/// What finds the jobs that an event touches.
#[derive(Drop)]
pub struct Index {
    /// The next wake-up time of each job, by its number.
    pub(crate) timers: TimerHeap,
    /// The places that the present event marked; empty between events.
    pub(crate) marked: PlaceSet,
    /// The place of each job, by its number. There are at most `MAX_JOBS` jobs, so 16 bits hold a place: less has to change if
    /// places move.
    pub(crate) places: Vec<u16>,
}

impl Jobs {
    ghost use Rattle.loaded_jobs.specs.Sound.{seen_table, IsSound, IsWhole};
    ghost use Rattle.loaded_jobs.specs.Alike.{IsAlike};

    /// Drops the jobs that went at the last event, and its orders.
    pub fn begin(&mut self)
        requires { IsWhole self.old }
        ensures { HasBegun self.old self.new }
    {
        self.orders.clear();
        self.drop_left();
        self.gone = Gone::Nobody;
    }

    /// Delivers to the job at this place what happened to it, and asks it alone. Refusals: NoSuchJob, if there is no place, and
    /// those of the job.
    pub fn tell(&mut self, found: Option<usize>, item: JobItem) -> Result<(), Refusal>
        requires begun { IsBegun self.old }
        requires inside { ForSome found (λ place. place < length self.old.job_slots.items) }
        ensures told { (label : Label) → found ≡ position (has_label label) self.old.job_slots.items →
            IsTold label (item_of item) (seen_table self.old) result (seen_table self.new) }
        ensures counted { Counts result (seen_table self.old) (seen_table self.new) }
        ensures names { KeepsNames result (seen_table self.old) (seen_table self.new) }
        ensures memory { NeedsNoMemory result }
        ensures whole { IsWhole self.new }
        ensures alike { IsAlike self.old self.new }
        ensures room { HasSameRoom (seen_table self.old) (seen_table self.new) }
    {
        let Some(place) = found else {
            return Err(Refusal::NoSuchJob);
        };
        self.hand_at(place, item)?;
        self.ask_at(place);
        Ok(())
    }

    /// Delivers to the job at this place what happened to it.
    fn hand_at(&mut self, place: usize, item: JobItem) -> Result<(), Refusal>
        requires sound { IsSound self.old }
        requires stay { AllStay self.old.job_slots.items }
        requires inside { place < length self.old.job_slots.items }
        ensures answer { (label : Label) (jobs : List Job) →
            Some place ≡ position (has_label label) self.old.job_slots.items →
            KeepsJobs self.old.reading (rows self.old.job_slots.items) jobs →
            refused_with result
            ≡ refusal_at (past_in (first (filter (is_of label) jobs))) (item_of item) }
        ensures place { (label : Label) →
            Some place ≡ position (has_label label) self.old.job_slots.items →
            IsHandedAt label place self.old.job_slots.items self.new.job_slots.items }
        ensures kept { (label : Label) (jobs : List Job) →
            Some place ≡ position (has_label label) self.old.job_slots.items →
            KeepsJobs self.old.reading (rows self.old.job_slots.items) jobs →
            OnOk result
            (KeepsJobs self.old.reading (rows self.new.job_slots.items)
            (received_one label (item_of item) jobs)) }
        ensures rows { OnErr result (rows self.new.job_slots.items ≡ rows self.old.job_slots.items) }
        ensures others { IsChangedAt place self.old.job_slots.items self.new.job_slots.items }
        ensures names { map name self.new.job_slots.items ≡ map name self.old.job_slots.items }
        ensures counts { counts (rows self.new.job_slots.items)
            ≡ counts (rows self.old.job_slots.items) }
        ensures memory { NeedsNoMemory result }
        ensures sound { IsSound self.new }
        ensures stay { AllStay self.new.job_slots.items }
        ensures index { self.new.index ≡ self.old.index }
        ensures orders { self.new.orders ≡ self.old.orders }
        ensures alike { IsAlike self.old self.new }
        ensures room { HasSameRoom (seen_table self.old) (seen_table self.new) }
    {
        let job_slot = &mut self.job_slots[place];
        job_slot.receive_item(item, self.reading)
    }

    /// Delivers to the jobs that the touch reaches what it is for them, and asks them alone. The clock reading stays.
    pub fn ask_touched(&mut self, affected: AffectedJobs<'_>)
        requires can { CanAsk (reaches affected) self.old }
        requires brings { Brings (item_for affected) self.old.reading self.old.reading }
        ensures { AsksReached (item_for affected.entry) (reaches affected.entry) self.old self.new }
    {
        mark_touched(
            &self.job_slots,
            affected,
            &self.triggers,
            &self.index.places,
            &mut self.index.marked,
        );
        let (visited, gone) = visit_ready(
            &mut self.job_slots,
            &mut self.index.marked,
            &mut self.index.timers,
            affected,
            self.reading,
            self.reading,
            &mut self.orders,
        );
        self.visited = visited;
        self.gone = gone;
    }

    /// Asks the job at this place alone, which received already what happened to it. No mark is set for it, and the clock reading
    /// stays.
    pub fn ask_at(&mut self, place: usize)
        requires can { CanAsk (is_at place) self.old }
        requires inside { place < length self.old.job_slots.items }
        ensures { AsksReached nothing_for (is_at place) self.old self.new }
    {
        let (asked, left) = visit_at(
            &mut self.job_slots,
            &mut self.index.timers,
            place,
            self.reading,
            &mut self.orders,
        );
        self.visited = asked;
        self.gone = left;
    }
}
