//! The load of a job, in two parts: what can be refused, and what cannot.

ghost use Rattle.std.specs.Prelude.{◌≡◌, ◌≤◌, ◌<◌, ◌+◌, ◌*◌, ◌∷◌, [], Bool, false, Some, None, Ok, IfOk, IfErr, OnOk, is_some, map, length, not, ◌&&◌, ◌||◌, count_by};
ghost use Rattle.history_model.specs.declared.TheConstants.{MAX_JOBS};
ghost use Rattle.history_model.specs.Items.{Loaded};
ghost use Rattle.history_model.specs.FactsOfPast.{Keeps};
ghost use Rattle.loaded_jobs.specs.declared.job_slot.TheConstants.{ORDERS};
ghost use Rattle.std.specs.Vec.{vec_capacity, vec_len};
ghost use Rattle.place_set.specs.Places.{place_room};
ghost use Rattle.timer_heap.specs.Timers.{room};
ghost use Rattle.slab.specs.Slab.{HasRoomFor, get, Updates};
ghost use Rattle.history_model.specs.declared.Refusal.TheVariants.{NoMemory};
ghost use Rattle.history_model.specs.Machine.{State, past_of};
ghost use Rattle.history_model.specs.Acceptance.{refusal_in, refusal_there};
ghost use Rattle.history_model.specs.Search.{or_else};
ghost use Rattle.history_model.specs.Definitions.{definition};
ghost use Rattle.loaded_jobs.specs.StandsFor.{KeepsState};
ghost use Rattle.loaded_jobs.specs.TableOutcomes.{IsSameFor, Means};
ghost use Rattle.loaded_jobs.specs.Goes.{GoesWithJob};
ghost use Rattle.loaded_jobs.specs.Loads.{load_of, refusal_outside, refused_with, IsAdmitted, IsReady, IsAbsent, IsMade, enabled_if};
ghost use Rattle.history_model.specs.News.{is_some_entry};
ghost use Rattle.loaded_jobs.specs.Periods.{HasPositivePeriod};
ghost use Rattle.loaded_jobs.specs.Triggers.{triggers_of, under, AreOrdered};
ghost use Rattle.loaded_jobs.specs.declared.trigger.Listed.{Listed};
ghost use Rattle.loaded_jobs.specs.declared.trigger.Trigger.{Trigger};
ghost use Rattle.loaded_jobs.specs.Room.{HasSameRoom};
ghost use Rattle.loaded_jobs.specs.Begun.{IsBegun};
ghost use Rattle.loaded_jobs.specs.JobSlots.{name, place_for, job_slots_with};

use crate::held_slot::HeldSlot;
use crate::index::{grow, make_way};
use crate::job_slot::{JobSlot, ORDERS};
use crate::jobs::Jobs;
use crate::places::{place_before, place_of};
use crate::settings::{Settings, is_disabled, set_if};
use crate::trigger::{Listed, Trigger, triggers_of};
use crate::triggers::enlist;
use history_model::definition::Def;
use history_model::{JobNo, MAX_JOBS, Order, Reading, Refusal, Setting, Text};
use job_core::JobCore;
use slab::Slab;
use std::alloc::{AllocError, Global};

/// A job that is about to be loaded, and its label's new setting.
#[derive(Drop)]
pub struct Ready {
    pub job_slot: HeldSlot,
    pub setting: Option<Setting>,
    /// What touches the job.
    pub triggers: Vec<Trigger>,
}

impl Ready {
    ghost use Rattle.loaded_jobs.specs.Loads.{described_in, number_in};

    /// The definition that was read.
    pub fn def(&self) -> &Def
        ensures { result.now ≡ described_in self.now }
    {
        &self.job_slot.lent().def
    }

    /// The number that the job is to have.
    pub fn job(&self) -> JobNo
        ensures { result ≡ number_in self.now }
    {
        self.job_slot.number()
    }
}

impl Jobs {
    ghost use Rattle.loaded_jobs.specs.Sound.{seen_table, IsSound, IsWhole};
    ghost use Rattle.loaded_jobs.specs.Alike.{IsAlike};

    /// Makes the load of a definition ready: looks for each refusal but the outside's, and takes all the memory.
    pub fn make_ready(
        &mut self,
        alloc: Global,
        def: Def,
        writes_setting: bool,
        force: bool,
    ) -> Result<Ready, Refusal>
        requires sound { IsWhole self.old }
        ensures admitted { IfOk result (λ _.
            IsAdmitted (seen_table self.old) def writes_setting force) }
        ensures def { IfOk result (λ ready. ready.job_slot.def ≡ def) }
        ensures writes_setting { IfOk result (λ ready. is_some ready.setting ≡ writes_setting) }
        ensures ready { IfOk result (IsReady (seen_table self.new)) }
        ensures refused { IfErr result (λ refusal. Means refusal ((s : State) (bind store : Bool) →
            KeepsState (seen_table self.old) s →
            refusal_in s (load_of def writes_setting force bind store) ≡ Some refusal)) }
        ensures same { IsSameFor (seen_table self.old) (seen_table self.new) }
        ensures rows { (seen_table self.new).rows ≡ (seen_table self.old).rows }
        ensures sound { IsWhole self.new }
    {
        self.begin();
        if let Err(refusal) = self.admit(&def, writes_setting, force) {
            return Err(refusal);
        }
        let Ok(triggers) = triggers_of(alloc, &def) else {
            return Err(Refusal::NoMemory);
        };
        self.reserve(alloc, triggers.len())?;
        self.made(alloc, def, writes_setting, triggers)
    }

    /// Looks for the refusals of a load, but for those of the outside.
    fn admit(&self, def: &Def, writes_setting: bool, force: bool) -> Result<(), Refusal>
        requires { IsBegun self.now }
        ensures answer { (s : State) (bind store : Bool) → KeepsState (seen_table self.now) s →
            refusal_in s (load_of def.now writes_setting force bind store)
            ≡ or_else (refused_with result) (refusal_outside def.now writes_setting bind store) }
        ensures absent { OnOk result (IsAbsent def.now.label (map name self.now.job_slots.items)) }
        ensures few { OnOk result (vec_len self.now.job_slots < MAX_JOBS) }
    {
        if self.is_shutting_down {
            return Err(Refusal::ShuttingDown);
        }
        if let Some(refusal) = self.refusal_there(def.label()) {
            return Err(refusal);
        }
        if self.job_slots.len() >= MAX_JOBS {
            return Err(Refusal::TooManyJobs);
        }
        let disabled = is_disabled(&self.settings, def.label(), def.disabled());
        if is_held_back(writes_setting, force, disabled) {
            return Err(Refusal::Disabled);
        }
        Ok(())
    }

    /// Why a load of a label that is loaded is refused.
    pub fn refusal_there(&self, label: &str) -> Option<Refusal>
        requires { IsBegun self.now }
        ensures answer { (s : State) → KeepsState (seen_table self.now) s →
            result ≡ refusal_there (past_of s label.now) }
        ensures absent { result ≡ None → IsAbsent label.now (map name self.now.job_slots.items) }
    {
        let Some(place) = place_of(&self.job_slots, label) else {
            return None;
        };
        if self.job_slots[place].lent().core.is_removing() {
            return Some(Refusal::Removing);
        }
        Some(Refusal::AlreadyLoaded)
    }

    /// Takes the memory that one more job with this number of triggers needs in the table.
    fn reserve(&mut self, alloc: Global, triggers: usize) -> Result<(), Refusal>
        requires sound { IsWhole self.old }
        requires few { vec_len self.old.job_slots < MAX_JOBS }
        ensures job_slots { self.new.job_slots.items ≡ self.old.job_slots.items }
        ensures count { vec_len self.new.job_slots ≡ vec_len self.old.job_slots }
        ensures orders { self.new.orders.items ≡ self.old.orders.items }
        ensures settings { self.new.settings.items ≡ self.old.settings.items }
        ensures places { OnOk result (vec_len self.new.job_slots < vec_capacity self.new.job_slots) }
        ensures room { OnOk result (ORDERS * (vec_len self.new.job_slots + 1)
            ≤ vec_capacity self.new.orders) }
        ensures numbers { OnOk result (HasRoomFor self.new.numbers 1) }
        ensures setting { OnOk result (vec_len self.new.settings < vec_capacity self.new.settings) }
        ensures moments { OnOk result (self.new.numbers.vacant_key < room self.new.index.timers) }
        ensures marks { OnOk result (vec_len self.new.job_slots + 1 ≤ place_room self.new.index.marked) }
        ensures numbered { OnOk result (self.new.numbers.vacant_key
            < length self.new.index.places.items) }
        ensures triggers { OnOk result (vec_len self.new.triggers + triggers
            ≤ vec_capacity self.new.triggers) }
        ensures refused { IfErr result (λ refusal. refusal ≡ NoMemory) }
        ensures sound { IsWhole self.new }
        ensures reading { self.new.reading ≡ self.old.reading }
        ensures zone { self.new.zone ≡ self.old.zone }
        ensures shutdown { self.new.is_shutting_down ≡ self.old.is_shutting_down }
    {
        let Ok(()) = reserve_beside(
            &mut self.job_slots,
            &mut self.orders,
            &mut self.numbers,
            &mut self.settings,
            &mut self.triggers,
            triggers,
        ) else {
            return Err(Refusal::NoMemory);
        };
        let Ok(number) = u32::try_from(self.numbers.vacant_key()) else {
            return Err(Refusal::NoMemory);
        };
        match grow(&mut self.index, alloc, number, &self.job_slots) {
            Ok(()) => Ok(()),
            Err(_) => Err(Refusal::NoMemory),
        }
    }

    /// Makes the job and its label's setting.
    fn made(
        &self,
        alloc: Global,
        def: Def,
        writes_setting: bool,
        triggers: Vec<Trigger>,
    ) -> Result<Ready, Refusal>
        requires sound { IsSound self.now }
        ensures made { IfOk result (IsMade self.now.reading self.now.numbers def writes_setting) }
        ensures triggers { IfOk result (λ ready. ready.triggers ≡ triggers) }
        ensures refused { IfErr result (λ refusal. refusal ≡ NoMemory) }
    {
        let setting = enabled(alloc, def.label(), writes_setting)?;
        match self.job_slot_of(alloc, def) {
            Ok(job_slot) => Ok(Ready {
                job_slot,
                setting,
                triggers,
            }),
            Err(refusal) => Err(refusal),
        }
    }

    /// The slot of a job that is loaded at the last clock reading, under the next number.
    fn job_slot_of(&self, alloc: Global, def: Def) -> Result<HeldSlot, Refusal>
        requires sound { IsSound self.now }
        ensures number { IfOk result (λ job_slot. job_slot.number ≡ self.now.numbers.vacant_key) }
        ensures same { IfOk result (λ job_slot. job_slot.def ≡ def) }
        ensures loaded { IfOk result (λ job_slot.
            Keeps job_slot.core.facts (Loaded (definition def) self.now.reading ∷ [])) }
        ensures stays { IfOk result (λ job_slot. job_slot.has_gone ≡ false) }
        ensures fresh { IfOk result (λ job_slot. job_slot.core.decided ≡ 0) }
        ensures refused { IfErr result (λ refusal. refusal ≡ NoMemory) }
    {
        let Ok(number) = u32::try_from(self.numbers.vacant_key()) else {
            return Err(Refusal::NoMemory);
        };
        let Ok(core) = JobCore::new(alloc, &def, self.reading) else {
            return Err(Refusal::NoMemory);
        };
        let job_slot = JobSlot {
            number,
            def,
            core,
            has_gone: false,
        };
        match HeldSlot::new(alloc, job_slot) {
            Ok(job_slot) => Ok(job_slot),
            Err(_) => Err(Refusal::NoMemory),
        }
    }

    /// Loads the job that was made ready, at its place among the others, and asks it alone.
    pub fn load(&mut self, ready: Ready)
        requires sound { IsWhole self.old }
        requires ready { IsReady (seen_table self.old) ready }
        ensures goes { GoesWithJob ready (seen_table self.old) (seen_table self.new) }
        ensures whole { IsWhole self.new }
    {
        let Ready {
            job_slot,
            setting,
            triggers,
        } = ready;
        let place = place_before(&self.job_slots, job_slot.lent().def.label());
        set_if(&mut self.settings, setting);
        self.enter(job_slot, triggers, place);
        make_way(&mut self.index.places, &self.job_slots, place);
        self.ask_at(place);
    }

    /// Puts the slot before the first with a greater label, which is this place, and gives its number out.
    fn enter(&mut self, job_slot: HeldSlot, triggers: Vec<Trigger>, place: usize)
        requires places { vec_len self.old.job_slots < vec_capacity self.old.job_slots }
        requires numbers { HasRoomFor self.old.numbers 1 }
        requires place { place ≡ place_for job_slot.def.label self.old.job_slots.items }
        requires listed { AreOrdered self.old.triggers.items }
        requires room { vec_len self.old.triggers + vec_len triggers
            ≤ vec_capacity self.old.triggers }
        ensures job_slots { self.new.job_slots.items ≡ job_slots_with job_slot self.old.job_slots.items }
        ensures count { vec_len self.new.job_slots ≡ vec_len self.old.job_slots + 1 }
        ensures orders { self.new.orders ≡ self.old.orders }
        ensures vacant { get self.old.numbers self.old.numbers.vacant_key ≡ None }
        ensures numbers { Updates self.old.numbers self.new.numbers self.old.numbers.vacant_key
            (Some tt) }
        ensures alike { IsAlike self.old self.new }
        ensures room { HasSameRoom (seen_table self.old) (seen_table self.new) }
        ensures index { self.new.index ≡ self.old.index }
        ensures period { HasPositivePeriod job_slot.def }
        ensures calendars { self.new.has_calendars
            ≡ (self.old.has_calendars || is_some_entry job_slot.def.calendar) }
        ensures exact { (test : Listed → Bool) → count_by test self.new.triggers.items
            ≡ count_by test self.old.triggers.items
            + count_by (λ trigger. test (under job_slot.number trigger)) triggers.items }
        ensures triggers { vec_len self.new.triggers
            ≡ vec_len self.old.triggers + vec_len triggers }
        ensures listed { AreOrdered self.new.triggers.items }
    {
        has_period(&job_slot.lent().def); // for the proof
        let _number = self.numbers.insert_reserved(());
        let fires = !job_slot.lent().def.calendar().is_empty();
        self.has_calendars = self.has_calendars || fires;
        enlist(&mut self.triggers, triggers, job_slot.number());
        match self.job_slots.insert(place, job_slot) {
            Ok(()) => {}
            Err(_) => unreachable!(),
        }
    }
}

/// Takes the memory that one more job with this number of triggers needs in the lists of the table: all but the index.
fn reserve_beside(
    job_slots: &mut Vec<HeldSlot>,
    orders: &mut Vec<Order>,
    numbers: &mut Slab<()>,
    settings: &mut Settings,
    listed: &mut Vec<Listed>,
    triggers: usize,
) -> Result<(), AllocError>
    requires { vec_len job_slots.old < MAX_JOBS }
    ensures job_slots { job_slots.new.items ≡ job_slots.old.items }
    ensures count { vec_len job_slots.new ≡ vec_len job_slots.old }
    ensures places { OnOk result (vec_len job_slots.new < vec_capacity job_slots.new) }
    ensures orders { orders.new.items ≡ orders.old.items }
    ensures more_orders { vec_capacity orders.old ≤ vec_capacity orders.new }
    ensures room { OnOk result (ORDERS * (vec_len job_slots.new + 1) ≤ vec_capacity orders.new) }
    ensures slots { numbers.new.slots ≡ numbers.old.slots }
    ensures numbers { OnOk result (HasRoomFor numbers.new 1) }
    ensures settings { settings.new.items ≡ settings.old.items }
    ensures setting { OnOk result (vec_len settings.new < vec_capacity settings.new) }
    ensures listed { listed.new.items ≡ listed.old.items }
    ensures triggers { OnOk result (vec_len listed.new + triggers ≤ vec_capacity listed.new) }
{
    let Ok(()) = job_slots.reserve(1) else {
        return Err(AllocError);
    };
    let Ok(()) = orders.reserve(ORDERS * (job_slots.len() + 1)) else {
        return Err(AllocError);
    };
    let Ok(()) = numbers.reserve(1) else {
        return Err(AllocError);
    };
    let Ok(()) = settings.reserve(1) else {
        return Err(AllocError);
    };
    listed.reserve(triggers)
}

/// The interval of a definition that was read is above 0, if it has one.
fn has_period(def: &Def)
    ensures { HasPositivePeriod def.now }
{
    let _seconds = def.start_interval();
}

/// Whether a load of a label is held back because it is disabled.
fn is_held_back(writes_setting: bool, force: bool, disabled: bool) -> bool
    ensures { result ≡ (not writes_setting && not force && disabled) }
{
    !writes_setting && !force && disabled
}

/// The setting that enables the label, if one is wanted.
fn enabled(alloc: Global, label: &str, writes_setting: bool) -> Result<Option<Setting>, Refusal>
    ensures made { IfOk result (λ setting. setting ≡ enabled_if writes_setting label.now) }
    ensures refused { IfErr result (λ refusal. refusal ≡ NoMemory) }
{
    if !writes_setting {
        return Ok(None);
    }
    match Text::copy_of(alloc, label) {
        Ok(label) => Ok(Some(Setting {
            label,
            disabled: false,
        })),
        Err(_) => Err(Refusal::NoMemory),
    }
}
