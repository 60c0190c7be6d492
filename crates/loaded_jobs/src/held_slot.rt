//! A place of the table as the list of places holds it: a pointer.

ghost use Rattle.std.specs.Prelude.{◌≡◌, ◌≤◌, ◌+◌, ◌%◌, ◌^◌, ◌++◌, ◌∷◌, List, IfOk, OnOk, OnErr, cond, false, is_some, true};
ghost use Rattle.std.specs.List.{list_all};
ghost use Rattle.std.specs.Vec.{vec_capacity, vec_len};
ghost use Rattle.history_model.specs.declared.TheConstants.{MAX_UP};
ghost use Rattle.history_model.specs.Items.{History};
ghost use Rattle.history_model.specs.Runs.{is_gone};
ghost use Rattle.history_model.specs.Due.{due};
ghost use Rattle.history_model.specs.FactsOfPast.{Keeps, ordered, reply};
ghost use Rattle.history_model.specs.Refusals.{refusal_of};
ghost use Rattle.history_model.specs.Step.{acts_of};
ghost use Rattle.history_model.specs.Clock as clock;
ghost use Rattle.history_model.specs.JobItems.{item_of};
ghost use Rattle.job_core.specs.Memory.{NeedsNoMemory};
ghost use Rattle.loaded_jobs.specs.declared.job_slot.TheConstants.{ORDERS};
ghost use Rattle.loaded_jobs.specs.StandsFor.{numbered_orders};
ghost use Rattle.loaded_jobs.specs.AffectedJobs.{item_for};
ghost use Rattle.loaded_jobs.specs.Visiting.{IsVisit};
ghost use Rattle.loaded_jobs.specs.JobSlots.{name};
ghost use Rattle.loaded_jobs.specs.Tables.{Name, definition_of_number, is_known};

use crate::job_slot::{AffectedJobs, JobSlot};
use history_model::{JobItem, JobNo, Order, Reading, Refusal};
use job_core::JobEvent;
use std::alloc::{AllocError, Global};
use std::marker::Model;

/// A job slot in a block of its own. A list of such slots moves by `memmove` where a job comes or leaves, since each is one pointer.
#[derive(Drop)]
pub struct HeldSlot {
    pub slot: Box<JobSlot>,
}

impl Model for HeldSlot {
    ghost use Rattle.loaded_jobs.specs.declared.job_slot.JobSlot.{JobSlot};

    ghost Value = { JobSlot };

    ghost view = { λ held. held.slot.value };
}

impl HeldSlot {
    /// Puts the slot into a block.
    pub fn new(alloc: Global, slot: JobSlot) -> Result<HeldSlot, AllocError>
        ensures { IfOk result (λ held. held ≡ slot) }
    {
        match Box::new(alloc, slot) {
            Ok(slot) => Ok(HeldSlot { slot }),
            Err(_) => Err(AllocError),
        }
    }

    /// The slot, lent.
    pub fn lent(&self) -> &JobSlot
        ensures { result.now ≡ self.now }
    {
        &self.slot
    }

    /// The number of the job.
    pub fn number(&self) -> JobNo
        ensures { result ≡ self.now.number }
    {
        self.slot.number
    }

    /// Whether the job was removed.
    pub fn has_gone(&self) -> bool
        ensures { result ≡ self.now.has_gone }
    {
        self.slot.has_gone
    }

    /// Delivers to the job what happened to it.
    pub fn receive_item(&mut self, item: JobItem, now: Reading) -> Result<(), Refusal>
        requires { now.up ≤ MAX_UP }
        ensures refused { (past : History) → Keeps self.old.core.facts past → now ≡ clock.now past →
            result ≡ reply (refusal_of (item_of item) past) }
        ensures kept { (past : History) → Keeps self.old.core.facts past → now ≡ clock.now past →
            OnOk result (Keeps self.new.core.facts (item_of item ∷ past)) }
        ensures unchanged { OnErr result (self.new ≡ self.old) }
        ensures decided { self.new.core.decided ≡ self.old.core.decided }
        ensures name { name self.new ≡ name self.old }
        ensures stays { self.new.has_gone ≡ self.old.has_gone }
        ensures memory { NeedsNoMemory result }
    {
        self.slot.core.event(JobEvent::Item(item), now)
    }

    /// Takes in what the touch is for this job, and asks it for its orders.
    pub fn visit(
        &mut self,
        affected: AffectedJobs<'_>,
        before: Reading,
        now: Reading,
        orders: &mut Vec<Order>,
    )
        requires before_in_range { before.up ≤ MAX_UP }
        requires in_range { now.up ≤ MAX_UP }
        requires room { vec_len orders.old + ORDERS ≤ vec_capacity orders.old }
        ensures visit { IsVisit before now (item_for affected.entry self.old.def)
            self.old self.new orders.old.items orders.new.items }
        ensures decided { self.new.core.decided
            ≡ cond self.new.has_gone self.old.core.decided ((self.old.core.decided + 1) % 2 ^ 64) }
        ensures known { (names : List Name) →
            is_some (definition_of_number names self.old.number) ≡ true →
            list_all (is_known names) orders.old.items ≡ true →
            list_all (is_known names) orders.new.items ≡ true }
        ensures name { name self.new ≡ name self.old }
        ensures count { vec_len orders.new ≤ vec_len orders.old + ORDERS }
        ensures capacity { vec_capacity orders.new ≡ vec_capacity orders.old }
    {
        self.slot.visit(affected, before, now, orders);
    }

    /// Asks the job for its orders.
    pub fn ask(&mut self, now: Reading, orders: &mut Vec<Order>)
        requires in_range { now.up ≤ MAX_UP }
        requires room { vec_len orders.old + ORDERS ≤ vec_capacity orders.old }
        ensures orders { (past : History) → Keeps self.old.core.facts past → now ≡ clock.now past →
            orders.new.items ≡ orders.old.items ++ numbered_orders self.old.number (acts_of past) }
        ensures going { (past : History) → Keeps self.old.core.facts past → now ≡ clock.now past →
            self.new.has_gone ≡ is_gone past }
        ensures kept { (past : History) → Keeps self.old.core.facts past → now ≡ clock.now past →
            is_gone past ≡ false →
            Keeps self.new.core.facts (ordered (due past) past) }
        ensures decided { self.new.core.decided
            ≡ cond self.new.has_gone self.old.core.decided ((self.old.core.decided + 1) % 2 ^ 64) }
        ensures known { (names : List Name) →
            is_some (definition_of_number names self.old.number) ≡ true →
            list_all (is_known names) orders.old.items ≡ true →
            list_all (is_known names) orders.new.items ≡ true }
        ensures name { name self.new ≡ name self.old }
        ensures count { vec_len orders.new ≤ vec_len orders.old + ORDERS }
        ensures capacity { vec_capacity orders.new ≡ vec_capacity orders.old }
    {
        self.slot.ask(now, orders);
    }
}
