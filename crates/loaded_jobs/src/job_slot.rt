//! One place of the table: a job with its definition and its number.

ghost use Rattle.std.specs.Prelude.{◌≡◌, false, ◌<◌, Some, cond, ◌+◌, ◌%◌, ◌^◌, ◌≤◌, ◌∷◌, ◌++◌, [], map, List, is_some, true};
ghost use Rattle.loaded_jobs.specs.declared.job_slot.TheConstants.{ORDERS};
ghost use Rattle.std.specs.Vec.{vec_capacity, vec_len};
ghost use Rattle.history_model.specs.declared.TheConstants.{MAX_UP};
ghost use Rattle.history_model.specs.Items.{History};
ghost use Rattle.history_model.specs.Runs.{is_gone};
ghost use Rattle.std.specs.List.{list_any, list_all};
ghost use Rattle.history_model.specs.Demands.{waiting, is_same_path};
ghost use Rattle.history_model.specs.Due.{due};
ghost use Rattle.history_model.specs.FactsOfPast.{Keeps, ordered};
ghost use Rattle.history_model.specs.Step.{acts_of, lists};
ghost use Rattle.history_model.specs.Clock as clock;
ghost use Rattle.history_model.specs.Definitions.{definition};
ghost use Rattle.job_core.specs.JobEvents.{item_of_event};
ghost use Rattle.loaded_jobs.specs.StandsFor.{numbered_orders};
ghost use Rattle.loaded_jobs.specs.AffectedJobs.{item_for};
ghost use Rattle.loaded_jobs.specs.Receiving.{IsReceived};
ghost use Rattle.loaded_jobs.specs.Visiting.{IsVisit};
ghost use Rattle.loaded_jobs.specs.JobSlots.{name};
ghost use Rattle.loaded_jobs.specs.Tables.{Name, definition_of_number, is_known};

use calendar_due::Calendar;
use history_model::definition::{Def, PathState};
use history_model::{
    Act, Ask, CivilMinute, JobItem, JobNo, MAX_CONNECTIONS, Obs, Order, Reading, Text,
};
use job_core::{JobCore, JobEvent};

/// How many orders one job gives at most in a step: the close of each connection that waits, one order more, and the order of its
/// removal.
pub const ORDERS: usize = MAX_CONNECTIONS + 2;

/// A job with its definition and its number. One that was removed stays until the next event.
pub struct JobSlot {
    pub number: JobNo,
    pub def: Def,
    pub core: JobCore,
    pub has_gone: bool,
}

// for the proof: the owner that drops it calls this, in place of a drop of each part
impl Drop for JobSlot {
    fn drop(self) {
        let JobSlot {
            number: _,
            def: _,
            core: _,
            has_gone: _,
        } = self;
    }
}

/// How an event touches the jobs that it is for: what they hear of it.
#[derive(Clone, Copy)]
pub enum AffectedJobs<'a> {
    /// The launcher shuts down.
    Shutdown,
    /// The clock, and the civil minutes that it crossed.
    Reading(Reading, &'a [CivilMinute]),
    /// A look at a path, which counts for the jobs that list it.
    Observation(&'a str, Obs),
}

impl JobSlot {
    /// Takes in what the touch is for this job. It hears nothing that it refuses.
    pub fn receive(&mut self, affected: AffectedJobs<'_>, now: Reading)
        requires { now.up ≤ MAX_UP }
        ensures { IsReceived now (item_for affected.entry self.old.def) self.old self.new }
    {
        match affected {
            AffectedJobs::Shutdown => self.apply(
                JobEvent::Item(JobItem::Asked(Ask::Shutdown)),
                now,
            ),
            AffectedJobs::Reading(at, minutes) => {
                let fires = Calendar::fires(self.def.calendar(), minutes);
                self.apply(JobEvent::Read(at, fires), now);
            }
            AffectedJobs::Observation(path, obs) => {
                if lists(&self.def, path) {
                    self.apply(JobEvent::Saw(path, obs), now);
                }
            }
        }
    }

    /// Takes in an event that the job does not refuse.
    fn apply(&mut self, event: JobEvent<'_>, now: Reading)
        requires { now.up ≤ MAX_UP }
        ensures { IsReceived now (Some (item_of_event event.entry)) self.old self.new }
    {
        let _accepted = self.core.event(event, now);
    }

    /// Takes in what the touch is for this job, and asks it for its orders.
    pub fn visit(
        &mut self,
        affected: AffectedJobs<'_>,
        before: Reading,
        now: Reading,
        orders: &mut Vec<Order>,
    )
        requires before_in_range { before.up ≤ MAX_UP }
        requires in_range { now.up ≤ MAX_UP }
        requires room { vec_len orders.old + ORDERS ≤ vec_capacity orders.old }
        ensures visit { IsVisit before now (item_for affected.entry self.old.def)
            self.old self.new orders.old.items orders.new.items }
        ensures decided { self.new.core.decided
            ≡ cond self.new.has_gone self.old.core.decided ((self.old.core.decided + 1) % 2 ^ 64) }
        ensures known { (names : List Name) →
            is_some (definition_of_number names self.old.number) ≡ true →
            list_all (is_known names) orders.old.items ≡ true →
            list_all (is_known names) orders.new.items ≡ true }
        ensures name { name self.new ≡ name self.old }
        ensures count { vec_len orders.new ≤ vec_len orders.old + ORDERS }
        ensures capacity { vec_capacity orders.new ≡ vec_capacity orders.old }
    {
        self.receive(affected, before);
        self.ask(now, orders);
    }

    /// Asks the job for its orders. One that is to be removed closes its connections and leaves.
    pub fn ask(&mut self, now: Reading, orders: &mut Vec<Order>)
        requires in_range { now.up ≤ MAX_UP }
        requires room { vec_len orders.old + ORDERS ≤ vec_capacity orders.old }
        ensures orders { (past : History) → Keeps self.old.core.facts past → now ≡ clock.now past →
            orders.new.items ≡ orders.old.items ++ numbered_orders self.old.number (acts_of past) }
        ensures going { (past : History) → Keeps self.old.core.facts past → now ≡ clock.now past →
            self.new.has_gone ≡ is_gone past }
        ensures kept { (past : History) → Keeps self.old.core.facts past → now ≡ clock.now past →
            is_gone past ≡ false →
            Keeps self.new.core.facts (ordered (due past) past) }
        ensures decided { self.new.core.decided
            ≡ cond self.new.has_gone self.old.core.decided ((self.old.core.decided + 1) % 2 ^ 64) }
        ensures known { (names : List Name) →
            is_some (definition_of_number names self.old.number) ≡ true →
            list_all (is_known names) orders.old.items ≡ true →
            list_all (is_known names) orders.new.items ≡ true }
        ensures name { name self.new ≡ name self.old }
        ensures count { vec_len orders.new ≤ vec_len orders.old + ORDERS }
        ensures capacity { vec_capacity orders.new ≡ vec_capacity orders.old }
    {
        self.has_gone = self.core.is_gone();
        if self.has_gone {
            self.leave(orders);
        } else if let Some(act) = self.core.decide(now) {
            orders.push_reserved(Order {
                job: self.number,
                act,
            });
        }
    }

    /// Closes the waiting connections in order of arrival, and orders the job's removal.
    fn leave(&self, orders: &mut Vec<Order>)
        requires room { vec_len orders.old + ORDERS ≤ vec_capacity orders.old }
        ensures orders { (past : History) → Keeps self.now.core.facts past →
            orders.new.items
            ≡ orders.old.items
            ++ numbered_orders self.now.number (map Act.Close (waiting past) ++ Act.Gone ∷ []) }
        ensures known { (names : List Name) →
            is_some (definition_of_number names self.now.number) ≡ true →
            list_all (is_known names) orders.old.items ≡ true →
            list_all (is_known names) orders.new.items ≡ true }
        ensures count { vec_len orders.new ≤ vec_len orders.old + ORDERS }
        ensures capacity { vec_capacity orders.new ≡ vec_capacity orders.old }
    {
        let mut place = 0;
        while let Some(conn) = self.core.connection(place) {
            orders.push_reserved(Order {
                job: self.number,
                act: Act::Close { conn },
            });
            place += 1;
        }
        orders.push_reserved(Order {
            job: self.number,
            act: Act::Gone,
        });
    }
}

/// Whether the definition lists the path: in `PathState`, `WatchPaths` or `QueueDirectories`.
fn lists(def: &Def, path: &str) -> bool
    ensures { result ≡ lists (definition def.now) path.now }
{
    if has_state(def.path_state(), path) {
        return true;
    }
    if has_path(def.watch_paths(), path) {
        return true;
    }
    has_path(def.queue_directories(), path)
}

fn has_state(states: &[PathState], path: &str) -> bool
    ensures { result ≡ list_any (λ wish. is_same_path path.now wish.path) states.now }
{
    states.iter().any(|state| path == state.path.as_str())
}

fn has_path(paths: &[Text], path: &str) -> bool
    ensures { result ≡ list_any (is_same_path path.now) paths.now }
{
    paths.iter().any(|listed| path == listed.as_str())
}
