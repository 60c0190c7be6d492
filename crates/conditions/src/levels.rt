//! `KeepAlive` of launchd.plist(5): true, or its conditions `SuccessfulExit`, `Crashed` and `PathState`.

ghost use Rattle.std.specs.Prelude.{◌≡◌, ◌==◌, [], ◌∷◌, map, ◌++◌, Some, None, IfOk};
ghost use Rattle.std.specs.List.{find, list_any};
ghost use Rattle.std.specs.Option.{option_map};
ghost use Rattle.history_model.specs.Items.{History, Loaded, Saw, RunEnded};
ghost use Rattle.history_model.specs.Kinds.{is_stopping_order};
ghost use Rattle.history_model.specs.Levels.{is_success, is_crash_end, agrees, presence_holds, end_holds_of};
ghost use Rattle.history_model.specs.ByFacts.{seen_after};
ghost use Rattle.history_model.specs.Reasons.{exit_wants, crash_wants, state_that_holds};
ghost use Rattle.history_model.specs.DueByFacts.{any_seen, first_seen};
ghost use Rattle.conditions.specs.States.{wanted_of, last_observation, after_observation};
ghost use Rattle.history_model.specs.Definitions.{definition};

use history_model::definition::{Def, PathState};
use history_model::{Ended, LastEnd, Obs, Reading, Text};
use std::alloc::{AllocError, Global};
use std::marker::Model;

/// A path on whose presence a condition rests, and what was last seen there.
#[derive(Drop)]
pub struct State {
    path: Text,
    present: bool,
    last: Option<Obs>,
}

/// What KeepAlive says, and what its conditions look at.
#[derive(Drop)]
pub struct Conditions {
    keep_alive: bool,
    successful_exit: Option<bool>,
    crashed: Option<bool>,
    states: Vec<State>,
    last_end: Option<LastEnd>,
    has_crashed: bool,
}

impl Model for Conditions {
    ghost use Rattle.conditions.specs.ConditionFacts.{ConditionFacts};

    ghost Value = { ConditionFacts };

    ghost use Rattle.std.specs.Prelude.{map};
    ghost use Rattle.conditions.specs.States.{wanted_of, last_observation};

    ghost view = { λ c. record {
      keep_alive = c.keep_alive;
      successful_exit = c.successful_exit;
      crashed = c.crashed;
      path_state = map wanted_of c.states.items;
      seen = map last_observation c.states.items;
      ended = c.last_end;
      has_crashed = c.has_crashed;
    } };
}

impl Conditions {
    ghost use Rattle.conditions.specs.ConditionFacts.{ConditionFacts, kept_of, conditions_hold, holds_by};
    ghost use Rattle.conditions.specs.States.{wanted_of, last_observation, after_observation};

    /// The conditions of a definition, before any exit and any path check. The one refusal is of memory.
    pub fn new(alloc: Global, def: &Def) -> Result<Conditions, AllocError>
        ensures { IfOk result (λ c. (at : Reading) →
            c ≡ kept_of (Loaded (definition def.now) at ∷ [])) }
    {
        Ok(Conditions {
            keep_alive: def.keep_alive(),
            successful_exit: def.successful_exit(),
            crashed: def.crashed(),
            states: states_of(alloc, def.path_state())?,
            last_end: None,
            has_crashed: false,
        })
    }

    /// Takes in what was seen at a path; nothing changes if no condition looks at it.
    pub fn saw(&mut self, path: &str, obs: Obs)
        ensures step { self.new ≡ record self.old
            { seen = seen_after (λ s. s.path) self.old.path_state path.now obs self.old.seen } }
        ensures past { (past : History) → self.old ≡ kept_of past →
            self.new ≡ kept_of (Saw path.now obs ∷ past) }
    {
        see(&mut self.states, path, obs);
    }

    /// Takes in how a run ended, and whether TERM or KILL was ordered for it. An end by signal 3 to 8, 11 or 31 is a crash,
    /// and one by an unknown signal if neither was ordered.
    pub fn ended(&mut self, run: u64, how: Ended, is_ordered_to_end: bool)
        ensures step { self.new ≡ record self.old
            { ended = Some (record { run = run; how = how }); has_crashed = is_crash_end is_ordered_to_end how } }
        ensures past { (past : History) → self.old ≡ kept_of past →
            is_ordered_to_end ≡ list_any (is_stopping_order run) past →
            self.new ≡ kept_of (RunEnded run how ∷ past) }
    {
        self.last_end = Some(LastEnd { run, how });
        self.has_crashed = match how {
            Ended::Code(_) => false,
            Ended::Signal(n) => matches!(n, 3..=8 | 11 | 31) || (n == 0 && !is_ordered_to_end),
        };
    }

    /// Whether `KeepAlive` is true, or one of its conditions holds. Before the first exit no condition on exits holds, and before
    /// the first check of a path none on that path.
    pub fn holds(&self) -> bool
        ensures step { result ≡ holds_by self.now }
        ensures past { (past : History) → self.now ≡ kept_of past → result ≡ conditions_hold past }
    {
        let of_end = end_holds(
            self.successful_exit,
            self.crashed,
            self.last_end,
            self.has_crashed,
        );
        let of_paths = self.path_holds();
        self.keep_alive || of_end || of_paths
    }

    /// Whether `KeepAlive` is true.
    pub fn is_kept_alive(&self) -> bool
        ensures { result ≡ self.now.keep_alive }
    {
        self.keep_alive
    }

    /// Whether the last end is as `SuccessfulExit` says.
    pub fn exit_wants(&self) -> bool
        ensures { result ≡ exit_wants self.now.successful_exit self.now.ended }
    {
        match self.last_end {
            None => false,
            Some(end) => agrees(self.successful_exit, is_success(end.how)),
        }
    }

    /// Whether the last end is as `Crashed` says.
    pub fn crash_wants(&self) -> bool
        ensures { result ≡ crash_wants self.now.crashed self.now.has_crashed self.now.ended }
    {
        self.last_end.is_some() && agrees(self.crashed, self.has_crashed)
    }

    /// Whether a path was last seen as its condition wants it.
    pub fn path_holds(&self) -> bool
        ensures { result ≡ any_seen
            (λ state. presence_holds state.present) self.now.path_state self.now.seen }
    {
        any_holds(self.states.as_slice())
    }

    /// The first path, in the order of the definition, that was last seen as its condition wants it.
    pub fn path_that_holds(&self) -> Option<&str>
        ensures step { option_map (λ path. path.now) result
            ≡ option_map (λ state. state.path)
            (first_seen (λ state. presence_holds state.present) self.now.path_state self.now.seen) }
        ensures past { (past : History) → self.now ≡ kept_of past →
            option_map (λ path. path.now) result ≡ state_that_holds past }
    {
        match first_that_holds(self.states.as_slice()) {
            Some(state) => Some(state.path.as_str()),
            None => None,
        }
    }

    /// The last end, with its run.
    pub fn last_end(&self) -> Option<LastEnd>
        ensures { result ≡ self.now.ended }
    {
        self.last_end
    }
}

fn states_of(alloc: Global, listed: &[PathState]) -> Result<Vec<State>, AllocError>
    ensures wanted { IfOk result (λ v. map wanted_of v.items ≡ listed.now) }
    ensures unseen { IfOk result (λ v. map last_observation v.items ≡ map (λ _. None) listed.now) }
{
    let mut states = Vec::new(alloc);
    for state in listed {
        states.push(State {
            path: Text::copy_of(alloc, state.path.as_str())?,
            present: state.present,
            last: None,
        })?;
    }
    Ok(states)
}

fn see(states: &mut Vec<State>, path: &str, obs: Obs)
    ensures { states.new.items ≡ map (after_observation path.now obs) states.old.items }
{
    for state in states.iter_mut() {
        if state.path.as_str() == path {
            state.last = Some(obs);
        }
    }
}

/// Whether a condition on the last end holds.
fn end_holds(
    successful_exit: Option<bool>,
    crashed: Option<bool>,
    last_end: Option<LastEnd>,
    has_crashed: bool,
) -> bool
    ensures { result ≡ end_holds_of successful_exit crashed has_crashed last_end }
{
    match last_end {
        None => false,
        Some(end) => {
            agrees(successful_exit, is_success(end.how)) || agrees(crashed, has_crashed)
        }
    }
}

/// Whether a run ended with the code 0.
fn is_success(how: Ended) -> bool
    ensures { result ≡ is_success how }
{
    matches!(how, Ended::Code(0))
}

/// Whether a value is given, and is this one.
fn agrees(wanted: Option<bool>, value: bool) -> bool
    ensures { result ≡ agrees wanted value }
{
    match wanted {
        None => false,
        Some(wanted) => wanted == value,
    }
}

fn any_holds(states: &[State]) -> bool
    ensures { result ≡ list_any (λ s. presence_holds s.present s.last) states.now }
{
    states
        .iter()
        .any(|s| s.last.is_some_and(|obs| obs.present == s.present))
}

/// Whether the path was last seen as its condition wants it.
fn is_as_wanted(state: &State) -> bool
    ensures { result ≡ presence_holds state.now.present state.now.last }
{
    state.last.is_some_and(|obs| obs.present == state.present)
}

/// The first state whose path was last seen as its condition wants it.
fn first_that_holds(states: &[State]) -> Option<&State>
    ensures { option_map (λ state. state.now) result
        ≡ find (λ s. presence_holds s.present s.last) states.now }
{
    states.iter().find(|state| is_as_wanted(state))
}
