//! What was seen at one path of `WatchPaths`, and at one of `QueueDirectories` (launchd.plist(5)).

ghost use Rattle.std.specs.Prelude.{◌≡◌, ℕ, List, Some, None, ◌∷◌};
ghost use Rattle.history_model.specs.Items.{History, Saw};
ghost use Rattle.history_model.specs.Demands.{differs, last_seen};
ghost use Rattle.history_model.specs.Levels.{queue_holds};

use history_model::Obs;
use std::marker::Model;

/// A watched path: to a contract, what was last seen there.
#[derive(Drop)]
pub struct Watch {
    last: Option<Obs>,
}

impl Model for Watch {
    ghost use Rattle.std.specs.Prelude.{Option};
    ghost use Rattle.history_model.specs.declared.Obs.{Obs};

    ghost Value = { Option Obs };

    ghost view = { λ w. w.last };
}

impl Watch {
    /// A path that was not seen yet.
    pub fn new() -> Watch
        ensures { result ≡ None }
    {
        Watch { last: None }
    }

    /// Takes in what was seen. Returns whether that makes a start request: the path was seen before, and its presence or its
    /// stamp has changed since. The first observation is what later ones are compared with.
    pub fn saw(&mut self, obs: Obs) -> bool
        ensures fires { result ≡ differs obs self.old }
        ensures seen { self.new ≡ Some obs }
        ensures past { (path : List ℕ) (past : History) → self.old ≡ last_seen path past →
            (result ≡ differs obs (last_seen path past))
            × (self.new ≡ last_seen path (Saw path obs ∷ past)) }
    {
        let fires = match self.last {
            None => false,
            Some(before) => before.present != obs.present || before.stamp != obs.stamp,
        };
        self.last = Some(obs);
        fires
    }
}

/// A queue directory: to a contract, what was last seen there.
#[derive(Drop)]
pub struct Queue {
    last: Option<Obs>,
}

impl Model for Queue {
    ghost use Rattle.std.specs.Prelude.{Option};
    ghost use Rattle.history_model.specs.declared.Obs.{Obs};

    ghost Value = { Option Obs };

    ghost view = { λ q. q.last };
}

impl Queue {
    /// A directory that was not seen yet.
    pub fn new() -> Queue
        ensures { result ≡ None }
    {
        Queue { last: None }
    }

    /// Takes in what was seen.
    pub fn saw(&mut self, obs: Obs)
        ensures step { self.new ≡ Some obs }
        ensures past { (path : List ℕ) (past : History) →
            self.new ≡ last_seen path (Saw path obs ∷ past) }
    {
        self.last = Some(obs);
    }

    /// Whether the directory was last seen with something in it.
    pub fn holds(&self) -> bool
        ensures step { result ≡ queue_holds self.now }
        ensures past { (path : List ℕ) (past : History) → self.now ≡ last_seen path past →
            result ≡ queue_holds (last_seen path past) }
    {
        match self.last {
            None => false,
            Some(obs) => obs.nonempty_dir,
        }
    }
}
