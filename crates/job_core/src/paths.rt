//! The paths that a job lists in `WatchPaths` and `QueueDirectories`, each with what was last seen there.

ghost use Rattle.std.specs.Prelude.{◌≡◌, [], ◌∷◌, map, ◌++◌, ◌&&◌, None, IfOk};
ghost use Rattle.std.specs.List.{find, list_any};
ghost use Rattle.std.specs.Option.{option_map};
ghost use Rattle.history_model.specs.Demands.{is_same_path, differs};
ghost use Rattle.history_model.specs.Levels.{queue_holds};
ghost use Rattle.history_model.specs.ByFacts.{seen_after};
ghost use Rattle.history_model.specs.DueByFacts.{any_seen, first_seen};
ghost use Rattle.job_core.specs.ListedPaths.{watched_path, watched_observation, watched_after_observation, queue_path, queue_observation, queue_after};

use conditions::{Queue, Watch};
use history_model::{Obs, Text};
use std::alloc::{AllocError, Global};
use std::marker::Model;

#[derive(Drop)]
pub struct Watched {
    path: Text,
    watch: Watch,
}

/// The watched paths: to a contract, the paths and what was last seen at each.
#[derive(Drop)]
pub struct Watches {
    listed: Vec<Watched>,
}

impl Model for Watches {
    ghost use Rattle.job_core.specs.Observations.{Observations};

    ghost Value = { Observations };

    ghost use Rattle.std.specs.Prelude.{map};
    ghost use Rattle.job_core.specs.ListedPaths.{watched_path, watched_observation};

    ghost view = { λ w. record
        { paths = map watched_path w.listed.items; seen = map watched_observation w.listed.items } };
}

impl Watches {
    ghost use Rattle.job_core.specs.Observations.{Observations, unseen};

    pub fn new(alloc: Global, paths: &[Text]) -> Result<Watches, AllocError>
        ensures { IfOk result (λ w. w ≡ unseen paths.now) }
    {
        Ok(Watches {
            listed: watches_of(alloc, paths)?,
        })
    }

    /// Takes in what was seen at a path, and returns whether that makes a start request.
    pub fn saw(&mut self, path: &str, obs: Obs) -> bool
        ensures fires { result ≡ any_seen
            (λ watched before. is_same_path watched path.now && differs obs before) self.old.paths
            self.old.seen }
        ensures seen { self.new ≡ record self.old
            { seen = seen_after (λ p. p) self.old.paths path.now obs self.old.seen } }
    {
        watch(&mut self.listed, path, obs)
    }
}

fn watches_of(alloc: Global, paths: &[Text]) -> Result<Vec<Watched>, AllocError>
    ensures paths { IfOk result (λ v. map watched_path v.items ≡ paths.now) }
    ensures unseen { IfOk result (λ v. map watched_observation v.items ≡ map (λ _. None) paths.now) }
{
    let mut listed = Vec::new(alloc);
    for path in paths {
        listed.push(Watched {
            path: Text::copy_of(alloc, path.as_str())?,
            watch: Watch::new(),
        })?;
    }
    Ok(listed)
}

fn watch(listed: &mut Vec<Watched>, path: &str, obs: Obs) -> bool
    ensures fires { result ≡ list_any
        (λ w. is_same_path w.path path.now && differs obs w.watch) listed.old.items }
    ensures seen { listed.new.items ≡ map (watched_after_observation path.now obs) listed.old.items }
{
    let mut fires = false;
    for watched in listed.iter_mut() {
        if watched.path.as_str() == path {
            let differs = watched.watch.saw(obs);
            fires = fires || differs;
        }
    }
    fires
}

#[derive(Drop)]
pub struct QueueDirectory {
    path: Text,
    queue: Queue,
}

/// The queue directories: to a contract, the paths and what was last seen at each.
#[derive(Drop)]
pub struct Queues {
    listed: Vec<QueueDirectory>,
}

impl Model for Queues {
    ghost use Rattle.job_core.specs.Observations.{Observations};

    ghost Value = { Observations };

    ghost use Rattle.std.specs.Prelude.{map};
    ghost use Rattle.job_core.specs.ListedPaths.{queue_path, queue_observation};

    ghost view = { λ q. record
        { paths = map queue_path q.listed.items; seen = map queue_observation q.listed.items } };
}

impl Queues {
    ghost use Rattle.job_core.specs.Observations.{Observations, unseen};

    pub fn new(alloc: Global, paths: &[Text]) -> Result<Queues, AllocError>
        ensures { IfOk result (λ q. q ≡ unseen paths.now) }
    {
        Ok(Queues {
            listed: queues_of(alloc, paths)?,
        })
    }

    pub fn saw(&mut self, path: &str, obs: Obs)
        ensures { self.new ≡ record self.old
            { seen = seen_after (λ p. p) self.old.paths path.now obs self.old.seen } }
    {
        see(&mut self.listed, path, obs);
    }

    /// Whether a directory was last seen with something in it.
    pub fn holds(&self) -> bool
        ensures { result ≡ any_seen (λ path. queue_holds) self.now.paths self.now.seen }
    {
        any_holds(self.listed.as_slice())
    }

    /// The first directory, in the order of the definition, that was last seen with something in it.
    pub fn path_that_holds(&self) -> Option<&str>
        ensures { option_map (λ path. path.now) result
            ≡ first_seen (λ path. queue_holds) self.now.paths self.now.seen }
    {
        match first_that_holds(self.listed.as_slice()) {
            Some(directory) => Some(directory.path.as_str()),
            None => None,
        }
    }
}

fn queues_of(alloc: Global, paths: &[Text]) -> Result<Vec<QueueDirectory>, AllocError>
    ensures paths { IfOk result (λ v. map queue_path v.items ≡ paths.now) }
    ensures unseen { IfOk result (λ v. map queue_observation v.items ≡ map (λ _. None) paths.now) }
{
    let mut listed = Vec::new(alloc);
    for path in paths {
        listed.push(QueueDirectory {
            path: Text::copy_of(alloc, path.as_str())?,
            queue: Queue::new(),
        })?;
    }
    Ok(listed)
}

fn see(listed: &mut Vec<QueueDirectory>, path: &str, obs: Obs)
    ensures { listed.new.items ≡ map (queue_after path.now obs) listed.old.items }
{
    for directory in listed.iter_mut() {
        if directory.path.as_str() == path {
            directory.queue.saw(obs);
        }
    }
}

fn any_holds(listed: &[QueueDirectory]) -> bool
    ensures { result ≡ list_any (λ q. queue_holds q.queue) listed.now }
{
    listed.iter().any(|q| q.queue.holds())
}

fn first_that_holds(listed: &[QueueDirectory]) -> Option<&QueueDirectory>
    ensures { option_map (λ q. q.now) result ≡ find (λ q. queue_holds q.queue) listed.now }
{
    listed.iter().find(|q| q.queue.holds())
}
