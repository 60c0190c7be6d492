//! The paths that jobs list, each checked once a second. Nobody waits for what is there: the loop asks about paths. It
//! checks each once the answer is known, in this pass or in later ones.

ghost use Rattle.std.specs.Prelude.{◌≡◌, ◌≤◌, ◌<◌, ◌+◌, ◌-◌, ◌^◌, min, ℕ, IsTrue, true, false, [], None, Some, MatchOption, IfOk, Option, List};
ghost use Rattle.std.specs.String.{string_capacity};
ghost use Rattle.live_loop.specs.Looks.{Looks, LooksOn, WalksOn, Starts, Begins, Questions, IsEmpty, IsLast, IsNoted, IsKept, known_after};

use crate::loop_host::PathHost;
use history_model::{Obs, SECOND};
use std::alloc::{AllocError, Global};
use std::collections::BTreeMap;
use std::mem;

/// How many milliseconds of `up` lie between two series of path checks.
const BETWEEN: u64 = SECOND;

/// How many milliseconds pass before it is asked again whether it is known what is at a path.
const SOON: u64 = 2;

/// How many bytes a path has at most.
const LONGEST_PATH: usize = 1_024;

/// How many paths are asked about at most, and checked, before the loop goes on to other things.
const ASKED: u32 = 1_024;

const LOOKS: u32 = 256;

/// What was last seen at each path and delivered. An observation that is equal to the last one is not delivered again,
/// unless a job was loaded since.
#[derive(Drop)]
pub struct Observations {
    alloc: Global,
    seen: BTreeMap<String, Obs>,
    // The path of the last check, and that of the last question; and a room.
    path: String,
    asked: String,
    room: String,
    is_walking: bool,
    next: u64,
    later: u64,
    ghost path_room: { 1024 ≤ string_capacity path },
    ghost asked_room: { 1024 ≤ string_capacity asked },
    ghost room_room: { 1024 ≤ string_capacity room },
}

impl Observations {
    ghost use Rattle.live_loop.specs.Observing.{known_in, path_in, room_in, walk_in, next_in, later_in, later_after, IsNextLook, IsStill};

    /// Nothing was delivered yet.
    pub fn new(alloc: Global) -> Result<Observations, AllocError>
        ensures { IfOk result (λ observations. IsEmpty (known_in observations)) }
    {
        let path = String::with_capacity(alloc, LONGEST_PATH)?;
        let asked = String::with_capacity(alloc, LONGEST_PATH)?;
        let room = String::with_capacity(alloc, LONGEST_PATH)?;
        Ok(Observations {
            alloc,
            seen: BTreeMap::new(alloc),
            path,
            asked,
            room,
            is_walking: false,
            next: 0,
            later: 0,
        })
    }

    /// The time of `up` of the next check, if a path is listed.
    pub fn next_look<H: PathHost>(&self, host: &H) -> Option<u64>
        ensures { MatchOption result (H.IsNext host.now [] None)
            (λ at. (at ≡ next_in self.now) × ((path : List ℕ) × H.IsNext host.now [] (Some path))) }
    {
        match host.path_after("") {
            None => None,
            Some(_) => Some(self.next),
        }
    }

    /// Checks each listed path, in byte order, and delivers what is new; a refused check is not an event. A series of
    /// checks begins if it is time. It goes on as far as the answers for the paths are known, and for 256 paths at
    /// most. Then the next call goes on with it, two milliseconds later or at once. It says whether a series of checks
    /// began.
    pub fn look<H: PathHost>(&mut self, alloc: Global, host: &mut H) -> bool
        ensures early { H.round_up host.old < next_in self.old →
            (result ≡ false) × (host.new ≡ host.old) × (self.new ≡ self.old) }
        ensures due { next_in self.old ≤ H.round_up host.old →
            (later_in self.new ≡ later_after (walk_in self.old) (H.round_up host.old) (later_in self.old))
            × IsNextLook (walk_in self.new) (H.round_up host.old) (later_in self.new) (next_in self.new)
            × LooksOn H.IsNext H.Did (walk_in self.old) host.old (known_in self.old)
            (walk_in self.new) host.new (known_in self.new) }
    {
        let up = host.up();
        if up < self.next {
            return false;
        }
        let begins = !self.is_walking;
        self.start(host, up);
        self.ask_ahead(host);
        let waits = self.walk(alloc, host);
        self.next = moment_of(self.is_walking, waits, up, self.later);
        begins
    }

    // Begins a series of checks, if none goes on. It takes a load into account that was accepted while one went on.
    fn start<H: PathHost>(&mut self, host: &mut H, up: u64)
        ensures begins { Begins H.IsNext H.Did (walk_in self.old) host.old (known_in self.old)
            (path_in self.new) host.new (known_in self.new) }
        ensures later { later_in self.new ≡ later_after (walk_in self.old) up (later_in self.old) }
    {
        self.begin(host, up);
        let has_loaded = host.take_loaded();
        self.forget_if(has_loaded);
    }

    // A series of checks begins before all paths.
    fn begin<H: PathHost>(&mut self, host: &mut H, up: u64)
        ensures starts { Starts H.IsNext H.Did (walk_in self.old) host.old (path_in self.new) host.new }
        ensures seen { self.new.seen ≡ self.old.seen }
        ensures later { later_in self.new ≡ later_after (walk_in self.old) up (later_in self.old) }
    {
        if self.is_walking {
            return;
        }
        self.later = up.saturating_add(BETWEEN);
        self.path.clear();
        self.asked.clear();
        host.begin_looks();
    }

    // After a load each observation is delivered again.
    fn forget_if(&mut self, has_loaded: bool)
        ensures known { IsKept (known_after has_loaded (known_in self.old)) (known_in self.new) }
        ensures path { path_in self.new ≡ path_in self.old }
        ensures later { later_in self.new ≡ later_in self.old }
    {
        if has_loaded {
            self.seen.clear();
        }
    }

    // Asks what is at the paths after the one that was asked about last, as far as they may be asked about.
    fn ask_ahead<H: PathHost>(&mut self, host: &mut H)
        ensures asks { Questions H.IsNext H.Did host.old host.new }
        ensures still { IsStill self.old self.new }
    {
        for _ in 0..ASKED {
            if !self.ask_next(host) {
                return;
            }
        }
    }

    fn ask_next<H: PathHost>(&mut self, host: &mut H) -> bool
        ensures asks { Questions H.IsNext H.Did host.old host.new }
        ensures still { IsStill self.old self.new }
    {
        let Some(next) = host.path_after(self.asked.as_str()) else {
            return false;
        };
        self.room.clear();
        if self.room.push_str(next).is_err() {
            return false;
        }
        if !host.ask(self.room.as_str()) {
            return false;
        }
        mem::swap(&mut self.asked, &mut self.room);
        true
    }

    // Checks the listed paths after this one, as far as it is known what is there. It says whether that is not known of
    // the next one.
    fn walk<H: PathHost>(&mut self, alloc: Global, host: &mut H) -> bool
        ensures walks { WalksOn H.IsNext H.Did (path_in self.old) host.old (known_in self.old)
            host.new (known_in self.new) (walk_in self.new) }
        ensures later { later_in self.new ≡ later_in self.old }
    {
        self.is_walking = true;
        for _ in 0..LOOKS {
            if !self.goes_on(host) {
                self.is_walking = false;
                return false;
            }
            if !host.is_seen(self.room.as_str()) {
                return true;
            }
            self.step_on();
            self.look_here(alloc, host);
        }
        false
    }

    // Whether a listed path comes next. It is then in the room.
    fn goes_on<H: PathHost>(&mut self, host: &H) -> bool
        ensures on { IsTrue result → H.IsNext host.now (path_in self.old) (Some (room_in self.new)) }
        ensures end { result ≡ false → IsLast H.IsNext host.now (path_in self.old) }
        ensures still { IsStill self.old self.new }
    {
        let Some(next) = host.path_after(self.path.as_str()) else {
            return false;
        };
        self.room.clear();
        self.room.push_str(next).is_ok()
    }

    // The path in the room must be checked next.
    fn step_on(&mut self)
        ensures path { path_in self.new ≡ room_in self.old }
        ensures seen { self.new.seen ≡ self.old.seen }
        ensures later { later_in self.new ≡ later_in self.old }
        ensures walking { self.new.is_walking ≡ self.old.is_walking }
    {
        mem::swap(&mut self.path, &mut self.room);
    }

    // Checks the path, and delivers what is new there.
    fn look_here<H: PathHost>(&mut self, alloc: Global, host: &mut H)
        ensures looks { Looks H.Did (path_in self.old) host.old (known_in self.old) host.new (known_in self.new) }
        ensures path { path_in self.new ≡ path_in self.old }
        ensures later { later_in self.new ≡ later_in self.old }
        ensures walking { self.new.is_walking ≡ self.old.is_walking }
    {
        let path = self.path.as_str();
        let Some(obs) = host.look(path) else {
            return;
        };
        if self.seen.get(path).copied() == Some(obs) {
            return;
        }
        host.saw(alloc, path, obs);
        self.note(obs);
    }

    // Remembers what was delivered. Without memory for it the observation is forgotten, and delivered again at the next
    // check.
    fn note(&mut self, obs: Obs)
        ensures noted { IsNoted (path_in self.old) obs (known_in self.old) (known_in self.new) }
        ensures path { path_in self.new ≡ path_in self.old }
        ensures later { later_in self.new ≡ later_in self.old }
        ensures walking { self.new.is_walking ≡ self.old.is_walking }
    {
        let path = self.path.as_str();
        if let Some(seen) = self.seen.get_mut(path) {
            *seen = obs;
            return;
        }
        if let Ok(path) = String::from_str(self.alloc, path) {
            let _ = self.seen.insert(path, obs);
        }
    }
}

// When paths are asked about or checked next: if a series of checks goes on, soon or at once, and else at its time.
fn moment_of(is_walking: bool, waits: bool, up: u64, later: u64) -> u64
    ensures over { is_walking ≡ false → result ≡ later }
    ensures on { is_walking ≡ true → (up ≤ result) × (result ≤ up + 2) }
{
    if !is_walking {
        later
    } else if waits {
        up.saturating_add(SOON)
    } else {
        up
    }
}
