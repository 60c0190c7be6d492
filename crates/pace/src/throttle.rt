//! How near together spawns may be ordered: `ThrottleInterval` of launchd.plist(5).

ghost use Rattle.std.specs.Prelude.{◌≡◌, ◌≤◌, ℕ, ◌*◌, ◌||◌, nat_lt, Some, None};
ghost use Rattle.history_model.specs.Items.{History};
ghost use Rattle.history_model.specs.Clock as clock;
ghost use Rattle.history_model.specs.Refusals.{IsLawful};
ghost use Rattle.history_model.specs.NextMomentByFacts.{sooner, coming_after};
ghost use Rattle.pace.specs.PaceMoments.{IsNext};

use crate::{coming_after, sooner};
use history_model::{MAX_UP, SECOND};
use std::marker::Model;

/// When a spawn was last ordered, and last refused.
#[derive(Drop)]
pub struct Throttle {
    seconds: u32,
    last_order: Option<u64>,
    last_refusal: Option<u64>,
}

impl Model for Throttle {
    ghost use Rattle.std.specs.Option.{ForSome};
    ghost use Rattle.std.specs.Prelude.{◌≤◌};
    ghost use Rattle.history_model.specs.declared.TheConstants.{MAX_UP};
    ghost use Rattle.pace.specs.Paces.{Spacing};

    ghost Value = { Spacing };

    ghost view = { λ t. record
        { seconds = t.seconds; order = t.last_order; refusal = t.last_refusal } };

    ghost invariant = { λ t. ForSome t.last_order (λ u. u ≤ MAX_UP)
        × ForSome t.last_refusal (λ u. u ≤ MAX_UP) };
}

impl Throttle {
    ghost use Rattle.pace.specs.PaceMoments.{IsSpawnMoment};
    ghost use Rattle.pace.specs.PaceByFacts.{is_throttled_of, next_spawn_of};
    ghost use Rattle.history_model.specs.Due.{is_throttled_at};
    ghost use Rattle.history_model.specs.Moments.{spawn_moments};
    ghost use Rattle.pace.specs.OfPast.{spacing_of, least_after};

    /// The throttle of a job of which no spawn was ordered.
    pub fn new(seconds: u32) -> Throttle
        ensures { result ≡ record { seconds = seconds; order = None; refusal = None } }
    {
        Throttle {
            seconds,
            last_order: None,
            last_refusal: None,
        }
    }

    /// A spawn was ordered.
    pub fn ordered(&mut self, up: u64)
        requires { up ≤ MAX_UP }
        ensures { self.new ≡ record self.old { order = Some up } }
    {
        self.last_order = Some(up);
    }

    /// A spawn was answered with a refusal.
    pub fn refused(&mut self, up: u64)
        requires { up ≤ MAX_UP }
        ensures { self.new ≡ record self.old { refusal = Some up } }
    {
        self.last_refusal = Some(up);
    }

    /// The least time from which no spawn order lies less than the throttle back, and no refusal less than a second.
    pub fn free_at(&self) -> u64
        ensures step { (up : ℕ) → nat_lt up result ≡ is_throttled_of self.now up }
        ensures past { (past : History) → IsLawful past → self.now ≡ spacing_of past → (up : ℕ) →
            nat_lt up result ≡ is_throttled_at up past }
    {
        self.free_from() // for the proof
    }

    /// That time, by what is kept.
    fn free_from(&self) -> u64
        ensures { (up : ℕ) → nat_lt up result ≡ is_throttled_of self.now up }
    {
        let of_order = match self.last_order {
            None => 0,
            Some(up) => up + SECOND * u64::from(self.seconds),
        };
        let of_refusal = match self.last_refusal {
            None => 0,
            Some(up) => up + SECOND,
        };
        of_order.max(of_refusal)
    }

    /// The next time at which the last order or the last refusal stops being too near. After the present clock reading no other
    /// order and no other refusal has such a time.
    pub fn next_moment(&self, up: u64) -> Option<u64>
        ensures value { result ≡ next_spawn_of self.now up }
        ensures next { IsNext (IsSpawnMoment self.now) up result }
        ensures past { (past : History) → IsLawful past → self.now ≡ spacing_of past →
            (clock.now past).up ≤ up → result ≡ least_after up (spawn_moments past) }
    {
        self.next_from(up) // for the proof
    }

    /// That time, by what is kept.
    fn next_from(&self, up: u64) -> Option<u64>
        ensures value { result ≡ next_spawn_of self.now up }
        ensures next { IsNext (IsSpawnMoment self.now) up result }
    {
        sooner(
            coming_after(up, SECOND * u64::from(self.seconds), self.last_order),
            coming_after(up, SECOND, self.last_refusal),
        )
    }
}
