//! The time that may be spent waiting for answers which don't come.

/// How many milliseconds an answer may take.
pub(crate) const PATIENCE: u64 = 500;

/// How many milliseconds a path that hung before is waited for at least, and one that did not.
pub(crate) const LEAST: u64 = 8;

pub(crate) const LEAST_OF_NEW: u64 = 100;

/// How many milliseconds may be spent on paths that hung before, and how many more on paths that did not. Half of the time that passes is given back.
const SPARE: u64 = 1_000;

const FOR_NEW: u64 = 1_000;

/// What is left of the time, at that `up`.
#[derive(Clone, Copy)]
pub(crate) struct Spare {
    left: u64,
    counted: u64,
}

impl Spare {
    pub(crate) fn new() -> Spare {
        Spare {
            left: SPARE + FOR_NEW,
            counted: 0,
        }
    }

    /// Gives back half of the time that has passed until now.
    pub(crate) fn go_on(&mut self, up: u64) {
        let gained = up.saturating_sub(self.counted) / 2;
        self.counted = self.counted.saturating_add(gained.saturating_mul(2));
        self.left = self.left.saturating_add(gained).min(SPARE + FOR_NEW);
    }

    /// `waited` milliseconds were waited for an answer that did not come.
    pub(crate) fn spend(&mut self, waited: u64) {
        self.left = self.left.saturating_sub(waited);
    }

    /// Whether no time is left to wait for a path, which hung before or did not.
    pub(crate) fn is_spent(self, hung_before: bool) -> bool {
        if hung_before {
            self.left < FOR_NEW + LEAST
        } else {
            self.left < LEAST_OF_NEW
        }
    }

    /// How many milliseconds a path is waited for, which hung before or did not.
    pub(crate) fn patience(self, hung_before: bool) -> u64 {
        let least = if hung_before { LEAST } else { LEAST_OF_NEW };
        self.left
            .saturating_sub(FOR_NEW + PATIENCE)
            .max(least)
            .min(PATIENCE)
    }
}
