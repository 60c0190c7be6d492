//! The poll of the live loop, which is asked to wait for a tenth of a second at most.

ghost use Rattle.std.specs.Prelude.{◌≤◌};

use crate::fault::ServeFault;
use mio::{Events, Poll, Registry};
use std::time::Duration;

/// What the passes of the event loop wait on.
#[derive(Drop)]
pub(crate) struct RoundPoll {
    poll: Poll,
}

impl RoundPoll {
    pub(crate) fn new(poll: Poll) -> RoundPoll {
        RoundPoll { poll }
    }

    pub(crate) fn registry(&self) -> &Registry {
        self.poll.registry()
    }

    /// Waits until something is there, at most this many milliseconds. Poll, if the system refuses.
    pub(crate) fn wait(&mut self, events: &mut Events, wait: u64) -> Result<(), ServeFault>
        requires { wait ≤ 100 }
    {
        match self.poll.poll(events, Some(Duration::from_millis(wait))) {
            Ok(()) => Ok(()),
            Err(_) => Err(ServeFault::Poll),
        }
    }
}
