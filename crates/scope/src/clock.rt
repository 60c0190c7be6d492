//! The clock.

use history_model::MAX_WALL;
use run_times::telling::tell_of;
use std::time::SystemTime;

/// The second of Unix time that the clock shows. If the clock can't be read, it reports that and returns None.
pub(crate) fn now(host: &HostRuntime) -> Option<u64> {
    match SystemTime::now(host) {
        Ok(time) => match time.duration_since(SystemTime::UNIX_EPOCH) {
            Ok(since) => Some(since.as_secs().min(MAX_WALL)),
            Err(_) => Some(0),
        },
        Err(error) => {
            tell_of(host, "clock", &error);
            None
        }
    }
}
