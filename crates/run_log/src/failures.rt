//! Which runs failed.

ghost use Rattle.std.specs.Prelude.{◌≡◌};
ghost use Rattle.run_log.specs.Search.{is_failure, is_given};

use history_model::Ended;

/// Whether a run that ended so failed: it exited with a code above 0, or by a signal that the launcher did not give. The launcher gives TERM and KILL, if it
/// ordered the run to end.
pub fn is_failure(how: Ended, is_ordered_to_end: bool) -> bool
    ensures { result ≡ is_failure is_ordered_to_end how }
{
    match how {
        Ended::Code(code) => code > 0,
        Ended::Signal(signal) => !is_given(is_ordered_to_end, signal),
    }
}

// Whether the launcher gave the signal. One that is not known counts as given to a run that was ordered to end.
fn is_given(is_ordered_to_end: bool, signal: u8) -> bool
    ensures { result ≡ is_given is_ordered_to_end signal }
{
    is_ordered_to_end && (signal == 0 || signal == 9 || signal == 15)
}
