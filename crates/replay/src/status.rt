//! The exit status of a replay.
ghost use Rattle.std.specs.Prelude.{◌≡◌};
ghost use Rattle.replay.specs.Status.{exit_status};

use replay_loop::ReplayFault;

/// The exit status of `jobd replay` for how it ended: 0 at the end of the input, 1 if memory ran out, 2 for a header that can't
/// be read. It is 3 if a read or a write failed or too many reads were made, and 4 for a line that is too long.
pub fn status_of(ending: Result<(), ReplayFault>) -> u8
    ensures { result ≡ exit_status ending }
{
    match ending {
        Ok(()) => 0,
        Err(ReplayFault::NoMemory) => 1,
        Err(ReplayFault::Header) => 2,
        Err(ReplayFault::Read | ReplayFault::Write | ReplayFault::ReadCount) => 3,
        Err(ReplayFault::TooLong) => 4,
    }
}
