//! What holds of the passes of a live loop, one after another. The function does nothing: its contract is the law.

ghost use Rattle.std.specs.Prelude.{◌≡◌, ◌⊎◌, ◌≤◌, ◌+◌, ◌-◌, ◌^◌, min, ℕ};
ghost use Rattle.live_loop.specs.Children.{PollsAll};
ghost use Rattle.live_loop.specs.Counting.{Counts, handed_by};
ghost use Rattle.live_loop.specs.Rounds.{AreRounds, Left};

use crate::loop_host::LoopHost;

/// No child is left out for ever. Either a pass asks about each run that is over, from the job on with which it begins,
/// and the next pass begins with the first job. Or the next pass begins after that job, by a higher number.
pub fn no_child_is_left_out<H: LoopHost>(host: &H)
    ensures { (first next : ℕ) (old new : H) → PollsAll H.Polled first old next new →
        (next ≡ 0) ⊎ (min (first + 1) (2 ^ 32 - 1) ≤ next) }
{
    let _ = host;
}

/// No two clients of jobs' sockets have one number: any passes of the loop deliver them under one number after another,
/// each once. No request is longer than 65,536 bytes, if none was longer when the first of these passes began.
pub fn each_client_has_a_number_of_its_own<H: LoopHost>(host: &H)
    ensures { (first last : Left H) → (rounds : AreRounds (record {
      round_up = H.round_up;
      IsNext = H.IsNext;
      Did = H.Did;
      Answered = H.Answered;
      Begun = H.Begun;
      Polled = H.Polled;
      Asked = H.Asked;
      Taken = H.Taken;
      Came = H.Came;
    }) first last) → Counts first.desk (handed_by rounds) last.desk }
{
    let _ = host;
}
