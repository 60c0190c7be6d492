//! The children. Each is asked about once in a pass of the loop, as long as there is time.

ghost use Rattle.std.specs.Prelude.{◌≡◌, ◌⊎◌, false};
ghost use Rattle.live_loop.specs.Children.{PollsAll};

use crate::label_room::LabelRoom;
use crate::loop_host::LoopHost;
use control_socket::Limit;
use history_model::{JobNo, MAX_JOBS};
use std::alloc::Global;

/// Polls each child that is over, by rising numbers of their jobs from this one on. It delivers an exit, and also a
/// refusal to wait. Where no time is left, the others are left for the next pass. It answers with which number that
/// begins: 0 unless some were left.
pub(crate) fn poll_children<H: LoopHost, L: Limit>(
    alloc: Global,
    host: &mut H,
    label: &mut LabelRoom,
    first: JobNo,
    time: &mut L,
) -> JobNo
    ensures polls { PollsAll H.Polled first host.old result host.new }
    ensures time { (result ≡ 0) ⊎ ((before : L) × L.Timed false before time.new) }
{
    let mut next = first;
    for _ in 0..MAX_JOBS {
        let Some(job) = host.poll_from(alloc, label, next) else {
            return 0;
        };
        next = job.saturating_add(1);
        if !time.has_time() {
            return next;
        }
    }
    0
}
