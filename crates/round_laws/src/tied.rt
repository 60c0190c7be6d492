//! The passes of the program are those of which the laws speak.

ghost use Rattle.std.specs.Prelude.{OnOk};
ghost use Rattle.live_loop.specs.Kept.{left_in};
ghost use Rattle.round_laws.specs.Outside.{IsPass, around};

use jobd::{RoundEdge, RoundLauncher};
use live_loop::{Live, ServeFault, System};
use outside::SettingStore;
use std::alloc::Global;
use std::io::Write;

/// A pass of a live loop over the launcher of `jobd`, as `live_loop::round` makes it.
pub fn round<R: System, T: SettingStore, E: RoundEdge, W: Write>(
    rt: &R,
    alloc: Global,
    live: &mut Live<RoundLauncher<T, E, W>>,
) -> Result<bool, ServeFault>
    ensures { let by = around E.told T.told T.holds T.stamped E.Finds E.Looks E.Accepts E.Holds in
        OnOk result (IsPass by (left_in live.old) (left_in live.new)) }
{
    live_loop::round(rt, alloc, live)
}
