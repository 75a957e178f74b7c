//! The laws on cuts, of running lanes: how far their delegates have come makes no difference.
//!
//! There is nothing to run: each law is a contract.
ghost use Rattle.std.specs.Prelude.{◌≡◌, false};
ghost use Rattle.lane_core.specs.Cores.{logical_state};
ghost use Rattle.lane_core.specs.Cuts.{IsCut, least_cut};
ghost use Rattle.lane_core.specs.Laws.{CutsGoOn, CutsDrainAlike, CutsAreLogical};

use crate::lanes::Lanes;
use class_laws::Class;
use delegates::Gate;

/// Where a cut of the running lanes has one run more in a lane than another and is else the same, the
/// event of that lane is enabled in the core of the other, and leaves its core. So a delegate that
/// takes a run takes a step of the machine. This is so as long as memory was found.
pub fn cut_event<C: Class + 'static, G: Gate + 'static>(r: &Lanes<C, G>)
    ensures { r.now.running.has_failed ≡ false → CutsGoOn C.meaning r.now.running }
{
    r.hold_together();
    lane_core::cut_event::<C>();
}

/// Once what waits is drained, the cores at all cuts of the running lanes are the same. The least cut
/// is one of them, and that to which its core drains is the logical state, which is what every runtime
/// shows of itself. This is so as long as memory was found.
pub fn cut_drain<C: Class + 'static, G: Gate + 'static>(r: &Lanes<C, G>)
    ensures same { r.now.running.has_failed ≡ false → CutsDrainAlike C.meaning r.now.running }
    ensures least { IsCut r.now.running.lanes (least_cut r.now.running.lanes) }
    ensures logical { r.now.running.has_failed ≡ false → CutsAreLogical C.meaning r.now.running }
    ensures shown { r.now.running.has_failed ≡ false →
        r.now.runtime.state ≡ logical_state C.meaning r.now.running }
{
    r.hold_together();
    lane_core::cut_drain::<C>();
}
