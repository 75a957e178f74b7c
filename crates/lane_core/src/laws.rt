// The laws on cuts, over definitions alone. There is nothing to run.

ghost use Rattle.std.specs.Prelude.{◌≡◌};
ghost use Rattle.class_laws.specs.Laws.{ReducibleLaws};
ghost use Rattle.lane_core.specs.Views.{LanesView};
ghost use Rattle.lane_core.specs.Cuts.{IsCut, least_cut};
ghost use Rattle.lane_core.specs.Kept.{IsKept};
ghost use Rattle.lane_core.specs.Laws.{CutsGoOn, CutsDrainAlike, CutsAreLogical};

use class_laws::{Class, reducible_laws};

/// Where a cut has one run more in a lane than another and is else the same, the event of that lane
/// is enabled in the core of the other, and leaves its core. So a delegate that takes a run takes a
/// step of the machine.
pub fn cut_event<C: Class>()
    ensures { (view : LanesView C C.Op C.Red) → IsKept view → CutsGoOn C.meaning view }
{
    joins_are_lawful::<C>();
}

/// Once what waits is drained, the cores at all cuts are the same, so it doesn't matter how far the
/// delegates have come. The least cut is one of them, and that to which its core drains is the
/// logical state.
pub fn cut_drain<C: Class>()
    ensures same { (view : LanesView C C.Op C.Red) → IsKept view →
        CutsDrainAlike C.meaning view }
    ensures least { (view : LanesView C C.Op C.Red) → IsCut view.lanes (least_cut view.lanes) }
    ensures logical { (view : LanesView C C.Op C.Red) → IsKept view →
        CutsAreLogical C.meaning view }
{
    joins_are_lawful::<C>();
}

// A class joins contributions by the laws.
fn joins_are_lawful<C: Class>()
    ensures { ReducibleLaws C.meaning.unit C.meaning.join }
{
    contributes_as_its_reducible::<C>();
    reducible_laws::<C::Red>();
}

// The unit and the join of a class are those of its reducible.
fn contributes_as_its_reducible<C: Class>()
    ensures unit { C.meaning.unit ≡ C.Red.unit_value }
    ensures join { C.meaning.join ≡ C.Red.join_of }
{}
