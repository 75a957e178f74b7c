// Laws of the definitions. There is nothing to run: callers get from here what the words come to.

ghost use Rattle.std.specs.Prelude.{ℕ, List};
ghost use Rattle.execution_definitions.specs.Shapes.{Shape};
ghost use Rattle.execution_definitions.specs.Laws.{EpochIsOpenFromItsBegin, HeldFromItsLastDelegation, FirstBreakIsLeast};

/// An epoch is open exactly where some begin of the list has no end after it.
pub fn an_epoch_is_open_from_its_begin()
    ensures { EpochIsOpenFromItsBegin }
{}

/// The set of an object's last delegation is that of the last delegation to it since the last begin,
/// where no end stands after that begin. The object is held to it exactly where no write or get of
/// the object stands after that delegation.
pub fn an_object_is_held_from_its_last_delegation()
    ensures { (calls : List Shape) (object set : ℕ) → HeldFromItsLastDelegation calls object set }
{}

/// The first break is the least place whose call is refused after the calls before it, and there is
/// none exactly where no call is.
pub fn the_first_break_is_the_least()
    ensures { (calls : List Shape) → FirstBreakIsLeast calls }
{}
