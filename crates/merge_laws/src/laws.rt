// The theorem of legal merges, over definitions alone. There is nothing to run.

ghost use Rattle.merge_laws.specs.Fronts.{BeginsWhereItIsBegun};
ghost use Rattle.merge_laws.specs.Theorem.{MergesLeaveTheSame};

use class_laws::{Class, joins_in_any_order};

/// Every legal merge of every sound list of calls leaves the values and the total that the program
/// leaves without delegates, for any number of lanes. All that this asks of the class is that its
/// join is lawful.
pub fn legal_merges_leave_the_same<C: Class>()
    ensures { MergesLeaveTheSame C.meaning }
{
    joins_in_any_order::<C>();
}

/// Places begin a legal merge exactly where each is a place of the calls, stands once, and stands
/// behind whatever must stand before it. So a front is judged without a look at what is to come.
pub fn begun_merges_go_on()
    ensures { BeginsWhereItIsBegun }
{}
