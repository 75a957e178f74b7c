// The theorem of this crate, over its definitions alone.

ghost use Rattle.partition_check.specs.Theorem.{MarksFollowTheRule};

/// Marks that represent a list of calls refuse each call to come as the partition rule does, and
/// represent the list with that call where it is accepted. There is nothing to run: callers that
/// prove something of `judged` and `marked_after` get from here what holds of lists.
pub fn marks_follow_the_rule()
    ensures { MarksFollowTheRule }
{}
