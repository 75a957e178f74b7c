// The theorem of schedules, over definitions alone. There is nothing to run.

ghost use Rattle.schedule_laws.specs.Replayed.{ReplaysAreComputed};
ghost use Rattle.schedule_laws.specs.Theorem.{DrainIsByEvents, ReplaysAreOne, ReplaysGiveTheSame, SchedulesGiveTheSame};

use class_laws::{Class, joins_in_any_order};

/// Every schedule, for any number of lanes and any calls, gives the replies, the refusal, the values
/// and the total of the program without delegates: at each moment once what waits is drained, and
/// at the end as they are. All that this asks of the class is that its join is lawful.
pub fn every_schedule_gives_the_same<C: Class>()
    ensures { SchedulesGiveTheSame C.meaning }
{
    joins_in_any_order::<C>();
}

/// A replay goes on by a fixed rule behind its schedule: the program context where it may, else the
/// least lane in which something waits. Every schedule gives the values, the total, the replies and
/// the refusal of the program without delegates.
pub fn every_replay_gives_the_same<C: Class>()
    ensures { ReplaysGiveTheSame C.meaning }
{
    joins_in_any_order::<C>();
}

/// Under every schedule there is one replay: the rule comes to an end, and to no other.
pub fn every_schedule_has_one_replay<C: Class>()
    ensures { ReplaysAreOne C.meaning }
{}

/// The end of that replay is a value, computed from the calls, the number of lanes and the
/// schedule.
pub fn every_replay_is_computed<C: Class>()
    ensures { ReplaysAreComputed C.meaning }
{}

/// To drain a core is to take events of lanes, that of the least lane in which something waits first,
/// until nothing waits.
pub fn a_drain_is_by_events<C: Class>()
    ensures { DrainIsByEvents C.meaning }
{}
