// A delegate in a thread, for code that may not start or join threads of its own.
ghost use Rattle.delegates.specs.Works.{HasReturned};
ghost use Rattle.delegates.specs.declared.home.Home.{Home};

use class_laws::{Class, LocalClass};
use delegates::{DelegateJob, Gate, Home, home_in};
use jobs::RunningJob;
use std::thread::Threads;

/// A delegate in a thread, for code that a method of an impl calls, where a bound may not hold
/// `Send`.
pub trait LaneWorker<C: LocalClass>: Sized + Drop {
    /// The home that it was handed.
    ghost home_of: { Self → Home C C.LocalOp C.LocalRed };

    /// Waits for the delegate to take a stop, and takes its home back.
    fn join<R: Threads>(self, rt: &R) -> Home<C>
        ensures { HasReturned C.local_meaning (home_of self) result };
}

impl<C: Class + 'static, G: Gate + 'static> LaneWorker<C> for RunningJob<DelegateJob<C, G>> {
    ghost use Rattle.lane_ends.specs.Workers.{home_given};

    ghost home_of = { home_given };

    fn join<R: Threads>(self, rt: &R) -> Home<C> {
        let RunningJob { handle } = self;
        home_in(handle.join(rt))
    }
}
