// What has a delegate take a lane.
ghost use Rattle.lane_ends.specs.Workers.{home_given, HasHired};

use class_laws::Class;
use delegates::{DelegateJob, Gate, Home, home_in, make_errand};
use jobs::{Errand, Launched, RunningJob, Starter};
use lane_ends::Taker;
use std::alloc::Global;
use std::sync::Arc;

/// What has a delegate take a lane: what starts its job in a thread, and the gate that it passes
/// before each run.
pub struct HireBy<'a, G, S> {
    pub alloc: Global,
    pub starter: &'a S,
    pub gate: &'a Arc<G>,
}

// It lets nothing go but references.
impl<G, S> Drop for HireBy<'_, G, S> {
    fn drop(self) {
        let HireBy {
            alloc: _,
            starter: _,
            gate: _,
        } = self;
    }
}

impl<
    C: Class + 'static,
    G: Gate + 'static,
    S: Starter<Errand<DelegateJob<C, G>>, Launched<DelegateJob<C, G>>>,
> Starter<Home<C>, Taker<C, RunningJob<DelegateJob<C, G>>>> for HireBy<'_, G, S> {
    ghost use Rattle.lane_rt.specs.Hires.{CanHire};

    ghost can = { λ hirer home. CanHire C.meaning S.can S.gives hirer };

    ghost gives = { λ hirer home taker. HasHired C.meaning home_given home taker };

    fn start(&self, home: Home<C>) -> Taker<C, RunningJob<DelegateJob<C, G>>> {
        let Ok(gate) = Arc::try_clone(self.gate) else {
            return Taker::Program(home);
        };
        match make_errand(self.alloc, home, gate) {
            Err(home) => Taker::Program(home),
            Ok((errand, bell)) => match self.starter.start(errand) {
                Launched::Running(worker) => Taker::Delegate { worker, bell },
                Launched::Back(returned) => Taker::Program(home_in(returned)),
            },
        }
    }
}
