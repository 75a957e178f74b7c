// Delegates in threads of their own.
ghost use Rattle.std.specs.Prelude.{◌≡◌, IfOk, IfErr};
ghost use Rattle.delegates.specs.Works.{HasReturned};
ghost use Rattle.delegates.specs.Starts.{HasStarted, home_of, home_in};

use crate::gate::{Gate, LocalGate};
use crate::home::{Home, work};
use crate::sleeper::{Bell, Sleeper, make_bell};
use class_laws::{Class, LocalClass};
use jobs::{Errand, Job, Launched, Returned, RunningJob, launch};
use std::alloc::Global;
use std::sync::{Arc, Wait};
use std::thread::Threads;

/// The work of a delegate, up to a stop.
#[derive(Drop)]
pub struct DelegateJob<C: LocalClass, G: LocalGate> {
    pub home: Home<C>,
    pub gate: Arc<G>,
    pub sleeper: Sleeper,
}

impl<C: Class + 'static, G: Gate + 'static> Job for DelegateJob<C, G> {
    ghost use Rattle.delegates.specs.Works.{HasWorked};

    ghost gives = { λ job done. HasWorked C.meaning job.home done.home };

    fn run<R: Wait>(self, rt: &R) -> DelegateJob<C, G> {
        let DelegateJob {
            home,
            gate,
            sleeper,
        } = self;
        let home = work(rt, home, &*gate, &sleeper);
        DelegateJob {
            home,
            gate,
            sleeper,
        }
    }
}

/// A delegate in a thread of its own. It runs until it takes a stop.
#[derive(Drop)]
pub struct Worker<C: Class + 'static, G: Gate + 'static> {
    pub running: RunningJob<DelegateJob<C, G>>,
    pub bell: Bell,
}

/// What became of a home for which a thread was wanted.
#[derive(Drop)]
pub enum Started<C: Class + 'static, G: Gate + 'static> {
    /// A delegate has it.
    Running(Worker<C, G>),
    /// It came back. No thread could be started, or no memory was found.
    AtHome(Home<C>),
}

/// A delegate's work, with what wakes it, or the home where there is no memory.
pub fn make_errand<C: LocalClass, G: LocalGate>(
    alloc: Global,
    home: Home<C>,
    gate: Arc<G>,
) -> Result<(Errand<DelegateJob<C, G>>, Bell), Home<C>>
    ensures ok { IfOk result (λ made. made.0.job.home ≡ home) }
    ensures err { IfErr result (λ back. back ≡ home) }
{
    let Ok((sleeper, bell)) = make_bell(alloc) else {
        return Err(home);
    };
    let job = DelegateJob {
        home,
        gate,
        sleeper,
    };
    match Errand::new(alloc, job) {
        Ok(errand) => Ok((errand, bell)),
        Err(DelegateJob { home, .. }) => Err(home),
    }
}

/// The home of a job that came back, done or as it was. A method of an impl, which may not call
/// `take_home`, joins a worker's handle by itself and calls this.
pub fn home_in<C: LocalClass, G: LocalGate>(returned: Returned<DelegateJob<C, G>>) -> Home<C>
    ensures { result ≡ home_in returned }
{
    match returned {
        Returned::Done(DelegateJob { home, .. }) => home,
        Returned::CalledOff(DelegateJob { home, .. }) => home,
    }
}

/// Starts a delegate in a thread of its own, or hands the home back. This is no error, and no clause
/// tells why.
pub fn start<
    C: Class + 'static,
    G: Gate + 'static,
    R: Threads + Wait + Copy + Send + Sync + 'static,
>(rt: &R, alloc: Global, home: Home<C>, gate: Arc<G>) -> Started<C, G>
    ensures { HasStarted C.meaning home result }
{
    match make_errand(alloc, home, gate) {
        Err(home) => Started::AtHome(home),
        Ok((errand, bell)) => match launch(rt, errand) {
            Launched::Running(running) => Started::Running(Worker { running, bell }),
            Launched::Back(returned) => Started::AtHome(home_in(returned)),
        },
    }
}

impl<C: Class + 'static, G: Gate + 'static> Worker<C, G> {
    /// Wakes the delegate if it sleeps, so that it looks for messages. It changes nothing that
    /// contracts see.
    pub fn wake(&self) {
        self.bell.wake();
    }
}

/// Waits for a delegate to take a stop, and takes its home back.
pub fn take_home<C: Class + 'static, G: Gate + 'static, R: Threads>(
    rt: &R,
    worker: Worker<C, G>,
) -> Home<C>
    ensures { HasReturned C.meaning (home_of worker) result }
{
    let Worker { running, bell } = worker;
    bell.wake();
    home_in(running.handle.join(rt))
}
