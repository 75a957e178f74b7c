// What starts threads.
ghost use Rattle.jobs.specs.Launches.{HasLaunched};

use crate::errand::{Errand, Returned, run_unless};
use crate::job::Job;
use std::snapshot::Snapshot;
use std::sync::Wait;
use std::sync::atomic::Ordering;
use std::thread::{Builder, Promise, PromisedHandle, Threads};

/// The promise of a thread: what it gives back of its job.
#[derive(Drop)]
pub struct Doing<J: Job>(pub Snapshot<J>);

impl<J: Job> Promise<Returned<J>> for Doing<J> {
    ghost use Rattle.jobs.specs.Jobs.{ComesBack};

    ghost kept_by = { λ promise back. ComesBack J.gives promise.0.value back };
}

/// A job that a thread does. Taken apart, the handle is joined by its own method, which code may
/// call that has no evidence of `Send`.
#[derive(Drop)]
pub struct RunningJob<J: Job> {
    pub handle: PromisedHandle<Returned<J>, Doing<J>>,
}

/// What became of a job for which a thread was wanted.
#[derive(Drop)]
pub enum Launched<J: Job> {
    /// A thread does it.
    Running(RunningJob<J>),
    /// No thread could be started, and the job was called off. (That it wasn't done all the same is
    /// not known to contracts, since they know nothing of a flag that two threads share.)
    Back(Returned<J>),
}

/// Does a job in a thread of its own. Where no thread can be started the job is called off.
pub fn launch<J: Job, R: Threads + Wait + Copy + Send + Sync + 'static>(
    rt: &R,
    errand: Errand<J>,
) -> Launched<J>
    ensures { HasLaunched J.gives errand.job result }
{
    launch_by(rt, Builder::new(), errand)
}

/// The same, in a thread of these settings.
pub(crate) fn launch_by<J: Job, R: Threads + Wait + Copy + Send + Sync + 'static>(
    rt: &R,
    builder: Builder,
    errand: Errand<J>,
) -> Launched<J>
    ensures { HasLaunched J.gives errand.job result }
{
    let own = *rt;
    let Errand {
        job,
        calls_off,
        called_off,
    } = errand;
    let promise = Doing(Snapshot::of(&job));
    let work = move || {
        let is_called_off = called_off.load(Ordering::SeqCst);
        run_unless(job, is_called_off, &own)
    };
    match builder.spawn_with(rt, promise, work) {
        Ok(handle) => Launched::Running(RunningJob { handle }),
        Err(refused) => {
            calls_off.store(true, Ordering::SeqCst);
            Launched::Back((refused.value)())
        }
    }
}

/// What starts threads, for code that may not start them itself: a method of an impl has no
/// evidence that a value may go to another thread. Whoever has the evidence makes a `StartBy`.
pub trait Starter<J, X> {
    /// The jobs that it can be given.
    ghost can: { Self → J → Type 0 };

    /// What it answers of a job.
    ghost gives: { Self → J → X → Type 0 };

    /// Starts the job.
    fn start(&self, job: J) -> X
        requires { can self.now job }
        ensures { gives self.now job result };
}

/// A closure that starts threads.
#[derive(Drop)]
pub struct StartBy<F> {
    pub closure: F,
}

impl<J, X, F: Fn(J) -> X> Starter<J, X> for StartBy<F> {
    ghost can = { λ starter job. F.pre starter.closure job };

    ghost gives = { λ starter job answer. F.post starter.closure job answer };

    fn start(&self, job: J) -> X {
        (self.closure)(job)
    }
}
