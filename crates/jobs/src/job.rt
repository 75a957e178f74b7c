// Work for threads.
ghost use Rattle.std.specs.Prelude.{IfOk};
ghost use Rattle.jobs.specs.Jobs.{EachGives};

use std::alloc::AllocError;
use std::sync::Wait;
use std::thread;
use std::thread::Threads;

/// Work for a thread. It comes back done, as a value of its own type.
pub trait Job: Send + Drop + Sized + 'static {
    /// What the work comes back as, done.
    ghost gives: { Self → Self → Type 0 };

    /// Does the work.
    fn run<R: Wait>(self, rt: &R) -> Self
        ensures { gives self result };
}

/// Does all jobs, in threads where they can be started, and gives them back in their places.
///
/// Jobs for which no thread could be started are done one after the other, so that jobs that wait
/// for one another may wait for ever.
pub fn run_all<J: Job, R: Threads + Wait + Copy + Send + Sync + 'static>(
    rt: &R,
    jobs: Vec<J>,
) -> Result<Vec<J>, AllocError>
    ensures { IfOk result (λ done. EachGives J.gives jobs.items done.items) }
{
    thread::map_vec(rt, jobs, &|job: J| -> J { job.run(rt) })
}
