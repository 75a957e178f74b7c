// Jobs that can be called off.
ghost use Rattle.std.specs.Prelude.{◌≡◌, IfOk, IfErr, IsTrue};
ghost use Rattle.jobs.specs.Jobs.{ComesBack};
ghost use Rattle.jobs.specs.declared.errand.Returned.TheVariants.{CalledOff};

use crate::job::Job;
use std::alloc::Global;
use std::sync::atomic::AtomicBool;
use std::sync::{Arc, Wait};

/// A job for which a thread is wanted, and which can be called off until it begins.
///
/// The starter and the job share a flag, false at first. Where no thread can be started, the starter
/// sets it, and the job comes back as it was. Nobody else sets it.
#[derive(Drop)]
pub struct Errand<J> {
    pub job: J,
    // The starter's hand on the flag, and the job's.
    pub(crate) calls_off: Arc<AtomicBool>,
    pub(crate) called_off: Arc<AtomicBool>,
}

/// What a job came back as.
#[derive(Drop)]
pub enum Returned<J> {
    /// It was done.
    Done(J),
    /// It was called off before it began, and is as it was.
    CalledOff(J),
}

// A flag that is in two hands; none where there is no memory.
fn make_flag(alloc: Global) -> Option<(Arc<AtomicBool>, Arc<AtomicBool>)> {
    let calls_off = Arc::new(alloc, AtomicBool::new(false)).ok()?;
    let called_off = Arc::try_clone(&calls_off).ok()?;
    Some((calls_off, called_off))
}

impl<J> Errand<J> {
    /// Gives a job its flag, or hands it back where there is no memory for one.
    pub fn new(alloc: Global, job: J) -> Result<Errand<J>, J>
        ensures ok { IfOk result (λ errand. errand.job ≡ job) }
        ensures err { IfErr result (λ back. back ≡ job) }
    {
        let Some((calls_off, called_off)) = make_flag(alloc) else {
            return Err(job);
        };
        Ok(Errand {
            job,
            calls_off,
            called_off,
        })
    }
}

/// Does a job, unless it was called off.
pub(crate) fn run_unless<J: Job, R: Wait>(job: J, is_called_off: bool, rt: &R) -> Returned<J>
    ensures back { ComesBack J.gives job result }
    ensures called_off { IsTrue is_called_off → result ≡ CalledOff job }
{
    if is_called_off {
        return Returned::CalledOff(job);
    }
    Returned::Done(job.run(rt))
}
