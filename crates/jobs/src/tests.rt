// What no clause says: that a thread runs, that all jobs run at once, and that a job for which no
// thread can be started isn't done.

use crate::start::launch_by;
use crate::{Errand, Job, Launched, Returned, launch, run_all};
use std::alloc::{AllocError, Global};
use std::sync::atomic::{AtomicBool, Ordering};
use std::sync::{Arc, Wait};
use std::test::Fail;
use std::thread;
use std::thread::{Builder, Threads};

// How often a job looks for the other one before it gives up.
const LOOKS: u32 = 1_000_000;

// One of two jobs that wait for each other.
#[derive(Drop)]
struct Meeting {
    here: Arc<AtomicBool>,
    there: Arc<AtomicBool>,
    has_met: bool,
}

impl Job for Meeting {
    ghost gives = { λ job done. Unit {0} };

    fn run<R: Wait>(self, _rt: &R) -> Meeting {
        let Meeting {
            here,
            there,
            mut has_met,
        } = self;
        here.store(true, Ordering::SeqCst);
        for _ in 0..LOOKS {
            if there.load(Ordering::SeqCst) {
                has_met = true;
                break;
            }
            thread::yield_now();
        }
        Meeting {
            here,
            there,
            has_met,
        }
    }
}

fn make_meeting(alloc: Global) -> Result<(Meeting, Meeting), AllocError> {
    let here = Arc::new(alloc, AtomicBool::new(false))?;
    let there = Arc::new(alloc, AtomicBool::new(false))?;
    let other = Meeting {
        here: Arc::try_clone(&there)?,
        there: Arc::try_clone(&here)?,
        has_met: false,
    };
    let one = Meeting {
        here,
        there,
        has_met: false,
    };
    Ok((one, other))
}

// Launches a job; none where no memory is found for it.
fn launched<R: Threads + Wait + Copy + Send + Sync + 'static>(
    rt: &R,
    alloc: Global,
    job: Meeting,
) -> Option<Launched<Meeting>> {
    let errand = Errand::new(alloc, job).ok()?;
    Some(launch(rt, errand))
}

// Whether a launched job met the other one, in a thread.
fn has_met<R: Threads>(rt: &R, job: Option<Launched<Meeting>>) -> bool {
    match job {
        Some(Launched::Running(running)) => match running.handle.join(rt) {
            Returned::Done(done) => done.has_met,
            Returned::CalledOff(_) => false,
        },
        _ => false,
    }
}

#[test]
fn two_launched_jobs_meet(rt: HostRuntime) -> Result<(), Fail> {
    let alloc = rt.alloc();
    let (one, other) = make_meeting(alloc)?;
    let one = launched(&rt, alloc, one);
    let other = launched(&rt, alloc, other);
    assert!(rt; has_met(&rt, one));
    assert!(rt; has_met(&rt, other));
    Ok(())
}

#[test]
fn two_of_many_jobs_meet(rt: HostRuntime) -> Result<(), Fail> {
    let alloc = rt.alloc();
    let (one, other) = make_meeting(alloc)?;
    let mut jobs = Vec::new(alloc);
    jobs.push(one)?;
    jobs.push(other)?;
    let done = run_all(&rt, jobs)?;
    assert_eq!(rt; done.iter().filter(|job| job.has_met).count(), 2);
    Ok(())
}

#[test]
fn a_job_without_a_thread_is_not_done(rt: HostRuntime) -> Result<(), Fail> {
    let alloc = rt.alloc();
    let (job, _other) = make_meeting(alloc)?;
    let here = Arc::try_clone(&job.here)?;
    let Ok(errand) = Errand::new(alloc, job) else {
        return Err(AllocError.into());
    };
    // No thread has a stack of this size.
    let builder = Builder::new().stack_size(usize::MAX);
    let launched = launch_by(&rt, builder, errand);
    let is_back = match launched {
        Launched::Back(Returned::CalledOff(_)) => true,
        _ => false,
    };
    assert!(rt; is_back);
    assert!(rt; !here.load(Ordering::SeqCst));
    Ok(())
}
