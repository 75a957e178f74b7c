// How a delegate waits, and what wakes it.

use crossbeam_utils::Backoff;
use crossbeam_utils::sync::{Parker, Unparker};
use ss_base::OutOfMemory;
use std::alloc::Global;
use std::sync::atomic::{AtomicBool, Ordering};
use std::sync::{Arc, Wait};

/// Where a delegate waits.
///
/// Before it sleeps, a delegate says so and looks for a message once more. A sender first sends and
/// then looks whether the delegate said so. So either the delegate sees the message, or the sender
/// wakes it. (No clause tells this.)
#[derive(Drop)]
pub struct Sleeper {
    parker: Parker,
    may_sleep: Arc<AtomicBool>,
}

/// What wakes a delegate that sleeps.
#[derive(Drop)]
pub struct Bell {
    unparker: Unparker,
    may_sleep: Arc<AtomicBool>,
}

/// A place to wait, and what wakes the delegate there.
pub fn make_bell(alloc: Global) -> Result<(Sleeper, Bell), OutOfMemory> {
    let parker = Parker::new(alloc)?;
    let unparker = parker.unparker().clone()?;
    let may_sleep = Arc::new(alloc, AtomicBool::new(false))?;
    let seen = Arc::try_clone(&may_sleep)?;
    let sleeper = Sleeper { parker, may_sleep };
    let bell = Bell {
        unparker,
        may_sleep: seen,
    };
    Ok((sleeper, bell))
}

impl Sleeper {
    /// Waits a little, after a look that found no message: at first it only lets time pass, and in
    /// the end it sleeps until it is woken.
    pub(crate) fn wait<R: Wait>(&self, rt: &R, backoff: &Backoff) {
        if !backoff.is_completed() {
            backoff.snooze();
            return;
        }
        // The first time the caller looks once more, and what it doesn't see then wakes it.
        if self.may_sleep.swap(true, Ordering::SeqCst) {
            self.parker.park(rt);
            self.rise(backoff);
        }
    }

    /// Begins anew to wait, once there is something to do.
    pub(crate) fn rise(&self, backoff: &Backoff) {
        backoff.reset();
        if self.may_sleep.load(Ordering::SeqCst) {
            self.may_sleep.store(false, Ordering::SeqCst);
        }
    }
}

impl Bell {
    /// Wakes the delegate if it sleeps or is about to. Else this costs a look.
    pub fn wake(&self) {
        if self.may_sleep.load(Ordering::SeqCst) {
            self.unparker.unpark();
        }
    }
}
