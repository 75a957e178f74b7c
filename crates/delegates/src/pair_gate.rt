// A gate at which two sets meet.
ghost use Rattle.std.specs.Prelude.{◌≢◌};

use crate::gate::Gate;
use ss_base::{CallNo, SetId};
use std::sync::atomic::{AtomicBool, Ordering};
use std::thread;

// After so many looks a thread lets others run, since the other set may be waiting for a processor.
const LOOKS_IN_A_ROW: u64 = 1_000;

/// A gate at which calls of two sets look for each other. It shows that both ran at once.
///
/// A call of either set first marks that its set has arrived, and then looks whether the other has,
/// so many times at most. Where one runs after the other, the first of them never sees the second.
#[derive(Drop)]
pub struct PairGate {
    one: Side,
    other: Side,
    turns: u64,
    has_run_out: AtomicBool,
}

// One of the two sets.
#[derive(Drop)]
struct Side {
    set: SetId,
    has_arrived: AtomicBool,
    saw_other: AtomicBool,
}

fn make_side(set: SetId) -> Side {
    Side {
        set,
        has_arrived: AtomicBool::new(false),
        saw_other: AtomicBool::new(false),
    }
}

impl Side {
    // Looks so many times at most whether this set has arrived.
    fn is_seen(&self, turns: u64) -> bool {
        for turn in 0..turns {
            if self.has_arrived.load(Ordering::SeqCst) {
                return true;
            }
            if turn % LOOKS_IN_A_ROW == LOOKS_IN_A_ROW - 1 {
                thread::yield_now();
            }
        }
        false
    }
}

impl PairGate {
    /// A gate for two sets that differ. A call looks `turns` times for the other set.
    pub fn new(one: SetId, other: SetId, turns: u64) -> PairGate
        requires { one.0 ≢ other.0 }
    {
        PairGate {
            one: make_side(one),
            other: make_side(other),
            turns,
            has_run_out: AtomicBool::new(false),
        }
    }

    /// A call of each set saw that the other had arrived, and no call looked in vain.
    pub fn both_passed(&self) -> bool {
        self.one.saw_other.load(Ordering::SeqCst)
            && self.other.saw_other.load(Ordering::SeqCst)
            && !self.has_run_out.load(Ordering::SeqCst)
    }

    // A call of one set arrives, and looks for the other.
    fn meet(&self, own: &Side, other: &Side) {
        own.has_arrived.store(true, Ordering::SeqCst);
        let result = if other.is_seen(self.turns) {
            &own.saw_other
        } else {
            &self.has_run_out
        };
        result.store(true, Ordering::SeqCst);
    }
}

impl Gate for PairGate {
    fn pass(&self, set: SetId, _call: CallNo) {
        if set == self.one.set {
            self.meet(&self.one, &self.other);
        } else if set == self.other.set {
            self.meet(&self.other, &self.one);
        }
    }
}
