// What a delegate has, and what it does.
ghost use Rattle.std.specs.Prelude.{◌≡◌};
ghost use Rattle.delegates.specs.Works.{HasWorked, is_stop};

use crate::gate::LocalGate;
use crate::sleeper::Sleeper;
use crate::store::Store;
use class_laws::LocalClass;
use crossbeam_utils::Backoff;
use set_queue::{Message, Receiver};
use std::sync::Wait;

/// What a delegate has: its store, and its end of a lane.
#[derive(Drop)]
pub struct Home<C: LocalClass> {
    pub store: Store<C>,
    pub receiver: Receiver<C>,
}

fn is_stop<C: LocalClass>(m: &Message<C>) -> bool
    ensures { result ≡ is_stop m.now }
{
    matches!(m, Message::Stop)
}

// Passes the gate before a run.
fn pass_gate<C: LocalClass, G: LocalGate>(gate: &G, m: &Message<C>) {
    match m {
        Message::Carry { set, call, .. } => gate.local_pass(*set, *call),
        Message::Run { set, call, .. } => gate.local_pass(*set, *call),
        Message::Stop => {}
    }
}

/// Takes messages up to the first stop, and gives each to the store. It waits where it finds none.
pub fn work<C: LocalClass, G: LocalGate, R: Wait>(
    rt: &R,
    home: Home<C>,
    gate: &G,
    sleeper: &Sleeper,
) -> Home<C>
    ensures { HasWorked C.local_meaning home result }
{
    let Home {
        mut store,
        mut receiver,
    } = home;
    let backoff = Backoff::new();
    for _ in rt.forever() {
        let Some(m) = receiver.try_next() else {
            sleeper.wait(rt, &backoff);
            continue;
        };
        sleeper.rise(&backoff);
        let is_last = is_stop(&m);
        pass_gate(gate, &m);
        store.take(m);
        if is_last {
            return Home { store, receiver };
        }
    }
    unreachable!()
}
