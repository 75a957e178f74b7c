// Lanes come home: their objects, what they contributed, and what they ran.
ghost use Rattle.std.specs.Prelude.{◌≡◌, ◌<◌, OnOk, length};
ghost use Rattle.lane_store.specs.LaneStores.{IsWholeStore, AreIdle, Continues, ComesHome};

use crate::store::LaneStore;
use class_laws::{LocalClass, LocalReducible};
use delegates::Home;
use lane_ends::{LaneWorker, Taker, come_home, end_work};
use lane_objects::bring_values;
use ss_base::OutOfMemory;
use std::sync::Wait;
use std::thread::Threads;

fn join_total<C: LocalClass>(total: &mut C::LocalRed, more: C::LocalRed) -> Result<(), OutOfMemory>
    ensures { OnOk result (total.new ≡ C.local_meaning.join total.old more) }
{
    total.local_join(more)
}

/// Brings a lane home, once all that was sent to it is done.
pub fn bring_home<C: LocalClass, W: LaneWorker<C>, R: Threads + Wait>(
    rt: &R,
    store: &mut LaneStore<C, W>,
    lane: usize,
) -> Result<(), OutOfMemory>
    requires whole { IsWholeStore C.local_meaning W.home_of store.old }
    requires known { lane < length store.old.ends.items }
    requires logged { lane < length store.old.logs.items }
    ensures { OnOk result (ComesHome C.local_meaning W.home_of store.old store.new lane) }
{
    let alloc = store.alloc;
    let Home {
        store: mut held,
        receiver,
    } = come_home(rt, &mut store.ends[lane])?;
    bring_values(&mut store.objects, &mut held);
    join_total::<C>(&mut store.total, held.take_red(alloc))?;
    store.logs[lane].append(held.take_runs(alloc))?;
    let home = Home {
        store: held,
        receiver,
    };
    store.ends[lane].taker = Some(Taker::Program(home));
    Ok(())
}

/// Brings all lanes home.
pub fn bring_all_home<C: LocalClass, W: LaneWorker<C>, R: Threads + Wait>(
    rt: &R,
    store: &mut LaneStore<C, W>,
) -> Result<(), OutOfMemory>
    requires whole { IsWholeStore C.local_meaning W.home_of store.old }
    requires logged { length store.old.logs.items ≡ length store.old.ends.items }
    ensures continues { OnOk result
        (Continues C.local_meaning W.home_of store.old store.new) }
    ensures idle { OnOk result (AreIdle C.local_meaning W.home_of store.new) }
{
    for lane in 0..store.ends.len() {
        bring_home(rt, store, lane)?;
    }
    Ok(())
}

/// Ends the work of all delegates, after a want of memory.
pub fn end_all<C: LocalClass, W: LaneWorker<C>, R: Threads + Wait>(rt: &R, store: LaneStore<C, W>) {
    for end in store.ends {
        end_work(rt, end);
    }
}
