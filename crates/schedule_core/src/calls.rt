// What the program context's calls do to a store.
ghost use Rattle.std.specs.Prelude.{◌≡◌, ℕ, List, [], ◌∷◌, if◌then◌else◌};
ghost use Rattle.std.specs.Option.{option_map};
ghost use Rattle.execution_definitions.specs.declared.call.Call.{Call};
ghost use Rattle.execution_definitions.specs.declared.call.Call.TheVariants as call;
ghost use Rattle.interleavings.specs.Machines.{is_idle_for, may_take, effect_of};
ghost use Rattle.schedule_core.specs.Stores.{core_of, call_making, IsFit, StaysFit, IsAfter, Answers};

use crate::queues::{all_idle, is_idle, push_to};
use crate::store::{Store, Waiting, operate, value_to_read};
use class_laws::{LocalClass, LocalReducible, no_reading};
use delegation::Fault;
use execution_definitions::{By, Call, Reply};
use partition_check::MarkFault;
use serializer::lane_of;
use ss_base::{CallNo, ObjectId, Run, SetId};

// Nothing waits in the lane of a set, where there is a set.
fn is_idle_for<C: LocalClass>(store: &Store<C>, set: Option<SetId>) -> bool
    requires { IsFit store.now }
    ensures { result ≡ is_idle_for (core_of store.now) (option_map (λ s. s.0) set) }
{
    match set {
        None => true,
        Some(set) => is_idle(&store.lanes, lane_of(set, store.lanes.len() as u32)),
    }
}

/// The program context may take this call: an end finds nothing waiting, and a write or a get nothing
/// in the lane of the object's last delegation in this epoch.
pub fn may_take<C: LocalClass>(store: &Store<C>, call: &Call<C, C::LocalOp>) -> bool
    requires { IsFit store.now }
    ensures { (before : List (Call C C.LocalOp)) → IsAfter C.local_meaning store.now before →
        result ≡ may_take C.local_meaning before (core_of store.now) call.now }
{
    match call {
        Call::Write { object, .. } => is_idle_for(store, store.marks.delegated_to(*object)),
        Call::Get { object } => is_idle_for(store, store.marks.delegated_to(*object)),
        Call::End => all_idle(&store.lanes),
        _ => true,
    }
}

/// The call takes effect at its program event: all but a delegation do.
pub fn takes_effect<C: LocalClass>(call: &Call<C, C::LocalOp>) -> bool
    ensures { (place : ℕ) → effect_of C.local_meaning place call.now
        ≡ (if result then place ∷ [] else []) }
{
    !matches!(call, Call::Delegate { .. })
}

fn make<C: LocalClass>(
    store: &mut Store<C>,
    value: C,
    by: Option<By>,
) -> Result<Reply<C, C::LocalRed>, Fault>
    requires { IsFit store.old }
    ensures answers { Answers C.local_meaning store.old store.new (call_making value by) result }
    ensures fit { StaysFit store.new result }
{
    match store.marks.new_object(by) {
        Ok(object) => {
            let Ok(()) = store.values.push(value) else {
                return Err(Fault::OutOfMemory);
            };
            Ok(Reply::Made(object))
        }
        Err(MarkFault::Refused(refusal)) => Err(Fault::Refused(refusal)),
        Err(MarkFault::OutOfMemory) => Err(Fault::OutOfMemory),
    }
}

fn begin<C: LocalClass>(store: &mut Store<C>) -> Result<Reply<C, C::LocalRed>, Fault>
    requires { IsFit store.old }
    ensures answers { Answers C.local_meaning store.old store.new call.Begin result }
    ensures fit { StaysFit store.new result }
{
    store.marks.begin()?;
    Ok(Reply::Done)
}

// The operation waits at the end of its lane, with a copy of the value that it reads.
fn delegate<C: LocalClass>(
    store: &mut Store<C>,
    object: ObjectId,
    op: C::LocalOp,
    reading: Option<ObjectId>,
) -> Result<Reply<C, C::LocalRed>, Fault>
    requires { IsFit store.old }
    ensures answers { Answers C.local_meaning store.old store.new
        (call.Delegate object op reading) result }
    ensures fit { StaysFit store.new result }
{
    let call = CallNo(store.marks.calls());
    let epoch = store.marks.epoch();
    let set = store
        .marks
        .delegate(object, C::local_own_set(&op), reading)?;
    let read = value_to_read(store.alloc, &store.values, reading)?;
    let run = Run {
        call,
        epoch,
        set,
        object,
    };
    let lane = lane_of(set, store.lanes.len() as u32);
    push_to(&mut store.lanes, lane, Waiting { run, op, read })?;
    Ok(Reply::Sent(call))
}

fn write<C: LocalClass>(
    store: &mut Store<C>,
    object: ObjectId,
    op: &C::LocalOp,
) -> Result<Reply<C, C::LocalRed>, Fault>
    requires { IsFit store.old }
    ensures answers { Answers C.local_meaning store.old store.new (call.Write object op.now) result }
    ensures fit { StaysFit store.new result }
{
    store.marks.check_write(object)?;
    operate(
        store.alloc,
        &mut store.values,
        &mut store.total,
        object,
        op,
        no_reading(),
    )?;
    store.marks.note_call(Some(object));
    Ok(Reply::Done)
}

fn get<C: LocalClass>(
    store: &mut Store<C>,
    object: ObjectId,
) -> Result<Reply<C, C::LocalRed>, Fault>
    requires { IsFit store.old }
    ensures answers { Answers C.local_meaning store.old store.new (call.Get object) result }
    ensures fit { StaysFit store.new result }
{
    store.marks.check_get(object)?;
    let value = store.values[object.0 as usize].local_copy(store.alloc)?;
    store.marks.note_call(Some(object));
    Ok(Reply::Value(value))
}

fn end<C: LocalClass>(store: &mut Store<C>) -> Result<Reply<C, C::LocalRed>, Fault>
    requires { IsFit store.old }
    ensures answers { Answers C.local_meaning store.old store.new call.End result }
    ensures fit { StaysFit store.new result }
{
    store.marks.end()?;
    Ok(Reply::Done)
}

fn total<C: LocalClass>(store: &mut Store<C>) -> Result<Reply<C, C::LocalRed>, Fault>
    requires { IsFit store.old }
    ensures answers { Answers C.local_meaning store.old store.new call.Total result }
    ensures fit { StaysFit store.new result }
{
    store.marks.check_total()?;
    let total = store.total.local_copy()?;
    store.marks.note_call(None);
    Ok(Reply::Total(total))
}

/// Takes a call that may be taken, and gives its reply. A refused one changes nothing.
pub fn answer<C: LocalClass>(
    store: &mut Store<C>,
    call: Call<C, C::LocalOp>,
) -> Result<Reply<C, C::LocalRed>, Fault>
    requires { IsFit store.old }
    ensures answers { Answers C.local_meaning store.old store.new call result }
    ensures fit { StaysFit store.new result }
{
    match call {
        Call::Make { value, by } => make(store, value, Some(by)),
        Call::MakeFixed { value } => make(store, value, None),
        Call::Begin => begin(store),
        Call::Delegate {
            object,
            op,
            reading,
        } => delegate(store, object, op, reading),
        Call::Write { object, op } => write(store, object, &op),
        Call::Get { object } => get(store, object),
        Call::End => end(store),
        Call::Total => total(store),
    }
}
