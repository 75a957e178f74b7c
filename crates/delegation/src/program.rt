// A whole list of calls, made one after the other.
ghost use Rattle.std.specs.Prelude.{◌≡◌, [], IfOk};
ghost use Rattle.delegation.specs.Runtimes.{IsAfter};
ghost use Rattle.delegation.specs.Answers.{Makes, MakesSaying, AnswersEachList, fault_in};
ghost use Rattle.delegation.specs.Programs.{HasRun};

use crate::call::{Call, Fault, Reply};
use crate::delegation::Delegation;
use class_laws::{Class, Reducible};
use execution_definitions::Refusal;
use ss_base::OutOfMemory;
use std::alloc::Global;
use std::sync::Wait;
use std::thread::Threads;

/// What a list of calls was answered.
#[derive(Drop)]
pub struct Ran<C: Class> {
    /// The replies of the calls that were accepted, in their order.
    pub replies: Vec<Reply<C>>,
    /// Why the next call was refused, if one was.
    pub stopped: Option<Refusal>,
}

/// Makes a call that is a value.
///
/// The answer says what the same call of `Delegation` says. Only of `Get` and `Total`, whose replies
/// are copied, a want of memory may be that of the copy alone: then the runtime took the call.
pub fn make_call<C: Class, D: Delegation<C>, R: Threads + Wait + Copy + Send + Sync + 'static>(
    rt: &R,
    alloc: Global,
    d: &mut D,
    call: Call<C>,
) -> Result<Reply<C>, Fault>
    ensures made { Makes C.meaning (D.seen d.old) (D.seen d.new) call result }
    ensures follows { AnswersEachList C.meaning (D.seen d.old) (D.seen d.new) call result }
    ensures moves { MakesSaying (λ fault. D.moves d.old d.new call fault) call (fault_in result) }
{
    match call {
        Call::Make { value, by } => Ok(Reply::Made(d.make(value, by)?)),
        Call::MakeFixed { value } => Ok(Reply::Made(d.make_fixed(value)?)),
        Call::Begin => {
            d.begin()?;
            Ok(Reply::Done)
        }
        Call::Delegate {
            object,
            op,
            reading,
        } => Ok(Reply::Sent(d.delegate(rt, object, op, reading)?)),
        Call::Write { object, op } => {
            d.call(rt, object, op)?;
            Ok(Reply::Done)
        }
        Call::Get { object } => Ok(Reply::Value(d.get(rt, object)?.copy(alloc)?)),
        Call::End => {
            d.end(rt)?;
            Ok(Reply::Done)
        }
        Call::Total => Ok(Reply::Total(d.total()?.copy()?)),
    }
}

/// Makes the calls in their order, up to the first that is refused. The runtime is a new one.
///
/// The replies are those of the program without delegates, and the refusal is that of the first
/// call that breaks the partition rule.
pub fn run_calls<C: Class, D: Delegation<C>, R: Threads + Wait + Copy + Send + Sync + 'static>(
    rt: &R,
    alloc: Global,
    d: &mut D,
    calls: Vec<Call<C>>,
) -> Result<Ran<C>, OutOfMemory>
    requires { IsAfter C.meaning (D.seen d.old) [] }
    ensures { IfOk result (λ ran. HasRun C.meaning (D.seen d.new) calls.items ran.replies.items
        ran.stopped) }
{
    let mut replies = Vec::with_capacity(alloc, calls.len())?;
    for call in calls {
        match make_call(rt, alloc, d, call) {
            Ok(reply) => replies.push(reply)?,
            Err(Fault::Refused(refusal)) => return Ok(answered(replies, Some(refusal))),
            Err(Fault::OutOfMemory) => return Err(OutOfMemory),
        }
    }
    Ok(answered(replies, None))
}

fn answered<C: Class>(replies: Vec<Reply<C>>, stopped: Option<Refusal>) -> Ran<C>
    ensures replies { result.replies.items ≡ replies.items }
    ensures stopped { result.stopped ≡ stopped }
{
    Ran { replies, stopped }
}
