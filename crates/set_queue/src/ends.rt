// The two ends of a lane.
ghost use Rattle.std.specs.Prelude.{◌≡◌, ◌+◌, ◌<◌, ◌≤◌, [], ◌∷◌, ◌++◌, length, IfOk, OnOk, IfErr, IfSome, IfNone, IsOk, IsSome};
ghost use mathlib.Core.List.{IsPrefix};
ghost use Rattle.ss_base.specs.declared.limits.TheConstants.{RING};
ghost use Rattle.set_queue.specs.Ends.{sent, received, known, free_slots, capacity_of, AreOneLane, IsSameSender, IsSameReceiver};

use crate::message::Message;
use class_laws::LocalClass;
use rtrb::{Consumer, Producer, PushError, RingBuffer};
use ss_base::OutOfMemory;
use std::alloc::Global;

/// The end of a lane at which the program context sends. Contracts see the list sent.
#[derive(Drop)]
pub struct Sender<C: LocalClass> {
    producer: Producer<Message<C>>,
}

/// The end of a lane at which a delegate takes. Contracts see the list received.
#[derive(Drop)]
pub struct Receiver<C: LocalClass> {
    consumer: Consumer<Message<C>>,
}

/// A lane with room for `capacity` messages, 1 to `ss_base::limits::RING`.
pub fn lane<C: LocalClass>(
    alloc: Global,
    capacity: usize,
) -> Result<(Sender<C>, Receiver<C>), OutOfMemory>
    requires least { 1 ≤ capacity }
    requires most { capacity ≤ RING }
    ensures one { IfOk result (λ ends. AreOneLane ends.0 ends.1) }
    ensures sent { IfOk result (λ ends. sent ends.0 ≡ []) }
    ensures received { IfOk result (λ ends. (received ends.1 ≡ []) × (known ends.1 ≡ [])) }
    ensures room { IfOk result (λ ends. (capacity_of ends.0 ≡ capacity)
        × (free_slots ends.0 ≡ capacity)) }
{
    match RingBuffer::new(alloc, capacity) {
        Ok((producer, consumer)) => Ok((Sender { producer }, Receiver { consumer })),
        Err(_) => Err(OutOfMemory),
    }
}

impl<C: LocalClass> Sender<C> {
    /// Sends a message. It comes back where this end knows no free slot, although it looked.
    ///
    /// It doesn't wait, and takes no memory.
    pub fn try_send(&mut self, m: Message<C>) -> Result<(), Message<C>>
        ensures end { IsSameSender self.old self.new }
        ensures ok { OnOk result ((sent self.new ≡ sent self.old ++ m ∷ [])
            × (free_slots self.old ≤ free_slots self.new + 1)) }
        ensures full { IfErr result (λ back.
            (back ≡ m) × (sent self.new ≡ sent self.old) × (free_slots self.new ≡ 0)) }
        ensures succeeds { 0 < free_slots self.old → IsOk result }
    {
        match self.producer.push(m) {
            Ok(()) => Ok(()),
            Err(PushError::Full(back)) => Err(back),
        }
    }
}

impl<C: LocalClass> Receiver<C> {
    /// Takes the oldest message that wasn't taken. None where this end knows none, although it
    /// looked.
    ///
    /// It doesn't wait, and takes no memory.
    pub fn try_next(&mut self) -> Option<Message<C>>
        ensures end { IsSameReceiver self.old self.new }
        ensures some { IfSome result (λ m. (received self.new ≡ received self.old ++ m ∷ [])
            × IsPrefix (known self.old) (m ∷ known self.new)) }
        ensures none { IfNone result
            ((received self.new ≡ received self.old) × (known self.new ≡ [])) }
        ensures succeeds { 0 < length (known self.old) → IsSome result }
    {
        self.consumer.pop().ok()
    }
}

/// Compares the two ends of a lane, which one thread holds. All that was sent was received or is
/// known to the receiver, and the sender knows all other slots to be free.
///
/// It doesn't wait, and takes no memory.
pub fn meet<C: LocalClass>(s: &mut Sender<C>, r: &mut Receiver<C>)
    requires { AreOneLane s.old r.old }
    ensures one { AreOneLane s.new r.new }
    ensures sender { IsSameSender s.old s.new × (sent s.new ≡ sent s.old) }
    ensures receiver { IsSameReceiver r.old r.new × (received r.new ≡ received r.old) }
    ensures all { received r.new ++ known r.new ≡ sent s.new }
    ensures free { capacity_of s.new ≤ free_slots s.new + length (known r.new) }
{
    s.producer.slots_beside(&mut r.consumer);
    r.consumer.slots_beside(&mut s.producer);
}
