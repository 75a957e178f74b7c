// All that a machine has, as long as it finds memory.
ghost use Rattle.std.specs.Prelude.{◌≡◌, ◌≤◌, IfOk};

use crate::store::Store;
use class_laws::LocalClass;
use execution_definitions::{Call, Refusal, Reply};
use ss_base::CallNo;
use std::collections::VecDeque;
use std::snapshot::Snapshot;

/// All that a machine has, as long as it finds memory.
#[derive(Drop)]
pub struct Parts<C: LocalClass> {
    pub store: Store<C>,
    /// All calls. This takes no memory, and is for contracts alone.
    pub program: Snapshot<Vec<Call<C, C::LocalOp>>>,
    /// The calls that weren't taken, without one that was refused.
    pub left: VecDeque<Call<C, C::LocalOp>>,
    pub replies: Vec<Reply<C, C::LocalRed>>,
    pub stop: Option<Refusal>,
    /// The calls that took effect, in that order.
    pub order: Vec<CallNo>,
}
