// A lane: the operations that are pending, and the objects that went with them.

use crate::entries::run_entries;
use class_laws::{Class, LocalClass};
use jobs::Job;
use ss_base::{ObjectId, Run};
use std::alloc::Global;
use std::sync::{Arc, Wait};

/// A pending operation.
#[derive(Drop)]
pub struct Entry<C: LocalClass> {
    /// What the log will tell of it.
    pub run: Run,
    /// The place of its object among the lane's values.
    pub place: usize,
    pub op: C::LocalOp,
    pub reading: Option<Arc<C>>,
}

/// A lane, which a thread can run.
#[derive(Drop)]
pub struct Lane<C: LocalClass> {
    pub alloc: Global,
    /// The objects that went with the lane, and their values.
    pub numbers: Vec<ObjectId>,
    pub values: Vec<C>,
    pub pending: Vec<Entry<C>>,
    /// What was run since the lane was last at home, and what it contributed; none where nothing
    /// did.
    pub ran: Vec<Run>,
    pub part: Option<C::LocalRed>,
    /// An operation found no memory. Then nothing is said of all else.
    pub is_broken: bool,
}

impl<C: Class + 'static> Job for Lane<C> {
    ghost use Rattle.batch_rt.specs.Lanes.{Works};

    ghost gives = { Works C.meaning };

    fn run<R: Wait>(self, _rt: &R) -> Lane<C> {
        run_entries(self)
    }
}
