// All that the runtime has of objects and lanes.

use class_laws::LocalClass;
use lane_ends::LaneEnd;
use lane_objects::Object;
use ss_base::LaneLog;
use std::alloc::Global;

/// The objects, the total, the ends of the lanes and their logs.
#[derive(Drop)]
pub struct LaneStore<C: LocalClass, W> {
    pub alloc: Global,
    pub objects: Vec<Object<C>>,
    /// What the operations contributed that ran at home, and those of lanes when they came home.
    pub total: C::LocalRed,
    pub ends: Vec<LaneEnd<C, W>>,
    /// What lanes had run when they came home.
    pub logs: Vec<LaneLog>,
}
