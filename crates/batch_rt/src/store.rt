// All that the runtime has of objects, at home and in lanes.

use crate::lane::Lane;
use crate::object::Object;
use class_laws::LocalClass;
use ss_base::LaneLog;
use std::alloc::Global;

/// The objects, the total, the lanes and their logs. No bound here holds `Send`, so that the
/// runtime's hooks may call what works on it.
#[derive(Drop)]
pub struct Store<C: LocalClass> {
    pub alloc: Global,
    pub objects: Vec<Object<C>>,
    /// What the operations contributed that ran at home, and those of lanes that came home.
    pub total: C::LocalRed,
    pub lanes: Vec<Lane<C>>,
    pub logs: Vec<LaneLog>,
}
