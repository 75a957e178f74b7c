//! Objects of a runtime with lanes: at home, shared with operations that read them, or away.
//!
//! An [`Object`] is what the program context has of an object. One that is at home can be sent to a
//! lane ([`send_object`]) or shared ([`share_object`]), and the values of a lane's store come home
//! together ([`bring_values`]). `specs/Outcomes.antt` says what objects, totals and logs come to,
//! where each lane is the store to which it comes once all that was sent is done.
#![tactic(auto)]

mod object;
mod steps;

pub use object::Object;
pub use steps::{bring_values, own_value, send_object, share_object, value_here, whereabouts};
