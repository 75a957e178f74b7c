// What a delegate's thread passes before each run.

use ss_base::{CallNo, SetId};

/// What a delegate's thread calls before each run of a delegated operation. It may take its time.
/// Contracts say nothing of it.
pub trait Gate: Send + Sync + Drop {
    /// Lets the run of this call pass.
    fn pass(&self, set: SetId, call: CallNo);
}

/// `Gate` for code that a method of an impl calls, where a bound may not hold `Send`. Everywhere
/// else, and to implement, take `Gate`.
pub trait LocalGate: Drop {
    /// `Gate::pass`.
    fn local_pass(&self, set: SetId, call: CallNo);
}

impl<G: Gate> LocalGate for G {
    fn local_pass(&self, set: SetId, call: CallNo) {
        self.pass(set, call);
    }
}

/// A gate that lets everything pass at once.
#[derive(Drop)]
pub struct OpenGate;

impl Gate for OpenGate {
    fn pass(&self, _set: SetId, _call: CallNo) {}
}
