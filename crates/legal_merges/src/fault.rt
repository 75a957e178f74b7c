// Why calls aren't merged.
ghost use Rattle.std.specs.Prelude.{◌≡◌};
ghost use Rattle.legal_merges.specs.declared.fault.MergeFault.TheVariants as fault;

use execution_definitions::Refusal;
use ss_base::{CallNo, OutOfMemory};
use std::alloc::AllocError;
use thiserror::Error;

/// Why calls aren't merged.
#[derive(Clone, Copy, Debug, PartialEq, Eq, Error)]
pub enum MergeFault {
    /// The partition rule refuses this call, and none before it. Then there are no legal merges.
    #[error("call {} is refused: {refusal}", .call.0)]
    Broken {
        /// The first call that is refused.
        call: CallNo,
        /// Why it is refused.
        refusal: Refusal,
    },
    /// The order is no legal merge.
    #[error("with place {place} the order begins no legal merge")]
    NotMerge {
        /// The least place with which the order begins no legal merge; where all its places begin
        /// one, and some calls are left, the number of its places.
        place: u64,
    },
    /// There was no memory.
    #[error("out of memory")]
    OutOfMemory,
}

impl From<OutOfMemory> for MergeFault {
    ghost from_gives = { λ none result. result ≡ fault.OutOfMemory };

    fn from(_: OutOfMemory) -> MergeFault {
        MergeFault::OutOfMemory
    }
}

impl From<AllocError> for MergeFault {
    ghost from_gives = { λ none result. result ≡ fault.OutOfMemory };

    fn from(_: AllocError) -> MergeFault {
        MergeFault::OutOfMemory
    }
}
