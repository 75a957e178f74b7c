// The calls of a program on a class's values, and why one isn't done.
ghost use Rattle.std.specs.Prelude.{◌≡◌};
ghost use Rattle.delegation.specs.declared.call.Fault.TheVariants as fault;

use class_laws::Class;
use execution_definitions::Refusal;
use ss_base::OutOfMemory;
use thiserror::Error;

/// A call of a program, with its values. Each is named as its method of `Delegation`, but for
/// `Write`, which is `Delegation::call`.
pub type Call<C> = execution_definitions::Call<C, <C as Class>::Op>;

/// What an accepted call is answered.
pub type Reply<C> = execution_definitions::Reply<C, <C as Class>::Red>;

/// Why a call of a runtime isn't done.
#[derive(Clone, Copy, Debug, PartialEq, Eq, Error)]
pub enum Fault {
    /// The partition rule refuses the call, and nothing changed.
    #[error(transparent)]
    Refused(Refusal),
    /// There was no memory. From then on the runtime answers every call so.
    #[error("out of memory")]
    OutOfMemory,
}

impl From<Refusal> for Fault {
    ghost from_gives = { λ refusal result. result ≡ fault.Refused refusal };

    fn from(refusal: Refusal) -> Fault {
        Fault::Refused(refusal)
    }
}

impl From<OutOfMemory> for Fault {
    ghost from_gives = { λ none result. result ≡ fault.OutOfMemory };

    fn from(_: OutOfMemory) -> Fault {
        Fault::OutOfMemory
    }
}
