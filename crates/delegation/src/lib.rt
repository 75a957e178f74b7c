//! Delegated calls: what every runtime of serialization sets is.
//!
//! A program makes objects and calls their operations. It stays sequential, and some of its calls
//! are delegated (Allen, Sridharan and Sohi, "Serialization Sets", PPoPP 2009): a serializer maps
//! each delegated operation to a set, operations of one set run in program order, and operations of
//! different sets may run at the same time. Whatever runs when, the program is answered as if every
//! operation had run at its call.
//!
//! **Who writes a program** uses [`Delegation`]: ten calls, with the same contract for every runtime.
//! Contracts see a runtime as the values and the total that the program has without delegates, with
//! what the partition rule knows of the calls so far, and with the runs sent to each lane and done
//! there. Each call says what its answer means of one call, and of every list of calls that the
//! runtime is after. [`make_call`] makes a call that is a value, and [`run_calls`] a whole list of
//! them. [`Plain`] is the runtime without delegates.
//!
//! **Who writes a runtime** implements [`Runtime`]: a hook behind each call, and what is seen of the
//! runtime. A hook owes what its answer says of that one call. It may look at marks through the
//! calls of `Marks` alone, and has to answer as they judge. The theorem on lists of calls is proved
//! here once, at the calls of `Delegation`, whose impl stays empty. Threads are started through the
//! `Starter` of the crate `jobs` that a hook is handed.
#![tactic(auto)]

mod call;
mod delegation;
mod plain;
mod program;
mod runtime;

pub use call::{Call, Fault, Reply};
pub use delegation::Delegation;
pub use plain::{Idle, Plain};
pub use program::{Ran, make_call, run_calls};
pub use runtime::{Finished, Runtime};
