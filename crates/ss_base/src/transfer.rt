// Reading a whole name, and writing a whole text.
ghost use Rattle.std.specs.Prelude.{◌≡◌, ◌+◌, ◌≤◌, [], ◌∷◌, ◌++◌, IsTrue, IsErrOf, IfOk, length, vec_len};
ghost use Rattle.ss_base.specs.Faults.{HasCause, HasNoFault, Rose};
ghost use Rattle.ss_base.specs.Shelves.{IsHeld, IsSteady, ReadsWhole, PassesLimit};
ghost use Rattle.ss_base.specs.Sinks.{GainsAll};
ghost use Rattle.ss_base.specs.declared.limits.TheConstants as limits;
ghost use Rattle.ss_base.specs.declared.transfer.ReadStop.TheVariants as stop;

use crate::{Failed, Shelf, Sink};
use std::alloc::{AllocError, AllocFailed, Global};
use thiserror::Error;

/// Why a name wasn't read whole.
#[derive(Clone, Copy, Debug, PartialEq, Eq, Error)]
pub enum ReadStop {
    /// The shelf failed.
    #[error("the outside failed")]
    Failed,
    /// The name holds more bytes than the limit.
    #[error("longer than the limit")]
    TooLong,
    /// There was no memory for the bytes.
    #[error("out of memory")]
    OutOfMemory,
}

impl From<Failed> for ReadStop {
    ghost from_gives = { λ _ given. given ≡ stop.Failed };

    fn from(_: Failed) -> Self {
        ReadStop::Failed
    }
}

impl From<AllocError> for ReadStop {
    ghost from_gives = { λ _ given. given ≡ stop.OutOfMemory };

    fn from(_: AllocError) -> Self {
        ReadStop::OutOfMemory
    }
}

impl<T: Drop> From<AllocFailed<T>> for ReadStop {
    ghost from_gives = { λ _ given. given ≡ stop.OutOfMemory };

    fn from(_: AllocFailed<T>) -> Self {
        ReadStop::OutOfMemory
    }
}

/// The most bytes that one read asks for.
const PIECE: usize = 4096;

/// Opens a name and reads it to its end, or to the byte that passes the limit, and no further.
///
/// `limit` counts bytes. `TooLong` comes exactly where byte number `limit + 1` was read, and then
/// just so many bytes of the name were taken.
pub fn read_all<L: Shelf>(
    alloc: Global,
    shelf: &mut L,
    name: &str,
    limit: usize,
) -> Result<Vec<u8>, ReadStop>
    requires { limit ≤ limits.DOCUMENT_BYTES }
    ensures never_falls { L.faults shelf.old ≤ L.faults shelf.new }
    ensures contents { L.contents shelf.new ≡ L.contents shelf.old }
    ensures asked { L.asked shelf.new ≡ L.asked shelf.old ++ name.now ∷ [] }
    ensures steady { IsSteady (L.contents shelf.old) (L.fails_only_if_absent shelf.old) →
        IsTrue (L.fails_only_if_absent shelf.new)
        × (IsHeld (L.contents shelf.old) name.now →
        (¬ IsErrOf result ReadStop.Failed) × (L.faults shelf.new ≡ L.faults shelf.old)) }

    ensures within { IfOk result (λ bytes. vec_len bytes ≤ limit) }
    ensures whole { IfOk result (λ bytes.
        ReadsWhole (L.contents shelf.old) name.now (L.left shelf.new) bytes.items) }

    ensures failed { IsErrOf result ReadStop.Failed → Rose (L.faults shelf.old) (L.faults shelf.new) }
    ensures too_long { IsErrOf result ReadStop.TooLong →
        PassesLimit (L.contents shelf.old) name.now limit (L.left shelf.new) }
{
    shelf.open_name(name)?;
    let mut bytes = Vec::new(alloc);
    let mut piece = [0u8; PIECE];
    while bytes.len() <= limit {
        let room = PIECE.min(limit + 1 - bytes.len());
        let count = shelf.read(&mut piece[..room])?;
        if count == 0 {
            return Ok(bytes);
        }
        bytes.extend_from_slice(&piece[..count])?;
    }
    Err(ReadStop::TooLong)
}

/// Writes all bytes, in as many writes as the sink wants. It takes no memory.
pub fn write_all<K: Sink>(sink: &mut K, bytes: &[u8]) -> Result<(), Failed>
    ensures cause { HasCause (K.faults sink.old) (K.faults sink.new) result }
    ensures gained { GainsAll (K.gained sink.old) (K.gained sink.new) result bytes.now }
    ensures sure { length bytes.now ≤ K.sure sink.old →
        HasNoFault (K.faults sink.old) (K.faults sink.new) result
        × (K.sure sink.old ≤ K.sure sink.new + length bytes.now) }
{
    let mut done = 0;
    while done < bytes.len() {
        done += sink.write(&bytes[done..])?;
    }
    Ok(())
}
