// How much of an input is read at most, and which limit it passes then.
ghost use Rattle.std.specs.Prelude.{◌≡◌, ◌≤◌};
ghost use Rattle.ss_base.specs.declared.limits.TheConstants as limits;
ghost use Rattle.ss_top.specs.Limits.{limit_with, most_bytes, limit_at};

use crate::{LimitHit, Which};
use ss_base::limits::{DOCUMENT_BYTES, SCHEDULE_BYTES, SCRIPT_BYTES, STOP_LIST_BYTES};

/// The limit that a document passes, with so many bytes left for it of those for all documents.
pub(crate) fn limit_with(number: u32, left: usize) -> LimitHit
    ensures { result ≡ limit_with number left }
{
    if DOCUMENT_BYTES <= left {
        LimitHit::Document(number)
    } else {
        LimitHit::AllDocuments(number)
    }
}

/// How many bytes of an input are read at most, with so many left of those for all documents.
pub(crate) fn most_bytes(left: usize, which: Which) -> usize
    ensures most { result ≡ most_bytes left which }
    ensures bound { result ≤ limits.DOCUMENT_BYTES }
{
    match which {
        Which::Stop => STOP_LIST_BYTES,
        Which::Name(_) => left.min(DOCUMENT_BYTES),
        Which::Script => SCRIPT_BYTES,
        Which::Schedule => SCHEDULE_BYTES,
    }
}

/// The limit that an input passes of which there are more.
pub(crate) fn limit_at(left: usize, which: Which) -> LimitHit
    ensures { result ≡ limit_at left which }
{
    match which {
        Which::Stop => LimitHit::StopBytes,
        Which::Name(number) => limit_with(number, left),
        Which::Script => LimitHit::ScriptBytes,
        Which::Schedule => LimitHit::ScheduleBytes,
    }
}
