// One input, read to its end or to the byte that passes its limit.
ghost use Rattle.std.specs.Prelude.{◌≡◌, ◌≢◌, ◌-◌, ◌≤◌, [], ◌∷◌, None, Some, IfOk, length};
ghost use Rattle.script_lang.specs.Lines.{is_line_end, lines};
ghost use Rattle.ss_base.specs.Faults.{Rose};
ghost use Rattle.ss_base.specs.Shelves.{IsHeld, IsSteady, ReadsWhole};
ghost use Rattle.ss_base.specs.declared.limits.TheConstants as limits;
ghost use Rattle.ss_top.specs.Limits.{limit_passed, has_more_lines};
ghost use Rattle.ss_top.specs.Readings.{Asks, IsOver, limited_input};

use crate::limits::{limit_at, most_bytes};
use crate::no_text::NoText;
use crate::{LimitHit, TextFault, Which};
use ss_base::limits::SCRIPT_LINES;
use ss_base::{ReadStop, Shelf, read_all};
use std::alloc::Global;

fn is_line_end(byte: u8) -> bool
    ensures { result ≡ is_line_end byte }
{
    byte == b'\n'
}

// How many lines a script has.
fn line_count(script: &[u8]) -> usize
    requires { length script.now ≤ limits.DOCUMENT_BYTES }
    ensures { result ≡ length (lines script.now) }
{
    let mut count = 0;
    let mut is_between = true;
    for byte in script {
        count += usize::from(is_between);
        is_between = is_line_end(*byte);
    }
    count
}

// Whether a script has too many lines.
fn has_more_lines(which: Which, text: &[u8]) -> bool
    requires { length text.now ≤ limits.DOCUMENT_BYTES }
    ensures { result ≡ has_more_lines which text.now }
{
    match which {
        Which::Script => line_count(text) > SCRIPT_LINES,
        _ => false,
    }
}

/// The text of an input, with so many bytes left of those for all documents.
pub(crate) fn read_input<L: Shelf>(
    alloc: Global,
    shelf: &mut L,
    which: Which,
    name: &str,
    left: usize,
) -> Result<Vec<u8>, NoText>
    requires { left ≤ limits.ALL_DOCUMENT_BYTES }
    ensures asks { Asks L.Shelf shelf.old shelf.new ((which, name.now) ∷ []) }
    ensures whole { IfOk result (λ text.
        ReadsWhole (L.contents shelf.old) name.now (L.left shelf.new) text.items) }
    ensures within { IfOk result (λ text.
        limit_passed (limits.ALL_DOCUMENT_BYTES - left) which text.items ≡ None) }
    ensures read_fault { (failed : Which) → result ≡ Err (NoText.ReadFault failed) →
        (failed ≡ which) × Rose (L.faults shelf.old) (L.faults shelf.new)
        × (IsSteady (L.contents shelf.old) (L.fails_only_if_absent shelf.old) →
        ¬ IsHeld (L.contents shelf.old) name.now) }
    ensures limit { (hit : LimitHit) → result ≡ Err (NoText.Limit hit) →
        (limited_input hit ≡ Some which)
        × IsOver (L.contents shelf.old) (which, name.now) (limits.ALL_DOCUMENT_BYTES - left) hit }
    ensures text { (fault : TextFault) → result ≢ Err (NoText.Text fault) }
{
    match read_all(alloc, shelf, name, most_bytes(left, which)) {
        Ok(text) if has_more_lines(which, &text) => Err(NoText::Limit(LimitHit::ScriptLines)),
        Ok(text) => Ok(text),
        Err(ReadStop::Failed) => Err(NoText::ReadFault(which)),
        Err(ReadStop::TooLong) => Err(NoText::Limit(limit_at(left, which))),
        Err(ReadStop::OutOfMemory) => Err(NoText::OutOfMemory),
    }
}
