// Postings as bytes.
ghost use Rattle.std.specs.Prelude.{◌≡◌, ◌<◌, OnOk};
ghost use Rattle.index_definitions.specs.PostingLists.{RisesAbove};
ghost use Rattle.postings.specs.Appending.{Appends};
ghost use Rattle.postings.specs.Numbers.{lists_of, HoldPostings};
ghost use Rattle.postings.specs.Spelling.{SpellsNumber, SpellsPositions, Spells};

use crate::postings::split_document;
use ss_base::OutOfMemory;

// Appends a number, the low group first.
fn push_number(bytes: &mut Vec<u8>, number: u32) -> Result<(), OutOfMemory>
    requires { 0 < number }
    ensures { OnOk result
        (Appends (λ more. SpellsNumber more number) bytes.old.items bytes.new.items) }
{
    let mut rest = number;
    while rest >= 128 {
        bytes.push((rest % 128 + 128) as u8)?;
        rest /= 128;
    }
    bytes.push(rest as u8)?;
    Ok(())
}

// Appends the positions of a document, each as its difference from the one before, and what ends it.
fn push_positions(bytes: &mut Vec<u8>, positions: &[u32]) -> Result<(), OutOfMemory>
    requires { RisesAbove 0 positions.now }
    ensures { OnOk result
        (Appends (λ more. SpellsPositions 0 more positions.now) bytes.old.items bytes.new.items) }
{
    let mut before = 0;
    for position in positions {
        push_number(bytes, *position - before)?;
        before = *position;
    }
    bytes.push(0)?;
    Ok(())
}

/// Appends the documents that these numbers hold.
pub(crate) fn push_documents(bytes: &mut Vec<u8>, numbers: &[u32]) -> Result<(), OutOfMemory>
    requires { HoldPostings numbers.now }
    ensures { OnOk result
        (Appends (λ more. Spells more (lists_of numbers.now)) bytes.old.items bytes.new.items) }
{
    let mut before = 0;
    let mut rest = numbers;
    while let Some((document, positions, others)) = split_document(rest) {
        push_number(bytes, document - before)?;
        push_positions(bytes, positions)?;
        before = document;
        rest = others;
    }
    Ok(())
}
