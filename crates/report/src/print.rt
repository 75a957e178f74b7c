// The text of an index.
ghost use Rattle.std.specs.Prelude.{◌≡◌, ◌++◌, OnOk, OnErr, IfOk, decimal, take, length};
ghost use Rattle.std.specs.List.{flat_map};
ghost use Rattle.index_definitions.specs.IndexText.{escaped, escaped_byte, postings_text};
ghost use Rattle.index_definitions.specs.IndexText.{count_line, term_line, text_of_index};
ghost use Rattle.report.specs.Printing.{lead_text};

use inverted_index::{Index, Term};
use itoa::Buffer;
use postings::Postings;
use ss_base::OutOfMemory;
use std::alloc::Global;

const HEX_DIGITS: &[u8; 16] = b"0123456789abcdef";

// Appends one byte of a term.
fn push_byte(text: &mut Vec<u8>, byte: u8) -> Result<(), OutOfMemory>
    ensures ok { OnOk result (text.new.items ≡ text.old.items ++ escaped_byte byte) }
    ensures kept { take (length text.old.items) text.new.items ≡ text.old.items }
{
    if byte <= 0x20 || byte == 0x7F || byte == b'\\' {
        text.extend_from_slice(b"\\x")?;
        text.push(HEX_DIGITS[usize::from(byte / 16)])?;
        text.push(HEX_DIGITS[usize::from(byte % 16)])?;
    } else {
        text.push(byte)?;
    }
    Ok(())
}

// Appends a term as it is printed. What the text held stays at its front, also after an error.
fn push_escaped(text: &mut Vec<u8>, term: &str) -> Result<(), OutOfMemory>
    ensures ok { OnOk result (text.new.items ≡ text.old.items ++ escaped term.now) }
    ensures kept { take (length text.old.items) text.new.items ≡ text.old.items }
{
    for byte in term.as_bytes() {
        push_byte(text, *byte)?;
    }
    Ok(())
}

/// Appends a term as it is printed: the bytes 00 to 20, 7F and the backslash as `\x` and two
/// hexadecimal digits in lower case, all others as they are. An `OutOfMemory` changes nothing.
pub fn push_term(_: Global, text: &mut Vec<u8>, term: &str) -> Result<(), OutOfMemory>
    ensures ok { OnOk result (text.new.items ≡ text.old.items ++ escaped term.now) }
    ensures err { OnErr result (text.new.items ≡ text.old.items) }
{
    let before = text.len();
    let pushed = push_escaped(text, term);
    if pushed.is_err() {
        text.truncate(before);
    }
    pushed
}

/// Appends a number in decimal.
pub(crate) fn push_number(text: &mut Vec<u8>, number: u64) -> Result<(), OutOfMemory>
    ensures { OnOk result (text.new.items ≡ text.old.items ++ decimal number) }
{
    let mut buffer = Buffer::new();
    text.extend_from_slice(buffer.format(number).as_bytes())?;
    Ok(())
}

// Appends what stands before a position, behind one of the document `last`.
fn push_lead(text: &mut Vec<u8>, last: u32, document: u32) -> Result<(), OutOfMemory>
    ensures { OnOk result (text.new.items ≡ text.old.items ++ lead_text last document) }
{
    if document == last {
        text.push(b',')?;
        return Ok(());
    }
    if last != 0 {
        text.push(b';')?;
    }
    push_number(text, u64::from(document))?;
    text.push(b':')?;
    Ok(())
}

// Appends the documents of a term, each with its positions.
fn push_postings(text: &mut Vec<u8>, postings: &Postings) -> Result<(), OutOfMemory>
    ensures { OnOk result (text.new.items ≡ text.old.items ++ postings_text postings.now) }
{
    let mut last = 0;
    for (document, position) in postings.iter() {
        push_lead(text, last, document)?;
        push_number(text, u64::from(position))?;
        last = document;
    }
    Ok(())
}

// Appends the line of a term.
fn push_line(alloc: Global, text: &mut Vec<u8>, term: &Term) -> Result<(), OutOfMemory>
    ensures { OnOk result (text.new.items ≡ text.old.items ++ term_line term.now) }
{
    push_term(alloc, text, term.text.as_str())?;
    text.push(b' ')?;
    push_number(text, term.total)?;
    text.push(b' ')?;
    push_postings(text, &term.postings)?;
    text.push(b'\n')?;
    Ok(())
}

// Appends the lines of terms.
fn push_lines(alloc: Global, text: &mut Vec<u8>, terms: &[Term]) -> Result<(), OutOfMemory>
    ensures { OnOk result (text.new.items ≡ text.old.items ++ flat_map term_line terms.now) }
{
    for term in terms {
        push_line(alloc, text, term)?;
    }
    Ok(())
}

/// Appends a line of a word and a number.
#[tactic(auto, unfolding(index_definitions::specs::IndexText::count_line))]
pub(crate) fn push_count(text: &mut Vec<u8>, word: &[u8], number: u64) -> Result<(), OutOfMemory>
    ensures { OnOk result (text.new.items ≡ text.old.items ++ count_line word.now number) }
{
    text.extend_from_slice(word)?;
    text.push(b' ')?;
    push_number(text, number)?;
    text.push(b'\n')?;
    Ok(())
}

/// The text of an index: the counts, and a line for each term in the order of the index.
pub fn print_index(alloc: Global, index: &Index) -> Result<Vec<u8>, OutOfMemory>
    ensures { IfOk result (λ text. text.items ≡ text_of_index index.now) }
{
    let mut text = Vec::new(alloc);
    push_count(&mut text, b"documents", u64::from(index.documents))?;
    push_count(&mut text, b"words", index.words)?;
    push_count(&mut text, b"longest", index.longest)?;
    push_count(&mut text, b"terms", index.terms.len() as u64)?;
    push_lines(alloc, &mut text, &index.terms)?;
    Ok(text)
}
