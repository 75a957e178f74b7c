// Texts in one string.
ghost use Rattle.std.specs.Prelude.{◌≡◌, ℕ, [], ◌∷◌, ◌++◌, ◌<◌, ◌↔◌, length, Some, IsTrue};
ghost use Rattle.std.specs.List.{slice_get};
ghost use Rattle.std.specs.Prelude.{IfOk, OnOk, OnErr, take, ◌-◌, ◌^◌, ◌≤◌};

use ss_base::OutOfMemory;
use std::alloc::Global;
use std::marker::Model;

// Where a text stands in the string.
#[derive(Clone, Copy, Debug)]
struct Span {
    start: u32,
    end: u32,
}

// A place in the string, if a u32 can name it.
fn offset(place: usize) -> Result<u32, OutOfMemory>
    ensures value { IfOk result (λ offset. offset ≡ place) }
    ensures err { OnErr result (2 ^ 32 ≤ place) }
{
    u32::try_from(place).map_err(|_| OutOfMemory)
}

/// Texts one after another in one string, and numbered from 0. Contracts see the list of them.
//
// What `drop_last` and a failed `push` leave in the string belongs to no text.
#[derive(Drop, Debug)]
pub struct TextList {
    bytes: String,
    spans: Vec<Span>,
}

impl Model for TextList {
    ghost use Rattle.std.specs.Prelude.{ℕ, List, map, string_bytes};

    ghost Value = { List (List ℕ) };

    ghost use Rattle.text_table.specs.TextLists.{text_at, AreTexts};

    ghost view = { λ list. map (text_at (string_bytes list.bytes)) list.spans.items };

    ghost invariant = { λ list. AreTexts (string_bytes list.bytes) list.spans.items };
}

impl TextList {
    /// No text, which takes no memory.
    pub(crate) fn new(alloc: Global) -> TextList
        ensures { result ≡ [] }
    {
        TextList {
            bytes: String::new(alloc),
            spans: Vec::new(alloc),
        }
    }

    /// How many texts there are.
    pub fn len(&self) -> u32
        ensures { result ≡ length self.now }
    {
        self.spans.len() as u32
    }

    /// The text of a number.
    pub fn text(&self, number: u32) -> &str
        requires { number < length self.now }
        ensures { slice_get self.now number ≡ Some result.now }
    {
        let span = self.spans[number as usize];
        &self.bytes.as_str()[span.start as usize..span.end as usize]
    }

    /// Whether the number is that of a text, and the text is this one.
    pub(crate) fn is(&self, number: u32, text: &str) -> bool
        ensures { IsTrue result ↔ (slice_get self.now number ≡ Some text.now) }
    {
        number < self.len() && self.text(number) == text
    }

    /// Adds a text. An `OutOfMemory` changes nothing. It comes too where the string would pass
    /// `u32::MAX` bytes, or the list `u32::MAX` texts.
    pub(crate) fn push(&mut self, text: &str) -> Result<(), OutOfMemory>
        ensures ok { OnOk result (self.new ≡ self.old ++ text.now ∷ []) }
        ensures err { OnErr result (self.new ≡ self.old) }
        ensures few { length self.new < 2 ^ 32 }
    {
        if self.spans.len() >= u32::MAX as usize {
            return Err(OutOfMemory);
        }
        let start = offset(self.bytes.len())?;
        let end = offset(self.bytes.len().saturating_add(text.len()))?;
        self.bytes.push_str(text)?;
        self.spans.push(Span { start, end })?;
        Ok(())
    }

    /// Takes the last text off.
    pub(crate) fn drop_last(&mut self)
        ensures { self.new ≡ take (length self.old - 1) self.old }
    {
        self.spans.pop();
    }

    /// Gives the spare room back.
    pub(crate) fn shrink_to_fit(&mut self)
        ensures { self.new ≡ self.old }
    {
        self.bytes.shrink_to_fit();
        self.spans.shrink_to_fit();
    }

    /// A second list, equal to this one.
    pub fn copy(&self) -> Result<TextList, OutOfMemory>
        ensures { IfOk result (λ copy. copy ≡ self.now) }
    {
        Ok(TextList {
            bytes: self.bytes.clone()?,
            spans: self.spans.clone()?,
        })
    }
}
