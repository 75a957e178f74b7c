// A shelf in memory, with calls that fail as listed.
ghost use Rattle.std.specs.Prelude.{◌≡◌, ◌+◌, ◌<◌, ◌≤◌, ◌^◌, ◌&&◌, ◌∷◌, ◌++◌, [], false, not, Some};
ghost use Rattle.std.specs.Prelude.{IfSome, IfOk, OnOk, IsTrue, is_ok, is_some, length, position, drop};
ghost use Rattle.std.specs.Io.{ReadsAtMost};
ghost use Rattle.std.specs.Option.{option_copied};
ghost use Rattle.std.specs.Str.{bytes_eq};
ghost use Rattle.ss_base.specs.Calls.{fails_none, fitting, fitting_left, next_fails, IsNew, IsNext};
ghost use Rattle.ss_base.specs.Faults.{CountsFaults, HasCause, HasNoFault};
ghost use Rattle.ss_base.specs.Files.{bytes_of, rest_at};
ghost use Rattle.ss_base.specs.Shelves.{Gives, IsHeld, IsOpenAfter, IsSteady, Opens};

use crate::calls::Calls;
use crate::{Asked, Failed, Shelf, Text};

/// Files in memory. It tells its contents.
///
/// Opens and reads are numbered together from 0, and those that are listed fail; so does opening a
/// name that isn't there. A read gives the least of the chunk, the room and what is left.
#[derive(Drop)]
pub struct MemShelf {
    files: Vec<(Text, Vec<u8>)>,
    chunk: usize,
    calls: Calls,
    faults: u64,
    is_open: bool,
    place: usize,
    taken: usize,
    asked: Asked,
    ghost gives_some: { 0 < chunk },
}

impl MemShelf {
    /// A shelf that holds these files, the first of those with one name. `fail` lists the numbers
    /// of the calls that fail, and `chunk` is the most bytes that a read gives.
    pub fn new(files: Vec<(Text, Vec<u8>)>, fail: Vec<u64>, chunk: usize) -> MemShelf
        requires { 0 < chunk }
        ensures contents { ⟦<MemShelf as Shelf>⟧.contents result ≡ Some (bytes_of files.items) }
        ensures asked { ⟦<MemShelf as Shelf>⟧.asked result ≡ [] }
        ensures steady { ⟦<MemShelf as Shelf>⟧.fails_only_if_absent result ≡ fails_none fail.items }
        ensures faults { ⟦<MemShelf as Shelf>⟧.faults result ≡ 0 }
        ensures is_open { ⟦<MemShelf as Shelf>⟧.is_open result ≡ false }
        ensures calls { IsNew result.calls fail }
        ensures chunk { result.chunk ≡ chunk }
    {
        MemShelf {
            files,
            chunk,
            calls: Calls::new(fail),
            faults: 0,
            is_open: false,
            place: 0,
            taken: 0,
            asked: Asked::new(),
        }
    }
}

// The place of the first file with this name.
fn place_of(files: &[(Text, Vec<u8>)], name: &str) -> Option<usize>
    ensures { result ≡ position (λ f. bytes_eq f.0 name.now) files.now }
{
    files.iter().position(|file| file.0.as_str() == name)
}

// What is left of the file at a place.
fn rest(files: &[(Text, Vec<u8>)], place: usize, taken: usize) -> Option<&[u8]>
    ensures value { option_copied result ≡ rest_at files.now place taken }
    ensures room { IfSome result (λ rest. length rest.now + taken < 2 ^ 64) }
{
    let (_, bytes) = files.get(place)?;
    if taken <= bytes.len() {
        Some(&bytes[taken..])
    } else {
        Some(&[])
    }
}

// Puts the least of the chunk, the room and the rest at the front, and says how much that is.
fn give(rest: &[u8], chunk: usize, into: &mut [u8]) -> usize
    requires some { 0 < chunk }
    requires room { 0 < length into.old }
    ensures within { result ≤ length rest.now }
    ensures bound { result ≤ length into.new }
    ensures fits { result ≡ fitting chunk (length into.old) (length rest.now) }
    ensures gives { Gives (Some rest.now) (Some (drop result rest.now)) into.new result }
{
    let count = chunk.min(into.len()).min(rest.len());
    into[..count].copy_from_slice(&rest[..count]);
    count
}

impl Shelf for MemShelf {
    ghost faults = { λ s. s.faults };

    ghost contents = { λ s. Some (bytes_of s.files.items) };

    ghost asked = { λ s. s.asked.names };

    ghost fails_only_if_absent = { λ s. fails_none s.calls.fail.items };

    ghost is_open = { λ s. s.is_open };

    ghost left = { λ s. rest_at s.files.items s.place s.taken };

    fn open_name(&mut self, name: &str) -> Result<(), Failed>
        ensures cause { HasCause self.old.faults self.new.faults result }
        ensures contents { bytes_of self.new.files.items ≡ bytes_of self.old.files.items }
        ensures asked { self.new.asked.names ≡ self.old.asked.names ++ name.now ∷ [] }
        ensures steady { IsSteady (Some (bytes_of self.old.files.items))
            (fails_none self.old.calls.fail.items) →
            IsTrue (fails_none self.new.calls.fail.items)
            × (IsHeld (Some (bytes_of self.old.files.items)) name.now →
            HasNoFault self.old.faults self.new.faults result) }
        ensures is_open { IsOpenAfter result self.new.is_open }
        ensures left { OnOk result (Opens (Some (bytes_of self.old.files.items)) name.now
            (rest_at self.new.files.items self.new.place self.new.taken)) }
        // what follows is this shelf's own: which calls fail, and nothing else counts a fault
        ensures fails { is_ok result
            ≡ (not (next_fails self.old.calls) && is_some (bytes_of self.old.files.items name.now)) }
        ensures counts { CountsFaults self.old.faults self.new.faults result }
        ensures calls { IsNext self.old.calls self.new.calls }
        ensures chunk { self.new.chunk ≡ self.old.chunk }
    {
        self.is_open = false;
        self.asked = self.asked.and(name);
        if self.calls.next_fails() {
            self.faults = self.faults.saturating_add(1);
            return Err(Failed);
        }
        let Some(place) = place_of(&self.files, name) else {
            self.faults = self.faults.saturating_add(1);
            return Err(Failed);
        };
        self.is_open = true;
        self.place = place;
        self.taken = 0;
        Ok(())
    }

    fn read(&mut self, into: &mut [u8]) -> Result<usize, Failed>
        requires is_open { IsTrue self.old.is_open }
        requires room { 0 < length into.old }
        ensures bound { ReadsAtMost result into.new }
        ensures cause { HasCause self.old.faults self.new.faults result }
        ensures contents { bytes_of self.new.files.items ≡ bytes_of self.old.files.items }
        ensures asked { self.new.asked.names ≡ self.old.asked.names }
        ensures steady { IsSteady (Some (bytes_of self.old.files.items))
            (fails_none self.old.calls.fail.items) →
            IsTrue (fails_none self.new.calls.fail.items)
            × HasNoFault self.old.faults self.new.faults result }
        ensures is_open { self.new.is_open ≡ self.old.is_open }
        ensures left { IfOk result (Gives (rest_at self.old.files.items self.old.place self.old.taken)
            (rest_at self.new.files.items self.new.place self.new.taken) into.new) }
        // what follows is this shelf's own: which calls fail, and how much each gives
        ensures fails { is_ok result ≡ not (next_fails self.old.calls) }
        ensures fits { IfOk result (λ n. n ≡ fitting_left self.old.chunk (length into.old)
            (rest_at self.old.files.items self.old.place self.old.taken)) }
        ensures counts { CountsFaults self.old.faults self.new.faults result }
        ensures calls { IsNext self.old.calls self.new.calls }
        ensures chunk { self.new.chunk ≡ self.old.chunk }
    {
        if self.calls.next_fails() {
            self.faults = self.faults.saturating_add(1);
            return Err(Failed);
        }
        let Some(rest) = rest(&self.files, self.place, self.taken) else {
            return Ok(0);
        };
        let count = give(rest, self.chunk, into);
        self.taken += count;
        Ok(count)
    }
}
