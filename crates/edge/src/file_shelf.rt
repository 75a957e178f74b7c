// Files by their names, as a shelf that counts its faults.
ghost use Rattle.std.specs.Prelude.{false, None};

use crate::again::{open_again, read_again};
use ss_base::{Asked, Failed, Shelf};
use std::fs::Files;
use std::io::Read;

/// Files by their names. It tells nothing of contents: no contract can know what a file holds.
///
/// The name `-` is standard input, which is read once: a later open of it goes on where it stopped.
#[derive(Drop)]
pub struct FileShelf<R: Files + Drop, I: Read + Drop> {
    files: R,
    input: I,
    // the file that is open; none is standard input
    file: Option<R::File>,
    is_open: bool,
    asked: Asked,
    faults: u64,
}

impl<R: Files + Drop, I: Read + Drop> FileShelf<R, I> {
    /// The files of this system, with `input` as standard input.
    pub fn new(files: R, input: I) -> FileShelf<R, I> {
        FileShelf {
            files,
            input,
            file: None,
            is_open: false,
            asked: Asked::new(),
            faults: 0,
        }
    }
}

impl<R: Files + Drop, I: Read + Drop> Shelf for FileShelf<R, I> {
    ghost faults = { λ s. s.faults };

    ghost contents = { λ s. None };

    ghost asked = { λ s. s.asked.names };

    ghost fails_only_if_absent = { λ s. false };

    ghost is_open = { λ s. s.is_open };

    ghost left = { λ s. None };

    fn open_name(&mut self, name: &str) -> Result<(), Failed> {
        self.asked = self.asked.and(name);
        self.file = None;
        self.is_open = true;
        if name == "-" {
            return Ok(());
        }
        match open_again(&self.files, name) {
            Ok(file) => {
                self.file = Some(file);
                Ok(())
            }
            Err(_) => {
                self.is_open = false;
                self.faults = self.faults.saturating_add(1);
                Err(Failed)
            }
        }
    }

    fn read(&mut self, into: &mut [u8]) -> Result<usize, Failed> {
        let read = match &mut self.file {
            Some(file) => read_again(file, into),
            None => read_again(&mut self.input, into),
        };
        match read {
            Ok(count) => Ok(count),
            Err(_) => {
                self.faults = self.faults.saturating_add(1);
                Err(Failed)
            }
        }
    }
}
