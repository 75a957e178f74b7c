// The words that the program was called with.
ghost use Rattle.std.specs.Prelude.{◌≡◌, IfOk, drop};
ghost use Rattle.std.specs.Vec.Iter.{into_iter_items};

use std::alloc::{AllocError, Global};
use std::env;
use std::env::{Args, Env};
use std::io::ErrorKind;
use thiserror::Error;

/// Why there are no words.
#[derive(Clone, Copy, Debug, PartialEq, Eq, Error)]
pub enum ArgumentsFault {
    /// An argument isn't UTF-8, so that it is no word.
    #[error("an argument is no UTF-8")]
    NotText,
    /// There was no memory for the words.
    #[error("out of memory")]
    OutOfMemory,
}

// What follows the program's name, each and in order.
fn after_name(alloc: Global, mut args: Args) -> Result<Vec<String>, AllocError>
    ensures { IfOk result (λ words. words.items ≡ drop 1 (into_iter_items args)) }
{
    let _name = args.next();
    args.collect(alloc)
}

/// The words after the program's name, each and in their order.
pub fn words_of<R: Env + AllocGlobal>(rt: &R) -> Result<Vec<String>, ArgumentsFault> {
    match env::args(rt) {
        Ok(args) => after_name(rt.alloc(), args).map_err(|_| ArgumentsFault::OutOfMemory),
        Err(error) if error.kind() == ErrorKind::OutOfMemory => Err(ArgumentsFault::OutOfMemory),
        Err(_) => Err(ArgumentsFault::NotText),
    }
}
