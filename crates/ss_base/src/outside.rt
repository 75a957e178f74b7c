// The outside: a shelf to read from and a sink to write to, each with a count of its faults.
ghost use Rattle.std.specs.Prelude.{◌≡◌, ℕ, ◌+◌, ◌<◌, ◌≤◌, Bool, IsTrue, List, [], ◌∷◌, ◌++◌, length};
ghost use Rattle.std.specs.Prelude.{OnOk, IfOk};
ghost use Rattle.std.specs.declared.option.Option.{Option};
ghost use Rattle.std.specs.Io.{ReadsAtMost};
ghost use Rattle.ss_base.specs.Faults.{HasCause, HasNoFault};
ghost use Rattle.ss_base.specs.Shelves.{Contents, IsHeld, IsSteady, Opens, Gives, IsOpenAfter};
ghost use Rattle.ss_base.specs.Sinks.{Gains};

use thiserror::Error;

/// The outside failed.
#[derive(Clone, Copy, Debug, PartialEq, Eq, Error)]
#[error("the outside failed")]
pub struct Failed;

/// Names that can be read, one at a time.
pub trait Shelf {
    /// How often it has failed. A count that stands at its type's end stays there.
    ghost faults: { Self → ℕ };

    /// What its names hold, where it tells. No call changes it.
    ghost contents: { Self → Option Contents };

    /// Each name that it was asked to open, in order. The list only grows.
    ghost asked: { Self → List (List ℕ) };

    /// Whether it fails only where an absent name is opened.
    ghost fails_only_if_absent: { Self → Bool };

    /// Whether a name is open.
    ghost is_open: { Self → Bool };

    /// What is left of the name that is open, where it tells.
    ghost left: { Self → Option (List ℕ) };

    /// Opens a name from its front, in place of what was open. After `Failed` nothing is open.
    fn open_name(&mut self, name: &str) -> Result<(), Failed>
        ensures cause { HasCause (faults self.old) (faults self.new) result }
        ensures contents { contents self.new ≡ contents self.old }
        ensures asked { asked self.new ≡ asked self.old ++ name.now ∷ [] }
        ensures steady { IsSteady (contents self.old) (fails_only_if_absent self.old) →
            IsTrue (fails_only_if_absent self.new)
            × (IsHeld (contents self.old) name.now →
            HasNoFault (faults self.old) (faults self.new) result) }
        ensures is_open { IsOpenAfter result (is_open self.new) }
        ensures left { OnOk result (Opens (contents self.old) name.now (left self.new)) };

    /// Puts at least one byte at the front of `into` and says how many, or answers 0 at the end.
    /// After `Failed` nothing is said of what is left until the next name is opened.
    fn read(&mut self, into: &mut [u8]) -> Result<usize, Failed>
        requires is_open { IsTrue (is_open self.old) }
        requires room { 0 < length into.old }
        ensures bound { ReadsAtMost result into.new }
        ensures cause { HasCause (faults self.old) (faults self.new) result }
        ensures contents { contents self.new ≡ contents self.old }
        ensures asked { asked self.new ≡ asked self.old }
        ensures steady { IsSteady (contents self.old) (fails_only_if_absent self.old) →
            IsTrue (fails_only_if_absent self.new)
            × HasNoFault (faults self.old) (faults self.new) result }
        ensures is_open { is_open self.new ≡ is_open self.old }
        ensures left { IfOk result (λ n. Gives (left self.old) (left self.new) into.new n) };
}

/// A place to write to.
pub trait Sink {
    /// How often it has failed. A count that stands at its type's end stays there.
    ghost faults: { Self → ℕ };

    /// The bytes that it gained, where it tells.
    ghost gained: { Self → Option (List ℕ) };

    /// How many bytes it is sure to take.
    ghost sure: { Self → ℕ };

    /// Takes bytes from the front of `bytes`, at least one, and says how many.
    /// After `Failed` it gained none of them.
    fn write(&mut self, bytes: &[u8]) -> Result<usize, Failed>
        requires some { 0 < length bytes.now }
        ensures bound { IfOk result (λ n. (0 < n) × (n ≤ length bytes.now)) }
        ensures cause { HasCause (faults self.old) (faults self.new) result }
        ensures gained { Gains (gained self.old) (gained self.new) result bytes.now }
        ensures sure { 0 < sure self.old →
            HasNoFault (faults self.old) (faults self.new) result
            × IfOk result (λ n. sure self.old ≤ sure self.new + n) };
}
