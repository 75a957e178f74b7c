// The names that a shelf was asked to open, for contracts alone.
ghost use Rattle.std.specs.Prelude.{◌≡◌, ℕ, List, [], ◌∷◌, ◌++◌};
ghost use Rattle.std.specs.Borrow.{ftrue};

use std::marker::Model;

/// The names that a shelf was asked to open, in their order.
///
/// Contracts alone read the list: it takes no memory, and its calls do nothing when they run.
#[derive(Drop)]
pub struct Asked {
    pub ghost names: { List (List ℕ) },
}

impl Model for Asked {
    ghost also_owns = { λ _. ftrue };
}

impl Asked {
    /// No name.
    pub fn new() -> Asked
        ensures { result.names ≡ [] }
    {
        Asked {}
    }

    /// These names, and then this one.
    pub fn and(&self, name: &str) -> Asked
        ensures { result.names ≡ self.now.names ++ name.now ∷ [] }
    {
        let _ = name;
        Asked {}
    }
}
