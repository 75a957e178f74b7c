// How an object was used in one epoch.

ghost use Rattle.std.specs.Prelude.{◌≡◌};
ghost use Rattle.partition_check.specs.Usages.{holds, was_delegated_to, was_read, usage_freed, usage_read};

/// How an object was used in one epoch: one value for all that a cell has to know of it.
///
/// What is held isn't read, so no value stands for both.
#[derive(Clone, Copy)]
pub enum Usage {
    /// Not at all.
    Unused,
    /// Operations were delegated to it, and it is held to the set of the last.
    Held,
    /// They were delegated to it, and then a write or a get freed it.
    Freed,
    /// Operations read it.
    Read,
    /// A write or a get freed it, and then operations read it.
    FreedAndRead,
}

impl Usage {
    /// The object is held to the set of its last delegation.
    pub fn holds(self) -> bool
        ensures { result ≡ holds self }
    {
        matches!(self, Usage::Held)
    }

    /// Operations were delegated to the object.
    pub fn was_delegated_to(self) -> bool
        ensures { result ≡ was_delegated_to self }
    {
        matches!(self, Usage::Held | Usage::Freed | Usage::FreedAndRead)
    }

    /// Operations read the object.
    pub fn was_read(self) -> bool
        ensures { result ≡ was_read self }
    {
        matches!(self, Usage::Read | Usage::FreedAndRead)
    }

    /// With a write or a get of the object.
    pub fn freed(self) -> Usage
        ensures { result ≡ usage_freed self }
    {
        match self {
            Usage::Held => Usage::Freed,
            _ => self,
        }
    }

    /// With an operation that reads the object, which isn't held.
    pub fn read(self) -> Usage
        ensures { result ≡ usage_read self }
    {
        match self {
            Usage::Freed | Usage::FreedAndRead => Usage::FreedAndRead,
            _ => Usage::Read,
        }
    }
}
