// The calls of a shelf or a sink in memory, numbered, and those among them that are made to fail.
ghost use Rattle.std.specs.Prelude.{◌≡◌};

/// Counts calls from 0, and says which of them fail.
#[derive(Drop)]
pub(crate) struct Calls {
    fail: Vec<u64>,
    made: u64,
}

impl Calls {
    ghost use Rattle.ss_base.specs.Calls.{IsNew, IsNext, next_fails};

    pub(crate) fn new(fail: Vec<u64>) -> Calls
        ensures { IsNew result fail }
    {
        Calls { fail, made: 0 }
    }

    /// Numbers one more call, and says whether it is to fail.
    pub(crate) fn next_fails(&mut self) -> bool
        ensures value { result ≡ next_fails self.old }
        ensures next { IsNext self.old self.new }
    {
        let number = self.made;
        self.made = number.saturating_add(1);
        self.fail.contains(&number)
    }
}
