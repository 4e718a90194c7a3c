//! The count of a reader's or writer's calls.

ghost use Rattle.std.specs.Prelude.{◌≡◌, ◌<◌, ◌≤◌, ◌^◌, ◌-◌, ◌↔◌, IsTrue, false};

/// How many calls of a reader or a writer there were, how many of them failed, and whether the last one did.
#[derive(Clone, Copy, Debug, PartialEq, Eq)]
pub struct Tally {
    pub calls: u64,
    pub failures: u64,
    pub failed: bool,
    ghost within: { failures ≤ calls },
}

impl Tally {
    ghost use Rattle.io_text.specs.Calls.{Fails, Passes};

    /// The count before the first call.
    pub fn new() -> Tally
        ensures calls { result.calls ≡ 0 }
        ensures failures { result.failures ≡ 0 }
        ensures failed { result.failed ≡ false }
    {
        Tally {
            calls: 0,
            failures: 0,
            failed: false,
        }
    }

    /// Whether the count of calls has a next value: where it has none, every further call fails.
    pub fn has_next(&self) -> bool
        ensures { IsTrue result ↔ (self.now.calls < 2 ^ 64 - 1) }
    {
        self.calls < u64::MAX
    }

    /// Counts a call that succeeded.
    pub(crate) fn pass(&mut self)
        requires { self.old.calls < 2 ^ 64 - 1 }
        ensures { Passes self.old self.new }
    {
        self.calls += 1;
        self.failed = false;
    }

    /// Counts a call that failed, as far as there is a next count.
    pub(crate) fn fail(&mut self)
        ensures { Fails self.old self.new }
    {
        if self.has_next() {
            self.calls += 1;
            self.failures += 1;
        }
        self.failed = true;
    }
}
