//! Calls that go another way by their number.

ghost use Rattle.std.specs.Prelude.{◌≡◌, ◌≤◌, ◌↔◌, ◌+◌, IsTrue, All};
ghost use Rattle.harness.specs.Rows.{most_call};
ghost use Rattle.rig_sim.specs.Counters.{IsNext, next_count, numbers_to};

use harness::CallNumbers;
use std::marker::Model;

/// The numbers of a harness file, and how often it was counted. Contracts see both.
#[derive(Drop)]
pub(crate) struct Counter {
    listed: CallNumbers,
    count: u64,
}

impl Model for Counter {
    ghost use Rattle.rig_sim.specs.Counters.{Counted, IsCounter};

    ghost Value = { Counted };

    ghost view = { λ c. record { listed = c.listed; count = c.count } };

    ghost invariant = { λ c. IsCounter c.listed c.count };
}

impl Counter {
    /// Nothing counted yet.
    pub(crate) fn new(listed: CallNumbers) -> Self
        requires { All (λ k. k ≤ most_call) listed }
        ensures { result ≡ record { listed = listed; count = 0 } }
    {
        Counter { listed, count: 0 }
    }

    /// Whether the next one is listed. Takes no memory.
    pub(crate) fn is_next(&self) -> bool
        ensures { IsTrue result ↔ IsNext self.now }
    {
        self.listed.contains(self.count.saturating_add(1))
    }

    /// Counts one more. Takes no memory.
    pub(crate) fn count(&mut self)
        ensures counted { self.new ≡ next_count self.old }
        ensures kept { numbers_to self.old.count self.old.listed ≤ numbers_to self.new.count self.old.listed }
        ensures next { IsNext self.old → numbers_to self.old.count self.old.listed + 1 ≤ numbers_to self.new.count self.old.listed }
    {
        self.count = self.count.saturating_add(1);
    }
}
