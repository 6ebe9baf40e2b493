// The calls that are to fail, for a store or a sink in memory that shows what its callers do then.
ghost use Rattle.std.specs.Prelude.{◌≡◌, ◌↔◌, IsTrue};
ghost use Rattle.gos_outside.specs.Faults.{count_after};
ghost use Rattle.gos_outside.specs.PlannedFaults.{NextFails};

use std::marker::Model;

/// The numbers of the calls that are to fail, counted from 1, and how many calls were made.
#[derive(Drop)]
pub(crate) struct PlannedFaults {
    fail: Vec<u64>,
    calls: u64,
}

impl Model for PlannedFaults {
    ghost use Rattle.gos_outside.specs.PlannedFaults.{Planned};

    ghost Value = { Planned };

    ghost view = { λ planned. record { calls = planned.calls; fail = planned.fail.items } };
}

impl PlannedFaults {
    /// Before the first call.
    pub(crate) fn new(fail: Vec<u64>) -> Self
        ensures { result ≡ record { calls = 0; fail = fail.items } }
    {
        PlannedFaults { fail, calls: 0 }
    }

    /// Counts one more call, and says whether it is to fail.
    pub(crate) fn next_fails(&mut self) -> bool
        ensures fails { IsTrue result ↔ NextFails self.old.calls self.old.fail }
        ensures counted { self.new ≡ record self.old { calls = count_after self.old.calls } }
    {
        self.calls = self.calls.saturating_add(1);
        self.fail.contains(&self.calls)
    }
}
