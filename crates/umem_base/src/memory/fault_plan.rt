ghost use Rattle.std.specs.Prelude.{◌≡◌};
ghost use Rattle.umem_base.specs.FaultPlan.{fails_next, after_next_call};

use std::marker::Model;

/// Which of an object's calls fail.
#[derive(Debug, Drop)]
pub(crate) struct FaultPlan {
    failing: Vec<u64>,
    calls: u64,
}

impl Model for FaultPlan {
    ghost use Rattle.umem_base.specs.FaultPlan.{FaultPlan};

    ghost Value = { FaultPlan };

    ghost view = { λ p. record { failing = p.failing.items; calls = p.calls } };
}

impl FaultPlan {
    pub(crate) fn new(failing: Vec<u64>) -> FaultPlan
        ensures { result ≡ record { failing = failing.items; calls = 0 } }
    {
        FaultPlan { failing, calls: 0 }
    }

    /// Counts a call, and answers whether it fails.
    pub(crate) fn fails_next(&mut self) -> bool
        ensures fails { result ≡ fails_next self.old }
        ensures after { self.new ≡ after_next_call self.old }
    {
        let fails = self.failing.contains(&self.calls);
        self.calls = self.calls.saturating_add(1);
        fails
    }
}
