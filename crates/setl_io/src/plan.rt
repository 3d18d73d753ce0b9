//! Which calls of an object in memory fail.
ghost use Rattle.std.specs.Prelude.{◌≡◌, ◌≤◌};
ghost use Rattle.setl_io.specs.code.Plan.{Plan, new_plan, is_to_fail, after_call};

use std::marker::Model;

/// The numbers of the calls that are to fail, counted from 1, and how many calls and faults there were.
#[derive(Drop)]
pub struct FaultPlan {
    failing: Vec<u64>,
    calls: u64,
    faults: u64,
}

impl Model for FaultPlan {
    ghost Value = { Plan };

    ghost view = { λ p. record { failing = p.failing.items; calls = p.calls; faults = p.faults } };
}

impl FaultPlan {
    /// Before the first call.
    pub fn new(failing: Vec<u64>) -> FaultPlan
        ensures { result ≡ new_plan failing.items }
    {
        FaultPlan {
            failing,
            calls: 0,
            faults: 0,
        }
    }

    /// Whether the next call is to fail.
    pub fn is_to_fail(&self) -> bool
        ensures { result ≡ is_to_fail self.now }
    {
        self.failing.contains(&self.calls.saturating_add(1))
    }

    /// Counts a call, and a fault where it failed.
    pub fn count(&mut self, failed: bool)
        ensures after { self.new ≡ after_call self.old failed }
        ensures later { self.old.faults ≤ self.new.faults }
    {
        self.calls = self.calls.saturating_add(1);
        if failed {
            self.faults = self.faults.saturating_add(1);
        }
    }
}
