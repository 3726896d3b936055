//! Which calls of a fake fail.

ghost use Rattle.std.specs.Prelude.{◌≡◌, ◌≤◌, ◌↔◌, IsTrue};
ghost use Rattle.jvm_edges.specs.Plan.{Plan, FailsNext, new_plan, after_call, after_fault};

use std::marker::Model;

/// Which calls of a store or a sink in memory fail, how many calls there were and how many of them failed. Calls
/// are counted from 1, and each count stops at the greatest u64.
#[derive(Drop)]
pub(crate) struct FaultPlan {
    fail_at: Vec<u64>,
    calls: u64,
    faults: u64,
}

impl Model for FaultPlan {
    ghost Value = { Plan };

    ghost view = { λ plan.
        record { fail_at = plan.fail_at.items; calls = plan.calls; faults = plan.faults } };
}

impl FaultPlan {
    pub(crate) fn new(fail_at: Vec<u64>) -> Self
        ensures { result ≡ new_plan fail_at.items }
    {
        FaultPlan {
            fail_at,
            calls: 0,
            faults: 0,
        }
    }

    /// How many calls failed, at most the greatest u64.
    pub(crate) fn faults(&self) -> u64
        ensures { result ≡ self.now.faults }
    {
        self.faults
    }

    /// Counts a call, and answers whether it fails.
    pub(crate) fn count_call(&mut self) -> bool
        ensures fails { IsTrue result ↔ FailsNext self.old }
        ensures counted { self.new ≡ after_call self.old }
    {
        self.calls = self.calls.saturating_add(1);
        self.fail_at.contains(&self.calls)
    }

    /// Counts a fault.
    pub(crate) fn count_fault(&mut self)
        ensures counted { self.new ≡ after_fault self.old }
        ensures later { self.old.faults ≤ self.new.faults }
    {
        self.faults = self.faults.saturating_add(1);
    }
}
