ghost use Rattle.std.specs.Prelude.{◌≡◌, ◌≤◌, ◌↔◌, IfOk, IsTrue};
ghost use Rattle.ss_base.specs.Ends.{IsToFail, unbroken, passed, failed};

use crate::types::Memory;
use std::alloc::Global;
use std::marker::Model;

/// Which calls are to fail, and how many there were and failed. Both counts stand still at 2^64 - 1.
#[derive(Debug, Drop)]
pub(crate) struct Plan {
    fail: Vec<u64>,
    calls: u64,
    faults: u64,
}

impl Model for Plan {
    ghost use Rattle.ss_base.specs.Ends.{PlanState};

    ghost Value = { PlanState };

    ghost view = { λ p. record { fail = p.fail.items; calls = p.calls; faults = p.faults } };
}

impl Plan {
    /// The plan with the numbers of the calls that are to fail, counted from 1.
    pub(crate) fn new(alloc: Global, fail: &[u64]) -> Result<Plan, Memory>
        ensures { IfOk result (λ p. p ≡ unbroken fail.now) }
    {
        let fail = Vec::from_slice(alloc, fail)?;
        Ok(Plan {
            fail,
            calls: 0,
            faults: 0,
        })
    }

    /// Whether the next call is to fail.
    pub(crate) fn is_to_fail(&self) -> bool
        ensures { IsTrue result ↔ IsToFail self.now }
    {
        self.fail.contains(&self.calls.saturating_add(1))
    }

    /// Counts a call that goes well.
    pub(crate) fn pass(&mut self)
        ensures { self.new ≡ passed self.old }
    {
        self.calls = self.calls.saturating_add(1);
    }

    /// Counts a call that fails.
    pub(crate) fn fail(&mut self)
        ensures state { self.new ≡ failed self.old }
        ensures count { self.old.faults ≤ self.new.faults }
    {
        self.calls = self.calls.saturating_add(1);
        self.faults = self.faults.saturating_add(1);
    }
}
