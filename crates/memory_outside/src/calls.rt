ghost use Rattle.std.specs.Prelude.{◌≡◌, ◌↔◌, IsTrue};
ghost use Rattle.memory_outside.specs.Plan.{Fails, FailsNext, one_more};

use crate::plan::FaultPlan;
use std::marker::Model;

/// The calls of an object in memory: which are to fail, how many were made, and how many found no memory.
#[derive(Debug, Drop)]
pub struct Calls {
    plan: FaultPlan,
    made: u64,
    starved: u64,
}

impl Model for Calls {
    ghost use Rattle.memory_outside.specs.Plan.{PlanCounts};

    ghost Value = { PlanCounts };

    ghost view = { λ c. record { plan = c.plan; calls = c.made; starved = c.starved } };
}

/// Whether the plan has the call of that number fail.
fn is_planned(plan: &FaultPlan, number: u64) -> bool
    ensures { IsTrue result ↔ Fails plan.now number }
{
    let stopped = match plan.stop {
        Some(stop) => u64::from(stop) <= number,
        None => false,
    };
    stopped
        || plan
            .fails
            .as_slice()
            .iter()
            .any(|planned| u64::from(*planned) == number)
}

impl Calls {
    /// No calls yet.
    pub(crate) fn new(plan: FaultPlan) -> Calls
        ensures { result ≡ record { plan = plan; calls = 0; starved = 0 } }
    {
        Calls {
            plan,
            made: 0,
            starved: 0,
        }
    }

    /// Counts a call, and answers whether it is to fail.
    pub(crate) fn fails(&mut self) -> bool
        ensures planned { IsTrue result ↔ FailsNext self.old }
        ensures counted { self.new ≡ record self.old { calls = one_more self.old.calls } }
    {
        self.made = self.made.saturating_add(1);
        is_planned(&self.plan, self.made)
    }

    /// Counts want of memory.
    pub(crate) fn starve(&mut self)
        ensures { self.new ≡ record self.old { starved = one_more self.old.starved } }
    {
        self.starved = self.starved.saturating_add(1);
    }

    /// How many calls found no memory.
    pub(crate) fn starved(&self) -> u64
        ensures { result ≡ self.now.starved }
    {
        self.starved
    }
}
