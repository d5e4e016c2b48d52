//! When each agent is next asked whether it stands at its next stop.
#![tactic(auto)]

ghost use Rattle.std.specs.Prelude.{◌≡◌, ◌<◌, ◌≤◌, ℕ, false, IfOk, IsTrue, All, length, replicate, slice_set, slice_index_or};

use std::alloc::{AllocError, Global};
use std::marker::Model;

/// For each agent a clock before which it does not come to its next stop, and one before which no agent does.
#[derive(Drop)]
pub struct Dues {
    clocks: Vec<u32>,
    soonest: u32,
}

impl Model for Dues {
    ghost use Rattle.std.specs.Prelude.{ℕ, ◌≤◌, List, All};

    ghost Value = { List ℕ };

    ghost view = { λ d. d.clocks.items };

    ghost invariant = { λ d. All (λ due. d.soonest ≤ due) d.clocks.items };
}

/// The least of some clocks; the greatest number where there is none.
fn least(clocks: &[u32]) -> u32
    ensures { All (λ due. result ≤ due) clocks.now }
{
    let mut soonest = u32::MAX;
    for clock in clocks {
        soonest = soonest.min(*clock);
    }
    soonest
}

impl Dues {
    /// Of that many agents, each of which is asked at this clock. Fails when out of memory.
    pub fn all(alloc: Global, agents: usize, clock: u32) -> Result<Self, AllocError>
        ensures { IfOk result (λ dues. dues ≡ replicate agents clock) }
    {
        let clocks = vec![in alloc; clock; agents]?;
        let soonest = least(&clocks);
        Ok(Dues { clocks, soonest })
    }

    /// Whether any agent is to be asked at this clock.
    pub fn is_any(&self, clock: u32) -> bool
        ensures { result ≡ false → All (λ due. clock < due) self.now }
    {
        self.soonest <= clock
    }

    /// Whether this agent is to be asked at this clock.
    pub fn is_due(&self, agent: usize, clock: u32) -> bool
        requires { agent < length self.now }
        ensures { result ≡ false → clock < slice_index_or self.now agent 0 }
    {
        self.clocks[agent] <= clock
    }

    /// This agent is asked at this clock.
    pub fn put(&mut self, agent: usize, clock: u32)
        requires { agent < length self.old }
        ensures { self.new ≡ slice_set self.old agent clock }
    {
        self.clocks[agent] = clock;
        self.soonest = self.soonest.min(clock);
    }

    /// The clock before which nobody is asked is found anew.
    pub fn renew(&mut self)
        ensures { self.new ≡ self.old }
    {
        self.soonest = least(&self.clocks);
    }
}
