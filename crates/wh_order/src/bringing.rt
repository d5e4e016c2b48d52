//! Vehicles that are brought to where they stood, tick by tick.

ghost use Rattle.std.specs.Prelude.{◌≡◌, ◌≢◌, ℕ, ◌-◌, ◌<◌, ◌≤◌, ◌↔◌, IsTrue, OnOk, IfErr, length, min, true};
ghost use Rattle.wh_drive.specs.Drives.{Drive};
ghost use Rattle.wh_drive.specs.Refusals.{RefusesStart};
ghost use Rattle.wh_drive.specs.declared.refusal.StartRefusal.{StartRefusal as Reason};
ghost use Rattle.wh_order.specs.Orders.{Represents, vehicle_in};
ghost use Rattle.wh_order.specs.Bringing.{StandBy, GoesOn, IsTooEarly, NoneIsTooEarly};

use crate::visit_order::VisitOrder;

impl VisitOrder {
    /// A vehicle that stands a step behind the clock is told to make it, and makes it, unless its step here is before.
    fn come_by(&mut self, agent: u32, step: u64) -> Result<(), u32>
        requires known { agent < length self.old.vehicles }
        requires some { 1 ≤ self.old.clock }
        requires stands { vehicle_in self.old.vehicles agent ≡ record { reached = min step (self.old.clock - 1); told = min step (self.old.clock - 1) } }
        ensures drive { (d : Drive) → Represents self.old d → GoesOn d self.new }
        ensures clock { self.new.clock ≡ self.old.clock }
        ensures size { length self.new.vehicles ≡ length self.old.vehicles }
        ensures others { (i : ℕ) → i ≢ agent → vehicle_in self.new.vehicles i ≡ vehicle_in self.old.vehicles i }
        ensures ok { OnOk result (vehicle_in self.new.vehicles agent ≡ record { reached = min step self.old.clock; told = min step self.old.clock }) }
        ensures err { IfErr result (λ who. (who ≡ agent) × (self.old.clock ≤ step) × ((d : Drive) → Represents self.old d → (reason : Reason) × RefusesStart d agent reason)) }
    {
        if step < self.clock() {
            return Ok(());
        }
        match self.start(agent) {
            Ok(_) => {
                self.come_in(agent);
                Ok(())
            }
            Err(_) => Err(agent),
        }
    }

    /// Whether each vehicle stands where it was a step before the clock if it goes along with it, no further than its step.
    pub fn stands_by(&self, steps: &[u64]) -> bool
        ensures { IsTrue result ↔ StandBy (self.now.clock - 1) steps.now self.now.vehicles }
    {
        if steps.len() != self.agents() as usize {
            return false;
        }
        let before = self.clock().saturating_sub(1);
        for agent in 0..self.agents() {
            let vehicle = self.vehicle(agent);
            let step = steps[agent as usize].min(before);
            if vehicle.reached != step || vehicle.told != step {
                return false;
            }
        }
        true
    }

    /// Each vehicle that stands a step behind the clock makes it, but none goes beyond its step here. Called after each tick
    /// of a plan from its opening on, it brings the vehicles to where they stood, with nothing told. An agent is named
    /// whose vehicle cannot have come so far; then some vehicles have gone on.
    pub fn bring(&mut self, steps: &[u64]) -> Result<(), u32>
        requires some { 1 ≤ self.old.clock }
        requires stand { StandBy (self.old.clock - 1) steps.now self.old.vehicles }
        ensures drive { (d : Drive) → Represents self.old d → GoesOn d self.new }
        ensures clock { self.new.clock ≡ self.old.clock }
        ensures ok { OnOk result (StandBy self.old.clock steps.now self.new.vehicles) }
        ensures err { IfErr result (λ agent. (d : Drive) → Represents self.old d → d.nofollow ≡ true → IsTooEarly d steps.now agent) }
    {
        for agent in 0..self.agents() {
            if let Err(who) = self.come_by(agent, steps[agent as usize]) {
                return Err(who);
            }
        }
        Ok(())
    }
}

/// If an agent is named, no run of vehicles has them at the steps. It does nothing: its contract is the law.
pub fn none_is_too_early()
    ensures { NoneIsTooEarly }
{}
