//! All that can be told is told, and steps that stay are passed.

ghost use Rattle.std.specs.Prelude.{◌≡◌, ◌<◌, ◌≤◌, OnOk, IfOk, length, true, false};
ghost use Rattle.wh_drive.specs.Drives.{Drive, MayStart};
ghost use Rattle.wh_order.specs.Orders.{Represents, HasLeft, IsArrived, reached_of};
ghost use Rattle.wh_order.specs.Settling.{Passes, IsQuiet, Settles, to_go};

use crate::visit::Told;
use crate::visit_order::VisitOrder;
use std::alloc::AllocError;

impl VisitOrder {
    /// A vehicle arrives at its next step with no report, where it is under way to the cell where it stands. Whether it did.
    pub fn pass(&mut self, agent: u32) -> bool
        requires { agent < length self.old.vehicles }
        ensures passes { result ≡ true → (d : Drive) → Represents self.old d → Passes d agent }
        ensures kept { result ≡ true → HasLeft self.old agent × (reached_of self.old.vehicles agent < self.old.clock) × IsArrived self.old self.new agent }
        ensures none { result ≡ false → (d : Drive) → Represents self.old d → ¬ Passes d agent }
        ensures same { result ≡ false → self.new ≡ self.old }
    {
        let vehicle = self.vehicle(agent);
        if vehicle.reached >= vehicle.told {
            return false;
        }
        let here = self.pending(agent, 0);
        let next = self.pending(agent, 1);
        if !next.cell.is(here.cell) {
            return false;
        }
        self.come_in(agent);
        true
    }

    /// An agent's vehicle passes a step that stays, or is told to go on. Whether it did.
    fn advance(&mut self, agent: u32, told: &mut Vec<Told>) -> Result<bool, AllocError>
        requires { agent < length self.old.vehicles }
        ensures drive { OnOk result ((d : Drive) → Represents self.old d → Settles d self.new told.old.items told.new.items) }
        ensures size { OnOk result (length self.new.vehicles ≡ length self.old.vehicles) }
        ensures less { IfOk result (λ moved. moved ≡ true → to_go self.new < to_go self.old) }
        ensures same { IfOk result (λ moved. moved ≡ false → self.new ≡ self.old) }
        ensures none { IfOk result (λ moved. moved ≡ false → (d : Drive) → Represents self.old d → (¬ MayStart d agent) × (¬ Passes d agent)) }
    {
        if self.pass(agent) {
            return Ok(true);
        }
        match self.start(agent) {
            Err(_) => Ok(false),
            Ok(go) => {
                if !go.stays {
                    told.push(Told {
                        agent,
                        step: go.step,
                        cell: go.cell,
                    })?;
                }
                Ok(true)
            }
        }
    }

    /// Each agent's vehicle does so once. Whether one did.
    fn round(&mut self, told: &mut Vec<Told>) -> Result<bool, AllocError>
        ensures drive { OnOk result ((d : Drive) → Represents self.old d → Settles d self.new told.old.items told.new.items) }
        ensures no_more { OnOk result (to_go self.new ≤ to_go self.old) }
        ensures less { IfOk result (λ moved. moved ≡ true → to_go self.new < to_go self.old) }
        ensures quiet { IfOk result (λ moved. moved ≡ false → (d : Drive) → Represents self.new d → IsQuiet d) }
    {
        let mut moved = false;
        for agent in 0..self.agents() {
            if self.advance(agent, told)? {
                moved = true;
            }
        }
        Ok(moved)
    }

    /// All vehicles that may be told to go on are told, and those pass a step that stay where they are, until there is none.
    /// What is told is appended, in order: for each step that leads away its number and its cell. It looks at all agents
    /// once more than one of them has gone on. When out of memory, some may have been told that are not written.
    pub fn settle(&mut self, told: &mut Vec<Told>) -> Result<(), AllocError>
        ensures drive { OnOk result ((d : Drive) → Represents self.old d → Settles d self.new told.old.items told.new.items) }
        ensures quiet { OnOk result ((d : Drive) → Represents self.new d → IsQuiet d) }
    {
        let mut moved = true;
        while moved {
            moved = self.round(told)?;
        }
        Ok(())
    }
}
