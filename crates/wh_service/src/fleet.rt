//! The planners that a run is given: all of one kind, on one grid, each with slots of its own. Who runs it says how one
//! planner is made.

ghost use Rattle.std.specs.Prelude.{◌≡◌, IfOk, IfErr, All, length};
ghost use Rattle.std.specs.Arc.{arc_value};
ghost use Rattle.wh_claims.specs.Bank.{Belongs};
ghost use Rattle.wh_claims.specs.Claim.{claim_amount, claim_bank};
ghost use Rattle.wh_service.specs.Fleets.{AreSeated, IsOfFleet, IsEquipped, IsMember, IsWhyUnclaimed, IsWhyUnseated};
ghost use Rattle.wh_log.specs.Logs.{IsSlots};

use crate::parts::PlannerParts;
use std::alloc::{AllocError, Global};
use std::sync::Arc;
use wh_claims::{Bank, BankSeat, Claim, Refusal};
use wh_edge::Trouble;
use wh_grid::Grid;
use wh_options::Fleet;
use wh_planner::Planner;

/// A claim of the given number of slots on the bank, by a seat of its own. The error tells how many slots the bank had left where
/// they were too few, or that its word changed meanwhile, or that memory ran out.
pub fn claim(bank: &Arc<Bank>, seat: &mut BankSeat, slots: u32) -> Result<Claim, Trouble>
    requires { Belongs seat.old (arc_value bank.now) }
    ensures seat { Belongs seat.new (arc_value bank.now) }
    ensures amount { IfOk result (λ c. claim_amount c ≡ slots) }
    ensures bank { IfOk result (λ c. claim_bank c ≡ arc_value bank.now) }
    ensures fault { IfErr result (IsWhyUnclaimed slots) }
{
    let own = seat.split(bank);
    let Ok(shared) = Arc::try_clone(bank) else {
        return Err(Trouble::NoMemory);
    };
    match Claim::take(shared, own, slots) {
        Ok(claim) => Ok(claim),
        Err(refused) => match refused.refusal {
            Refusal::Short { free } => Err(Trouble::Short { free }),
            Refusal::Raced { seen } => Err(Trouble::Raced { seen }),
        },
    }
}

/// One planner of the fleet, with a claim of its own on the bank. The error tells why it got no slots, or that memory is
/// wanting.
fn member<P: Planner, F: Fn(PlannerParts) -> Result<P, AllocError>>(
    fleet: &Fleet,
    grid: &Arc<Grid>,
    bank: &Arc<Bank>,
    seat: &mut BankSeat,
    make: &F,
) -> Result<P, Trouble>
    requires range { IsOfFleet fleet.now }
    requires callable { F.IsAlwaysCallable make.now }
    requires seat { Belongs seat.old (arc_value bank.now) }
    ensures seat { Belongs seat.new (arc_value bank.now) }
    ensures member { IfOk result (IsMember (F.post make.now) fleet.now (arc_value grid.now) (arc_value bank.now)) }
    ensures fault { IfErr result (IsWhyUnclaimed fleet.now.slots) }
{
    let claim = claim(bank, seat, fleet.slots)?;
    let grid = Arc::try_clone(grid)?;
    let (kind, slack, effort) = (fleet.planner, fleet.slack, fleet.effort);
    Ok(make(PlannerParts {
        kind,
        slack,
        effort,
        grid,
        claim,
    })?)
}

/// The given number of planners of the fleet, each with a claim of its own on the bank. The error tells why one of them got no
/// slots, or that memory ran out.
pub fn members<P: Planner, F: Fn(PlannerParts) -> Result<P, AllocError>>(
    alloc: Global,
    fleet: &Fleet,
    grid: &Arc<Grid>,
    bank: &Arc<Bank>,
    seat: &mut BankSeat,
    make: &F,
    count: usize,
) -> Result<Vec<P>, Trouble>
    requires range { IsOfFleet fleet.now }
    requires callable { F.IsAlwaysCallable make.now }
    requires seat { Belongs seat.old (arc_value bank.now) }
    ensures seat { Belongs seat.new (arc_value bank.now) }
    ensures count { IfOk result (λ row. length row.items ≡ count) }
    ensures members { IfOk result (λ row. All (IsMember (F.post make.now) fleet.now (arc_value grid.now) (arc_value bank.now)) row.items) }
    ensures fault { IfErr result (IsWhyUnclaimed fleet.now.slots) }
{
    let mut row = Vec::with_capacity(alloc, count)?;
    for k in 0..count {
        let planner = member(fleet, grid, bank, seat, make)?;
        row.push(planner)?;
    }
    Ok(row)
}

/// One planner of the fleet for each of these numbers of slots, 2 to 64, each with a claim of its own on the bank. The error
/// tells why one of them got no slots, or that memory ran out.
pub fn seated<P: Planner, F: Fn(PlannerParts) -> Result<P, AllocError>>(
    alloc: Global,
    fleet: &Fleet,
    grid: &Arc<Grid>,
    bank: &Arc<Bank>,
    seat: &mut BankSeat,
    make: &F,
    slots: &[u32],
) -> Result<Vec<P>, Trouble>
    requires each { All IsSlots slots.now }
    requires callable { F.IsAlwaysCallable make.now }
    requires seat { Belongs seat.old (arc_value bank.now) }
    ensures seat { Belongs seat.new (arc_value bank.now) }
    ensures members { IfOk result (λ row. AreSeated (F.post make.now) fleet.now (arc_value grid.now) (arc_value bank.now) slots.now row.items) }
    ensures fault { IfErr result (IsWhyUnseated slots.now) }
{
    let mut row = Vec::with_capacity(alloc, slots.len())?;
    for k in 0..slots.len() {
        let count = slots[k];
        let own = Fleet {
            slots: count,
            ..*fleet
        };
        match member(&own, grid, bank, seat, make) {
            Ok(planner) => row.push(planner)?,
            Err(trouble) => return Err(trouble),
        }
    }
    Ok(row)
}

/// One planner for each of the given number of agents, and then the spare ones, all of the fleet's kind and on the grid, each with a
/// claim of its own on one bank, and each made by `make`, which fails only when out of memory. The error tells why
/// one of them got no slots, or that memory ran out.
pub fn equip<P: Planner, F: Fn(PlannerParts) -> Result<P, AllocError>>(
    alloc: Global,
    fleet: &Fleet,
    grid: &Arc<Grid>,
    agents: usize,
    make: &F,
) -> Result<(Vec<P>, Vec<P>), Trouble>
    requires range { IsOfFleet fleet.now }
    requires callable { F.IsAlwaysCallable make.now }
    ensures ok { IfOk result (λ r. IsEquipped (F.post make.now) fleet.now (arc_value grid.now) agents r.0.items r.1.items) }
    ensures fault { IfErr result (IsWhyUnclaimed fleet.now.slots) }
{
    let (bank, mut seat) = Bank::new(alloc, fleet.bank)?;
    let planners = members(alloc, fleet, grid, &bank, &mut seat, make, agents)?;
    let count = fleet.spares as usize;
    let spares = members(alloc, fleet, grid, &bank, &mut seat, make, count)?;
    Ok((planners, spares))
}
