//! A bank, planners with its slots, and the warehouse that they open.

ghost use Rattle.std.specs.Prelude.{◌≡◌, ◌≤◌, [], IfOk};
ghost use Rattle.std.specs.Arc.{arc_value};
ghost use Rattle.wh_points.specs.Points.{IsLayout};
ghost use Rattle.wh_claims.specs.Bank.{Belongs};

use crate::again::{Halt, TRIES, again, refused};
use crate::sites::{MAP_AND_POINTS, read};
use std::alloc::{AllocError, Global};
use std::sync::Arc;
use wh_claims::{Bank, BankSeat};
use wh_edge::Site;
use wh_grid::Grid;
use wh_options::PlannerKind;
use wh_planner::Planner;
use wh_points::Points;
use wh_service::{OpenFault, PlannerParts, Warehouse, claim};

/// A bank of the given number of slots, and its seat.
pub fn bank<R: Print>(rt: &R, alloc: Global, slots: u32) -> Result<(Arc<Bank>, BankSeat), Halt>
    ensures { IfOk result (λ r. Belongs r.1 (arc_value r.0)) }
{
    again!(rt, Bank::new(alloc, slots))
}

/// The grid, to be shared. The error hands it back.
fn shared<R: Print>(rt: &R, alloc: Global, mut grid: Grid) -> Result<Arc<Grid>, Halt>
    ensures { IfOk result (λ shared. shared.value ≡ grid) }
{
    for _ in 0..TRIES {
        match Arc::new(alloc, grid) {
            Ok(shared) => return Ok(shared),
            Err(failed) => {
                grid = failed.value;
                refused(rt, true)?;
            }
        }
    }
    Err(Halt::NoMemory)
}

/// The map and the points of all rows but those of sites.
pub fn floor<R: Print>(rt: &R, alloc: Global) -> Result<(Arc<Grid>, Points), Halt>
    ensures { IfOk result (λ r. IsLayout r.0.value r.1) }
{
    let Site { grid, points, .. } = read(rt, alloc, MAP_AND_POINTS)?;
    match shared(rt, alloc, grid) {
        Ok(grid) => Ok((grid, points)),
        Err(halt) => {
            drop(points);
            Err(halt)
        }
    }
}

/// An empty list with room for two.
pub fn room<R: Print, P: Drop>(rt: &R, alloc: Global) -> Result<Vec<P>, Halt>
    ensures { IfOk result (λ row. row.items ≡ []) }
{
    again!(rt, Vec::with_capacity(alloc, 2))
}

/// A planner with the given number of slots of the bank. A planner that could not be made has given its slots back.
pub fn planner<R: Print, P: Planner, F: Fn(PlannerParts) -> Result<P, AllocError>>(
    rt: &R,
    grid: &Arc<Grid>,
    slots: u32,
    bank: &Arc<Bank>,
    seat: &mut BankSeat,
    make: &F,
) -> Result<P, Halt>
    requires at_least { 2 ≤ slots }
    requires at_most { slots ≤ 64 }
    requires callable { F.IsAlwaysCallable make.now }
    requires seat { Belongs seat.old (arc_value bank.now) }
    ensures seat { Belongs seat.new (arc_value bank.now) }
{
    for _ in 0..TRIES {
        let free = bank.free(seat);
        let claim = claim(bank, seat, slots)?;
        let grid = Arc::try_clone(grid)?;
        let parts = PlannerParts {
            kind: PlannerKind::Near,
            slack: 0,
            effort: None,
            grid,
            claim,
        };
        match make(parts) {
            Ok(planner) => return Ok(planner),
            Err(AllocError) => refused(rt, bank.free(seat) == free)?,
        }
    }
    Err(Halt::NoMemory)
}

/// Two planners of 4 slots come to a row.
fn add_planners<R: Print, P: Planner, F: Fn(PlannerParts) -> Result<P, AllocError>>(
    rt: &R,
    row: &mut Vec<P>,
    grid: &Arc<Grid>,
    bank: &Arc<Bank>,
    seat: &mut BankSeat,
    make: &F,
) -> Result<(), Halt>
    requires callable { F.IsAlwaysCallable make.now }
    requires seat { Belongs seat.old (arc_value bank.now) }
    ensures seat { Belongs seat.new (arc_value bank.now) }
{
    for _ in 0..2u32 {
        row.push(planner(rt, grid, 4, bank, seat, make)?)?;
    }
    Ok(())
}

/// Two planners of 4 slots.
fn planners<R: Print, P: Planner, F: Fn(PlannerParts) -> Result<P, AllocError>>(
    rt: &R,
    alloc: Global,
    grid: &Arc<Grid>,
    bank: &Arc<Bank>,
    seat: &mut BankSeat,
    make: &F,
) -> Result<Vec<P>, Halt>
    requires callable { F.IsAlwaysCallable make.now }
    requires seat { Belongs seat.old (arc_value bank.now) }
    ensures seat { Belongs seat.new (arc_value bank.now) }
{
    let mut row = room(rt, alloc)?;
    match add_planners(rt, &mut row, grid, bank, seat, make) {
        Ok(()) => Ok(row),
        Err(halt) => {
            drop(row);
            Err(halt)
        }
    }
}

/// The warehouse at clock 0, with two planners of 4 slots. Where it could not be opened, it is opened with new planners,
/// since the old ones were dropped.
pub fn open<R: Print, P: Planner, F: Fn(PlannerParts) -> Result<P, AllocError>>(
    rt: &R,
    alloc: Global,
    bank: &Arc<Bank>,
    seat: &mut BankSeat,
    make: &F,
) -> Result<Warehouse<P>, Halt>
    requires callable { F.IsAlwaysCallable make.now }
    requires seat { Belongs seat.old (arc_value bank.now) }
    ensures seat { Belongs seat.new (arc_value bank.now) }
    ensures history { IfOk result (λ w. w.book.history ≡ []) }
{
    for _ in 0..TRIES {
        let free = bank.free(seat);
        let (grid, points) = floor(rt, alloc)?;
        let planners = match planners(rt, alloc, &grid, bank, seat, make) {
            Ok(planners) => planners,
            Err(halt) => {
                drop(grid);
                drop(points);
                return Err(halt);
            }
        };
        match Warehouse::open(alloc, grid, points, planners, 0) {
            Ok(warehouse) => return Ok(warehouse),
            Err(OpenFault::NoMemory) => refused(rt, bank.free(seat) == free)?,
            Err(OpenFault::WrongCount | OpenFault::Foreign { .. }) => return Err(Halt::Odd),
        }
    }
    Err(Halt::NoMemory)
}
