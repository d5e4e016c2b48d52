//! Vehicles that are brought to where they stood.

ghost use Rattle.std.specs.Prelude.{◌≡◌, ◌≢◌, ◌+◌, ◌<◌, ◌≤◌, ◌^◌, ℕ, true, OnOk, IfOk, IfErr, length};
ghost use Rattle.std.specs.List.{AllPairs};
ghost use Rattle.wh_drive.specs.Drives.{Drive, MayTick, ticked};
ghost use Rattle.wh_order.specs.Orders.{Represents};
ghost use Rattle.wh_order.specs.Bringing.{StandBy, GoesOn, IsTooEarly};
ghost use Rattle.wh_arrivals.specs.declared.standing.StandFault.TheVariants as fault;
ghost use Rattle.wh_arrivals.specs.Standing.{Stand, TellsStandFault};

use crate::courses::{copied, follow, is_tick, resting, write_row};
use std::alloc::{AllocError, Global};
use wh_book::{Book, Opening};
use wh_grid::Cell;
use wh_order::VisitOrder;
use wh_path::TimedPath;

/// Why vehicles cannot be brought to where they stood.
#[derive(Clone, Copy, Debug, PartialEq, Eq)]
pub enum StandFault {
    /// Memory ran out.
    NoMemory,
    /// The vehicle of this agent cannot have come so far, since another's is to leave a cell before.
    TooEarly(u32),
}

impl From<AllocError> for StandFault {
    ghost from_gives = { λ _ e. e ≡ fault.NoMemory };

    fn from(_e: AllocError) -> StandFault {
        StandFault::NoMemory
    }
}

/// The plan goes on to the row, and the vehicles with it, none beyond its step.
fn go_on(order: &mut VisitOrder, row: &[Cell], steps: &[u64]) -> Result<(), StandFault>
    requires fits { order.old.clock + 1 < 2 ^ 64 }
    requires all { length row.now ≡ length order.old.vehicles }
    requires differ { AllPairs (λ a b. a ≢ b) row.now }
    requires stand { StandBy order.old.clock steps.now order.old.vehicles }
    ensures drive { OnOk result ((d : Drive) → Represents order.old d → MayTick d row.now → GoesOn (ticked row.now d) order.new) }
    ensures clock { OnOk result (order.new.clock ≡ order.old.clock + 1) }
    ensures stand { OnOk result (StandBy order.new.clock steps.now order.new.vehicles) }
    ensures err { IfErr result (λ why. (agent : ℕ) → why ≡ fault.TooEarly agent → (d : Drive) → Represents order.old d → MayTick d row.now → d.nofollow ≡ true → IsTooEarly (ticked row.now d) steps.now agent) }
{
    order.reserve()?;
    order.tick(row);
    match order.bring(steps) {
        Ok(()) => Ok(()),
        Err(agent) => Err(StandFault::TooEarly(agent)),
    }
}

/// The vehicles of the book's run, each at the step where it had arrived before a stop, by the paths with which the book began: the plan is
/// made again from there on, tick by tick, and each vehicle goes along as far as its step. Steps count from the clock with which the book
/// began. One may be told `ahead` cells ahead from then on. It takes time by the history and the agents, and memory for a path an agent
/// and a row beside what the order keeps.
pub fn stand_from(
    alloc: Global,
    book: &Book,
    mut paths: Vec<TimedPath>,
    ahead: u64,
    steps: &[u64],
) -> Result<VisitOrder, StandFault>
    requires paths { paths.items ≡ book.now.opening.paths }
    requires some { 1 ≤ ahead }
    requires all { length steps.now ≡ length book.now.state.paths }
    ensures ok { IfOk result (Stand book.now ahead steps.now) }
    ensures err { IfErr result (TellsStandFault book.now ahead steps.now) }
{
    let history = book.history();
    let _agents = book.setting().agents();
    let mut row = Vec::new(alloc);
    write_row(&mut row, paths.as_slice())?;
    let mut order = VisitOrder::open(alloc, row.as_slice(), ahead)?;
    for entry in history {
        follow(alloc, &mut paths, entry)?;
        if is_tick(entry) {
            write_row(&mut row, paths.as_slice())?;
            go_on(&mut order, row.as_slice(), steps)?;
        }
    }
    Ok(order)
}

/// The paths with which the book began.
pub fn first_paths(alloc: Global, book: &Book) -> Result<Vec<TimedPath>, AllocError>
    ensures { IfOk result (λ paths. paths.items ≡ book.now.opening.paths) }
{
    match book.first() {
        Opening::Starts { .. } => {
            let starts = book.setting().starts(alloc)?;
            resting(alloc, starts.as_slice())
        }
        Opening::State(parts) => copied(alloc, parts.paths.as_slice()),
    }
}

/// The same, by the paths with which the book began.
pub fn stand(
    alloc: Global,
    book: &Book,
    ahead: u64,
    steps: &[u64],
) -> Result<VisitOrder, StandFault>
    requires some { 1 ≤ ahead }
    requires all { length steps.now ≡ length book.now.state.paths }
    ensures ok { IfOk result (Stand book.now ahead steps.now) }
    ensures err { IfErr result (TellsStandFault book.now ahead steps.now) }
{
    let paths = first_paths(alloc, book)?;
    stand_from(alloc, book, paths, ahead, steps)
}
