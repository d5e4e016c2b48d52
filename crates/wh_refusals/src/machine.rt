//! Rows that are driven by `step`.

ghost use Rattle.std.specs.Arc.{arc_value};
ghost use Rattle.wh_claims.specs.Bank.{Belongs};

use crate::again::{Halt, TRIES, again, refused, tell};
use crate::fleet::{bank, floor, open, planner};
use crate::standing::Standing;
use std::alloc::{AllocError, Global};
use std::sync::Arc;
use wh_claims::{Bank, BankSeat};
use wh_event::{Reply, read_line, write_reply};
use wh_ledger::{DeliveryLedger, ledger_text};
use wh_planner::Planner;
use wh_service::{Committed, NoMemory, PlannerParts, Warehouse};

/// The caller of each event.
const CALLER: u32 = 0;

const ONE_DELIVERY: [&str; 9] = [
    "submit x A B",
    "token 0",
    "tick",
    "tick",
    "tick",
    "tick",
    "tick",
    "tick",
    "token 0",
];

const TWO_AGENTS_CROSS: [&str; 4] = ["submit x A B", "token 0", "submit y D C", "token 1"];

const REPLACE_AND_SPARES: [&str; 7] = [
    "submit x A B",
    "token 0",
    "tick",
    "replace 7",
    "replace 0",
    "tick",
    "replace 0",
];

/// Puts the spare planner back, where it was not taken.
fn put_back<P: Planner>(spare: &mut Option<P>, back: Option<P>, reply: &Reply) {
    if !matches!(reply, Reply::Replaced { .. }) {
        *spare = back;
    }
}

/// Steps with a command. The spare planner is handed in, and goes back to its place where it was not taken.
fn step<R: Print, P: Planner>(
    rt: &R,
    alloc: Global,
    warehouse: &mut Warehouse<P>,
    line: &str,
    spare: &mut Option<P>,
) -> Result<(), Halt> {
    let Ok(Some(command)) = read_line(line.as_bytes()) else {
        return Err(Halt::Odd);
    };
    for _ in 0..TRIES {
        let before = Standing::of(warehouse);
        let had_spare = spare.is_some();
        match warehouse.step(alloc, CALLER, command.copy(), spare.take()) {
            Ok(Committed { entry, back }) => {
                put_back(spare, back, &entry.reply);
                return tell(rt, write_reply(&entry.reply).as_slice());
            }
            Err((NoMemory, back)) => {
                *spare = back;
                let is_as_before = Standing::of(warehouse) == before
                    && spare.is_some() == had_spare;
                refused(rt, is_as_before)?;
            }
        }
    }
    Err(Halt::NoMemory)
}

/// Steps through a script.
fn step_through<R: Print, P: Planner>(
    rt: &R,
    alloc: Global,
    warehouse: &mut Warehouse<P>,
    script: &[&str],
    spare: &mut Option<P>,
) -> Result<(), Halt> {
    for line in script {
        step(rt, alloc, warehouse, line, spare)?;
    }
    Ok(())
}

/// The warehouse's ledger.
fn ledger<R: Print, P: Planner>(
    rt: &R,
    alloc: Global,
    warehouse: &Warehouse<P>,
) -> Result<DeliveryLedger, Halt> {
    again!(rt, warehouse.ledger(alloc))
}

/// The ledger's text.
fn text_of<R: Print>(rt: &R, alloc: Global, ledger: &DeliveryLedger) -> Result<Vec<u8>, Halt> {
    again!(rt, ledger_text(alloc, ledger.rows()))
}

/// Tells the warehouse's ledger.
fn tell_ledger<R: Print, P: Planner>(
    rt: &R,
    alloc: Global,
    warehouse: &Warehouse<P>,
) -> Result<(), Halt> {
    let ledger = ledger(rt, alloc, warehouse)?;
    let text = text_of(rt, alloc, &ledger)?;
    rt.write_all(text.as_slice())?;
    Ok(())
}

/// A warehouse on a bank of its own.
fn opened<R: Print, P: Planner, F: Fn(PlannerParts) -> Result<P, AllocError>>(
    rt: &R,
    alloc: Global,
    make: &F,
) -> Result<Warehouse<P>, Halt>
    requires { F.IsAlwaysCallable make.now }
{
    let (bank, mut seat) = bank(rt, alloc, 1024)?;
    open(rt, alloc, &bank, &mut seat, make)
}

/// An agent of a warehouse picks up and delivers, and its task is counted.
fn deliver<R: Print, P: Planner>(
    rt: &R,
    alloc: Global,
    warehouse: &mut Warehouse<P>,
) -> Result<(), Halt> {
    step_through(rt, alloc, warehouse, ONE_DELIVERY.as_slice(), &mut None)?;
    tell_ledger(rt, alloc, warehouse)
}

/// An agent picks up and delivers, and its task is counted.
pub fn one_delivery<R: Print, P: Planner, F: Fn(PlannerParts) -> Result<P, AllocError>>(
    rt: &R,
    alloc: Global,
    make: &F,
) -> Result<(), Halt>
    requires { F.IsAlwaysCallable make.now }
{
    let mut warehouse = opened(rt, alloc, make)?;
    let delivered = deliver(rt, alloc, &mut warehouse);
    drop(warehouse);
    delivered
}

/// Two agents cross.
pub fn two_agents_cross<R: Print, P: Planner, F: Fn(PlannerParts) -> Result<P, AllocError>>(
    rt: &R,
    alloc: Global,
    make: &F,
) -> Result<(), Halt>
    requires { F.IsAlwaysCallable make.now }
{
    let mut warehouse = opened(rt, alloc, make)?;
    let script = TWO_AGENTS_CROSS.as_slice();
    let crossed = step_through(rt, alloc, &mut warehouse, script, &mut None);
    drop(warehouse);
    crossed
}

/// Tells how many slots of the bank are free.
fn tell_free<R: Print>(rt: &R, bank: &Bank, seat: &mut BankSeat) -> Result<(), Halt>
    requires { Belongs seat.old bank.now }
    ensures { Belongs seat.new bank.now }
{
    let free = bank.free(seat);
    println!(rt; "free {free}")?;
    Ok(())
}

/// Steps through the script with a spare planner: the bank's free slots before and after.
fn replace<R: Print, P: Planner>(
    rt: &R,
    alloc: Global,
    bank: &Bank,
    seat: &mut BankSeat,
    warehouse: &mut Warehouse<P>,
    spare: &mut Option<P>,
) -> Result<(), Halt>
    requires { Belongs seat.old bank.now }
    ensures { Belongs seat.new bank.now }
{
    tell_free(rt, bank, seat)?;
    step_through(rt, alloc, warehouse, REPLACE_AND_SPARES.as_slice(), spare)?;
    tell_free(rt, bank, seat)
}

/// Steps through the script with a spare planner, and drops both: the bank's free slots before, after, and at the end.
fn step_with_spare<R: Print, P: Planner>(
    rt: &R,
    alloc: Global,
    bank: &Bank,
    seat: &mut BankSeat,
    mut warehouse: Warehouse<P>,
    spare: P,
) -> Result<(), Halt>
    requires { Belongs seat.old bank.now }
{
    let mut spare = Some(spare);
    let replaced = replace(rt, alloc, bank, seat, &mut warehouse, &mut spare);
    drop(warehouse);
    drop(spare);
    replaced?;
    tell_free(rt, bank, seat)
}

/// A planner of 2 slots that no agent has.
fn spare_one<R: Print, P: Planner, F: Fn(PlannerParts) -> Result<P, AllocError>>(
    rt: &R,
    alloc: Global,
    bank: &Arc<Bank>,
    seat: &mut BankSeat,
    make: &F,
) -> Result<P, Halt>
    requires callable { F.IsAlwaysCallable make.now }
    requires seat { Belongs seat.old (arc_value bank.now) }
    ensures seat { Belongs seat.new (arc_value bank.now) }
{
    let (grid, points) = floor(rt, alloc)?;
    drop(points);
    planner(rt, &grid, 2, bank, seat, make)
}

/// A planner is replaced on the way: its slots go back, and at the end all of them.
pub fn replace_and_spares<R: Print, P: Planner, F: Fn(PlannerParts) -> Result<P, AllocError>>(
    rt: &R,
    alloc: Global,
    make: &F,
) -> Result<(), Halt>
    requires { F.IsAlwaysCallable make.now }
{
    let (bank, mut seat) = bank(rt, alloc, 10)?;
    let warehouse = open(rt, alloc, &bank, &mut seat, make)?;
    match spare_one(rt, alloc, &bank, &mut seat, make) {
        Ok(spare) => step_with_spare(rt, alloc, &bank, &mut seat, warehouse, spare),
        Err(halt) => {
            drop(warehouse);
            Err(halt)
        }
    }
}
