//! A day in a small warehouse, with any planners: bank, claims, planners, the warehouse, its steps, its history.

ghost use Rattle.std.specs.Prelude.{◌≡◌, ◌≤◌, IfOk};
ghost use Rattle.std.specs.Arc.{arc_value};
ghost use Rattle.wh_claims.specs.Bank.{Belongs};
ghost use Rattle.wh_claims.specs.Claim.{claim_amount};
ghost use Rattle.wh_core.specs.Laws.{IsBeginning};
ghost use Rattle.wh_core.specs.Steps.{Run};
ghost use Rattle.wh_book.specs.Drafts.{AllServed, HasWaysForAll};

use std::alloc::{AllocError, AllocFailed, Global};
use std::io;
use std::sync::Arc;
use wh_claims::{Bank, BankSeat, Claim};
use wh_event::{read_line, write_reply};
use wh_grid::{Grid, MapFault};
use wh_planner::Planner;
use wh_points::{PointFault, Points};
use wh_token::{Committed, NoMemory, OpenFault, Warehouse};

/// The map: a corridor with a pocket above and below each end.
pub const MAP: &[u8] = b"type octile\nheight 3\nwidth 5\nmap\n@.@.@\n.....\n@.@.@\n";

/// The points that stand on it, and where the two agents are.
pub const POINTS: &[u8] =
    b"parking P0 0 1\nparking P1 4 1\nstation A 1 0\nstation B 3 0\nstation C 1 2\nstation D 3 2\nagent P0\nagent P1\n";

/// What is asked of it.
const SCRIPT: [&str; 6] = [
    "submit x A B",
    "submit y D C",
    "token 0",
    "token 1",
    "tick",
    "close",
];

/// How many slots the planners share, and how many each has.
const BANK: u32 = 16;

const SLOTS: u32 = 4;

/// Who asks: the history says it of each entry.
pub const CALLER: u32 = 7;

/// What a planner is made of.
#[derive(Drop)]
pub struct Parts {
    /// Whose planner it will be.
    pub agent: usize,
    /// The grid on which it will plan.
    pub grid: Arc<Grid>,
    /// Its slots, 2 to 64.
    pub claim: Claim,
    ghost at_least: { 2 ≤ claim_amount claim },
    ghost at_most: { claim_amount claim ≤ 64 },
}

/// Why a day did not run to its end.
#[derive(Clone, Copy, Debug, PartialEq, Eq)]
pub enum Halt {
    /// Memory ran out.
    NoMemory,
    /// Standard output failed.
    Unwritten,
    /// The map, the points or a command does not read.
    Unread,
    /// The bank had too few slots.
    TooFewSlots,
    /// The planners do not fit the warehouse.
    Unopened,
}

impl From<AllocError> for Halt {
    fn from(_: AllocError) -> Halt {
        Halt::NoMemory
    }
}

impl<T: Drop> From<AllocFailed<T>> for Halt {
    fn from(_: AllocFailed<T>) -> Halt {
        Halt::NoMemory
    }
}

impl From<io::Error> for Halt {
    fn from(_: io::Error) -> Halt {
        Halt::Unwritten
    }
}

impl From<MapFault> for Halt {
    fn from(fault: MapFault) -> Halt {
        match fault {
            MapFault::NoMemory => Halt::NoMemory,
            MapFault::At(_) => Halt::Unread,
        }
    }
}

impl From<PointFault> for Halt {
    fn from(fault: PointFault) -> Halt {
        match fault {
            PointFault::NoMemory => Halt::NoMemory,
            PointFault::At(_) => Halt::Unread,
        }
    }
}

impl From<OpenFault> for Halt {
    fn from(fault: OpenFault) -> Halt {
        match fault {
            OpenFault::NoMemory => Halt::NoMemory,
            OpenFault::WrongCount | OpenFault::Foreign { .. } => Halt::Unopened,
        }
    }
}

/// The slots of one planner. They go back to the bank where the claim is dropped, or the planner that has it.
fn claim(bank: &Arc<Bank>, seat: &mut BankSeat) -> Result<Claim, Halt>
    requires { Belongs seat.old (arc_value bank.now) }
    ensures seat { Belongs seat.new (arc_value bank.now) }
    ensures amount { IfOk result (λ c. claim_amount c ≡ 4) }
{
    let shared = Arc::try_clone(bank)?;
    let own = seat.split(bank);
    match Claim::take(shared, own, SLOTS) {
        Ok(claim) => Ok(claim),
        Err(_) => Err(Halt::TooFewSlots),
    }
}

/// A planner for an agent, with slots of a bank.
fn planner<P: Planner, F: Fn(Parts) -> Result<P, AllocError>>(
    agent: usize,
    grid: &Arc<Grid>,
    bank: &Arc<Bank>,
    seat: &mut BankSeat,
    make: &F,
) -> Result<P, Halt>
    requires callable { F.IsAlwaysCallable make.now }
    requires seat { Belongs seat.old (arc_value bank.now) }
    ensures seat { Belongs seat.new (arc_value bank.now) }
{
    let claim = claim(bank, seat)?;
    let grid = Arc::try_clone(grid)?;
    Ok(make(Parts { agent, grid, claim })?)
}

/// A planner for each agent comes to a row, with slots of one bank.
fn add_planners<P: Planner, F: Fn(Parts) -> Result<P, AllocError>>(
    row: &mut Vec<P>,
    grid: &Arc<Grid>,
    bank: &Arc<Bank>,
    seat: &mut BankSeat,
    agents: usize,
    make: &F,
) -> Result<(), Halt>
    requires callable { F.IsAlwaysCallable make.now }
    requires seat { Belongs seat.old (arc_value bank.now) }
{
    for agent in 0..agents {
        row.push(planner(agent, grid, bank, seat, make)?)?;
    }
    Ok(())
}

/// A planner for each agent, with slots of one bank.
pub fn planners<P: Planner, F: Fn(Parts) -> Result<P, AllocError>>(
    alloc: Global,
    grid: &Arc<Grid>,
    agents: usize,
    make: &F,
) -> Result<Vec<P>, Halt>
    requires callable { F.IsAlwaysCallable make.now }
{
    let (bank, mut seat) = Bank::new(alloc, BANK)?;
    let mut row = Vec::new(alloc);
    match add_planners(&mut row, grid, &bank, &mut seat, agents, make) {
        Ok(()) => Ok(row),
        Err(halt) => {
            drop(row);
            Err(halt)
        }
    }
}

/// Asks for each line of the script, and tells the reply.
fn obey<R: Print, P: Planner>(
    rt: &R,
    alloc: Global,
    warehouse: &mut Warehouse<P>,
) -> Result<(), Halt> {
    for line in SCRIPT.iter() {
        let Ok(Some(command)) = read_line(line.as_bytes()) else {
            return Err(Halt::Unread);
        };
        match warehouse.step(alloc, CALLER, command, None) {
            Ok(Committed { entry, .. }) => {
                rt.write_all(write_reply(&entry.reply).as_slice())?;
                rt.write_all(b"\n")?;
            }
            Err((NoMemory, _)) => return Err(Halt::NoMemory),
        }
    }
    Ok(())
}

/// The warehouse in the morning.
fn opened<P: Planner, F: Fn(Parts) -> Result<P, AllocError>>(
    alloc: Global,
    make: &F,
) -> Result<Warehouse<P>, Halt>
    requires { F.IsAlwaysCallable make.now }
{
    let grid = Arc::new(alloc, Grid::read(alloc, MAP)?)?;
    let points = Points::read(alloc, &grid, POINTS)?;
    match planners(alloc, &grid, points.agents().len(), make) {
        Ok(planners) => Ok(Warehouse::open(alloc, grid, points, planners, 0)?),
        Err(halt) => {
            drop(points);
            Err(halt)
        }
    }
}

/// The warehouse at the end of the day. Whatever the planners answered, its history is a run from its opening, and on a
/// well-formed instance no request in it was refused for lack of a path.
fn warehouse_after<R: Print, P: Planner, F: Fn(Parts) -> Result<P, AllocError>>(
    rt: &R,
    alloc: Global,
    make: &F,
) -> Result<Warehouse<P>, Halt>
    requires callable { F.IsAlwaysCallable make.now }
    ensures opening { IfOk result (λ w. IsBeginning w.book.site w.book.opening) }
    ensures run { IfOk result (λ w. Run w.book.site w.book.opening w.book.history w.book.state) }
    ensures served { IfOk result (λ w. HasWaysForAll w.book.site w.book.opening → AllServed w.book.history) }
{
    let mut warehouse = opened(alloc, make)?;
    match obey(rt, alloc, &mut warehouse) {
        Ok(()) => {
            // Called for what its contract says: the three clauses above.
            let _run = warehouse.history();
            Ok(warehouse)
        }
        Err(halt) => {
            drop(warehouse);
            Err(halt)
        }
    }
}

/// A whole day: the replies, and how many entries the history has.
pub fn day<R: Print, P: Planner, F: Fn(Parts) -> Result<P, AllocError>>(
    rt: &R,
    alloc: Global,
    make: &F,
) -> Result<(), Halt>
    requires callable { F.IsAlwaysCallable make.now }
{
    let warehouse = warehouse_after(rt, alloc, make)?;
    let entries = warehouse.history().len();
    drop(warehouse);
    println!(rt; "{entries} entries")?;
    Ok(())
}
