//! A list of commands at once, with planners of its own kind, which count how often they are asked: what `run_events` adds, what
//! it refuses, and which planner it asks.

ghost use Rattle.std.specs.Prelude.{◌≡◌, ◌+◌, [], IfOk, length};
ghost use Rattle.wh_core.specs.Steps.{Run};

use crate::day::{CALLER, Halt, MAP, POINTS, Parts, planners};
use crate::stop::bring;
use std::alloc::{AllocError, Global};
use std::sync::Arc;
use wh_event::{Command, read_line, write_reply};
use wh_grid::Grid;
use wh_path::TimedPath;
use wh_planner::{Duty, PlanFault, Planner, Plans, Scene};
use wh_planners::Patient;
use wh_points::Points;
use wh_shared::SharedFields;
use wh_token::{Ran, Warehouse};

/// The map with one cell more.
const OTHER_MAP: &[u8] = b"type octile\nheight 3\nwidth 5\nmap\n..@.@\n.....\n@.@.@\n";

/// What is asked, at once. Agent 1 finds no memory until its planner is replaced, and there is no agent 9. The last of the planners
/// that stand by plans on another map.
const SCRIPT: [&str; 12] = [
    "submit x A B",
    "submit y D C",
    "token 0",
    "token 1",
    "tick",
    "token 9",
    "replace 1",
    "replace 1",
    "token 1",
    "tick",
    "close",
    "replace 0",
];

/// A planner that counts how often it is asked, and may never have memory.
#[derive(Drop)]
struct Counting {
    inner: Patient,
    asked: u64,
    lacks_memory: bool,
}

impl Plans for Counting {
    ghost use Rattle.wh_grid.specs.Grids.{same_floor};
    ghost use Rattle.wh_claims.specs.Claim.{claim_amount};

    ghost fits_map = { λ p g. same_floor p.inner.grid g };

    ghost slot_count = { λ p. claim_amount p.inner.claim };

    fn fits(&self, grid: &Grid) -> bool {
        self.inner.fits(grid)
    }

    fn slots(&self) -> u32 {
        self.inner.slots()
    }

    fn plan(
        &mut self,
        alloc: Global,
        fields: &mut SharedFields,
        scene: &Scene,
        duty: Duty,
    ) -> Result<TimedPath, PlanFault> {
        self.asked = self.asked.saturating_add(1);
        if self.lacks_memory {
            return Err(PlanFault::NoMemory);
        }
        self.inner.plan(alloc, fields, scene, duty)
    }
}

impl Planner for Counting {}

/// A planner that was not asked yet.
fn unasked(parts: Parts, lacks_memory: bool) -> Counting {
    Counting {
        inner: Patient::new(parts.grid, parts.claim),
        asked: 0,
        lacks_memory,
    }
}

/// The command of a line comes to some commands.
fn add_command(commands: &mut Vec<Command>, line: &str) -> Result<(), Halt> {
    match read_line(line.as_bytes()) {
        Ok(Some(command)) => Ok(commands.push(command)?),
        _ => Err(Halt::Unread),
    }
}

/// The commands of the script.
fn commands(alloc: Global) -> Result<Vec<Command>, Halt> {
    let mut commands = Vec::new(alloc);
    for line in SCRIPT.iter() {
        add_command(&mut commands, line)?;
    }
    Ok(commands)
}

/// The planners before the shift, one for each agent. That of agent 1 never has memory.
fn starters(alloc: Global, grid: &Arc<Grid>, agents: usize) -> Result<Vec<Counting>, Halt> {
    let make = |parts: Parts| -> Result<Counting, AllocError> {
        let lacks_memory = parts.agent == 1;
        Ok(unasked(parts, lacks_memory))
    };
    planners(alloc, grid, agents, &make)
}

/// The warehouse before the shift. The planner of agent 1 never has memory.
fn opened(alloc: Global, grid: &Arc<Grid>) -> Result<Warehouse<Counting>, Halt>
    ensures { IfOk result (λ w. w.book.history ≡ []) }
{
    let shared = Arc::try_clone(grid)?;
    let points = Points::read(alloc, grid, POINTS)?;
    match starters(alloc, grid, points.agents().len()) {
        Ok(planners) => Ok(Warehouse::open(alloc, shared, points, planners, 0)?),
        Err(halt) => {
            drop(points);
            Err(halt)
        }
    }
}

/// Planners on a grid that have memory.
fn helpers(alloc: Global, grid: &Arc<Grid>, count: usize) -> Result<Vec<Counting>, Halt> {
    let make = |parts: Parts| -> Result<Counting, AllocError> { Ok(unasked(parts, false)) };
    planners(alloc, grid, count, &make)
}

/// A planner on the other map comes to a row.
fn add_foreign(alloc: Global, row: &mut Vec<Counting>) -> Result<(), Halt> {
    let other = Arc::new(alloc, Grid::read(alloc, OTHER_MAP)?)?;
    for planner in helpers(alloc, &other, 1)? {
        row.push(planner)?;
    }
    Ok(())
}

/// Planners that stand by: two on the grid, and after them one on the other map.
fn standby(alloc: Global, grid: &Arc<Grid>) -> Result<Vec<Counting>, Halt> {
    let mut row = helpers(alloc, grid, 2)?;
    match add_foreign(alloc, &mut row) {
        Ok(()) => Ok(row),
        Err(halt) => {
            drop(row);
            Err(halt)
        }
    }
}

/// Runs the commands in a new warehouse. Each adds an entry or is refused for lack of memory, and the entries are a run.
fn work<P: Planner>(
    alloc: Global,
    warehouse: &mut Warehouse<P>,
    commands: &[Command],
    spares: &mut Vec<P>,
) -> Ran
    requires { warehouse.old.book.history ≡ [] }
    ensures counted { result.entries + result.starved ≡ length commands.now }
    ensures entries { length warehouse.new.book.history ≡ result.entries }
    ensures run { Run warehouse.new.book.site warehouse.new.book.opening warehouse.new.book.history warehouse.new.book.state }
{
    let ran = warehouse.run_events(alloc, CALLER, commands, spares);
    // Called for what its contract says: the clause `run`.
    let _run = warehouse.history();
    ran
}

/// The replies, a line each.
fn tell_replies<R: Print, P: Planner>(rt: &R, warehouse: &Warehouse<P>) -> Result<(), Halt> {
    for entry in warehouse.history() {
        rt.write_all(write_reply(&entry.reply).as_slice())?;
        rt.write_all(b"\n")?;
    }
    Ok(())
}

/// How often each agent's planner was asked.
fn tell_asked<R: Print>(rt: &R, planners: &[Counting]) -> Result<(), Halt> {
    for (agent, planner) in planners.iter().enumerate() {
        let asked = planner.asked;
        println!(rt; "planner of {agent}: asked {asked} times")?;
    }
    Ok(())
}

/// Runs the script, and tells how many commands added an entry and how many found no memory, the replies, how often each agent's
/// planner was asked, and how many planners stand by.
fn run_script<R: Print>(
    rt: &R,
    alloc: Global,
    warehouse: &mut Warehouse<Counting>,
    spares: &mut Vec<Counting>,
) -> Result<(), Halt>
    requires { warehouse.old.book.history ≡ [] }
{
    let commands = commands(alloc)?;
    let Ran { entries, starved } = work(alloc, warehouse, commands.as_slice(), spares);
    drop(commands);
    println!(rt; "{entries} entries, {starved} without memory")?;
    tell_replies(rt, warehouse)?;
    tell_asked(rt, warehouse.planners())?;
    println!(rt; "planners that stand by: {}", spares.len())?;
    Ok(())
}

/// What is told of a shift in a warehouse, with planners that stand by, and of a stop after it.
fn tell_shift<R: Print>(
    rt: &R,
    alloc: Global,
    warehouse: &mut Warehouse<Counting>,
    spares: &mut Vec<Counting>,
) -> Result<(), Halt>
    requires { warehouse.old.book.history ≡ [] }
{
    run_script(rt, alloc, warehouse, spares)?;
    bring(rt, alloc, warehouse)
}

/// A whole shift, from the map to what is told of it, and of a stop after it.
pub fn shift<R: Print>(rt: &R, alloc: Global) -> Result<(), Halt> {
    let grid = Arc::new(alloc, Grid::read(alloc, MAP)?)?;
    let mut warehouse = opened(alloc, &grid)?;
    let told = match standby(alloc, &grid) {
        Ok(mut spares) => {
            let told = tell_shift(rt, alloc, &mut warehouse, &mut spares);
            drop(spares);
            told
        }
        Err(halt) => Err(halt),
    };
    drop(warehouse);
    told
}
