//! What the tests are made of: map A with its points, and planners for it.
#![tactic(auto)]

ghost use Rattle.std.specs.Prelude.{◌≡◌, ◌≤◌, ◌+◌, [], IfOk, IfSome, length};
ghost use Rattle.wh_points.specs.Points.{IsLayout};
ghost use Rattle.wh_claims.specs.Claim.{claim_amount};
ghost use Rattle.wh_board.specs.Pasts.{past_of};
ghost use Rattle.wh_desk.specs.Lists.{AllAt};

use std::alloc::{AllocError, Global};
use std::sync::{Arc, Wait};
use std::test::*;
use wh_board::Publisher;
use wh_claims::{Bank, Claim};
use wh_desk::{Cells, Desk, DeskName, History, Pass, Warehouse};
use wh_event::{Command, Stops, read_line};
use wh_grid::Grid;
use wh_planner::Planner;
use wh_planners::Patient;
use wh_points::Points;
use wh_text::Name;

const MAP: &[u8] = b"type octile\nheight 3\nwidth 5\nmap\n@.@.@\n.....\n@.@.@\n";

const POINTS: &[u8] =
    b"parking P0 0 1\nparking P1 4 1\nstation A 1 0\nstation B 3 0\nstation C 1 2\nstation D 3 2\nagent P0\nagent P1\n";

/// Map A and its points, with two agents.
pub fn floor(alloc: Global) -> Result<(Arc<Grid>, Points), Fail>
    ensures { IfOk result (λ r. IsLayout r.0.value r.1) }
{
    let grid = Grid::read(alloc, MAP)?;
    let points = Points::read(alloc, &grid, POINTS)?;
    Ok((Arc::new(alloc, grid)?, points))
}

/// The given number of slots, all those of a bank of their own.
fn claim(alloc: Global, slots: u32) -> Result<Claim, Fail>
    ensures { IfOk result (λ claim. claim_amount claim ≡ slots) }
{
    let (bank, seat) = Bank::new(alloc, slots)?;
    match Claim::take(bank, seat, slots) {
        Ok(claim) => Ok(claim),
        Err(_) => Err("a claim".into()),
    }
}

/// What one planner is made of: a grid, and a claim of 2 to 64 slots.
#[derive(Drop)]
pub struct Parts {
    pub grid: Arc<Grid>,
    pub claim: Claim,
    ghost at_least: { 2 ≤ claim_amount claim },
    ghost at_most: { claim_amount claim ≤ 64 },
}

/// A planner with the given number of slots, made by `make`.
pub fn planner<P: Planner, F: Fn(Parts) -> Result<P, AllocError>>(
    alloc: Global,
    grid: &Arc<Grid>,
    slots: u32,
    make: &F,
) -> Result<P, Fail>
    requires range { (2 ≤ slots) × (slots ≤ 64) }
    requires callable { F.IsAlwaysCallable make.now }
{
    let grid = Arc::try_clone(grid)?;
    let claim = claim(alloc, slots)?;
    Ok(make(Parts { grid, claim })?)
}

/// Two planners of 4 slots, made by `make`.
fn pair<P: Planner, F: Fn(Parts) -> Result<P, AllocError>>(
    alloc: Global,
    grid: &Arc<Grid>,
    make: &F,
) -> Result<Vec<P>, Fail>
    requires { F.IsAlwaysCallable make.now }
{
    let mut planners = Vec::new(alloc);
    planners.push(planner(alloc, grid, 4, make)?)?;
    planners.push(planner(alloc, grid, 4, make)?)?;
    Ok(planners)
}

/// A patient planner of 4 slots.
pub fn patient(alloc: Global, grid: &Arc<Grid>) -> Result<Patient, Fail> {
    Ok(Patient::new(Arc::try_clone(grid)?, claim(alloc, 4)?))
}

/// The warehouse at clock 0.
pub fn opened<P: Planner>(
    alloc: Global,
    grid: Arc<Grid>,
    points: Points,
    planners: Vec<P>,
) -> Result<Warehouse<P>, Fail>
    requires { IsLayout grid.value points }
    ensures { IfOk result (λ w. w.book.history ≡ []) }
{
    match Warehouse::open(alloc, grid, points, planners, 0) {
        Ok(warehouse) => Ok(warehouse),
        Err(_) => Err("a warehouse".into()),
    }
}

/// The warehouse at clock 0 on this floor, with planners that are made by `make`.
pub fn staffed_on<P: Planner, F: Fn(Parts) -> Result<P, AllocError>>(
    alloc: Global,
    grid: Arc<Grid>,
    points: Points,
    make: &F,
) -> Result<Warehouse<P>, Fail>
    requires layout { IsLayout grid.value points }
    requires callable { F.IsAlwaysCallable make.now }
    ensures { IfOk result (λ w. w.book.history ≡ []) }
{
    let planners = pair(alloc, &grid, make)?;
    opened(alloc, grid, points, planners)
}

/// The same on map A.
pub fn staffed<P: Planner, F: Fn(Parts) -> Result<P, AllocError>>(
    alloc: Global,
    make: &F,
) -> Result<Warehouse<P>, Fail>
    requires { F.IsAlwaysCallable make.now }
    ensures { IfOk result (λ w. w.book.history ≡ []) }
{
    let (grid, points) = floor(alloc)?;
    staffed_on(alloc, grid, points, make)
}

/// What a desk is opened over: a warehouse, the cells of its receipts and the publisher of its board.
#[derive(Drop)]
pub struct Outfit<H: Wait + Drop, P: Planner> {
    pub warehouse: Warehouse<P>,
    pub cells: Cells,
    pub publisher: Publisher<H>,
}

/// The cells, of the given number, and the publisher.
fn cells_and_publisher<'a, P: Planner, R: Wait>(
    rt: &'a R,
    alloc: Global,
    warehouse: &Warehouse<P>,
    capacity: u64,
) -> Result<(Cells, Publisher<&'a R>), AllocError>
    ensures added { IfOk result (λ r. r.1.added ≡ past_of warehouse.now.book) }
    ensures shown { IfOk result (λ r. r.1.shown ≡ past_of warehouse.now.book) }
{
    let cells = Cells::new(alloc, capacity)?;
    let publisher = Publisher::new(alloc, rt, warehouse.book())?;
    Ok((cells, publisher))
}

/// The outfit of a warehouse with no entry. What may fail borrows the warehouse, as each exit beside it would drop it.
pub fn fit_out<'a, P: Planner, R: Wait>(
    rt: &'a R,
    alloc: Global,
    warehouse: Warehouse<P>,
    capacity: u64,
) -> Result<Outfit<&'a R, P>, Fail>
    requires { warehouse.book.history ≡ [] }
    ensures history { IfOk result (λ o. o.warehouse.book.history ≡ []) }
    ensures added { IfOk result (λ o. o.publisher.added ≡ past_of o.warehouse.book) }
    ensures shown { IfOk result (λ o. o.publisher.shown ≡ past_of o.warehouse.book) }
{
    match cells_and_publisher(rt, alloc, &warehouse, capacity) {
        Ok((cells, publisher)) => Ok(Outfit {
            warehouse,
            cells,
            publisher,
        }),
        Err(_) => {
            drop(warehouse);
            Err("cells and a publisher".into())
        }
    }
}

/// The client and the stops of a line that submits.
fn submitted(line: &[u8]) -> Option<(Name, Stops)> {
    match read_line(line) {
        Ok(Some(Command::Submit { client, stops })) => Some((client, stops)),
        _ => None,
    }
}

/// The client and the stops of `submit x A B`.
pub fn task() -> Option<(Name, Stops)> {
    submitted(b"submit x A B")
}

/// Puts the next pass to those of the callers before.
fn put_back<N: DeskName>(passes: &mut Vec<Pass<N>>, pass: Pass<N>) -> Result<(), AllocError>
    requires next { length passes.old.items ≡ pass.caller }
    requires order { AllAt (λ k p. p.caller ≡ k) passes.old.items }
    ensures next { IfOk result (λ _. length passes.new.items ≡ pass.caller + 1) }
    ensures order { IfOk result (λ _. AllAt (λ k p. p.caller ≡ k) passes.new.items) }
{
    passes.push(pass)?;
    Ok(())
}

/// The pass of the last caller.
pub fn last_pass<N: DeskName>(mut passes: Vec<Pass<N>>) -> Option<Pass<N>> {
    passes.pop()
}

/// The passes of callers 0 and 1, where there are two.
pub fn two_passes<N: DeskName>(mut passes: Vec<Pass<N>>) -> Option<(Pass<N>, Pass<N>)> {
    let one = passes.pop()?;
    let zero = passes.pop()?;
    Some((zero, one))
}

/// The pass of caller 0, as a desk of one caller wants it.
fn of_one<N: DeskName>(alloc: Global, zero: Pass<N>) -> Option<Vec<Pass<N>>>
    ensures count { IfSome result (λ passes. length passes.items ≡ 1) }
    ensures order { IfSome result (λ passes. AllAt (λ k p. p.caller ≡ k) passes.items) }
{
    if zero.caller() != 0 {
        return None;
    }
    let mut passes = Vec::new(alloc);
    match put_back(&mut passes, zero) {
        Ok(()) => Some(passes),
        Err(_) => None,
    }
}

/// Ends a desk of one caller.
pub fn finish_one<N: DeskName, H: Wait + Drop, P: Planner>(
    alloc: Global,
    desk: Desk<N, H, P>,
    zero: Pass<N>,
) -> Option<History<P>>
    requires { N.callers ≡ 1 }
{
    match of_one(alloc, zero) {
        Some(passes) => desk.finish(passes).ok(),
        None => None,
    }
}

/// The passes of callers 0 and 1, as a desk of two callers wants them.
fn of_two<N: DeskName>(alloc: Global, zero: Pass<N>, one: Pass<N>) -> Option<Vec<Pass<N>>>
    ensures count { IfSome result (λ passes. length passes.items ≡ 2) }
    ensures order { IfSome result (λ passes. AllAt (λ k p. p.caller ≡ k) passes.items) }
{
    if one.caller() != 1 {
        return None;
    }
    let mut passes = of_one(alloc, zero)?;
    match put_back(&mut passes, one) {
        Ok(()) => Some(passes),
        Err(_) => None,
    }
}

/// Ends a desk of two callers.
pub fn finish_two<N: DeskName, H: Wait + Drop, P: Planner>(
    alloc: Global,
    desk: Desk<N, H, P>,
    zero: Pass<N>,
    one: Pass<N>,
) -> Option<History<P>>
    requires { N.callers ≡ 2 }
    ensures { IfSome result (λ h. h.front.book ≡ N.book) }
{
    match of_two(alloc, zero, one) {
        Some(passes) => desk.finish(passes).ok(),
        None => None,
    }
}
