//! The search over intervals, beside paths and beside a timetable, with the straight pass and without, ends when the plain
//! one by layers of time does: on small made maps with walls, beside agents that wander, rest in doors, meet one another
//! or stand in walls.

use crate::errands::{
    Found, delivered_by_layers, delivered_in, delivered_led, delivered_round, delivered_unled,
    parked, parked_by_layers, parked_in,
};
use crate::timetable::say_the_same;
use std::alloc::{AllocError, Global};
use std::test::Fail;
use wh_grid::{Cell, Grid};
use wh_path::TimedPath;
use wh_resv::Reservations;
use wh_search::SearchMemory;
use wh_timetable::Timetable;

/// Numbers that look drawn by lot, the same in each run.
#[derive(Drop)]
struct Dice {
    state: u64,
}

impl Dice {
    fn roll(&mut self, sides: u16) -> u16 {
        self.state = self
            .state
            .wrapping_mul(6_364_136_223_846_793_005)
            .wrapping_add(1_442_695_040_888_963_407);
        let number = (self.state >> 40) as u32;
        (number % u32::from(sides.max(1))) as u16
    }

    fn cell(&mut self) -> Cell {
        Cell {
            x: self.roll(5),
            y: self.roll(4),
        }
    }
}

/// A floor of 5 by 4 cells, some of them blocked.
fn floor(alloc: Global, dice: &mut Dice) -> Result<Grid, AllocError> {
    let mut walkable = [true; 20];
    for i in 0..20 {
        walkable[i] = dice.roll(5) != 0;
    }
    Ok(Grid::new(5, 4, walkable.to_vec(alloc)?))
}

/// The cell beside one, or that cell.
fn beside(here: Cell, way: u16) -> Cell {
    let mut next = here;
    match way {
        0 => next.x = here.x.saturating_add(1),
        1 => next.x = here.x.saturating_sub(1),
        2 => next.y = here.y.saturating_add(1),
        3 => next.y = here.y.saturating_sub(1),
        _ => {}
    }
    next
}

fn walk(path: &mut TimedPath, grid: &Grid, dice: &mut Dice, steps: u16) -> Result<(), AllocError> {
    let mut here = path.start();
    for _ in 0..steps {
        let next = beside(here, dice.roll(5));
        if grid.passable(next) {
            here = next;
        }
        path.push(here)?;
    }
    Ok(())
}

/// A walk of a few steps from anywhere, also from a wall; one in three only rests.
fn wander(alloc: Global, grid: &Grid, dice: &mut Dice) -> Result<TimedPath, AllocError> {
    let here = dice.cell();
    let steps = if dice.roll(3) == 0 { 0 } else { dice.roll(12) };
    let mut path = TimedPath::one(alloc, here)?;
    walk(&mut path, grid, dice, steps)?;
    Ok(path)
}

/// Some come to the paths that wander.
fn crowd(
    alloc: Global,
    paths: &mut Vec<TimedPath>,
    grid: &Grid,
    dice: &mut Dice,
) -> Result<(), AllocError> {
    for _ in 0..dice.roll(4) {
        paths.push(wander(alloc, grid, dice)?)?;
    }
    Ok(())
}

/// Two errands of an agent: when it has delivered through some stops, and when it has parked at one of the first two.
#[derive(Clone, Copy, PartialEq, Eq)]
struct Both {
    delivered: Found,
    parked: Found,
}

fn by_layers(
    alloc: Global,
    grid: &Grid,
    others: &Reservations,
    loc: Cell,
    stops: &[Cell],
    pair: [Cell; 2],
) -> Both {
    Both {
        delivered: delivered_by_layers(alloc, grid, others, loc, stops),
        parked: parked_by_layers(alloc, grid, others, loc, &pair),
    }
}

fn by_intervals(
    alloc: Global,
    grid: &Grid,
    others: &Reservations,
    loc: Cell,
    stops: &[Cell],
    pair: [Cell; 2],
) -> Both {
    Both {
        delivered: delivered_unled(alloc, grid, others, loc, stops),
        parked: parked(alloc, grid, others, loc, &pair),
    }
}

/// By the searches in kept memory.
fn in_memory(
    alloc: Global,
    grid: &Grid,
    others: &Reservations,
    loc: Cell,
    stops: &[Cell],
    pair: [Cell; 2],
) -> Both {
    let mut memory = SearchMemory::empty(alloc);
    let delivered = delivered_in(alloc, &mut memory, grid, others, loc, stops);
    let parked = parked_in(alloc, &mut memory, grid, others, loc, &pair);
    Both { delivered, parked }
}

/// The same path a step later.
fn a_step_later(alloc: Global, path: &TimedPath) -> Result<TimedPath, AllocError> {
    let mut late = TimedPath::one(alloc, path.start())?;
    late.push(path.start())?;
    late.follow(path)?;
    Ok(late)
}

/// One more agent stays where a path ends, and then follows the path, a step later.
fn join(alloc: Global, all: &mut Timetable, path: &TimedPath) -> Result<(), AllocError> {
    let agent = all.paths().len();
    all.add(TimedPath::one(alloc, path.end())?)?;
    let late = a_step_later(alloc, path)?;
    all.reserve(&late)?;
    if agent < all.paths().len() {
        all.adopt(agent, late);
    }
    Ok(())
}

/// A timetable of the paths, after a tick.
fn timetable_of(alloc: Global, paths: &[TimedPath]) -> Result<Timetable, AllocError> {
    let mut all = Timetable::empty(alloc, 20)?;
    for path in paths {
        join(alloc, &mut all, path)?;
    }
    all.tick();
    Ok(all)
}

/// What can be said of a made scene.
#[derive(Clone, Copy)]
enum Scene {
    /// The agent may not rest where it is.
    NotAsked,
    /// All searches agree, those beside a timetable too.
    Agree,
    Differs,
}

/// Whether beside the others of the first agent of a timetable all answers are those beside these others.
fn told(
    alloc: Global,
    grid: &Grid,
    all: &Timetable,
    others: &Reservations,
    loc: Cell,
    stops: &[Cell],
    pair: [Cell; 2],
    expected: Both,
) -> Result<Scene, AllocError> {
    if all.paths().is_empty() {
        return Ok(Scene::Differs);
    }
    let beside = Reservations::beside(alloc, all, 0, others.nofollow())?;
    if say_the_same(&beside, others)
        && by_intervals(alloc, grid, &beside, loc, stops, pair) == expected
    {
        Ok(Scene::Agree)
    } else {
        Ok(Scene::Differs)
    }
}

/// What the searches beside the others of an agent say, where it may rest where it is. None: it may not, or they differ.
fn answered(
    alloc: Global,
    grid: &Grid,
    others: &Reservations,
    paths: &[TimedPath],
    loc: Cell,
    stops: &[Cell],
    pair: [Cell; 2],
) -> Option<Both> {
    let both = by_layers(alloc, grid, others, loc, stops, pair);
    let agree = by_intervals(alloc, grid, others, loc, stops, pair) == both
        && in_memory(alloc, grid, others, loc, stops, pair) == both
        && delivered_led(alloc, grid, others, loc, pair)
            == delivered_by_layers(alloc, grid, others, loc, &pair)
        && delivered_round(alloc, grid, others, paths, loc, pair)
            == delivered_by_layers(alloc, grid, others, loc, &pair)
        && both.delivered != Found::NoAnswer
        && both.parked != Found::NoAnswer;
    if agree { Some(both) } else { None }
}

/// What can be said of a scene where the first of these agents has two errands.
fn asked(
    alloc: Global,
    grid: &Grid,
    paths: &[TimedPath],
    loc: Cell,
    nofollow: bool,
    stops: &[Cell],
    pair: [Cell; 2],
) -> Result<Scene, AllocError> {
    if paths.is_empty() {
        return Ok(Scene::NotAsked);
    }
    let others = Reservations::build(alloc, paths, 0, nofollow)?;
    if !grid.passable(loc) || !others.may_rest(loc, 0) {
        return Ok(Scene::NotAsked);
    }
    match answered(alloc, grid, &others, paths, loc, stops, pair) {
        Some(both) => {
            let all = timetable_of(alloc, paths)?;
            told(alloc, grid, &all, &others, loc, stops, pair, both)
        }
        None => Ok(Scene::Differs),
    }
}

/// One made scene.
fn make_scene(alloc: Global, dice: &mut Dice, nofollow: bool) -> Result<Scene, AllocError> {
    let grid = floor(alloc, dice)?;
    let loc = dice.cell();
    let mut paths = Vec::new(alloc);
    paths.push(TimedPath::one(alloc, loc)?)?;
    crowd(alloc, &mut paths, &grid, dice)?;
    let count = usize::from(dice.roll(7).min(6)) + 2;
    let mut stops = [loc; 8];
    for i in 0..count {
        stops[i] = dice.cell();
    }
    asked(
        alloc,
        &grid,
        &paths,
        loc,
        nofollow,
        &stops[..count],
        [stops[0], stops[1]],
    )
}

/// Whether the searches agree on some made scenes, of which a good part can be asked.
fn agree_on_many(alloc: Global, nofollow: bool) -> Result<bool, AllocError> {
    let mut dice = Dice { state: 2011 };
    let mut asked = 0u32;
    for _ in 0..60u8 {
        match make_scene(alloc, &mut dice, nofollow)? {
            Scene::NotAsked => {}
            Scene::Agree => asked = asked.saturating_add(1),
            Scene::Differs => return Ok(false),
        }
    }
    Ok(asked > 20)
}

#[test]
fn end_at_one_time(rt: HostRuntime) -> Result<(), Fail> {
    assert!(rt; agree_on_many(rt.alloc(), false)?);
    Ok(())
}

#[test]
fn end_at_one_time_under_the_rule(rt: HostRuntime) -> Result<(), Fail> {
    assert!(rt; agree_on_many(rt.alloc(), true)?);
    Ok(())
}
