//! What a log is judged over.
#![tactic(auto)]

ghost use Rattle.std.specs.Prelude.{◌≡◌, ℕ, ◌<◌, ◌≤◌, ◌↔◌, List, length, IsTrue, IfOk, false};
ghost use Rattle.wh_grid.specs.declared.cell.Cell.{Cell as Place};
ghost use Rattle.wh_tasks.specs.Tasks.{visited, stops_left};
ghost use Rattle.wh_planner.specs.Duties.{Delivers};
ghost use Rattle.wh_core.specs.Steps.{tour};
ghost use Rattle.wh_points.specs.Points.{IsLayout, IsPoint, starts, home_of};

use arrayvec::ArrayVec;
use std::alloc::{AllocError, Global};
use std::marker::Model;
use wh_book::{starts_of, tour_left};
use wh_grid::{Cell, Grid};
use wh_points::Points;
use wh_tasks::Task;
use wh_text::Name;

/// The grid, the points that were read over it, and whether paths go on home.
#[derive(Drop)]
pub struct Instance<'a> {
    grid: &'a Grid,
    points: &'a Points,
    homes: bool,
}

impl<'a> Model for Instance<'a> {
    ghost use Rattle.wh_points.specs.Points.{Site};
    ghost use Rattle.wh_book.specs.Settings.{IsSite};

    ghost Value = { Site };

    ghost view = { λ i. record { grid = i.grid.now; layout = i.points.now; homes = i.homes } };

    ghost invariant = { λ i. IsSite (record { grid = i.grid.now; layout = i.points.now; homes = i.homes }) };
}

impl<'a> Instance<'a> {
    /// The grid with its points, where each path ends at the last stop of its task.
    pub fn new(grid: &'a Grid, points: &'a Points) -> Instance<'a>
        requires { IsLayout grid.now points.now }
        ensures { result ≡ record { grid = grid.now; layout = points.now; homes = false } }
    {
        Instance::with_homes(grid, points, false)
    }

    /// The grid with its points, and whether paths go on home.
    pub fn with_homes(grid: &'a Grid, points: &'a Points, homes: bool) -> Instance<'a>
        requires { IsLayout grid.now points.now }
        ensures { result ≡ record { grid = grid.now; layout = points.now; homes = homes } }
    {
        let _agents = points.agents();
        Instance {
            grid,
            points,
            homes,
        }
    }

    /// The same instance once more.
    pub(crate) fn again(&self) -> Instance<'a>
        ensures { result ≡ self.now }
    {
        let _grid = self.grid();
        Instance::with_homes(self.grid, self.points, self.homes)
    }

    /// The grid.
    pub fn grid(&self) -> &Grid
        ensures value { result.now ≡ self.now.grid }
        ensures layout { IsLayout self.now.grid self.now.layout }
    {
        self.grid
    }

    /// Whether the rule against following stands.
    pub fn nofollow(&self) -> bool
        ensures { result ≡ self.now.layout.nofollow }
    {
        self.points.nofollow()
    }

    /// Whether paths go on home.
    pub fn homes(&self) -> bool
        ensures { result ≡ self.now.homes }
    {
        self.homes
    }

    /// The home of the agent: the cell where it starts.
    pub fn home(&self, agent: u32) -> Cell
        requires { agent < length self.now.layout.agents }
        ensures { result ≡ home_of self.now.layout agent }
    {
        let number = self.points.agents()[agent as usize];
        self.points.cell(number)
    }

    /// Where the agent goes for the task: through the stops that are left, and then home if paths go on home. Where that is one cell it
    /// is told twice, which asks for the same paths. It takes no memory.
    pub fn tour(&self, agent: u32, task: &Task) -> ArrayVec<Cell, 9>
        requires known { agent < length self.now.layout.agents }
        requires left { visited task.now < length task.now.stops }
        requires two { 2 ≤ length task.now.stops }
        requires eight { length task.now.stops ≤ 8 }
        ensures same { (path : List Place) → Delivers result.items path ↔ Delivers (tour self.now agent (stops_left task.now)) path }
        ensures two { 2 ≤ length result.items }
        ensures nine { length result.items ≤ 9 }
    {
        tour_left(self.homes, self.home(agent), task)
    }

    /// How many legs a path through these stops has: one to each, and one home if paths go on home.
    pub fn legs(&self, stops: &[Cell]) -> u64
        requires { length stops.now ≤ 8 }
        ensures value { (agent : ℕ) → result ≡ length (tour self.now agent stops.now) }
        ensures nine { result ≤ 9 }
    {
        let stops = stops.len() as u64;
        if self.homes { stops + 1 } else { stops }
    }

    /// The points.
    pub fn points(&self) -> &Points
        ensures value { result.now ≡ self.now.layout }
        ensures layout { IsLayout self.now.grid self.now.layout }
    {
        self.points
    }

    /// The number of agents.
    pub fn agents(&self) -> usize
        ensures value { result ≡ length self.now.layout.agents }
        ensures few { result ≤ 256 }
    {
        self.points.agents().len()
    }

    /// The cell where each agent starts.
    pub fn starts(&self, alloc: Global) -> Result<Vec<Cell>, AllocError>
        ensures { IfOk result (λ cells. cells.items ≡ starts self.now.layout) }
    {
        starts_of(alloc, self.points.as_slice(), self.points.agents())
    }

    /// Whether the point of this name stands at the cell. It takes constant time.
    pub fn is_at(&self, name: &Name, cell: Cell) -> bool
        ensures { IsTrue result ↔ IsPoint self.now.layout name.now cell }
    {
        stands_at(self.points, name, cell)
    }
}

/// Whether the point of this name stands at the cell.
fn stands_at(points: &Points, name: &Name, cell: Cell) -> bool
    ensures { IsTrue result ↔ IsPoint points.now name.now cell }
{
    points.are_apart();
    match points.find(name) {
        None => false,
        Some(number) => points.cell(number).is(cell),
    }
}
