//! The grid and the points on which a warehouse stands.
#![tactic(auto)]

ghost use Rattle.std.specs.Prelude.{false, ◌≡◌, ◌≢◌, ℕ, ◌<◌, ◌≤◌, ◌↔◌, IfOk, IfErr, IfNone, IfSome, All, Contains, length, map};
ghost use Rattle.wh_points.specs.declared.points.Point.{Point as Spot};
ghost use Rattle.std.specs.List.{AllZip};
ghost use Rattle.wh_points.specs.Points.{Layout, Site, IsLayout, IsStation, IsPoint, IsPointCell, starts, point_at, home_of};
ghost use Rattle.wh_core.specs.Steps.{IsUnknownName};
ghost use Rattle.wh_book.specs.Settings.{IsNamed, IsPlaced, IsFault};

use arrayvec::ArrayVec;
use std::alloc::{AllocError, Global};
use std::marker::Model;
use std::sync::Arc;
use wh_event::Stops;
use wh_grid::{Cell, Grid};
use wh_points::{Kind, Point, Points};
use wh_tasks::Places;
use wh_text::Name;

/// The grid, the points that were read over it, and whether paths go on home.
///
/// Where they do, each agent has a home: the parking where it starts. The path of an order goes through its stops and on
/// home. As soon as the last stop is visited the agent may be given the next order, wherever it is; the new path begins where
/// it is and replaces the rest. With no order it goes home and stays there. So no station is held longer than the visit takes.
/// This is "reserving paths to a parking" of Liu, Ma, Li, Koenig, *Task and Path Planning for Multi-Agent Pickup and Delivery*,
/// AAMAS 2019. Where they do not, a path ends at the last stop, and an agent is given an order once it stands there.
#[derive(Drop)]
pub struct Setting {
    grid: Arc<Grid>,
    points: Points,
    homes: bool,
}

impl Model for Setting {
    ghost use Rattle.std.specs.Prelude.{◌≤◌, length};
    ghost use Rattle.wh_points.specs.Points.{Site};
    ghost use Rattle.wh_book.specs.Settings.{IsSite};

    ghost Value = { Site };

    ghost view = { λ s. record { grid = s.grid.value; layout = s.points; homes = s.homes } };

    ghost invariant = { λ s. IsSite (record { grid = s.grid.value; layout = s.points; homes = s.homes }) };
}

/// Why a stop is no station.
#[derive(Clone, Copy, Debug, PartialEq, Eq)]
pub enum Fault {
    /// No point has the name of this stop.
    Unknown(usize),
    /// The point of this stop's name is a parking.
    Parking(usize),
}

impl Setting {
    /// The grid with its points, where each path ends at the last stop of its order.
    pub fn new(grid: Arc<Grid>, points: Points) -> Setting
        requires layout { IsLayout grid.value points }
        ensures { result ≡ record { grid = grid.value; layout = points; homes = false } }
    {
        Setting::with_homes(grid, points, false)
    }

    /// The grid with its points, and whether paths go on home.
    pub fn with_homes(grid: Arc<Grid>, points: Points, homes: bool) -> Setting
        requires layout { IsLayout grid.value points }
        ensures { result ≡ record { grid = grid.value; layout = points; homes = homes } }
    {
        let _agents = points.agents();
        Setting {
            grid,
            points,
            homes,
        }
    }

    /// The grid.
    pub fn grid(&self) -> &Grid
        ensures { result.now ≡ self.now.grid }
    {
        &self.grid
    }

    /// The grid, for those who share it.
    pub fn shared_grid(&self) -> &Arc<Grid>
        ensures { result.now.value ≡ self.now.grid }
    {
        &self.grid
    }

    /// Whether the rule against following stands.
    pub fn nofollow(&self) -> bool
        ensures { result ≡ self.now.layout.nofollow }
    {
        self.points.nofollow()
    }

    /// Whether paths go on home.
    #[inline(always)]
    pub fn homes(&self) -> bool
        ensures { result ≡ self.now.homes }
    {
        self.homes
    }

    /// The home of the agent: the cell where it starts.
    pub fn home(&self, agent: u32) -> Cell
        requires { agent < length self.now.layout.agents }
        ensures { result ≡ home_of self.now.layout agent }
    {
        let number = self.points.agents()[agent as usize];
        self.points.cell(number)
    }

    /// The points, in the order of their file.
    pub fn points(&self) -> &Points
        ensures { result.now ≡ self.now.layout }
    {
        &self.points
    }

    /// The number of agents.
    pub fn agents(&self) -> usize
        ensures value { result ≡ length self.now.layout.agents }
        ensures few { result ≤ 256 }
        ensures layout { IsLayout self.now.grid self.now.layout }
    {
        self.points.agents().len()
    }

    /// The cell where each agent starts.
    pub fn starts(&self, alloc: Global) -> Result<Vec<Cell>, AllocError>
        ensures { IfOk result (λ cells. cells.items ≡ starts self.now.layout) }
    {
        starts_of(alloc, self.points.as_slice(), self.points.agents())
    }

    /// The cells of the stops, or the first that is no station. It takes no memory.
    pub fn places(&self, stops: &Stops) -> Result<Places, Fault>
        ensures places { IfOk result (AllZip (IsStation self.now.layout) stops.now) }
        ensures fault { IfErr result (IsFault self.now.layout stops.now) }
    {
        places_of(&self.points, stops)
    }

    /// A point at this cell.
    pub fn point_at(&self, cell: Cell) -> &Point
        requires { IsPointCell self.now.layout cell }
        ensures { IsPlaced self.now.layout.points cell result.now }
    {
        match placed(self.points.as_slice(), cell) {
            Some(point) => point,
            None => unreachable!(),
        }
    }
}

/// The cells of the stops, or the first that is no station. It takes no memory.
pub fn places_of(points: &Points, stops: &Stops) -> Result<Places, Fault>
    ensures places { IfOk result (AllZip (IsStation points.now) stops.now) }
    ensures fault { IfErr result (IsFault points.now stops.now) }
{
    let mut cells: ArrayVec<Cell, 8> = ArrayVec::new();
    let names = stops.as_slice();
    for (k, name) in names.iter().enumerate() {
        let Some(point) = named(points, name) else {
            return Err(Fault::Unknown(k));
        };
        match point.kind {
            Kind::Station => cells.push(point.cell),
            Kind::Parking => return Err(Fault::Parking(k)),
        }
    }
    Ok(Places::of(cells.as_slice()))
}

/// The point of this name. It takes constant time.
fn named<'a>(points: &'a Points, name: &Name) -> Option<&'a Point>
    ensures none { IfNone result ((point : Spot) → ¬ IsNamed points.now.points name.now point) }
    ensures found { IfSome result (λ point. IsNamed points.now.points name.now point.now) }
{
    match points.find(name) {
        Some(number) => Some(points.point(number)),
        None => None,
    }
}

/// The first point at this cell.
fn placed(points: &[Point], cell: Cell) -> Option<&Point>
    ensures none { IfNone result ((point : Spot) → ¬ IsPlaced points.now cell point) }
    ensures found { IfSome result (λ point. IsPlaced points.now cell point.now) }
{
    for point in points {
        if point.cell.is(cell) {
            return Some(point);
        }
    }
    None
}

/// The cell where each agent starts, where these are the numbers of their points.
pub fn starts_of(alloc: Global, points: &[Point], agents: &[u32]) -> Result<Vec<Cell>, AllocError>
    requires { All (λ n. n < length points.now) agents.now }
    ensures { IfOk result (λ cells. cells.items ≡ map (λ n. (point_at points.now n).cell) agents.now) }
{
    let mut cells = Vec::new(alloc);
    for agent in agents {
        cells.push(points[*agent as usize].cell)?;
    }
    Ok(cells)
}
