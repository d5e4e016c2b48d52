//! A layout that is read line by line.

ghost use Rattle.std.specs.Prelude.{◌≡◌, ◌+◌, List, ℕ, Some, None, Ok, cond, IfOk, IfErr, false, length, ◌<◌, ◌^◌};
ghost use Rattle.wh_text.specs.Numbers.{small_number_of};
ghost use Rattle.wh_text.specs.Words.{words_of};
ghost use Rattle.wh_grid.specs.declared.cell.Cell.{Cell};
ghost use Rattle.wh_points.specs.PointLines as says;
ghost use Rattle.wh_points.specs.PointLines.{has_cell, is_open, with_point, placed, starts_at, named, line_of};
ghost use Rattle.wh_points.specs.PointFiles.{empty, Takes, whole};

use crate::fault::{Fault, FaultKind, Refused};
use crate::layout::Points;
use crate::points::{Kind, Point};
use indexmap::IndexSet;
use std::alloc::{AllocError, Global};
use std::marker::Model;
use wh_grid::{Cell, Grid};
use wh_text::{Name, Words, begins_comment, small_number};

/// The points that were read, and their cells.
#[derive(Drop)]
pub struct Draft {
    points: Points,
    cells: IndexSet<Cell>,
}

impl Model for Draft {
    ghost use Rattle.std.specs.Prelude.{◌≡◌, map};
    ghost use Rattle.wh_points.specs.Points.{Layout};

    ghost Value = { Layout };

    ghost view = { λ draft. draft.points };

    ghost invariant = { λ draft. draft.cells.keys ≡ map (λ point. point.cell) draft.points.points };
}

/// The longest line, in bytes.
const LONGEST: usize = 256;

const MOST_POINTS: u32 = 4096;

const MOST_AGENTS: usize = 256;

/// The cell at a place, where it lies on the map and is passable.
fn open_cell(grid: &Grid, x: u32, y: u32) -> Option<Cell>
    ensures { result ≡ cond (is_open grid.now x y) (Some (record { x = x; y = y })) None }
{
    if x >= u32::from(grid.width()) || y >= u32::from(grid.height()) {
        return None;
    }
    let cell = Cell {
        x: x as u16,
        y: y as u16,
    };
    if grid.passable(cell) {
        Some(cell)
    } else {
        None
    }
}

impl Draft {
    pub fn new(alloc: Global) -> Draft
        ensures { result ≡ empty }
    {
        Draft {
            points: Points::none(alloc),
            cells: IndexSet::new(alloc),
        }
    }

    /// Whether a point stands at the cell. It takes constant time.
    fn has_cell(&self, cell: Cell) -> bool
        ensures { result ≡ has_cell cell.x cell.y self.now.points }
    {
        self.cells.contains(&cell)
    }

    fn with_point(self, point: Point) -> Result<Draft, AllocError>
        requires name { says.has_name point.name self.points ≡ false }
        requires cell { has_cell point.cell.x point.cell.y self.points ≡ false }
        requires room { length self.points < 4096 }
        ensures { IfOk result (λ draft. draft ≡ with_point self point) }
    {
        let Draft { points, mut cells } = self;
        cells.insert(point.cell)?;
        let points = points.with_point(point)?;
        Ok(Draft { points, cells })
    }

    /// The point that a line places, if it may.
    fn point_of(
        &self,
        grid: &Grid,
        kind: Kind,
        name: &[u8],
        x: u32,
        y: u32,
    ) -> Result<Point, FaultKind>
        ensures fresh { IfOk result (λ point. says.has_name point.name self.now.points ≡ false) }
        ensures apart { IfOk result (λ point. has_cell point.cell.x point.cell.y self.now.points ≡ false) }
        ensures room { IfOk result (λ point. length self.now.points < 4096) }
        ensures placed { IfOk result (λ point. placed grid.now self.now kind name.now x y ≡ Ok (with_point self.now point)) }
        ensures fault { IfErr result (λ fault. placed grid.now self.now kind name.now x y ≡ Err fault) }
    {
        let Some(name) = Name::read(name) else {
            return Err(FaultKind::Name);
        };
        if self.points.has_name(&name) {
            return Err(FaultKind::NameTwice);
        }
        let Some(cell) = open_cell(grid, x, y) else {
            return Err(FaultKind::Blocked);
        };
        if self.has_cell(cell) {
            return Err(FaultKind::CellTwice);
        }
        if self.points.len() >= MOST_POINTS {
            return Err(FaultKind::TooMany);
        }
        Ok(Point { name, cell, kind })
    }

    fn place(self, grid: &Grid, kind: Kind, name: &[u8], x: u32, y: u32) -> Result<Draft, Refused>
        ensures { Takes result (placed grid.now self kind name.now x y) }
    {
        let point = match self.point_of(grid, kind, name, x, y) {
            Ok(point) => point,
            Err(fault) => return Err(Refused::Line(fault)),
        };
        let draft = self.with_point(point)?;
        Ok(draft)
    }

    fn point_line(self, grid: &Grid, kind: Kind, mut words: Words) -> Result<Draft, Refused>
        ensures { Takes result (says.point_by grid.now self kind words.entry) }
    {
        let (Some(name), Some(x), Some(y), None) = (
            words.next_word(),
            words.next_word(),
            words.next_word(),
            words.next_word(),
        ) else {
            return Err(Refused::Line(FaultKind::Form));
        };
        let (Some(x), Some(y)) = (small_number(x), small_number(y)) else {
            return Err(Refused::Line(FaultKind::Form));
        };
        self.place(grid, kind, name, x, y)
    }

    fn start(self, number: u32) -> Result<Draft, Refused>
        requires { number < length self.points }
        ensures { Takes result (starts_at self (Some number)) }
    {
        if self.points.is_start(number) {
            return Err(Refused::Line(FaultKind::StartTwice));
        }
        if self.points.agents().len() >= MOST_AGENTS {
            return Err(Refused::Line(FaultKind::TooMany));
        }
        let Draft { points, cells } = self;
        let points = points.with_agent(number)?;
        Ok(Draft { points, cells })
    }

    fn agent_line(self, mut words: Words) -> Result<Draft, Refused>
        ensures { Takes result (says.agent_by self words.entry) }
    {
        let (Some(name), None) = (words.next_word(), words.next_word()) else {
            return Err(Refused::Line(FaultKind::Form));
        };
        let Some(name) = Name::read(name) else {
            return Err(Refused::Line(FaultKind::Name));
        };
        let Some(number) = self.points.find(&name) else {
            return Err(Refused::Line(FaultKind::Unknown));
        };
        self.start(number)
    }

    fn rule_line(self, mut words: Words) -> Result<Draft, Refused>
        ensures { Takes result (says.rule_by self words.entry) }
    {
        let (Some(rule), None) = (words.next_word(), words.next_word()) else {
            return Err(Refused::Line(FaultKind::Form));
        };
        if rule != b"nofollow".as_slice() {
            return Err(Refused::Line(FaultKind::Form));
        }
        if self.points.nofollow() {
            return Err(Refused::Line(FaultKind::RuleTwice));
        }
        let Draft { points, cells } = self;
        Ok(Draft {
            points: points.with_rule(),
            cells,
        })
    }

    fn named(self, grid: &Grid, name: &[u8], rest: Words) -> Result<Draft, Refused>
        ensures { Takes result (named grid.now self name.now rest.entry) }
    {
        if name == b"station".as_slice() {
            self.point_line(grid, Kind::Station, rest)
        } else if name == b"parking".as_slice() {
            self.point_line(grid, Kind::Parking, rest)
        } else if name == b"agent".as_slice() {
            self.agent_line(rest)
        } else if name == b"rule".as_slice() {
            self.rule_line(rest)
        } else {
            Err(Refused::Line(FaultKind::Form))
        }
    }

    /// With what one line says.
    pub fn line(self, grid: &Grid, line: &[u8]) -> Result<Draft, Refused>
        ensures { Takes result (line_of grid.now self line.now) }
    {
        let mut words = Words::of(line);
        let Some(name) = words.next_word() else {
            return Ok(self);
        };
        if begins_comment(name) {
            return Ok(self);
        }
        if line.len() > LONGEST {
            return Err(Refused::Line(FaultKind::Form));
        }
        self.named(grid, name, words)
    }

    /// The whole, after the last line.
    pub fn finish(self, last: u64) -> Result<Points, Fault>
        requires { last < 2 ^ 63 }
        ensures { result ≡ whole last self self.agents }
    {
        if self.points.agents().is_empty() {
            return Err(Fault {
                kind: FaultKind::NoAgent,
                line: last + 1,
            });
        }
        let Draft { points, cells: _ } = self;
        Ok(points)
    }
}
