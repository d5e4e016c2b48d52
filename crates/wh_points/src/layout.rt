//! The points of a points file, found by name and by number.

ghost use Rattle.std.specs.Prelude.{◌≡◌, ◌≢◌, ◌<◌, ◌≤◌, length, map, All, IfSome, IfNone, IfOk, false, ◌==◌, cond};
ghost use Rattle.std.specs.List.{list_any};
ghost use Rattle.wh_points.specs.Points.{point_at, parkings, is_parking};
ghost use Rattle.wh_points.specs.Layouts.{AreApart, find_name};
ghost use Rattle.wh_points.specs.PointLines.{has_name, has_cell, with_point, with_agent, with_rule};
ghost use Rattle.wh_points.specs.PointFiles.{empty};

use crate::points::{Kind, Point};
use indexmap::IndexSet;
use std::alloc::{AllocError, Global};
use std::marker::Model;
use wh_grid::Cell;
use wh_text::Name;

/// The points in the order of their file, where each agent starts, and whether the rule against following stands.
#[derive(Drop)]
pub struct Points {
    points: Vec<Point>,
    names: IndexSet<Name>,
    agents: Vec<u32>,
    parkings: u32,
    nofollow: bool,
}

impl Model for Points {
    ghost use Rattle.std.specs.Prelude.{◌≡◌, ◌≤◌, map, length, count_by};
    ghost use Rattle.wh_points.specs.Points.{Layout, is_parking};
    ghost use Rattle.wh_points.specs.Layouts.{AreApart};

    ghost Value = { Layout };

    ghost view = { λ a. record { points = a.points.items; agents = a.agents.items; nofollow = a.nofollow } };

    ghost invariant = { λ a. (a.names.keys ≡ map (λ point. point.name) a.points.items)
        × (a.parkings ≡ count_by (λ point. is_parking point.kind) a.points.items)
        × (length a.points.items ≤ 4096) × (length a.agents.items ≤ 256)
        × AreApart (record { points = a.points.items; agents = a.agents.items; nofollow = a.nofollow }) };
}

impl Points {
    /// How many points there are, at most 4096.
    pub fn len(&self) -> u32
        ensures value { result ≡ length self.now.points }
        ensures bound { result ≤ 4096 }
    {
        self.points.len() as u32
    }

    /// The points, in the order of their file.
    pub fn as_slice(&self) -> &[Point]
        ensures value { result.now ≡ self.now.points }
        ensures bound { length result.now ≤ 4096 }
    {
        &self.points
    }

    /// The point of a number, from 0.
    pub fn point(&self, number: u32) -> &Point
        requires { number < length self.now.points }
        ensures { result.now ≡ point_at self.now.points number }
    {
        &self.points[number as usize]
    }

    /// The name of the point of a number, from 0.
    pub fn name(&self, number: u32) -> &Name
        requires { number < length self.now.points }
        ensures { result.now ≡ (point_at self.now.points number).name }
    {
        &self.point(number).name
    }

    /// Where the point of a number, from 0, stands.
    pub fn cell(&self, number: u32) -> Cell
        requires { number < length self.now.points }
        ensures { result ≡ (point_at self.now.points number).cell }
    {
        self.point(number).cell
    }

    /// What the point of a number, from 0, is for.
    pub fn kind(&self, number: u32) -> Kind
        requires { number < length self.now.points }
        ensures { result ≡ (point_at self.now.points number).kind }
    {
        self.point(number).kind
    }

    /// The number of the point of a name. It takes constant time.
    pub fn find(&self, name: &Name) -> Option<u32>
        ensures value { result ≡ find_name name.now self.now.points }
        ensures within { IfSome result (λ i. i < length self.now.points) }
        ensures found { IfSome result (λ i. (point_at self.now.points i).name ≡ name.now) }
        ensures none { IfNone result (All (λ point. point.name ≢ name.now) self.now.points) }
    {
        let place = self.names.get_index_of(name)?;
        Some(place as u32)
    }

    /// The numbers of the points at which the agents start, agent 0's first: at most 256.
    pub fn agents(&self) -> &[u32]
        ensures value { result.now ≡ self.now.agents }
        ensures bound { length result.now ≤ 256 }
        ensures known { All (λ n. n < length self.now.points) result.now }
    {
        &self.agents
    }

    /// How many points are parkings. It takes constant time.
    pub fn parkings(&self) -> u32
        ensures value { result ≡ parkings self.now }
        ensures bound { result ≤ length self.now.points }
    {
        self.parkings
    }

    /// Whether the rule against following stands.
    pub fn nofollow(&self) -> bool
        ensures { result ≡ self.now.nofollow }
    {
        self.nofollow
    }

    /// No two points have a name or a cell in common, and no two agents start at one point. It does nothing: it tells a proof.
    pub fn are_apart(&self)
        ensures { AreApart self.now }
    {
        let _known = self.nofollow;
    }
}

impl Points {
    /// No points yet.
    pub(crate) fn none(alloc: Global) -> Points
        ensures { result ≡ empty }
    {
        Points {
            points: Vec::new(alloc),
            names: IndexSet::new(alloc),
            agents: Vec::new(alloc),
            parkings: 0,
            nofollow: false,
        }
    }

    /// Whether a point has the name. It takes constant time.
    pub(crate) fn has_name(&self, name: &Name) -> bool
        ensures { result ≡ has_name name.now self.now.points }
    {
        self.names.contains(name)
    }

    /// Whether an agent starts at the point.
    pub(crate) fn is_start(&self, number: u32) -> bool
        ensures { result ≡ list_any (λ m. m == number) self.now.agents }
    {
        self.agents.iter().any(|start| *start == number)
    }

    /// With one point more.
    pub(crate) fn with_point(self, point: Point) -> Result<Points, AllocError>
        requires name { has_name point.name self.points ≡ false }
        requires cell { has_cell point.cell.x point.cell.y self.points ≡ false }
        requires room { length self.points < 4096 }
        ensures { IfOk result (λ layout. layout ≡ with_point self point) }
    {
        let Points {
            mut points,
            mut names,
            agents,
            parkings,
            nofollow,
        } = self;
        names.insert(point.name.copy())?;
        let parkings = parkings + weight(point.kind);
        points.push(point)?;
        Ok(Points {
            points,
            names,
            agents,
            parkings,
            nofollow,
        })
    }

    /// With one agent more, which starts at the point.
    pub(crate) fn with_agent(self, number: u32) -> Result<Points, AllocError>
        requires known { number < length self.points }
        requires new { list_any (λ m. m == number) self.agents ≡ false }
        requires room { length self.agents < 256 }
        ensures { IfOk result (λ layout. layout ≡ with_agent self number) }
    {
        let Points {
            points,
            names,
            mut agents,
            parkings,
            nofollow,
        } = self;
        agents.push(number)?;
        Ok(Points {
            points,
            names,
            agents,
            parkings,
            nofollow,
        })
    }

    /// With the rule against following.
    pub(crate) fn with_rule(self) -> Points
        ensures { result ≡ with_rule self }
    {
        let Points {
            points,
            names,
            agents,
            parkings,
            nofollow: _,
        } = self;
        Points {
            points,
            names,
            agents,
            parkings,
            nofollow: true,
        }
    }
}

/// How many parkings a point is.
fn weight(kind: Kind) -> u32
    ensures { result ≡ cond (is_parking kind) 1 0 }
{
    match kind {
        Kind::Parking => 1,
        Kind::Station => 0,
    }
}
