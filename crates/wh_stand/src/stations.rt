//! The cells of the stations.
#![tactic(auto)]

ghost use Rattle.std.specs.Prelude.{◌≡◌, ◌↔◌, IsTrue, IfOk, OnOk, Contains, ◌⊎◌};
ghost use Rattle.wh_grid.specs.declared.cell.Cell.{Cell as Place};
ghost use Rattle.wh_core.specs.Laws.{IsStationCell};
ghost use Rattle.wh_stand.specs.StationCells.{AreStations};

use indexmap::IndexSet;
use std::alloc::{AllocError, Global};
use std::marker::Model;
use wh_grid::Cell;
use wh_points::{Kind, Point, Points};

/// The points, and the cells at which stations stand. To find one takes constant time.
#[derive(Drop)]
pub(crate) struct Stations<'a> {
    points: &'a Points,
    cells: IndexSet<Cell>,
}

impl<'a> Model for Stations<'a> {
    ghost use Rattle.wh_points.specs.Points.{Layout};
    ghost use Rattle.wh_stand.specs.StationCells.{AreStations};

    ghost Value = { Layout };

    ghost view = { λ s. s.points.now };

    ghost invariant = { λ s. AreStations s.points.now.points s.cells.keys };
}

impl<'a> Stations<'a> {
    /// The stations among the points. Fails when out of memory.
    pub(crate) fn of(alloc: Global, points: &'a Points) -> Result<Stations<'a>, AllocError>
        ensures { IfOk result (λ stations. stations ≡ points.now) }
    {
        let cells = cells_of(alloc, points.as_slice())?;
        Ok(Stations { points, cells })
    }

    /// The points.
    pub(crate) fn points(&self) -> &Points
        ensures { result.now ≡ self.now }
    {
        self.points
    }

    /// Whether a station stands at the cell.
    pub(crate) fn has(&self, cell: Cell) -> bool
        ensures { IsTrue result ↔ IsStationCell self.now cell }
    {
        self.cells.contains(&cell)
    }
}

/// The cells of the stations among the points.
fn cells_of(alloc: Global, points: &[Point]) -> Result<IndexSet<Cell>, AllocError>
    ensures { IfOk result (λ cells. AreStations points.now cells.keys) }
{
    let mut cells = IndexSet::new(alloc);
    for point in points {
        add(&mut cells, point)?;
    }
    Ok(cells)
}

/// The cell of a point is put in, if it is a station.
fn add(cells: &mut IndexSet<Cell>, point: &Point) -> Result<(), AllocError>
    ensures station { OnOk result (point.now.kind ≡ Kind.Station → (cell : Place) → Contains cells.new.keys cell ↔ (Contains cells.old.keys cell ⊎ (cell ≡ point.now.cell))) }
    ensures parking { OnOk result (point.now.kind ≡ Kind.Parking → cells.new.keys ≡ cells.old.keys) }
{
    match point.kind {
        Kind::Parking => Ok(()),
        Kind::Station => match cells.insert(point.cell) {
            Ok(_) => Ok(()),
            Err(_) => Err(AllocError),
        },
    }
}
