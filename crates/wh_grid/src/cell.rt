//! A place on the grid.
#![tactic(auto)]

ghost use Rattle.std.specs.Prelude.{◌≡◌, ◌↔◌, IsTrue};
ghost use Rattle.wh_grid.specs.Grids.{IsMove};

/// A place on the grid: x columns from the left and y rows from the top, both from 0.
#[derive(Clone, Copy, Debug, Default, PartialEq, Eq, Hash)]
pub struct Cell {
    pub x: u16,
    pub y: u16,
}

impl Cell {
    /// Whether it is this cell.
    pub fn is(self, other: Cell) -> bool
        ensures { IsTrue result ↔ (self ≡ other) }
    {
        self.x == other.x && self.y == other.y
    }

    /// Whether it is one step, or none, from one cell to another.
    pub fn is_move(from: Cell, to: Cell) -> bool
        ensures { IsTrue result ↔ IsMove from to }
    {
        from.x.abs_diff(to.x) as u32 + from.y.abs_diff(to.y) as u32 <= 1
    }
}
