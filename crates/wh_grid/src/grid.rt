//! Which cells of a map may be walked on.
#![tactic(auto)]

ghost use Rattle.std.specs.Prelude.{◌≡◌, ℕ, ◌+◌, ◌*◌, ◌<◌, ◌≤◌, ◌^◌, ◌↔◌, IsTrue, length, count_by, vec_len, List, Ok, IfOk, IfErr};
ghost use Rattle.wh_grid.specs.Faults.{Gives, IsWithin};
ghost use Rattle.wh_grid.specs.Grammar.{IsMap};
ghost use Rattle.wh_grid.specs.Grids.{Floor, IsPassable, passable_cells, same_floor};
ghost use Rattle.wh_grid.specs.Maps.{map_at, IsFirst};
ghost use Rattle.wh_text.specs.Lines.{lines_of};

use crate::cell::Cell;
use crate::fault::MapFault;
use crate::head::read_head;
use crate::rows::{read_blanks, read_rows};
use std::alloc::Global;
use std::marker::Model;
use wh_text::Lines;

/// Which cells are passable, row by row from the top; at most 4096 columns and 4096 rows. Needs one byte per cell.
#[derive(Drop)]
pub struct Grid {
    width: u16,
    height: u16,
    walkable: Vec<bool>,
    passable_cells: u32,
}

impl Model for Grid {
    ghost use Rattle.std.specs.Prelude.{◌≡◌, ◌*◌, ◌≤◌, count_by, vec_len};
    ghost use Rattle.wh_grid.specs.Grids.{Floor};

    ghost Value = { Floor };

    ghost view = { λ g. record { width = g.width; height = g.height; walkable = g.walkable.items } };

    ghost invariant = { λ g. (vec_len g.walkable ≡ g.width * g.height) × (g.width ≤ 4096) × (g.height ≤ 4096)
        × (g.passable_cells ≡ count_by (λ b. b) g.walkable.items) };
}

impl Grid {
    /// The grid of these cells, row by row from the top.
    pub fn new(width: u16, height: u16, walkable: Vec<bool>) -> Self
        requires size { vec_len walkable ≡ width * height }
        requires width { width ≤ 4096 }
        requires height { height ≤ 4096 }
        ensures { result ≡ record { width = width; height = height; walkable = walkable.items } }
    {
        let passable_cells = count_true(&walkable) as u32;
        Grid {
            width,
            height,
            walkable,
            passable_cells,
        }
    }

    /// The grid of a map's text: a profile of the MovingAI `.map` format.
    /// An error is `NoMemory`, or the first fault from the first byte to the last, at its line; a missing line is the
    /// number of lines plus 1.
    pub fn read(alloc: Global, text: &[u8]) -> Result<Grid, MapFault>
        // What is read is a map, and this floor is what it says.
        ensures found { IfOk result (λ grid. IsMap (lines_of text.now) grid) }
        // Each map is read, unless memory runs out.
        ensures only { (floor : Floor) → IsMap (lines_of text.now) floor → Gives (λ grid. grid) result (Ok floor) }
        // Which fault it is, and its line.
        ensures exact { Gives (λ grid. grid) result (map_at text.now) }
        ensures line { IfErr result (λ e. IsWithin (length (lines_of text.now) + 1) e) }
        // Nothing that stands after the fault's line changes it.
        ensures first { IfErr result (IsFirst (lines_of text.now)) }
    {
        read_all(alloc, text)
    }

    /// How many columns there are, at most 4096.
    pub fn width(&self) -> u16
        ensures value { result ≡ self.now.width }
        ensures bound { result ≤ 4096 }
    {
        self.width
    }

    /// How many rows there are, at most 4096.
    pub fn height(&self) -> u16
        ensures value { result ≡ self.now.height }
        ensures bound { result ≤ 4096 }
    {
        self.height
    }

    /// How many cells are passable. It takes constant time.
    pub fn cells(&self) -> u32
        ensures value { result ≡ passable_cells self.now }
        ensures bound { result ≤ 2 ^ 24 }
    {
        self.passable_cells
    }

    /// Whether it is this grid: the same sides and the same passable cells.
    pub fn same(&self, other: &Grid) -> bool
        ensures value { result ≡ same_floor self.now other.now }
        ensures same { IsTrue result ↔ (self.now ≡ other.now) }
    {
        if self.width != other.width || self.height != other.height {
            return false;
        }
        self.walkable == other.walkable
    }

    /// Whether a cell may be walked on. No cell outside may. It takes constant time.
    pub fn passable(&self, cell: Cell) -> bool
        ensures { IsTrue result ↔ IsPassable self.now cell }
    {
        if cell.x < self.width && cell.y < self.height {
            self.walkable[cell.y as usize * self.width as usize + cell.x as usize]
        } else {
            false
        }
    }

    /// The cells row by row from the top, true where passable.
    pub fn rows(&self) -> &[bool]
        ensures rows { result.now ≡ self.now.walkable }
        ensures size { length result.now ≡ self.now.width * self.now.height }
    {
        &self.walkable
    }
}

fn count_true(xs: &[bool]) -> usize
    ensures { result ≡ count_by (λ b. b) xs.now }
{
    let mut count = 0;
    for x in xs {
        count += *x as usize;
    }
    count
}

#[tactic(auto, unfolding(crate::specs::Maps::map_of))]
fn read_all(alloc: Global, text: &[u8]) -> Result<Grid, MapFault>
    ensures { Gives (λ grid. grid) result (map_at text.now) }
{
    let mut lines = Lines::new(text);
    let size = read_head(&mut lines)?;
    let walkable = read_rows(alloc, &mut lines, size)?;
    read_blanks(&mut lines)?;
    Ok(Grid::new(size.width, size.height, walkable))
}
