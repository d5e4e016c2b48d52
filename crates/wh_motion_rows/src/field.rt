//! Distances and routes on small maps, by tables that other programs and hands have made.
#![tactic(auto)]

use std::alloc::{AllocError, Global};
use std::test::Fail;
use wh_field::{
    Field, GrowingField, LazyField, NearestField, Sight, laws, route, route_to_nearest,
};
use wh_grid::{Cell, Grid};
use wh_path::TimedPath;

// Which cells of the map `@.@.@`, `.....`, `@.@.@` are passable: a tree, so its least walks are unique.
const TREE: [bool; 15] = [
    false, true, false, true, false, true, true, true, true, true, false, true, false, true, false,
];

fn tree(alloc: Global) -> Result<Grid, AllocError> {
    Ok(Grid::new(5, 3, TREE.to_vec(alloc)?))
}

// Its passable cells, row by row.
const CELLS: [Cell; 9] = [
    Cell { x: 1, y: 0 },
    Cell { x: 3, y: 0 },
    Cell { x: 0, y: 1 },
    Cell { x: 1, y: 1 },
    Cell { x: 2, y: 1 },
    Cell { x: 3, y: 1 },
    Cell { x: 4, y: 1 },
    Cell { x: 1, y: 2 },
    Cell { x: 3, y: 2 },
];

// From each of them to each, as a Python script found them by a breadth-first search over a set
// of coordinates.
const STEPS: [[u32; 9]; 9] = [
    [0, 4, 2, 1, 2, 3, 4, 2, 4],
    [4, 0, 4, 3, 2, 1, 2, 4, 2],
    [2, 4, 0, 1, 2, 3, 4, 2, 4],
    [1, 3, 1, 0, 1, 2, 3, 1, 3],
    [2, 2, 2, 1, 0, 1, 2, 2, 2],
    [3, 1, 3, 2, 1, 0, 1, 3, 1],
    [4, 2, 4, 3, 2, 1, 0, 4, 2],
    [2, 4, 2, 1, 2, 3, 4, 0, 4],
    [4, 2, 4, 3, 2, 1, 2, 4, 0],
];

/// Whether two fields from one cell have these steps to each cell, and none to a wall or outside.
fn have_steps(field: &Field, lazy: &mut LazyField, row: &[u32; 9]) -> bool {
    for (to, steps) in CELLS.iter().zip(row.iter()) {
        let steps = Some(*steps);
        if field.dist(*to) != steps || lazy.dist(*to) != steps {
            return false;
        }
    }
    field.dist(Cell { x: 0, y: 0 }).is_none() && lazy.dist(Cell { x: 5, y: 1 }).is_none()
}

/// Whether the field of one cell, filled as far as each cell in turn, tells how far that is, and
/// that a wall is farther.
fn nearest_tells(
    alloc: Global,
    grid: &Grid,
    from: Cell,
    row: &[u32; 9],
) -> Result<bool, AllocError> {
    for (to, steps) in CELLS.iter().zip(row.iter()) {
        let field = NearestField::until(alloc, grid, &[from], *to)?;
        if field.estimate(*to) != *steps || field.estimate(Cell { x: 0, y: 0 }) <= *steps {
            return Ok(false);
        }
    }
    Ok(true)
}

fn have_steps_from(
    alloc: Global,
    grid: &Grid,
    lazy: &mut LazyField,
    from: Cell,
    row: &[u32; 9],
) -> Result<bool, AllocError> {
    let field = Field::from(alloc, grid, from)?;
    lazy.again(from);
    Ok(have_steps(&field, lazy, row) && nearest_tells(alloc, grid, from, row)?)
}

/// Whether the fields of each cell have its steps, and none has any from a wall.
fn have_all_steps(alloc: Global, grid: &Grid, lazy: &mut LazyField) -> Result<bool, AllocError> {
    for (from, row) in CELLS.iter().zip(STEPS.iter()) {
        if !have_steps_from(alloc, grid, lazy, *from, row)? {
            return Ok(false);
        }
    }
    lazy.again(Cell { x: 2, y: 0 });
    Ok(lazy.dist(Cell { x: 2, y: 0 }).is_none())
}

#[test]
fn all_distances(rt: HostRuntime) -> Result<(), Fail> {
    let grid = tree(rt.alloc())?;
    let mut lazy = LazyField::from(rt.alloc(), &grid, Cell { x: 0, y: 0 })?;
    assert!(rt; have_all_steps(rt.alloc(), &grid, &mut lazy)?);
    Ok(())
}

/// A row of 12 cells, of which the one at 9 is blocked.
fn row(alloc: Global) -> Result<Grid, AllocError> {
    let mut cells = vec![in alloc; true; 12]?;
    cells[9] = false;
    Ok(Grid::new(12, 1, cells))
}

/// Whether each cell of the row has its distance from the nearer of its cells 0 and 8, as far as
/// that of cell 3.
fn tells_nearer(field: &NearestField) -> bool {
    let near = |x: u16| field.estimate(Cell { x, y: 0 });
    near(0) == 0 && near(3) == 3 && near(4) == 4 && near(5) == 3 && near(8) == 0 && near(11) > 3
}

/// The field of these cells of the row, filled as far as another.
fn of_row(alloc: Global, ends: &[Cell], until: u16) -> Result<NearestField, AllocError> {
    let grid = row(alloc)?;
    NearestField::until(alloc, &grid, ends, Cell { x: until, y: 0 })
}

#[test]
fn nearer_of_two(rt: HostRuntime) -> Result<(), Fail> {
    let ends = [Cell { x: 0, y: 0 }, Cell { x: 8, y: 0 }];
    let field = of_row(rt.alloc(), &ends, 3)?;
    assert!(rt; tells_nearer(&field));
    Ok(())
}

/// Filled as far as cell 1 of the row, and then whole: each cell up to the wall has its distance from the left end.
fn is_filled(field: &mut NearestField) -> bool {
    let is_begun = field.estimate(Cell { x: 1, y: 0 }) == 1;
    field.fill();
    for x in 0..9 {
        if field.estimate(Cell { x, y: 0 }) != u32::from(x) {
            return false;
        }
    }
    is_begun && field.estimate(Cell { x: 10, y: 0 }) > 1_000_000
}

#[test]
fn filled_to_its_end(rt: HostRuntime) -> Result<(), Fail> {
    let mut field = of_row(rt.alloc(), &[Cell { x: 0, y: 0 }], 1)?;
    assert!(rt; is_filled(&mut field));
    Ok(())
}

/// Which of cell 3 of the row and those beside it are nearer to its left end than a number, by a field
/// that is looked at as far as 4: below the row, where there is no walk, counts as 5.
fn nearer_than(alloc: Global, than: u64) -> Result<[bool; 5], AllocError> {
    let grid = row(alloc)?;
    let mut field = GrowingField::from(alloc, &grid, Cell { x: 0, y: 0 })?;
    field.fill_to(4);
    Ok(Sight::new(&field, 4).below(Cell { x: 3, y: 0 }, than))
}

/// Numbers, and whether the cell, and what is to its left and right, above and below it, is nearer.
const NEARER: [(u64, [bool; 5]); 4] = [
    (0, [false, false, false, false, false]),
    (4, [true, true, false, true, false]),
    (5, [true, true, true, true, false]),
    (6, [true, true, true, true, true]),
];

#[test]
fn nearer_than_a_number(rt: HostRuntime) -> Result<(), Fail> {
    for (than, are) in NEARER {
        assert!(rt; nearer_than(rt.alloc(), than)? == are);
    }
    Ok(())
}

/// From the left end of the row.
fn from_the_left(alloc: Global) -> Result<LazyField, AllocError> {
    let grid = row(alloc)?;
    LazyField::from(alloc, &grid, Cell { x: 0, y: 0 })
}

/// Places of the row, limits, and how far the place is within the limit.
const WITHIN: [(u16, u32, Option<u32>); 9] = [
    (5, 4, None),
    (5, 5, Some(5)),
    (3, 2, None),
    (0, 0, Some(0)),
    (8, 7, None),
    (8, 100, Some(8)),
    (9, 100, None),
    (10, 100, None),
    (12, 100, None),
];

fn are_within(lazy: &mut LazyField) -> bool {
    for (x, limit, steps) in WITHIN {
        if lazy.within(Cell { x, y: 0 }, limit) != steps {
            return false;
        }
    }
    lazy.dist(Cell { x: 8, y: 0 }) == Some(8)
}

#[test]
fn no_further_than_the_limit(rt: HostRuntime) -> Result<(), Fail> {
    let mut lazy = from_the_left(rt.alloc())?;
    assert!(rt; are_within(&mut lazy));
    Ok(())
}

/// Places of the row that are sought one after the other, and how far the first of them is from the place at 1.
const SOUGHT: [(u16, Option<u32>); 7] = [
    (9, None),
    (10, None),
    (12, None),
    (8, Some(7)),
    (5, Some(4)),
    (6, Some(4)),
    (0, Some(1)),
];

/// Whether the first of those that are sought one after the other is as far from the place at 1.
fn are_sought(lazy: &mut LazyField) -> bool {
    if lazy.first_sought().is_some() {
        return false;
    }
    lazy.again(Cell { x: 1, y: 0 });
    for (x, steps) in SOUGHT {
        lazy.seek(Cell { x, y: 0 });
        if lazy.first_sought() != steps {
            return false;
        }
    }
    true
}

/// Whether it is one step from the place at 7, and none is sought once none is to be, and then that place alone.
fn is_sought_anew(lazy: &mut LazyField) -> bool {
    lazy.again(Cell { x: 7, y: 0 });
    let is_beside = lazy.first_sought() == Some(1);
    lazy.seek_none();
    let is_none = lazy.first_sought().is_none();
    lazy.seek(Cell { x: 7, y: 0 });
    is_beside
        && is_none
        && lazy.first_sought() == Some(0)
        && lazy.dist(Cell { x: 2, y: 0 }) == Some(5)
}

#[test]
fn first_of_those_sought(rt: HostRuntime) -> Result<(), Fail> {
    let mut lazy = from_the_left(rt.alloc())?;
    assert!(rt; are_sought(&mut lazy) && is_sought_anew(&mut lazy));
    Ok(())
}

/// All distances of the tree from its left.
fn field(alloc: Global) -> Result<Field, AllocError> {
    let grid = tree(alloc)?;
    Field::from(alloc, &grid, Cell { x: 0, y: 1 })
}

fn tells_around(field: &Field) -> bool {
    let middle = field.around(Cell { x: 3, y: 1 });
    let border = field.around(Cell { x: 0, y: 1 });
    middle.here == Some(3)
        && middle.left == Some(2)
        && middle.right == Some(4)
        && middle.above == Some(4)
        && middle.below == Some(4)
        && border.left == Some(0)
        && border.above.is_none()
        && border.right == Some(1)
}

#[test]
fn around_a_cell(rt: HostRuntime) -> Result<(), Fail> {
    let field = field(rt.alloc())?;
    assert!(rt; tells_around(&field));
    Ok(())
}

/// Whether a path goes over these cells, and no farther.
fn is_over(path: &TimedPath, cells: &[Cell]) -> bool {
    for (k, cell) in cells.iter().enumerate() {
        if path.at(k as u64) != *cell {
            return false;
        }
    }
    path.remaining().saturating_add(1) == cells.len() as u64
}

/// Whether the route between two cells goes over these.
fn is_route(
    alloc: Global,
    grid: &Grid,
    from: Cell,
    to: Cell,
    cells: &[Cell],
) -> Result<bool, AllocError> {
    match route(alloc, grid, from, to, &[])? {
        Some(path) => Ok(is_over(&path, cells)),
        None => Ok(false),
    }
}

fn has_no_route(
    alloc: Global,
    grid: &Grid,
    from: Cell,
    to: Cell,
    avoid: &[Cell],
) -> Result<bool, AllocError> {
    Ok(route(alloc, grid, from, to, avoid)?.is_none())
}

/// Whether the route to the nearest target leads to the one of this number, over these cells.
fn is_nearest(
    alloc: Global,
    grid: &Grid,
    targets: &[Cell],
    avoid: &[Cell],
    number: usize,
    cells: &[Cell],
) -> Result<bool, AllocError> {
    let Some(from) = cells.first() else {
        return Ok(false);
    };
    match route_to_nearest(alloc, grid, *from, targets, avoid)? {
        Some((found, path)) => Ok(found == number && is_over(&path, cells)),
        None => Ok(false),
    }
}

const LEFT: Cell = Cell { x: 0, y: 0 };

const NEAR_LEFT: Cell = Cell { x: 1, y: 0 };

const RIGHT: Cell = Cell { x: 4, y: 0 };

/// The map `..@..`.
fn parted(alloc: Global) -> Result<Grid, AllocError> {
    Ok(Grid::new(5, 1, [true, true, false, true, true].to_vec(alloc)?))
}

/// Whether the left end's distances go as far as its component.
fn ends_at_the_gap(alloc: Global, grid: &Grid) -> Result<bool, AllocError> {
    let field = Field::from(alloc, grid, LEFT)?;
    Ok(field.dist(NEAR_LEFT) == Some(1) && field.dist(RIGHT).is_none())
}

/// How far a cell is from the nearest of some others by an estimate, and how far another, by a field that is filled until that one.
fn estimates(
    alloc: Global,
    grid: &Grid,
    ends: &[Cell],
    near: Cell,
    until: Cell,
) -> Result<(u32, u32), AllocError> {
    let field = NearestField::until(alloc, grid, ends, until)?;
    Ok((field.estimate(near), field.estimate(until)))
}

fn are_parted(alloc: Global, grid: &Grid) -> Result<bool, AllocError> {
    let beside = Cell { x: 3, y: 0 };
    let (_, of_both) = estimates(alloc, grid, &[LEFT, RIGHT], NEAR_LEFT, beside)?;
    let (near, far) = estimates(alloc, grid, &[LEFT], NEAR_LEFT, RIGHT)?;
    Ok(of_both == 1 && near == 1 && far > 1_000_000 && ends_at_the_gap(alloc, grid)?)
}

#[test]
fn distances_in_two_components(rt: HostRuntime) -> Result<(), Fail> {
    let grid = parted(rt.alloc())?;
    assert!(rt; are_parted(rt.alloc(), &grid)?);
    Ok(())
}

fn has_no_nearest(
    alloc: Global,
    grid: &Grid,
    from: Cell,
    targets: &[Cell],
) -> Result<bool, AllocError> {
    Ok(route_to_nearest(alloc, grid, from, targets, &[])?.is_none())
}

fn routes_end_at_the_gap(alloc: Global, grid: &Grid) -> Result<bool, AllocError> {
    let way = [LEFT, NEAR_LEFT];
    Ok(
        has_no_route(alloc, grid, LEFT, RIGHT, &[])?
            && is_nearest(alloc, grid, &[RIGHT, NEAR_LEFT], &[], 1, &way)?
            && has_no_nearest(alloc, grid, LEFT, &[RIGHT])?,
    )
}

#[test]
fn routes_in_two_components(rt: HostRuntime) -> Result<(), Fail> {
    let grid = parted(rt.alloc())?;
    assert!(rt; routes_end_at_the_gap(rt.alloc(), &grid)?);
    Ok(())
}

/// The only least walk of the tree between its upper left corner and its lower right one.
const WAY: [Cell; 5] = [
    Cell { x: 1, y: 0 },
    Cell { x: 1, y: 1 },
    Cell { x: 2, y: 1 },
    Cell { x: 3, y: 1 },
    Cell { x: 3, y: 2 },
];

/// Whether the way is the route between its ends, and there is none that avoids its middle or one of its ends.
fn is_only_way(alloc: Global, grid: &Grid) -> Result<bool, AllocError> {
    let [from, _, middle, _, to] = WAY;
    for avoid in [middle, from, to] {
        if !has_no_route(alloc, grid, from, to, &[avoid])? {
            return Ok(false);
        }
    }
    is_route(alloc, grid, from, to, &WAY)
}

#[test]
fn routes(rt: HostRuntime) -> Result<(), Fail> {
    let grid = tree(rt.alloc())?;
    assert!(rt; is_only_way(rt.alloc(), &grid)?);
    Ok(())
}

/// Whether the first of two corners is the nearest to the middle, and the other one where the way to the first is avoided.
fn are_nearest_in_turn(alloc: Global, grid: &Grid) -> Result<bool, AllocError> {
    let [_, wall, middle, beside, to] = WAY;
    let corners = [Cell { x: 1, y: 2 }, to];
    let first = [middle, wall, corners[0]];
    let other = [middle, beside, to];
    Ok(
        is_nearest(alloc, grid, &corners, &[], 0, &first)?
            && is_nearest(alloc, grid, &corners, &[wall], 1, &other)?,
    )
}

#[test]
fn routes_to_the_nearest(rt: HostRuntime) -> Result<(), Fail> {
    let grid = tree(rt.alloc())?;
    assert!(rt; are_nearest_in_turn(rt.alloc(), &grid)?);
    Ok(())
}

#[test]
fn laws_hold(rt: HostRuntime) -> Result<(), Fail> {
    let grid = tree(rt.alloc())?;
    laws::distance_is_least(&grid);
    laws::distance_of_itself(&grid);
    laws::distance_grows_by_one(&grid);
    laws::distance_of_neighbours(&grid);
    laws::distance_both_ways(&grid);
    Ok(())
}
