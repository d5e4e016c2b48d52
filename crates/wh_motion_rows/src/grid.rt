//! Maps with their grids and faults, written out by hand.

use std::alloc::Global;
use std::test::Fail;
use wh_grid::{Cell, Grid, MapFault};

const MAP_A: &[u8] = b"type octile\nheight 3\nwidth 5\nmap\n@.@.@\n.....\n@.@.@\n";

/// Whether the text is a map, where no fault is wanted, or else has the wanted fault; lack of memory ends the test.
fn has_fault(alloc: Global, text: &[u8], wanted: &str) -> Result<bool, Fail> {
    match Grid::read(alloc, text) {
        Ok(_) => Ok(wanted.is_empty()),
        Err(MapFault::NoMemory) => Err(MapFault::NoMemory)?,
        Err(fault) => Ok(format!(in alloc; "{fault}")?.as_str() == wanted),
    }
}

/// Whether the text is the same map.
fn is_same(alloc: Global, grid: &Grid, text: &[u8]) -> Result<bool, Fail> {
    let other = Grid::read(alloc, text)?;
    Ok(grid.same(&other))
}

#[test]
fn reads_a_map(rt: HostRuntime) -> Result<(), Fail> {
    let grid = Grid::read(rt.alloc(), MAP_A)?;
    assert!(rt;
        grid.width() == 5 && grid.height() == 3 && grid.cells() == 9 && grid.rows().len() == 15
    );
    assert!(rt; is_same(rt.alloc(), &grid, MAP_A)?);
    Ok(())
}

/// Texts of that map, with other line ends and blanks.
const SAME: [&[u8]; 3] = [
    b"type octile\r\nheight 3\r\nwidth 5\r\nmap\r\n@.@.@\r\n.....\r\n@.@.@",
    b"type octile\nheight 3\nwidth 5\nmap\n@.@.@\n.....\n@.@.@\n\n\n",
    b"type octile\nwidth\t005\n height 3 \nmap\n@.@.@\n.....\n@.@.@\n  \t\n",
];

#[test]
fn line_ends(rt: HostRuntime) -> Result<(), Fail> {
    let grid = Grid::read(rt.alloc(), MAP_A)?;
    for text in SAME {
        assert!(rt; is_same(rt.alloc(), &grid, text)?);
    }
    Ok(())
}

const FAULTS: [(&[u8], &str); 9] = [
    (b"", "M1 line 1"),
    (b"type octile\nheight 0\nwidth 3\n", "M2 line 2"),
    (b"type octile\nheight 5000\nwidth 3\n", "M7 line 2"),
    (b"type octile\nheight 4096\nheight 0\n", "M1 line 3"),
    (b"type octile\nheight 1\nwidth 3\nmap\n..\n", "M3 line 5"),
    (b"type octile\nheight 1\nwidth 3\nmap\n.x.\n", "M4 line 5"),
    (b"type octile\nheight 1\nwidth 3\nmap\n....\n", "M3 line 5"),
    (b"type octile\nheight 2\nwidth 3\nmap\n...\n", "M5 line 6"),
    (
        b"type octile\nheight 1\nwidth 3\nmap\n...\nabc\n",
        "M6 line 6",
    ),
];

#[test]
fn map_faults(rt: HostRuntime) -> Result<(), Fail> {
    for (text, wanted) in FAULTS {
        assert!(rt; has_fault(rt.alloc(), text, wanted)?);
    }
    Ok(())
}

#[test]
fn map_letters(rt: HostRuntime) -> Result<(), Fail> {
    let grid = Grid::read(
        rt.alloc(),
        b"type octile\nheight 1\nwidth 7\nmap\n.GS@OTW\n",
    )?;
    assert!(rt; grid.cells() == 3);
    for x in 0..8 {
        assert!(rt; grid.passable(Cell { x, y: 0 }) == (x < 3));
    }
    assert!(rt; !grid.passable(Cell { x: 0, y: 1 }));
    Ok(())
}

/// The fault of the map's first `n` bytes.
fn fault_when_cut(n: usize) -> &'static str {
    match n {
        0..=5 => "M1 line 1",
        6..=19 => "M1 line 2",
        20..=27 => "M1 line 3",
        28..=31 => "M1 line 4",
        32 | 33 => "M5 line 5",
        34..=37 => "M3 line 5",
        38 | 39 => "M5 line 6",
        40..=43 => "M3 line 6",
        44 | 45 => "M5 line 7",
        46..=49 => "M3 line 7",
        _ => "",
    }
}

#[test]
fn cut_map(rt: HostRuntime) -> Result<(), Fail> {
    for n in 0..=MAP_A.len() {
        assert!(rt; has_fault(rt.alloc(), &MAP_A[..n], fault_when_cut(n))?);
    }
    Ok(())
}

/// Cells of the map, and how many passable ones are beside them.
const BESIDE: [(Cell, usize); 6] = [
    (Cell { x: 0, y: 1 }, 1),
    (Cell { x: 1, y: 1 }, 4),
    (Cell { x: 2, y: 1 }, 2),
    (Cell { x: 1, y: 0 }, 1),
    (Cell { x: 5, y: 1 }, 1),
    (Cell { x: 0, y: 0 }, 2),
];

#[test]
fn neighbours_beside_walls(rt: HostRuntime) -> Result<(), Fail> {
    let grid = Grid::read(rt.alloc(), MAP_A)?;
    for (cell, count) in BESIDE {
        assert!(rt; grid.neighbours(cell).len() == count);
    }
    let around = grid.neighbours(Cell { x: 2, y: 1 });
    assert!(rt; around.as_slice().contains(&Cell { x: 3, y: 1 }));
    Ok(())
}

#[test]
fn grids_from_rows(rt: HostRuntime) -> Result<(), Fail> {
    let grid = Grid::new(2, 1, vec![in rt.alloc(); true, false]?);
    assert_eq!(rt; grid.cells(), 1);
    assert!(rt; Cell { x: 1, y: 2 }.is(Cell { x: 1, y: 2 }));
    assert!(rt; !Cell { x: 1, y: 2 }.is(Cell { x: 2, y: 1 }));
    Ok(())
}
