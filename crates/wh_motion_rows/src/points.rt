//! Points files with their points and faults, written out by hand.

use std::alloc::Global;
use std::test::Fail;
use wh_grid::{Cell, Grid};
use wh_points::{Kind, PointFault, Points};
use wh_text::Name;

const MAP_A: &[u8] = b"type octile\nheight 3\nwidth 5\nmap\n@.@.@\n.....\n@.@.@\n";

const POINTS_A: &str =
    "parking P0 0 1\nparking P1 4 1\nstation A 1 0\nstation B 3 0\nstation C 1 2\nstation D 3 2\nagent P0\nagent P1\n";

/// Whether the text has points of map A, where no fault is wanted, or else has the wanted fault; lack of memory ends the test.
fn has_fault(alloc: Global, text: &[u8], wanted: &str) -> Result<bool, Fail> {
    let grid = Grid::read(alloc, MAP_A)?;
    match Points::read(alloc, &grid, text) {
        Ok(_) => Ok(wanted.is_empty()),
        Err(PointFault::NoMemory) => Err(PointFault::NoMemory)?,
        Err(fault) => Ok(format!(in alloc; "{fault}")?.as_str() == wanted),
    }
}

fn read(alloc: Global, text: &[u8]) -> Result<Points, Fail> {
    let grid = Grid::read(alloc, MAP_A)?;
    Ok(Points::read(alloc, &grid, text)?)
}

/// Whether the point of this number has the name of a station, is found by it, and stands at a cell.
fn is_station(points: &Points, number: u32, name: Name, cell: Cell) -> bool {
    number < points.len()
        && points.find(&name) == Some(number)
        && points.name(number).same(&name)
        && points.cell(number) == cell
        && points.kind(number) == Kind::Station
}

fn is_unknown(points: &Points, name: Name) -> bool {
    points.find(&name).is_none()
}

#[test]
fn reads_points(rt: HostRuntime) -> Result<(), Fail> {
    let points = read(rt.alloc(), POINTS_A.as_bytes())?;
    assert!(rt; points.len() == 6 && points.parkings() == 2 && points.agents().len() == 2);
    assert!(rt; points.as_slice().len() == 6 && !points.nofollow());
    points.are_apart();
    let (Some(station), Some(none)) = (Name::read(b"D"), Name::read(b"E")) else {
        return Err("these are names".into());
    };
    assert!(rt; is_unknown(&points, none) && is_station(&points, 5, station, Cell { x: 3, y: 2 }));
    assert!(rt; points.point(0).kind == Kind::Parking);
    Ok(())
}

const FAULTS: [(&[u8], &str); 15] = [
    (b"station A 1", "P1 line 1"),
    (b"station abcdefghijklmnopq 1 0", "P2 line 1"),
    (b"station A 1 0\nparking A 3 0", "P3 line 2"),
    (b"station A 0 0", "P4 line 1"),
    (b"station A 5 1", "P4 line 1"),
    (b"station A 65537 0", "P4 line 1"),
    (b"station A 1 0\nstation B 1 0", "P5 line 2"),
    (b"station A 1 0\n", "P7 line 2"),
    (b"station A 1 0\n\r", "P7 line 3"),
    (b"", "P7 line 1"),
    (b"agent A", "P8 line 1"),
    (b"station A 1 0\nagent A\nagent A", "P9 line 3"),
    (b"station A 1 0\nagent a.b", "P2 line 2"),
    (b"station A 1 1000000000", "P1 line 1"),
    (b" # a comment\n\n\t\nstation A 001 0\r\nagent A\r\n", ""),
];

#[test]
fn point_faults(rt: HostRuntime) -> Result<(), Fail> {
    for (text, wanted) in FAULTS {
        assert!(rt; has_fault(rt.alloc(), text, wanted)?);
    }
    Ok(())
}

/// Lines behind the points of map A.
const RULES: [(&str, &str); 5] = [
    ("rule nofollow\n", ""),
    ("rule nofollow\nrule nofollow\n", "P10 line 10"),
    ("rule follow\n", "P1 line 9"),
    ("rule\n", "P1 line 9"),
    ("rule nofollow nofollow\n", "P1 line 9"),
];

fn has_fault_behind(alloc: Global, rules: &str, wanted: &str) -> Result<bool, Fail> {
    let text = format!(in alloc; "{POINTS_A}{rules}")?;
    has_fault(alloc, text.as_bytes(), wanted)
}

#[test]
fn the_rule_stands_once(rt: HostRuntime) -> Result<(), Fail> {
    for (rules, wanted) in RULES {
        assert!(rt; has_fault_behind(rt.alloc(), rules, wanted)?);
    }
    let points = read(rt.alloc(), b"rule nofollow\nstation A 1 0\nagent A\n")?;
    assert!(rt; points.nofollow());
    Ok(())
}

/// Beginnings of the first line, how many blanks follow, and the fault.
const LONG_LINES: [(&[u8], u32, &str); 4] = [
    (b"station A 1 0", 243, ""),
    (b"station A 1 0", 244, "P1 line 1"),
    (b"#", 256, "P8 line 2"),
    (b"", 256, "P8 line 2"),
];

/// A line with the given number of blanks at its end, and a line that names an agent.
fn with_blanks(alloc: Global, first: &[u8], count: u32) -> Result<Vec<u8>, Fail> {
    let mut text = Vec::new(alloc);
    text.extend_from_slice(first)?;
    for _ in 0..count {
        text.push(b' ')?;
    }
    text.extend_from_slice(b"\nagent A")?;
    Ok(text)
}

#[test]
fn lines_of_256_bytes(rt: HostRuntime) -> Result<(), Fail> {
    for (first, count, wanted) in LONG_LINES {
        let text = with_blanks(rt.alloc(), first, count)?;
        assert!(rt; has_fault(rt.alloc(), text.as_slice(), wanted)?);
    }
    Ok(())
}
