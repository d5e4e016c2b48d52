//! Worked verdicts, and one on a large grid.
#![tactic(auto)]

use std::alloc::Global;
use std::test::Fail;
use std::thread::Threads;
use wh_formed::{Verdict, check};
use wh_grid::Grid;
use wh_points::Points;

const TREE: &str = "type octile\nheight 3\nwidth 5\nmap\n@.@.@\n.....\n@.@.@\n";

const ROW: &str = "type octile\nheight 1\nwidth 5\nmap\n.....\n";

fn verdict<R: AllocGlobal + Threads + Sync>(
    rt: &R,
    map: &str,
    points: &str,
) -> Result<Verdict, Fail> {
    let grid = Grid::read(rt.alloc(), map.as_bytes())?;
    let points = Points::read(rt.alloc(), &grid, points.as_bytes())?;
    Ok(check(rt, rt.alloc(), &grid, &points)?)
}

/// Points of the first map: well-formed; one station parts the others; too few parkings.
const OF_THE_TREE: [(&str, Verdict); 3] = [
    (
        "parking P0 0 1\nparking P1 4 1\nstation A 1 0\nstation B 3 0\nstation C 1 2\nstation D 3 2\nagent P0\nagent P1\n",
        Verdict::Formed,
    ),
    (
        "parking P0 0 1\nparking P1 4 1\nstation A 1 0\nstation B 3 0\nstation C 1 2\nstation D 3 2\nstation E 2 1\nagent P0\nagent P1\n",
        Verdict::Cut { a: 0, b: 1 },
    ),
    (
        "parking P0 0 1\nstation P1 4 1\nstation A 1 0\nstation B 3 0\nstation C 1 2\nstation D 3 2\nagent P0\nagent P1\n",
        Verdict::FewParkings { have: 1, need: 2 },
    ),
];

#[test]
fn checks(rt: HostRuntime) -> Result<(), Fail> {
    for (points, wanted) in OF_THE_TREE {
        assert!(rt; verdict(&rt, TREE, points)? == wanted);
    }
    Ok(())
}

/// Points of the row. In the second text the first point stands between the other two.
const OF_THE_ROW: [(&str, Verdict); 2] = [
    (
        "station S 0 0\nparking M 2 0\nparking N 1 0\nstation T 4 0\nagent S\nagent M\n",
        Verdict::Cut { a: 0, b: 1 },
    ),
    (
        "parking M 2 0\nstation S 0 0\nstation T 4 0\nagent S\n",
        Verdict::Cut { a: 1, b: 2 },
    ),
];

#[test]
fn cut_instances(rt: HostRuntime) -> Result<(), Fail> {
    for (points, wanted) in OF_THE_ROW {
        assert!(rt; verdict(&rt, ROW, points)? == wanted);
    }
    Ok(())
}

/// Two rows of 2100 cells, of which one in the first may be blocked.
fn long_map(alloc: Global, blocked: Option<u32>) -> Result<String, Fail> {
    let mut map = format!(in alloc; "type octile\nheight 2\nwidth 2100\nmap\n")?;
    for x in 0..2100u32 {
        map.push(if Some(x) == blocked { '@' } else { '.' })?;
    }
    map.push('\n')?;
    for _ in 0..2100u32 {
        map.push('.')?;
    }
    Ok(map)
}

fn put_parking(points: &mut String, alloc: Global, x: u32) -> Result<(), Fail> {
    let line = format!(in alloc; "parking Q{x} {x} 1\n")?;
    points.push_str(&line)?;
    Ok(())
}

/// A parking on each cell of the second row.
fn long_points(alloc: Global) -> Result<String, Fail> {
    let mut points = String::new(alloc);
    for x in 0..2100u32 {
        put_parking(&mut points, alloc, x)?;
    }
    points.push_str("agent Q0\n")?;
    Ok(points)
}

fn long_row<R: AllocGlobal + Threads + Sync>(
    rt: &R,
    blocked: Option<u32>,
) -> Result<Verdict, Fail> {
    let map = long_map(rt.alloc(), blocked)?;
    let points = long_points(rt.alloc())?;
    verdict(rt, &map, &points)
}

#[test]
fn long_rows(rt: HostRuntime) -> Result<(), Fail> {
    assert!(rt; long_row(&rt, None)? == Verdict::Formed);
    assert!(rt; long_row(&rt, Some(1050))? == Verdict::Cut { a: 0, b: 1050 });
    Ok(())
}
