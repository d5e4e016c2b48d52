//! Rows of sites: they are read, and told whether they are well-formed.

ghost use Rattle.std.specs.Prelude.{◌≤◌, IfOk, length};
ghost use Rattle.wh_points.specs.Points.{IsLayout};

use crate::again::{Halt, again, tell};
use std::alloc::Global;
use std::thread::Threads;
use wh_edge::{Site, read_site};
use wh_formed::{Verdict, check};
use wh_grid::Grid;
use wh_lines::Lines;
use wh_points::Points;

/// A tree of nine cells.
const MAP: &[u8] = b"type octile\nheight 3\nwidth 5\nmap\n@.@.@\n.....\n@.@.@\n";

/// The same map with carriage returns, and without the last line's end.
const MAP_RETURNS: &[u8] = b"type octile\r\nheight 3\r\nwidth 5\r\nmap\r\n@.@.@\r\n.....\r\n@.@.@";

/// The same map with two empty lines after it.
const MAP_EMPTY_LINES: &[u8] = b"type octile\nheight 3\nwidth 5\nmap\n@.@.@\n.....\n@.@.@\n\n\n";

/// The map with its points: two parkings, where the agents start, and four stations.
pub const MAP_AND_POINTS: &[u8] =
    b"type octile\nheight 3\nwidth 5\nmap\n@.@.@\n.....\n@.@.@\n%%\nparking P0 0 1\nparking P1 4 1\nstation A 1 0\nstation B 3 0\nstation C 1 2\nstation D 3 2\nagent P0\nagent P1\n";

/// The same with carriage returns.
const SITE_RETURNS: &[u8] =
    b"type octile\r\nheight 3\r\nwidth 5\r\nmap\r\n@.@.@\r\n.....\r\n@.@.@\r\n%%\r\nparking P0 0 1\r\nparking P1 4 1\r\nstation A 1 0\r\nstation B 3 0\r\nstation C 1 2\r\nstation D 3 2\r\nagent P0\r\nagent P1";

/// The same with two empty lines after the map.
const SITE_EMPTY_LINES: &[u8] =
    b"type octile\nheight 3\nwidth 5\nmap\n@.@.@\n.....\n@.@.@\n\n\n%%\nparking P0 0 1\nparking P1 4 1\nstation A 1 0\nstation B 3 0\nstation C 1 2\nstation D 3 2\nagent P0\nagent P1\n";

/// A station in the middle, which cuts the tree.
const SITE_CUT: &[u8] =
    b"type octile\nheight 3\nwidth 5\nmap\n@.@.@\n.....\n@.@.@\n%%\nparking P0 0 1\nparking P1 4 1\nstation A 1 0\nstation B 3 0\nstation C 1 2\nstation D 3 2\nstation E 2 1\nagent P0\nagent P1\n";

/// One parking for two agents.
const SITE_FEW_PARKINGS: &[u8] =
    b"type octile\nheight 3\nwidth 5\nmap\n@.@.@\n.....\n@.@.@\n%%\nparking P0 0 1\nstation P1 4 1\nstation A 1 0\nstation B 3 0\nstation C 1 2\nstation D 3 2\nagent P0\nagent P1\n";

/// The site of a text. Each try has a line reader of its own: one whose section was refused has failed.
pub fn read<R: Print>(rt: &R, alloc: Global, text: &[u8]) -> Result<Site, Halt>
    ensures layout { IfOk result (λ site. IsLayout site.grid site.points) }
    ensures agents { IfOk result (λ site. 1 ≤ length site.points.agents) }
{
    again!(rt, read_site(&mut Lines::new(text), alloc, false))
}

/// The grid of a map.
fn read_map<R: Print>(rt: &R, alloc: Global, text: &[u8]) -> Result<Grid, Halt> {
    again!(rt, Grid::read(alloc, text))
}

/// Whether a site is well-formed.
fn verdict<R: Print + Threads + Sync>(rt: &R, alloc: Global, site: &Site) -> Result<Verdict, Halt> {
    again!(rt, check(rt, alloc, &site.grid, &site.points))
}

/// Tells two points by their names.
fn tell_cut<R: Print>(rt: &R, points: &Points, a: u32, b: u32) -> Result<(), Halt> {
    if a >= points.len() || b >= points.len() {
        return Err(Halt::Odd);
    }
    rt.write_all(b"cut ")?;
    rt.write_all(points.name(a).as_slice())?;
    rt.write_all(b" ")?;
    tell(rt, points.name(b).as_slice())
}

/// Tells whether a site is well-formed.
fn tell_verdict<R: Print + Threads + Sync>(rt: &R, alloc: Global, site: &Site) -> Result<(), Halt> {
    match verdict(rt, alloc, site)? {
        Verdict::Formed => tell(rt, b"formed"),
        Verdict::Cut { a, b } => tell_cut(rt, &site.points, a, b),
        Verdict::FewParkings { have, need } => {
            println!(rt; "few parkings {have} {need}")?;
            Ok(())
        }
    }
}

/// Reads a site, and tells whether it is well-formed.
fn judge<R: Print + Threads + Sync>(rt: &R, alloc: Global, text: &[u8]) -> Result<(), Halt> {
    let site = read(rt, alloc, text)?;
    let told = tell_verdict(rt, alloc, &site);
    drop(site);
    told
}

/// The line ends of a map do not matter.
pub fn line_ends<R: Print + Threads + Sync>(rt: &R, alloc: Global) -> Result<(), Halt> {
    let map = read_map(rt, alloc, MAP)?;
    for text in [MAP_RETURNS, MAP_EMPTY_LINES] {
        let grid = read_map(rt, alloc, text)?;
        tell(
            rt,
            if grid.same(&map) {
                b"same grid"
            } else {
                b"other one"
            },
        )?;
    }
    judge(rt, alloc, SITE_RETURNS)?;
    judge(rt, alloc, SITE_EMPTY_LINES)
}

/// Sites that are well-formed, cut, and short of parkings.
pub fn checks<R: Print + Threads + Sync>(rt: &R, alloc: Global) -> Result<(), Halt> {
    judge(rt, alloc, MAP_AND_POINTS)?;
    judge(rt, alloc, SITE_CUT)?;
    judge(rt, alloc, SITE_FEW_PARKINGS)
}
