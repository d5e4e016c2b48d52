//! Fronts of states over one floor, each with the line and the reason of its first flaw, written out by hand.

ghost use Rattle.wh_points.specs.Points.{IsLayout};

use std::alloc::Global;
use std::test::*;
use wh_front::{Kind, Rules};
use wh_grid::Grid;
use wh_points::Points;
use wh_restore::{RestoreFault, restore};
use wh_tasks::Load;

const MAP: &[u8] = b"type octile\nheight 3\nwidth 5\nmap\n@.@.@\n.....\n@.@.@\n";

const POINTS: &[u8] =
    b"parking P0 0 1\nparking P1 4 1\nstation A 1 0\nstation B 3 0\nstation C 1 2\nstation D 3 2\nagent P0\nagent P1\n";

/// The defaults.
const USUAL: Rules = Rules {
    homes: false,
    age: None,
};

const OTHER: Rules = Rules {
    homes: true,
    age: Some(600),
};

/// A state at clock 9: agent 0 carries task 1 and is on its way to B, agent 1 fetches task 2 and stands, task 0 is done.
const SOUND: &[u8] =
    b"wlog 3\nafter 1 805 4be10123456789abcdef0123456789abcdef0123456789abcdef0123456789ab\nstate 9 closed stopped\nentries 0:12 63:400\nagents 2\nagent slots 4 path 1,0 1,1 2,1 3,1 3,0\nagent slots 5 path 4,1\ntasks 4\ntask 63 x 0 agent 1 visits 2 9 stops 2,1 4,1\ntask 0 y 3 agent 0 visits 9 stops 1,0 3,0\ntask 5 z 9 agent 1 stops 1,2 3,2 3,2\ntask 0 y 9 open stops 1,2 3,2\nbegin\n0 tick";

/// Fronts that tell no sound state by these rules: the line, and what is told of it.
const FLAWED: [(Rules, &[u8], u64, &[u8]); 21] = [
    (USUAL, b"wlog 2\n", 1, b"refused S1"),
    (USUAL, b"wlog 3\nafter 0", 2, b"refused S1"),
    (
        USUAL,
        b"wlog 3\nafter 0\nrules ends homes age 600\n",
        3,
        b"refused S11",
    ),
    (
        OTHER,
        b"wlog 3\nafter 0\nrules ends homes\n",
        3,
        b"refused S11",
    ),
    (
        OTHER,
        b"wlog 3\nafter 0\nstate 9 open whole\n",
        3,
        b"refused S11",
    ),
    (
        OTHER,
        b"wlog 3\nafter 0\nrules ends homes age 600\nrules age 600\n",
        4,
        b"refused S1",
    ),
    (
        USUAL,
        b"wlog 3\nafter 0\nstate 9 open whole\nentries\nagents 3\n",
        5,
        b"refused S2",
    ),
    (
        USUAL,
        b"wlog 3\nafter 0\nstate 9 open whole\nentries\nagents 2\nagent slots 0 path 0,1\ntasks 0\n",
        7,
        b"refused S2",
    ),
    (
        USUAL,
        b"wlog 3\nafter 0\nstate 9 open whole\nentries\nagents 2\nagent slots 0 path 0,1\nagent slots 0 path 4,1\nagent slots 0 path 2,1\n",
        8,
        b"refused S2",
    ),
    (
        USUAL,
        b"wlog 3\nafter 0\nstate 9 open whole\nentries\nagents 2\nagent slots 0 path 0,1\nagent slots 0 path 4,1\ntasks 1\nbegin\n",
        9,
        b"refused S2",
    ),
    (
        USUAL,
        b"wlog 3\nafter 0\nstate 9 open whole\nentries\nagents 2\nagent slots 0 path 0,1\nagent slots 0 path 4,1\ntasks 0\ntask 0 x 0 open stops 1,0 3,0\n",
        9,
        b"refused S2",
    ),
    (
        USUAL,
        b"wlog 3\nafter 0\nstate 9 open whole\nentries\nagents 2\nagent slots 0 path 0,1 0,0 2,1\nagent slots x\n",
        6,
        b"refused S3 0,0",
    ),
    (
        USUAL,
        b"wlog 3\nafter 0\nstate 9 open whole\nentries\nagents 2\nagent slots 0 path 5,1\n",
        6,
        b"refused S3 5,1",
    ),
    (
        USUAL,
        b"wlog 3\nafter 0\nstate 9 open whole\nentries\nagents 2\nagent slots 0 path 0,1\nagent slots 0 path 4,1 2,1\n",
        7,
        b"refused S4",
    ),
    (
        USUAL,
        b"wlog 3\nafter 0\nstate 9 open whole\nentries\nagents 2\nagent slots 0 path 1,0\nagent slots 0 path 4,1 3,1 2,1 1,1 1,0\n",
        7,
        b"refused S5 0",
    ),
    (
        USUAL,
        b"wlog 3\nafter 0\nstate 9 open whole\nentries\nagents 2\nagent slots 0 path 0,1\nagent slots 0 path 4,1\ntasks 1\ntask 0 x 10 open stops 1,0 2,1\n",
        9,
        b"refused S6 2,1",
    ),
    (
        USUAL,
        b"wlog 3\nafter 0\nstate 9 open whole\nentries\nagents 2\nagent slots 0 path 0,1\nagent slots 0 path 4,1\ntasks 1\ntask 0 x 10 agent 2 stops 1,0 3,0\n",
        9,
        b"refused S7",
    ),
    (
        USUAL,
        b"wlog 3\nafter 0\nstate 9 open whole\nentries\nagents 2\nagent slots 0 path 0,1\nagent slots 0 path 4,1\ntasks 1\ntask 0 x 9 agent 2 stops 1,0 3,0\n",
        9,
        b"refused S8 2",
    ),
    (
        USUAL,
        b"wlog 3\nafter 0\nstate 9 open whole\nentries\nagents 2\nagent slots 0 path 1,0\nagent slots 0 path 4,1\ntasks 3\ntask 0 x 9 open stops 1,0 3,0\ntask 0 x 9 agent 0 stops 1,2 3,0\ntask 0 x 9 agent 0 stops 1,0 3,0\n",
        11,
        b"refused S9 1",
    ),
    (
        USUAL,
        b"wlog 3\nafter 0\nstate 9 open whole\nentries\nagents 2\nagent slots 0 path 0,1\nagent slots 0 path 3,0\ntasks 2\ntask 0 x 9 open stops 1,0 3,0\ntask 0 x 9 agent 1 visits 9 stops 1,0 3,0\n",
        10,
        b"refused S10 1",
    ),
    (
        USUAL,
        b"wlog 3\nafter 0\nstate 9 open whole\nentries\nagents 2\nagent slots 0 path 0,1\nagent slots 0 path 4,1\ntasks 0\nbegin",
        9,
        b"refused S1",
    ),
];

/// Whether this flaw is told.
fn is_told(alloc: Global, grid: &Grid, points: &Points, flawed: &(Rules, &[u8], u64, &[u8])) -> bool
    requires { IsLayout grid.now points.now }
{
    let (rules, text, number, told) = *flawed;
    match restore(alloc, grid, points, rules, text) {
        Err(RestoreFault::Line { line, reason }) => {
            line == number && reason.text().as_slice() == told
        }
        _ => false,
    }
}

fn are_told(alloc: Global) -> Result<bool, Fail> {
    let grid = Grid::read(alloc, MAP)?;
    let points = Points::read(alloc, &grid, POINTS)?;
    for flawed in &FLAWED {
        if !is_told(alloc, &grid, &points, flawed) {
            return Ok(false);
        }
    }
    Ok(true)
}

fn is_restored(alloc: Global) -> Result<bool, Fail> {
    let grid = Grid::read(alloc, MAP)?;
    let points = Points::read(alloc, &grid, POINTS)?;
    let Ok(restored) = restore(alloc, &grid, &points, USUAL, SOUND) else {
        return Ok(false);
    };
    let state = &restored.state;
    Ok(
        restored.rest == b"0 tick".as_slice()
            && restored.head.kind == Kind::Stopped
            && restored.head.counts.as_slice().len() == 2
            && restored.callers.as_slice() == [63, 0, 5, 0].as_slice()
            && state.clock == 9
            && state.closed
            && state.paths.len() == 2
            && state.slots.as_slice() == [4, 5].as_slice()
            && state.tasks.len() == 4
            && state.loads.as_slice()
                == [
                    Load::Carrying {
                        task: 1,
                        visited: 1,
                    },
                    Load::Fetching(2),
                ]
                .as_slice(),
    )
}

#[test]
fn states_from_fronts(rt: HostRuntime) -> Result<(), Fail> {
    assert!(rt; are_told(rt.alloc())?);
    assert!(rt; is_restored(rt.alloc())?);
    Ok(())
}
