//! The machine command by command, with boxed planners.

ghost use Rattle.std.specs.Arc.{arc_value};
ghost use Rattle.wh_claims.specs.Bank.{Belongs};

use crate::answers::{AGENTS, MAP, POINTS};
use std::alloc::{AllocError, Global};
use std::sync::Arc;
use std::test::*;
use wh_claims::{Bank, BankSeat};
use wh_edge::{Site, read_site};
use wh_event::{Command, Reply, read_line, write_reply};
use wh_grid::Grid;
use wh_lines::Lines;
use wh_options::PlannerKind;
use wh_planner::Planner;
use wh_planners::Sharing;
use wh_service::{Committed, OpenFault, PlannerParts, Warehouse, claim};

/// The tree with one cell more, at (0,0).
const OTHER_MAP: &str = "type octile\nheight 3\nwidth 5\nmap\n..@.@\n.....\n@.@.@\n";

/// A machine over the tree: its first clock, the slots of its bank, and the map and the slots of each agent's planner and
/// of each spare one.
#[derive(Clone, Copy)]
struct Machine<'a> {
    start: u32,
    bank: u32,
    planners: &'a [(&'a str, u32)],
    spares: &'a [(&'a str, u32)],
}

/// The replies line by line, why the machine was not opened if it was not, and how many slots of the bank were free at
/// the opening, after the script, and after all was dropped.
#[derive(Drop)]
struct Told {
    replies: Vec<u8>,
    refused: Option<OpenFault>,
    free: [u32; 3],
}

/// A planner on a map, with the given number of slots of the bank.
fn member<P: Planner, F: Fn(PlannerParts) -> Result<P, AllocError>>(
    alloc: Global,
    map: &str,
    slots: u32,
    bank: &Arc<Bank>,
    seat: &mut BankSeat,
    make: &F,
) -> Result<P, Fail>
    requires callable { F.IsAlwaysCallable make.now }
    requires seat { Belongs seat.old (arc_value bank.now) }
    ensures seat { Belongs seat.new (arc_value bank.now) }
{
    if slots < 2 || slots > 64 {
        return Err("no planner has so many slots")?;
    }
    let grid = Arc::new(alloc, Grid::read(alloc, map.as_bytes())?)?;
    let claim = claim(bank, seat, slots)?;
    Ok(make(PlannerParts {
        kind: PlannerKind::Near,
        slack: 0,
        effort: None,
        grid,
        claim,
    })?)
}

/// Steps through the script. The last spare planner is handed in with a Replace, and goes back where it was not taken.
fn step_through<P: Planner>(
    alloc: Global,
    warehouse: &mut Warehouse<P>,
    spares: &mut Vec<P>,
    script: &[&str],
    replies: &mut Vec<u8>,
) -> Result<(), Fail> {
    for line in script {
        let Ok(Some(command)) = read_line(line.as_bytes()) else {
            return Err("no command")?;
        };
        let spare = match command {
            Command::Replace { .. } => spares.pop(),
            _ => None,
        };
        let Ok(Committed { entry, back }) = warehouse.step(alloc, 0, command, spare) else {
            return Err("no memory")?;
        };
        replies.extend_from_slice(write_reply(&entry.reply).as_slice())?;
        replies.push(b'\n')?;
        let is_taken = matches!(&entry.reply, Reply::Replaced { .. });
        if let Some(planner) = back {
            if is_taken {
                drop(planner);
            } else if spares.push(planner).is_err() {
                return Err("no memory")?;
            }
        }
    }
    Ok(())
}

/// The given number of planners, each on its map with its slots of the bank.
fn members<P: Planner, F: Fn(PlannerParts) -> Result<P, AllocError>>(
    alloc: Global,
    wanted: &[(&str, u32)],
    bank: &Arc<Bank>,
    seat: &mut BankSeat,
    make: &F,
) -> Result<Vec<P>, Fail>
    requires callable { F.IsAlwaysCallable make.now }
    requires seat { Belongs seat.old (arc_value bank.now) }
    ensures seat { Belongs seat.new (arc_value bank.now) }
{
    let mut row = Vec::with_capacity(alloc, wanted.len())?;
    for (map, slots) in wanted {
        let planner = member(alloc, map, *slots, bank, seat, make)?;
        if row.push(planner).is_err() {
            return Err("no memory")?;
        }
    }
    Ok(row)
}

/// Opens the machine, and steps through the script.
fn run<P: Planner, F: Fn(PlannerParts) -> Result<P, AllocError>>(
    alloc: Global,
    machine: &Machine,
    script: &[&str],
    make: &F,
) -> Result<Told, Fail>
    requires { F.IsAlwaysCallable make.now }
{
    let input = format!(in alloc; "{MAP}%%\n{POINTS}{AGENTS}")?;
    let Site { grid, points, .. } = read_site(&mut Lines::new(input.as_bytes()), alloc, false)?;
    let grid = Arc::new(alloc, grid)?;
    let (bank, mut seat) = Bank::new(alloc, machine.bank)?;
    let planners = members(alloc, machine.planners, &bank, &mut seat, make)?;
    let mut spares = members(alloc, machine.spares, &bank, &mut seat, make)?;
    let at_opening = bank.free(&mut seat);
    let start = machine.start.min(1_000_000_000);
    let mut replies = Vec::new(alloc);
    let (mut warehouse, refused) = match Warehouse::open(alloc, grid, points, planners, start) {
        Ok(warehouse) => (Some(warehouse), None),
        Err(fault) => (None, Some(fault)),
    };
    if let Some(warehouse) = &mut warehouse {
        step_through(alloc, warehouse, &mut spares, script, &mut replies)?;
    }
    let after_script = bank.free(&mut seat);
    drop(warehouse);
    drop(spares);
    Ok(Told {
        replies,
        refused,
        free: [at_opening, after_script, bank.free(&mut seat)],
    })
}

/// The same with boxed planners.
fn drive(alloc: Global, machine: &Machine, script: &[&str]) -> Result<Told, Fail> {
    let make = |parts: PlannerParts| -> Result<Box<dyn Planner>, AllocError> {
        let sharing = Sharing::new(alloc, parts.grid, parts.claim)?;
        let planner: Box<dyn Planner> = Box::new(alloc, sharing)?;
        Ok(planner)
    };
    run(alloc, machine, script, &make)
}

/// Two planners of 4 slots, one spare one of 2, and a bank that has no more.
const SPARED: Machine = Machine {
    start: 0,
    bank: 10,
    planners: &[(MAP, 4), (MAP, 4)],
    spares: &[(MAP, 2)],
};

#[test]
fn the_last_tick(rt: HostRuntime) -> Result<(), Fail> {
    let machine = Machine {
        start: 999_999_999,
        ..SPARED
    };
    let script = ["tick", "tick", "close", "tick", "close"];
    let wanted =
        "clock 1000000000 picked 0 dropped 0\nrefused E7\nclosed\nrefused E8\nrefused E8\n";
    let told = drive(rt.alloc(), &machine, script.as_slice())?;
    assert!(rt; told.replies.as_slice() == wanted.as_bytes());
    Ok(())
}

#[test]
fn replace_and_spares(rt: HostRuntime) -> Result<(), Fail> {
    let script = [
        "submit x A B",
        "token 0",
        "tick",
        "replace 7",
        "replace 0",
        "tick",
        "replace 0",
    ];
    let wanted =
        "accepted 0\ntook 0 end 6\nclock 1 picked 0 dropped 0\nrefused E4 7\nreplaced 2\nclock 2 picked 1 dropped 0\nrefused E10\n";
    let told = drive(rt.alloc(), &SPARED, script.as_slice())?;
    assert!(rt; told.replies.as_slice() == wanted.as_bytes());
    assert!(rt; told.free.as_slice() == [0u32, 4, 10].as_slice());
    Ok(())
}

/// One delivery: each command with its reply.
const ONE_DELIVERY: [(&str, &str); 9] = [
    ("submit x A B", "accepted 0\n"),
    ("token 0", "took 0 end 6\n"),
    ("tick", "clock 1 picked 0 dropped 0\n"),
    ("tick", "clock 2 picked 1 dropped 0\n"),
    ("tick", "clock 3 picked 0 dropped 0\n"),
    ("tick", "clock 4 picked 0 dropped 0\n"),
    ("tick", "clock 5 picked 0 dropped 0\n"),
    ("tick", "clock 6 picked 0 dropped 1\n"),
    ("token 0", "rested\n"),
];

#[test]
fn a_planner_is_replaced_anywhere(rt: HostRuntime) -> Result<(), Fail> {
    for place in 0..=ONE_DELIVERY.len() {
        let mut script = Vec::new(rt.alloc());
        let mut wanted = Vec::new(rt.alloc());
        for (n, (command, reply)) in ONE_DELIVERY.iter().enumerate() {
            if n == place {
                script.push("replace 0")?;
                wanted.extend_from_slice(b"replaced 2\n")?;
            }
            script.push(*command)?;
            wanted.extend_from_slice(reply.as_bytes())?;
        }
        if place == ONE_DELIVERY.len() {
            script.push("replace 0")?;
            wanted.extend_from_slice(b"replaced 2\n")?;
        }
        let told = drive(rt.alloc(), &SPARED, script.as_slice())?;
        assert!(rt; told.replies.as_slice() == wanted.as_slice(), "at {place}");
        assert!(rt;
            told.free.as_slice() == [0u32, 4, 10].as_slice(),
            "at {place}"
        );
    }
    Ok(())
}

#[test]
fn planners_that_do_not_fit(rt: HostRuntime) -> Result<(), Fail> {
    let alone = Machine {
        planners: &[(MAP, 4)],
        ..SPARED
    };
    let told = drive(rt.alloc(), &alone, &["tick"])?;
    assert!(rt; told.refused == Some(OpenFault::WrongCount));
    assert!(rt; told.free.as_slice() == [4u32, 8, 10].as_slice());
    let foreign = Machine {
        planners: &[(MAP, 4), (OTHER_MAP, 4)],
        ..SPARED
    };
    let told = drive(rt.alloc(), &foreign, &["tick"])?;
    assert!(rt; told.refused == Some(OpenFault::Foreign { agent: 1 }));
    assert!(rt; told.free.as_slice() == [0u32, 8, 10].as_slice());
    assert!(rt; told.replies.is_empty());
    Ok(())
}
