//! What one worker does.
#![tactic(auto)]

ghost use Rattle.std.specs.Prelude.{◌≡◌, ◌+◌, ◌<◌, ◌^◌, length};
ghost use Rattle.wh_event.specs.declared.event.Command.{Command as Asked};
ghost use Rattle.wh_crew.specs.Work.{Worked, Tried, all_missed, counted};

use crate::gate::Gate;
use std::alloc::Global;
use std::sync::Wait;
use wh_desk::{Answer, Desk, DeskFault, DeskName, Pass};
use wh_edge::Work;
use wh_event::Command;
use wh_planner::Planner;

/// How many calls of a worker the desk refused, by what it was told.
#[derive(Clone, Copy, Debug, PartialEq, Eq)]
pub struct Missed {
    /// E11: the journal was full.
    pub full: u64,
    /// E90: no memory was left.
    pub memory: u64,
    /// E91 or E95: no crew comes to a history after one of these.
    pub other: u64,
}

/// What a worker has at its end: its pass, and how many of its calls the desk refused.
#[derive(Drop)]
pub struct Report<N: DeskName> {
    pub pass: Pass<N>,
    pub missed: Missed,
}

/// One call more, with why it was refused, if it was.
fn counted(missed: Missed, why: Option<DeskFault>) -> Missed
    requires { all_missed missed + 1 < 2 ^ 64 }
    ensures { result ≡ counted missed why }
{
    let Missed {
        mut full,
        mut memory,
        mut other,
    } = missed;
    match why {
        None => {}
        Some(DeskFault::Full) => full += 1,
        Some(DeskFault::NoMemory) => memory += 1,
        Some(DeskFault::Stale | DeskFault::CellTaken) => other += 1,
    }
    Missed {
        full,
        memory,
        other,
    }
}

/// Makes each command one call of the desk, in order. After a refusal it goes on with the next, and counts it.
pub fn work_through<N: DeskName, H: Wait + Drop, P: Planner, R: Wait, G: Gate>(
    rt: &R,
    alloc: Global,
    desk: &Desk<N, H, P>,
    pass: &mut Pass<N>,
    work: Work<P>,
    gate: &G,
    worker: u32,
) -> Missed
    ensures { Worked P.fits_map P.slot_count N.origin.site.grid (length N.cells) work.commands.items work.spares.items pass.old pass.new result }
{
    let Work {
        commands,
        mut spares,
    } = work;
    let mut call = 0u32;
    let mut missed = Missed {
        full: 0,
        memory: 0,
        other: 0,
    };
    for command in commands {
        gate.before(worker, call);
        let why = try_one(rt, alloc, desk, pass, command, &mut spares);
        missed = counted(missed, why);
        gate.after(worker, call);
        call = call.saturating_add(1);
    }
    missed
}

/// One command, as one call of the desk. Why it was refused, if it was.
fn try_one<N: DeskName, H: Wait + Drop, P: Planner, R: Wait>(
    rt: &R,
    alloc: Global,
    desk: &Desk<N, H, P>,
    pass: &mut Pass<N>,
    command: Command,
    spares: &mut Vec<P>,
) -> Option<DeskFault>
    ensures { Tried P.fits_map P.slot_count N.origin.site.grid (length N.cells) command pass.old spares.old.items result pass.new spares.new.items }
{
    match command {
        Command::Submit { client, stops } => desk.submit(rt, alloc, pass, client, stops).err(),
        Command::Token { agent } => desk.request(rt, alloc, pass, agent).err(),
        Command::Tick => desk.tick(rt, alloc, pass).err(),
        Command::Replace { agent } => lend(rt, alloc, desk, pass, agent, spares),
        Command::Close => desk.close(rt, alloc, pass).err(),
    }
}

/// Lends the last spare, and returns as above. What comes back after an answer is dropped; after a refusal the spare goes back
/// to its place.
fn lend<N: DeskName, H: Wait + Drop, P: Planner, R: Wait>(
    rt: &R,
    alloc: Global,
    desk: &Desk<N, H, P>,
    pass: &mut Pass<N>,
    agent: u32,
    spares: &mut Vec<P>,
) -> Option<DeskFault>
    ensures { Tried P.fits_map P.slot_count N.origin.site.grid (length N.cells) (Asked.Replace agent) pass.old spares.old.items result pass.new spares.new.items }
{
    let Answer { outcome, back } = desk.replace(rt, alloc, pass, agent, spares.pop());
    match outcome {
        Ok(_) => None,
        Err(fault) => {
            if let Some(spare) = back {
                spares.push_reserved(spare);
            }
            Some(fault)
        }
    }
}
