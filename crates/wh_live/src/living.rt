//! What `live` does.
#![tactic(auto)]

ghost use Rattle.std.specs.Prelude.{◌≡◌, ◌≤◌, IfErr, IfOk, OnOk, map};
ghost use Rattle.std.specs.Arc.{arc_value};
ghost use Rattle.wh_claims.specs.Bank.{Belongs};
ghost use Rattle.wh_service.specs.Fleets.{IsOfFleet, IsWhyUnclaimed, MakesPlanners};
ghost use Rattle.wh_live.specs.Hosts.{HaveSpares, HostsTo, IsTeam, IsWhyUnhosted};

use crate::clients::read_clients;
use crate::run::run_crew;
use crate::works::works_of;
use std::alloc::{AllocError, Global};
use std::io::{Read, Write};
use std::sync::{Arc, Wait};
use std::thread::Threads;
use wh_claims::{Bank, BankSeat};
use wh_edge::{Trouble, Work};
use wh_grid::Grid;
use wh_lines::Lines;
use wh_options::{Fleet, LiveOptions};
use wh_planner::Planner;
use wh_service::{PlannerParts, members, read_setting, write_text};

/// The clients, each with as many spare planners as the options name, with their claims on the bank.
fn with_spares<P: Planner, F: Fn(PlannerParts) -> Result<P, AllocError>>(
    alloc: Global,
    fleet: &Fleet,
    grid: &Arc<Grid>,
    bank: &Arc<Bank>,
    seat: &mut BankSeat,
    make: &F,
    clients: Vec<Work<P>>,
) -> Result<Vec<Work<P>>, Trouble>
    requires range { IsOfFleet fleet.now }
    requires callable { F.IsAlwaysCallable make.now }
    requires seat { Belongs seat.old (arc_value bank.now) }
    ensures commands { IfOk result (λ works. map (λ work. work.commands.items) works.items ≡ map (λ work. work.commands.items) clients.items) }
    ensures spares { IfOk result (λ works. HaveSpares (F.post make.now) fleet.now (arc_value grid.now) (arc_value bank.now) works.items) }
    ensures fault { IfErr result (IsWhyUnclaimed fleet.now.slots) }
{
    let mut works = Vec::with_capacity(alloc, clients.len())?;
    for client in clients {
        let count = fleet.spares as usize;
        let spares = members(alloc, fleet, grid, bank, seat, make, count)?;
        let Work { commands, .. } = client;
        works.push(Work { commands, spares })?;
    }
    Ok(works)
}

/// The planners of the agents, and the workers of a run.
struct Team<P> {
    planners: Vec<P>,
    works: Vec<Work<P>>,
}

/// One planner for each agent, and then the workers: the clients, to whom spares are given, the agents and the clock. Fails
/// when a planner gets no slots, and says why, or when out of memory.
fn make_team<P: Planner, F: Fn(PlannerParts) -> Result<P, AllocError>>(
    alloc: Global,
    options: &LiveOptions,
    grid: &Arc<Grid>,
    agents: usize,
    clients: Vec<Work<P>>,
    make: &F,
) -> Result<Team<P>, Trouble>
    requires range { IsOfFleet options.now.fleet }
    requires callable { F.IsAlwaysCallable make.now }
    requires few { agents ≤ 256 }
    ensures ok { IfOk result (λ team. IsTeam (F.post make.now) options.now (arc_value grid.now) agents (map (λ work. work.commands.items) clients.items) team.planners.items team.works.items) }
    ensures fault { IfErr result (IsWhyUnclaimed options.now.fleet.slots) }
{
    let fleet = &options.fleet;
    let (bank, mut seat) = match Bank::new(alloc, fleet.bank) {
        Ok(opened) => opened,
        Err(AllocError) => {
            drop(clients);
            return Err(Trouble::NoMemory);
        }
    };
    let planners = match members(alloc, fleet, grid, &bank, &mut seat, make, agents) {
        Ok(planners) => planners,
        Err(trouble) => {
            drop(clients);
            return Err(trouble);
        }
    };
    let clients = match with_spares(alloc, fleet, grid, &bank, &mut seat, make, clients) {
        Ok(clients) => clients,
        Err(trouble) => {
            drop(planners);
            return Err(trouble);
        }
    };
    match works_of(alloc, clients, agents as u32, options.turns) {
        Ok(works) => Ok(Team { planners, works }),
        Err(AllocError) => {
            drop(planners);
            Err(Trouble::NoMemory)
        }
    }
}

/// Reads a site and then its clients, makes one planner for each agent and then the spare ones of each client, all of the
/// fleet's kind and with their claims on one bank, and has clients, agents and a clock work in a thread each. It writes the
/// log of what they did. `make` makes one planner of its parts, and fails only when out of memory. Errors are reported in this
/// order: the site, the clients, the bank and the planners, the run, the writer.
pub fn live<
    R: Read,
    W: Write,
    P: Planner,
    F: Fn(PlannerParts) -> Result<P, AllocError>,
    T: Threads + Wait + Sync,
>(
    rt: &T,
    alloc: Global,
    lines: &mut Lines<R>,
    output: &mut W,
    options: &LiveOptions,
    make: F,
) -> Result<(), Trouble>
    requires range { IsOfFleet options.now.fleet }
    requires callable { F.IsAlwaysCallable make }
    requires makes { MakesPlanners P.fits_map P.slot_count (F.post make) }
    ensures ok { OnOk result (HostsTo P.fits_map P.slot_count (F.post make) options.now lines.old lines.new (W.contents output.old) (W.contents output.new)) }
    ensures fault { IfErr result (λ told. IsWhyUnhosted P.fits_map P.slot_count (F.post make) options.now told lines.old lines.new (W.contents output.old) (W.contents output.new)) }
{
    let setting = match read_setting(lines, alloc, options.fleet.homes) {
        Ok(setting) => setting,
        Err(trouble) => return Err(trouble),
    };
    let agents = setting.agents();
    let clients = match read_clients(lines, alloc, agents) {
        Ok(clients) => clients,
        Err(trouble) => {
            drop(setting);
            return Err(trouble);
        }
    };
    let grid = setting.shared_grid();
    let Team { planners, works } = match make_team(alloc, options, grid, agents, clients, &make) {
        Ok(team) => team,
        Err(trouble) => {
            drop(setting);
            return Err(trouble);
        }
    };
    match run_crew(rt, alloc, setting, planners, works, options.journal) {
        Ok(text) => write_text(output, text.as_slice()),
        Err(trouble) => Err(trouble),
    }
}
