//! The clients of a run: one section of the input for each of them.
#![tactic(auto)]

ghost use Rattle.std.specs.Prelude.{◌≡◌, ◌+◌, ◌≤◌, [], IfErr, IfOk, All, length, map};
ghost use Rattle.wh_live.specs.Clients.{ClientFault, ClientRead, ClientsFault, ClientsRead};

use std::alloc::Global;
use std::io::Read;
use wh_edge::{ScriptFault, Trouble, Work, client_work, section_trouble};
use wh_lines::Lines;
use wh_planner::Planner;

/// The most workers of a crew: the clients, the agents, and the clock.
pub const MAX_WORKERS: usize = 64;

/// The most bytes of a client's script.
pub const SCRIPT_LIMIT: usize = 268_435_456;

/// The next section, as a client's work without spares.
fn read_client<R: Read, P: Planner>(lines: &mut Lines<R>, alloc: Global) -> Result<Work<P>, Trouble>
    ensures ok { IfOk result (λ work. ClientRead lines.old lines.new work.commands.items) }
    ensures spares { IfOk result (λ work. work.spares.items ≡ []) }
    ensures fault { IfErr result (λ trouble. ClientFault trouble lines.old lines.new) }
{
    let script = match lines.section(alloc, SCRIPT_LIMIT) {
        Ok(script) => script,
        Err(fault) => return Err(section_trouble(fault)),
    };
    match client_work(alloc, &script) {
        Ok(work) => Ok(work),
        Err(ScriptFault::NoMemory) => Err(Trouble::NoMemory),
        Err(ScriptFault::At(place)) => Err(Trouble::Script(place)),
    }
}

/// Each client's work, without spares: one section for each, until one was closed by the end of the input. The first error
/// is reported, in this order for each client in turn: more than 64 workers with it, its section of at
/// most 256 MB, its lines. Too many agents are reported even if no client follows.
pub fn read_clients<R: Read, P: Planner>(
    lines: &mut Lines<R>,
    alloc: Global,
    agents: usize,
) -> Result<Vec<Work<P>>, Trouble>
    requires { agents ≤ 256 }
    ensures ok { IfOk result (λ works. ClientsRead agents lines.old lines.new (map (λ work. work.commands.items) works.items)) }
    ensures spares { IfOk result (λ works. All (λ work. work.spares.items ≡ []) works.items) }
    ensures fault { IfErr result (λ trouble. ClientsFault trouble agents lines.old lines.new) }
{
    let mut works = Vec::new(alloc);
    while !lines.ended() {
        if works.len() + 1 + agents + 1 > MAX_WORKERS {
            return Err(Trouble::TooManyWorkers);
        }
        works.push(read_client(lines, alloc)?)?;
    }
    if works.len() + agents + 1 > MAX_WORKERS {
        return Err(Trouble::TooManyWorkers);
    }
    Ok(works)
}
