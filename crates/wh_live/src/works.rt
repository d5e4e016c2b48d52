//! The works of a crew.
#![tactic(auto)]

ghost use Rattle.std.specs.Prelude.{◌≡◌, IfOk};
ghost use Rattle.wh_live.specs.Works.{AreWorks};

use std::alloc::{AllocError, Global};
use wh_edge::{Work, agent_work, clock_work};
use wh_planner::Planner;

/// The clients in their order, then each agent, who asks `turns` times, then the clock, which ticks `turns` times.
pub fn works_of<P: Planner>(
    alloc: Global,
    clients: Vec<Work<P>>,
    agents: u32,
    turns: u32,
) -> Result<Vec<Work<P>>, AllocError>
    ensures { IfOk result (λ works. AreWorks agents turns clients.items works.items) }
{
    let mut works = clients;
    for agent in 0..agents {
        works.push(agent_work(alloc, agent, turns)?)?;
    }
    works.push(clock_work(alloc, turns)?)?;
    Ok(works)
}
