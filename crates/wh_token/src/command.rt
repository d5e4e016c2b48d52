//! The event that a command is.
#![tactic(auto)]

ghost use Rattle.std.specs.Prelude.{◌≡◌, IfOk};
ghost use Rattle.wh_token.specs.Commands as commands;
ghost use Rattle.wh_token.specs.Fleet.{replaced_agent};

use std::alloc::{AllocError, Global};
use wh_event::{Command, Entry, Event, KeptStops, Reply, Spare};

/// The event of the command, with what is told of the spare planner. The stops of a task take memory.
pub(crate) fn event_of(alloc: Global, command: Command, told: Spare) -> Result<Event, AllocError>
    ensures { IfOk result (λ event. event ≡ commands.event_of command told) }
{
    Ok(match command {
        Command::Submit { client, stops } => Event::Submit {
            client,
            stops: KeptStops::new(alloc, stops)?,
        },
        Command::Token { agent } => Event::Request { agent },
        Command::Tick => Event::Tick,
        Command::Replace { agent } => Event::Replace { agent, spare: told },
        Command::Close => Event::Close,
    })
}

/// The agent whose planner the entry replaces.
pub(crate) fn replaced(entry: &Entry) -> Option<u32>
    ensures { result ≡ replaced_agent entry.now }
{
    match (&entry.event, &entry.reply) {
        (Event::Replace { agent, .. }, Reply::Replaced { .. }) => Some(*agent),
        _ => None,
    }
}
