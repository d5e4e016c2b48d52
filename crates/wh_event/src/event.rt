//! What is asked of the warehouse.
#![tactic(auto)]

ghost use Rattle.std.specs.Prelude.{◌≡◌, IfOk};

use crate::stops::{KeptStops, Stops};
use std::alloc::{AllocError, Global};
use wh_text::Name;

/// What a line of a script asks.
#[derive(Drop)]
pub enum Command {
    /// A client hands in a task with its stops.
    Submit { client: Name, stops: Stops },
    /// An agent takes the token.
    Token { agent: u32 },
    /// The clock goes on by one step.
    Tick,
    /// An agent gets another planner.
    Replace { agent: u32 },
    /// Nothing more may change.
    Close,
}

impl Command {
    /// The same command.
    pub fn copy(&self) -> Command
        ensures { result ≡ self.now }
    {
        match self {
            Command::Submit { client, stops } => Command::Submit {
                client: client.copy(),
                stops: stops.copy(),
            },
            Command::Token { agent } => Command::Token { agent: *agent },
            Command::Tick => Command::Tick,
            Command::Replace { agent } => Command::Replace { agent: *agent },
            Command::Close => Command::Close,
        }
    }
}

/// What is told of the planner that came with a Replace.
#[derive(Clone, Copy, Debug, PartialEq, Eq)]
pub enum Spare {
    /// There was none.
    None,
    /// It is of another map.
    Foreign,
    /// It fits, and keeps at most this many distance fields.
    Fits { slots: u32 },
}

/// What is asked of the warehouse, as its history keeps it.
#[derive(Drop)]
pub enum Event {
    /// A client hands in a task with its stops.
    Submit { client: Name, stops: KeptStops },
    /// An agent takes the token.
    Request { agent: u32 },
    /// The clock goes on by one step.
    Tick,
    /// An agent gets another planner, of which this is told.
    Replace { agent: u32, spare: Spare },
    /// Nothing more may change.
    Close,
}

impl Event {
    /// The same event; the stops of a task need memory.
    pub fn copy(&self, alloc: Global) -> Result<Event, AllocError>
        ensures { IfOk result (λ event. event ≡ self.now) }
    {
        Ok(match self {
            Event::Submit { client, stops } => Event::Submit {
                client: client.copy(),
                stops: stops.copy(alloc)?,
            },
            Event::Request { agent } => Event::Request { agent: *agent },
            Event::Tick => Event::Tick,
            Event::Replace { agent, spare } => Event::Replace {
                agent: *agent,
                spare: *spare,
            },
            Event::Close => Event::Close,
        })
    }
}
