//! Where clients connect.
#![tactic(auto)]

use crate::served::{ServeFault, Served};
use std::io::{Read, Write};
use wh_crew::Idle;
use wh_scribe::CallFault;

/// What tells one connection from all others: its client is greeted with it, and repeats it. It is written as 16 small hexadecimal
/// digits.
#[derive(Clone, Copy, Debug, PartialEq, Eq)]
pub struct Tag {
    pub bytes: [u8; 8],
}

/// One connection of a client: what it sends, where it is told its replies, and a tag that no connection had before.
#[derive(Drop)]
pub struct Connection<R, W> {
    pub reader: R,
    pub writer: W,
    pub tag: Tag,
}

/// What is full, so that a command was not carried out.
#[derive(Clone, Copy, Debug, PartialEq, Eq)]
pub enum Full {
    /// The client has as many entries as may be its own.
    Share,
    /// The journal has as many entries as it has places.
    Journal,
}

/// Why the worker for agents and clock ended before the clients were through.
#[derive(Clone, Copy, Debug, PartialEq, Eq)]
pub enum WorkerEnd {
    /// It has as many entries as may be its own.
    ShareUsed,
    /// A call told no receipt.
    Untold(CallFault),
}

/// Where clients connect, each over one connection after another. All that names a client is called in its own thread.
pub trait Doors<R: Read, W: Write>: Sync {
    /// The client's next connection. It may take as long as the client does. `None`: there are no more.
    fn open(&self, client: u32) -> Option<Connection<R, W>>;

    /// Whether the service is over: asked before each connection, and before each line is served.
    fn is_over(&self) -> bool;

    /// A client was told that the warehouse is closed, or has stopped the service, or nobody can be told anything more: the others are to
    /// be let go, wherever they stand. It may be told more than once.
    fn end(&self);

    /// A connection of the client has begun: it sent `begin TAG`.
    fn begins(&self, client: u32);

    /// A line of the client came before `begin TAG`, and was dropped. Told at each such line that is not empty.
    fn is_dropped(&self, client: u32);

    /// A command of the client was answered E11: its share of the entries is used, or the journal is full. Told at each such command.
    fn is_full(&self, client: u32, what: Full);

    /// The worker for all agents and the clock, if there is one beside the clients, ends here, before they are through.
    fn worker_ends(&self, why: WorkerEnd);

    /// The worker for all agents and the clock has nothing to do though orders are open, and why. Told again only behind a turn that brought
    /// somebody on, or where there is another reason.
    fn worker_idles(&self, why: Idle);

    /// A connection is over, told at once, with how the client was served. Whoever takes the writer drops it, so that its other end is
    /// told that no more comes.
    fn leave(&self, client: u32, outcome: &Result<Served, ServeFault>, writer: W);
}
