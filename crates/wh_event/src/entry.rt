//! An entry of the history.
#![tactic(auto)]

ghost use Rattle.std.specs.Prelude.{◌≡◌, IfOk};

use crate::event::Event;
use crate::reply::Reply;
use std::alloc::{AllocError, Global};

/// An event of a caller, with its reply.
#[derive(Drop)]
pub struct Entry {
    pub caller: u32,
    pub event: Event,
    pub reply: Reply,
}

// A history keeps millions of entries, nearly all of requests and ticks: they have no room for what few of them need.
const _: () = prove!(size_of::<Entry>() <= 112);

impl Entry {
    /// The same entry; the stops of a task and a path need memory.
    pub fn copy(&self, alloc: Global) -> Result<Entry, AllocError>
        ensures { IfOk result (λ entry. entry ≡ self.now) }
    {
        let event = self.event.copy(alloc)?;
        let reply = self.reply.copy(alloc)?;
        Ok(Entry {
            caller: self.caller,
            event,
            reply,
        })
    }
}
