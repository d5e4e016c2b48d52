//! A log that was read.

ghost use Rattle.std.specs.Prelude.{◌≡◌};

use std::marker::Model;
use wh_event::Entry;

/// What a log tells: the opening clock, each agent's opening slots, and the entries in order.
#[derive(Drop)]
pub struct Log {
    clock: u32,
    slots: Vec<u32>,
    entries: Vec<Entry>,
}

impl Model for Log {
    ghost use Rattle.wh_log.specs.Logs.{Content};

    ghost Value = { Content };

    ghost view = { λ l. record { clock = l.clock; slots = l.slots.items; entries = l.entries.items } };
}

impl Log {
    /// The log of this content.
    pub fn new(clock: u32, slots: Vec<u32>, entries: Vec<Entry>) -> Log
        ensures { result ≡ record { clock = clock; slots = slots.items; entries = entries.items } }
    {
        Log {
            clock,
            slots,
            entries,
        }
    }

    /// The clock at which the history opens, in ticks.
    pub fn clock(&self) -> u32
        ensures { result ≡ self.now.clock }
    {
        self.clock
    }

    /// How many distance fields each agent's planner may keep at the opening, by the agents' numbers.
    pub fn slots(&self) -> &[u32]
        ensures { result.now ≡ self.now.slots }
    {
        self.slots.as_slice()
    }

    /// The entries, in the order of the history.
    pub fn entries(&self) -> &[Entry]
        ensures { result.now ≡ self.now.entries }
    {
        self.entries.as_slice()
    }
}
