//! The memory that is kept from one search to the next.
#![tactic(auto)]

ghost use Rattle.std.specs.Prelude.{◌≡◌, ◌≤◌};
ghost use Rattle.wh_search.specs.Rooms.{noted_room};

use crate::noted::Noted;
use std::alloc::Global;
use std::marker::Model;

/// For how many entries there may be room in the table that is kept: at most 65,536 bytes, since each
/// of many planners may keep so much. To a search that takes more, asking for its memory is little.
pub const MOST_KEPT: usize = 8192;

/// The memory that a search takes, kept for the next one. No answer depends on what is left in it.
/// Contracts see for how many entries there is room in its table.
#[derive(Drop)]
pub struct SearchMemory {
    pub(crate) noted: Noted,
}

impl Model for SearchMemory {
    ghost use Rattle.std.specs.Prelude.{ℕ, ◌≤◌};
    ghost use Rattle.wh_search.specs.Rooms.{noted_room};
    ghost use Rattle.wh_search.specs.declared.memory.TheConstants.{MOST_KEPT};

    ghost Value = { ℕ };

    ghost view = { λ m. noted_room m.noted };

    ghost invariant = { λ m. noted_room m.noted ≤ MOST_KEPT };
}

impl SearchMemory {
    /// One that has taken no memory.
    pub fn empty(alloc: Global) -> Self
        ensures { result ≡ 0 }
    {
        SearchMemory {
            noted: Noted::empty(alloc),
        }
    }

    /// For how many entries there is room in its table, which takes at most 65,536 bytes.
    pub fn room(&self) -> usize
        ensures value { result ≡ self.now }
        ensures bound { result ≤ MOST_KEPT }
    {
        self.noted.room()
    }
}

/// Gives all of it back where that is too much to be kept.
pub fn settle(alloc: Global, noted: &mut Noted)
    ensures { noted_room noted.new ≤ MOST_KEPT }
{
    if noted.room() > MOST_KEPT {
        *noted = Noted::empty(alloc);
    }
}
