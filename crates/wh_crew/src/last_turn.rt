//! What a turn came to, and whether there is anything to do behind it.
#![tactic(auto)]

ghost use Rattle.std.specs.Prelude.{◌≡◌, ◌==◌, ◌&&◌, false, nat_le, not};
ghost use Rattle.wh_crew.specs.Turns.{behind, brings_none, idle_at, is_no_path, moves, with_receipt};

use crate::turns::moves;
use std::marker::Model;
use wh_board::Board;
use wh_core::LAST_CLOCK;
use wh_event::{Refusal, Reply};

/// Why orders stay open though there is nothing to do.
#[derive(Clone, Copy, Debug, PartialEq, Eq)]
pub enum Idle {
    /// The clock is at its greatest value: 1,000,000,000.
    Clock,
    /// E6: an agent was refused a path.
    NoPath,
    /// Each agent that is due rests.
    Standstill,
}

/// What a turn came to. Where it changed nothing but the clock, and no board shows more than what it knew of, another one would change
/// nothing either: so nobody is asked again.
#[derive(Drop)]
pub struct LastTurn {
    /// Whether nobody had steps left, no request brought a path, and nobody else did anything from its board on.
    in_vain: bool,
    /// The place of the last entry that it knows of: the last one on its board, and then that of its last receipt.
    last: Option<u64>,
    /// Whether an agent was refused a path.
    no_path: bool,
}

impl Model for LastTurn {
    ghost use Rattle.wh_crew.specs.Turns.{Outcome, behind};

    ghost Value = { Outcome };

    ghost view = { λ t. record { in_vain = t.in_vain; entries = behind t.last; no_path = t.no_path } };
}

impl LastTurn {
    /// Before the first turn.
    pub fn none() -> LastTurn
        ensures { result.in_vain ≡ false }
    {
        LastTurn {
            in_vain: false,
            last: None,
            no_path: false,
        }
    }

    /// Of a turn at this board, before its first command.
    pub fn new(board: &Board) -> LastTurn
        ensures { result ≡ record { in_vain = not (moves board.now.agents.items); entries = board.now.entries; no_path = false } }
    {
        LastTurn {
            in_vain: !moves(board.agents.as_slice()),
            last: board.entries.checked_sub(1),
            no_path: false,
        }
    }

    /// A command of the turn was replied to, in the entry at this place.
    pub fn receive(&mut self, place: u64, reply: &Reply)
        ensures { self.new ≡ with_receipt self.old place reply.now }
    {
        self.in_vain = self.in_vain && is_next(self.last, place) && brings_none(reply);
        self.last = Some(place);
        self.no_path = self.no_path || is_no_path(reply);
    }

    /// Whether there is nothing to do at this board, which is seen behind the turn.
    pub fn rests_at(&self, board: &Board) -> bool
        ensures { result ≡ (self.now.in_vain && nat_le board.now.entries self.now.entries) }
    {
        self.in_vain && shows_no_more(board.entries, self.last)
    }

    /// Whether it changed nothing but the clock.
    pub fn is_in_vain(&self) -> bool
        ensures { result ≡ self.now.in_vain }
    {
        self.in_vain
    }

    /// Why orders are open at this board, at which there is nothing to do behind the turn. `None`: no order is open.
    pub fn idle_at(&self, board: &Board) -> Option<Idle>
        ensures { result ≡ idle_at self.now board.now }
    {
        if board.open_tasks == 0 {
            return None;
        }
        if board.clock == LAST_CLOCK {
            return Some(Idle::Clock);
        }
        if self.no_path {
            return Some(Idle::NoPath);
        }
        Some(Idle::Standstill)
    }
}

/// Whether the reply is E6.
fn is_no_path(reply: &Reply) -> bool
    ensures { result ≡ is_no_path reply.now }
{
    matches!(reply, Reply::Refused(Refusal::NoPath))
}

/// Whether the reply brings no path.
fn brings_none(reply: &Reply) -> bool
    ensures { result ≡ brings_none reply.now }
{
    !matches!(reply, Reply::Took { .. } | Reply::Parked { .. })
}

/// Whether the place is the next one behind the last.
fn is_next(last: Option<u64>, place: u64) -> bool
    ensures { result ≡ (place == behind last) }
{
    match last {
        None => place == 0,
        Some(last) => place > last && place - last == 1,
    }
}

/// Whether so many entries are no more than those up to the last.
fn shows_no_more(entries: u64, last: Option<u64>) -> bool
    ensures { result ≡ nat_le entries (behind last) }
{
    match last {
        None => entries == 0,
        Some(last) => entries <= last || entries - last == 1,
    }
}
