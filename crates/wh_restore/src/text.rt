//! What is written of a reason.

ghost use Rattle.std.specs.Prelude.{◌≡◌, ◌++◌, decimal, length, ◌≤◌};
ghost use Rattle.wh_log.specs.Spelling.{cell_word};
ghost use Rattle.wh_restore.specs.Texts as texts;

use crate::reason::Reason;
use arrayvec::ArrayVec;
use wh_event::{put, put_number};
use wh_grid::Cell;
use wh_stand::Flaw;

fn plain(text: &[u8]) -> ArrayVec<u8, 64>
    requires { length text.now ≤ 20 }
    ensures text { result.items ≡ text.now }
{
    let mut line = ArrayVec::new();
    put(&mut line, text);
    line
}

fn with_number(text: &[u8], number: u32) -> ArrayVec<u8, 64>
    requires { length text.now ≤ 12 }
    ensures text { result.items ≡ text.now ++ decimal number }
    ensures short { length result.items ≤ 22 }
{
    let mut line = ArrayVec::new();
    put_number(&mut line, text, u64::from(number));
    line
}

fn with_cell(text: &[u8], cell: Cell) -> ArrayVec<u8, 64>
    requires { length text.now ≤ 11 }
    ensures text { result.items ≡ text.now ++ cell_word cell }
    ensures short { length result.items ≤ 22 }
{
    let mut line = ArrayVec::new();
    put_number(&mut line, text, u64::from(cell.x));
    put_number(&mut line, b",", u64::from(cell.y));
    line
}

fn flaw_text(flaw: Flaw) -> ArrayVec<u8, 64>
    ensures text { result.items ≡ texts.flaw_text flaw }
    ensures short { length result.items ≤ 22 }
{
    match flaw {
        Flaw::Agents => plain(b"refused S2"),
        Flaw::Blocked(cell) => with_cell(b"refused S3 ", cell),
        Flaw::NoStep => plain(b"refused S4"),
        Flaw::Conflict(agent) => with_number(b"refused S5 ", agent),
        Flaw::NoStation(cell) => with_cell(b"refused S6 ", cell),
        Flaw::Clocks => plain(b"refused S7"),
        Flaw::UnknownAgent(agent) => with_number(b"refused S8 ", agent),
        Flaw::HasAnother(task) => with_number(b"refused S9 ", task),
        Flaw::AtItsNextStop(task) => with_number(b"refused S10 ", task),
    }
}

impl Reason {
    /// What is written of it, without a line feed, as `refused S5 2`: at most 22 bytes.
    pub fn text(self) -> ArrayVec<u8, 64>
        ensures text { result.items ≡ texts.reason_text self }
        ensures short { length result.items ≤ 22 }
    {
        match self {
            Reason::Form => plain(b"refused S1"),
            Reason::Count => plain(b"refused S2"),
            Reason::Flaw(flaw) => flaw_text(flaw),
            Reason::Rules => plain(b"refused S11"),
        }
    }
}
