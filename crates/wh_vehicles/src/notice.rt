//! What is told to vehicles, and answered to their reports.

ghost use Rattle.std.specs.Prelude.{◌≡◌, ◌+◌, ◌++◌, ◌≤◌, [], length, codes, decimal};
ghost use Rattle.wh_vehicles.specs.Notices.{notice_text};

use arrayvec::ArrayVec;
use wh_event::put_number;
use wh_grid::Cell;

/// A line to those that drive the vehicles.
#[derive(Clone, Copy, Debug, PartialEq, Eq)]
pub enum Notice {
    /// The vehicle has arrived at the step, now or before.
    Arrived { agent: u32, step: u64 },
    /// The vehicle has made this visit of the task, counted from 0.
    Visited { agent: u32, task: u32, visit: u32 },
    /// The vehicle is to go to the step, at this cell.
    Go { agent: u32, step: u64, cell: Cell },
    /// V1: the clock does not go on, since the vehicle is this many steps behind.
    Behind { agent: u32, steps: u64 },
    /// V2: there is no agent of this number.
    UnknownAgent { agent: u32 },
    /// V3: the vehicle was not told to make the step.
    NotTold { agent: u32, step: u64 },
}

/// Writes a text, and a number of at most 10 digits.
fn put_small(line: &mut ArrayVec<u8, 64>, text: &[u8], number: u32)
    requires { length line.old.items + length text.now ≤ 44 }
    ensures text { line.new.items ≡ line.old.items ++ text.now ++ decimal number }
    ensures room { length line.new.items ≤ length line.old.items + length text.now + 10 }
{
    put_number(line, text, u64::from(number));
}

/// Writes a text, and a number of at most 5 digits.
fn put_side(line: &mut ArrayVec<u8, 64>, text: &[u8], number: u16)
    requires { length line.old.items + length text.now ≤ 44 }
    ensures text { line.new.items ≡ line.old.items ++ text.now ++ decimal number }
    ensures room { length line.new.items ≤ length line.old.items + length text.now + 5 }
{
    put_number(line, text, u64::from(number));
}

/// Writes a text, an agent, and a step or a count of steps.
fn put_step(line: &mut ArrayVec<u8, 64>, text: &[u8], agent: u32, step: u64)
    requires empty { line.old.items ≡ [] }
    requires short { length text.now ≤ 11 }
    ensures text { line.new.items ≡ text.now ++ decimal agent ++ codes " " ++ decimal step }
    ensures room { length line.new.items ≤ length text.now + 31 }
{
    put_small(line, text, agent);
    put_number(line, b" ", step);
}

/// Writes a notice's text, without the line's end: words with one space between, and numbers in decimal without leading
/// zeros.
pub fn put_notice(line: &mut ArrayVec<u8, 64>, notice: &Notice)
    requires empty { line.old.items ≡ [] }
    ensures text { line.new.items ≡ notice_text notice.now }
    // So a line's end has room behind it.
    ensures short { length line.new.items ≤ 46 }
{
    match notice {
        Notice::Arrived { agent, step } => put_step(line, b"arrived ", *agent, *step),
        Notice::Visited { agent, task, visit } => {
            put_small(line, b"visited ", *agent);
            put_small(line, b" ", *task);
            put_small(line, b" ", *visit);
        }
        Notice::Go { agent, step, cell } => {
            put_step(line, b"go ", *agent, *step);
            put_side(line, b" ", cell.x);
            put_side(line, b",", cell.y);
        }
        Notice::Behind { agent, steps } => put_step(line, b"refused V1 ", *agent, *steps),
        Notice::UnknownAgent { agent } => put_small(line, b"refused V2 ", *agent),
        Notice::NotTold { agent, step } => put_step(line, b"refused V3 ", *agent, *step),
    }
}
