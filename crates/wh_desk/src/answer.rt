//! What the calls of a desk return.
#![tactic(auto)]

ghost use Rattle.std.specs.Prelude.{◌≡◌, Err};

use wh_board::Told;
use wh_event::Entry;
use wh_planner::Planner;

/// Why a call of the desk was refused. Nothing has changed then.
#[derive(Clone, Copy, Debug, PartialEq, Eq)]
pub enum DeskFault {
    /// E95: the pass does not have all that its caller did.
    Stale,
    /// E11: the journal is full.
    Full,
    /// E90: a growth was refused, of memory or of the book.
    NoMemory,
    /// E91: the cell of the receipt refused its value.
    CellTaken,
}

/// E95: a pass does not have all that its caller did.
#[derive(Clone, Copy, Debug, PartialEq, Eq)]
pub struct Stale;

/// What a caller receives for a call.
#[derive(Drop)]
pub struct Receipt {
    /// Where the entry stands in the history, from 0.
    pub position: u64,
    /// The clock before the entry.
    pub clock: u32,
    pub entry: Entry,
    /// Whether the board was published with it.
    pub shown: bool,
    /// If so, what was published.
    pub told: Option<Told>,
}

/// What a call returns, and the planner that is not in the warehouse.
#[derive(Drop)]
pub struct Answer<P = Box<dyn Planner>> {
    pub outcome: Result<Receipt, DeskFault>,
    pub back: Option<P>,
}

/// How long the history is in which the receipts of two passes stand.
#[derive(Clone, Copy, Debug, PartialEq, Eq)]
pub struct Met {
    pub length: u64,
}

impl<P> Answer<P> {
    /// The refusal of a call, with the planner that was handed in.
    pub(crate) fn refused(fault: DeskFault, back: Option<P>) -> Answer<P>
        ensures outcome { result.outcome ≡ Err fault }
        ensures back { result.back ≡ back }
    {
        Answer {
            outcome: Err(fault),
            back,
        }
    }
}
