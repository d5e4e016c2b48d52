//! One command of a client: a call of the desk through the journal, where it may make one.

ghost use Rattle.std.specs.Prelude.{length};
ghost use Rattle.wh_serve.specs.Calls.{Comes, TellsClock};

use crate::allowance::Allowance;
use std::alloc::Global;
use std::sync::Wait;
use wh_desk::{Desk, DeskFault, DeskName, Pass, Receipt};
use wh_event::Command;
use wh_journal::Journal;
use wh_planner::Plans;
use wh_scribe::{CallFault, JournalName, Scribe};

/// Why a command has no receipt.
#[derive(Clone, Copy, Debug, PartialEq, Eq)]
pub(crate) enum NoReceipt {
    /// The client has no right to it.
    Barred,
    /// The client has as many entries as may be its own.
    ShareUsed,
    /// The desk refused the call.
    Refused(DeskFault),
}

/// Why a client is told nothing of a command.
#[derive(Clone, Copy, Debug, PartialEq, Eq)]
pub(crate) enum Lost {
    /// The journal had failed, and no call was made.
    Failed,
    /// The entry of the call stands in the history, and the journal failed before it was synced.
    Unkept,
}

/// What a command came to.
#[derive(Drop)]
pub(crate) enum Came {
    /// Its receipt, whose entry the journal keeps.
    Receipt(Receipt),
    /// It has none.
    Without(NoReceipt),
    /// Nothing that may be told.
    Lost(Lost),
}

/// One call of the desk for the command, if the client may make it.
pub(crate) fn call_allowed<
    N: DeskName,
    S: JournalName,
    J: Journal + Drop,
    H: Wait + Drop,
    P: Plans,
    X: Wait,
>(
    rt: &X,
    alloc: Global,
    may: Allowance,
    desk: &Desk<N, H, P>,
    scribe: &Scribe<N, S, J>,
    pass: &mut Pass<N>,
    command: Command,
    spares: &mut Vec<P>,
) -> Came
    ensures came { Comes may (length N.cells) P.fits_map P.slot_count N.origin.site.grid command pass.old spares.old.items pass.new spares.new.items result }
    ensures clock { TellsClock N.origin pass.new.known result }
{
    if !may.rights.allow(&command) {
        return Came::Without(NoReceipt::Barred);
    }
    if pass.len() >= may.entries {
        return Came::Without(NoReceipt::ShareUsed);
    }
    match scribe.call(rt, alloc, desk, pass, command, spares) {
        Ok(receipt) => Came::Receipt(receipt),
        Err(CallFault::Refused(fault)) => Came::Without(NoReceipt::Refused(fault)),
        Err(CallFault::Failed) => Came::Lost(Lost::Failed),
        Err(CallFault::Unkept) => Came::Lost(Lost::Unkept),
    }
}
