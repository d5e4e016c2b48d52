//! One call of the desk for a command.
#![tactic(auto)]

ghost use Rattle.std.specs.Prelude.{◌≡◌, IfOk, IfErr, OnErr, length};
ghost use Rattle.wh_event.specs.declared.event.Command.{Command as Asked};
ghost use Rattle.wh_desk.specs.Calls.{Called, IsClockAt, Refuses};
ghost use Rattle.wh_scribe.specs.Calls.{Receives};

use std::alloc::Global;
use std::sync::Wait;
use wh_desk::{Answer, Desk, DeskFault, DeskName, Pass, Receipt};
use wh_event::Command;
use wh_planner::Plans;

/// Why a call has no receipt that may be told.
#[derive(Clone, Copy, Debug, PartialEq, Eq)]
pub enum CallFault {
    /// The desk refused the call: E95, E11, E90, E91. Nothing has changed.
    Refused(DeskFault),
    /// The journal had failed before: no call was made.
    Failed,
    /// The entry stands in the history, and not for certain in the journal, which failed at it, or before it was synced, or
    /// memory ran out for its line. It is told to nobody.
    Unkept,
}

/// One call of the desk for the command. Where it is refused, the pass has what it had, and the spares stay as they were.
pub(crate) fn call_desk<N: DeskName, H: Wait + Drop, P: Plans, X: Wait>(
    rt: &X,
    alloc: Global,
    desk: &Desk<N, H, P>,
    pass: &mut Pass<N>,
    command: Command,
    spares: &mut Vec<P>,
) -> Result<Receipt, DeskFault>
    ensures called { IfOk result (λ r. Called N.origin pass.old command pass.new r.position r.entry) }
    ensures clock { IfOk result (λ r. IsClockAt N.origin pass.new.known r.position r.clock) }
    ensures ok { IfOk result (λ r. Receives P.fits_map P.slot_count N.origin.site.grid command pass.old spares.old.items (r.position, r.entry) pass.new spares.new.items) }
    ensures left { IfErr result (λ fault. Refuses (length N.cells) pass.old fault pass.new) }
    ensures spares { OnErr result (spares.new.items ≡ spares.old.items) }
{
    match command {
        Command::Submit { client, stops } => desk.submit(rt, alloc, pass, client, stops),
        Command::Token { agent } => desk.request(rt, alloc, pass, agent),
        Command::Tick => desk.tick(rt, alloc, pass),
        Command::Replace { agent } => lend(rt, alloc, desk, pass, agent, spares),
        Command::Close => desk.close(rt, alloc, pass),
    }
}

/// Lends the last spare. What comes back after an answer is dropped; after a refusal the spare goes back to its place.
fn lend<N: DeskName, H: Wait + Drop, P: Plans, X: Wait>(
    rt: &X,
    alloc: Global,
    desk: &Desk<N, H, P>,
    pass: &mut Pass<N>,
    agent: u32,
    spares: &mut Vec<P>,
) -> Result<Receipt, DeskFault>
    ensures called { IfOk result (λ r. Called N.origin pass.old (Asked.Replace agent) pass.new r.position r.entry) }
    ensures clock { IfOk result (λ r. IsClockAt N.origin pass.new.known r.position r.clock) }
    ensures ok { IfOk result (λ r. Receives P.fits_map P.slot_count N.origin.site.grid (Asked.Replace agent) pass.old spares.old.items (r.position, r.entry) pass.new spares.new.items) }
    ensures left { IfErr result (λ fault. Refuses (length N.cells) pass.old fault pass.new) }
    ensures spares { OnErr result (spares.new.items ≡ spares.old.items) }
{
    let Answer { outcome, back } = desk.replace(rt, alloc, pass, agent, spares.pop());
    match outcome {
        Ok(receipt) => Ok(receipt),
        Err(fault) => {
            if let Some(spare) = back {
                spares.push_reserved(spare);
            }
            Err(fault)
        }
    }
}
