//! What is under the lock for calls.
#![tactic(auto)]

ghost use Rattle.std.specs.Prelude.{◌≡◌, ◌≢◌, ◌+◌, ◌<◌, ◌⊎◌, ◌^◌, true, false, Err, IfOk, IfErr, IfNone, IfSome, Some, length, slice_get};
ghost use Rattle.wh_desk.specs.Lists.{IsRunFrom};
ghost use Rattle.wh_desk.specs.Calls.{AskedNext, IsClockAt, NobodyAsked};
ghost use Rattle.wh_desk.specs.declared.answer.DeskFault.{DeskFault as Reason};
ghost use Rattle.wh_scribe.specs.Calls.{Leaves, LeavesNext, Receives};
ghost use Rattle.wh_scribe.specs.Keeping.{Enters};
ghost use Rattle.wh_scribe.specs.declared.calling.CallFault.{CallFault as Fault};

use crate::calling::{CallFault, call_desk};
use crate::waiting::Waiting;
use std::alloc::Global;
use std::sync::Wait;
use wh_desk::{Desk, DeskFault, DeskName, Front, Pass, Receipt};
use wh_event::Command;
use wh_planner::Plans;

/// The lines that wait, and whether no call is made any more: the journal failed, or a line could not be entered.
#[derive(Drop)]
pub(crate) struct Order<N: DeskName> {
    pub(crate) waiting: Waiting<N>,
    pub(crate) failed: bool,
}

impl<N: DeskName> Order<N> {
    /// No line waits. This many entries are known.
    pub(crate) fn new(alloc: Global, front: &Front, entered: u64) -> Order<N>
        requires book { front.now.book ≡ N.book }
        requires entered { entered ≡ length front.now.past.history }
        ensures { result.failed ≡ false }
    {
        Order {
            waiting: Waiting::new(alloc, front, entered),
            failed: false,
        }
    }

    /// One call of the desk, whose entry's line then waits. None is made after a fault, nor where there is no memory for a line.
    pub(crate) fn enter<H: Wait + Drop, P: Plans, X: Wait>(
        &mut self,
        rt: &X,
        alloc: Global,
        desk: &Desk<N, H, P>,
        pass: &mut Pass<N>,
        command: Command,
        spares: &mut Vec<P>,
    ) -> Result<Receipt, CallFault>
        ensures ok { IfOk result (λ r. Receives P.fits_map P.slot_count N.origin.site.grid command pass.old spares.old.items (r.position, r.entry) pass.new spares.new.items) }
        ensures run { IfOk result (λ r. IsRunFrom N.origin pass.new.known) }
        ensures stands { IfOk result (λ r. slice_get pass.new.known r.position ≡ Some r.entry) }
        ensures clock { IfOk result (λ r. IsClockAt N.origin pass.new.known r.position r.clock) }
        ensures room { IfOk result (λ r. r.position + 1 < 2 ^ 64) }
        ensures entered { IfOk result (λ r. Enters self.old.waiting self.new.waiting pass.new.known r.position) }
        ensures left { IfErr result (λ fault. Leaves P.fits_map P.slot_count N.origin.site.grid (length N.cells) command pass.old spares.old.items fault pass.new spares.new.items) }
        ensures failed { self.old.failed ≡ true → result ≡ Err Fault.Failed }
        ensures same { IfErr result (λ fault. fault ≢ Fault.Unkept → self.new ≡ self.old) }
        ensures shut { result ≡ Err Fault.Unkept → self.new.failed ≡ true }
    {
        if let Err(fault) = self.opens() {
            return Err(fault);
        }
        match call_desk(rt, alloc, desk, pass, command, spares) {
            Ok(receipt) => {
                if self.notes(alloc, pass.front(), &receipt) {
                    Ok(receipt)
                } else {
                    Err(CallFault::Unkept)
                }
            }
            Err(fault) => Err(CallFault::Refused(fault)),
        }
    }

    /// The same, where the agent that is next to ask takes the token, of those that were not asked. `None`: nobody is left to ask.
    pub(crate) fn enter_next<H: Wait + Drop, P: Plans, X: Wait>(
        &mut self,
        rt: &X,
        alloc: Global,
        desk: &Desk<N, H, P>,
        pass: &mut Pass<N>,
        asked: &mut [bool],
    ) -> Result<Option<Receipt>, CallFault>
        requires { length asked.old ≡ length N.origin.site.layout.agents }
        ensures next { IfOk result (λ next. IfSome next (λ r. AskedNext N.origin pass.old asked.old pass.new asked.new r.position r.entry)) }
        ensures none { IfOk result (λ next. IfNone next (NobodyAsked N.origin pass.old asked.old pass.new asked.new)) }
        ensures clock { IfOk result (λ next. IfSome next (λ r. IsClockAt N.origin pass.new.known r.position r.clock)) }
        ensures room { IfOk result (λ next. IfSome next (λ r. r.position + 1 < 2 ^ 64)) }
        ensures entered { IfOk result (λ next. IfSome next (λ r. Enters self.old.waiting self.new.waiting pass.new.known r.position)) }
        ensures left { IfErr result (λ fault. LeavesNext N.origin (length N.cells) pass.old asked.old fault pass.new asked.new) }
        ensures failed { self.old.failed ≡ true → result ≡ Err Fault.Failed }
        ensures same { IfErr result (λ fault. fault ≢ Fault.Unkept → self.new ≡ self.old) }
        ensures still { IfOk result (λ next. IfNone next (self.new ≡ self.old)) }
        ensures shut { result ≡ Err Fault.Unkept → self.new.failed ≡ true }
    {
        if let Err(fault) = self.opens() {
            return Err(fault);
        }
        match desk.request_next(rt, alloc, pass, asked) {
            Ok(Some(receipt)) => {
                if self.notes(alloc, pass.front(), &receipt) {
                    Ok(Some(receipt))
                } else {
                    Err(CallFault::Unkept)
                }
            }
            Ok(None) => Ok(None),
            Err(fault) => Err(CallFault::Refused(fault)),
        }
    }

    /// Whether a call may be made, and why not: after a fault, or where there is no memory for a line.
    fn opens(&mut self) -> Result<(), CallFault>
        ensures same { self.new ≡ self.old }
        ensures failed { self.old.failed ≡ true → result ≡ Err Fault.Failed }
        ensures fault { IfErr result (λ fault. (fault ≡ Fault.Failed) ⊎ (fault ≡ Fault.Refused Reason.NoMemory)) }
    {
        if self.failed {
            return Err(CallFault::Failed);
        }
        if !self.waiting.make_room() {
            return Err(CallFault::Refused(DeskFault::NoMemory));
        }
        Ok(())
    }

    /// The line of a receipt's entry waits, and whether it does. Where it could not be entered no call is made any more.
    fn notes(&mut self, alloc: Global, known: &Front, receipt: &Receipt) -> bool
        requires book { known.now.book ≡ N.book }
        requires stands { slice_get known.now.past.history receipt.now.position ≡ Some receipt.now.entry }
        ensures entered { result ≡ true → Enters self.old.waiting self.new.waiting known.now.past.history receipt.now.position × (receipt.now.position + 1 < 2 ^ 64) }
        ensures shut { result ≡ false → self.new.failed ≡ true }
    {
        let is_entered = self
            .waiting
            .push(alloc, known, receipt.position, &receipt.entry);
        if !is_entered {
            self.failed = true;
        }
        is_entered
    }
}
