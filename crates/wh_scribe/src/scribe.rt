//! A journal that each call of a desk goes through.
#![tactic(auto)]

ghost use Rattle.std.specs.Prelude.{◌≡◌, ◌<◌, ◌≤◌, true, false, IfNone, IfOk, IfErr, IfSome, Some, length, slice_get, take};
ghost use Rattle.std.specs.Io.KnownBytes.{Appends};
ghost use Rattle.wh_journal.specs.Journals.{lines_for};
ghost use Rattle.wh_desk.specs.Calls.{AskedNext, IsClockAt, NobodyAsked};
ghost use Rattle.wh_scribe.specs.Calls.{Leaves, LeavesNext, Receives};
ghost use Rattle.wh_scribe.specs.Keeping.{Holds, IsKept, KeepsFirst};

use crate::calling::CallFault;
use crate::keeper::Keeper;
use crate::mark::Mark;
use crate::name::JournalName;
use crate::order::Order;
use crate::page::Page;
use std::alloc::Global;
use std::sync::{Condvar, Mutex, Wait};
use wh_desk::{Desk, DeskName, Front, Pass, Receipt};
use wh_event::Command;
use wh_journal::Journal;
use wh_planner::Plans;

/// A journal that each call of a desk goes through. Calls are made one after another, under one lock, and each leaves its entry's
/// line there. Under another lock the lines that wait are appended and synced, so that no call is held up by the disk. What is
/// kept by now stands under a third, with whether somebody is at the journal: whoever has a receipt looks there, and waits for
/// who is at the journal, or goes and keeps all lines that wait. So one sync serves all whose lines stood before it. Who is at
/// the journal always comes back and wakes all that wait for it, which no clause says. Who holds the journal's lock may take the
/// calls' lock, and never the other way round; who holds the third takes no other.
#[derive(Drop)]
pub struct Scribe<N: DeskName, S: JournalName, J: Journal + Drop> {
    order: Mutex<Order<N>>,
    keeper: Mutex<Keeper<N, S, J>>,
    mark: Mutex<Mark<N, S, J>>,
    settled: Condvar,
}

/// What a scribe leaves: the journal, what was known of the history when lines were last appended, how many of its first
/// entries were written, how many of these were synced, and whether the journal failed, an entry came that was not the next, or
/// memory ran out for an entry's line.
#[derive(Drop)]
pub struct Kept<J: Journal + Drop> {
    pub journal: J,
    pub front: Front,
    pub written: u64,
    pub synced: u64,
    pub failed: bool,
}

impl<N: DeskName, S: JournalName, J: Journal + Drop> Scribe<N, S, J> {
    /// Over the journal as it stands, before the first call of a desk. The front is of the desk's book, and knows of the entries
    /// that are there already, whose lines the journal has after what it held at its start, all of it synced.
    pub fn new(alloc: Global, journal: J, front: &Front, written: u64) -> Scribe<N, S, J>
        requires book { front.now.book ≡ N.book }
        requires written { written ≡ length front.now.past.history }
        requires start { Appends S.start (J.contents journal) (lines_for front.now.past.history) }
        requires synced { J.synced journal ≡ J.contents journal }
    {
        let keeper = Keeper::new(alloc, journal, front, written);
        Scribe {
            order: Mutex::new(Order::new(alloc, front, written)),
            mark: Mutex::new(keeper.page.mark()),
            keeper: Mutex::new(keeper),
            settled: Condvar::new(),
        }
    }

    /// One call of the desk for the command. Its receipt is told once its entry's line is synced, and with it those of all
    /// entries before. A Replace is lent the last spare planner, which goes back to its place where the desk refused. It may wait
    /// for other calls, and with a receipt for the sync; one that is refused waits for no sync. E90 also where there is no memory
    /// for a line. Once the journal has failed, nothing is appended any more, and no receipt is told.
    pub fn call<H: Wait + Drop, P: Plans, X: Wait>(
        &self,
        rt: &X,
        alloc: Global,
        desk: &Desk<N, H, P>,
        pass: &mut Pass<N>,
        command: Command,
        spares: &mut Vec<P>,
    ) -> Result<Receipt, CallFault>
        ensures ok { IfOk result (λ r. Receives P.fits_map P.slot_count N.origin.site.grid command pass.old spares.old.items (r.position, r.entry) pass.new spares.new.items) }
        ensures kept { IfOk result (λ r. IsKept (λ x. J.synced x) S.start N.origin pass.new.known r.position r.entry) }
        ensures clock { IfOk result (λ r. IsClockAt N.origin pass.new.known r.position r.clock) }
        ensures left { IfErr result (λ fault. Leaves P.fits_map P.slot_count N.origin.site.grid (length N.cells) command pass.old spares.old.items fault pass.new spares.new.items) }
    {
        let outcome = self
            .order
            .lock(rt)
            .enter(rt, alloc, desk, pass, command, spares);
        match outcome {
            Ok(receipt) => {
                if self.keeps(rt, pass.front(), receipt.position + 1) {
                    Ok(receipt)
                } else {
                    Err(CallFault::Unkept)
                }
            }
            Err(fault) => Err(fault),
        }
    }

    /// Of the agents that were not asked the one that is next to ask takes the token, and is marked as asked (`Desk::request_next`). Its
    /// receipt is told as that of `call`, and it waits and is refused as that. `None`: nobody is left to ask, and no entry is made.
    pub fn request_next<H: Wait + Drop, P: Plans, X: Wait>(
        &self,
        rt: &X,
        alloc: Global,
        desk: &Desk<N, H, P>,
        pass: &mut Pass<N>,
        asked: &mut [bool],
    ) -> Result<Option<Receipt>, CallFault>
        requires { length asked.old ≡ length N.origin.site.layout.agents }
        ensures next { IfOk result (λ next. IfSome next (λ r. AskedNext N.origin pass.old asked.old pass.new asked.new r.position r.entry)) }
        ensures none { IfOk result (λ next. IfNone next (NobodyAsked N.origin pass.old asked.old pass.new asked.new)) }
        ensures kept { IfOk result (λ next. IfSome next (λ r. IsKept (λ x. J.synced x) S.start N.origin pass.new.known r.position r.entry)) }
        ensures clock { IfOk result (λ next. IfSome next (λ r. IsClockAt N.origin pass.new.known r.position r.clock)) }
        ensures left { IfErr result (λ fault. LeavesNext N.origin (length N.cells) pass.old asked.old fault pass.new asked.new) }
    {
        let outcome = self.order.lock(rt).enter_next(rt, alloc, desk, pass, asked);
        match outcome {
            Ok(Some(receipt)) => {
                let count = receipt.position + 1;
                if self.keeps(rt, pass.front(), count) {
                    Ok(Some(receipt))
                } else {
                    Err(CallFault::Unkept)
                }
            }
            Ok(None) => Ok(None),
            Err(fault) => Err(fault),
        }
    }

    /// Whether the given number of first entries of a history of the desk are synced. Those that are entered, and not yet synced, it
    /// appends and syncs first, or waits while somebody else does. It may wait for calls, and for the sync.
    pub fn keeps<X: Wait>(&self, rt: &X, known: &Front, count: u64) -> bool
        requires { known.now.book ≡ N.book }
        ensures { result ≡ true → KeepsFirst (λ x. J.synced x) S.start known.now.past.history count }
    {
        let mut mark = self
            .settled
            .wait_while(rt, self.mark.lock(rt), |mark| mark.waits(count));
        if !mark.lacks(count) {
            return mark.has_kept(known, count);
        }
        mark.take();
        drop(mark);
        let kept = self.settle(rt);
        let mut mark = self.mark.lock(rt);
        *mark = kept;
        self.settled.notify_all();
        mark.has_kept(known, count)
    }

    /// Appends the lines that wait, and syncs all that is written, where nobody else is at the journal. What is kept then.
    fn settle<X: Wait>(&self, rt: &X) -> Mark<N, S, J>
        ensures free { result.is_busy ≡ false }
    {
        let mut keeper = self.keeper.lock(rt);
        keeper.take(&mut self.order.lock(rt));
        keeper.keep();
        if keeper.page.failed {
            self.order.lock(rt).failed = true;
        }
        keeper.page.mark()
    }

    /// Whether all entries are synced whose calls had come back from the desk: those that are not it appends and syncs first. Never where
    /// no call is made any more. It may wait as `keeps` does.
    pub fn keeps_all<X: Wait>(&self, rt: &X) -> bool {
        let order = self.order.lock(rt);
        let is_open = !order.failed;
        let front = order.waiting.front().again();
        let entered = order.waiting.entered();
        drop(order);
        is_open && self.keeps(rt, &front, entered)
    }

    /// Gives the journal back. With the front the caller compares it with what else is known of the desk's history.
    pub fn into_journal(self) -> Kept<J>
        ensures book { result.front.book ≡ N.book }
        ensures within { result.written ≤ length result.front.past.history }
        ensures holds { Holds result.failed S.start (J.contents result.journal) result.front.past.history result.written }
        ensures safe_within { result.synced ≤ result.written }
        ensures safe { Appends S.start (J.synced result.journal) (lines_for (take result.synced result.front.past.history)) }
    {
        let Scribe { order, keeper, .. } = self;
        let Order { failed: shut, .. } = order.into_inner();
        let Keeper { page, .. } = keeper.into_inner();
        let Page {
            journal,
            front,
            written,
            synced,
            failed,
            ..
        } = page;
        Kept {
            journal,
            front,
            written,
            synced,
            failed: failed || shut,
        }
    }
}
