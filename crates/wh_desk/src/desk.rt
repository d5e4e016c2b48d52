//! The desk.
#![tactic(auto)]

ghost use Rattle.wh_book.specs.Drafts.{HasWaysForAll};
ghost use Rattle.std.specs.Prelude.{◌≡◌, ◌≢◌, ◌<◌, ◌≤◌, ◌↔◌, [], length, true, IfOk, IfErr, IfNone, IfSome, IsTrue, IsSome, MatchResult, OnErr, All};
ghost use Rattle.std.specs.List.{sum_by};
ghost use Rattle.wh_event.specs.declared.event.Command.{Command as Asked};
ghost use Rattle.wh_event.specs.declared.reply.Reply.{Reply as Answered};
ghost use Rattle.wh_event.specs.declared.reply.Refusal.{Refusal as Reason};
ghost use Rattle.wh_core.specs.Laws.{IsBeginning};
ghost use Rattle.wh_core.specs.Steps.{Run};
ghost use Rattle.wh_token.specs.Fleet.{TellsFor, replaced_agent};
ghost use Rattle.wh_board.specs.Boards.{IsBoardOf};
ghost use Rattle.wh_board.specs.Pasts.{Extends, origin_of, past_of};
ghost use Rattle.wh_desk.specs.Earlier.{IsWhyUnopened};
ghost use Rattle.wh_desk.specs.Lists.{entries_of};
ghost use Rattle.wh_desk.specs.Calls.{AllBegin, AllEmpty, AskedNext, Called, HandsBack, InOrder, IsClockAt, KnowsMore, NobodyAsked, NoneWantsPath, Refuses, TellsReceipt, Together};

use crate::answer::{Answer, DeskFault, Met, Receipt, Stale};
use crate::cells::Cells;
use crate::earlier::{Earlier, Unopened, passes_of, recall, rows_of};
use crate::journal::{History, Journal};
use crate::naming::DeskName;
use crate::pass::Pass;
use std::alloc::{AllocError, Global};
use std::sync::{Mutex, Wait};
use wh_board::{Board, Publisher, Told, Viewer, ViewerFault};
use wh_event::{Command, Stops};
use wh_planner::{Planner, Plans};
use wh_text::Name;
use wh_token::Warehouse;

/// The journal under its lock. `H` is the handle that the publisher keeps for its end.
#[derive(Drop)]
pub struct Desk<N: DeskName, H: Wait + Drop, P: Plans = Box<dyn Planner>> {
    journal: Mutex<Journal<N, H, P>>,
}

impl<N: DeskName, H: Wait + Drop, P: Plans> Desk<N, H, P> {
    /// A desk round a warehouse with no entry yet, and a pass for each of 1 to 64 callers. Its journal has as many positions as
    /// there are cells, 1 to 1,000,000. The publisher was made of this warehouse and published nothing since. Where memory
    /// runs out, what was handed in is dropped.
    pub fn open(
        alloc: Global,
        warehouse: Warehouse<P>,
        cells: Cells,
        publisher: Publisher<H>,
        callers: u32,
    ) -> Result<(Desk<N, H, P>, Vec<Pass<N>>), AllocError>
        requires origin { origin_of warehouse.book ≡ N.origin }
        requires history { warehouse.book.history ≡ [] }
        requires named { cells ≡ N.cells }
        requires book { publisher.book ≡ N.book }
        requires added { publisher.added ≡ past_of warehouse.book }
        requires shown { publisher.shown ≡ past_of warehouse.book }
        requires callers { callers ≡ N.callers }
        ensures order { IfOk result (λ r. InOrder N.callers r.1.items) }
        ensures empty { IfOk result (λ r. AllEmpty r.1.items) }
    {
        match Desk::resume(alloc, warehouse, cells, publisher, callers) {
            Ok(opened) => Ok(opened),
            Err(Unopened::NoMemory) => Err(AllocError),
            Err(Unopened::CellTaken | Unopened::Full | Unopened::OtherCaller) => unreachable!(),
        }
    }

    /// A desk round a warehouse with the entries that it has, of 1 to 64 callers. Each pass has all that its caller did, and knows
    /// the whole history. The journal has as many positions as there are cells, those of these entries among them; the publisher
    /// was made of this warehouse and published nothing since. Each entry is copied. Refused: E90, E91, a history with more
    /// entries than cells, and one with an entry of a caller whom the desk does not have; what was handed in is dropped then.
    pub fn resume(
        alloc: Global,
        warehouse: Warehouse<P>,
        cells: Cells,
        publisher: Publisher<H>,
        callers: u32,
    ) -> Result<(Desk<N, H, P>, Vec<Pass<N>>), Unopened>
        requires origin { origin_of warehouse.book ≡ N.origin }
        requires named { cells ≡ N.cells }
        requires book { publisher.book ≡ N.book }
        requires added { publisher.added ≡ past_of warehouse.book }
        requires shown { publisher.shown ≡ past_of warehouse.book }
        requires callers { callers ≡ N.callers }
        ensures order { IfOk result (λ r. InOrder N.callers r.1.items) }
        ensures lists { IfOk result (λ r. All (λ p. p.list ≡ entries_of warehouse.book.history p.caller) r.1.items) }
        ensures known { IfOk result (λ r. All (λ p. p.known ≡ warehouse.book.history) r.1.items) }
        ensures fault { IfErr result (IsWhyUnopened (length cells) callers warehouse.book.history) }
    {
        let capacity = cells.len();
        let history = warehouse.history();
        let known = history.len() as u64;
        let Earlier { cells, notes, owns } = match recall(alloc, history, cells, callers) {
            Ok(earlier) => earlier,
            Err(fault) => {
                drop(warehouse);
                drop(publisher);
                return Err(fault);
            }
        };
        let rows = match rows_of(alloc, owns.as_slice()) {
            Ok(rows) => rows,
            Err(AllocError) => {
                drop(warehouse);
                drop(publisher);
                drop(cells);
                drop(notes);
                drop(owns);
                return Err(Unopened::NoMemory);
            }
        };
        let passes = match passes_of(alloc, owns, publisher.front(), known, callers) {
            Ok(passes) => passes,
            Err(AllocError) => {
                drop(warehouse);
                drop(publisher);
                drop(cells);
                drop(notes);
                drop(rows);
                return Err(Unopened::NoMemory);
            }
        };
        let journal = Journal::over(warehouse, capacity, rows, notes, cells, publisher);
        let desk = Desk {
            journal: Mutex::new(journal),
        };
        Ok((desk, passes))
    }

    /// One step of the warehouse, under the lock.
    fn call<R: Wait>(
        &self,
        rt: &R,
        alloc: Global,
        pass: &mut Pass<N>,
        command: Command,
        spare: Option<P>,
    ) -> Answer<P>
        ensures ok { IfOk result.outcome (λ r. Called N.origin pass.old command pass.new r.position r.entry) }
        ensures clock { IfOk result.outcome (λ r. IsClockAt N.origin pass.new.known r.position r.clock) }
        ensures shown { IfOk result.outcome (λ r. IsTrue r.shown ↔ IsSome r.told) }
        ensures told { IfOk result.outcome (λ r. IfSome r.told (λ t. TellsReceipt N.book N.origin r.position r.entry t)) }
        ensures served { IfOk result.outcome (λ r. HasWaysForAll N.origin.site N.origin.opening → r.entry.reply ≢ Answered.Refused Reason.NoPath) }
        ensures tells { IfOk result.outcome (λ r. TellsFor P.fits_map P.slot_count N.origin.site.grid spare r.entry.event) }
        ensures err { IfErr result.outcome (λ fault. Refuses (length N.cells) pass.old fault pass.new) }
        ensures back { MatchResult result.outcome (λ r. HandsBack P.fits_map N.origin.site.grid (replaced_agent r.entry) spare result.back) (λ _. result.back ≡ spare) }
    {
        self.journal.lock(rt).call(alloc, pass, command, spare)
    }

    /// A client's task. Its entry stands in one history for good, after all that the pass had received. It may wait for the lock.
    /// Refused: E95 where the pass does not have all that its caller did, then E11 where the journal is full, E90, E91. The pass
    /// stays as it was, except that after E11 it knows of a history that has an entry for each cell.
    pub fn submit<R: Wait>(
        &self,
        rt: &R,
        alloc: Global,
        pass: &mut Pass<N>,
        client: Name,
        stops: Stops,
    ) -> Result<Receipt, DeskFault>
        ensures ok { IfOk result (λ r. Called N.origin pass.old (Asked.Submit client stops) pass.new r.position r.entry) }
        ensures clock { IfOk result (λ r. IsClockAt N.origin pass.new.known r.position r.clock) }
        ensures shown { IfOk result (λ r. IsTrue r.shown ↔ IsSome r.told) }
        ensures served { IfOk result (λ r. HasWaysForAll N.origin.site N.origin.opening → r.entry.reply ≢ Answered.Refused Reason.NoPath) }
        ensures told { IfOk result (λ r. IfSome r.told (λ t. TellsReceipt N.book N.origin r.position r.entry t)) }
        ensures err { IfErr result (λ fault. Refuses (length N.cells) pass.old fault pass.new) }
    {
        let command = Command::Submit { client, stops };
        self.call(rt, alloc, pass, command, None).outcome
    }

    /// An agent takes the token. On a well-formed instance it is never refused for lack of a path. Its receipt and its
    /// refusals are those of `submit`.
    pub fn request<R: Wait>(
        &self,
        rt: &R,
        alloc: Global,
        pass: &mut Pass<N>,
        agent: u32,
    ) -> Result<Receipt, DeskFault>
        ensures ok { IfOk result (λ r. Called N.origin pass.old (Asked.Token agent) pass.new r.position r.entry) }
        ensures clock { IfOk result (λ r. IsClockAt N.origin pass.new.known r.position r.clock) }
        ensures shown { IfOk result (λ r. IsTrue r.shown ↔ IsSome r.told) }
        ensures served { IfOk result (λ r. HasWaysForAll N.origin.site N.origin.opening → r.entry.reply ≢ Answered.Refused Reason.NoPath) }
        ensures told { IfOk result (λ r. IfSome r.told (λ t. TellsReceipt N.book N.origin r.position r.entry t)) }
        ensures err { IfErr result (λ fault. Refuses (length N.cells) pass.old fault pass.new) }
    {
        let command = Command::Token { agent };
        self.call(rt, alloc, pass, command, None).outcome
    }

    /// Of the agents that were not asked the one that is next to ask takes the token, and is marked as asked: who would be given the order
    /// with the nearest first stop, or, where none would be given any, the first that has to make way. `asked` tells for each agent whether
    /// it was asked. Its receipt and its refusals are those of `submit`; where it is refused nobody is marked. `None`: nobody is left to
    /// ask, as each that is due would be told to rest. Then no entry is made, and the pass knows of all that was done by then.
    pub fn request_next<R: Wait>(
        &self,
        rt: &R,
        alloc: Global,
        pass: &mut Pass<N>,
        asked: &mut [bool],
    ) -> Result<Option<Receipt>, DeskFault>
        requires { length asked.old ≡ length N.origin.site.layout.agents }
        ensures next { IfOk result (λ next. IfSome next (λ r. AskedNext N.origin pass.old asked.old pass.new asked.new r.position r.entry)) }
        ensures none { IfOk result (λ next. IfNone next (NobodyAsked N.origin pass.old asked.old pass.new asked.new)) }
        ensures clock { IfOk result (λ next. IfSome next (λ r. IsClockAt N.origin pass.new.known r.position r.clock)) }
        ensures shown { IfOk result (λ next. IfSome next (λ r. IsTrue r.shown ↔ IsSome r.told)) }
        ensures told { IfOk result (λ next. IfSome next (λ r. IfSome r.told (λ t. TellsReceipt N.book N.origin r.position r.entry t))) }
        ensures served { IfOk result (λ next. IfSome next (λ r. HasWaysForAll N.origin.site N.origin.opening → r.entry.reply ≢ Answered.Refused Reason.NoPath)) }
        ensures err { IfErr result (λ fault. Refuses (length N.cells) pass.old fault pass.new) }
        ensures same { OnErr result (asked.new ≡ asked.old) }
    {
        self.journal.lock(rt).call_next(alloc, pass, asked)
    }

    /// One step of the clock, and of each agent on its way. Its receipt and its refusals are those of `submit`.
    pub fn tick<R: Wait>(
        &self,
        rt: &R,
        alloc: Global,
        pass: &mut Pass<N>,
    ) -> Result<Receipt, DeskFault>
        ensures ok { IfOk result (λ r. Called N.origin pass.old Asked.Tick pass.new r.position r.entry) }
        ensures clock { IfOk result (λ r. IsClockAt N.origin pass.new.known r.position r.clock) }
        ensures shown { IfOk result (λ r. IsTrue r.shown ↔ IsSome r.told) }
        ensures served { IfOk result (λ r. HasWaysForAll N.origin.site N.origin.opening → r.entry.reply ≢ Answered.Refused Reason.NoPath) }
        ensures told { IfOk result (λ r. IfSome r.told (λ t. TellsReceipt N.book N.origin r.position r.entry t)) }
        ensures err { IfErr result (λ fault. Refuses (length N.cells) pass.old fault pass.new) }
    {
        self.call(rt, alloc, pass, Command::Tick, None).outcome
    }

    /// Nothing more may change. Its receipt and its refusals are those of `submit`.
    pub fn close<R: Wait>(
        &self,
        rt: &R,
        alloc: Global,
        pass: &mut Pass<N>,
    ) -> Result<Receipt, DeskFault>
        ensures ok { IfOk result (λ r. Called N.origin pass.old Asked.Close pass.new r.position r.entry) }
        ensures clock { IfOk result (λ r. IsClockAt N.origin pass.new.known r.position r.clock) }
        ensures shown { IfOk result (λ r. IsTrue r.shown ↔ IsSome r.told) }
        ensures served { IfOk result (λ r. HasWaysForAll N.origin.site N.origin.opening → r.entry.reply ≢ Answered.Refused Reason.NoPath) }
        ensures told { IfOk result (λ r. IfSome r.told (λ t. TellsReceipt N.book N.origin r.position r.entry t)) }
        ensures err { IfErr result (λ fault. Refuses (length N.cells) pass.old fault pass.new) }
    {
        self.call(rt, alloc, pass, Command::Close, None).outcome
    }

    /// Another planner for an agent. In every case the planner that is not in the warehouse comes back: after a refusal the one
    /// handed in. Its receipt and its refusals are those of `submit`.
    pub fn replace<R: Wait>(
        &self,
        rt: &R,
        alloc: Global,
        pass: &mut Pass<N>,
        agent: u32,
        spare: Option<P>,
    ) -> Answer<P>
        ensures ok { IfOk result.outcome (λ r. Called N.origin pass.old (Asked.Replace agent) pass.new r.position r.entry) }
        ensures clock { IfOk result.outcome (λ r. IsClockAt N.origin pass.new.known r.position r.clock) }
        ensures shown { IfOk result.outcome (λ r. IsTrue r.shown ↔ IsSome r.told) }
        ensures told { IfOk result.outcome (λ r. IfSome r.told (λ t. TellsReceipt N.book N.origin r.position r.entry t)) }
        ensures served { IfOk result.outcome (λ r. HasWaysForAll N.origin.site N.origin.opening → r.entry.reply ≢ Answered.Refused Reason.NoPath) }
        ensures tells { IfOk result.outcome (λ r. TellsFor P.fits_map P.slot_count N.origin.site.grid spare r.entry.event) }
        ensures err { IfErr result.outcome (λ fault. Refuses (length N.cells) pass.old fault pass.new) }
        ensures back { MatchResult result.outcome (λ r. HandsBack P.fits_map N.origin.site.grid (replaced_agent r.entry) spare result.back) (λ _. result.back ≡ spare) }
    {
        self.call(rt, alloc, pass, Command::Replace { agent }, spare)
    }

    /// The board of all that was done by now, of which the pass then knows. So it shows each entry of the pass's caller, also one that no
    /// memory was left to publish. It takes no memory, and may wait for the lock. E95: the pass does not have all that its caller did.
    pub fn look<R: Wait>(&self, rt: &R, pass: &mut Pass<N>) -> Result<Board, Stale>
        ensures board { IfOk result (IsBoardOf (record { origin = N.origin; history = pass.new.known })) }
        ensures seats { IfOk result (λ board. length board.agents.items ≡ length N.origin.site.layout.agents) }
        ensures knows { IfOk result (λ _. KnowsMore pass.old pass.new) }
        ensures own { IfOk result (λ board. All (λ x. x.0 < board.entries) pass.new.list) }
        ensures stale { OnErr result (pass.new ≡ pass.old) }
    {
        self.journal.lock(rt).look(pass)
    }

    /// A viewer of this desk's board, one of at most 64. The call may wait for the lock; its looks wait for nobody, also once
    /// the desk has ended. E92: no place for a viewer was given.
    pub fn viewer<R: Wait>(&self, rt: &R) -> Result<Viewer, ViewerFault>
        ensures book { IfOk result (λ v. v.book ≡ N.book) }
        ensures origin { IfOk result (λ v. v.past.origin ≡ N.origin) }
    {
        self.journal.lock(rt).viewer()
    }

    /// A viewer of this desk's board that knows at least what was told with a receipt. It waits and is refused as `viewer`.
    pub fn viewer_after<R: Wait>(&self, rt: &R, told: &Told) -> Result<Viewer, ViewerFault>
        requires { told.now.book ≡ N.book }
        ensures book { IfOk result (λ v. v.book ≡ N.book) }
        ensures origin { IfOk result (λ v. v.past.origin ≡ N.origin) }
        ensures least { IfOk result (λ v. Extends told.now.past v.past) }
    {
        let mut viewer = self.viewer(rt)?;
        viewer.learn(told);
        Ok(viewer)
    }

    /// The receipts of both passes stand at their positions among the first entries of one history, as many as are told. It
    /// may wait for the lock. E95: a pass does not have all that its caller did.
    pub fn meet<R: Wait>(&self, rt: &R, one: &Pass<N>, two: &Pass<N>) -> Result<Met, Stale>
        ensures ok { IfOk result (λ m. Together N.origin one.now two.now m.length) }
    {
        self.journal.lock(rt).meet(one, two)
    }

    /// Ends the desk. The history is one run from an opening state; for each caller its entries are what its pass received, and
    /// there are no others. Each pass knows of a beginning of it, and on a well-formed instance none of its requests is refused
    /// for lack of a path. There are no more entries than cells. It may wait until looks end. E95: a pass does not have all that its caller did; the desk
    /// and the passes are dropped.
    pub fn finish(self, passes: Vec<Pass<N>>) -> Result<History<P>, Stale>
        requires { InOrder N.callers passes.items }
        ensures origin { IfOk result (λ r. origin_of r.warehouse.book ≡ N.origin) }
        ensures opening { IfOk result (λ _. IsBeginning N.origin.site N.origin.opening) }
        ensures run { IfOk result (λ r. Run N.origin.site N.origin.opening r.warehouse.book.history r.warehouse.book.state) }
        ensures callers { IfOk result (λ r. All (λ entry. entry.caller < N.callers) r.warehouse.book.history) }
        ensures lists { IfOk result (λ r. All (λ p. p.list ≡ entries_of r.warehouse.book.history p.caller) passes.items) }
        ensures begin { IfOk result (λ r. AllBegin r.warehouse.book.history passes.items) }
        ensures served { IfOk result (λ r. NoneWantsPath N.origin r.warehouse.book.history) }
        ensures book { IfOk result (λ r. r.front.book ≡ N.book) }
        ensures past { IfOk result (λ r. r.front.past ≡ past_of r.warehouse.book) }
        ensures lengths { IfOk result (λ r. sum_by (λ p. length p.list) passes.items ≡ length r.warehouse.book.history) }
        ensures within { IfOk result (λ r. length r.warehouse.book.history ≤ length N.cells) }
    {
        let Desk { journal } = self;
        let journal = journal.into_inner();
        if !journal.knows_all(passes.as_slice()) {
            return Err(Stale);
        }
        Ok(journal.into_history())
    }
}
