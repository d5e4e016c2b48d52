//! What is under the desk's lock.
#![tactic(auto)]

ghost use Rattle.wh_book.specs.Drafts.{HasWaysForAll};
ghost use Rattle.std.specs.Prelude.{◌≡◌, ◌≢◌, ◌<◌, ◌≤◌, ◌&&◌, ◌↔◌, [], true, false, length, IfSome, IfNone, IsSome, IfOk, IfErr, OnErr, IsErr, IsTrue, Err, MatchResult, All};
ghost use mathlib.Core.List.{IsPrefix};
ghost use Rattle.wh_event.specs.declared.event.Command.{Command as Asked};
ghost use Rattle.wh_event.specs.declared.reply.Reply.{Reply as Answered};
ghost use Rattle.wh_event.specs.declared.reply.Refusal.{Refusal as Reason};
ghost use Rattle.wh_core.specs.Laws.{IsBeginning};
ghost use Rattle.wh_core.specs.Steps.{Run};
ghost use Rattle.wh_token.specs.Asking.{AllWouldRest, IsNextToAsk, MayBeAsked};
ghost use Rattle.wh_token.specs.Fleet.{IsTied, StaySeated, TellsFor, replaced_agent};
ghost use Rattle.wh_board.specs.Boards.{IsBoardOf};
ghost use Rattle.wh_board.specs.Pasts.{origin_of, past_of};
ghost use Rattle.wh_desk.specs.Lists.{AllAt, TellsTheSame, entries_of, is_current};
ghost use Rattle.wh_desk.specs.Kept.{NoteAt, RowOf};
ghost use Rattle.wh_desk.specs.Calls.{AllBegin, AskedNext, Called, Entered, HandsBack, IsClockAt, IsStateAt, KnowsMore, NobodyAsked, NoneWantsPath, Refuses, Reseats, TellsReceipt, Together, Untouched};

use crate::answer::{Answer, DeskFault, Met, Receipt, Stale};
use crate::cells::CellRow;
use crate::making::{Made, make_ready, note_down};
use crate::naming::DeskName;
use crate::pass::{Pass, Row};
use once_cell::race::Note;
use std::alloc::Global;
use std::marker::{Model, PhantomData};
use std::sync::Wait;
use wh_board::{Board, Front, Publisher, Viewer, ViewerFault};
use wh_event::{Command, Entry};
use wh_planner::{Planner, Plans};
use wh_token::{Committed, Warehouse};

/// What is under the lock. Contracts see it as its history, its state, its capacity, what was published last, and the
/// agents' planners. The cells of the receipts lie here too: as many are set as there are entries.
#[derive(Drop)]
pub struct Journal<N: DeskName, H: Wait + Drop, P: Plans = Box<dyn Planner>> {
    warehouse: Warehouse<P>,
    capacity: u64,
    rows: Vec<Row>,
    notes: Vec<Note<Entry>>,
    cells: CellRow,
    publisher: Publisher<H>,
    name: PhantomData<N>,
}

/// What a desk leaves: the warehouse, with all that was done, and that it was done in the desk's book, so that what a viewer
/// or another pass knows can be compared with it.
#[derive(Drop)]
pub struct History<P: Plans = Box<dyn Planner>> {
    pub warehouse: Warehouse<P>,
    pub front: Front,
}

impl<N: DeskName, H: Wait + Drop, P: Plans> Model for Journal<N, H, P> {
    ghost use Rattle.wh_desk.specs.Lists.{Ledger};
    ghost use Rattle.wh_desk.specs.Kept.{JournalKeeps};
    ghost use Rattle.wh_board.specs.Pasts.{past_of};

    ghost Value = { Ledger P };

    ghost view = { λ j. record { history = j.warehouse.book.history; state = j.warehouse.book.state; capacity = j.capacity; shown = j.publisher.shown.history; planners = j.warehouse.planners } };

    ghost invariant = { λ j. JournalKeeps N.origin N.cells N.book N.callers (past_of j.warehouse.book) j.capacity j.rows.items j.notes.items j.cells j.publisher };
}

impl<N: DeskName, H: Wait + Drop, P: Plans> Journal<N, H, P> {
    /// A journal of the entries that the warehouse has.
    pub(crate) fn over(
        warehouse: Warehouse<P>,
        capacity: u64,
        rows: Vec<Row>,
        notes: Vec<Note<Entry>>,
        cells: CellRow,
        publisher: Publisher<H>,
    ) -> Journal<N, H, P>
        requires origin { origin_of warehouse.book ≡ N.origin }
        requires capacity { capacity ≡ length N.cells }
        requires room { length warehouse.book.history ≤ capacity }
        requires callers { All (λ entry. entry.caller < N.callers) warehouse.book.history }
        requires length { length rows.items ≡ N.callers }
        requires rows { AllAt (λ caller row. RowOf (entries_of warehouse.book.history caller) row) rows.items }
        requires noted { length notes.items ≡ length warehouse.book.history }
        requires notes { AllAt (NoteAt N.cells warehouse.book.history) notes.items }
        requires cells { cells ≡ record { names = N.cells; count = length warehouse.book.history } }
        requires book { publisher.book ≡ N.book }
        requires added { publisher.added ≡ past_of warehouse.book }
        requires shown { publisher.shown ≡ past_of warehouse.book }
        ensures history { result.history ≡ warehouse.book.history }
        ensures state { result.state ≡ warehouse.book.state }
        ensures capacity { result.capacity ≡ capacity }
        ensures shown { result.shown ≡ warehouse.book.history }
        ensures planners { result.planners ≡ warehouse.planners }
    {
        Journal {
            warehouse,
            capacity,
            rows,
            notes,
            cells,
            publisher,
            name: PhantomData,
        }
    }

    /// What the caller has in this history.
    fn row(&self, caller: u32) -> Row
        requires { caller < N.callers }
        ensures { RowOf (entries_of self.now.history caller) result }
    {
        self.rows[caller as usize]
    }

    /// What is known of the history: all of it.
    fn front(&self) -> &Front
        ensures book { result.now.book ≡ N.book }
        ensures origin { result.now.past.origin ≡ N.origin }
        ensures history { result.now.past.history ≡ self.now.history }
    {
        self.publisher.front()
    }

    /// A viewer of this desk's board.
    pub fn viewer(&mut self) -> Result<Viewer, ViewerFault>
        ensures stands { self.new ≡ self.old }
        ensures book { IfOk result (λ v. v.book ≡ N.book) }
        ensures past { IfOk result (λ v. v.past ≡ record { origin = N.origin; history = self.old.shown }) }
    {
        self.publisher.viewer()
    }

    /// Whether the pass has all that its caller did, and knows of no longer history. If so, its receipts are the caller's
    /// entries in this history, and it knows of a beginning of it.
    pub fn knows(&self, pass: &Pass<N>) -> bool
        ensures current { result ≡ is_current self.now.history pass.now }
        ensures whole { result ≡ true → pass.now.list ≡ entries_of self.now.history pass.now.caller }
        ensures begins { result ≡ true → IsPrefix pass.now.known self.now.history }
    {
        let row = self.row(pass.caller());
        let mine = pass.row();
        if row.count != mine.count || row.last != mine.last || self.len() < pass.known() {
            return false;
        }
        pass.agrees(self.front());
        true
    }

    /// Whether each pass has all that its caller did. If so, its receipts are the caller's entries in this history.
    pub fn knows_all(&self, passes: &[Pass<N>]) -> bool
        ensures current { IsTrue result ↔ All (λ p. is_current self.now.history p ≡ true) passes.now }
        ensures whole { result ≡ true → All (λ p. p.list ≡ entries_of self.now.history p.caller) passes.now }
        ensures begin { result ≡ true → AllBegin self.now.history passes.now }
    {
        for each in passes {
            if !self.knows(each) {
                return false;
            }
        }
        true
    }

    /// The state is the run of the history.
    pub fn is_run(&self)
        ensures { Run N.origin.site N.origin.opening self.now.history self.now.state }
    {
        let _run = self.warehouse.history();
    }

    /// The agents' planners, in the agents' order. Each plans on the grid, and has the slots that the state tells.
    pub fn planners(&self) -> &[P]
        ensures value { result.now ≡ self.now.planners }
        ensures tied { IsTied P.fits_map P.slot_count N.origin.site.grid self.now.planners self.now.state.slots }
    {
        let _run = self.warehouse.history();
        self.warehouse.planners()
    }

    /// How many entries the history has.
    pub fn len(&self) -> u64
        ensures { result ≡ length self.now.history }
    {
        self.warehouse.history().len() as u64
    }

    /// Whether it has as many as it may have: one for each cell.
    pub fn is_full(&self) -> bool
        ensures full { IsTrue result ↔ (self.now.capacity ≤ length self.now.history) }
        ensures cells { IsTrue result → length self.now.history ≡ length N.cells }
    {
        self.capacity <= self.warehouse.history().len() as u64
    }

    /// Whether both passes have all that their callers did. If so, their receipts stand in this history.
    pub fn meet(&self, one: &Pass<N>, two: &Pass<N>) -> Result<Met, Stale>
        ensures ok { IfOk result (λ m. Together N.origin one.now two.now m.length) }
        ensures stale { IsErr result ↔ ((is_current self.now.history one.now && is_current self.now.history two.now) ≡ false) }
    {
        let length = self.len();
        self.is_run();
        if !self.knows(one) {
            return Err(Stale);
        }
        if !self.knows(two) {
            return Err(Stale);
        }
        Ok(Met { length })
    }

    /// What it leaves. All its entries are of the callers, and there are no more of them than cells. The run is from a
    /// beginning, and on a well-formed instance none of its requests is refused for lack of a path.
    pub fn into_history(self) -> History<P>
        ensures origin { origin_of result.warehouse.book ≡ N.origin }
        ensures opening { IsBeginning N.origin.site N.origin.opening }
        ensures run { Run N.origin.site N.origin.opening result.warehouse.book.history result.warehouse.book.state }
        ensures served { NoneWantsPath N.origin result.warehouse.book.history }
        ensures history { result.warehouse.book.history ≡ self.history }
        ensures state { result.warehouse.book.state ≡ self.state }
        ensures planners { result.warehouse.planners ≡ self.planners }
        ensures book { result.front.book ≡ N.book }
        ensures past { result.front.past ≡ past_of result.warehouse.book }
        ensures callers { All (λ entry. entry.caller < N.callers) self.history }
        ensures within { length self.history ≤ length N.cells }
    {
        let front = self.publisher.front().again();
        let Journal {
            warehouse,
            capacity: _,
            rows: _,
            notes: _,
            cells: _,
            publisher: _,
            name: _,
        } = self;
        let _run = warehouse.history();
        History { warehouse, front }
    }

    /// Appends an entry of the caller's, hands the pass its receipt and publishes the board. E95 comes first, where the
    /// pass does not have all that its caller did, then E11, where the journal is full: no planner is asked before these. Then come E90 and
    /// E91. A refusal changes neither journal nor pass, but for what a planner that was asked has learned, and that a pass that
    /// is told of a full journal knows its history; it gives the planner that was handed in back.
    pub fn enter(
        &mut self,
        alloc: Global,
        pass: &mut Pass<N>,
        command: Command,
        spare: Option<P>,
    ) -> Answer<P>
        ensures ok { IfOk result.outcome (λ r. Entered N.origin self.old pass.old command self.new pass.new r.position r.entry) }
        ensures clock { IfOk result.outcome (λ r. r.clock ≡ self.old.state.clock) }
        ensures served { IfOk result.outcome (λ r. HasWaysForAll N.origin.site N.origin.opening → r.entry.reply ≢ Answered.Refused Reason.NoPath) }
        ensures tells { IfOk result.outcome (λ r. TellsFor P.fits_map P.slot_count N.origin.site.grid spare r.entry.event) }
        ensures shown { IfOk result.outcome (λ r. IsTrue r.shown ↔ IsSome r.told) }
        ensures told { IfOk result.outcome (λ r. IfSome r.told (λ t. (t.book ≡ N.book) × (t.past ≡ record { origin = N.origin; history = self.new.history }) × (self.new.shown ≡ self.new.history))) }
        ensures lags { IfOk result.outcome (λ r. IfNone r.told (self.new.shown ≡ self.old.shown)) }
        ensures err { IfErr result.outcome (λ fault. Untouched self.old fault self.new) }
        ensures pass { IfErr result.outcome (λ fault. Refuses (length N.cells) pass.old fault pass.new) }
        ensures still { OnErr result.outcome (StaySeated command self.old.planners self.new.planners) }
        ensures stale { (result.outcome ≡ Err DeskFault.Stale) ↔ (is_current self.old.history pass.old ≡ false) }
        ensures full { (result.outcome ≡ Err DeskFault.Full) ↔ ((is_current self.old.history pass.old ≡ true) × (self.old.capacity ≤ length self.old.history)) }
        ensures back { MatchResult result.outcome (λ r. HandsBack P.fits_map N.origin.site.grid (replaced_agent r.entry) spare result.back) (λ _. result.back ≡ spare) }
        ensures reseats { IfOk result.outcome (λ r. Reseats command (replaced_agent r.entry) self.old.planners spare self.new.planners result.back) }
    {
        if !self.knows(pass) {
            return Answer::refused(DeskFault::Stale, spare);
        }
        if self.is_full() {
            self.tell_all(pass);
            return Answer::refused(DeskFault::Full, spare);
        }
        self.append(alloc, pass, command, spare)
    }

    /// One step of the warehouse, for a caller who sees its pass alone. The state before the entry is that which the journal had.
    pub(crate) fn call(
        &mut self,
        alloc: Global,
        pass: &mut Pass<N>,
        command: Command,
        spare: Option<P>,
    ) -> Answer<P>
        ensures ok { IfOk result.outcome (λ r. Called N.origin pass.old command pass.new r.position r.entry) }
        ensures before { IfOk result.outcome (λ r. IsStateAt N.origin pass.new.known r.position self.old.state) }
        ensures clock { IfOk result.outcome (λ r. IsClockAt N.origin pass.new.known r.position r.clock) }
        ensures shown { IfOk result.outcome (λ r. IsTrue r.shown ↔ IsSome r.told) }
        ensures told { IfOk result.outcome (λ r. IfSome r.told (λ t. TellsReceipt N.book N.origin r.position r.entry t)) }
        ensures served { IfOk result.outcome (λ r. HasWaysForAll N.origin.site N.origin.opening → r.entry.reply ≢ Answered.Refused Reason.NoPath) }
        ensures tells { IfOk result.outcome (λ r. TellsFor P.fits_map P.slot_count N.origin.site.grid spare r.entry.event) }
        ensures err { IfErr result.outcome (λ fault. Refuses (length N.cells) pass.old fault pass.new) }
        ensures back { MatchResult result.outcome (λ r. HandsBack P.fits_map N.origin.site.grid (replaced_agent r.entry) spare result.back) (λ _. result.back ≡ spare) }
    {
        self.is_run();
        let answer = self.enter(alloc, pass, command, spare);
        self.is_run();
        answer
    }

    /// Who is next to ask, of the agents that were not asked.
    fn next_to_ask(&mut self, asked: &[bool]) -> Option<u32>
        requires { length asked.now ≡ length N.origin.site.layout.agents }
        ensures same { self.new ≡ self.old }
        ensures within { IfSome result (λ agent. agent < length asked.now) }
        ensures next { IfSome result (IsNextToAsk N.origin.site self.old.state (MayBeAsked asked.now)) }
        ensures none { IfNone result (AllWouldRest N.origin.site self.old.state (MayBeAsked asked.now)) }
    {
        let _run = self.warehouse.history();
        self.warehouse.next_to_ask(asked)
    }

    /// The agent that is next to ask, of those that were not asked, takes the token, and is marked as asked; or nobody is left to ask,
    /// and the pass comes to know of the whole history. It is refused as `enter`, and then nobody is marked.
    pub(crate) fn call_next(
        &mut self,
        alloc: Global,
        pass: &mut Pass<N>,
        asked: &mut [bool],
    ) -> Result<Option<Receipt>, DeskFault>
        requires { length asked.old ≡ length N.origin.site.layout.agents }
        ensures next { IfOk result (λ next. IfSome next (λ r. AskedNext N.origin pass.old asked.old pass.new asked.new r.position r.entry)) }
        ensures none { IfOk result (λ next. IfNone next (NobodyAsked N.origin pass.old asked.old pass.new asked.new)) }
        ensures clock { IfOk result (λ next. IfSome next (λ r. IsClockAt N.origin pass.new.known r.position r.clock)) }
        ensures shown { IfOk result (λ next. IfSome next (λ r. IsTrue r.shown ↔ IsSome r.told)) }
        ensures told { IfOk result (λ next. IfSome next (λ r. IfSome r.told (λ t. TellsReceipt N.book N.origin r.position r.entry t))) }
        ensures served { IfOk result (λ next. IfSome next (λ r. HasWaysForAll N.origin.site N.origin.opening → r.entry.reply ≢ Answered.Refused Reason.NoPath)) }
        ensures err { IfErr result (λ fault. Refuses (length N.cells) pass.old fault pass.new) }
        ensures same { OnErr result (asked.new ≡ asked.old) }
    {
        let Some(agent) = self.next_to_ask(asked) else {
            return match self.learns(pass) {
                Ok(()) => Ok(None),
                Err(Stale) => Err(DeskFault::Stale),
            };
        };
        let outcome = self
            .call(alloc, pass, Command::Token { agent }, None)
            .outcome;
        match outcome {
            Ok(receipt) => {
                asked[agent as usize] = true;
                Ok(Some(receipt))
            }
            Err(fault) => Err(fault),
        }
    }

    /// The pass comes to know of the whole history, if it has all that its caller did there.
    fn learns(&self, pass: &mut Pass<N>) -> Result<(), Stale>
        ensures knows { IfOk result (λ _. KnowsMore pass.old pass.new) }
        ensures known { IfOk result (λ _. pass.new.known ≡ self.now.history) }
        ensures own { IfOk result (λ _. All (λ x. x.0 < length pass.new.known) pass.new.list) }
        ensures state { IfOk result (λ _. IsStateAt N.origin pass.new.known (length pass.new.known) self.now.state) }
        ensures stale { OnErr result (pass.new ≡ pass.old) }
    {
        if !self.knows(pass) {
            return Err(Stale);
        }
        self.is_run();
        self.tell_all(pass);
        Ok(())
    }

    /// The board of all that was done by now, of which the pass then knows.
    pub(crate) fn look(&self, pass: &mut Pass<N>) -> Result<Board, Stale>
        ensures board { IfOk result (IsBoardOf (record { origin = N.origin; history = pass.new.known })) }
        ensures seats { IfOk result (λ board. length board.agents.items ≡ length N.origin.site.layout.agents) }
        ensures knows { IfOk result (λ _. KnowsMore pass.old pass.new) }
        ensures own { IfOk result (λ board. All (λ x. x.0 < board.entries) pass.new.list) }
        ensures stale { OnErr result (pass.new ≡ pass.old) }
    {
        match self.learns(pass) {
            Ok(()) => Ok(self.board()),
            Err(Stale) => Err(Stale),
        }
    }

    /// The board of the whole history.
    fn board(&self) -> Board
        ensures board { IsBoardOf (record { origin = N.origin; history = self.now.history }) result }
        ensures entries { result.entries ≡ length self.now.history }
        ensures seats { length result.agents.items ≡ length N.origin.site.layout.agents }
    {
        let _run = self.warehouse.history();
        Board::of(self.warehouse.book())
    }

    /// The pass comes to know of the whole history. It has all that its caller did there.
    fn tell_all(&self, pass: &mut Pass<N>)
        requires whole { pass.old.list ≡ entries_of self.now.history pass.old.caller }
        ensures { pass.new ≡ record { caller = pass.old.caller; list = pass.old.list; known = self.now.history } }
    {
        self.is_run();
        pass.learn(self.front(), self.len());
    }

    /// Appends an entry, once the pass is known to have all that its caller did.
    fn append(
        &mut self,
        alloc: Global,
        pass: &mut Pass<N>,
        command: Command,
        spare: Option<P>,
    ) -> Answer<P>
        requires room { length self.old.history < self.old.capacity }
        requires whole { pass.old.list ≡ entries_of self.old.history pass.old.caller }
        requires begins { IsPrefix pass.old.known self.old.history }
        ensures ok { IfOk result.outcome (λ r. Entered N.origin self.old pass.old command self.new pass.new r.position r.entry) }
        ensures clock { IfOk result.outcome (λ r. r.clock ≡ self.old.state.clock) }
        ensures served { IfOk result.outcome (λ r. HasWaysForAll N.origin.site N.origin.opening → r.entry.reply ≢ Answered.Refused Reason.NoPath) }
        ensures tells { IfOk result.outcome (λ r. TellsFor P.fits_map P.slot_count N.origin.site.grid spare r.entry.event) }
        ensures shown { IfOk result.outcome (λ r. IsTrue r.shown ↔ IsSome r.told) }
        ensures told { IfOk result.outcome (λ r. IfSome r.told (λ t. (t.book ≡ N.book) × (t.past ≡ record { origin = N.origin; history = self.new.history }) × (self.new.shown ≡ self.new.history))) }
        ensures lags { IfOk result.outcome (λ r. IfNone r.told (self.new.shown ≡ self.old.shown)) }
        ensures err { OnErr result.outcome (TellsTheSame self.old self.new × (pass.new ≡ pass.old)) }
        ensures still { OnErr result.outcome (StaySeated command self.old.planners self.new.planners) }
        ensures fault { IfErr result.outcome (λ fault. (fault ≢ DeskFault.Stale) × (fault ≢ DeskFault.Full)) }
        ensures back { MatchResult result.outcome (λ r. HandsBack P.fits_map N.origin.site.grid (replaced_agent r.entry) spare result.back) (λ _. result.back ≡ spare) }
        ensures reseats { IfOk result.outcome (λ r. Reseats command (replaced_agent r.entry) self.old.planners spare self.new.planners result.back) }
    {
        let position = self.warehouse.history().len() as u64;
        let clock = self.warehouse.clock();
        let caller = pass.caller;
        let made = make_ready(
            &mut self.warehouse,
            &mut self.publisher,
            &mut self.cells,
            &mut self.notes,
            &mut pass.held,
            alloc,
            caller,
            command,
            spare,
        );
        let Made { ready, note } = match made {
            Ok(made) => made,
            Err((fault, back)) => return Answer::refused(fault, back),
        };
        note_down(
            &mut self.notes,
            &mut pass.held,
            position,
            ready.entry(),
            note,
        );
        pass.front = self.publisher.front().again();
        pass.last = position;
        pass.known = position + 1;
        self.rows[caller as usize] = Row {
            count: pass.held.len() as u64,
            last: position,
        };
        let _seated = self.warehouse.planners();
        let Committed { entry, back } = self.warehouse.commit(ready);
        let _run = self.warehouse.history();
        let told = self.publisher.publish(self.warehouse.book());
        Answer {
            outcome: Ok(Receipt {
                position,
                clock,
                entry,
                shown: told.is_some(),
                told,
            }),
            back,
        }
    }
}
