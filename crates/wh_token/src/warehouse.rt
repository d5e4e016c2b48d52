//! The warehouse: events are prepared and committed, or run at once.
#![tactic(auto)]

ghost use Rattle.std.specs.Prelude.{◌≡◌, ◌≢◌, ◌+◌, ◌-◌, ◌<◌, ◌≤◌, ◌↔◌, List, [], ◌∷◌, ◌++◌, Option, Some, true, false, length, IfOk, IfErr, IsTrue, MatchBool, MatchResult};
ghost use Rattle.wh_event.specs.declared.event.Event.{Event as Asked};
ghost use Rattle.wh_event.specs.declared.reply.Reply.{Reply as Answer};
ghost use Rattle.wh_event.specs.declared.reply.Refusal.{Refusal as Reason};
ghost use Rattle.wh_event.specs.declared.entry.Entry.{Entry as Line};
ghost use Rattle.wh_event.specs.declared.event.Spare.{Spare as Told};
ghost use Rattle.wh_event.specs.declared.event.Command.{Command as Asks};
ghost use Rattle.wh_core.specs.States.{arrived, moved};
ghost use Rattle.wh_core.specs.Steps.{Answers, Step, Run, IsDue, last_clock};
ghost use Rattle.wh_shared.specs.Shares.{stored_grid};
ghost use Rattle.wh_book.specs.Drafts.{IsSame, IsReady, StaysReady, Drafts, AllServed, HasWaysForAll, ticked};
ghost use Rattle.wh_token.specs.Commands.{event_of};
ghost use Rattle.wh_token.specs.Fleet.{TellsFor, Swaps, IsSeated, StaySeated, replaced_agent};
ghost use Rattle.wh_token.specs.Houses.{StaysAt};
ghost use Rattle.wh_token.specs.Runs.{RunsOne, Ran as RanBy, WantsSpare, entries_of};

use crate::command::{event_of, replaced};
use crate::ready::{Committed, NoMemory, Ran, Ready};
use std::alloc::{AllocError, Global};
use std::marker::Model;
use std::mem;
use wh_book::{Book, Draft};
use wh_core::LAST_CLOCK;
use wh_event::{Command, Entry, Event, Refusal, Reply, Spare};
use wh_field::LazyField;
use wh_planner::{Planner, Plans};
use wh_shared::SharedFields;

/// The book and the agents' planners: one for each agent, which plans on the book's grid and has the slots that the state
/// tells.
///
/// By its setting a path ends at the last stop of its order, or goes on home. Where paths go on home each agent has a home:
/// the parking where it starts. The path of an order goes through its stops and on home. As soon as the last stop is visited
/// the agent may be given the next order, wherever it is; the new path begins where it is and replaces the rest. With no order
/// it goes home and stays there. So no station is held longer than the visit takes. (Liu, Ma, Li, Koenig, *Task and Path
/// Planning for Multi-Agent Pickup and Delivery*, AAMAS 2019: "reserving paths to a parking".)
#[derive(Drop)]
pub struct Warehouse<P: Plans = Box<dyn Planner>> {
    pub(crate) book: Book,
    pub(crate) planners: Vec<P>,
    pub(crate) near: LazyField,
    /// The distance fields that are lent to the planners.
    pub(crate) fields: SharedFields,
}

impl<P: Plans> Model for Warehouse<P> {
    ghost use Rattle.std.specs.Prelude.{length};
    ghost use Rattle.wh_shared.specs.Shares.{stored_grid};
    ghost use Rattle.wh_token.specs.Houses.{House, IsFurnished};

    ghost Value = { House P };

    ghost view = { λ w. record { book = w.book; planners = w.planners.items } };

    ghost invariant = { λ w. IsFurnished P.fits_map P.slot_count w.book w.planners.items w.near (stored_grid w.fields) };
}

impl<P: Plans> Warehouse<P> {
    /// The draft of a command. It makes every growth that the commit needs.
    #[tactic(auto, using(crate::proofs::Seats::seated_same, crate::proofs::Seats::seated_token))]
    fn draft(
        &mut self,
        alloc: Global,
        caller: u32,
        command: Command,
        told: Spare,
    ) -> Result<Draft, AllocError>
        ensures same { IsSame self.old.book self.new.book }
        ensures entry_room { self.old.book.entry_room ≤ self.new.book.entry_room }
        ensures task_room { self.old.book.task_room ≤ self.new.book.task_room }
        ensures drafts { IfOk result (Drafts self.new.book caller (event_of command told)) }
        ensures still { StaySeated command self.old.planners self.new.planners }
    {
        self.book.reserve_entry()?;
        if self.book.closed() {
            let event = event_of(alloc, command, told)?;
            return Ok(self.book.refuse(caller, event, Refusal::Closed));
        }
        match command {
            Command::Submit { client, stops } => self
                .book
                .draft_submit(alloc, caller, client, stops),
            Command::Token { agent } => self.draft_request(alloc, caller, agent),
            Command::Tick => Ok(self.book.draft_tick(caller)),
            Command::Replace { agent } => Ok(self.book.draft_replace(caller, agent, told)),
            Command::Close => Ok(self.book.draft_close(caller)),
        }
    }

    /// The same, with a copy of its entry for the caller.
    #[tactic(auto, using(crate::proofs::Readied::stays_ready))]
    fn draft_and_copy(
        &mut self,
        alloc: Global,
        caller: u32,
        command: Command,
        told: Spare,
    ) -> Result<(Draft, Entry), AllocError>
        ensures same { IsSame self.old.book self.new.book }
        ensures stays { StaysReady self.old.book self.new.book }
        ensures drafts { IfOk result (λ both. Drafts self.new.book caller (event_of command told) both.0) }
        ensures told { IfOk result (λ both. both.1 ≡ both.0.entry) }
        ensures still { StaySeated command self.old.planners self.new.planners }
    {
        let draft = self.draft(alloc, caller, command, told)?;
        let told = draft.entry.copy(alloc)?;
        Ok((draft, told))
    }

    /// Plans and does every allocation; the state and the history stay. What was prepared before, and neither committed nor
    /// withdrawn, may still be committed.
    pub fn prepare(
        &mut self,
        alloc: Global,
        caller: u32,
        command: Command,
        spare: Option<P>,
    ) -> Result<Ready<P>, (NoMemory, Option<P>)>
        ensures same { IsSame self.old.book self.new.book }
        ensures stays { StaysReady self.old.book self.new.book }
        ensures ready { IfOk result (λ ready. IsReady self.new.book ready.draft) }
        ensures caller { IfOk result (λ ready. ready.draft.entry.caller ≡ caller) }
        ensures event { IfOk result (λ ready. ((told : Told) × (ready.draft.entry.event ≡ event_of command told))) }
        ensures tells { IfOk result (λ ready. TellsFor P.fits_map P.slot_count self.old.book.site.grid spare ready.draft.entry.event) }
        ensures spare { MatchResult result (λ ready. ready.spare ≡ spare) (λ fault. fault.1 ≡ spare) }
        ensures still { StaySeated command self.old.planners self.new.planners }
    {
        let told = self.tell(&spare);
        match self.draft_and_copy(alloc, caller, command, told) {
            Ok((draft, told)) => Ok(Ready { draft, told, spare }),
            Err(AllocError) => Err((NoMemory, spare)),
        }
    }

    /// Commits what was prepared. It takes no memory and always succeeds.
    pub fn commit(&mut self, ready: Ready<P>) -> Committed<P>
        requires ready { IsReady self.old.book ready.draft }
        requires tells { TellsFor P.fits_map P.slot_count self.old.book.site.grid ready.spare ready.draft.entry.event }
        ensures entry { result.entry ≡ ready.draft.entry }
        ensures stays { StaysAt self.old.book self.new.book }
        ensures history { self.new.book.history ≡ self.old.book.history ++ result.entry ∷ [] }
        ensures step { Step self.old.book.site self.old.book.state result.entry self.new.book.state }
        ensures served { HasWaysForAll self.old.book.site self.old.book.opening → result.entry.reply ≢ Answer.Refused Reason.NoPath }
        ensures seats { length self.old.planners ≡ length self.old.book.state.paths }
        ensures swaps { Swaps (replaced_agent result.entry) self.old.planners ready.spare self.new.planners result.back }
    {
        let Ready { draft, told, spare } = ready;
        let back = self.commit_draft(draft, spare);
        Committed { entry: told, back }
    }

    /// Commits a draft, for which this planner was handed in, and returns the planner that is left over.
    fn commit_draft(&mut self, draft: Draft, spare: Option<P>) -> Option<P>
        requires ready { IsReady self.old.book draft }
        requires tells { TellsFor P.fits_map P.slot_count self.old.book.site.grid spare draft.entry.event }
        ensures stays { StaysAt self.old.book self.new.book }
        ensures history { self.new.book.history ≡ self.old.book.history ++ draft.entry ∷ [] }
        ensures step { Step self.old.book.site self.old.book.state draft.entry self.new.book.state }
        ensures served { HasWaysForAll self.old.book.site self.old.book.opening → draft.entry.reply ≢ Answer.Refused Reason.NoPath }
        ensures seats { length self.old.planners ≡ length self.old.book.state.paths }
        ensures swaps { Swaps (replaced_agent draft.entry) self.old.planners spare self.new.planners result }
    {
        let agent = replaced(&draft.entry);
        self.book.commit(draft);
        swap(&mut self.planners, agent, spare)
    }

    /// Prepares and commits at once.
    pub fn step(
        &mut self,
        alloc: Global,
        caller: u32,
        command: Command,
        spare: Option<P>,
    ) -> Result<Committed<P>, (NoMemory, Option<P>)>
        ensures stays { StaysAt self.old.book self.new.book }
        ensures history { MatchResult result (λ done. self.new.book.history ≡ self.old.book.history ++ done.entry ∷ []) (λ _. self.new.book.history ≡ self.old.book.history) }
        ensures step { MatchResult result (λ done. Step self.old.book.site self.old.book.state done.entry self.new.book.state) (λ _. self.new.book.state ≡ self.old.book.state) }
        ensures served { IfOk result (λ done. HasWaysForAll self.old.book.site self.old.book.opening → done.entry.reply ≢ Answer.Refused Reason.NoPath) }
        ensures caller { IfOk result (λ done. done.entry.caller ≡ caller) }
        ensures event { IfOk result (λ done. ((told : Told) × (done.entry.event ≡ event_of command told))) }
        ensures tells { IfOk result (λ done. TellsFor P.fits_map P.slot_count self.old.book.site.grid spare done.entry.event) }
        ensures spare { IfErr result (λ fault. fault.1 ≡ spare) }
        ensures swaps { IfOk result (λ done. ((mid : List P) × StaySeated command self.old.planners mid × Swaps (replaced_agent done.entry) mid spare self.new.planners done.back)) }
        ensures still { IfErr result (λ _. StaySeated command self.old.planners self.new.planners) }
    {
        match self.prepare(alloc, caller, command, spare) {
            Ok(ready) => Ok(self.commit(ready)),
            Err(fault) => Err(fault),
        }
    }

    /// Whether the command is a Replace of a known agent, while open.
    fn wants_spare(&self, command: &Command) -> bool
        ensures { IsTrue result ↔ WantsSpare self.now.book.state command.now }
    {
        match command {
            Command::Replace { agent } => !self.book.closed()
                && (*agent as usize) < self.book.paths().len(),
            _ => false,
        }
    }

    /// Answers a request at once, by a reply that changes nothing: whether there was memory for the entry.
    #[inline(always)]
    fn add_answer(&mut self, caller: u32, agent: u32, reply: Reply) -> bool
        requires answers { Answers self.old.book.site self.old.book.state reply (Asked.Request agent) self.old.book.state }
        ensures stays { StaysAt self.old.book self.new.book }
        ensures step { MatchBool result (Step self.old.book.site self.old.book.state (record { caller = caller; event = Asked.Request agent; reply = reply }) self.old.book.state) (self.new.book.state ≡ self.old.book.state) }
        ensures state { self.new.book.state ≡ self.old.book.state }
        ensures history { MatchBool result (self.new.book.history ≡ self.old.book.history ++ record { caller = caller; event = Asked.Request agent; reply = reply } ∷ []) (self.new.book.history ≡ self.old.book.history) }
        ensures planners { self.new.planners ≡ self.old.planners }
    {
        if self.book.reserve_entry().is_err() {
            return false;
        }
        self.book
            .add_answer(caller, Event::Request { agent }, reply);
        true
    }

    /// Whether a tick is no refusal.
    fn may_tick(&self) -> bool
        ensures { IsTrue result → (self.now.book.state.closed ≡ false) × (self.now.book.state.clock < last_clock) }
    {
        !self.book.closed() && self.book.clock() < LAST_CLOCK
    }

    /// One step of time at once: whether there was memory for the entry.
    #[inline(never)]
    fn add_tick(&mut self, caller: u32) -> bool
        requires not_closed { self.old.book.state.closed ≡ false }
        requires early { self.old.book.state.clock < last_clock }
        ensures stays { StaysAt self.old.book self.new.book }
        ensures state { MatchBool result (self.new.book.state ≡ arrived (moved self.old.book.state)) (self.new.book.state ≡ self.old.book.state) }
        ensures slots { self.new.book.state.slots ≡ self.old.book.state.slots }
        ensures history { MatchBool result (self.new.book.history ≡ self.old.book.history ++ record { caller = caller; event = Asked.Tick; reply = ticked self.old.book.state } ∷ []) (self.new.book.history ≡ self.old.book.history) }
        ensures planners { self.new.planners ≡ self.old.planners }
    {
        if self.book.reserve_entry().is_err() {
            return false;
        }
        self.book.tick(caller);
        true
    }

    /// Answers a request by a due agent, which may have a task or may have to make way: whether there was memory for it.
    #[inline(never)]
    fn add_choice(&mut self, alloc: Global, caller: u32, agent: u32) -> bool
        requires due { IsDue self.old.book.site self.old.book.state agent }
        ensures runs { (spares : List P) → RunsOne P.fits_map P.slot_count caller (Asks.Token agent) result self.old.book spares self.new.book spares }
    {
        if self.book.reserve_entry().is_err() {
            return false;
        }
        match self.draft_choice(alloc, caller, agent) {
            Ok(draft) => {
                let _none = self.commit_draft(draft, None);
                true
            }
            Err(AllocError) => false,
        }
    }

    /// Runs a command, and a Replace of a known agent takes the last spare: whether it added an entry. With none it was
    /// refused, out of memory, and the spare goes back to its place.
    // Nearly all events are requests that are answered at once: these are answered in the caller, with no call, and what the
    // others run stands apart.
    #[inline(always)]
    pub fn run_event(
        &mut self,
        alloc: Global,
        caller: u32,
        command: &Command,
        spares: &mut Vec<P>,
    ) -> bool
        ensures runs { RunsOne P.fits_map P.slot_count caller command.now result self.old.book spares.old.items self.new.book spares.new.items }
    {
        match command {
            Command::Token { agent } => match self.answer_at_once(*agent) {
                Some(reply) => self.add_answer(caller, *agent, reply),
                None => self.add_choice(alloc, caller, *agent),
            },
            Command::Tick if self.may_tick() => self.add_tick(caller),
            _ => self.run_step(alloc, caller, command, spares),
        }
    }

    /// Runs a command by a draft. It stays a function of its own, since a command has room for nine names, and where none is
    /// copied it is not even cleared.
    #[inline(never)]
    fn run_step(
        &mut self,
        alloc: Global,
        caller: u32,
        command: &Command,
        spares: &mut Vec<P>,
    ) -> bool
        ensures runs { RunsOne P.fits_map P.slot_count caller command.now result self.old.book spares.old.items self.new.book spares.new.items }
    {
        let wants = self.wants_spare(command);
        let spare = if wants { spares.pop() } else { None };
        let told = self.tell(&spare);
        match self.draft(alloc, caller, command.copy(), told) {
            Ok(draft) => {
                drop(self.commit_draft(draft, spare));
                true
            }
            Err(AllocError) => {
                if let Some(planner) = spare {
                    spares.push_reserved(planner);
                }
                false
            }
        }
    }

    /// Runs the commands one after another.
    pub fn run_events(
        &mut self,
        alloc: Global,
        caller: u32,
        commands: &[Command],
        spares: &mut Vec<P>,
    ) -> Ran
        ensures stays { StaysAt self.old.book self.new.book }
        ensures count { result.entries + result.starved ≡ length commands.now }
        ensures ran { ((outcomes : List (Option Line)) × (self.new.book.history ≡ self.old.book.history ++ entries_of outcomes)
            × (length (entries_of outcomes) ≡ result.entries)
            × RanBy P.fits_map P.slot_count self.old.book.site caller commands.now outcomes self.old.book.state spares.old.items self.new.book.state spares.new.items) }
        ensures run { ((added : List Line) × (self.new.book.history ≡ self.old.book.history ++ added)
            × (length added ≡ result.entries) × Run self.old.book.site self.old.book.state added self.new.book.state
            × (HasWaysForAll self.old.book.site self.old.book.opening → AllServed added)) }
    {
        let _before = self.book.history();
        let mut entries = 0u64;
        let mut starved = 0u64;
        for command in commands {
            let added = self.run_event(alloc, caller, command, spares);
            if added {
                entries += 1;
            } else {
                starved += 1;
            }
        }
        Ran { entries, starved }
    }
}

/// Puts the spare in the agent's place, and returns the box that is left over.
fn swap<P>(planners: &mut Vec<P>, replaced: Option<u32>, spare: Option<P>) -> Option<P>
    requires { IsSeated replaced planners.old.items }
    ensures swaps { Swaps replaced planners.old.items spare planners.new.items result }
    ensures len { length planners.new.items ≡ length planners.old.items }
{
    match (replaced, spare) {
        (Some(agent), Some(planner)) => {
            let seat = &mut planners[agent as usize];
            Some(mem::replace(seat, planner))
        }
        (_, spare) => spare,
    }
}
