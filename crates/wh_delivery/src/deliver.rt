//! Agents ask, the nearest order first, and the clock ticks until all stands still.

ghost use Rattle.std.specs.Prelude.{◌≡◌, ◌≢◌, ℕ, ◌+◌, ◌*◌, ◌<◌, ◌≤◌, ◌⊎◌, ◌↔◌, List, [], ◌∷◌, ◌++◌, false, length, replicate, All, IfOk, IfErr, IsTrue, MatchResult};
ghost use Rattle.wh_path.specs.Paths.{steps_left};
ghost use Rattle.wh_tasks.specs.declared.task.Task.{Task as Job};
ghost use Rattle.wh_tasks.specs.declared.task.Phase.{Phase as Stage};
ghost use Rattle.wh_tasks.specs.Tasks.{IsTask, IsOpen, phase};
ghost use Rattle.wh_core.specs.Steps.{last_clock};
ghost use Rattle.wh_core.specs.Laws.{AllOnTheirWays};
ghost use Rattle.wh_book.specs.Drafts.{HasWaysForAll};
ghost use Rattle.wh_event.specs.declared.event.Event.{Event as Asked};
ghost use Rattle.wh_event.specs.declared.entry.Entry.{Entry as Line};
ghost use Rattle.wh_progress.specs.Progress.{span, open_tasks, left_to_do, first_paths_left, HaveAtMost, AreOfTwoPlaces, StandsStill, IsHeld, AllDone};
ghost use Rattle.wh_progress.specs.Laws.{NoneCanStand};
ghost use Rattle.wh_event.specs.declared.reply.Reply.{Reply as Answer};
ghost use Rattle.wh_delivery.specs.Turns.{IsRoundSoFar, RunInTurn, no_path};
ghost use Rattle.wh_delivery.specs.Deliveries.{AllHaveAsked, AreInVain, Begins, GoesOn, IsOneLater, IsOneTick, IsWhy};

use crate::broken_off::BrokenOff;
use std::alloc::{AllocError, Global};
use wh_core::LAST_CLOCK;
use wh_event::{Command, Refusal, Reply};
use wh_planner::Plans;
use wh_token::Warehouse;

/// Whether it is a refusal for lack of a path.
fn lacks_path(reply: &Reply) -> bool
    ensures { IsTrue result ↔ (reply.now ≡ no_path) }
{
    matches!(reply, Reply::Refused(Refusal::NoPath))
}

/// The agent asks: whether it was refused for lack of a path.
fn ask<P: Plans>(
    alloc: Global,
    warehouse: &mut Warehouse<P>,
    caller: u32,
    agent: u32,
) -> Result<bool, AllocError>
    ensures asked { IfOk result (λ lacks. (entry : Line) × GoesOn caller warehouse.old.book (entry ∷ []) warehouse.new.book × (entry.event ≡ Asked.Request agent)
        × (IsTrue lacks ↔ (entry.reply ≡ no_path))) }
    ensures starved { IfErr result (λ _. GoesOn caller warehouse.old.book [] warehouse.new.book) }
{
    match warehouse.step(alloc, caller, Command::Token { agent }, None) {
        Ok(done) => Ok(lacks_path(&done.entry.reply)),
        Err(_) => Err(AllocError),
    }
}

/// Nobody of so many agents has asked.
fn nobody(alloc: Global, agents: u32) -> Result<Vec<bool>, AllocError>
    ensures { IfOk result (λ asked. asked.items ≡ replicate agents false) }
{
    vec![in alloc; false; agents as usize]
}

/// What came of the requests of a round.
#[derive(Clone, Copy)]
pub(crate) struct Requests {
    /// Whether any agent asked.
    pub(crate) some: bool,
    /// Whether all that asked were refused for lack of a path.
    pub(crate) in_vain: bool,
}

/// Agents ask, one after another as `next_to_ask` names them, each at most once, until none is left to ask.
fn ask_all<P: Plans>(
    alloc: Global,
    warehouse: &mut Warehouse<P>,
    caller: u32,
) -> Result<Requests, AllocError>
    ensures asked { (added : List Line) × GoesOn caller warehouse.old.book added warehouse.new.book
        × IsRoundSoFar warehouse.old.book.site warehouse.old.book.state added warehouse.new.book.state
        × IfOk result (λ came. AllHaveAsked warehouse.old.book.site warehouse.old.book.state came.some added warehouse.new.book.state
        × (IsTrue came.in_vain → AreInVain warehouse.old.book.site warehouse.old.book.state added warehouse.new.book.state)
        × (came.in_vain ≡ false → ¬ All (λ entry. entry.reply ≡ no_path) added)) }
{
    let mut asked = nobody(alloc, warehouse.agents())?;
    let mut some = false;
    let mut in_vain = true;
    while let Some(agent) = warehouse.next_to_ask(asked.as_slice()) {
        let lacks = ask(alloc, warehouse, caller, agent)?;
        asked[agent as usize] = true;
        some = true;
        in_vain &= lacks;
    }
    Ok(Requests { some, in_vain })
}

/// Whether all agents stand.
fn all_stand<P: Plans>(warehouse: &Warehouse<P>) -> bool
    ensures { IsTrue result ↔ ((agent : ℕ) → agent < length warehouse.now.book.state.paths → steps_left warehouse.now.book.state.paths agent ≡ 0) }
{
    for agent in 0..warehouse.agents() {
        if warehouse.remaining(agent) != 0 {
            return false;
        }
    }
    true
}

/// A round begins, in which all ask that are to be asked: whether all stands still. It is broken off where all stand and ask in vain.
fn begin<P: Plans>(
    alloc: Global,
    warehouse: &mut Warehouse<P>,
    caller: u32,
) -> Result<bool, BrokenOff>
    requires not_closed { warehouse.old.book.state.closed ≡ false }
    ensures asked { (added : List Line) × GoesOn caller warehouse.old.book added warehouse.new.book
        × IsRoundSoFar warehouse.old.book.site warehouse.old.book.state added warehouse.new.book.state
        × IfOk result (λ still. Begins warehouse.old.book.site warehouse.old.book.state still added warehouse.new.book.state) }
    ensures fault { IfErr result (λ fault. (fault ≡ BrokenOff.NoMemory) ⊎ (fault ≡ BrokenOff.Stuck)) }
    ensures why { IfErr result (λ fault. IsWhy warehouse.new.book.site fault warehouse.new.book.state) }
    ensures formed { IfErr result (λ fault. fault ≡ BrokenOff.Stuck → ¬ HasWaysForAll warehouse.old.book.site warehouse.old.book.opening) }
{
    let Requests { some, in_vain } = match ask_all(alloc, warehouse, caller) {
        Ok(came) => came,
        Err(AllocError) => return Err(BrokenOff::NoMemory),
    };
    let stand = all_stand(warehouse);
    if some {
        if in_vain && stand {
            return Err(BrokenOff::Stuck);
        }
        return Ok(false);
    }
    Ok(stand)
}

/// The clock ticks.
fn tick<P: Plans>(alloc: Global, warehouse: &mut Warehouse<P>, caller: u32) -> Result<(), BrokenOff>
    ensures ticked { (added : List Line) × GoesOn caller warehouse.old.book added warehouse.new.book
        × MatchResult result (λ _. IsOneTick added × IsOneLater warehouse.old.book.state warehouse.new.book.state) (λ _. added ≡ []) }
    ensures same { IfErr result (λ _. warehouse.new.book.state ≡ warehouse.old.book.state) }
    ensures why { IfErr result (λ fault. IsWhy warehouse.new.book.site fault warehouse.new.book.state) }
    ensures moving { IfErr result (λ fault. fault ≢ BrokenOff.Stuck) }
{
    if warehouse.closed() {
        return Err(BrokenOff::Closed);
    }
    if warehouse.clock() >= LAST_CLOCK {
        return Err(BrokenOff::ClockFull);
    }
    match warehouse.step(alloc, caller, Command::Tick, None) {
        Ok(_) => Ok(()),
        Err(_) => Err(BrokenOff::NoMemory),
    }
}

/// Has all delivered that can be, one round after another. In a round agents ask, each at most once, as `next_to_ask` names them: who is
/// nearest to the order that it would take asks first. Then the clock ticks. It ends where nobody is left to ask as a round begins, and all
/// stand. It returns how many ticks that took, 0 where nothing was left. The history has grown by these requests and ticks, each with the
/// number of the caller.
///
/// All stands still then. What follows holds where all agents were on their ways as the history began, as where they stood at their
/// starts; after a stop where they may stand anywhere it is not said. Where paths end at the last stop each task is done, or it is open and two agents are at two of its stops, neither
/// at its last; where each task has its stops at two cells at most, as with two stops or from a shelf to a station and back, all are done.
/// Where paths go on home to parkings all are done, whatever their stops are, and each agent is at home. (All of this needs an agent.)
///
/// On a well-formed instance it takes at most as many ticks as rounds are left to do. Where paths end at the last stop that is at most two
/// spans for each agent and each open task, and the steps that are left of the paths with which the history began: none, where the agents
/// stood at their starts then. A span is one more than a pass over all passable cells for each stop of the task that has the
/// most: with two stops on 1,000 cells 2,001 ticks. That is a guarantee, whatever paths the planners find, and no estimate.
///
/// # Errors
///
/// In each case all that was done until then stays done, and is in the history.
///
/// - `BrokenOff::NoMemory`: memory ran out at a request or a tick, or for the list of who has asked. The call may be repeated, and goes on
///   from there.
/// - `BrokenOff::Closed`: the warehouse is closed; nobody asked.
/// - `BrokenOff::ClockFull`: the clock is at its last, 1,000,000,000, and somebody asked or moves. On a well-formed instance
///   this comes only where the clock had fewer ticks left than the bound, or just as many.
/// - `BrokenOff::Stuck`: all stand, and each agent that asked was refused for lack of a path, so that no tick would change anything. On a
///   well-formed instance it never comes.
pub fn deliver_all<P: Plans>(
    alloc: Global,
    warehouse: &mut Warehouse<P>,
    caller: u32,
) -> Result<u32, BrokenOff>
    ensures goes { (added : List Line) × GoesOn caller warehouse.old.book added warehouse.new.book }
    ensures in_turn { (added : List Line) × (warehouse.new.book.history ≡ warehouse.old.book.history ++ added) × RunInTurn warehouse.old.book.site warehouse.old.book.state [] added warehouse.new.book.state }
    ensures clock { IfOk result (λ ticks. warehouse.new.book.state.clock ≡ warehouse.old.book.state.clock + ticks) }
    ensures still { IfOk result (λ _. StandsStill warehouse.new.book.site warehouse.new.book.state) }
    ensures held { IfOk result (λ _. AllOnTheirWays warehouse.old.book.site warehouse.old.book.opening → warehouse.old.book.site.homes ≡ false → 0 < length warehouse.old.book.site.layout.agents → (n : ℕ) (job : Job) → IsTask warehouse.new.book.state.tasks n job
        → (phase job ≡ Stage.Done) ⊎ (IsOpen job × IsHeld warehouse.new.book.state job)) }
    ensures all_done { IfOk result (λ _. AllOnTheirWays warehouse.old.book.site warehouse.old.book.opening → 0 < length warehouse.old.book.site.layout.agents → NoneCanStand warehouse.old.book.site warehouse.old.book.state → AllDone warehouse.new.book.state) }
    ensures done { IfOk result (λ _. AllOnTheirWays warehouse.old.book.site warehouse.old.book.opening → warehouse.old.book.site.homes ≡ false → 0 < length warehouse.old.book.site.layout.agents → AreOfTwoPlaces warehouse.old.book.state → AllDone warehouse.new.book.state) }
    ensures within { IfOk result (λ ticks. (stops : ℕ) → HasWaysForAll warehouse.old.book.site warehouse.old.book.opening → HaveAtMost stops warehouse.old.book.state
        → ticks ≤ left_to_do warehouse.old.book.site stops warehouse.old.book.state) }
    ensures bounded { IfOk result (λ ticks. warehouse.old.book.site.homes ≡ false → (stops : ℕ) → HasWaysForAll warehouse.old.book.site warehouse.old.book.opening → HaveAtMost stops warehouse.old.book.state
        → ticks ≤ 2 * span warehouse.old.book.site stops * (length warehouse.old.book.site.layout.agents + open_tasks warehouse.old.book.state)
        + first_paths_left warehouse.old.book.opening warehouse.old.book.state) }
    ensures why { IfErr result (λ fault. IsWhy warehouse.new.book.site fault warehouse.new.book.state) }
    ensures formed { IfErr result (λ fault. fault ≡ BrokenOff.Stuck → ¬ HasWaysForAll warehouse.old.book.site warehouse.old.book.opening) }
    ensures late_within { IfErr result (λ fault. fault ≡ BrokenOff.ClockFull → (stops : ℕ) → HasWaysForAll warehouse.old.book.site warehouse.old.book.opening → HaveAtMost stops warehouse.old.book.state
        → last_clock ≤ warehouse.old.book.state.clock + left_to_do warehouse.old.book.site stops warehouse.old.book.state) }
    ensures late { IfErr result (λ fault. fault ≡ BrokenOff.ClockFull → warehouse.old.book.site.homes ≡ false → (stops : ℕ) → HasWaysForAll warehouse.old.book.site warehouse.old.book.opening → HaveAtMost stops warehouse.old.book.state
        → last_clock ≤ warehouse.old.book.state.clock + 2 * span warehouse.old.book.site stops * (length warehouse.old.book.site.layout.agents + open_tasks warehouse.old.book.state)
        + first_paths_left warehouse.old.book.opening warehouse.old.book.state) }
{
    // Called for what its contract says: the history is a run from where the book began.
    let _run = warehouse.history();
    for ticks in 0..LAST_CLOCK {
        if warehouse.closed() {
            return Err(BrokenOff::Closed);
        }
        match begin(alloc, warehouse, caller) {
            Ok(true) => return Ok(ticks),
            Ok(false) => {}
            Err(fault) => return Err(fault),
        }
        match tick(alloc, warehouse, caller) {
            Ok(()) => {}
            Err(fault) => return Err(fault),
        }
    }
    Err(BrokenOff::ClockFull)
}
