//! A front, as vehicles have left its agents and tasks.
#![tactic(auto)]

ghost use Rattle.std.specs.Prelude.{◌≡◌, ◌≤◌, [], ◌∷◌, IfOk, length, map, take};
ghost use Rattle.std.specs.List.{AllByRecursion};
ghost use Rattle.wh_core.specs.Stopping.{agent_after};
ghost use Rattle.wh_front.specs.Fronts.{Fits};
ghost use Rattle.wh_front.specs.Ranges.{SeatFits};
ghost use Rattle.wh_front.specs.declared.front.Seat.{Seat as Sits};
ghost use Rattle.wh_handover.specs.Stopped.{StopsFront, made_first, reached_by, stopped_submission, stopped_task};

use std::alloc::{AllocError, Global};
use wh_front::{Front, Kind, Rows, Seat, Submission};
use wh_grid::Cell;
use wh_path::TimedPath;
use wh_tasks::{Task, Visits};

/// How many of these visits, one after another, a vehicle has made by its step: steps count from the clock `first`.
fn made_first(visits: &[u32], first: u32, step: u64) -> usize
    ensures value { result ≡ made_first first step visits.now }
    ensures within { result ≤ length visits.now }
{
    for (k, clock) in visits.iter().enumerate() {
        if u64::from(clock.saturating_sub(first)) > step {
            return k;
        }
    }
    visits.len()
}

/// The step that the vehicle of an agent has reached.
fn reached_by(steps: &[u64], agent: Option<u32>) -> u64
    ensures { result ≡ reached_by steps.now agent }
{
    match agent {
        Some(agent) => steps.get(agent as usize).copied().unwrap_or(0),
        None => 0,
    }
}

/// The first so many of these visits.
pub(crate) fn first_visits(visits: &Visits, made: usize) -> Visits
    requires within { made ≤ length visits.now }
    ensures { result ≡ take made visits.now }
{
    let mut first = Visits::none();
    for clock in &visits.as_slice()[..made] {
        first.push(*clock);
    }
    first
}

/// The agent of a task of whose visits so many were made: none without one.
pub(crate) fn agent_after(made: usize, agent: Option<u32>) -> Option<u32>
    ensures { result ≡ agent_after made agent }
{
    if made == 0 { None } else { agent }
}

/// The task with those of its visits that its vehicle has made.
fn stopped_task(task: &Task, first: u32, steps: &[u64]) -> Task
    ensures { result ≡ stopped_task first steps.now task.now }
{
    let step = reached_by(steps, task.agent);
    let made = made_first(task.visits.as_slice(), first, step);
    let mut stopped = task.copy();
    stopped.agent = agent_after(made, task.agent);
    stopped.visits = first_visits(&task.visits, made);
    stopped
}

/// The same, and who submitted it.
fn stopped_submission(submission: &Submission, first: u32, steps: &[u64]) -> Submission
    ensures { result ≡ stopped_submission first steps.now submission.now }
{
    Submission {
        caller: submission.caller,
        task: stopped_task(&submission.task, first, steps),
    }
}

/// The tasks, each with those of its visits that its vehicle has made, and who submitted them.
fn stopped_tasks(
    alloc: Global,
    tasks: &[Submission],
    first: u32,
    steps: &[u64],
) -> Result<Rows<Submission>, AllocError>
    ensures { IfOk result (λ stopped. stopped ≡ map (stopped_submission first steps.now) tasks.now) }
{
    let mut stopped = Rows::none(alloc);
    for submission in tasks {
        stopped.push(stopped_submission(submission, first, steps))?;
    }
    Ok(stopped)
}

/// The agent with these slots, which rests at this cell.
fn seat_at(alloc: Global, slots: u32, place: Cell) -> Result<Seat, AllocError>
    ensures value { IfOk result (λ seat. seat ≡ record { slots = slots; path = place ∷ [] }) }
    ensures fits { IfOk result SeatFits }
{
    let path = TimedPath::one(alloc, place)?;
    Ok(Seat { slots, path })
}

/// The agents with their slots, each at rest where its vehicle stands.
fn stopped_seats(alloc: Global, seats: &[Seat], places: &[Cell]) -> Result<Rows<Seat>, AllocError>
    requires each { length places.now ≡ length seats.now }
    ensures slots { IfOk result (λ stopped. map (λ (seat : Sits). seat.slots) stopped ≡ map (λ (seat : Sits). seat.slots) seats.now) }
    ensures paths { IfOk result (λ stopped. map (λ (seat : Sits). seat.path) stopped ≡ map (λ cell. cell ∷ []) places.now) }
    ensures fit { IfOk result (AllByRecursion SeatFits) }
{
    let mut stopped = Rows::none(alloc);
    for (k, seat) in seats.iter().enumerate() {
        let at_rest = seat_at(alloc, seat.slots, places[k])?;
        stopped.push(at_rest)?;
    }
    Ok(stopped)
}

/// The front of the same run, stopped where its vehicles stand at these places and have reached these steps, which count from the clock
/// `first`.
pub(crate) fn stop_front(
    alloc: Global,
    whole: Front,
    first: u32,
    places: &[Cell],
    steps: &[u64],
) -> Result<Front, AllocError>
    requires each { length places.now ≡ length whole.seats }
    requires fits { Fits whole }
    ensures is { IfOk result (StopsFront first places.now steps.now whole) }
    ensures fits { IfOk result Fits }
{
    let seats = stopped_seats(alloc, whole.seats.as_slice(), places)?;
    let tasks = stopped_tasks(alloc, whole.tasks.as_slice(), first, steps)?;
    let Front {
        before,
        rules,
        clock,
        closed,
        counts,
        ..
    } = whole;
    Ok(Front {
        before,
        rules,
        clock,
        closed,
        kind: Kind::Stopped,
        counts,
        seats,
        tasks,
    })
}
