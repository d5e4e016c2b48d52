//! The front that is due where a log has come to its end.
#![tactic(auto)]

ghost use Rattle.std.specs.Prelude.{◌≡◌, ◌≤◌, IfOk, IfSome, length, option_map};
ghost use Rattle.std.specs.List.{AllByRecursion};
ghost use Rattle.wh_front.specs.Fronts.{Fits};
ghost use Rattle.wh_front.specs.Ranges.{SeatFits};
ghost use Rattle.wh_front.specs.declared.rules.Kind.TheVariants as kind;
ghost use Rattle.wh_handover.specs.Chains.{as_far_as, at_rest_as, due, match_with, matched};

use crate::stopped::{agent_after, first_visits};
use std::alloc::{AllocError, Global};
use wh_front::{Front, Kind, Rows, Seat, Submission};
use wh_path::TimedPath;

/// An agent with its slots, at rest where the other's path begins.
fn at_rest_as(alloc: Global, seat: &Seat, other: &Seat) -> Result<Seat, AllocError>
    requires some { 1 ≤ length other.now.path }
    ensures { IfOk result (λ at_rest. at_rest ≡ at_rest_as seat.now other.now) }
{
    let path = TimedPath::one(alloc, other.path.cells()[0])?;
    Ok(Seat {
        slots: seat.slots,
        path,
    })
}

/// An agent, at rest where the other's path begins, if there is one.
fn seat_due(alloc: Global, seat: &Seat, other: Option<&Seat>) -> Result<Seat, AllocError>
    requires some { IfSome other (λ other. 1 ≤ length other.now.path) }
    ensures { IfOk result (λ told. told ≡ match_with at_rest_as seat.now (option_map (λ other. other.now) other.entry)) }
{
    match other {
        Some(other) => at_rest_as(alloc, seat, other),
        None => {
            let path = seat.path.copy(alloc)?;
            Ok(Seat {
                slots: seat.slots,
                path,
            })
        }
    }
}

/// Each agent with its slots, at rest where the path begins of the other of its number, if there is one.
fn seats_at_rest(alloc: Global, seats: &[Seat], others: &[Seat]) -> Result<Rows<Seat>, AllocError>
    requires some { AllByRecursion SeatFits others.now }
    ensures { IfOk result (λ at_rest. at_rest ≡ matched at_rest_as seats.now others.now) }
{
    let mut at_rest = Rows::none(alloc);
    for (k, seat) in seats.iter().enumerate() {
        let due = seat_due(alloc, seat, others.get(k))?;
        at_rest.push(due)?;
    }
    Ok(at_rest)
}

/// A task with no more of its visits than the other has.
fn as_far_as(told: &Submission, other: &Submission) -> Submission
    ensures { result ≡ as_far_as told.now other.now }
{
    let seen = other.task.visits.as_slice().len();
    let most = told.task.visits.as_slice().len();
    let mut task = told.task.copy();
    task.agent = agent_after(seen, told.task.agent);
    task.visits = first_visits(&told.task.visits, seen.min(most));
    Submission {
        caller: told.caller,
        task,
    }
}

/// A task with no more of its visits than the other has, if there is one.
fn task_due(told: &Submission, other: Option<&Submission>) -> Submission
    ensures { result ≡ match_with as_far_as told.now (option_map (λ other. other.now) other.entry) }
{
    match other {
        Some(other) => as_far_as(told, other),
        None => Submission {
            caller: told.caller,
            task: told.task.copy(),
        },
    }
}

/// Each task with no more of its visits than the other of its number has, if there is one.
fn tasks_as_far(
    alloc: Global,
    tasks: &[Submission],
    others: &[Submission],
) -> Result<Rows<Submission>, AllocError>
    ensures { IfOk result (λ as_far. as_far ≡ matched as_far_as tasks.now others.now) }
{
    let mut as_far = Rows::none(alloc);
    for (k, told) in tasks.iter().enumerate() {
        as_far.push(task_due(told, others.get(k)))?;
    }
    Ok(as_far)
}

/// What the front `whole` tells, stopped as this one tells it.
fn stopped_as(alloc: Global, whole: Front, front: &Front) -> Result<Front, AllocError>
    requires fits { Fits front.now }
    requires kind { front.now.kind ≡ kind.Stopped }
    ensures { IfOk result (λ stopped. stopped ≡ due whole front.now) }
{
    let seats = seats_at_rest(alloc, whole.seats.as_slice(), front.seats.as_slice())?;
    let tasks = tasks_as_far(alloc, whole.tasks.as_slice(), front.tasks.as_slice())?;
    let Front {
        before,
        rules,
        clock,
        closed,
        counts,
        ..
    } = whole;
    Ok(Front {
        before,
        rules,
        clock,
        closed,
        kind: Kind::Stopped,
        counts,
        seats,
        tasks,
    })
}

/// What this front tells, with the log before and the counts of the front `whole`.
fn edited_as(whole: Front, front: Front) -> Front
    requires kind { front.kind ≡ kind.Edited }
    ensures { result ≡ due whole front }
{
    let Front { before, counts, .. } = whole;
    let Front {
        rules,
        clock,
        closed,
        kind,
        seats,
        tasks,
        ..
    } = front;
    Front {
        before,
        rules,
        clock,
        closed,
        kind,
        counts,
        seats,
        tasks,
    }
}

/// The front that is due where a log has come to what the front `whole` tells, and the next begins with this one.
pub(crate) fn due(alloc: Global, whole: Front, front: Front) -> Result<Front, AllocError>
    requires fits { Fits front }
    ensures { IfOk result (λ told. told ≡ due whole front) }
{
    match front.kind {
        Kind::Whole => {
            drop(front);
            Ok(whole)
        }
        Kind::Stopped => {
            let stopped = stopped_as(alloc, whole, &front);
            drop(front);
            stopped
        }
        Kind::Edited => Ok(edited_as(whole, front)),
    }
}
