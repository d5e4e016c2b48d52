//! The answers to a submit.
#![tactic(auto)]

ghost use Rattle.std.specs.Prelude.{◌≡◌, ◌↔◌, false, IsTrue, IfOk, OnErr, All, length};
ghost use Rattle.wh_core.specs.Steps.{IsStationName, IsParkingName, IsUnknownName, IsFirstFault, most_tasks};
ghost use Rattle.wh_event.specs.declared.event.Event.TheVariants as events;
ghost use Rattle.wh_event.specs.declared.reply.Reply.TheVariants as replies;
ghost use Rattle.wh_judge.specs.Judged.{Decides};

use crate::instance::Instance;
use std::alloc::{AllocError, Global};
use wh_book::{Fault, FleetState, places_of};
use wh_core::MOST_TASKS;
use wh_event::Stops;
use wh_text::Name;

/// Whether the first stop that is no station has this name, which no point has.
pub fn has_unknown(instance: &Instance, floor: &FleetState, stops: &Stops, name: &Name) -> bool
    ensures { IsTrue result ↔ ((floor.now.state.closed ≡ false) × IsFirstFault instance.now.layout stops.now name.now × IsUnknownName instance.now.layout name.now) }
{
    let points = instance.points();
    if floor.closed() {
        return false;
    }
    match places_of(points, stops) {
        Ok(_) => false,
        Err(Fault::Unknown(k)) => stops.as_slice()[k].same(name),
        Err(Fault::Parking(_)) => false,
    }
}

/// Whether the first stop that is no station has this name, which is a parking's.
pub fn has_parking(instance: &Instance, floor: &FleetState, stops: &Stops, name: &Name) -> bool
    ensures { IsTrue result ↔ ((floor.now.state.closed ≡ false) × IsFirstFault instance.now.layout stops.now name.now × IsParkingName instance.now.layout name.now) }
{
    let points = instance.points();
    if floor.closed() {
        return false;
    }
    match places_of(points, stops) {
        Ok(_) => false,
        Err(Fault::Unknown(_)) => false,
        Err(Fault::Parking(k)) => stops.as_slice()[k].same(name),
    }
}

/// Whether the stops are stations and there is no room for one more task.
pub fn is_full(instance: &Instance, floor: &FleetState, stops: &Stops) -> bool
    ensures { IsTrue result ↔ ((floor.now.state.closed ≡ false) × All (IsStationName instance.now.layout) stops.now × (length floor.now.state.tasks ≡ most_tasks)) }
{
    let points = instance.points();
    if floor.closed() {
        return false;
    }
    if floor.tasks().len() != MOST_TASKS {
        return false;
    }
    match places_of(points, stops) {
        Ok(_) => true,
        Err(_) => false,
    }
}

/// Whether a submit may be accepted with the number; if so, it is.
pub fn accept(
    alloc: Global,
    instance: &Instance,
    floor: &mut FleetState,
    client: Name,
    stops: &Stops,
    task: u32,
) -> Result<bool, AllocError>
    ensures answer { IfOk result (Decides instance.now floor.old.state (replies.Accepted task) (events.Submit client stops.now) floor.new.state) }
    ensures kept { IfOk result (λ b. b ≡ false → floor.new.state ≡ floor.old.state) }
    ensures err { OnErr result (floor.new.state ≡ floor.old.state) }
{
    let points = instance.points();
    let _names = stops.as_slice();
    let count = floor.tasks().len();
    if floor.closed() || task != count || count >= MOST_TASKS {
        return Ok(false);
    }
    match places_of(points, stops) {
        Err(_) => Ok(false),
        Ok(cells) => {
            floor.reserve_task(alloc)?;
            floor.submit(client, cells);
            Ok(true)
        }
    }
}
