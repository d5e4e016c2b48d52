//! When each refusal may be given.
#![tactic(auto)]

ghost use Rattle.std.specs.Prelude.{◌≡◌, ◌↔◌, false, IsTrue, IfOk};
ghost use Rattle.wh_core.specs.Steps.{Refuses};
ghost use Rattle.wh_core.specs.Laws.{AllOnTheirWays};
ghost use Rattle.wh_judge.specs.Judged.{IsReachable};

use crate::agents::{is_known, is_moving, is_stranger};
use crate::instance::Instance;
use crate::requests::has_no_path;
use crate::submitting::{has_parking, has_unknown, is_full};
use std::alloc::{AllocError, Global};
use wh_book::FleetState;
use wh_core::LAST_CLOCK;
use wh_event::{Event, Refusal, Spare};
use wh_field::LazyField;

/// Whether the refusal may be given to the event: each arm is a line of the definition. Only a refusal for lack of a path
/// takes memory.
pub fn refuses(
    alloc: Global,
    instance: &Instance,
    strays: bool,
    floor: &FleetState,
    near: &mut LazyField,
    refusal: &Refusal,
    event: &Event,
) -> Result<bool, AllocError>
    requires reached { IsReachable instance.now floor.now.state }
    requires ways { strays ≡ false → AllOnTheirWays instance.now floor.now.state }
    requires grid { near.old.grid ≡ instance.now.grid }
    ensures refuses { IfOk result (λ b. IsTrue b ↔ Refuses instance.now floor.now.state refusal.now event.now) }
    ensures grid { near.new.grid ≡ instance.now.grid }
{
    match (refusal, event) {
        (Refusal::Closed, _) => Ok(floor.closed()),
        (Refusal::UnknownPoint(name), Event::Submit { stops, .. }) => {
            Ok(has_unknown(instance, floor, stops.stops(), name))
        }
        (Refusal::NotStation(name), Event::Submit { stops, .. }) => {
            Ok(has_parking(instance, floor, stops.stops(), name))
        }
        (Refusal::TasksFull, Event::Submit { stops, .. }) => {
            Ok(is_full(instance, floor, stops.stops()))
        }
        (Refusal::UnknownAgent(told), Event::Request { agent }) => {
            Ok(is_stranger(floor, *agent) && *told == *agent)
        }
        (Refusal::Moving(left), Event::Request { agent }) => {
            Ok(is_moving(instance, floor, *agent, *left))
        }
        (Refusal::NoPath, Event::Request { agent }) => {
            has_no_path(alloc, instance, strays, floor, near, *agent)
        }
        (Refusal::ClockFull, Event::Tick) => { Ok(!floor.closed() && floor.clock() == LAST_CLOCK) }
        (Refusal::UnknownAgent(told), Event::Replace { agent, .. }) => {
            Ok(is_stranger(floor, *agent) && *told == *agent)
        }
        (
            Refusal::NoSpare,
            Event::Replace {
                agent,
                spare: Spare::None,
            },
        ) => { Ok(is_known(floor, *agent)) }
        (
            Refusal::ForeignPlanner,
            Event::Replace {
                agent,
                spare: Spare::Foreign,
            },
        ) => { Ok(is_known(floor, *agent)) }
        _ => Ok(false),
    }
}
