//! The answers to a tick, to a new planner and to the end.
#![tactic(auto)]

ghost use Rattle.std.specs.Prelude.{◌≡◌, false};
ghost use Rattle.wh_points.specs.Points.{Site};
ghost use Rattle.wh_event.specs.declared.event.Event.TheVariants as events;
ghost use Rattle.wh_event.specs.declared.reply.Reply.TheVariants as replies;
ghost use Rattle.wh_judge.specs.Judged.{Decides};

use crate::agents::is_known;
use wh_book::FleetState;
use wh_core::LAST_CLOCK;
use wh_event::Spare;

/// Whether the end may be made; if so, it is.
pub fn close(floor: &mut FleetState) -> bool
    ensures answer { (site : Site) → Decides site floor.old.state replies.Closed events.Close floor.new.state result }
    ensures kept { result ≡ false → floor.new.state ≡ floor.old.state }
{
    if floor.closed() {
        return false;
    }
    floor.shut();
    true
}

/// Whether a tick may be answered with this clock and these numbers of visits; if so, it is made.
pub fn tick(floor: &mut FleetState, now: u32, picked: u32, dropped: u32) -> bool
    ensures answer { (site : Site) → Decides site floor.old.state (replies.Clock now picked dropped) events.Tick floor.new.state result }
    ensures kept { result ≡ false → floor.new.state ≡ floor.old.state }
{
    if floor.closed() || floor.clock() >= LAST_CLOCK {
        return false;
    }
    if now != floor.clock() + 1 {
        return false;
    }
    let ahead = floor.next_arrivals();
    if ahead.picked != picked || ahead.dropped != dropped {
        return false;
    }
    let _arrivals = floor.tick();
    true
}

/// Whether a Replace by this spare may be answered with `told` slots; if so, it is made.
pub fn replace(floor: &mut FleetState, agent: u32, spare: Spare, told: u32) -> bool
    ensures answer { (site : Site) → Decides site floor.old.state (replies.Replaced told) (events.Replace agent spare) floor.new.state result }
    ensures kept { result ≡ false → floor.new.state ≡ floor.old.state }
{
    match spare {
        Spare::Fits { slots } => {
            if !is_known(floor, agent) || told != slots {
                return false;
            }
            floor.seat(agent, slots);
            true
        }
        Spare::None | Spare::Foreign => false,
    }
}
