//! The stays of the agents of a fleet.
#![tactic(auto)]

ghost use Rattle.std.specs.Prelude.{◌≡◌, ℕ, ◌+◌, ◌<◌, ◌≤◌, ◌++◌, ◌∷◌, [], IsTrue, length, slice_set};
ghost use Rattle.wh_timetable.specs.Timetables.{IsTold};

use crate::place_stays::PlaceStays;
use crate::places::{leave_all, note_all};
use wh_path::TimedPath;

/// Adds the stays of one more agent, that goes by a path from now on, and answers whether there was room for them, and its
/// number and their times fit. It takes no memory.
pub fn add_agent(
    places: &mut [PlaceStays],
    clock: u32,
    paths: &[TimedPath],
    path: &TimedPath,
) -> bool
    requires some { 0 < length places.old }
    requires told { IsTold (record { clock = clock; places = places.old }) paths.now }
    ensures { IsTrue result → IsTold (record { clock = clock; places = places.new }) (paths.now ++ path.now ∷ []) }
{
    let Ok(agent) = u32::try_from(paths.len()) else {
        return false;
    };
    note_all(places, path.cells(), agent, clock)
}

/// Puts the stays of another path of an agent in the place of those of its path, and returns what `add_agent` returns.
pub fn change_agent(
    places: &mut [PlaceStays],
    clock: u32,
    paths: &[TimedPath],
    agent: usize,
    path: &TimedPath,
) -> bool
    requires some { 0 < length places.old }
    requires told { IsTold (record { clock = clock; places = places.old }) paths.now }
    requires known { agent < length paths.now }
    ensures { IsTrue result → IsTold (record { clock = clock; places = places.new }) (slice_set paths.now agent path.now) }
{
    let Ok(number) = u32::try_from(agent) else {
        return false;
    };
    leave_all(places, paths[agent].cells(), number, clock);
    note_all(places, path.cells(), number, clock)
}
