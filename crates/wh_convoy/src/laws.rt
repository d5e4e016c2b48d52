//! What scripts that are served over two files stand for. Each function does nothing, and its contract is the law.

ghost use Rattle.wh_convoy.specs.Laws.{KeptIsServed, EachMoveIsKept};

use wh_planner::Planner;
use wh_replay::Asker;

/// Lines that are kept so are lines that are served as those of any script with vehicles.
pub fn kept_is_served<P: Planner>(asker: Asker)
    ensures { KeptIsServed P.fits_map P.slot_count asker }
{
    let _ = asker;
}

/// A report that is not kept moves no vehicle.
pub fn each_move_is_kept()
    ensures { EachMoveIsKept }
{}
