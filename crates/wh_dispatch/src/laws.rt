//! The laws of whole scripts. Each function does nothing, and its contract is the law.

ghost use Rattle.wh_dispatch.specs.Laws.{EachScriptHappens, EachVisitIsTold};

use wh_planner::Plans;
use wh_replay::Asker;

/// All lines of a script together are one list of happenings, whatever comes in whatever order.
pub fn each_script_happens<P: Plans>(asker: Asker)
    ensures { EachScriptHappens P.fits_map P.slot_count asker }
{
    let _ = asker;
}

/// All visits that vehicles make while lines are served are told, each once, those of a task in its order, and no others.
pub fn each_visit_is_told<P: Plans>(asker: Asker)
    ensures { EachVisitIsTold P.fits_map P.slot_count asker }
{
    let _ = asker;
}
