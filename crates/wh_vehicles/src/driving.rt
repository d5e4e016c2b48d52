//! What vehicles report, and when the clock has to wait for them.

ghost use Rattle.std.specs.Prelude.{◌≡◌, IfSome, IfNone};
ghost use Rattle.wh_drive.specs.Drives.{Drive};
ghost use Rattle.wh_order.specs.Orders.{Represents};
ghost use Rattle.wh_vehicles.specs.declared.notice.Notice.TheVariants.{Go};
ghost use Rattle.wh_vehicles.specs.Driving.{AnswersReport, TellsLate, NoneIsLate};

use crate::notice::Notice;
use crate::report::Report;
use wh_order::{Told, VisitOrder};

/// The reply to a report. Of a step that was told the vehicle has arrived there, and so at each step before: a report
/// that is repeated or late changes nothing, and one of a later step implies those that are due before.
pub fn answer_report(order: &mut VisitOrder, report: Report) -> Notice
    ensures { (d : Drive) → Represents order.old d → (e : Drive) × AnswersReport d report result e × Represents order.new e }
{
    let agent = report.agent;
    if agent >= order.agents() {
        return Notice::UnknownAgent { agent };
    }
    let vehicle = order.vehicle(agent);
    if report.step > vehicle.told {
        return Notice::NotTold {
            agent,
            step: report.step,
        };
    }
    for step in vehicle.reached..report.step {
        let _ = order.arrive(agent, step + 1);
    }
    Notice::Arrived {
        agent,
        step: report.step,
    }
}

/// Why the clock may not go on yet: a vehicle is the bound or more steps behind. With bound 1 the clock waits for all.
pub fn late(order: &VisitOrder, bound: u64) -> Option<Notice>
    ensures some { IfSome result (TellsLate order.now bound) }
    ensures none { IfNone result (NoneIsLate order.now bound) }
{
    match order.furthest() {
        None => None,
        Some(agent) => {
            let steps = order.behind(agent);
            if steps >= bound {
                Some(Notice::Behind { agent, steps })
            } else {
                None
            }
        }
    }
}

/// What was told, as a notice.
pub fn going(told: Told) -> Notice
    ensures { result ≡ Go told.agent told.step told.cell }
{
    Notice::Go {
        agent: told.agent,
        step: told.step,
        cell: told.cell,
    }
}
