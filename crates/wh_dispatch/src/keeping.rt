//! Which reports are kept: those that move vehicles.

ghost use Rattle.std.specs.Prelude.{◌≡◌, ◌++◌, OnOk, MatchOption, [], ◌∷◌};
ghost use Rattle.wh_words.specs.Lines.{text_of as lines_text};
ghost use Rattle.wh_lines.specs.Text.{short_line};
ghost use Rattle.wh_drive.specs.Drives.{Drive};
ghost use Rattle.wh_order.specs.Orders.{Represents};
ghost use Rattle.wh_dispatch.specs.Keeping.{moves, kept_in};

use std::alloc::AllocError;
use wh_lines::CommandLine;
use wh_order::VisitOrder;
use wh_vehicles::{Report, read_report};

/// Whether a report moves its vehicle: the step was told to it, and it had not reached it.
fn is_move(order: &VisitOrder, report: Report) -> bool
    ensures { (d : Drive) → Represents order.now d → result ≡ moves d report }
{
    if report.agent >= order.agents() {
        return false;
    }
    let vehicle = order.vehicle(report.agent);
    vehicle.reached < report.step && report.step <= vehicle.told
}

/// What a line says, where it is a report that moves its vehicle.
fn moving<'a>(order: &VisitOrder, line: &'a CommandLine) -> Option<&'a [u8]>
    ensures { (d : Drive) → Represents order.now d → MatchOption result (kept_in d (short_line line.now) ≡ []) (λ text. kept_in d (short_line line.now) ≡ text.now ∷ []) }
{
    let text = line.text()?;
    let report = read_report(text)?;
    if is_move(order, report) {
        Some(text)
    } else {
        None
    }
}

/// Adds a line with its line feed.
fn put_line(came: &mut Vec<u8>, line: &[u8]) -> Result<(), AllocError>
    ensures { OnOk result (came.new.items ≡ came.old.items ++ lines_text (line.now ∷ [])) }
{
    came.extend_from_slice(line)?;
    came.push(b'\n')?;
    Ok(())
}

/// Adds what a line says, where it is a report that moves its vehicle.
pub(crate) fn note_report(
    came: &mut Vec<u8>,
    line: &CommandLine,
    order: &VisitOrder,
) -> Result<(), AllocError>
    ensures { OnOk result ((d : Drive) → Represents order.now d → came.new.items ≡ came.old.items ++ lines_text (kept_in d (short_line line.now))) }
{
    match moving(order, line) {
        Some(text) => put_line(came, text),
        None => Ok(()),
    }
}
