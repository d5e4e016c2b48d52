//! The reply to one line of a script, and what it lets vehicles do.

ghost use Rattle.std.specs.Prelude.{◌≡◌, ◌<◌, ◌++◌, ◌↔◌, Ok, Some, true, IsTrue, IfErr, OnErr, OnOk, MatchOption, Contains, length};
ghost use Rattle.std.specs.Io.KnownBytes.{Appends};
ghost use Rattle.wh_lines.specs.Output.{WritesFront};
ghost use Rattle.wh_lines.specs.Text.{short_line};
ghost use Rattle.wh_replay.specs.Answers.{said, text_of};
ghost use Rattle.wh_drive.specs.Drives.{Drive};
ghost use Rattle.wh_order.specs.Orders.{Represents};
ghost use Rattle.wh_vehicles.specs.Driving.{NoneIsLate};
ghost use Rattle.wh_dispatch.specs.declared.visits.Pending.{Pending};
ghost use Rattle.wh_dispatch.specs.Crews.{AreWatched};
ghost use Rattle.wh_dispatch.specs.SettingOut.{NoneIsTold, SomeInStep, SetsOutFrom};
ghost use Rattle.wh_dispatch.specs.Lines.{AsksToGoOn, Reported, Asked, heard_in, go_lines, visit_lines};
ghost use Rattle.wh_dispatch.specs.Visiting.{IsStanding, SomeStanding, due_visits, left_after};
ghost use Rattle.wh_dispatch.specs.Scripts.{TellsAll, TellsSome, Hears, HearsSome, ServesFrom, BeginsFrom, SomeManned};

use crate::fleet::Vehicles;
use crate::script::DispatchFault;
use crate::telling::{tell, tell_notice, tell_starved, tell_steps};
use std::alloc::Global;
use std::io::Write;
use wh_core::LAST_CLOCK;
use wh_event::{Command, LineFault};
use wh_lines::CommandLine;
use wh_planner::Plans;
use wh_replay::{Asker, Warehouse, obey, read_kept};
use wh_vehicles::{Report, read_report};

/// The report that a line is, of which only a front is kept.
fn reported(line: &CommandLine) -> Option<Report>
    ensures { MatchOption result (heard_in (short_line line.now) ≡ Asked (said (short_line line.now))) (λ report. heard_in (short_line line.now) ≡ Reported report) }
{
    match line.text() {
        Some(text) => read_report(text),
        None => None,
    }
}

/// The visits are told that vehicles have made by now, and then the steps that they were told to make.
fn tell_gone<W: Write, P: Plans>(
    writer: &mut W,
    vehicles: &mut Vehicles,
    warehouse: &Warehouse<P>,
) -> Result<(), DispatchFault>
    requires stand { (p : Pending) → Contains vehicles.old.pending p → IsStanding warehouse.now.book.state.tasks (length vehicles.old.order.vehicles) p }
    ensures ok { OnOk result (Appends (W.contents writer.old) (W.contents writer.new) (text_of (visit_lines (due_visits warehouse.now.book.opening.clock warehouse.now.book.state.tasks vehicles.old.order.vehicles vehicles.old.pending) ++ go_lines vehicles.old.told))) }
    ensures err { OnErr result (WritesFront (W.contents writer.old) (W.contents writer.new) (text_of (visit_lines (due_visits warehouse.now.book.opening.clock warehouse.now.book.state.tasks vehicles.old.order.vehicles vehicles.old.pending) ++ go_lines vehicles.old.told))) }
    ensures fault { IfErr result (λ fault. fault ≡ DispatchFault.Unwritten) }
    ensures left { OnOk result (vehicles.new.pending ≡ left_after warehouse.now.book.opening.clock warehouse.now.book.state.tasks vehicles.old.order.vehicles vehicles.old.pending) }
    ensures same { vehicles.new ≡ record vehicles.old { pending = vehicles.new.pending; room = vehicles.new.room } }
{
    vehicles.tell_visits(writer, warehouse)?;
    tell_steps(writer, vehicles.told())
}

/// Vehicles go on as far as they may, and are told so.
fn go_on<W: Write, P: Plans>(
    writer: &mut W,
    vehicles: &mut Vehicles,
    warehouse: &Warehouse<P>,
) -> Result<(), DispatchFault>
    requires stand { SomeStanding warehouse.now.book vehicles.old }
    ensures ok { OnOk result ((d : Drive) → Represents vehicles.old.order d → (e : Drive) × Represents vehicles.new.order e × TellsAll warehouse.now.book vehicles.old.pending vehicles.new.pending d e (W.contents writer.old) (W.contents writer.new)) }
    ensures err { IfErr result (λ fault. (d : Drive) → Represents vehicles.old.order d → (e : Drive) × TellsSome fault warehouse.now.book vehicles.old.pending d e (W.contents writer.old) (W.contents writer.new)) }
    ensures bound { vehicles.new.bound ≡ vehicles.old.bound }
{
    match vehicles.settle() {
        Ok(()) => tell_gone(writer, vehicles, warehouse),
        Err(_) => Err(DispatchFault::NoMemory),
    }
}

/// Has vehicles that stand as their order says, and of which nothing was told, go on as far as they may. All visits that they have
/// made by then are told, and then the steps that they are to make.
pub fn set_out<W: Write, P: Plans>(
    writer: &mut W,
    vehicles: &mut Vehicles,
    warehouse: &Warehouse<P>,
) -> Result<(), DispatchFault>
    requires stand { SomeInStep warehouse.now.book vehicles.old.order }
    requires untold { AreWatched warehouse.now.book.state NoneIsTold vehicles.old.pending }
    ensures ok { OnOk result (SetsOutFrom warehouse.now.book vehicles.old vehicles.new (W.contents writer.old) (W.contents writer.new)) }
    ensures err { IfErr result (λ fault. (d : Drive) → Represents vehicles.old.order d → (e : Drive) × TellsSome fault warehouse.now.book vehicles.old.pending d e (W.contents writer.old) (W.contents writer.new)) }
    ensures bound { vehicles.new.bound ≡ vehicles.old.bound }
{
    go_on(writer, vehicles, warehouse)
}

/// Runs a tick for which room is made, and has the vehicles go on.
fn tick<W: Write, P: Plans>(
    command: &Command,
    alloc: Global,
    asker: Asker,
    writer: &mut W,
    warehouse: &mut Warehouse<P>,
    spares: &mut Vec<P>,
    vehicles: &mut Vehicles,
) -> Result<(), DispatchFault>
    requires manned { SomeManned warehouse.old.book vehicles.old }
    requires asks { AsksToGoOn warehouse.old.book.state (Ok (Some command.now)) }
    requires keep_up { NoneIsLate vehicles.old.order vehicles.old.bound }
    requires ready { vehicles.old.order.ready ≡ true }
    requires row { length vehicles.old.row ≡ length warehouse.old.book.state.paths }
    ensures ok { OnOk result (ServesFrom P.fits_map P.slot_count asker vehicles.old.bound (Asked (Ok (Some command.now))) warehouse.old.book spares.old.items vehicles.old warehouse.new.book spares.new.items vehicles.new (W.contents writer.old) (W.contents writer.new)) }
    ensures err { IfErr result (λ fault. BeginsFrom P.fits_map P.slot_count asker vehicles.old.bound (Asked (Ok (Some command.now))) fault warehouse.old.book spares.old.items vehicles.old warehouse.new.book spares.new.items (W.contents writer.old) (W.contents writer.new)) }
    ensures bound { vehicles.new.bound ≡ vehicles.old.bound }
{
    let before = warehouse.clock();
    match obey(command, alloc, asker, writer, warehouse, spares) {
        Ok(_) => {}
        Err(_) => return Err(DispatchFault::Unwritten),
    }
    if warehouse.clock() == before {
        return Ok(());
    }
    vehicles.tick(warehouse);
    go_on(writer, vehicles, warehouse)
}

/// Runs a tick, unless the clock waits for a vehicle, or memory runs out.
#[inline(always)]
fn tick_in_time<W: Write, P: Plans>(
    command: &Command,
    alloc: Global,
    asker: Asker,
    writer: &mut W,
    warehouse: &mut Warehouse<P>,
    spares: &mut Vec<P>,
    vehicles: &mut Vehicles,
) -> Result<(), DispatchFault>
    requires manned { SomeManned warehouse.old.book vehicles.old }
    requires asks { AsksToGoOn warehouse.old.book.state (Ok (Some command.now)) }
    ensures ok { OnOk result (ServesFrom P.fits_map P.slot_count asker vehicles.old.bound (Asked (Ok (Some command.now))) warehouse.old.book spares.old.items vehicles.old warehouse.new.book spares.new.items vehicles.new (W.contents writer.old) (W.contents writer.new)) }
    ensures err { IfErr result (λ fault. BeginsFrom P.fits_map P.slot_count asker vehicles.old.bound (Asked (Ok (Some command.now))) fault warehouse.old.book spares.old.items vehicles.old warehouse.new.book spares.new.items (W.contents writer.old) (W.contents writer.new)) }
    ensures bound { vehicles.new.bound ≡ vehicles.old.bound }
{
    if let Some(notice) = vehicles.late() {
        return tell_notice(writer, &notice);
    }
    match vehicles.reserve(alloc, warehouse) {
        Ok(()) => tick(command, alloc, asker, writer, warehouse, spares, vehicles),
        Err(_) => tell_starved(writer),
    }
}

/// Runs a command at which the clock stays, where there is room for a task that is taken, and has the vehicles go on then.
#[inline(always)]
fn run_roomy<W: Write, P: Plans>(
    command: &Command,
    alloc: Global,
    asker: Asker,
    writer: &mut W,
    warehouse: &mut Warehouse<P>,
    spares: &mut Vec<P>,
    vehicles: &mut Vehicles,
) -> Result<(), DispatchFault>
    requires manned { SomeManned warehouse.old.book vehicles.old }
    requires still { ¬ AsksToGoOn warehouse.old.book.state (Ok (Some command.now)) }
    requires room { length vehicles.old.pending < vehicles.old.room }
    ensures ok { OnOk result (ServesFrom P.fits_map P.slot_count asker vehicles.old.bound (Asked (Ok (Some command.now))) warehouse.old.book spares.old.items vehicles.old warehouse.new.book spares.new.items vehicles.new (W.contents writer.old) (W.contents writer.new)) }
    ensures err { IfErr result (λ fault. BeginsFrom P.fits_map P.slot_count asker vehicles.old.bound (Asked (Ok (Some command.now))) fault warehouse.old.book spares.old.items vehicles.old warehouse.new.book spares.new.items (W.contents writer.old) (W.contents writer.new)) }
    ensures bound { vehicles.new.bound ≡ vehicles.old.bound }
{
    let before = warehouse.history().len();
    match obey(command, alloc, asker, writer, warehouse, spares) {
        Ok(_) => {}
        Err(_) => return Err(DispatchFault::Unwritten),
    }
    if vehicles.keep_taken(warehouse, before) {
        go_on(writer, vehicles, warehouse)
    } else {
        Ok(())
    }
}

/// Runs a command at which the clock stays, unless memory runs out.
#[inline(always)]
fn run_still<W: Write, P: Plans>(
    command: &Command,
    alloc: Global,
    asker: Asker,
    writer: &mut W,
    warehouse: &mut Warehouse<P>,
    spares: &mut Vec<P>,
    vehicles: &mut Vehicles,
) -> Result<(), DispatchFault>
    requires manned { SomeManned warehouse.old.book vehicles.old }
    requires still { ¬ AsksToGoOn warehouse.old.book.state (Ok (Some command.now)) }
    ensures ok { OnOk result (ServesFrom P.fits_map P.slot_count asker vehicles.old.bound (Asked (Ok (Some command.now))) warehouse.old.book spares.old.items vehicles.old warehouse.new.book spares.new.items vehicles.new (W.contents writer.old) (W.contents writer.new)) }
    ensures err { IfErr result (λ fault. BeginsFrom P.fits_map P.slot_count asker vehicles.old.bound (Asked (Ok (Some command.now))) fault warehouse.old.book spares.old.items vehicles.old warehouse.new.book spares.new.items (W.contents writer.old) (W.contents writer.new)) }
    ensures bound { vehicles.new.bound ≡ vehicles.old.bound }
{
    match vehicles.reserve_task() {
        Ok(()) => run_roomy(command, alloc, asker, writer, warehouse, spares, vehicles),
        Err(_) => tell_starved(writer),
    }
}

/// Whether the clock is to go on, and may.
fn asks_to_go_on<P: Plans>(command: &Command, warehouse: &Warehouse<P>) -> bool
    ensures { IsTrue result ↔ AsksToGoOn warehouse.now.book.state (Ok (Some command.now)) }
{
    let is_tick = match command {
        Command::Tick => true,
        _ => false,
    };
    is_tick && !warehouse.closed() && warehouse.clock() < LAST_CLOCK
}

/// Runs a command.
#[inline(always)]
fn run<W: Write, P: Plans>(
    command: &Command,
    alloc: Global,
    asker: Asker,
    writer: &mut W,
    warehouse: &mut Warehouse<P>,
    spares: &mut Vec<P>,
    vehicles: &mut Vehicles,
) -> Result<(), DispatchFault>
    requires manned { SomeManned warehouse.old.book vehicles.old }
    ensures ok { OnOk result (ServesFrom P.fits_map P.slot_count asker vehicles.old.bound (Asked (Ok (Some command.now))) warehouse.old.book spares.old.items vehicles.old warehouse.new.book spares.new.items vehicles.new (W.contents writer.old) (W.contents writer.new)) }
    ensures err { IfErr result (λ fault. BeginsFrom P.fits_map P.slot_count asker vehicles.old.bound (Asked (Ok (Some command.now))) fault warehouse.old.book spares.old.items vehicles.old warehouse.new.book spares.new.items (W.contents writer.old) (W.contents writer.new)) }
    ensures bound { vehicles.new.bound ≡ vehicles.old.bound }
{
    if asks_to_go_on(command, warehouse) {
        tick_in_time(command, alloc, asker, writer, warehouse, spares, vehicles)
    } else {
        run_still(command, alloc, asker, writer, warehouse, spares, vehicles)
    }
}

/// Answers a report, and has the vehicles go on.
fn hear<W: Write, P: Plans>(
    report: Report,
    writer: &mut W,
    warehouse: &Warehouse<P>,
    vehicles: &mut Vehicles,
) -> Result<(), DispatchFault>
    requires stand { SomeStanding warehouse.now.book vehicles.old }
    ensures ok { OnOk result ((d : Drive) → Represents vehicles.old.order d → (e : Drive) × Represents vehicles.new.order e × Hears report warehouse.now.book vehicles.old.pending vehicles.new.pending d e (W.contents writer.old) (W.contents writer.new)) }
    ensures err { IfErr result (λ fault. (d : Drive) → Represents vehicles.old.order d → (e : Drive) × HearsSome fault report warehouse.now.book vehicles.old.pending d e (W.contents writer.old) (W.contents writer.new)) }
    ensures bound { vehicles.new.bound ≡ vehicles.old.bound }
{
    let notice = vehicles.hear(report);
    match tell_notice(writer, &notice) {
        Ok(()) => go_on(writer, vehicles, warehouse),
        Err(fault) => Err(fault),
    }
}

/// Answers a line that is no report, of which only a front is kept.
#[inline(always)]
fn serve_command<W: Write, P: Plans>(
    line: &CommandLine,
    command: &mut Command,
    alloc: Global,
    asker: Asker,
    writer: &mut W,
    warehouse: &mut Warehouse<P>,
    spares: &mut Vec<P>,
    vehicles: &mut Vehicles,
) -> Result<(), DispatchFault>
    requires manned { SomeManned warehouse.old.book vehicles.old }
    ensures ok { OnOk result (ServesFrom P.fits_map P.slot_count asker vehicles.old.bound (Asked (said (short_line line.now))) warehouse.old.book spares.old.items vehicles.old warehouse.new.book spares.new.items vehicles.new (W.contents writer.old) (W.contents writer.new)) }
    ensures err { IfErr result (λ fault. BeginsFrom P.fits_map P.slot_count asker vehicles.old.bound (Asked (said (short_line line.now))) fault warehouse.old.book spares.old.items vehicles.old warehouse.new.book spares.new.items (W.contents writer.old) (W.contents writer.new)) }
    ensures bound { vehicles.new.bound ≡ vehicles.old.bound }
{
    match read_kept(line, command) {
        Ok(true) => run(command, alloc, asker, writer, warehouse, spares, vehicles),
        Ok(false) => Ok(()),
        Err(LineFault::Form) => tell(writer, b"refused C1\n"),
        Err(LineFault::TooLong) => tell(writer, b"refused C2\n"),
    }
}

/// Serves a line, of which only a front is kept. The command is a room for what it asks. What the line is told is written at once,
/// and nothing is flushed.
#[inline(always)]
pub fn serve<W: Write, P: Plans>(
    line: &CommandLine,
    command: &mut Command,
    alloc: Global,
    asker: Asker,
    writer: &mut W,
    warehouse: &mut Warehouse<P>,
    spares: &mut Vec<P>,
    vehicles: &mut Vehicles,
) -> Result<(), DispatchFault>
    requires manned { SomeManned warehouse.old.book vehicles.old }
    ensures ok { OnOk result (ServesFrom P.fits_map P.slot_count asker vehicles.old.bound (heard_in (short_line line.now)) warehouse.old.book spares.old.items vehicles.old warehouse.new.book spares.new.items vehicles.new (W.contents writer.old) (W.contents writer.new)) }
    ensures err { IfErr result (λ fault. BeginsFrom P.fits_map P.slot_count asker vehicles.old.bound (heard_in (short_line line.now)) fault warehouse.old.book spares.old.items vehicles.old warehouse.new.book spares.new.items (W.contents writer.old) (W.contents writer.new)) }
    ensures bound { vehicles.new.bound ≡ vehicles.old.bound }
{
    match reported(line) {
        Some(report) => hear(report, writer, warehouse, vehicles),
        None => serve_command(
            line, command, alloc, asker, writer, warehouse, spares, vehicles,
        ),
    }
}
