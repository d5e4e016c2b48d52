//! A run with vehicles over its two files, from what these hold to what ends the log.
#![tactic(auto)]

ghost use Rattle.std.specs.Prelude.{◌≡◌, IfErr, IfOk, OnOk};
ghost use Rattle.wh_dispatch.specs.Crews.{AreWatched};
ghost use Rattle.wh_dispatch.specs.SettingOut.{NoneIsTold, SomeInStep};
ghost use Rattle.wh_continue.specs.Running.{IsStartOf};
ghost use Rattle.wh_journal.specs.Surviving.{HoldsLog};
ghost use Rattle.wh_convoy.specs.Riding.{BeginsBoth, MansNot, StopsBeginning, RidesFrom, StopsFrom, RidesOn, StopsRide};
ghost use Rattle.wh_journal.specs.Journals.{log_asker};

use crate::beginning::{begin_arrivals, first_line};
use crate::fault::ConvoyFault;
use crate::finding::Stood;
use crate::rounds::convoy;
use std::alloc::Global;
use std::io::{Read, Write};
use wh_book::Book;
use wh_continue::{KeepFault, LogFile, Preface, Start, again_text, begin_log, end_log, tell_first};
use wh_dispatch::{DispatchFault, Vehicles, set_out};
use wh_lines::Lines;
use wh_log::Form;
use wh_order::VisitOrder;
use wh_planner::Planner;
use wh_replay::{ResumeFault, Warehouse};

/// Why a run was not brought to its end.
#[derive(Clone, Copy, Debug, PartialEq, Eq)]
pub enum RideFault {
    /// One of the files was not begun; nothing was told or served.
    Begin(KeepFault),
    /// X3: how many entries the run has so far, or those to be told again, was not told; nothing was served.
    Uncounted,
    /// The planners are refused, or memory ran out for the warehouse; nothing was served.
    Resume(ResumeFault),
    /// E90: out of memory for the vehicles; nothing was served.
    NoMemory,
    /// X3, E90: what vehicles are told as they set out was not told to the end; nothing was served.
    SetOut(DispatchFault),
    /// The script was not served to its end.
    Script(ConvoyFault),
    /// What ends the log was not kept. All else was, and was told.
    End(KeepFault),
}

/// Makes both files those of the run so far, and tells how many entries it has, and then those from the one that is named on.
fn begin_all<W: Write, L: LogFile>(
    alloc: Global,
    again: Option<u32>,
    log: &mut L,
    arrivals: &mut L,
    writer: &mut W,
    start: &Start,
    bytes: usize,
) -> Result<(), RideFault>
    requires starts { IsStartOf (L.contents log.old) start.now }
    ensures begins { OnOk result (BeginsBoth again start.now bytes (W.contents writer.old) (W.contents writer.new) (record { log = L.contents log.old; arrivals = L.contents arrivals.old }) (record { log = L.contents log.new; arrivals = L.contents arrivals.new })) }
    ensures holds { OnOk result (HoldsLog (L.contents log.new) start.now.book) }
    ensures log_synced { OnOk result (L.synced log.new ≡ L.contents log.new) }
    ensures arrivals_synced { OnOk result (L.synced arrivals.new ≡ L.contents arrivals.new) }
    ensures fault { IfErr result (λ fault. StopsBeginning fault again start.now bytes (W.contents writer.old) (W.contents writer.new) (record { log = L.contents log.old; arrivals = L.contents arrivals.old }) (record { log = L.contents log.new; arrivals = L.contents arrivals.new })
        (record { log = L.synced log.new; arrivals = L.synced arrivals.new }) (L.failed log.new) (L.failed arrivals.new)) }
{
    let Ok(text) = again_text(alloc, start, again) else {
        return Err(RideFault::Begin(KeepFault::NoMemory));
    };
    match begin_log(alloc, log, start) {
        Ok(()) => {}
        Err(fault) => return Err(RideFault::Begin(fault)),
    }
    let first = first_line(&start.preface);
    match begin_arrivals(arrivals, first.as_slice(), bytes) {
        Ok(()) => {}
        Err(fault) => return Err(RideFault::Begin(fault)),
    }
    match tell_first(writer, start.entries(), text.as_slice()) {
        Ok(()) => Ok(()),
        Err(_) => Err(RideFault::Uncounted),
    }
}

/// The warehouse of the book with these planners, and its vehicles, by the order of their visits.
fn man<P: Planner>(
    alloc: Global,
    book: Book,
    planners: Vec<P>,
    order: VisitOrder,
    behind: u64,
) -> Result<(Warehouse<P>, Vehicles), RideFault>
    ensures book { IfOk result (λ r. r.0.book ≡ book) }
    ensures order { IfOk result (λ r. r.1.order ≡ order) }
    ensures untold { IfOk result (λ r. AreWatched r.0.book.state NoneIsTold r.1.pending) }
    ensures bound { IfOk result (λ r. r.1.bound ≡ behind) }
    ensures fault { IfErr result (λ fault. MansNot P.fits_map P.slot_count fault book planners.items) }
{
    let warehouse = match Warehouse::resume(alloc, book, planners) {
        Ok(warehouse) => warehouse,
        Err(fault) => return Err(RideFault::Resume(fault)),
    };
    match Vehicles::stand(alloc, &warehouse, order, behind) {
        Ok(vehicles) => Ok((warehouse, vehicles)),
        Err(_) => Err(RideFault::NoMemory),
    }
}

/// Has the vehicles set out, serves the script, and ends the log.
fn ride<R: Read, W: Write, L: LogFile, P: Planner>(
    lines: &mut Lines<R>,
    alloc: Global,
    form: Form,
    log: &mut L,
    arrivals: &mut L,
    writer: &mut W,
    warehouse: &mut Warehouse<P>,
    spares: &mut Vec<P>,
    vehicles: &mut Vehicles,
) -> Result<(), RideFault>
    requires stand { SomeInStep warehouse.old.book vehicles.old.order }
    requires untold { AreWatched warehouse.old.book.state NoneIsTold vehicles.old.pending }
    requires log { L.synced log.old ≡ L.contents log.old }
    requires arrivals { L.synced arrivals.old ≡ L.contents arrivals.old }
    ensures ok { OnOk result (RidesFrom P.fits_map P.slot_count (log_asker form) vehicles.old.bound lines.old lines.new warehouse.old.book spares.old.items vehicles.old.order warehouse.new.book spares.new.items vehicles.new (W.contents writer.old) (W.contents writer.new)
        (record { log = L.contents log.old; arrivals = L.contents arrivals.old }) (record { log = L.contents log.new; arrivals = L.contents arrivals.new }) (record { log = L.synced log.new; arrivals = L.synced arrivals.new })) }
    ensures fault { IfErr result (λ fault. StopsFrom P.fits_map P.slot_count (log_asker form) vehicles.old.bound fault lines.old lines.new warehouse.old.book spares.old.items spares.new.items vehicles.old.order (W.contents writer.old) (W.contents writer.new)
        (record { log = L.contents log.old; arrivals = L.contents arrivals.old }) (record { log = L.contents log.new; arrivals = L.contents arrivals.new }) (record { log = L.synced log.new; arrivals = L.synced arrivals.new }) (L.failed log.new) (L.failed arrivals.new)) }
{
    match set_out(writer, vehicles, warehouse) {
        Ok(()) => {}
        Err(fault) => return Err(RideFault::SetOut(fault)),
    }
    match convoy(
        lines, alloc, form, log, arrivals, writer, warehouse, spares, vehicles,
    ) {
        Ok(()) => {}
        Err(fault) => return Err(RideFault::Script(fault)),
    }
    match end_log(
        alloc,
        log,
        warehouse.closed(),
        warehouse.history().len() as u64,
    ) {
        Ok(()) => Ok(()),
        Err(fault) => Err(RideFault::End(fault)),
    }
}

/// Goes on from a start over the files in which it was found, with vehicles that stand so, and serves the script that is left in the reader,
/// to the reader's end. First both files are made those of the run so far, and the line `entries N` tells how many entries it has.
/// Where an entry is named, those from it on are told again after that line, as the log has them. Then the vehicles set out: all
/// visits that they have made are told, and the steps that they are to make. Then the script is served as `convoy` does; at its end
/// the log is given what ends it. The clock waits while a vehicle is `behind` steps or more behind.
pub fn ride_on<R: Read, W: Write, L: LogFile, P: Planner>(
    lines: &mut Lines<R>,
    alloc: Global,
    form: Form,
    again: Option<u32>,
    log: &mut L,
    arrivals: &mut L,
    writer: &mut W,
    start: Start,
    stood: Stood,
    behind: u64,
    planners: Vec<P>,
    spares: &mut Vec<P>,
) -> Result<(Warehouse<P>, Vehicles, Option<Preface>), RideFault>
    requires starts { IsStartOf (L.contents log.old) start }
    requires stand { SomeInStep start.book stood.order }
    ensures runs { IfOk result (λ r. RidesOn P.fits_map P.slot_count (log_asker form) again behind lines.old lines.new start stood spares.old.items r.0.book spares.new.items r.1 (W.contents writer.old) (W.contents writer.new)
        (record { log = L.contents log.old; arrivals = L.contents arrivals.old }) (record { log = L.contents log.new; arrivals = L.contents arrivals.new }) (record { log = L.synced log.new; arrivals = L.synced arrivals.new })) }
    ensures fault { IfErr result (λ fault. StopsRide P.fits_map P.slot_count (log_asker form) again behind fault lines.old lines.new start stood planners.items spares.old.items spares.new.items (W.contents writer.old) (W.contents writer.new)
        (record { log = L.contents log.old; arrivals = L.contents arrivals.old }) (record { log = L.contents log.new; arrivals = L.contents arrivals.new }) (record { log = L.synced log.new; arrivals = L.synced arrivals.new }) (L.failed log.new) (L.failed arrivals.new)) }
    ensures preface { IfOk result (λ r. r.2 ≡ start.preface) }
{
    match begin_all(alloc, again, log, arrivals, writer, &start, stood.bytes) {
        Ok(()) => {}
        Err(fault) => return Err(fault),
    }
    let Start { book, preface, .. } = start;
    let Stood { order, .. } = stood;
    let (mut warehouse, mut vehicles) = match man(alloc, book, planners, order, behind) {
        Ok(manned) => manned,
        Err(fault) => {
            drop(preface);
            return Err(fault);
        }
    };
    match ride(
        lines,
        alloc,
        form,
        log,
        arrivals,
        writer,
        &mut warehouse,
        spares,
        &mut vehicles,
    ) {
        Ok(()) => Ok((warehouse, vehicles, preface)),
        Err(fault) => {
            drop(warehouse);
            drop(vehicles);
            drop(preface);
            Err(fault)
        }
    }
}
