//! A script that is served in rounds, over a log and a file of arrivals.
#![tactic(auto)]

ghost use Rattle.std.specs.Prelude.{◌≡◌, ◌≤◌, false, length, IfErr, OnOk};
ghost use Rattle.wh_dispatch.specs.Scripts.{SomeManned};
ghost use Rattle.wh_journal.specs.declared.rounds.Round.TheVariants.{Ended};
ghost use Rattle.wh_convoy.specs.Convoys.{ConvoysFrom, ConvoysUntilFrom, HasCause};
ghost use Rattle.wh_convoy.specs.Faults.{fault_by};
ghost use Rattle.wh_journal.specs.Journals.{log_asker};

use crate::fault::ConvoyFault;
use crate::files::LogAndArrivals;
use std::alloc::Global;
use std::io::{Read, Write};
use wh_dispatch::{Manned, Vehicles};
use wh_event::Command;
use wh_journal::{Journal, LOG_CALLER};
use wh_lines::Lines;
use wh_log::Form;
use wh_planner::Plans;
use wh_replay::{Asker, Warehouse};
use wh_session::SessionFault;

/// Why the script was not served to its end.
fn fault_of(fault: SessionFault) -> ConvoyFault
    ensures { result ≡ fault_by fault }
{
    match fault {
        SessionFault::Broken => ConvoyFault::Broken,
        SessionFault::Endless => ConvoyFault::Endless,
        SessionFault::Unwritten => ConvoyFault::Unwritten,
        SessionFault::Unkept => ConvoyFault::Unkept,
        SessionFault::NoMemory => ConvoyFault::NoMemory,
        SessionFault::Failed => ConvoyFault::NoMemory,
    }
}

fn serve_all<R: Read, W: Write, L: Journal, P: Plans>(
    lines: &mut Lines<R>,
    writer: &mut W,
    manned: &mut Manned<'_, P, true>,
    files: &mut LogAndArrivals<'_, L>,
) -> Result<(), ConvoyFault>
    requires going { manned.old.halted ≡ false }
    requires first { manned.old.first ≤ length manned.old.warehouse.now.book.history }
    requires begun { manned.old.begun ≤ length manned.old.said.now.items }
    requires manned { SomeManned manned.old.warehouse.now.book manned.old.vehicles.now }
    requires log { L.synced files.old.log.now ≡ L.contents files.old.log.now }
    requires arrivals { L.synced files.old.arrivals.now ≡ L.contents files.old.arrivals.now }
    requires none_waits { files.old.arrivals_wait ≡ false }
    // They hold what they held.
    ensures warehouse { manned.new.warehouse.ghost_name ≡ manned.old.warehouse.ghost_name }
    ensures spares { manned.new.spares.ghost_name ≡ manned.old.spares.ghost_name }
    ensures vehicles { manned.new.vehicles.ghost_name ≡ manned.old.vehicles.ghost_name }
    ensures log { files.new.log.ghost_name ≡ files.old.log.ghost_name }
    ensures arrivals { files.new.arrivals.ghost_name ≡ files.old.arrivals.ghost_name }
    ensures ok { OnOk result (ConvoysFrom P.fits_map P.slot_count manned.old.asker manned.old.vehicles.now.bound Ended lines.old lines.new manned.old.warehouse.now.book manned.old.spares.now.items manned.old.vehicles.now manned.new.warehouse.now.book manned.new.spares.now.items manned.new.vehicles.now (W.contents writer.old) (W.contents writer.new)
        (record { log = L.contents files.old.log.now; arrivals = L.contents files.old.arrivals.now }) (record { log = L.contents files.new.log.now; arrivals = L.contents files.new.arrivals.now }) (record { log = L.synced files.new.log.now; arrivals = L.synced files.new.arrivals.now })) }
    ensures fault { IfErr result (λ _. ConvoysUntilFrom P.fits_map P.slot_count manned.old.asker manned.old.vehicles.now.bound lines.old lines.new manned.old.warehouse.now.book manned.old.spares.now.items manned.old.vehicles.now (W.contents writer.old) (W.contents writer.new)
        (record { log = L.contents files.old.log.now; arrivals = L.contents files.old.arrivals.now }) (record { log = L.contents files.new.log.now; arrivals = L.contents files.new.arrivals.now }) (record { log = L.synced files.new.log.now; arrivals = L.synced files.new.arrivals.now })) }
    ensures cause { IfErr result (λ fault. HasCause fault (L.failed files.new.log.now) (L.failed files.new.arrivals.now)) }
{
    match wh_session::serve(lines, writer, manned, files) {
        Ok(_) => Ok(()),
        Err(fault) => Err(fault_of(fault)),
    }
}

/// Serves the script that is left in the reader, to the reader's end, over a log and a file of arrivals. Lines are what they are in
/// `wh_dispatch::dispatch`, except that what follows the last line feed is not a line: one that was cut is not served. In rounds, before each read that
/// may wait and at the end, the lines of all new entries are appended to the log and synced, then the reports that moved vehicles
/// to the file of arrivals, and then what the lines are told is written. So whoever is told a step finds after a stop all that it rests on.
pub fn convoy<R: Read, W: Write, L: Journal, P: Plans>(
    lines: &mut Lines<R>,
    alloc: Global,
    form: Form,
    log: &mut L,
    arrivals: &mut L,
    writer: &mut W,
    warehouse: &mut Warehouse<P>,
    spares: &mut Vec<P>,
    vehicles: &mut Vehicles,
) -> Result<(), ConvoyFault>
    requires manned { SomeManned warehouse.old.book vehicles.old }
    requires log { L.synced log.old ≡ L.contents log.old }
    requires arrivals { L.synced arrivals.old ≡ L.contents arrivals.old }
    ensures ok { OnOk result (ConvoysFrom P.fits_map P.slot_count (log_asker form) vehicles.old.bound Ended lines.old lines.new warehouse.old.book spares.old.items vehicles.old warehouse.new.book spares.new.items vehicles.new (W.contents writer.old) (W.contents writer.new)
        (record { log = L.contents log.old; arrivals = L.contents arrivals.old }) (record { log = L.contents log.new; arrivals = L.contents arrivals.new }) (record { log = L.synced log.new; arrivals = L.synced arrivals.new })) }
    ensures fault { IfErr result (λ _. ConvoysUntilFrom P.fits_map P.slot_count (log_asker form) vehicles.old.bound lines.old lines.new warehouse.old.book spares.old.items vehicles.old (W.contents writer.old) (W.contents writer.new)
        (record { log = L.contents log.old; arrivals = L.contents arrivals.old }) (record { log = L.contents log.new; arrivals = L.contents arrivals.new }) (record { log = L.synced log.new; arrivals = L.synced arrivals.new })) }
    ensures cause { IfErr result (λ fault. HasCause fault (L.failed log.new) (L.failed arrivals.new)) }
{
    let mut command = Command::Close;
    let mut said = Vec::new(alloc);
    let mut came = Vec::new(alloc);
    let first = warehouse.history().len();
    let mut manned = Manned {
        warehouse,
        spares,
        vehicles,
        command: &mut command,
        said: &mut said,
        came: &mut came,
        alloc,
        asker: Asker {
            caller: LOG_CALLER,
            form,
        },
        first,
        begun: 0,
        halted: false,
    };
    let mut files = LogAndArrivals {
        log,
        arrivals,
        log_waits: false,
        arrivals_wait: false,
    };
    serve_all(lines, writer, &mut manned, &mut files)
}
