//! A script that is served to its end, or until a fault.

ghost use Rattle.std.specs.Prelude.{◌≡◌, ◌≤◌, length, IfErr, OnErr, OnOk, true, false};
ghost use Rattle.std.specs.Io.KnownBytes.{Keeps};
ghost use Rattle.wh_dispatch.specs.Manning.{EndsSo, IsWrittenOr};
ghost use Rattle.wh_dispatch.specs.Scripts.{DispatchesFrom, StopsFrom, SomeManned};
ghost use Rattle.wh_replay.specs.Scripts.{script_asker};

use crate::fleet::Vehicles;
use crate::manned::Manned;
use std::alloc::Global;
use std::io::{Read, Write};
use wh_event::Command;
use wh_lines::{Lines, write_all};
use wh_log::Form;
use wh_planner::Plans;
use wh_replay::{Asker, Warehouse};
use wh_session::{NoKeeper, SessionFault};

/// Why a script was not served to its end.
#[derive(Clone, Copy, Debug, PartialEq, Eq)]
pub enum DispatchFault {
    /// X1: the reader failed, or a fault came before.
    Broken,
    /// X2: the reader was asked 100,000,000 times.
    Endless,
    /// X3: the writer failed, took no byte, or could not be flushed.
    Unwritten,
    /// E90: out of memory for what vehicles are to do. All that was found of it is written.
    NoMemory,
    /// E90: out of memory for the text of what a line is told. A front of it is written.
    NoRoom,
}

/// Writes what a line was told that was left in its midst.
fn write_left<W: Write>(writer: &mut W, said: &[u8], fault: DispatchFault) -> DispatchFault
    ensures { IsWrittenOr fault result (W.contents writer.old) (W.contents writer.new) said.now }
{
    match write_all(writer, said) {
        Ok(()) => fault,
        Err(_) => DispatchFault::Unwritten,
    }
}

/// Why the script was not served to its end. Where memory ran out in the midst of a line, what waits of that is written.
fn ended<W: Write>(fault: SessionFault, writer: &mut W, said: &[u8]) -> DispatchFault
    ensures { EndsSo fault result (W.contents writer.old) (W.contents writer.new) said.now }
{
    match fault {
        SessionFault::Broken => DispatchFault::Broken,
        SessionFault::Endless => DispatchFault::Endless,
        SessionFault::NoMemory => write_left(writer, said, DispatchFault::NoMemory),
        SessionFault::Failed => write_left(writer, said, DispatchFault::NoRoom),
        _ => DispatchFault::Unwritten,
    }
}

fn serve_all<R: Read, W: Write, P: Plans>(
    lines: &mut Lines<R>,
    writer: &mut W,
    manned: &mut Manned<'_, P, false>,
) -> Result<(), DispatchFault>
    requires going { manned.old.halted ≡ false }
    requires first { manned.old.first ≤ length manned.old.warehouse.now.book.history }
    requires begun { manned.old.begun ≤ length manned.old.said.now.items }
    requires manned { SomeManned manned.old.warehouse.now.book manned.old.vehicles.now }
    // It holds what it held.
    ensures warehouse { manned.new.warehouse.ghost_name ≡ manned.old.warehouse.ghost_name }
    ensures spares { manned.new.spares.ghost_name ≡ manned.old.spares.ghost_name }
    ensures vehicles { manned.new.vehicles.ghost_name ≡ manned.old.vehicles.ghost_name }
    ensures ok { OnOk result (DispatchesFrom P.fits_map P.slot_count manned.old.asker manned.old.vehicles.now.bound lines.old lines.new manned.old.warehouse.now.book manned.old.spares.now.items manned.old.vehicles.now manned.new.warehouse.now.book manned.new.spares.now.items manned.new.vehicles.now (W.contents writer.old) (W.contents writer.new)) }
    ensures fault { IfErr result (λ fault. StopsFrom P.fits_map P.slot_count manned.old.asker manned.old.vehicles.now.bound fault lines.old lines.new manned.old.warehouse.now.book manned.old.spares.now.items manned.old.vehicles.now manned.new.warehouse.now.book manned.new.spares.now.items (W.contents writer.old) (W.contents writer.new)) }
    ensures failed { OnErr result (lines.new.failed ≡ true) }
    ensures again { lines.old.failed ≡ true → (result ≡ Err DispatchFault.Broken) × (lines.new ≡ lines.old) × (manned.new ≡ manned.old) × Keeps (W.contents writer.old) (W.contents writer.new) }
{
    match wh_session::serve(lines, writer, manned, &mut NoKeeper) {
        Ok(_) => Ok(()),
        Err(fault) => Err(ended(fault, writer, manned.left())),
    }
}

/// Serves the script that is left in the reader, to the reader's end. A line `at AGENT STEP` is a vehicle's report, each
/// other line is what it is in a script without vehicles, and is answered so; but a tick is refused while a vehicle is the
/// bound or more steps behind. After the reply to a line come the steps that it lets vehicles make, one line for each
/// that leads away. The writer is flushed before each read, and at the end.
pub fn dispatch<R: Read, W: Write, P: Plans>(
    lines: &mut Lines<R>,
    alloc: Global,
    form: Form,
    writer: &mut W,
    warehouse: &mut Warehouse<P>,
    spares: &mut Vec<P>,
    vehicles: &mut Vehicles,
) -> Result<(), DispatchFault>
    requires manned { SomeManned warehouse.old.book vehicles.old }
    // What was written is what the lines are told; the run is carried out by the vehicles, and nobody who may start is left untold.
    ensures ok { OnOk result (DispatchesFrom P.fits_map P.slot_count (script_asker form) vehicles.old.bound lines.old lines.new warehouse.old.book spares.old.items vehicles.old warehouse.new.book spares.new.items vehicles.new (W.contents writer.old) (W.contents writer.new)) }
    // On a fault this holds of a beginning of the script, of whole lines: what all but the last are told was written whole, and of
    // the last a front; and the cause is a true one.
    ensures fault { IfErr result (λ fault. StopsFrom P.fits_map P.slot_count (script_asker form) vehicles.old.bound fault lines.old lines.new warehouse.old.book spares.old.items vehicles.old warehouse.new.book spares.new.items (W.contents writer.old) (W.contents writer.new)) }
    // After a fault there is nothing more.
    ensures failed { OnErr result (lines.new.failed ≡ true) }
    ensures again { lines.old.failed ≡ true → (result ≡ Err DispatchFault.Broken) × (lines.new ≡ lines.old) × (warehouse.new.book ≡ warehouse.old.book) × (spares.new.items ≡ spares.old.items) × (vehicles.new ≡ vehicles.old) × Keeps (W.contents writer.old) (W.contents writer.new) }
{
    let mut command = Command::Close;
    let mut said = Vec::new(alloc);
    let mut came = Vec::new(alloc);
    let first = warehouse.history().len();
    let mut manned = Manned {
        warehouse,
        spares,
        vehicles,
        command: &mut command,
        said: &mut said,
        came: &mut came,
        alloc,
        asker: Asker { caller: 0, form },
        first,
        begun: 0,
        halted: false,
    };
    serve_all(lines, writer, &mut manned)
}
