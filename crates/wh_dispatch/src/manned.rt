//! A warehouse with its vehicles, as a machine of the one loop.

ghost use Rattle.std.specs.Prelude.{◌≡◌, ◌≤◌, ◌++◌, ℕ, List, Option, Bool, true, false, cond, drop, length, OnOk, OnErr, IfErr};
ghost use Rattle.wh_words.specs.Lines.{text_of as lines_text};
ghost use Rattle.wh_lines.specs.Text.{short_line};
ghost use Rattle.wh_drive.specs.Drives.{Drive};
ghost use Rattle.wh_order.specs.Orders.{Represents};
ghost use Rattle.wh_replay.specs.Appending.{FailsAt, lines_for, logged};
ghost use Rattle.wh_dispatch.specs.Keeping.{kept_in};
ghost use Rattle.wh_dispatch.specs.Manning.{Manning, Names, StandsSo, ServesManned, HaltsManned, said_of, kept_by, halt_by};

use crate::fleet::Vehicles;
use crate::keeping::note_report;
use crate::line::serve;
use crate::script::DispatchFault;
use std::alloc::Global;
use std::io::Write;
use wh_event::{Command, Entry};
use wh_lines::{CommandLine, WriteFault, write_all};
use wh_log::{MOST_ENTRIES, NoMemory};
use wh_order::VisitOrder;
use wh_planner::Plans;
use wh_replay::{Asker, Warehouse, append_entries};
use wh_session::{Halt, KeepFault, Keeper, Machine};

/// Where more is to be told no further line is served before that is told.
const MOST_SAID: usize = 1_048_576;

/// A warehouse, its spare planners and its vehicles, and what waits of the lines that were served. Where lines are logged, their
/// entries and the reports that moved vehicles are kept before they are told, and what follows the last line feed is no line.
#[derive(Drop)]
pub struct Manned<'a, P: Plans, const LOGGED: bool> {
    pub warehouse: &'a mut Warehouse<P>,
    pub spares: &'a mut Vec<P>,
    pub vehicles: &'a mut Vehicles,
    /// A room for what a line asks.
    pub command: &'a mut Command,
    /// What lines are told.
    pub said: &'a mut Vec<u8>,
    /// The reports that moved vehicles.
    pub came: &'a mut Vec<u8>,
    pub alloc: Global,
    pub asker: Asker,
    /// The entries from this one on wait.
    pub first: usize,
    /// What the last line is told begins here.
    pub begun: usize,
    /// The last line was left in its midst: no further one is begun.
    pub halted: bool,
}

fn halt_of(fault: DispatchFault) -> Halt
    ensures { result ≡ halt_by fault }
{
    match fault {
        DispatchFault::NoMemory => Halt::NoMemory,
        _ => Halt::Failed,
    }
}

/// Where lines are logged, and the log has a number for one more entry, adds what the line says if it is a report that moves its
/// vehicle.
#[inline(always)]
fn note(
    is_logged: bool,
    came: &mut Vec<u8>,
    line: &CommandLine,
    order: &VisitOrder,
    entries: usize,
) -> Result<(), NoMemory>
    ensures ok { OnOk result (is_logged ≡ true → (d : Drive) → Represents order.now d → came.new.items ≡ came.old.items ++ lines_text (kept_in d (short_line line.now))) }
    ensures err { OnErr result (is_logged ≡ true) }
{
    if !is_logged {
        return Ok(());
    }
    if entries >= MOST_ENTRIES {
        return Err(NoMemory);
    }
    note_report(came, line, order)?;
    Ok(())
}

/// The entries from this place on.
fn behind(history: &[Entry], first: usize) -> &[Entry]
    requires { first ≤ length history.now }
    ensures { result.now ≡ drop first history.now }
{
    &history[first..]
}

/// Adds the lines of entries to the log. The keeper is not called for none.
fn add_entries<K: Keeper>(keeper: &mut K, entries: &[Entry]) -> Result<(), KeepFault>
    ensures ok { OnOk result (K.adds (K.holds keeper.old) (logged (lines_for entries.now)) (K.holds keeper.new)) }
    ensures err { OnErr result (FailsAt K.is_safe K.adds K.leaves (K.holds keeper.old) (K.holds keeper.new) (lines_for entries.now)) }
{
    if entries.is_empty() {
        return Ok(());
    }
    append_entries(keeper, entries)
}

impl<'a, P: Plans, const LOGGED: bool> Manned<'a, P, LOGGED> {
    /// What waits of a line that was left in its midst.
    pub(crate) fn left(&self) -> &[u8]
        requires { self.now.begun ≤ length self.now.said.now.items }
        ensures { result.now ≡ drop self.now.begun self.now.said.now.items }
    {
        &self.said.as_slice()[self.begun..]
    }
}

impl<'a, P: Plans, const LOGGED: bool> Machine for Manned<'a, P, LOGGED> {
    ghost State = { Manning P };

    ghost stands = { λ m s. StandsSo m.warehouse.now.book m.spares.now.items m.vehicles.now m.asker (record { warehouse = m.warehouse.ghost_name; spares = m.spares.ghost_name; vehicles = m.vehicles.ghost_name }) m.halted m.first m.begun m.said.now.items s };

    ghost says = { λ m s. said_of m.halted m.said.now.items };

    ghost logs = { λ m s. kept_by LOGGED (drop m.first m.warehouse.now.book.history) m.came.now.items };

    ghost has_room = { λ m. Unit {0} };

    ghost serves = { λ s line told kept e. ServesManned P.fits_map P.slot_count LOGGED s line told kept e };

    ghost halts = { λ s line halt e. HaltsManned P.fits_map P.slot_count LOGGED s line halt e };

    ghost may_starve = { true };

    ghost serves_last = { cond LOGGED false true };

    fn serves_last(&self) -> bool {
        !LOGGED
    }

    fn is_over(&self) -> bool {
        false
    }

    fn is_full(&self) -> bool {
        self.said.len() >= MOST_SAID
    }

    fn clear(&mut self) {
        self.first = self.warehouse.history().len();
        self.came.clear();
        if !self.halted {
            self.said.clear();
            self.begun = 0;
        }
    }

    fn serve(&mut self, line: &CommandLine) -> Result<(), Halt> {
        if self.halted {
            return Err(Halt::Failed);
        }
        self.begun = self.said.as_slice().len();
        match note(
            LOGGED,
            self.came,
            line,
            self.vehicles.order(),
            self.warehouse.history().len(),
        ) {
            Ok(()) => {}
            Err(_) => {
                self.halted = true;
                return Err(Halt::NoMemory);
            }
        }
        match serve(
            line,
            self.command,
            self.alloc,
            self.asker,
            self.said,
            self.warehouse,
            self.spares,
            self.vehicles,
        ) {
            Ok(()) => Ok(()),
            Err(fault) => {
                self.halted = true;
                Err(halt_of(fault))
            }
        }
    }

    fn serve_front(&mut self, _waiting: &[u8]) -> Option<usize> {
        None
    }

    fn keep<K: Keeper>(&self, keeper: &mut K) -> Result<(), KeepFault> {
        if !LOGGED {
            return Ok(());
        }
        match add_entries(keeper, behind(self.warehouse.history(), self.first)) {
            Ok(()) => {}
            Err(fault) => return Err(fault),
        }
        match keeper.add_more(self.came.as_slice()) {
            Ok(()) => {}
            Err(fault) => return Err(fault),
        }
        keeper.sync()
    }

    fn tell<W: Write>(&self, writer: &mut W) -> Result<(), WriteFault> {
        if self.halted {
            return Ok(());
        }
        write_all(writer, self.said.as_slice())
    }
}
