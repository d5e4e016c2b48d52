//! Has all delivered that can be, and keeps and tells what that was.

ghost use Rattle.std.specs.Prelude.{◌≡◌, ◌≤◌, drop, length, true, false, IfErr, OnOk, OnErr, List};
ghost use Rattle.std.specs.Io.KnownBytes.{Appends};
ghost use Rattle.wh_lines.specs.Output.{WritesFront};
ghost use Rattle.wh_event.specs.declared.entry.Entry.{Entry as Line};
ghost use Rattle.wh_log.specs.Told.{told_text};
ghost use Rattle.wh_replay.specs.Answers.{text_of};
ghost use Rattle.wh_replay.specs.Appending.{lines_for, logged};
ghost use Rattle.wh_delivery.specs.Deliveries.{GoesOn};
ghost use Rattle.wh_deliver.specs.Delivers.{ComesToRest, Delivers, DeliversShort, Does, KeepsShort, MayDeliver, Settles, SettlesShort, replies_of};

use crate::settling::{keep_entries, tell_entries};
use std::alloc::Global;
use std::io::Write;
use wh_core::LAST_CLOCK;
use wh_delivery::{BrokenOff, deliver_all};
use wh_event::Entry;
use wh_log::Form;
use wh_planner::Plans;
use wh_replay::{Asker, Warehouse};
use wh_session::Keeper;

/// Why not all was delivered, kept and told.
#[derive(Clone, Copy, Debug, PartialEq, Eq)]
pub enum DeliverFault {
    /// Memory ran out at a request or a tick. What was done until then is kept and told.
    NoMemory,
    /// The history has more entries than it may: none of the new ones is kept or told.
    TooMany,
    /// The keeper failed: nothing is told.
    Unkept,
    /// The writer failed, or could not be flushed. All is kept.
    Unwritten,
}

/// Tells the replies of the entries from this place on, and flushes.
fn tell<W: Write>(
    form: Form,
    writer: &mut W,
    history: &[Entry],
    first: usize,
    clock: u32,
) -> Result<(), DeliverFault>
    requires { first ≤ length history.now }
    ensures ok { OnOk result (Appends (W.contents writer.old) (W.contents writer.new) (text_of (replies_of (told_text form) first clock (drop first history.now)))) }
    ensures fault { IfErr result (λ fault. fault ≡ DeliverFault.Unwritten) }
    ensures front { OnErr result (WritesFront (W.contents writer.old) (W.contents writer.new) (text_of (replies_of (told_text form) first clock (drop first history.now)))) }
{
    match tell_entries(form, writer, history, first, clock) {
        Ok(()) => match writer.flush() {
            Ok(()) => Ok(()),
            Err(_) => Err(DeliverFault::Unwritten),
        },
        Err(_) => Err(DeliverFault::Unwritten),
    }
}

/// The entries from this place on.
fn behind(history: &[Entry], first: usize) -> &[Entry]
    requires { first ≤ length history.now }
    ensures { result.now ≡ drop first history.now }
{
    &history[first..]
}

/// Has the keeper keep the lines of entries.
fn keep<K: Keeper>(keeper: &mut K, entries: &[Entry]) -> Result<(), DeliverFault>
    requires { K.is_safe (K.holds keeper.old) }
    ensures ok { OnOk result (K.keeps (K.holds keeper.old) (logged (lines_for entries.now)) (K.holds keeper.new)) }
    ensures fault { IfErr result (λ fault. fault ≡ DeliverFault.Unkept) }
    ensures left { OnErr result (K.leaves (K.holds keeper.old) (logged (lines_for entries.now)) (K.holds keeper.new)) }
{
    match keep_entries(keeper, entries) {
        Ok(()) => Ok(()),
        Err(_) => Err(DeliverFault::Unkept),
    }
}

/// Agents ask and the clock ticks until all stands still, or is stuck. Where the warehouse is closed, or its clock at its last, nothing is done.
fn go_on<P: Plans>(
    alloc: Global,
    warehouse: &mut Warehouse<P>,
    caller: u32,
) -> Result<(), DeliverFault>
    ensures does { (added : List Line) × Does caller warehouse.old.book added warehouse.new.book }
    ensures rests { OnOk result (ComesToRest warehouse.old.book warehouse.new.book) }
    ensures fault { IfErr result (λ fault. fault ≡ DeliverFault.NoMemory) }
{
    if warehouse.closed() || warehouse.clock() >= LAST_CLOCK {
        return Ok(());
    }
    match deliver_all(alloc, warehouse, caller) {
        Ok(_) | Err(BrokenOff::Closed | BrokenOff::ClockFull | BrokenOff::Stuck) => Ok(()),
        Err(BrokenOff::NoMemory) => Err(DeliverFault::NoMemory),
    }
}

/// Keeps and tells the entries from this place on, the first of which found the clock so, where the history has no more than the most.
fn settle<W: Write, K: Keeper>(
    form: Form,
    keeper: &mut K,
    writer: &mut W,
    history: &[Entry],
    first: usize,
    clock: u32,
    most: usize,
) -> Result<(), DeliverFault>
    requires within { first ≤ length history.now }
    requires safe { K.is_safe (K.holds keeper.old) }
    ensures ok { OnOk result (Settles K.keeps most (told_text form) clock history.now first (W.contents writer.old) (W.contents writer.new) (K.holds keeper.old) (K.holds keeper.new)) }
    ensures fault { IfErr result (λ fault. SettlesShort K.keeps K.leaves fault most (told_text form) clock history.now first (W.contents writer.old) (W.contents writer.new) (K.holds keeper.old) (K.holds keeper.new)) }
{
    if history.len() > most {
        return Err(DeliverFault::TooMany);
    }
    match keep(keeper, behind(history, first)) {
        Ok(()) => tell(form, writer, history, first, clock),
        Err(fault) => Err(fault),
    }
}

/// Has all delivered that can be: agents ask and the clock ticks until all stands still, or is stuck (`deliver_all`); then the keeper keeps the lines of
/// these entries, and then their replies are written, in this form, and the writer is flushed. Where the warehouse is closed, or its clock at its
/// last, nothing is done. The history may have so many entries at most.
///
/// Where memory runs out on the way, what was done until then is kept and told, and that is the fault. Where the history has too many
/// entries, none of the new ones is kept or told.
pub fn deliver<W: Write, K: Keeper, P: Plans>(
    alloc: Global,
    asker: Asker,
    keeper: &mut K,
    writer: &mut W,
    warehouse: &mut Warehouse<P>,
    most: usize,
) -> Result<(), DeliverFault>
    requires safe { K.is_safe (K.holds keeper.old) }
    ensures ok { OnOk result ((added : List Line) × Delivers asker most warehouse.old.book warehouse.new.book added (W.contents writer.old) (W.contents writer.new)
        × K.keeps (K.holds keeper.old) (logged (lines_for added)) (K.holds keeper.new)) }
    ensures fault { IfErr result (λ fault. (added : List Line) × DeliversShort fault asker most warehouse.old.book warehouse.new.book added (W.contents writer.old) (W.contents writer.new)
        × KeepsShort K.keeps K.leaves fault (K.holds keeper.old) (logged (lines_for added)) (K.holds keeper.new)) }
{
    let first = warehouse.history().len();
    let clock = warehouse.clock();
    let came = go_on(alloc, warehouse, asker.caller);
    match settle(
        asker.form,
        keeper,
        writer,
        warehouse.history(),
        first,
        clock,
        most,
    ) {
        Ok(()) => came,
        Err(fault) => Err(fault),
    }
}

/// Has all delivered that can be, where that is asked for.
pub fn may_deliver<W: Write, K: Keeper, P: Plans>(
    is_asked: bool,
    alloc: Global,
    asker: Asker,
    keeper: &mut K,
    writer: &mut W,
    warehouse: &mut Warehouse<P>,
    most: usize,
) -> Result<(), DeliverFault>
    requires safe { K.is_safe (K.holds keeper.old) }
    ensures ok { OnOk result ((added : List Line) × MayDeliver is_asked asker most warehouse.old.book warehouse.new.book added (W.contents writer.old) (W.contents writer.new)
        × K.keeps (K.holds keeper.old) (logged (lines_for added)) (K.holds keeper.new)) }
    ensures asked { OnErr result (is_asked ≡ true) }
    ensures fault { IfErr result (λ fault. (added : List Line) × DeliversShort fault asker most warehouse.old.book warehouse.new.book added (W.contents writer.old) (W.contents writer.new)
        × KeepsShort K.keeps K.leaves fault (K.holds keeper.old) (logged (lines_for added)) (K.holds keeper.new)) }
{
    if !is_asked {
        return Ok(());
    }
    deliver(alloc, asker, keeper, writer, warehouse, most)
}
