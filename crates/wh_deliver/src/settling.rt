//! Entries are kept, and their replies told.

ghost use Rattle.std.specs.Prelude.{◌≡◌, ◌≤◌, drop, length, OnErr, OnOk};
ghost use Rattle.std.specs.Io.KnownBytes.{Appends};
ghost use Rattle.wh_lines.specs.Output.{WritesFront};
ghost use Rattle.wh_log.specs.Told.{told_text};
ghost use Rattle.wh_replay.specs.Answers.{reply_line, text_of};
ghost use Rattle.wh_replay.specs.Answers as replies;
ghost use Rattle.wh_replay.specs.Appending.{lines_for, logged};
ghost use Rattle.wh_deliver.specs.Delivers.{replies_of};

use std::io::Write;
use wh_event::{Entry, Reply};
use wh_lines::{WriteFault, write_all};
use wh_log::{Form, tell};
use wh_replay::append_entries;
use wh_session::{KeepFault, Keeper};

/// Has the keeper keep the lines of entries, where it takes any.
pub(crate) fn keep_entries<K: Keeper>(keeper: &mut K, entries: &[Entry]) -> Result<(), KeepFault>
    requires { K.is_safe (K.holds keeper.old) }
    ensures ok { OnOk result (K.keeps (K.holds keeper.old) (logged (lines_for entries.now)) (K.holds keeper.new)) }
    ensures err { OnErr result (K.leaves (K.holds keeper.old) (logged (lines_for entries.now)) (K.holds keeper.new)) }
{
    if !keeper.takes_records() {
        return Ok(());
    }
    match append_entries(keeper, entries) {
        Ok(()) => {}
        Err(fault) => return Err(fault),
    }
    keeper.sync()
}

/// The clock after an entry, by its reply and the clock before it.
fn clock_after(clock: u32, reply: &Reply) -> u32
    ensures { result ≡ replies.clock_after clock reply.now }
{
    match reply {
        Reply::Clock {
            now,
            picked: _,
            dropped: _,
        } => *now,
        _ => clock,
    }
}

/// Tells the reply of an entry, as a line.
fn tell_entry<W: Write>(
    form: Form,
    writer: &mut W,
    place: u64,
    clock: u32,
    reply: &Reply,
) -> Result<(), WriteFault>
    ensures ok { OnOk result (Appends (W.contents writer.old) (W.contents writer.new) (reply_line (told_text form (record { place = place; clock = clock; reply = reply.now })))) }
    ensures err { OnErr result (WritesFront (W.contents writer.old) (W.contents writer.new) (reply_line (told_text form (record { place = place; clock = clock; reply = reply.now })))) }
{
    match tell(form, writer, place, clock, reply) {
        Ok(()) => write_all(writer, b"\n"),
        Err(fault) => Err(fault),
    }
}

/// Tells the replies of the entries from this place on, as lines. The first of them found the clock so.
pub(crate) fn tell_entries<W: Write>(
    form: Form,
    writer: &mut W,
    history: &[Entry],
    first: usize,
    clock: u32,
) -> Result<(), WriteFault>
    requires { first ≤ length history.now }
    ensures ok { OnOk result (Appends (W.contents writer.old) (W.contents writer.new) (text_of (replies_of (told_text form) first clock (drop first history.now)))) }
    ensures err { OnErr result (WritesFront (W.contents writer.old) (W.contents writer.new) (text_of (replies_of (told_text form) first clock (drop first history.now)))) }
{
    let mut before = clock;
    for place in first..history.len() {
        let reply = &history[place].reply;
        match tell_entry(form, writer, place as u64, before, reply) {
            Ok(()) => before = clock_after(before, reply),
            Err(fault) => return Err(fault),
        }
    }
    Ok(())
}
