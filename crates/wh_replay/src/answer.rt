//! The reply to one line of a script.

ghost use Rattle.std.specs.Prelude.{◌≡◌, ◌<◌, ◌≤◌, ℕ, List, [], ◌∷◌, ◌++◌, length, codes, true, false, Ok, Some, IfOk, OnErr};
ghost use Rattle.wh_lines.specs.Text.{short_line};
ghost use Rattle.wh_event.specs.Reading.{Reads};
ghost use Rattle.wh_event.specs.ReplyTexts.{reply_text};
ghost use Rattle.wh_event.specs.declared.entry.Entry.{Entry as Line};
ghost use Rattle.wh_log.specs.Told.{told_text};
ghost use Rattle.wh_replay.specs.Answers.{reply_line, said};
ghost use Rattle.wh_replay.specs.Scripts.{Tells, Serves, ServesUnwritten};

use crate::asker::Asker;
use arrayvec::ArrayVec;
use std::alloc::Global;
use std::io::Write;
use wh_event::{Command, Entry, LineFault, Reply, put, put_reply, read_line_into};
use wh_lines::{CommandLine, WriteFault, write_all};
use wh_log::{Form, tell};
use wh_planner::Plans;
use wh_token::Warehouse;

/// Writes a line, the line feed at its end too, at once.
#[inline(always)]
fn write_line<W: Write>(writer: &mut W, line: &[u8]) -> Result<u64, WriteFault>
    ensures { Tells result (W.contents writer.old) (W.contents writer.new) line.now }
{
    match write_all(writer, line) {
        Ok(()) => Ok(1),
        Err(fault) => Err(fault),
    }
}

/// Puts a reply in few words together, and tells it as a line, at once.
#[inline(never)]
fn tell_words<W: Write>(writer: &mut W, reply: &Reply) -> Result<u64, WriteFault>
    ensures { Tells result (W.contents writer.old) (W.contents writer.new) (reply_line (reply_text reply.now)) }
{
    let mut line = ArrayVec::new();
    put_reply(&mut line, reply);
    put(&mut line, b"\n");
    write_line(writer, line.as_slice())
}

/// Tells a reply in few words, as a line, at once. Most agents rest, and that line stands ready.
#[inline(always)]
fn tell_short<W: Write>(writer: &mut W, reply: &Reply) -> Result<u64, WriteFault>
    ensures { Tells result (W.contents writer.old) (W.contents writer.new) (reply_line (reply_text reply.now)) }
{
    match reply {
        Reply::Rested => write_line(writer, b"rested\n"),
        _ => tell_words(writer, reply),
    }
}

/// Tells a reply in a form that may be long, as a line.
#[inline(never)]
fn tell_long<W: Write>(
    form: Form,
    writer: &mut W,
    place: u64,
    clock: u32,
    reply: &Reply,
) -> Result<u64, WriteFault>
    ensures { Tells result (W.contents writer.old) (W.contents writer.new) (reply_line (told_text form (record { place = place; clock = clock; reply = reply.now }))) }
{
    match tell(form, writer, place, clock, reply) {
        Ok(()) => write_line(writer, b"\n"),
        Err(fault) => Err(fault),
    }
}

/// Tells a reply in this form, as a line.
#[inline(always)]
pub(crate) fn tell_reply<W: Write>(
    form: Form,
    writer: &mut W,
    place: u64,
    clock: u32,
    reply: &Reply,
) -> Result<u64, WriteFault>
    ensures { Tells result (W.contents writer.old) (W.contents writer.new) (reply_line (told_text form (record { place = place; clock = clock; reply = reply.now }))) }
{
    match form {
        Form::Short => tell_short(writer, reply),
        Form::Full | Form::Placed => tell_long(form, writer, place, clock, reply),
    }
}

/// Writes the reply of a history's last entry, as a line.
#[inline(always)]
fn tell_last<W: Write>(
    form: Form,
    writer: &mut W,
    place: u64,
    clock: u32,
    history: &[Entry],
) -> Result<u64, WriteFault>
    ensures { (front : List Line) → (entry : Line) → history.now ≡ front ++ entry ∷ [] → Tells result (W.contents writer.old) (W.contents writer.new) (reply_line (told_text form (record { place = place; clock = clock; reply = entry.reply }))) }
{
    match history {
        [.., entry] => tell_reply(form, writer, place, clock, &entry.reply),
        [] => Ok(0),
    }
}

/// Tells what a command is answered, as a line: the reply of the entry that it added, which has this place and found the clock
/// so; with none it was refused for lack of memory.
#[inline(always)]
fn tell_outcome<W: Write>(
    form: Form,
    writer: &mut W,
    place: u64,
    clock: u32,
    added: bool,
    history: &[Entry],
) -> Result<u64, WriteFault>
    ensures starved { added ≡ false → Tells result (W.contents writer.old) (W.contents writer.new) (reply_line (codes "refused E90")) }
    ensures text { added ≡ true → (front : List Line) → (entry : Line) → history.now ≡ front ++ entry ∷ [] → Tells result (W.contents writer.old) (W.contents writer.new) (reply_line (told_text form (record { place = place; clock = clock; reply = entry.reply }))) }
{
    if added {
        tell_last(form, writer, place, clock, history)
    } else {
        write_line(writer, b"refused E90\n")
    }
}

/// Runs a command, and tells its reply.
// Nearly all commands are requests by agents that rest: with these functions inlined, they are answered without a call.
#[inline(always)]
pub fn obey<W: Write, P: Plans>(
    command: &Command,
    alloc: Global,
    asker: Asker,
    writer: &mut W,
    warehouse: &mut Warehouse<P>,
    spares: &mut Vec<P>,
) -> Result<u64, WriteFault>
    ensures ok { IfOk result (λ count. Serves P.fits_map P.slot_count asker (Ok (Some command.now)) warehouse.old.book spares.old.items warehouse.new.book spares.new.items (W.contents writer.old) (W.contents writer.new) count) }
    ensures few { IfOk result (λ count. count ≤ 1) }
    ensures err { OnErr result (ServesUnwritten P.fits_map P.slot_count asker (Ok (Some command.now)) warehouse.old.book spares.old.items warehouse.new.book spares.new.items (W.contents writer.old) (W.contents writer.new)) }
{
    let before = warehouse.history();
    let place = before.len() as u64;
    let clock = warehouse.clock();
    let added = warehouse.run_event(alloc, asker.caller, command, spares);
    tell_outcome(asker.form, writer, place, clock, added, warehouse.history())
}

/// Reads a line, of which only a front is kept, into a room: whether it asks for a command, which then stands there.
pub fn read_kept(line: &CommandLine, command: &mut Command) -> Result<bool, LineFault>
    ensures { Reads result command.old command.new (said (short_line line.now)) }
{
    match line.text() {
        Some(text) => read_line_into(text, command),
        None => Err(LineFault::TooLong),
    }
}

/// Answers a line, of which only a front is kept. How many replies it got: one, or none where it is skipped. The command is a
/// room for what the line asks.
pub(crate) fn answer<W: Write, P: Plans>(
    line: &CommandLine,
    command: &mut Command,
    alloc: Global,
    asker: Asker,
    writer: &mut W,
    warehouse: &mut Warehouse<P>,
    spares: &mut Vec<P>,
) -> Result<u64, WriteFault>
    ensures ok { IfOk result (λ count. Serves P.fits_map P.slot_count asker (said (short_line line.now)) warehouse.old.book spares.old.items warehouse.new.book spares.new.items (W.contents writer.old) (W.contents writer.new) count) }
    ensures few { IfOk result (λ count. count ≤ 1) }
    ensures err { OnErr result (ServesUnwritten P.fits_map P.slot_count asker (said (short_line line.now)) warehouse.old.book spares.old.items warehouse.new.book spares.new.items (W.contents writer.old) (W.contents writer.new)) }
{
    match read_kept(line, command) {
        Ok(true) => obey(command, alloc, asker, writer, warehouse, spares),
        Ok(false) => Ok(0),
        Err(LineFault::Form) => write_line(writer, b"refused C1\n"),
        Err(LineFault::TooLong) => write_line(writer, b"refused C2\n"),
    }
}
