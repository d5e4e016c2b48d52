//! How replies are told.

ghost use Rattle.std.specs.Prelude.{◌≡◌, ◌++◌, ◌∷◌, ◌≤◌, ◌<◌, ◌+◌, ◌^◌, [], OnOk, OnErr, length, map, take, codes, decimal};
ghost use Rattle.std.specs.Io.KnownBytes.{Appends};
ghost use Rattle.wh_lines.specs.Output.{WritesFront};
ghost use Rattle.wh_log.specs.Spaced.{spaced};
ghost use Rattle.wh_log.specs.Spelling.{cell_word};
ghost use Rattle.wh_log.specs.Told.{full_text, placed_text, told_text};

use crate::pieces::{cell_piece, path_of, reply_head};
use arrayvec::ArrayVec;
use std::io::Write;
use wh_event::{Reply, put, put_number, write_reply};
use wh_grid::Cell;
use wh_lines::{WriteFault, write_all};
use wh_path::TimedPath;

/// How a reply is told.
#[derive(Clone, Copy, Debug, PartialEq, Eq)]
pub enum Form {
    /// Of a path its last index alone.
    Short,
    /// As the log has it, with each cell of a path.
    Full,
    /// Its entry's place in the history and the clock before that, and then as the log has it.
    Placed,
}

/// Writes a space and a cell.
fn write_cell<W: Write>(writer: &mut W, cell: Cell) -> Result<(), WriteFault>
    ensures ok { OnOk result (Appends (W.contents writer.old) (W.contents writer.new) (32 ∷ cell_word cell)) }
    ensures err { OnErr result (WritesFront (W.contents writer.old) (W.contents writer.new) (32 ∷ cell_word cell)) }
{
    write_all(writer, cell_piece(cell).as_slice())
}

/// Writes each cell of a path, with a space before it. It takes no memory, however long the path is.
fn write_path<W: Write>(writer: &mut W, path: &TimedPath) -> Result<(), WriteFault>
    ensures ok { OnOk result (Appends (W.contents writer.old) (W.contents writer.new) (spaced (map cell_word path.now))) }
    ensures err { OnErr result (WritesFront (W.contents writer.old) (W.contents writer.new) (spaced (map cell_word path.now))) }
{
    for k in 0..path.remaining() + 1 {
        write_cell(writer, path.at(k))?;
    }
    Ok(())
}

/// Writes a reply as the log has it, without a line's end.
pub fn tell_full<W: Write>(writer: &mut W, reply: &Reply) -> Result<(), WriteFault>
    ensures ok { OnOk result (Appends (W.contents writer.old) (W.contents writer.new) (full_text reply.now)) }
    ensures err { OnErr result (WritesFront (W.contents writer.old) (W.contents writer.new) (full_text reply.now)) }
{
    let head = reply_head(reply);
    match write_all(writer, head.as_slice()) {
        Ok(()) => {}
        Err(fault) => return Err(fault),
    }
    match path_of(reply) {
        Some(path) => write_path(writer, path),
        None => Ok(()),
    }
}

/// Writes the place of an entry in its history and the clock before it, each followed by a space.
fn write_place<W: Write>(writer: &mut W, place: u64, clock: u32) -> Result<(), WriteFault>
    ensures ok { OnOk result (Appends (W.contents writer.old) (W.contents writer.new) (decimal place ++ 32 ∷ (decimal clock ++ 32 ∷ []))) }
    ensures err { OnErr result (WritesFront (W.contents writer.old) (W.contents writer.new) (decimal place ++ 32 ∷ (decimal clock ++ 32 ∷ []))) }
{
    let mut head = ArrayVec::new();
    put_number(&mut head, b"", place);
    put_number(&mut head, b" ", u64::from(clock));
    put(&mut head, b" ");
    write_all(writer, head.as_slice())
}

/// Writes a reply as the log has it, after its entry's place in the history and the clock before that.
fn write_placed<W: Write>(
    writer: &mut W,
    place: u64,
    clock: u32,
    reply: &Reply,
) -> Result<(), WriteFault>
    ensures ok { OnOk result (Appends (W.contents writer.old) (W.contents writer.new) (placed_text (record { place = place; clock = clock; reply = reply.now }))) }
    ensures err { OnErr result (WritesFront (W.contents writer.old) (W.contents writer.new) (placed_text (record { place = place; clock = clock; reply = reply.now }))) }
{
    match write_place(writer, place, clock) {
        Ok(()) => tell_full(writer, reply),
        Err(fault) => Err(fault),
    }
}

/// Writes a reply in this form, without a line's end. Its entry stands at this place in the history, from 0, and the clock
/// before it was this.
pub fn tell<W: Write>(
    form: Form,
    writer: &mut W,
    place: u64,
    clock: u32,
    reply: &Reply,
) -> Result<(), WriteFault>
    ensures ok { OnOk result (Appends (W.contents writer.old) (W.contents writer.new) (told_text form (record { place = place; clock = clock; reply = reply.now }))) }
    ensures err { OnErr result (WritesFront (W.contents writer.old) (W.contents writer.new) (told_text form (record { place = place; clock = clock; reply = reply.now }))) }
{
    match form {
        Form::Short => write_all(writer, write_reply(reply).as_slice()),
        Form::Full => tell_full(writer, reply),
        Form::Placed => write_placed(writer, place, clock, reply),
    }
}
