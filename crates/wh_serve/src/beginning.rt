//! How a connection begins: its client repeats the tag that it was greeted with.
#![tactic(auto)]

ghost use Rattle.std.specs.Prelude.{◌≡◌, ◌≤◌, length};
ghost use Rattle.hex.specs.Hex.{encode_lower};
ghost use Rattle.wh_lines.specs.Text.{short_line};
ghost use Rattle.wh_serve.specs.Texts.{begin_text};
ghost use Rattle.wh_serve.specs.Beginnings.{is_begin};

use crate::doors::Tag;
use arrayvec::ArrayVec;
use wh_event::put;
use wh_lines::CommandLine;

/// The digits of a tag.
pub(crate) fn digits_of(tag: Tag) -> [u8; 16]
    ensures { result ≡ encode_lower tag.bytes }
{
    let mut digits = [0; 16];
    let written = hex::encode_to_slice(tag.bytes, &mut digits);
    prove!(written.is_ok());
    digits
}

/// The line at which a connection begins.
fn begin_line(tag: Tag) -> ArrayVec<u8, 64>
    ensures { result.items ≡ begin_text tag }
{
    let mut line = ArrayVec::new();
    put(&mut line, b"begin ");
    put(&mut line, &digits_of(tag));
    line
}

/// The line at which a connection begins is short. The function does nothing, and its contract is the fact.
#[tactic(auto, using(crate::proofs::Beginnings::begin_fits))]
pub(crate) fn begin_is_short(tag: Tag)
    ensures { length (begin_text tag) ≤ 256 }
{
    let _digits = tag.bytes;
}

/// Whether a connection begins at this line.
pub(crate) fn begins_at(tag: Tag, line: &CommandLine) -> bool
    ensures { result ≡ is_begin tag (short_line line.now) }
{
    match line.text() {
        Some(text) => text == begin_line(tag).as_slice(),
        None => false,
    }
}
