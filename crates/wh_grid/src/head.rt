//! The lines before the rows.

ghost use Rattle.std.specs.Prelude.{◌≡◌, ◌≤◌, IfOk};
ghost use Rattle.wh_grid.specs.declared.fault.MapKind.TheVariants.{Head};
ghost use Rattle.wh_grid.specs.MapLines as lines_of_maps;
ghost use Rattle.wh_grid.specs.MapLines.{length_by, type_by, map_by, side_by};
ghost use Rattle.wh_grid.specs.Maps.{head_of};
ghost use Rattle.wh_grid.specs.Faults.{Reads, line_by};
ghost use Rattle.wh_text.specs.Words.{words_of};
ghost use Rattle.wh_text.specs.Numbers.{number_of};

use crate::fault::{Fault, MapKind, located, next_line};
use wh_text::{Lines, Words, number_up_to};

/// One of a map's two sides.
#[derive(Clone, Copy, Debug, PartialEq, Eq)]
pub enum Side {
    Height,
    Width,
}

/// How long the sides are.
#[derive(Clone, Copy, Debug, PartialEq, Eq)]
pub struct Size {
    pub width: u16,
    pub height: u16,
}

const LONGEST: u32 = 4096;

fn type_line(line: &[u8]) -> Result<(), MapKind>
    ensures { result ≡ lines_of_maps.type_line line.now }
{
    let mut words = Words::of(line);
    let (Some(name), Some(_), None) = (words.next_word(), words.next_word(), words.next_word())
    else {
        return Err(MapKind::Head);
    };
    if name == b"type".as_slice() {
        Ok(())
    } else {
        Err(MapKind::Head)
    }
}

fn map_line(line: &[u8]) -> Result<(), MapKind>
    ensures { result ≡ lines_of_maps.map_line line.now }
{
    let mut words = Words::of(line);
    let (Some(name), None) = (words.next_word(), words.next_word()) else {
        return Err(MapKind::Head);
    };
    if name == b"map".as_slice() {
        Ok(())
    } else {
        Err(MapKind::Head)
    }
}

impl Side {
    fn name(self) -> &'static [u8]
        ensures { result.now ≡ lines_of_maps.name_of_side self }
    {
        match self {
            Side::Height => b"height",
            Side::Width => b"width",
        }
    }

    fn other(self) -> Side
        ensures { result ≡ lines_of_maps.other_side self }
    {
        match self {
            Side::Height => Side::Width,
            Side::Width => Side::Height,
        }
    }
}

fn side_length(digits: &[u8]) -> Result<u16, MapKind>
    ensures value { result ≡ length_by (number_of digits.now) }
    ensures bound { IfOk result (λ n. n ≤ 4096) }
{
    match number_up_to(digits, LONGEST + 1) {
        None => Err(MapKind::Head),
        Some(0) => Err(MapKind::Size),
        Some(n) if n > LONGEST => Err(MapKind::TooLarge),
        Some(n) => Ok(n as u16),
    }
}

fn side_line(side: Side, line: &[u8]) -> Result<u16, MapKind>
    ensures value { result ≡ lines_of_maps.side_line side line.now }
    ensures bound { IfOk result (λ n. n ≤ 4096) }
{
    let mut words = Words::of(line);
    let (Some(name), Some(digits), None) = (words.next_word(), words.next_word(), words.next_word())
    else {
        return Err(MapKind::Head);
    };
    if name == side.name() {
        side_length(digits)
    } else {
        Err(MapKind::Head)
    }
}

/// The side that a line names, where it names one.
fn side_named(line: &[u8]) -> Side
    ensures { result ≡ lines_of_maps.side_named (words_of line.now) }
{
    match Words::of(line).next_word() {
        Some(name) if name == b"width".as_slice() => Side::Width,
        _ => Side::Height,
    }
}

fn first_side_line(line: &[u8]) -> Result<(Side, u16), MapKind>
    ensures value { result ≡ lines_of_maps.first_side_line line.now }
    ensures bound { IfOk result (λ side. side.1 ≤ 4096) }
{
    let side = side_named(line);
    let length = side_line(side, line)?;
    Ok((side, length))
}

fn read_type(lines: &mut Lines) -> Result<(), Fault>
    ensures { Reads (λ x. x) result lines.new (line_by Head lines_of_maps.type_line lines.old) }
{
    let line = next_line(lines, MapKind::Head)?;
    located(lines, type_line(line))
}

fn read_first_side(lines: &mut Lines) -> Result<(Side, u16), Fault>
    ensures value { Reads (λ x. x) result lines.new (line_by Head lines_of_maps.first_side_line lines.old) }
    ensures bound { IfOk result (λ side. side.1 ≤ 4096) }
{
    let line = next_line(lines, MapKind::Head)?;
    located(lines, first_side_line(line))
}

fn read_side(side: Side, lines: &mut Lines) -> Result<u16, Fault>
    ensures value { Reads (λ x. x) result lines.new (line_by Head (lines_of_maps.side_line side) lines.old) }
    ensures bound { IfOk result (λ n. n ≤ 4096) }
{
    let line = next_line(lines, MapKind::Head)?;
    located(lines, side_line(side, line))
}

fn read_map(lines: &mut Lines) -> Result<(), Fault>
    ensures { Reads (λ x. x) result lines.new (line_by Head lines_of_maps.map_line lines.old) }
{
    let line = next_line(lines, MapKind::Head)?;
    located(lines, map_line(line))
}

/// The four lines before the rows.
#[tactic(auto, unfolding(crate::specs::Maps::head_of))]
pub fn read_head(lines: &mut Lines) -> Result<Size, Fault>
    ensures value { Reads (λ size. size) result lines.new (head_of lines.old) }
    ensures width { IfOk result (λ size. size.width ≤ 4096) }
    ensures height { IfOk result (λ size. size.height ≤ 4096) }
{
    read_type(lines)?;
    let (side, first) = read_first_side(lines)?;
    let second = read_side(side.other(), lines)?;
    read_map(lines)?;
    Ok(match side {
        Side::Height => Size {
            width: second,
            height: first,
        },
        Side::Width => Size {
            width: first,
            height: second,
        },
    })
}
