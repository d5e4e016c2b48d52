//! The rows of a map, and what follows them.

ghost use Rattle.std.specs.Prelude.{◌≡◌, ◌++◌, List, ℕ, map, take, Ok, Err, OnOk, IfOk, MatchResult, length, ◌*◌};
ghost use Rattle.std.specs.List.{list_all};
ghost use Rattle.wh_text.specs.Words as words;
ghost use Rattle.wh_grid.specs.MapLines as lines_of_maps;
ghost use Rattle.wh_grid.specs.MapLines.{row_line};
ghost use Rattle.wh_grid.specs.Maps.{rows_of, blanks_of};
ghost use Rattle.wh_grid.specs.Faults.{Reads, Gives, line_by};
ghost use Rattle.wh_grid.specs.declared.fault.MapKind.TheVariants.{RowsMissing};

use crate::fault::{Fault, MapFault, MapKind, located, next_line};
use crate::head::Size;
use std::alloc::{AllocError, Global};
use wh_text::{Lines, is_blank};

fn is_passable(b: u8) -> bool
    ensures { result ≡ lines_of_maps.is_passable b }
{
    b == b'.' || b == b'G' || b == b'S'
}

fn is_letter(b: u8) -> bool
    ensures { result ≡ lines_of_maps.is_letter b }
{
    is_passable(b) || b == b'@' || b == b'O' || b == b'T' || b == b'W'
}

fn all_letters(bytes: &[u8]) -> bool
    ensures { result ≡ list_all lines_of_maps.is_letter bytes.now }
{
    bytes.iter().all(|b| is_letter(*b))
}

fn all_blank(line: &[u8]) -> bool
    ensures { result ≡ list_all words.is_blank line.now }
{
    line.iter().all(|b| is_blank(*b))
}

/// A row is its line, where it has no fault.
fn row(line: &[u8], width: u16) -> Result<&[u8], MapKind>
    ensures { MatchResult result (λ row. row_line width line.now ≡ Ok (map lines_of_maps.is_passable row.now)) (λ kind. row_line width line.now ≡ Err kind) }
{
    let columns = &line[..line.len().min(width as usize)];
    if !all_letters(columns) {
        return Err(MapKind::Letter);
    }
    if line.len() != width as usize {
        return Err(MapKind::RowLength);
    }
    Ok(line)
}

fn read_row<'a>(lines: &mut Lines<'a>, width: u16) -> Result<&'a [u8], Fault>
    ensures { Reads (λ row. map lines_of_maps.is_passable row.now) result lines.new (line_by RowsMissing (row_line width) lines.old) }
{
    let line = next_line(lines, MapKind::RowsMissing)?;
    located(lines, row(line, width))
}

/// Writes a row's cells over as many.
fn write_row(cells: &mut [bool], row: &[u8])
    requires { length cells.old ≡ length row.now }
    ensures { cells.new ≡ map lines_of_maps.is_passable row.now }
{
    for i in 0..row.len() {
        cells[i] = is_passable(row[i]);
    }
}

/// Adds a row's cells: room for all of them first, since a push looks for room at each.
fn push_row(walkable: &mut Vec<bool>, row: &[u8]) -> Result<(), AllocError>
    ensures { OnOk result (walkable.new.items ≡ walkable.old.items ++ map lines_of_maps.is_passable row.now) }
{
    let count = walkable.len();
    walkable.resize(count + row.len(), false)?;
    write_row(&mut walkable[count..], row);
    Ok(())
}

/// As many rows as the height says.
pub fn read_rows(alloc: Global, lines: &mut Lines, size: Size) -> Result<Vec<bool>, MapFault>
    ensures value { Gives (λ walkable. (walkable.items, lines.new)) result (rows_of size.height size.width lines.old) }
    ensures size { IfOk result (λ walkable. length walkable.items ≡ size.width * size.height) }
{
    let mut walkable = Vec::new(alloc);
    for _ in 0..size.height {
        let row = read_row(lines, size.width)?;
        push_row(&mut walkable, row)?;
    }
    Ok(walkable)
}

/// Nothing but blanks may follow.
pub fn read_blanks(lines: &mut Lines) -> Result<(), Fault>
    ensures { result ≡ blanks_of lines.old.count lines.old.lines }
{
    while let Some(line) = lines.next_line() {
        if !all_blank(line) {
            return Err(Fault {
                kind: MapKind::TextAfter,
                line: lines.count(),
            });
        }
    }
    Ok(())
}
