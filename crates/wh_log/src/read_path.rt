//! Reads the cells of a path.

ghost use Rattle.std.specs.Prelude.{◌≡◌, ◌+◌, ◌≤◌, nat_le, position};
ghost use Rattle.wh_log.specs.Reading.{Reads, Gives, Fails};
ghost use Rattle.wh_log.specs.Reading as reading;

use crate::entry_fault::EntryFault;
use std::alloc::Global;
use wh_grid::Cell;
use wh_path::TimedPath;
use wh_words::{Words, around, long_numeral};

fn first_comma(word: &[u8]) -> Option<usize>
    ensures { result ≡ position reading.is_comma word.now }
{
    word.iter().position(|b| *b == b',')
}

/// A number of at most 4095.
fn coordinate(word: &[u8]) -> Option<u16>
    ensures { result ≡ reading.coordinate_of word.now }
{
    let number = long_numeral(word, 4)?;
    if number <= 4095 {
        Some(number as u16)
    } else {
        None
    }
}

#[tactic(auto, unfolding(crate::specs::Reading::cell_of))]
fn cell(word: &[u8]) -> Option<Cell>
    ensures { result ≡ reading.cell_of word.now }
{
    let comma = first_comma(word)?;
    let (before, after) = around(word, comma);
    let x = coordinate(before)?;
    let y = coordinate(after)?;
    Some(Cell { x, y })
}

/// Whether two cells are the same or beside each other.
pub fn is_near(a: Cell, b: Cell) -> bool
    ensures { result ≡ nat_le (reading.apart a b) 1 }
{
    let across = u32::from(a.x.saturating_sub(b.x)) + u32::from(b.x.saturating_sub(a.x));
    let along = u32::from(a.y.saturating_sub(b.y)) + u32::from(b.y.saturating_sub(a.y));
    across + along <= 1
}

/// A cell that may follow another.
fn next_cell(last: Cell, word: &[u8]) -> Option<Cell>
    ensures { result ≡ reading.next_cell_of last word.now }
{
    let cell = cell(word)?;
    if is_near(last, cell) {
        Some(cell)
    } else {
        None
    }
}

/// The path that all words that are left tell.
pub fn path(alloc: Global, mut words: Words) -> Result<TimedPath, EntryFault>
    ensures { Gives (λ path. path) result (reading.path_of words.entry) }
{
    let Some(word) = words.next_word() else {
        return Err(EntryFault::Form);
    };
    let Some(first) = cell(word) else {
        return Err(EntryFault::Form);
    };
    let mut path = TimedPath::one(alloc, first)?;
    let mut last = first;
    while let Some(word) = words.next_word() {
        let Some(cell) = next_cell(last, word) else {
            return Err(EntryFault::Form);
        };
        path.push(cell)?;
        last = cell;
    }
    Ok(path)
}
