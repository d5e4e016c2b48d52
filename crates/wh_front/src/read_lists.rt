//! Reads words of two numbers, and lists of them.

ghost use Rattle.std.specs.Prelude.{◌≡◌, ◌<◌, IfSome, position, option_map};
ghost use Rattle.wh_front.specs.Reading as reading;
ghost use Rattle.wh_front.specs.Reading.{Gives, Fails};

use crate::form_fault::FormFault;
use crate::front::Count;
use crate::read_words::caller_of;
use crate::rows::Rows;
use std::alloc::Global;
use wh_grid::Cell;
use wh_words::{Words, around, long_numeral, wide_numeral};

/// What stands before and behind the first such byte of a word.
#[tactic(auto, unfolding(crate::specs::Reading::halves_of))]
pub fn halves(word: &[u8], byte: u8) -> Option<(&[u8], &[u8])>
    ensures { option_map (λ parts. (parts.0.now, parts.1.now)) result ≡ reading.halves_of byte word.now }
{
    let place = first_byte(word, byte)?;
    Some(around(word, place))
}

fn first_byte(word: &[u8], byte: u8) -> Option<usize>
    ensures { result ≡ position (reading.is_byte byte) word.now }
{
    word.iter().position(|b| *b == byte)
}

fn coordinate(word: &[u8]) -> Option<u16>
    ensures { result ≡ reading.coordinate_of word.now }
{
    let number = long_numeral(word, 5)?;
    if number < 65_536 {
        Some(number as u16)
    } else {
        None
    }
}

#[tactic(auto, unfolding(crate::specs::Reading::cell_of))]
fn cell(word: &[u8]) -> Option<Cell>
    ensures { result ≡ reading.cell_of word.now }
{
    let (before, behind) = halves(word, b',')?;
    let x = coordinate(before)?;
    let y = coordinate(behind)?;
    Some(Cell { x, y })
}

/// The cells that all words that are left tell.
pub fn cells(alloc: Global, mut words: Words) -> Result<Vec<Cell>, FormFault>
    ensures { Gives (λ cells. cells.items) result (reading.cells_of words.entry) }
{
    let mut cells = Vec::new(alloc);
    while let Some(word) = words.next_word() {
        let Some(cell) = cell(word) else {
            return Err(FormFault::Form);
        };
        cells.push(cell)?;
    }
    Ok(cells)
}

fn entries_of(word: &[u8]) -> Option<u64>
    ensures { result ≡ reading.entries_of word.now }
{
    let number = wide_numeral(word)?;
    if number >= 1 { Some(number) } else { None }
}

#[tactic(auto, unfolding(crate::specs::Reading::count_of))]
fn count(word: &[u8]) -> Option<Count>
    ensures value { result ≡ reading.count_of word.now }
    ensures bound { IfSome result (λ count. count.caller < 64) }
{
    let (before, behind) = halves(word, b':')?;
    let caller = caller_of(before)?;
    let entries = entries_of(behind)?;
    Some(Count { caller, entries })
}

fn next_count(least: u32, word: &[u8]) -> Option<Count>
    ensures value { result ≡ reading.next_count_of least word.now }
    ensures bound { IfSome result (λ count. count.caller < 64) }
{
    let count = count(word)?;
    if count.caller >= least {
        Some(count)
    } else {
        None
    }
}

/// The counts, by rising callers, that all words that are left tell.
pub fn counts(alloc: Global, mut words: Words) -> Result<Rows<Count>, FormFault>
    ensures { Gives (λ counts. counts) result (reading.counts_of 0 words.entry) }
{
    let mut counts = Rows::none(alloc);
    let mut least = 0;
    while let Some(word) = words.next_word() {
        let Some(count) = next_count(least, word) else {
            return Err(FormFault::Form);
        };
        counts.push(count)?;
        least = count.caller + 1;
    }
    Ok(counts)
}
