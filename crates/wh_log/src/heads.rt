//! Reads the first two lines of a log, and the last.

ghost use Rattle.std.specs.Prelude.{◌≡◌, ◌≤◌, ◌<◌, ◌^◌, IfOk, IfSome, IfNone, Err};
ghost use Rattle.wh_words.specs.Words.{words_of};
ghost use Rattle.wh_log.specs.Reading.{Gives, Fails};
ghost use Rattle.wh_log.specs.Heads as reading;
ghost use Rattle.wh_log.specs.Logs as logs;
ghost use Rattle.wh_log.specs.Places.{IsNoStart, IsNoEnd};
ghost use Rattle.wh_log.specs.declared.entry_fault.EntryFault.TheVariants.{Form};

use crate::entry_fault::EntryFault;
use crate::read_words::{clock_number, literal};
use crate::version::Version;
use std::alloc::Global;
use wh_words::{Words, numeral};

/// The version that the first line tells.
pub fn version(line: &[u8]) -> Option<Version>
    ensures { result ≡ reading.version_of line.now }
{
    if line == b"wlog 1".as_slice() {
        Some(Version::One)
    } else if line == b"wlog 2".as_slice() {
        Some(Version::Two)
    } else {
        None
    }
}

/// How many stops a task may have.
pub fn most_stops(version: Version) -> usize
    ensures value { result ≡ logs.most_stops version }
    ensures bound { result ≤ 8 }
{
    match version {
        Version::One => 2,
        Version::Two => 8,
    }
}

fn slot(word: &[u8]) -> Option<u32>
    ensures { result ≡ reading.slot_of word.now }
{
    let number = numeral(word)?;
    if number >= 2 && number <= 64 {
        Some(number)
    } else {
        None
    }
}

fn slots(alloc: Global, mut words: Words) -> Result<Vec<u32>, EntryFault>
    ensures { Gives (λ slots. slots.items) result (reading.slots_of words.entry) }
{
    let mut slots = Vec::new(alloc);
    while let Some(word) = words.next_word() {
        let Some(slot) = slot(word) else {
            return Err(EntryFault::Form);
        };
        slots.push(slot)?;
    }
    Ok(slots)
}

fn few(slots: Vec<u32>) -> Result<Vec<u32>, EntryFault>
    ensures { Gives (λ few. few.items) result (reading.few_of slots.items) }
{
    if !slots.is_empty() && slots.len() <= 256 {
        Ok(slots)
    } else {
        Err(EntryFault::Form)
    }
}

#[tactic(auto, unfolding(crate::specs::Heads::start_of))]
fn start_words(alloc: Global, mut words: Words) -> Result<(u32, Vec<u32>), EntryFault>
    ensures { Gives (λ start. (start.0, start.1.items)) result (reading.start_of words.entry) }
{
    literal(&mut words, b"start")?;
    let clock = clock_number(&mut words)?;
    literal(&mut words, b"slots")?;
    let all = slots(alloc, words)?;
    let slots = few(all)?;
    Ok((clock, slots))
}

#[tactic(auto, unfolding(crate::specs::Heads::end_of))]
fn end_words(mut words: Words) -> Option<u32>
    ensures { result ≡ reading.end_of words.entry }
{
    let name = words.next_word()?;
    if name != b"end".as_slice() {
        return None;
    }
    let count = words.next_word()?;
    if words.next_word().is_some() {
        return None;
    }
    numeral(count)
}

/// The clock and the slots that the second line tells.
pub fn start(alloc: Global, line: &[u8]) -> Result<(u32, Vec<u32>), EntryFault>
    ensures found { IfOk result (λ start. (line.now ≡ logs.start_line start.0 start.1.items) × logs.Opens start.0 start.1.items) }
    ensures form { result ≡ Err Form → IsNoStart line.now }
{
    start_words(alloc, Words::of(line))
}

/// The count that an end line tells.
pub fn end_count(line: &[u8]) -> Option<u32>
    ensures found { IfSome result (λ count. (line.now ≡ logs.end_line count) × (count < 10 ^ 9)) }
    ensures none { IfNone result (IsNoEnd line.now) }
{
    end_words(Words::of(line))
}
