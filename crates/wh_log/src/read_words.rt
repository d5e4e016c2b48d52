//! Reads one word.

ghost use Rattle.std.specs.Prelude.{◌≡◌, MatchResult};
ghost use Rattle.wh_log.specs.Reading.{Reads, Gives, Fails};
ghost use Rattle.wh_log.specs.Reading as reading;

use crate::bounds::LAST_CLOCK;
use crate::entry_fault::EntryFault;
use wh_text::Name;
use wh_words::{Words, long_numeral, numeral, wide_numeral};

/// Goes over a word that must be this one.
pub fn literal(words: &mut Words, text: &[u8]) -> Result<(), EntryFault>
    ensures { MatchResult result (λ _. reading.literal_at text.now words.old ≡ Some words.new) (λ e. Fails e (reading.literal_at text.now words.old)) }
{
    let Some(word) = words.next_word() else {
        return Err(EntryFault::Form);
    };
    if word == text {
        Ok(())
    } else {
        Err(EntryFault::Form)
    }
}

/// The value, where no word is left.
pub fn at_end<T: Drop>(mut words: Words, value: T) -> Result<T, EntryFault>
    ensures { Gives (λ x. x) result (reading.at_end words.entry value) }
{
    match words.next_word() {
        Some(_) => Err(EntryFault::Form),
        None => Ok(value),
    }
}

/// A number of at most 9 digits.
pub fn small(words: &mut Words) -> Result<u32, EntryFault>
    ensures { Reads (λ x. x) result words.new (reading.small_at words.old) }
{
    let Some(word) = words.next_word() else {
        return Err(EntryFault::Form);
    };
    numeral(word).ok_or(EntryFault::Form)
}

/// A number of at most 10 digits.
fn long(words: &mut Words) -> Result<u64, EntryFault>
    ensures { Reads (λ x. x) result words.new (reading.long_at words.old) }
{
    let Some(word) = words.next_word() else {
        return Err(EntryFault::Form);
    };
    long_numeral(word, 10).ok_or(EntryFault::Form)
}

/// A clock: a number of at most 10 digits that is at most 1,000,000,000.
pub fn clock_number(words: &mut Words) -> Result<u32, EntryFault>
    ensures { Reads (λ x. x) result words.new (reading.clock_at words.old) }
{
    let number = long(words)?;
    if number <= LAST_CLOCK {
        Ok(number as u32)
    } else {
        Err(EntryFault::Form)
    }
}

/// A number below 2 ^ 64.
pub fn wide(words: &mut Words) -> Result<u64, EntryFault>
    ensures { Reads (λ x. x) result words.new (reading.wide_at words.old) }
{
    let Some(word) = words.next_word() else {
        return Err(EntryFault::Form);
    };
    wide_numeral(word).ok_or(EntryFault::Form)
}

/// A name.
pub fn name(words: &mut Words) -> Result<Name, EntryFault>
    ensures { Reads (λ x. x) result words.new (reading.name_at words.old) }
{
    let Some(word) = words.next_word() else {
        return Err(EntryFault::Form);
    };
    Name::read(word).ok_or(EntryFault::Form)
}
