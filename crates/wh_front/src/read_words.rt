//! Reads one word.

ghost use Rattle.std.specs.Prelude.{◌≡◌, ◌<◌, MatchResult, IfSome, Some};
ghost use Rattle.wh_log.specs.Reading as given;
ghost use Rattle.wh_front.specs.Reading as reading;
ghost use Rattle.wh_front.specs.Reading.{Reads, Gives, Fails};
ghost use Rattle.wh_front.specs.Sums.{sum_of};

use crate::before::Sum;
use crate::form_fault::FormFault;
use crate::rules::Kind;
use wh_text::Name;
use wh_words::{Words, long_numeral, numeral, wide_numeral};

/// Goes over a word that must be this one.
pub fn literal(words: &mut Words, text: &[u8]) -> Result<(), FormFault>
    ensures { MatchResult result (λ _. given.literal_at text.now words.old ≡ Some words.new) (λ e. Fails e (given.literal_at text.now words.old)) }
{
    let Some(word) = words.next_word() else {
        return Err(FormFault::Form);
    };
    if word == text {
        Ok(())
    } else {
        Err(FormFault::Form)
    }
}

/// The value, where no word is left.
pub fn at_end<T: Drop>(mut words: Words, value: T) -> Result<T, FormFault>
    ensures { Gives (λ x. x) result (given.at_end words.entry value) }
{
    match words.next_word() {
        Some(_) => Err(FormFault::Form),
        None => Ok(value),
    }
}

/// A number of at most 9 digits.
pub fn small(words: &mut Words) -> Result<u32, FormFault>
    ensures { Reads (λ x. x) result words.new (given.small_at words.old) }
{
    let Some(word) = words.next_word() else {
        return Err(FormFault::Form);
    };
    numeral(word).ok_or(FormFault::Form)
}

/// A number of at most 10 digits.
fn long(words: &mut Words) -> Result<u64, FormFault>
    ensures { Reads (λ x. x) result words.new (given.long_at words.old) }
{
    let Some(word) = words.next_word() else {
        return Err(FormFault::Form);
    };
    long_numeral(word, 10).ok_or(FormFault::Form)
}

/// A clock: at most 1,000,000,000.
pub fn clock_number(words: &mut Words) -> Result<u32, FormFault>
    ensures { Reads (λ x. x) result words.new (given.clock_at words.old) }
{
    let number = long(words)?;
    if number <= 1_000_000_000 {
        Ok(number as u32)
    } else {
        Err(FormFault::Form)
    }
}

/// A number below 2 ^ 64.
pub fn wide(words: &mut Words) -> Result<u64, FormFault>
    ensures { Reads (λ x. x) result words.new (given.wide_at words.old) }
{
    let Some(word) = words.next_word() else {
        return Err(FormFault::Form);
    };
    wide_numeral(word).ok_or(FormFault::Form)
}

/// A name.
pub fn name(words: &mut Words) -> Result<Name, FormFault>
    ensures { Reads (λ x. x) result words.new (given.name_at words.old) }
{
    let Some(word) = words.next_word() else {
        return Err(FormFault::Form);
    };
    Name::read(word).ok_or(FormFault::Form)
}

/// The sum of a text.
pub fn sum(words: &mut Words) -> Result<Sum, FormFault>
    ensures { Reads (λ x. x) result words.new (given.first_at sum_of words.old) }
{
    let Some(word) = words.next_word() else {
        return Err(FormFault::Form);
    };
    Sum::read(word).ok_or(FormFault::Form)
}

fn closed_of(word: &[u8]) -> Option<bool>
    ensures { result ≡ reading.closed_of word.now }
{
    if word == b"open".as_slice() {
        Some(false)
    } else if word == b"closed".as_slice() {
        Some(true)
    } else {
        None
    }
}

/// Whether the state is closed.
pub fn closed(words: &mut Words) -> Result<bool, FormFault>
    ensures { Reads (λ x. x) result words.new (given.first_at reading.closed_of words.old) }
{
    let Some(word) = words.next_word() else {
        return Err(FormFault::Form);
    };
    closed_of(word).ok_or(FormFault::Form)
}

fn kind_of(word: &[u8]) -> Option<Kind>
    ensures { result ≡ reading.kind_of word.now }
{
    if word == b"whole".as_slice() {
        Some(Kind::Whole)
    } else if word == b"stopped".as_slice() {
        Some(Kind::Stopped)
    } else if word == b"edited".as_slice() {
        Some(Kind::Edited)
    } else {
        None
    }
}

/// Where the state comes from.
pub fn kind(words: &mut Words) -> Result<Kind, FormFault>
    ensures { Reads (λ x. x) result words.new (given.first_at reading.kind_of words.old) }
{
    let Some(word) = words.next_word() else {
        return Err(FormFault::Form);
    };
    kind_of(word).ok_or(FormFault::Form)
}

fn slots_of(word: &[u8]) -> Option<u32>
    ensures { result ≡ reading.slots_of word.now }
{
    let number = long_numeral(word, 10)?;
    if number < 4_294_967_296 {
        Some(number as u32)
    } else {
        None
    }
}

/// An agent's slots.
pub fn slots(words: &mut Words) -> Result<u32, FormFault>
    ensures { Reads (λ x. x) result words.new (given.first_at reading.slots_of words.old) }
{
    let Some(word) = words.next_word() else {
        return Err(FormFault::Form);
    };
    slots_of(word).ok_or(FormFault::Form)
}

pub fn caller_of(word: &[u8]) -> Option<u32>
    ensures value { result ≡ reading.caller_of word.now }
    ensures bound { IfSome result (λ n. n < 64) }
{
    let number = numeral(word)?;
    if number < 64 { Some(number) } else { None }
}

/// The number of a caller.
pub fn caller(words: &mut Words) -> Result<u32, FormFault>
    ensures { Reads (λ x. x) result words.new (given.first_at reading.caller_of words.old) }
{
    let Some(word) = words.next_word() else {
        return Err(FormFault::Form);
    };
    caller_of(word).ok_or(FormFault::Form)
}
