//! Reads numerals.

ghost use Rattle.std.specs.Prelude.{◌≡◌, ◌≤◌, ◌<◌, ◌^◌, length, true, IfSome, SomeIff};
ghost use Rattle.std.specs.List.{list_all};
ghost use Rattle.wh_text.specs.Numbers as numbers;
ghost use Rattle.wh_words.specs.Numerals as numerals;
ghost use Rattle.wh_words.specs.Numerals.{value_of, numeral_of, wide_numeral_of};

use wh_text::are_digits;

/// Whether a zero leads other digits.
fn has_leading_zero(word: &[u8]) -> bool
    ensures { result ≡ numerals.has_leading_zero word.now }
{
    matches!(word, [b'0', _, ..])
}

/// Whether a word is digits, at least one, with no zero in front of others.
fn is_numeral(word: &[u8]) -> bool
    ensures { result ≡ numerals.is_numeral word.now }
{
    are_digits(word) && !has_leading_zero(word)
}

/// The number that up to 19 digits write.
fn value(digits: &[u8]) -> u64
    requires few { length digits.now ≤ 19 }
    requires digits { list_all numbers.is_digit digits.now ≡ true }
    ensures { result ≡ value_of digits.now }
{
    let mut value: u64 = 0;
    for digit in digits {
        value = 10 * value + u64::from(digit.saturating_sub(b'0'));
    }
    value
}

/// The number that a word of 1 to 9 digits writes, or None: also for a zero in front of other digits.
pub fn numeral(word: &[u8]) -> Option<u32>
    ensures value { result ≡ numeral_of 9 word.now }
    ensures bound { IfSome result (λ n. n < 10 ^ 9) }
{
    if is_numeral(word) && word.len() <= 9 {
        Some(value(word) as u32)
    } else {
        None
    }
}

/// The number that a word writes in 1 to `most_digits` digits, or None: also for a zero in front of other digits.
pub fn long_numeral(word: &[u8], most_digits: usize) -> Option<u64>
    requires { most_digits ≤ 19 }
    ensures { result ≡ numeral_of most_digits word.now }
{
    if is_numeral(word) && word.len() <= most_digits {
        Some(value(word))
    } else {
        None
    }
}

/// The number that a word of 1 to 20 digits writes, or None: also for a zero in front of other digits, and for a
/// number of 2 ^ 64 or more.
pub fn wide_numeral(word: &[u8]) -> Option<u64>
    ensures { result ≡ wide_numeral_of word.now }
{
    if !is_numeral(word) || word.len() > 20 {
        return None;
    }
    if word.len() <= 19 {
        return Some(value(word));
    }
    twenty_digits(word)
}

/// The number that twenty digits write, if it is below 2 ^ 64.
fn twenty_digits(digits: &[u8]) -> Option<u64>
    requires twenty { length digits.now ≡ 20 }
    requires digits { list_all numbers.is_digit digits.now ≡ true }
    ensures { SomeIff result (value_of digits.now < 2 ^ 64) (value_of digits.now) }
{
    let front = value(&digits[..19]);
    let last = u64::from(digits[19].saturating_sub(b'0'));
    if front > (u64::MAX - last) / 10 {
        return None;
    }
    Some(10 * front + last)
}
