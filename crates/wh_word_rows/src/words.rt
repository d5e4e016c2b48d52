//! Lines, words and numerals from outside.
use std::test::*;
use wh_words::{Words, around, long_numeral, numeral, whole_line, wide_numeral};

fn are_cut() -> bool {
    whole_line(b"a b\n\nc") == Some((b"a b".as_slice(), b"\nc".as_slice()))
        && whole_line(b"a b").is_none()
        && around(b"4,7", 1) == (b"4".as_slice(), b"7".as_slice())
}

#[test]
fn lines(rt: HostRuntime) {
    assert!(rt; are_cut());
}

fn is_next_word(words: &mut Words, word: &[u8]) -> bool {
    words.next_word() == Some(word)
}

/// Whether these are the words of a line, and all of them, also where it is asked again.
fn are_words(line: &[u8], wanted: &[&[u8]]) -> bool {
    let mut words = Words::of(line);
    for word in wanted {
        if !is_next_word(&mut words, word) {
            return false;
        }
    }
    words.next_word().is_none() && words.next_word().is_none()
}

#[test]
fn words(rt: HostRuntime) {
    assert!(rt; are_words(b"a  bc ", &[b"a", b"", b"bc", b""]));
}

/// Words, each with the number that it is, if it is one.
const NUMERALS: [(&[u8], Option<u32>); 7] = [
    (b"999999999", Some(999_999_999)),
    (b"0", Some(0)),
    (b"", None),
    (b"01", None),
    (b"00", None),
    (b"+1", None),
    (b"1000000000", None),
];

fn is_numeral(word: &[u8], number: Option<u32>) -> bool {
    numeral(word) == number
}

fn are_numerals() -> bool {
    for (word, number) in NUMERALS.iter() {
        if !is_numeral(word, *number) {
            return false;
        }
    }
    true
}

/// Of ten digits, and of twenty: the greatest, and one more.
fn are_long_numerals() -> bool {
    long_numeral(b"1000000000", 10) == Some(1_000_000_000)
        && wide_numeral(b"18446744073709551615") == Some(u64::MAX)
        && wide_numeral(b"18446744073709551616").is_none()
}

#[test]
fn numerals(rt: HostRuntime) {
    assert!(rt; are_numerals() && are_long_numerals());
}
