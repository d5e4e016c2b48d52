//! Texts with their lines, words, numbers and names, written out by hand.

use wh_text::{Lines, Name, Words, lines_are, number_up_to, small_number, words_are};

fn is_next_line(lines: &mut Lines, line: &[u8]) -> bool {
    lines.next_line() == Some(line)
}

/// Whether these are the lines of a text, and all of them.
fn are_lines(text: &[u8], wanted: &[&[u8]]) -> bool {
    let mut lines = Lines::new(text);
    for line in wanted {
        if !is_next_line(&mut lines, line) {
            return false;
        }
    }
    lines.next_line().is_none() && lines.count() == wanted.len() as u64
}

#[test]
fn line_ends(rt: HostRuntime) {
    assert!(rt; are_lines(b"a\r\n\nb \r\r\n\r", &[b"a", b"", b"b \r", b""]));
}

fn is_next_word(words: &mut Words, word: &[u8]) -> bool {
    words.next_word() == Some(word)
}

/// Whether these are the words of a line, and all of them.
fn are_words(line: &[u8], wanted: &[&[u8]]) -> bool {
    let mut words = Words::of(line);
    for word in wanted {
        if !is_next_word(&mut words, word) {
            return false;
        }
    }
    words.next_word().is_none()
}

#[test]
fn words_between_blanks(rt: HostRuntime) {
    assert!(rt; are_words(b" \tone two\t\tthree ", &[b"one", b"two", b"three"]));
}

/// Words, each with its number, of which there is none above 4097.
const UP_TO_4097: [(&[u8], Option<u32>); 7] = [
    (b"007", Some(7)),
    (b"99999999999999999999999", Some(4097)),
    (b"", None),
    (b"1x", None),
    (b"-1", None),
    (b"/", None),
    (b":", None),
];

/// Words, each with the small number that it is, if it is one.
const SMALL: [(&[u8], Option<u32>); 8] = [
    (b"000000012", Some(12)),
    (b"999999999", Some(999_999_999)),
    (b"0000000012", None),
    (b"", None),
    (b"1x", None),
    (b"-1", None),
    (b"/", None),
    (b":", None),
];

fn is_up_to_4097(word: &[u8], number: Option<u32>) -> bool {
    number_up_to(word, 4097) == number
}

fn are_up_to_4097() -> bool {
    for (word, number) in UP_TO_4097.iter() {
        if !is_up_to_4097(word, *number) {
            return false;
        }
    }
    true
}

fn is_small(word: &[u8], number: Option<u32>) -> bool {
    small_number(word) == number
}

fn are_small() -> bool {
    for (word, number) in SMALL.iter() {
        if !is_small(word, *number) {
            return false;
        }
    }
    true
}

#[test]
fn numbers_in_digits(rt: HostRuntime) {
    assert!(rt; are_up_to_4097() && are_small());
}

/// Words that are no names: a name has 1 to 16 letters, digits, underscores and hyphens.
const NO_NAMES: [&[u8]; 5] = [b"", b"abcdefghijklmnopq", b"a.b", b"a b", b"#"];

fn is_any_name(word: &[u8]) -> bool {
    Name::read(word).is_some()
}

fn is_one_a_name() -> bool {
    for word in NO_NAMES.iter() {
        if is_any_name(word) {
            return true;
        }
    }
    false
}

/// Whether a word is a name, the same as its copy and not the same as another one.
fn is_name(word: &[u8], other: &[u8]) -> bool {
    let (Some(name), Some(other)) = (Name::read(word), Name::read(other)) else {
        return false;
    };
    name.as_slice() == word && name.same(&name.copy()) && !name.same(&other) && name == name.copy()
}

#[test]
fn names_of_16_bytes(rt: HostRuntime) {
    assert!(rt; !is_one_a_name() && is_name(b"AZaz09_-bcdefghi", b"A"));
}

#[test]
fn laws_of_lines_and_words() {
    lines_are();
    words_are();
}
