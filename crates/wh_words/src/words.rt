//! Iterates over the words of a line.

ghost use Rattle.std.specs.Prelude.{◌≡◌, List, ℕ, [], ◌∷◌, cond, MatchOption, position};
ghost use Rattle.std.specs.List.{slice_split};
ghost use Rattle.wh_words.specs.Words.{is_space, words_of};

use crate::cuts::around;
use std::marker::Model;

/// Iterates over the words of a line, separated by one space each.
#[derive(Drop)]
pub struct Words<'a> {
    rest: &'a [u8],
    at_end: bool,
}

impl<'a> Model for Words<'a> {
    ghost Value = { List (List ℕ) };

    ghost view = { λ w. cond w.at_end [] (words_of w.rest.now) };
}

/// Where the first space stands.
fn first_space(text: &[u8]) -> Option<usize>
    ensures { result ≡ position is_space text.now }
{
    text.iter().position(|b| *b == b' ')
}

impl<'a> Words<'a> {
    /// The words of a line: the parts between single spaces, empty ones too.
    pub fn of(line: &'a [u8]) -> Words<'a>
        ensures { result ≡ words_of line.now }
    {
        Words {
            rest: line,
            at_end: false,
        }
    }

    /// The next word, or None at the end.
    pub fn next_word(&mut self) -> Option<&'a [u8]>
        ensures { MatchOption result ((self.old ≡ []) × (self.new ≡ [])) (λ word. self.old ≡ word.now ∷ self.new) }
    {
        if self.at_end {
            return None;
        }
        match first_space(self.rest) {
            Some(end) => {
                let (word, rest) = around(self.rest, end);
                self.rest = rest;
                Some(word)
            }
            None => {
                self.at_end = true;
                Some(self.rest)
            }
        }
    }
}
