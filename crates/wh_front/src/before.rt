//! The log before a front.

ghost use Rattle.std.specs.Prelude.{◌≡◌, ◌≤◌, ◌||◌, ◌&&◌, nat_le, true, length};
ghost use Rattle.std.specs.List.{list_all};
ghost use Rattle.wh_front.specs.Sums as sums;
ghost use Rattle.wh_front.specs.Sums.{is_sum, sum_of};

use arrayvec::ArrayVec;
use std::marker::Model;
use wh_event::put;

/// The SHA-256 of a text: 64 hexadecimal digits, `0` to `9` and `a` to `f`.
#[derive(Drop)]
pub struct Sum {
    digits: ArrayVec<u8, 64>,
}

impl Model for Sum {
    ghost use Rattle.std.specs.Prelude.{◌≡◌, ℕ, List, true};
    ghost use Rattle.wh_front.specs.Sums.{is_sum};

    ghost Value = { List ℕ };

    ghost view = { λ s. s.digits.items };

    ghost invariant = { λ s. is_sum s.digits.items ≡ true };
}

/// What came before a front.
#[derive(Drop)]
pub enum Before {
    /// Nothing: the run begins here.
    Nothing,
    /// A log that has ended.
    Log {
        /// Its number in the chain, from 1.
        number: u32,
        /// How many bytes it has.
        bytes: u64,
        /// The sum of its bytes.
        sum: Sum,
    },
}

fn is_sum_digit(b: u8) -> bool
    ensures { result ≡ sums.is_sum_digit b }
{
    b >= b'0' && b <= b'9' || b >= b'a' && b <= b'f'
}

fn all_sum_digits(word: &[u8]) -> bool
    ensures { result ≡ list_all sums.is_sum_digit word.now }
{
    word.iter().all(|b| is_sum_digit(*b))
}

/// The bytes, in a place of their own.
fn kept(word: &[u8]) -> ArrayVec<u8, 64>
    requires { length word.now ≤ 64 }
    ensures { result.items ≡ word.now }
{
    let mut digits = ArrayVec::new();
    put(&mut digits, word);
    digits
}

impl Sum {
    /// The sum that a word writes: `None` where it has not 64 bytes, or another byte than a small hexadecimal digit.
    pub fn read(word: &[u8]) -> Option<Sum>
        ensures { result ≡ sum_of word.now }
    {
        if word.len() != 64 || !all_sum_digits(word) {
            return None;
        }
        Some(Sum { digits: kept(word) })
    }

    /// Its 64 digits.
    pub fn as_slice(&self) -> &[u8]
        ensures value { result.now ≡ self.now }
        ensures sum { is_sum self.now ≡ true }
    {
        self.digits.as_slice()
    }
}
