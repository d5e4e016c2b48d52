//! The log behind which a front stands.
#![tactic(auto)]

ghost use Rattle.std.specs.Prelude.{◌≡◌, ◌≤◌, ◌++◌, ℕ, List, IfOk, IfNone, IfSome, length, take};
ghost use Rattle.sha2.specs.Sha256.{sha256};
ghost use Rattle.hex.specs.Hex.{encode_lower};
ghost use Rattle.wh_log.specs.Ranges.{IsSmall};
ghost use Rattle.wh_front.specs.Ranges.{BeforeFits};
ghost use Rattle.wh_front.specs.declared.before.Before.TheVariants as before;
ghost use Rattle.wh_resume.specs.Behind.{entries_told};
ghost use Rattle.wh_handover.specs.Prefaces.{number_had};

use crate::sum::sum_of;
use std::alloc::Global;
use wh_event::Entry;
use wh_front::Before;
use wh_log::{NoMemory, entries_text};
use wh_resume::Preface;

/// The number above which no log is numbered.
const LAST_NUMBER: u32 = 999_999_999;

/// The number of a log in its chain, which told this before its entries: none where that is more than a front can tell.
pub(crate) fn number_of(preface: &Option<Preface>) -> Option<u32>
    ensures some { IfSome result (λ number. (number ≡ number_had preface.now) × (1 ≤ number) × IsSmall number) }
    ensures none { IfNone result (IsSmall (number_had preface.now) → ⊥) }
{
    match preface {
        None => Some(1),
        Some(preface) => match &preface.head.before {
            Before::Nothing => Some(1),
            Before::Log { number, .. } if *number < LAST_NUMBER => Some(*number + 1),
            Before::Log { .. } => None,
        },
    }
}

/// The log of this number that these bytes are.
fn log_of(number: u32, log: &[u8]) -> Before
    requires range { (1 ≤ number) × IsSmall number }
    ensures value { result ≡ before.Log number (length log.now) (encode_lower (sha256 log.now)) }
    ensures fits { BeforeFits result }
{
    let sum = sum_of(log);
    let _digits = sum.as_slice();
    Before::Log {
        number,
        bytes: log.len() as u64,
        sum,
    }
}

/// The log of this number as far as the entry of this place, where a text begins with what stands before the entries and with theirs, which
/// are so many bytes.
pub(crate) fn before_of(
    alloc: Global,
    number: u32,
    text: &[u8],
    bytes: usize,
    history: &[Entry],
    count: usize,
) -> Result<Before, NoMemory>
    requires range { (1 ≤ number) × IsSmall number }
    requires holds { (head : List ℕ) × (rest : List ℕ) × (text.now ≡ (head ++ entries_told history.now) ++ rest) × (bytes ≡ length (head ++ entries_told history.now)) }
    requires within { count ≤ length history.now }
    ensures value { IfOk result (λ told. (head rest : List ℕ) → text.now ≡ (head ++ entries_told history.now) ++ rest → bytes ≡ length (head ++ entries_told history.now)
        → told ≡ before.Log number (length (head ++ entries_told (take count history.now))) (encode_lower (sha256 (head ++ entries_told (take count history.now))))) }
    ensures fits { IfOk result BeforeFits }
{
    let later = entries_text(alloc, &history[count..])?;
    let more = later.as_slice().len();
    Ok(log_of(number, &text[..bytes - more]))
}
