//! Writes what follows the first words of a front's lines, each word behind a space.

ghost use Rattle.std.specs.Prelude.{◌≡◌, ◌++◌, ◌∷◌, [], OnOk, map, decimal};
ghost use Rattle.wh_log.specs.Spaced.{spaced};
ghost use Rattle.wh_front.specs.Spelling as spelling;

use crate::before::Before;
use crate::front::Count;
use crate::rules::{Kind, Rules};
use crate::write_words::{push_behind, push_cells, push_number, push_word};
use std::alloc::AllocError;
use wh_path::TimedPath;

/// What came before.
pub fn push_before(out: &mut Vec<u8>, before: &Before) -> Result<(), AllocError>
    ensures { OnOk result (out.new.items ≡ out.old.items ++ spaced (spelling.before_words before.now)) }
{
    match before {
        Before::Nothing => push_word(out, b"0"),
        Before::Log { number, bytes, sum } => {
            push_number(out, u64::from(*number))?;
            push_number(out, *bytes)?;
            push_word(out, sum.as_slice())
        }
    }
}

fn push_ends(out: &mut Vec<u8>, homes: bool) -> Result<(), AllocError>
    ensures { OnOk result (out.new.items ≡ out.old.items ++ spaced (spelling.ends_words homes)) }
{
    if !homes {
        return Ok(());
    }
    push_word(out, b"ends")?;
    push_word(out, b"homes")
}

fn push_age(out: &mut Vec<u8>, age: Option<u32>) -> Result<(), AllocError>
    ensures { OnOk result (out.new.items ≡ out.old.items ++ spaced (spelling.age_words age)) }
{
    let Some(age) = age else {
        return Ok(());
    };
    push_word(out, b"age")?;
    push_number(out, u64::from(age))
}

/// The rules that are not the defaults.
pub fn push_rules(out: &mut Vec<u8>, rules: &Rules) -> Result<(), AllocError>
    ensures { OnOk result (out.new.items ≡ out.old.items ++ spaced (spelling.rules_words rules.now)) }
{
    push_ends(out, rules.homes)?;
    push_age(out, rules.age)
}

fn open_text(closed: bool) -> &'static [u8]
    ensures { result.now ≡ spelling.open_word closed }
{
    if closed { b"closed" } else { b"open" }
}

fn kind_text(kind: Kind) -> &'static [u8]
    ensures { result.now ≡ spelling.kind_word kind }
{
    match kind {
        Kind::Whole => b"whole",
        Kind::Stopped => b"stopped",
        Kind::Edited => b"edited",
    }
}

/// The clock, whether the state is closed, and where it comes from.
pub fn push_state(out: &mut Vec<u8>, clock: u32, closed: bool, kind: Kind) -> Result<(), AllocError>
    ensures { OnOk result (out.new.items ≡ out.old.items ++ spaced (decimal clock ∷ spelling.open_word closed ∷ spelling.kind_word kind ∷ [])) }
{
    push_number(out, u64::from(clock))?;
    push_word(out, open_text(closed))?;
    push_word(out, kind_text(kind))
}

/// How many entries each caller had.
pub fn push_counts(out: &mut Vec<u8>, counts: &[Count]) -> Result<(), AllocError>
    ensures { OnOk result (out.new.items ≡ out.old.items ++ spaced (map spelling.count_word counts.now)) }
{
    for count in counts {
        push_number(out, u64::from(count.caller))?;
        push_behind(out, b":", count.entries)?;
    }
    Ok(())
}

/// An agent's slots and path.
pub fn push_seat(out: &mut Vec<u8>, slots: u32, path: &TimedPath) -> Result<(), AllocError>
    ensures { OnOk result (out.new.items ≡ out.old.items ++ spaced (spelling.seat_words (record { slots = slots; path = path.now }))) }
{
    push_word(out, b"slots")?;
    push_number(out, u64::from(slots))?;
    push_word(out, b"path")?;
    push_cells(out, path.cells())
}
