//! Writes words, each behind a space.

ghost use Rattle.std.specs.Prelude.{◌≡◌, ◌++◌, ◌∷◌, [], OnOk, map, decimal, length, ◌≤◌};
ghost use Rattle.wh_log.specs.Spaced.{spaced};
ghost use Rattle.wh_log.specs.Spelling.{cell_word};

use arrayvec::ArrayVec;
use std::alloc::AllocError;
use wh_event::put_number;
use wh_grid::Cell;
use wh_log::cell_piece;

/// Writes a space and a word.
pub fn push_word(out: &mut Vec<u8>, word: &[u8]) -> Result<(), AllocError>
    ensures { OnOk result (out.new.items ≡ out.old.items ++ 32 ∷ word.now) }
{
    out.push(b' ')?;
    out.extend_from_slice(word)?;
    Ok(())
}

/// Writes a text of few bytes, and then a number.
pub fn push_behind(out: &mut Vec<u8>, text: &[u8], number: u64) -> Result<(), AllocError>
    requires { length text.now ≤ 16 }
    ensures { OnOk result (out.new.items ≡ out.old.items ++ text.now ++ decimal number) }
{
    let mut word = ArrayVec::new();
    put_number(&mut word, text, number);
    out.extend_from_slice(word.as_slice())?;
    Ok(())
}

/// Writes a space and a number.
pub fn push_number(out: &mut Vec<u8>, number: u64) -> Result<(), AllocError>
    ensures { OnOk result (out.new.items ≡ out.old.items ++ 32 ∷ decimal number) }
{
    push_behind(out, b" ", number)
}

/// Writes numbers, each behind a space.
pub fn push_numbers(out: &mut Vec<u8>, numbers: &[u32]) -> Result<(), AllocError>
    ensures { OnOk result (out.new.items ≡ out.old.items ++ spaced (map decimal numbers.now)) }
{
    for number in numbers {
        push_number(out, u64::from(*number))?;
    }
    Ok(())
}

/// Writes cells, each behind a space.
pub fn push_cells(out: &mut Vec<u8>, cells: &[Cell]) -> Result<(), AllocError>
    ensures { OnOk result (out.new.items ≡ out.old.items ++ spaced (map cell_word cells.now)) }
{
    for cell in cells {
        out.extend_from_slice(cell_piece(*cell).as_slice())?;
    }
    Ok(())
}
