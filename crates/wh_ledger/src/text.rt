//! The ledger's text.

ghost use Rattle.std.specs.Prelude.{◌≡◌, ◌++◌, ◌∷◌, [], OnOk, IfOk, decimal};
ghost use Rattle.wh_ledger.specs.LedgerTexts as spec;

use crate::row::Row;
use itoa::Buffer;
use std::alloc::{AllocError, Global};

/// Writes a text and a number at the end.
fn push_number(out: &mut Vec<u8>, text: &[u8], number: u64) -> Result<(), AllocError>
    ensures { OnOk result (out.new.items ≡ out.old.items ++ text.now ++ decimal number) }
{
    let mut buffer = Buffer::new();
    out.extend_from_slice(text)?;
    out.extend_from_slice(buffer.format(number).as_bytes())?;
    Ok(())
}

/// Writes a row's line at the end.
fn push_row(out: &mut Vec<u8>, row: &Row) -> Result<(), AllocError>
    ensures { OnOk result (out.new.items ≡ out.old.items ++ (spec.row_text row.now ++ 10 ∷ [])) }
{
    out.extend_from_slice(row.client.as_slice())?;
    push_number(out, b" submitted ", u64::from(row.submitted))?;
    push_number(out, b" open ", u64::from(row.open_tasks))?;
    push_number(out, b" assigned ", u64::from(row.assigned))?;
    push_number(out, b" carried ", u64::from(row.carried))?;
    push_number(out, b" done ", u64::from(row.done))?;
    push_number(out, b" time ", row.time)?;
    out.push(b'\n')?;
    Ok(())
}

/// The rows as a text: a line for each, `CLIENT submitted N open N assigned N carried N done N time N`, with one space
/// between, numbers in decimal without leading zeros, and a line feed at the end of each line. Fails when out of memory.
pub fn ledger_text(alloc: Global, rows: &[Row]) -> Result<Vec<u8>, AllocError>
    ensures { IfOk result (λ text. text.items ≡ spec.ledger_text rows.now) }
{
    let mut out = Vec::new(alloc);
    for row in rows {
        push_row(&mut out, row)?;
    }
    Ok(out)
}
