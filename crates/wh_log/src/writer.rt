//! Writes a whole log.

ghost use Rattle.std.specs.Prelude.{◌≡◌, ◌++◌, ◌∷◌, [], map, decimal, IfOk, IfErr, OnOk, length, ◌<◌, ◌^◌};
ghost use Rattle.wh_words.specs.Lines.{text_of};
ghost use Rattle.wh_log.specs.Spaced.{spaced};
ghost use Rattle.wh_log.specs.declared.version.Version.TheVariants.{Two};
ghost use Rattle.wh_log.specs.Logs as logs;
ghost use Rattle.wh_log.specs.Logs.{Fits, IsLogText, log_lines};
ghost use Rattle.wh_log.specs.Spelling.{entry_line};

use crate::fault::NoMemory;
use crate::log::Log;
use crate::reader::{LogFault, read_log};
use crate::write_entry::{push_entry, push_numeral, push_word};
use std::alloc::{AllocError, Global};
use wh_event::Entry;

fn push_slots(out: &mut Vec<u8>, slots: &[u32]) -> Result<(), AllocError>
    ensures { OnOk result (out.new.items ≡ out.old.items ++ spaced (map decimal slots.now)) }
{
    for slot in slots {
        push_numeral(out, u64::from(*slot))?;
    }
    Ok(())
}

fn push_start(out: &mut Vec<u8>, clock: u32, slots: &[u32]) -> Result<(), AllocError>
    ensures { OnOk result (out.new.items ≡ out.old.items ++ (logs.start_line clock slots.now ++ 10 ∷ [])) }
{
    out.extend_from_slice(b"start")?;
    push_numeral(out, u64::from(clock))?;
    push_word(out, b"slots")?;
    push_slots(out, slots)?;
    out.push(b'\n')?;
    Ok(())
}

fn push_entries(out: &mut Vec<u8>, entries: &[Entry]) -> Result<(), AllocError>
    ensures { OnOk result (out.new.items ≡ out.old.items ++ text_of (map entry_line entries.now)) }
{
    for entry in entries {
        push_entry(out, entry)?;
    }
    Ok(())
}

fn push_end(out: &mut Vec<u8>, count: u64) -> Result<(), AllocError>
    ensures { OnOk result (out.new.items ≡ out.old.items ++ (logs.end_line count ++ 10 ∷ [])) }
{
    out.extend_from_slice(b"end")?;
    push_numeral(out, count)?;
    out.push(b'\n')?;
    Ok(())
}

/// The first two lines of a log, in version 2. Error: `NoMemory` (E90).
pub fn begun_text(alloc: Global, clock: u32, slots: &[u32]) -> Result<Vec<u8>, NoMemory>
    ensures { IfOk result (λ text. text.items ≡ text_of (logs.head_line Two ∷ logs.start_line clock slots.now ∷ [])) }
{
    let mut out = Vec::new(alloc);
    out.extend_from_slice(b"wlog 2\n")?;
    push_start(&mut out, clock, slots)?;
    Ok(out)
}

/// The lines of these entries. Error: `NoMemory` (E90).
pub fn entries_text(alloc: Global, entries: &[Entry]) -> Result<Vec<u8>, NoMemory>
    ensures { IfOk result (λ text. text.items ≡ text_of (map entry_line entries.now)) }
{
    let mut out = Vec::new(alloc);
    push_entries(&mut out, entries)?;
    Ok(out)
}

/// The last line of a log of the given number of entries. Error: `NoMemory` (E90).
pub fn end_text(alloc: Global, count: u64) -> Result<Vec<u8>, NoMemory>
    ensures { IfOk result (λ text. text.items ≡ text_of (logs.end_line count ∷ [])) }
{
    let mut out = Vec::new(alloc);
    push_end(&mut out, count)?;
    Ok(out)
}

/// The log of this content, in version 2: the opening clock in ticks, the opening slots of each agent by number, and the
/// entries in their order. It is written whatever the content; where that keeps the format's ranges, the text is a log.
///
/// Error: `NoMemory` (E90).
pub fn log_text(
    alloc: Global,
    clock: u32,
    slots: &[u32],
    entries: &[Entry],
) -> Result<Vec<u8>, NoMemory>
    // Its text is fixed by the content.
    ensures text { IfOk result (λ text. text.items ≡ text_of (log_lines Two (record { clock = clock; slots = slots.now; entries = entries.now }))) }
    // It is a log, where the content keeps the ranges.
    ensures is { IfOk result (λ text. Fits Two (record { clock = clock; slots = slots.now; entries = entries.now }) → IsLogText (record { clock = clock; slots = slots.now; entries = entries.now }) text.items) }
{
    let mut out = Vec::new(alloc);
    out.extend_from_slice(b"wlog 2\n")?;
    push_start(&mut out, clock, slots)?;
    push_entries(&mut out, entries)?;
    push_end(&mut out, entries.len() as u64)?;
    Ok(out)
}

/// Writes a log and reads it again: what is read is what was written.
///
/// Error: `NoMemory` alone.
pub fn written_again(alloc: Global, log: &Log) -> Result<Log, LogFault>
    requires { Fits Two log.now }
    ensures same { IfOk result (λ again. again ≡ log.now) }
    ensures fault { IfErr result (λ fault. fault ≡ LogFault.NoMemory) }
{
    let text = log_text(alloc, log.clock(), log.slots(), log.entries())?;
    read_log(alloc, &text)
}
