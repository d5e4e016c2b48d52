//! Reads an entry's line.

ghost use Rattle.std.specs.Prelude.{◌≡◌, ◌≤◌, ℕ, IfOk, Some};
ghost use Rattle.wh_text.specs.Lines.{IsLine};
ghost use Rattle.wh_log.specs.Spelling.{entry_line};
ghost use Rattle.wh_log.specs.Ranges.{Keeps};
ghost use Rattle.wh_event.specs.declared.entry.Entry.{Entry};
ghost use Rattle.wh_log.specs.Reading.{Gives, Fails};
ghost use Rattle.wh_log.specs.ReadReplies as reading;

use crate::entry_fault::EntryFault;
use crate::read_event::event;
use crate::read_reply::reply;
use crate::read_words::small;
use std::alloc::Global;
use wh_event::Entry;
use wh_words::Words;

fn caller(number: u32) -> Option<u32>
    ensures { result ≡ reading.caller_of number }
{
    if number < 64 { Some(number) } else { None }
}

#[tactic(auto, unfolding(crate::specs::ReadReplies::entry_of))]
fn entry(alloc: Global, most: usize, mut words: Words) -> Result<Entry, EntryFault>
    requires { most ≤ 8 }
    ensures { Gives (λ entry. entry) result (reading.entry_of most words.entry) }
{
    let number = small(&mut words)?;
    let Some(caller) = caller(number) else {
        return Err(EntryFault::Form);
    };
    let event = event(alloc, most, &mut words)?;
    let reply = reply(alloc, words)?;
    Ok(Entry {
        caller,
        event,
        reply,
    })
}

/// The entry that a line tells, where a task has at most the given number of stops.
pub fn read_entry(alloc: Global, most: usize, line: &[u8]) -> Result<Entry, EntryFault>
    requires { most ≤ 8 }
    // What is read is written so, each byte of it.
    ensures found { IfOk result (λ entry. (line.now ≡ entry_line entry) × Keeps most entry) }
    // What is written so is read, unless memory runs out.
    ensures only { (entry : Entry) → Keeps most entry → line.now ≡ entry_line entry → Gives (λ x. x) result (Some entry) }
{
    entry(alloc, most, Words::of(line))
}

/// What lines of entries are. No function calls this.
pub fn entries_are()
    // They have no line feed.
    ensures lines { (most : ℕ) (entry : Entry) → Keeps most entry → IsLine (entry_line entry) }
    // A line tells one entry.
    ensures one { (most : ℕ) (a b : Entry) → Keeps most a → Keeps most b → entry_line a ≡ entry_line b → a ≡ b }
{}
