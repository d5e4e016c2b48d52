//! Reads a reply, to its line's end.

ghost use Rattle.std.specs.Prelude.{◌≡◌};
ghost use Rattle.wh_log.specs.Reading.{Gives, Fails};
ghost use Rattle.wh_log.specs.ReadReplies as reading;

use crate::entry_fault::EntryFault;
use crate::read_path::path;
use crate::read_words::{at_end, clock_number, literal, name, small, wide};
use std::alloc::Global;
use wh_event::{Refusal, Reply};
use wh_words::Words;

#[tactic(auto, unfolding(crate::specs::ReadReplies::accepted_of))]
fn accepted(mut words: Words) -> Result<Reply, EntryFault>
    ensures { Gives (λ reply. reply) result (reading.accepted_of words.entry) }
{
    let task = small(&mut words)?;
    at_end(words, Reply::Accepted { task })
}

#[tactic(auto, unfolding(crate::specs::ReadReplies::took_of))]
fn took(alloc: Global, mut words: Words) -> Result<Reply, EntryFault>
    ensures { Gives (λ reply. reply) result (reading.took_of words.entry) }
{
    let task = small(&mut words)?;
    literal(&mut words, b"path")?;
    let path = path(alloc, words)?;
    Ok(Reply::Took { task, path })
}

#[tactic(auto, unfolding(crate::specs::ReadReplies::parked_of))]
fn parked(alloc: Global, mut words: Words) -> Result<Reply, EntryFault>
    ensures { Gives (λ reply. reply) result (reading.parked_of words.entry) }
{
    let point = name(&mut words)?;
    literal(&mut words, b"path")?;
    let path = path(alloc, words)?;
    Ok(Reply::Parked { point, path })
}

#[tactic(auto, unfolding(crate::specs::ReadReplies::clock_of))]
fn clock(mut words: Words) -> Result<Reply, EntryFault>
    ensures { Gives (λ reply. reply) result (reading.clock_of words.entry) }
{
    let now = clock_number(&mut words)?;
    literal(&mut words, b"picked")?;
    let picked = small(&mut words)?;
    literal(&mut words, b"dropped")?;
    let dropped = small(&mut words)?;
    at_end(
        words,
        Reply::Clock {
            now,
            picked,
            dropped,
        },
    )
}

#[tactic(auto, unfolding(crate::specs::ReadReplies::replaced_of))]
fn replaced(mut words: Words) -> Result<Reply, EntryFault>
    ensures { Gives (λ reply. reply) result (reading.replaced_of words.entry) }
{
    let slots = small(&mut words)?;
    at_end(words, Reply::Replaced { slots })
}

#[tactic(auto, unfolding(crate::specs::ReadReplies::unknown_point_of))]
fn unknown_point(mut words: Words) -> Result<Refusal, EntryFault>
    ensures { Gives (λ refusal. refusal) result (reading.unknown_point_of words.entry) }
{
    let name = name(&mut words)?;
    at_end(words, Refusal::UnknownPoint(name))
}

#[tactic(auto, unfolding(crate::specs::ReadReplies::not_station_of))]
fn not_station(mut words: Words) -> Result<Refusal, EntryFault>
    ensures { Gives (λ refusal. refusal) result (reading.not_station_of words.entry) }
{
    let name = name(&mut words)?;
    at_end(words, Refusal::NotStation(name))
}

#[tactic(auto, unfolding(crate::specs::ReadReplies::unknown_agent_of))]
fn unknown_agent(mut words: Words) -> Result<Refusal, EntryFault>
    ensures { Gives (λ refusal. refusal) result (reading.unknown_agent_of words.entry) }
{
    let agent = small(&mut words)?;
    at_end(words, Refusal::UnknownAgent(agent))
}

#[tactic(auto, unfolding(crate::specs::ReadReplies::moving_of))]
fn moving(mut words: Words) -> Result<Refusal, EntryFault>
    ensures { Gives (λ refusal. refusal) result (reading.moving_of words.entry) }
{
    let steps = wide(&mut words)?;
    at_end(words, Refusal::Moving(steps))
}

/// A refusal that tells nothing more.
#[tactic(auto, unfolding(crate::specs::ReadReplies::bare_refusal_of))]
fn bare_refusal(code: &[u8], words: Words) -> Result<Refusal, EntryFault>
    ensures { Gives (λ refusal. refusal) result (reading.bare_refusal_of code.now words.entry) }
{
    if code == b"E3".as_slice() {
        at_end(words, Refusal::TasksFull)
    } else if code == b"E6".as_slice() {
        at_end(words, Refusal::NoPath)
    } else if code == b"E7".as_slice() {
        at_end(words, Refusal::ClockFull)
    } else if code == b"E8".as_slice() {
        at_end(words, Refusal::Closed)
    } else if code == b"E9".as_slice() {
        at_end(words, Refusal::ForeignPlanner)
    } else if code == b"E10".as_slice() {
        at_end(words, Refusal::NoSpare)
    } else {
        Err(EntryFault::Form)
    }
}

#[tactic(auto, unfolding(crate::specs::ReadReplies::refusal_of))]
fn refusal(mut words: Words) -> Result<Refusal, EntryFault>
    ensures { Gives (λ refusal. refusal) result (reading.refusal_of words.entry) }
{
    let Some(code) = words.next_word() else {
        return Err(EntryFault::Form);
    };
    if code == b"E1".as_slice() {
        unknown_point(words)
    } else if code == b"E2".as_slice() {
        not_station(words)
    } else if code == b"E4".as_slice() {
        unknown_agent(words)
    } else if code == b"E5".as_slice() {
        moving(words)
    } else {
        bare_refusal(code, words)
    }
}

#[tactic(auto, unfolding(crate::specs::ReadReplies::refused_of))]
fn refused(words: Words) -> Result<Reply, EntryFault>
    ensures { Gives (λ reply. reply) result (reading.refused_of words.entry) }
{
    let refusal = refusal(words)?;
    Ok(Reply::Refused(refusal))
}

/// The reply that all words that are left tell.
#[tactic(auto, unfolding(crate::specs::ReadReplies::reply_of))]
pub fn reply(alloc: Global, mut words: Words) -> Result<Reply, EntryFault>
    ensures { Gives (λ reply. reply) result (reading.reply_of words.entry) }
{
    let Some(name) = words.next_word() else {
        return Err(EntryFault::Form);
    };
    if name == b"accepted".as_slice() {
        accepted(words)
    } else if name == b"took".as_slice() {
        took(alloc, words)
    } else if name == b"rested".as_slice() {
        at_end(words, Reply::Rested)
    } else if name == b"parked".as_slice() {
        parked(alloc, words)
    } else if name == b"clock".as_slice() {
        clock(words)
    } else if name == b"replaced".as_slice() {
        replaced(words)
    } else if name == b"closed".as_slice() {
        at_end(words, Reply::Closed)
    } else if name == b"refused".as_slice() {
        refused(words)
    } else {
        Err(EntryFault::Form)
    }
}
