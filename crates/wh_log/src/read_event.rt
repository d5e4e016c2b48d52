//! Reads an event and the equals sign after it.

ghost use Rattle.std.specs.Prelude.{◌≡◌, ◌≤◌};
ghost use Rattle.wh_log.specs.Reading.{Reads, Gives, Fails};
ghost use Rattle.wh_log.specs.ReadEvents as reading;

use crate::entry_fault::EntryFault;
use crate::read_words::{literal, name, small};
use arrayvec::ArrayVec;
use std::alloc::Global;
use wh_event::{Event, KeptStops, Spare, Stops};
use wh_text::Name;
use wh_words::Words;

/// The names up to an equals sign, as the stops of a task.
fn stops(most: usize, words: &mut Words) -> Result<Stops, EntryFault>
    requires { most ≤ 8 }
    ensures { Reads (λ stops. stops) result words.new (reading.stops_at most words.old) }
{
    let mut names: ArrayVec<Name, 8> = ArrayVec::new();
    while let Some(word) = words.next_word() {
        if word == b"=".as_slice() {
            return counted(most, names);
        }
        let Some(name) = Name::read(word) else {
            return Err(EntryFault::Form);
        };
        if names.is_full() {
            return Err(EntryFault::Form);
        }
        names.push(name);
    }
    Err(EntryFault::Form)
}

/// The stops, where they are 2 at least and not too many.
fn counted(most: usize, names: ArrayVec<Name, 8>) -> Result<Stops, EntryFault>
    ensures { Gives (λ stops. stops) result (reading.counted_of most names.items) }
{
    if names.len() >= 2 && names.len() <= most {
        Ok(Stops::of(names))
    } else {
        Err(EntryFault::Form)
    }
}

#[tactic(auto, unfolding(crate::specs::ReadEvents::submit_at))]
fn submit(alloc: Global, most: usize, words: &mut Words) -> Result<Event, EntryFault>
    requires { most ≤ 8 }
    ensures { Reads (λ event. event) result words.new (reading.submit_at most words.old) }
{
    let client = name(words)?;
    let stops = KeptStops::new(alloc, stops(most, words)?)?;
    Ok(Event::Submit { client, stops })
}

#[tactic(auto, unfolding(crate::specs::ReadEvents::token_at))]
fn token(words: &mut Words) -> Result<Event, EntryFault>
    ensures { Reads (λ event. event) result words.new (reading.token_at words.old) }
{
    let agent = small(words)?;
    literal(words, b"=")?;
    Ok(Event::Request { agent })
}

#[tactic(auto, unfolding(crate::specs::ReadEvents::tick_at))]
fn tick(words: &mut Words) -> Result<Event, EntryFault>
    ensures { Reads (λ event. event) result words.new (reading.tick_at words.old) }
{
    literal(words, b"=")?;
    Ok(Event::Tick)
}

#[tactic(auto, unfolding(crate::specs::ReadEvents::close_at))]
fn close(words: &mut Words) -> Result<Event, EntryFault>
    ensures { Reads (λ event. event) result words.new (reading.close_at words.old) }
{
    literal(words, b"=")?;
    Ok(Event::Close)
}

#[tactic(auto, unfolding(crate::specs::ReadEvents::fits_at))]
fn fits(words: &mut Words) -> Result<Spare, EntryFault>
    ensures { Reads (λ spare. spare) result words.new (reading.fits_at words.old) }
{
    let slots = small(words)?;
    Ok(Spare::Fits { slots })
}

#[tactic(auto, unfolding(crate::specs::ReadEvents::spare_at))]
fn spare(words: &mut Words) -> Result<Spare, EntryFault>
    ensures { Reads (λ spare. spare) result words.new (reading.spare_at words.old) }
{
    let Some(name) = words.next_word() else {
        return Err(EntryFault::Form);
    };
    if name == b"none".as_slice() {
        Ok(Spare::None)
    } else if name == b"foreign".as_slice() {
        Ok(Spare::Foreign)
    } else if name == b"fits".as_slice() {
        fits(words)
    } else {
        Err(EntryFault::Form)
    }
}

#[tactic(auto, unfolding(crate::specs::ReadEvents::replace_at))]
fn replace(words: &mut Words) -> Result<Event, EntryFault>
    ensures { Reads (λ event. event) result words.new (reading.replace_at words.old) }
{
    let agent = small(words)?;
    let spare = spare(words)?;
    literal(words, b"=")?;
    Ok(Event::Replace { agent, spare })
}

/// An event and the equals sign after it.
#[tactic(auto, unfolding(crate::specs::ReadEvents::event_at))]
pub fn event(alloc: Global, most: usize, words: &mut Words) -> Result<Event, EntryFault>
    requires { most ≤ 8 }
    ensures { Reads (λ event. event) result words.new (reading.event_at most words.old) }
{
    let Some(name) = words.next_word() else {
        return Err(EntryFault::Form);
    };
    if name == b"submit".as_slice() {
        submit(alloc, most, words)
    } else if name == b"token".as_slice() {
        token(words)
    } else if name == b"tick".as_slice() {
        tick(words)
    } else if name == b"close".as_slice() {
        close(words)
    } else if name == b"replace".as_slice() {
        replace(words)
    } else {
        Err(EntryFault::Form)
    }
}
