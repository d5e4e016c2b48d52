//! Writes an entry's line.

ghost use Rattle.std.specs.Prelude.{◌≡◌, ◌++◌, ◌∷◌, [], OnOk, decimal, map};
ghost use Rattle.wh_log.specs.Spelling as spelling;
ghost use Rattle.wh_log.specs.Spaced.{spaced};

use itoa::Buffer;
use std::alloc::AllocError;
use wh_event::{Entry, Event, Refusal, Reply, Spare, Stops};
use wh_grid::Cell;
use wh_path::TimedPath;

/// Writes a number at the end.
pub fn push_number(out: &mut Vec<u8>, number: u64) -> Result<(), AllocError>
    ensures { OnOk result (out.new.items ≡ out.old.items ++ decimal number) }
{
    let mut buffer = Buffer::new();
    out.extend_from_slice(buffer.format(number).as_bytes())?;
    Ok(())
}

/// Writes a space and a word.
pub fn push_word(out: &mut Vec<u8>, word: &[u8]) -> Result<(), AllocError>
    ensures { OnOk result (out.new.items ≡ out.old.items ++ 32 ∷ word.now) }
{
    out.push(b' ')?;
    out.extend_from_slice(word)?;
    Ok(())
}

/// Writes a space and a number.
pub fn push_numeral(out: &mut Vec<u8>, number: u64) -> Result<(), AllocError>
    ensures { OnOk result (out.new.items ≡ out.old.items ++ 32 ∷ decimal number) }
{
    out.push(b' ')?;
    push_number(out, number)
}

fn push_stops(out: &mut Vec<u8>, stops: &Stops) -> Result<(), AllocError>
    ensures { OnOk result (out.new.items ≡ out.old.items ++ spaced stops.now) }
{
    for stop in stops.as_slice() {
        push_word(out, stop.as_slice())?;
    }
    Ok(())
}

fn push_cell(out: &mut Vec<u8>, cell: Cell) -> Result<(), AllocError>
    ensures { OnOk result (out.new.items ≡ out.old.items ++ 32 ∷ spelling.cell_word cell) }
{
    push_numeral(out, u64::from(cell.x))?;
    out.push(b',')?;
    push_number(out, u64::from(cell.y))
}

fn push_path(out: &mut Vec<u8>, path: &TimedPath) -> Result<(), AllocError>
    ensures { OnOk result (out.new.items ≡ out.old.items ++ spaced (map spelling.cell_word path.now)) }
{
    for k in 0..path.remaining() + 1 {
        push_cell(out, path.at(k))?;
    }
    Ok(())
}

fn push_spare(out: &mut Vec<u8>, spare: Spare) -> Result<(), AllocError>
    ensures { OnOk result (out.new.items ≡ out.old.items ++ spaced (spelling.spare_words spare)) }
{
    match spare {
        Spare::None => push_word(out, b"none"),
        Spare::Foreign => push_word(out, b"foreign"),
        Spare::Fits { slots } => {
            push_word(out, b"fits")?;
            push_numeral(out, u64::from(slots))
        }
    }
}

fn push_event(out: &mut Vec<u8>, event: &Event) -> Result<(), AllocError>
    ensures { OnOk result (out.new.items ≡ out.old.items ++ spaced (spelling.event_words event.now)) }
{
    match event {
        Event::Submit { client, stops } => {
            push_word(out, b"submit")?;
            push_word(out, client.as_slice())?;
            push_stops(out, stops.stops())
        }
        Event::Request { agent } => {
            push_word(out, b"token")?;
            push_numeral(out, u64::from(*agent))
        }
        Event::Tick => push_word(out, b"tick"),
        Event::Close => push_word(out, b"close"),
        Event::Replace { agent, spare } => {
            push_word(out, b"replace")?;
            push_numeral(out, u64::from(*agent))?;
            push_spare(out, *spare)
        }
    }
}

fn push_refusal(out: &mut Vec<u8>, refusal: &Refusal) -> Result<(), AllocError>
    ensures { OnOk result (out.new.items ≡ out.old.items ++ spaced (spelling.refusal_words refusal.now)) }
{
    match refusal {
        Refusal::UnknownPoint(name) => {
            push_word(out, b"E1")?;
            push_word(out, name.as_slice())
        }
        Refusal::NotStation(name) => {
            push_word(out, b"E2")?;
            push_word(out, name.as_slice())
        }
        Refusal::TasksFull => push_word(out, b"E3"),
        Refusal::UnknownAgent(agent) => {
            push_word(out, b"E4")?;
            push_numeral(out, u64::from(*agent))
        }
        Refusal::Moving(steps) => {
            push_word(out, b"E5")?;
            push_numeral(out, *steps)
        }
        Refusal::NoPath => push_word(out, b"E6"),
        Refusal::ClockFull => push_word(out, b"E7"),
        Refusal::Closed => push_word(out, b"E8"),
        Refusal::ForeignPlanner => push_word(out, b"E9"),
        Refusal::NoSpare => push_word(out, b"E10"),
    }
}

fn push_clock(out: &mut Vec<u8>, now: u32, picked: u32, dropped: u32) -> Result<(), AllocError>
    ensures { OnOk result (out.new.items ≡ out.old.items ++ spaced (spelling.reply_words (Reply.Clock now picked dropped))) }
{
    push_word(out, b"clock")?;
    push_numeral(out, u64::from(now))?;
    push_word(out, b"picked")?;
    push_numeral(out, u64::from(picked))?;
    push_word(out, b"dropped")?;
    push_numeral(out, u64::from(dropped))
}

fn push_reply(out: &mut Vec<u8>, reply: &Reply) -> Result<(), AllocError>
    ensures { OnOk result (out.new.items ≡ out.old.items ++ spaced (spelling.reply_words reply.now)) }
{
    match reply {
        Reply::Accepted { task } => {
            push_word(out, b"accepted")?;
            push_numeral(out, u64::from(*task))
        }
        Reply::Took { task, path } => {
            push_word(out, b"took")?;
            push_numeral(out, u64::from(*task))?;
            push_word(out, b"path")?;
            push_path(out, path)
        }
        Reply::Rested => push_word(out, b"rested"),
        Reply::Parked { point, path } => {
            push_word(out, b"parked")?;
            push_word(out, point.as_slice())?;
            push_word(out, b"path")?;
            push_path(out, path)
        }
        Reply::Clock {
            now,
            picked,
            dropped,
        } => push_clock(out, *now, *picked, *dropped),
        Reply::Replaced { slots } => {
            push_word(out, b"replaced")?;
            push_numeral(out, u64::from(*slots))
        }
        Reply::Closed => push_word(out, b"closed"),
        Reply::Refused(refusal) => {
            push_word(out, b"refused")?;
            push_refusal(out, refusal)
        }
    }
}

/// Writes an entry's line and its line feed at the end.
pub fn push_entry(out: &mut Vec<u8>, entry: &Entry) -> Result<(), AllocError>
    ensures { OnOk result (out.new.items ≡ out.old.items ++ (spelling.entry_line entry.now ++ 10 ∷ [])) }
{
    push_number(out, u64::from(entry.caller))?;
    push_event(out, &entry.event)?;
    push_word(out, b"=")?;
    push_reply(out, &entry.reply)?;
    out.push(b'\n')?;
    Ok(())
}
