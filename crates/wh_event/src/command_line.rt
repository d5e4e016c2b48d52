//! Reads one line of a script.

ghost use Rattle.std.specs.Prelude.{◌≡◌, ◌<◌, ◌≤◌, ◌↔◌, length, codes, Some, None, Ok, Err, IfOk, IfSome, IsTrue};
ghost use Rattle.std.specs.Str.{bytes_eq};
ghost use Rattle.wh_text.specs.Words.{words_of};
ghost use Rattle.wh_event.specs.declared.event.Command.{Command};
ghost use Rattle.wh_event.specs.declared.fault.LineFault.TheVariants as faults;
ghost use Rattle.wh_event.specs.CommandLines as lines;
ghost use Rattle.wh_event.specs.CommandLines.{command_of, command_by, named, formed};
ghost use Rattle.wh_event.specs.Reading.{Reads};
ghost use Rattle.wh_event.specs.Grammar.{Asks, IsSkipped};

use crate::event::Command;
use crate::fault::LineFault;
use crate::stops::Stops;
use arrayvec::ArrayVec;
use wh_text::{Name, Words, begins_comment, small_number};

/// The stops that all words which are left name.
fn stops_of(mut words: Words) -> Option<Stops>
    ensures { result ≡ lines.stops_of words.entry }
{
    let mut names: ArrayVec<Name, 8> = ArrayVec::new();
    while let Some(word) = words.next_word() {
        if names.is_full() {
            return None;
        }
        names.push(Name::read(word)?);
    }
    if names.len() < 2 {
        return None;
    }
    Some(Stops::of(names))
}

fn submit_into(mut words: Words, command: &mut Command) -> Result<bool, LineFault>
    ensures { Reads result command.old command.new (formed (lines.submit_of words.entry)) }
{
    let Some(client) = words.next_word().and_then(Name::read) else {
        return Err(LineFault::Form);
    };
    let Some(stops) = stops_of(words) else {
        return Err(LineFault::Form);
    };
    *command = Command::Submit { client, stops };
    Ok(true)
}

/// The agent that the one word which is left names.
fn agent_of(mut words: Words) -> Option<u32>
    ensures { result ≡ lines.agent_of words.entry }
{
    let agent = words.next_word()?;
    if words.next_word().is_some() {
        return None;
    }
    small_number(agent)
}

fn token_into(words: Words, command: &mut Command) -> Result<bool, LineFault>
    ensures { Reads result command.old command.new (formed (lines.token_of words.entry)) }
{
    let Some(agent) = agent_of(words) else {
        return Err(LineFault::Form);
    };
    *command = Command::Token { agent };
    Ok(true)
}

fn replace_into(words: Words, command: &mut Command) -> Result<bool, LineFault>
    ensures { Reads result command.old command.new (formed (lines.replace_of words.entry)) }
{
    let Some(agent) = agent_of(words) else {
        return Err(LineFault::Form);
    };
    *command = Command::Replace { agent };
    Ok(true)
}

fn tick_into(mut words: Words, command: &mut Command) -> Result<bool, LineFault>
    ensures { Reads result command.old command.new (formed (lines.tick_of words.entry)) }
{
    if words.next_word().is_some() {
        return Err(LineFault::Form);
    }
    *command = Command::Tick;
    Ok(true)
}

fn close_into(mut words: Words, command: &mut Command) -> Result<bool, LineFault>
    ensures { Reads result command.old command.new (formed (lines.close_of words.entry)) }
{
    if words.next_word().is_some() {
        return Err(LineFault::Form);
    }
    *command = Command::Close;
    Ok(true)
}

/// Whether a word is `tick`. A match tells by a test or two what a comparison of slices takes a loop for.
fn is_tick(word: &[u8]) -> bool
    ensures { result ≡ bytes_eq word.now (codes "tick") }
{
    matches!(word, b"tick")
}

/// What a line asks by its first word.
fn read_by_name(name: &[u8], rest: Words, command: &mut Command) -> Result<bool, LineFault>
    ensures { Reads result command.old command.new (formed (named name.now rest.entry)) }
{
    if name == b"submit".as_slice() {
        submit_into(rest, command)
    } else if name == b"token".as_slice() {
        token_into(rest, command)
    } else if is_tick(name) {
        tick_into(rest, command)
    } else if name == b"replace".as_slice() {
        replace_into(rest, command)
    } else if name == b"close".as_slice() {
        close_into(rest, command)
    } else {
        Err(LineFault::Form)
    }
}

fn read_words(mut words: Words, command: &mut Command) -> Result<bool, LineFault>
    ensures { Reads result command.old command.new (command_by words.entry) }
{
    let Some(name) = words.next_word() else {
        return Ok(false);
    };
    if begins_comment(name) {
        return Ok(false);
    }
    read_by_name(name, words, command)
}

/// Whether a line's first six bytes ask for the token.
#[inline(always)]
pub(crate) fn begins_request(front: &[u8]) -> bool
    ensures { IsTrue result → front.now ≡ codes "token " }
{
    matches!(front, b"token ")
}

/// The agent of a line `token AGENT` with one space between and no other blank, as nearly all lines of a script are.
fn plain_request(line: &[u8]) -> Option<u32>
    ensures { IfSome result (λ agent. command_of line.now ≡ Ok (Some (Command.Token agent))) }
{
    if line.len() < 6 {
        return None;
    }
    let (front, number) = line.split_at(6);
    if begins_request(front) {
        small_number(number)
    } else {
        None
    }
}

/// Puts a request into the room, which most often holds one already: then only its agent is written.
#[inline(always)]
pub(crate) fn put_request(agent: u32, command: &mut Command)
    ensures { command.new ≡ Command.Token agent }
{
    match command {
        Command::Token { agent: room } => *room = agent,
        _ => *command = Command::Token { agent },
    }
}

/// Reads a line as `read_line` does, into a room that the caller keeps, since a command has room for nine names: whether
/// the line asks for a command, which then stands there. Else the room is as it was.
pub fn read_line_into(line: &[u8], command: &mut Command) -> Result<bool, LineFault>
    ensures { Reads result command.old command.new (command_of line.now) }
{
    if let Some(agent) = plain_request(line) {
        put_request(agent, command);
        return Ok(true);
    }
    if line.len() > 256 {
        return Err(LineFault::TooLong);
    }
    read_words(Words::of(line), command)
}

/// What a line of a script asks, without its line's end: a command, or None where it is empty, of blanks, or a
/// comment, whose first word begins with `#`. Words are the longest runs of bytes that are neither space nor tab.
///
/// | Line | Command |
/// |---|---|
/// | `submit CLIENT S1 .. Sn`, n from 2 to 8, all of them names | Submit |
/// | `token AGENT`, AGENT of 1 to 9 digits | Token |
/// | `tick` | Tick |
/// | `replace AGENT`, AGENT of 1 to 9 digits | Replace |
/// | `close` | Close |
///
/// Errors: `TooLong` (C2) for a line of more than 256 bytes, whatever it says; `Form` (C1) for a line of any other form.
pub fn read_line(line: &[u8]) -> Result<Option<Command>, LineFault>
    ensures exact { result ≡ command_of line.now }
    ensures command { (command : Command) → (result ≡ Ok (Some command)) ↔ ((length line.now ≤ 256) × Asks command (words_of line.now)) }
    ensures skipped { (result ≡ Ok None) ↔ ((length line.now ≤ 256) × IsSkipped (words_of line.now)) }
    ensures form { (result ≡ Err faults.Form) ↔ ((length line.now ≤ 256) × ¬ IsSkipped (words_of line.now) × ((command : Command) → ¬ Asks command (words_of line.now))) }
    ensures too_long { (result ≡ Err faults.TooLong) ↔ (256 < length line.now) }
{
    let mut command = Command::Close;
    match read_line_into(line, &mut command) {
        Ok(true) => Ok(Some(command)),
        Ok(false) => Ok(None),
        Err(fault) => Err(fault),
    }
}
