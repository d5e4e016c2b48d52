//! Reads a usual entry at the front of a text, each byte once: a request that moved nobody or took a task, a task of two stops that
//! was accepted, or a tick. Where it gives none, nothing is said, and the line is to be read word by word.

ghost use Rattle.std.specs.Prelude.{◌≡◌, ℕ, ◌≤◌, ◌<◌, ◌^◌, ◌++◌, ◌∷◌, [], true, length, map, take, drop, codes, decimal, IfSome};
ghost use Rattle.std.specs.List.{list_all};
ghost use Rattle.wh_text.specs.Numbers.{is_digit};
ghost use Rattle.wh_words.specs.Numerals.{value_of};
ghost use Rattle.wh_event.specs.Grammar.{IsName};
ghost use Rattle.wh_log.specs.Spaced.{spaced};
ghost use Rattle.wh_log.specs.Spelling.{cell_word, entry_line};
ghost use Rattle.wh_log.specs.Ranges.{IsInside, IsPath, Keeps, ReplyKeeps};
ghost use Rattle.wh_log.specs.Told.{full_text};

use crate::read_path::is_near;
use arrayvec::ArrayVec;
use std::alloc::Global;
use wh_event::{Entry, Event, KeptStops, Refusal, Reply, Stops};
use wh_grid::Cell;
use wh_path::TimedPath;
use wh_text::Name;

/// What follows a number of bytes.
fn behind(text: &[u8], count: usize) -> &[u8]
    requires { count ≤ length text.now }
    ensures { result.now ≡ drop count text.now }
{
    &text[count..]
}

/// The number that the first `count` bytes write, all of them digits, and what follows them.
fn ended(text: &[u8], count: usize, value: u32) -> Option<(u32, &[u8])>
    requires few { count ≤ 9 }
    requires inside { count ≤ length text.now }
    requires digits { list_all is_digit (take count text.now) ≡ true }
    requires value { value ≡ value_of (take count text.now) }
    ensures { IfSome result (λ read. (text.now ≡ decimal read.0 ++ read.1.now) × (read.0 < 10 ^ 9)) }
{
    if count == 0 {
        return None;
    }
    if count == 1 {
        return Some((value, behind(text, count)));
    }
    if text[0] == b'0' {
        return None;
    }
    Some((value, behind(text, count)))
}

/// The number at the front, and what follows its digits, of which there are at most eight.
fn number(text: &[u8]) -> Option<(u32, &[u8])>
    ensures { IfSome result (λ read. (text.now ≡ decimal read.0 ++ read.1.now) × (read.0 < 10 ^ 9)) }
{
    let mut value: u32 = 0;
    for i in 0..text.len().min(9) {
        let b = text[i];
        if b < b'0' || b > b'9' {
            return ended(text, i, value);
        }
        value = 10 * value + u32::from(b - b'0');
    }
    None
}

/// A number, and what follows the space behind it.
fn spaced_number(text: &[u8]) -> Option<(u32, &[u8])>
    ensures { IfSome result (λ read. (text.now ≡ decimal read.0 ++ 32 ∷ read.1.now) × (read.0 < 10 ^ 9)) }
{
    match number(text)? {
        (number, [b' ', rest @ ..]) => Some((number, rest)),
        _ => None,
    }
}

/// A number, and what follows the line feed behind it.
fn last_number(text: &[u8]) -> Option<(u32, &[u8])>
    ensures { IfSome result (λ read. (text.now ≡ decimal read.0 ++ 10 ∷ read.1.now) × (read.0 < 10 ^ 9)) }
{
    match number(text)? {
        (number, [b'\n', rest @ ..]) => Some((number, rest)),
        _ => None,
    }
}

/// A coordinate, and what follows its digits.
fn coordinate(text: &[u8]) -> Option<(u16, &[u8])>
    ensures { IfSome result (λ read. (text.now ≡ decimal read.0 ++ read.1.now) × (read.0 ≤ 4095)) }
{
    let (number, rest) = number(text)?;
    if number <= 4095 {
        Some((number as u16, rest))
    } else {
        None
    }
}

/// A cell, and what follows it.
fn cell(text: &[u8]) -> Option<(Cell, &[u8])>
    ensures { IfSome result (λ read. (text.now ≡ cell_word read.0 ++ read.1.now) × IsInside read.0) }
{
    let (x, rest) = coordinate(text)?;
    let [b',', rest @ ..] = rest else {
        return None;
    };
    let (y, rest) = coordinate(rest)?;
    Some((Cell { x, y }, rest))
}

/// A path of one cell.
fn begun(alloc: Global, cell: Cell) -> Option<TimedPath>
    ensures { IfSome result (λ path. path ≡ cell ∷ []) }
{
    match TimedPath::one(alloc, cell) {
        Ok(path) => Some(path),
        Err(_) => None,
    }
}

/// The cells of a path, and what follows its last one. Out of memory it gives none.
fn cells(alloc: Global, text: &[u8]) -> Option<(TimedPath, &[u8])>
    ensures { IfSome result (λ read. (32 ∷ text.now ≡ spaced (map cell_word read.0) ++ read.1.now) × IsPath read.0) }
{
    let (first, behind) = cell(text)?;
    let mut path = begun(alloc, first)?;
    let mut rest = behind;
    let mut last = first;
    while let [b' ', behind @ ..] = rest {
        let (next, behind) = cell(behind)?;
        if !is_near(last, next) {
            return None;
        }
        if path.push(next).is_err() {
            return None;
        }
        last = next;
        rest = behind;
    }
    Some((path, rest))
}

/// What follows `path`, where it stands at the front.
fn behind_path(text: &[u8]) -> Option<&[u8]>
    ensures { IfSome result (λ rest. text.now ≡ codes "path " ++ rest.now) }
{
    match text {
        [b'p', b'a', b't', b'h', b' ', rest @ ..] => Some(rest),
        _ => None,
    }
}

/// The reply to a request that took a task, behind its first word, and what follows its line.
fn took(alloc: Global, text: &[u8]) -> Option<(Reply, &[u8])>
    ensures { IfSome result (λ read. (codes "took " ++ text.now ≡ full_text read.0 ++ 10 ∷ read.1.now) × ReplyKeeps read.0) }
{
    let (task, rest) = spaced_number(text)?;
    let (path, rest) = cells(alloc, behind_path(rest)?)?;
    let [b'\n', rest @ ..] = rest else {
        return None;
    };
    Some((Reply::Took { task, path }, rest))
}

/// The reply to a request that moved nobody or took a task, and what follows its line.
fn answer(alloc: Global, text: &[u8]) -> Option<(Reply, &[u8])>
    ensures { IfSome result (λ read. (text.now ≡ full_text read.0 ++ 10 ∷ read.1.now) × ReplyKeeps read.0) }
{
    match text {
        [b'r', b'e', b's', b't', b'e', b'd', b'\n', rest @ ..] => Some((Reply::Rested, rest)),
        [
            b'r',
            b'e',
            b'f',
            b'u',
            b's',
            b'e',
            b'd',
            b' ',
            b'E',
            b'5',
            b' ',
            rest @ ..,
        ] => {
            let (steps, rest) = last_number(rest)?;
            Some((Reply::Refused(Refusal::Moving(u64::from(steps))), rest))
        }
        [b't', b'o', b'o', b'k', b' ', rest @ ..] => took(alloc, rest),
        _ => None,
    }
}

/// What follows `picked`, where it stands at the front.
fn behind_picked(text: &[u8]) -> Option<&[u8]>
    ensures { IfSome result (λ rest. text.now ≡ codes "picked " ++ rest.now) }
{
    match text {
        [b'p', b'i', b'c', b'k', b'e', b'd', b' ', rest @ ..] => Some(rest),
        _ => None,
    }
}

/// What follows `dropped`, where it stands at the front.
fn behind_dropped(text: &[u8]) -> Option<&[u8]>
    ensures { IfSome result (λ rest. text.now ≡ codes "dropped " ++ rest.now) }
{
    match text {
        [b'd', b'r', b'o', b'p', b'p', b'e', b'd', b' ', rest @ ..] => Some(rest),
        _ => None,
    }
}

/// The reply to a tick, behind its first word, and what follows its line.
fn clock(text: &[u8]) -> Option<(Reply, &[u8])>
    ensures { IfSome result (λ read. (codes "clock " ++ text.now ≡ full_text read.0 ++ 10 ∷ read.1.now) × ReplyKeeps read.0) }
{
    let (now, rest) = spaced_number(text)?;
    let (picked, rest) = spaced_number(behind_picked(rest)?)?;
    let (dropped, rest) = last_number(behind_dropped(rest)?)?;
    Some((
        Reply::Clock {
            now,
            picked,
            dropped,
        },
        rest,
    ))
}

/// The entry of such a request, behind its caller and `token`, and what follows its line.
fn request(alloc: Global, caller: u32, text: &[u8]) -> Option<(Entry, &[u8])>
    requires { caller < 64 }
    ensures text { IfSome result (λ read. decimal caller ++ (codes " token " ++ text.now) ≡ entry_line read.0 ++ 10 ∷ read.1.now) }
    ensures keeps { IfSome result (λ read. (most : ℕ) → Keeps most read.0) }
{
    let (agent, rest) = spaced_number(text)?;
    let [b'=', b' ', rest @ ..] = rest else {
        return None;
    };
    let (reply, rest) = answer(alloc, rest)?;
    let event = Event::Request { agent };
    Some((
        Entry {
            caller,
            event,
            reply,
        },
        rest,
    ))
}

/// The entry of a tick, behind its caller and the words up to its clock, and what follows its line.
fn tick(caller: u32, text: &[u8]) -> Option<(Entry, &[u8])>
    requires { caller < 64 }
    ensures text { IfSome result (λ read. decimal caller ++ (codes " tick = clock " ++ text.now) ≡ entry_line read.0 ++ 10 ∷ read.1.now) }
    ensures keeps { IfSome result (λ read. (most : ℕ) → Keeps most read.0) }
{
    let (reply, rest) = clock(text)?;
    let event = Event::Tick;
    Some((
        Entry {
            caller,
            event,
            reply,
        },
        rest,
    ))
}

/// A name, and what follows the space behind it.
fn name(text: &[u8]) -> Option<(Name, &[u8])>
    ensures { IfSome result (λ read. (text.now ≡ read.0 ++ 32 ∷ read.1.now) × IsName read.0) }
{
    for i in 0..text.len().min(17) {
        if text[i] == b' ' {
            let name = Name::read(&text[..i])?;
            return Some((name, &text[i + 1..]));
        }
    }
    None
}

/// The two stops of a task. Out of memory it gives none.
fn two_stops(alloc: Global, first: Name, second: Name) -> Option<KeptStops>
    ensures { IfSome result (λ stops. stops ≡ first ∷ second ∷ []) }
{
    let mut names = ArrayVec::new();
    names.push(first);
    names.push(second);
    match KeptStops::new(alloc, Stops::of(names)) {
        Ok(stops) => Some(stops),
        Err(_) => None,
    }
}

/// The entry of a task of two stops that was accepted, behind its caller and `submit`, and what follows its line.
fn submit(alloc: Global, caller: u32, text: &[u8]) -> Option<(Entry, &[u8])>
    requires { caller < 64 }
    ensures text { IfSome result (λ read. decimal caller ++ (codes " submit " ++ text.now) ≡ entry_line read.0 ++ 10 ∷ read.1.now) }
    ensures keeps { IfSome result (λ read. (most : ℕ) → 2 ≤ most → Keeps most read.0) }
{
    let (client, rest) = name(text)?;
    let (first, rest) = name(rest)?;
    let (second, rest) = name(rest)?;
    let (task, rest) = last_number(behind_accepted(rest)?)?;
    let stops = two_stops(alloc, first, second)?;
    Some((
        Entry {
            caller,
            event: Event::Submit { client, stops },
            reply: Reply::Accepted { task },
        },
        rest,
    ))
}

/// What follows `= accepted`, where it stands at the front.
fn behind_accepted(text: &[u8]) -> Option<&[u8]>
    ensures { IfSome result (λ rest. text.now ≡ codes "= accepted " ++ rest.now) }
{
    match text {
        [
            b'=',
            b' ',
            b'a',
            b'c',
            b'c',
            b'e',
            b'p',
            b't',
            b'e',
            b'd',
            b' ',
            rest @ ..,
        ] => Some(rest),
        _ => None,
    }
}

/// What follows `submit`, where it stands at the front.
fn behind_submit(text: &[u8]) -> Option<&[u8]>
    ensures { IfSome result (λ rest. text.now ≡ codes "submit " ++ rest.now) }
{
    match text {
        [b's', b'u', b'b', b'm', b'i', b't', b' ', rest @ ..] => Some(rest),
        _ => None,
    }
}

/// What follows `token`, where it stands at the front.
fn behind_token(text: &[u8]) -> Option<&[u8]>
    ensures { IfSome result (λ rest. text.now ≡ codes "token " ++ rest.now) }
{
    match text {
        [b't', b'o', b'k', b'e', b'n', b' ', rest @ ..] => Some(rest),
        _ => None,
    }
}

/// What follows the words of a tick up to its clock, where it stands at the front.
fn behind_tick(text: &[u8]) -> Option<&[u8]>
    ensures { IfSome result (λ rest. text.now ≡ codes "tick = clock " ++ rest.now) }
{
    match text {
        [
            b't',
            b'i',
            b'c',
            b'k',
            b' ',
            b'=',
            b' ',
            b'c',
            b'l',
            b'o',
            b'c',
            b'k',
            b' ',
            rest @ ..,
        ] => Some(rest),
        _ => None,
    }
}

/// A usual entry at the front of a text, and what follows its line.
pub fn usual(alloc: Global, text: &[u8]) -> Option<(Entry, &[u8])>
    ensures text { IfSome result (λ read. text.now ≡ entry_line read.0 ++ 10 ∷ read.1.now) }
    ensures keeps { IfSome result (λ read. (most : ℕ) → 2 ≤ most → Keeps most read.0) }
{
    let (caller, rest) = spaced_number(text)?;
    if caller >= 64 {
        return None;
    }
    if let Some(rest) = behind_token(rest) {
        return request(alloc, caller, rest);
    }
    if let Some(rest) = behind_submit(rest) {
        return submit(alloc, caller, rest);
    }
    let rest = behind_tick(rest)?;
    tick(caller, rest)
}
