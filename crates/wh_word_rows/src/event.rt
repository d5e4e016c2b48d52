//! Lines and replies from outside, as a user meets them.
use arrayvec::ArrayVec;
use std::alloc::{AllocError, Global};
use std::test::*;
use wh_event::{
    Command, Entry, Event, KeptStops, LineFault, Refusal, Reply, Stops, read_front_into, read_line,
    write_reply,
};
use wh_path::TimedPath;
use wh_text::Name;

/// Whether a line hands in this task.
fn submits(line: &[u8], client: &[u8], stops: &[&[u8]]) -> bool {
    match read_line(line) {
        Ok(
            Some(
                Command::Submit {
                    client: name,
                    stops: names,
                },
            ),
        ) => name.as_slice() == client && are(names.as_slice(), stops),
        _ => false,
    }
}

fn are(names: &[Name], words: &[&[u8]]) -> bool {
    if names.len() != words.len() {
        return false;
    }
    for i in 0..names.len() {
        if i < words.len() && names[i].as_slice() != words[i] {
            return false;
        }
    }
    true
}

/// The agent that a line asks for, by `token` or by `replace`.
fn agent_of(line: &[u8]) -> Option<(bool, u32)> {
    match read_line(line) {
        Ok(Some(Command::Token { agent })) => Some((true, agent)),
        Ok(Some(Command::Replace { agent })) => Some((false, agent)),
        _ => None,
    }
}

fn ticks(line: &[u8]) -> bool {
    matches!(read_line(line), Ok(Some(Command::Tick)))
}

fn closes(line: &[u8]) -> bool {
    matches!(read_line(line), Ok(Some(Command::Close)))
}

fn is_skipped(line: &[u8]) -> bool {
    matches!(read_line(line), Ok(None))
}

/// The fault of a line that is none.
fn fault_of(line: &[u8]) -> Option<LineFault> {
    read_line(line).err()
}

/// Eight stops, the most that a task has.
const EIGHT: [&[u8]; 8] = [b"A", b"B", b"C", b"D", b"E", b"F", b"G", b"H"];

/// Whether tasks of two and of eight stops are read, also between blanks.
fn tasks_are_read() -> bool {
    submits(b"submit x A B", b"x", &[b"A", b"B"])
        && submits(b"\t submit  x\tA B C D E F G H ", b"x", EIGHT.as_slice())
}

/// Whether the numbers of agents are read.
fn agents_are_read() -> bool {
    agent_of(b"token 0") == Some((true, 0))
        && agent_of(b"token 000000007") == Some((true, 7))
        && agent_of(b"replace 999999999") == Some((false, 999_999_999))
}

#[test]
fn commands(rt: HostRuntime) {
    assert!(rt; tasks_are_read() && agents_are_read() && ticks(b"tick") && closes(b"close "));
}

/// How long the line is with which a text begins, and whose request, where it is told to be one.
fn front_of(text: &[u8]) -> Option<(usize, u32)> {
    let mut command = Command::Tick;
    let length = read_front_into(text, &mut command)?;
    match command {
        Command::Token { agent } => Some((length, agent)),
        _ => None,
    }
}

/// Texts, and what they begin with: a request of the usual form, in a text of 16 bytes or more.
const FRONTS: [(&[u8], Option<(usize, u32)>); 9] = [
    (b"token 12\ntoken 13\n", Some((9, 12))),
    (b"token 0\nsubmit x A B", Some((8, 0))),
    (b"token 123456789\n", Some((16, 123_456_789))),
    (b"token 12\n", None),
    (b"token  1\ntoken 13\n", None),
    (b"token 1 \ntoken 13\n", None),
    (b"token 1234567890\n", None),
    (b"tick\ntoken 1\ntoken 13\n", None),
    (b"replace 1\ntoken 13\n", None),
];

fn is_front(text: &[u8], front: Option<(usize, u32)>) -> bool {
    front_of(text) == front
}

fn are_fronts() -> bool {
    for (text, front) in FRONTS.iter() {
        if !is_front(text, *front) {
            return false;
        }
    }
    true
}

#[test]
fn requests_in_front(rt: HostRuntime) {
    assert!(rt; are_fronts());
}

/// Lines that are no command, and no fault.
const SKIPPED: [&[u8]; 4] = [b"", b" \t ", b"# note", b"  #submit x A B"];

fn are_skipped() -> bool {
    for line in SKIPPED.iter() {
        if !is_skipped(line) {
            return false;
        }
    }
    true
}

#[test]
fn skipped_lines(rt: HostRuntime) {
    assert!(rt; are_skipped());
}

/// Lines that have the form of no command.
const NO_COMMANDS: [&[u8]; 11] = [
    b"submit x A",
    b"submit x A B C D E F G H I",
    b"submit x A B$",
    b"submit x A ABCDEFGHIJKLMNOPQ",
    b"token",
    b"token 1234567890",
    b"token -1",
    b"token 1 2",
    b"tick 1",
    b"ticks",
    b"Close",
];

fn has_fault(line: &[u8], fault: LineFault) -> bool {
    fault_of(line) == Some(fault)
}

fn are_refused() -> bool {
    for line in NO_COMMANDS.iter() {
        if !has_fault(line, LineFault::Form) {
            return false;
        }
    }
    true
}

#[test]
fn refused_lines(rt: HostRuntime) {
    assert!(rt; are_refused());
}

/// Whether a task is read from 256 bytes, and neither it nor a comment from 257.
fn long_lines_are_told() -> bool {
    let mut line = [b' '; 257];
    line[..12].copy_from_slice(b"submit x A B");
    let is_read = submits(&line[..256], b"x", &[b"A", b"B"]);
    let is_refused = has_fault(&line, LineFault::TooLong);
    line[0] = b'#';
    is_read && is_refused && has_fault(&line, LineFault::TooLong)
}

#[test]
fn long_lines(rt: HostRuntime) {
    assert!(rt; long_lines_are_told());
}

fn name(word: &[u8]) -> Name {
    Name::read(word).unwrap_or_default()
}

/// A path of the given number of steps.
fn path(alloc: Global, steps: u64) -> Result<TimedPath, AllocError> {
    let mut path = TimedPath::one(alloc, Default::default())?;
    for _ in 0..steps {
        path.push(path.at(0))?;
    }
    Ok(path)
}

fn is_told(reply: &Reply, text: &[u8]) -> bool {
    write_reply(reply).as_slice() == text
}

/// Replies with no path, with their texts.
const REPLIES: [(Reply, &[u8]); 5] = [
    (
        Reply::Clock {
            now: 1_000_000_000,
            picked: 2,
            dropped: 1_000_000,
        },
        b"clock 1000000000 picked 2 dropped 1000000",
    ),
    (Reply::Accepted { task: 999_999 }, b"accepted 999999"),
    (Reply::Replaced { slots: 64 }, b"replaced 64"),
    (Reply::Rested, b"rested"),
    (Reply::Closed, b"closed"),
];

fn are_told() -> bool {
    for (reply, text) in REPLIES.iter() {
        if !is_told(reply, text) {
            return false;
        }
    }
    true
}

#[test]
fn replies(rt: HostRuntime) {
    assert!(rt; are_told());
}

/// Whether the copy of a reply that a task was taken is told so.
fn took_is_told(alloc: Global) -> Result<bool, AllocError> {
    let path = path(alloc, 6)?;
    let copy = Reply::Took { task: 0, path }.copy(alloc)?;
    Ok(is_told(&copy, b"took 0 end 6"))
}

/// Whether a reply that an agent was parked is told so.
fn parked_is_told(alloc: Global) -> Result<bool, AllocError> {
    let path = path(alloc, 0)?;
    let point = name(b"ABCDEFGHIJKLMNOP");
    Ok(is_told(
        &Reply::Parked { point, path },
        b"parked ABCDEFGHIJKLMNOP end 0",
    ))
}

#[test]
fn replies_with_a_path(rt: HostRuntime) -> Result<(), Fail> {
    assert!(rt; took_is_told(rt.alloc())? && parked_is_told(rt.alloc())?);
    Ok(())
}

fn is_refused(refusal: &Refusal, text: &[u8]) -> bool {
    is_told(&Reply::Refused(refusal.copy()), text)
}

/// Whether refusals that name a point are told with it.
fn points_are_named() -> bool {
    is_refused(&Refusal::UnknownPoint(name(b"Z")), b"refused E1 Z")
        && is_refused(&Refusal::NotStation(name(b"P1")), b"refused E2 P1")
}

#[test]
fn refusals_that_name_a_point(rt: HostRuntime) {
    assert!(rt; points_are_named());
}

/// Refusals that name no point, with their texts.
const REFUSALS: [(Refusal, &[u8]); 9] = [
    (Refusal::UnknownAgent(7), b"refused E4 7"),
    (Refusal::Moving(6), b"refused E5 6"),
    (
        Refusal::Moving(u64::MAX),
        b"refused E5 18446744073709551615",
    ),
    (Refusal::TasksFull, b"refused E3"),
    (Refusal::NoPath, b"refused E6"),
    (Refusal::ClockFull, b"refused E7"),
    (Refusal::Closed, b"refused E8"),
    (Refusal::ForeignPlanner, b"refused E9"),
    (Refusal::NoSpare, b"refused E10"),
];

fn are_refusals() -> bool {
    for (refusal, text) in REFUSALS.iter() {
        if !is_refused(refusal, text) {
            return false;
        }
    }
    true
}

#[test]
fn refusals_that_name_no_point(rt: HostRuntime) {
    assert!(rt; are_refusals());
}

/// Whether the entry, of this caller, hands in this task as number 5.
fn hands_in(entry: &Entry, caller: u32, client: &[u8], stops: &[&[u8]]) -> bool {
    let is_answered = entry.caller == caller && is_told(&entry.reply, b"accepted 5");
    match &entry.event {
        Event::Submit {
            client: name,
            stops: names,
        } => { is_answered && name.as_slice() == client && are(names.stops().as_slice(), stops) }
        _ => false,
    }
}

/// The stops A and B.
fn two_stops() -> Stops {
    let mut names: ArrayVec<Name, 8> = ArrayVec::new();
    names.push(name(b"A"));
    names.push(name(b"B"));
    Stops::of(names)
}

/// The entry of a task.
fn entry(alloc: Global) -> Result<Entry, AllocError> {
    let stops = KeptStops::new(alloc, two_stops().copy())?;
    let client = name(b"x");
    Ok(Entry {
        caller: 63,
        event: Event::Submit { client, stops },
        reply: Reply::Accepted { task: 5 },
    })
}

/// Whether the copy of the entry is the same.
fn is_copied(alloc: Global) -> Result<bool, AllocError> {
    let first = entry(alloc)?;
    let copied = first.copy(alloc);
    drop(first);
    match copied {
        Ok(copy) => {
            let is_same = hands_in(&copy, 63, b"x", &[b"A", b"B"]);
            drop(copy);
            Ok(is_same)
        }
        Err(fault) => Err(fault),
    }
}

#[test]
fn entries(rt: HostRuntime) -> Result<(), Fail> {
    assert!(rt; is_copied(rt.alloc())?);
    Ok(())
}
