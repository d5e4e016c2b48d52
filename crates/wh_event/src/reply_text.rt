//! Writes a reply.

ghost use Rattle.std.specs.Prelude.{◌≡◌, ◌+◌, ◌++◌, ◌≤◌, ◌<◌, [], length, decimal};
ghost use Rattle.wh_event.specs.declared.reply.Reply.{Reply};
ghost use Rattle.wh_event.specs.ReplyTexts.{refusal_text, reply_text, ReplyHolds, TellSame};

use crate::reply::{Refusal, Reply};
use arrayvec::ArrayVec;
use itoa::Buffer;

/// Writes a text at the end.
pub fn put(line: &mut ArrayVec<u8, 64>, text: &[u8])
    requires { length line.old.items + length text.now ≤ 64 }
    ensures { line.new.items ≡ line.old.items ++ text.now }
{
    match line.try_extend_from_slice(text) {
        Ok(()) => {}
        Err(_) => unreachable!(),
    }
}

/// Writes the one or two digits of a number below 100.
#[inline(always)]
fn put_few(line: &mut ArrayVec<u8, 64>, number: u64)
    requires few { number < 100 }
    requires room { length line.old.items + length (decimal number) ≤ 64 }
    ensures { line.new.items ≡ line.old.items ++ decimal number }
{
    if number < 10 {
        line.push(b'0' + number as u8);
        return;
    }
    line.push(b'0' + (number / 10) as u8);
    line.push(b'0' + (number % 10) as u8);
}

/// Writes a number's digits. Most numbers are small, and are not worth the buffer.
fn put_digits(line: &mut ArrayVec<u8, 64>, number: u64)
    requires { length line.old.items + length (decimal number) ≤ 64 }
    ensures { line.new.items ≡ line.old.items ++ decimal number }
{
    if number < 100 {
        put_few(line, number);
        return;
    }
    let mut buffer = Buffer::new();
    put(line, buffer.format(number).as_bytes());
}

/// Writes a text at the end, and then a number in decimal without leading zeros, of at most 20 digits.
pub fn put_number(line: &mut ArrayVec<u8, 64>, text: &[u8], number: u64)
    requires { length line.old.items + length text.now ≤ 44 }
    ensures text { line.new.items ≡ line.old.items ++ text.now ++ decimal number }
    ensures room { length line.new.items ≤ length line.old.items + length text.now + 20 }
{
    put(line, text);
    put_digits(line, number);
}

/// Writes a text, and a number of at most 10 digits.
fn put_small(line: &mut ArrayVec<u8, 64>, text: &[u8], number: u32)
    requires { length line.old.items + length text.now ≤ 54 }
    ensures text { line.new.items ≡ line.old.items ++ text.now ++ decimal number }
    ensures room { length line.new.items ≤ length line.old.items + length text.now + 10 }
{
    put(line, text);
    put_digits(line, u64::from(number));
}

fn put_refusal(line: &mut ArrayVec<u8, 64>, refusal: &Refusal)
    requires { length line.old.items ≤ 30 }
    ensures text { line.new.items ≡ line.old.items ++ refusal_text refusal.now }
    ensures room { length line.new.items ≤ length line.old.items + 23 }
{
    match refusal {
        Refusal::UnknownPoint(name) => {
            put(line, b"E1 ");
            put(line, name.as_slice());
        }
        Refusal::NotStation(name) => {
            put(line, b"E2 ");
            put(line, name.as_slice());
        }
        Refusal::TasksFull => put(line, b"E3"),
        Refusal::UnknownAgent(agent) => put_small(line, b"E4 ", *agent),
        Refusal::Moving(steps) => put_number(line, b"E5 ", *steps),
        Refusal::NoPath => put(line, b"E6"),
        Refusal::ClockFull => put(line, b"E7"),
        Refusal::Closed => put(line, b"E8"),
        Refusal::ForeignPlanner => put(line, b"E9"),
        Refusal::NoSpare => put(line, b"E10"),
    }
}

/// Writes a reply's text, without the line's end: words with one space between, numbers in decimal without leading zeros,
/// and only the last index of a path.
pub fn put_reply(line: &mut ArrayVec<u8, 64>, reply: &Reply)
    requires empty { line.old.items ≡ [] }
    ensures text { line.new.items ≡ reply_text reply.now }
    // So a line's end has room behind it.
    ensures short { length line.new.items ≤ 53 }
{
    match reply {
        Reply::Accepted { task } => put_small(line, b"accepted ", *task),
        Reply::Took { task, path } => {
            put_small(line, b"took ", *task);
            put_number(line, b" end ", path.remaining());
        }
        Reply::Rested => put(line, b"rested"),
        Reply::Parked { point, path } => {
            put(line, b"parked ");
            put(line, point.as_slice());
            put_number(line, b" end ", path.remaining());
        }
        Reply::Clock {
            now,
            picked,
            dropped,
        } => {
            put_small(line, b"clock ", *now);
            put_small(line, b" picked ", *picked);
            put_small(line, b" dropped ", *dropped);
        }
        Reply::Replaced { slots } => put_small(line, b"replaced ", *slots),
        Reply::Closed => put(line, b"closed"),
        Reply::Refused(refusal) => {
            put(line, b"refused ");
            put_refusal(line, refusal);
        }
    }
}

/// A reply's text, as `put_reply` writes it.
pub fn write_reply(reply: &Reply) -> ArrayVec<u8, 64>
    ensures text { result.items ≡ reply_text reply.now }
    ensures short { length result.items ≤ 53 }
{
    let mut line = ArrayVec::new();
    put_reply(&mut line, reply);
    line
}

/// Replies with the same text mean the same. No function calls this.
pub fn replies_tell()
    ensures { (a b : Reply) → ReplyHolds a → ReplyHolds b → reply_text a ≡ reply_text b → TellSame a b }
{}
