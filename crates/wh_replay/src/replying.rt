//! Writes the replies to lines, from the history. It takes no memory.

ghost use Rattle.std.specs.Prelude.{◌≡◌, ◌≤◌, ◌∷◌, List, drop, length, IfOk, OnOk, OnErr};
ghost use Rattle.std.specs.Io.KnownBytes.{Appends};
ghost use Rattle.wh_log.specs.Told.{told_text};
ghost use Rattle.wh_replay.specs.Answers as replies;
ghost use Rattle.wh_replay.specs.Answers.{reply_line, text_of};
ghost use Rattle.wh_replay.specs.Scripts.{WritesFront};
ghost use Rattle.wh_replay.specs.Answering.{told_by_answers};
ghost use Rattle.wh_replay.specs.Replying.{TellsOne};
ghost use Rattle.wh_replay.specs.declared.answering.Answer.{Answer as Kind};

use crate::answer::tell_reply;
use crate::answering::Answer;
use std::io::Write;
use wh_event::{Entry, Reply};
use wh_lines::{WriteFault, write_all};
use wh_log::Form;

/// The clock after an entry, by its reply and the clock before it.
#[inline(always)]
fn clock_after(clock: u32, reply: &Reply) -> u32
    ensures { result ≡ replies.clock_after clock reply.now }
{
    match reply {
        Reply::Clock {
            now,
            picked: _,
            dropped: _,
        } => *now,
        _ => clock,
    }
}

/// Tells the reply of an entry, as a line.
#[inline(always)]
fn tell_entry<W: Write>(
    form: Form,
    writer: &mut W,
    place: u64,
    clock: u32,
    reply: &Reply,
) -> Result<(), WriteFault>
    ensures ok { OnOk result (Appends (W.contents writer.old) (W.contents writer.new) (reply_line (told_text form (record { place = place; clock = clock; reply = reply.now })))) }
    ensures err { OnErr result (WritesFront (W.contents writer.old) (W.contents writer.new) (reply_line (told_text form (record { place = place; clock = clock; reply = reply.now })))) }
{
    match tell_reply(form, writer, place, clock, reply) {
        Ok(_) => Ok(()),
        Err(fault) => Err(fault),
    }
}

/// How far the entries of a history were told, and the clock after them.
#[derive(Clone, Copy)]
struct Told {
    next: usize,
    clock: u32,
}

/// Tells the reply of the next entry.
#[inline(always)]
fn tell_next<W: Write>(
    form: Form,
    writer: &mut W,
    history: &[Entry],
    told: Told,
) -> Result<Told, WriteFault>
    ensures ok { IfOk result (λ after. TellsOne (told_text form) Kind.Entry history.now told after (W.contents writer.old) (W.contents writer.new)) }
    ensures err { OnErr result ((rest : List Kind) → WritesFront (W.contents writer.old) (W.contents writer.new) (text_of (told_by_answers (told_text form) told.next told.clock (Kind.Entry ∷ rest) (drop told.next history.now)))) }
{
    let Some(entry) = history.get(told.next) else {
        return Ok(told);
    };
    match tell_entry(form, writer, told.next as u64, told.clock, &entry.reply) {
        Ok(()) => Ok(Told {
            next: told.next + 1,
            clock: clock_after(told.clock, &entry.reply),
        }),
        Err(fault) => Err(fault),
    }
}

/// Tells a line that is no reply of an entry.
#[inline(always)]
fn tell_other<W: Write>(writer: &mut W, line: &[u8], told: Told) -> Result<Told, WriteFault>
    ensures same { IfOk result (λ after. after ≡ told) }
    ensures ok { OnOk result (Appends (W.contents writer.old) (W.contents writer.new) line.now) }
    ensures err { OnErr result (WritesFront (W.contents writer.old) (W.contents writer.new) line.now) }
{
    match write_all(writer, line) {
        Ok(()) => Ok(told),
        Err(fault) => Err(fault),
    }
}

/// Tells one line what it was answered.
#[inline(always)]
fn tell_one<W: Write>(
    form: Form,
    writer: &mut W,
    answer: Answer,
    history: &[Entry],
    told: Told,
) -> Result<Told, WriteFault>
    ensures ok { IfOk result (λ after. TellsOne (told_text form) answer history.now told after (W.contents writer.old) (W.contents writer.new)) }
    ensures err { OnErr result ((rest : List Kind) → WritesFront (W.contents writer.old) (W.contents writer.new) (text_of (told_by_answers (told_text form) told.next told.clock (answer ∷ rest) (drop told.next history.now)))) }
{
    match answer {
        Answer::Entry => tell_next(form, writer, history, told),
        Answer::NoEntry => tell_other(writer, b"refused E90\n", told),
        Answer::NoCommand => tell_other(writer, b"refused C1\n", told),
        Answer::TooLong => tell_other(writer, b"refused C2\n", told),
    }
}

/// Tells the lines what they were answered, in their order. The first entry among them stands at this place of the history,
/// and found the clock so.
pub(crate) fn tell_answers<W: Write>(
    form: Form,
    writer: &mut W,
    answers: &[Answer],
    history: &[Entry],
    first: usize,
    clock: u32,
) -> Result<(), WriteFault>
    ensures ok { OnOk result (Appends (W.contents writer.old) (W.contents writer.new) (text_of (told_by_answers (told_text form) first clock answers.now (drop first history.now)))) }
    ensures err { OnErr result (WritesFront (W.contents writer.old) (W.contents writer.new) (text_of (told_by_answers (told_text form) first clock answers.now (drop first history.now)))) }
{
    let mut told = Told { next: first, clock };
    for answer in answers {
        match tell_one(form, writer, *answer, history, told) {
            Ok(after) => told = after,
            Err(fault) => return Err(fault),
        }
    }
    Ok(())
}
