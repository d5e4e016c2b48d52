//! The reply to a line, and how it is written.

ghost use Rattle.std.specs.Prelude.{◌≡◌, ◌++◌, ◌∷◌, [], IfOk, IfErr, OnOk, OnErr, length, MatchResult};
ghost use Rattle.std.specs.Io.KnownBytes.{Appends, Keeps};
ghost use Rattle.wh_lines.specs.Text.{short_line};
ghost use Rattle.wh_replay.specs.Answers.{text_of};
ghost use Rattle.wh_replay.specs.Scripts.{WritesFront};
ghost use Rattle.wh_serve.specs.Texts.{InEach, entries_in_all, fault_text, greeting_text, receipt_text, without_text};
ghost use Rattle.wh_serve.specs.Outcomes.{Gives, answers, line_text, stop_text};
ghost use Rattle.wh_serve.specs.Sayings.{asked, said};
ghost use Rattle.wh_serve.specs.Losses.{Loses};
ghost use Rattle.wh_serve.specs.Tellings.{full_of, is_last, own_text, texts};

use crate::allowance::Allowance;
use crate::beginning::digits_of;
use crate::call::{Came, Lost, NoReceipt, call_allowed};
use crate::doors::{Full, Tag};
use crate::said::{Said, said_by};
use arrayvec::ArrayVec;
use std::alloc::Global;
use std::io::Write;
use std::sync::Wait;
use wh_desk::{Desk, DeskFault, DeskName, Pass, Receipt};
use wh_event::{LineFault, Reply, put, put_number};
use wh_journal::Journal;
use wh_lines::CommandLine;
use wh_log::{Form, tell};
use wh_planner::Plans;
use wh_replay::{WriteFault, write_all};
use wh_scribe::{JournalName, Scribe};

/// What a line is answered.
#[derive(Drop)]
pub(crate) enum Told {
    /// It asks for nothing.
    Nothing,
    /// It is no command.
    NoCommand(LineFault),
    /// The command has no receipt.
    Without(NoReceipt),
    /// The receipt of the call.
    Received(Receipt),
    /// The service is stopped.
    Stopped,
}

/// Whether the service ends with it: it tells that the warehouse was closed, or the service stopped.
pub(crate) fn is_last(told: &Told) -> bool
    ensures { result ≡ is_last told.now }
{
    match told {
        Told::Received(receipt) => matches!(receipt.entry.reply, Reply::Closed),
        Told::Stopped => true,
        Told::Nothing | Told::NoCommand(_) | Told::Without(_) => false,
    }
}

/// What is full, where a command was not carried out since it is.
pub(crate) fn full_of(told: &Told) -> Option<Full>
    ensures { result ≡ full_of told.now }
{
    match told {
        Told::Without(NoReceipt::ShareUsed) => Some(Full::Share),
        Told::Without(NoReceipt::Refused(DeskFault::Full)) => Some(Full::Journal),
        _ => None,
    }
}

/// How many replies it is: one or none.
pub(crate) fn count_of(told: &Told) -> u64
    ensures { (form : _) → result ≡ length (texts form told.now) }
{
    match told {
        Told::Nothing => 0,
        Told::NoCommand(_) | Told::Without(_) | Told::Received(_) | Told::Stopped => 1,
    }
}

/// Answers `stop`. Where the client has the right to it all entries whose calls had come back by then are synced before it is told.
fn answer_stop<N: DeskName, S: JournalName, J: Journal + Drop, X: Wait>(
    rt: &X,
    may: Allowance,
    scribe: &Scribe<N, S, J>,
) -> Result<Told, Lost>
    ensures ok { IfOk result (λ told. (form : Form) → texts form told ≡ stop_text may.rights ∷ []) }
    ensures lost { IfErr result (λ lost. lost ≡ Lost.Failed) }
{
    if !may.rights.stop {
        return Ok(Told::Without(NoReceipt::Barred));
    }
    if scribe.keeps_all(rt) {
        Ok(Told::Stopped)
    } else {
        Err(Lost::Failed)
    }
}

/// Answers a line: one that is a command is one call of the desk through the journal, if the client may make it.
pub(crate) fn answer<
    N: DeskName,
    S: JournalName,
    J: Journal + Drop,
    H: Wait + Drop,
    P: Plans,
    X: Wait,
>(
    rt: &X,
    alloc: Global,
    form: Form,
    may: Allowance,
    line: &CommandLine,
    desk: &Desk<N, H, P>,
    scribe: &Scribe<N, S, J>,
    pass: &mut Pass<N>,
    spares: &mut Vec<P>,
) -> Result<Told, Lost>
    ensures ok { IfOk result (λ told. InEach pass.new.known (λ history. Gives may (length N.cells) P.fits_map P.slot_count N.origin.site.grid (asked (said (short_line line.now))) (answers may.rights (receipt_text form N.origin history) (said (short_line line.now))) pass.old spares.old.items pass.new spares.new.items (texts form told))) }
    ensures lost { IfErr result (λ lost. InEach pass.new.known (λ history. Loses may (length N.cells) P.fits_map P.slot_count N.origin.site.grid (receipt_text form N.origin history) (said (short_line line.now)) pass.old spares.old.items pass.new spares.new.items lost)) }
{
    match said_by(line) {
        Said::Nothing => Ok(Told::Nothing),
        Said::Stop => answer_stop(rt, may, scribe),
        Said::Asks(command) => {
            match call_allowed(rt, alloc, may, desk, scribe, pass, command, spares) {
                Came::Receipt(receipt) => Ok(Told::Received(receipt)),
                Came::Without(why) => Ok(Told::Without(why)),
                Came::Lost(lost) => Err(lost),
            }
        }
        Said::NoCommand(fault) => Ok(Told::NoCommand(fault)),
    }
}

/// What the fault of a line is told as.
fn line_fault(fault: LineFault) -> &'static [u8]
    ensures { result.now ≡ line_text fault }
{
    match fault {
        LineFault::Form => b"refused C1",
        LineFault::TooLong => b"refused C2",
    }
}

/// What a call is told as that the desk refused.
fn desk_fault(fault: DeskFault) -> &'static [u8]
    ensures { result.now ≡ fault_text fault }
{
    match fault {
        DeskFault::Stale => b"refused E95",
        DeskFault::Full => b"refused E11",
        DeskFault::NoMemory => b"refused E90",
        DeskFault::CellTaken => b"refused E91",
    }
}

/// What a command is told as that has no receipt.
fn without_receipt(why: NoReceipt) -> &'static [u8]
    ensures { result.now ≡ without_text why }
{
    match why {
        NoReceipt::Barred => b"refused C3",
        NoReceipt::ShareUsed => b"refused E11",
        NoReceipt::Refused(fault) => desk_fault(fault),
    }
}

/// Writes a reply and a line feed.
#[tactic(auto, using(crate::proofs::Fronts::line_ended, crate::proofs::Fronts::line_begun, crate::proofs::Fronts::line_unended))]
fn write_line<W: Write>(writer: &mut W, reply: &[u8]) -> Result<(), WriteFault>
    ensures ok { OnOk result (Appends (W.contents writer.old) (W.contents writer.new) (text_of (reply.now ∷ []))) }
    ensures err { OnErr result (WritesFront (W.contents writer.old) (W.contents writer.new) (text_of (reply.now ∷ []))) }
{
    match write_all(writer, reply) {
        Ok(()) => match write_all(writer, b"\n") {
            Ok(()) => Ok(()),
            Err(fault) => Err(fault),
        },
        Err(fault) => Err(fault),
    }
}

/// How many entries a client has in this log and those before it, as far as 64 bits count.
pub(crate) fn entries_in_all(before: u64, own: u64) -> u64
    ensures { result ≡ entries_in_all before own }
{
    before.saturating_add(own)
}

/// Writes how many entries a client has and the tag of its connection, with a line feed.
pub(crate) fn write_greeting<W: Write>(
    writer: &mut W,
    count: u64,
    tag: Tag,
) -> Result<(), WriteFault>
    ensures ok { OnOk result (Appends (W.contents writer.old) (W.contents writer.new) (text_of (greeting_text count tag ∷ []))) }
    ensures err { OnErr result (WritesFront (W.contents writer.old) (W.contents writer.new) (text_of (greeting_text count tag ∷ []))) }
{
    let mut line = ArrayVec::new();
    put_number(&mut line, b"entries ", count);
    put(&mut line, b" ");
    put(&mut line, &digits_of(tag));
    match write_line(writer, line.as_slice()) {
        Ok(()) => Ok(()),
        Err(fault) => Err(fault),
    }
}

/// Writes what a receipt is told as and a line feed.
#[tactic(auto, using(crate::proofs::Fronts::line_ended, crate::proofs::Fronts::line_begun, crate::proofs::Fronts::line_unended))]
fn write_receipt<W: Write>(form: Form, writer: &mut W, receipt: &Receipt) -> Result<(), WriteFault>
    ensures ok { OnOk result (Appends (W.contents writer.old) (W.contents writer.new) (text_of (own_text form receipt.now ∷ []))) }
    ensures err { OnErr result (WritesFront (W.contents writer.old) (W.contents writer.new) (text_of (own_text form receipt.now ∷ []))) }
{
    match tell(
        form,
        writer,
        receipt.position,
        receipt.clock,
        &receipt.entry.reply,
    ) {
        Ok(()) => match write_all(writer, b"\n") {
            Ok(()) => Ok(()),
            Err(fault) => Err(fault),
        },
        Err(fault) => Err(fault),
    }
}

/// Writes what a line is answered, with a line feed.
fn write_told<W: Write>(form: Form, writer: &mut W, told: &Told) -> Result<(), WriteFault>
    ensures ok { OnOk result (Appends (W.contents writer.old) (W.contents writer.new) (text_of (texts form told.now))) }
    ensures err { OnErr result (WritesFront (W.contents writer.old) (W.contents writer.new) (text_of (texts form told.now))) }
{
    match told {
        Told::Nothing => Ok(()),
        Told::NoCommand(fault) => match write_line(writer, line_fault(*fault)) {
            Ok(()) => Ok(()),
            Err(fault) => Err(fault),
        },
        Told::Without(why) => match write_line(writer, without_receipt(*why)) {
            Ok(()) => Ok(()),
            Err(fault) => Err(fault),
        },
        Told::Received(receipt) => match write_receipt(form, writer, receipt) {
            Ok(()) => Ok(()),
            Err(fault) => Err(fault),
        },
        Told::Stopped => match write_line(writer, b"stopped") {
            Ok(()) => Ok(()),
            Err(fault) => Err(fault),
        },
    }
}

/// Where the service ends with it, it is flushed.
fn flush_last<W: Write>(writer: &mut W, told: &Told)
    ensures { Keeps (W.contents writer.old) (W.contents writer.new) }
{
    if is_last(told) {
        // If it could not be flushed, the next read tells so.
        let _ = writer.flush();
    }
}

/// Writes what a line is answered, and flushes it where the service ends with it.
#[tactic(auto, using(crate::proofs::Fronts::told_still, crate::proofs::Fronts::front_still))]
pub(crate) fn pass_on<W: Write>(form: Form, writer: &mut W, told: &Told) -> Result<(), WriteFault>
    ensures ok { OnOk result (Appends (W.contents writer.old) (W.contents writer.new) (text_of (texts form told.now))) }
    ensures err { OnErr result (WritesFront (W.contents writer.old) (W.contents writer.new) (text_of (texts form told.now))) }
{
    match write_told(form, writer, told) {
        Ok(()) => {
            flush_last(writer, told);
            Ok(())
        }
        Err(fault) => {
            flush_last(writer, told);
            Err(fault)
        }
    }
}
