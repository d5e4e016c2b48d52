//! A client that is served over one connection, to its input's end, until the service is over, or until a fault.

ghost use Rattle.std.specs.Prelude.{◌≡◌, ◌≤◌, ◌++◌, ℕ, List, Some, false, IfOk, IfSome, IfErr, OnErr, true, Err, length};
ghost use Rattle.std.specs.Io.KnownBytes.{Keeps};
ghost use Rattle.wh_lines.specs.Input.{left};
ghost use Rattle.wh_serve.specs.Texts.{InEach, begin_text, receipt_text};
ghost use Rattle.wh_serve.specs.Beginnings.{StandsBefore, sent_with};
ghost use Rattle.wh_serve.specs.Sessions.{ServesAll, ServesFirst, Outputs, Stops, end_of, fault_of};

use crate::allowance::Allowance;
use crate::beginning::begin_is_short;
use crate::doors::{Doors, Tag};
use crate::machine::Caller;
use crate::served::{End, ServeFault, Served};
use crate::told::Told;
use std::alloc::Global;
use std::io::{Read, Write};
use std::marker::PhantomData;
use std::sync::Wait;
use wh_desk::{Desk, DeskName, Pass};
use wh_journal::Journal;
use wh_lines::Lines;
use wh_log::Form;
use wh_planner::Planner;
use wh_replay::ReplayFault;
use wh_scribe::{JournalName, Scribe};
use wh_session::{End as SessionEnd, NoKeeper, SessionFault};

fn end_of(end: SessionEnd) -> End
    ensures { result ≡ end_of end }
{
    match end {
        SessionEnd::Input => End::Input,
        SessionEnd::Torn => End::Torn,
        SessionEnd::Over => End::Over,
    }
}

/// Why a client was not served to its end. Its machine lacks no memory, and nothing is kept behind it. Where the journal has failed,
/// nobody can be told anything more, and the service ends.
fn give_up<R: Read, W: Write, D: Doors<R, W>>(doors: &D, fault: SessionFault) -> ServeFault
    ensures { result ≡ fault_of fault }
{
    match fault {
        SessionFault::Broken => ServeFault::Cut(ReplayFault::Broken),
        SessionFault::Endless => ServeFault::Cut(ReplayFault::Endless),
        SessionFault::Unwritten => ServeFault::Cut(ReplayFault::Unwritten),
        SessionFault::Failed | SessionFault::NoMemory | SessionFault::Unkept => {
            doors.end();
            ServeFault::Unjournaled
        }
    }
}

/// Serves a client by the one loop.
fn attend<
    N: DeskName,
    S: JournalName,
    J: Journal + Drop,
    H: Wait + Drop,
    P: Planner,
    X: Wait,
    R: Read,
    W: Write,
    D: Doors<R, W>,
>(
    lines: &mut Lines<R>,
    writer: &mut W,
    caller: &mut Caller<'_, N, S, J, H, P, X, R, W, D>,
) -> Result<Served, ServeFault>
    requires replies { caller.old.replies ≡ 0 }
    requires begun { caller.old.begun ≡ false }
    requires tag { length (begin_text caller.old.tag) ≤ 256 }
    ensures seat { caller.new.pass.ghost_name ≡ caller.old.pass.ghost_name }
    ensures room { caller.new.spares.ghost_name ≡ caller.old.spares.ghost_name }
    ensures ok { IfOk result (λ r. InEach caller.new.pass.now.known (λ history. ServesAll caller.old.may (length N.cells) P.fits_map P.slot_count N.origin.site.grid (receipt_text caller.old.form N.origin history) caller.old.tag lines.old lines.new caller.old.pass.now caller.old.spares.now.items caller.new.pass.now caller.new.spares.now.items (W.contents writer.old) (W.contents writer.new) r.replies r.end)) }
    ensures output { IfOk result (λ r. InEach caller.new.pass.now.known (λ history. IfSome (left lines.old) (λ script. Outputs caller.old.may (length N.cells) P.fits_map P.slot_count N.origin.site.grid (receipt_text caller.old.form N.origin history) caller.old.tag script caller.old.pass.now caller.old.spares.now.items caller.new.pass.now caller.new.spares.now.items (W.contents writer.old) (W.contents writer.new) r.replies r.end))) }
    ensures fault { IfErr result (λ fault. InEach caller.new.pass.now.known (λ history. Stops caller.old.may (length N.cells) P.fits_map P.slot_count N.origin.site.grid (receipt_text caller.old.form N.origin history) caller.old.tag fault lines.old lines.new caller.old.pass.now caller.old.spares.now.items caller.new.pass.now caller.new.spares.now.items (W.contents writer.old) (W.contents writer.new))) }
    ensures failed { OnErr result (lines.new.failed ≡ true) }
    ensures again { lines.old.failed ≡ true → (result ≡ Err (ServeFault.Cut ReplayFault.Broken)) × (lines.new ≡ lines.old) × (caller.new.pass.now ≡ caller.old.pass.now) × (caller.new.spares.now.items ≡ caller.old.spares.now.items) × Keeps (W.contents writer.old) (W.contents writer.new) }
{
    match wh_session::serve(lines, writer, caller, &mut NoKeeper) {
        Ok(end) => Ok(Served {
            replies: caller.replies,
            end: end_of(end),
        }),
        Err(fault) => Err(give_up(caller.doors, fault)),
    }
}

/// Serves a client with a room for what a line is answered.
fn serve_in<
    'a,
    N: DeskName,
    S: JournalName,
    J: Journal + Drop,
    H: Wait + Drop,
    P: Planner,
    X: Wait,
    R: Read,
    W: Write,
    D: Doors<R, W>,
>(
    rt: &'a X,
    alloc: Global,
    form: Form,
    may: Allowance,
    lines: &mut Lines<R>,
    writer: &mut W,
    desk: &'a Desk<N, H, P>,
    scribe: &'a Scribe<N, S, J>,
    pass: &'a mut Pass<N>,
    spares: &'a mut Vec<P>,
    doors: &'a D,
    number: u32,
    tag: Tag,
    told: &'a mut Told,
) -> Result<Served, ServeFault>
    ensures ok { IfOk result (λ r. InEach pass.new.known (λ history. ServesAll may (length N.cells) P.fits_map P.slot_count N.origin.site.grid (receipt_text form N.origin history) tag lines.old lines.new pass.old spares.old.items pass.new spares.new.items (W.contents writer.old) (W.contents writer.new) r.replies r.end)) }
    ensures output { IfOk result (λ r. InEach pass.new.known (λ history. IfSome (left lines.old) (λ script. Outputs may (length N.cells) P.fits_map P.slot_count N.origin.site.grid (receipt_text form N.origin history) tag script pass.old spares.old.items pass.new spares.new.items (W.contents writer.old) (W.contents writer.new) r.replies r.end))) }
    ensures fault { IfErr result (λ fault. InEach pass.new.known (λ history. Stops may (length N.cells) P.fits_map P.slot_count N.origin.site.grid (receipt_text form N.origin history) tag fault lines.old lines.new pass.old spares.old.items pass.new spares.new.items (W.contents writer.old) (W.contents writer.new))) }
    ensures failed { OnErr result (lines.new.failed ≡ true) }
    ensures again { lines.old.failed ≡ true → (result ≡ Err (ServeFault.Cut ReplayFault.Broken)) × (lines.new ≡ lines.old) × (pass.new ≡ pass.old) × (spares.new.items ≡ spares.old.items) × Keeps (W.contents writer.old) (W.contents writer.new) }
{
    begin_is_short(tag);
    let mut caller = Caller {
        rt,
        alloc,
        form,
        may,
        desk,
        scribe,
        pass,
        spares,
        doors,
        number,
        tag,
        begun: false,
        told,
        replies: 0,
        over: PhantomData,
    };
    attend(lines, writer, &mut caller)
}

/// Serves a client to its reader's end, or until the service is over: before each line is served that is asked, and a line that
/// had come then is not served. The lines up to the first `begin TAG` are answered nothing, and have no effect. Where a client is told
/// that the warehouse is closed, the service ends. Each line that is a command is one call of the desk with the client's pass, and is
/// answered by its receipt, or by why the desk refused. A command that the client has no right to is answered `refused C3`, and one
/// beyond its share of the entries `refused E11`, both without a call. A line that is not a command is answered `refused C1` or
/// `refused C2`, and an empty line and a comment get no reply. What follows the last line feed is not a line: a client or a network
/// that was cut leaves part of one, which may read as another command. A Replace takes the last spare. Each reply is a line; the
/// writer is flushed before each read, which may wait.
///
/// `stop` is no call either: by the right to it the service ends, and the client is told `stopped`, once all entries are synced whose
/// calls had come back by then; without it, it is answered `refused C3`. The warehouse stays open.
///
/// A receipt is told once the journal keeps its entry. Where the journal has failed the client is told nothing more, and the service
/// ends. Each command that came to E11 is told to the doors too, with the client's number.
///
/// A receipt's place and clock are those of the history that the pass knows then, and of each that goes on from it.
///
/// A call may wait for the desk's lock, and for the journal. A line takes no memory of its own. A call whose reply could not be
/// written stands, and so does one at which the journal failed.
pub fn serve_client<
    N: DeskName,
    S: JournalName,
    J: Journal + Drop,
    H: Wait + Drop,
    P: Planner,
    X: Wait,
    R: Read,
    W: Write,
    D: Doors<R, W>,
>(
    rt: &X,
    alloc: Global,
    form: Form,
    may: Allowance,
    lines: &mut Lines<R>,
    writer: &mut W,
    desk: &Desk<N, H, P>,
    scribe: &Scribe<N, S, J>,
    pass: &mut Pass<N>,
    spares: &mut Vec<P>,
    doors: &D,
    number: u32,
    tag: Tag,
) -> Result<Served, ServeFault>
    // What was written is the output of the whole lines that were read behind `begin TAG`, told by the receipts that the pass gained,
    // in order.
    ensures ok { IfOk result (λ r. InEach pass.new.known (λ history. ServesAll may (length N.cells) P.fits_map P.slot_count N.origin.site.grid (receipt_text form N.origin history) tag lines.old lines.new pass.old spares.old.items pass.new spares.new.items (W.contents writer.old) (W.contents writer.new) r.replies r.end)) }
    // Where the reader tells its bytes, these are what was read, to the last line feed.
    ensures output { IfOk result (λ r. InEach pass.new.known (λ history. IfSome (left lines.old) (λ script. Outputs may (length N.cells) P.fits_map P.slot_count N.origin.site.grid (receipt_text form N.origin history) tag script pass.old spares.old.items pass.new spares.new.items (W.contents writer.old) (W.contents writer.new) r.replies r.end))) }
    // On a fault this holds of a beginning of what came, of whole lines: all replies but the last were written, and the cause is a
    // true one.
    ensures fault { IfErr result (λ fault. InEach pass.new.known (λ history. Stops may (length N.cells) P.fits_map P.slot_count N.origin.site.grid (receipt_text form N.origin history) tag fault lines.old lines.new pass.old spares.old.items pass.new spares.new.items (W.contents writer.old) (W.contents writer.new))) }
    // Whatever stood in front of `begin TAG`, the lines that were served are the first that its client sent behind it.
    ensures own { (stale own : List ℕ) → StandsBefore tag stale → left lines.old ≡ Some (stale ++ sent_with tag own) → InEach pass.new.known (λ history. ServesFirst may (length N.cells) P.fits_map P.slot_count N.origin.site.grid (receipt_text form N.origin history) own pass.old spares.old.items pass.new spares.new.items) }
    // After a fault there is nothing more.
    ensures failed { OnErr result (lines.new.failed ≡ true) }
    ensures again { lines.old.failed ≡ true → (result ≡ Err (ServeFault.Cut ReplayFault.Broken)) × (lines.new ≡ lines.old) × (pass.new ≡ pass.old) × (spares.new.items ≡ spares.old.items) × Keeps (W.contents writer.old) (W.contents writer.new) }
{
    let mut told = Told::Nothing;
    serve_in(
        rt, alloc, form, may, lines, writer, desk, scribe, pass, spares, doors, number, tag,
        &mut told,
    )
}
