//! A script that is served to its end, or until a fault.

ghost use Rattle.std.specs.Prelude.{◌≡◌, ◌≤◌, IfOk, IfSome, IfErr, OnErr, Err, Some, true};
ghost use Rattle.std.specs.Io.KnownBytes.{Keeps};
ghost use Rattle.wh_lines.specs.Text.{short_line};
ghost use Rattle.wh_lines.specs.Input.{left};
ghost use Rattle.wh_replay.specs.Answers.{said};
ghost use Rattle.wh_replay.specs.Machines.{session_fault, Left};
ghost use Rattle.wh_replay.specs.Scripts.{Serves, ServesUnwritten, Replays, Outputs, Stops, script_asker};

use crate::answer::answer;
use crate::asker::Asker;
use crate::scripted::Script;
use crate::waiting::OneAnswer;
use std::alloc::Global;
use std::io::{Read, Write};
use wh_event::Command;
use wh_lines::{CommandLine, Lines};
use wh_log::Form;
use wh_planner::Plans;
use wh_session::{NoKeeper, SessionFault};
use wh_token::Warehouse;

/// How many lines were written.
#[derive(Clone, Copy, Debug, PartialEq, Eq)]
pub struct Replayed {
    pub replies: u64,
}

/// Why a script was not served to its end.
#[derive(Clone, Copy, Debug, PartialEq, Eq)]
pub enum ReplayFault {
    /// X1: the reader failed, or a fault came before.
    Broken,
    /// X2: the reader was asked 100,000,000 times.
    Endless,
    /// X3: the writer failed, took no byte, or could not be flushed.
    Unwritten,
}

/// Serves a line, of which only a front is kept. How many replies it got: one or none. The command is a room for what it asks.
pub fn serve<W: Write, P: Plans>(
    line: &CommandLine,
    command: &mut Command,
    alloc: Global,
    asker: Asker,
    writer: &mut W,
    warehouse: &mut Warehouse<P>,
    spares: &mut Vec<P>,
) -> Result<u64, ReplayFault>
    ensures ok { IfOk result (λ count. Serves P.fits_map P.slot_count asker (said (short_line line.now)) warehouse.old.book spares.old.items warehouse.new.book spares.new.items (W.contents writer.old) (W.contents writer.new) count) }
    ensures few { IfOk result (λ count. count ≤ 1) }
    ensures err { OnErr result (ServesUnwritten P.fits_map P.slot_count asker (said (short_line line.now)) warehouse.old.book spares.old.items warehouse.new.book spares.new.items (W.contents writer.old) (W.contents writer.new)) }
    ensures fault { IfErr result (λ fault. fault ≡ ReplayFault.Unwritten) }
{
    match answer(line, command, alloc, asker, writer, warehouse, spares) {
        Ok(count) => Ok(count),
        Err(_) => Err(ReplayFault::Unwritten),
    }
}

fn session_fault(fault: SessionFault) -> ReplayFault
    ensures { result ≡ session_fault fault }
{
    match fault {
        SessionFault::Broken => ReplayFault::Broken,
        SessionFault::Endless => ReplayFault::Endless,
        SessionFault::Unwritten
        | SessionFault::Unkept
        | SessionFault::NoMemory
        | SessionFault::Failed => ReplayFault::Unwritten,
    }
}

/// Serves a script by the one loop.
fn serve_script<R: Read, W: Write, P: Plans>(
    lines: &mut Lines<R>,
    writer: &mut W,
    script: &mut Script<'_, P, OneAnswer>,
) -> Result<Replayed, ReplayFault>
    requires replies { script.old.replies ≡ 0 }
    requires left { Left script.old.first script.old.clock script.old.warehouse.now.book script.old.answers.answer.items }
    ensures seat { script.new.warehouse.ghost_name ≡ script.old.warehouse.ghost_name }
    ensures room { script.new.spares.ghost_name ≡ script.old.spares.ghost_name }
    ensures ok { IfOk result (λ r. Replays P.fits_map P.slot_count script.old.asker lines.old lines.new script.old.warehouse.now.book script.old.spares.now.items script.new.warehouse.now.book script.new.spares.now.items (W.contents writer.old) (W.contents writer.new) r.replies) }
    ensures fault { IfErr result (λ fault. Stops P.fits_map P.slot_count script.old.asker fault lines.old lines.new script.old.warehouse.now.book script.old.spares.now.items script.new.warehouse.now.book script.new.spares.now.items (W.contents writer.old) (W.contents writer.new)) }
    ensures failed { OnErr result (lines.new.failed ≡ true) }
    ensures again { lines.old.failed ≡ true → (result ≡ Err ReplayFault.Broken) × (lines.new ≡ lines.old) × (script.new.warehouse.now.book ≡ script.old.warehouse.now.book) × (script.new.spares.now.items ≡ script.old.spares.now.items) × Keeps (W.contents writer.old) (W.contents writer.new) }
{
    match wh_session::serve(lines, writer, script, &mut NoKeeper) {
        Ok(_) => Ok(Replayed {
            replies: script.replies,
        }),
        Err(fault) => Err(session_fault(fault)),
    }
}

/// Serves the script that is left in the reader, to the reader's end. Each line that is a command is an event of caller
/// 0, and its reply is written in this form with a line feed; any other line is answered `refused C1` or `refused C2`, and a
/// command that is refused for lack of memory `refused E90`; an empty line and a comment get no reply. A Replace
/// of a known agent takes the last spare. The writer is flushed before each read, and at the end.
///
/// A line takes no memory of its own. An event whose reply could not be written stands.
pub fn replay<R: Read, W: Write, P: Plans>(
    lines: &mut Lines<R>,
    alloc: Global,
    form: Form,
    writer: &mut W,
    warehouse: &mut Warehouse<P>,
    spares: &mut Vec<P>,
) -> Result<Replayed, ReplayFault>
    // What was written is the output of what was read, and the history has grown by its run.
    ensures ok { IfOk result (λ r. Replays P.fits_map P.slot_count (script_asker form) lines.old lines.new warehouse.old.book spares.old.items warehouse.new.book spares.new.items (W.contents writer.old) (W.contents writer.new) r.replies) }
    // Where the reader tells its bytes, these are the script.
    ensures output { IfOk result (λ r. IfSome (left lines.old) (λ script. Outputs P.fits_map P.slot_count (script_asker form) script warehouse.old.book spares.old.items warehouse.new.book spares.new.items (W.contents writer.old) (W.contents writer.new) r.replies)) }
    // On a fault this holds of a beginning of the script, of whole lines: all replies but the last were written, and the cause is
    // a true one.
    ensures fault { IfErr result (λ fault. Stops P.fits_map P.slot_count (script_asker form) fault lines.old lines.new warehouse.old.book spares.old.items warehouse.new.book spares.new.items (W.contents writer.old) (W.contents writer.new)) }
    // After a fault there is nothing more.
    ensures failed { OnErr result (lines.new.failed ≡ true) }
    ensures again { lines.old.failed ≡ true → (result ≡ Err ReplayFault.Broken) × (lines.new ≡ lines.old) × (warehouse.new.book ≡ warehouse.old.book) × (spares.new.items ≡ spares.old.items) × Keeps (W.contents writer.old) (W.contents writer.new) }
{
    let mut command = Command::Close;
    let first = warehouse.history().len();
    let clock = warehouse.clock();
    let mut script = Script {
        warehouse,
        spares,
        command: &mut command,
        alloc,
        asker: Asker { caller: 0, form },
        most: usize::MAX,
        replies: 0,
        first,
        clock,
        answers: OneAnswer::new(),
    };
    serve_script(lines, writer, &mut script)
}
