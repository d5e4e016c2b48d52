//! Lines that are served while what they are told waits.

ghost use Rattle.std.specs.Prelude.{◌≡◌, ◌≢◌, ◌≤◌, true, false, IfErr, IfOk, OnOk};
ghost use Rattle.std.specs.Io.KnownBytes.{Keeps};
ghost use Rattle.wh_text.specs.Lines.{IsLine};
ghost use Rattle.wh_session.specs.Machines.{SomeStands};
ghost use Rattle.wh_session.specs.Parts.{GathersFrom, GathersUntilFrom};

use crate::fault::{Round, SessionFault};
use crate::machine::Machine;
use crate::stepping::{Step, take_step};
use std::io::{Read, Write};
use wh_lines::{CommandLine, Lines};
use wh_text::first_line_feed;

/// Whether no whole line stands in the bytes.
#[tactic(auto, using(crate::proofs::Following::plain_all))]
fn none_waits(bytes: &[u8]) -> bool
    ensures { result ≡ true → IsLine bytes.now }
{
    match first_line_feed(bytes) {
        Some(_) => false,
        None => true,
    }
}

/// Serves the next line, for which it may wait, and then, unless each line is a round, each further whole line that waits, while
/// there is room.
pub(crate) fn gather<R: Read, W: Write, M: Machine>(
    lines: &mut Lines<R>,
    writer: &mut W,
    line: &mut CommandLine,
    machine: &mut M,
    single: bool,
) -> Result<Round, SessionFault>
    requires open { lines.old.failed ≡ false }
    requires stands { SomeStands M.stands machine.old }
    ensures ok { IfOk result (λ round. GathersFrom M.stands M.serves M.says M.logs M.serves_last single round lines.old lines.new machine.old machine.new) }
    ensures err { IfErr result (λ fault. GathersUntilFrom M.stands M.serves M.halts M.serves_last single fault lines.old lines.new machine.old machine.new) }
    ensures kept { IfErr result (λ fault. fault ≢ SessionFault.Unkept) }
    ensures reads { OnOk result (lines.old.reads ≤ lines.new.reads) }
    ensures open { OnOk result (lines.new.failed ≡ false) }
    ensures writer { Keeps (W.contents writer.old) (W.contents writer.new) }
    ensures starved { IfErr result (λ fault. fault ≡ SessionFault.NoMemory → M.may_starve ≡ true) }
    ensures over { IfOk result (λ round. round ≡ Round.Over → M.may_end ≡ true) }
{
    machine.clear();
    for _ in 0..u64::MAX {
        match take_step(lines, writer, line, machine) {
            Ok(Step::Line) => {}
            Ok(Step::Ended) => return Ok(Round::Ended),
            Ok(Step::Torn) => return Ok(Round::Torn),
            Ok(Step::Over) => return Ok(Round::Over),
            Err(fault) => return Err(fault),
        }
        if single {
            return Ok(Round::More);
        }
        if none_waits(lines.waiting()) {
            return Ok(Round::Served);
        }
        if machine.is_full() {
            return Ok(Round::More);
        }
    }
    Err(SessionFault::Endless)
}
