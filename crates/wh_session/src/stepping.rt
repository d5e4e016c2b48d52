//! The next line of a session.

ghost use Rattle.std.specs.Prelude.{◌≡◌, ◌≢◌, ◌≤◌, true, false, IfErr, IfOk, OnOk};
ghost use Rattle.std.specs.Io.KnownBytes.{Keeps};
ghost use Rattle.wh_session.specs.Machines.{SomeStands, ServesFrontFrom, SameFrom};
ghost use Rattle.wh_session.specs.Steps.{StepsFrom, HaltsStepFrom};

use crate::fault::{SessionFault, halted, read_fault};
use crate::machine::Machine;
use std::io::{Read, Write};
use wh_lines::{CommandLine, Lines, Next};

/// What the next line came to.
#[derive(Clone, Copy)]
pub(crate) enum Step {
    /// It was served.
    Line,
    /// There is none.
    Ended,
    /// What follows the last line feed is no line.
    Torn,
    /// The service is over: a line that had come was not served.
    Over,
}

/// Serves the next line where it stands in place, in a form that the machine reads there, and the service is not over: whether it did.
#[inline(always)]
fn take_front<R: Read, M: Machine>(lines: &mut Lines<R>, machine: &mut M) -> bool
    requires stands { SomeStands M.stands machine.old }
    requires room { M.has_room machine.old }
    ensures took { result ≡ true → StepsFrom M.stands M.serves M.says M.logs M.serves_last Step.Line lines.old lines.new machine.old machine.new }
    ensures left { result ≡ false → (lines.new ≡ lines.old) × SameFrom M.stands M.says M.logs machine.old machine.new }
    ensures room { result ≡ false → M.has_room machine.new }
    ensures reads { lines.new.reads ≡ lines.old.reads }
    ensures failed { lines.new.failed ≡ lines.old.failed }
{
    if machine.is_over() {
        return false;
    }
    match machine.serve_front(lines.waiting()) {
        Some(count) => {
            lines.take(count);
            true
        }
        None => false,
    }
}

/// Takes the next line, for which it may wait, and serves it.
fn take_next<R: Read, W: Write, M: Machine>(
    lines: &mut Lines<R>,
    writer: &mut W,
    line: &mut CommandLine,
    machine: &mut M,
) -> Result<Step, SessionFault>
    requires open { lines.old.failed ≡ false }
    requires stands { SomeStands M.stands machine.old }
    requires room { M.has_room machine.old }
    ensures ok { IfOk result (λ step. StepsFrom M.stands M.serves M.says M.logs M.serves_last step lines.old lines.new machine.old machine.new) }
    ensures err { IfErr result (λ fault. HaltsStepFrom M.stands M.halts M.serves_last fault lines.old lines.new machine.old machine.new) }
    ensures kept { IfErr result (λ fault. fault ≢ SessionFault.Unkept) }
    ensures reads { OnOk result (lines.old.reads ≤ lines.new.reads) }
    ensures open { OnOk result (lines.new.failed ≡ false) }
    ensures writer { Keeps (W.contents writer.old) (W.contents writer.new) }
    ensures starved { IfErr result (λ fault. fault ≡ SessionFault.NoMemory → M.may_starve ≡ true) }
    ensures over { IfOk result (λ step. step ≡ Step.Over → M.may_end ≡ true) }
{
    let next = match lines.next_line(writer, line) {
        Ok(next) => next,
        Err(fault) => return Err(read_fault(fault)),
    };
    let step = match next {
        Next::Whole => {
            if machine.is_over() {
                return Ok(Step::Over);
            }
            Step::Line
        }
        Next::Last => {
            if machine.serves_last() {
                Step::Ended
            } else {
                return Ok(Step::Torn);
            }
        }
        Next::End => return Ok(Step::Ended),
    };
    match machine.serve(line) {
        Ok(()) => Ok(step),
        Err(halt) => Err(halted(halt)),
    }
}

/// Serves the next line, for which it may wait.
#[inline(always)]
pub(crate) fn take_step<R: Read, W: Write, M: Machine>(
    lines: &mut Lines<R>,
    writer: &mut W,
    line: &mut CommandLine,
    machine: &mut M,
) -> Result<Step, SessionFault>
    requires open { lines.old.failed ≡ false }
    requires stands { SomeStands M.stands machine.old }
    requires room { M.has_room machine.old }
    ensures ok { IfOk result (λ step. StepsFrom M.stands M.serves M.says M.logs M.serves_last step lines.old lines.new machine.old machine.new) }
    ensures err { IfErr result (λ fault. HaltsStepFrom M.stands M.halts M.serves_last fault lines.old lines.new machine.old machine.new) }
    ensures kept { IfErr result (λ fault. fault ≢ SessionFault.Unkept) }
    ensures reads { OnOk result (lines.old.reads ≤ lines.new.reads) }
    ensures open { OnOk result (lines.new.failed ≡ false) }
    ensures writer { Keeps (W.contents writer.old) (W.contents writer.new) }
    ensures starved { IfErr result (λ fault. fault ≡ SessionFault.NoMemory → M.may_starve ≡ true) }
    ensures over { IfOk result (λ step. step ≡ Step.Over → M.may_end ≡ true) }
{
    if take_front(lines, machine) {
        return Ok(Step::Line);
    }
    take_next(lines, writer, line, machine)
}
