//! What `state` does.

ghost use Rattle.std.specs.Prelude.{◌≡◌, IfErr, IfOk, IfSome};
ghost use Rattle.wh_handover.specs.Handing.{IsHandover, IsWhyNone};
ghost use Rattle.wh_service.specs.States.{IsUnread, IsWhyUnstated, States, trouble_of};

use crate::settings::read_setting;
use crate::writing::write_text;
use std::alloc::Global;
use std::io::{Read, Write};
use wh_continue::{LogFile, LogFileFault};
use wh_edge::{Status, Trouble};
use wh_handover::{HandoverFault, front_after, front_text};
use wh_lines::Lines;
use wh_log::NoMemory;
use wh_options::StateOptions;

/// The error of a log that tells no state to go on from.
pub(crate) fn trouble_of(fault: HandoverFault) -> Trouble
    ensures { result ≡ trouble_of fault }
{
    match fault {
        HandoverFault::Empty => Trouble::Unkept,
        HandoverFault::Flawed { line, reason } => Trouble::Front { reason, line },
        HandoverFault::Bad { line } => Trouble::Log { line },
        HandoverFault::NoMemory => Trouble::NoMemory,
    }
}

/// All bytes of the file of a log.
pub(crate) fn text_of<L: LogFile>(alloc: Global, file: &mut L) -> Result<Vec<u8>, Trouble>
    ensures ok { IfOk result (λ text. IfSome (L.contents file.old) (λ held. text.items ≡ held)) }
    ensures fault { IfErr result (λ told. IsUnread told) }
    ensures same { L.contents file.new ≡ L.contents file.old }
{
    match file.text(alloc) {
        Ok(text) => Ok(text),
        Err(LogFileFault::Unread) => Err(Trouble::Unkept),
        Err(LogFileFault::NoMemory) => Err(Trouble::NoMemory),
    }
}

/// Reads a site, and writes the front of a log that goes on from the one in this file, a run over the site by the rule of the options: the
/// state after the entry of the number that they name, else after the last that stands whole. A part of a line behind the entries is not
/// counted. The file is not changed, and none is made.
/// Errors are reported in this order: the site, a file that is not there, is empty or cannot be read, its log, lack of memory, the writer.
/// Before the writer fails nothing is written.
pub fn state<R: Read, W: Write, L: LogFile>(
    alloc: Global,
    lines: &mut Lines<R>,
    output: &mut W,
    options: &StateOptions<'_>,
    file: &mut L,
) -> Result<Status, Trouble>
    ensures ok { IfOk result (λ status. States options.now lines.old lines.new (W.contents output.old) (W.contents output.new) (L.contents file.old) status) }
    ensures fault { IfErr result (λ told. IsWhyUnstated options.now told lines.old lines.new (W.contents output.old) (W.contents output.new) (L.contents file.old)) }
    ensures same { L.contents file.new ≡ L.contents file.old }
{
    let setting = match read_setting(lines, alloc, options.homes) {
        Ok(setting) => setting,
        Err(trouble) => return Err(trouble),
    };
    let log = match text_of(alloc, file) {
        Ok(log) => log,
        Err(trouble) => {
            drop(setting);
            return Err(trouble);
        }
    };
    let front = match front_after(alloc, setting, log.as_slice(), options.after) {
        Ok(front) => front,
        Err(fault) => {
            drop(log);
            return Err(trouble_of(fault));
        }
    };
    drop(log);
    let text = match front_text(alloc, &front) {
        Ok(text) => text,
        Err(NoMemory) => return Err(Trouble::NoMemory),
    };
    drop(front);
    match write_text(output, text.as_slice()) {
        Ok(()) => Ok(Status::Done),
        Err(trouble) => Err(trouble),
    }
}
