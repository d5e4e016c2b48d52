//! What is told to those that drive the vehicles.

ghost use Rattle.std.specs.Prelude.{◌≡◌, ◌++◌, ◌∷◌, [], codes, IfErr, OnErr, OnOk};
ghost use Rattle.std.specs.Io.KnownBytes.{Appends};
ghost use Rattle.wh_lines.specs.Output.{WritesFront};
ghost use Rattle.wh_replay.specs.Answers.{reply_line, text_of};
ghost use Rattle.wh_vehicles.specs.Notices.{notice_text};
ghost use Rattle.wh_dispatch.specs.Lines.{go_lines};

use crate::script::DispatchFault;
use arrayvec::ArrayVec;
use std::io::Write;
use wh_event::put;
use wh_order::Told;
use wh_replay::write_all;
use wh_vehicles::{Notice, going, put_notice};

/// Writes a line, the line feed at its end too, at once.
pub(crate) fn tell<W: Write>(writer: &mut W, line: &[u8]) -> Result<(), DispatchFault>
    ensures ok { OnOk result (Appends (W.contents writer.old) (W.contents writer.new) line.now) }
    ensures err { OnErr result (WritesFront (W.contents writer.old) (W.contents writer.new) line.now) }
    ensures fault { IfErr result (λ fault. fault ≡ DispatchFault.Unwritten) }
{
    match write_all(writer, line) {
        Ok(()) => Ok(()),
        Err(_) => Err(DispatchFault::Unwritten),
    }
}

/// Tells that memory runs out.
pub(crate) fn tell_starved<W: Write>(writer: &mut W) -> Result<(), DispatchFault>
    ensures ok { OnOk result (Appends (W.contents writer.old) (W.contents writer.new) (reply_line (codes "refused E90"))) }
    ensures err { OnErr result (WritesFront (W.contents writer.old) (W.contents writer.new) (reply_line (codes "refused E90"))) }
    ensures fault { IfErr result (λ fault. fault ≡ DispatchFault.Unwritten) }
{
    tell(writer, b"refused E90\n")
}

/// Tells a notice, as a line, at once.
pub(crate) fn tell_notice<W: Write>(writer: &mut W, notice: &Notice) -> Result<(), DispatchFault>
    ensures ok { OnOk result (Appends (W.contents writer.old) (W.contents writer.new) (reply_line (notice_text notice.now))) }
    ensures err { OnErr result (WritesFront (W.contents writer.old) (W.contents writer.new) (reply_line (notice_text notice.now))) }
    ensures fault { IfErr result (λ fault. fault ≡ DispatchFault.Unwritten) }
{
    let mut line = ArrayVec::new();
    put_notice(&mut line, notice);
    put(&mut line, b"\n");
    tell(writer, line.as_slice())
}

/// Tells each step that vehicles are to make, as a line, in order.
pub(crate) fn tell_steps<W: Write>(writer: &mut W, steps: &[Told]) -> Result<(), DispatchFault>
    ensures ok { OnOk result (Appends (W.contents writer.old) (W.contents writer.new) (text_of (go_lines steps.now))) }
    ensures err { OnErr result (WritesFront (W.contents writer.old) (W.contents writer.new) (text_of (go_lines steps.now))) }
    ensures fault { IfErr result (λ fault. fault ≡ DispatchFault.Unwritten) }
{
    for step in steps {
        tell_notice(writer, &going(*step))?;
    }
    Ok(())
}
