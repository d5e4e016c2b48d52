//! A text that is written whole, and flushed.

ghost use Rattle.std.specs.Prelude.{◌≡◌, IfErr, OnErr, OnOk};
ghost use Rattle.std.specs.Io.KnownBytes.{Appends};
ghost use Rattle.wh_lines.specs.Output.{WritesFront};

use std::io::Write;
use wh_edge::Trouble;
use wh_lines::write_all;

/// Writes a text, and flushes the writer. Fails if one of the two failed; a front of the text is then written.
pub fn write_text<W: Write>(output: &mut W, text: &[u8]) -> Result<(), Trouble>
    ensures ok { OnOk result (Appends (W.contents output.old) (W.contents output.new) text.now) }
    ensures fault { IfErr result (λ told. told ≡ Trouble.Unwritten) }
    ensures front { OnErr result (WritesFront (W.contents output.old) (W.contents output.new) text.now) }
{
    match write_all(output, text) {
        Ok(()) => match output.flush() {
            Ok(()) => Ok(()),
            Err(_) => Err(Trouble::Unwritten),
        },
        Err(_) => Err(Trouble::Unwritten),
    }
}
