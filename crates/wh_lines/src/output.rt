//! Writes bytes to any writer, and says what was written where it fails.

ghost use Rattle.std.specs.Prelude.{IfOk, OnOk, OnErr, length, take, ◌≤◌};
ghost use Rattle.std.specs.Io.KnownBytes.{Appends, Keeps};
ghost use Rattle.wh_lines.specs.Output.{WritesFront};

use std::io::{ErrorKind, Write};

/// The writer failed, or took no byte.
#[derive(Clone, Copy, Debug, PartialEq, Eq)]
pub struct WriteFault;

/// Writes a front of the bytes: none where the write was interrupted.
#[inline(always)]
fn write_front<W: Write>(writer: &mut W, bytes: &[u8]) -> Result<usize, WriteFault>
    ensures bound { IfOk result (λ count. count ≤ length bytes.now) }
    ensures ok { IfOk result (λ count. Appends (W.contents writer.old) (W.contents writer.new) (take count bytes.now)) }
    ensures err { OnErr result (Keeps (W.contents writer.old) (W.contents writer.new)) }
{
    match writer.write(bytes) {
        Ok(0) => Err(WriteFault),
        Ok(count) => Ok(count),
        Err(error) if error.kind() == ErrorKind::Interrupted => Ok(0),
        Err(_) => Err(WriteFault),
    }
}

/// Writes all the bytes, in as many parts as it takes. Nearly all texts are taken at once, and never come here.
#[cold]
#[inline(never)]
fn write_parts<W: Write>(writer: &mut W, bytes: &[u8]) -> Result<(), WriteFault>
    ensures ok { OnOk result (Appends (W.contents writer.old) (W.contents writer.new) bytes.now) }
    ensures err { OnErr result (WritesFront (W.contents writer.old) (W.contents writer.new) bytes.now) }
{
    let mut done = 0;
    for _ in 0..u64::MAX {
        if done >= bytes.len() {
            return Ok(());
        }
        done += write_front(writer, &bytes[done..])?;
    }
    Err(WriteFault)
}

/// Writes all the bytes, or a front of them where the writer failed or took no byte. It does not flush.
// Inlined, so that a text of known length is copied without a call.
#[inline(always)]
pub fn write_all<W: Write>(writer: &mut W, bytes: &[u8]) -> Result<(), WriteFault>
    ensures ok { OnOk result (Appends (W.contents writer.old) (W.contents writer.new) bytes.now) }
    ensures err { OnErr result (WritesFront (W.contents writer.old) (W.contents writer.new) bytes.now) }
{
    if bytes.is_empty() {
        return Ok(());
    }
    let first = write_front(writer, bytes)?;
    if first >= bytes.len() {
        return Ok(());
    }
    write_parts(writer, &bytes[first..])
}
