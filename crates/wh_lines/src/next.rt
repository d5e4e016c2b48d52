//! One line at a time, gathered in a fixed room.
ghost use Rattle.std.specs.Prelude.{◌≡◌, ◌<◌, ◌≤◌, ◌⊎◌, ◌++◌, length, take, nat_lt, true, false, [], IfOk, OnOk, OnErr};
ghost use Rattle.std.specs.List.{before_first, after_first, position_or_len};
ghost use Rattle.std.specs.Io.KnownBytes.{Keeps, IsAtEnd};
ghost use Rattle.wh_text.specs.Lines.{is_line_feed};
ghost use Rattle.wh_lines.specs.Input.{left, with_waiting, Gathered, GoesOn, Taken};

use crate::command_line::CommandLine;
use crate::lines::{Lines, Next, ReadFault};
use std::io::{Read, Write};
use wh_text::first_line_feed;

/// Why there is no next line.
#[derive(Clone, Copy, Debug, PartialEq, Eq)]
pub enum LineFault {
    /// No more bytes came.
    Read(ReadFault),
    /// What was written could not be flushed.
    Flush,
}

/// Takes what waits of the line, and the line feed behind it. True: the line is whole.
fn take_part<R: Read>(lines: &mut Lines<R>, line: &mut CommandLine) -> bool
    ensures line { line.new ≡ take 258 (line.old ++ before_first is_line_feed lines.old.waiting) }
    ensures lines { lines.new ≡ with_waiting lines.old (after_first is_line_feed lines.old.waiting) }
    ensures whole { result ≡ nat_lt (position_or_len is_line_feed lines.old.waiting) (length lines.old.waiting) }
{
    let waiting = lines.waiting();
    let count = waiting.len();
    match first_line_feed(waiting) {
        Some(end) => {
            line.add(&waiting[..end]);
            lines.take(end + 1);
            true
        }
        None => {
            line.add(waiting);
            lines.take(count);
            false
        }
    }
}

/// Takes the next line where it is short and waits as a whole, as nearly all lines of a script do: whether it did.
fn take_short<R: Read>(lines: &mut Lines<R>, line: &mut CommandLine) -> bool
    ensures line { result ≡ true → line.new ≡ take 258 (before_first is_line_feed lines.old.waiting) }
    ensures lines { result ≡ true → lines.new ≡ with_waiting lines.old (after_first is_line_feed lines.old.waiting) }
    ensures whole { result ≡ true → nat_lt (position_or_len is_line_feed lines.old.waiting) (length lines.old.waiting) ≡ true }
    ensures left { result ≡ false → lines.new ≡ lines.old }
{
    let waiting = lines.waiting();
    if waiting.len() < 32 {
        return false;
    }
    match first_line_feed(&waiting[..32]) {
        Some(end) => {
            line.keep_front(waiting, end);
            lines.take(end + 1);
            true
        }
        None => false,
    }
}

/// Whether bytes wait, after a read where none did. Before each read the writer is flushed, so that whoever feeds the
/// reader sees every reply.
fn more_waits<R: Read, W: Write>(lines: &mut Lines<R>, writer: &mut W) -> Result<bool, LineFault>
    ensures left { Keeps (left lines.old) (left lines.new) }
    ensures end { IfOk result (λ more. more ≡ false → IsAtEnd (left lines.new)) }
    ensures failed { lines.new.failed ≡ lines.old.failed }
    ensures ended { lines.new.ended ≡ lines.old.ended }
    ensures writer { Keeps (W.contents writer.old) (W.contents writer.new) }
    ensures goes_on { OnOk result (GoesOn lines.old lines.new) }
    ensures broken { result ≡ Err (LineFault.Read ReadFault.Broken) → lines.old.reads < lines.new.reads }
    ensures endless { result ≡ Err (LineFault.Read ReadFault.Endless) → lines.new.reads ≡ 100000000 }
{
    if !lines.waiting().is_empty() {
        return Ok(true);
    }
    if writer.flush().is_err() {
        return Err(LineFault::Flush);
    }
    match lines.fill() {
        Ok(more) => Ok(more),
        Err(fault) => Err(LineFault::Read(fault)),
    }
}

/// The next line, while no fault has come.
fn gather<R: Read, W: Write>(
    lines: &mut Lines<R>,
    writer: &mut W,
    line: &mut CommandLine,
) -> Result<Next, LineFault>
    ensures ok { IfOk result (λ next. Gathered next lines.old lines.new line.new) }
    ensures err { OnErr result (Taken lines.old lines.new) }
    ensures reads { OnOk result (lines.old.reads ≤ lines.new.reads) }
    ensures broken { result ≡ Err (LineFault.Read ReadFault.Broken) → lines.old.reads < lines.new.reads }
    ensures endless { result ≡ Err (LineFault.Read ReadFault.Endless) → lines.new.reads ≡ 100000000 }
    ensures failed { lines.new.failed ≡ lines.old.failed }
    ensures ended { lines.new.ended ≡ lines.old.ended }
    ensures writer { Keeps (W.contents writer.old) (W.contents writer.new) }
{
    line.clear();
    loop {
        if !more_waits(lines, writer)? {
            return Ok(if line.bytes().is_empty() {
                Next::End
            } else {
                Next::Last
            });
        }
        if take_part(lines, line) {
            return Ok(Next::Whole);
        }
    }
}

impl<R: Read> Lines<R> {
    /// Gathers the next line. The writer is flushed before each read, so that the sender has seen every
    /// reply. After a fault, also one of the writer, what the line keeps has no meaning, and each later call returns
    /// `Broken`.
    pub fn next_line<W: Write>(
        &mut self,
        writer: &mut W,
        line: &mut CommandLine,
    ) -> Result<Next, LineFault>
        ensures ok { IfOk result (λ next. Gathered next self.old self.new line.new) }
        // What was taken of the line has no line feed.
        ensures err { OnErr result (Taken self.old self.new) }
        ensures reads { OnOk result (self.old.reads ≤ self.new.reads) }
        // The reader failed when it was asked, or a fault came before.
        ensures broken { result ≡ Err (LineFault.Read ReadFault.Broken) → (self.old.failed ≡ true) ⊎ (self.old.reads < self.new.reads) }
        ensures endless { result ≡ Err (LineFault.Read ReadFault.Endless) → self.new.reads ≡ 100000000 }
        ensures open { OnOk result ((self.old.failed ≡ false) × (self.new.failed ≡ false)) }
        ensures failed { OnErr result (self.new.failed ≡ true) }
        ensures again { self.old.failed ≡ true → (result ≡ Err (LineFault.Read ReadFault.Broken)) × (self.new ≡ self.old) }
        ensures ended { self.new.ended ≡ self.old.ended }
        ensures writer { Keeps (W.contents writer.old) (W.contents writer.new) }
    {
        if self.has_failed() {
            return Err(LineFault::Read(ReadFault::Broken));
        }
        if take_short(self, line) {
            return Ok(Next::Whole);
        }
        let result = gather(self, writer, line);
        if result.is_err() {
            self.fail();
        }
        result
    }
}
