//! The reader with its buffer, and the count of its reads.
ghost use Rattle.std.specs.Prelude.{◌≡◌, ◌<◌, ◌≤◌, [], length, drop, true, false, IfOk, OnOk, OnErr};
ghost use Rattle.std.specs.Io.KnownBytes.{Keeps, IsAtEnd, ReadConsumes};
ghost use Rattle.std.specs.Io.{ReadsAtMost};
ghost use Rattle.wh_lines.specs.Input.{left, with_waiting, with_failed, with_ended, IsAsked};

use std::io::{ErrorKind, Read};
use std::marker::Model;

const MAX_READS: u64 = 100_000_000;

/// Why no more bytes came.
#[derive(Clone, Copy, Debug, PartialEq, Eq)]
pub enum ReadFault {
    /// The reader failed, now or before.
    Broken,
    /// The reader was asked 100,000,000 times.
    Endless,
}

/// What the next line is.
#[derive(Clone, Copy, Debug, PartialEq, Eq)]
pub enum Next {
    /// A line that a line feed ended.
    Whole,
    /// A line that the end of the input ended.
    Last,
    /// There is none.
    End,
}

/// A reader, and the bytes that were read from it and not yet taken: 65,536 at most.
#[derive(Drop)]
pub struct Lines<R: Read> {
    reader: R,
    buffer: [u8; 65536],
    start: usize,
    end: usize,
    reads: u64,
    has_failed: bool,
    has_ended: bool,
}

impl<R: Read> Model for Lines<R> {
    ghost use Rattle.std.specs.Prelude.{slice_range, ◌≤◌};
    ghost use Rattle.wh_lines.specs.Input.{Input};

    ghost Value = { Input };

    ghost view = { λ l. record { waiting = slice_range l.buffer l.start l.end; source = R.remaining l.reader; reads = l.reads; failed = l.has_failed; ended = l.has_ended } };

    ghost invariant = { λ l. (l.start ≤ l.end) × (l.end ≤ 65536) × (l.reads ≤ 100000000) };
}

/// Reads once, and again where the read was interrupted.
fn read_counted<R: Read>(
    reader: &mut R,
    buffer: &mut [u8],
    reads: &mut u64,
) -> Result<usize, ReadFault>
    requires { reads.old ≤ 100000000 }
    ensures bound { ReadsAtMost result buffer.new }
    ensures bytes { ReadConsumes (R.remaining reader.old) (R.remaining reader.new) result buffer.new }
    ensures most { reads.new ≤ 100000000 }
    ensures asked { OnOk result (reads.old < reads.new) }
    ensures broken { result ≡ Err ReadFault.Broken → reads.old < reads.new }
    ensures endless { result ≡ Err ReadFault.Endless → reads.new ≡ 100000000 }
{
    while *reads < MAX_READS {
        *reads += 1;
        match reader.read(buffer) {
            Ok(count) => return Ok(count),
            Err(error) => {
                if error.kind() != ErrorKind::Interrupted {
                    return Err(ReadFault::Broken);
                }
            }
        }
    }
    Err(ReadFault::Endless)
}

impl<R: Read> Lines<R> {
    /// A line reader that has read nothing. It gives up after 100,000,000 reads.
    pub fn new(reader: R) -> Lines<R>
        ensures waiting { result.waiting ≡ [] }
        ensures source { result.source ≡ R.remaining reader }
        ensures reads { result.reads ≡ 0 }
        ensures failed { result.failed ≡ false }
        ensures ended { result.ended ≡ false }
    {
        Lines {
            reader,
            buffer: [0; 65536],
            start: 0,
            end: 0,
            reads: 0,
            has_failed: false,
            has_ended: false,
        }
    }

    /// Whether a fault has come. From then on each call returns `Broken`.
    pub fn has_failed(&self) -> bool
        ensures { result ≡ self.now.failed }
    {
        self.has_failed
    }

    /// Whether a section was read, and the last one was closed by the end of the input and not by a line `%%`.
    pub fn ended(&self) -> bool
        ensures { result ≡ self.now.ended }
    {
        self.has_ended
    }

    /// From now on there are no more bytes.
    pub fn fail(&mut self)
        ensures { self.new ≡ with_failed self.old true }
    {
        self.has_failed = true;
    }

    /// The bytes that can be taken without a read. Where there are none, the next line may wait on the reader.
    pub fn waiting(&self) -> &[u8]
        ensures { result.now ≡ self.now.waiting }
    {
        &self.buffer[self.start..self.end]
    }

    pub(crate) fn set_ended(&mut self, ended: bool)
        ensures { self.new ≡ with_ended self.old ended }
    {
        self.has_ended = ended;
    }

    /// Takes bytes that wait.
    pub fn take(&mut self, count: usize)
        requires { count ≤ length self.old.waiting }
        ensures { self.new ≡ with_waiting self.old (drop count self.old.waiting) }
    {
        self.start += count;
    }

    /// Reads where no bytes wait. True: now some do. False: the reader is at its end.
    pub(crate) fn fill(&mut self) -> Result<bool, ReadFault>
        requires { self.old.waiting ≡ [] }
        ensures kept { Keeps (left self.old) (left self.new) }
        ensures failed { self.new.failed ≡ self.old.failed }
        ensures ended { self.new.ended ≡ self.old.ended }
        ensures some { IfOk result (λ more. more ≡ true → 0 < length self.new.waiting) }
        ensures none { IfOk result (λ more. more ≡ false → (self.new.waiting ≡ []) × IsAtEnd (left self.new)) }
        ensures err { OnErr result (self.new.waiting ≡ []) }
        ensures asked { OnOk result (IsAsked self.old self.new) }
        ensures broken { result ≡ Err ReadFault.Broken → self.old.reads < self.new.reads }
        ensures endless { result ≡ Err ReadFault.Endless → self.new.reads ≡ 100000000 }
    {
        self.start = 0;
        self.end = 0;
        let count = read_counted(&mut self.reader, &mut self.buffer, &mut self.reads)?;
        self.end = count;
        Ok(count > 0)
    }
}
