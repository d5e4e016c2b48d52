//! Sections and lines from small readers, at hand and byte by byte, with each read failing in turn.
use std::alloc::{AllocError, Global};
use std::io;
use std::io::{Error, ErrorKind, Read, Write};
use std::test::*;
use wh_lines::{CommandLine, LineFault, Lines, Next, ReadFault, SectionFault};

/// Gives one byte a call, is interrupted before each, and fails once `left` have been given.
#[derive(Drop)]
struct Drip<'a> {
    rest: &'a [u8],
    left: usize,
    is_interrupted: bool,
}

impl<'a> Drip<'a> {
    fn new(rest: &'a [u8], left: usize) -> Drip<'a> {
        Drip {
            rest,
            left,
            is_interrupted: false,
        }
    }
}

impl Read for Drip<'_> {
    fn read(&mut self, buf: &mut [u8]) -> io::Result<usize> {
        self.is_interrupted = !self.is_interrupted;
        if self.is_interrupted {
            return Err(Error::from(ErrorKind::Interrupted));
        }
        if self.left == 0 {
            return Err(Error::from(ErrorKind::Other));
        }
        if buf.is_empty() || self.rest.is_empty() {
            return Ok(0);
        }
        buf[0] = self.rest[0];
        self.rest = &self.rest[1..];
        self.left -= 1;
        Ok(1)
    }
}

/// Counts its flushes, and fails at one past `room`.
#[derive(Drop)]
struct Flushes {
    count: u32,
    room: u32,
}

impl Write for Flushes {
    fn write(&mut self, buf: &[u8]) -> io::Result<usize> {
        Ok(buf.len())
    }

    fn flush(&mut self) -> io::Result<()> {
        if self.count >= self.room {
            return Err(Error::from(ErrorKind::Other));
        }
        self.count += 1;
        Ok(())
    }
}

/// The next section, with a bar behind it, comes to a text. Whether it is read.
fn add_section<R: Read>(alloc: Global, lines: &mut Lines<R>, all: &mut Vec<u8>) -> bool {
    match lines.section(alloc, 100) {
        Ok(section) => {
            let is_added = all.extend_from_slice(&section).is_ok() && all.push(b'|').is_ok();
            drop(section);
            is_added
        }
        Err(_) => false,
    }
}

/// The sections up to the end, each with a bar behind it, come to a text. Whether all are read.
fn add_sections<R: Read>(alloc: Global, lines: &mut Lines<R>, all: &mut Vec<u8>) -> bool {
    for _ in 0..10 {
        if !add_section(alloc, lines, all) {
            return false;
        }
        if lines.ended() {
            return true;
        }
    }
    true
}

/// Whether the sections up to the end are these, each with a bar behind it.
fn has_sections<R: Read>(alloc: Global, lines: &mut Lines<R>, barred: &[u8]) -> bool {
    let mut all = Vec::new(alloc);
    let are_these = add_sections(alloc, lines, &mut all) && all.as_slice() == barred;
    drop(all);
    are_these
}

const SECTIONS: &[u8] = b"a\r\n%% \nb%%\n%%\r\n\n%%\n%%%\nc";

const BARRED: &[u8] = b"a\r\n%% \nb%%\n|\n|%%%\nc|";

fn are_in_one_piece(alloc: Global) -> bool {
    let mut lines = Lines::new(SECTIONS);
    !lines.ended() && has_sections(alloc, &mut lines, BARRED)
}

#[test]
fn sections_in_one_piece(rt: HostRuntime) {
    assert!(rt; are_in_one_piece(rt.alloc()));
}

/// Whether the sections are the same byte by byte, and one that is missing is empty.
fn drops_are_the_same(alloc: Global) -> bool {
    let mut lines = Lines::new(Drip::new(SECTIONS, 1000));
    has_sections(alloc, &mut lines, BARRED)
        && has_sections(alloc, &mut lines, b"|")
        && !lines.has_failed()
}

#[test]
fn sections_byte_by_byte(rt: HostRuntime) {
    assert!(rt; drops_are_the_same(rt.alloc()));
}

/// The length of the first section, or its fault.
fn first_section(alloc: Global, text: &[u8], limit: usize) -> Result<usize, SectionFault> {
    let mut lines = Lines::new(Drip::new(text, 1000));
    Ok(lines.section(alloc, limit)?.len())
}

/// Texts and limits, each with the length of the first section, or its fault.
const LIMITS: [(&[u8], usize, Result<usize, SectionFault>); 7] = [
    (b"abc\n%%\r\nx", 4, Ok(4)),
    (b"abc\n%%\r", 4, Ok(4)),
    (b"abc\n%%\r\n", 3, Err(SectionFault::TooLong)),
    (b"abcde", 4, Err(SectionFault::TooLong)),
    (b"abcdefgh", 4, Err(SectionFault::TooLong)),
    (b"%%", 0, Ok(0)),
    (b"", 0, Ok(0)),
];

fn is_first(alloc: Global, text: &[u8], limit: usize, wanted: Result<usize, SectionFault>) -> bool {
    first_section(alloc, text, limit) == wanted
}

fn are_limited(alloc: Global) -> bool {
    for (text, limit, wanted) in LIMITS.iter() {
        if !is_first(alloc, text, *limit, *wanted) {
            return false;
        }
    }
    true
}

#[test]
fn a_section_has_no_more_bytes_than_the_limit(rt: HostRuntime) {
    assert!(rt; are_limited(rt.alloc()));
}

/// The fault of the next section of at most this many bytes, if it has one.
fn fault_of<R: Read>(alloc: Global, lines: &mut Lines<R>, limit: usize) -> Option<SectionFault> {
    lines.section(alloc, limit).err()
}

/// Whether a section that is too long is told, and that nothing more is read after it.
fn is_given_up(alloc: Global) -> bool {
    let mut lines = Lines::new(b"abcde\n%%\nf".as_slice());
    fault_of(alloc, &mut lines, 5) == Some(SectionFault::TooLong)
        && fault_of(alloc, &mut lines, 5) == Some(SectionFault::Broken)
}

#[test]
fn nothing_is_read_behind_a_long_section(rt: HostRuntime) {
    assert!(rt; is_given_up(rt.alloc()));
}

/// One section of two bytes and a line feed, and a line behind it.
const SHORT: &[u8] = b"ab\n%%\nc\n";

/// Whether the section has a fault where the reader fails after this many bytes, now and again.
fn section_fails(alloc: Global, given: usize) -> bool {
    let mut lines = Lines::new(Drip::new(SHORT, given));
    fault_of(alloc, &mut lines, 100) == Some(SectionFault::Broken)
        && lines.has_failed()
        && !lines.ended()
        && fault_of(alloc, &mut lines, 100) == Some(SectionFault::Broken)
}

/// Whether the next line is told as broken.
fn is_broken<R: Read>(alloc: Global, lines: &mut Lines<R>) -> bool {
    let mut sink = Vec::new(alloc);
    let broken = Err(LineFault::Read(ReadFault::Broken));
    lines.next_line(&mut sink, &mut CommandLine::new()) == broken
}

/// Whether the line behind the section has a fault where the reader fails after this many bytes, now and again.
fn line_fails(alloc: Global, given: usize) -> bool {
    let mut lines = Lines::new(Drip::new(SHORT, given));
    fault_of(alloc, &mut lines, 100).is_none()
        && is_broken(alloc, &mut lines)
        && lines.has_failed()
        && is_broken(alloc, &mut lines)
}

/// Whether each read of the section fails, and each of the line behind it.
fn all_fail(alloc: Global) -> bool {
    for given in 0..8 {
        let fails = if given < 6 {
            section_fails(alloc, given)
        } else {
            line_fails(alloc, given)
        };
        if !fails {
            return false;
        }
    }
    true
}

#[test]
fn each_read_fails_in_turn(rt: HostRuntime) {
    assert!(rt; all_fail(rt.alloc()));
}

/// A line, with a bar behind it where it is a whole one, and else a dollar, comes to a text. Whether it does.
fn add_text(line: &CommandLine, end: u8, all: &mut Vec<u8>) -> bool {
    all.extend_from_slice(line.text().unwrap_or(b"too long"))
        .is_ok()
        && all.push(end).is_ok()
}

/// The next line comes to a text so. None: it is not read, or there is no memory.
fn add_line<R: Read>(
    lines: &mut Lines<R>,
    sink: &mut Vec<u8>,
    line: &mut CommandLine,
    all: &mut Vec<u8>,
) -> Option<Next> {
    let next = lines.next_line(sink, line).ok()?;
    let is_added = match next {
        Next::Whole => add_text(line, b'|', all),
        Next::End => true,
        _ => add_text(line, b'$', all),
    };
    if is_added { Some(next) } else { None }
}

/// The lines up to the end come to a text so. Whether all are read.
fn add_lines<R: Read>(lines: &mut Lines<R>, sink: &mut Vec<u8>, all: &mut Vec<u8>) -> bool {
    let mut line = CommandLine::new();
    for _ in 0..10 {
        match add_line(lines, sink, &mut line, all) {
            Some(Next::End) => return true,
            Some(_) => {}
            None => return false,
        }
    }
    true
}

/// Whether the lines are read as they are to be.
fn has_lines<R: Read>(alloc: Global, lines: &mut Lines<R>) -> bool {
    let mut all = Vec::new(alloc);
    let mut sink = Vec::new(alloc);
    let are_these = add_lines(lines, &mut sink, &mut all)
        && all.as_slice() == b"one||t\rw|end\r$".as_slice();
    drop(sink);
    drop(all);
    are_these
}

/// Whether the lines are the same in one piece and byte by byte.
fn lines_are_the_same(alloc: Global) -> bool {
    let text = b"one\r\n\nt\rw\r\nend\r\r".as_slice();
    has_lines(alloc, &mut Lines::new(text))
        && has_lines(alloc, &mut Lines::new(Drip::new(text, 1000)))
}

#[test]
fn lines_are_the_same_in_one_piece_and_byte_by_byte(rt: HostRuntime) {
    assert!(rt; lines_are_the_same(rt.alloc()));
}

/// A byte, the given number of times, and an end come to a text.
fn add_part(text: &mut Vec<u8>, byte: u8, count: usize, end: &[u8]) -> Result<(), AllocError> {
    for _ in 0..count {
        text.push(byte)?;
    }
    text.extend_from_slice(end)
}

/// Whether the text is this byte, the given number of times.
fn repeats(text: &[u8], byte: u8, count: usize) -> bool {
    for found in text {
        if *found != byte {
            return false;
        }
    }
    text.len() == count
}

/// Whether the next line is a whole one of this byte, the given number of times, or too long where none is given, and the bytes at
/// hand behind it end with these.
fn goes_on(lines: &mut Lines<&[u8]>, wanted: Option<(u8, usize)>, waiting: &[u8]) -> bool {
    let mut line = CommandLine::new();
    let mut sink = Flushes {
        count: 0,
        room: 1000,
    };
    let is_whole = lines.next_line(&mut sink, &mut line) == Ok(Next::Whole);
    let is_wanted = match (line.text(), wanted) {
        (Some(text), Some((byte, count))) => repeats(text, byte, count),
        (None, None) => true,
        _ => false,
    };
    is_whole && is_wanted && lines.waiting().ends_with(waiting)
}

/// Whether a line of 256 bytes is read, the two longer ones are told as such, and the last one is read.
fn goes_through(text: &[u8]) -> bool {
    let mut lines = Lines::new(text);
    goes_on(&mut lines, Some((b'a', 256)), b"c")
        && goes_on(&mut lines, None, b"c")
        && goes_on(&mut lines, None, b"dddd\n")
        && lines.waiting().len() == 5
        && goes_on(&mut lines, Some((b'd', 4)), b"")
        && lines.waiting().is_empty()
}

/// Bytes, how many of each there are, and what ends them.
const PARTS: [(u8, usize, &[u8]); 4] = [
    (b'a', 256, b"\r\n"),
    (b'b', 257, b"\n"),
    (b'c', 1_000_000, b"\n"),
    (b'd', 4, b"\n"),
];

fn add_parts(text: &mut Vec<u8>) -> Result<(), AllocError> {
    for (byte, count, end) in PARTS.iter() {
        add_part(text, *byte, *count, end)?;
    }
    Ok(())
}

fn parts_go_through(alloc: Global) -> bool {
    let mut text = Vec::new(alloc);
    let go_through = add_parts(&mut text).is_ok() && goes_through(&text);
    drop(text);
    go_through
}

#[test]
fn a_line_may_have_any_length(rt: HostRuntime) {
    assert!(rt; parts_go_through(rt.alloc()));
}

/// Whether that comes of the next line, for which the writer may be flushed.
fn is_next(lines: &mut Lines<&[u8]>, writer: &mut Flushes, next: Result<Next, LineFault>) -> bool {
    lines.next_line(writer, &mut CommandLine::new()) == next
}

/// Whether a writer is flushed once before the first read, and the second flush is told where it fails.
fn is_flushed(lines: &mut Lines<&[u8]>, writer: &mut Flushes) -> bool {
    is_next(lines, writer, Ok(Next::Whole))
        && is_next(lines, writer, Ok(Next::Whole))
        && writer.count == 1
        && is_next(lines, writer, Err(LineFault::Flush))
        && is_next(lines, writer, Err(LineFault::Read(ReadFault::Broken)))
}

#[test]
fn the_writer_is_flushed_before_each_read(rt: HostRuntime) {
    let mut writer = Flushes { count: 0, room: 1 };
    assert!(rt; is_flushed(&mut Lines::new(b"a\nb\nc".as_slice()), &mut writer));
}

/// Whether a reader that is given up has a fault, and nothing of it waits.
fn is_not_asked(alloc: Global) -> bool {
    let mut lines = Lines::new(b"a\n".as_slice());
    lines.fail();
    fault_of(alloc, &mut lines, 100) == Some(SectionFault::Broken) && lines.waiting().is_empty()
}

#[test]
fn a_reader_that_is_given_up_is_not_asked_again(rt: HostRuntime) {
    assert!(rt; is_not_asked(rt.alloc()));
}
