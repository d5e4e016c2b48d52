//! Sections: the bytes up to a line `%%`, or up to the end.
ghost use Rattle.std.specs.Prelude.{◌≡◌, ◌<◌, ◌≤◌, ◌⊎◌, ◌++◌, length, take, drop, nat_lt, ◌≢◌, ℕ, true, false, IfOk, IfErr, OnOk, OnErr};
ghost use Rattle.std.specs.List.{position_or_len};
ghost use Rattle.std.specs.Io.KnownBytes.{Keeps, IsAtEnd};
ghost use Rattle.wh_text.specs.Lines.{is_line_feed, without_cr, HasNone};
ghost use Rattle.wh_lines.specs.Text.{is_separator, is_percent, EndsLine};
ghost use Rattle.wh_lines.specs.Input.{Input, left, with_waiting, part_len, GoesOn};
ghost use Rattle.wh_lines.specs.Section.{Closed, Collects, HasNoMark, Sectioned, Overflows};

use crate::lines::{Lines, ReadFault};
use std::alloc::{AllocError, Global};
use std::io::Read;
use wh_text::{first_line_feed, trimmed};

/// Why a section was not read.
#[derive(Clone, Copy, Debug, PartialEq, Eq)]
pub enum SectionFault {
    /// The reader failed, or a fault came before.
    Broken,
    /// The reader was asked 100,000,000 times.
    Endless,
    /// The section has more bytes than the limit.
    TooLong,
    /// Memory is short.
    NoMemory,
}

/// Whether a line stands between two sections.
#[tactic(auto, unfolding(crate::specs::Text::is_separator))]
fn is_mark(line: &[u8]) -> bool
    ensures { result ≡ is_separator (without_cr line.now) }
{
    trimmed(line) == b"%%".as_slice()
}

/// Whether bytes wait, after a read where none did.
fn more_waits<R: Read>(lines: &mut Lines<R>) -> Result<bool, SectionFault>
    ensures left { OnOk result (Keeps (left lines.old) (left lines.new)) }
    ensures end { IfOk result (λ more. more ≡ false → IsAtEnd (left lines.new)) }
    ensures failed { OnOk result (lines.new.failed ≡ lines.old.failed) }
    ensures ended { lines.new.ended ≡ lines.old.ended }
    ensures goes_on { OnOk result (GoesOn lines.old lines.new) }
    ensures too_long { IfErr result (λ fault. fault ≢ SectionFault.TooLong) }
    ensures broken { result ≡ Err SectionFault.Broken → lines.old.reads < lines.new.reads }
    ensures endless { result ≡ Err SectionFault.Endless → lines.new.reads ≡ 100000000 }
{
    if !lines.waiting().is_empty() {
        return Ok(true);
    }
    match lines.fill() {
        Ok(more) => Ok(more),
        Err(ReadFault::Broken) => Err(SectionFault::Broken),
        Err(ReadFault::Endless) => Err(SectionFault::Endless),
    }
}

/// How many bytes wait of the line, with its line feed, and whether it is whole.
fn part(waiting: &[u8]) -> (usize, bool)
    ensures count { take result.0 waiting.now ≡ take (part_len waiting.now) waiting.now }
    ensures rest { drop result.0 waiting.now ≡ drop (part_len waiting.now) waiting.now }
    ensures within { result.0 ≤ length waiting.now }
    ensures whole { result.1 ≡ nat_lt (position_or_len is_line_feed waiting.now) (length waiting.now) }
{
    match first_line_feed(waiting) {
        Some(end) => (end + 1, true),
        None => (waiting.len(), false),
    }
}

/// Moves what waits of the line, with its line feed, to the end of the text. True: the line is whole.
fn append_part<R: Read>(lines: &mut Lines<R>, text: &mut Vec<u8>) -> Result<bool, AllocError>
    ensures text { OnOk result (text.new.items ≡ text.old.items ++ take (part_len lines.old.waiting) lines.old.waiting) }
    ensures lines { OnOk result (lines.new ≡ with_waiting lines.old (drop (part_len lines.old.waiting) lines.old.waiting)) }
    ensures whole { IfOk result (λ whole. whole ≡ nat_lt (position_or_len is_line_feed lines.old.waiting) (length lines.old.waiting)) }
    ensures err { OnErr result (lines.new ≡ lines.old) }
{
    let waiting = lines.waiting();
    let (count, whole) = part(waiting);
    text.extend_from_slice(&waiting[..count])?;
    lines.take(count);
    Ok(whole)
}

/// Whether any of the bytes is a percent sign. It looks at all of them, which a processor does several at a time.
fn has_percent(bytes: &[u8]) -> bool
    ensures { result ≡ false → HasNone is_percent bytes.now }
{
    let mut found = false;
    for byte in bytes {
        found |= *byte == b'%';
    }
    found
}

/// How many bytes there are up to the last line feed.
fn whole_lines(bytes: &[u8]) -> usize
    ensures within { result ≤ length bytes.now }
    ensures whole { EndsLine (take result bytes.now) }
{
    let mut count = bytes.len();
    while count > 0 && bytes[count - 1] != b'\n' {
        count -= 1;
    }
    count
}

/// How many bytes whole lines take at the front, of which none has a percent sign. It looks at no more than 1024 bytes,
/// and gives none where one of these is a percent sign.
fn plain_lines(waiting: &[u8]) -> usize
    ensures within { result ≤ length waiting.now }
    ensures whole { EndsLine (take result waiting.now) }
    ensures unmarked { HasNoMark (take result waiting.now) }
{
    let block = &waiting[..waiting.len().min(1024)];
    if has_percent(block) {
        return 0;
    }
    whole_lines(block)
}

/// Where no line is begun, moves whole lines that wait and have no percent sign to the end of the text, many at once. Returns
/// where the begun line starts.
fn append_lines<R: Read>(
    lines: &mut Lines<R>,
    text: &mut Vec<u8>,
    start: usize,
    limit: usize,
) -> Result<usize, SectionFault>
    requires within { start ≤ length text.old.items }
    requires bound { start ≤ limit }
    ensures collects { IfOk result (λ next. (first : Input) → Collects first lines.old text.old.items start → Collects first lines.new text.new.items next) }
    ensures within { IfOk result (λ next. next ≤ length text.new.items) }
    ensures bound { IfOk result (λ next. next ≤ limit) }
    ensures lines { (count : ℕ) × (lines.new ≡ with_waiting lines.old (drop count lines.old.waiting)) }
    ensures too_long { result ≡ Err SectionFault.TooLong → (first : Input) → Collects first lines.old text.old.items start → Overflows first lines.new limit }
    ensures broken { result ≢ Err SectionFault.Broken }
    ensures endless { result ≢ Err SectionFault.Endless }
{
    if start < text.len() {
        return Ok(start);
    }
    let waiting = lines.waiting();
    let count = plain_lines(waiting);
    if text.extend_from_slice(&waiting[..count]).is_err() {
        return Err(SectionFault::NoMemory);
    }
    lines.take(count);
    if text.len() > limit {
        return Err(SectionFault::TooLong);
    }
    Ok(text.len())
}

/// A section, and whether the end of the input closed it.
#[derive(Drop)]
struct Collected {
    text: Vec<u8>,
    by_end: bool,
}

/// The next section, while no fault has come.
fn collect<R: Read>(
    lines: &mut Lines<R>,
    alloc: Global,
    limit: usize,
) -> Result<Collected, SectionFault>
    ensures ok { IfOk result (λ c. Closed c.by_end lines.old lines.new c.text.items) }
    ensures within { IfOk result (λ c. length c.text.items ≤ limit) }
    ensures too_long { result ≡ Err SectionFault.TooLong → Overflows lines.old lines.new limit }
    ensures broken { result ≡ Err SectionFault.Broken → lines.old.reads < lines.new.reads }
    ensures endless { result ≡ Err SectionFault.Endless → lines.new.reads ≡ 100000000 }
    ensures failed { OnOk result (lines.new.failed ≡ lines.old.failed) }
    ensures ended { OnErr result (lines.new.ended ≡ lines.old.ended) }
{
    let mut text = Vec::new(alloc);
    let mut start = 0;
    loop {
        start = append_lines(lines, &mut text, start, limit)?;
        if !more_waits(lines)? {
            if is_mark(&text[start..]) {
                text.truncate(start);
                return Ok(Collected {
                    text,
                    by_end: false,
                });
            }
            if text.len() > limit {
                return Err(SectionFault::TooLong);
            }
            return Ok(Collected { text, by_end: true });
        }
        let whole = match append_part(lines, &mut text) {
            Ok(whole) => whole,
            Err(_) => return Err(SectionFault::NoMemory),
        };
        if !whole {
            // A begun line of up to three bytes may still become `%%` with a carriage return.
            if text.len().saturating_sub(3) > limit {
                return Err(SectionFault::TooLong);
            }
            continue;
        }
        if is_mark(&text[start..text.len() - 1]) {
            text.truncate(start);
            return Ok(Collected {
                text,
                by_end: false,
            });
        }
        if text.len() > limit {
            return Err(SectionFault::TooLong);
        }
        start = text.len();
    }
}

impl<R: Read> Lines<R> {
    /// The bytes of the next section as they came: up to a line `%%`, which is taken too, or up to the end. At most
    /// `limit` bytes. A missing section is empty. After a fault each later call returns `Broken`.
    pub fn section(&mut self, alloc: Global, limit: usize) -> Result<Vec<u8>, SectionFault>
        ensures ok { IfOk result (λ text. Sectioned self.old self.new text.items) }
        ensures within { IfOk result (λ text. length text.items ≤ limit) }
        ensures too_long { result ≡ Err SectionFault.TooLong → Overflows self.old self.new limit }
        // The reader failed when it was asked, or a fault came before.
        ensures broken { result ≡ Err SectionFault.Broken → (self.old.failed ≡ true) ⊎ (self.old.reads < self.new.reads) }
        ensures endless { result ≡ Err SectionFault.Endless → self.new.reads ≡ 100000000 }
        ensures open { OnOk result ((self.old.failed ≡ false) × (self.new.failed ≡ false)) }
        ensures failed { OnErr result (self.new.failed ≡ true) }
        ensures again { self.old.failed ≡ true → (result ≡ Err SectionFault.Broken) × (self.new ≡ self.old) }
        ensures ended { OnErr result (self.new.ended ≡ self.old.ended) }
    {
        if self.has_failed() {
            return Err(SectionFault::Broken);
        }
        match collect(self, alloc, limit) {
            Ok(section) => {
                self.set_ended(section.by_end);
                Ok(section.text)
            }
            Err(fault) => {
                self.fail();
                Err(fault)
            }
        }
    }
}
