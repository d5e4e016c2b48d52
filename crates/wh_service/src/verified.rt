//! What `verify` does.

ghost use Rattle.std.specs.Prelude.{◌≡◌, ◌≤◌, IfErr, IfOk, length};
ghost use Rattle.wh_lines.specs.Section.{Sectioned};
ghost use Rattle.wh_service.specs.Verifies.{IsVerdict, IsWhyNoLog, IsWhyUnverified, Verifies, status_of_log, verified_text};
ghost use Rattle.wh_resume.specs.Judging.{SaysOfTwo};

use crate::writing::write_text;
use arrayvec::ArrayVec;
use std::alloc::Global;
use std::io::{Read, Write};
use wh_edge::{Site, Status, Trouble, read_site};
use wh_event::{put, put_number};
use wh_judge::{Instance, Verified, VerifiedFront, verify_over, verify_unended};
use wh_lines::{Lines, SectionFault};
use wh_log::NoMemory;
use wh_options::VerifyOptions;
use wh_resume::verify_any;

/// The most bytes of a log.
const LOG_LIMIT: usize = 268_435_456;

/// The section of the log, as it came.
pub(crate) fn log_section<R: Read>(lines: &mut Lines<R>, alloc: Global) -> Result<Vec<u8>, Trouble>
    ensures ok { IfOk result (λ log. Sectioned lines.old lines.new log.items) }
    ensures within { IfOk result (λ log. length log.items ≤ 268435456) }
    ensures fault { IfErr result (λ told. IsWhyNoLog told lines.old lines.new) }
{
    match lines.section(alloc, LOG_LIMIT) {
        Ok(log) => Ok(log),
        Err(SectionFault::Broken) => Err(Trouble::Broken),
        Err(SectionFault::Endless) => Err(Trouble::Endless),
        Err(SectionFault::TooLong) => Err(Trouble::SectionTooLong),
        Err(SectionFault::NoMemory) => Err(Trouble::NoMemory),
    }
}

/// The line that tells what a text is, with its line feed.
#[tactic(auto, unfolding(crate::specs::Verifies::verified_text))]
fn text(front: VerifiedFront) -> ArrayVec<u8, 64>
    ensures { result.items ≡ verified_text front.verified front.is_ended }
{
    let mut line = ArrayVec::new();
    match front.verified {
        Verified::Run { entries } => {
            put_number(&mut line, b"run ", u64::from(entries));
            if !front.is_ended {
                put(&mut line, b" unended");
            }
        }
        Verified::Bad { line: bad } => put_number(&mut line, b"bad ", bad),
    }
    put(&mut line, b"\n");
    line
}

/// What a text is that is to be a log of version 1 or 2 over the instance, and may lack its last line where that is allowed.
fn verdict_of_two(
    alloc: Global,
    instance: Instance,
    unended: bool,
    log: &[u8],
) -> Result<VerifiedFront, NoMemory>
    requires some { 1 ≤ length instance.layout.agents }
    ensures { IfOk result (SaysOfTwo instance.entry unended log.now) }
{
    if unended {
        return verify_unended(alloc, instance, log);
    }
    let verified = verify_over(alloc, instance, log)?;
    Ok(VerifiedFront {
        verified,
        is_ended: true,
    })
}

/// What a text is that is to be a log over the instance, of a version that is taken, and may lack its last line where that is allowed.
fn verdict(
    alloc: Global,
    instance: Instance,
    options: VerifyOptions,
    log: &[u8],
) -> Result<VerifiedFront, NoMemory>
    requires some { 1 ≤ length instance.layout.agents }
    ensures { IfOk result (λ front. IsVerdict options instance.entry log.now front) }
{
    match options.wlog {
        Some(_) => verify_any(alloc, instance, options.unended, log),
        None => verdict_of_two(alloc, instance, options.unended, log),
    }
}

/// How the program ends after that: well only where the text is the log of a run.
fn status(verified: Verified) -> Status
    ensures { result ≡ status_of_log verified }
{
    match verified {
        Verified::Run { .. } => Status::Done,
        Verified::Bad { .. } => Status::Refused,
    }
}

/// Reads a site and the section of a log, at most 268,435,456 bytes, and writes in one line `run N` where the log's N
/// entries are a run over the site by the rule of the options, and else `bad L` with the first line with which no such log begins. A log of
/// version 3, whose entries are a run from the state that it tells, is one only where the options take it. What follows the log's section is
/// ignored. Where the options allow that the log lacks its last line, it writes `run N unended` for such a one, and a part of
/// a line behind its entries is not counted. Errors are reported in this order: the site, the section of the log, lack of
/// memory, the writer. Before the writer fails nothing is written.
pub fn verify<R: Read, W: Write>(
    alloc: Global,
    lines: &mut Lines<R>,
    output: &mut W,
    options: VerifyOptions,
) -> Result<Status, Trouble>
    ensures ok { IfOk result (λ status. Verifies options lines.old lines.new (W.contents output.old) (W.contents output.new) status) }
    ensures fault { IfErr result (λ told. IsWhyUnverified options told lines.old lines.new (W.contents output.old) (W.contents output.new)) }
{
    let Site {
        grid,
        points,
        homes,
    } = match read_site(lines, alloc, options.homes) {
        Ok(site) => site,
        Err(trouble) => return Err(trouble),
    };
    let log = match log_section(lines, alloc) {
        Ok(log) => log,
        Err(trouble) => return Err(trouble),
    };
    let instance = Instance::with_homes(&grid, &points, homes);
    let front = match verdict(alloc, instance, options, log.as_slice()) {
        Ok(front) => front,
        Err(NoMemory) => return Err(Trouble::NoMemory),
    };
    let line = text(front);
    match write_text(output, line.as_slice()) {
        Ok(()) => Ok(status(front.verified)),
        Err(trouble) => Err(trouble),
    }
}
