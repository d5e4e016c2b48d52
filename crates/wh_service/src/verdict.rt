//! What `check` does.

ghost use Rattle.std.specs.Prelude.{◌≡◌, ◌<◌, IfErr, IfOk};
ghost use Rattle.wh_service.specs.Checks.{IsNamed, IsWhyUnjudged, Judges, status_of, verdict_text};

use crate::writing::write_text;
use arrayvec::ArrayVec;
use std::alloc::Global;
use std::io::{Read, Write};
use std::thread::Threads;
use wh_edge::{Site, Status, Trouble, read_site};
use wh_event::{put, put_number};
use wh_formed::{NoMemory, Verdict};
use wh_lines::Lines;
use wh_options::CheckOptions;
use wh_points::Points;

/// The line that tells a verdict, with its line feed. The points of a cut are told by their names.
#[tactic(auto, unfolding(crate::specs::Checks::verdict_text))]
pub fn text(points: &Points, verdict: Verdict) -> ArrayVec<u8, 64>
    requires { IsNamed points.now verdict }
    ensures { result.items ≡ verdict_text points.now verdict }
{
    let mut line = ArrayVec::new();
    match verdict {
        Verdict::Formed => put(&mut line, b"formed"),
        Verdict::FewParkings { have, need } => {
            put_number(&mut line, b"few parkings ", u64::from(have));
            put_number(&mut line, b" ", u64::from(need));
        }
        Verdict::Cut { a, b } => {
            put(&mut line, b"cut ");
            put(&mut line, points.name(a).as_slice());
            put(&mut line, b" ");
            put(&mut line, points.name(b).as_slice());
        }
    }
    put(&mut line, b"\n");
    line
}

/// How the program ends after a verdict: with success only if the site is well-formed.
pub fn status(verdict: Verdict) -> Status
    ensures { result ≡ status_of verdict }
{
    match verdict {
        Verdict::Formed => Status::Done,
        Verdict::FewParkings { .. } | Verdict::Cut { .. } => Status::Refused,
    }
}

/// Reads a site, and writes in one line whether it is well-formed. Where paths are to end at homes, a site with an agent that starts
/// at a station is refused before. What follows the points is not looked at. What can go
/// wrong is told in this order: the site, want of memory for the check, the writer. Before the writer fails nothing is written.
pub fn check<R: Read, W: Write>(
    rt: &(impl Threads + Sync),
    alloc: Global,
    lines: &mut Lines<R>,
    output: &mut W,
    options: CheckOptions,
) -> Result<Status, Trouble>
    ensures ok { IfOk result (λ status. Judges options.homes lines.old lines.new (W.contents output.old) (W.contents output.new) status) }
    ensures fault { IfErr result (λ told. IsWhyUnjudged options.homes told lines.old lines.new (W.contents output.old) (W.contents output.new)) }
{
    let Site { grid, points, .. } = read_site(lines, alloc, options.homes)?;
    let verdict = match wh_formed::check(rt, alloc, &grid, &points) {
        Ok(verdict) => verdict,
        Err(NoMemory) => return Err(Trouble::NoMemory),
    };
    let line = text(&points, verdict);
    match write_text(output, line.as_slice()) {
        Ok(()) => Ok(status(verdict)),
        Err(trouble) => Err(trouble),
    }
}
