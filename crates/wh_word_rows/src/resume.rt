//! Logs that begin with a state, resumed and verified over one floor. What is told of each is worked by hand.

ghost use Rattle.std.specs.Prelude.{◌≡◌, ◌≤◌, length, IfSome};

use std::alloc::{AllocError, Global};
use std::sync::Arc;
use std::test::*;
use wh_front::Kind;
use wh_grid::Grid;
use wh_judge::{Instance, Verified};
use wh_log::Version;
use wh_points::Points;
use wh_resume::{Book, Preface, Recovery, Setting, recover, verify_any};

const MAP: &[u8] = b"type octile\nheight 3\nwidth 5\nmap\n@.@.@\n.....\n@.@.@\n";

const POINTS: &[u8] =
    b"parking P0 0 1\nparking P1 4 1\nstation A 1 0\nstation B 3 0\nstation C 1 2\nstation D 3 2\nagent P0\nagent P1\n";

/// Agent 0 stands at B, where it brought task 0; agent 1 stands at P1; task 1 is open. It has 11 lines.
const FRONT: &[u8] =
    b"wlog 3\nafter 0\nstate 6 open whole\nentries 0:2 62:8\nagents 2\nagent slots 4 path 3,0\nagent slots 5 path 4,1\ntasks 2\ntask 0 x 0 agent 0 visits 2 6 stops 1,0 3,0\ntask 62 y 6 open stops 3,2 1,2\nbegin\n";

/// What follows a front is cut, or ends the log: how many entries stand whole, how many bytes the front and they are, and whether
/// the log is ended.
const RESUMED: [(&[u8], Counts); 5] = [
    (b"", (0, 195, false)),
    (
        b"62 token 1 = took 1 path 4,1 3,1 3,2 3,1 2,1 1,1 1,2\n62 tick = clock 7 picked 0 dropped 0\n",
        (2, 285, false),
    ),
    (
        b"62 token 1 = took 1 path 4,1 3,1 3,2 3,1 2,1 1,1 1,2\n62 tick = clock 7 picked 0 dropp",
        (1, 248, false),
    ),
    (
        b"62 token 1 = took 1 path 4,1 3,1 3,2 3,1 2,1 1,1 1,2\n62 tick = clock 7 picked 0 dropped 0\nend 2\n",
        (2, 285, true),
    ),
    (b"en", (0, 195, false)),
];

/// Why a text is not resumed.
#[derive(Clone, Copy)]
enum Told {
    /// A line of the front, and what is told of it.
    Flawed(u64, &'static [u8]),
    /// A line, and how many bytes those before it are.
    Bad(u64, usize),
}

/// Texts that are not resumed, where paths go on home or not.
const REFUSED: [(bool, &[u8], Told); 11] = [
    (false, b"wlog 3", Told::Bad(1, 0)),
    (false, b"wlog 4\nafter 0\n", Told::Bad(1, 0)),
    (false, b"wlog 2\nafter 0\n", Told::Bad(2, 7)),
    (false, b"wlog 3\n", Told::Flawed(2, b"refused S1")),
    // task 1 was submitted later than the state's clock
    (
        false,
        b"wlog 3\nafter 0\nstate 6 open whole\nentries 0:2 62:8\nagents 2\nagent slots 4 path 3,0\nagent slots 5 path 4,1\ntasks 2\ntask 0 x 0 agent 0 visits 2 6 stops 1,0 3,0\ntask 62 y 7 open stops 3,2 1,2\nbegin\n",
        Told::Flawed(10, b"refused S7"),
    ),
    // the front does not tell that paths go on home
    (
        true,
        b"wlog 3\nafter 0\nstate 6 open whole\nentries 0:2 62:8\nagents 2\nagent slots 4 path 0,1\nagent slots 5 path 4,1\ntasks 0\nbegin\n",
        Told::Flawed(3, b"refused S11"),
    ),
    // the second planner has one slot
    (
        false,
        b"wlog 3\nafter 0\nstate 6 open whole\nentries\nagents 2\nagent slots 4 path 3,0\nagent slots 1 path 4,1\ntasks 0\nbegin\n",
        Told::Flawed(7, b"refused S1"),
    ),
    // no entry stands behind the front
    (
        false,
        b"wlog 3\nafter 0\nstate 6 open whole\nentries\nagents 2\nagent slots 4 path 3,0\nagent slots 5 path 4,1\ntasks 0\nbegin\nx\n",
        Told::Bad(10, 111),
    ),
    // the second tick tells the clock before it
    (
        false,
        b"wlog 3\nafter 0\nstate 6 open whole\nentries\nagents 2\nagent slots 4 path 3,0\nagent slots 5 path 4,1\ntasks 0\nbegin\n0 tick = clock 7 picked 0 dropped 0\n0 tick = clock 7 picked 0 dropped 0\n",
        Told::Bad(11, 147),
    ),
    // the last line counts entries of the log before
    (
        false,
        b"wlog 3\nafter 0\nstate 6 open whole\nentries 0:2\nagents 2\nagent slots 4 path 3,0\nagent slots 5 path 4,1\ntasks 0\nbegin\n0 tick = clock 7 picked 0 dropped 0\nend 3\n",
        Told::Bad(11, 151),
    ),
    // text stands behind the last line
    (
        false,
        b"wlog 3\nafter 0\nstate 6 open whole\nentries 0:2\nagents 2\nagent slots 4 path 3,0\nagent slots 5 path 4,1\ntasks 0\nbegin\n0 tick = clock 7 picked 0 dropped 0\nend 1\nx",
        Told::Bad(12, 157),
    ),
];

/// The floor, where paths go on home or not.
fn setting(alloc: Global, homes: bool) -> Option<Setting>
    ensures { IfSome result (λ setting. 1 ≤ length setting.layout.agents) }
{
    let Ok(grid) = Grid::read(alloc, MAP) else {
        return None;
    };
    let Ok(points) = Points::read(alloc, &grid, POINTS) else {
        return None;
    };
    match Arc::new(alloc, grid) {
        Ok(grid) => Some(Setting::with_homes(grid, points, homes)),
        Err(_) => None,
    }
}

/// What is told of a text.
fn recovery(alloc: Global, homes: bool, text: &[u8]) -> Option<Recovery> {
    let setting = setting(alloc, homes)?;
    let mut source = text;
    match recover(alloc, setting, b"wlog 2\nstart 0 slots 4 5\n", &mut source) {
        Ok(recovery) => Some(recovery),
        Err(_) => None,
    }
}

/// Whether this is told.
fn is_told(found: &Recovery, told: Told) -> bool {
    match told {
        Told::Flawed(number, why) => match found {
            Recovery::Flawed { line, reason } => {
                *line == number && reason.text().as_slice() == why
            }
            _ => false,
        },
        Told::Bad(number, before) => match found {
            Recovery::Bad { line, bytes } => *line == number && *bytes == before,
            _ => false,
        },
    }
}

/// Whether it is so refused.
fn is_refused(alloc: Global, homes: bool, text: &[u8], told: Told) -> bool {
    match recovery(alloc, homes, text) {
        Some(found) => {
            let is_told = is_told(&found, told);
            drop(found);
            is_told
        }
        None => false,
    }
}

fn are_refused(alloc: Global) -> bool {
    for (homes, text, told) in &REFUSED {
        if !is_refused(alloc, *homes, text, *told) {
            return false;
        }
    }
    true
}

/// Whether the front is told.
fn is_front(preface: &Preface) -> bool {
    preface.lines == 11
        && preface.callers.as_slice() == [0, 62].as_slice()
        && preface.head.kind == Kind::Whole
        && preface.head.counts.as_slice().len() == 2
}

/// The front, and what follows it.
fn joined(alloc: Global, behind: &[u8]) -> Result<Vec<u8>, AllocError> {
    let mut text = Vec::from_slice(alloc, FRONT)?;
    text.extend_from_slice(behind)?;
    Ok(text)
}

/// So many entries, so many bytes with the front, and whether the log is ended.
type Counts = (usize, usize, bool);

/// Whether the book has so many entries behind the state of the front.
fn has_entries(book: &Book, entries: usize) -> bool {
    book.history().len() == entries && book.first_clock() == 6 && book.tasks().len() == 2
}

/// Whether the log is resumed so.
fn is_resumed_so(found: &Recovery, counts: Counts) -> bool {
    match found {
        Recovery::Resumed(resumed) => {
            let told = match &resumed.preface {
                Some(preface) => is_front(preface),
                None => false,
            };
            told && resumed.version == Version::Two
                && has_entries(&resumed.book, counts.0)
                && resumed.bytes == counts.1
                && resumed.is_ended == counts.2
        }
        _ => false,
    }
}

/// Whether the front is resumed so with this behind it.
fn is_resumed(alloc: Global, behind: &[u8], counts: Counts) -> bool {
    let Ok(text) = joined(alloc, behind) else {
        return false;
    };
    let found = recovery(alloc, false, text.as_slice());
    drop(text);
    match found {
        Some(found) => {
            let is_resumed = is_resumed_so(&found, counts);
            drop(found);
            is_resumed
        }
        None => false,
    }
}

fn are_resumed(alloc: Global) -> bool {
    for (behind, counts) in &RESUMED {
        if !is_resumed(alloc, behind, *counts) {
            return false;
        }
    }
    true
}

/// What is judged of texts: whether the last line may be missing, what it is, and whether the last line stands.
const VERIFIED: [(bool, &[u8], Verified, bool); 9] = [
    (
        false,
        b"wlog 2\nstart 0 slots 4 5\nend 0\n",
        Verified::Run { entries: 0 },
        true,
    ),
    (
        true,
        b"wlog 2\nstart 0 slots 4 5\n",
        Verified::Run { entries: 0 },
        false,
    ),
    (
        false,
        b"wlog 2\nstart 0 slots 4 5\n",
        Verified::Bad { line: 3 },
        true,
    ),
    (
        false,
        b"wlog 3\nafter 0\nstate 6 open whole\nentries\nagents 2\nagent slots 4 path 3,0\nagent slots 5 path 4,1\ntasks 0\nbegin\n0 tick = clock 7 picked 0 dropped 0\nend 1\n",
        Verified::Run { entries: 1 },
        true,
    ),
    (
        true,
        b"wlog 3\nafter 0\nstate 6 open whole\nentries\nagents 2\nagent slots 4 path 3,0\nagent slots 5 path 4,1\ntasks 0\nbegin\n0 tick = clock 7 picked 0 dropped 0\n0 ti",
        Verified::Run { entries: 1 },
        false,
    ),
    (
        false,
        b"wlog 3\nafter 0\nstate 6 open whole\nentries\nagents 2\nagent slots 4 path 3,0\nagent slots 5 path 4,1\ntasks 0\nbegin\n0 tick = clock 7 picked 0 dropped 0\n",
        Verified::Bad { line: 11 },
        false,
    ),
    (
        true,
        b"wlog 3\nafter 0\nstate 6 open whole\nentries\nagents 2\nagent slots 4 path 3,0\nagent slots 5 path 4,1\ntasks 0\nbegin\n0 tick = clock 8 picked 0 dropped 0\n",
        Verified::Bad { line: 10 },
        false,
    ),
    (
        true,
        b"wlog 3\nafter 0\nstate 6 open whole\nentries\nagents 2\nagent slots 4 path 3,0\nagent slots 5 path 2,1\ntasks 0\nbegin\n",
        Verified::Run { entries: 0 },
        false,
    ),
    (
        true,
        b"wlog 3\nafter 0\nstate 6 open whole\nentries\nagents 3\n",
        Verified::Bad { line: 5 },
        false,
    ),
];

/// What texts are judged over.
fn instance_of(setting: &Setting) -> Instance<'_>
    ensures { result ≡ setting.now }
{
    let _agents = setting.agents();
    Instance::with_homes(setting.grid(), setting.points(), setting.homes())
}

/// Whether a text is judged so.
fn is_judged(
    alloc: Global,
    setting: &Setting,
    unended: bool,
    text: &[u8],
    verified: Verified,
    is_ended: bool,
) -> bool {
    if setting.agents() == 0 {
        return false;
    }
    let instance = instance_of(setting);
    match verify_any(alloc, instance, unended, text) {
        Ok(told) => told.verified == verified && told.is_ended == is_ended,
        Err(_) => false,
    }
}

/// Whether all are judged so on a floor.
fn are_judged(alloc: Global, setting: &Setting) -> bool {
    for (unended, text, verified, is_ended) in &VERIFIED {
        if !is_judged(alloc, setting, *unended, text, *verified, *is_ended) {
            return false;
        }
    }
    true
}

fn are_verified(alloc: Global) -> bool {
    match setting(alloc, false) {
        Some(setting) => {
            let each = are_judged(alloc, &setting);
            drop(setting);
            each
        }
        None => false,
    }
}

#[test]
fn logs_from_states(rt: HostRuntime) {
    assert!(rt; are_resumed(rt.alloc()));
    assert!(rt; are_refused(rt.alloc()));
    assert!(rt; are_verified(rt.alloc()));
}
