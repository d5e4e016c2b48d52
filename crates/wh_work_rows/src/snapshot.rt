//! Snapshots of a worked run, from outside.

ghost use Rattle.std.specs.Prelude.{◌≡◌, ◌≤◌, length, IfSome, []};
ghost use Rattle.wh_front.specs.Ranges.{BeforeFits, RulesFit};
ghost use Rattle.wh_snapshot.specs.Snapshots.{HaveCallers};

use std::alloc::Global;
use std::sync::Arc;
use std::test::*;
use wh_front::{Before, Count, Kind, Rules, Sum, front_text};
use wh_grid::Grid;
use wh_points::Points;
use wh_resume::{Book, Recovery, Resumed, Setting, recover};
use wh_snapshot::{Earlier, can_count, snapshot};

const MAP: &[u8] = b"type octile\nheight 3\nwidth 5\nmap\n@.@.@\n.....\n@.@.@\n";

const POINTS: &[u8] =
    b"parking P0 0 1\nparking P1 4 1\nstation A 1 0\nstation B 3 0\nstation C 1 2\nstation D 3 2\nagent P0\nagent P1\n";

/// Two callers, and one submit that is refused: task 0 is done, task 1 is on its way, and task 2 is open.
const LOG: &[u8] =
    b"wlog 2\nstart 0 slots 4 5\n0 submit x A B = accepted 0\n62 submit q P0 A = refused E2 P0\n62 token 0 = took 0 path 0,1 1,1 1,0 1,1 2,1 3,1 3,0\n62 tick = clock 1 picked 0 dropped 0\n62 tick = clock 2 picked 1 dropped 0\n62 tick = clock 3 picked 0 dropped 0\n62 tick = clock 4 picked 0 dropped 0\n62 tick = clock 5 picked 0 dropped 0\n62 tick = clock 6 picked 0 dropped 1\n62 submit y D C = accepted 1\n0 submit z C A B = accepted 2\n62 token 1 = took 1 path 4,1 3,1 3,2 3,1 2,1 1,1 1,2\n0 replace 1 fits 6 = replaced 6\n62 tick = clock 7 picked 0 dropped 0\n";

/// Where nothing was before.
const FIRST: &[u8] =
    b"wlog 3\nafter 0\nstate 7 open whole\nentries 0:3 62:11\nagents 2\nagent slots 4 path 3,0\nagent slots 6 path 3,1 3,2 3,1 2,1 1,1 1,2\ntasks 3\ntask 0 x 0 agent 0 visits 2 6 stops 1,0 3,0\ntask 62 y 6 agent 1 stops 3,2 1,2\ntask 0 z 6 open stops 1,2 1,0 3,0\nbegin\n";

/// Where another log was before, with entries of callers 0 and 7.
const SECOND: &[u8] =
    b"wlog 3\nafter 3 1234 4be10123456789abcdef0123456789abcdef0123456789abcdef0123456789ab\nrules age 600\nstate 7 open stopped\nentries 0:8 7:2 62:11\nagents 2\nagent slots 4 path 3,0\nagent slots 6 path 3,1 3,2 3,1 2,1 1,1 1,2\ntasks 3\ntask 0 x 0 agent 0 visits 2 6 stops 1,0 3,0\ntask 62 y 6 agent 1 stops 3,2 1,2\ntask 0 z 6 open stops 1,2 1,0 3,0\nbegin\n";

/// The floor of the run.
fn setting(alloc: Global) -> Option<Setting>
    ensures { IfSome result (λ setting. 1 ≤ length setting.layout.agents) }
{
    let Ok(grid) = Grid::read(alloc, MAP) else {
        return None;
    };
    let Ok(points) = Points::read(alloc, &grid, POINTS) else {
        return None;
    };
    match Arc::new(alloc, grid) {
        Ok(grid) => Some(Setting::new(grid, points)),
        Err(_) => None,
    }
}

/// The book of the run.
fn book(alloc: Global) -> Option<Book>
    ensures agents { IfSome result (λ book. 1 ≤ length book.site.layout.agents) }
    ensures none { IfSome result (λ book. book.opening.tasks ≡ []) }
    ensures entries { IfSome result (λ book. HaveCallers book.history) }
{
    let setting = setting(alloc)?;
    let mut log = LOG;
    let found = match recover(alloc, setting, b"", &mut log) {
        Ok(found) => found,
        Err(_) => return None,
    };
    let resumed = match found {
        Recovery::Resumed(resumed) => resumed,
        _ => return None,
    };
    let Resumed { book, preface, .. } = resumed;
    match preface {
        None => Some(book),
        Some(_) => None,
    }
}

/// Whether the front is written so, where callers had so many entries before.
fn is_told(
    alloc: Global,
    counts: &[Count],
    rules: Rules,
    before: Before,
    kind: Kind,
    text: &[u8],
) -> bool
    requires before { BeforeFits before }
    requires rules { RulesFit rules }
{
    let Some(book) = book(alloc) else {
        return false;
    };
    let earlier = Earlier {
        callers: &[],
        counts,
    };
    if !can_count(counts, book.history()) {
        return false;
    }
    match snapshot(alloc, &book, &earlier, rules, before, kind) {
        Ok(front) => match front_text(alloc, &front) {
            Ok(told) => told.as_slice() == text,
            Err(_) => false,
        },
        Err(_) => false,
    }
}

#[test]
fn first_snapshot(rt: HostRuntime) {
    let rules = Rules::usual();
    let told = is_told(rt.alloc(), &[], rules, Before::Nothing, Kind::Whole, FIRST);
    assert!(rt; told);
}

const HAD: [Count; 2] = [
    Count {
        caller: 0,
        entries: 5,
    },
    Count {
        caller: 7,
        entries: 2,
    },
];

/// Whether the front is written so behind a log.
fn is_told_behind(alloc: Global, text: &[u8]) -> bool {
    let word = b"4be10123456789abcdef0123456789abcdef0123456789abcdef0123456789ab";
    let Some(sum) = Sum::read(word) else {
        return false;
    };
    let _digits = sum.as_slice();
    let before = Before::Log {
        number: 3,
        bytes: 1234,
        sum,
    };
    let rules = Rules {
        homes: false,
        age: Some(600),
    };
    is_told(alloc, &HAD, rules, before, Kind::Stopped, text)
}

#[test]
fn later_snapshot(rt: HostRuntime) {
    let told = is_told_behind(rt.alloc(), SECOND);
    assert!(rt; told);
}
