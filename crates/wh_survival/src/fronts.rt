//! A run that goes on over a log that begins with a front.

use super::files::{holds, make_folder};
use super::tests::{grid, planners, setting_on};
use std::alloc::Global;
use std::fs;
use std::path::Path;
use std::test::*;
use wh_continue::{AgainFault, FileJournal, Start, StartFault, check_again, find_start, run_on};
use wh_lines::Lines;
use wh_log::Form;
use wh_planners::Patient;

const FRONT: &str =
    "wlog 3\nafter 0\nstate 9 open whole\nentries 0:12 63:400\nagents 2\nagent slots 4 path 0,1\nagent slots 4 path 4,1\ntasks 0\nbegin\n";

const FIRST: &str = "0 submit x A B = accepted 0\n";

const SECOND: &str = "0 token 0 = took 0 path 0,1 1,1 1,0 1,1 2,1 3,1 3,0\n";

const SERVED: &str = "62 token 0 = took 0 path 0,1 1,1 1,0 1,1 2,1 3,1 3,0\n";

/// A session over a log that begins with the front.
struct Session {
    /// What stands behind the front.
    left: &'static [&'static str],
    /// From which entry on all are told again.
    again: Option<u32>,
    /// What is asked.
    script: &'static str,
    /// What is told.
    told: &'static [&'static str],
    /// What stands behind the front in the end.
    held: &'static [&'static str],
}

/// None begun; killed within an entry, which is asked for again; killed once more, within the entry of the session before; closed.
const SESSIONS: [Session; 4] = [
    Session {
        left: &[],
        again: Some(412),
        script: "submit x A B\n",
        told: &["entries 412\n", "accepted 0\n"],
        held: &["62 submit x A B = accepted 0\n"],
    },
    Session {
        left: &[FIRST, "0 token 0 = took 0 path 0,1 1,"],
        again: Some(412),
        script: "token 0\n",
        told: &[
            "entries 413\n",
            FIRST,
            "took 0 path 0,1 1,1 1,0 1,1 2,1 3,1 3,0\n",
        ],
        held: &[FIRST, SERVED],
    },
    Session {
        left: &[FIRST, "62 token 0 = took 0 path 0,1 1,1 1,0 1,1 2,1 3,1 3,"],
        again: None,
        script: "token 0\n",
        told: &["entries 413\n", "took 0 path 0,1 1,1 1,0 1,1 2,1 3,1 3,0\n"],
        held: &[FIRST, SERVED],
    },
    Session {
        left: &[FIRST, SECOND],
        again: Some(413),
        script: "close\n",
        told: &["entries 414\n", SECOND, "closed\n"],
        held: &[FIRST, SECOND, "62 close = closed\n", "end 3\n"],
    },
];

/// The front, and these texts behind it.
fn behind_front(alloc: Global, parts: &[&str]) -> Result<Vec<u8>, Fail> {
    let mut text = Vec::from_slice(alloc, FRONT.as_bytes())?;
    for part in parts {
        text.extend_from_slice(part.as_bytes())?;
    }
    Ok(text)
}

/// What a run starts from over the file.
fn started(
    alloc: Global,
    file: &mut FileJournal<'_, HostRuntime>,
) -> Result<Result<Start, StartFault>, Fail> {
    let map = grid(alloc)?;
    let setting = setting_on(alloc, &map)?;
    let slots = vec![in alloc; 4u32; setting.agents()]?;
    Ok(find_start(alloc, setting, slots, file))
}

/// What a session over the file tells.
fn told_over(
    alloc: Global,
    file: &mut FileJournal<'_, HostRuntime>,
    session: &Session,
) -> Result<Vec<u8>, Fail> {
    let Ok(start) = started(alloc, file)? else {
        return Err("it starts".into());
    };
    let map = grid(alloc)?;
    let crew = planners(alloc, &map, &[4, 4])?;
    let mut spares: Vec<Patient> = Vec::new(alloc);
    let mut told = Vec::new(alloc);
    let mut lines = Lines::new(session.script.as_bytes());
    match run_on(
        &mut lines,
        alloc,
        Form::Full,
        session.again,
        false,
        file,
        &mut told,
        start,
        crew,
        &mut spares,
    ) {
        Ok(warehouse) => {
            drop(warehouse);
            Ok(told)
        }
        Err(_) => Err("it goes on".into()),
    }
}

/// Whether a session tells what it is to tell, and leaves what it is to leave.
fn goes_on(rt: &HostRuntime, path: Path<'_>, session: &Session) -> Result<bool, Fail> {
    let alloc = rt.alloc();
    fs::write(rt, path, behind_front(alloc, session.left)?.as_slice())?;
    let mut file = FileJournal::new(rt, path);
    let told = told_over(alloc, &mut file, session);
    drop(file);
    let told = told?;
    let held = behind_front(alloc, session.held)?;
    let mut wanted: Vec<u8> = Vec::new(alloc);
    for part in session.told {
        wanted.extend_from_slice(part.as_bytes())?;
    }
    Ok(told.as_slice() == wanted.as_slice() && holds(rt, path, held.as_slice())?)
}

#[test]
fn goes_on_behind_a_front(rt: HostRuntime) -> Result<(), Fail> {
    make_folder(&rt, "survival_front")?;
    let path = Path::new("survival_front/run.log");
    let mut each = true;
    for session in &SESSIONS {
        each = each && goes_on(&rt, path, session)?;
    }
    assert!(rt; each);
    Ok(fs::remove_dir_all(&rt, "survival_front")?)
}

/// Behind two entries those from 412 to 414 can be told again, and the entry with which the log would go on is its twelfth line.
fn tells_from(start: &Start) -> bool {
    start.entries_before() == 412
        && start.entries() == 414
        && check_again(start, None).is_ok()
        && check_again(start, Some(412)).is_ok()
        && check_again(start, Some(414)).is_ok()
        && check_again(start, Some(411)) == Err(AgainFault::Earlier { first: 412 })
        && check_again(start, Some(415)) == Err(AgainFault::Missing { line: 12 })
}

#[test]
fn counts_on_behind_a_front(rt: HostRuntime) -> Result<(), Fail> {
    make_folder(&rt, "survival_counts")?;
    let path = Path::new("survival_counts/run.log");
    let alloc = rt.alloc();
    fs::write(&rt, path, behind_front(alloc, &[FIRST, SECOND])?.as_slice())?;
    let mut file = FileJournal::new(&rt, path);
    let found = started(alloc, &mut file);
    drop(file);
    let is_told = match found? {
        Ok(start) => {
            let is_told = tells_from(&start);
            drop(start);
            is_told
        }
        Err(_) => false,
    };
    assert!(rt; is_told);
    Ok(fs::remove_dir_all(&rt, "survival_counts")?)
}

/// Texts over which no run starts: counts of 2^63 entries and more, told by the fourth line; a planner of one slot, told by an entry behind
/// the front.
const REFUSED: [(&str, StartFault); 2] = [
    (
        "wlog 3\nafter 0\nstate 9 open whole\nentries 0:9223372036854775807 63:1\nagents 2\nagent slots 4 path 0,1\nagent slots 4 path 4,1\ntasks 0\nbegin\n",
        StartFault::Bad { line: 4 },
    ),
    (
        "wlog 3\nafter 0\nstate 9 open whole\nentries\nagents 2\nagent slots 4 path 0,1\nagent slots 4 path 4,1\ntasks 0\nbegin\n0 tick = clock 10 picked 0 dropped 0\n0 replace 0 fits 1 = replaced 1\n",
        StartFault::Bad { line: 11 },
    ),
];

#[test]
fn refused_behind_a_front(rt: HostRuntime) -> Result<(), Fail> {
    make_folder(&rt, "survival_no_front")?;
    let path = Path::new("survival_no_front/run.log");
    let alloc = rt.alloc();
    let mut each = true;
    for (text, fault) in &REFUSED {
        fs::write(&rt, path, text.as_bytes())?;
        let mut file = FileJournal::new(&rt, path);
        let found = started(alloc, &mut file);
        drop(file);
        let is_refused = match found? {
            Ok(start) => {
                drop(start);
                false
            }
            Err(told) => told == *fault,
        };
        each = each && is_refused;
    }
    assert!(rt; each);
    Ok(fs::remove_dir_all(&rt, "survival_no_front")?)
}
