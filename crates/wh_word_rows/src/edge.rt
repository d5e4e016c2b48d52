//! Sites and works from outside, and the texts of troubles.
use std::alloc::{AllocError, Global};
use std::test::*;
use wh_edge::{
    ScriptFault, ScriptPlace, Status, Trouble, Work, agent_work, client_work, clock_work,
    read_kept_site, read_site,
};
use wh_event::{Command, LineFault};
use wh_lines::Lines;
use wh_points::{Fault, FaultKind};
use wh_restore::Reason;
use wh_stand::Flaw;

const MAP: &[u8] = b"type octile\nheight 1\nwidth 3\nmap\n..@\n%%\n";

const SITE: &[u8] =
    b"type octile\nheight 1\nwidth 3\nmap\n..@\n%%\nstation A 0 0\nparking P 1 0\nagent P\n%%\ntick\n";

/// Inputs that are no site, and what is told of them.
const NO_SITES: [(&[u8], &[u8]); 5] = [
    (b"", b"refused M1 line 1\n"),
    (
        b"type octile\nheight 1\nwidth 3\nmap\n.x.\n",
        b"refused M4 line 5\n",
    ),
    (
        b"type octile\nheight 1\nwidth 3\nmap\n..@\n%%\n\nstation A 2 0\n",
        b"refused P4 line 2\n",
    ),
    (
        b"type octile\nheight 1\nwidth 3\nmap\n..@\n%%\nrule nofollow\nrule nofollow\n",
        b"refused P10 line 2\n",
    ),
    (MAP, b"refused P7 line 1\n"),
];

/// Troubles, each with its text and the number of its status.
const TROUBLES: [(Trouble, &[u8], u8); 15] = [
    (
        Trouble::Points(Fault {
            kind: FaultKind::RuleTwice,
            line: u64::MAX,
        }),
        b"refused P10 line 18446744073709551615\n",
        1,
    ),
    (Trouble::Short { free: 3 }, b"refused B1 free 3\n", 1),
    (Trouble::Unwritten, b"refused X3\n", 3),
    (Trouble::Log { line: 12 }, b"refused L1 line 12\n", 1),
    (
        Trouble::Front {
            reason: Reason::Flaw(Flaw::Conflict(2)),
            line: 7,
        },
        b"refused S5 2\nrefused L1 line 7\n",
        1,
    ),
    (Trouble::Forgotten { first: 4 }, b"refused L2 4\n", 1),
    (Trouble::Unkept, b"refused X5\n", 3),
    (Trouble::NoPipes { client: 61 }, b"refused X5 61\n", 3),
    (Trouble::Unshown, b"refused X6\n", 3),
    (Trouble::Scripted, b"refused X7\n", 2),
    (Trouble::MayFollow, b"refused V4\n", 1),
    (Trouble::NotParked { agent: 3 }, b"refused H1 3\n", 1),
    (Trouble::Unmanned, b"refused V5\n", 1),
    (Trouble::LostLog, b"refused X8\n", 1),
    (Trouble::OwnOutput, b"refused X9\n", 3),
];

/// Whether the input is no site, and this is told.
fn is_refused(alloc: Global, input: &[u8], text: &[u8]) -> bool {
    match read_site(&mut Lines::new(input), alloc, false) {
        Ok(_) => false,
        Err(trouble) => trouble.text().as_slice() == text,
    }
}

fn are_no_sites(alloc: Global) -> bool {
    for (input, text) in NO_SITES.iter() {
        if !is_refused(alloc, input, text) {
            return false;
        }
    }
    true
}

/// A map comes to an input, and points with one byte more than they may have.
fn add_a_long_line(input: &mut Vec<u8>) -> Result<(), AllocError> {
    input.extend_from_slice(MAP)?;
    for _ in 0..1_048_577 {
        input.push(b'#')?;
    }
    Ok(())
}

fn is_a_long_line_refused(alloc: Global) -> bool {
    let mut input = Vec::new(alloc);
    let is_refused = add_a_long_line(&mut input).is_ok()
        && is_refused(alloc, input.as_slice(), b"refused X4\n");
    drop(input);
    is_refused
}

/// The width of the map, how many points there are, and how many bytes wait behind the site.
fn measures(alloc: Global, input: &[u8]) -> Result<(u16, u32, usize), Trouble> {
    let mut lines = Lines::new(input);
    let site = read_site(&mut lines, alloc, false)?;
    Ok((site.grid.width(), site.points.len(), lines.waiting().len()))
}

/// Whether an input is a site with a map of this width, so many points, and so many bytes behind it.
fn measures_so(alloc: Global, input: &[u8], width: u16, points: u32, behind: usize) -> bool {
    matches!(measures(alloc, input), Ok(found) if found == (width, points, behind))
}

#[test]
fn a_site(rt: HostRuntime) {
    assert!(rt; measures_so(rt.alloc(), SITE, 3, 2, 5));
}

/// Agents 0 and 2 start at parkings, agents 1 and 3 at stations.
const UNPARKED: &[u8] =
    b"type octile\nheight 1\nwidth 4\nmap\n....\n%%\nparking P 0 0\nstation A 1 0\nparking Q 2 0\nstation B 3 0\nagent P\nagent A\nagent Q\nagent B\n";

/// Whether a site is refused so where paths are to end at homes, and not where they end at stops.
fn is_for_stops_alone(alloc: Global, input: &[u8], text: &[u8]) -> bool {
    let told = match read_site(&mut Lines::new(input), alloc, true) {
        Ok(_) => false,
        Err(trouble) => trouble.text().as_slice() == text && trouble.status() == Status::Refused,
    };
    told && read_site(&mut Lines::new(input), alloc, false).is_ok()
}

#[test]
fn homes_are_parkings(rt: HostRuntime) {
    assert!(rt; is_for_stops_alone(rt.alloc(), UNPARKED, b"refused H1 1\n"));
    assert!(rt; read_site(&mut Lines::new(SITE), rt.alloc(), true).is_ok());
}

/// Whether the text that keeps a site begins so.
fn is_kept_so(alloc: Global, homes: bool, front: &[u8]) -> bool {
    match read_kept_site(&mut Lines::new(SITE), alloc, homes) {
        Ok(kept) => kept.text.as_slice().starts_with(front),
        Err(_) => false,
    }
}

#[test]
fn rule_is_kept(rt: HostRuntime) {
    assert!(rt; is_kept_so(rt.alloc(), false, b"wsite 37 36\ntype octile\n"));
    assert!(rt; is_kept_so(rt.alloc(), true, b"wsite 37 36 ends homes\ntype octile\n"));
}

#[test]
fn no_site(rt: HostRuntime) {
    assert!(rt; are_no_sites(rt.alloc()) && is_a_long_line_refused(rt.alloc()));
}

fn is_told(trouble: Trouble, text: &[u8], status: u8) -> bool {
    trouble.text().as_slice() == text && trouble.status().number() == status
}

fn are_told() -> bool {
    for (trouble, text, status) in TROUBLES.iter() {
        if !is_told(*trouble, text, *status) {
            return false;
        }
    }
    Trouble::from(AllocError).status().number() == 4
}

#[test]
fn texts_and_statuses(rt: HostRuntime) {
    assert!(rt; are_told());
}

/// Whether a script is read as a task and a tick.
fn is_a_task_and_a_tick(alloc: Global, script: &[u8]) -> bool {
    match client_work(alloc, script) {
        Ok(work) => {
            let work: Work = work;
            let is_read = matches!(
                work.commands.as_slice(),
                [Command::Submit { .. }, Command::Tick]
            );
            drop(work);
            is_read
        }
        Err(_) => false,
    }
}

#[test]
fn works_of_clients(rt: HostRuntime) {
    assert!(rt; is_a_task_and_a_tick(rt.alloc(), b"submit x A B\n\n# note\ntick\r\n"));
}

/// Whether a line of a script has no form.
fn has_a_bad_line(alloc: Global, script: &[u8], line: u64) -> bool {
    let refused: Result<Work, ScriptFault> = client_work(alloc, script);
    let place = ScriptPlace {
        kind: LineFault::Form,
        line,
    };
    matches!(refused, Err(ScriptFault::At(at)) if at == place)
}

#[test]
fn scripts_with_a_bad_line(rt: HostRuntime) {
    assert!(rt; has_a_bad_line(rt.alloc(), b"tick\nmove\n", 2));
    // a word of `serve` alone
    assert!(rt; has_a_bad_line(rt.alloc(), b"tick\ntick\nstop\n", 3));
}

/// Whether the work of agent 3 is four requests.
fn asks_four_times(alloc: Global) -> Result<bool, AllocError> {
    let work: Work = agent_work(alloc, 3, 4)?;
    let asks = matches!(
        work.commands.as_slice(),
        [_, _, _, Command::Token { agent: 3 }]
    );
    drop(work);
    Ok(asks)
}

/// Whether the clock's work is five ticks.
fn ticks_five_times(alloc: Global) -> Result<bool, AllocError> {
    let work: Work = clock_work(alloc, 5)?;
    let ticks = matches!(work.commands.as_slice(), [Command::Tick, _, _, _, _]);
    drop(work);
    Ok(ticks)
}

#[test]
fn works_of_agents_and_the_clock(rt: HostRuntime) -> Result<(), Fail> {
    assert!(rt; asks_four_times(rt.alloc())? && ticks_five_times(rt.alloc())?);
    Ok(())
}
