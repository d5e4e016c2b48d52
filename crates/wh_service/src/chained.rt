//! What `verify --chain` does.

ghost use Rattle.std.specs.Prelude.{◌≡◌, ◌≤◌, ◌<◌, ◌+◌, IfErr, IfOk, length};
ghost use Rattle.wh_lines.specs.Input.{Input};
ghost use Rattle.wh_points.specs.Points.{Site as Floor};
ghost use Rattle.wh_service.specs.Chained.{Chains, Counts, IsReached, IsTold, IsWhyStopped, IsWhyUnchained, NextTold, SaysOfEnd, StepsBy, StopsBy, TallyFault, chain_text, join_text, status_of_chain, verdict_text};

use crate::settings::read_setting;
use crate::verified::log_section;
use crate::writing::write_text;
use arrayvec::ArrayVec;
use std::alloc::{AllocError, Global};
use std::io::{Read, Write};
use wh_continue::Setting;
use wh_edge::{Status, Trouble};
use wh_event::{put, put_number};
use wh_front::{Front, Kind};
use wh_handover::{LinkFault, Linked, link};
use wh_lines::Lines;
use wh_options::VerifyOptions;

/// The most logs of a chain.
const MOST_LOGS: u32 = 999_999_999;

/// What the logs of a chain are.
#[derive(Clone, Copy, Debug, PartialEq, Eq)]
pub enum ChainVerdict {
    /// Each goes on from the one before, and together they have so many entries. Whether the last has its last line.
    Run { entries: u64, is_ended: bool },
    /// This log, from 1, is the first that does not, and this line of it the first bad one.
    Bad { log: u32, line: u64 },
}

/// What is said of the logs of a chain.
#[derive(Drop)]
pub struct ChainTold {
    /// A line for each that begins with a state as its vehicles stood, or as somebody edited it.
    pub joins: Vec<u8>,
    /// What they are.
    pub verdict: ChainVerdict,
}

/// What was counted of the logs so far.
#[derive(Drop)]
struct Tally {
    logs: u32,
    entries: u64,
    joins: Vec<u8>,
}

/// How far the logs of a chain were read.
#[derive(Drop)]
struct Reached {
    setting: Setting,
    before: Option<Front>,
    tally: Tally,
}

/// What comes of a log.
#[derive(Drop)]
enum Step {
    /// Another follows.
    On(Reached),
    /// It decides.
    Told(ChainTold),
}

/// The line that tells of what kind the state is with which a log begins, with its line feed; none where the log before led there.
fn join_line(log: u32, joined: Option<Kind>) -> ArrayVec<u8, 64>
    ensures { result.items ≡ join_text log joined }
{
    let mut line = ArrayVec::new();
    match joined {
        Some(Kind::Stopped) => {
            put_number(&mut line, b"stopped ", u64::from(log));
            put(&mut line, b"\n");
        }
        Some(Kind::Edited) => {
            put_number(&mut line, b"edited ", u64::from(log));
            put(&mut line, b"\n");
        }
        Some(Kind::Whole) => {}
        None => {}
    }
    line
}

/// The same with this log more.
fn counted(tally: Tally, linked: &Linked) -> Result<Tally, Trouble>
    requires few { tally.logs < 999999999 }
    ensures ok { IfOk result (Counts tally linked.now) }
    ensures fault { IfErr result (TallyFault (tally.entries + linked.now.entries)) }
{
    let Tally {
        logs,
        entries,
        mut joins,
    } = tally;
    let Some(entries) = entries.checked_add(linked.entries as u64) else {
        drop(joins);
        return Err(Trouble::SectionTooLong);
    };
    let line = join_line(logs + 1, linked.joined);
    match joins.extend_from_slice(line.as_slice()) {
        Ok(()) => Ok(Tally {
            logs: logs + 1,
            entries,
            joins,
        }),
        Err(AllocError) => {
            drop(joins);
            Err(Trouble::NoMemory)
        }
    }
}

/// How far the logs were read with this one, behind which another follows.
fn gone_on(tally: Tally, linked: Linked) -> Result<Reached, Trouble>
    requires few { tally.logs < 999999999 }
    ensures setting { IfOk result (λ on. on.setting ≡ linked.setting) }
    ensures before { IfOk result (λ on. on.before ≡ linked.next) }
    ensures tally { IfOk result (λ on. Counts tally linked on.tally) }
    ensures fault { IfErr result (TallyFault (tally.entries + linked.entries)) }
{
    match counted(tally, &linked) {
        Ok(tally) => {
            let Linked { setting, next, .. } = linked;
            Ok(Reached {
                setting,
                before: next,
                tally,
            })
        }
        Err(trouble) => {
            drop(linked);
            Err(trouble)
        }
    }
}

/// What is said of the logs where the next has this bad line.
fn broken(tally: Tally, line: u64) -> ChainTold
    requires few { tally.logs < 999999999 }
    ensures verdict { result.verdict ≡ ChainVerdict.Bad (tally.logs + 1) line }
    ensures joins { result.joins ≡ tally.joins }
{
    let Tally { logs, joins, .. } = tally;
    ChainTold {
        joins,
        verdict: ChainVerdict::Bad {
            log: logs + 1,
            line,
        },
    }
}

/// What is said of the logs with the last one, which may lack its last line or not.
fn ended(tally: Tally, linked: Linked, unended: bool) -> Result<ChainTold, Trouble>
    requires few { tally.logs < 999999999 }
    requires lines { linked.lines ≤ 268435456 }
    ensures ok { IfOk result (λ told. SaysOfEnd tally linked unended told.verdict told.joins.items) }
    ensures fault { IfErr result (TallyFault (tally.entries + linked.entries)) }
{
    let is_ended = linked.is_ended;
    let line = linked.lines + 1;
    if !is_ended && !unended {
        drop(linked);
        return Ok(broken(tally, line));
    }
    let counted = counted(tally, &linked);
    drop(linked);
    match counted {
        Ok(Tally { entries, joins, .. }) => Ok(ChainTold {
            joins,
            verdict: ChainVerdict::Run { entries, is_ended },
        }),
        Err(trouble) => Err(trouble),
    }
}

/// What comes of the next log, which was read and found to be so. Whether another follows.
fn step_by(
    tally: Tally,
    linked: Result<Linked, LinkFault>,
    goes_on: bool,
    unended: bool,
) -> Result<Step, Trouble>
    requires few { tally.logs < 999999999 }
    requires lines { IfOk linked (λ linked. linked.lines ≤ 268435456) }
    ensures ok { IfOk result (StepsBy tally linked goes_on unended) }
    ensures fault { IfErr result (StopsBy tally linked) }
{
    let linked = match linked {
        Ok(linked) => linked,
        Err(LinkFault::Bad { line }) => return Ok(Step::Told(broken(tally, line))),
        Err(LinkFault::NoMemory) => {
            drop(tally);
            return Err(Trouble::NoMemory);
        }
    };
    if goes_on {
        return match gone_on(tally, linked) {
            Ok(on) => Ok(Step::On(on)),
            Err(trouble) => Err(trouble),
        };
    }
    match ended(tally, linked, unended) {
        Ok(told) => Ok(Step::Told(told)),
        Err(trouble) => Err(trouble),
    }
}

/// What comes of the next log.
fn next_log<R: Read>(
    alloc: Global,
    lines: &mut Lines<R>,
    reached: Reached,
    unended: bool,
) -> Result<Step, Trouble>
    requires few { reached.tally.logs < 999999999 }
    requires some { 1 ≤ length reached.setting.layout.agents }
    ensures ok { IfOk result (λ step. (site : Floor) (start : Input) → IsReached site start lines.old reached → NextTold site start lines.new unended reached.tally.logs step) }
    ensures fault { IfErr result (λ told. (site : Floor) (start : Input) → IsReached site start lines.old reached → IsWhyStopped told site start lines.new) }
{
    let Reached {
        setting,
        before,
        tally,
    } = reached;
    let log = match log_section(lines, alloc) {
        Ok(log) => log,
        Err(trouble) => {
            drop(setting);
            drop(before);
            drop(tally);
            return Err(trouble);
        }
    };
    let goes_on = !lines.ended();
    let linked = link(alloc, setting, log.as_slice(), before, goes_on);
    drop(log);
    step_by(tally, linked, goes_on, unended)
}

/// What the logs of a chain are, which follow one another as sections to the end of the input.
fn chained<R: Read>(
    alloc: Global,
    lines: &mut Lines<R>,
    setting: Setting,
    unended: bool,
) -> Result<ChainTold, Trouble>
    requires some { 1 ≤ length setting.layout.agents }
    ensures ok { IfOk result (IsTold setting lines.old lines.new unended) }
    ensures fault { IfErr result (λ told. IsWhyStopped told setting lines.old lines.new) }
{
    let mut reached = Reached {
        setting,
        before: None,
        tally: Tally {
            logs: 0,
            entries: 0,
            joins: Vec::new(alloc),
        },
    };
    for _ in 0..MOST_LOGS {
        match next_log(alloc, lines, reached, unended) {
            Ok(Step::On(on)) => reached = on,
            Ok(Step::Told(told)) => return Ok(told),
            Err(trouble) => return Err(trouble),
        }
    }
    drop(reached);
    Err(Trouble::SectionTooLong)
}

/// The line that tells what the logs of a chain are, with its line feed.
fn verdict_line(verdict: ChainVerdict) -> ArrayVec<u8, 64>
    ensures { result.items ≡ verdict_text verdict }
{
    let mut line = ArrayVec::new();
    match verdict {
        ChainVerdict::Run { entries, is_ended } => {
            put_number(&mut line, b"run ", entries);
            if !is_ended {
                put(&mut line, b" unended");
            }
        }
        ChainVerdict::Bad { log, line: bad } => {
            put_number(&mut line, b"bad ", u64::from(log));
            put_number(&mut line, b" ", bad);
        }
    }
    put(&mut line, b"\n");
    line
}

/// The lines that tell what is said of the logs of a chain.
fn text(alloc: Global, told: ChainTold) -> Result<Vec<u8>, AllocError>
    ensures { IfOk result (λ text. text.items ≡ chain_text told) }
{
    let ChainTold { mut joins, verdict } = told;
    let line = verdict_line(verdict);
    match joins.extend_from_slice(line.as_slice()) {
        Ok(()) => Ok(joins),
        Err(AllocError) => {
            drop(joins);
            Err(AllocError)
        }
    }
}

/// How the program ends after that.
fn status(verdict: ChainVerdict) -> Status
    ensures { result ≡ status_of_chain verdict }
{
    match verdict {
        ChainVerdict::Run { .. } => Status::Done,
        ChainVerdict::Bad { .. } => Status::Refused,
    }
}

/// Reads a site, and then logs of any version, each a section of at most 268,435,456 bytes and one at a time in memory, and writes `run N`
/// where each is the log of a run by the rule of the options that goes on from where the one before has come to; N counts the entries of
/// all. Before it a line tells each that begins otherwise than with the very state to which the log before led: `stopped K` where it is
/// that one as vehicles stood, `edited K` where somebody answers for it. Else it writes `bad K L`: the first log that is none of the chain,
/// from 1, and its first bad line; what follows is not read. Each log but the last may lack its last line, the last only where the options
/// allow it, and then `run N unended` is written for such a one.
///
/// Errors are reported in this order: the site, the section of each log, lack of memory, the writer. Before the writer fails nothing is
/// written.
pub fn verify_chain<R: Read, W: Write>(
    alloc: Global,
    lines: &mut Lines<R>,
    output: &mut W,
    options: VerifyOptions,
) -> Result<Status, Trouble>
    ensures ok { IfOk result (λ status. Chains options lines.old lines.new (W.contents output.old) (W.contents output.new) status) }
    ensures fault { IfErr result (λ told. IsWhyUnchained options told lines.old lines.new (W.contents output.old) (W.contents output.new)) }
{
    let setting = match read_setting(lines, alloc, options.homes) {
        Ok(setting) => setting,
        Err(trouble) => return Err(trouble),
    };
    let told = match chained(alloc, lines, setting, options.unended) {
        Ok(told) => told,
        Err(trouble) => return Err(trouble),
    };
    let status = status(told.verdict);
    let text = match text(alloc, told) {
        Ok(text) => text,
        Err(AllocError) => return Err(Trouble::NoMemory),
    };
    match write_text(output, text.as_slice()) {
        Ok(()) => Ok(status),
        Err(trouble) => Err(trouble),
    }
}
