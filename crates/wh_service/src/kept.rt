//! What `replay` does over a log file.

ghost use Rattle.std.specs.Prelude.{◌≡◌, ◌<◌, ◌≤◌, ◌⊎◌, ◌+◌, ◌^◌, ℕ, false, true, Some, IfErr, IfNone, IfOk, IfSome, OnOk, length, All};
ghost use Rattle.std.specs.Arc.{arc_value};
ghost use Rattle.wh_log.specs.Logs.{IsSlots};
ghost use Rattle.wh_service.specs.Fleets.{IsOfFleet, IsWhyUnclaimed, IsWhyUnseated, MakesPlanners};
ghost use Rattle.wh_continue.specs.Again.{CanTellAgain};
ghost use Rattle.wh_continue.specs.Besides.{StandsBeside};
ghost use Rattle.wh_service.specs.Kept.{HasLog, IsSeated, IsWhyAside, IsWhyNoRun, IsWhyNotStarted, IsWhyUnkept, ServesKept, StartsFrom, again_trouble, journal_trouble, keep_trouble, run_trouble, start_trouble};
ghost use Rattle.wh_service.specs.Plays.{form_of};
ghost use Rattle.wh_journal.specs.Journals.{log_asker};

use crate::fleet::{members, seated};
use crate::parts::PlannerParts;
use crate::program::{deliver_trouble, form_of};
use crate::settings::{KeptSetting, read_kept_setting};
use crate::tail::finish;
use std::alloc::{AllocError, Global};
use std::io::{Read, Write};
use std::sync::Arc;
use wh_claims::Bank;
use wh_continue::{
    AgainFault, Beside, BesideFault, ContinueFault, JournaledFault, KeepFault, LogFile, RunFault,
    Setting, Start, StartFault, check_again, find_start, look_beside, open_both, run_on,
};
use wh_edge::Trouble;
use wh_grid::Grid;
use wh_lines::Lines;
use wh_options::{Fleet, ReplayOptions};
use wh_planner::Planner;

/// The error of a log file that was not begun or not ended.
pub fn keep_trouble(fault: KeepFault) -> Trouble
    ensures { result ≡ keep_trouble fault }
{
    match fault {
        KeepFault::Unkept => Trouble::Unkept,
        KeepFault::NoMemory => Trouble::NoMemory,
    }
}

/// What is told of a script that was not served to its end over a log file.
fn journal_trouble(fault: JournaledFault) -> Trouble
    ensures { result ≡ journal_trouble fault }
{
    match fault {
        JournaledFault::Broken => Trouble::Broken,
        JournaledFault::Endless => Trouble::Endless,
        JournaledFault::Unwritten => Trouble::Unwritten,
        JournaledFault::Unjournaled => Trouble::Unkept,
    }
}

/// What is told of a run that was not brought to its end. Planners are made for the very book, so that none is refused for
/// anything but want of memory.
fn run_trouble(fault: RunFault) -> Trouble
    ensures { result ≡ run_trouble fault }
{
    match fault {
        RunFault::Begin(fault) => keep_trouble(fault),
        RunFault::Uncounted => Trouble::Unwritten,
        RunFault::Continue(ContinueFault::Replay(fault)) => journal_trouble(fault),
        RunFault::Continue(ContinueFault::Resume(_)) => Trouble::NoMemory,
        RunFault::Deliver(fault) => deliver_trouble(fault),
        RunFault::End(fault) => keep_trouble(fault),
    }
}

/// One planner for each of these numbers of slots, and then the spare ones, with the fleet's slots, all of the fleet's kind and
/// on the grid, each with a claim of its own on one bank. The error tells why one of them got no slots, or that memory ran
/// out.
pub(crate) fn equip_for<P: Planner, F: Fn(PlannerParts) -> Result<P, AllocError>>(
    alloc: Global,
    fleet: &Fleet,
    grid: &Arc<Grid>,
    slots: &[u32],
    make: &F,
) -> Result<(Vec<P>, Vec<P>), Trouble>
    requires range { IsOfFleet fleet.now }
    requires each { All IsSlots slots.now }
    requires callable { F.IsAlwaysCallable make.now }
    ensures ok { IfOk result (λ r. IsSeated (F.post make.now) fleet.now (arc_value grid.now) slots.now r.0.items r.1.items) }
    ensures fault { IfErr result (λ told. IsWhyUnseated slots.now told ⊎ IsWhyUnclaimed fleet.now.slots told) }
{
    let (bank, mut seat) = Bank::new(alloc, fleet.bank)?;
    let planners = match seated(alloc, fleet, grid, &bank, &mut seat, make, slots) {
        Ok(planners) => planners,
        Err(trouble) => return Err(trouble),
    };
    let count = fleet.spares as usize;
    match members(alloc, fleet, grid, &bank, &mut seat, make, count) {
        Ok(spares) => Ok((planners, spares)),
        Err(trouble) => Err(trouble),
    }
}

/// How much of a site's text the file beside the log holds.
fn look_aside<L: LogFile>(alloc: Global, beside: &mut L, text: &[u8]) -> Result<Beside, Trouble>
    ensures ok { IfOk result (StandsBeside (L.contents beside.old) text.now) }
    ensures fault { IfErr result (IsWhyAside (L.contents beside.old) text.now) }
    ensures same { L.contents beside.new ≡ L.contents beside.old }
{
    match look_beside(alloc, beside, text) {
        Ok(found) => Ok(found),
        Err(BesideFault::Other) => Err(Trouble::Log { line: 0 }),
        Err(BesideFault::Unread) => Err(Trouble::Unkept),
        Err(BesideFault::NoMemory) => Err(Trouble::NoMemory),
    }
}

/// What is told of a start that the log file does not allow.
fn start_trouble(fault: StartFault) -> Trouble
    ensures { result ≡ start_trouble fault }
{
    match fault {
        StartFault::Bad { line } => Trouble::Log { line },
        StartFault::Flawed { line, reason } => Trouble::Front { reason, line },
        StartFault::Unread => Trouble::Unkept,
        StartFault::NoMemory => Trouble::NoMemory,
    }
}

/// What is told where entries cannot be told again from the one that is named.
fn again_trouble(fault: AgainFault) -> Trouble
    ensures { result ≡ again_trouble fault }
{
    match fault {
        AgainFault::Earlier { first } => Trouble::Forgotten { first },
        AgainFault::Missing { line } => Trouble::Log { line },
    }
}

/// What the log file lets a run of the site start from.
fn start_over<L: LogFile>(
    alloc: Global,
    file: &mut L,
    setting: Setting,
    fleet: &Fleet,
) -> Result<Start, Trouble>
    requires some { 1 ≤ length setting.layout.agents }
    requires range { IsOfFleet fleet.now }
    ensures ok { IfOk result (StartsFrom fleet.now setting (L.contents file.old)) }
    ensures slots { IfOk result (λ start. All IsSlots start.book.state.slots) }
    ensures fault { IfErr result (IsWhyNotStarted fleet.now setting (L.contents file.old)) }
    ensures same { L.contents file.new ≡ L.contents file.old }
{
    let each = vec![in alloc; fleet.slots; setting.agents()]?;
    match find_start(alloc, setting, each, file) {
        Ok(start) => Ok(start),
        Err(fault) => Err(start_trouble(fault)),
    }
}

/// What a run of the site starts from by both files, and how much of the site's text stands beside the log. The file beside
/// it comes first. Where the site's text stands whole beside a log that was not begun, that log was lost, and a run begins only where
/// a new one is asked for. Where entries are to be told again from one on, it is one of this log, or the run's next one.
pub fn start_aside<L: LogFile, B: LogFile>(
    alloc: Global,
    file: &mut L,
    beside: &mut B,
    text: &[u8],
    setting: Setting,
    fleet: &Fleet,
    again: Option<u32>,
    anew: bool,
) -> Result<(Start, Beside), Trouble>
    requires some { 1 ≤ length setting.layout.agents }
    requires range { IsOfFleet fleet.now }
    ensures ok { IfOk result (λ r. StartsFrom fleet.now setting (L.contents file.old) r.0) }
    ensures stands { IfOk result (λ r. StandsBeside (B.contents beside.old) text.now r.1) }
    ensures has_log { IfOk result (λ r. HasLog anew r.1 r.0) }
    ensures within { IfOk result (λ r. CanTellAgain again r.0) }
    ensures slots { IfOk result (λ r. All IsSlots r.0.book.state.slots) }
    ensures fault { IfErr result (IsWhyNoRun fleet.now again anew setting (L.contents file.old) (B.contents beside.old) text.now) }
    ensures same { L.contents file.new ≡ L.contents file.old }
    ensures same_beside { B.contents beside.new ≡ B.contents beside.old }
{
    let found = match look_aside(alloc, beside, text) {
        Ok(found) => found,
        Err(trouble) => {
            drop(setting);
            return Err(trouble);
        }
    };
    let start = match start_over(alloc, file, setting, fleet) {
        Ok(start) => start,
        Err(trouble) => return Err(trouble),
    };
    if found == Beside::Whole && !anew && start.bytes.is_none() {
        drop(start);
        return Err(Trouble::LostLog);
    }
    match check_again(&start, again) {
        Ok(()) => Ok((start, found)),
        Err(fault) => {
            drop(start);
            Err(again_trouble(fault))
        }
    }
}

/// Reads a site, finds out from the log file and the file beside it what the run starts from, makes one planner for each
/// agent, with the slots that its state tells, and then the spare ones, begins the log where it was not begun, keeps the site's text
/// beside it, serves the script after the site over the log, and writes what follows the replies. The first line written is `entries N`, the number
/// of entries that the run has so far in all its logs, followed by those that are to be told again. What is in the log survives a kill,
/// and no reply is told before its entry was synced. `make` makes one planner of its parts, and fails only when out of
/// memory. Errors are reported in this order: the site, the file beside the log, the log, the bank and the planners, the log's first lines,
/// what is written beside the log, the run, what follows the replies. Before the run starts nothing is told.
pub fn serve_kept<
    R: Read,
    W: Write,
    L: LogFile,
    P: Planner,
    F: Fn(PlannerParts) -> Result<P, AllocError>,
>(
    alloc: Global,
    lines: &mut Lines<R>,
    output: &mut W,
    options: &ReplayOptions<'_>,
    file: &mut L,
    beside: &mut L,
    make: F,
) -> Result<Vec<u8>, Trouble>
    requires range { IsOfFleet options.now.fleet }
    requires callable { F.IsAlwaysCallable make }
    requires makes { MakesPlanners P.fits_map P.slot_count (F.post make) }
    ensures ok { IfOk result (λ report. ServesKept P.fits_map P.slot_count (log_asker (form_of options.now.replies)) (F.post make) options.now.fleet options.now.deliver options.now.tail options.now.told options.now.anew lines.old lines.new (W.contents output.old) (W.contents output.new) (L.contents file.old) (L.synced file.new) (L.contents file.new)
        (record { before = L.contents beside.old; after = L.contents beside.new; synced = L.synced beside.new; failed = L.failed beside.new }) report.items) }
    ensures fault { IfErr result (λ told. IsWhyUnkept P.fits_map P.slot_count (log_asker (form_of options.now.replies)) (F.post make) options.now.fleet options.now.deliver options.now.tail options.now.told options.now.anew told lines.old lines.new (W.contents output.old) (W.contents output.new) (L.contents file.old) (L.failed file.new) (L.synced file.new) (L.contents file.new)
        (record { before = L.contents beside.old; after = L.contents beside.new; synced = L.synced beside.new; failed = L.failed beside.new })) }
{
    let fleet = &options.fleet;
    let KeptSetting { setting, text } = match read_kept_setting(lines, alloc, fleet.homes) {
        Ok(kept) => kept,
        Err(trouble) => return Err(trouble),
    };
    let bytes = text.as_slice();
    let Ok(grid) = Arc::try_clone(setting.shared_grid()) else {
        drop(text);
        drop(setting);
        return Err(Trouble::NoMemory);
    };
    let again = options.told;
    let anew = options.anew;
    let (start, found) = match start_aside(
        alloc, file, beside, bytes, setting, fleet, again, anew,
    ) {
        Ok(started) => started,
        Err(trouble) => {
            drop(text);
            drop(grid);
            return Err(trouble);
        }
    };
    let slots = start.book.slots();
    let (planners, mut spares) = match equip_for(alloc, fleet, &grid, slots, &make) {
        Ok(equipped) => equipped,
        Err(trouble) => {
            drop(start);
            drop(text);
            drop(grid);
            return Err(trouble);
        }
    };
    let begun = match open_both(alloc, file, beside, bytes, found, start) {
        Ok(begun) => begun,
        Err(fault) => {
            drop(planners);
            drop(spares);
            drop(text);
            drop(grid);
            return Err(keep_trouble(fault));
        }
    };
    drop(text);
    drop(grid);
    let form = form_of(options.replies);
    let deliver = options.deliver;
    let ran = run_on(
        lines,
        alloc,
        form,
        again,
        deliver,
        file,
        output,
        begun,
        planners,
        &mut spares,
    );
    let (warehouse, preface) = match ran {
        Ok(ran) => ran,
        Err(fault) => {
            drop(spares);
            return Err(run_trouble(fault));
        }
    };
    drop(spares);
    let _history = warehouse.history();
    let finished = finish(alloc, output, &warehouse, &preface, deliver, options.tail);
    drop(warehouse);
    drop(preface);
    finished
}
