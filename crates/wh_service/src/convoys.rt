//! What `replay` does with vehicles over a log file and a file of arrivals.

ghost use Rattle.std.specs.Prelude.{◌≡◌, ◌≤◌, false, IfErr, IfOk, length};
ghost use Rattle.std.specs.Arc.{arc_value};
ghost use Rattle.wh_dispatch.specs.SettingOut.{SomeInStep};
ghost use Rattle.wh_continue.specs.Again.{CanTellAgain};
ghost use Rattle.wh_continue.specs.Besides.{StandsBeside};
ghost use Rattle.wh_continue.specs.Running.{IsStartOf};
ghost use Rattle.wh_service.specs.Fleets.{IsOfFleet, MakesPlanners};
ghost use Rattle.wh_service.specs.Kept.{HasLog, IsSeated, StartsFrom};
ghost use Rattle.wh_service.specs.Convoys.{GoesOn, IsWhyNoConvoy, IsWhyNotOn, IsWhyNotOver, IsWhyUnconvoyed, ServesConvoy, StandsOver, convoy_trouble, drive_status, drive_text, ride_trouble};
ghost use Rattle.wh_service.specs.Plays.{form_of};
ghost use Rattle.wh_journal.specs.Journals.{log_asker};

use crate::kept::{equip_for, keep_trouble, start_aside};
use crate::parts::PlannerParts;
use crate::program::form_of;
use crate::settings::{KeptSetting, read_kept_setting};
use crate::tail::write_tail;
use crate::vehicles::trouble_of;
use arrayvec::ArrayVec;
use std::alloc::{AllocError, Global};
use std::io::{Read, Write};
use std::sync::Arc;
use wh_continue::{Beside, LogFile, LogFileFault, Setting, Start, open_both};
use wh_convoy::{ConvoyFault, RideFault, Stood, StoodFault, find_stand, ride_on};
use wh_edge::{Status, Trouble};
use wh_event::{put, put_number};
use wh_grid::Grid;
use wh_lines::Lines;
use wh_log::Form;
use wh_options::{ReplayOptions, Tail, VehicleOptions};
use wh_planner::Planner;

/// Why a replay with vehicles was not brought to its end.
#[derive(Clone, Copy, Debug, PartialEq, Eq)]
pub enum DriveTrouble {
    /// As any replay.
    Plain(Trouble),
    /// The file of arrivals has this line first that is no report of a vehicle of this site, or that is missing.
    Arrivals { line: u64 },
    /// By the file of arrivals the vehicle of this agent has come further than the log allows.
    Astray { agent: u32 },
}

impl DriveTrouble {
    /// The line that tells of it, with its line feed.
    pub fn text(&self) -> ArrayVec<u8, 64>
        ensures { result.items ≡ drive_text self.now }
    {
        let mut line = ArrayVec::new();
        match *self {
            DriveTrouble::Plain(trouble) => return trouble.text(),
            DriveTrouble::Arrivals { line: number } => {
                put_number(&mut line, b"refused L1 at line ", number)
            }
            DriveTrouble::Astray { agent } => {
                put_number(&mut line, b"refused L1 at agent ", u64::from(agent))
            }
        }
        put(&mut line, b"\n");
        line
    }

    /// The status with which the program ends.
    pub fn status(&self) -> Status
        ensures { result ≡ drive_status self.now }
    {
        match self {
            DriveTrouble::Plain(trouble) => trouble.status(),
            DriveTrouble::Arrivals { .. } | DriveTrouble::Astray { .. } => Status::Refused,
        }
    }
}

/// What is told of a script that was not served to its end over both files.
fn convoy_trouble(fault: ConvoyFault) -> Trouble
    ensures { result ≡ convoy_trouble fault }
{
    match fault {
        ConvoyFault::Broken => Trouble::Broken,
        ConvoyFault::Endless => Trouble::Endless,
        ConvoyFault::Unwritten => Trouble::Unwritten,
        ConvoyFault::Unkept => Trouble::Unkept,
        ConvoyFault::NoMemory => Trouble::NoMemory,
    }
}

/// What is told of a run with vehicles that was not brought to its end.
fn ride_trouble(fault: RideFault) -> Trouble
    ensures { result ≡ ride_trouble fault }
{
    match fault {
        RideFault::Begin(fault) => keep_trouble(fault),
        RideFault::Uncounted => Trouble::Unwritten,
        RideFault::Resume(_) => Trouble::NoMemory,
        RideFault::NoMemory => Trouble::NoMemory,
        RideFault::SetOut(fault) => trouble_of(fault),
        RideFault::Script(fault) => convoy_trouble(fault),
        RideFault::End(fault) => keep_trouble(fault),
    }
}

/// Where vehicles stand as the run goes on, by what the file of arrivals holds.
fn stand_over<L: LogFile>(
    alloc: Global,
    arrivals: &mut L,
    start: &Start,
    ahead: u64,
) -> Result<Stood, DriveTrouble>
    requires some { 1 ≤ ahead }
    ensures ok { IfOk result (StandsOver start.now ahead (L.contents arrivals.old)) }
    ensures fault { IfErr result (IsWhyNotOver start.now ahead (L.contents arrivals.old)) }
    ensures in_step { IfOk result (λ stood. SomeInStep start.now.book stood.order) }
    ensures same { L.contents arrivals.new ≡ L.contents arrivals.old }
{
    let text = match arrivals.text(alloc) {
        Ok(text) => text,
        Err(LogFileFault::Unread) => return Err(DriveTrouble::Plain(Trouble::Unkept)),
        Err(LogFileFault::NoMemory) => return Err(DriveTrouble::Plain(Trouble::NoMemory)),
    };
    match find_stand(alloc, &start.book, ahead, &start.preface, text.as_slice()) {
        Ok(stood) => Ok(stood),
        Err(StoodFault::BadLine(line)) => Err(DriveTrouble::Arrivals { line }),
        Err(StoodFault::Astray(agent)) => Err(DriveTrouble::Astray { agent }),
        Err(StoodFault::NoMemory) => Err(DriveTrouble::Plain(Trouble::NoMemory)),
    }
}

/// What a run of the site starts from by both files, how much of the site's text stands beside the log, where its vehicles stand by the
/// file of arrivals, and the planners, with the spare ones behind. What is wrong with the file beside the log is told first, then with
/// the log, then with the file of arrivals.
fn start_convoy<L: LogFile, P: Planner, F: Fn(PlannerParts) -> Result<P, AllocError>>(
    alloc: Global,
    file: &mut L,
    beside: &mut L,
    arrivals: &mut L,
    text: &[u8],
    grid: &Arc<Grid>,
    setting: Setting,
    options: &ReplayOptions<'_>,
    ahead: u64,
    make: &F,
) -> Result<(Start, Beside, Stood, (Vec<P>, Vec<P>)), DriveTrouble>
    requires some { 1 ≤ length setting.layout.agents }
    requires grid { arc_value grid.now ≡ setting.grid }
    requires range { IsOfFleet options.now.fleet }
    requires ahead { 1 ≤ ahead }
    requires callable { F.IsAlwaysCallable make.now }
    ensures ok { IfOk result (λ r. StartsFrom options.now.fleet setting (L.contents file.old) r.0) }
    ensures stands { IfOk result (λ r. StandsBeside (L.contents beside.old) text.now r.1) }
    ensures has_log { IfOk result (λ r. HasLog options.now.anew r.1 r.0) }
    ensures within { IfOk result (λ r. CanTellAgain options.now.told r.0) }
    ensures over { IfOk result (λ r. StandsOver r.0 ahead (L.contents arrivals.old) r.2) }
    ensures in_step { IfOk result (λ r. SomeInStep r.0.book r.2.order) }
    ensures seated { IfOk result (λ r. IsSeated (F.post make.now) options.now.fleet setting.grid r.0.book.state.slots r.3.0.items r.3.1.items) }
    ensures fault { IfErr result (IsWhyNoConvoy options.now.fleet options.now.told options.now.anew ahead setting (record { log = L.contents file.old; arrivals = L.contents arrivals.old }) (L.contents beside.old) text.now) }
    ensures same { L.contents file.new ≡ L.contents file.old }
    ensures same_beside { L.contents beside.new ≡ L.contents beside.old }
    ensures same_arrivals { L.contents arrivals.new ≡ L.contents arrivals.old }
{
    let fleet = &options.fleet;
    let again = options.told;
    let anew = options.anew;
    let (start, found) = match start_aside(alloc, file, beside, text, setting, fleet, again, anew) {
        Ok(started) => started,
        Err(trouble) => return Err(DriveTrouble::Plain(trouble)),
    };
    let stood = match stand_over(alloc, arrivals, &start, ahead) {
        Ok(stood) => stood,
        Err(trouble) => {
            drop(start);
            return Err(trouble);
        }
    };
    match equip_for(alloc, fleet, grid, start.book.slots(), make) {
        Ok(equipped) => Ok((start, found, stood, equipped)),
        Err(trouble) => {
            drop(stood);
            drop(start);
            Err(DriveTrouble::Plain(trouble))
        }
    }
}

/// Brings a run that starts to its end, and writes what is to follow the replies. How many vehicles are on their way then.
fn go_on<R: Read, W: Write, L: LogFile, P: Planner>(
    alloc: Global,
    lines: &mut Lines<R>,
    output: &mut W,
    form: Form,
    again: Option<u32>,
    tail: Tail,
    file: &mut L,
    arrivals: &mut L,
    start: Start,
    stood: Stood,
    behind: u64,
    planners: Vec<P>,
    spares: &mut Vec<P>,
) -> Result<u32, Trouble>
    requires starts { IsStartOf (L.contents file.old) start }
    requires stand { SomeInStep start.book stood.order }
    ensures ok { IfOk result (λ left. GoesOn P.fits_map P.slot_count (log_asker form) tail again behind lines.old lines.new start stood spares.old.items (W.contents output.old) (W.contents output.new)
        (record { log = L.contents file.old; arrivals = L.contents arrivals.old }) (record { log = L.contents file.new; arrivals = L.contents arrivals.new }) (record { log = L.synced file.new; arrivals = L.synced arrivals.new }) left) }
    ensures fault { IfErr result (λ told. IsWhyNotOn P.fits_map P.slot_count (log_asker form) tail again behind told lines.old lines.new start stood planners.items spares.old.items (W.contents output.old) (W.contents output.new)
        (record { log = L.contents file.old; arrivals = L.contents arrivals.old }) (record { log = L.contents file.new; arrivals = L.contents arrivals.new }) (record { log = L.synced file.new; arrivals = L.synced arrivals.new }) (L.failed file.new) (L.failed arrivals.new)) }
{
    let ran = ride_on(
        lines, alloc, form, again, file, arrivals, output, start, stood, behind, planners, spares,
    );
    let (warehouse, vehicles, preface) = match ran {
        Ok(ran) => ran,
        Err(fault) => return Err(ride_trouble(fault)),
    };
    let _history = warehouse.history();
    let written = write_tail(alloc, output, &warehouse, &preface, tail);
    drop(warehouse);
    drop(preface);
    match written {
        Ok(()) => Ok(vehicles.on_their_way()),
        Err(trouble) => Err(trouble),
    }
}

/// Reads a site whose rule is that nobody follows, finds out from the log file and the file beside it what the run starts from, and from the
/// file of arrivals where its vehicles stand, makes the planners, begins the log where it was not begun, keeps the site's text beside it, has the vehicles set out, serves
/// the script after the site over both files, and writes what follows the replies. What is in the files survives a kill, and
/// nothing is told before the entries and the reports that it rests on were synced. Returns how many vehicles are on their way at the end. Errors
/// are reported in this order: the site, its rule, the file beside the log, the log, the file of arrivals, the bank and the planners, the log's
/// first lines, what is written beside the log, the run, what follows the replies. Before the run starts nothing is told, and the file of
/// arrivals is as it was.
pub fn serve_convoy<
    R: Read,
    W: Write,
    L: LogFile,
    P: Planner,
    F: Fn(PlannerParts) -> Result<P, AllocError>,
>(
    alloc: Global,
    lines: &mut Lines<R>,
    output: &mut W,
    options: &ReplayOptions<'_>,
    pace: VehicleOptions,
    file: &mut L,
    beside: &mut L,
    arrivals: &mut L,
    make: F,
) -> Result<u32, DriveTrouble>
    requires range { IsOfFleet options.now.fleet }
    requires ahead { 1 ≤ pace.ahead }
    requires callable { F.IsAlwaysCallable make }
    requires makes { MakesPlanners P.fits_map P.slot_count (F.post make) }
    ensures ok { IfOk result (λ left. ServesConvoy P.fits_map P.slot_count (log_asker (form_of options.now.replies)) (F.post make) options.now.fleet options.now.tail options.now.told options.now.anew pace lines.old lines.new (W.contents output.old) (W.contents output.new)
        (record { log = L.contents file.old; arrivals = L.contents arrivals.old }) (record { log = L.contents file.new; arrivals = L.contents arrivals.new }) (record { log = L.synced file.new; arrivals = L.synced arrivals.new })
        (record { before = L.contents beside.old; after = L.contents beside.new; synced = L.synced beside.new; failed = L.failed beside.new }) left) }
    ensures fault { IfErr result (λ told. IsWhyUnconvoyed P.fits_map P.slot_count (log_asker (form_of options.now.replies)) (F.post make) options.now.fleet options.now.tail options.now.told options.now.anew pace told lines.old lines.new (W.contents output.old) (W.contents output.new)
        (record { log = L.contents file.old; arrivals = L.contents arrivals.old }) (record { log = L.contents file.new; arrivals = L.contents arrivals.new }) (record { log = L.synced file.new; arrivals = L.synced arrivals.new }) (L.failed file.new) (L.failed arrivals.new)
        (record { before = L.contents beside.old; after = L.contents beside.new; synced = L.synced beside.new; failed = L.failed beside.new })) }
{
    let homes = options.fleet.homes;
    let KeptSetting { setting, text } = match read_kept_setting(lines, alloc, homes) {
        Ok(kept) => kept,
        Err(trouble) => return Err(DriveTrouble::Plain(trouble)),
    };
    let bytes = text.as_slice();
    if !setting.nofollow() {
        drop(text);
        drop(setting);
        return Err(DriveTrouble::Plain(Trouble::MayFollow));
    }
    let Ok(grid) = Arc::try_clone(setting.shared_grid()) else {
        drop(text);
        drop(setting);
        return Err(DriveTrouble::Plain(Trouble::NoMemory));
    };
    let ahead = u64::from(pace.ahead);
    let (start, found, stood, (planners, mut spares)) = match start_convoy(
        alloc, file, beside, arrivals, bytes, &grid, setting, options, ahead, &make,
    ) {
        Ok(started) => started,
        Err(trouble) => {
            drop(text);
            drop(grid);
            return Err(trouble);
        }
    };
    let begun = match open_both(alloc, file, beside, bytes, found, start) {
        Ok(begun) => begun,
        Err(fault) => {
            drop(planners);
            drop(spares);
            drop(stood);
            drop(text);
            drop(grid);
            return Err(DriveTrouble::Plain(keep_trouble(fault)));
        }
    };
    drop(text);
    drop(grid);
    let left = go_on(
        alloc,
        lines,
        output,
        form_of(options.replies),
        options.told,
        options.tail,
        file,
        arrivals,
        begun,
        stood,
        u64::from(pace.behind),
        planners,
        &mut spares,
    );
    drop(spares);
    match left {
        Ok(left) => Ok(left),
        Err(trouble) => Err(DriveTrouble::Plain(trouble)),
    }
}
