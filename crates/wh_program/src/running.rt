//! The whole program: from its words and its input to its output and its status.

ghost use Rattle.std.specs.Prelude.{◌≡◌, ◌≢◌, ◌≤◌, ◌++◌, [], Bool, Err, IfOk, Option, is_some, map, option_map};
ghost use Rattle.std.specs.Io.KnownBytes.{Keeps};
ghost use Rattle.std.specs.String.{string_bytes};
ghost use Rattle.wh_service.specs.Fleets.{IsOfFleet, MakesPlanners};
ghost use Rattle.wh_program.specs.Attending.{Attended};
ghost use Rattle.wh_program.specs.Programs.{Comes, Did, Drove, Ends, EndsOpen, Files, HasRange, LateFiles, Lived, ReplayedOver, TellsOpen, names_file, silent};
ghost use Rattle.wh_service.specs.Serves.{ended_by};

use crate::attending::attend_by_name;
use crate::barring::{Bar, let_begin};
use crate::driving::{drive_over, end_drive, late};
use crate::stating::{end_stand, stand_by_name, standing, state_by_name};
use std::alloc::{AllocError, Global};
use std::convert::AsStr;
use std::fmt::Display;
use std::fs::{File, Files};
use std::io::{BufWriter, Read, Write};
use std::path::Path;
use std::sync::Wait;
use std::thread::Threads;
use std::time::Clock;
use wh_display::{FileScreen, Screen};
use wh_edge::{Status, Trouble};
use wh_lines::Lines;
use wh_options::{
    LiveOptions, Options, Refusal, ReplayOptions, VehicleOptions, options, refusal_of,
};
use wh_pipes::{Inlet, Outlet};
use wh_planner::Planner;
use wh_service::{DriveTrouble, FileJournal, LogFile, PlannerParts, ended, serve_kept, write_text};

/// The files that keep a run: its log, the file beside it that holds the site, and the file of arrivals.
#[derive(Drop)]
pub(crate) struct KeptFiles<L> {
    pub log: L,
    pub site: L,
    pub arrivals: L,
}

/// The name of the log file that the options name, if they name one.
fn log_name<'a>(options: &Options<'a>) -> Option<&'a str>
    ensures { is_some result ≡ names_file options.now }
{
    match options {
        Options::Replay(options) => options.log,
        Options::Check(_) | Options::Verify(_) | Options::Live(_) => None,
        Options::Serve(_) | Options::State(_) => None,
    }
}

/// The name of a file beside the one of this name.
pub(crate) fn name_beside(alloc: Global, name: &str, end: &str) -> Result<String, AllocError>
    ensures { IfOk result (λ beside. string_bytes beside ≡ name.now ++ end.now) }
{
    let mut beside = String::new(alloc);
    beside.push_str(name)?;
    beside.push_str(end)?;
    Ok(beside)
}

/// The names of the files beside this log, of its site and of arrivals.
pub(crate) fn names_beside(alloc: Global, log: &str) -> Result<(String, String), AllocError> {
    Ok((
        name_beside(alloc, log, ".site")?,
        name_beside(alloc, log, ".at")?,
    ))
}

/// The files of these names. They are not opened yet.
fn kept_files<'a, T: Files<File = File>>(
    rt: &'a T,
    log: &'a str,
    site: &'a str,
    arrivals: &'a str,
) -> KeptFiles<FileJournal<'a, T>> {
    KeptFiles {
        log: FileJournal::new(rt, Path::new(log)),
        site: FileJournal::new(rt, Path::new(site)),
        arrivals: FileJournal::new(rt, Path::new(arrivals)),
    }
}

/// Replays over files, or over none. What is to be told of open orders is put into `report`.
fn replay<R: Read, W: Write, L: LogFile, P: Planner, F: Fn(PlannerParts) -> Result<P, AllocError>>(
    alloc: Global,
    lines: &mut Lines<R>,
    output: &mut W,
    options: &ReplayOptions<'_>,
    files: &mut Option<KeptFiles<L>>,
    report: &mut Vec<u8>,
    make: F,
) -> Result<Status, Trouble>
    requires range { IsOfFleet options.now.fleet }
    requires callable { F.IsAlwaysCallable make }
    requires makes { MakesPlanners P.fits_map P.slot_count (F.post make) }
    ensures { ReplayedOver P.fits_map P.slot_count (F.post make) options.now (option_map (λ f. record { log = L.contents f.log; site = L.contents f.site }) files.old) result report.new.items lines.old lines.new (W.contents output.old) (W.contents output.new) }
{
    match files {
        None => match wh_service::replay(alloc, lines, output, options, make) {
            Ok(played) => {
                *report = played.report;
                Ok(Status::Done)
            }
            Err(trouble) => Err(trouble),
        },
        Some(files) => {
            let site = &mut files.site;
            match serve_kept(alloc, lines, output, options, &mut files.log, site, make) {
                Ok(text) => {
                    *report = text;
                    Ok(Status::Done)
                }
                Err(trouble) => Err(trouble),
            }
        }
    }
}

/// Has clients, agents and a clock work.
fn live<
    T: Threads + Wait + Sync,
    R: Read,
    W: Write,
    P: Planner,
    F: Fn(PlannerParts) -> Result<P, AllocError>,
>(
    rt: &T,
    alloc: Global,
    lines: &mut Lines<R>,
    output: &mut W,
    options: &LiveOptions,
    make: F,
) -> Result<Status, Trouble>
    requires range { IsOfFleet options.now.fleet }
    requires callable { F.IsAlwaysCallable make }
    requires makes { MakesPlanners P.fits_map P.slot_count (F.post make) }
    ensures { Lived P.fits_map P.slot_count (F.post make) options.now result lines.old lines.new (W.contents output.old) (W.contents output.new) }
{
    match wh_live::live(rt, alloc, lines, output, options, make) {
        Ok(()) => Ok(Status::Done),
        Err(trouble) => Err(trouble),
    }
}

/// The screen over the file of this name, if there is one. The file is not made yet.
pub(crate) fn screen_over<'a>(
    files: &'a HostRuntime,
    alloc: Global,
    board: Option<&'a str>,
) -> Result<Option<FileScreen<'a, HostRuntime>>, AllocError>
    ensures { IfOk result (λ screen. option_map ⟦<FileScreen<'a, HostRuntime> as Screen>⟧.shown screen ≡ silent board.entry) }
{
    match board {
        Some(board) => {
            let beside = name_beside(alloc, board, ".new")?;
            Ok(Some(FileScreen::new(files, board, beside)))
        }
        None => Ok(None),
    }
}

/// Does what the options ask for, a replay over these files, or over none.
fn obey<
    'a,
    T: Threads + Wait + Clock + Sync,
    R: Read,
    W: Write,
    L: LogFile,
    P: Planner,
    F: Fn(PlannerParts) -> Result<P, AllocError>,
>(
    rt: &T,
    files: &'a HostRuntime,
    alloc: Global,
    lines: &mut Lines<R>,
    output: &mut W,
    options: &Options<'a>,
    kept: &mut Option<KeptFiles<L>>,
    report: &mut Vec<u8>,
    make: F,
) -> Result<Status, Trouble>
    requires range { HasRange options.now }
    requires none { report.old.items ≡ [] }
    requires callable { F.IsAlwaysCallable make }
    requires makes { MakesPlanners P.fits_map P.slot_count (F.post make) }
    ensures { Did P.fits_map P.slot_count (F.post make) (Attended P.fits_map P.slot_count (F.post make) ⟦<Inlet<'a, HostRuntime> as Read>⟧.remaining ⟦<BufWriter<Outlet> as Write>⟧.contents) options.now (option_map (λ f. record { log = L.contents f.log; site = L.contents f.site }) kept.old) result report.new.items lines.old lines.new (W.contents output.old) (W.contents output.new) }
{
    match options {
        Options::Check(options) => wh_service::check(rt, alloc, lines, output, *options),
        Options::Verify(options) if options.chain => {
            wh_service::verify_chain(alloc, lines, output, *options)
        }
        Options::Verify(options) => wh_service::verify(alloc, lines, output, *options),
        Options::Replay(options) => replay(alloc, lines, output, options, kept, report, make),
        Options::Live(options) => live(rt, alloc, lines, output, options, make),
        Options::Serve(options) => attend_by_name(rt, files, alloc, lines, options, make),
        Options::State(options) => state_by_name(files, alloc, lines, output, options),
    }
}

/// Does what the options ask for, a replay over the files that they name, or over none.
#[tactic(auto, using(crate::proofs::Whole::is_some_map, crate::proofs::Starved::starved))]
fn obey_by_name<
    'a,
    T: Threads + Wait + Clock + Sync,
    R: Read,
    W: Write,
    P: Planner,
    F: Fn(PlannerParts) -> Result<P, AllocError>,
>(
    rt: &T,
    files: &'a HostRuntime,
    alloc: Global,
    lines: &mut Lines<R>,
    output: &mut W,
    options: &Options<'a>,
    report: &mut Vec<u8>,
    make: F,
) -> Result<Status, Trouble>
    requires range { HasRange options.now }
    requires none { report.old.items ≡ [] }
    requires callable { F.IsAlwaysCallable make }
    requires makes { MakesPlanners P.fits_map P.slot_count (F.post make) }
    ensures { (files : Option Files) × (is_some files ≡ names_file options.now) × Did P.fits_map P.slot_count (F.post make) (Attended P.fits_map P.slot_count (F.post make) ⟦<Inlet<'a, HostRuntime> as Read>⟧.remaining ⟦<BufWriter<Outlet> as Write>⟧.contents) options.now files result report.new.items lines.old lines.new (W.contents output.old) (W.contents output.new) }
{
    let Some(log) = log_name(options) else {
        let mut none: Option<KeptFiles<FileJournal<'a, HostRuntime>>> = None;
        return obey(
            rt, files, alloc, lines, output, options, &mut none, report, make,
        );
    };
    match names_beside(alloc, log) {
        Ok((site, arrivals)) => {
            let mut kept = Some(kept_files(files, log, site.as_str(), arrivals.as_str()));
            obey(
                rt, files, alloc, lines, output, options, &mut kept, report, make,
            )
        }
        Err(_) => Err(Trouble::NoMemory),
    }
}

/// Replays with vehicles over the files that the options name, or over none. How many of them are on their way at the end.
#[tactic(auto, using(crate::proofs::Starved::starved_late))]
fn drive_by_name<
    'a,
    T: Files<File = File>,
    R: Read,
    W: Write,
    P: Planner,
    F: Fn(PlannerParts) -> Result<P, AllocError>,
>(
    rt: &'a T,
    alloc: Global,
    lines: &mut Lines<R>,
    output: &mut W,
    options: &ReplayOptions<'a>,
    pace: VehicleOptions,
    make: F,
) -> Result<u32, DriveTrouble>
    requires range { IsOfFleet options.now.fleet }
    requires ahead { 1 ≤ pace.ahead }
    requires callable { F.IsAlwaysCallable make }
    requires makes { MakesPlanners P.fits_map P.slot_count (F.post make) }
    ensures { (files : Option LateFiles) × (is_some files ≡ is_some options.now.log) × Drove P.fits_map P.slot_count (F.post make) options.now pace files result lines.old lines.new (W.contents output.old) (W.contents output.new) }
{
    let Some(log) = options.log else {
        let mut none: Option<KeptFiles<FileJournal<'a, T>>> = None;
        return drive_over(alloc, lines, output, options, pace, &mut none, make);
    };
    match names_beside(alloc, log) {
        Ok((site, arrivals)) => {
            let mut files = Some(kept_files(rt, log, site.as_str(), arrivals.as_str()));
            drive_over(alloc, lines, output, options, pace, &mut files, make)
        }
        Err(_) => Err(DriveTrouble::Plain(Trouble::NoMemory)),
    }
}

/// Whether a text was shown.
fn show<W: Write, X: Display>(writer: &mut W, text: &X) -> bool {
    write!(writer, "{text}").is_ok() && writer.flush().is_ok()
}

/// Shows the text of words that give no options where it belongs, and tells how the program ends.
fn decline<W: Write, E: Write, X: Display>(
    output: &mut W,
    errors: &mut E,
    refusal: Refusal,
    text: &X,
) -> Result<Status, Trouble>
    ensures told { (is_shown : Bool) × (result ≡ ended_by refusal is_shown) }
    ensures output { refusal ≢ Refusal.Asked → Keeps (W.contents output.old) (W.contents output.new) }
{
    let is_shown = match refusal {
        Refusal::Asked => show(output, text),
        Refusal::Mistake => show(errors, text),
        Refusal::NoMemory => false,
    };
    ended(refusal, is_shown)
}

/// The status that tells the outcome. A trouble is told by its text on standard error, as far as that can be written.
pub fn end<E: Write>(errors: &mut E, came: Result<Status, Trouble>) -> Status
    ensures { Ends came result (E.contents errors.old) (E.contents errors.new) }
{
    match came {
        Ok(status) => status,
        Err(trouble) => {
            let _shown = write_text(errors, trouble.text().as_slice());
            trouble.status()
        }
    }
}

/// Tells this report of open orders, if there is something to tell, as far as standard error takes it.
fn tell_open<E: Write>(errors: &mut E, report: &[u8])
    ensures { TellsOpen report.now (E.contents errors.old) (E.contents errors.new) }
{
    if report.is_empty() {
        return;
    }
    let _shown = write_text(errors, report);
}

/// The status that tells the outcome. What is to be told of open orders, or a trouble, is told by lines on standard error, as far as that
/// can be written.
fn end_open<E: Write>(errors: &mut E, came: Result<Status, Trouble>, report: &[u8]) -> Status
    ensures { EndsOpen came report.now result (E.contents errors.old) (E.contents errors.new) }
{
    match came {
        Ok(status) => {
            tell_open(errors, report);
            status
        }
        Err(trouble) => end(errors, Err(trouble)),
    }
}

/// The status that tells why a run was not begun. A line on standard error tells it too, where that may be written.
fn bar_out<E: Write>(errors: &mut E, bar: Bar) -> Status
    ensures { Ends (Err bar.trouble) result (E.contents errors.old) (E.contents errors.new) }
{
    if bar.is_told {
        end(errors, Err(bar.trouble))
    } else {
        bar.trouble.status()
    }
}

/// Does what the words ask for, over this input: the first word is the program's name. `make` makes one planner of its parts, and
/// fails only when out of memory. Returns the exit status; a line on standard error says what stopped it, and where that is the front of
/// a log, one before it says why.
/// All files and pipes lie where `files` finds them: it is the process's own, since of what is handed to threads
/// nothing may rest on a bound that is assumed of the caller's thread alone.
#[tactic(auto, using(crate::proofs::Whole::in_range))]
pub fn run<
    'a,
    T: Threads + Wait + Clock + Sync,
    A: AsStr,
    R: Read,
    W: Write,
    E: Write,
    P: Planner,
    F: Fn(PlannerParts) -> Result<P, AllocError>,
>(
    rt: &T,
    files: &'a HostRuntime,
    alloc: Global,
    words: &'a [A],
    lines: &mut Lines<R>,
    output: &mut W,
    errors: &mut E,
    make: F,
) -> Status
    requires callable { F.IsAlwaysCallable make }
    requires makes { MakesPlanners P.fits_map P.slot_count (F.post make) }
    ensures { Comes P.fits_map P.slot_count (F.post make) (Attended P.fits_map P.slot_count (F.post make) ⟦<Inlet<'a, HostRuntime> as Read>⟧.remaining ⟦<BufWriter<Outlet> as Write>⟧.contents) (map A.text words.now) result lines.old lines.new (W.contents output.old) (W.contents output.new) (E.contents errors.old) (E.contents errors.new) }
{
    match options(alloc, words) {
        Ok(options) => match let_begin(files, alloc, &options) {
            Ok(()) => match late(&options) {
                Some((replay, pace)) => {
                    let came = drive_by_name(files, alloc, lines, output, &replay, pace, make);
                    end_drive(errors, came)
                }
                None => match standing(&options) {
                    Some(state) => {
                        let came = stand_by_name(files, alloc, lines, output, &state);
                        end_stand(errors, came)
                    }
                    None => {
                        let mut report = Vec::new(alloc);
                        let came = obey_by_name(
                            rt,
                            files,
                            alloc,
                            lines,
                            output,
                            &options,
                            &mut report,
                            make,
                        );
                        end_open(errors, came, report.as_slice())
                    }
                },
            },
            Err(bar) => bar_out(errors, bar),
        },
        Err(error) => {
            let came = decline(output, errors, refusal_of(&error), &error);
            end(errors, came)
        }
    }
}
