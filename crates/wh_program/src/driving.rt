//! A replay with vehicles, each at its own pace, over the files that keep it or over none, and what is told at its end.

ghost use Rattle.std.specs.Prelude.{◌≡◌, ◌≤◌, MatchOption, None, Some, option_map};
ghost use Rattle.wh_lines.specs.Output.{WritesFront};
ghost use Rattle.wh_options.specs.declared.chosen.Options.TheVariants.{Replay};
ghost use Rattle.wh_service.specs.Fleets.{IsOfFleet, MakesPlanners};
ghost use Rattle.wh_service.specs.Late.{way_text};
ghost use Rattle.wh_program.specs.Programs.{Drove, EndsDrive, pace_of};

use crate::running::KeptFiles;
use arrayvec::ArrayVec;
use std::alloc::{AllocError, Global};
use std::io::{Read, Write};
use wh_edge::Status;
use wh_event::{put, put_number};
use wh_lines::Lines;
use wh_options::{Options, ReplayOptions, VehicleOptions};
use wh_planner::Planner;
use wh_service::{DriveTrouble, LogFile, PlannerParts, serve_convoy, serve_late, write_text};

/// The options of a replay with vehicles, and how these carry out the plan.
pub(crate) fn late<'a>(options: &Options<'a>) -> Option<(ReplayOptions<'a>, VehicleOptions)>
    ensures { MatchOption result (pace_of options.now ≡ None) (λ r. (options.now ≡ Replay r.0) × (r.0.vehicles ≡ Some r.1)) }
{
    match options {
        Options::Replay(replay) => match replay.vehicles {
            Some(pace) => Some((*replay, pace)),
            None => None,
        },
        Options::Check(_) | Options::Verify(_) | Options::Live(_) => None,
        Options::Serve(_) | Options::State(_) => None,
    }
}

/// Tells how many vehicles are on their way, if some are, as far as standard error takes it.
fn tell_way<E: Write>(errors: &mut E, left: u32)
    ensures { WritesFront (E.contents errors.old) (E.contents errors.new) (way_text left) }
{
    if left == 0 {
        return;
    }
    let mut line = ArrayVec::new();
    put_number(&mut line, b"vehicles on their way: ", u64::from(left));
    put(&mut line, b"\n");
    let _shown = write_text(errors, line.as_slice());
}

/// Replays with vehicles over these files, or over none.
pub(crate) fn drive_over<
    R: Read,
    W: Write,
    L: LogFile,
    P: Planner,
    F: Fn(PlannerParts) -> Result<P, AllocError>,
>(
    alloc: Global,
    lines: &mut Lines<R>,
    output: &mut W,
    options: &ReplayOptions<'_>,
    pace: VehicleOptions,
    files: &mut Option<KeptFiles<L>>,
    make: F,
) -> Result<u32, DriveTrouble>
    requires range { IsOfFleet options.now.fleet }
    requires ahead { 1 ≤ pace.ahead }
    requires callable { F.IsAlwaysCallable make }
    requires makes { MakesPlanners P.fits_map P.slot_count (F.post make) }
    ensures { Drove P.fits_map P.slot_count (F.post make) options.now pace (option_map (λ f. record { log = L.contents f.log; site = L.contents f.site; arrivals = L.contents f.arrivals }) files.old) result lines.old lines.new (W.contents output.old) (W.contents output.new) }
{
    match files {
        None => match serve_late(alloc, lines, output, options, pace, make) {
            Ok(left) => Ok(left),
            Err(trouble) => Err(DriveTrouble::Plain(trouble)),
        },
        Some(files) => {
            let site = &mut files.site;
            let arrivals = &mut files.arrivals;
            serve_convoy(
                alloc,
                lines,
                output,
                options,
                pace,
                &mut files.log,
                site,
                arrivals,
                make,
            )
        }
    }
}

/// The status that tells what a replay with vehicles came to. How many vehicles are on their way at the end, if some are, or a
/// trouble, is told by a line on standard error, as far as that can be written.
pub(crate) fn end_drive<E: Write>(errors: &mut E, came: Result<u32, DriveTrouble>) -> Status
    ensures { EndsDrive came result (E.contents errors.old) (E.contents errors.new) }
{
    match came {
        Ok(left) => {
            tell_way(errors, left);
            Status::Done
        }
        Err(trouble) => {
            let _shown = write_text(errors, trouble.text().as_slice());
            trouble.status()
        }
    }
}
