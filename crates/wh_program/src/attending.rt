//! `serve`, over the files and the doors that the options name.

ghost use Rattle.std.specs.Prelude.{ℕ, List, Option, IfOk, map, option_map};
ghost use Rattle.wh_service.specs.Fleets.{IsOfFleet};
ghost use Rattle.wh_attend.specs.Guests.{AreNamed};
ghost use Rattle.wh_program.specs.Attending.{AreFolders, AttendsOver, Attended, IsFolderAt};

use crate::running::{name_beside, screen_over};
use std::alloc::{AllocError, Global};
use std::io::{BufWriter, Read, Write};
use std::path::Path;
use std::sync::Wait;
use std::thread::Threads;
use std::time::Clock;
use wh_attend::{Doors, FileJournal, Hall, LogFile, Unattended, attend, named_by};
use wh_display::Screen;
use wh_edge::{Status, Trouble};
use wh_lines::Lines;
use wh_options::{ClientOptions, ServeOptions};
use wh_pipes::{Inlet, Outlet, Pipes};
use wh_planner::Planner;
use wh_service::PlannerParts;

/// How many numbers clients may have: 0 to 61.
const NUMBERS: u32 = 62;

/// The folder of the client that was named by this number, if one was.
fn folder_of<'a>(clients: &[ClientOptions<'a>], number: u32) -> Option<&'a str>
    ensures { IsFolderAt clients.now number (option_map (λ folder. folder.now) result) }
{
    match named_by(clients, number) {
        Some(named) => Some(named.folder),
        None => None,
    }
}

/// The folders of the clients, each at the place of its number.
fn folders_of<'a>(
    alloc: Global,
    clients: &[ClientOptions<'a>],
) -> Result<Vec<Option<&'a str>>, AllocError>
    ensures { IfOk result (λ folders. AreFolders clients.now (map (λ folder. option_map (λ s. s.now) folder) folders.items)) }
{
    let mut folders = Vec::with_capacity(alloc, NUMBERS as usize)?;
    for number in 0..NUMBERS {
        folders.push(folder_of(clients, number))?;
    }
    Ok(folders)
}

/// Serves running clients, who come in at these doors, over a log file and the one beside it, and over a screen, or over none.
fn attend_over<
    T: Threads + Wait + Clock + Sync,
    L: LogFile + Send + Drop,
    B: LogFile,
    I: Read + Send + Drop,
    Q: Write + Send + Drop,
    D: Doors<I, Q> + Hall,
    V: Screen + Send + Drop,
    R: Read,
    P: Planner,
    F: Fn(PlannerParts) -> Result<P, AllocError>,
>(
    rt: &T,
    alloc: Global,
    lines: &mut Lines<R>,
    options: &ServeOptions<'_>,
    file: L,
    beside: &mut B,
    screen: &mut Option<V>,
    doors: &D,
    make: F,
) -> Result<Status, Trouble>
    requires range { IsOfFleet options.now.fleet }
    requires named { AreNamed options.now.clients.items }
    requires callable { F.IsAlwaysCallable make }
    ensures { AttendsOver P.fits_map P.slot_count (F.post make) (λ x. I.remaining x) (λ x. Q.contents x) options.now (L.contents file) (record { before = B.contents beside.old; after = B.contents beside.new; synced = B.synced beside.new; failed = B.failed beside.new }) (option_map V.shown screen.old) (option_map V.shown screen.new) result lines.old lines.new }
{
    match attend(rt, alloc, lines, options, file, beside, screen, doors, make) {
        Ok(_file) => Ok(Status::Done),
        Err(Unattended { trouble, file }) => {
            drop(file);
            Err(trouble)
        }
    }
}

/// Serves running clients, who come in at the pipes in their folders, over the log file of the options' name and the one beside it, and
/// shows boards of the run in the file that the options name, if they name one.
pub(crate) fn attend_by_name<
    'a,
    T: Threads + Wait + Clock + Sync,
    R: Read,
    P: Planner,
    F: Fn(PlannerParts) -> Result<P, AllocError>,
>(
    rt: &T,
    files: &'a HostRuntime,
    alloc: Global,
    lines: &mut Lines<R>,
    options: &ServeOptions<'a>,
    make: F,
) -> Result<Status, Trouble>
    requires range { IsOfFleet options.now.fleet }
    requires named { AreNamed options.now.clients.items }
    requires callable { F.IsAlwaysCallable make }
    ensures { (told : Option (List ℕ)) → Attended P.fits_map P.slot_count (F.post make) ⟦<Inlet<'a, HostRuntime> as Read>⟧.remaining ⟦<BufWriter<Outlet> as Write>⟧.contents options.now result lines.old lines.new told told }
{
    let Ok(site) = name_beside(alloc, options.log, ".site") else {
        return Err(Trouble::NoMemory);
    };
    let Ok(folders) = folders_of(alloc, options.clients.as_slice()) else {
        return Err(Trouble::NoMemory);
    };
    let Ok(doors) = Pipes::new(files, alloc, folders.as_slice()) else {
        return Err(Trouble::NoMemory);
    };
    let Ok(mut screen) = screen_over(files, alloc, options.board) else {
        return Err(Trouble::NoMemory);
    };
    let file = FileJournal::new(files, Path::new(options.log));
    let mut beside = FileJournal::new(files, Path::new(site.as_str()));
    attend_over(
        rt,
        alloc,
        lines,
        options,
        file,
        &mut beside,
        &mut screen,
        &doors,
        make,
    )
}
