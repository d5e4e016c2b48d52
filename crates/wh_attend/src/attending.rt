//! What `serve` does.

ghost use Rattle.std.specs.Prelude.{◌≡◌, IfErr, IfOk, option_map, true};
ghost use Rattle.wh_journal.specs.Surviving.{HoldsLog, StaysLog};
ghost use Rattle.wh_continue.specs.Running.{IsStartOf};
ghost use Rattle.wh_service.specs.Fleets.{IsOfFleet};
ghost use Rattle.wh_attend.specs.Guests.{AreNamed};
ghost use Rattle.wh_attend.specs.Attends.{Attends, IsWhyUnattended, IsWhyUnbegun};

use crate::ending::{Unattended, end_run};
use crate::ready::{Ready, prepare};
use crate::serving::serve_all;
use std::alloc::{AllocError, Global};
use std::io::{Read, Write};
use std::sync::Wait;
use std::thread::Threads;
use std::time::Clock;
use wh_continue::{LogFile, Start, Warehouse, begin_log, open_both};
use wh_edge::Trouble;
use wh_host::Screen;
use wh_lines::Lines;
use wh_options::ServeOptions;
use wh_pipes::Hall;
use wh_planner::Planner;
use wh_serve::Doors;
use wh_service::{PlannerParts, keep_trouble};

/// Makes the file the log of the run so far, except for its end line, and the warehouse that goes on from there. Planners are made for the
/// very book, so that none is refused for anything but lack of memory.
fn begin<L: LogFile, P: Planner>(
    alloc: Global,
    file: &mut L,
    start: Start,
    planners: Vec<P>,
) -> Result<Warehouse<P>, Trouble>
    requires starts { IsStartOf (L.contents file.old) start }
    ensures book { IfOk result (λ w. w.book ≡ start.book) }
    ensures stays { IfOk result (λ _. StaysLog (L.contents file.old) (L.contents file.new) start.book) }
    ensures holds { IfOk result (λ _. HoldsLog (L.contents file.new) start.book) }
    ensures synced { IfOk result (λ _. L.synced file.new ≡ L.contents file.new) }
    ensures fault { IfErr result (λ told. IsWhyUnbegun told start (L.contents file.old) (L.contents file.new)) }
{
    match begin_log(alloc, file, &start) {
        Ok(()) => {}
        Err(fault) => {
            drop(start);
            drop(planners);
            return Err(keep_trouble(fault));
        }
    }
    let Start { book, .. } = start;
    match Warehouse::resume(alloc, book, planners) {
        Ok(warehouse) => Ok(warehouse),
        Err(_) => Err(Trouble::NoMemory),
    }
}

/// Reads a site, finds out from the log file and the file beside it what the run starts from, makes one planner for each agent, with the
/// slots that its state tells, and those that stand by for clients, begins the log where it was not begun, keeps the site's text beside it, and serves running clients, who
/// connect at the doors, over the log; a closed run serves nobody. Each has the rights that its word gave it, and may have
/// as many more entries as the options name, or else its share of the journal's; a client that was not named may do nothing.
/// Where the options name a worker, it takes turns for all agents and the clock, until the clients are through. Boards of the run
/// are shown on the screen meanwhile, if there is one, which comes back once the clients were served. When all are through, since the
/// warehouse is closed, the file is given the line that ends the log; where the service was stopped a next start goes on from the file. What is in the log survives a kill, and no reply is told before its entry was synced. `make` makes one planner of its parts, and fails only when out
/// of memory. Errors are reported in this order: the site, what follows it, the file beside the log, the log, the bank and the
/// planners, a client without a way in, the log's first lines, what is written beside the log, the log's beginning, the first board, the run, the end of the log,
/// the last board. The log's file is returned
/// if all went well, and given back with the trouble where the run did not have it yet: as it was, unless the log's beginning failed.
pub fn attend<
    R: Read,
    L: LogFile + Send + Drop,
    B: LogFile,
    P: Planner,
    V: Screen + Send + Drop,
    F: Fn(PlannerParts) -> Result<P, AllocError>,
    T: Threads + Wait + Clock + Sync,
    I: Read + Send + Drop,
    O: Write + Send + Drop,
    D: Doors<I, O> + Hall,
>(
    rt: &T,
    alloc: Global,
    lines: &mut Lines<R>,
    options: &ServeOptions<'_>,
    mut file: L,
    beside: &mut B,
    screen: &mut Option<V>,
    doors: &D,
    make: F,
) -> Result<L, Unattended<L>>
    requires range { IsOfFleet options.now.fleet }
    requires named { AreNamed options.now.clients.items }
    requires callable { F.IsAlwaysCallable make }
    ensures ok { IfOk result (λ kept. Attends P.fits_map P.slot_count (λ x. I.remaining x) (λ x. O.contents x) (F.post make) options.now lines.old lines.new (L.contents file) (L.synced kept) (L.contents kept)
        (record { before = B.contents beside.old; after = B.contents beside.new; synced = B.synced beside.new; failed = B.failed beside.new }) (option_map V.shown screen.old) (option_map V.shown screen.new)) }
    ensures asked { IfOk result (λ _. D.all_have doors.now ≡ true) }
    ensures fault { IfErr result (λ e. IsWhyUnattended P.fits_map P.slot_count (λ x. I.remaining x) (λ x. O.contents x) (F.post make) options.now e.trouble lines.old lines.new (L.contents file) (option_map L.contents e.file)
        (record { before = B.contents beside.old; after = B.contents beside.new; synced = B.synced beside.new; failed = B.failed beside.new }) (option_map V.shown screen.old) (option_map V.shown screen.new)) }
{
    let ready = match prepare(alloc, lines, options, &mut file, beside, doors, &make) {
        Ok(ready) => ready,
        Err(trouble) => {
            // as it was: nothing was begun
            let file = Some(file);
            return Err(Unattended { trouble, file });
        }
    };
    let Ready {
        text,
        found,
        start,
        planners,
        clients,
    } = ready;
    let begun = match open_both(alloc, &mut file, beside, text.as_slice(), found, start) {
        Ok(begun) => begun,
        Err(fault) => {
            drop(clients);
            drop(planners);
            drop(text);
            let trouble = keep_trouble(fault);
            let file = Some(file);
            return Err(Unattended { trouble, file });
        }
    };
    drop(text);
    let warehouse = match begin(alloc, &mut file, begun, planners) {
        Ok(warehouse) => warehouse,
        Err(trouble) => {
            drop(clients);
            let file = Some(file);
            return Err(Unattended { trouble, file });
        }
    };
    if warehouse.closed() {
        // nobody could be told anything more than that
        doors.end();
    }
    match serve_all(rt, alloc, options, warehouse, clients, file, screen, doors) {
        Ok(ran) => end_run(alloc, screen, ran),
        Err(trouble) => {
            let file = None;
            Err(Unattended { trouble, file })
        }
    }
}
