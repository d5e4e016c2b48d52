//! A run that is ready: its site was read, and nothing is written yet.

ghost use Rattle.std.specs.Prelude.{◌≡◌, ◌≤◌, ◌⊎◌, true, IfErr, IfOk, length};
ghost use Rattle.wh_points.specs.Points.{Site as Instance};
ghost use Rattle.wh_continue.specs.Running.{IsStartOf};
ghost use Rattle.wh_edge.specs.Site.{SiteFault, SiteKept};
ghost use Rattle.wh_service.specs.Fleets.{IsOfFleet};
ghost use Rattle.wh_attend.specs.Guests.{AreNamed};
ghost use Rattle.wh_attend.specs.Attends.{IsFollowed, IsReady, IsWhyUnready};

use crate::clients::{Staff, make_staff};
use std::alloc::{AllocError, Global};
use std::io::Read;
use std::sync::Arc;
use wh_continue::{Beside, LogFile, Start};
use wh_edge::Trouble;
use wh_lines::Lines;
use wh_options::ServeOptions;
use wh_pipes::Hall;
use wh_planner::Planner;
use wh_serve::Client;
use wh_service::{KeptSetting, PlannerParts, read_kept_setting, start_aside};

/// What a run is made of that is ready.
#[derive(Drop)]
pub struct Ready<P> {
    /// The text that keeps its site.
    pub text: Vec<u8>,
    /// How much of that text stands beside the log.
    pub found: Beside,
    /// What it starts from.
    pub start: Start,
    /// One planner for each agent.
    pub planners: Vec<P>,
    /// The clients.
    pub clients: Vec<Client<P>>,
}

/// Reads a site with which the input ends.
fn read_alone<R: Read>(
    lines: &mut Lines<R>,
    alloc: Global,
    homes: bool,
) -> Result<KeptSetting, Trouble>
    ensures ok { IfOk result (λ kept. SiteKept homes lines.old lines.new kept.setting kept.text.items) }
    ensures alone { IfOk result (λ _. lines.new.ended ≡ true) }
    ensures agents { IfOk result (λ kept. 1 ≤ length kept.setting.layout.agents) }
    ensures fault { IfErr result (λ told. SiteFault homes told lines.old lines.new ⊎ ((told ≡ Trouble.Scripted) × IsFollowed homes lines.old lines.new)) }
{
    let kept = match read_kept_setting(lines, alloc, homes) {
        Ok(kept) => kept,
        Err(trouble) => return Err(trouble),
    };
    if lines.ended() {
        Ok(kept)
    } else {
        drop(kept);
        Err(Trouble::Scripted)
    }
}

/// Reads a site, finds out from the log file and the file beside it what the run starts from, makes the planners of its agents and
/// clients, and asks the hall for a client that has no way in. Nothing is written.
pub(crate) fn prepare<
    R: Read,
    L: LogFile,
    B: LogFile,
    P: Planner,
    F: Fn(PlannerParts) -> Result<P, AllocError>,
    D: Hall,
>(
    alloc: Global,
    lines: &mut Lines<R>,
    options: &ServeOptions<'_>,
    file: &mut L,
    beside: &mut B,
    hall: &D,
    make: &F,
) -> Result<Ready<P>, Trouble>
    requires range { IsOfFleet options.now.fleet }
    requires named { AreNamed options.now.clients.items }
    requires callable { F.IsAlwaysCallable make.now }
    ensures ok { IfOk result (λ run. (site : Instance) × IsReady (F.post make.now) options.now lines.old lines.new (L.contents file.old) (B.contents beside.old) site run) }
    ensures asked { IfOk result (λ _. D.all_have hall.now ≡ true) }
    ensures starts { IfOk result (λ run. IsStartOf (L.contents file.new) run.start) }
    ensures fault { IfErr result (λ told. IsWhyUnready (F.post make.now) options.now told lines.old lines.new (L.contents file.old) (B.contents beside.old)) }
    ensures same { L.contents file.new ≡ L.contents file.old }
    ensures same_beside { B.contents beside.new ≡ B.contents beside.old }
{
    let fleet = &options.fleet;
    let KeptSetting { setting, text } = match read_alone(lines, alloc, fleet.homes) {
        Ok(kept) => kept,
        Err(trouble) => return Err(trouble),
    };
    let bytes = text.as_slice();
    let Ok(grid) = Arc::try_clone(setting.shared_grid()) else {
        drop(text);
        drop(setting);
        return Err(Trouble::NoMemory);
    };
    let anew = options.anew;
    let (start, found) = match start_aside(alloc, file, beside, bytes, setting, fleet, None, anew) {
        Ok(started) => started,
        Err(trouble) => {
            drop(text);
            drop(grid);
            return Err(trouble);
        }
    };
    let Staff { planners, clients } = match make_staff(alloc, options, &grid, &start, make) {
        Ok(staff) => staff,
        Err(trouble) => {
            drop(start);
            drop(text);
            drop(grid);
            return Err(trouble);
        }
    };
    drop(grid);
    let without = match hall.first_without(alloc) {
        Ok(without) => without,
        Err(AllocError) => {
            drop(clients);
            drop(planners);
            drop(start);
            drop(text);
            return Err(Trouble::NoMemory);
        }
    };
    match without {
        Some(client) => {
            drop(clients);
            drop(planners);
            drop(start);
            drop(text);
            Err(Trouble::NoPipes { client })
        }
        None => Ok(Ready {
            text,
            found,
            start,
            planners,
            clients,
        }),
    }
}
