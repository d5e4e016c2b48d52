//! What `state` does where the vehicles' stand is asked for.

ghost use Rattle.std.specs.Prelude.{◌≡◌, ◌≤◌, IfErr, IfOk, length};
ghost use Rattle.wh_resume.specs.Resuming.{TellsBook};
ghost use Rattle.wh_service.specs.Stands.{ArePlaces, AreSteps, IsTextAsLeft, IsWhyNoStand, IsWhyNotByFiles, IsWhyNotLeft, IsWhyUnstood, StandsByFiles, StatesStand, TellsStand};

use crate::convoys::DriveTrouble;
use crate::settings::read_setting;
use crate::stating::{text_of, trouble_of};
use crate::writing::write_text;
use std::alloc::{AllocError, Global};
use std::io::{Read, Write};
use wh_continue::{LogFile, Setting};
use wh_convoy::{StoodFault, find_stand};
use wh_edge::{Status, Trouble};
use wh_grid::Cell;
use wh_handover::{Resumed, recovered, stopped_text};
use wh_lines::Lines;
use wh_options::StateOptions;
use wh_order::VisitOrder;

/// Where the vehicles of an order stand.
fn places_of(alloc: Global, order: &VisitOrder) -> Result<Vec<Cell>, AllocError>
    ensures { IfOk result (λ places. ArePlaces order.now places.items) }
{
    let mut places = Vec::new(alloc);
    for agent in 0..order.agents() {
        places.push(order.place(agent))?;
    }
    Ok(places)
}

/// The steps that they have reached.
fn steps_of(alloc: Global, order: &VisitOrder) -> Result<Vec<u64>, AllocError>
    ensures { IfOk result (λ steps. AreSteps order.now steps.items) }
{
    let mut steps = Vec::new(alloc);
    for agent in 0..order.agents() {
        steps.push(order.vehicle(agent).reached)?;
    }
    Ok(steps)
}

/// The text of the front of the state after all entries of a log, as vehicles of this order have left it.
fn text_as_left(
    alloc: Global,
    log: &[u8],
    resumed: &Resumed,
    order: &VisitOrder,
) -> Result<Vec<u8>, Trouble>
    requires tells { TellsBook resumed.now.book.site log.now resumed.now resumed.now.preface }
    requires some { 1 ≤ length resumed.now.book.site.layout.agents }
    requires each { length order.now.vehicles ≡ length resumed.now.book.state.paths }
    ensures ok { IfOk result (λ told. IsTextAsLeft resumed.now.book.site log.now order.now told.items) }
    ensures fault { IfErr result (IsWhyNotLeft resumed.now.book.site log.now order.now) }
{
    let Ok(places) = places_of(alloc, order) else {
        return Err(Trouble::NoMemory);
    };
    let Ok(steps) = steps_of(alloc, order) else {
        drop(places);
        return Err(Trouble::NoMemory);
    };
    let told = stopped_text(alloc, log, resumed, places.as_slice(), steps.as_slice());
    drop(places);
    drop(steps);
    match told {
        Ok(told) => Ok(told),
        Err(fault) => Err(trouble_of(fault)),
    }
}

/// The same, as the vehicles stand by the text of the file of arrivals.
fn text_standing(
    alloc: Global,
    log: &[u8],
    resumed: &Resumed,
    reports: &[u8],
) -> Result<Vec<u8>, DriveTrouble>
    requires tells { TellsBook resumed.now.book.site log.now resumed.now resumed.now.preface }
    requires some { 1 ≤ length resumed.now.book.site.layout.agents }
    ensures ok { IfOk result (λ told. TellsStand resumed.now log.now reports.now told.items) }
    ensures fault { IfErr result (IsWhyNoStand resumed.now log.now reports.now) }
{
    match find_stand(alloc, &resumed.book, 1, &resumed.preface, reports) {
        Ok(stood) => {
            let told = text_as_left(alloc, log, resumed, &stood.order);
            drop(stood);
            match told {
                Ok(told) => Ok(told),
                Err(trouble) => Err(DriveTrouble::Plain(trouble)),
            }
        }
        Err(StoodFault::BadLine(line)) => Err(DriveTrouble::Arrivals { line }),
        Err(StoodFault::Astray(agent)) => Err(DriveTrouble::Astray { agent }),
        Err(StoodFault::NoMemory) => Err(DriveTrouble::Plain(Trouble::NoMemory)),
    }
}

/// The same of a log of a run over the setting and its file of arrivals, which stay as they are.
fn text_by_files<L: LogFile>(
    alloc: Global,
    setting: Setting,
    file: &mut L,
    arrivals: &mut L,
) -> Result<Vec<u8>, DriveTrouble>
    requires some { 1 ≤ length setting.layout.agents }
    ensures ok { IfOk result (λ told. StandsByFiles setting (L.contents file.old) (L.contents arrivals.old) told.items) }
    ensures fault { IfErr result (IsWhyNotByFiles setting (L.contents file.old) (L.contents arrivals.old)) }
    ensures same { L.contents file.new ≡ L.contents file.old }
    ensures same_arrivals { L.contents arrivals.new ≡ L.contents arrivals.old }
{
    if !setting.nofollow() {
        drop(setting);
        return Err(DriveTrouble::Plain(Trouble::MayFollow));
    }
    let log = match text_of(alloc, file) {
        Ok(log) => log,
        Err(trouble) => {
            drop(setting);
            return Err(DriveTrouble::Plain(trouble));
        }
    };
    let resumed = match recovered(alloc, setting, log.as_slice()) {
        Ok(resumed) => resumed,
        Err(fault) => {
            drop(log);
            return Err(DriveTrouble::Plain(trouble_of(fault)));
        }
    };
    let reports = match text_of(alloc, arrivals) {
        Ok(reports) => reports,
        Err(trouble) => {
            drop(resumed);
            drop(log);
            return Err(DriveTrouble::Plain(trouble));
        }
    };
    let told = text_standing(alloc, log.as_slice(), &resumed, reports.as_slice());
    drop(reports);
    drop(resumed);
    drop(log);
    told
}

/// Reads a site whose rule is that nobody follows, and writes the front of a log that goes on from the one in this file, a run over the site
/// by the rule of the options, as its vehicles stand by the file of arrivals: in the state after the last entry that stands whole each agent
/// is where its vehicle stands, and of each task those visits stand, one after another, that its vehicle has made. The files are not
/// changed, and none is made.
/// Errors are reported in this order: the site, its rule, a log that is not there, is empty or cannot be read, what it tells, the file of
/// arrivals, the front, lack of memory, the writer. Before the writer fails nothing is written.
pub fn state_standing<R: Read, W: Write, L: LogFile>(
    alloc: Global,
    lines: &mut Lines<R>,
    output: &mut W,
    options: &StateOptions<'_>,
    file: &mut L,
    arrivals: &mut L,
) -> Result<Status, DriveTrouble>
    ensures ok { IfOk result (StatesStand options.now lines.old lines.new (W.contents output.old) (W.contents output.new) (L.contents file.old) (L.contents arrivals.old)) }
    ensures fault { IfErr result (λ told. IsWhyUnstood options.now told lines.old lines.new (W.contents output.old) (W.contents output.new) (L.contents file.old) (L.contents arrivals.old)) }
    ensures same { L.contents file.new ≡ L.contents file.old }
    ensures same_arrivals { L.contents arrivals.new ≡ L.contents arrivals.old }
{
    let setting = match read_setting(lines, alloc, options.homes) {
        Ok(setting) => setting,
        Err(trouble) => return Err(DriveTrouble::Plain(trouble)),
    };
    let told = match text_by_files(alloc, setting, file, arrivals) {
        Ok(told) => told,
        Err(trouble) => return Err(trouble),
    };
    match write_text(output, told.as_slice()) {
        Ok(()) => Ok(Status::Done),
        Err(trouble) => Err(DriveTrouble::Plain(trouble)),
    }
}
