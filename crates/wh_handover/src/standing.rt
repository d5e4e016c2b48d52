//! The front of a log that goes on as the vehicles of another really stand.
#![tactic(auto)]

ghost use Rattle.std.specs.Prelude.{◌≡◌, ◌≤◌, None, IfErr, IfOk, OnOk, length};
ghost use Rattle.wh_resume.specs.Resuming.{TellsBook};
ghost use Rattle.wh_handover.specs.Handing.{IsWhyNone};
ghost use Rattle.wh_handover.specs.Standing.{HoldsSound, IsStoppedFront, IsStoppedText, IsUnsound, IsWhyNotStopped};

use crate::after::rules_over;
use crate::front::{HandoverFault, front_of};
use crate::stopped::stop_front;
use std::alloc::Global;
use wh_front::{Front, front_text};
use wh_grid::Cell;
use wh_log::NoMemory;
use wh_restore::{RestoreFault, restore};
use wh_resume::{Resumed, Setting};

/// The front of the state after all entries of a log, whose text this is and which tells this, as its vehicles stand at these places and
/// have reached these steps.
pub fn stopped_front(
    alloc: Global,
    text: &[u8],
    resumed: &Resumed,
    places: &[Cell],
    steps: &[u64],
) -> Result<Front, HandoverFault>
    requires tells { TellsBook resumed.now.book.site text.now resumed.now resumed.now.preface }
    requires some { 1 ≤ length resumed.now.book.site.layout.agents }
    requires each { length places.now ≡ length resumed.now.book.state.paths }
    ensures ok { IfOk result (IsStoppedFront resumed.now.book.site text.now places.now steps.now) }
    ensures fault { IfErr result (IsWhyNone resumed.now.book.site text.now None) }
{
    let _history = resumed.book.history();
    let whole = match front_of(alloc, text, resumed, None) {
        Ok(whole) => whole,
        Err(fault) => return Err(fault),
    };
    match stop_front(alloc, whole, resumed.book.first_clock(), places, steps) {
        Ok(front) => Ok(front),
        Err(_) => Err(HandoverFault::NoMemory),
    }
}

/// Judges whether a run over the setting may begin with the state that the front tells of which this is the text.
fn judge(alloc: Global, setting: &Setting, text: &[u8]) -> Result<(), HandoverFault>
    requires some { 1 ≤ length setting.now.layout.agents }
    ensures ok { OnOk result (HoldsSound setting.now text.now) }
    ensures fault { IfErr result (IsUnsound setting.now text.now) }
{
    let _agents = setting.agents();
    let rules = rules_over(setting);
    match restore(alloc, setting.grid(), setting.points(), rules, text) {
        Ok(restored) => {
            drop(restored);
            Ok(())
        }
        Err(RestoreFault::Line { line, reason }) => Err(HandoverFault::Flawed { line, reason }),
        Err(RestoreFault::NoMemory) => Err(HandoverFault::NoMemory),
    }
}

/// The text of the front of the state after all entries of a log, whose text this is and which tells this, as its vehicles stand at these
/// places and have reached these steps, which count from the clock with which the log began. Of each task those visits stand, one after
/// another, that its vehicle has made; without one it is open again. The text is judged: a run may go on from that state.
///
/// Errors: as of `front_after`; `Flawed` too where no run may go on from there; `NoMemory`.
pub fn stopped_text(
    alloc: Global,
    text: &[u8],
    resumed: &Resumed,
    places: &[Cell],
    steps: &[u64],
) -> Result<Vec<u8>, HandoverFault>
    requires tells { TellsBook resumed.now.book.site text.now resumed.now resumed.now.preface }
    requires some { 1 ≤ length resumed.now.book.site.layout.agents }
    requires each { length places.now ≡ length resumed.now.book.state.paths }
    ensures ok { IfOk result (λ told. IsStoppedText resumed.now.book.site text.now places.now steps.now told.items) }
    ensures fault { IfErr result (IsWhyNotStopped resumed.now.book.site text.now places.now steps.now) }
{
    let front = match stopped_front(alloc, text, resumed, places, steps) {
        Ok(front) => front,
        Err(fault) => return Err(fault),
    };
    let told = match front_text(alloc, &front) {
        Ok(told) => told,
        Err(NoMemory) => {
            drop(front);
            return Err(HandoverFault::NoMemory);
        }
    };
    drop(front);
    match judge(alloc, resumed.book.setting(), told.as_slice()) {
        Ok(()) => Ok(told),
        Err(fault) => {
            drop(told);
            Err(fault)
        }
    }
}
