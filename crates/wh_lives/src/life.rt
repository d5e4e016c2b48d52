//! One life of a run over its log file.
#![tactic(auto)]

ghost use Rattle.std.specs.Prelude.{◌≡◌, ◌≤◌, IfOk, IfErr, All, length};
ghost use Rattle.wh_log.specs.Logs.{IsSlots};
ghost use Rattle.wh_journal.specs.Journals.{log_asker};
ghost use Rattle.wh_lives.specs.Lives.{Deeds, Lived};
ghost use Rattle.wh_lives.specs.Twice.{IsEquipped, ended};

use std::alloc::Global;
use std::io::{Read, Write};
use wh_continue::{
    KeepFault, LogFile, RunFault, Setting, StartFault, Warehouse, find_start, run_on,
};
use wh_lines::Lines;
use wh_log::Form;
use wh_planner::Planner;

/// What a life is given: the site, how many slots each planner has at an opening, a planner for each agent, and spare ones.
#[derive(Drop)]
pub struct Equipment<P> {
    pub setting: Setting,
    pub slots: Vec<u32>,
    pub planners: Vec<P>,
    pub spares: Vec<P>,
}

/// Why a life did not come to the end of its script.
#[derive(Clone, Copy, Debug, PartialEq, Eq)]
pub enum LifeFault {
    /// No run starts over the log file.
    Unstarted(StartFault),
    /// The log was not begun.
    Unbegun(KeepFault),
    /// The run was not brought to its end.
    Stopped(RunFault),
}

/// How a life ended whose run was not brought to its end.
fn ended(fault: RunFault) -> LifeFault
    ensures { result ≡ ended fault }
{
    match fault {
        RunFault::Begin(fault) => LifeFault::Unbegun(fault),
        fault => LifeFault::Stopped(fault),
    }
}

/// One life: finds out from the log file what the run starts from, and serves the script over it.
pub fn live<R: Read, W: Write, L: LogFile, P: Planner>(
    alloc: Global,
    form: Form,
    equipment: Equipment<P>,
    file: &mut L,
    lines: &mut Lines<R>,
    writer: &mut W,
) -> Result<(), LifeFault>
    requires equipped { IsEquipped equipment.setting equipment.slots.items }
    ensures { (deeds : Deeds) × Lived P.fits_map P.slot_count (log_asker form) equipment.setting equipment.slots.items equipment.spares.items result lines.old lines.new (W.contents writer.old) (W.contents writer.new) (L.contents file.old) (L.synced file.new) (L.contents file.new) deeds }
{
    let Equipment {
        setting,
        slots,
        planners,
        mut spares,
    } = equipment;
    let start = match find_start(alloc, setting, slots, file) {
        Ok(start) => start,
        Err(fault) => return Err(LifeFault::Unstarted(fault)),
    };
    let _history = start.book.history();
    let ran = run_on(
        lines,
        alloc,
        form,
        None,
        false,
        file,
        writer,
        start,
        planners,
        &mut spares,
    );
    drop(spares);
    match ran {
        Ok((warehouse, preface)) => {
            drop(warehouse);
            drop(preface);
            Ok(())
        }
        Err(fault) => Err(ended(fault)),
    }
}
