//! What `replay` does with vehicles, each at its own pace.

ghost use Rattle.std.specs.Prelude.{◌≡◌, ◌≤◌, false, IfErr, IfOk, length};
ghost use Rattle.wh_replay.specs.Fleet.{AllFit};
ghost use Rattle.wh_service.specs.Fleets.{IsOfFleet, MakesPlanners};
ghost use Rattle.wh_service.specs.Late.{Drives, IsWhyUndriven, IsWhyUnservedLate, ServesLate, trouble_of};
ghost use Rattle.wh_service.specs.Plays.{form_of};
ghost use Rattle.wh_replay.specs.Scripts.{script_asker};

use crate::fleet::equip;
use crate::parts::PlannerParts;
use crate::program::form_of;
use crate::settings::read_setting;
use crate::tail::write_tail;
use std::alloc::{AllocError, Global};
use std::io::{Read, Write};
use wh_continue::Setting;
use wh_dispatch::{DispatchFault, Vehicles, dispatch};
use wh_edge::Trouble;
use wh_lines::Lines;
use wh_log::Form;
use wh_options::{ReplayOptions, Tail, VehicleOptions};
use wh_planner::Planner;
use wh_replay::{OpenFault, Warehouse};

/// What is told of a script that was not served to its end.
pub(crate) fn trouble_of(fault: DispatchFault) -> Trouble
    ensures { result ≡ trouble_of fault }
{
    match fault {
        DispatchFault::Broken => Trouble::Broken,
        DispatchFault::Endless => Trouble::Endless,
        DispatchFault::Unwritten => Trouble::Unwritten,
        DispatchFault::NoMemory | DispatchFault::NoRoom => Trouble::NoMemory,
    }
}

/// Opens the warehouse at clock 0 with one planner and one vehicle for each agent, serves the script, and writes what is to
/// follow the replies. How many vehicles are on their way then.
fn play_late<R: Read, W: Write, P: Planner>(
    alloc: Global,
    lines: &mut Lines<R>,
    output: &mut W,
    form: Form,
    setting: Setting,
    planners: Vec<P>,
    mut spares: Vec<P>,
    tail: Tail,
    pace: VehicleOptions,
) -> Result<u32, Trouble>
    requires count { length planners.items ≡ length setting.layout.agents }
    requires fit { AllFit P.fits_map setting.grid planners.items }
    requires ahead { 1 ≤ pace.ahead }
    ensures ok { IfOk result (λ left. Drives P.fits_map P.slot_count (script_asker form) setting planners.items spares.items tail pace
        lines.old lines.new (W.contents output.old) (W.contents output.new) left) }
    ensures fault { IfErr result (λ told. IsWhyUndriven P.fits_map P.slot_count (script_asker form) setting planners.items spares.items tail pace
        told lines.old lines.new (W.contents output.old) (W.contents output.new)) }
{
    let mut warehouse = match Warehouse::open_over(alloc, setting, planners, 0) {
        Ok(warehouse) => warehouse,
        Err(OpenFault::NoMemory) => {
            drop(spares);
            return Err(Trouble::NoMemory);
        }
        Err(OpenFault::WrongCount | OpenFault::Foreign { .. }) => unreachable!(),
    };
    let behind = u64::from(pace.behind);
    let ahead = u64::from(pace.ahead);
    let mut vehicles = match Vehicles::open(alloc, &warehouse, behind, ahead) {
        Ok(vehicles) => vehicles,
        Err(_) => {
            drop(warehouse);
            drop(spares);
            return Err(Trouble::NoMemory);
        }
    };
    match dispatch(
        lines,
        alloc,
        form,
        output,
        &mut warehouse,
        &mut spares,
        &mut vehicles,
    ) {
        Ok(()) => {}
        Err(fault) => {
            drop(vehicles);
            drop(warehouse);
            drop(spares);
            return Err(trouble_of(fault));
        }
    }
    drop(spares);
    let _history = warehouse.history();
    let written = write_tail(alloc, output, &warehouse, &None, tail);
    drop(warehouse);
    match written {
        Ok(()) => Ok(vehicles.on_their_way()),
        Err(trouble) => Err(trouble),
    }
}

/// Serves a script as `replay` does, with vehicles that carry out the plan at their own pace. A points file without
/// `rule nofollow` is refused, since vehicles might then stand still for ever. How many vehicles are on their way at the end.
pub fn serve_late<R: Read, W: Write, P: Planner, F: Fn(PlannerParts) -> Result<P, AllocError>>(
    alloc: Global,
    lines: &mut Lines<R>,
    output: &mut W,
    options: &ReplayOptions<'_>,
    pace: VehicleOptions,
    make: F,
) -> Result<u32, Trouble>
    requires range { IsOfFleet options.now.fleet }
    requires ahead { 1 ≤ pace.ahead }
    requires callable { F.IsAlwaysCallable make }
    requires makes { MakesPlanners P.fits_map P.slot_count (F.post make) }
    ensures ok { IfOk result (λ left. ServesLate P.fits_map P.slot_count (script_asker (form_of options.now.replies)) (F.post make) options.now.fleet options.now.tail pace lines.old lines.new (W.contents output.old) (W.contents output.new) left) }
    ensures fault { IfErr result (λ told. IsWhyUnservedLate P.fits_map P.slot_count (script_asker (form_of options.now.replies)) (F.post make) options.now.fleet options.now.tail pace told lines.old lines.new (W.contents output.old) (W.contents output.new)) }
{
    let fleet = &options.fleet;
    let setting = match read_setting(lines, alloc, fleet.homes) {
        Ok(setting) => setting,
        Err(trouble) => return Err(trouble),
    };
    if !setting.nofollow() {
        drop(setting);
        return Err(Trouble::MayFollow);
    }
    let agents = setting.agents();
    let (planners, spares) = match equip(alloc, fleet, setting.shared_grid(), agents, &make) {
        Ok(equipped) => equipped,
        Err(trouble) => {
            drop(setting);
            return Err(trouble);
        }
    };
    let form = form_of(options.replies);
    let tail = options.tail;
    play_late(
        alloc, lines, output, form, setting, planners, spares, tail, pace,
    )
}
