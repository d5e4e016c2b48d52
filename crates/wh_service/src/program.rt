//! What `replay` does, and how the program ends where its words give no options.

ghost use Rattle.std.specs.Prelude.{◌≡◌, false, IfErr, IfOk, length};
ghost use Rattle.wh_replay.specs.Fleet.{AllFit};
ghost use Rattle.wh_service.specs.Fleets.{IsOfFleet, MakesPlanners};
ghost use Rattle.wh_service.specs.Plays.{Plays, IsWhyUnplayed, deliver_trouble, form_of, trouble_of};
ghost use Rattle.wh_service.specs.Serves.{Serves, ServesByFleet, IsWhyUnserved, IsWhyUnservedByFleet, ended_by};
ghost use Rattle.wh_replay.specs.Scripts.{script_asker};

use crate::fleet::equip;
use crate::parts::PlannerParts;
use crate::settings::read_setting;
use crate::tail::finish;
use std::alloc::{AllocError, Global};
use std::io::{Read, Write};
use wh_continue::Setting;
use wh_deliver::{Asker, DeliverFault, NoKeeper, may_deliver};
use wh_edge::{Status, Trouble};
use wh_lines::Lines;
use wh_log::Form;
use wh_options::{Refusal, ReplayOptions, Replies, Tail};
use wh_planner::Planner;
use wh_replay::{OpenFault, ReplayFault, Warehouse};

/// What is told of a script that was not served to its end.
fn trouble_of(fault: ReplayFault) -> Trouble
    ensures { result ≡ trouble_of fault }
{
    match fault {
        ReplayFault::Broken => Trouble::Broken,
        ReplayFault::Endless => Trouble::Endless,
        ReplayFault::Unwritten => Trouble::Unwritten,
    }
}

/// What is told of what was not delivered to its end behind a script.
pub(crate) fn deliver_trouble(fault: DeliverFault) -> Trouble
    ensures { result ≡ deliver_trouble fault }
{
    match fault {
        DeliverFault::NoMemory | DeliverFault::TooMany => Trouble::NoMemory,
        DeliverFault::Unkept => Trouble::Unkept,
        DeliverFault::Unwritten => Trouble::Unwritten,
    }
}

/// The form in which replies are told.
pub fn form_of(replies: Replies) -> Form
    ensures { result ≡ form_of replies }
{
    match replies {
        Replies::Short => Form::Short,
        Replies::Full => Form::Full,
        Replies::Placed => Form::Placed,
    }
}

/// What a replay came to: how many replies the script had, and what is told of orders that are open at the end, where all was to be delivered.
#[derive(Debug, PartialEq, Eq, Drop)]
pub struct Played {
    pub replies: u64,
    pub report: Vec<u8>,
}

/// Opens the warehouse at clock 0 with one planner for each agent, serves the script, has all delivered that can be, where that is asked
/// for, and writes what follows the replies.
pub fn play<R: Read, W: Write, P: Planner>(
    alloc: Global,
    lines: &mut Lines<R>,
    output: &mut W,
    form: Form,
    setting: Setting,
    planners: Vec<P>,
    mut spares: Vec<P>,
    deliver: bool,
    tail: Tail,
) -> Result<Played, Trouble>
    requires count { length planners.items ≡ length setting.layout.agents }
    requires fit { AllFit P.fits_map setting.grid planners.items }
    ensures ok { IfOk result (λ r. Plays P.fits_map P.slot_count (script_asker form) setting planners.items spares.items deliver tail
        lines.old lines.new (W.contents output.old) (W.contents output.new) r.replies r.report.items) }
    ensures fault { IfErr result (λ told. IsWhyUnplayed P.fits_map P.slot_count (script_asker form) setting planners.items spares.items deliver tail
        told lines.old lines.new (W.contents output.old) (W.contents output.new)) }
{
    let mut warehouse = match Warehouse::open_over(alloc, setting, planners, 0) {
        Ok(warehouse) => warehouse,
        Err(OpenFault::NoMemory) => {
            drop(spares);
            return Err(Trouble::NoMemory);
        }
        Err(OpenFault::WrongCount | OpenFault::Foreign { .. }) => unreachable!(),
    };
    let replayed = match wh_replay::replay(
        lines,
        alloc,
        form,
        output,
        &mut warehouse,
        &mut spares,
    ) {
        Ok(replayed) => replayed,
        Err(fault) => {
            drop(warehouse);
            drop(spares);
            return Err(trouble_of(fault));
        }
    };
    drop(spares);
    let asker = Asker { caller: 0, form };
    let none = &mut NoKeeper;
    match may_deliver(
        deliver,
        alloc,
        asker,
        none,
        output,
        &mut warehouse,
        usize::MAX,
    ) {
        Ok(()) => {}
        Err(fault) => {
            drop(warehouse);
            return Err(deliver_trouble(fault));
        }
    }
    let finished = finish(alloc, output, &warehouse, &None, deliver, tail);
    drop(warehouse);
    match finished {
        Ok(report) => Ok(Played {
            replies: replayed.replies,
            report,
        }),
        Err(trouble) => Err(trouble),
    }
}

/// Reads a site, makes one planner for each agent and then the spare ones, all of the fleet's kind and with their claims
/// on one bank, serves the script after the site, has all delivered that can be, where the options say so, and writes what follows the replies: after a line `%%` the log
/// of the run or the rows of its ledger. `make` makes one planner of its parts, and fails only when out of memory.
/// Errors are reported in this order: the site, the bank and the planners, the script, what follows the
/// replies.
pub fn replay<R: Read, W: Write, P: Planner, F: Fn(PlannerParts) -> Result<P, AllocError>>(
    alloc: Global,
    lines: &mut Lines<R>,
    output: &mut W,
    options: &ReplayOptions<'_>,
    make: F,
) -> Result<Played, Trouble>
    requires range { IsOfFleet options.now.fleet }
    requires callable { F.IsAlwaysCallable make }
    requires makes { MakesPlanners P.fits_map P.slot_count (F.post make) }
    // Where nothing is to be delivered behind the script, what is served is told with the planners left out.
    ensures ok { options.now.deliver ≡ false → IfOk result (λ r. Serves (script_asker (form_of options.now.replies)) options.now.fleet options.now.tail lines.old lines.new (W.contents output.old) (W.contents output.new) r.replies) }
    ensures fleet { IfOk result (λ r. ServesByFleet P.fits_map P.slot_count (script_asker (form_of options.now.replies)) (F.post make) options.now.fleet options.now.deliver options.now.tail lines.old lines.new (W.contents output.old) (W.contents output.new) r.replies r.report.items) }
    ensures fault { options.now.deliver ≡ false → IfErr result (λ told. IsWhyUnserved (script_asker (form_of options.now.replies)) options.now.fleet options.now.tail told lines.old lines.new (W.contents output.old) (W.contents output.new)) }
    ensures unserved { IfErr result (λ told. IsWhyUnservedByFleet P.fits_map P.slot_count (script_asker (form_of options.now.replies)) (F.post make) options.now.fleet options.now.deliver options.now.tail told lines.old lines.new (W.contents output.old) (W.contents output.new)) }
{
    let fleet = &options.fleet;
    let setting = match read_setting(lines, alloc, fleet.homes) {
        Ok(setting) => setting,
        Err(trouble) => return Err(trouble),
    };
    let agents = setting.agents();
    let (planners, spares) = match equip(alloc, fleet, setting.shared_grid(), agents, &make) {
        Ok(equipped) => equipped,
        Err(trouble) => {
            drop(setting);
            return Err(trouble);
        }
    };
    let form = form_of(options.replies);
    let deliver = options.deliver;
    let tail = options.tail;
    play(
        alloc, lines, output, form, setting, planners, spares, deliver, tail,
    )
}

/// How the program ends if its words give no options, by whether their text was shown.
pub fn ended(refusal: Refusal, is_shown: bool) -> Result<Status, Trouble>
    ensures { result ≡ ended_by refusal is_shown }
{
    match refusal {
        Refusal::Asked if is_shown => Ok(Status::Done),
        Refusal::Asked => Err(Trouble::Unwritten),
        Refusal::Mistake => Ok(Status::CommandLine),
        Refusal::NoMemory => Err(Trouble::NoMemory),
    }
}
