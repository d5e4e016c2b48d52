//! Two lives of one run, and a kill between them.
#![tactic(auto)]

ghost use Rattle.std.specs.Prelude.{◌≡◌};
ghost use Rattle.wh_journal.specs.Journals.{log_asker};
ghost use Rattle.wh_lives.specs.Twice.{IsEquipped, IsKill, LivesTwice};

use crate::dying::Dying;
use crate::life::{Equipment, LifeFault, live};
use std::alloc::Global;
use std::io::{Read, Write};
use wh_continue::{LogFile, told_survives, told_survives_behind};
use wh_lines::Lines;
use wh_log::Form;
use wh_planner::Planner;

/// How both lives ended.
#[derive(Clone, Copy, Debug, PartialEq, Eq)]
pub struct Lives {
    pub first: Result<(), LifeFault>,
    pub second: Result<(), LifeFault>,
}

/// A life over a log file that takes a number of calls, a kill, and a life over what the kill left of the file. All that was told in the first
/// life stands in the second, whatever the number is and whatever is left.
pub fn two_lives<
    R: Read,
    W: Write,
    F: LogFile,
    G: LogFile + Drop,
    P: Planner,
    K: FnOnce(Dying<F>) -> G,
>(
    alloc: Global,
    form: Form,
    file: F,
    calls: u64,
    first: Equipment<P>,
    lines: &mut Lines<R>,
    writer: &mut W,
    kill: K,
    second: Equipment<P>,
    next_lines: &mut Lines<R>,
    next_writer: &mut W,
) -> Lives
    requires equipped { IsEquipped first.setting first.slots.items }
    requires equipped_again { IsEquipped second.setting second.slots.items }
    requires same { second.setting ≡ first.setting }
    requires callable { K.IsAlwaysCallable kill }
    requires leaves { IsKill F.synced F.contents G.contents (K.post kill) }
    ensures { LivesTwice P.fits_map P.slot_count (log_asker form) first.setting first.slots.items first.spares.items second.slots.items second.spares.items (F.contents file)
        lines.old lines.new (W.contents writer.old) (W.contents writer.new) next_lines.old next_lines.new (W.contents next_writer.old) (W.contents next_writer.new) result.first result.second }
{
    told_survives();
    told_survives_behind();
    let mut dying = Dying::new(file, calls);
    let early = live(alloc, form, first, &mut dying, lines, writer);
    let mut left = kill(dying);
    let late = live(alloc, form, second, &mut left, next_lines, next_writer);
    drop(left);
    Lives {
        first: early,
        second: late,
    }
}
