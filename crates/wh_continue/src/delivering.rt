//! What is delivered behind a script, over its journal.
#![tactic(auto)]

ghost use Rattle.std.specs.Prelude.{◌≡◌, true, IfErr, OnOk, OnErr};
ghost use Rattle.wh_journal.specs.Journals.{log_asker};
ghost use Rattle.wh_continue.specs.Delivering.{DeliversOver, StopsDelivering};

use std::alloc::Global;
use std::io::Write;
use wh_deliver::{Asker, DeliverFault, may_deliver};
use wh_journal::{Journal, JournalKeeper, LOG_CALLER, Warehouse};
use wh_log::{Form, MOST_ENTRIES};
use wh_planner::Plans;

/// Has all delivered that can be, where that is asked for, over a keeper.
fn deliver_kept<W: Write, J: Journal, P: Plans>(
    is_asked: bool,
    alloc: Global,
    form: Form,
    keeper: &mut JournalKeeper<'_, J>,
    writer: &mut W,
    warehouse: &mut Warehouse<P>,
) -> Result<(), DeliverFault>
    requires synced { J.synced keeper.old.journal.now ≡ J.contents keeper.old.journal.now }
    ensures name { keeper.new.journal.ghost_name ≡ keeper.old.journal.ghost_name }
    ensures ok { OnOk result (DeliversOver is_asked (log_asker form) warehouse.old.book warehouse.new.book (W.contents writer.old) (W.contents writer.new) (J.contents keeper.old.journal.now) (J.synced keeper.new.journal.now) (J.contents keeper.new.journal.now)) }
    ensures asked { OnErr result (is_asked ≡ true) }
    ensures fault { IfErr result (λ fault. StopsDelivering fault (log_asker form) warehouse.old.book warehouse.new.book (W.contents writer.old) (W.contents writer.new) (J.contents keeper.old.journal.now) (J.failed keeper.new.journal.now) (J.synced keeper.new.journal.now) (J.contents keeper.new.journal.now)) }
{
    let asker = Asker {
        caller: LOG_CALLER,
        form,
    };
    may_deliver(
        is_asked,
        alloc,
        asker,
        keeper,
        writer,
        warehouse,
        MOST_ENTRIES,
    )
}

/// Has all delivered that can be, where that is asked for. Each entry is kept and synced before its reply is told.
pub fn deliver_over<W: Write, J: Journal, P: Plans>(
    is_asked: bool,
    alloc: Global,
    form: Form,
    journal: &mut J,
    writer: &mut W,
    warehouse: &mut Warehouse<P>,
) -> Result<(), DeliverFault>
    requires synced { J.synced journal.old ≡ J.contents journal.old }
    ensures ok { OnOk result (DeliversOver is_asked (log_asker form) warehouse.old.book warehouse.new.book (W.contents writer.old) (W.contents writer.new) (J.contents journal.old) (J.synced journal.new) (J.contents journal.new)) }
    ensures asked { OnErr result (is_asked ≡ true) }
    ensures fault { IfErr result (λ fault. StopsDelivering fault (log_asker form) warehouse.old.book warehouse.new.book (W.contents writer.old) (W.contents writer.new) (J.contents journal.old) (J.failed journal.new) (J.synced journal.new) (J.contents journal.new)) }
{
    let mut keeper = JournalKeeper { journal };
    deliver_kept(is_asked, alloc, form, &mut keeper, writer, warehouse)
}
