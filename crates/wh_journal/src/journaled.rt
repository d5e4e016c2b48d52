//! A script that is served over a journal.
#![tactic(auto)]

ghost use Rattle.std.specs.Prelude.{◌≡◌, ◌<◌, ◌^◌, true, length, IfErr, OnOk, OnErr};
ghost use Rattle.std.specs.Io.KnownBytes.{Keeps};
ghost use Rattle.wh_replay.specs.Machines.{Left};
ghost use Rattle.wh_journal.specs.Journals.{Journaled, ReplaysJournaled};
ghost use Rattle.wh_journal.specs.Surviving.{HoldsLog, StaysLog};
ghost use Rattle.wh_journal.specs.Journals.{log_asker};

use crate::fault::{JournaledFault, session_fault};
use crate::journal::{Journal, LOG_CALLER};
use crate::keeping::JournalKeeper;
use std::alloc::Global;
use std::io::{Read, Write};
use wh_event::Command;
use wh_lines::Lines;
use wh_log::{Form, MOST_ENTRIES};
use wh_planner::Plans;
use wh_replay::{Asker, ManyAnswers, Script};
use wh_token::Warehouse;

/// Serves a script to the reader's end by the one loop.
fn serve_script<R: Read, W: Write, J: Journal, P: Plans>(
    lines: &mut Lines<R>,
    writer: &mut W,
    script: &mut Script<'_, P, ManyAnswers>,
    keeper: &mut JournalKeeper<'_, J>,
) -> Result<(), JournaledFault>
    requires synced { J.synced keeper.old.journal.now ≡ J.contents keeper.old.journal.now }
    requires most { script.old.most ≡ 999999999 }
    requires left { Left script.old.first script.old.clock script.old.warehouse.now.book script.old.answers.answers.items }
    requires log { HoldsLog (J.contents keeper.old.journal.now) script.old.warehouse.now.book }
    ensures seat { script.new.warehouse.ghost_name ≡ script.old.warehouse.ghost_name }
    ensures room { script.new.spares.ghost_name ≡ script.old.spares.ghost_name }
    ensures name { keeper.new.journal.ghost_name ≡ keeper.old.journal.ghost_name }
    ensures ok { OnOk result (ReplaysJournaled P.fits_map P.slot_count script.old.asker lines.old lines.new script.old.warehouse.now.book script.old.spares.now.items script.new.warehouse.now.book script.new.spares.now.items (W.contents writer.old) (W.contents writer.new) (J.contents keeper.old.journal.now) (J.synced keeper.new.journal.now) (J.contents keeper.new.journal.now)) }
    ensures log { OnOk result (StaysLog (J.contents keeper.old.journal.now) (J.contents keeper.new.journal.now) script.new.warehouse.now.book) }
    ensures fault { IfErr result (λ fault. Journaled P.fits_map P.slot_count script.old.asker fault lines.old lines.new script.old.warehouse.now.book script.old.spares.now.items script.new.warehouse.now.book script.new.spares.now.items (W.contents writer.old) (W.contents writer.new) (J.contents keeper.old.journal.now) (J.failed keeper.new.journal.now) (J.synced keeper.new.journal.now) (J.contents keeper.new.journal.now)) }
    ensures few { length script.old.warehouse.now.book.history < 10 ^ 9 → length script.new.warehouse.now.book.history < 10 ^ 9 }
    ensures failed { OnErr result (lines.new.failed ≡ true) }
    ensures again { lines.old.failed ≡ true → (result ≡ Err JournaledFault.Broken) × (lines.new ≡ lines.old) × (script.new.warehouse.now.book ≡ script.old.warehouse.now.book) × (script.new.spares.now.items ≡ script.old.spares.now.items) × (keeper.new.journal.now ≡ keeper.old.journal.now) × Keeps (W.contents writer.old) (W.contents writer.new) }
{
    match wh_session::serve(lines, writer, script, keeper) {
        Ok(_) => Ok(()),
        Err(fault) => Err(session_fault(fault)),
    }
}

/// Serves the script that is left in the reader, to the reader's end, as `wh_replay::replay` does, except that what follows
/// the last line feed is not a line: a command that was cut is not served; and that each event is of `LOG_CALLER`. It has the journal keep each entry before its reply is
/// told: in rounds, before each read that may wait and at the end, the lines of all new entries are appended and synced, and
/// then the replies are written, both from the history and without memory. A fault of the journal stops it, and then no reply
/// is told whose entry does not stand in the journal.
///
/// Lack of memory stops nothing, and is no fault: a command that it refuses is answered `refused E90`, has no entry, and has
/// changed nothing. So is one that would be entry number 1,000,000,000, for which a log has no number.
pub fn replay_journaled<R: Read, W: Write, J: Journal, P: Plans>(
    lines: &mut Lines<R>,
    alloc: Global,
    form: Form,
    journal: &mut J,
    writer: &mut W,
    warehouse: &mut Warehouse<P>,
    spares: &mut Vec<P>,
) -> Result<(), JournaledFault>
    requires synced { J.synced journal.old ≡ J.contents journal.old }
    // A journal that tells its bytes is the book's log, except for the end line.
    requires log { HoldsLog (J.contents journal.old) warehouse.old.book }
    ensures ok { OnOk result (ReplaysJournaled P.fits_map P.slot_count (log_asker form) lines.old lines.new warehouse.old.book spares.old.items warehouse.new.book spares.new.items (W.contents writer.old) (W.contents writer.new) (J.contents journal.old) (J.synced journal.new) (J.contents journal.new)) }
    // It stays so.
    ensures log { OnOk result (StaysLog (J.contents journal.old) (J.contents journal.new) warehouse.new.book) }
    ensures fault { IfErr result (λ fault. Journaled P.fits_map P.slot_count (log_asker form) fault lines.old lines.new warehouse.old.book spares.old.items warehouse.new.book spares.new.items (W.contents writer.old) (W.contents writer.new) (J.contents journal.old) (J.failed journal.new) (J.synced journal.new) (J.contents journal.new)) }
    // With one entry more the journal would be no log.
    ensures few { length warehouse.old.book.history < 10 ^ 9 → length warehouse.new.book.history < 10 ^ 9 }
    // After a fault there is nothing more.
    ensures failed { OnErr result (lines.new.failed ≡ true) }
    ensures again { lines.old.failed ≡ true → (result ≡ Err JournaledFault.Broken) × (lines.new ≡ lines.old) × (warehouse.new.book ≡ warehouse.old.book) × (spares.new.items ≡ spares.old.items) × (journal.new ≡ journal.old) × Keeps (W.contents writer.old) (W.contents writer.new) }
{
    let mut command = Command::Close;
    let first = warehouse.history().len();
    let clock = warehouse.clock();
    let mut script = Script {
        warehouse,
        spares,
        command: &mut command,
        alloc,
        asker: Asker {
            caller: LOG_CALLER,
            form,
        },
        most: MOST_ENTRIES,
        replies: 0,
        first,
        clock,
        answers: ManyAnswers::new(),
    };
    let mut keeper = JournalKeeper { journal };
    serve_script(lines, writer, &mut script, &mut keeper)
}
