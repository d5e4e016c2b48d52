//! One read that may wait, and all that is served of it.
#![tactic(auto)]

ghost use Rattle.std.specs.Prelude.{◌≡◌, ◌<◌, ◌^◌, true, length, IfOk, IfErr, OnErr};
ghost use Rattle.std.specs.Io.KnownBytes.{Keeps};
ghost use Rattle.wh_replay.specs.Machines.{Left};
ghost use Rattle.wh_journal.specs.Faults.{session_round};
ghost use Rattle.wh_journal.specs.Journals.{Rounds, Journaled};
ghost use Rattle.wh_journal.specs.Journals.{log_asker};

use crate::fault::{JournaledFault, session_fault};
use crate::journal::{Journal, LOG_CALLER};
use crate::keeping::JournalKeeper;
use std::alloc::Global;
use std::io::{Read, Write};
use wh_event::Command;
use wh_lines::Lines;
use wh_log::{Form, MOST_ENTRIES};
use wh_planner::Plans;
use wh_replay::{Asker, ManyAnswers, Script};
use wh_session::Round as Part;
use wh_token::Warehouse;

/// What a round came to.
#[derive(Clone, Copy, Debug, PartialEq, Eq)]
pub enum Round {
    /// Lines were served, and the next one may have to be waited for.
    Served,
    /// The reader is at its end.
    Ended,
}

fn session_round(part: Part) -> Round
    ensures { result ≡ session_round part }
{
    match part {
        Part::More | Part::Served => Round::Served,
        Part::Ended | Part::Torn | Part::Over => Round::Ended,
    }
}

/// Serves a round by the one loop.
fn serve_script<R: Read, W: Write, J: Journal, P: Plans>(
    lines: &mut Lines<R>,
    writer: &mut W,
    script: &mut Script<'_, P, ManyAnswers>,
    keeper: &mut JournalKeeper<'_, J>,
) -> Result<Round, JournaledFault>
    requires synced { J.synced keeper.old.journal.now ≡ J.contents keeper.old.journal.now }
    requires most { script.old.most ≡ 999999999 }
    requires left { Left script.old.first script.old.clock script.old.warehouse.now.book script.old.answers.answers.items }
    ensures seat { script.new.warehouse.ghost_name ≡ script.old.warehouse.ghost_name }
    ensures room { script.new.spares.ghost_name ≡ script.old.spares.ghost_name }
    ensures name { keeper.new.journal.ghost_name ≡ keeper.old.journal.ghost_name }
    ensures ok { IfOk result (Rounds P.fits_map P.slot_count script.old.asker lines.old lines.new script.old.warehouse.now.book script.old.spares.now.items script.new.warehouse.now.book script.new.spares.now.items (W.contents writer.old) (W.contents writer.new) (J.contents keeper.old.journal.now) (J.synced keeper.new.journal.now) (J.contents keeper.new.journal.now)) }
    ensures fault { IfErr result (λ fault. Journaled P.fits_map P.slot_count script.old.asker fault lines.old lines.new script.old.warehouse.now.book script.old.spares.now.items script.new.warehouse.now.book script.new.spares.now.items (W.contents writer.old) (W.contents writer.new) (J.contents keeper.old.journal.now) (J.failed keeper.new.journal.now) (J.synced keeper.new.journal.now) (J.contents keeper.new.journal.now)) }
    ensures few { length script.old.warehouse.now.book.history < 10 ^ 9 → length script.new.warehouse.now.book.history < 10 ^ 9 }
    ensures failed { OnErr result (lines.new.failed ≡ true) }
    ensures again { lines.old.failed ≡ true → (result ≡ Err JournaledFault.Broken) × (lines.new ≡ lines.old) × (script.new.warehouse.now.book ≡ script.old.warehouse.now.book) × (script.new.spares.now.items ≡ script.old.spares.now.items) × (keeper.new.journal.now ≡ keeper.old.journal.now) × Keeps (W.contents writer.old) (W.contents writer.new) }
{
    match wh_session::serve_round(lines, writer, script, keeper) {
        Ok(part) => Ok(session_round(part)),
        Err(fault) => Err(session_fault(fault)),
    }
}

/// Serves the next line of a script, for which it may wait, and each further whole line that waits, has the journal keep
/// the entries, and then tells the replies. So all is settled when the next line may have to be waited for. Only a command
/// can run out of memory, and is answered so; whatever was served is kept and told without any.
pub fn serve_round<R: Read, W: Write, J: Journal, P: Plans>(
    lines: &mut Lines<R>,
    alloc: Global,
    form: Form,
    journal: &mut J,
    writer: &mut W,
    warehouse: &mut Warehouse<P>,
    spares: &mut Vec<P>,
) -> Result<Round, JournaledFault>
    requires { J.synced journal.old ≡ J.contents journal.old }
    ensures ok { IfOk result (Rounds P.fits_map P.slot_count (log_asker form) lines.old lines.new warehouse.old.book spares.old.items warehouse.new.book spares.new.items (W.contents writer.old) (W.contents writer.new) (J.contents journal.old) (J.synced journal.new) (J.contents journal.new)) }
    ensures fault { IfErr result (λ fault. Journaled P.fits_map P.slot_count (log_asker form) fault lines.old lines.new warehouse.old.book spares.old.items warehouse.new.book spares.new.items (W.contents writer.old) (W.contents writer.new) (J.contents journal.old) (J.failed journal.new) (J.synced journal.new) (J.contents journal.new)) }
    // With one entry more the journal would be no log.
    ensures few { length warehouse.old.book.history < 10 ^ 9 → length warehouse.new.book.history < 10 ^ 9 }
    // After a fault there is nothing more.
    ensures failed { OnErr result (lines.new.failed ≡ true) }
    ensures again { lines.old.failed ≡ true → (result ≡ Err JournaledFault.Broken) × (lines.new ≡ lines.old) × (warehouse.new.book ≡ warehouse.old.book) × (spares.new.items ≡ spares.old.items) × (journal.new ≡ journal.old) × Keeps (W.contents writer.old) (W.contents writer.new) }
{
    let mut command = Command::Close;
    let first = warehouse.history().len();
    let clock = warehouse.clock();
    let mut script = Script {
        warehouse,
        spares,
        command: &mut command,
        alloc,
        asker: Asker {
            caller: LOG_CALLER,
            form,
        },
        most: MOST_ENTRIES,
        replies: 0,
        first,
        clock,
        answers: ManyAnswers::new(),
    };
    let mut keeper = JournalKeeper { journal };
    serve_script(lines, writer, &mut script, &mut keeper)
}
