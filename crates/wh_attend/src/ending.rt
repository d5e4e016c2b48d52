//! The end of a run whose clients were served: its log is kept to its end, that of a closed run is ended, and it is told whether its
//! last board was shown.

ghost use Rattle.std.specs.Prelude.{◌≡◌, true, IfErr, IfOk, Ok, OnOk, option_map};
ghost use Rattle.std.specs.Io.KnownBytes.{Appends};
ghost use Rattle.wh_lines.specs.Output.{WritesFront};
ghost use Rattle.wh_attend.specs.Attends.{IsWhyUnended, LeavesRun, ending_of};

use std::alloc::Global;
use wh_continue::{KeepFault, LogFile, Warehouse, end_log};
use wh_edge::Trouble;
use wh_host::{Ran, trouble_of_show};
use wh_planner::Planner;
use wh_service::keep_trouble;

/// Why clients were not served to a good end, and the file of the log, where it is given back: a start that is refused leaves it as it was.
#[derive(Drop)]
pub struct Unattended<L> {
    /// What is told.
    pub trouble: Trouble,
    /// The file of the log, if it is given back.
    pub file: Option<L>,
}

/// Gives the log of a closed warehouse its last line; a log that may be gone on with has none. All of it is synced.
fn end_closed<L: LogFile, P: Planner>(
    alloc: Global,
    journal: &mut L,
    warehouse: &Warehouse<P>,
) -> Result<(), KeepFault>
    ensures ok { OnOk result (Appends (L.contents journal.old) (L.contents journal.new) (ending_of warehouse.now.book)) }
    ensures synced { OnOk result (L.synced journal.new ≡ L.contents journal.new) }
    ensures front { IfErr result (λ _. WritesFront (L.contents journal.old) (L.contents journal.new) (ending_of warehouse.now.book)) }
{
    end_log(
        alloc,
        journal,
        warehouse.closed(),
        warehouse.history().len() as u64,
    )
}

/// Gives the screen back and the log of a closed warehouse its last line, and then tells whether the last board was shown. Where the
/// journal has failed the log is not ended. The journal goes back with a trouble.
pub(crate) fn end_run<L: LogFile + Drop, P: Planner, V: Drop>(
    alloc: Global,
    screen: &mut Option<V>,
    ran: Ran<L, V, P>,
) -> Result<L, Unattended<L>>
    ensures screen { screen.new ≡ ran.screen }
    ensures whole { IfOk result (λ _. ran.is_whole ≡ true) }
    ensures ends { IfOk result (λ file. Appends (L.contents ran.journal) (L.contents file) (ending_of ran.history.warehouse.book)) }
    ensures synced { IfOk result (λ file. L.synced file ≡ L.contents file) }
    ensures shown { IfOk result (λ _. ran.last ≡ Ok tt) }
    ensures fault { IfErr result (λ e. IsWhyUnended ran.last e.trouble) }
    ensures left { IfErr result (λ e. LeavesRun ran.is_whole e.trouble (ending_of ran.history.warehouse.book) (L.contents ran.journal) (option_map L.contents e.file)) }
{
    let Ran {
        history,
        mut journal,
        is_whole,
        screen: given,
        last,
        ..
    } = ran;
    *screen = given;
    if !is_whole {
        drop(history);
        let trouble = Trouble::Unkept;
        let file = Some(journal);
        return Err(Unattended { trouble, file });
    }
    let warehouse = &history.warehouse;
    match end_closed(alloc, &mut journal, warehouse) {
        Ok(()) => {}
        Err(fault) => {
            drop(history);
            let trouble = keep_trouble(fault);
            let file = Some(journal);
            return Err(Unattended { trouble, file });
        }
    }
    drop(history);
    match last {
        Ok(()) => Ok(journal),
        Err(fault) => {
            let trouble = trouble_of_show(fault);
            let file = Some(journal);
            Err(Unattended { trouble, file })
        }
    }
}
