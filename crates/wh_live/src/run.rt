//! The run: a warehouse behind a desk, and the crew over it.
#![tactic(auto)]

ghost use Rattle.std.specs.Prelude.{◌≡◌, ◌≤◌, [], IfErr, IfOk, length};
ghost use Rattle.wh_crew.specs.Fleet.{AllFit};
ghost use Rattle.wh_crew.specs.Pasts.{origin_of, past_of};
ghost use Rattle.wh_crew.specs.Troubles.{IsWhyDead};
ghost use Rattle.wh_live.specs.Lives.{Lives, WorkedFrom};

use std::alloc::{AllocError, Global};
use std::marker::Brand;
use std::sync::Wait;
use std::thread::Threads;
use wh_crew::{
    Cells, Crewed, Desk, DeskName, Gate, History, OpenFault, Publisher, Warehouse, crew, trouble_of,
};
use wh_edge::{Trouble, Work};
use wh_log::{NoMemory, log_text};
use wh_planner::Planner;
use wh_service::Setting;

/// Lets every call through.
struct Open;

impl Gate for Open {
    fn before(&self, _worker: u32, _call: u32) {}

    fn after(&self, _worker: u32, _call: u32) {}
}

/// Opens a desk round the warehouse with a pass for each work, and has the crew work.
fn over_desk<
    N: DeskName + Send + Sync,
    H: Wait + Send + Sync + Drop,
    P: Planner,
    T: Threads + Wait + Sync,
>(
    rt: &T,
    alloc: Global,
    warehouse: Warehouse<P>,
    cells: Cells,
    publisher: Publisher<H>,
    works: Vec<Work<P>>,
) -> Result<Crewed<P>, Trouble>
    requires origin { origin_of warehouse.book ≡ N.origin }
    requires history { warehouse.book.history ≡ [] }
    requires cells { cells ≡ N.cells }
    requires book { publisher.book ≡ N.book }
    requires added { publisher.added ≡ past_of warehouse.book }
    requires shown { publisher.shown ≡ past_of warehouse.book }
    requires callers { length works.items ≡ N.callers }
    requires few { length works.items ≤ 64 }
    ensures ok { IfOk result (λ c. WorkedFrom P.fits_map P.slot_count N.origin works.items (length works.items) (length N.cells)
        c.history.warehouse.book.history c.history.warehouse.book.state) }
    ensures origin { IfOk result (λ c. origin_of c.history.warehouse.book ≡ N.origin) }
    ensures book { IfOk result (λ c. c.history.front.book ≡ N.book) }
    ensures past { IfOk result (λ c. c.history.front.past ≡ past_of c.history.warehouse.book) }
    ensures fault { IfErr result IsWhyDead }
{
    let callers = works.len() as u32;
    let (desk, passes) = Desk::<N, H, P>::open(alloc, warehouse, cells, publisher, callers)?;
    match crew(rt, alloc, desk, passes, works, &Open) {
        Ok(crewed) => Ok(crewed),
        Err(fault) => Err(trouble_of(fault)),
    }
}

/// The history of the works, over one desk whose journal has this many positions.
fn history_of<P: Planner, T: Threads + Wait + Sync>(
    rt: &T,
    alloc: Global,
    warehouse: Warehouse<P>,
    works: Vec<Work<P>>,
    journal: u32,
) -> Result<History<P>, Trouble>
    requires history { warehouse.book.history ≡ [] }
    requires few { length works.items ≤ 64 }
    ensures ok { IfOk result (λ h. WorkedFrom P.fits_map P.slot_count (origin_of warehouse.book) works.items (length works.items) journal
        h.warehouse.book.history h.warehouse.book.state) }
    ensures fault { IfErr result IsWhyDead }
{
    let cells = match Cells::new(alloc, u64::from(journal)) {
        Ok(cells) => cells,
        Err(AllocError) => {
            drop(warehouse);
            drop(works);
            return Err(Trouble::NoMemory);
        }
    };
    let publisher = match Publisher::new(alloc, rt, warehouse.book()) {
        Ok(publisher) => publisher,
        Err(AllocError) => {
            drop(cells);
            drop(warehouse);
            drop(works);
            return Err(Trouble::NoMemory);
        }
    };
    match over_desk::<Brand, _, _, _>(rt, alloc, warehouse, cells, publisher, works) {
        Ok(crewed) => Ok(crewed.history),
        Err(trouble) => Err(trouble),
    }
}

/// Opens the warehouse at clock 0 with one planner for each agent, and has each work done in its own thread, over one
/// desk whose journal has this many positions. The text is the log of all that they did. Trouble: E90, and E93 where a thread
/// could not be started.
pub fn run_crew<P: Planner, T: Threads + Wait + Sync>(
    rt: &T,
    alloc: Global,
    setting: Setting,
    planners: Vec<P>,
    works: Vec<Work<P>>,
    journal: u32,
) -> Result<Vec<u8>, Trouble>
    requires count { length planners.items ≡ length setting.layout.agents }
    requires fit { AllFit P.fits_map setting.grid planners.items }
    requires few { length works.items ≤ 64 }
    ensures ok { IfOk result (λ text. Lives P.fits_map P.slot_count setting planners.items works.items journal text.items) }
    ensures fault { IfErr result IsWhyDead }
{
    let warehouse = match Warehouse::open_over(alloc, setting, planners, 0) {
        Ok(warehouse) => warehouse,
        Err(OpenFault::NoMemory) => {
            drop(works);
            return Err(Trouble::NoMemory);
        }
        Err(OpenFault::WrongCount | OpenFault::Foreign { .. }) => unreachable!(),
    };
    let slots = match Vec::from_slice(alloc, warehouse.first_slots()) {
        Ok(slots) => slots,
        Err(AllocError) => {
            drop(warehouse);
            drop(works);
            return Err(Trouble::NoMemory);
        }
    };
    let history = match history_of(rt, alloc, warehouse, works, journal) {
        Ok(history) => history,
        Err(trouble) => {
            drop(slots);
            return Err(trouble);
        }
    };
    match log_text(alloc, 0, &slots, history.warehouse.history()) {
        Ok(text) => {
            drop(history);
            drop(slots);
            Ok(text)
        }
        Err(NoMemory) => {
            drop(history);
            drop(slots);
            Err(Trouble::NoMemory)
        }
    }
}
