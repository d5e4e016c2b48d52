//! Opening a warehouse.

ghost use Rattle.std.specs.Prelude.{◌≡◌, ◌≤◌, ℕ, List, [], false, length, IfOk, IfErr};
ghost use Rattle.wh_points.specs.Points.{IsLayout};
ghost use Rattle.wh_core.specs.States.{opened};
ghost use Rattle.wh_core.specs.Steps.{last_clock};
ghost use Rattle.wh_core.specs.Laws.{IsOpening};
ghost use Rattle.wh_token.specs.Fleet.{IsTied, AllFit, RefusesToOpen, RefusesToResume};

use crate::roster::{OpenFault, ResumeFault, fields_over, first_foreign, outfit, slots_of};
use crate::warehouse::Warehouse;
use std::alloc::{AllocError, Global};
use std::sync::Arc;
use wh_book::{Book, Setting};
use wh_field::LazyField;
use wh_grid::{Cell, Grid};
use wh_planner::Plans;
use wh_points::Points;

impl<P: Plans> Warehouse<P> {
    /// The warehouse in its opening state, at a clock of at most 1,000,000,000, with one planner for each agent, in the
    /// agents' order, where each path ends at the last stop of its order. It refuses a wrong count of planners, then the
    /// first planner of another map, then it is out of memory; on a refusal what was handed in is dropped.
    pub fn open(
        alloc: Global,
        grid: Arc<Grid>,
        points: Points,
        planners: Vec<P>,
        start: u32,
    ) -> Result<Warehouse<P>, OpenFault>
        requires layout { IsLayout grid.value points }
        requires start { start ≤ last_clock }
        ensures site { IfOk result (λ w. w.book.site ≡ record { grid = grid.value; layout = points; homes = false }) }
        ensures opening { IfOk result (λ w. ((slots : List ℕ) × (w.book.opening ≡ opened points start slots) × (w.book.state ≡ w.book.opening))) }
        ensures opens { IfOk result (λ w. IsOpening w.book.site w.book.opening) }
        ensures history { IfOk result (λ w. w.book.history ≡ []) }
        ensures planners { IfOk result (λ w. w.planners ≡ planners.items) }
        ensures tied { IfOk result (λ w. IsTied P.fits_map P.slot_count grid.value w.planners w.book.state.slots) }
        ensures refused { IfErr result (RefusesToOpen P.fits_map grid.value planners.items (length points.agents)) }
    {
        Warehouse::open_over(alloc, Setting::new(grid, points), planners, start)
    }

    /// The same over any setting, so also where paths go on home.
    pub fn open_over(
        alloc: Global,
        setting: Setting,
        planners: Vec<P>,
        start: u32,
    ) -> Result<Warehouse<P>, OpenFault>
        requires start { start ≤ last_clock }
        ensures site { IfOk result (λ w. w.book.site ≡ setting) }
        ensures opening { IfOk result (λ w. ((slots : List ℕ) × (w.book.opening ≡ opened setting.layout start slots) × (w.book.state ≡ w.book.opening))) }
        ensures opens { IfOk result (λ w. IsOpening w.book.site w.book.opening) }
        ensures history { IfOk result (λ w. w.book.history ≡ []) }
        ensures planners { IfOk result (λ w. w.planners ≡ planners.items) }
        ensures tied { IfOk result (λ w. IsTied P.fits_map P.slot_count setting.grid w.planners w.book.state.slots) }
        ensures refused { IfErr result (RefusesToOpen P.fits_map setting.grid planners.items (length setting.layout.agents)) }
    {
        if planners.len() != setting.agents() {
            drop(planners);
            drop(setting);
            return Err(OpenFault::WrongCount);
        }
        if let Some(agent) = first_foreign(planners.as_slice(), setting.grid()) {
            drop(planners);
            drop(setting);
            return Err(OpenFault::Foreign { agent });
        }
        match Warehouse::furnish(alloc, setting, planners, start) {
            Ok(warehouse) => Ok(warehouse),
            Err(AllocError) => Err(OpenFault::NoMemory),
        }
    }

    /// The warehouse of planners that all plan on the grid, one for each agent.
    fn furnish(
        alloc: Global,
        setting: Setting,
        planners: Vec<P>,
        start: u32,
    ) -> Result<Warehouse<P>, AllocError>
        requires start { start ≤ last_clock }
        requires seats { length planners.items ≡ length setting.layout.agents }
        requires fit { AllFit P.fits_map setting.grid planners.items }
        ensures site { IfOk result (λ w. w.book.site ≡ setting) }
        ensures opening { IfOk result (λ w. ((slots : List ℕ) × (w.book.opening ≡ opened setting.layout start slots) × (w.book.state ≡ w.book.opening))) }
        ensures opens { IfOk result (λ w. IsOpening w.book.site w.book.opening) }
        ensures history { IfOk result (λ w. w.book.history ≡ []) }
        ensures planners { IfOk result (λ w. w.planners ≡ planners.items) }
        ensures tied { IfOk result (λ w. IsTied P.fits_map P.slot_count setting.grid w.planners w.book.state.slots) }
    {
        let slots = match slots_of(alloc, planners.as_slice(), setting.grid()) {
            Ok(slots) => slots,
            Err(error) => {
                drop(planners);
                drop(setting);
                return Err(error);
            }
        };
        let near = match LazyField::from(alloc, setting.grid(), Cell { x: 0, y: 0 }) {
            Ok(near) => near,
            Err(error) => {
                drop(slots);
                drop(planners);
                drop(setting);
                return Err(error);
            }
        };
        let fields = match fields_over(alloc, setting.shared_grid(), &slots) {
            Ok(fields) => fields,
            Err(error) => {
                drop(near);
                drop(slots);
                drop(planners);
                drop(setting);
                return Err(error);
            }
        };
        let book = match Book::open(alloc, setting, start, slots) {
            Ok(book) => book,
            Err(error) => {
                drop(fields);
                drop(near);
                drop(planners);
                return Err(error);
            }
        };
        Ok(Warehouse {
            book,
            planners,
            near,
            fields,
        })
    }

    /// The warehouse that goes on from the book's state, with one planner for each agent, in the agents' order, each with
    /// the slots that the state tells. It refuses a wrong count of planners, then the first planner of another map, then
    /// the first with other slots, then it is out of memory; on a refusal what was handed in is dropped.
    pub fn resume(alloc: Global, book: Book, planners: Vec<P>) -> Result<Warehouse<P>, ResumeFault>
        ensures book { IfOk result (λ w. w.book ≡ book) }
        ensures planners { IfOk result (λ w. w.planners ≡ planners.items) }
        ensures refused { IfErr result (RefusesToResume P.fits_map P.slot_count book.site.grid planners.items book.state.slots) }
    {
        let (near, fields) = outfit(alloc, &book, planners.as_slice())?;
        Ok(Warehouse {
            book,
            planners,
            near,
            fields,
        })
    }
}
