//! The planners as they are taken in, and what a warehouse has beside them and its book.
#![tactic(auto)]

ghost use Rattle.std.specs.Prelude.{◌≡◌, ℕ, ◌<◌, ◌≤◌, length, true, false, IfOk, IfErr, IfNone, IfSome};
ghost use Rattle.wh_shared.specs.Shares.{stored_grid};
ghost use Rattle.wh_token.specs.Fleet.{IsTied, AllFit, IsFirstForeign, HaveSlots, IsFirstOther, RefusesToResume};
ghost use Rattle.wh_token.specs.declared.roster.OpenFault.TheVariants.{NoMemory};

use std::alloc::{AllocError, Global};
use std::sync::Arc;
use wh_book::Book;
use wh_field::LazyField;
use wh_grid::{Cell, Grid};
use wh_planner::Plans;
use wh_shared::{SharedFields, room_within};

/// How many bytes the distance fields that are lent to the planners may take, but for those of one task.
const FIELD_BYTES: u64 = 67_108_864;

/// Why a warehouse cannot be opened.
#[derive(Clone, Copy, Debug, PartialEq, Eq)]
pub enum OpenFault {
    /// E12: there is not one planner for each agent.
    WrongCount,
    /// E9: this agent's planner, the first such, is of another map.
    Foreign { agent: u32 },
    /// E90: a growth was refused.
    NoMemory,
}

impl From<AllocError> for OpenFault {
    ghost from_gives = { λ _ e. e ≡ NoMemory };

    fn from(_: AllocError) -> Self {
        OpenFault::NoMemory
    }
}

/// Why a warehouse cannot go on.
#[derive(Clone, Copy, Debug, PartialEq, Eq)]
pub enum ResumeFault {
    /// E12: there is not one planner for each agent.
    WrongCount,
    /// E9: this agent's planner, the first such, is of another map.
    Foreign { agent: u32 },
    /// This agent's planner, the first such, has not the slots that the state tells.
    WrongSlots { agent: u32 },
    /// E90: a growth was refused.
    NoMemory,
}

impl From<AllocError> for ResumeFault {
    ghost use Rattle.wh_token.specs.declared.roster.ResumeFault.TheVariants.{NoMemory as Starved};

    ghost from_gives = { λ _ e. e ≡ Starved };

    fn from(_: AllocError) -> Self {
        ResumeFault::NoMemory
    }
}

/// What a warehouse that goes on from the book's state has beside its planners. It refuses in the order of
/// [`ResumeFault`].
pub(crate) fn outfit<P: Plans>(
    alloc: Global,
    book: &Book,
    planners: &[P],
) -> Result<(LazyField, SharedFields), ResumeFault>
    ensures seats { IfOk result (λ _. length planners.now ≡ length book.now.state.paths) }
    ensures tied { IfOk result (λ _. IsTied P.fits_map P.slot_count book.now.site.grid planners.now book.now.state.slots) }
    ensures over { IfOk result (λ both. both.0.grid ≡ book.now.site.grid) }
    ensures lent { IfOk result (λ both. stored_grid both.1 ≡ book.now.site.grid) }
    ensures refused { IfErr result (RefusesToResume P.fits_map P.slot_count book.now.site.grid planners.now book.now.state.slots) }
{
    let grid = book.setting().grid();
    let slots = book.slots();
    let _paths = book.paths();
    if planners.len() != slots.len() {
        return Err(ResumeFault::WrongCount);
    }
    if let Some(agent) = first_foreign(planners, grid) {
        return Err(ResumeFault::Foreign { agent });
    }
    if let Some(agent) = first_other(planners, slots) {
        return Err(ResumeFault::WrongSlots { agent });
    }
    let near = LazyField::from(alloc, grid, Cell { x: 0, y: 0 })?;
    let fields = fields_over(alloc, book.setting().shared_grid(), slots)?;
    Ok((near, fields))
}

/// No fields yet, to be lent to planners of these slots on the grid.
pub(crate) fn fields_over(
    alloc: Global,
    grid: &Arc<Grid>,
    slots: &[u32],
) -> Result<SharedFields, AllocError>
    ensures { IfOk result (λ fields. stored_grid fields ≡ grid.now.value) }
{
    let room = room_within(grid, FIELD_BYTES, slots_in_all(slots));
    SharedFields::new(alloc, Arc::try_clone(grid)?, room)
}

/// The number of the first planner that has not these slots.
pub(crate) fn first_other<P: Plans>(planners: &[P], slots: &[u32]) -> Option<u32>
    requires few { length planners.now ≤ 256 }
    requires each { length slots.now ≡ length planners.now }
    ensures none { IfNone result (HaveSlots P.slot_count planners.now slots.now) }
    ensures first { IfSome result (IsFirstOther P.slot_count planners.now slots.now) }
{
    for (agent, planner) in planners.iter().enumerate() {
        if planner.slots() != slots[agent] {
            return Some(agent as u32);
        }
    }
    None
}

/// The number of the first planner that does not plan on the grid.
pub(crate) fn first_foreign<P: Plans>(planners: &[P], grid: &Grid) -> Option<u32>
    requires few { length planners.now ≤ 256 }
    ensures none { IfNone result (AllFit P.fits_map grid.now planners.now) }
    ensures first { IfSome result (IsFirstForeign P.fits_map grid.now planners.now) }
{
    for (agent, planner) in planners.iter().enumerate() {
        if !planner.fits(grid) {
            return Some(agent as u32);
        }
    }
    None
}

/// The slots of the planners, which all plan on the grid.
pub(crate) fn slots_of<P: Plans>(
    alloc: Global,
    planners: &[P],
    _grid: &Grid,
) -> Result<Vec<u32>, AllocError>
    requires { AllFit P.fits_map _grid.now planners.now }
    ensures { IfOk result (λ slots. IsTied P.fits_map P.slot_count _grid.now planners.now slots.items) }
{
    let mut slots = Vec::with_capacity(alloc, planners.len())?;
    for planner in planners {
        slots.push(planner.slots())?;
    }
    Ok(slots)
}

/// How many slots they have in all.
fn slots_in_all(slots: &[u32]) -> usize {
    let mut all: usize = 0;
    for slots in slots {
        all = all.saturating_add(*slots as usize);
    }
    all
}
