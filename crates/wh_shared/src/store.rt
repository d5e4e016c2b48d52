//! One field for each stop, for all planners.
#![tactic(auto)]

ghost use Rattle.std.specs.Prelude.{◌≡◌, ◌≤◌, ◌*◌, ◌/◌, max, min};
ghost use Rattle.std.specs.NonZero.{non_zero_usize_get};
ghost use Rattle.std.specs.Arc.{arc_value};
ghost use Rattle.wh_field.specs.Distances.{distance};
ghost use Rattle.wh_field.specs.Places.{places};
ghost use Rattle.wh_shared.specs.Stored.{AreTrue, level_beyond};

use lru::LruCache;
use std::alloc::{AllocError, Global};
use std::num::NonZeroUsize;
use std::sync::Arc;
use wh_field::{GrowingField, MOST_LEVEL};
use wh_grid::{Cell, Grid};

/// The fields that were asked for last, as many as there is room for, each the true one from its cell, and each filled
/// only as far as it was asked.
#[derive(Drop)]
pub struct SharedFields {
    grid: Arc<Grid, Global>,
    fields: LruCache<Cell, GrowingField>,
    ghost all_true: { AreTrue (arc_value grid) fields.entries },
}

impl SharedFields {
    ghost use Rattle.std.specs.Prelude.{[], IfOk, IfSome, IsSomeAnd, OnErr, length};
    ghost use Rattle.std.specs.Map.{lookup};
    ghost use Rattle.std.specs.Option.{option_copied};
    ghost use Rattle.wh_grid.specs.Cells.{is_cell};
    ghost use Rattle.wh_shared.specs.Stored.{IsFieldFrom};
    ghost use Rattle.wh_shared.specs.Shares.{HasAsked, stored, stored_grid, room};

    /// No field yet, and room for the given number. Fails when out of memory.
    pub fn new(
        alloc: Global,
        grid: Arc<Grid, Global>,
        most: NonZeroUsize,
    ) -> Result<SharedFields, AllocError>
        ensures room { IfOk result (λ s. room s ≡ non_zero_usize_get most) }
        ensures grid { IfOk result (λ s. stored_grid s ≡ arc_value grid) }
        ensures stored { IfOk result (λ s. stored s ≡ []) }
    {
        let fields = LruCache::new(alloc, most)?;
        Ok(SharedFields { grid, fields })
    }

    /// Fills the field from a stop until it has met a cell, and some steps farther, and returns how far; all of it where no
    /// walk leads there. It is then the most recently used one, filled no less than before; where there was none, the least recently
    /// used one makes room. Fails when out of memory for a new field, and nothing has changed.
    pub fn ask(
        &mut self,
        alloc: Global,
        stop: Cell,
        cell: Cell,
        farther: u32,
    ) -> Result<u32, AllocError>
        ensures room { room self.new ≡ room self.old }
        ensures grid { stored_grid self.new ≡ stored_grid self.old }
        ensures level { IfOk result (λ level. level ≡ level_beyond (distance (stored_grid self.old) stop cell) farther) }
        ensures asked { IfOk result (λ level. HasAsked self.old self.new stop level) }
        ensures there { IfOk result (λ level. IsSomeAnd (lookup (is_cell stop) (stored self.new)) (λ f. level ≤ f.level)) }
        ensures err { OnErr result (stored self.new ≡ stored self.old) }
    {
        if let Some(field) = self.fields.get_mut(&stop) {
            return Ok(extend(field, cell, farther));
        }
        let mut field = GrowingField::from(alloc, &self.grid, stop)?;
        let level = extend(&mut field, cell, farther);
        self.fields.put(stop, field)?;
        Ok(level)
    }

    /// The field from a cell, where it is there.
    pub fn look(&self, from: Cell) -> Option<&GrowingField>
        ensures exact { IfSome result (λ f. IsFieldFrom (stored_grid self.now) from f.now) }
        ensures found { option_copied result ≡ lookup (is_cell from) (stored self.now) }
    {
        self.fields.peek(&from)
    }

    /// How many fields there may be.
    pub fn room(&self) -> usize
        ensures { result ≡ room self.now }
    {
        self.fields.cap().get()
    }

    /// How many fields there are.
    pub fn count(&self) -> usize
        ensures value { result ≡ length (stored self.now) }
        ensures at_most { result ≤ room self.now }
        ensures each { AreTrue (stored_grid self.now) (stored self.now) }
    {
        self.fields.len()
    }
}

/// Fills a field until it has met a cell, and some steps farther, and returns how far. It is always inlined: a field that
/// was just made is then filled as a local variable, whose queue's length the compiler keeps in a register.
#[inline(always)]
fn extend(field: &mut GrowingField, cell: Cell, farther: u32) -> u32
    ensures grid { field.new.grid ≡ field.old.grid }
    ensures source { field.new.cell ≡ field.old.cell }
    ensures more { field.old.level ≤ field.new.level }
    ensures level { result ≡ level_beyond (distance field.old.grid field.old.cell cell) farther }
    ensures filled { result ≤ field.new.level }
{
    let level = level_beyond(field.reach(cell), farther);
    field.fill_to(level);
    level
}

/// A level some steps beyond a distance; the greatest where there is no distance, so that each estimate of a cell without
/// a walk is beyond all others.
fn level_beyond(distance: Option<u32>, farther: u32) -> u32
    ensures value { result ≡ level_beyond distance farther }
    ensures most { result ≤ MOST_LEVEL }
{
    match distance {
        Some(steps) => steps.saturating_add(farther).min(MOST_LEVEL),
        None => MOST_LEVEL,
    }
}

/// Room for as many fields as fit into the given number of bytes, and no more than the planners have slots, but for those of one
/// task, eight, in any case. A field takes 8 bytes for each of its places.
pub fn room_within(grid: &Grid, bytes: u64, slots: usize) -> NonZeroUsize
    ensures { non_zero_usize_get result ≡ max (min slots (bytes / (8 * places grid.now))) 8 }
{
    let places = (u64::from(grid.width()) + 1) * (u64::from(grid.height()) + 2);
    let fields = bytes / (8 * places);
    let most = slots.min(usize::try_from(fields).unwrap_or(slots)).max(8);
    match NonZeroUsize::new(most) {
        Some(most) => most,
        None => unreachable!(),
    }
}
