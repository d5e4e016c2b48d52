//! States that were noted.
#![tactic(auto)]

ghost use Rattle.std.specs.Prelude.{◌≡◌, ℕ, ◌+◌, ◌*◌, ◌<◌, ◌≤◌, ◌^◌, ◌⊎◌, ◌↔◌, IsTrue, IfOk, OnOk, [], length, Contains};
ghost use Rattle.wh_grid.specs.declared.cell.Cell.{Cell};
ghost use Rattle.wh_search.specs.Rooms.{noted_room};
ghost use Rattle.wh_search.specs.Ways.{state_number};

use std::alloc::{AllocError, Global};
use wh_grid::Cell;

/// The greatest number that a node holds. Where there would be a greater one, memory has run out.
pub const MOST: u64 = 4294967295;

/// An agent that is at a cell at some time with a number of stops behind it, and the number of the
/// node from which it came.
#[derive(Clone, Copy)]
pub struct Node {
    pub time: u32,
    pub leg: u32,
    pub cell: Cell,
    pub parent: u32,
}

/// The number of a state, of its leg and its cell; never 0.
#[inline(always)]
pub(crate) fn state_number(leg: u32, cell: Cell) -> u64
    requires { leg < 4294967295 }
    ensures { result ≡ state_number (record { leg = leg; cell = cell }) }
{
    leg as u64 * 4294967296 + cell.y as u64 * 65536 + cell.x as u64 + 1
}

/// Where to begin to look for a number.
fn first_place(number: u64) -> usize {
    (number.wrapping_mul(0x9E37_79B9_7F4A_7C15) >> 32) as usize
}

/// Numbers that were noted, each at a place of a table, where 0 stands for none.
#[derive(Drop)]
pub struct Noted {
    pub slots: Vec<u64>,
    pub count: usize,
}

/// Whether a cell is one of some.
pub fn holds(cells: &[Cell], cell: Cell) -> bool
    ensures { IsTrue result ↔ Contains cells.now cell }
{
    for c in cells {
        if c.is(cell) {
            return true;
        }
    }
    false
}

/// Puts a number at an empty place.
#[inline(always)]
fn put(slots: &mut [u64], number: u64)
    ensures size { length slots.new ≡ length slots.old }
    ensures numbers { (n : ℕ) → Contains slots.new n → (n ≡ number) ⊎ Contains slots.old n }
{
    let mask = slots.len().wrapping_sub(1);
    let mut place = first_place(number) & mask;
    for _ in 0..slots.len() {
        if place >= slots.len() {
            return;
        }
        if slots[place] == 0 {
            slots[place] = number;
            return;
        }
        place = place.wrapping_add(1) & mask;
    }
}

/// A table of a size that is a multiple of 256, with no number.
fn none_noted(alloc: Global, size: usize) -> Result<Vec<u64>, AllocError>
    ensures { IfOk result (λ slots. (n : ℕ) → Contains slots.items n → n ≡ 0) }
{
    let mut slots = Vec::with_capacity(alloc, size)?;
    for _ in 0..size / 256 {
        slots.extend_from_slice(&[0; 256])?;
    }
    Ok(slots)
}

impl Noted {
    /// One that has taken no memory.
    pub fn empty(alloc: Global) -> Self
        ensures { noted_room result ≡ 0 }
    {
        Noted {
            slots: Vec::new(alloc),
            count: 0,
        }
    }

    /// For how many entries there is room in its table.
    pub fn room(&self) -> usize
        ensures { result ≡ noted_room self.now }
    {
        self.slots.capacity()
    }

    /// Forgets all, and keeps the room.
    pub(crate) fn forget(&mut self)
        ensures slots { self.new.slots.items ≡ [] }
        ensures count { self.new.count ≡ 0 }
    {
        self.slots.clear();
        self.count = 0;
    }

    /// Whether a number was noted.
    #[inline(always)]
    pub(crate) fn has(&self, number: u64) -> bool
        ensures { IsTrue result → Contains self.now.slots.items number }
    {
        let mask = self.slots.len().wrapping_sub(1);
        let mut place = first_place(number) & mask;
        for _ in 0..self.slots.len() {
            if place >= self.slots.len() {
                return false;
            }
            let there = self.slots[place];
            if there == number {
                return true;
            }
            if there == 0 {
                return false;
            }
            place = place.wrapping_add(1) & mask;
        }
        false
    }

    /// Makes the table larger: as small as at first where it has no place, and else four times as large.
    #[inline(never)]
    fn grow(&mut self, alloc: Global) -> Result<(), AllocError>
        ensures numbers { OnOk result ((n : ℕ) → Contains self.new.slots.items n → (n ≡ 0) ⊎ Contains self.old.slots.items n) }
        ensures count { OnOk result (self.new.count ≡ self.old.count) }
    {
        if self.slots.is_empty() {
            self.slots.reserve(1024)?;
            self.slots.extend_from_slice(&[0; 256])?;
            return Ok(());
        }
        let mut larger = none_noted(alloc, self.slots.len().saturating_mul(4))?;
        for number in &self.slots {
            if *number != 0 {
                put(&mut larger, *number);
            }
        }
        self.slots = larger;
        Ok(())
    }

    /// Notes a number. At most half of the places are taken.
    #[inline(always)]
    pub(crate) fn note(&mut self, alloc: Global, number: u64) -> Result<(), AllocError>
        requires { self.old.count + 1 < 2 ^ 64 }
        ensures numbers { OnOk result ((n : ℕ) → Contains self.new.slots.items n → (n ≡ 0) ⊎ ((n ≡ number) ⊎ Contains self.old.slots.items n)) }
        ensures count { OnOk result (self.new.count ≡ self.old.count + 1) }
    {
        self.count += 1;
        if self.count > self.slots.len() / 2 {
            self.grow(alloc)?;
        }
        put(&mut self.slots, number);
        Ok(())
    }
}
