//! The intervals of which a node was met, and what is known of each.
#![tactic(auto)]

ghost use Rattle.std.specs.Prelude.{◌≡◌, ℕ, ◌<◌, ◌+◌, ◌^◌, OnOk, IfOk, IfSome, IfNone, [], length, map, slice_set, slice_index_or};
ghost use Rattle.wh_intervals.specs.Places.{slot, noted_at, known_in, kept, with_known, IsLinked, IsLatest, AreOthers};
ghost use Rattle.wh_intervals.specs.Closings.{closed_by};

use crate::interval::Interval;
use crate::known::Known;
use std::alloc::{AllocError, Global};
use std::marker::Model;

/// An interval, what is known of it, and the number of the one before it in the same slot, plus 1; 0 where
/// it is the first one there.
#[derive(Clone, Copy)]
pub struct Noted {
    pub interval: Interval,
    pub known: Known,
    pub before: u32,
}

/// The intervals of which a node was met. Each has a slot, from which those there are found, the latest
/// first.
#[derive(Drop)]
pub struct Intervals {
    alloc: Global,
    heads: Vec<u32>,
    noted: Vec<Noted>,
}

impl Model for Intervals {
    ghost use Rattle.std.specs.Prelude.{◌<◌, List, length};
    ghost use Rattle.wh_intervals.specs.Places.{slot, IsLinked};
    ghost use Rattle.wh_intervals.specs.declared.intervals.Noted.{Noted};

    ghost Value = { List Noted };

    ghost view = { λ s. s.noted.items };

    ghost invariant = { λ s. (0 < length s.heads.items) × IsLinked (slot (length s.heads.items)) s.heads.items s.noted.items (length s.noted.items) };
}

/// How many slots there are at first.
const SLOTS: usize = 512;

/// The slot of an interval, among a number of slots. It is a good spread where that is a power of two.
fn slot_of(size: usize, interval: Interval) -> usize
    requires { 0 < size }
    ensures value { result ≡ slot size interval }
    ensures bound { result < size }
{
    interval.spread() & (size - 1)
}

/// Links what is noted at a place, where all before it are linked.
fn link(heads: &mut [u32], noted: &mut [Noted], place: usize)
    requires some { 0 < length heads.old }
    requires within { place < length noted.old }
    requires small { place + 1 < 2 ^ 32 }
    requires linked { IsLinked (slot (length heads.old)) heads.old noted.old place }
    ensures linked { IsLinked (slot (length heads.old)) heads.new noted.new (place + 1) }
    ensures size { length heads.new ≡ length heads.old }
    ensures same { map kept noted.new ≡ map kept noted.old }
{
    let slot = slot_of(heads.len(), noted[place].interval);
    noted[place].before = heads[slot];
    heads[slot] = place as u32 + 1;
}

/// Links all that are noted, where there is none in a slot yet.
fn link_all(heads: &mut [u32], noted: &mut [Noted])
    requires some { 0 < length heads.old }
    requires small { length noted.old < 2 ^ 32 }
    requires fresh { (s : ℕ) → slice_index_or heads.old s 0 ≡ 0 }
    ensures linked { IsLinked (slot (length heads.old)) heads.new noted.new (length noted.new) }
    ensures size { length heads.new ≡ length heads.old }
    ensures same { map kept noted.new ≡ map kept noted.old }
{
    for place in 0..noted.len() {
        link(heads, noted, place);
    }
}

/// The number of the latest that is noted of an interval.
fn find(heads: &[u32], noted: &[Noted], interval: Interval) -> Option<usize>
    requires some { 0 < length heads.now }
    requires linked { IsLinked (slot (length heads.now)) heads.now noted.now (length noted.now) }
    ensures some { IfSome result (λ place. IsLatest noted.now interval place) }
    ensures none { IfNone result (AreOthers noted.now interval) }
{
    let mut link = heads[slot_of(heads.len(), interval)];
    while link > 0 {
        let place = link as usize - 1;
        if noted[place].interval.is(interval) {
            return Some(place);
        }
        link = noted[place].before;
    }
    None
}

impl Intervals {
    /// None, with room for `count` of them.
    pub fn with_room(alloc: Global, count: usize) -> Result<Self, AllocError>
        ensures { IfOk result (λ s. s ≡ []) }
    {
        let heads = vec![in alloc; 0; SLOTS]?;
        let noted = Vec::with_capacity(alloc, count)?;
        Ok(Intervals {
            alloc,
            heads,
            noted,
        })
    }

    /// The number of an interval; none where it is not noted.
    pub fn find(&self, interval: Interval) -> Option<usize>
        ensures some { IfSome result (λ place. IsLatest self.now interval place) }
        ensures none { IfNone result (AreOthers self.now interval) }
    {
        find(&self.heads, &self.noted, interval)
    }

    /// The number of an interval. If it is a new one, the given node is its newest.
    pub fn number_of(&mut self, interval: Interval, newest: usize) -> Result<usize, AllocError>
        ensures latest { IfOk result (λ place. IsLatest self.new interval place) }
        ensures same { OnOk result (closed_by (known_in self.new) ≡ closed_by (known_in self.old)) }
    {
        match self.find(interval) {
            Some(place) => Ok(place),
            None => self.note(interval, newest),
        }
    }

    /// Notes a new interval, of which the given node is the newest, and returns its number.
    pub fn note(&mut self, interval: Interval, newest: usize) -> Result<usize, AllocError>
        requires { AreOthers self.old interval }
        ensures latest { IfOk result (λ place. IsLatest self.new interval place) }
        ensures same { OnOk result (closed_by (known_in self.new) ≡ closed_by (known_in self.old)) }
    {
        let place = self.noted.len();
        if place >= u32::MAX as usize {
            return Err(AllocError);
        }
        self.make_room()?;
        self.noted.push(Noted {
            interval,
            known: Known {
                newest,
                since: None,
            },
            before: 0,
        })?;
        link(&mut self.heads, &mut self.noted, place);
        Ok(place)
    }

    /// Makes four times as many slots, if there are no more than intervals, so that few of these are in one.
    fn make_room(&mut self) -> Result<(), AllocError>
        requires { length self.old < 2 ^ 32 }
        ensures { map kept self.new ≡ map kept self.old }
    {
        if self.noted.len() < self.heads.len() {
            return Ok(());
        }
        let mut heads = vec![in self.alloc; 0; self.heads.len().saturating_mul(4)]?;
        link_all(&mut heads, &mut self.noted);
        self.heads = heads;
        Ok(())
    }

    /// What is known of the interval of a number.
    pub fn known(&self, place: usize) -> Known
        requires { place < length self.now }
        ensures { result ≡ (noted_at self.now place).known }
    {
        self.noted[place].known
    }

    /// Notes what is known of the interval of a number.
    pub fn set(&mut self, place: usize, known: Known)
        requires { place < length self.old }
        ensures { self.new ≡ slice_set self.old place (with_known (noted_at self.old place) known) }
    {
        self.noted[place].known = known;
    }
}
