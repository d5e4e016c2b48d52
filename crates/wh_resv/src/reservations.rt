//! The paths of all agents but one.
#![tactic(auto)]

ghost use Rattle.std.specs.Prelude.{◌≡◌, ◌≢◌, ℕ, ◌+◌, ◌<◌, ◌≤◌, ◌^◌, ◌↔◌, IsTrue, IfOk, IfSome, IfNone, length, remove, All};
ghost use Rattle.wh_path.specs.Paths.{horizon, at};
ghost use Rattle.wh_timetable.specs.Timetables.{IsTold};
ghost use Rattle.wh_resv.specs.Others.{MayStep, MayRest};
ghost use Rattle.wh_resv.specs.Calls.{IsVacant, NoneExchanges};
ghost use Rattle.wh_resv.specs.Questions.{IsLastFree, IsFreeWithin, IsNextFree, IsNeverFree};
ghost use Rattle.wh_resv.specs.Telling.{noted_of};

use crate::questions::{free_until, is_open, none_there, not_before, open_until};
use crate::times::next_free;
use crate::told::Told;
use std::alloc::{AllocError, Global};
use std::marker::Model;
use wh_grid::Cell;
use wh_path::{TimedPath, last_to_rest};
use wh_timetable::{Stays, Timetable};

/// The paths of all agents but one, and whether nobody may follow another. A question looks at the stays at one cell's
/// place, those of the one among them.
#[derive(Drop)]
pub struct Reservations<'a> {
    paths: &'a [TimedPath],
    except: usize,
    nofollow: bool,
    told: Told<'a>,
    latest: u64,
}

impl<'a> Model for Reservations<'a> {
    ghost use Rattle.std.specs.Prelude.{◌≡◌, ◌<◌, ◌^◌, List, length, remove};
    ghost use Rattle.wh_path.specs.Paths.{horizon};
    ghost use Rattle.wh_timetable.specs.Timetables.{IsTold};
    ghost use Rattle.wh_resv.specs.Others.{Others};
    ghost use Rattle.wh_resv.specs.Telling.{noted_of};

    ghost Value = { Others };

    ghost view = { λ r. record { paths = remove r.paths.now r.except; nofollow = r.nofollow } };

    ghost invariant = { λ r. IsTold (noted_of r.told) r.paths.now
        × (r.latest ≡ horizon (remove r.paths.now r.except)) × (r.latest < 2 ^ 61) };
}

impl<'a> Reservations<'a> {
    /// The paths of all agents but the one of this number. It notes each step of each path; `AllocError` where memory ran
    /// out, or a number of an agent has more than 32 bits.
    pub fn build(
        alloc: Global,
        paths: &'a [TimedPath],
        except: u32,
        nofollow: bool,
    ) -> Result<Self, AllocError>
        requires { except < length paths.now }
        ensures { IfOk result (λ r. r ≡ record { paths = remove paths.now except; nofollow = nofollow }) }
    {
        let except = except as usize;
        let stays = Stays::of(alloc, paths)?;
        Ok(Reservations {
            paths,
            except,
            nofollow,
            told: Told::Own(stays),
            latest: last_to_rest(paths, except),
        })
    }

    /// The paths of all agents of a timetable but the one of this number, if it has stays to give. It takes no memory,
    /// and time by the number of agents alone.
    pub fn kept(all: &'a Timetable, except: usize, nofollow: bool) -> Option<Self>
        requires { except < length all.now }
        ensures { IfSome result (λ r. r ≡ record { paths = remove all.now except; nofollow = nofollow }) }
    {
        let stays = all.stays()?;
        let paths = all.paths();
        Some(Reservations {
            paths,
            except,
            nofollow,
            told: Told::Kept(stays),
            latest: last_to_rest(paths, except),
        })
    }

    /// The paths of all agents of a timetable but the one of this number. If it has no stays to give, it does what `build`
    /// does.
    pub fn beside(
        alloc: Global,
        all: &'a Timetable,
        except: u32,
        nofollow: bool,
    ) -> Result<Self, AllocError>
        requires { except < length all.now }
        ensures { IfOk result (λ r. r ≡ record { paths = remove all.now except; nofollow = nofollow }) }
    {
        match Reservations::kept(all, except as usize, nofollow) {
            Some(others) => Ok(others),
            None => Reservations::build(alloc, all.paths(), except, nofollow),
        }
    }

    /// The time from which all others rest: their greatest last index, 0 where there is none.
    pub fn horizon(&self) -> u64
        ensures value { result ≡ horizon self.now.paths }
        ensures bound { result < 2 ^ 61 }
    {
        self.latest
    }

    /// Whether nobody may follow another.
    pub fn nofollow(&self) -> bool
        ensures { result ≡ self.now.nofollow }
    {
        self.nofollow
    }

    /// Whether nobody is at a cell at time k.
    pub fn vacant(&self, cell: Cell, k: u64) -> bool
        ensures { IsTrue result ↔ IsVacant self.now.paths cell k }
    {
        none_there(self.told.stays(), self.paths, self.except, cell, k)
    }

    /// Whether nobody is at the second cell at k, nor at the first one at k + 1.
    fn none_follows(&self, from: Cell, to: Cell, k: u64) -> bool
        requires { k + 1 < 2 ^ 64 }
        ensures { IsTrue result ↔ (IsVacant self.now.paths to k × IsVacant self.now.paths from (k + 1)) }
    {
        self.vacant(to, k) && self.vacant(from, k + 1)
    }

    /// Whether an agent may go from one cell, where nobody else is at k, to another between k
    /// and k + 1.
    #[inline(always)]
    pub fn may_enter(&self, from: Cell, to: Cell, k: u64) -> bool
        requires alone { IsVacant self.now.paths from k }
        requires time { k + 1 < 2 ^ 64 }
        ensures { IsTrue result ↔ MayStep self.now from to k }
    {
        if self.nofollow && !from.is(to) && !self.none_follows(from, to, k) {
            return false;
        }
        is_open(self.told.stays(), self.paths, self.except, from, to, k)
    }

    /// Up to when nobody is at a cell from k + 1 on, as far as a limit, where an agent may go there from another cell, where
    /// nobody else is at k, between k and k + 1; none where it may not.
    #[inline(always)]
    pub fn enter_until(&self, from: Cell, to: Cell, k: u64, limit: u64) -> Option<u64>
        requires alone { IsVacant self.now.paths from k }
        requires time { k < limit }
        ensures some { IfSome result (λ u. MayStep self.now from to k × IsFreeWithin self.now.paths to (k + 1) limit u) }
        ensures none { IfNone result (MayStep self.now from to k → ⊥) }
    {
        if self.nofollow && !from.is(to) && !self.none_follows(from, to, k) {
            return None;
        }
        let stays = self.told.stays();
        open_until(stays, self.paths, self.except, from, to, k, limit)
    }

    /// Whether an agent may go from one cell to another between k and k + 1.
    pub fn may_step(&self, from: Cell, to: Cell, k: u64) -> bool
        requires { k + 1 < 2 ^ 64 }
        ensures { IsTrue result ↔ MayStep self.now from to k }
    {
        if !self.vacant(from, k) {
            return false;
        }
        self.may_enter(from, to, k)
    }

    /// Whether no other is at a cell at time k or later.
    pub fn may_rest(&self, cell: Cell, k: u64) -> bool
        ensures { IsTrue result ↔ MayRest self.now cell k }
    {
        match self.not_before(cell) {
            None => false,
            Some(since) => since <= k,
        }
    }

    /// The time from which on an agent may rest at a cell, and before which nobody may; none where nobody ever may.
    pub fn not_before(&self, cell: Cell) -> Option<u64>
        ensures some { IfSome result (λ t. (k : ℕ) → MayRest self.now cell k → t ≤ k) }
        ensures since { IfSome result (λ t. (k : ℕ) → t ≤ k → MayRest self.now cell k) }
        ensures none { IfNone result ((k : ℕ) → MayRest self.now cell k → ⊥) }
    {
        not_before(self.told.stays(), self.paths, self.except, cell)
    }

    /// The last time up to which nobody is at a cell, where nobody is at time k; none where an agent may rest there from
    /// then on.
    pub fn free_until(&self, cell: Cell, k: u64) -> Option<u64>
        requires { IsVacant self.now.paths cell k }
        ensures some { IfSome result (λ u. IsLastFree self.now.paths cell k u) }
        ensures none { IfNone result (MayRest self.now cell k) }
    {
        free_until(self.told.stays(), self.paths, self.except, cell, k)
    }

    /// The first time from k on at which nobody is at a cell; none where somebody always is.
    pub fn next_free(&self, cell: Cell, k: u64) -> Option<u64>
        ensures some { IfSome result (λ f. IsNextFree self.now.paths cell k f) }
        ensures none { IfNone result (IsNeverFree self.now.paths cell k) }
    {
        let stays = self.told.stays();
        next_free(stays, self.paths, self.except, cell, k, self.latest)
    }
}
