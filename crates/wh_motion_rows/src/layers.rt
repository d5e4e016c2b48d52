//! The plain search in layers of time, beside which the rows hold the searches of the program. It looks
//! at every state of one time before any of the next, with no field and no estimate. All times from
//! the horizon on are one layer.
#![tactic(auto)]

ghost use Rattle.std.specs.Prelude.{◌≡◌, ℕ, ◌+◌, ◌*◌, ◌-◌, ◌<◌, ◌≤◌, ◌^◌, ◌↔◌, ◌⊎◌, ◌++◌, ◌∷◌, [], List, IsTrue, OnOk, IfOk, MatchOption, Option, Some, None, length, vec_len};
ghost use Rattle.wh_grid.specs.declared.cell.Cell.{Cell};
ghost use Rattle.wh_grid.specs.Grids.{IsPassable};
ghost use Rattle.wh_resv.specs.Others.{MayStep, MayRest};
ghost use Rattle.wh_path.specs.Paths.{last_index};
ghost use Rattle.wh_search.specs.Deliveries.{IsDelivery, IsLawful, IsLeast, IfNoPath, AreStops};
ghost use Rattle.wh_search.specs.Parkings.{IsParking, IsLeastParking};
ghost use Rattle.wh_search.specs.Frontiers.{problem, node_at, state_of, HasState, IsErrand};
ghost use Rattle.wh_motion_rows.specs.Layers.{IsLayered, Notes};
ghost use Rattle.wh_search.specs.States.{IsEnd};
ghost use Rattle.wh_search.specs.Tours.{IsTour, IsLeastTour};

use crate::trail::walk_back;
use std::alloc::{AllocError, Global};
use wh_grid::{Cell, Grid};
use wh_path::TimedPath;
use wh_resv::Reservations;
use wh_search::Fault;
use wh_search::errand::{Errand, arrive};
use wh_search::guide::Guide;
use wh_search::moves::moves_from;
use wh_search::noted::{MOST, Node, holds};

/// The states that were met, in the order of their times, and by cell and number of stops behind
/// where the last of each stands.
#[derive(Drop)]
struct Met {
    nodes: Vec<Node>,
    last: Vec<usize>,
}

/// The place of a node's cell and number of stops.
fn place_of(errand: &Errand, node: Node) -> usize {
    let row = (node.leg as usize)
        .saturating_mul(errand.grid.height() as usize)
        .saturating_add(node.cell.y as usize);
    row.saturating_mul(errand.grid.width() as usize)
        .saturating_add(node.cell.x as usize)
}

/// Whether a node stands for another: the same state, at the same time or earlier from the horizon on.
fn stands_for(errand: &Errand, old: Node, new: Node) -> bool
    ensures { IsTrue result → (state_of old ≡ state_of new) × ((old.time ≡ new.time) ⊎ ((errand.now.horizon ≤ old.time) × (old.time ≤ new.time))) }
{
    if old.leg != new.leg || !old.cell.is(new.cell) {
        return false;
    }
    old.time == new.time || (errand.horizon <= old.time as u64 && old.time <= new.time)
}

/// Notes a number at a place, where there is one.
fn note(numbers: &mut [usize], place: usize, number: usize) {
    if place < numbers.len() {
        numbers[place] = number;
    }
}

/// Whether a node is an end of the search.
fn is_end(errand: &Errand, node: Node) -> bool
    ensures { IsTrue result ↔ IsEnd errand.now.others.now errand.now.via.now errand.now.ends.now node.time (state_of node) }
{
    node.leg as usize == errand.via.len()
        && holds(errand.ends, node.cell)
        && errand.others.may_rest(node.cell, node.time as u64)
}

/// Whether an agent may go from one cell to another between k and k + 1.
fn allows(errand: &Errand, from: Cell, to: Cell, k: u64) -> bool
    requires { k + 1 < 2 ^ 64 }
    ensures { IsTrue result ↔ (IsPassable errand.now.grid.now to × MayStep errand.now.others.now from to k) }
{
    errand.grid.passable(to) && errand.others.may_step(from, to, k)
}

impl Met {
    fn new(alloc: Global, errand: &Errand) -> Result<Self, AllocError>
        ensures { IfOk result (λ met. met.nodes.items ≡ []) }
    {
        let legs = errand.via.len().saturating_add(1);
        let places = legs.saturating_mul(errand.grid.rows().len());
        Ok(Met {
            nodes: Vec::new(alloc),
            last: vec![in alloc; 0; places]?,
        })
    }

    /// Whether a state that stands for a node's was met.
    fn knows(&self, errand: &Errand, node: Node) -> bool
        ensures { IsTrue result → HasState (problem errand.now) self.now.nodes.items node.time (state_of node) }
    {
        match self.last.get(place_of(errand, node)) {
            // the place is a hint, and the node is looked at
            Some(index) => {
                *index < self.nodes.len() && stands_for(errand, self.nodes[*index], node)
            }
            None => false,
        }
    }

    /// Adds a state, unless one that stands for it was met.
    fn meet(
        &mut self,
        errand: &Errand,
        time: u64,
        leg: usize,
        cell: Cell,
        parent: usize,
    ) -> Result<(), AllocError>
        ensures { OnOk result (Notes (problem errand.now) self.old.nodes.items self.new.nodes.items (record { time = time; leg = leg; cell = cell; parent = parent })) }
    {
        if time > MOST || leg as u64 > MOST || parent as u64 > MOST {
            return Err(AllocError);
        }
        let node = Node {
            time: time as u32,
            leg: leg as u32,
            cell,
            parent: parent as u32,
        };
        if self.knows(errand, node) {
            return Ok(());
        }
        note(&mut self.last, place_of(errand, node), self.nodes.len());
        self.nodes.push(node)?;
        Ok(())
    }

    /// Meets each state to which a node leads, unless it is too late.
    fn expand(&mut self, errand: &Errand, index: usize) -> Result<(), AllocError>
        requires errand { IsErrand errand.now }
        requires within { index < vec_len self.old.nodes }
        requires kept { IsLayered (problem errand.now) self.old.nodes.items index }
        requires no_end { IsEnd errand.now.others.now errand.now.via.now errand.now.ends.now (node_at self.old.nodes.items index).time (state_of (node_at self.old.nodes.items index)) → ⊥ }
        ensures { OnOk result (IsLayered (problem errand.now) self.new.nodes.items (index + 1)) }
    {
        let _width = errand.grid.width();
        let _height = errand.grid.height();
        let from = self.nodes[index];
        let time = from.time as u64;
        let behind = from.leg as usize;
        if time >= errand.limit {
            return Ok(());
        }
        let moves = moves_from(from.cell);
        for i in 0..5 {
            let to = moves[i];
            if allows(errand, from.cell, to, time) {
                let leg = arrive(errand.via, behind, to);
                self.meet(errand, time + 1, leg, to, index)?;
            }
        }
        Ok(())
    }
}

/// A least tour, or none where there is no tour.
fn search(alloc: Global, errand: &Errand) -> Result<Option<TimedPath>, AllocError>
    requires { IsErrand errand.now }
    ensures { IfOk result (λ found. MatchOption found
        ((q : List Cell) → IsTour errand.now.grid.now errand.now.others.now errand.now.loc errand.now.via.now errand.now.ends.now q → ⊥)
        (λ p. IsLeastTour errand.now.grid.now errand.now.others.now errand.now.loc errand.now.via.now errand.now.ends.now p)) }
{
    let mut met = Met::new(alloc, errand)?;
    met.meet(errand, 0, errand.first, errand.loc, 0)?;
    for index in 0..usize::MAX {
        if index >= met.nodes.len() {
            return Ok(None);
        }
        if is_end(errand, met.nodes[index]) {
            let path = walk_back(alloc, errand, &met.nodes, index)?;
            return Ok(Some(path));
        }
        met.expand(errand, index)?;
    }
    // not in practice: each round looks at one more of the nodes
    Err(AllocError)
}

/// A least path, or none where there is no delivery.
fn find<'x>(
    alloc: Global,
    grid: &'x Grid,
    others: &'x Reservations<'x>,
    loc: Cell,
    stops: &'x [Cell],
) -> Result<Option<TimedPath>, AllocError>
    requires inside { IsPassable grid.now loc }
    requires stops { AreStops stops.now }
    ensures { IfOk result (λ found. MatchOption found
        ((q : List Cell) → IsDelivery grid.now others.now loc stops.now q → ⊥)
        (λ p. IsLeast grid.now others.now loc stops.now p)) }
{
    let last = stops.len() - 1;
    let via = &stops[..last];
    let ends = &stops[last..];
    let horizon = others.horizon();
    let errand = Errand {
        grid,
        others,
        loc,
        via,
        ends,
        guide: Guide::Stops {
            fields: &[],
            onward: &[],
        },
        first: arrive(via, 0, loc),
        horizon,
        limit: horizon + stops.len() as u64 * u64::from(grid.cells()),
        soonest: 0,
        exact: false,
        least: 0,
    };
    search(alloc, &errand)
}

/// A lawful path from loc through the stops, with the least last index. `NoPath` exactly if no path delivers,
/// however long; `NoMemory` if memory ran out.
pub fn deliver<'x>(
    alloc: Global,
    grid: &'x Grid,
    others: &'x Reservations<'x>,
    loc: Cell,
    stops: &'x [Cell],
) -> Result<TimedPath, Fault>
    requires inside { IsPassable grid.now loc }
    requires clear { MayRest others.now loc 0 }
    requires stops { AreStops stops.now }
    ensures lawful { IfOk result (λ p. IsLawful grid.now others.now loc stops.now p) }
    ensures least { IfOk result (λ p. (q : List Cell) → IsDelivery grid.now others.now loc stops.now q → last_index p ≤ last_index q) }
    ensures none { IfNoPath result ((q : List Cell) → IsDelivery grid.now others.now loc stops.now q → ⊥) }
{
    match find(alloc, grid, others, loc, stops) {
        Ok(Some(path)) => Ok(path),
        Ok(None) => Err(Fault::NoPath),
        Err(_) => Err(Fault::NoMemory),
    }
}

/// A least path to one of the allowed cells, or none.
fn find_parking<'x>(
    alloc: Global,
    grid: &'x Grid,
    others: &'x Reservations<'x>,
    loc: Cell,
    allowed: &'x [Cell],
) -> Result<Option<TimedPath>, AllocError>
    requires { IsPassable grid.now loc }
    ensures { IfOk result (λ found. MatchOption found
        ((q : List Cell) → IsParking grid.now others.now loc allowed.now q → ⊥)
        (λ p. IsLeastParking grid.now others.now loc allowed.now p)) }
{
    let horizon = others.horizon();
    let errand = Errand {
        grid,
        others,
        loc,
        via: &[],
        ends: allowed,
        guide: Guide::Stops {
            fields: &[],
            onward: &[],
        },
        first: 0,
        horizon,
        limit: horizon + u64::from(grid.cells()),
        soonest: 0,
        exact: false,
        least: 0,
    };
    search(alloc, &errand)
}

/// A lawful path from loc to one of the allowed cells, with the least last index. `NoPath` exactly if no path parks,
/// however long; `NoMemory` if memory ran out.
pub fn park<'x>(
    alloc: Global,
    grid: &'x Grid,
    others: &'x Reservations<'x>,
    loc: Cell,
    allowed: &'x [Cell],
) -> Result<TimedPath, Fault>
    requires inside { IsPassable grid.now loc }
    requires clear { MayRest others.now loc 0 }
    ensures least { IfOk result (λ p. IsLeastParking grid.now others.now loc allowed.now p) }
    ensures none { IfNoPath result ((q : List Cell) → IsParking grid.now others.now loc allowed.now q → ⊥) }
{
    match find_parking(alloc, grid, others, loc, allowed) {
        Ok(Some(path)) => Ok(path),
        Ok(None) => Err(Fault::NoPath),
        Err(_) => Err(Fault::NoMemory),
    }
}
