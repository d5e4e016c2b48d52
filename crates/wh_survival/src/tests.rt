//! A run whose journal is cut at each byte, and that goes on.

ghost use Rattle.std.specs.Prelude.{◌≤◌, IfOk, length};
ghost use Rattle.std.specs.Arc.{arc_value};
ghost use Rattle.wh_claims.specs.Bank.{Belongs};
ghost use Rattle.wh_claims.specs.Claim.{claim_amount};
ghost use Rattle.wh_points.specs.Points.{IsLayout};

use super::displays::opened;
use std::alloc::Global;
use std::sync::Arc;
use std::test::*;
use wh_claims::{Bank, BankSeat, Claim};
use wh_grid::Grid;
use wh_journal::{Journal, JournalFault, Warehouse, replay_journaled};
use wh_lines::Lines;
use wh_log::{Form, begun_text};
use wh_planners::Patient;
use wh_points::Points;
use wh_replay::write_all;
use wh_resume::{Recovery, Resumed, Setting, recover};

const MAP: &[u8] = b"type octile\nheight 3\nwidth 5\nmap\n@.@.@\n.....\n@.@.@\n";

const POINTS: &[u8] =
    b"parking P0 0 1\nparking P1 4 1\nstation A 1 0\nstation B 3 0\nstation C 1 2\nstation D 3 2\nagent P0\nagent P1\n";

const SCRIPT: &str =
    "submit x A B\ntoken 0\ntick\ntick\nsubmit y D C\ntoken 1\ntick\ntick\ntick\ntick\ntick\ntick\ntick\ntoken 0\ntoken 1\nreplace 0\ntick\nclose\ntick\n";

/// A journal in memory that tells its contracts nothing, as one in a file. It records how many bytes were synced.
#[derive(Drop)]
struct Shelf {
    held: Vec<u8>,
    safe: usize,
    has_failed: bool,
}

impl Shelf {
    fn new(alloc: Global) -> Shelf {
        Shelf {
            held: Vec::new(alloc),
            safe: 0,
            has_failed: false,
        }
    }
}

impl Journal for Shelf {
    ghost failed = { λ j. j.has_failed };

    fn append(&mut self, bytes: &[u8]) -> Result<(), JournalFault> {
        if self.has_failed {
            return Err(JournalFault);
        }
        if write_all(&mut self.held, bytes).is_err() {
            self.has_failed = true;
            return Err(JournalFault);
        }
        Ok(())
    }

    fn sync(&mut self) -> Result<(), JournalFault> {
        if self.has_failed {
            return Err(JournalFault);
        }
        self.safe = self.held.len();
        Ok(())
    }
}

pub fn grid(alloc: Global) -> Result<Arc<Grid>, Fail> {
    match Grid::read(alloc, MAP) {
        Ok(grid) => Ok(Arc::new(alloc, grid)?),
        Err(_) => Err("the map is read")?,
    }
}

pub fn points(alloc: Global, grid: &Grid) -> Result<Points, Fail>
    ensures layout { IfOk result (IsLayout grid.now) }
    ensures some { IfOk result (λ p. 1 ≤ length p.agents) }
{
    match Points::read(alloc, grid, POINTS) {
        Ok(points) => Ok(points),
        Err(_) => Err("the points are read")?,
    }
}

/// This many slots of the bank.
fn claim(bank: &Arc<Bank>, seat: &mut BankSeat, slots: u32) -> Result<Claim, Fail>
    requires { Belongs seat.old (arc_value bank.now) }
    ensures seat { Belongs seat.new (arc_value bank.now) }
    ensures at_least { IfOk result (λ claim. 2 ≤ claim_amount claim) }
    ensures at_most { IfOk result (λ claim. claim_amount claim ≤ 64) }
{
    if slots < 2 || slots > 64 {
        return Err("a planner has 2 to 64 slots".into());
    }
    let shared = Arc::try_clone(bank)?;
    let own = seat.split(bank);
    match Claim::take(shared, own, slots) {
        Ok(claim) => Ok(claim),
        Err(_) => Err("there are slots".into()),
    }
}

/// A planner of this many slots.
fn planner(
    bank: &Arc<Bank>,
    seat: &mut BankSeat,
    grid: &Arc<Grid>,
    slots: u32,
) -> Result<Patient, Fail>
    requires { Belongs seat.old (arc_value bank.now) }
    ensures { Belongs seat.new (arc_value bank.now) }
{
    let claim = claim(bank, seat, slots)?;
    match Arc::try_clone(grid) {
        Ok(over) => Ok(Patient::new(over, claim)),
        Err(_) => {
            drop(claim);
            Err("there is memory".into())
        }
    }
}

/// Some planners come to a row, each with so many slots.
fn add_planners(
    row: &mut Vec<Patient>,
    bank: &Arc<Bank>,
    seat: &mut BankSeat,
    grid: &Arc<Grid>,
    slots: &[u32],
) -> Result<(), Fail>
    requires { Belongs seat.old (arc_value bank.now) }
{
    for count in slots {
        row.push(planner(bank, seat, grid, *count)?)?;
    }
    Ok(())
}

pub fn planners(alloc: Global, grid: &Arc<Grid>, slots: &[u32]) -> Result<Vec<Patient>, Fail> {
    let (bank, mut seat) = Bank::new(alloc, 1024)?;
    let mut row = Vec::new(alloc);
    match add_planners(&mut row, &bank, &mut seat, grid, slots) {
        Ok(()) => Ok(row),
        Err(fault) => {
            drop(row);
            Err(fault)
        }
    }
}

/// The bytes after the given number of line feeds.
fn behind(text: &[u8], lines: usize) -> usize
    ensures { result ≤ length text.now }
{
    let mut left = lines;
    for (k, b) in text.iter().enumerate() {
        if left == 0 {
            return k;
        }
        if *b == b'\n' {
            left -= 1;
        }
    }
    text.len()
}

/// What a whole run leaves: its journal, its replies, and how many entries its history has.
#[derive(Drop)]
struct Whole {
    held: Vec<u8>,
    told: Vec<u8>,
    entries: usize,
}

/// A journal with these bytes, synced.
fn shelf_with(alloc: Global, bytes: &[u8]) -> Option<Shelf> {
    let mut shelf = Shelf::new(alloc);
    if shelf.append(bytes).is_ok() && shelf.sync().is_ok() {
        Some(shelf)
    } else {
        None
    }
}

/// The replies to a script, if all of it is served.
fn served(
    alloc: Global,
    script: &[u8],
    shelf: &mut Shelf,
    warehouse: &mut Warehouse<Patient>,
) -> Option<Vec<u8>> {
    let mut told = Vec::new(alloc);
    let mut spares = Vec::new(alloc);
    let mut lines = Lines::new(script);
    match replay_journaled(
        &mut lines,
        alloc,
        Form::Full,
        shelf,
        &mut told,
        warehouse,
        &mut spares,
    ) {
        Ok(()) => Some(told),
        Err(_) => None,
    }
}

/// What the whole script leaves in a warehouse, behind the first lines of the log.
fn left_by(alloc: Global, head: &[u8], warehouse: &mut Warehouse<Patient>) -> Option<Whole> {
    let mut shelf = shelf_with(alloc, head)?;
    match served(alloc, SCRIPT.as_bytes(), &mut shelf, warehouse) {
        Some(told) => Some(Whole {
            held: shelf.held,
            told,
            entries: warehouse.history().len(),
        }),
        None => None,
    }
}

/// The whole run.
fn whole_run(alloc: Global, head: &[u8]) -> Result<Whole, Fail> {
    let mut warehouse = opened(alloc)?;
    let left = left_by(alloc, head, &mut warehouse);
    drop(warehouse);
    Ok(left.ok_or("it is served")?)
}

/// A journal with the first bytes of a text, synced. None: there are fewer.
fn shelf_with_front(alloc: Global, text: &[u8], bytes: usize) -> Option<Shelf> {
    shelf_with(alloc, text.get(..bytes)?)
}

/// Whether the rest of the script, behind this many entries and a journal, leaves what the whole run did.
fn ends_alike(
    alloc: Global,
    whole: &Whole,
    mut rest: Shelf,
    known: usize,
    warehouse: &mut Warehouse<Patient>,
) -> bool {
    let (script, replies) = (SCRIPT.as_bytes(), whole.told.as_slice());
    match served(
        alloc,
        &script[behind(script, known)..],
        &mut rest,
        warehouse,
    ) {
        Some(told) => {
            rest.held.as_slice() == whole.held.as_slice()
                && rest.safe == whole.held.len()
                && told.as_slice() == &replies[behind(replies, known)..]
        }
        None => false,
    }
}

/// Whether what was recovered of a journal that was cut is its whole lines, and goes on to what the whole run left.
fn goes_on(
    alloc: Global,
    map: &Arc<Grid>,
    whole: &Whole,
    cut: &[u8],
    resumed: Resumed,
) -> Result<bool, Fail> {
    let Resumed {
        book,
        bytes,
        is_ended,
        ..
    } = resumed;
    let known = book.history().len();
    let is_whole = !is_ended && bytes == behind(whole.held.as_slice(), known + 2);
    match planners(alloc, map, book.slots()) {
        Ok(crew) => match Warehouse::resume(alloc, book, crew) {
            Ok(mut again) => {
                let is_alike = match shelf_with_front(alloc, cut, bytes) {
                    Some(rest) => ends_alike(alloc, whole, rest, known, &mut again),
                    None => false,
                };
                drop(again);
                Ok(is_whole && is_alike)
            }
            Err(_) => Ok(false),
        },
        Err(fault) => {
            drop(book);
            Err(fault)
        }
    }
}

/// The floor of the run.
pub fn setting_on(alloc: Global, map: &Arc<Grid>) -> Result<Setting, Fail>
    ensures { IfOk result (λ s. 1 ≤ length s.layout.agents) }
{
    let places = points(alloc, map)?;
    match Arc::try_clone(map) {
        Ok(over) => Ok(Setting::new(over, places)),
        Err(_) => {
            drop(places);
            Err("there is memory".into())
        }
    }
}

/// Whether a run whose journal was cut to these bytes has not begun, or goes on.
fn survives_on(
    alloc: Global,
    map: &Arc<Grid>,
    head: &[u8],
    whole: &Whole,
    cut: &[u8],
) -> Result<bool, Fail> {
    let setting = setting_on(alloc, map)?;
    match recover(alloc, setting, head, &mut &*cut) {
        Ok(Recovery::Unopened(setting)) => {
            drop(setting);
            Ok(cut.len() < head.len())
        }
        Ok(Recovery::Resumed(resumed)) => {
            Ok(goes_on(alloc, map, whole, cut, resumed)? && cut.len() >= head.len())
        }
        Ok(Recovery::Bad { .. } | Recovery::Flawed { .. }) | Err(_) => { Ok(false) }
    }
}

/// Whether a run goes on wherever its journal was cut.
fn survives_each(alloc: Global, head: &[u8], whole: &Whole) -> Result<bool, Fail> {
    let held = whole.held.as_slice();
    for cut in 0..held.len() + 1 {
        let map = grid(alloc)?;
        let survives = survives_on(alloc, &map, head, whole, &held[..cut]);
        drop(map);
        if !survives? {
            return Ok(false);
        }
    }
    Ok(true)
}

#[test]
fn survives(rt: HostRuntime) -> Result<(), Fail> {
    let head = begun_text(rt.alloc(), 0, [4, 4].as_slice())?;
    let whole = whole_run(rt.alloc(), head.as_slice())?;
    assert!(rt; whole.entries == 19 && survives_each(rt.alloc(), head.as_slice(), &whole)?);
    Ok(())
}
