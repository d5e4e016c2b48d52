//! A replay from text to text, as the program makes it.

ghost use Rattle.std.specs.Prelude.{◌≡◌, true, IfOk};
ghost use Rattle.wh_claims.specs.Claim.{claim_amount};

use std::alloc::{AllocError, Global};
use std::io::{Read, Write};
use wh_edge::Trouble;
use wh_lines::Lines;
use wh_options::{Fleet, PlannerKind, ReplayOptions, Replies, Tail};
use wh_planner::Planner;
use wh_planners::{Patient, Sharing};
use wh_service::{PlannerParts, replay};

/// A tree of nine cells: its least walks are unique.
pub const MAP: &str = "type octile\nheight 3\nwidth 5\nmap\n@.@.@\n.....\n@.@.@\n";

/// Two parkings at the ends of the middle row, and four stations.
pub const POINTS: &str =
    "parking P0 0 1\nparking P1 4 1\nstation A 1 0\nstation B 3 0\nstation C 1 2\nstation D 3 2\n";

/// The agents stand on the parkings.
pub const AGENTS: &str = "agent P0\nagent P1\n";

/// Serves an input with boxed planners of 4 slots each on a bank of 1024, none of them spare, with short replies and no tail.
/// Some: what stopped it.
pub fn served<R: Read + Drop, W: Write>(
    alloc: Global,
    reader: R,
    writer: &mut W,
) -> Option<Trouble> {
    let make = |parts: PlannerParts| -> Result<Box<dyn Planner>, AllocError>
        ensures on_grid { IfOk result (λ b. fits_map b parts.grid.value ≡ true) }
        ensures has_slots { IfOk result (λ b. slot_count b ≡ claim_amount parts.claim) }
    {
        let PlannerParts {
            kind,
            slack,
            effort,
            grid,
            claim,
        } = parts;
        match kind {
            PlannerKind::Near => {
                let sharing = Sharing::new(alloc, grid, claim)?;
                let bounded = sharing.with_slack(slack).with_effort(effort);
                let planner: Box<dyn Planner> = Box::new(alloc, bounded)?;
                Ok(planner)
            }
            PlannerKind::Patient => {
                let planner: Box<dyn Planner> = Box::new(alloc, Patient::new(grid, claim))?;
                Ok(planner)
            }
        }
    };
    let fleet = Fleet {
        planner: PlannerKind::Near,
        slack: 0,
        effort: None,
        slots: 4,
        bank: 1024,
        spares: 0,
        homes: false,
    };
    let options = ReplayOptions {
        fleet,
        tail: Tail::Nothing,
        replies: Replies::Short,
        log: None,
        told: None,
        anew: false,
        vehicles: None,
        deliver: false,
    };
    let mut lines = Lines::new(reader);
    match replay(alloc, &mut lines, writer, &options, make) {
        Ok(_) => None,
        Err(trouble) => Some(trouble),
    }
}
