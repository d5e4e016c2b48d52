//! The subcommands `check`, `verify`, `state` and `replay`, over any reader and writer, generic in the planner.
//!
//! Proved: each reads its sections, or reports the first error in order; the run is from an opening with the options'
//! slots, or from what the log holds; replies, log or ledger are what was written, and in a file each reply was synced
//! first; on a well-formed instance no request is refused for lack of a path (`replay`, `serve_kept`, `serve_late`,
//! `serve_convoy`, `check`, `verify`);
//! `state` writes the front of a log that goes on from the one in a file, also as its vehicles stand by the file of arrivals, and changes
//! nothing (`state`, `state_standing`).
//!
//! `replay` is handed how one planner is made, so that it works with planners of any type, and makes none
//! itself.
#![tactic(auto)]

mod chained;
mod convoys;
mod fleet;
mod kept;
mod parts;
mod program;
mod settings;
mod standing;
mod stating;
mod tail;
mod vehicles;
mod verdict;
mod verified;
mod writing;

pub use chained::{ChainTold, ChainVerdict, verify_chain};
pub use convoys::{DriveTrouble, serve_convoy};
pub use fleet::{claim, equip, members, seated};
pub use kept::{keep_trouble, serve_kept, start_aside};
pub use parts::PlannerParts;
pub use program::{Played, ended, form_of, play, replay};
pub use settings::{KeptSetting, read_kept_setting, read_setting};
pub use standing::state_standing;
pub use stating::state;
pub use vehicles::serve_late;
pub use verdict::check;
pub use verified::verify;
pub use writing::write_text;

// handed on, for callers: what the items below take, return and speak of
pub use wh_continue::{FileJournal, LogFile, Setting};
pub use wh_judge::{Book, Verified};
pub use wh_replay::{Committed, Form, NoMemory, OpenFault, ReplayFault, Warehouse};
