//! One loop that serves lines, generic in the machine that serves a line and in what keeps its records before a reply is written.
//!
//! Proved: whole lines are served, what is to be kept of them is kept and synced, then their replies are written; after an
//! error, which rounds were written whole, what became of the last one, and a true cause (`serve`, `serve_round`). Plain `replay` is served by it.
#![tactic(auto)]

mod fault;
mod gathering;
mod keeper;
mod keepers;
mod machine;
mod session;
mod stepping;

pub use fault::{End, Round, SessionFault};
pub use keeper::{KeepFault, Keeper};
pub use keepers::{Memory, NoKeeper};
pub use machine::{Halt, Machine};
pub use session::{serve, serve_round};
