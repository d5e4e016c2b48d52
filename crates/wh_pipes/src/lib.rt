//! Clients over named pipes, `in` and `out` in a folder for each, and how threads blocked in them are released.
//!
//! Proved: only that its code does not panic, reads no more than asked for, and sends threads what is `Send`: no
//! contract says what a pipe gives or takes.
#![tactic(auto)]

mod beginning;
mod connection;
mod folders;
mod hall;
mod pipes;
mod standing;

pub use connection::{Inlet, Outlet};
pub use hall::Hall;
pub use pipes::Pipes;
