//! Running clients, as the command line names them.
//!
//! Proved: arguments give clients exactly if each is a number up to 61, a folder and perhaps rights, and no two share a
//! number or folder (`clients_of`).
#![tactic(auto)]

mod client;

pub use client::{ClientOptions, ClientRights, clients_of};
