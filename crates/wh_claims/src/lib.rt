//! The quota of slots for kept distance fields, and claims on it, over one atomic word.
//!
//! Proved: free slots and the claims of all seats add up to the total at every step of every thread; too few is
//! returned only if too few were free, a race only if the number had changed (`Claim::take`, `Claim::give_back`,
//! `Bank::free`, `IsConserved`).
//!
//! A slot is the right to keep one distance field in memory. A [`Bank`] is opened with a fixed number of slots, all
//! of them free. A [`Claim`] takes some, by one try that never waits, and gives them back when dropped. At
//! every step of every thread the free slots and the slots of all claims add up to the total.
#![tactic(auto)]

mod bank;
mod claim;
mod rule;
mod stake;

pub use bank::{Bank, BankSeat};
pub use claim::{Claim, ClaimRefused, Refusal};
