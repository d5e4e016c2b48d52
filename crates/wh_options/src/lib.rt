//! The command line: which arguments give which options, and how all others are refused.
//!
//! Proved: arguments give options exactly if they fit the written grammar, each value given and in range, or its
//! default, and options that go together; else there is the error that applies (`options`, `refusal_of`).
//!
//! `options` reads the words, and `refusal_of` tells why words give none. The
//! grammar of the words stands in `specs/Setting.antt` and `specs/Options.antt`.
#![tactic(auto)]

mod chosen;
mod command;
mod mistake;
mod read;
mod refused;

pub use chosen::{
    CheckOptions, Fleet, LiveOptions, Options, PlannerKind, ReplayOptions, Replies, ServeOptions,
    StateOptions, Tail, VehicleOptions, VerifyOptions,
};
pub use read::options;
pub use refused::{Refusal, refusal_of};
pub use wh_client::{ClientOptions, ClientRights};
