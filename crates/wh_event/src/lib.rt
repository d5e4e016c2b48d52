//! Commands, events, replies and entries, and their texts.
//!
//! Proved: a command line is read exactly if it fits the grammar, skipped and refused lines likewise; a reply's text is
//! exactly the format's and fits 64 bytes; replies with the same text mean the same (`read_line`, `read_front_into`,
//! `write_reply`, `replies_tell`).
#![tactic(auto)]

mod command_line;
mod entry;
mod event;
mod fault;
mod front;
mod reply;
mod reply_text;
mod stops;

pub use command_line::{read_line, read_line_into};
pub use entry::Entry;
pub use event::{Command, Event, Spare};
pub use fault::LineFault;
pub use front::read_front_into;
pub use reply::{Refusal, Reply};
pub use reply_text::{put, put_number, put_reply, replies_tell, write_reply};
pub use stops::{KeptStops, Stops};
