//! The log: read, written and followed, as a text or piece by piece; replies in short form or in the log's own words.
//!
//! Proved: a log is read exactly if it fits the strict grammar; an error names the first line with which no log begins;
//! what is written is the content's one text, and reads back as it was; a reply's text determines the reply, its place
//! and clock (`read_log`, `log_text`, `follow`, `follow_front`, `cuts_are_found`, `replies_are`).
#![tactic(auto)]

mod bounds;
mod entry_fault;
mod entry_lines;
mod fault;
mod follow_log;
mod form;
mod front_log;
mod head;
mod heads;
mod judge;
mod laws;
mod log;
mod look;
mod pieces;
mod places;
mod read_event;
mod read_path;
mod read_reply;
mod read_words;
mod reader;
mod source;
mod tell_entries;
mod usual;
mod version;
mod window;
mod write_entry;
mod writer;

pub use bounds::{MOST_ENTRIES, PIECE};
pub use entry_lines::entries_are;
pub use fault::NoMemory;
pub use follow_log::{Followed, follow};
pub use form::{Form, tell, tell_full};
pub use front_log::{Front, follow_front};
pub use judge::Judge;
pub use laws::{cuts_are_found, logs_are, replies_are};
pub use log::Log;
pub use pieces::{cell_piece, entry_head, path_of};
pub use reader::{LogFault, read_log};
pub use source::{Source, SourceFault};
pub use version::Version;
pub use writer::{begun_text, end_text, entries_text, log_text, written_again};
