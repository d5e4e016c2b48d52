//! A line reader over any input: whole sections, and single lines in a fixed room; and bytes for any writer.
//!
//! Proved: a section is the bytes as they came up to a line `%%` or the end, within its limit; of a line of any length
//! the first 258 bytes are kept, without allocating, and mean what the whole line means; after an error every later
//! call fails; what is written goes whole to the writer, or a prefix of it if the writer fails (`Lines::section`,
//! `Lines::next_line`, `write_all`).
//!
//! A text may come in any pieces: [`Lines`] keeps what was read and not yet taken in a buffer of 64 KB. A section is
//! read whole into memory, up to a limit. A single line, however long, takes no memory: a [`CommandLine`] keeps its
//! first 258 bytes, by which one that is too long is known.
#![tactic(auto)]

mod command_line;
mod lines;
mod next;
mod output;
mod sections;

pub use command_line::CommandLine;
pub use lines::{Lines, Next, ReadFault};
pub use next::LineFault;
pub use output::{WriteFault, write_all};
pub use sections::SectionFault;
