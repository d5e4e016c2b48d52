//! The front of a log of version 3, the text of a state with which a run begins.
//!
//! Proved: its text is fixed by what it tells (`front_text`); what is read is written so, what is written so is read, and a
//! fault names the first bad line (`read_line`, `read_front`). Begin at `Front` and `specs/Fronts.antt`.
#![tactic(auto)]

mod before;
mod form_fault;
mod front;
mod line;
mod one_line;
mod place;
mod read_lists;
mod read_parts;
mod read_task;
mod read_words;
mod reader;
mod rows;
mod rules;
mod stage;
mod taking;
mod write;
mod write_parts;
mod write_task;
mod write_words;

pub use before::{Before, Sum};
pub use form_fault::FormFault;
pub use front::{Count, Front, Seat, Submission};
pub use line::Line;
pub use one_line::read_line;
pub use reader::{FrontFault, FrontReader, NextFault, Read, read_front};
pub use rows::Rows;
pub use rules::{Kind, Rules};
pub use write::{agent_text, front_text, line_text, task_text};
