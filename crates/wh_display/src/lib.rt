//! The text of a board, and a screen or file that shows it again when it has changed.
//!
//! Proved: a board has one text; a look shows the text of a board of what the viewer knows, unless nothing changed; a
//! watch shows boards in turn, each extending the one before, and the last is of all that is known if the last look
//! succeeded (`text_of_board`, `refresh`, `renew`, `watch`).
#![tactic(auto)]

mod file_screen;
mod screen;
mod text;
mod watching;

pub use file_screen::FileScreen;
pub use screen::{Screen, ShowFault, refresh, renew};
pub use text::text_of_board;
pub use watching::{Bell, Watched, watch};
