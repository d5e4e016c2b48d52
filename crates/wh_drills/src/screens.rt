//! A screen that keeps the texts that it shows.
#![tactic(auto)]

use std::alloc::Global;
use std::sync::atomic::AtomicU64;
use std::sync::atomic::Ordering::SeqCst;
use wh_display::{Screen, ShowFault};

/// The line of a board that has two tasks done.
const TWO_DONE: &[u8] = b"\ndone 2\n";

/// A screen that tells all its texts. Each of them that has two tasks done gives a cue.
#[derive(Drop)]
pub struct TextScreen<'a> {
    pub alloc: Global,
    pub texts: Vec<Vec<u8>>,
    pub cues: &'a AtomicU64,
}

impl<'a> TextScreen<'a> {
    /// A screen with no text.
    pub fn new(alloc: Global, cues: &'a AtomicU64) -> TextScreen<'a> {
        TextScreen {
            alloc,
            texts: Vec::new(alloc),
            cues,
        }
    }
}

/// Whether the text has these bytes somewhere.
fn has(text: &[u8], bytes: &[u8]) -> bool {
    for k in 0..text.len() {
        if text[k..].starts_with(bytes) {
            return true;
        }
    }
    false
}

impl<'a> Screen for TextScreen<'a> {
    ghost use Rattle.std.specs.Prelude.{Some, map};

    ghost shown = { λ screen. Some (map (λ text. text.items) screen.texts.items) };

    fn show(&mut self, text: &[u8]) -> Result<(), ShowFault> {
        let Ok(copy) = Vec::from_slice(self.alloc, text) else {
            return Err(ShowFault::NoMemory);
        };
        if self.texts.push(copy).is_err() {
            return Err(ShowFault::NoMemory);
        }
        if has(text, TWO_DONE) {
            self.cues.fetch_add(1, SeqCst);
        }
        Ok(())
    }
}
