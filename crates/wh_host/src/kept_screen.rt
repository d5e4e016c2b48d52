//! A screen that shows what the journal keeps alone.
#![tactic(auto)]

use std::sync::Wait;
use wh_desk::DeskName;
use wh_display::{Screen, ShowFault};
use wh_journal::Journal;
use wh_scribe::{JournalName, Scribe};

/// A screen on which a board is shown once all entries that were made by then are synced, and not where the journal has failed. A
/// board that was seen has no later ones.
#[derive(Drop)]
pub(crate) struct KeptScreen<
    'a,
    V: Screen + Drop,
    X: Wait,
    N: DeskName,
    S: JournalName,
    J: Journal + Drop,
> {
    pub(crate) screen: V,
    pub(crate) rt: &'a X,
    pub(crate) scribe: &'a Scribe<N, S, J>,
}

impl<'a, V: Screen + Drop, X: Wait, N: DeskName, S: JournalName, J: Journal + Drop> Screen
    for KeptScreen<'a, V, X, N, S, J> {
    ghost shown = { λ kept. V.shown kept.screen };

    fn show(&mut self, text: &[u8]) -> Result<(), ShowFault> {
        if self.scribe.keeps_all(self.rt) {
            self.screen.show(text)
        } else {
            Err(ShowFault::Unshown)
        }
    }
}
