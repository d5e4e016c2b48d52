//! The word at which the clients' threads start: none serves anybody before all of them stand.
#![tactic(auto)]

use std::sync::{Condvar, Mutex, Wait};

/// Whether the threads are to serve.
#[derive(Clone, Copy, Debug, PartialEq, Eq)]
pub(crate) enum Word {
    /// All stand.
    Go,
    /// One could not be started.
    Stop,
}

/// Where the threads wait for the word.
#[derive(Drop)]
pub(crate) struct Start {
    word: Mutex<Option<Word>>,
    given: Condvar,
}

impl Start {
    pub(crate) fn new() -> Start {
        Start {
            word: Mutex::new(None),
            given: Condvar::new(),
        }
    }

    /// Gives the word to all that wait for it, and to those that come later.
    pub(crate) fn give<X: Wait>(&self, rt: &X, word: Word) {
        let mut place = self.word.lock(rt);
        *place = Some(word);
        self.given.notify_all();
    }

    /// The word, once it is given.
    pub(crate) fn wait<X: Wait>(&self, rt: &X) -> Word {
        let place = self
            .given
            .wait_while(rt, self.word.lock(rt), |word| word.is_none());
        match *place {
            Some(word) => word,
            None => Word::Stop,
        }
    }
}
