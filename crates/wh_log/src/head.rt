//! What the first two lines of a log say.

use crate::version::Version;

/// The first two lines of a log, and what follows them; or which of the two is at fault.
#[derive(Drop)]
pub enum Head<'a> {
    Start {
        version: Version,
        clock: u32,
        slots: Vec<u32>,
        rest: &'a [u8],
    },
    NoHead,
    NoStart {
        version: Version,
    },
}
