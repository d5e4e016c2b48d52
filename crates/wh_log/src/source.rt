//! Bytes that are read from their front, piece by piece.

ghost use Rattle.std.specs.Prelude.{◌≡◌, ◌<◌, ℕ, List, Option, None, Some, OnOk};
ghost use Rattle.wh_log.specs.Sources.{AddsPiece, IsPiece};

use crate::bounds::PIECE;
use crate::fault::NoMemory;
use std::alloc::{AllocError, AllocFailed};

/// Why no further bytes came.
#[derive(Clone, Copy, Debug, PartialEq, Eq)]
pub enum SourceFault {
    /// They cannot be read.
    Unread,
    /// Out of memory.
    NoMemory,
}

impl From<NoMemory> for SourceFault {
    fn from(_e: NoMemory) -> SourceFault {
        SourceFault::NoMemory
    }
}

impl From<AllocError> for SourceFault {
    fn from(_e: AllocError) -> SourceFault {
        SourceFault::NoMemory
    }
}

impl<T: Drop> From<AllocFailed<T>> for SourceFault {
    fn from(_e: AllocFailed<T>) -> SourceFault {
        SourceFault::NoMemory
    }
}

/// Bytes that are read from their front, piece by piece.
pub trait Source {
    // all of them, where they are told
    ghost held: { Self → Option (List ℕ) } = { λ _. None };

    /// Adds to a buffer a piece of the bytes after the first n, and nothing only where none stand there.
    fn add_piece(&mut self, place: usize, buffer: &mut Vec<u8>) -> Result<(), SourceFault>
        ensures ok { OnOk result (AddsPiece (held self.old) place buffer.old.items buffer.new.items) }
        ensures same { held self.new ≡ held self.old };
}

/// A piece of a text after the first n bytes, of limited length.
fn piece_at(text: &[u8], place: usize, most: usize) -> &[u8]
    requires { 0 < most }
    ensures { IsPiece (Some text.now) place result.now }
{
    if place >= text.len() {
        return &[];
    }
    let behind = &text[place..];
    if behind.len() <= most {
        behind
    } else {
        &behind[..most]
    }
}

impl<'a> Source for &'a [u8] {
    ghost held = { λ s. Some s.now };

    fn add_piece(&mut self, place: usize, buffer: &mut Vec<u8>) -> Result<(), SourceFault> {
        buffer.extend_from_slice(piece_at(self, place, PIECE))?;
        Ok(())
    }
}
