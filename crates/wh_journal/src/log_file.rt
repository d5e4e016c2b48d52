//! A journal that a run goes on from: its bytes are read, and cut where the lines end that stand whole.
#![tactic(auto)]

ghost use Rattle.std.specs.Prelude.{◌≡◌, true, false, OnOk, OnErr, IfOk, IfSome, IsErr};
ghost use Rattle.wh_journal.specs.Cutting.{front_of, with_byte, MayCut, MayPut};

use crate::journal::{Journal, JournalFault};
use std::alloc::Global;
use wh_log::Source;

/// Why the bytes of a log are not told.
#[derive(Clone, Copy, Debug, PartialEq, Eq)]
pub enum LogFileFault {
    /// It cannot be read, is no file of bytes, or another has it.
    Unread,
    /// Out of memory.
    NoMemory,
}

/// A journal whose bytes were kept before, by an earlier process. A start takes these steps in their order: `text`, or
/// the pieces of `Source`; others judge what was read, and where it is refused nothing has changed; `put`, where a byte of it is
/// to be another; `cut`, also where nothing is cut off, since the earlier process may not have synced; and then the calls of `Journal`.
pub trait LogFile: Journal + Source {
    /// All bytes that it holds. Nothing changes. One that was not made yet holds none.
    fn text(&mut self, alloc: Global) -> Result<Vec<u8>, LogFileFault>
        ensures ok { IfOk result (λ text. IfSome (Self.contents self.old) (λ held. text.items ≡ held)) }
        ensures contents { Self.contents self.new ≡ Self.contents self.old }
        ensures synced { Self.synced self.new ≡ Self.synced self.old }
        ensures failed { Self.failed self.new ≡ Self.failed self.old };

    /// From now on this byte stands at a place, instead of the one there, and all that it holds survives a kill. On
    /// a fault it may stand there or not: with one byte there is nothing between.
    fn put(&mut self, place: usize, byte: u8) -> Result<(), JournalFault>
        ensures ok { OnOk result (Self.contents self.new ≡ with_byte place byte (Self.contents self.old)) }
        ensures synced { OnOk result (Self.synced self.new ≡ Self.contents self.new) }
        ensures err { OnErr result (MayPut place byte (Self.contents self.old) (Self.contents self.new)) }
        ensures err_synced { OnErr result (MayPut place byte (Self.synced self.old) (Self.synced self.new)) }
        ensures open { OnOk result (Self.failed self.new ≡ false) }
        ensures failed { OnErr result (Self.failed self.new ≡ true) }
        ensures again { Self.failed self.old ≡ true → IsErr result × (Self.contents self.new ≡ Self.contents self.old) };

    /// From now on it holds the first `bytes` bytes of what it held, which survive a kill, and what is appended comes after
    /// them. On a fault it may be cut or not.
    fn cut(&mut self, bytes: usize) -> Result<(), JournalFault>
        ensures ok { OnOk result (Self.contents self.new ≡ front_of bytes (Self.contents self.old)) }
        ensures synced { OnOk result (Self.synced self.new ≡ Self.contents self.new) }
        ensures err { OnErr result (MayCut bytes (Self.contents self.old) (Self.contents self.new)) }
        ensures err_synced { OnErr result (MayCut bytes (Self.synced self.old) (Self.synced self.new)) }
        ensures open { OnOk result (Self.failed self.new ≡ false) }
        ensures failed { OnErr result (Self.failed self.new ≡ true) }
        ensures again { Self.failed self.old ≡ true → IsErr result × (Self.contents self.new ≡ Self.contents self.old) };

    /// As a source it tells the same bytes.
    ghost one_text: { (l : Self) → Self.held l ≡ Self.contents l };
}
