//! What serves a line, and tells of it once it is kept.

ghost use Rattle.std.specs.Prelude.{◌≡◌, ℕ, List, Option, Bool, true, false, OnOk, OnErr, IfSome, IfNone, IfErr};
ghost use Rattle.std.specs.Io.KnownBytes.{Appends};
ghost use Rattle.wh_lines.specs.Output.{WritesFront};
ghost use Rattle.wh_lines.specs.Text.{short_line};
ghost use Rattle.wh_session.specs.declared.machine.Halt.{Halt as Halted};
ghost use Rattle.wh_session.specs.Machines.{Records, SomeStands, ServesOneFrom, ServesFrontFrom, SameFrom, ClearFrom, HaltsFrom};

use crate::keeper::{KeepFault, Keeper};
use std::io::Write;
use wh_lines::{CommandLine, WriteFault};

/// Why a machine could not serve a line.
#[derive(Clone, Copy, Debug, PartialEq, Eq)]
pub enum Halt {
    /// Memory ran out.
    NoMemory,
    /// What the machine rests on failed.
    Failed,
}

/// A machine that serves lines. What they are told waits in it, and so do the records that are kept before that. Contracts see it by
/// an abstract state.
pub trait Machine {
    ghost State: { Type 0 };
    /// It represents this state.
    ghost stands: { Self → State → Type 0 };
    /// What waits to be told, in this state.
    ghost says: { Self → State → List ℕ };
    /// What waits to be kept.
    ghost logs: { Self → State → Records };
    /// There is room for what one more line is answered.
    ghost has_room: { Self → Type 0 };
    /// A line, if it is short, is told these bytes, these records are to be kept of it, and it leads to this state.
    ghost serves: { State → Option (List ℕ) → List ℕ → Records → State → Type 0 };
    /// A line was begun, and the machine failed, which leaves this state.
    ghost halts: { State → Option (List ℕ) → Halted → State → Type 0 };
    /// Whether memory may run out while a line is served.
    ghost may_starve: { Bool };
    /// Whether the service may be over before the input is.
    ghost may_end: { Bool } = { false };
    /// What follows the last line feed is a line, too.
    ghost serves_last: { Bool };

    fn serves_last(&self) -> bool
        ensures { result ≡ serves_last };

    /// Whether the service is over.
    fn is_over(&self) -> bool
        ensures { result ≡ true → may_end ≡ true };

    /// Whether there is no room for one more line.
    fn is_full(&self) -> bool
        ensures { result ≡ false → has_room self.now };

    /// What waited was told.
    fn clear(&mut self)
        ensures clear { ClearFrom stands says logs self.old self.new }
        ensures room { has_room self.new };

    /// Serves a line, of which only a front is kept. Nothing is told yet.
    fn serve(&mut self, line: &CommandLine) -> Result<(), Halt>
        requires stands { SomeStands stands self.old }
        requires room { has_room self.old }
        ensures ok { OnOk result (ServesOneFrom stands serves says logs (short_line line.now) self.old self.new) }
        ensures err { IfErr result (λ halt. HaltsFrom stands halts (short_line line.now) halt self.old self.new) }
        ensures starved { IfErr result (λ halt. halt ≡ Halt.NoMemory → may_starve ≡ true) };

    /// Serves the line at the front of these bytes, where it is of a form that the machine reads in place: how many bytes it took,
    /// with the line feed.
    fn serve_front(&mut self, waiting: &[u8]) -> Option<usize>
        requires stands { SomeStands stands self.old }
        requires room { has_room self.old }
        ensures some { IfSome result (λ count. ServesFrontFrom stands serves says logs count waiting.now self.old self.new) }
        ensures none { IfNone result (SameFrom stands says logs self.old self.new) }
        ensures room { IfNone result (has_room self.new) };

    /// Hands the records that wait to the keeper.
    fn keep<K: Keeper>(&self, keeper: &mut K) -> Result<(), KeepFault>
        requires stands { SomeStands stands self.now }
        requires safe { K.is_safe (K.holds keeper.old) }
        ensures ok { OnOk result ((s : State) → stands self.now s → K.keeps (K.holds keeper.old) (logs self.now s) (K.holds keeper.new)) }
        ensures err { OnErr result ((s : State) → stands self.now s → K.leaves (K.holds keeper.old) (logs self.now s) (K.holds keeper.new)) };

    /// Tells what waits.
    fn tell<W: Write>(&self, writer: &mut W) -> Result<(), WriteFault>
        requires stands { SomeStands stands self.now }
        ensures ok { OnOk result ((s : State) → stands self.now s → Appends (W.contents writer.old) (W.contents writer.new) (says self.now s)) }
        ensures err { OnErr result ((s : State) → stands self.now s → WritesFront (W.contents writer.old) (W.contents writer.new) (says self.now s)) };
}
