//! What a session came to.

ghost use Rattle.std.specs.Prelude.{◌≡◌};
ghost use Rattle.wh_session.specs.Sessions.{fault_of, halt_fault};

use crate::machine::Halt;
use wh_lines::{LineFault, ReadFault};

/// What a round came to.
#[derive(Clone, Copy, Debug, PartialEq, Eq)]
pub enum Round {
    /// Lines were served, and more may wait.
    More,
    /// Lines were served, and the next one may have to be waited for.
    Served,
    /// The reader is at its end.
    Ended,
    /// The reader is at its end, and what follows the last line feed was not served.
    Torn,
    /// The service is over: a line that had come then was not served.
    Over,
}

/// How a session ended.
#[derive(Clone, Copy, Debug, PartialEq, Eq)]
pub enum End {
    /// The reader is at its end.
    Input,
    /// The reader is at its end, and what follows the last line feed was not served.
    Torn,
    /// The service is over: a line that had come then was not served.
    Over,
}

/// Why lines were not served to their end.
#[derive(Clone, Copy, Debug, PartialEq, Eq)]
pub enum SessionFault {
    /// The reader failed, or a fault came before.
    Broken,
    /// The reader was asked 100,000,000 times.
    Endless,
    /// The writer failed, took no byte, or could not be flushed.
    Unwritten,
    /// The keeper failed.
    Unkept,
    /// Memory ran out while a line was served.
    NoMemory,
    /// What the machine rests on failed while a line was served.
    Failed,
}

pub(crate) fn read_fault(fault: LineFault) -> SessionFault
    ensures { result ≡ fault_of fault }
{
    match fault {
        LineFault::Read(ReadFault::Broken) => SessionFault::Broken,
        LineFault::Read(ReadFault::Endless) => SessionFault::Endless,
        LineFault::Flush => SessionFault::Unwritten,
    }
}

pub(crate) fn halted(halt: Halt) -> SessionFault
    ensures { result ≡ halt_fault halt }
{
    match halt {
        Halt::NoMemory => SessionFault::NoMemory,
        Halt::Failed => SessionFault::Failed,
    }
}
