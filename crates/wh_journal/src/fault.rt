//! Why a script was not served to its end.
#![tactic(auto)]

ghost use Rattle.std.specs.Prelude.{◌≡◌};
ghost use Rattle.wh_journal.specs.Faults.{session_fault};

use wh_session::SessionFault;

/// Why a script was not served to its end. Lack of memory is none of these: it never ends a script, and a command that it
/// refuses is answered.
#[derive(Clone, Copy, Debug, PartialEq, Eq)]
pub enum JournaledFault {
    /// X1: the reader failed, or a fault came before.
    Broken,
    /// X2: the reader was asked 100,000,000 times.
    Endless,
    /// X3: the writer failed, took no byte, or could not be flushed.
    Unwritten,
    /// X5: the journal failed.
    Unjournaled,
}

pub(crate) fn session_fault(fault: SessionFault) -> JournaledFault
    ensures { result ≡ session_fault fault }
{
    match fault {
        SessionFault::Broken => JournaledFault::Broken,
        SessionFault::Endless => JournaledFault::Endless,
        SessionFault::Unkept => JournaledFault::Unjournaled,
        SessionFault::Unwritten | SessionFault::NoMemory | SessionFault::Failed => {
            JournaledFault::Unwritten
        }
    }
}
