//! A run's log and the file beside it, as they are first made.
#![tactic(auto)]

ghost use Rattle.std.specs.Prelude.{◌≡◌, IfOk, IfErr, OnOk};
ghost use Rattle.wh_continue.specs.Besides.{StandsBeside};
ghost use Rattle.wh_continue.specs.Opening.{IsOpened, IsWhyNotBoth};
ghost use Rattle.wh_continue.specs.Running.{BeginsShort, IsStartOf, Opens};

use crate::before::EntriesBefore;
use crate::beside::{Beside, keep_beside};
use crate::running::{KeepFault, write_opening};
use crate::starting::Start;
use std::alloc::Global;
use wh_journal::LogFile;
use wh_log::Version;

/// Begins the log of a run that was not begun: its first two lines are written and synced, and the run starts from them. Where one was
/// begun nothing is done.
fn open_log<L: LogFile>(alloc: Global, file: &mut L, start: Start) -> Result<Start, KeepFault>
    requires starts { IsStartOf (L.contents file.old) start }
    ensures starts { IfOk result (IsStartOf (L.contents file.new)) }
    ensures opens { IfOk result (λ begun. IsOpened start begun (L.contents file.old) (L.contents file.new)) }
    ensures book { IfOk result (λ begun. begun.book ≡ start.book) }
    ensures fault { IfErr result (λ fault. BeginsShort fault start (L.contents file.old) (L.contents file.new) (L.failed file.new)) }
{
    if start.bytes.is_some() {
        return Ok(start);
    }
    let Start { book, preface, .. } = start;
    drop(preface);
    match write_opening(alloc, file, &book) {
        Ok(bytes) => Ok(Start {
            book,
            bytes: Some(bytes),
            version: Version::Two,
            preface: None,
            before: EntriesBefore::none(),
        }),
        Err(fault) => {
            drop(book);
            Err(fault)
        }
    }
}

/// Begins the log of a run that was not begun, and then makes the file beside it hold the text, all of it synced: so that text is never whole
/// without a log. What the run starts from then.
pub fn open_both<L: LogFile, B: LogFile>(
    alloc: Global,
    file: &mut L,
    beside: &mut B,
    text: &[u8],
    found: Beside,
    start: Start,
) -> Result<Start, KeepFault>
    requires starts { IsStartOf (L.contents file.old) start }
    requires stands { StandsBeside (B.contents beside.old) text.now found }
    ensures starts { IfOk result (IsStartOf (L.contents file.new)) }
    ensures opens { IfOk result (λ begun. IsOpened start begun (L.contents file.old) (L.contents file.new)) }
    ensures book { IfOk result (λ begun. begun.book ≡ start.book) }
    ensures ok { OnOk result (Opens (B.contents beside.old) (B.contents beside.new) text.now) }
    ensures synced { OnOk result (B.synced beside.new ≡ B.contents beside.new) }
    ensures fault { IfErr result (λ fault. IsWhyNotBoth fault start (L.contents file.old) (L.contents file.new) (L.failed file.new) (B.contents beside.old) (B.contents beside.new) (B.failed beside.new) text.now) }
{
    let start = match open_log(alloc, file, start) {
        Ok(start) => start,
        Err(fault) => return Err(fault),
    };
    match keep_beside(beside, text, found) {
        Ok(()) => Ok(start),
        Err(fault) => {
            drop(start);
            Err(fault)
        }
    }
}
