//! Tells the lines of a front.

ghost use Rattle.std.specs.Prelude.{◌≡◌, ℕ, IfOk, Err};
ghost use Rattle.wh_restore.specs.declared.reason.Reason.{Reason as Why};
ghost use Rattle.wh_restore.specs.declared.reason.RestoreFault.TheVariants as faults;
ghost use Rattle.wh_restore.specs.FirstFlawed.{IsFirstFlawed};
ghost use Rattle.wh_restore.specs.Restoring.{IsUntold, IsHeld};
ghost use Rattle.wh_restore.specs.Restoring as restorings;

use crate::reason::{Reason, RestoreFault};
use crate::restoring::Restoring;
use std::alloc::Global;
use wh_front::{FrontReader, NextFault};

/// What a reader that stands before a line says of it.
fn unread(line: u64, fault: NextFault) -> RestoreFault
    ensures { result ≡ restorings.unread line fault }
{
    match fault {
        NextFault::Form => RestoreFault::Line {
            line,
            reason: Reason::Form,
        },
        NextFault::Count => RestoreFault::Line {
            line,
            reason: Reason::Count,
        },
        NextFault::NoMemory => RestoreFault::NoMemory,
    }
}

/// Tells the lines of a text up to the end of its front, one by one. What follows it is handed out.
///
/// Errors: `Line` where a line has a flaw; `NoMemory` (E90).
pub(crate) fn follow<'a>(
    alloc: Global,
    text: &'a [u8],
    restoring: &mut Restoring,
) -> Result<&'a [u8], RestoreFault>
    requires { IsUntold restoring.old }
    ensures held { IfOk result (λ rest. IsHeld restoring.old.builder.site restoring.old.rules text.now rest.now restoring.new) }
    ensures site { restoring.new.builder.site ≡ restoring.old.builder.site }
    ensures line { (n : ℕ) (reason : Why) → result ≡ Err (faults.Line n reason) → IsFirstFlawed restoring.old.builder.site restoring.old.rules text.now n reason }
{
    let mut reader = FrontReader::begin(text);
    while !reader.is_done() {
        let number = reader.number();
        match reader.next_line(alloc) {
            Ok(line) => match restoring.take(alloc, line) {
                Ok(()) => {}
                Err(refusal) => return Err(refusal.at(number)),
            },
            Err(fault) => return Err(unread(number, fault)),
        }
    }
    Ok(reader.rest())
}
