//! Recovers a book from a log of version 1 or 2.
#![tactic(auto)]

ghost use Rattle.std.specs.Prelude.{◌≡◌, ◌≤◌, IfOk, IfSome, length};
ghost use Rattle.wh_points.specs.Points.{IsLayout};
ghost use Rattle.wh_resume.specs.Behind.{IsVersionThree};
ghost use Rattle.wh_resume.specs.Resuming.{TellsFrom, TellsOther};

use crate::fronts::is_front;
use crate::keeper::{Keeper, Parts};
use crate::recovery::{Recovery, Resumed};
use std::alloc::Global;
use wh_judge::{Book, Instance, Opening, Setting};
use wh_log::{Front, NoMemory, Source, SourceFault, follow_front};
use wh_words::whole_line;

/// What a text is that was not begun as it was to be.
fn begun_otherwise(text: &[u8]) -> Recovery
    ensures { TellsOther text.now result }
{
    match whole_line(text) {
        None => Recovery::Bad { line: 1, bytes: 0 },
        Some((_, rest)) => Recovery::Bad {
            line: 2,
            bytes: text.len() - rest.len(),
        },
    }
}

/// Recovers the book of a run from a log that is not of version 3, where its bytes are told.
///
/// Errors: as those of `recover`.
pub(crate) fn recover_two<S: Source>(
    alloc: Global,
    setting: Setting,
    begun: &[u8],
    source: &mut S,
) -> Result<Recovery, SourceFault>
    requires some { 1 ≤ length setting.layout.agents }
    requires version { IfSome (S.held source.old) (λ bytes. IsVersionThree bytes → ⊥) }
    ensures told { IfOk result (TellsFrom setting begun.now (S.held source.old)) }
    ensures same { S.held source.new ≡ S.held source.old }
{
    let _agents = setting.agents();
    let instance = Instance::with_homes(setting.grid(), setting.points(), setting.homes());
    let mut keeper = match Keeper::new(alloc, instance) {
        Ok(keeper) => keeper,
        Err(NoMemory) => {
            drop(setting);
            return Err(SourceFault::NoMemory);
        }
    };
    let front = match follow_front(alloc, &mut keeper, source) {
        Ok(front) => front,
        Err(fault) => {
            drop(keeper);
            drop(setting);
            return Err(fault);
        }
    };
    match front {
        Front::Whole {
            version,
            bytes,
            is_ended,
            ..
        } => {
            let Parts {
                first_clock,
                first_slots,
                floor,
                history,
            } = keeper.into_parts();
            let first = Opening::Starts {
                clock: first_clock,
                slots: first_slots,
            };
            let book = Book::resume(setting, first, floor, history);
            Ok(Recovery::Resumed(Resumed {
                version,
                book,
                bytes,
                is_ended,
                preface: None,
            }))
        }
        Front::Unopened { text } => {
            drop(keeper);
            if is_front(text.as_slice(), begun) {
                drop(text);
                return Ok(Recovery::Unopened(setting));
            }
            drop(setting);
            let told = begun_otherwise(text.as_slice());
            drop(text);
            Ok(told)
        }
        Front::Bad { line, bytes } => {
            drop(keeper);
            drop(setting);
            Ok(Recovery::Bad { line, bytes })
        }
    }
}
