//! Recovers a book from a log of version 3.
#![tactic(auto)]

ghost use Rattle.std.specs.Prelude.{◌≡◌, ◌≤◌, ℕ, List, IfOk, length};
ghost use Rattle.wh_points.specs.Points.{IsLayout};
ghost use Rattle.wh_resume.specs.Behind.{IsVersionThree};
ghost use Rattle.wh_resume.specs.Looking.{IsBegun};
ghost use Rattle.wh_resume.specs.Resuming.{Tells};

use crate::keeper::{Keeper, Parts};
use crate::looking::{Begun, Looked, look_at_front};
use crate::recovery::{Recovery, Resumed};
use std::alloc::Global;
use wh_judge::{Book, Instance, Opening, Setting};
use wh_log::{Front, NoMemory, SourceFault, follow_front};

/// Recovers the book of a run that begins with the state of a front, with which a text begins.
fn go_on(alloc: Global, setting: Setting, begun: Begun) -> Result<Recovery, SourceFault>
    requires { (text : List ℕ) × IsBegun setting text begun }
    ensures { IfOk result (λ said. (text : List ℕ) (lines : List ℕ) → IsBegun setting text begun → Tells setting lines text said) }
{
    let _agents = setting.agents();
    let instance = Instance::with_homes(setting.grid(), setting.points(), setting.homes());
    let mut keeper = match Keeper::at(alloc, instance, &begun.parts) {
        Ok(keeper) => keeper,
        Err(NoMemory) => {
            drop(begun);
            drop(setting);
            return Err(SourceFault::NoMemory);
        }
    };
    let mut source = begun.log.as_slice();
    let followed = match follow_front(alloc, &mut keeper, &mut source) {
        Ok(followed) => followed,
        Err(fault) => {
            drop(keeper);
            drop(begun);
            drop(setting);
            return Err(fault);
        }
    };
    match followed {
        Front::Whole {
            version,
            bytes,
            is_ended,
            ..
        } => {
            let Parts {
                first_clock: _,
                first_slots,
                floor,
                history,
            } = keeper.into_parts();
            drop(first_slots);
            let Begun {
                parts,
                preface,
                front,
                log,
                head,
            } = begun;
            drop(log);
            let book = Book::resume(setting, Opening::State(parts), floor, history);
            Ok(Recovery::Resumed(Resumed {
                version,
                book,
                bytes: front + (bytes - head),
                is_ended,
                preface: Some(preface),
            }))
        }
        Front::Unopened { .. } => unreachable!(),
        Front::Bad { line, bytes } => {
            let line = begun.preface.lines + (line - 2);
            let bytes = begun.front + (bytes - begun.head);
            drop(keeper);
            drop(begun);
            drop(setting);
            Ok(Recovery::Bad { line, bytes })
        }
    }
}

/// Recovers the book of a run from a text of version 3.
///
/// Error: `NoMemory`.
pub(crate) fn recover_three(
    alloc: Global,
    setting: Setting,
    text: Vec<u8>,
) -> Result<Recovery, SourceFault>
    requires version { IsVersionThree text.items }
    ensures { IfOk result (λ said. (lines : List ℕ) → Tells setting lines text.items said) }
{
    let _agents = setting.agents();
    let looked = look_at_front(
        alloc,
        setting.grid(),
        setting.points(),
        setting.homes(),
        text.as_slice(),
    );
    drop(text);
    match looked {
        Ok(Looked::Begun(begun)) => go_on(alloc, setting, begun),
        Ok(Looked::Flawed { line, reason }) => {
            drop(setting);
            Ok(Recovery::Flawed { line, reason })
        }
        Err(NoMemory) => {
            drop(setting);
            Err(SourceFault::NoMemory)
        }
    }
}
