//! The state after an entry of a log.
#![tactic(auto)]

ghost use Rattle.std.specs.Prelude.{◌≡◌, ◌≤◌, ◌++◌, ℕ, List, IfOk, length, take};
ghost use Rattle.wh_core.specs.States.{opened};
ghost use Rattle.wh_core.specs.Steps.{Run};
ghost use Rattle.wh_front.specs.declared.front.Front.{Front};
ghost use Rattle.wh_front.specs.Fronts.{front_text};
ghost use Rattle.wh_restore.specs.SoundFronts.{state_told};
ghost use Rattle.wh_resume.specs.Behind.{IsFrontOf, rules_of};
ghost use Rattle.wh_resume.specs.Resuming.{TellsBook};

use std::alloc::Global;
use wh_front::Rules;
use wh_judge::{FleetState, Instance, Judge};
use wh_log::NoMemory;
use wh_restore::{RestoreFault, Restored, restore};
use wh_resume::{Book, Resumed, Setting};

/// The rules of a run over this setting.
pub(crate) fn rules_over(setting: &Setting) -> Rules
    ensures { result ≡ rules_of setting.now }
{
    Rules {
        homes: setting.homes(),
        age: None,
    }
}

/// What a run over a setting is judged over.
fn instance_of(setting: &Setting) -> Instance<'_>
    ensures { result ≡ setting.now }
{
    let _agents = setting.agents();
    Instance::with_homes(setting.grid(), setting.points(), setting.homes())
}

/// A judge at the opening of a log of version 1 or 2.
fn first_judge<'a>(alloc: Global, book: &'a Book) -> Result<Judge<'a>, NoMemory>
    requires opened { (clock : ℕ) × (slots : List ℕ) × (book.now.opening ≡ opened book.now.site.layout clock slots) }
    ensures { IfOk result (λ judge. judge ≡ record { site = book.now.site; state = book.now.opening }) }
{
    let _history = book.history();
    let slots = Vec::from_slice(alloc, book.first_slots())?;
    let judge = Judge::open(
        alloc,
        instance_of(book.setting()),
        book.first_clock(),
        slots,
    )?;
    Ok(judge)
}

/// A judge at the state with which a log of version 3 begins.
fn later_judge<'a>(alloc: Global, book: &'a Book, text: &[u8]) -> Result<Judge<'a>, NoMemory>
    requires front { (front : Front) × (rest : List ℕ) × IsFrontOf book.now.site front × (text.now ≡ front_text front ++ rest) × (book.now.opening ≡ state_told front) }
    ensures { IfOk result (λ judge. judge ≡ record { site = book.now.site; state = book.now.opening }) }
{
    let _history = book.history();
    let setting = book.setting();
    let _agents = setting.agents();
    let rules = rules_over(setting);
    let Restored {
        head,
        state,
        callers,
        ..
    } = match restore(alloc, setting.grid(), setting.points(), rules, text) {
        Ok(restored) => restored,
        Err(RestoreFault::NoMemory) => return Err(NoMemory),
        Err(RestoreFault::Line { .. }) => unreachable!(),
    };
    drop(head);
    drop(callers);
    let judge = Judge::begin(alloc, instance_of(setting), &state)?;
    Ok(judge)
}

/// The state to which the first entries of a book lead from where this judge stands. Each is made once.
fn led_by(
    alloc: Global,
    mut judge: Judge<'_>,
    book: &Book,
    count: usize,
) -> Result<FleetState, NoMemory>
    requires stands { judge ≡ record { site = book.now.site; state = book.now.opening } }
    requires within { count ≤ length book.now.history }
    ensures { IfOk result (λ floor. Run book.now.site book.now.opening (take count book.now.history) floor.state) }
{
    let history = book.history();
    for n in 0..count {
        let entry = history[n].copy(alloc)?;
        let _is_step = judge.step(alloc, entry)?;
    }
    Ok(judge.into_state())
}

/// The state to which the first entries of a log lead, whose text this is and which tells this. Its entries are made once more, in one pass.
///
/// Error: `NoMemory` (E90).
pub fn state_after(
    alloc: Global,
    text: &[u8],
    resumed: &Resumed,
    count: usize,
) -> Result<FleetState, NoMemory>
    requires tells { TellsBook resumed.now.book.site text.now resumed.now resumed.now.preface }
    requires within { count ≤ length resumed.now.book.history }
    ensures { IfOk result (λ floor. Run resumed.now.book.site resumed.now.book.opening (take count resumed.now.book.history) floor.state) }
{
    let book = &resumed.book;
    let judge = match &resumed.preface {
        None => first_judge(alloc, book)?,
        Some(_) => later_judge(alloc, book, text)?,
    };
    led_by(alloc, judge, book, count)
}
