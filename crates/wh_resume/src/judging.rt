//! Verifies a log of any version.
#![tactic(auto)]

ghost use Rattle.std.specs.Prelude.{◌≡◌, ◌≤◌, ◌<◌, ◌+◌, ◌^◌, ℕ, List, IfOk, length, true, false};
ghost use Rattle.wh_points.specs.Points.{IsLayout};
ghost use Rattle.wh_resume.specs.Behind.{IsVersionThree};
ghost use Rattle.wh_resume.specs.Looking.{IsBegun, IsReady};
ghost use Rattle.wh_resume.specs.Judging.{SaysOfTwo, SaysOfThree};

use crate::keeper::Keeper;
use crate::looking::{Begun, Looked, look_at_front};
use crate::title::is_version_three;
use std::alloc::Global;
use wh_judge::{Instance, Verified, VerifiedFront, verify_over, verify_unended};
use wh_log::{Followed, Front, NoMemory, follow, follow_front};

/// A line is bad.
fn bad(line: u64) -> VerifiedFront
    ensures { result ≡ record { verified = Verified.Bad line; is_ended = false } }
{
    VerifiedFront {
        verified: Verified::Bad { line },
        is_ended: false,
    }
}

/// The line of a text that begins with a front, of which this is the line in the log that goes on from it.
fn line_behind(begun: &Begun, line: u64) -> u64
    requires two { 2 ≤ line }
    requires room { line + begun.now.preface.lines < 2 ^ 64 }
    ensures { result + 2 ≡ line + begun.now.preface.lines }
{
    begun.preface.lines + (line - 2)
}

/// Judges the log that goes on from a state, where its last line may be missing.
fn judge_unended(
    alloc: Global,
    keeper: &mut Keeper,
    begun: &Begun,
) -> Result<VerifiedFront, NoMemory>
    requires { IsReady keeper.old begun.now }
    ensures { IfOk result (λ said. (text : List ℕ) → IsBegun keeper.old.judge.site text begun.now → SaysOfThree keeper.old.judge.site true text said.verified said.is_ended) }
{
    let mut source = begun.log.as_slice();
    let Ok(followed) = follow_front(alloc, keeper, &mut source) else {
        return Err(NoMemory);
    };
    match followed {
        Front::Whole {
            entries,
            is_ended,
            ..
        } => Ok(VerifiedFront {
            verified: Verified::Run { entries },
            is_ended,
        }),
        Front::Unopened { .. } => unreachable!(),
        Front::Bad { line, .. } => Ok(bad(line_behind(begun, line))),
    }
}

/// Judges the log that goes on from a state and ends with its last line.
fn judge_ended(alloc: Global, keeper: &mut Keeper, begun: &Begun) -> Result<VerifiedFront, NoMemory>
    requires { IsReady keeper.old begun.now }
    ensures { IfOk result (λ said. (text : List ℕ) → IsBegun keeper.old.judge.site text begun.now → SaysOfThree keeper.old.judge.site false text said.verified said.is_ended) }
{
    match follow(alloc, keeper, begun.log.as_slice())? {
        Followed::Whole { entries } => Ok(VerifiedFront {
            verified: Verified::Run { entries },
            is_ended: true,
        }),
        Followed::Bad { line } => Ok(bad(line_behind(begun, line))),
    }
}

/// Judges the log that goes on from the state of a front, with which a text begins.
fn judge_behind(
    alloc: Global,
    instance: Instance,
    unended: bool,
    begun: &Begun,
) -> Result<VerifiedFront, NoMemory>
    requires { (text : List ℕ) × IsBegun instance text begun.now }
    ensures { IfOk result (λ said. (text : List ℕ) → IsBegun instance.entry text begun.now → SaysOfThree instance.entry unended text said.verified said.is_ended) }
{
    let _agents = instance.agents();
    let _grid = instance.grid();
    let mut keeper = Keeper::at(alloc, instance, &begun.parts)?;
    if unended {
        judge_unended(alloc, &mut keeper, begun)
    } else {
        judge_ended(alloc, &mut keeper, begun)
    }
}

/// Whether a text is a log of any version whose entries are a run over the instance: of version 1 or 2 from the opening with its
/// clock and slots, of version 3 from the state that its front tells, at which all agents are to be on their ways. Where `unended` is
/// true its last line may be missing, and a part of a line behind the entries is not counted. Else the first bad line is told, from 1.
/// Of a text of version 3 what follows the front is held once more, and its entries are kept while they are judged.
///
/// Error: `NoMemory` when out of memory.
pub fn verify_any(
    alloc: Global,
    instance: Instance,
    unended: bool,
    text: &[u8],
) -> Result<VerifiedFront, NoMemory>
    requires some { 1 ≤ length instance.layout.agents }
    // What is said of a text of version 1 or 2, or of none.
    ensures two { (IsVersionThree text.now → ⊥) → IfOk result (SaysOfTwo instance.entry unended text.now) }
    // What is said of a text of version 3.
    ensures three { IsVersionThree text.now → IfOk result (λ said. SaysOfThree instance.entry unended text.now said.verified said.is_ended) }
{
    if is_version_three(text) {
        verify_three(alloc, instance, unended, text)
    } else {
        verify_two(alloc, instance, unended, text)
    }
}

/// The same of a text that is not of version 3.
fn verify_two(
    alloc: Global,
    instance: Instance,
    unended: bool,
    text: &[u8],
) -> Result<VerifiedFront, NoMemory>
    requires some { 1 ≤ length instance.layout.agents }
    ensures { IfOk result (SaysOfTwo instance.entry unended text.now) }
{
    if unended {
        return verify_unended(alloc, instance, text);
    }
    let verified = verify_over(alloc, instance, text)?;
    Ok(VerifiedFront {
        verified,
        is_ended: true,
    })
}

/// The same of a text of version 3.
fn verify_three(
    alloc: Global,
    instance: Instance,
    unended: bool,
    text: &[u8],
) -> Result<VerifiedFront, NoMemory>
    requires version { IsVersionThree text.now }
    ensures { IfOk result (λ said. SaysOfThree instance.entry unended text.now said.verified said.is_ended) }
{
    let _grid = instance.grid();
    match look_at_front(
        alloc,
        instance.grid(),
        instance.points(),
        instance.homes(),
        text,
    )? {
        Looked::Begun(begun) => {
            let said = judge_behind(alloc, instance, unended, &begun);
            drop(begun);
            said
        }
        Looked::Flawed { line, .. } => Ok(bad(line)),
    }
}
