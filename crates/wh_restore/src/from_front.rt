//! Restores a state from a front.

ghost use Rattle.std.specs.Prelude.{◌≡◌, ◌++◌, ℕ, List, IfOk, Err, MatchResult};
ghost use Rattle.wh_points.specs.Points.{IsLayout};
ghost use Rattle.wh_front.specs.declared.front.Front.{Front};
ghost use Rattle.wh_front.specs.Fronts.{front_text};
ghost use Rattle.wh_restore.specs.declared.reason.Reason.{Reason as Why};
ghost use Rattle.wh_restore.specs.declared.reason.RestoreFault.TheVariants as faults;
ghost use Rattle.wh_restore.specs.SoundFronts.{site_of, IsSoundFront};
ghost use Rattle.wh_restore.specs.FirstFlawed.{IsFirstFlawed};
ghost use Rattle.wh_restore.specs.Restoring.{IsRestored};

use crate::follow::follow;
use crate::reason::RestoreFault;
use crate::restored::Restored;
use crate::restoring::Restoring;
use std::alloc::Global;
use wh_front::Rules;
use wh_grid::Grid;
use wh_points::Points;

/// The state that the front tells with which a text begins. A run over the grid and the points may begin with it, by these
/// rules. What follows the front is not looked at.
///
/// Errors: `Line` where the text begins with no front of a sound state, with the number of the first line that has a flaw,
/// from 1, and its first flaw, in the order of their numbers; `NoMemory` (E90).
pub fn restore<'a>(
    alloc: Global,
    grid: &Grid,
    points: &Points,
    rules: Rules,
    text: &'a [u8],
) -> Result<Restored<'a>, RestoreFault>
    requires layout { IsLayout grid.now points.now }
    // What is restored is told by a front of a sound state, with which the text begins.
    ensures found { IfOk result (λ restored. (front : Front) × IsSoundFront (site_of grid.now points.now rules) rules front × (text.now ≡ front_text front ++ restored.rest.now) × IsRestored front restored) }
    // What such a front tells is restored, unless memory runs out.
    ensures only { (front : Front) (rest : List ℕ) → IsSoundFront (site_of grid.now points.now rules) rules front → text.now ≡ front_text front ++ rest → MatchResult result (λ restored. IsRestored front restored × (restored.rest.now ≡ rest)) (λ e. e ≡ faults.NoMemory) }
    ensures line { (n : ℕ) (reason : Why) → result ≡ Err (faults.Line n reason) → IsFirstFlawed (site_of grid.now points.now rules) rules text.now n reason }
{
    let mut restoring = Restoring::begin(alloc, grid, points, rules)?;
    let rest = follow(alloc, text, &mut restoring)?;
    let Restoring {
        rules: _,
        head,
        builder,
        callers,
    } = restoring;
    match builder.finish() {
        Ok(state) => Ok(Restored {
            head,
            state,
            callers,
            rest,
        }),
        Err(_) => unreachable!(),
    }
}
