//! What a step is where nobody was ever stopped. The function's contract is the law.
#![tactic(auto)]

ghost use Rattle.wh_book.specs.OnTheirWays.{StepsOnTheirWays};

/// Where all are on their ways, whether paths end at the last stop or go on home, the steps are those of `OnTheirWays`.
pub fn steps_on_their_ways()
    ensures { StepsOnTheirWays }
{}
