//! What is told of a crew that came to no history.
#![tactic(auto)]

ghost use Rattle.std.specs.Prelude.{◌≡◌};
ghost use Rattle.wh_crew.specs.Troubles.{IsWhyDead, trouble_of};

use crate::threads::CrewFault;
use wh_edge::Trouble;

/// The error of a crew that came to no history.
pub fn trouble_of(fault: CrewFault) -> Trouble
    ensures value { result ≡ trouble_of fault }
    ensures why { IsWhyDead result }
{
    match fault {
        CrewFault::NoThread => Trouble::NoThread,
        CrewFault::NoMemory => Trouble::NoMemory,
        CrewFault::Stale => Trouble::Differs,
    }
}
