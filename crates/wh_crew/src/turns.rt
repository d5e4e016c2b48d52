//! Whether the clock has to tick behind the requests of a turn.
#![tactic(auto)]

ghost use Rattle.std.specs.Prelude.{◌≡◌, ◌||◌};
ghost use Rattle.wh_crew.specs.Turns.{moves};

use wh_board::{Board, Shown};

/// Whether the clock ticks in a turn at a board: where somebody asked, or is shown with steps left.
pub fn is_to_tick(some_asked: bool, board: &Board) -> bool
    ensures { result ≡ (some_asked || moves board.now.agents.items) }
{
    some_asked || moves(board.agents.as_slice())
}

/// Whether an agent is shown with steps left.
pub(crate) fn moves(agents: &[Shown]) -> bool
    ensures { result ≡ moves agents.now }
{
    for shown in agents {
        if shown.steps_left > 0 {
            return true;
        }
    }
    false
}
