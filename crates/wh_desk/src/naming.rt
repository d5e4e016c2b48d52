//! Which desk it is.
#![tactic(auto)]

use std::marker::Brand;

/// Which desk it is: its cells, the book of its history, where that begins, and how many callers it has. It has no calls:
/// the code that opens a desk picks the name, with `Brand`, and code that uses a desk is generic over it.
pub trait DeskName {
    ghost use Rattle.std.specs.Prelude.{ℕ, List};
    ghost use Rattle.logbook.specs.Pages.{Book};
    ghost use Rattle.wh_board.specs.Pasts.{Origin};

    ghost cells: { List ℕ };

    ghost book: { Book };

    ghost origin: { Origin };

    ghost callers: { ℕ };
}

impl DeskName for Brand {
    ghost use Rattle.std.specs.Prelude.{[]};
    ghost use Rattle.wh_core.specs.States.{opened};
    ghost use Rattle.wh_board.specs.Pasts.{nowhere};

    ghost cells = { [] };

    ghost book = { record { number = 0; log_name = 0; cells_name = 0 } };

    ghost origin = { record { site = nowhere; opening = opened nowhere.layout 0 [] } };

    ghost callers = { 0 };
}
