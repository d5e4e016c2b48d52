//! A screen on which boards are shown.
#![tactic(auto)]

ghost use Rattle.std.specs.Prelude.{◌≡◌, ◌∷◌, [], IfOk, OnOk, OnErr};
ghost use Rattle.wh_board.specs.Pasts.{Extends};
ghost use Rattle.wh_display.specs.Screens.{Refreshes, Renews, Shows};
ghost use Rattle.wh_display.specs.Texts.{board_text};

use crate::text::text_of_board;
use std::alloc::Global;
use wh_board::{Board, Viewer};

/// Why a board is not shown.
#[derive(Clone, Copy, Debug, PartialEq, Eq)]
pub enum ShowFault {
    /// The screen did not take it.
    Unshown,
    /// E90: no memory was left.
    NoMemory,
}

/// It shows one text at a time.
pub trait Screen {
    ghost use Rattle.std.specs.Prelude.{◌∷◌, [], ℕ, List, Option, None, OnOk, OnErr};
    ghost use Rattle.wh_display.specs.Screens.{Shows};

    // the texts that it has shown, one after another, where it tells
    ghost shown: { Self → Option (List (List ℕ)) } = { λ _. None };

    /// Replaces the text shown before. A reader sees one or the other, whole.
    fn show(&mut self, text: &[u8]) -> Result<(), ShowFault>
        ensures ok { OnOk result (Shows (shown self.old) (shown self.new) (text.now ∷ [])) }
        ensures err { OnErr result (Shows (shown self.old) (shown self.new) []) };
}

/// Writes the text of a board, and shows it.
fn show_board<S: Screen>(alloc: Global, screen: &mut S, board: &Board) -> Result<(), ShowFault>
    ensures ok { OnOk result (Shows (S.shown screen.old) (S.shown screen.new) (board_text board.now ∷ [])) }
    ensures err { OnErr result (Shows (S.shown screen.old) (S.shown screen.new) []) }
{
    match text_of_board(alloc, board) {
        Ok(text) => screen.show(text.as_slice()),
        Err(_) => Err(ShowFault::NoMemory),
    }
}

/// Shows the board, unless it has the number of entries seen before. On a fault nothing was shown.
pub fn renew<S: Screen>(
    alloc: Global,
    screen: &mut S,
    board: &Board,
    seen: Option<u64>,
) -> Result<(), ShowFault>
    ensures ok { OnOk result (Renews seen board.now (S.shown screen.old) (S.shown screen.new)) }
    ensures err { OnErr result (Shows (S.shown screen.old) (S.shown screen.new) []) }
{
    if seen == Some(board.entries) {
        return Ok(());
    }
    show_board(alloc, screen, board)
}

/// Looks at the board, and shows it unless it has the number of entries seen before. Returns how many it has. It waits for no
/// caller of the desk, and holds none up. On a fault nothing was shown.
pub fn refresh<S: Screen>(
    alloc: Global,
    viewer: &mut Viewer,
    screen: &mut S,
    seen: Option<u64>,
) -> Result<u64, ShowFault>
    ensures ok { IfOk result (λ entries. Refreshes viewer.new.past seen entries (S.shown screen.old) (S.shown screen.new)) }
    ensures err { OnErr result (Shows (S.shown screen.old) (S.shown screen.new) []) }
    ensures later { Extends viewer.old.past viewer.new.past }
    ensures book { viewer.new.book ≡ viewer.old.book }
{
    let board = viewer.look();
    match renew(alloc, screen, &board, seen) {
        Ok(()) => Ok(board.entries),
        Err(fault) => Err(fault),
    }
}
