//! What is published: a board, and who knows what it shows.
#![tactic(auto)]

ghost use Rattle.std.specs.Prelude.{◌≡◌, ◌⊎◌};
ghost use Rattle.wh_board.specs.Boards.{IsBoardOf};
ghost use Rattle.wh_board.specs.Pasts.{Extends, past_of};

use crate::board::Board;
use crate::front::Front;
use left_right::Absorb;
use std::alloc::AllocError;
use std::marker::Model;
use wh_book::Book;

/// A board beside the past that it shows. Contracts see its book and the past.
#[derive(Drop)]
pub struct Page {
    board: Board,
    front: Front,
}

impl Model for Page {
    ghost use Rattle.wh_board.specs.Boards.{IsBoardOf};
    ghost use Rattle.wh_board.specs.Pasts.{Known};

    ghost Value = { Known };

    ghost view = { λ p. p.front };

    ghost invariant = { λ p. IsBoardOf p.front.past p.board };
}

impl Page {
    /// The page of a book, with the front that has its past.
    pub fn of(book: &Book, front: Front) -> Page
        requires { front.past ≡ past_of book.now }
        ensures { result ≡ front }
    {
        Page {
            board: Board::of(book),
            front,
        }
    }

    /// A copy. It takes no memory.
    pub fn again(&self) -> Page
        ensures { result ≡ self.now }
    {
        Page {
            board: self.board.copy(),
            front: self.front.again(),
        }
    }

    /// What is known of the past that it shows.
    pub(crate) fn front(&self) -> &Front
        ensures { result.now ≡ self.now }
    {
        &self.front
    }

    /// What is shown.
    pub fn board(&self) -> Board
        ensures { IsBoardOf self.now.past result }
    {
        self.board.copy()
    }

    /// The later of two pages of one book.
    pub fn later(&self, other: &Page) -> Page
        requires { self.now.book ≡ other.now.book }
        ensures one { (result ≡ self.now) ⊎ (result ≡ other.now) }
        ensures book { result.book ≡ self.now.book }
        ensures this { Extends self.now.past result.past }
        ensures that { Extends other.now.past result.past }
    {
        if self.front.is_before(&other.front) {
            other.again()
        } else {
            self.again()
        }
    }
}

/// The newest page takes the place of the one before.
impl Absorb<Page> for Page {
    type State = Page;

    ghost state = { λ page. page };

    ghost applied = { λ before page. page };

    ghost never_fails = { Unit {0} };

    fn absorb_first(&mut self, operation: &Page, _other: &Page) -> Result<(), AllocError> {
        *self = operation.again();
        Ok(())
    }
}
