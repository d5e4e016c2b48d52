//! The rule of the bank's word, and what each kind of step on it tells.
use atomic_table::{Join, Play, Split, TableRule};
use std::collections::LinkedList;

/// What a seat knows: the bank's total, how many slots are out with the seat, and each number that its steps found in
/// the word, in order. No value of it is made: it is there for contracts.
pub struct Holding {
    pub total: u64,
    pub slots: u64,
    pub found: LinkedList<u64>,
}

/// Free slots and the slots of all seats add up to the total.
pub struct Conserved;

impl TableRule<(), Holding, u32> for Conserved {
    ghost use Rattle.wh_claims.specs.Word.{IsConserved, idle};

    ghost holds = { IsConserved };

    ghost first = { idle };
}

/// A load.
pub struct Looks;

impl Play<(), Holding> for Looks {
    ghost use Rattle.wh_claims.specs.Word.{Looked};

    ghost then = { Looked };
}

/// An exchange of the word for a smaller number. The seat has the difference where it succeeds.
pub struct Takes;

impl Play<(), Holding> for Takes {
    ghost use Rattle.wh_claims.specs.Word.{Taken};

    ghost then = { Taken };
}

/// An addition of all that the seat has.
pub struct GivesBack;

impl Play<(), Holding> for GivesBack {
    ghost use Rattle.wh_claims.specs.Word.{GivenBack};

    ghost then = { GivenBack };
}

/// A new seat has no slots.
pub struct Idle;

impl Split<Holding> for Idle {
    ghost use Rattle.wh_claims.specs.Word.{idle};

    ghost left = { λ v. v };

    ghost right = { λ v. idle v.total };
}

impl Join<Holding> for Idle {
    ghost use Rattle.wh_claims.specs.Word.{idle};

    ghost both = { λ v _. v };

    ghost spent = { idle 0 };
}
