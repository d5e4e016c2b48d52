//! The bank, and the seats from which its slots are claimed.
ghost use Rattle.std.specs.Prelude.{◌≡◌, []};

use crate::rule::{Conserved, Holding, Idle, Looks};
use atomic_table::{Seat, Table};
use std::alloc::{AllocError, Global};
use std::sync::Arc;

/// A fixed number of slots, counted in one shared word. Those that no claim has are free.
#[derive(Drop)]
pub struct Bank {
    pub(crate) table: Table<(), Holding, u32, Conserved, Global>,
    ghost one_word: { table.shared.table_id.words ≡ 1 },
}

/// The right to claim slots once, or to look how many are free. It has no slots itself. A thread that is to claim or
/// look is given a seat of its own, split from another.
#[derive(Drop)]
pub struct BankSeat {
    pub(crate) seat: Seat<(), Holding>,
    ghost idle: { (seat.me.0.slots ≡ 0) × (seat.me.1 ≡ []) },
}

impl Bank {
    ghost use Rattle.std.specs.Prelude.{IfOk, ◌∷◌, ◌++◌, ◌≤◌};
    ghost use Rattle.std.specs.Arc.{arc_value};
    ghost use Rattle.wh_claims.specs.Bank.{bank_total, Belongs, found};

    /// A bank of the given number of slots, all of them free, and its first seat. Fails only when out of memory.
    pub fn new(alloc: Global, total: u32) -> Result<(Arc<Bank, Global>, BankSeat), AllocError>
        ensures total { IfOk result (λ r. bank_total (arc_value r.0) ≡ total) }
        ensures seat { IfOk result (λ r. Belongs r.1 (arc_value r.0)) }
        ensures fresh { IfOk result (λ r. found r.1 ≡ []) }
    {
        let (table, seat) = Table::of_words(alloc.clone()?, &[u64::from(total)], &total)?;
        let bank = Arc::new(alloc, Bank { table })?;
        Ok((bank, BankSeat { seat }))
    }

    /// How many slots are free, by one look at the word: other threads may change it at any time.
    pub fn free(&self, seat: &mut BankSeat) -> u32
        requires { Belongs seat.old self.now }
        ensures same { Belongs seat.new self.now }
        ensures at_most { result ≤ bank_total self.now }
        ensures word { found seat.new ≡ found seat.old ++ result ∷ [] }
    {
        self.table.shared.load::<Looks>(&mut seat.seat, 0) as u32
    }
}

impl BankSeat {
    ghost use Rattle.std.specs.Prelude.{◌∷◌, ◌++◌};
    ghost use Rattle.wh_claims.specs.Bank.{Belongs, found};

    /// One more seat of the bank. It takes no memory.
    pub fn split(&mut self, bank: &Bank) -> BankSeat
        requires { Belongs self.old bank.now }
        ensures same { Belongs self.new bank.now × (found self.new ≡ found self.old) }
        ensures split { Belongs result bank.now × (found result ≡ []) }
    {
        let seat = bank.table.shared.split_seat::<Idle>(&mut self.seat);
        BankSeat { seat }
    }

    /// Ends the other seat. It tidies up only: a seat that is dropped takes no slots along.
    pub fn join(&mut self, bank: &Bank, other: BankSeat)
        requires { Belongs self.old bank.now × Belongs other bank.now }
        ensures { Belongs self.new bank.now × (found self.new ≡ found self.old) }
    {
        let BankSeat { seat } = other;
        bank.table.shared.join_seat::<Idle>(&mut self.seat, seat);
    }
}
