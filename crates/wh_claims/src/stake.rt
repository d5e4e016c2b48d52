//! A seat that may have slots. It is not `Drop`: only `end` ends it, and asks that it has none, so slots can't be lost.
ghost use Rattle.std.specs.Prelude.{◌≡◌, []};

use crate::bank::{Bank, BankSeat};
use crate::rule::{GivesBack, Holding, Looks, Takes};
use atomic_table::Seat;

pub(crate) struct Stake {
    seat: Seat<(), Holding>,
    ghost no_places: { seat.me.1 ≡ [] },
}

impl Stake {
    ghost use Rattle.std.specs.Prelude.{ℕ, ◌≢◌, ◌+◌, ◌<◌, ◌≤◌, ◌∷◌, ◌++◌};
    ghost use Rattle.wh_claims.specs.Bank.{bank_total, found};
    ghost use Rattle.wh_claims.specs.Stake.{IsStakeIn, IsOf, stake_slots, stake_found};

    pub(crate) fn new(seat: BankSeat) -> Stake
        ensures seat { IsOf result seat × (stake_found result ≡ found seat) }
        ensures none { stake_slots result ≡ 0 }
    {
        let BankSeat { seat } = seat;
        Stake { seat }
    }

    /// How many slots are free.
    pub(crate) fn look(&mut self, bank: &Bank) -> u32
        requires { IsStakeIn self.old bank.now }
        ensures same { IsStakeIn self.new bank.now × (stake_slots self.new ≡ stake_slots self.old) }
        ensures at_most { result + stake_slots self.old ≤ bank_total bank.now }
        ensures word { stake_found self.new ≡ stake_found self.old ++ result ∷ [] }
    {
        bank.table.shared.load::<Looks>(&mut self.seat, 0) as u32
    }

    /// Takes the given number of slots where `free` are free, and returns how many were free.
    pub(crate) fn take(&mut self, bank: &Bank, free: u32, slots: u32) -> u32
        requires { IsStakeIn self.old bank.now × (slots ≤ free) }
        ensures same { IsStakeIn self.new bank.now }
        ensures word { stake_found self.new ≡ stake_found self.old ++ result ∷ [] }
        ensures taken { result ≡ free → stake_slots self.new ≡ stake_slots self.old + slots }
        ensures raced { result ≢ free → stake_slots self.new ≡ stake_slots self.old }
    {
        let rest = u64::from(free - slots);
        bank.table
            .shared
            .compare_exchange::<Takes>(&mut self.seat, 0, u64::from(free), rest) as u32
    }

    /// Gives all its slots back.
    pub(crate) fn give_back(&mut self, bank: &Bank, slots: u32)
        requires { IsStakeIn self.old bank.now × (stake_slots self.old ≡ slots) }
        ensures same { IsStakeIn self.new bank.now }
        ensures given { stake_slots self.new ≡ 0 }
        ensures one_step { (free : ℕ) × (stake_found self.new ≡ stake_found self.old ++ free ∷ []) }
    {
        bank.table
            .shared
            .fetch_add::<GivesBack>(&mut self.seat, 0, u64::from(slots));
    }

    pub(crate) fn end(self) -> BankSeat
        requires { stake_slots self ≡ 0 }
        ensures { IsOf self result × (found result ≡ stake_found self) }
    {
        let Stake { seat } = self;
        BankSeat { seat }
    }
}
