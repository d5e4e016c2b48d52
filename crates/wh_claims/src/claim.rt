//! Claims, which give their slots back when dropped.
ghost use Rattle.std.specs.Prelude.{◌≡◌};
ghost use Rattle.std.specs.Arc.{arc_value};
ghost use Rattle.wh_claims.specs.Stake.{IsStakeIn, stake_slots};

use crate::bank::{Bank, BankSeat};
use crate::stake::Stake;
use std::alloc::Global;
use std::sync::Arc;

/// Slots of a bank that nobody else has. They are given back when it is dropped.
pub struct Claim {
    bank: Arc<Bank, Global>,
    stake: Stake,
    amount: u32,
    ghost together: { IsStakeIn stake (arc_value bank) },
    ghost backed: { stake_slots stake ≡ amount },
}

/// Why nothing was claimed. The numbers are slots.
#[derive(Clone, Copy, Debug, PartialEq, Eq)]
pub enum Refusal {
    /// This many slots were free at the look, fewer than were asked for.
    Short { free: u32 },
    /// Enough slots were free at the look, but the number had changed by the exchange: this many were free then.
    Raced { seen: u32 },
}

/// Nothing was claimed. The bank and the seat are handed back.
#[derive(Drop)]
pub struct ClaimRefused {
    pub refusal: Refusal,
    pub bank: Arc<Bank, Global>,
    pub seat: BankSeat,
}

impl Claim {
    ghost use Rattle.std.specs.Prelude.{ℕ, ◌+◌, ◌≤◌, [], ◌∷◌, ◌++◌, IfOk, IfErr};
    ghost use Rattle.wh_claims.specs.Bank.{bank_total, Belongs, found};
    ghost use Rattle.wh_claims.specs.Claim.{claim_bank, claim_amount, claim_found, IsRefusal};

    /// Claims the given number of slots, by one look and one exchange. It makes one try, never waits, and takes no memory.
    pub fn take(bank: Arc<Bank, Global>, seat: BankSeat, slots: u32) -> Result<Claim, ClaimRefused>
        requires { Belongs seat (arc_value bank) }
        ensures amount { IfOk result (λ c. claim_amount c ≡ slots) }
        ensures bank { IfOk result (λ c. claim_bank c ≡ arc_value bank) }
        // Enough were free at the look, and the exchange found the same number.
        ensures steps { IfOk result (λ c. (free : ℕ) × (slots ≤ free) × (claim_found c ≡ found seat ++ free ∷ free ∷ [])) }
        ensures bank_back { IfErr result (λ r. r.bank ≡ bank) }
        ensures seat_back { IfErr result (λ r. Belongs r.seat (arc_value bank)) }
        ensures refused { IfErr result (λ r. IsRefusal slots (found seat) r.refusal (found r.seat)) }
    {
        let mut stake = Stake::new(seat);
        let free = stake.look(&bank);
        if free < slots {
            return Err(ClaimRefused {
                refusal: Refusal::Short { free },
                bank,
                seat: stake.end(),
            });
        }
        let seen = stake.take(&bank, free, slots);
        if seen != free {
            return Err(ClaimRefused {
                refusal: Refusal::Raced { seen },
                bank,
                seat: stake.end(),
            });
        }
        Ok(Claim {
            bank,
            stake,
            amount: slots,
        })
    }

    /// How many slots the claim has.
    pub fn amount(&self) -> u32
        ensures { result ≡ claim_amount self.now }
    {
        self.amount
    }

    /// How many slots of its bank are free, by one look at the word.
    pub fn free(&mut self) -> u32
        ensures same { (claim_bank self.new ≡ claim_bank self.old) × (claim_amount self.new ≡ claim_amount self.old) }
        ensures word { claim_found self.new ≡ claim_found self.old ++ result ∷ [] }
        // The claim's slots are not among the free ones.
        ensures at_most { result + claim_amount self.old ≤ bank_total (claim_bank self.old) }
    {
        self.stake.look(&self.bank)
    }
}

impl Claim {
    ghost use Rattle.std.specs.Prelude.{ℕ, ◌∷◌, ◌++◌, []};
    ghost use Rattle.wh_claims.specs.Bank.{Belongs, found};
    ghost use Rattle.wh_claims.specs.Claim.{claim_bank, claim_found};

    /// Gives the slots back in one step, as a drop does, and hands back the seat, which has none.
    pub fn give_back(self) -> BankSeat
        ensures seat { Belongs result (claim_bank self) }
        ensures one_step { (free : ℕ) × (found result ≡ claim_found self ++ free ∷ []) }
    {
        let Claim {
            bank,
            mut stake,
            amount,
        } = self;
        stake.give_back(&bank, amount);
        stake.end()
    }
}

impl Drop for Claim {
    fn drop(self) {
        let _ = self.give_back();
    }
}
