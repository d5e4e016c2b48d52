//! Claims in one thread and in two, from outside.
ghost use Rattle.std.specs.Prelude.{IfOk};
ghost use Rattle.std.specs.Arc.{arc_value};
ghost use Rattle.wh_claims.specs.Bank.{Belongs};

use std::alloc::{AllocError, Global};
use std::sync::Arc;
use std::test::Fail;
use std::thread;
use wh_claims::{Bank, BankSeat, Claim, Refusal};

#[test]
fn a_claim_gives_back_where_it_is_dropped(rt: HostRuntime) -> Result<(), Fail> {
    let (bank, mut seat) = Bank::new(rt.alloc(), 10)?;
    let first = seat.split(&bank);
    let second = seat.split(&bank);
    let Ok(claim) = Claim::take(Arc::try_clone(&bank)?, first, 8) else {
        panic!(rt; "8 of 10 are free")
    };
    let Err(refused) = Claim::take(Arc::try_clone(&bank)?, second, 4) else {
        panic!(rt; "2 are free")
    };
    assert_eq!(rt; refused.refusal, Refusal::Short { free: 2 });
    assert_eq!(rt; bank.free(&mut seat), 2);
    assert_eq!(rt; claim.amount(), 8);
    drop(claim);
    assert_eq!(rt; bank.free(&mut seat), 10);
    let Ok(mut claim) = Claim::take(refused.bank, refused.seat, 4) else {
        panic!(rt; "10 are free")
    };
    assert_eq!(rt; claim.free(), 6);
    let _ = claim.give_back();
    assert_eq!(rt; bank.free(&mut seat), 10);
    Ok(())
}

#[derive(Drop)]
struct Turns {
    taken: u32,
    raced: u32,
    short: u32,
    seat: BankSeat,
}

// Claims three slots and gives them back, a thousand times.
fn take_turns(bank: &Arc<Bank, Global>, seat: BankSeat) -> Result<Turns, AllocError>
    requires { Belongs seat (arc_value bank.now) }
    ensures { IfOk result (λ t. Belongs t.seat (arc_value bank.now)) }
{
    let mut seat = seat;
    let (mut taken, mut raced, mut short) = (0u32, 0u32, 0u32);
    for _ in 0..1000 {
        let other = seat.split(bank);
        match Claim::take(Arc::try_clone(bank)?, other, 3) {
            Ok(claim) => {
                drop(claim);
                taken = taken.saturating_add(1);
            }
            Err(refused) => {
                match refused.refusal {
                    Refusal::Short { .. } => short = short.saturating_add(1),
                    Refusal::Raced { .. } => raced = raced.saturating_add(1),
                }
                seat.join(bank, refused.seat);
            }
        }
    }
    Ok(Turns {
        taken,
        raced,
        short,
        seat,
    })
}

#[test]
fn two_threads_claim_in_turn(rt: HostRuntime) -> Result<(), Fail> {
    let (bank, mut seat) = Bank::new(rt.alloc(), 8)?;
    let first = seat.split(&bank);
    let second = seat.split(&bank);
    let shared = &bank;
    let (one, other) = thread::join(
        &rt,
        move ||
            requires { Belongs first (arc_value shared.now) }
            ensures { IfOk result (λ t. Belongs t.seat (arc_value shared.entry.now)) }
        { take_turns(shared, first) },
        move ||
            requires { Belongs second (arc_value shared.now) }
            ensures { IfOk result (λ t. Belongs t.seat (arc_value shared.entry.now)) }
        { take_turns(shared, second) },
    );
    let (one, other) = (one?, other?);
    assert_eq!(rt; (one.short, other.short), (0, 0));
    assert_eq!(rt; one.taken.saturating_add(one.raced), 1000);
    assert_eq!(rt; other.taken.saturating_add(other.raced), 1000);
    seat.join(&bank, one.seat);
    seat.join(&bank, other.seat);
    assert_eq!(rt; bank.free(&mut seat), 8);
    Ok(())
}
