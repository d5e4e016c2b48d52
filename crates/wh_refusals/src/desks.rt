//! The row of a desk: two callers fill a journal of three, while a viewer looks.

ghost use Rattle.std.specs.Prelude.{◌≡◌, ◌+◌, [], IfOk, IfSome, length};
ghost use Rattle.std.specs.Arc.{arc_value};
ghost use Rattle.wh_claims.specs.Bank.{Belongs};
ghost use Rattle.wh_live.specs.Pasts.{origin_of, past_of};
ghost use Rattle.wh_live.specs.Lists.{AllAt};
ghost use Rattle.wh_live.specs.Calls.{TellsReceipt};

use crate::again::{Halt, TRIES, again, refused, tell};
use crate::fleet::{bank, open, room};
use std::alloc::{AllocError, Global};
use std::marker::Brand;
use std::sync::{Arc, Wait};
use wh_claims::{Bank, BankSeat};
use wh_event::{Command, Entry, read_line, write_reply};
use wh_live::{Cells, Desk, DeskFault, DeskName, Pass, Publisher, Receipt, Viewer};
use wh_planner::Planner;
use wh_service::{Book, PlannerParts, Warehouse};

/// How many positions the journal has.
const POSITIONS: u64 = 3;

/// What a viewer sees: how many entries there are, and how many tasks no agent has.
fn seen(viewer: &mut Viewer) -> (u64, u32)
    ensures { viewer.new.book ≡ viewer.old.book }
{
    let board = viewer.look();
    (board.entries, board.open_tasks)
}

/// Tells what a viewer sees.
fn tell_seen<R: Print>(rt: &R, viewer: &mut Viewer) -> Result<(), Halt>
    ensures { viewer.new.book ≡ viewer.old.book }
{
    let (entries, open_tasks) = seen(viewer);
    println!(rt; "entries {entries} open {open_tasks}")?;
    Ok(())
}

/// Makes a call of the desk.
fn ask<N: DeskName, H: Wait + Drop, P: Planner, R: Wait>(
    rt: &R,
    alloc: Global,
    desk: &Desk<N, H, P>,
    pass: &mut Pass<N>,
    command: Command,
) -> Result<Receipt, DeskFault>
    ensures { IfOk result (λ r. IfSome r.told (λ t. TellsReceipt N.book N.origin r.position r.entry t)) }
{
    match command {
        Command::Submit { client, stops } => desk.submit(rt, alloc, pass, client, stops),
        Command::Token { agent } => desk.request(rt, alloc, pass, agent),
        Command::Tick => desk.tick(rt, alloc, pass),
        Command::Replace { agent } => desk.replace(rt, alloc, pass, agent, None).outcome,
        Command::Close => desk.close(rt, alloc, pass),
    }
}

/// What can be told from outside: how many entries the pass has, how long the history is in which both passes stand, and
/// what a viewer sees.
fn tally<N: DeskName, H: Wait + Drop, P: Planner, R: Wait>(
    rt: &R,
    desk: &Desk<N, H, P>,
    pass: &Pass<N>,
    other: &Pass<N>,
    viewer: &mut Viewer,
) -> (u64, Option<u64>, (u64, u32))
    ensures { viewer.new.book ≡ viewer.old.book }
{
    let length = match desk.meet(rt, pass, other) {
        Ok(met) => Some(met.length),
        Err(_) => None,
    };
    (pass.len(), length, seen(viewer))
}

/// Tells a receipt. The viewer learns what was told, if the entry was shown.
fn tell_receipt<N: DeskName, R: Print>(
    rt: &R,
    receipt: &Receipt,
    viewer: &mut Viewer,
) -> Result<(), Halt>
    requires told { IfSome receipt.now.told (λ t. TellsReceipt N.book N.origin receipt.now.position receipt.now.entry t) }
    requires viewer { viewer.old.book ≡ N.book }
    ensures { viewer.new.book ≡ N.book }
{
    let position = receipt.position;
    print!(rt; "position {position} ")?;
    tell(rt, write_reply(&receipt.entry.reply).as_slice())?;
    match &receipt.told {
        Some(told) => viewer.learn(told),
        None => tell(rt, b"not shown")?,
    }
    Ok(())
}

/// Makes a call of the desk, again where it was refused for memory, and tells what is answered.
fn call<N: DeskName, H: Wait + Drop, P: Planner, R: Print + Wait>(
    rt: &R,
    alloc: Global,
    desk: &Desk<N, H, P>,
    pass: &mut Pass<N>,
    other: &Pass<N>,
    viewer: &mut Viewer,
    line: &str,
) -> Result<(), Halt>
    requires { viewer.old.book ≡ N.book }
    ensures { viewer.new.book ≡ N.book }
{
    let Ok(Some(command)) = read_line(line.as_bytes()) else {
        return Err(Halt::Odd);
    };
    for _ in 0..TRIES {
        let before = tally(rt, desk, pass, other, viewer);
        match ask(rt, alloc, desk, pass, command.copy()) {
            Ok(receipt) => return tell_receipt::<N, R>(rt, &receipt, viewer),
            Err(DeskFault::Full) => return tell(rt, b"refused E11"),
            Err(DeskFault::NoMemory) => {
                let is_as_before = tally(rt, desk, pass, other, viewer) == before;
                refused(rt, is_as_before)?;
            }
            Err(DeskFault::Stale | DeskFault::CellTaken) => return Err(Halt::Odd),
        }
    }
    Err(Halt::NoMemory)
}

/// The calls of two callers, of which the last finds the journal full, and what a viewer sees meanwhile.
fn calls<N: DeskName, H: Wait + Drop, P: Planner, R: Print + Wait>(
    rt: &R,
    alloc: Global,
    desk: &Desk<N, H, P>,
    zero: &mut Pass<N>,
    one: &mut Pass<N>,
    viewer: &mut Viewer,
) -> Result<(), Halt>
    requires { viewer.old.book ≡ N.book }
{
    call(rt, alloc, desk, zero, one, viewer, "submit x A B")?;
    tell_seen(rt, viewer)?;
    call(rt, alloc, desk, one, zero, viewer, "token 0")?;
    call(rt, alloc, desk, one, zero, viewer, "tick")?;
    call(rt, alloc, desk, zero, one, viewer, "submit x A B")?;
    tell_seen(rt, viewer)
}

/// Puts the next pass to those of the callers before.
fn put_back<N: DeskName>(passes: &mut Vec<Pass<N>>, pass: Pass<N>) -> Result<(), AllocError>
    requires next { length passes.old.items ≡ pass.caller }
    requires order { AllAt (λ k p. p.caller ≡ k) passes.old.items }
    ensures next { IfOk result (λ _. length passes.new.items ≡ pass.caller + 1) }
    ensures order { IfOk result (λ _. AllAt (λ k p. p.caller ≡ k) passes.new.items) }
{
    passes.push(pass)?;
    Ok(())
}

/// The passes of the two callers, in the callers' order.
fn both<N: DeskName, R: Print>(
    rt: &R,
    alloc: Global,
    zero: Pass<N>,
    one: Pass<N>,
) -> Result<Vec<Pass<N>>, Halt>
    ensures count { IfOk result (λ passes. length passes.items ≡ 2) }
    ensures order { IfOk result (λ passes. AllAt (λ k p. p.caller ≡ k) passes.items) }
{
    if zero.caller() != 0 || one.caller() != 1 {
        return Err(Halt::Odd);
    }
    let mut passes = room(rt, alloc)?;
    put_back(&mut passes, zero)?;
    put_back(&mut passes, one)?;
    Ok(passes)
}

/// Tells of each entry its caller and the reply.
fn tell_entries<R: Print>(rt: &R, entries: &[Entry]) -> Result<(), Halt> {
    for entry in entries {
        let caller = entry.caller;
        print!(rt; "caller {caller} ")?;
        tell(rt, write_reply(&entry.reply).as_slice())?;
    }
    Ok(())
}

/// Ends the desk, and tells its history.
fn end<N: DeskName, H: Wait + Drop, P: Planner, R: Print>(
    rt: &R,
    alloc: Global,
    desk: Desk<N, H, P>,
    zero: Pass<N>,
    one: Pass<N>,
) -> Result<(), Halt>
    requires { N.callers ≡ 2 }
{
    match both(rt, alloc, zero, one) {
        Ok(passes) => match desk.finish(passes) {
            Ok(history) => {
                let told = tell_entries(rt, history.warehouse.history());
                drop(history);
                told
            }
            Err(_) => Err(Halt::Odd),
        },
        Err(halt) => {
            drop(desk);
            Err(halt)
        }
    }
}

/// The passes of callers 0 and 1, where there are two.
fn two_passes<N: DeskName>(mut passes: Vec<Pass<N>>) -> Option<(Pass<N>, Pass<N>)> {
    let one = passes.pop()?;
    let zero = passes.pop()?;
    Some((zero, one))
}

/// Goes through the row with a viewer, and ends the desk.
fn watched<N: DeskName, H: Wait + Drop, P: Planner, R: Print + Wait>(
    rt: &R,
    alloc: Global,
    desk: Desk<N, H, P>,
    mut zero: Pass<N>,
    mut one: Pass<N>,
    viewer: &mut Viewer,
) -> Result<(), Halt>
    requires callers { N.callers ≡ 2 }
    requires viewer { viewer.old.book ≡ N.book }
{
    match calls(rt, alloc, &desk, &mut zero, &mut one, viewer) {
        Ok(()) => end(rt, alloc, desk, zero, one),
        Err(halt) => {
            drop(desk);
            Err(halt)
        }
    }
}

/// Goes through the row, and tells at its end what a viewer sees.
fn row<N: DeskName, H: Wait + Drop, P: Planner, R: Print + Wait>(
    rt: &R,
    alloc: Global,
    desk: Desk<N, H, P>,
    zero: Pass<N>,
    one: Pass<N>,
) -> Result<bool, Halt>
    requires { N.callers ≡ 2 }
{
    match desk.viewer(rt) {
        Ok(mut viewer) => {
            watched(rt, alloc, desk, zero, one, &mut viewer)?;
            tell_seen(rt, &mut viewer)?;
            Ok(true)
        }
        Err(_) => {
            drop(desk);
            Err(Halt::Odd)
        }
    }
}

/// Opens a desk and goes through the row. False: the desk could not be opened, and what was handed in was dropped.
fn at_desk<N: DeskName, H: Wait + Drop, P: Planner, R: Print + Wait>(
    rt: &R,
    alloc: Global,
    warehouse: Warehouse<P>,
    cells: Cells,
    publisher: Publisher<H>,
) -> Result<bool, Halt>
    requires origin { origin_of warehouse.book ≡ N.origin }
    requires history { warehouse.book.history ≡ [] }
    requires cells { cells ≡ N.cells }
    requires book { publisher.book ≡ N.book }
    requires added { publisher.added ≡ past_of warehouse.book }
    requires shown { publisher.shown ≡ past_of warehouse.book }
    requires callers { N.callers ≡ 2 }
{
    match Desk::<N, H, P>::open(alloc, warehouse, cells, publisher, 2) {
        Ok((desk, passes)) => match two_passes(passes) {
            Some((zero, one)) => row(rt, alloc, desk, zero, one),
            None => {
                drop(desk);
                Err(Halt::Odd)
            }
        },
        Err(_) => Ok(false),
    }
}

/// The cells of the journal.
fn cells<R: Print>(rt: &R, alloc: Global) -> Result<Cells, Halt> {
    again!(rt, Cells::new(alloc, POSITIONS))
}

/// The one that publishes.
fn publisher<'a, R: Print + Wait>(
    rt: &'a R,
    alloc: Global,
    book: &Book,
) -> Result<Publisher<&'a R>, Halt>
    ensures shown { IfOk result (λ p. p.shown ≡ past_of book.now) }
    ensures added { IfOk result (λ p. p.added ≡ past_of book.now) }
{
    again!(rt, Publisher::new(alloc, rt, book))
}

/// The cells of the journal, and the one that publishes.
fn cells_and_publisher<'a, P: Planner, R: Print + Wait>(
    rt: &'a R,
    alloc: Global,
    warehouse: &Warehouse<P>,
) -> Result<(Cells, Publisher<&'a R>), Halt>
    ensures added { IfOk result (λ r. r.1.added ≡ past_of warehouse.now.book) }
    ensures shown { IfOk result (λ r. r.1.shown ≡ past_of warehouse.now.book) }
{
    let cells = cells(rt, alloc)?;
    let publisher = publisher(rt, alloc, warehouse.book())?;
    Ok((cells, publisher))
}

/// Makes a warehouse and a desk round it, and goes through the row there. False: the desk could not be opened, and what was
/// made was dropped.
fn at_new_desk<R: Print + Wait, P: Planner, F: Fn(PlannerParts) -> Result<P, AllocError>>(
    rt: &R,
    alloc: Global,
    bank: &Arc<Bank>,
    seat: &mut BankSeat,
    make: &F,
) -> Result<bool, Halt>
    requires callable { F.IsAlwaysCallable make.now }
    requires seat { Belongs seat.old (arc_value bank.now) }
    ensures seat { Belongs seat.new (arc_value bank.now) }
{
    let warehouse = open(rt, alloc, bank, seat, make)?;
    match cells_and_publisher(rt, alloc, &warehouse) {
        Ok((cells, publisher)) => {
            at_desk::<Brand, _, _, _>(rt, alloc, warehouse, cells, publisher)
        }
        Err(halt) => {
            drop(warehouse);
            Err(halt)
        }
    }
}

/// Two callers fill a journal of three, while a viewer looks. Where the desk could not be opened, it is opened with another
/// warehouse, since the old one was dropped.
pub fn desk_receipts<R: Print + Wait, P: Planner, F: Fn(PlannerParts) -> Result<P, AllocError>>(
    rt: &R,
    alloc: Global,
    make: &F,
) -> Result<(), Halt>
    requires { F.IsAlwaysCallable make.now }
{
    let (bank, mut seat) = bank(rt, alloc, 1024)?;
    for _ in 0..TRIES {
        if at_new_desk(rt, alloc, &bank, &mut seat, make)? {
            return Ok(());
        }
        refused(rt, bank.free(&mut seat) == 1024)?;
    }
    Err(Halt::NoMemory)
}
