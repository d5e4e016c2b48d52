//! The clients of a run: one for each number, with what it may do and the planners that stand by for it.

ghost use Rattle.std.specs.Prelude.{◌≡◌, ◌≢◌, ◌⊎◌, ◌<◌, ◌≤◌, All, IfErr, IfNone, IfOk, IfSome, length};
ghost use Rattle.std.specs.Arc.{arc_value};
ghost use Rattle.wh_claims.specs.Bank.{Belongs};
ghost use Rattle.wh_log.specs.Logs.{IsSlots};
ghost use Rattle.wh_desk.specs.Lists.{AllAt};
ghost use Rattle.wh_service.specs.Fleets.{IsOfFleet, IsWhyUnclaimed, IsWhyUnseated};
ghost use Rattle.wh_attend.specs.Guests.{AreNamed, HaveRoom, IsClient, IsNamed, IsNobody, IsStaffed, counts_before, numbers_of, rights_of};

use crate::shares::{WORKER_NUMBER, counts_before, entries_told, had_by, share_of, sharers};
use std::alloc::{AllocError, Global};
use std::sync::Arc;
use wh_claims::{Bank, BankSeat};
use wh_continue::Start;
use wh_edge::Trouble;
use wh_event::Entry;
use wh_front::Count;
use wh_grid::Grid;
use wh_options::{ClientOptions, ClientRights, ServeOptions};
use wh_planner::Planner;
use wh_serve::{Allowance, Client, Rights};
use wh_service::{PlannerParts, members, seated};

/// The rights that a client's word gave it.
fn rights_of(rights: ClientRights) -> Rights
    ensures { result ≡ rights_of rights }
{
    Rights {
        submit: rights.submit,
        token: rights.token,
        tick: rights.tick,
        replace: rights.replace,
        close: rights.close,
        stop: rights.stop,
    }
}

/// For how many clients there is to be a place that all who have entries are among them.
fn places_of(history: &[Entry]) -> u32
    requires callers { All (λ entry. entry.caller < 64) history.now }
    ensures within { All (λ entry. entry.caller < result) history.now }
    ensures few { result ≤ 64 }
{
    let mut places = 0;
    for entry in history {
        places = places.max(entry.caller + 1);
    }
    places
}

/// The same, so that those who were named are among them too.
fn places_for(clients: &[ClientOptions<'_>], mut places: u32) -> u32
    requires named { All (λ named. named.number < 62) clients.now }
    requires few { places ≤ 64 }
    ensures within { All (λ named. named.number < result) clients.now }
    ensures more { places ≤ result }
    ensures few { result ≤ 64 }
{
    for client in clients {
        places = places.max(client.number + 1);
    }
    places
}

/// For how many clients there is to be a place: beside a worker for each number below its own, and else for all who were named and all
/// who have entries.
fn places_beside(options: &ServeOptions<'_>, history: &[Entry]) -> u32
    requires named { AreNamed options.now.clients.items }
    requires callers { All (λ entry. entry.caller < 64) history.now }
    ensures few { HaveRoom options.now.every result }
    ensures named { All (λ named. named.number < result) options.now.clients.items }
    ensures callers { All (λ entry. entry.caller < numbers_of options.now.every result) history.now }
{
    match options.every {
        Some(_) => WORKER_NUMBER,
        None => places_for(options.clients.as_slice(), places_of(history)),
    }
}

/// The client that was named by this number, if one was.
pub fn named_by<'a, 'b>(
    clients: &'b [ClientOptions<'a>],
    number: u32,
) -> Option<&'b ClientOptions<'a>>
    ensures some { IfSome result (λ named. IsNamed clients.now number named.now) }
    ensures none { IfNone result (All (λ named. named.number ≢ number) clients.now) }
{
    for client in clients {
        if client.number == number {
            return Some(client);
        }
    }
    None
}

/// A client that nobody named.
fn nobody<P: Planner>(alloc: Global) -> Client<P>
    ensures { IsNobody result }
{
    Client {
        spares: Vec::new(alloc),
        allowance: Allowance {
            rights: Rights::default(),
            entries: 0,
            before: 0,
        },
    }
}

/// The client of this number. Those that stand by for it have their claims on the bank.
fn client_of<P: Planner, F: Fn(PlannerParts) -> Result<P, AllocError>>(
    alloc: Global,
    options: &ServeOptions<'_>,
    grid: &Arc<Grid>,
    bank: &Arc<Bank>,
    seat: &mut BankSeat,
    make: &F,
    history: &[Entry],
    counts: &[Count],
    number: u32,
) -> Result<Client<P>, Trouble>
    requires range { IsOfFleet options.now.fleet }
    requires named { AreNamed options.now.clients.items }
    requires callable { F.IsAlwaysCallable make.now }
    requires seat { Belongs seat.old (arc_value bank.now) }
    ensures seat { Belongs seat.new (arc_value bank.now) }
    ensures ok { IfOk result (IsClient (F.post make.now) options.now (arc_value grid.now) (arc_value bank.now) history.now counts.now number) }
    ensures fault { IfErr result (IsWhyUnclaimed options.now.fleet.slots) }
{
    let fleet = &options.fleet;
    let Some(named) = named_by(options.clients.as_slice(), number) else {
        return Ok(nobody(alloc));
    };
    let spares = members(alloc, fleet, grid, bank, seat, make, fleet.spares as usize)?;
    let among = sharers(options);
    let share = share_of(options.share, options.journal, among);
    Ok(Client {
        spares,
        allowance: Allowance {
            rights: rights_of(named.rights),
            entries: had_by(history, number) + share,
            before: entries_told(counts, number),
        },
    })
}

/// The clients, one for each number.
fn clients_of<P: Planner, F: Fn(PlannerParts) -> Result<P, AllocError>>(
    alloc: Global,
    options: &ServeOptions<'_>,
    grid: &Arc<Grid>,
    bank: &Arc<Bank>,
    seat: &mut BankSeat,
    make: &F,
    history: &[Entry],
    counts: &[Count],
    places: u32,
) -> Result<Vec<Client<P>>, Trouble>
    requires range { IsOfFleet options.now.fleet }
    requires named { AreNamed options.now.clients.items }
    requires callable { F.IsAlwaysCallable make.now }
    requires seat { Belongs seat.old (arc_value bank.now) }
    ensures count { IfOk result (λ clients. length clients.items ≡ places) }
    ensures each { IfOk result (λ clients. AllAt (IsClient (F.post make.now) options.now (arc_value grid.now) (arc_value bank.now) history.now counts.now) clients.items) }
    ensures fault { IfErr result (IsWhyUnclaimed options.now.fleet.slots) }
{
    let mut clients = Vec::with_capacity(alloc, places as usize)?;
    for number in 0..places {
        let client = client_of(
            alloc, options, grid, bank, seat, make, history, counts, number,
        )?;
        clients.push(client)?;
    }
    Ok(clients)
}

/// The planners of a run, and its clients.
#[derive(Drop)]
pub(crate) struct Staff<P: Planner> {
    /// One for each agent.
    pub planners: Vec<P>,
    /// The clients, with the planners that stand by for them.
    pub clients: Vec<Client<P>>,
}

/// Makes the planners of the agents, with the slots that the start's state tells, and then those that stand by for clients. The error
/// tells why one of them got no slots, or that memory ran out.
pub(crate) fn make_staff<P: Planner, F: Fn(PlannerParts) -> Result<P, AllocError>>(
    alloc: Global,
    options: &ServeOptions<'_>,
    grid: &Arc<Grid>,
    start: &Start,
    make: &F,
) -> Result<Staff<P>, Trouble>
    requires range { IsOfFleet options.now.fleet }
    requires named { AreNamed options.now.clients.items }
    requires slots { All IsSlots start.now.book.state.slots }
    requires callers { All (λ entry. entry.caller < 64) start.now.book.history }
    requires callable { F.IsAlwaysCallable make.now }
    ensures ok { IfOk result (λ s. IsStaffed (F.post make.now) options.now (arc_value grid.now) start.now.book.state.slots start.now.book.history (counts_before start.now.preface) s.planners.items s.clients.items) }
    ensures fault { IfErr result (λ told. IsWhyUnseated start.now.book.state.slots told ⊎ IsWhyUnclaimed options.now.fleet.slots told) }
{
    let fleet = &options.fleet;
    let history = start.book.history();
    let slots = start.book.slots();
    let places = places_beside(options, history);
    let counts = counts_before(start);
    let (bank, mut seat) = Bank::new(alloc, fleet.bank)?;
    let planners = match seated(alloc, fleet, grid, &bank, &mut seat, make, slots) {
        Ok(planners) => planners,
        Err(trouble) => return Err(trouble),
    };
    match clients_of(
        alloc, options, grid, &bank, &mut seat, make, history, counts, places,
    ) {
        Ok(clients) => Ok(Staff { planners, clients }),
        Err(trouble) => Err(trouble),
    }
}
