//! From the words of a command line to the options that they give.
ghost use Rattle.std.specs.Prelude.{◌≡◌, IfErr, IfOk, IsErrAnd, List, MatchOption, Some, codes, map, option_map, ℕ};
ghost use Rattle.clap.specs.Words.{Row, Text, first_of, first_value, found_of, kind_of, rows_of, subcommand_rows_of};
ghost use Rattle.wh_client.specs.Clients.{GiveClients};
ghost use Rattle.wh_client.specs.declared.client.ClientOptions.{ClientOptions};
ghost use Rattle.wh_options.specs.Options.{AreSame, IsAmiss, IsClashing, IsClientless, IsLacking, WordsGive};
ghost use Rattle.wh_options.specs.Requests.{AsksBy, IsKind, help_flags, version_flags};
ghost use Rattle.wh_options.specs.Reads.{IsTold, MayRead, Reads, ReadsFleet, ReadsLine, ReadsLive, ReadsNumber, ReadsReplay, ReadsServe, ReadsState, ReadsVehicles, clients_in, homes_of, kind_of_mistake, planner_of, replies_of, tail_of};

use crate::chosen::{
    CheckOptions, Fleet, LiveOptions, Options, PlannerKind, ReplayOptions, Replies, ServeOptions,
    StateOptions, Tail, VehicleOptions, VerifyOptions,
};
use crate::command::warehouse_command;
use crate::mistake::{
    Mistake, is_given, log_of_serve, log_of_state, mistake_of_live, mistake_of_replay,
};
use clap::error::ErrorKind;
use clap::{ArgMatches, Error};
use std::alloc::{AllocError, Global};
use std::convert::AsStr;
use wh_client::{ClientOptions, clients_of};

fn number(matches: &ArgMatches<'_>, name: &str, default: u32) -> u32
    ensures { ReadsNumber (first_value (found_of matches.now) name.now) default result }
{
    match matches.get_str(name) {
        Some(text) => text.parse::<u32>().unwrap_or(default),
        None => default,
    }
}

fn planner(matches: &ArgMatches<'_>) -> PlannerKind
    ensures { result ≡ planner_of (first_value (found_of matches.now) (codes "planner")) }
{
    match matches.get_str("planner") {
        Some(text) => {
            if text == "patient" {
                PlannerKind::Patient
            } else {
                PlannerKind::Near
            }
        }
        None => PlannerKind::Near,
    }
}

fn homes(matches: &ArgMatches<'_>) -> bool
    ensures { result ≡ homes_of (first_value (found_of matches.now) (codes "ends")) }
{
    match matches.get_str("ends") {
        Some(text) => text == "homes",
        None => false,
    }
}

fn tail(matches: &ArgMatches<'_>) -> Tail
    ensures { result ≡ tail_of (first_value (found_of matches.now) (codes "tail")) }
{
    match matches.get_str("tail") {
        Some(text) => {
            if text == "log" {
                Tail::Log
            } else if text == "ledger" {
                Tail::Ledger
            } else {
                Tail::Nothing
            }
        }
        None => Tail::Nothing,
    }
}

fn replies(matches: &ArgMatches<'_>) -> Replies
    ensures { result ≡ replies_of (first_value (found_of matches.now) (codes "replies")) }
{
    match matches.get_str("replies") {
        Some(text) => {
            if text == "full" {
                Replies::Full
            } else if text == "placed" {
                Replies::Placed
            } else {
                Replies::Short
            }
        }
        None => Replies::Short,
    }
}

fn number_if_given(matches: &ArgMatches<'_>, name: &str) -> Option<u32>
    ensures { MayRead (first_value (found_of matches.now) name.now) result }
{
    match matches.get_str(name) {
        Some(text) => Some(text.parse::<u32>().unwrap_or(0)),
        None => None,
    }
}

fn pace(matches: &ArgMatches<'_>) -> VehicleOptions
    ensures behind { ReadsNumber (first_value (found_of matches.now) (codes "behind")) 8 result.behind }
    ensures ahead { ReadsNumber (first_value (found_of matches.now) (codes "ahead")) 1 result.ahead }
{
    VehicleOptions {
        behind: number(matches, "behind", 8),
        ahead: number(matches, "ahead", 1),
    }
}

fn vehicles(matches: &ArgMatches<'_>) -> Option<VehicleOptions>
    ensures { ReadsVehicles (first_value (found_of matches.now)) result }
{
    let pace = pace(matches);
    match matches.get_str("vehicles") {
        Some(_) => Some(pace),
        None => None,
    }
}

fn fleet(matches: &ArgMatches<'_>) -> Fleet
    ensures { ReadsFleet (first_value (found_of matches.now)) result }
{
    Fleet {
        planner: planner(matches),
        slack: number(matches, "slack", 0),
        effort: number_if_given(matches, "effort"),
        slots: number(matches, "slots", 4),
        bank: number(matches, "bank", 1024),
        spares: number(matches, "spares", 0),
        homes: homes(matches),
    }
}

fn replay_options<'a>(matches: &ArgMatches<'a>) -> ReplayOptions<'a>
    ensures { ReadsReplay (first_value (found_of matches.now)) result }
{
    ReplayOptions {
        fleet: fleet(matches),
        tail: tail(matches),
        replies: replies(matches),
        log: matches.get_str("log"),
        told: number_if_given(matches, "told"),
        anew: is_given(matches, "new"),
        vehicles: vehicles(matches),
        deliver: is_given(matches, "deliver"),
    }
}

fn live_options(matches: &ArgMatches<'_>) -> LiveOptions
    ensures { ReadsLive (first_value (found_of matches.now)) result }
{
    LiveOptions {
        fleet: fleet(matches),
        turns: number(matches, "turns", 64),
        journal: number(matches, "journal", 10_000),
    }
}

// The clients that the texts name, where each names one of its own.
fn clients<'a>(
    alloc: Global,
    serve: &ArgMatches<'a>,
) -> Result<Option<Vec<ClientOptions<'a>>>, AllocError>
    ensures { IfOk result (λ found. MatchOption found
        ((cs : List ClientOptions) → ¬ GiveClients (clients_in (rows_of (found_of serve.now))) cs)
        (λ clients. GiveClients (clients_in (rows_of (found_of serve.now))) clients.items)) }
{
    clients_of(alloc, serve.get_strs("client").unwrap_or(&[]))
}

// The options of `serve`, where the texts name clients.
fn serve_options<'a>(
    alloc: Global,
    serve: &ArgMatches<'a>,
    log: &'a str,
) -> Result<Option<ServeOptions<'a>>, AllocError>
    ensures { Some log.now ≡ first_value (found_of serve.now) (codes "log") → IfOk result (λ found. MatchOption found
        ((cs : List ClientOptions) → ¬ GiveClients (clients_in (rows_of (found_of serve.now))) cs)
        (ReadsServe (first_value (found_of serve.now)) (clients_in (rows_of (found_of serve.now))))) }
{
    let Some(clients) = clients(alloc, serve)? else {
        return Ok(None);
    };
    Ok(Some(ServeOptions {
        fleet: fleet(serve),
        journal: number(serve, "journal", 1_000_000),
        share: number_if_given(serve, "share"),
        replies: replies(serve),
        log,
        anew: is_given(serve, "new"),
        every: number_if_given(serve, "every"),
        board: serve.get_str("board"),
        board_every: number(serve, "board-every", 100),
        clients,
    }))
}

// What the matches of `serve` say.
fn read_serve<'a>(
    alloc: Global,
    serve: &ArgMatches<'a>,
) -> Result<Result<Options<'a>, Mistake>, AllocError>
    ensures { IfOk result (ReadsLine (first_value (found_of serve.now)) (clients_in (rows_of (found_of serve.now)))) }
{
    let log = match log_of_serve(serve) {
        Ok(log) => log,
        Err(mistake) => return Ok(Err(mistake)),
    };
    match serve_options(alloc, serve, log)? {
        Some(options) => Ok(Ok(Options::Serve(options))),
        None => Ok(Err(Mistake::NoClients)),
    }
}

// What the matches of `state` say.
fn read_state<'a>(state: &ArgMatches<'a>) -> Result<Options<'a>, Mistake>
    ensures { ReadsState (first_value (found_of state.now)) result }
{
    match log_of_state(state) {
        Ok(log) => Ok(Options::State(StateOptions {
            log,
            after: number_if_given(state, "after"),
            homes: homes(state),
            stand: is_given(state, "stand"),
        })),
        Err(mistake) => Err(mistake),
    }
}

// What the matches of `check` say, where it was entered.
fn check_options(matches: &ArgMatches<'_>) -> CheckOptions
    ensures { (name : Text) (rows : List Row) → subcommand_rows_of matches.now ≡ Some (name, rows)
        → name ≡ codes "check" → result.homes ≡ homes_of (first_of (codes "ends") rows) }
{
    match matches.subcommand_matches("check") {
        Some(check) => CheckOptions {
            homes: homes(check),
        },
        None => CheckOptions { homes: false },
    }
}

// What the subcommand's matches say.
fn read_options<'a>(
    alloc: Global,
    matches: &ArgMatches<'a>,
) -> Result<Result<Options<'a>, Mistake>, AllocError>
    ensures read { IfOk result (λ read. IfOk read (λ o. (name : Text) (rows : List Row)
        → subcommand_rows_of matches.now ≡ Some (name, rows)
        → Reads name (λ id. first_of id rows) (clients_in rows) o)) }
    ensures mistaken { IfOk result (λ read. IfErr read (λ mistake. (name : Text) (rows : List Row)
        → subcommand_rows_of matches.now ≡ Some (name, rows)
        → IsTold (kind_of_mistake mistake) name (λ id. first_of id rows) (clients_in rows))) }
{
    if let Some(replay) = matches.subcommand_matches("replay") {
        return match mistake_of_replay(replay) {
            Some(mistake) => Ok(Err(mistake)),
            None => Ok(Ok(Options::Replay(replay_options(replay)))),
        };
    }
    if let Some(live) = matches.subcommand_matches("live") {
        return match mistake_of_live(live) {
            Some(mistake) => Ok(Err(mistake)),
            None => Ok(Ok(Options::Live(live_options(live)))),
        };
    }
    if let Some(serve) = matches.subcommand_matches("serve") {
        return read_serve(alloc, serve);
    }
    if let Some(verify) = matches.subcommand_matches("verify") {
        return Ok(Ok(Options::Verify(VerifyOptions {
            homes: homes(verify),
            unended: is_given(verify, "unended"),
            wlog: number_if_given(verify, "wlog"),
            chain: is_given(verify, "chain"),
        })));
    }
    if let Some(state) = matches.subcommand_matches("state") {
        return Ok(read_state(state));
    }
    Ok(Ok(Options::Check(check_options(matches))))
}

/// The options that the words of a command line give; the first word is the program's name, and may
/// be any. An option that is not given has its default.
///
/// # Errors
///
/// A mistake in the words, a request for help or the version, or lack of memory: `refusal_of` tells
/// which, and the error's `Display` is the text for the user.
pub fn options<'a, W: AsStr>(alloc: Global, words: &'a [W]) -> Result<Options<'a>, Error>
    // The words give the options that are answered.
    ensures ok { IfOk result (WordsGive (map W.text words.now)) }
    // They give no others.
    ensures only { IfOk result (λ o. (p : Options) → WordsGive (map W.text words.now) p → AreSame p o) }
    // Where the words give any options, only lack of memory is an error.
    ensures refused { IfErr result (λ e. (o : Options) → WordsGive (map W.text words.now) o
        → kind_of e ≡ ErrorKind.OutOfMemory) }
    // Where an option is given without the one that it belongs to, that is told.
    ensures lacking { IsAmiss IsLacking (map W.text words.now)
        → IsErrAnd result (IsKind ErrorKind.MissingRequiredArgument) }
    // Where what is given does not go together, that is told.
    ensures clashing { IsAmiss IsClashing (map W.text words.now)
        → IsErrAnd result (IsKind ErrorKind.ArgumentConflict) }
    // Where the texts given for clients name none, or not each its own, that is told.
    ensures clientless { IsAmiss IsClientless (map W.text words.now)
        → IsErrAnd result (IsKind ErrorKind.ValueValidation) }
    // Words that ask for help by a flag are answered with help, whatever follows.
    ensures help { AsksBy help_flags (map W.text words.now)
        → IsErrAnd result (IsKind ErrorKind.DisplayHelp) }
    // Words that ask for the version by a flag are answered with it, whatever follows.
    ensures version { AsksBy version_flags (map W.text words.now)
        → IsErrAnd result (IsKind ErrorKind.DisplayVersion) }
{
    let matches = warehouse_command(alloc)?.try_get_matches_from(words)?;
    match read_options(alloc, &matches)? {
        Ok(options) => Ok(options),
        Err(mistake) => Err(mistake.error(alloc)?),
    }
}
