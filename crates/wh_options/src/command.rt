//! The command line as `clap` is told of it: the subcommands, their options and the help texts.
ghost use Rattle.std.specs.Prelude.{◌≡◌, IfOk, codes, false};
ghost use Rattle.clap.specs.Words.{App, app_of, new_app, rule_of, with_rule, with_subcommand};
ghost use Rattle.wh_options.specs.Menu.{AddsLive, AddsReplay, AddsRuled, AddsServe, AddsState, AddsVerify, choice_rule, file_rule, many_rule, number_rule, switch_rule, HasShape, IsFleetCommand, IsLiveCommand, IsMenu, IsReplayCommand, IsRuledCommand, IsServeCommand, IsStateCommand, IsVerifyCommand, with_board_rules, with_client_rules, with_deliver_rule, with_ends_rule, with_log_rules, with_settings, with_telling_rules, with_vehicle_rules};

use clap::builder::ValueParser;
use clap::{Arg, ArgAction, Command};
use std::alloc::{AllocError, Global};

/// The number of the last entry that a log can have; a greater one is a mistake.
const LAST_ENTRY: u64 = 999_999_999;

/// The version of the logs that begin with a state.
const FRONT_VERSION: u64 = 3;

/// The most entries that a journal makes room for; more are a mistake.
const MOST_ROOM: u64 = 1_000_000;

/// The most expansions of one request that are a bound; more are a mistake.
const MOST_EFFORT: u64 = 1_000_000_000;

static VERSION: &str = "0.1.0";

static PLANNERS: [&str; 2] = ["near", "patient"];

static TAILS: [&str; 3] = ["none", "log", "ledger"];

static REPLIES: [&str; 3] = ["short", "full", "placed"];

static ENDS: [&str; 2] = ["stops", "homes"];

// An option whose value is a number from `least` to `most`.
fn number_arg<'a>(alloc: Global, name: &'a str, least: u64, most: u64, help: &'a str) -> Arg<'a>
    ensures rule { rule_of result ≡ number_rule name.entry.now least most }
    ensures local { result.global ≡ false }
{
    Arg::new(alloc, name)
        .long(name)
        .value_name("N")
        .help(help)
        .action(ArgAction::Set)
        .value_parser(ValueParser::Unsigned(least, most))
}

// An option whose value is one of the words `choices`.
fn choice_arg<'a>(alloc: Global, name: &'a str, choices: &'a [&'a str], help: &'a str) -> Arg<'a>
    ensures rule { rule_of result ≡ choice_rule name.entry.now choices.entry }
    ensures local { result.global ≡ false }
{
    Arg::new(alloc, name)
        .long(name)
        .value_name("WORD")
        .help(help)
        .action(ArgAction::Set)
        .value_parser(ValueParser::Names(choices))
}

// An option whose value is the name of a file.
fn file_arg<'a>(alloc: Global, name: &'a str, help: &'a str) -> Arg<'a>
    ensures rule { rule_of result ≡ file_rule name.entry.now }
    ensures local { result.global ≡ false }
{
    Arg::new(alloc, name)
        .long(name)
        .value_name("FILE")
        .help(help)
        .action(ArgAction::Set)
        .value_parser(ValueParser::NonEmptyString)
}

// An option that may be given many times, each time with a text.
fn many_arg<'a>(alloc: Global, name: &'a str, value: &'a str, help: &'a str) -> Arg<'a>
    ensures rule { rule_of result ≡ many_rule name.entry.now }
    ensures local { result.global ≡ false }
{
    Arg::new(alloc, name)
        .long(name)
        .value_name(value)
        .help(help)
        .action(ArgAction::Append)
        .value_parser(ValueParser::String)
}

// An option without a value: where it is given, it is found with the value `true`.
fn switch_arg<'a>(alloc: Global, name: &'a str, help: &'a str) -> Arg<'a>
    ensures rule { rule_of result ≡ switch_rule name.entry.now }
    ensures local { result.global ≡ false }
{
    Arg::new(alloc, name)
        .long(name)
        .help(help)
        .action(ArgAction::Set)
        .num_args(0_usize)
        .default_missing_value("true")
}

fn plain_command<'a>(alloc: Global, name: &'a str, about: &'a str) -> Command<'a>
    ensures { HasShape result (new_app name.entry.now) }
{
    Command::new(alloc, name).about(about)
}

// The command with one option more, as of number_arg. Each option is made where it is added, so that nothing else is owned where
// memory may run out: that keeps the proof of a command with many options short.
fn with_number<'a>(
    alloc: Global,
    command: Command<'a>,
    name: &'a str,
    least: u64,
    most: u64,
    help: &'a str,
) -> Result<Command<'a>, AllocError>
    ensures { (a : App) → HasShape command.entry a → IfOk result (λ c. HasShape c (with_rule a (number_rule name.entry.now least most))) }
{
    command.arg(number_arg(alloc, name, least, most, help))
}

// The command with one option more, as of choice_arg.
fn with_choice<'a>(
    alloc: Global,
    command: Command<'a>,
    name: &'a str,
    choices: &'a [&'a str],
    help: &'a str,
) -> Result<Command<'a>, AllocError>
    ensures { (a : App) → HasShape command.entry a → IfOk result (λ c. HasShape c (with_rule a (choice_rule name.entry.now choices.entry))) }
{
    command.arg(choice_arg(alloc, name, choices, help))
}

// The command with one option more, as of file_arg.
fn with_file<'a>(
    alloc: Global,
    command: Command<'a>,
    name: &'a str,
    help: &'a str,
) -> Result<Command<'a>, AllocError>
    ensures { (a : App) → HasShape command.entry a → IfOk result (λ c. HasShape c (with_rule a (file_rule name.entry.now))) }
{
    command.arg(file_arg(alloc, name, help))
}

// The command with one option more, as of many_arg.
fn with_many<'a>(
    alloc: Global,
    command: Command<'a>,
    name: &'a str,
    value: &'a str,
    help: &'a str,
) -> Result<Command<'a>, AllocError>
    ensures { (a : App) → HasShape command.entry a → IfOk result (λ c. HasShape c (with_rule a (many_rule name.entry.now))) }
{
    command.arg(many_arg(alloc, name, value, help))
}

// The command with one option more, as of switch_arg.
fn with_switch<'a>(
    alloc: Global,
    command: Command<'a>,
    name: &'a str,
    help: &'a str,
) -> Result<Command<'a>, AllocError>
    ensures { (a : App) → HasShape command.entry a → IfOk result (λ c. HasShape c (with_rule a (switch_rule name.entry.now))) }
{
    command.arg(switch_arg(alloc, name, help))
}

// The option that says where paths end.
fn with_ends<'a>(
    alloc: Global,
    command: Command<'a>,
    ends: &'a [&'a str],
) -> Result<Command<'a>, AllocError>
    ensures { (a : App) → HasShape command.entry a → IfOk result (λ c. HasShape c (with_ends_rule ends.entry a)) }
{
    let help = "For few stations, homes: paths lead on to where agents started [default: stops]";
    with_choice(alloc, command, "ends", ends, help)
}

// A subcommand with the options of a fleet. Defaults are named in the help texts and applied by
// the readers of the values: clap's own would count as given.
fn fleet_command<'a>(
    alloc: Global,
    name: &'a str,
    about: &'a str,
) -> Result<Command<'a>, AllocError>
    ensures { IfOk result (λ c. IsFleetCommand c name.entry.now) }
{
    let command = plain_command(alloc, name, about);
    let help = "Kind of each planner [default: near]";
    let command = with_choice(alloc, command, "planner", PLANNERS.as_slice(), help)?;
    let help = "Steps by which a path of near may be late, 0 to 1000 [default: 0]";
    let command = with_number(alloc, command, "slack", 0, 1000, help)?;
    let help = "Most expansions of one request of near, 1000 to 1000000000 [default: no bound]";
    let command = with_number(alloc, command, "effort", 1000, MOST_EFFORT, help)?;
    let help = "Distance fields that each planner may keep, 2 to 64 [default: 4]";
    let command = with_number(alloc, command, "slots", 2, 64, help)?;
    let help = "Slots that all planners share, 2 to 65536 [default: 1024]";
    let command = with_number(alloc, command, "bank", 2, 65536, help)?;
    let help = "Standby planners for the command replace, 0 to 16 [default: 0]";
    let command = with_number(alloc, command, "spares", 0, 16, help)?;
    with_ends(alloc, command, ENDS.as_slice())
}

// The options of vehicles behind the others of `replay`.
fn with_vehicles<'a>(alloc: Global, command: Command<'a>) -> Result<Command<'a>, AllocError>
    ensures { (a : App) → HasShape command.entry a → IfOk result (λ c. HasShape c (with_vehicle_rules a)) }
{
    let help =
        "Vehicles carry out the plan, each at its own pace: reads `at AGENT STEP`, writes `go AGENT STEP X,Y`; the points need `rule nofollow`";
    let command = with_switch(alloc, command, "vehicles", help)?;
    let help =
        "With --vehicles: steps that a vehicle may be behind before the clock waits, 1 to 1000 [default: 8]";
    let command = with_number(alloc, command, "behind", 1, 1000, help)?;
    let help =
        "With --vehicles: steps that a vehicle may be granted in advance, 1 to 1000 [default: 1]";
    with_number(alloc, command, "ahead", 1, 1000, help)
}

// The option that has all delivered behind the script.
fn with_deliver<'a>(alloc: Global, command: Command<'a>) -> Result<Command<'a>, AllocError>
    ensures { (a : App) → HasShape command.entry a → IfOk result (λ c. HasShape c (with_deliver_rule a)) }
{
    let help =
        "Behind the script, agents ask and the clock ticks until all rest; standard error has the orders that stay open";
    with_switch(alloc, command, "deliver", help)
}

// How replies are told, and what follows them.
fn with_telling<'a>(
    alloc: Global,
    command: Command<'a>,
    tails: &'a [&'a str],
    replies: &'a [&'a str],
) -> Result<Command<'a>, AllocError>
    ensures { (a : App) → HasShape command.entry a → IfOk result (λ c. HasShape c (with_telling_rules tails.entry replies.entry a)) }
{
    let help = "What follows the replies, behind a line %% [default: none]";
    let command = with_choice(alloc, command, "tail", tails, help)?;
    let help =
        "Reply format: short, a path by its last index; full, by each cell; placed, full with entry number and clock [default: short]";
    with_choice(alloc, command, "replies", replies, help)
}

// The file that keeps the log, and what is told of it.
fn with_log<'a>(alloc: Global, command: Command<'a>) -> Result<Command<'a>, AllocError>
    ensures { (a : App) → HasShape command.entry a → IfOk result (λ c. HasShape c (with_log_rules a)) }
{
    let help = "Keeps the log of the run in FILE, and resumes the run that FILE has";
    let command = with_file(alloc, command, "log", help)?;
    let help = "With --log: first prints the entries of FILE from number N on";
    let command = with_number(alloc, command, "told", 0, LAST_ENTRY, help)?;
    let help =
        "With --log: begins a new run although FILE was lost, or never begun, beside its FILE.site";
    with_switch(alloc, command, "new", help)
}

/// The subcommand `replay`.
pub(crate) fn replay_command<'a>(alloc: Global) -> Result<Command<'a>, AllocError>
    ensures { IfOk result IsReplayCommand }
{
    let about =
        "For one client at a pipe: runs its commands, and writes a reply to each (input: map, points, script)";
    let command = fleet_command(alloc, "replay", about)?;
    let command = with_telling(alloc, command, TAILS.as_slice(), REPLIES.as_slice())?;
    let command = with_log(alloc, command)?;
    let command = with_vehicles(alloc, command)?;
    with_deliver(alloc, command)
}

/// The subcommand `live`.
pub(crate) fn live_command<'a>(alloc: Global) -> Result<Command<'a>, AllocError>
    ensures { IfOk result IsLiveCommand }
{
    let about =
        "For a demonstration: runs clients, agents and a clock in threads (input: map, points, scripts)";
    let command = fleet_command(alloc, "live", about)?;
    let help = "Requests of each agent, and ticks of the clock, 1 to 100000 [default: 64]";
    let command = with_number(alloc, command, "turns", 1, 100_000, help)?;
    let help = "Entries that the log may have, 1 to 1000000 [default: 10000]";
    with_number(alloc, command, "journal", 1, MOST_ROOM, help)
}

// The file that shows the board, and how often.
fn with_board<'a>(alloc: Global, command: Command<'a>) -> Result<Command<'a>, AllocError>
    ensures { (a : App) → HasShape command.entry a → IfOk result (λ c. HasShape c (with_board_rules a)) }
{
    let help =
        "Shows the board in FILE while the run lasts: counts of tasks, and where each agent is, by the entries that are synced; FILE is replaced as a whole, and is no file of the log";
    let command = with_file(alloc, command, "board", help)?;
    let help =
        "With --board: waits N milliseconds at least between two looks, 1 to 60000 [default: 100]";
    with_number(alloc, command, "board-every", 1, 60_000, help)
}

// The log, the clients, and how they are served.
fn with_clients<'a>(
    alloc: Global,
    command: Command<'a>,
    replies: &'a [&'a str],
) -> Result<Command<'a>, AllocError>
    ensures { (a : App) → HasShape command.entry a → IfOk result (λ c. HasShape c (with_client_rules replies.entry a)) }
{
    let help =
        "Keeps the log of the run in FILE, and resumes the run that FILE has [always needed]";
    let command = with_file(alloc, command, "log", help)?;
    let help = "Begins a new run although FILE was lost, or never begun, beside its FILE.site";
    let command = with_switch(alloc, command, "new", help)?;
    let help =
        "Reply format: short, a path by its last index; full, by each cell; placed, full with entry number and clock [default: short]";
    let command = with_choice(alloc, command, "replies", replies, help)?;
    let help =
        "Entries more that each client may have, 1 to 1000000 [default: an equal part of --journal]";
    let command = with_number(alloc, command, "share", 1, MOST_ROOM, help)?;
    let help =
        "A running client: N=FOLDER or N=FOLDER:RIGHTS, with two named pipes in FOLDER, `in` and `out`; N is 0 to 61; RIGHTS are words of submit,token,tick,replace,close,stop by commas, or all of them but stop [default: submit]; once at least, many times";
    with_many(alloc, command, "client", "CLIENT", help)
}

/// The subcommand `serve`.
pub(crate) fn serve_command<'a>(alloc: Global) -> Result<Command<'a>, AllocError>
    ensures { IfOk result IsServeCommand }
{
    let about = "For a real fleet: serves running clients over named pipes (input: map, points)";
    let command = fleet_command(alloc, "serve", about)?;
    let help = "Entries more that the log may have, 1 to 1000000 [default: 1000000]";
    let command = with_number(alloc, command, "journal", 1, MOST_ROOM, help)?;
    let help =
        "A worker beside the clients, for all agents and the clock: waits N milliseconds after each turn, 1 to 60000";
    let command = with_number(alloc, command, "every", 1, 60_000, help)?;
    let command = with_board(alloc, command)?;
    with_clients(alloc, command, REPLIES.as_slice())
}

// A subcommand that is told where paths end, and nothing else.
fn ruled_command<'a>(
    alloc: Global,
    name: &'a str,
    about: &'a str,
) -> Result<Command<'a>, AllocError>
    ensures { IfOk result (λ c. IsRuledCommand c name.entry.now) }
{
    let command = plain_command(alloc, name, about);
    with_ends(alloc, command, ENDS.as_slice())
}

// The command with one subcommand more, which is told where paths end.
fn with_ruled<'a>(
    alloc: Global,
    command: Command<'a>,
    name: &'a str,
    about: &'a str,
) -> Result<Command<'a>, AllocError>
    ensures { IfOk result (λ c. AddsRuled name.entry.now command.entry c) }
{
    let ruled = ruled_command(alloc, name, about)?;
    command.subcommand(ruled)
}

// The subcommand `verify`.
fn verify_command<'a>(alloc: Global) -> Result<Command<'a>, AllocError>
    ensures { IfOk result IsVerifyCommand }
{
    let about =
        "For an audit: says whether a log is a run of the warehouse (input: map, points, log)";
    let command = ruled_command(alloc, "verify", about)?;
    let help =
        "Takes a log without its last line too, which comes when the warehouse is closed: `run N unended`";
    let command = with_switch(alloc, command, "unended", help)?;
    let help = "Takes logs of version 3 too, which begin with a state";
    let command = with_number(alloc, command, "wlog", FRONT_VERSION, FRONT_VERSION, help)?;
    let help =
        "Takes logs of any version, separated by `%%`, each of which goes on from the one before";
    with_switch(alloc, command, "chain", help)
}

// The command with the subcommand `verify`.
fn with_verify<'a>(alloc: Global, command: Command<'a>) -> Result<Command<'a>, AllocError>
    ensures { IfOk result (AddsVerify command.entry) }
{
    let verify = verify_command(alloc)?;
    command.subcommand(verify)
}

// The command with the subcommand `replay`.
fn with_replay<'a>(alloc: Global, command: Command<'a>) -> Result<Command<'a>, AllocError>
    ensures { IfOk result (AddsReplay command.entry) }
{
    let replay = replay_command(alloc)?;
    command.subcommand(replay)
}

// The command with the subcommand `live`.
fn with_live<'a>(alloc: Global, command: Command<'a>) -> Result<Command<'a>, AllocError>
    ensures { IfOk result (AddsLive command.entry) }
{
    let live = live_command(alloc)?;
    command.subcommand(live)
}

// The command with the subcommand `serve`.
fn with_serve<'a>(alloc: Global, command: Command<'a>) -> Result<Command<'a>, AllocError>
    ensures { IfOk result (AddsServe command.entry) }
{
    let serve = serve_command(alloc)?;
    command.subcommand(serve)
}

/// The subcommand `state`.
pub(crate) fn state_command<'a>(alloc: Global) -> Result<Command<'a>, AllocError>
    ensures { IfOk result IsStateCommand }
{
    let about =
        "To go on elsewhere: writes the state to which a log leads, as the front of a next log (input: map, points)";
    let command = ruled_command(alloc, "state", about)?;
    let help = "Reads the log of the run in FILE, and changes no file [always needed]";
    let command = with_file(alloc, command, "log", help)?;
    let help =
        "Tells the state after N entries, counted from the opening, 0 to 999999999 [default: after all]";
    let command = with_number(alloc, command, "after", 0, LAST_ENTRY, help)?;
    let help =
        "Tells the state as the vehicles stand by FILE.at, after a breakdown or a stop; the points need `rule nofollow`";
    with_switch(alloc, command, "stand", help)
}

// The command with the subcommand `state`.
fn with_state<'a>(alloc: Global, command: Command<'a>) -> Result<Command<'a>, AllocError>
    ensures { IfOk result (AddsState command.entry) }
{
    let state = state_command(alloc)?;
    command.subcommand(state)
}

// The program's command line before its subcommands.
fn bare_command<'a>(alloc: Global) -> Command<'a>
    ensures { app_of result ≡ with_settings (new_app (codes "warehouse")) }
{
    Command::new(alloc, "warehouse")
        .about("Controls the agents of a warehouse on a grid")
        .after_help(
            "Standard input holds the sections of the input, with a line %% between two.{n}A \
             missing section is empty. Of scripts, live takes one for each client.",
        )
        .subcommand_required(true)
        .version(VERSION)
        .propagate_version(true)
}

/// The program's command line.
pub(crate) fn warehouse_command<'a>(alloc: Global) -> Result<Command<'a>, AllocError>
    ensures { IfOk result (λ c. IsMenu (app_of c)) }
{
    let about = "For a new map: says whether the warehouse is well-formed (input: map, points)";
    let command = with_ruled(alloc, bare_command(alloc), "check", about)?;
    let command = with_replay(alloc, command)?;
    let command = with_verify(alloc, command)?;
    let command = with_live(alloc, command)?;
    let command = with_serve(alloc, command)?;
    with_state(alloc, command)
}
