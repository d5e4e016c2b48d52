//! Options of a subcommand that do not go together.
ghost use Rattle.std.specs.Prelude.{◌≡◌, ◌++◌, IfOk, MatchBool, codes, is_some};
ghost use Rattle.std.specs.Str.{bytes_eq};
ghost use Rattle.clap.specs.Words.{first_value, found_of, kind_of};
ghost use Rattle.wh_options.specs.Options.{BoundsPatient, ReplayClashes, ReplayLacks, StateClashes, covers, is_patient};
ghost use Rattle.wh_options.specs.Reads.{Judges, JudgesReplay, JudgesServe, JudgesState, kind_of_mistake};

use crate::command::{live_command, replay_command, serve_command, state_command};
use clap::error::ErrorKind;
use clap::{ArgMatches, Command, Error};
use std::alloc::{AllocError, Global};

/// Which option is given without the one that it belongs to, or beside one that it does not go with.
#[derive(Clone, Copy)]
pub(crate) enum Mistake {
    /// Entries are to be told again, of no log.
    ToldWithoutLog,
    /// A run may begin anew where its log was lost, and there is no log.
    NewWithoutLog,
    /// How far vehicles may be behind, without vehicles.
    BehindWithoutVehicles,
    /// How far ahead vehicles are told, and there are none.
    AheadWithoutVehicles,
    /// How often the board is looked at, and none is shown.
    BoardEveryWithoutBoard,
    /// A service, and no log.
    ServeWithoutLog,
    /// The state to which a log leads, and no log.
    StateWithoutLog,
    /// A service, and no clients.
    ServeWithoutClient,
    /// A board in a file of the log.
    BoardCoversLog,
    /// All is to be delivered behind the script, and by vehicles.
    DeliverWithVehicles,
    /// The state as the vehicles stand, and after some of the entries.
    StandWithAfter,
    /// Paths of a replay may be late, and its planners are patient.
    SlackOfPatientReplay,
    /// The same of the threads of `live`.
    SlackOfPatientLive,
    /// The same of a service.
    SlackOfPatientServe,
    /// The expansions of a request of a replay are bounded, and its planners are patient.
    EffortOfPatientReplay,
    /// The same of the threads of `live`.
    EffortOfPatientLive,
    /// The same of a service.
    EffortOfPatientServe,
    /// Texts that do not name clients, each by a number and a folder of its own.
    NoClients,
}

impl Mistake {
    fn text(self) -> &'static str {
        match self {
            Mistake::ToldWithoutLog => "the argument '--told <N>' needs '--log <FILE>'",
            Mistake::NewWithoutLog => "the argument '--new' needs '--log <FILE>'",
            Mistake::BehindWithoutVehicles => "the argument '--behind <N>' needs '--vehicles'",
            Mistake::AheadWithoutVehicles => "the argument '--ahead <N>' needs '--vehicles'",
            Mistake::BoardEveryWithoutBoard => {
                "the argument '--board-every <N>' needs '--board <FILE>'"
            }
            Mistake::ServeWithoutLog => "'serve' needs '--log <FILE>'",
            Mistake::StateWithoutLog => "'state' needs '--log <FILE>'",
            Mistake::ServeWithoutClient => "'serve' needs at least one '--client <CLIENT>'",
            Mistake::BoardCoversLog => {
                "the argument '--board <FILE>' cannot be used with '--log <FILE>' where the board would replace the log, or FILE.site or FILE.at beside it"
            }
            Mistake::DeliverWithVehicles => {
                "the argument '--deliver' cannot be used with '--vehicles'"
            }
            Mistake::StandWithAfter => "the argument '--stand' cannot be used with '--after <N>'",
            Mistake::SlackOfPatientReplay
            | Mistake::SlackOfPatientLive
            | Mistake::SlackOfPatientServe => {
                "the argument '--slack <N>' cannot be used with '--planner patient'"
            }
            Mistake::EffortOfPatientReplay
            | Mistake::EffortOfPatientLive
            | Mistake::EffortOfPatientServe => {
                "the argument '--effort <N>' cannot be used with '--planner patient'"
            }
            Mistake::NoClients => {
                "invalid value for '--client <CLIENT>': each wants N=FOLDER or N=FOLDER:RIGHTS, with a number from 0 to 61 and a folder of its own"
            }
        }
    }

    fn kind(self) -> ErrorKind
        ensures { result ≡ kind_of_mistake self }
    {
        match self {
            Mistake::ToldWithoutLog
            | Mistake::NewWithoutLog
            | Mistake::BehindWithoutVehicles
            | Mistake::AheadWithoutVehicles
            | Mistake::BoardEveryWithoutBoard
            | Mistake::ServeWithoutLog
            | Mistake::StateWithoutLog
            | Mistake::ServeWithoutClient => ErrorKind::MissingRequiredArgument,
            Mistake::BoardCoversLog
            | Mistake::DeliverWithVehicles
            | Mistake::StandWithAfter
            | Mistake::SlackOfPatientReplay
            | Mistake::SlackOfPatientLive
            | Mistake::SlackOfPatientServe
            | Mistake::EffortOfPatientReplay
            | Mistake::EffortOfPatientLive
            | Mistake::EffortOfPatientServe => ErrorKind::ArgumentConflict,
            Mistake::NoClients => ErrorKind::ValueValidation,
        }
    }

    // The subcommand whose options they are.
    fn command<'a>(self, alloc: Global) -> Result<Command<'a>, AllocError> {
        match self {
            Mistake::ToldWithoutLog
            | Mistake::NewWithoutLog
            | Mistake::BehindWithoutVehicles
            | Mistake::AheadWithoutVehicles
            | Mistake::DeliverWithVehicles
            | Mistake::SlackOfPatientReplay
            | Mistake::EffortOfPatientReplay => {
                replay_command(alloc)?.bin_name("warehouse replay")
            }
            Mistake::SlackOfPatientLive | Mistake::EffortOfPatientLive => {
                live_command(alloc)?.bin_name("warehouse live")
            }
            Mistake::StateWithoutLog | Mistake::StandWithAfter => {
                state_command(alloc)?.bin_name("warehouse state")
            }
            _ => serve_command(alloc)?.bin_name("warehouse serve"),
        }
    }

    /// The error that tells of it, in the form of those of `clap`.
    pub(crate) fn error(self, alloc: Global) -> Result<Error, AllocError>
        ensures { IfOk result (λ e. kind_of e ≡ kind_of_mistake self) }
    {
        let mut command = self.command(alloc)?;
        command.error(self.kind(), self.text())
    }
}

pub(crate) fn is_given(matches: &ArgMatches<'_>, name: &str) -> bool
    ensures { result ≡ is_some (first_value (found_of matches.now) name.now) }
{
    matches.get_str(name).is_some()
}

/// Which option of `replay` is given without the one that it belongs to, if one is.
fn lack_of_replay(replay: &ArgMatches<'_>) -> Option<Mistake>
    ensures { Judges ErrorKind.MissingRequiredArgument ReplayLacks (first_value (found_of replay.now)) result }
{
    let has_log = is_given(replay, "log");
    let has_vehicles = is_given(replay, "vehicles");
    if is_given(replay, "told") && !has_log {
        return Some(Mistake::ToldWithoutLog);
    }
    if is_given(replay, "new") && !has_log {
        return Some(Mistake::NewWithoutLog);
    }
    if is_given(replay, "behind") && !has_vehicles {
        return Some(Mistake::BehindWithoutVehicles);
    }
    if is_given(replay, "ahead") && !has_vehicles {
        return Some(Mistake::AheadWithoutVehicles);
    }
    None
}

/// Whether the planners are given as patient.
fn is_patient(matches: &ArgMatches<'_>) -> bool
    ensures { result ≡ is_patient (first_value (found_of matches.now) (codes "planner")) }
{
    match matches.get_str("planner") {
        Some(text) => text == "patient",
        None => false,
    }
}

/// The mistake of a slack, or that of an effort, if one of them is given to planners that are patient.
fn bound_of_patient(matches: &ArgMatches<'_>, slack: Mistake, effort: Mistake) -> Option<Mistake>
    requires slack { kind_of_mistake slack ≡ ErrorKind.ArgumentConflict }
    requires effort { kind_of_mistake effort ≡ ErrorKind.ArgumentConflict }
    ensures { Judges ErrorKind.ArgumentConflict BoundsPatient (first_value (found_of matches.now)) result }
{
    let has_slack = is_given(matches, "slack");
    let has_effort = is_given(matches, "effort");
    if !is_patient(matches) {
        return None;
    }
    if has_slack {
        return Some(slack);
    }
    if has_effort {
        return Some(effort);
    }
    None
}

/// What of the options of `live` does not go together, if something does not.
pub(crate) fn mistake_of_live(live: &ArgMatches<'_>) -> Option<Mistake>
    ensures { Judges ErrorKind.ArgumentConflict BoundsPatient (first_value (found_of live.now)) result }
{
    bound_of_patient(
        live,
        Mistake::SlackOfPatientLive,
        Mistake::EffortOfPatientLive,
    )
}

/// What `replay` is given beside what it does not go with, if something is.
fn clash_of_replay(replay: &ArgMatches<'_>) -> Option<Mistake>
    ensures { Judges ErrorKind.ArgumentConflict ReplayClashes (first_value (found_of replay.now)) result }
{
    if is_given(replay, "deliver") && is_given(replay, "vehicles") {
        return Some(Mistake::DeliverWithVehicles);
    }
    bound_of_patient(
        replay,
        Mistake::SlackOfPatientReplay,
        Mistake::EffortOfPatientReplay,
    )
}

/// What of the options of `replay` does not go together, if something does not.
pub(crate) fn mistake_of_replay(replay: &ArgMatches<'_>) -> Option<Mistake>
    ensures { JudgesReplay (first_value (found_of replay.now)) result }
{
    match lack_of_replay(replay) {
        Some(mistake) => Some(mistake),
        None => clash_of_replay(replay),
    }
}

/// What `state` is given beside what it does not go with, if something is.
fn clash_of_state(state: &ArgMatches<'_>) -> Option<Mistake>
    ensures { Judges ErrorKind.ArgumentConflict StateClashes (first_value (found_of state.now)) result }
{
    if is_given(state, "stand") && is_given(state, "after") {
        return Some(Mistake::StandWithAfter);
    }
    None
}

/// The name of the log's file, where what `state` is given goes together; else what does not.
pub(crate) fn log_of_state<'a>(state: &ArgMatches<'a>) -> Result<&'a str, Mistake>
    ensures { JudgesState (first_value (found_of state.now)) result }
{
    let Some(log) = state.get_str("log") else {
        return Err(Mistake::StateWithoutLog);
    };
    match clash_of_state(state) {
        Some(mistake) => Err(mistake),
        None => Ok(log),
    }
}

/// Whether a name is another followed by this end.
fn is_beside(name: &str, other: &str, end: &str) -> bool
    ensures { result ≡ bytes_eq name.now (other.now ++ end.now) }
{
    match name.as_bytes().strip_suffix(end.as_bytes()) {
        Some(front) => front == other.as_bytes(),
        None => false,
    }
}

/// Whether a board in this file would replace a log in that one, or a file beside it.
fn covers(board: &str, log: &str) -> bool
    ensures { result ≡ covers board.now log.now }
{
    board == log
        || is_beside(log, board, ".new")
        || is_beside(board, log, ".site")
        || is_beside(board, log, ".at")
}

/// The slack or the effort that `serve` is given beside planners that are patient, if one is.
fn bound_of_serve(serve: &ArgMatches<'_>) -> Option<Mistake>
    ensures { Judges ErrorKind.ArgumentConflict BoundsPatient (first_value (found_of serve.now)) result }
{
    bound_of_patient(
        serve,
        Mistake::SlackOfPatientServe,
        Mistake::EffortOfPatientServe,
    )
}

/// The name of the log's file, where what `serve` is given goes together; else what does not.
pub(crate) fn log_of_serve<'a>(serve: &ArgMatches<'a>) -> Result<&'a str, Mistake>
    ensures { JudgesServe (first_value (found_of serve.now)) result }
{
    let Some(log) = serve.get_str("log") else {
        return Err(Mistake::ServeWithoutLog);
    };
    if !is_given(serve, "client") {
        return Err(Mistake::ServeWithoutClient);
    }
    if is_given(serve, "board-every") && !is_given(serve, "board") {
        return Err(Mistake::BoardEveryWithoutBoard);
    }
    match serve.get_str("board") {
        Some(board) if covers(board, log) => Err(Mistake::BoardCoversLog),
        _ => match bound_of_serve(serve) {
            Some(mistake) => Err(mistake),
            None => Ok(log),
        },
    }
}
