//! What a command line asks for: a subcommand with its options.
use wh_client::ClientOptions;

/// Which kind of planner drives the agents.
#[derive(Clone, Copy, Debug, PartialEq, Eq)]
pub enum PlannerKind {
    /// Plans a path of least length among the others, or one that is late by no more than a slack.
    Near,
    /// Waits until the others rest.
    Patient,
}

/// What follows the replies of a replay.
#[derive(Clone, Copy, Debug, PartialEq, Eq)]
pub enum Tail {
    /// Nothing.
    Nothing,
    /// The log of the run.
    Log,
    /// The rows of the delivery ledger.
    Ledger,
}

/// How the replies of a replay are told.
#[derive(Clone, Copy, Debug, PartialEq, Eq)]
pub enum Replies {
    /// Of a path its end alone.
    Short,
    /// In the log's own words, each cell of a path.
    Full,
    /// After the place of the entry and the clock before it, in the log's own words.
    Placed,
}

/// The planners that a run is given, the slots that they share, and the rule of the run.
#[derive(Clone, Copy, Debug, PartialEq, Eq)]
pub struct Fleet {
    /// The kind of each planner.
    pub planner: PlannerKind,
    /// By how many steps a path of a planner that searches may be late, 0 to 1000.
    pub slack: u32,
    /// How many expansions one request of a planner that searches may take, 1000 to 1000000000, if they are bounded; beyond
    /// them it goes the patient way.
    pub effort: Option<u32>,
    /// How many distance fields each planner may keep, 2 to 64.
    pub slots: u32,
    /// How many slots the planners share in all, 2 to 65536.
    pub bank: u32,
    /// How many planners stand by to replace others, 0 to 16.
    pub spares: u32,
    /// Whether a path goes on from its last stop to the agent's home; else it ends there.
    pub homes: bool,
}

/// The options of `check`.
#[derive(Clone, Copy, Debug, PartialEq, Eq)]
pub struct CheckOptions {
    /// Whether paths are to end at homes, so that no agent may start at a station.
    pub homes: bool,
}

/// The options of `verify`.
#[derive(Clone, Copy, Debug, PartialEq, Eq)]
pub struct VerifyOptions {
    /// Whether the log is of a run whose paths end at homes.
    pub homes: bool,
    /// Whether the log may lack its last line.
    pub unended: bool,
    /// 3, if logs of version 3 are taken too, which begin with a state.
    pub wlog: Option<u32>,
    /// Whether the logs of a chain are given, of any version, each of which goes on from the one before.
    pub chain: bool,
}

/// The options of `state`. They keep a text of the words that gave them.
#[derive(Clone, Copy, Debug, PartialEq, Eq)]
pub struct StateOptions<'a> {
    /// The name of the log's file; never empty.
    pub log: &'a str,
    /// After how many entries of the log the state is told, if not after all, 0 to 999999999.
    pub after: Option<u32>,
    /// Whether the log is of a run whose paths end at homes.
    pub homes: bool,
    /// Whether the state is told as the vehicles stand, by the reports beside the log; it is told after all entries then.
    pub stand: bool,
}

/// How late vehicles may be, and how far ahead they are told.
#[derive(Clone, Copy, Debug, PartialEq, Eq)]
pub struct VehicleOptions {
    /// The clock waits while a vehicle is this many steps behind, 1 to 1000.
    pub behind: u32,
    /// How many steps ahead a vehicle may be told, 1 to 1000.
    pub ahead: u32,
}

/// The options of `replay`. They keep a text of the words that gave them.
#[derive(Clone, Copy, Debug, PartialEq, Eq)]
pub struct ReplayOptions<'a> {
    /// The planners of the run.
    pub fleet: Fleet,
    /// What follows the replies.
    pub tail: Tail,
    /// How the replies are told.
    pub replies: Replies,
    /// The name of the file that keeps the run's log, if one is to; never empty.
    pub log: Option<&'a str>,
    /// From which entry on the log's entries are told again at the start, if they are; there is a log then.
    pub told: Option<u32>,
    /// Whether the run may begin anew where its log was lost; there is a log then.
    pub anew: bool,
    /// How vehicles carry out the plan, if they do at their own pace.
    pub vehicles: Option<VehicleOptions>,
    /// Whether all is delivered behind the script that can be; no vehicles carry out the plan then.
    pub deliver: bool,
}

/// The options of `live`.
#[derive(Clone, Copy, Debug, PartialEq, Eq)]
pub struct LiveOptions {
    /// The planners of the run; each client has its own `spares`.
    pub fleet: Fleet,
    /// How many requests each agent makes, and how many ticks the clock, 1 to 100000.
    pub turns: u32,
    /// How many entries the journal may hold, 1 to 1000000.
    pub journal: u32,
}

/// The options of `serve`. They keep a text of the words that gave them.
#[derive(Debug, PartialEq, Eq, Drop)]
pub struct ServeOptions<'a> {
    /// The planners of the run; each client has its own `spares`.
    pub fleet: Fleet,
    /// How many more entries the history may have, 1 to 1000000.
    pub journal: u32,
    /// How many more entries each client may have, 1 to 1000000; if none is named, the clients, and the worker if there is one,
    /// share those of `journal` equally.
    pub share: Option<u32>,
    /// How the replies are told.
    pub replies: Replies,
    /// The name of the file that keeps the run's log; never empty.
    pub log: &'a str,
    /// Whether the run may begin anew where its log was lost.
    pub anew: bool,
    /// How many milliseconds the worker of all agents and the clock rests after each turn, 1 to 60000, if there is one beside
    /// the clients.
    pub every: Option<u32>,
    /// The name of the file that shows the board while the run lasts, if one is to; never empty, and none of the log's.
    pub board: Option<&'a str>,
    /// How many milliseconds at least lie between two looks at the board, 1 to 60000.
    pub board_every: u32,
    /// The clients, 1 to 62; no two have one number or one folder.
    pub clients: Vec<ClientOptions<'a>>,
}

/// A subcommand with its options.
#[derive(Debug, PartialEq, Eq, Drop)]
pub enum Options<'a> {
    /// `check`: whether the warehouse is well-formed.
    Check(CheckOptions),
    /// `replay`: the replies to a script.
    Replay(ReplayOptions<'a>),
    /// `verify`: whether a log is a run.
    Verify(VerifyOptions),
    /// `live`: scripts of clients, agents and a clock in threads.
    Live(LiveOptions),
    /// `serve`: running clients, over named pipes, with a log.
    Serve(ServeOptions<'a>),
    /// `state`: the state to which a log leads.
    State(StateOptions<'a>),
}
