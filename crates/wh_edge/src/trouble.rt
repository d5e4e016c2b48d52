//! Why the program stops, its text and its exit status.
ghost use Rattle.std.specs.Prelude.{◌≡◌, ◌≤◌, ◌+◌, ◌++◌, ◌^◌, ◌<◌, [], ◌∷◌, length, decimal, codes};
ghost use Rattle.arrayvec.specs.ArrayVec.{array_vec_len};
ghost use Rattle.wh_edge.specs.Trouble.{code_of_line, code_of_map, code_of_point, number_of_status, reason_line, status_of, trouble_text};
ghost use Rattle.wh_edge.specs.declared.trouble.Trouble.TheVariants.{NoMemory};

use crate::work::ScriptPlace;
use arrayvec::ArrayVec;
use std::alloc::{AllocError, AllocFailed};
use wh_event::{LineFault, put, put_number};
use wh_grid::MapKind;
use wh_points::FaultKind;
use wh_restore::Reason;

/// How the program ended.
#[derive(Clone, Copy, Debug, PartialEq, Eq)]
pub enum Status {
    /// The run went to its end. Refused replies are no fault.
    Done,
    /// The input was refused, is not well-formed, or is no run.
    Refused,
    /// The command line was refused.
    CommandLine,
    /// A device or a thread failed.
    Failed,
    /// Out of memory.
    NoMemory,
}

impl Status {
    /// The exit status that the program leaves: 0 to 4.
    pub fn number(self) -> u8
        ensures { result ≡ number_of_status self }
    {
        match self {
            Status::Done => 0,
            Status::Refused => 1,
            Status::CommandLine => 2,
            Status::Failed => 3,
            Status::NoMemory => 4,
        }
    }
}

/// What stopped the program, apart from its command line.
#[derive(Clone, Copy, Debug, PartialEq, Eq)]
pub enum Trouble {
    /// The map has this fault first.
    Map(wh_grid::Fault),
    /// The map is well, and the points have this fault first.
    Points(wh_points::Fault),
    /// A client's script has this line that is no command.
    Script(ScriptPlace),
    /// The bank has too few slots left.
    Short { free: u32 },
    /// The bank's word changed meanwhile.
    Raced { seen: u32 },
    /// A section has more bytes than it may have.
    SectionTooLong,
    /// There are more than 64 workers.
    TooManyWorkers,
    /// The reader failed.
    Broken,
    /// The reader was asked 100,000,000 times.
    Endless,
    /// The writer failed, or took no byte.
    Unwritten,
    /// A thread could not be started.
    NoThread,
    /// A pass and its row differ.
    Differs,
    /// The log file has this line first with which no log of a run of this site goes on.
    Log { line: u64 },
    /// The front of the log file has this line first with which it tells no state that a run of this site goes on from, and why.
    Front { reason: Reason, line: u64 },
    /// The log file tells no entries before this one, and earlier ones were asked for.
    Forgotten { first: u64 },
    /// The log file cannot be opened, read, written or synced, or another program has it.
    Unkept,
    /// A running client's two pipes are not there, are no pipes, or are another client's.
    NoPipes { client: u32 },
    /// The file of the board cannot be written.
    Unshown,
    /// Sections follow the site, where clients come in elsewhere.
    Scripted,
    /// No log stands beside the text of the site, which is whole: the log of a run was lost.
    LostLog,
    /// Standard output or standard error is a file of the run, which would be written over.
    OwnOutput,
    /// Vehicles have carried out the run so far, and the words name none.
    Unmanned,
    /// Paths are to end at homes, and this is the lowest agent that starts at a station.
    NotParked { agent: u32 },
    /// The points let agents follow each other: vehicles that follow in a ring would stand still for ever.
    MayFollow,
    /// Out of memory.
    NoMemory,
}

/// The code of a map's fault.
fn code_of_map(kind: MapKind) -> &'static [u8]
    ensures { result.now ≡ code_of_map kind }
{
    match kind {
        MapKind::Head => b"M1",
        MapKind::Size => b"M2",
        MapKind::RowLength => b"M3",
        MapKind::Letter => b"M4",
        MapKind::RowsMissing => b"M5",
        MapKind::TextAfter => b"M6",
        MapKind::TooLarge => b"M7",
    }
}

/// The code of a fault of the points.
fn code_of_point(kind: FaultKind) -> &'static [u8]
    ensures code { result.now ≡ code_of_point kind }
    ensures short { length result.now ≤ 3 }
{
    match kind {
        FaultKind::Form => b"P1",
        FaultKind::Name => b"P2",
        FaultKind::NameTwice => b"P3",
        FaultKind::Blocked => b"P4",
        FaultKind::CellTwice => b"P5",
        FaultKind::TooMany => b"P6",
        FaultKind::NoAgent => b"P7",
        FaultKind::Unknown => b"P8",
        FaultKind::StartTwice => b"P9",
        FaultKind::RuleTwice => b"P10",
    }
}

/// The code of a line that is no command.
fn code_of_line(kind: LineFault) -> &'static [u8]
    ensures { result.now ≡ code_of_line kind }
{
    match kind {
        LineFault::Form => b"C1",
        LineFault::TooLong => b"C2",
    }
}

/// Writes a code and the line at which it is met.
fn put_place(line: &mut ArrayVec<u8, 64>, code: &[u8], number: u64)
    requires old { length line.old.items ≤ 31 }
    requires code { length code.now ≤ 3 }
    ensures text { line.new.items ≡ line.old.items ++ code.now ++ codes " line " ++ decimal number }
    ensures short { length line.new.items ≤ 63 }
{
    put(line, code);
    put_number(line, b" line ", number);
}

impl From<AllocError> for Trouble {
    ghost from_gives = { λ _ e. e ≡ NoMemory };

    fn from(_e: AllocError) -> Trouble {
        Trouble::NoMemory
    }
}

impl<T: Drop> From<AllocFailed<T>> for Trouble {
    ghost from_gives = { λ _ e. e ≡ NoMemory };

    fn from(_e: AllocFailed<T>) -> Trouble {
        Trouble::NoMemory
    }
}

impl Trouble {
    /// The line of the reason that goes before, where there is one.
    fn reason(&self) -> ArrayVec<u8, 64>
        ensures text { result.items ≡ reason_line self.now }
        ensures short { length result.items ≤ 23 }
    {
        match *self {
            Trouble::Front { reason, .. } => {
                let mut line = reason.text();
                put(&mut line, b"\n");
                line
            }
            _ => ArrayVec::new(),
        }
    }

    /// The line that tells of it, with its line feed; before it a line with the reason, where the front of a log is refused.
    #[tactic(auto, unfolding(crate::specs::Trouble::trouble_text))]
    pub fn text(&self) -> ArrayVec<u8, 64>
        ensures { result.items ≡ trouble_text self.now }
    {
        let mut line = self.reason();
        put(&mut line, b"refused ");
        match *self {
            Trouble::Map(fault) => put_place(&mut line, code_of_map(fault.kind), fault.line),
            Trouble::Points(fault) => put_place(&mut line, code_of_point(fault.kind), fault.line),
            Trouble::Script(place) => put_place(&mut line, code_of_line(place.kind), place.line),
            Trouble::Short { free } => put_number(&mut line, b"B1 free ", u64::from(free)),
            Trouble::Raced { seen } => put_number(&mut line, b"B2 seen ", u64::from(seen)),
            Trouble::SectionTooLong => put(&mut line, b"X4"),
            Trouble::TooManyWorkers => put(&mut line, b"E94"),
            Trouble::Broken => put(&mut line, b"X1"),
            Trouble::Endless => put(&mut line, b"X2"),
            Trouble::Unwritten => put(&mut line, b"X3"),
            Trouble::NoThread => put(&mut line, b"E93"),
            Trouble::Differs => put(&mut line, b"E95"),
            Trouble::Log { line: number } => put_place(&mut line, b"L1", number),
            Trouble::Front { line: number, .. } => put_place(&mut line, b"L1", number),
            Trouble::Forgotten { first } => put_number(&mut line, b"L2 ", first),
            Trouble::Unkept => put(&mut line, b"X5"),
            Trouble::NoPipes { client } => put_number(&mut line, b"X5 ", u64::from(client)),
            Trouble::Unshown => put(&mut line, b"X6"),
            Trouble::Scripted => put(&mut line, b"X7"),
            Trouble::LostLog => put(&mut line, b"X8"),
            Trouble::OwnOutput => put(&mut line, b"X9"),
            Trouble::Unmanned => put(&mut line, b"V5"),
            Trouble::NotParked { agent } => put_number(&mut line, b"H1 ", u64::from(agent)),
            Trouble::MayFollow => put(&mut line, b"V4"),
            Trouble::NoMemory => put(&mut line, b"E90"),
        }
        put(&mut line, b"\n");
        line
    }

    /// The status with which the program ends.
    pub fn status(&self) -> Status
        ensures { result ≡ status_of self.now }
    {
        match self {
            Trouble::Map(_) | Trouble::Points(_) | Trouble::Script(_) => Status::Refused,
            Trouble::Short { .. } | Trouble::Raced { .. } => Status::Refused,
            Trouble::SectionTooLong | Trouble::TooManyWorkers => Status::Refused,
            Trouble::Log { .. } | Trouble::Front { .. } | Trouble::Forgotten { .. } =>
                Status::Refused,
            Trouble::MayFollow => Status::Refused,
            Trouble::LostLog | Trouble::Unmanned | Trouble::NotParked { .. } => Status::Refused,
            Trouble::Broken | Trouble::Endless | Trouble::Unwritten => Status::Failed,
            Trouble::NoThread | Trouble::Differs | Trouble::OwnOutput => Status::Failed,
            Trouble::Unkept | Trouble::NoPipes { .. } | Trouble::Unshown => Status::Failed,
            Trouble::Scripted => Status::CommandLine,
            Trouble::NoMemory => Status::NoMemory,
        }
    }
}
