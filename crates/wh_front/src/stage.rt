//! What comes next in a front.

ghost use Rattle.std.specs.Prelude.{◌≡◌};
ghost use Rattle.wh_front.specs.Drafts as drafts;

use crate::line::Line;

/// What comes next in a front.
#[derive(Clone, Copy, Debug, PartialEq, Eq)]
pub enum Stage {
    /// `wlog 3`
    Title,
    /// The log before.
    Before,
    /// The rules, or the state where both are the defaults.
    Rules,
    /// The state.
    State,
    /// How many entries each caller had.
    Entries,
    /// How many agents there are.
    Agents,
    /// An agent.
    Seats,
    /// How many tasks there are.
    Tasks,
    /// A task.
    Submissions,
    /// `begin`
    Begin,
    /// Nothing: the front has ended.
    Done,
}

/// Whether the line comes next.
pub fn expects(stage: Stage, line: &Line) -> bool
    ensures { result ≡ drafts.expects stage line.now }
{
    match line {
        Line::Title => matches!(stage, Stage::Title),
        Line::Before(_) => matches!(stage, Stage::Before),
        Line::Rules(_) => matches!(stage, Stage::Rules),
        Line::State { .. } => matches!(stage, Stage::Rules | Stage::State),
        Line::Entries(_) => matches!(stage, Stage::Entries),
        Line::Agents(_) => matches!(stage, Stage::Agents),
        Line::Agent(_) => matches!(stage, Stage::Seats),
        Line::Tasks(_) => matches!(stage, Stage::Tasks),
        Line::Task(_) => matches!(stage, Stage::Submissions),
        Line::Begin => matches!(stage, Stage::Begin),
    }
}

/// Whether the front has ended.
pub fn is_done(stage: Stage) -> bool
    ensures { result ≡ drafts.is_done stage }
{
    matches!(stage, Stage::Done)
}
