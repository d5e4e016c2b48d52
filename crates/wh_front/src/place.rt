//! Where a reader of a front stands.

ghost use Rattle.std.specs.Prelude.{◌≡◌};
ghost use Rattle.wh_front.specs.Drafts as drafts;
ghost use Rattle.wh_front.specs.Places as places;

use crate::line::Line;
use crate::stage::Stage;

/// What comes next in a front, and how many more of its kind.
#[derive(Clone, Copy, Debug, PartialEq, Eq)]
pub struct Place {
    /// What comes next.
    pub stage: Stage,
    /// How many agents are still to come, or tasks; 0 where neither comes next.
    pub left: u32,
}

/// A place at which neither agents nor tasks come next.
fn at(stage: Stage) -> Place
    ensures { result ≡ record { stage = stage; left = 0 } }
{
    Place { stage, left: 0 }
}

impl Place {
    /// Before the first line.
    pub fn start() -> Place
        ensures { result ≡ places.start }
    {
        at(Stage::Title)
    }

    /// Behind a line that is expected.
    pub fn behind(self, line: &Line) -> Place
        ensures { result ≡ places.behind self line.now }
    {
        match line {
            Line::Title => at(Stage::Before),
            Line::Before(_) => at(Stage::Rules),
            Line::Rules(_) => at(Stage::State),
            Line::State { .. } => at(Stage::Entries),
            Line::Entries(_) => at(Stage::Agents),
            Line::Agents(count) => Place {
                stage: Stage::Seats,
                left: *count,
            },
            Line::Agent(_) => agents_left(self.left.saturating_sub(1)),
            Line::Tasks(count) => tasks_left(*count),
            Line::Task(_) => tasks_left(self.left.saturating_sub(1)),
            Line::Begin => at(Stage::Done),
        }
    }
}

/// Where so many agents are still to come, behind one at least.
fn agents_left(left: u32) -> Place
    ensures { result ≡ record { stage = drafts.behind_seat 0 left; left = left } }
{
    Place {
        stage: if left > 0 { Stage::Seats } else { Stage::Tasks },
        left,
    }
}

/// Where so many tasks are still to come.
fn tasks_left(left: u32) -> Place
    ensures { result ≡ record { stage = drafts.behind_task 0 left; left = left } }
{
    Place {
        stage: if left > 0 {
            Stage::Submissions
        } else {
            Stage::Begin
        },
        left,
    }
}

/// Whether the line tells that there are fewer or more agents or tasks than were told.
pub fn miscounts(stage: Stage, line: &Line) -> bool
    ensures { result ≡ places.miscounts stage line.now }
{
    match line {
        Line::Tasks(_) => matches!(stage, Stage::Seats),
        Line::Agent(_) => matches!(stage, Stage::Tasks),
        Line::Begin => matches!(stage, Stage::Submissions),
        Line::Task(_) => matches!(stage, Stage::Begin),
        _ => false,
    }
}
