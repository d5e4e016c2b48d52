//! A front that is taken line by line.

ghost use Rattle.std.specs.Prelude.{◌≡◌, OnOk};
ghost use Rattle.wh_front.specs.Drafts as drafts;

use crate::before::Before;
use crate::front::Front;
use crate::line::Line;
use crate::rows::Rows;
use crate::rules::{Kind, Rules};
use std::alloc::{AllocError, Global};

impl Front {
    /// A front of which nothing was told: the defaults, and no agent.
    pub fn none(alloc: Global) -> Front
        ensures { result ≡ drafts.empty }
    {
        Front {
            before: Before::Nothing,
            rules: Rules::usual(),
            clock: 0,
            closed: false,
            kind: Kind::Whole,
            counts: Rows::none(alloc),
            seats: Rows::none(alloc),
            tasks: Rows::none(alloc),
        }
    }

    /// Takes what a line tells. When out of memory, nothing is said of the front.
    pub fn take(&mut self, line: Line) -> Result<(), AllocError>
        ensures { OnOk result (self.new ≡ drafts.with_line self.old line) }
    {
        match line {
            Line::Before(before) => self.before = before,
            Line::Rules(rules) => self.rules = rules,
            Line::State {
                clock,
                closed,
                kind,
            } => {
                self.clock = clock;
                self.closed = closed;
                self.kind = kind;
            }
            Line::Entries(counts) => self.counts = counts,
            Line::Agent(seat) => self.seats.push(seat)?,
            Line::Task(submission) => self.tasks.push(submission)?,
            Line::Title | Line::Agents(_) | Line::Tasks(_) | Line::Begin => {}
        }
        Ok(())
    }
}
