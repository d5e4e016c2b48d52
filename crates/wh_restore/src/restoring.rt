//! A state that is being restored, line by line.

ghost use Rattle.std.specs.Prelude.{◌≡◌, ◌≢◌, ◌↔◌, ◌++◌, ◌∷◌, [], ◌<◌, IsTrue, IfOk, IfErr, OnOk, OnErr, length};
ghost use Rattle.wh_points.specs.Points.{IsLayout};
ghost use Rattle.wh_core.specs.Steps.{most_tasks};
ghost use Rattle.wh_front.specs.Ranges.{LineFits, SubmissionFits};
ghost use Rattle.wh_front.specs.declared.line.Line.TheVariants as lines;
ghost use Rattle.wh_stand.specs.declared.flaw.Flaw.TheVariants as flaws;
ghost use Rattle.wh_stand.specs.Parts.{with_agent, with_task};
ghost use Rattle.wh_stand.specs.TaskFlaws.{IsFitTask};
ghost use Rattle.wh_stand.specs.Flawless.{IsFitAgent, NoneHasPaths, NoneHasTasks};
ghost use Rattle.wh_restore.specs.declared.reason.Reason.TheVariants as reasons;
ghost use Rattle.wh_restore.specs.declared.reason.Refusal.TheVariants as refusals;
ghost use Rattle.wh_restore.specs.SoundFronts.{site_of};
ghost use Rattle.wh_restore.specs.Flaws.{hear, IsFitLine, IsLineFlaw, NoneHasPart};
ghost use Rattle.wh_restore.specs.Restoring.{heard_by, with_head, with_caller, HasRoom, IsUntold, Says};

use crate::reason::{Reason, Refusal, refusal_of};
use crate::restored::Head;
use std::alloc::{AllocError, Global};
use wh_front::{Before, Kind, Line, Rows, Rules, Seat, Submission};
use wh_grid::Grid;
use wh_points::Points;
use wh_stand::{Flaw, StateBuilder};

/// What was told so far.
#[derive(Drop)]
pub(crate) struct Restoring<'a> {
    /// The rules of the run.
    pub(crate) rules: Rules,
    /// What was told of the run.
    pub(crate) head: Head,
    /// What was told of the state.
    pub(crate) builder: StateBuilder<'a>,
    /// Who submitted each task.
    pub(crate) callers: Rows<u32>,
}

fn are_same(one: Rules, other: Rules) -> bool
    ensures { IsTrue result ↔ (one ≡ other) }
{
    one.homes == other.homes && one.age == other.age
}

impl<'a> Restoring<'a> {
    /// Nothing was told yet.
    pub(crate) fn begin(
        alloc: Global,
        grid: &'a Grid,
        points: &'a Points,
        rules: Rules,
    ) -> Result<Restoring<'a>, AllocError>
        requires layout { IsLayout grid.now points.now }
        ensures untold { IfOk result IsUntold }
        ensures site { IfOk result (λ restoring. restoring.builder.site ≡ site_of grid.now points.now rules) }
        ensures rules { IfOk result (λ restoring. restoring.rules ≡ rules) }
    {
        let builder = StateBuilder::begin(alloc, grid, points, rules.homes, 0, false)?;
        Ok(Restoring {
            rules,
            head: Head {
                before: Before::Nothing,
                rules: Rules::usual(),
                kind: Kind::Whole,
                counts: Rows::none(alloc),
            },
            builder,
            callers: Rows::none(alloc),
        })
    }

    /// Takes a line that may come next. When it is refused, nothing is said of what was told.
    pub(crate) fn take(&mut self, alloc: Global, line: Line) -> Result<(), Refusal>
        requires fits { LineFits line }
        requires room { HasRoom self.old.builder.parts line }
        ensures heard { OnOk result (heard_by self.new ≡ hear (heard_by self.old) line) }
        ensures head { OnOk result (self.new.head ≡ with_head self.old.head line) }
        ensures callers { OnOk result (self.new.callers ≡ with_caller self.old.callers line) }
        ensures site { self.new.builder.site ≡ self.old.builder.site }
        ensures rules { self.new.rules ≡ self.old.rules }
        ensures fit { OnOk result (IsFitLine self.old.builder.site self.old.rules (heard_by self.old) line) }
        // Which flaw it is.
        ensures flaw { IfErr result (Says (IsLineFlaw self.old.builder.site self.old.rules (heard_by self.old) line)) }
        // Nothing is refused that a sound state has.
        ensures complete { IfErr result (Says (λ reason. NoneHasPart self.old.builder.site (heard_by self.old) line)) }
    {
        match line {
            Line::Title | Line::Tasks(_) | Line::Begin => Ok(()),
            Line::Before(before) => {
                self.head.before = before;
                Ok(())
            }
            Line::Rules(rules) => self.take_rules(rules),
            Line::State {
                clock,
                closed,
                kind,
            } => {
                self.check_rules()?;
                self.head.kind = kind;
                self.builder.begin_again(alloc, clock, closed);
                Ok(())
            }
            Line::Entries(counts) => {
                self.head.counts = counts;
                Ok(())
            }
            Line::Agents(count) => self.check_agents(count),
            Line::Agent(seat) => self.take_agent(seat),
            Line::Task(submission) => self.take_task(submission),
        }
    }

    /// The rules, where a line tells them.
    fn take_rules(&mut self, rules: Rules) -> Result<(), Refusal>
        ensures ok { OnOk result (self.new ≡ record self.old { head = record self.old.head { rules = rules } }) }
        ensures same { OnOk result (rules ≡ self.old.rules) }
        ensures kept { OnErr result (self.new ≡ self.old) }
        ensures flaw { IfErr result (λ e. (e ≡ refusals.Reason reasons.Rules) × (rules ≢ self.old.rules)) }
    {
        if !are_same(rules, self.rules) {
            return Err(Refusal::Reason(Reason::Rules));
        }
        self.head.rules = rules;
        Ok(())
    }

    /// Whether the rules that were told are those of the run.
    fn check_rules(&self) -> Result<(), Refusal>
        ensures same { OnOk result (self.now.head.rules ≡ self.now.rules) }
        ensures flaw { IfErr result (λ e. (e ≡ refusals.Reason reasons.Rules) × (self.now.head.rules ≢ self.now.rules)) }
    {
        if are_same(self.head.rules, self.rules) {
            Ok(())
        } else {
            Err(Refusal::Reason(Reason::Rules))
        }
    }

    /// Whether there are to be as many agents as the points have.
    fn check_agents(&self, count: u32) -> Result<(), Refusal>
        ensures same { OnOk result (count ≡ length self.now.builder.site.layout.agents) }
        ensures flaw { IfErr result (λ e. (e ≡ refusals.Reason (reasons.Flaw flaws.Agents)) × (count ≢ length self.now.builder.site.layout.agents)) }
    {
        if count as usize == self.builder.all_agents() {
            Ok(())
        } else {
            Err(Refusal::Reason(Reason::Flaw(Flaw::Agents)))
        }
    }

    /// The next agent.
    fn take_agent(&mut self, seat: Seat) -> Result<(), Refusal>
        ensures ok { OnOk result (self.new ≡ record self.old { builder = record { site = self.old.builder.site; parts = with_agent seat.slots seat.path self.old.builder.parts } }) }
        ensures fit { OnOk result (IsFitAgent self.old.builder.site self.old.builder.parts seat.path) }
        ensures kept { OnErr result (self.new ≡ self.old) }
        ensures flaw { IfErr result (Says (IsLineFlaw self.old.builder.site self.old.rules (heard_by self.old) (lines.Agent seat))) }
        ensures complete { IfErr result (Says (λ reason. NoneHasPaths self.old.builder.site (self.old.builder.parts.paths ++ seat.path ∷ []))) }
    {
        let Seat { slots, path } = seat;
        match self.builder.add_agent(slots, path) {
            Ok(()) => Ok(()),
            Err(refused) => Err(refusal_of(refused)),
        }
    }

    /// The next task, and who submitted it.
    fn take_task(&mut self, submission: Submission) -> Result<(), Refusal>
        requires fits { SubmissionFits submission }
        requires room { length self.old.builder.parts.tasks < most_tasks }
        ensures ok { OnOk result (self.new ≡ record self.old { builder = record { site = self.old.builder.site; parts = with_task submission.task self.old.builder.parts }; callers = self.old.callers ++ submission.caller ∷ [] }) }
        ensures fit { OnOk result (IsFitTask self.old.builder.site.layout self.old.builder.parts submission.task) }
        ensures site { self.new.builder.site ≡ self.old.builder.site }
        ensures rules { self.new.rules ≡ self.old.rules }
        ensures flaw { IfErr result (Says (IsLineFlaw self.old.builder.site self.old.rules (heard_by self.old) (lines.Task submission))) }
        ensures complete { IfErr result (Says (λ reason. NoneHasTasks self.old.builder.site (with_task submission.task self.old.builder.parts))) }
    {
        let Submission { caller, task } = submission;
        match self.builder.add_task(task) {
            Ok(()) => {}
            Err(refused) => return Err(refusal_of(refused)),
        }
        self.callers.push(caller)?;
        Ok(())
    }
}
