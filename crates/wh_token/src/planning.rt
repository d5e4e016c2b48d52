//! What a request is answered, and the paths that are planned for it.

ghost use Rattle.std.specs.Prelude.{◌≡◌, ℕ, ◌≤◌, length, Contains, IfOk, IfErr, IfNone, IfSome};
ghost use Rattle.wh_tasks.specs.declared.task.Task.{Task as Job};
ghost use Rattle.wh_tasks.specs.Tasks.{stops_left};
ghost use Rattle.wh_event.specs.declared.event.Event.{Event as Asked};
ghost use Rattle.wh_planner.specs.Duties.{IsLawful, HasNoClearWay, Delivers, ParksAt};
ghost use Rattle.wh_core.specs.Steps.{Answers, IsAllowed, IsDue, IsNext, MakesWay, tour};
ghost use Rattle.wh_book.specs.Drafts.{Drafts};
ghost use Rattle.wh_token.specs.Fleet.{TellsSpare, OthersStay};

use crate::warehouse::Warehouse;
use std::alloc::{AllocError, Global};
use wh_book::Draft;
use wh_event::{Event, Refusal, Reply, Spare};
use wh_grid::Cell;
use wh_path::TimedPath;
use wh_planner::{Duty, PlanFault, Plans, Scene};

impl<P: Plans> Warehouse<P> {
    /// What is told of a spare.
    pub(crate) fn tell(&self, spare: &Option<P>) -> Spare
        ensures { TellsSpare P.fits_map P.slot_count self.now.book.site.grid spare.now result }
    {
        match spare {
            None => Spare::None,
            Some(planner) => {
                if planner.fits(self.book.setting().grid()) {
                    Spare::Fits {
                        slots: planner.slots(),
                    }
                } else {
                    Spare::Foreign
                }
            }
        }
    }

    /// A path for the agent, which is due, to deliver its next task: through the stops that are left, and then home if paths go on
    /// home.
    fn plan_delivery(
        &mut self,
        alloc: Global,
        agent: u32,
        task: u32,
    ) -> Result<TimedPath, PlanFault>
        requires due { IsDue self.old.book.site self.old.book.state agent }
        requires next { (job : Job) × IsNext self.old.book.site self.old.book.state agent task job }
        ensures book { self.new.book ≡ self.old.book }
        ensures others { OthersStay agent self.old.planners self.new.planners }
        ensures lawful { IfOk result (λ path. (job : Job) × IsNext self.old.book.site self.old.book.state agent task job
            × IsLawful self.old.book.site.grid self.old.book.site.layout.nofollow self.old.book.state.paths agent (length (tour self.old.book.site agent job.stops)) (Delivers (tour self.old.book.site agent (stops_left job))) path) }
        ensures no_path { IfErr result (λ fault. fault ≡ PlanFault.NoPath → ((job : Job) × IsNext self.old.book.site self.old.book.state agent task job
            × HasNoClearWay self.old.book.site.grid self.old.book.state.paths agent (Delivers (tour self.old.book.site agent (stops_left job))))) }
    {
        let tour = self.book.tour(agent, task);
        let scene = Scene {
            grid: self.book.setting().grid(),
            nofollow: self.book.setting().nofollow(),
            paths: self.book.timetable(),
            agent: agent as usize,
        };
        let duty = Duty::Deliver {
            stops: tour.as_slice(),
        };
        self.planners[agent as usize].plan(alloc, &mut self.fields, &scene, duty)
    }

    /// A path for the agent, which is due, to one of these cells.
    fn plan_parking(
        &mut self,
        alloc: Global,
        agent: u32,
        allowed: &[Cell],
    ) -> Result<TimedPath, PlanFault>
        requires due { IsDue self.old.book.site self.old.book.state agent }
        ensures book { self.new.book ≡ self.old.book }
        ensures others { OthersStay agent self.old.planners self.new.planners }
        ensures lawful { IfOk result (IsLawful self.old.book.site.grid self.old.book.site.layout.nofollow self.old.book.state.paths agent 2 (ParksAt (Contains allowed.now))) }
        ensures no_path { IfErr result (λ fault. fault ≡ PlanFault.NoPath → HasNoClearWay self.old.book.site.grid self.old.book.state.paths agent (ParksAt (Contains allowed.now))) }
    {
        let scene = Scene {
            grid: self.book.setting().grid(),
            nofollow: self.book.setting().nofollow(),
            paths: self.book.timetable(),
            agent: agent as usize,
        };
        self.planners[agent as usize].plan(alloc, &mut self.fields, &scene, Duty::Park { allowed })
    }

    /// The draft of a request by a due agent, for which this task is next.
    fn draft_delivery(
        &mut self,
        alloc: Global,
        caller: u32,
        agent: u32,
        task: u32,
    ) -> Result<Draft, AllocError>
        requires due { IsDue self.old.book.site self.old.book.state agent }
        requires next { (job : Job) × IsNext self.old.book.site self.old.book.state agent task job }
        requires room { 1 ≤ self.old.book.entry_room }
        ensures book { self.new.book ≡ self.old.book }
        ensures others { OthersStay agent self.old.planners self.new.planners }
        ensures drafts { IfOk result (Drafts self.old.book caller (Asked.Request agent)) }
    {
        match self.plan_delivery(alloc, agent, task) {
            Ok(path) => self.book.draft_took(alloc, caller, agent, task, path),
            Err(PlanFault::NoPath) => self.draft_shut_in(alloc, caller, agent),
            Err(PlanFault::NoMemory) => Err(AllocError),
        }
    }

    /// The draft of a request by a due agent that has no clear way for its next task. A stray that may not rest where its path ends
    /// makes way; any other is refused.
    fn draft_shut_in(&mut self, alloc: Global, caller: u32, agent: u32) -> Result<Draft, AllocError>
        requires due { IsDue self.old.book.site self.old.book.state agent }
        requires no_way { (n : ℕ) × (job : Job) × IsNext self.old.book.site self.old.book.state agent n job
            × HasNoClearWay self.old.book.site.grid self.old.book.state.paths agent (Delivers (tour self.old.book.site agent (stops_left job))) }
        requires room { 1 ≤ self.old.book.entry_room }
        ensures book { self.new.book ≡ self.old.book }
        ensures others { OthersStay agent self.old.planners self.new.planners }
        ensures drafts { IfOk result (Drafts self.old.book caller (Asked.Request agent)) }
    {
        if !self.book.is_stray(agent) || self.book.may_rest(agent) {
            let event = Event::Request { agent };
            return Ok(self.book.refuse(caller, event, Refusal::NoPath));
        }
        self.draft_parking(alloc, caller, agent)
    }

    /// The draft of a request by a due agent that has to make way: it goes to a cell at which it may park.
    fn draft_parking(&mut self, alloc: Global, caller: u32, agent: u32) -> Result<Draft, AllocError>
        requires due { IsDue self.old.book.site self.old.book.state agent }
        requires makes_way { MakesWay self.old.book.site self.old.book.state agent }
        requires room { 1 ≤ self.old.book.entry_room }
        ensures book { self.new.book ≡ self.old.book }
        ensures others { OthersStay agent self.old.planners self.new.planners }
        ensures drafts { IfOk result (Drafts self.old.book caller (Asked.Request agent)) }
    {
        let allowed = self.book.allowed(alloc, agent)?;
        match self.plan_parking(alloc, agent, allowed.as_slice()) {
            Ok(path) => self.book.draft_parked(alloc, caller, agent, path),
            Err(PlanFault::NoPath) => {
                let event = Event::Request { agent };
                Ok(self.book.refuse(caller, event, Refusal::NoPath))
            }
            Err(PlanFault::NoMemory) => Err(AllocError),
        }
    }

    /// The reply to a request, where it is known at once and changes nothing. With none the agent is due.
    #[inline(always)]
    #[tactic(auto, using(crate::proofs::Duties::due_now))]
    pub(crate) fn answer_at_once(&self, agent: u32) -> Option<Reply>
        ensures answers { IfSome result (λ reply. Answers self.now.book.site self.now.book.state reply (Asked.Request agent) self.now.book.state) }
        ensures due { IfNone result (IsDue self.now.book.site self.now.book.state agent) }
    {
        if self.closed() {
            return Some(Reply::Refused(Refusal::Closed));
        }
        if agent as usize >= self.book.paths().len() {
            return Some(Reply::Refused(Refusal::UnknownAgent(agent)));
        }
        let left = self.book.ticks_until_idle(agent);
        if left != 0 {
            return Some(Reply::Refused(Refusal::Moving(left)));
        }
        if self.book.rests_at_once(agent) {
            return Some(Reply::Rested);
        }
        None
    }

    /// The draft of a request by a due agent.
    #[tactic(auto, using(crate::proofs::Seats::others_same))]
    pub(crate) fn draft_choice(
        &mut self,
        alloc: Global,
        caller: u32,
        agent: u32,
    ) -> Result<Draft, AllocError>
        requires due { IsDue self.old.book.site self.old.book.state agent }
        requires room { 1 ≤ self.old.book.entry_room }
        ensures book { self.new.book ≡ self.old.book }
        ensures others { OthersStay agent self.old.planners self.new.planners }
        ensures drafts { IfOk result (Drafts self.old.book caller (Asked.Request agent)) }
    {
        if let Some(task) = self.book.next(agent, &mut self.near) {
            return self.draft_delivery(alloc, caller, agent, task);
        }
        if self.book.may_rest(agent) {
            let event = Event::Request { agent };
            return Ok(self.book.draft_answer(caller, event, Reply::Rested));
        }
        self.draft_parking(alloc, caller, agent)
    }

    /// The draft of a request.
    #[tactic(auto, using(crate::proofs::Seats::others_same))]
    pub(crate) fn draft_request(
        &mut self,
        alloc: Global,
        caller: u32,
        agent: u32,
    ) -> Result<Draft, AllocError>
        requires room { 1 ≤ self.old.book.entry_room }
        ensures book { self.new.book ≡ self.old.book }
        ensures others { OthersStay agent self.old.planners self.new.planners }
        ensures drafts { IfOk result (Drafts self.old.book caller (Asked.Request agent)) }
    {
        match self.answer_at_once(agent) {
            Some(reply) => {
                let event = Event::Request { agent };
                Ok(self.book.draft_answer(caller, event, reply))
            }
            None => self.draft_choice(alloc, caller, agent),
        }
    }
}
