//! The book.
#![tactic(auto)]

ghost use Rattle.std.specs.Prelude.{◌≡◌, ◌≢◌, ℕ, ◌+◌, ◌-◌, ◌<◌, ◌≤◌, List, [], ◌∷◌, ◌++◌, true, false, Some, length, slice_get, IfOk, OnOk, OnErr};
ghost use Rattle.wh_path.specs.Paths.{AllFree, IsWalk, path_of};
ghost use Rattle.wh_points.specs.Points.{Site};
ghost use Rattle.wh_tasks.specs.declared.task.Task.{Task as Job};
ghost use Rattle.wh_tasks.specs.Tasks.{stops_left};
ghost use Rattle.wh_planner.specs.Duties.{IsLawful, Delivers, ParksAt};
ghost use Rattle.wh_core.specs.States.{State, opened, arrived, moved};
ghost use Rattle.wh_core.specs.Steps.{Answers, Refuses, Step, Run, IsAllowed, IsDue, IsNext, MakesWay, last_clock, tour};
ghost use Rattle.wh_core.specs.Laws.{IsOpening, IsBeginning};
ghost use Rattle.wh_state.specs.Columns.{state_in};
ghost use Rattle.wh_book.specs.Openings.{opening_of};
ghost use Rattle.wh_event.specs.declared.event.Event.{Event as Asked};
ghost use Rattle.wh_event.specs.declared.reply.Reply.{Reply as Answer};
ghost use Rattle.wh_event.specs.declared.reply.Refusal.{Refusal as Reason};
ghost use Rattle.wh_book.specs.Settings.{IsStop, faulty};
ghost use Rattle.wh_book.specs.Drafts.{Seen, IsSame, IsReady, Drafts, Changes, CanChange, AllServed, HasWaysForAll, ticked};

use crate::asking::has_stray;
use crate::draft::{Change, Draft};
use crate::opening::Opening;
use crate::setting::{Fault, Setting};
use std::alloc::{AllocError, Global};
use std::marker::Model;
use wh_core::{LAST_CLOCK, MOST_TASKS};
use wh_event::{Entry, Event, KeptStops, Refusal, Reply, Spare, Stops};
use wh_path::TimedPath;
use wh_state::{Arrivals, FleetState, StateParts};
use wh_tasks::{Load, TaskSet};
use wh_text::Name;
use wh_timetable::Timetable;

/// The state, the history that led to it, and with what it began.
///
/// A run may begin with any sound state. In one after a stop agents may be strays: a stray has a task though it is idle, or comes to
/// rest where it may not. Each is brought on its way by its own requests; once all are on their ways they stay so.
#[derive(Drop)]
pub struct Book {
    pub(crate) setting: Setting,
    first: Opening,
    pub(crate) floor: FleetState,
    history: Vec<Entry>,
    /// Whether strays may be left.
    pub(crate) strays: bool,
}

impl Model for Book {
    ghost use Rattle.std.specs.Prelude.{◌-◌, vec_capacity, vec_len};
    ghost use Rattle.wh_book.specs.Openings.{opening_of};
    ghost use Rattle.wh_book.specs.Settings.{IsStop, faulty};
    ghost use Rattle.wh_book.specs.Drafts.{Seen, IsWatched};

    ghost Value = { Seen };

    ghost view = { λ b. record {
      site = b.setting;
      opening = opening_of b.setting.layout b.first;
      state = b.floor.state;
      history = b.history.items;
      entry_room = vec_capacity b.history - vec_len b.history;
      task_room = b.floor.room;
    } };

    ghost invariant = { λ b. IsWatched b.setting (opening_of b.setting.layout b.first) b.history.items b.floor.state b.strays };
}

impl Book {
    /// The book with no entry.
    pub fn open(
        alloc: Global,
        setting: Setting,
        clock: u32,
        slots: Vec<u32>,
    ) -> Result<Book, AllocError>
        requires clock { clock ≤ last_clock }
        requires seats { length slots.items ≡ length setting.layout.agents }
        ensures site { IfOk result (λ book. book.site ≡ setting) }
        ensures opening { IfOk result (λ book. book.opening ≡ opened setting.layout clock slots.items) }
        ensures opens { IfOk result (λ book. IsOpening book.site book.opening) }
        ensures state { IfOk result (λ book. book.state ≡ book.opening) }
        ensures history { IfOk result (λ book. book.history ≡ []) }
    {
        let _agents = setting.agents();
        let first_slots = Vec::from_slice(alloc, slots.as_slice())?;
        let starts = setting.starts(alloc)?;
        let floor = FleetState::open(alloc, setting.grid(), clock, starts.as_slice(), slots)?;
        Ok(Book {
            setting,
            first: Opening::Starts {
                clock,
                slots: first_slots,
            },
            floor,
            history: Vec::new(alloc),
            strays: false,
        })
    }

    /// The book with no entry that begins with the state of these parts.
    pub fn begin(alloc: Global, setting: Setting, parts: StateParts) -> Result<Book, AllocError>
        requires { IsBeginning setting (state_in parts) }
        ensures site { IfOk result (λ book. book.site ≡ setting) }
        ensures opening { IfOk result (λ book. book.opening ≡ state_in parts) }
        ensures state { IfOk result (λ book. book.state ≡ book.opening) }
        ensures history { IfOk result (λ book. book.history ≡ []) }
    {
        let _agents = setting.agents();
        let floor = FleetState::of(alloc, setting.grid(), &parts)?;
        let strays = has_stray(&setting, &floor);
        Ok(Book {
            setting,
            first: Opening::State(parts),
            floor,
            history: Vec::new(alloc),
            strays,
        })
    }

    /// The book of a history that was told elsewhere, which is a run from the opening to the state. It looks at each path, takes no
    /// memory and always succeeds.
    pub fn resume(setting: Setting, first: Opening, floor: FleetState, history: Vec<Entry>) -> Book
        requires opening { IsBeginning setting (opening_of setting.layout first) }
        requires run { Run setting (opening_of setting.layout first) history.items floor.state }
        ensures site { result.site ≡ setting }
        ensures opening { result.opening ≡ opening_of setting.layout first }
        ensures state { result.state ≡ floor.state }
        ensures history { result.history ≡ history.items }
    {
        let strays = has_stray(&setting, &floor);
        Book {
            setting,
            first,
            floor,
            history,
            strays,
        }
    }

    /// The grid and the points.
    pub fn setting(&self) -> &Setting
        ensures { result.now ≡ self.now.site }
    {
        &self.setting
    }

    /// The grid and the points alone; all else is given up.
    pub fn into_setting(self) -> Setting
        ensures { result ≡ self.site }
    {
        let Book {
            setting,
            first,
            floor,
            history,
            ..
        } = self;
        drop(first);
        drop(floor);
        drop(history);
        setting
    }

    /// All entries so far: a run from the opening state to the state.
    pub fn history(&self) -> &[Entry]
        ensures value { result.now ≡ self.now.history }
        ensures opening { IsBeginning self.now.site self.now.opening }
        // Where the agents stood at their starts, that is an opening.
        ensures opened { (clock : ℕ) (slots : List ℕ) → self.now.opening ≡ opened self.now.site.layout clock slots → IsOpening self.now.site self.now.opening }
        ensures run { Run self.now.site self.now.opening self.now.history self.now.state }
        ensures served { HasWaysForAll self.now.site self.now.opening → AllServed self.now.history }
    {
        self.history.as_slice()
    }

    /// Whether it is closed.
    pub fn closed(&self) -> bool
        ensures { result ≡ self.now.state.closed }
    {
        self.floor.closed()
    }

    /// The clock, in ticks, at most 1,000,000,000.
    pub fn clock(&self) -> u32
        ensures value { result ≡ self.now.state.clock }
        ensures fits { result ≤ last_clock }
    {
        self.floor.clock()
    }

    /// The paths, any two of them free of each other.
    pub fn paths(&self) -> &[TimedPath]
        ensures value { result.now ≡ self.now.state.paths }
        ensures free { AllFree self.now.site.layout.nofollow self.now.state.paths }
        ensures few { length result.now ≤ 256 }
    {
        self.floor.paths()
    }

    /// The paths, any two of them free of each other, for planners.
    pub fn timetable(&self) -> &Timetable
        ensures value { result.now ≡ self.now.state.paths }
        ensures walks { (agent : ℕ) → agent < length self.now.state.paths → IsWalk self.now.site.grid (path_of self.now.state.paths agent) }
        ensures free { AllFree self.now.site.layout.nofollow self.now.state.paths }
        ensures few { length result.now ≤ 256 }
    {
        self.floor.timetable()
    }

    /// The tasks.
    pub fn tasks(&self) -> &TaskSet
        ensures { result.now.tasks ≡ self.now.state.tasks }
    {
        self.floor.tasks()
    }

    /// The agents' loads.
    pub fn loads(&self) -> &[Load]
        ensures value { result.now ≡ self.now.state.loads }
        ensures each { length result.now ≡ length self.now.state.paths }
    {
        self.floor.loads()
    }

    /// The slots of the agents' planners.
    pub fn slots(&self) -> &[u32]
        ensures value { result.now ≡ self.now.state.slots }
        ensures each { length result.now ≡ length self.now.state.paths }
    {
        self.floor.slots()
    }

    /// With what it began.
    pub fn first(&self) -> &Opening
        ensures { opening_of self.now.site.layout result.now ≡ self.now.opening }
    {
        &self.first
    }

    /// The clock of the opening state.
    pub fn first_clock(&self) -> u32
        ensures { result ≡ self.now.opening.clock }
    {
        self.first.clock()
    }

    /// The slots of the agents' planners in the opening state.
    pub fn first_slots(&self) -> &[u32]
        ensures { result.now ≡ self.now.opening.slots }
    {
        self.first.slots()
    }

    /// Makes room for one entry.
    pub fn reserve_entry(&mut self) -> Result<(), AllocError>
        ensures same { IsSame self.old self.new }
        ensures kept { self.old.entry_room ≤ self.new.entry_room }
        ensures task_room { self.new.task_room ≡ self.old.task_room }
        ensures room { OnOk result (1 ≤ self.new.entry_room) }
    {
        self.history.reserve(1)
    }

    /// Makes room for one task.
    pub fn reserve_task(&mut self, alloc: Global) -> Result<(), AllocError>
        ensures same { IsSame self.old self.new }
        ensures entry_room { self.new.entry_room ≡ self.old.entry_room }
        ensures kept { self.old.task_room ≤ self.new.task_room }
        ensures room { OnOk result (1 ≤ self.new.task_room) }
    {
        self.floor.reserve_task(alloc)
    }

    /// Adds the entry and makes its change. It takes no memory and always succeeds.
    pub fn commit(&mut self, draft: Draft)
        requires { IsReady self.old draft }
        ensures site { self.new.site ≡ self.old.site }
        ensures opening { self.new.opening ≡ self.old.opening }
        ensures history { self.new.history ≡ self.old.history ++ draft.entry ∷ [] }
        ensures step { Step self.old.site self.old.state draft.entry self.new.state }
        ensures seats { length self.new.state.paths ≡ length self.old.state.paths }
        ensures served { HasWaysForAll self.old.site self.old.opening → draft.entry.reply ≢ Answer.Refused Reason.NoPath }
    {
        let Draft { entry, change } = draft;
        apply(&mut self.floor, change);
        self.history.push_reserved(entry);
        if self.strays {
            self.strays = has_stray(&self.setting, &self.floor);
        }
    }

    /// Adds the entry of an event whose answer changes nothing. It takes no memory and always succeeds.
    pub fn add_answer(&mut self, caller: u32, event: Event, reply: Reply)
        requires answers { Answers self.old.site self.old.state reply event self.old.state }
        requires room { 1 ≤ self.old.entry_room }
        ensures site { self.new.site ≡ self.old.site }
        ensures opening { self.new.opening ≡ self.old.opening }
        ensures state { self.new.state ≡ self.old.state }
        ensures step { Step self.old.site self.old.state (record { caller = caller; event = event; reply = reply }) self.old.state }
        ensures history { self.new.history ≡ self.old.history ++ record { caller = caller; event = event; reply = reply } ∷ [] }
    {
        self.history.push_reserved(Entry {
            caller,
            event,
            reply,
        });
    }

    /// One step of time, with its entry. It takes no memory and always succeeds.
    pub fn tick(&mut self, caller: u32)
        requires not_closed { self.old.state.closed ≡ false }
        requires early { self.old.state.clock < last_clock }
        requires room { 1 ≤ self.old.entry_room }
        ensures site { self.new.site ≡ self.old.site }
        ensures opening { self.new.opening ≡ self.old.opening }
        ensures state { self.new.state ≡ arrived (moved self.old.state) }
        ensures history { self.new.history ≡ self.old.history ++ record { caller = caller; event = Asked.Tick; reply = ticked self.old.state } ∷ [] }
    {
        let now = self.clock() + 1;
        let Arrivals { picked, dropped } = self.floor.tick();
        let told = Entry {
            caller,
            event: Event::Tick,
            reply: Reply::Clock {
                now,
                picked,
                dropped,
            },
        };
        self.history.push_reserved(told);
        if self.strays {
            self.strays = has_stray(&self.setting, &self.floor);
        }
    }

    /// Answers the event, and changes nothing.
    pub fn draft_answer(&self, caller: u32, event: Event, reply: Reply) -> Draft
        requires answers { Answers self.now.site self.now.state reply event self.now.state }
        requires room { 1 ≤ self.now.entry_room }
        ensures { Drafts self.now caller event result }
    {
        let _setting = &self.setting;
        let entry = Entry {
            caller,
            event,
            reply,
        };
        Draft {
            entry,
            change: Change::Nothing,
        }
    }

    /// Refuses the event.
    pub fn refuse(&self, caller: u32, event: Event, refusal: Refusal) -> Draft
        requires refuses { Refuses self.now.site self.now.state refusal event }
        requires room { 1 ≤ self.now.entry_room }
        ensures { Drafts self.now caller event result }
    {
        self.draft_answer(caller, event, Reply::Refused(refusal))
    }

    /// Accepts a task; or refuses it, where a stop is no station or the tasks are full.
    pub fn draft_submit(
        &mut self,
        alloc: Global,
        caller: u32,
        client: Name,
        stops: Stops,
    ) -> Result<Draft, AllocError>
        requires not_closed { self.old.state.closed ≡ false }
        requires room { 1 ≤ self.old.entry_room }
        ensures same { IsSame self.old self.new }
        ensures entry_room { self.new.entry_room ≡ self.old.entry_room }
        ensures kept { self.old.task_room ≤ self.new.task_room }
        ensures drafts { IfOk result (Drafts self.new caller (Asked.Submit client stops)) }
    {
        let stops = KeptStops::new(alloc, stops)?;
        let places = match self.setting.places(stops.stops()) {
            Ok(places) => places,
            Err(fault) => {
                let refusal = refusal_of(fault, stops.stops());
                return Ok(self.refuse(caller, Event::Submit { client, stops }, refusal));
            }
        };
        let task = self.floor.tasks().len();
        if task == MOST_TASKS {
            return Ok(self.refuse(caller, Event::Submit { client, stops }, Refusal::TasksFull));
        }
        self.reserve_task(alloc)?;
        let change = Change::Add {
            client: client.copy(),
            stops: places,
        };
        let entry = Entry {
            caller,
            event: Event::Submit { client, stops },
            reply: Reply::Accepted { task },
        };
        Ok(Draft { entry, change })
    }

    /// One step of time, or a refusal where the clock is full.
    pub fn draft_tick(&self, caller: u32) -> Draft
        requires not_closed { self.now.state.closed ≡ false }
        requires room { 1 ≤ self.now.entry_room }
        ensures { Drafts self.now caller Asked.Tick result }
    {
        let clock = self.clock();
        if clock == LAST_CLOCK {
            return self.refuse(caller, Event::Tick, Refusal::ClockFull);
        }
        let arrivals = self.floor.next_arrivals();
        let reply = Reply::Clock {
            now: clock + 1,
            picked: arrivals.picked,
            dropped: arrivals.dropped,
        };
        let entry = Entry {
            caller,
            event: Event::Tick,
            reply,
        };
        Draft {
            entry,
            change: Change::Tick,
        }
    }

    /// The warehouse closes.
    pub fn draft_close(&self, caller: u32) -> Draft
        requires not_closed { self.now.state.closed ≡ false }
        requires room { 1 ≤ self.now.entry_room }
        ensures { Drafts self.now caller Asked.Close result }
    {
        let entry = Entry {
            caller,
            event: Event::Close,
            reply: Reply::Closed,
        };
        Draft {
            entry,
            change: Change::Shut,
        }
    }

    /// The agent gets a spare planner, if there is one that fits.
    pub fn draft_replace(&self, caller: u32, agent: u32, spare: Spare) -> Draft
        requires not_closed { self.now.state.closed ≡ false }
        requires room { 1 ≤ self.now.entry_room }
        ensures { Drafts self.now caller (Asked.Replace agent spare) result }
    {
        let event = Event::Replace { agent, spare };
        if agent as usize >= self.paths().len() {
            return self.refuse(caller, event, Refusal::UnknownAgent(agent));
        }
        match spare {
            Spare::None => self.refuse(caller, event, Refusal::NoSpare),
            Spare::Foreign => self.refuse(caller, event, Refusal::ForeignPlanner),
            Spare::Fits { slots } => {
                let entry = Entry {
                    caller,
                    event,
                    reply: Reply::Replaced { slots },
                };
                Draft {
                    entry,
                    change: Change::Seat { agent, slots },
                }
            }
        }
    }

    /// The agent takes the task by the path, or goes on with its own. The book stays as it is, and has room for the path.
    pub fn draft_took(
        &mut self,
        alloc: Global,
        caller: u32,
        agent: u32,
        task: u32,
        path: TimedPath,
    ) -> Result<Draft, AllocError>
        requires due { IsDue self.old.site self.old.state agent }
        requires lawful { (job : Job) × IsNext self.old.site self.old.state agent task job
            × IsLawful self.old.site.grid self.old.site.layout.nofollow self.old.state.paths agent (length (tour self.old.site agent job.stops)) (Delivers (tour self.old.site agent (stops_left job))) path }
        requires room { 1 ≤ self.old.entry_room }
        ensures book { self.new ≡ self.old }
        ensures drafts { IfOk result (Drafts self.old caller (Asked.Request agent)) }
    {
        self.floor.reserve_path(&path)?;
        let entry = Entry {
            caller,
            event: Event::Request { agent },
            reply: Reply::Took {
                task,
                path: path.copy(alloc)?,
            },
        };
        let change = if self.floor.is_idle(agent) {
            Change::Take { agent, task, path }
        } else {
            Change::Park { agent, path }
        };
        Ok(Draft { entry, change })
    }

    /// The agent makes way by the path. The book stays as it is, and has room for the path.
    pub fn draft_parked(
        &mut self,
        alloc: Global,
        caller: u32,
        agent: u32,
        path: TimedPath,
    ) -> Result<Draft, AllocError>
        requires due { IsDue self.old.site self.old.state agent }
        requires makes_way { MakesWay self.old.site self.old.state agent }
        requires lawful { IsLawful self.old.site.grid self.old.site.layout.nofollow self.old.state.paths agent 2 (ParksAt (IsAllowed self.old.site self.old.state agent)) path }
        requires room { 1 ≤ self.old.entry_room }
        ensures book { self.new ≡ self.old }
        ensures drafts { IfOk result (Drafts self.old caller (Asked.Request agent)) }
    {
        self.floor.reserve_path(&path)?;
        let point = self.setting.point_at(path.end());
        let entry = Entry {
            caller,
            event: Event::Request { agent },
            reply: Reply::Parked {
                point: point.name.copy(),
                path: path.copy(alloc)?,
            },
        };
        Ok(Draft {
            entry,
            change: Change::Park { agent, path },
        })
    }
}

/// Makes the change. It takes no memory.
fn apply(floor: &mut FleetState, change: Change)
    requires { CanChange change floor.old }
    ensures { Changes change floor.old.state floor.new.state }
{
    match change {
        Change::Nothing => {}
        Change::Add { client, stops } => {
            let _task = floor.submit(client, stops);
        }
        Change::Take { agent, task, path } => floor.take(agent, task, path),
        Change::Park { agent, path } => floor.park(agent, path),
        Change::Tick => {
            let _arrivals = floor.tick();
        }
        Change::Seat { agent, slots } => floor.seat(agent, slots),
        Change::Shut => floor.shut(),
    }
}

/// The refusal of a task with such a stop.
fn refusal_of(fault: Fault, stops: &Stops) -> Refusal
    requires { IsStop fault (length stops.now) }
    ensures { result ≡ faulty stops.now fault }
{
    let names = stops.as_slice();
    match fault {
        Fault::Unknown(k) => Refusal::UnknownPoint(names[k].copy()),
        Fault::Parking(k) => Refusal::NotStation(names[k].copy()),
    }
}
