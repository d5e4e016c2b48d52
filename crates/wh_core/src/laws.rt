//! Laws over all runs from a sound state. Each function is a law: it does nothing, and its contract is the law.

ghost use Rattle.wh_core.specs.Laws.{PathsAreFree, NoneShareACell, NoneExchangeCells, NoneFollow, EachStepIsAMove, OnlyTicksMove, EndsArePoints, EndsDiffer};
ghost use Rattle.wh_core.specs.Laws.{OpeningsAreBeginnings, EachStateIsABeginning, WaysAreKept, TakersAreOnTheirWays, AllStayOnTheirWays};
ghost use Rattle.wh_core.specs.Stopping.{StoppedMayGoOn, LoadsAreTold};
ghost use Rattle.wh_core.specs.Ordinary.{OrdinarySteps, OrdinaryRuns};
ghost use Rattle.wh_core.specs.Laws.{TasksGoForward, EachVisitWasMade, ClocksLieInOrder, DoneIsAllVisited};
ghost use Rattle.wh_core.specs.Laws.{NoLoadAtRest, LoadsAndTasksAgree, ArrivalsAreDoneAtOnce, NoneIsLeftToArrive};
ghost use Rattle.wh_core.specs.Laws.{SeatsStay, LimitsHold, HistoryTellsTheState, RepliesAgree, EveryEventIsAnswered, TaskNumbersCountUp, ClockNeverFalls, ClosedForGood};
ghost use Rattle.wh_core.specs.Laws.{DutiesHaveClearWays, NoneIsRefusedAPath, ClearDeliveriesAreLawful, ClearParkingsAreLawful};

/// An opening state is a beginning, at which all are on their ways.
pub fn openings_are_beginnings()
    ensures { OpeningsAreBeginnings }
{}

/// Each state of a run is sound: from each state that is reached another run may begin.
pub fn each_state_is_a_beginning()
    ensures { EachStateIsABeginning }
{}

/// An agent that is on its way stays so, whatever the others do.
pub fn ways_are_kept()
    ensures { WaysAreKept }
{}

/// An agent that is given a path for a task is on its way from then on.
pub fn takers_are_on_their_ways()
    ensures { TakersAreOnTheirWays }
{}

/// Once all agents are on their ways they stay so.
pub fn all_stay_on_their_ways()
    ensures { AllStayOnTheirWays }
{}

/// Where all agents are on their ways the steps are those of Token Passing (AAMAS 2017).
pub fn ordinary_steps()
    ensures { OrdinarySteps }
{}

/// The runs from an opening state are those of Token Passing (AAMAS 2017).
pub fn ordinary_runs()
    ensures { OrdinaryRuns }
{}

/// A warehouse that was stopped may go on from where its vehicles stand.
pub fn stopped_may_go_on()
    ensures { StoppedMayGoOn }
{}

/// A sound state is told by all but its loads.
pub fn loads_are_told()
    ensures { LoadsAreTold }
{}

/// In each state of a run any two agents' paths are free of each other, for ever.
pub fn paths_are_free()
    ensures { PathsAreFree }
{}

/// No two agents ever share a cell.
pub fn none_share_a_cell()
    ensures { NoneShareACell }
{}

/// No two agents ever exchange their cells in one step.
pub fn none_exchange_cells()
    ensures { NoneExchangeCells }
{}

/// Under the rule, no agent enters in one step a cell that another leaves or keeps in that step.
pub fn none_follow()
    ensures { NoneFollow }
{}

/// In one step an agent goes to a neighbour of its cell or stays there, and is then on a passable cell.
pub fn each_step_is_a_move()
    ensures { EachStepIsAMove }
{}

/// At an event that is not a tick all agents stay where they are.
pub fn only_ticks_move()
    ensures { OnlyTicksMove }
{}

/// The cells where the paths end are points.
pub fn ends_are_points()
    ensures { EndsArePoints }
{}

/// Any two agents' paths end at cells that differ.
pub fn ends_differ()
    ensures { EndsDiffer }
{}

/// Over a run a task only goes on: its agent never changes, its visits stay, and its phase goes forward.
pub fn tasks_go_forward()
    ensures { TasksGoForward }
{}

/// Each visit of a task was made in a state of the run, at its clock, where the task's agent was at that stop.
pub fn each_visit_was_made()
    ensures { EachVisitWasMade }
{}

/// The clocks of a task lie in order: its submission, its visits one after another, and the clock of the state.
pub fn clocks_lie_in_order()
    ensures { ClocksLieInOrder }
{}

/// A task that is done has visited all its stops, and no task more stops than it has.
pub fn done_is_all_visited()
    ensures { DoneIsAllVisited }
{}

/// An agent with no steps left has no load.
pub fn no_load_at_rest()
    ensures { NoLoadAtRest }
{}

/// Loads and tasks tell the same.
pub fn loads_and_tasks_agree()
    ensures { LoadsAndTasksAgree }
{}

/// Arrivals change nothing more when they are applied again.
pub fn arrivals_are_done_at_once()
    ensures { ArrivalsAreDoneAtOnce }
{}

/// In each state of a run all arrivals have been made.
pub fn none_is_left_to_arrive()
    ensures { NoneIsLeftToArrive }
{}

/// Tasks are numbered from 0 in the order in which they are accepted.
pub fn task_numbers_count_up()
    ensures { TaskNumbersCountUp }
{}

/// Two runs of the same entries from one opening state lead to one state.
pub fn history_tells_the_state()
    ensures { HistoryTellsTheState }
{}

/// There are never more tasks than 1,000,000, and the clock is never above 1,000,000,000.
pub fn limits_hold()
    ensures { LimitsHold }
{}

/// In a state there is one reply to an event, except for the path that the planner gave, or that it found none.
pub fn replies_agree()
    ensures { RepliesAgree }
{}

/// On a well-formed instance, in each state of a run, each event has an answer.
pub fn every_event_is_answered()
    ensures { EveryEventIsAnswered }
{}

/// The clock never falls.
pub fn clock_never_falls()
    ensures { ClockNeverFalls }
{}

/// After Close nothing changes, and each event is refused.
pub fn closed_for_good()
    ensures { ClosedForGood }
{}

/// There are as many paths, loads and slots as agents, in each state of a run.
pub fn seats_stay()
    ensures { SeatsStay }
{}

/// On a well-formed instance each due agent has a clear way for its duty.
pub fn duties_have_clear_ways()
    ensures { DutiesHaveClearWays }
{}

/// On a well-formed instance no event of a run is refused for lack of a path.
pub fn none_is_refused_a_path()
    ensures { NoneIsRefusedAPath }
{}

/// Where a due agent has a clear way for a delivery, it has a lawful path.
pub fn clear_deliveries_are_lawful()
    ensures { ClearDeliveriesAreLawful }
{}

/// Where a due agent has a clear way for parking, it has a lawful path.
pub fn clear_parkings_are_lawful()
    ensures { ClearParkingsAreLawful }
{}
