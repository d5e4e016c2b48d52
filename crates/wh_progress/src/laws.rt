//! Laws over all rounds. Each function is a law: it does nothing, and its contract is the law.

ghost use Rattle.wh_progress.specs.Laws.{AllIsDelivered, EachRoundBrings, AllComesToRest, RoundsFindPaths, OnlyHeldTasksStand, StillIsDone};
ghost use Rattle.wh_progress.specs.Laws.{LeftIsBounded, HorizonIsBounded, OpeningsStand, OnlyTasksAdd, RoundsCanBeHad, DueUntilAsked, TwoStopsAreTwoPlaces, EachIsDeliveredMeanwhile};
ghost use Rattle.wh_progress.specs.Laws.{AllIsDeliveredWithin, EachIsDeliveredWithin};

/// On a well-formed instance where no order can stand still for good (paths go on home to parkings, or each task has its stops at
/// two cells at most), all tasks are done after as many rounds as are left to do.
pub fn all_is_delivered()
    ensures { AllIsDelivered }
{}

/// While tasks keep coming, those that were there are done after three spans of rounds more for each that was added meanwhile.
pub fn each_is_delivered_meanwhile()
    ensures { EachIsDeliveredMeanwhile }
{}

/// Without homes: where each task has its stops at two cells at most, all tasks are done after two spans of rounds for each agent and
/// each open task, and the steps that are left of the paths with which the run began.
pub fn all_is_delivered_within()
    ensures { AllIsDeliveredWithin }
{}

/// While tasks keep coming, those that were there are done after three spans of rounds more for each that was added meanwhile.
pub fn each_is_delivered_within()
    ensures { EachIsDeliveredWithin }
{}

/// Each round in which no request is refused for lack of a path brings down what is left to do, or all stands still as it
/// begins.
pub fn each_round_brings()
    ensures { EachRoundBrings }
{}

/// All stands still after as many such rounds as are left to do.
pub fn all_comes_to_rest()
    ensures { AllComesToRest }
{}

/// On a well-formed instance no request of a round is refused for lack of a path.
pub fn rounds_find_paths()
    ensures { RoundsFindPaths }
{}

/// Without homes, where all stands still, each task is done, or it is open and two agents are at two of its stops, neither at its last.
pub fn only_held_tasks_stand()
    ensures { OnlyHeldTasksStand }
{}

/// Where none can stand for good, all stands still only when all tasks are done.
pub fn still_is_done()
    ensures { StillIsDone }
{}

/// Without homes, what is left to do is at most two spans for each agent and each open task, and the steps that are left of the
/// paths with which the run began.
pub fn left_is_bounded()
    ensures { LeftIsBounded }
{}

/// No agent has then more steps left than those, and a pass over the map for each agent and each stop of a task.
pub fn horizon_is_bounded()
    ensures { HorizonIsBounded }
{}

/// Of the paths with which a run from an opening state began nothing is left.
pub fn openings_stand()
    ensures { OpeningsStand }
{}

/// No step raises what is left to do, but for three spans at most where it adds a task.
pub fn only_tasks_add()
    ensures { OnlyTasksAdd }
{}

/// On a well-formed instance rounds can always be had.
pub fn rounds_can_be_had()
    ensures { RoundsCanBeHad }
{}

/// A due agent stays due until it asks, or the warehouse is closed.
pub fn due_until_asked()
    ensures { DueUntilAsked }
{}

/// Tasks of two stops have them at two cells at most.
pub fn two_stops_are_two_places()
    ensures { TwoStopsAreTwoPlaces }
{}
