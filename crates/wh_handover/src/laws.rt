//! Laws of chains of logs. Each function does nothing, and its contract is the law.

ghost use Rattle.wh_handover.specs.Chains.{StoppedJoinsKeepTasks, WholeJoinsAreOneRun};

/// Where a log begins with the very state to which the one before has led, their entries are one run.
pub fn whole_joins_are_one_run()
    ensures { WholeJoinsAreOneRun }
{}

/// Where vehicles were stopped in between, the next log begins with each task as it was, but with the first so many of its visits.
pub fn stopped_joins_keep_tasks()
    ensures { StoppedJoinsKeepTasks }
{}
