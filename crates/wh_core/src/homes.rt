//! Laws of paths that go on home. Each function's contract is the law.

ghost use Rattle.wh_core.specs.Homes.{EachComesHome, EachOpenTaskIsEligible, NoneMakesWay, OnlyTheIdleRest, OneRuleAlone};

/// Once all are on their ways, each agent's path ends at its home.
pub fn each_comes_home()
    ensures { EachComesHome }
{}

/// No station is then held: each open task may be taken by each agent.
pub fn each_open_task_is_eligible()
    ensures { EachOpenTaskIsEligible }
{}

/// Nobody has to make way.
pub fn none_makes_way()
    ensures { NoneMakesWay }
{}

/// An agent is told to rest only if no task is open.
pub fn only_the_idle_rest()
    ensures { OnlyTheIdleRest }
{}

/// The path of a task that is taken tells whether paths go on home.
pub fn one_rule_alone()
    ensures { OneRuleAlone }
{}
