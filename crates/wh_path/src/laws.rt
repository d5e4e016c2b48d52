//! Laws of paths that are free of each other. The functions do nothing: their contracts are the laws.
#![tactic(auto)]

ghost use Rattle.wh_path.specs.Laws.{FreedomIsMutual, FreedomLasts, FreedomNeedsNoRule};

/// Being free is mutual.
pub fn freedom_is_mutual()
    ensures { FreedomIsMutual }
{}

/// Two free paths stay free when both go on by one step.
pub fn freedom_lasts()
    ensures { FreedomLasts }
{}

/// What is free under the rule against following is free without it.
pub fn freedom_needs_no_rule()
    ensures { FreedomNeedsNoRule }
{}
