//! A law on what is recovered. The function does nothing, and its contract is the law.

ghost use Rattle.wh_resume.specs.Resuming.{FrontsAreResumed};

/// What stands before a bad line can be gone on from.
pub fn fronts_are_resumed()
    ensures { FrontsAreResumed }
{}
