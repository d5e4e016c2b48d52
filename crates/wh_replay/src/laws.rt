//! A law on the clocks of a history. The function does nothing, and its contract is the law.

ghost use Rattle.wh_replay.specs.Clocks.{ClocksAreTold};

/// What the entries of a history tell of its clocks. No function calls this.
pub fn clocks_are()
    // The clock that a reply is told with is the warehouse's when its event came.
    ensures { ClocksAreTold }
{}
