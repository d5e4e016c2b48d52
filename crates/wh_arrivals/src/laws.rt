//! What readings of a file of arrivals, and refusals to bring vehicles, stand for. Each function is a law: it does nothing, and
//! its contract is the law.

ghost use Rattle.wh_arrivals.specs.Arrivals.{OneReading};
ghost use Rattle.wh_arrivals.specs.Standing.{TooEarlyIsNever};

/// A file of arrivals tells one list of steps, or has a bad line.
pub fn one_reading()
    ensures { OneReading }
{}

/// Where an agent comes too early, no vehicles stand at the steps.
pub fn too_early_is_never()
    ensures { TooEarlyIsNever }
{}
