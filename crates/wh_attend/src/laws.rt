//! A law that operators lean on. The function does nothing, and its contract is the law.

ghost use Rattle.wh_attend.specs.Shares.{SharesFit};

/// Shares that nobody named fit the journal.
pub fn shares_fit()
    ensures { SharesFit }
{}
