//! By which rules a run goes, and what kind of state a front tells.

ghost use Rattle.std.specs.Prelude.{◌≡◌, false, None};
ghost use Rattle.wh_front.specs.Ranges.{are_told};

/// The rules of a run.
#[derive(Clone, Copy, Debug, PartialEq, Eq)]
pub struct Rules {
    /// Whether paths end at homes; by default they end at stops.
    pub homes: bool,
    /// How many ticks a class of waiting orders spans, 1 to 1,000,000,000; by default the age of an order does not count.
    pub age: Option<u32>,
}

/// Where the state of a front comes from.
#[derive(Clone, Copy, Debug, PartialEq, Eq)]
pub enum Kind {
    /// It is the state to which the log before led.
    Whole,
    /// It is that state, stopped where the vehicles stood.
    Stopped,
    /// It is any other state.
    Edited,
}

impl Rules {
    /// The defaults: paths end at stops, and the age of an order does not count.
    pub fn usual() -> Rules
        ensures { result ≡ record { homes = false; age = None } }
    {
        Rules {
            homes: false,
            age: None,
        }
    }

    /// Whether one of them is not the default.
    pub fn are_told(&self) -> bool
        ensures { result ≡ are_told self.now.homes self.now.age }
    {
        self.homes || self.age.is_some()
    }
}
