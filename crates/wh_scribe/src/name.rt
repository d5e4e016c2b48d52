//! Which journal it is.
#![tactic(auto)]

use std::marker::Brand;

/// Which journal it is: what it told that it held at its start. It has no calls: the code that puts a journal behind a desk
/// picks the name, with `Brand`, and code that uses it is generic over it.
pub trait JournalName {
    ghost use Rattle.std.specs.Prelude.{ℕ, List, Option};

    ghost start: { Option (List ℕ) };
}

impl JournalName for Brand {
    ghost use Rattle.std.specs.Prelude.{None};

    ghost start = { None };
}
