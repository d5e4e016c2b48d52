//! A field with the level to which it is filled.
#![tactic(auto)]

ghost use Rattle.std.specs.Prelude.{◌≤◌};

use wh_field::GrowingField;

/// A field, and a level to which it is filled.
#[derive(Drop)]
pub struct Filled {
    pub field: GrowingField,
    pub level: u32,
    pub ghost filled: { level ≤ field.level },
}
