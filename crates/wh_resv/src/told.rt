//! The stays that reservations ask.
#![tactic(auto)]

ghost use Rattle.std.specs.Prelude.{◌≡◌};
ghost use Rattle.wh_resv.specs.Telling.{noted_of};

use wh_timetable::Stays;

/// The stays of a timetable, or stays of one's own.
#[derive(Drop)]
pub enum Told<'a> {
    Kept(&'a Stays),
    Own(Stays),
}

impl<'a> Told<'a> {
    /// The stays.
    pub fn stays(&self) -> &Stays
        ensures { result.now ≡ noted_of self.now }
    {
        match self {
            Told::Kept(stays) => stays,
            Told::Own(stays) => stays,
        }
    }
}
