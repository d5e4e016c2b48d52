//! Laws of states that are told part by part. The functions do nothing: their contracts are the laws.
#![tactic(auto)]

ghost use Rattle.wh_stand.specs.Flawless.{PartsTellTheState};
ghost use Rattle.wh_stand.specs.Whole.{TakenIsSound};

/// All parts are taken exactly if they make a sound state.
pub fn taken_is_sound()
    ensures { TakenIsSound }
{}

/// A sound state is the one that its parts make.
pub fn parts_tell_the_state()
    ensures { PartsTellTheState }
{}
