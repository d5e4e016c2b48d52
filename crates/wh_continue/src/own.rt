//! Which runs the program can go on with: those whose planners it can make.
#![tactic(auto)]

ghost use Rattle.std.specs.Prelude.{◌≡◌, true, false, IfNone, IfSome};
ghost use Rattle.wh_continue.specs.Starting.{HasOwnSlots, AllOwn, IsFirstOther};

use wh_event::{Entry, Reply};

/// Whether a reply tells of no planner, or of one with 2 to 64 slots.
fn is_own(reply: &Reply) -> bool
    ensures own { result ≡ true → HasOwnSlots reply.now }
    ensures other { result ≡ false → HasOwnSlots reply.now → ⊥ }
{
    match reply {
        Reply::Replaced { slots } => (2..=64).contains(slots),
        _ => true,
    }
}

/// The place of the first entry that tells of a planner with another number of slots.
pub(crate) fn first_other(history: &[Entry]) -> Option<usize>
    ensures none { IfNone result (AllOwn history.now) }
    ensures first { IfSome result (IsFirstOther history.now) }
{
    for (place, entry) in history.iter().enumerate() {
        if !is_own(&entry.reply) {
            return Some(place);
        }
    }
    None
}
