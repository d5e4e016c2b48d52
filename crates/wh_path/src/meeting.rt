//! The first conflict of two paths, as Stern et al. (SoCS 2019) name them.
#![tactic(auto)]

ghost use Rattle.std.specs.Prelude.{◌≡◌, ℕ, ◌+◌, ◌<◌, ◌^◌, ◌↔◌, IsTrue, IfNone, IfSome};
ghost use Rattle.wh_path.specs.Paths.{IsFree, MeetAt, SwapAt, FollowAt};
ghost use Rattle.wh_path.specs.Conflicts.{IsFirstConflict};

use crate::kind::Conflict;
use crate::path::TimedPath;

fn meet_at(p: &TimedPath, q: &TimedPath, k: u64) -> bool
    ensures { IsTrue result ↔ MeetAt p.now q.now k }
{
    p.at(k).is(q.at(k))
}

fn swap_at(p: &TimedPath, q: &TimedPath, k: u64) -> bool
    requires { k + 1 < 2 ^ 64 }
    ensures { IsTrue result ↔ SwapAt p.now q.now k }
{
    p.at(k).is(q.at(k + 1)) && p.at(k + 1).is(q.at(k))
}

fn follow_at(p: &TimedPath, q: &TimedPath, k: u64) -> bool
    requires { k + 1 < 2 ^ 64 }
    ensures { IsTrue result ↔ FollowAt p.now q.now k }
{
    p.at(k + 1).is(q.at(k)) || q.at(k + 1).is(p.at(k))
}

/// The first conflict of two paths, over all times.
pub fn conflict(p: &TimedPath, q: &TimedPath, nofollow: bool) -> Option<Conflict>
    ensures free { IfNone result (IsFree nofollow p.now q.now) }
    ensures first { IfSome result (IsFirstConflict nofollow p.now q.now) }
{
    for k in 0..p.remaining().max(q.remaining()) + 1 {
        if meet_at(p, q, k) {
            return Some(Conflict::Vertex { k });
        }
        if swap_at(p, q, k) {
            return Some(Conflict::Swap { k });
        }
        if nofollow && follow_at(p, q, k) {
            return Some(Conflict::Follow { k });
        }
    }
    None
}
