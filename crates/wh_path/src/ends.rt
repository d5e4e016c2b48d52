//! The time from which paths rest.
#![tactic(auto)]

ghost use Rattle.std.specs.Prelude.{◌≡◌, ℕ, ◌+◌, ◌<◌, ◌^◌, length};
ghost use Rattle.wh_path.specs.Paths.{others, horizon};

use crate::path::TimedPath;

/// The greatest last index, 0 where there is no path.
fn greatest_end(paths: &[TimedPath]) -> u64
    ensures value { result ≡ horizon paths.now }
    ensures bound { result < 2 ^ 61 }
{
    let mut most: u64 = 0;
    for q in paths {
        most = most.max(q.remaining());
    }
    most
}

/// The time from which all agents but one rest.
pub fn last_to_rest(paths: &[TimedPath], agent: usize) -> u64
    requires { agent < length paths.now }
    ensures value { result ≡ horizon (others paths.now agent) }
    ensures bound { result < 2 ^ 61 }
{
    greatest_end(&paths[..agent]).max(greatest_end(&paths[agent + 1..]))
}
