//! A watch over a running warehouse: its board is shown again each time it has changed.
#![tactic(auto)]

ghost use Rattle.std.specs.Prelude.{◌≡◌, length};
ghost use Rattle.wh_board.specs.Pasts.{Extends};
ghost use Rattle.wh_display.specs.Screens.{Watches};

use crate::screen::{Screen, ShowFault, refresh};
use std::alloc::Global;
use std::sync::{Condvar, Mutex, Wait};
use std::time::{Clock, Duration};
use wh_board::Viewer;

/// It ends a watch: it wakes those that rest, and those that rest later find it rung.
#[derive(Drop)]
pub struct Bell {
    is_rung: Mutex<bool>,
    rung: Condvar,
}

impl Bell {
    /// A bell that nobody has rung.
    pub fn new() -> Bell {
        Bell {
            is_rung: Mutex::new(false),
            rung: Condvar::new(),
        }
    }

    /// Rings it, for good.
    pub fn ring<R: Wait>(&self, rt: &R) {
        *self.is_rung.lock(rt) = true;
        self.rung.notify_all();
    }

    /// Rests so long, or until it is rung. Whether it was rung.
    pub fn rest<R: Wait + Clock>(&self, rt: &R, pause: Duration) -> bool {
        let resting = self.is_rung.lock(rt);
        let (woken, _) = self
            .rung
            .wait_timeout_while(rt, resting, pause, |is_rung| !*is_rung);
        *woken
    }
}

/// How a watch ended.
#[derive(Clone, Copy, Debug, PartialEq, Eq)]
pub struct Watched {
    /// How many entries the board has that was shown last.
    pub shown: u64,
    /// Whether that is the board of the last look, or why this one is not shown.
    pub last: Result<(), ShowFault>,
}

/// Rests and looks at the board, again and again, and shows it each time that it has more entries than the one shown
/// last, which had that many entries before. Once the bell is rung it looks a last time. A screen that fails stops nothing: the next look
/// tries again. It waits for the bell alone, and holds no caller of the desk up.
pub fn watch<S: Screen, R: Wait + Clock>(
    rt: &R,
    alloc: Global,
    viewer: &mut Viewer,
    screen: &mut S,
    shown: u64,
    bell: &Bell,
    pause: Duration,
) -> Watched
    requires { shown ≡ length viewer.old.past.history }
    ensures shows { Watches viewer.old.past viewer.new.past result (S.shown screen.old) (S.shown screen.new) }
    ensures later { Extends viewer.old.past viewer.new.past }
    ensures book { viewer.new.book ≡ viewer.old.book }
{
    let mut shown = shown;
    for _ in rt.forever() {
        let is_last = bell.rest(rt, pause);
        match refresh(alloc, viewer, screen, Some(shown)) {
            Ok(entries) => {
                shown = entries;
                if is_last {
                    return Watched {
                        shown,
                        last: Ok(()),
                    };
                }
            }
            Err(fault) => {
                if is_last {
                    return Watched {
                        shown,
                        last: Err(fault),
                    };
                }
            }
        }
    }
    unreachable!()
}
