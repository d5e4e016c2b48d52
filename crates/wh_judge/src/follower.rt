//! The judge of steps as one that is told a log.
#![tactic(auto)]

ghost use Rattle.std.specs.Prelude.{◌≡◌, ◌≤◌, IfOk, length};
ghost use Rattle.wh_core.specs.States.{opened};
ghost use Rattle.wh_core.specs.Steps.{last_clock};
ghost use Rattle.wh_judge.specs.Following.{Opens, Steps, one_opening, one_step};

use crate::instance::Instance;
use crate::judge::Judge;
use std::alloc::Global;
use std::marker::Model;
use wh_core::LAST_CLOCK;
use wh_event::Entry;
use wh_log::NoMemory;

/// Tells which entries of a log are steps. Before the log opens it stands at some opening.
#[derive(Drop)]
pub struct Follower<'a> {
    judge: Judge<'a>,
}

impl<'a> Model for Follower<'a> {
    ghost use Rattle.wh_judge.specs.Judged.{Judged};

    ghost Value = { Judged };

    ghost view = { λ f. f.judge };
}

impl<'a> Follower<'a> {
    /// A follower over the instance.
    pub fn new(alloc: Global, instance: Instance<'a>) -> Result<Follower<'a>, NoMemory>
        ensures { IfOk result (λ follower. follower.site ≡ instance.entry) }
    {
        let slots = vec![in alloc; 2; instance.agents()]?;
        let judge = Judge::open(alloc, instance, 0, slots)?;
        Ok(Follower { judge })
    }
}

impl<'a> wh_log::Judge for Follower<'a> {
    ghost opens = { Opens };

    ghost steps = { Steps };

    fn open(&mut self, alloc: Global, clock: u32, slots: Vec<u32>) -> Result<bool, NoMemory> {
        if clock > LAST_CLOCK || slots.len() != self.judge.agents() {
            return Ok(false);
        }
        self.judge.reopen(alloc, clock, slots)?;
        Ok(true)
    }

    fn step(&mut self, alloc: Global, entry: Entry) -> Result<bool, NoMemory> {
        let _agents = self.judge.agents();
        let is_step = self.judge.step(alloc, entry)?;
        Ok(is_step)
    }

    ghost one_opening = { one_opening };

    ghost one_step = { one_step };
}
