//! A script's warehouse as a machine of the one loop.

ghost use Rattle.std.specs.Prelude.{◌≡◌, ◌≤◌, ℕ, List, Option, drop, length, true, false, OnOk, OnErr};
ghost use Rattle.wh_log.specs.Told.{told_text};
ghost use Rattle.wh_replay.specs.Machines.{Scripted, StandsSo, ServesScript, told_of, kept_of};

use crate::answering::{answer_line, run};
use crate::appending::keep_entries;
use crate::asker::Asker;
use crate::replying::tell_answers;
use crate::waiting::{Answers, note};
use std::alloc::Global;
use std::io::Write;
use wh_event::{Command, Entry, read_front_into};
use wh_lines::{CommandLine, WriteFault};
use wh_planner::Plans;
use wh_session::{Halt, KeepFault, Keeper, Machine};
use wh_token::Warehouse;

/// A warehouse with its spare planners, and what lines were answered since the last round: the entries from the first on, which
/// found the clock so.
#[derive(Drop)]
pub struct Script<'a, P: Plans, A: Answers> {
    pub warehouse: &'a mut Warehouse<P>,
    pub spares: &'a mut Vec<P>,
    /// A room for what a line asks.
    pub command: &'a mut Command,
    pub alloc: Global,
    pub asker: Asker,
    /// So many entries the history may have.
    pub most: usize,
    pub replies: u64,
    pub first: usize,
    pub clock: u32,
    pub answers: A,
}

/// The entries from this place on.
fn behind(history: &[Entry], first: usize) -> &[Entry]
    requires { first ≤ length history.now }
    ensures { result.now ≡ drop first history.now }
{
    &history[first..]
}

impl<'a, P: Plans, A: Answers> Machine for Script<'a, P, A> {
    ghost State = { Scripted P };

    ghost stands = { λ m s. StandsSo m.warehouse.ghost_name m.spares.ghost_name m.warehouse.now.book m.spares.now.items m.asker m.most m.replies m.first m.clock (A.waiting m.answers) s };

    ghost says = { λ m s. told_of (told_text m.asker.form) m.first m.clock m.warehouse.now.book (A.waiting m.answers) };

    ghost logs = { λ m s. kept_of m.first m.warehouse.now.book };

    ghost has_room = { λ m. A.has_room m.answers };

    ghost serves = { λ s line told kept e. ServesScript P.fits_map P.slot_count s line told kept e };

    ghost halts = { λ s line halt e. ⊥ };

    ghost may_starve = { false };

    ghost serves_last = { A.serves_last };

    #[inline(always)]
    fn serves_last(&self) -> bool {
        self.answers.serves_last()
    }

    #[inline(always)]
    fn is_over(&self) -> bool {
        false
    }

    #[inline(always)]
    fn is_full(&self) -> bool {
        self.answers.is_full()
    }

    #[inline(always)]
    fn clear(&mut self) {
        self.first = self.warehouse.history().len();
        self.clock = self.warehouse.clock();
        self.answers.clear();
    }

    fn serve(&mut self, line: &CommandLine) -> Result<(), Halt> {
        let answer = answer_line(
            line,
            self.command,
            self.alloc,
            self.asker.caller,
            self.most,
            self.warehouse,
            self.spares,
        );
        self.replies = note(&mut self.answers, self.replies, answer);
        Ok(())
    }

    #[inline(always)]
    fn serve_front(&mut self, waiting: &[u8]) -> Option<usize> {
        match read_front_into(waiting, self.command) {
            Some(count) => {
                let answer = run(
                    self.command,
                    self.alloc,
                    self.asker.caller,
                    self.most,
                    self.warehouse,
                    self.spares,
                );
                self.replies = note(&mut self.answers, self.replies, Some(answer));
                Some(count)
            }
            None => None,
        }
    }

    #[inline(always)]
    fn keep<K: Keeper>(&self, keeper: &mut K) -> Result<(), KeepFault> {
        if !keeper.takes_records() {
            return Ok(());
        }
        keep_entries(keeper, behind(self.warehouse.history(), self.first))
    }

    #[inline(always)]
    fn tell<W: Write>(&self, writer: &mut W) -> Result<(), WriteFault> {
        tell_answers(
            self.asker.form,
            writer,
            self.answers.as_slice(),
            self.warehouse.history(),
            self.first,
            self.clock,
        )
    }
}
