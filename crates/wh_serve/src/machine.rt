//! A client as a machine of the one loop: what its last line was answered waits in it.

ghost use Rattle.std.specs.Prelude.{◌≡◌, [], ℕ, List, length, true, false};
ghost use Rattle.wh_replay.specs.Answers.{text_of};
ghost use Rattle.wh_session.specs.Machines.{nothing};
ghost use Rattle.wh_serve.specs.Tellings.{texts};
ghost use Rattle.wh_serve.specs.Machines.{Standing, standing, ServesSo, HaltsSo};

use crate::allowance::Allowance;
use crate::beginning::begins_at;
use crate::doors::{Connection, Doors, Tag};
use crate::said::asks_stop;
use crate::told::{Told, answer, count_of, full_of, is_last, pass_on};
use std::alloc::Global;
use std::io::{Read, Write};
use std::marker::PhantomData;
use std::sync::Wait;
use wh_desk::{Desk, DeskName, Pass};
use wh_journal::Journal;
use wh_lines::{CommandLine, WriteFault};
use wh_log::Form;
use wh_planner::Plans;
use wh_scribe::{JournalName, Scribe};
use wh_session::{Halt, KeepFault, Keeper, Machine};

/// A client over one connection: the desk and the scribe that it calls, its pass and its spares, what it may do, the doors and its
/// number, the connection's tag and whether it has begun, how many replies there were, and a room for what its last line is answered.
#[derive(Drop)]
pub(crate) struct Caller<
    'a,
    N: DeskName,
    S: JournalName,
    J: Journal + Drop,
    H: Wait + Drop,
    P: Plans,
    X: Wait,
    R: Read,
    W: Write,
    D: Doors<R, W>,
> {
    pub rt: &'a X,
    pub alloc: Global,
    pub form: Form,
    pub may: Allowance,
    pub desk: &'a Desk<N, H, P>,
    pub scribe: &'a Scribe<N, S, J>,
    pub pass: &'a mut Pass<N>,
    pub spares: &'a mut Vec<P>,
    pub doors: &'a D,
    pub number: u32,
    pub tag: Tag,
    pub begun: bool,
    pub told: &'a mut Told,
    pub replies: u64,
    pub over: PhantomData<Connection<R, W>>,
}

impl<
    'a,
    N: DeskName,
    S: JournalName,
    J: Journal + Drop,
    H: Wait + Drop,
    P: Plans,
    X: Wait,
    R: Read,
    W: Write,
    D: Doors<R, W>,
> Machine for Caller<'a, N, S, J, H, P, X, R, W, D> {
    ghost State = { Standing P };

    ghost stands = { λ m s. standing m.pass.ghost_name m.spares.ghost_name m.pass.now m.spares.now.items m.may m.form m.tag m.begun m.replies ≡ s };

    ghost says = { λ m s. text_of (texts m.form m.told.now) };

    ghost logs = { λ m s. nothing };

    ghost has_room = { λ m. texts m.form m.told.now ≡ [] };

    ghost serves = { λ s line told kept e. ServesSo (length N.cells) P.fits_map P.slot_count N.origin line told s e };

    ghost halts = { λ s line halt e. HaltsSo (length N.cells) P.fits_map P.slot_count N.origin line halt s e };

    ghost may_starve = { false };

    ghost may_end = { true };

    ghost serves_last = { false };

    fn serves_last(&self) -> bool {
        false
    }

    fn is_over(&self) -> bool {
        self.doors.is_over()
    }

    fn is_full(&self) -> bool {
        match self.told {
            Told::Nothing => false,
            _ => true,
        }
    }

    fn clear(&mut self) {
        *self.told = Told::Nothing;
    }

    /// A line before the connection has begun is dropped, and `begin TAG` begins it. Where a command was not carried out since
    /// something is full, the operator is told, before the client is.
    fn serve(&mut self, line: &CommandLine) -> Result<(), Halt> {
        if !self.begun {
            self.begun = begins_at(self.tag, line);
            if self.begun {
                self.doors.begins(self.number);
            } else if !line.bytes().is_empty() {
                self.doors.is_dropped(self.number);
            }
            return Ok(());
        }
        if self.may.rights.stop && asks_stop(line) {
            // from here on nobody is served a further line: what is synced before the reply is all but what is served now
            self.doors.end();
        }
        match answer(
            self.rt,
            self.alloc,
            self.form,
            self.may,
            line,
            self.desk,
            self.scribe,
            self.pass,
            self.spares,
        ) {
            Ok(told) => {
                if let Some(what) = full_of(&told) {
                    self.doors.is_full(self.number, what);
                }
                self.replies = self.replies.saturating_add(count_of(&told));
                *self.told = told;
                Ok(())
            }
            Err(_) => Err(Halt::Failed),
        }
    }

    fn serve_front(&mut self, _waiting: &[u8]) -> Option<usize> {
        None
    }

    fn keep<K: Keeper>(&self, _keeper: &mut K) -> Result<(), KeepFault> {
        Ok(())
    }

    /// Where the client was told that the warehouse is closed, or the service stopped, the service ends, once that was flushed.
    fn tell<V: Write>(&self, writer: &mut V) -> Result<(), WriteFault> {
        let written = pass_on(self.form, writer, self.told);
        if is_last(self.told) {
            self.doors.end();
        }
        written
    }
}
