//! Reads a front.

ghost use Rattle.std.specs.Prelude.{◌≡◌, ◌++◌, ◌∷◌, [], ◌+◌, ℕ, List, true, false, IfOk, OnErr, Err, MatchResult};
ghost use Rattle.wh_front.specs.declared.front.Front.{Front as Told};
ghost use Rattle.wh_front.specs.Fronts.{Fits, front_text};
ghost use Rattle.wh_front.specs.FirstBad.{IsFirstBad, IsNext, IsNoNext};
ghost use Rattle.wh_front.specs.Drafts as drafts;
ghost use Rattle.wh_front.specs.Places as places;
ghost use Rattle.wh_front.specs.Places.{IsMiscount};
ghost use Rattle.wh_front.specs.declared.reader.FrontFault.TheVariants.{NoMemory};

use crate::form_fault::FormFault;
use crate::front::Front;
use crate::line::Line;
use crate::one_line::read_line;
use crate::place::{Place, miscounts};
use crate::stage::{Stage, expects, is_done};
use std::alloc::{AllocError, Global};
use std::marker::Model;
use thiserror::Error;
use wh_words::whole_line;

/// A front, and what follows it.
#[derive(Drop)]
pub struct Read<'a> {
    /// What the front tells.
    pub front: Front,
    /// The bytes behind the line `begin`.
    pub rest: &'a [u8],
}

/// Why no front was read.
#[derive(Clone, Copy, Debug, PartialEq, Eq, Error)]
pub enum FrontFault {
    /// The number of the first line, from 1, with which no front goes on.
    #[error("no front at line {line}")]
    At { line: u64 },
    /// Memory ran out (E90).
    #[error("memory ran out")]
    NoMemory,
}

impl From<AllocError> for FrontFault {
    ghost from_gives = { λ _ e. e ≡ NoMemory };

    fn from(_e: AllocError) -> FrontFault {
        FrontFault::NoMemory
    }
}

/// Why a front does not go on with what stands next.
#[derive(Clone, Copy, Debug, PartialEq, Eq)]
pub enum NextFault {
    /// It is in no front, or not here.
    Form,
    /// There are fewer or more agents or tasks than were told.
    Count,
    /// Memory ran out (E90).
    NoMemory,
}

impl From<FormFault> for NextFault {
    ghost from_gives = { λ fault e. e ≡ places.fault_of fault };

    fn from(fault: FormFault) -> NextFault {
        match fault {
            FormFault::Form => NextFault::Form,
            FormFault::NoMemory => NextFault::NoMemory,
        }
    }
}

/// The next line, where it is one that may come next, and what follows it.
fn next_line<'a>(alloc: Global, stage: Stage, text: &'a [u8]) -> Result<(Line, &'a [u8]), NextFault>
    ensures found { IfOk result (λ next. IsNext stage text.now next.0 next.1.now) }
    ensures form { result ≡ Err NextFault.Form → IsNoNext stage text.now × ¬ IsMiscount stage text.now }
    ensures count { result ≡ Err NextFault.Count → IsNoNext stage text.now × IsMiscount stage text.now }
{
    let Some((line, rest)) = whole_line(text) else {
        return Err(NextFault::Form);
    };
    let told = read_line(alloc, line)?;
    if expects(stage, &told) {
        return Ok((told, rest));
    }
    if miscounts(stage, &told) {
        return Err(NextFault::Count);
    }
    Err(NextFault::Form)
}

/// Reads the lines of a front, one after the other.
#[derive(Drop)]
pub struct FrontReader<'a> {
    rest: &'a [u8],
    number: u64,
    place: Place,
}

impl<'a> Model for FrontReader<'a> {
    ghost use Rattle.std.specs.Prelude.{◌+◌, ◌<◌, ◌^◌, length};
    ghost use Rattle.wh_front.specs.Places.{Reach};

    ghost Value = { Reach };

    ghost view = { λ r. record { rest = r.rest.now; number = r.number; place = r.place } };

    // Each line has a byte at least.
    ghost invariant = { λ r. r.number + length r.rest.now < 2 ^ 64 };
}

impl<'a> FrontReader<'a> {
    /// Before the first line of a text.
    pub fn begin(text: &'a [u8]) -> FrontReader<'a>
        ensures { result ≡ record { rest = text.now; number = 1; place = places.start } }
    {
        FrontReader {
            rest: text,
            number: 1,
            place: Place::start(),
        }
    }

    /// Whether the front has ended.
    pub fn is_done(&self) -> bool
        ensures { result ≡ drafts.is_done self.now.place.stage }
    {
        is_done(self.place.stage)
    }

    /// The number of the line that comes next, from 1.
    pub fn number(&self) -> u64
        ensures { result ≡ self.now.number }
    {
        self.number
    }

    /// What was not read yet.
    pub fn rest(&self) -> &'a [u8]
        ensures { result.now ≡ self.now.rest }
    {
        self.rest
    }

    /// The next line.
    ///
    /// Errors: `Count` where the line has its form and is no line that may come next, since agents or tasks are fewer or
    /// more than were told; `Form` where there is none else that may come next, also where it is not whole; `NoMemory` (E90). Nothing
    /// changes then.
    pub fn next_line(&mut self, alloc: Global) -> Result<Line, NextFault>
        ensures next { IfOk result (λ line. IsNext self.old.place.stage self.old.rest line self.new.rest) }
        ensures goes { IfOk result (λ line. self.new ≡ record { rest = self.new.rest; number = self.old.number + 1; place = places.behind self.old.place line }) }
        ensures kept { OnErr result (self.new ≡ self.old) }
        ensures form { result ≡ Err NextFault.Form → IsNoNext self.old.place.stage self.old.rest × ¬ IsMiscount self.old.place.stage self.old.rest }
        ensures count { result ≡ Err NextFault.Count → IsNoNext self.old.place.stage self.old.rest × IsMiscount self.old.place.stage self.old.rest }
    {
        let (line, rest) = next_line(alloc, self.place.stage, self.rest)?;
        self.rest = rest;
        self.number += 1;
        self.place = self.place.behind(&line);
        Ok(line)
    }
}

/// What a reader that stands before a line says of the front.
fn fault_at(line: u64, fault: NextFault) -> FrontFault
    ensures { result ≡ places.fault_at line fault }
{
    match fault {
        NextFault::Form | NextFault::Count => FrontFault::At { line },
        NextFault::NoMemory => FrontFault::NoMemory,
    }
}

/// The front with which a text begins. What follows it is not looked at.
///
/// Errors: `At` where the text begins with no front, with the number of the first line with which none goes on, from 1,
/// also where it is not whole; `NoMemory` (E90).
pub fn read_front<'a>(alloc: Global, text: &'a [u8]) -> Result<Read<'a>, FrontFault>
    // What is read is written so, each byte of it.
    ensures found { IfOk result (λ read. Fits read.front × (text.now ≡ front_text read.front ++ read.rest.now)) }
    // What is written so is read, unless memory runs out.
    ensures only { (front : Told) (rest : List ℕ) → Fits front → text.now ≡ front_text front ++ rest → MatchResult result (λ read. (read.front ≡ front) × (read.rest.now ≡ rest)) (λ e. e ≡ FrontFault.NoMemory) }
    ensures line { (n : ℕ) → result ≡ Err (FrontFault.At n) → IsFirstBad text.now n }
{
    let mut front = Front::none(alloc);
    let mut reader = FrontReader::begin(text);
    while !reader.is_done() {
        match reader.next_line(alloc) {
            Ok(line) => front.take(line)?,
            Err(fault) => return Err(fault_at(reader.number(), fault)),
        }
    }
    Ok(Read {
        front,
        rest: reader.rest(),
    })
}
