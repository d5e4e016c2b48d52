//! A file beside a log, which holds a text on which the log's run stands: it is written before the log is begun, and is
//! compared at each start.
#![tactic(auto)]

ghost use Rattle.std.specs.Prelude.{◌≡◌, ◌≢◌, true, false, IfOk, IfErr, IfSome, IfNone, OnOk, OnErr};
ghost use Rattle.wh_resume.specs.Resuming.{IsFront};
ghost use Rattle.wh_continue.specs.Running.{LeavesFront, Opens};
ghost use Rattle.wh_continue.specs.Besides.{HoldsWithin, IsPartOf, IsWhyNotBeside, StandsBeside};

use crate::running::{KeepFault, cut_behind, write_alone};
use std::alloc::Global;
use wh_journal::LogFile;
use wh_log::{Source, SourceFault};

/// How much of its text a file beside a log holds.
#[derive(Clone, Copy, Debug, PartialEq, Eq)]
pub enum Beside {
    /// All of it.
    Whole,
    /// A beginning of it, or nothing: it was not made, or not written to its end.
    Begun,
}

/// Why a file does not stand beside a log.
#[derive(Clone, Copy, Debug, PartialEq, Eq)]
pub enum BesideFault {
    /// It holds another text.
    Other,
    /// It cannot be read, is no file of bytes, or another has it.
    Unread,
    /// Out of memory.
    NoMemory,
}

/// Whether bytes are a beginning of a text.
fn is_front(held: &[u8], text: &[u8]) -> bool
    ensures front { result ≡ true → IsFront held.now text.now }
    ensures other { result ≡ false → IsFront held.now text.now → ⊥ }
{
    text.starts_with(held)
}

/// How much of a text these bytes are; none where they are no beginning of it.
fn part_of(held: &[u8], text: &[u8]) -> Option<Beside>
    ensures some { IfSome result (λ beside. IsPartOf beside held.now text.now) }
    ensures none { IfNone result (IsFront held.now text.now → ⊥) }
{
    if !is_front(held, text) {
        return None;
    }
    if held.len() < text.len() {
        Some(Beside::Begun)
    } else {
        Some(Beside::Whole)
    }
}

/// Reads a file to its end, or until it was found to hold more than this many bytes: of a file that is far too long no more is read than
/// tells so. Nothing changes.
fn read_within<S: Source>(alloc: Global, file: &mut S, most: usize) -> Result<Vec<u8>, BesideFault>
    ensures ok { IfOk result (λ held. HoldsWithin (S.held file.old) most held.items) }
    ensures fault { IfErr result (λ fault. fault ≢ BesideFault.Other) }
    ensures same { S.held file.new ≡ S.held file.old }
{
    let mut held = Vec::new(alloc);
    for _ in 0..u64::MAX {
        let place = held.len();
        match file.add_piece(place, &mut held) {
            Ok(()) => {}
            Err(SourceFault::Unread) => return Err(BesideFault::Unread),
            Err(SourceFault::NoMemory) => return Err(BesideFault::NoMemory),
        }
        if held.len() == place || held.len() > most {
            return Ok(held);
        }
    }
    Err(BesideFault::Unread)
}

/// Finds out how much of this text a file holds. Nothing changes.
pub fn look_beside<L: LogFile>(
    alloc: Global,
    file: &mut L,
    text: &[u8],
) -> Result<Beside, BesideFault>
    ensures ok { IfOk result (StandsBeside (L.contents file.old) text.now) }
    ensures fault { IfErr result (IsWhyNotBeside (L.contents file.old) text.now) }
    ensures same { L.contents file.new ≡ L.contents file.old }
{
    let held = match read_within(alloc, file, text.len()) {
        Ok(held) => held,
        Err(fault) => return Err(fault),
    };
    match part_of(held.as_slice(), text) {
        Some(beside) => Ok(beside),
        None => Err(BesideFault::Other),
    }
}

/// Makes a file hold the text and nothing else, and syncs it. One that holds all of it is synced too, since its writer may
/// not have done so.
pub fn keep_beside<L: LogFile>(file: &mut L, text: &[u8], beside: Beside) -> Result<(), KeepFault>
    requires stands { StandsBeside (L.contents file.old) text.now beside }
    ensures ok { OnOk result (Opens (L.contents file.old) (L.contents file.new) text.now) }
    ensures synced { OnOk result (L.synced file.new ≡ L.contents file.new) }
    ensures fault { IfErr result (λ fault. fault ≡ KeepFault.Unkept) }
    ensures left { OnErr result (LeavesFront (L.contents file.old) (L.contents file.new) text.now) }
    ensures failed { OnErr result (L.failed file.new ≡ true) }
{
    match beside {
        Beside::Whole => cut_behind(file, text.len()),
        Beside::Begun => write_alone(file, text),
    }
}
