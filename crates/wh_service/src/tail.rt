//! What follows the replies of a replay: nothing, the log of the run, or the rows of its ledger.

ghost use Rattle.std.specs.Prelude.{◌≡◌, ◌++◌, IfErr, IfOk, OnErr, OnOk};
ghost use Rattle.std.specs.Io.KnownBytes.{Appends};
ghost use Rattle.wh_replay.specs.Scripts.{WritesFront};
ghost use Rattle.wh_service.specs.Tails.{IsWhyNoTail, log_behind, separator, tail_behind, told_open};

use std::alloc::Global;
use std::io::Write;
use wh_continue::Preface;
use wh_deliver::open_text;
use wh_edge::Trouble;
use wh_event::Entry;
use wh_ledger::ledger_text;
use wh_log::{NoMemory, end_text, entries_text, log_text};
use wh_options::Tail;
use wh_planner::Planner;
use wh_replay::{Warehouse, WriteFault, write_all};

/// The line between the replies and what follows them.
fn separator(tail: Tail) -> &'static [u8]
    ensures { result.now ≡ separator tail }
{
    match tail {
        Tail::Nothing => b"",
        Tail::Log | Tail::Ledger => b"%%\n",
    }
}

/// The log of these entries behind a front. The error is want of memory.
fn log_behind(alloc: Global, preface: &Preface, history: &[Entry]) -> Result<Vec<u8>, NoMemory>
    ensures { IfOk result (λ text. text.items ≡ log_behind preface.now history.now) }
{
    let mut text = Vec::from_slice(alloc, preface.text.as_slice())?;
    let entries = entries_text(alloc, history)?;
    text.extend_from_slice(entries.as_slice())?;
    let end = end_text(alloc, history.len() as u64)?;
    text.extend_from_slice(end.as_slice())?;
    Ok(text)
}

/// The log of the warehouse's run. The error is want of memory.
fn whole_log<P: Planner>(
    alloc: Global,
    warehouse: &Warehouse<P>,
    preface: &Option<Preface>,
) -> Result<Vec<u8>, NoMemory>
    ensures { IfOk result (λ text. separator Tail.Log ++ text.items ≡ tail_behind preface.now Tail.Log warehouse.now.book.opening warehouse.now.book.history warehouse.now.book.state) }
{
    match preface {
        Some(preface) => log_behind(alloc, preface, warehouse.history()),
        None => {
            let clock = warehouse.start();
            log_text(alloc, clock, warehouse.first_slots(), warehouse.history())
        }
    }
}

/// The log of the warehouse's run, or the rows of its ledger. The error is want of memory.
fn text<P: Planner>(
    alloc: Global,
    warehouse: &Warehouse<P>,
    preface: &Option<Preface>,
    tail: Tail,
) -> Result<Vec<u8>, Trouble>
    ensures ok { IfOk result (λ text. separator tail ++ text.items ≡ tail_behind preface.now tail warehouse.now.book.opening warehouse.now.book.history warehouse.now.book.state) }
    ensures fault { IfErr result (λ told. told ≡ Trouble.NoMemory) }
{
    match tail {
        Tail::Nothing => Ok(Vec::new(alloc)),
        Tail::Log => match whole_log(alloc, warehouse, preface) {
            Ok(text) => Ok(text),
            Err(NoMemory) => Err(Trouble::NoMemory),
        },
        Tail::Ledger => {
            let ledger = warehouse.ledger(alloc)?;
            Ok(ledger_text(alloc, ledger.rows())?)
        }
    }
}

/// Writes a text behind a line, or a front of both.
fn write_both<W: Write>(output: &mut W, line: &[u8], text: &[u8]) -> Result<(), WriteFault>
    ensures ok { OnOk result (Appends (W.contents output.old) (W.contents output.new) (line.now ++ text.now)) }
    ensures err { OnErr result (WritesFront (W.contents output.old) (W.contents output.new) (line.now ++ text.now)) }
{
    match write_all(output, line) {
        Ok(()) => write_all(output, text),
        Err(fault) => Err(fault),
    }
}

/// What is told of orders that are open, where that is asked for. The error is want of memory.
fn told_open<P: Planner>(
    alloc: Global,
    warehouse: &Warehouse<P>,
    is_asked: bool,
) -> Result<Vec<u8>, Trouble>
    ensures ok { IfOk result (λ text. text.items ≡ told_open is_asked warehouse.now.book.state) }
    ensures fault { IfErr result (λ told. told ≡ Trouble.NoMemory) }
{
    if is_asked {
        Ok(open_text(alloc, warehouse)?)
    } else {
        Ok(Vec::new(alloc))
    }
}

/// Writes what follows the replies, behind a front if the log of the run has one, and returns what is to be told of orders that are open, where that is asked for. Lack of memory is
/// told before any of it is written.
pub(crate) fn finish<W: Write, P: Planner>(
    alloc: Global,
    output: &mut W,
    warehouse: &Warehouse<P>,
    preface: &Option<Preface>,
    deliver: bool,
    tail: Tail,
) -> Result<Vec<u8>, Trouble>
    ensures ok { OnOk result (Appends (W.contents output.old) (W.contents output.new) (tail_behind preface.now tail warehouse.now.book.opening warehouse.now.book.history warehouse.now.book.state)) }
    ensures report { IfOk result (λ text. text.items ≡ told_open deliver warehouse.now.book.state) }
    ensures fault { IfErr result (λ told. IsWhyNoTail told (W.contents output.old) (W.contents output.new) (tail_behind preface.now tail warehouse.now.book.opening warehouse.now.book.history warehouse.now.book.state)) }
{
    let text = match told_open(alloc, warehouse, deliver) {
        Ok(text) => text,
        Err(trouble) => return Err(trouble),
    };
    match write_tail(alloc, output, warehouse, preface, tail) {
        Ok(()) => Ok(text),
        Err(trouble) => {
            drop(text);
            Err(trouble)
        }
    }
}

/// Writes what follows the replies, behind a front if the log of the run has one, and flushes the writer. Lack of memory is told before any of it is written.
pub(crate) fn write_tail<W: Write, P: Planner>(
    alloc: Global,
    output: &mut W,
    warehouse: &Warehouse<P>,
    preface: &Option<Preface>,
    tail: Tail,
) -> Result<(), Trouble>
    ensures ok { OnOk result (Appends (W.contents output.old) (W.contents output.new) (tail_behind preface.now tail warehouse.now.book.opening warehouse.now.book.history warehouse.now.book.state)) }
    ensures fault { IfErr result (λ told. IsWhyNoTail told (W.contents output.old) (W.contents output.new) (tail_behind preface.now tail warehouse.now.book.opening warehouse.now.book.history warehouse.now.book.state)) }
{
    let text = match text(alloc, warehouse, preface, tail) {
        Ok(text) => text,
        Err(trouble) => return Err(trouble),
    };
    match write_both(output, separator(tail), text.as_slice()) {
        Ok(()) => match output.flush() {
            Ok(()) => Ok(()),
            Err(_) => Err(Trouble::Unwritten),
        },
        Err(_) => Err(Trouble::Unwritten),
    }
}
