//! Lines that are served in rounds, to the reader's end, or until a fault.

ghost use Rattle.std.specs.Prelude.{◌≡◌, ◌≢◌, ◌≤◌, ◌-◌, ◌^◌, true, false, IfErr, IfOk, OnErr, OnOk};
ghost use Rattle.std.specs.Io.KnownBytes.{Appends, Keeps};
ghost use Rattle.wh_lines.specs.Output.{WritesFront};
ghost use Rattle.wh_session.specs.Machines.{SomeStands};
ghost use Rattle.wh_session.specs.Settling.{SettlesFrom, UnsettlesFrom};
ghost use Rattle.wh_session.specs.Sessions.{round_of, ServesFrom, StopsFrom};

use crate::fault::{End, Round, SessionFault};
use crate::gathering::gather;
use crate::keeper::Keeper;
use crate::machine::Machine;
use std::io::{Read, Write};
use wh_lines::{CommandLine, Lines};

/// Tells what waits. It is flushed where the next line may have to be waited for, and at the end.
fn tell_all<W: Write, M: Machine>(
    writer: &mut W,
    machine: &M,
    round: Round,
) -> Result<(), SessionFault>
    requires { SomeStands M.stands machine.now }
    ensures ok { OnOk result ((s : M.State) → M.stands machine.now s → Appends (W.contents writer.old) (W.contents writer.new) (M.says machine.now s)) }
    ensures front { OnErr result ((s : M.State) → M.stands machine.now s → WritesFront (W.contents writer.old) (W.contents writer.new) (M.says machine.now s)) }
    ensures fault { IfErr result (λ fault. fault ≡ SessionFault.Unwritten) }
{
    match machine.tell(writer) {
        Ok(()) => {}
        Err(_) => return Err(SessionFault::Unwritten),
    }
    if let Round::More = round {
        return Ok(());
    }
    match writer.flush() {
        Ok(()) => Ok(()),
        Err(_) => Err(SessionFault::Unwritten),
    }
}

/// Keeps what is to be kept, and then tells what is to be told.
fn settle<W: Write, M: Machine, K: Keeper>(
    writer: &mut W,
    machine: &M,
    keeper: &mut K,
    round: Round,
) -> Result<(), SessionFault>
    requires safe { K.is_safe (K.holds keeper.old) }
    requires stands { SomeStands M.stands machine.now }
    ensures ok { OnOk result (SettlesFrom M.stands M.says M.logs K.keeps machine.now (W.contents writer.old) (W.contents writer.new) (K.holds keeper.old) (K.holds keeper.new)) }
    ensures fault { IfErr result (λ fault. UnsettlesFrom M.stands M.says M.logs K.keeps K.leaves fault machine.now (W.contents writer.old) (W.contents writer.new) (K.holds keeper.old) (K.holds keeper.new)) }
    ensures no_memory { IfErr result (λ fault. fault ≢ SessionFault.NoMemory) }
{
    match machine.keep(keeper) {
        Ok(()) => tell_all(writer, machine, round),
        Err(_) => Err(SessionFault::Unkept),
    }
}

/// Whether nothing waits of a round since the service was over before a line of it came.
fn is_empty(single: bool, round: Round) -> bool
    ensures over { result ≡ true → (single ≡ true) × (round ≡ Round.Over) }
    ensures several { result ≡ false → round ≡ Round.Over → single ≡ false }
{
    match round {
        Round::Over => single,
        _ => false,
    }
}

/// One round: lines are served, then kept, then told.
fn serve_part<R: Read, W: Write, M: Machine, K: Keeper>(
    lines: &mut Lines<R>,
    writer: &mut W,
    line: &mut CommandLine,
    machine: &mut M,
    keeper: &mut K,
) -> Result<Round, SessionFault>
    requires open { lines.old.failed ≡ false }
    requires safe { K.is_safe (K.holds keeper.old) }
    requires stands { SomeStands M.stands machine.old }
    ensures ok { IfOk result (λ round. ServesFrom M.stands M.serves K.keeps M.serves_last K.single 1 round lines.old lines.new machine.old machine.new (W.contents writer.old) (W.contents writer.new) (K.holds keeper.old) (K.holds keeper.new)) }
    ensures safe { OnOk result (K.is_safe (K.holds keeper.new)) }
    ensures fault { IfErr result (λ fault. StopsFrom M.stands M.serves M.halts K.keeps K.leaves M.serves_last K.single M.may_end fault lines.old lines.new machine.old machine.new (W.contents writer.old) (W.contents writer.new) (K.holds keeper.old) (K.holds keeper.new)) }
    ensures reads { OnOk result (lines.old.reads ≤ lines.new.reads) }
    ensures open { OnOk result (lines.new.failed ≡ false) }
    ensures starved { IfErr result (λ fault. fault ≡ SessionFault.NoMemory → M.may_starve ≡ true) }
    ensures over { IfOk result (λ round. round ≡ Round.Over → M.may_end ≡ true) }
{
    let single = keeper.is_single();
    let round = match gather(lines, writer, line, machine, single) {
        Ok(round) => round,
        Err(fault) => return Err(fault),
    };
    if is_empty(single, round) {
        return Ok(round);
    }
    match settle(writer, machine, keeper, round) {
        Ok(()) => Ok(round),
        Err(fault) => Err(fault),
    }
}

/// Serves rounds, to the end or until no whole line waits.
fn serve_all<R: Read, W: Write, M: Machine, K: Keeper>(
    lines: &mut Lines<R>,
    writer: &mut W,
    machine: &mut M,
    keeper: &mut K,
    to_end: bool,
) -> Result<Round, SessionFault>
    requires open { lines.old.failed ≡ false }
    requires safe { K.is_safe (K.holds keeper.old) }
    requires stands { SomeStands M.stands machine.old }
    ensures ok { IfOk result (λ round. ServesFrom M.stands M.serves K.keeps M.serves_last K.single (2 ^ 64 - 1) round lines.old lines.new machine.old machine.new (W.contents writer.old) (W.contents writer.new) (K.holds keeper.old) (K.holds keeper.new)) }
    ensures safe { OnOk result (K.is_safe (K.holds keeper.new)) }
    ensures fault { IfErr result (λ fault. StopsFrom M.stands M.serves M.halts K.keeps K.leaves M.serves_last K.single M.may_end fault lines.old lines.new machine.old machine.new (W.contents writer.old) (W.contents writer.new) (K.holds keeper.old) (K.holds keeper.new)) }
    ensures starved { IfErr result (λ fault. fault ≡ SessionFault.NoMemory → M.may_starve ≡ true) }
    ensures over { IfOk result (λ round. round ≡ Round.Over → M.may_end ≡ true) }
    ensures settled { IfOk result (λ round. round ≢ Round.More) }
    ensures ended { to_end ≡ true → IfOk result (λ round. round ≢ Round.Served) }
{
    let mut line = CommandLine::new();
    for _ in 0..u64::MAX {
        match serve_part(lines, writer, &mut line, machine, keeper) {
            Ok(Round::More) => continue,
            Ok(Round::Served) => {
                if !to_end {
                    return Ok(Round::Served);
                }
            }
            Ok(Round::Ended) => return Ok(Round::Ended),
            Ok(Round::Torn) => return Ok(Round::Torn),
            Ok(Round::Over) => return Ok(Round::Over),
            Err(fault) => return Err(fault),
        }
    }
    Err(SessionFault::Endless)
}

fn serve_until<R: Read, W: Write, M: Machine, K: Keeper>(
    lines: &mut Lines<R>,
    writer: &mut W,
    machine: &mut M,
    keeper: &mut K,
    to_end: bool,
) -> Result<Round, SessionFault>
    requires safe { K.is_safe (K.holds keeper.old) }
    requires stands { SomeStands M.stands machine.old }
    ensures ok { IfOk result (λ round. ServesFrom M.stands M.serves K.keeps M.serves_last K.single (2 ^ 64 - 1) round lines.old lines.new machine.old machine.new (W.contents writer.old) (W.contents writer.new) (K.holds keeper.old) (K.holds keeper.new)) }
    ensures ended { to_end ≡ true → IfOk result (λ round. round ≢ Round.Served) }
    ensures settled { IfOk result (λ round. round ≢ Round.More) }
    ensures safe { OnOk result (K.is_safe (K.holds keeper.new)) }
    ensures fault { IfErr result (λ fault. StopsFrom M.stands M.serves M.halts K.keeps K.leaves M.serves_last K.single M.may_end fault lines.old lines.new machine.old machine.new (W.contents writer.old) (W.contents writer.new) (K.holds keeper.old) (K.holds keeper.new)) }
    ensures starved { IfErr result (λ fault. fault ≡ SessionFault.NoMemory → M.may_starve ≡ true) }
    ensures over { IfOk result (λ round. round ≡ Round.Over → M.may_end ≡ true) }
    ensures failed { OnErr result (lines.new.failed ≡ true) }
    ensures again { lines.old.failed ≡ true → (result ≡ Err SessionFault.Broken) × (lines.new ≡ lines.old) × (machine.new ≡ machine.old) × (keeper.new ≡ keeper.old) × Keeps (W.contents writer.old) (W.contents writer.new) }
{
    if lines.has_failed() {
        return Err(SessionFault::Broken);
    }
    match serve_all(lines, writer, machine, keeper, to_end) {
        Ok(round) => Ok(round),
        Err(fault) => {
            lines.fail();
            Err(fault)
        }
    }
}

/// Serves the next line, for which it may wait, and each further whole line that waits, in one round or, where the machine has no room
/// for all or each line is a round, in several. So all is kept and told when the next line may have to be waited for.
pub fn serve_round<R: Read, W: Write, M: Machine, K: Keeper>(
    lines: &mut Lines<R>,
    writer: &mut W,
    machine: &mut M,
    keeper: &mut K,
) -> Result<Round, SessionFault>
    requires safe { K.is_safe (K.holds keeper.old) }
    requires stands { SomeStands M.stands machine.old }
    ensures ok { IfOk result (λ round. ServesFrom M.stands M.serves K.keeps M.serves_last K.single (2 ^ 64 - 1) round lines.old lines.new machine.old machine.new (W.contents writer.old) (W.contents writer.new) (K.holds keeper.old) (K.holds keeper.new)) }
    ensures settled { IfOk result (λ round. round ≢ Round.More) }
    ensures safe { OnOk result (K.is_safe (K.holds keeper.new)) }
    ensures fault { IfErr result (λ fault. StopsFrom M.stands M.serves M.halts K.keeps K.leaves M.serves_last K.single M.may_end fault lines.old lines.new machine.old machine.new (W.contents writer.old) (W.contents writer.new) (K.holds keeper.old) (K.holds keeper.new)) }
    // Memory ends no session whose machine cannot starve.
    ensures starved { IfErr result (λ fault. fault ≡ SessionFault.NoMemory → M.may_starve ≡ true) }
    ensures over { IfOk result (λ round. round ≡ Round.Over → M.may_end ≡ true) }
    // After a fault there is nothing more.
    ensures failed { OnErr result (lines.new.failed ≡ true) }
    ensures again { lines.old.failed ≡ true → (result ≡ Err SessionFault.Broken) × (lines.new ≡ lines.old) × (machine.new ≡ machine.old) × (keeper.new ≡ keeper.old) × Keeps (W.contents writer.old) (W.contents writer.new) }
{
    serve_until(lines, writer, machine, keeper, false)
}

/// Serves the lines that are left in the reader, to its end, or until the service is over: that is asked before each line is served,
/// and a line that had come then is not. In rounds: lines are served, then what is to be kept of them is kept and survives a kill, and
/// then what they are told is written. A round is one line, or where the keeper takes more, all whole lines that wait and for which
/// there is room. The writer is flushed before each read, which may wait, and at the reader's end. A line takes no memory of its own.
pub fn serve<R: Read, W: Write, M: Machine, K: Keeper>(
    lines: &mut Lines<R>,
    writer: &mut W,
    machine: &mut M,
    keeper: &mut K,
) -> Result<End, SessionFault>
    requires safe { K.is_safe (K.holds keeper.old) }
    requires stands { SomeStands M.stands machine.old }
    ensures ok { IfOk result (λ end. ServesFrom M.stands M.serves K.keeps M.serves_last K.single (2 ^ 64 - 1) (round_of end) lines.old lines.new machine.old machine.new (W.contents writer.old) (W.contents writer.new) (K.holds keeper.old) (K.holds keeper.new)) }
    ensures safe { OnOk result (K.is_safe (K.holds keeper.new)) }
    ensures fault { IfErr result (λ fault. StopsFrom M.stands M.serves M.halts K.keeps K.leaves M.serves_last K.single M.may_end fault lines.old lines.new machine.old machine.new (W.contents writer.old) (W.contents writer.new) (K.holds keeper.old) (K.holds keeper.new)) }
    // Memory ends no session whose machine cannot starve.
    ensures starved { IfErr result (λ fault. fault ≡ SessionFault.NoMemory → M.may_starve ≡ true) }
    ensures over { IfOk result (λ end. end ≡ End.Over → M.may_end ≡ true) }
    // After a fault there is nothing more.
    ensures failed { OnErr result (lines.new.failed ≡ true) }
    ensures again { lines.old.failed ≡ true → (result ≡ Err SessionFault.Broken) × (lines.new ≡ lines.old) × (machine.new ≡ machine.old) × (keeper.new ≡ keeper.old) × Keeps (W.contents writer.old) (W.contents writer.new) }
{
    match serve_until(lines, writer, machine, keeper, true) {
        Ok(Round::Over) => Ok(End::Over),
        Ok(Round::Torn) => Ok(End::Torn),
        Ok(_) => Ok(End::Input),
        Err(fault) => Err(fault),
    }
}
