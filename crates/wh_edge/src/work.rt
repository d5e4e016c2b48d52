//! What each worker of a crew does.
ghost use Rattle.std.specs.Prelude.{◌≡◌, [], IfErr, IfOk, replicate};
ghost use Rattle.wh_text.specs.Lines.{lines_of};
ghost use Rattle.wh_event.specs.declared.event.Command.TheVariants.{Tick, Token};
ghost use Rattle.wh_edge.specs.Script.{IsFault, IsScript};
ghost use Rattle.wh_edge.specs.declared.work.ScriptFault.TheVariants.{NoMemory};

use std::alloc::{AllocError, AllocFailed, Global};
use wh_event::{Command, LineFault, read_line};
use wh_planner::Planner;
use wh_text::Lines;

/// The commands of a worker in order, and the planners that it may lend, the last first.
#[derive(Drop)]
pub struct Work<P = Box<dyn Planner>> {
    pub commands: Vec<Command>,
    pub spares: Vec<P>,
}

/// A script's first line that is no command, counted from 1.
#[derive(Clone, Copy, Debug, PartialEq, Eq)]
pub struct ScriptPlace {
    pub kind: LineFault,
    pub line: u64,
}

/// Why a client's script is refused.
#[derive(Clone, Copy, Debug, PartialEq, Eq)]
pub enum ScriptFault {
    /// Out of memory.
    NoMemory,
    /// This line is no command.
    At(ScriptPlace),
}

impl<T: Drop> From<AllocFailed<T>> for ScriptFault {
    ghost from_gives = { λ _ e. e ≡ NoMemory };

    fn from(_e: AllocFailed<T>) -> ScriptFault {
        ScriptFault::NoMemory
    }
}

/// The commands of a script, in order, or its first line that is none.
fn commands_of(alloc: Global, script: &[u8]) -> Result<Vec<Command>, ScriptFault>
    ensures ok { IfOk result (λ commands. IsScript (lines_of script.now) commands.items) }
    ensures err { IfErr result (IsFault (lines_of script.now)) }
{
    let mut lines = Lines::new(script);
    let mut commands = Vec::new(alloc);
    while let Some(line) = lines.next_line() {
        match read_line(line) {
            Ok(None) => {}
            Ok(Some(command)) => commands.push(command)?,
            Err(kind) => {
                return Err(ScriptFault::At(ScriptPlace {
                    kind,
                    line: lines.count(),
                }));
            }
        }
    }
    Ok(commands)
}

/// The commands of a script's lines, or its first line that is none.
pub fn client_work<P: Planner>(alloc: Global, script: &[u8]) -> Result<Work<P>, ScriptFault>
    ensures commands { IfOk result (λ work. IsScript (lines_of script.now) work.commands.items) }
    ensures spares { IfOk result (λ work. work.spares.items ≡ []) }
    ensures fault { IfErr result (IsFault (lines_of script.now)) }
{
    Ok(Work {
        commands: commands_of(alloc, script)?,
        spares: Vec::new(alloc),
    })
}

/// The work of one agent: it asks for the token `turns` times.
pub fn agent_work<P: Planner>(alloc: Global, agent: u32, turns: u32) -> Result<Work<P>, AllocError>
    ensures commands { IfOk result (λ work. work.commands.items ≡ replicate turns (Token agent)) }
    ensures spares { IfOk result (λ work. work.spares.items ≡ []) }
{
    let mut commands = Vec::new(alloc);
    for _ in 0..turns {
        commands.push(Command::Token { agent })?;
    }
    Ok(Work {
        commands,
        spares: Vec::new(alloc),
    })
}

/// The work of the clock: it ticks `turns` times.
pub fn clock_work<P: Planner>(alloc: Global, turns: u32) -> Result<Work<P>, AllocError>
    ensures commands { IfOk result (λ work. work.commands.items ≡ replicate turns Tick) }
    ensures spares { IfOk result (λ work. work.spares.items ≡ []) }
{
    let mut commands = Vec::new(alloc);
    for _ in 0..turns {
        commands.push(Command::Tick)?;
    }
    Ok(Work {
        commands,
        spares: Vec::new(alloc),
    })
}
