//! Writes the text of a board.
#![tactic(auto)]

ghost use Rattle.std.specs.Prelude.{◌≡◌, ◌≤◌, ◌++◌, ◌∷◌, [], IfOk, OnOk, length, decimal, map};
ghost use Rattle.wh_words.specs.Lines.{text_of};
ghost use Rattle.wh_log.specs.Spelling.{cell_word};
ghost use Rattle.wh_display.specs.Texts.{agent_line, board_text, count_lines, load_text};

use arrayvec::ArrayVec;
use std::alloc::{AllocError, Global};
use wh_board::{Board, Shown};
use wh_event::put_number;
use wh_grid::Cell;
use wh_tasks::Load;

/// Writes a few bytes at the end, and then a number.
fn push_number(out: &mut Vec<u8>, before: &[u8], number: u64) -> Result<(), AllocError>
    requires { length before.now ≤ 16 }
    ensures { OnOk result (out.new.items ≡ out.old.items ++ (before.now ++ decimal number)) }
{
    let mut piece = ArrayVec::new();
    put_number(&mut piece, before, number);
    out.extend_from_slice(piece.as_slice())
}

/// Writes a line of a few bytes and a number.
fn push_count(out: &mut Vec<u8>, before: &[u8], number: u64) -> Result<(), AllocError>
    requires { length before.now ≤ 16 }
    ensures { OnOk result (out.new.items ≡ out.old.items ++ ((before.now ++ decimal number) ++ 10 ∷ [])) }
{
    push_number(out, before, number)?;
    out.push(b'\n')?;
    Ok(())
}

/// Writes a cell.
fn push_cell(out: &mut Vec<u8>, cell: Cell) -> Result<(), AllocError>
    ensures { OnOk result (out.new.items ≡ out.old.items ++ cell_word cell) }
{
    push_number(out, b"", u64::from(cell.x))?;
    push_number(out, b",", u64::from(cell.y))
}

/// Writes what an agent has to do.
fn push_load(out: &mut Vec<u8>, load: Load) -> Result<(), AllocError>
    ensures { OnOk result (out.new.items ≡ out.old.items ++ load_text load) }
{
    match load {
        Load::None => out.extend_from_slice(b"none"),
        Load::Fetching(task) => push_number(out, b"fetching ", u64::from(task)),
        Load::Carrying { task, visited } => {
            push_number(out, b"carrying ", u64::from(task))?;
            push_number(out, b" ", u64::from(visited))
        }
    }
}

/// Writes an agent's line.
fn push_agent(out: &mut Vec<u8>, shown: Shown) -> Result<(), AllocError>
    ensures { OnOk result (out.new.items ≡ out.old.items ++ (agent_line shown ++ 10 ∷ [])) }
{
    push_cell(out, shown.cell)?;
    push_number(out, b" ", shown.steps_left)?;
    out.push(b' ')?;
    push_load(out, shown.load)?;
    out.push(b'\n')?;
    Ok(())
}

/// Writes the counts, a line for each.
fn push_counts(out: &mut Vec<u8>, board: &Board) -> Result<(), AllocError>
    ensures { OnOk result (out.new.items ≡ out.old.items ++ text_of (count_lines board.now)) }
{
    push_count(out, b"entries ", board.entries)?;
    push_count(out, b"clock ", u64::from(board.clock))?;
    push_count(out, b"open ", u64::from(board.open_tasks))?;
    push_count(out, b"assigned ", u64::from(board.assigned))?;
    push_count(out, b"carried ", u64::from(board.carried))?;
    push_count(out, b"done ", u64::from(board.done))
}

/// Writes a line for each agent.
fn push_agents(out: &mut Vec<u8>, agents: &[Shown]) -> Result<(), AllocError>
    ensures { OnOk result (out.new.items ≡ out.old.items ++ text_of (map agent_line agents.now)) }
{
    for shown in agents {
        push_agent(out, *shown)?;
    }
    Ok(())
}

/// The text of a board: its counts, and a line for each agent.
pub fn text_of_board(alloc: Global, board: &Board) -> Result<Vec<u8>, AllocError>
    ensures { IfOk result (λ text. text.items ≡ board_text board.now) }
{
    let mut text = Vec::from_slice(alloc, b"wboard 1\n")?;
    match push_all(&mut text, board) {
        Ok(()) => Ok(text),
        Err(fault) => Err(fault),
    }
}

/// Writes the counts and the agents.
fn push_all(out: &mut Vec<u8>, board: &Board) -> Result<(), AllocError>
    ensures { OnOk result (out.new.items ≡ out.old.items ++ text_of (count_lines board.now ++ map agent_line board.now.agents.items)) }
{
    push_counts(out, board)?;
    push_agents(out, board.agents.as_slice())
}
