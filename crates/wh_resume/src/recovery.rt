//! Recovers a book from a log that is read piece by piece and may have been cut.
#![tactic(auto)]

ghost use Rattle.std.specs.Prelude.{◌≡◌, ◌≤◌, IfOk, length};
ghost use Rattle.wh_points.specs.Points.{IsLayout};
ghost use Rattle.wh_resume.specs.Resuming.{TellsFrom};

use crate::behind::recover_three;
use crate::title::{TITLE_BYTES, is_version_three, read_from};
use crate::two::recover_two;
use std::alloc::Global;
use wh_front::Rows;
use wh_judge::{Book, Setting};
use wh_log::{Source, SourceFault, Version};
use wh_restore::{Head, Reason};

/// What the front of a log tells beside the state.
#[derive(Drop)]
pub struct Preface {
    /// What it tells of the run.
    pub head: Head,
    /// Who submitted each task, by the tasks' numbers.
    pub callers: Rows<u32>,
    /// How many lines the front has.
    pub lines: u64,
    /// The bytes of these lines.
    pub text: Vec<u8>,
}

/// A book that goes on from what a log tells.
#[derive(Drop)]
pub struct Resumed {
    /// The version of the log; of one that begins with a state it is 2, that of its entries.
    pub version: Version,
    /// The book: its history is the log's entries.
    pub book: Book,
    /// How many bytes of the text are the lines that stand whole, without an end line. A longer file is cut there.
    pub bytes: usize,
    /// Whether the end line follows them.
    pub is_ended: bool,
    /// What the front tells beside the state, where the log begins with a state: it is of version 3. None of versions 1 and 2.
    pub preface: Option<Preface>,
}

/// What a text is to a warehouse that is to go on.
#[derive(Drop)]
pub enum Recovery {
    /// The beginning of a log whose entries are a run, and the book that goes on from there. Any bytes after its last line
    /// feed are taken for a line that was cut.
    Resumed(Resumed),
    /// Fewer than two lines stand whole, and the text is a front of the two that were to be written: no run was begun.
    Unopened(Setting),
    /// A log of version 3 with no front of a sound state: the first line of it that has a flaw, from 1, and its first flaw.
    /// Slots outside 2 to 64 are a flaw of form.
    Flawed { line: u64, reason: Reason },
    /// No beginning of such a log: the first line, from 1, that is not in the format or whose entry is no step, or that is
    /// not whole and is not as it was to be written. The lines before it are good, and are this many bytes.
    Bad { line: u64, bytes: usize },
}

/// Recovers the book of the run that a log tells, as far as its lines stand whole. Whether paths are to end at the last stop
/// or to go on home, the setting tells. The log may have been cut anywhere, but for the front of one of version 3. A text in
/// which not even the first two lines stand whole is taken for a run that was not begun only where it is a front of the two
/// lines that would begin it: no other file is. Of a log of version 1 or 2 only the book, a piece and a line of what is read
/// are kept; one of version 3 is read to its end first, and what follows its front is held once more while it is told.
///
/// Errors: `Unread` where the log cannot be read to its end, or to its first bad line; `NoMemory`.
pub fn recover<S: Source>(
    alloc: Global,
    setting: Setting,
    begun: &[u8],
    source: &mut S,
) -> Result<Recovery, SourceFault>
    requires some { 1 ≤ length setting.layout.agents }
    ensures told { IfOk result (TellsFrom setting begun.now (S.held source.old)) }
    ensures same { S.held source.new ≡ S.held source.old }
{
    let mut text = Vec::new(alloc);
    if let Err(fault) = read_from(source, &mut text, TITLE_BYTES) {
        drop(text);
        drop(setting);
        return Err(fault);
    }
    if !is_version_three(text.as_slice()) {
        drop(text);
        return recover_two(alloc, setting, begun, source);
    }
    if let Err(fault) = read_from(source, &mut text, usize::MAX) {
        drop(text);
        drop(setting);
        return Err(fault);
    }
    match recover_three(alloc, setting, text) {
        Ok(recovery) => Ok(recovery),
        Err(fault) => Err(fault),
    }
}
