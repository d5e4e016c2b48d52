//! Adds the lines of entries to a keeper's log. It takes no memory: the bytes wait in a room in place, and go on when it is full.

ghost use Rattle.std.specs.Prelude.{◌≡◌, ◌≤◌, ◌+◌, [], ◌++◌, ◌∷◌, length, map, OnOk, OnErr};
ghost use Rattle.wh_log.specs.Spaced.{spaced};
ghost use Rattle.wh_log.specs.Spelling.{cell_word, entry_line};
ghost use Rattle.wh_log.specs.Told.{cells_of};
ghost use Rattle.wh_replay.specs.Appending.{Moves, FailsAt, lines_for, logged};

use arrayvec::ArrayVec;
use wh_event::{Entry, Reply};
use wh_log::{cell_piece, entry_head, path_of};
use wh_path::TimedPath;
use wh_session::{KeepFault, Keeper};

/// At most this many bytes wait before the keeper is called.
const ROOM: usize = 4_096;

/// Bytes that wait to be added.
type Waiting = ArrayVec<u8, ROOM>;

/// Adds what waits.
fn add_waiting<K: Keeper>(keeper: &mut K, waiting: &mut Waiting) -> Result<(), KeepFault>
    ensures ok { OnOk result (K.adds (K.holds keeper.old) (logged waiting.old.items) (K.holds keeper.new)) }
    ensures empty { OnOk result (waiting.new.items ≡ []) }
    ensures err { OnErr result (FailsAt K.is_safe K.adds K.leaves (K.holds keeper.old) (K.holds keeper.new) waiting.old.items) }
{
    match keeper.add(waiting.as_slice()) {
        Ok(()) => {
            waiting.clear();
            Ok(())
        }
        Err(fault) => Err(fault),
    }
}

/// Makes room for the given number of bytes.
fn make_room<K: Keeper>(
    keeper: &mut K,
    waiting: &mut Waiting,
    count: usize,
) -> Result<(), KeepFault>
    requires { count ≤ 4096 }
    ensures ok { OnOk result (Moves K.adds (K.holds keeper.old) (K.holds keeper.new) waiting.old.items waiting.new.items []) }
    ensures room { OnOk result (length waiting.new.items + count ≤ 4096) }
    ensures err { OnErr result (FailsAt K.is_safe K.adds K.leaves (K.holds keeper.old) (K.holds keeper.new) waiting.old.items) }
{
    if count <= ROOM - waiting.len() {
        return Ok(());
    }
    add_waiting(keeper, waiting)
}

/// Adds a few bytes.
fn put<K: Keeper>(keeper: &mut K, waiting: &mut Waiting, bytes: &[u8]) -> Result<(), KeepFault>
    requires { length bytes.now ≤ 256 }
    ensures ok { OnOk result (Moves K.adds (K.holds keeper.old) (K.holds keeper.new) waiting.old.items waiting.new.items bytes.now) }
    ensures err { OnErr result (FailsAt K.is_safe K.adds K.leaves (K.holds keeper.old) (K.holds keeper.new) (waiting.old.items ++ bytes.now)) }
{
    match make_room(keeper, waiting, bytes.len()) {
        Ok(()) => {}
        Err(fault) => return Err(fault),
    }
    match waiting.try_extend_from_slice(bytes) {
        Ok(()) => Ok(()),
        Err(_) => unreachable!(),
    }
}

/// Adds each cell of a path, with a space before it.
fn put_cells<K: Keeper>(
    keeper: &mut K,
    waiting: &mut Waiting,
    path: &TimedPath,
) -> Result<(), KeepFault>
    ensures ok { OnOk result (Moves K.adds (K.holds keeper.old) (K.holds keeper.new) waiting.old.items waiting.new.items (spaced (map cell_word path.now))) }
    ensures err { OnErr result (FailsAt K.is_safe K.adds K.leaves (K.holds keeper.old) (K.holds keeper.new) (waiting.old.items ++ spaced (map cell_word path.now))) }
{
    for k in 0..path.remaining() + 1 {
        match put(keeper, waiting, cell_piece(path.at(k)).as_slice()) {
            Ok(()) => {}
            Err(fault) => return Err(fault),
        }
    }
    Ok(())
}

/// Adds the cells of a reply's path, where it tells one.
fn put_path<K: Keeper>(
    keeper: &mut K,
    waiting: &mut Waiting,
    reply: &Reply,
) -> Result<(), KeepFault>
    ensures ok { OnOk result (Moves K.adds (K.holds keeper.old) (K.holds keeper.new) waiting.old.items waiting.new.items (spaced (map cell_word (cells_of reply.now)))) }
    ensures err { OnErr result (FailsAt K.is_safe K.adds K.leaves (K.holds keeper.old) (K.holds keeper.new) (waiting.old.items ++ spaced (map cell_word (cells_of reply.now)))) }
{
    match path_of(reply) {
        Some(path) => put_cells(keeper, waiting, path),
        None => Ok(()),
    }
}

/// Adds an entry's line.
fn put_entry<K: Keeper>(
    keeper: &mut K,
    waiting: &mut Waiting,
    entry: &Entry,
) -> Result<(), KeepFault>
    ensures ok { OnOk result (Moves K.adds (K.holds keeper.old) (K.holds keeper.new) waiting.old.items waiting.new.items (entry_line entry.now ++ 10 ∷ [])) }
    ensures err { OnErr result (FailsAt K.is_safe K.adds K.leaves (K.holds keeper.old) (K.holds keeper.new) (waiting.old.items ++ (entry_line entry.now ++ 10 ∷ []))) }
{
    match put(keeper, waiting, entry_head(entry).as_slice()) {
        Ok(()) => {}
        Err(fault) => return Err(fault),
    }
    match put_path(keeper, waiting, &entry.reply) {
        Ok(()) => {}
        Err(fault) => return Err(fault),
    }
    put(keeper, waiting, b"\n")
}

/// Adds the lines of entries.
fn put_entries<K: Keeper>(
    keeper: &mut K,
    waiting: &mut Waiting,
    entries: &[Entry],
) -> Result<(), KeepFault>
    ensures ok { OnOk result (Moves K.adds (K.holds keeper.old) (K.holds keeper.new) waiting.old.items waiting.new.items (lines_for entries.now)) }
    ensures err { OnErr result (FailsAt K.is_safe K.adds K.leaves (K.holds keeper.old) (K.holds keeper.new) (waiting.old.items ++ lines_for entries.now)) }
{
    for entry in entries {
        match put_entry(keeper, waiting, entry) {
            Ok(()) => {}
            Err(fault) => return Err(fault),
        }
    }
    Ok(())
}

/// Adds the lines of entries to the log, in pieces of at most 4,096 bytes. What follows may be more of the log, or what rests on it.
pub fn append_entries<K: Keeper>(keeper: &mut K, entries: &[Entry]) -> Result<(), KeepFault>
    ensures ok { OnOk result (K.adds (K.holds keeper.old) (logged (lines_for entries.now)) (K.holds keeper.new)) }
    ensures err { OnErr result (FailsAt K.is_safe K.adds K.leaves (K.holds keeper.old) (K.holds keeper.new) (lines_for entries.now)) }
{
    let mut waiting = ArrayVec::new();
    match put_entries(keeper, &mut waiting, entries) {
        Ok(()) => {}
        Err(fault) => return Err(fault),
    }
    add_waiting(keeper, &mut waiting)
}

/// Has the keeper keep the lines of entries. It is not called for none.
pub(crate) fn keep_entries<K: Keeper>(keeper: &mut K, entries: &[Entry]) -> Result<(), KeepFault>
    requires { K.is_safe (K.holds keeper.old) }
    ensures ok { OnOk result (K.keeps (K.holds keeper.old) (logged (lines_for entries.now)) (K.holds keeper.new)) }
    ensures err { OnErr result (K.leaves (K.holds keeper.old) (logged (lines_for entries.now)) (K.holds keeper.new)) }
{
    if entries.is_empty() {
        return Ok(());
    }
    match append_entries(keeper, entries) {
        Ok(()) => {}
        Err(fault) => return Err(fault),
    }
    keeper.sync()
}
