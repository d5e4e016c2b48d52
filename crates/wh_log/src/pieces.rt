//! An entry's line in pieces that take no memory: its head, and then the cells of the reply's path, each for itself.

ghost use Rattle.std.specs.Prelude.{◌≡◌, ◌+◌, ◌≤◌, ◌++◌, ◌∷◌, [], length, map, decimal, MatchOption};
ghost use Rattle.wh_log.specs.Spaced.{spaced};
ghost use Rattle.wh_log.specs.Spelling.{cell_word, entry_line, event_words, spare_words};
ghost use Rattle.wh_log.specs.Told.{cells_of, full_text};

use arrayvec::ArrayVec;
use wh_event::{Entry, Event, Reply, Spare, Stops, put, put_number, write_reply};
use wh_grid::Cell;
use wh_path::TimedPath;
use wh_text::Name;

/// Writes a text at the end.
fn put_text(head: &mut ArrayVec<u8, 256>, text: &[u8])
    requires { length head.old.items + length text.now ≤ 256 }
    ensures { head.new.items ≡ head.old.items ++ text.now }
{
    match head.try_extend_from_slice(text) {
        Ok(()) => {}
        Err(_) => unreachable!(),
    }
}

/// Writes a text of few bytes, and then a number.
fn put_numeral(head: &mut ArrayVec<u8, 256>, text: &[u8], number: u64)
    requires few { length text.now ≤ 16 }
    requires room { length head.old.items ≤ 200 }
    ensures text { head.new.items ≡ head.old.items ++ (text.now ++ decimal number) }
    ensures room { length head.new.items ≤ length head.old.items + 36 }
{
    let mut word = ArrayVec::new();
    put_number(&mut word, text, number);
    put_text(head, word.as_slice());
}

/// Writes a space and a name.
fn put_name(head: &mut ArrayVec<u8, 256>, name: &Name)
    requires room { length head.old.items ≤ 200 }
    ensures text { head.new.items ≡ head.old.items ++ 32 ∷ name.now }
    ensures room { length head.new.items ≤ length head.old.items + 17 }
{
    put_text(head, b" ");
    put_text(head, name.as_slice());
}

fn put_stops(head: &mut ArrayVec<u8, 256>, stops: &Stops)
    requires room { length head.old.items ≤ 60 }
    ensures text { head.new.items ≡ head.old.items ++ spaced stops.now }
    ensures room { length head.new.items ≤ 196 }
{
    for stop in stops.as_slice() {
        put_name(head, stop);
    }
}

fn put_spare(head: &mut ArrayVec<u8, 256>, spare: Spare)
    requires room { length head.old.items ≤ 100 }
    ensures text { head.new.items ≡ head.old.items ++ spaced (spare_words spare) }
    ensures room { length head.new.items ≤ 136 }
{
    match spare {
        Spare::None => put_text(head, b" none"),
        Spare::Foreign => put_text(head, b" foreign"),
        Spare::Fits { slots } => put_numeral(head, b" fits ", u64::from(slots)),
    }
}

/// Writes an event, a space before each word.
fn put_event(head: &mut ArrayVec<u8, 256>, event: &Event)
    requires room { length head.old.items ≤ 36 }
    ensures text { head.new.items ≡ head.old.items ++ spaced (event_words event.now) }
    ensures room { length head.new.items ≤ 196 }
{
    match event {
        Event::Submit { client, stops } => {
            put_text(head, b" submit");
            put_name(head, client);
            put_stops(head, stops.stops());
        }
        Event::Request { agent } => put_numeral(head, b" token ", u64::from(*agent)),
        Event::Tick => put_text(head, b" tick"),
        Event::Close => put_text(head, b" close"),
        Event::Replace { agent, spare } => {
            put_numeral(head, b" replace ", u64::from(*agent));
            put_spare(head, *spare);
        }
    }
}

/// A reply as the log has it, up to the cells of its path.
pub(crate) fn reply_head(reply: &Reply) -> ArrayVec<u8, 64>
    ensures text { full_text reply.now ≡ result.items ++ spaced (map cell_word (cells_of reply.now)) }
    ensures short { length result.items ≤ 53 }
{
    let mut head = ArrayVec::new();
    match reply {
        Reply::Took { task, path: _ } => {
            put_number(&mut head, b"took ", u64::from(*task));
            put(&mut head, b" path");
            head
        }
        Reply::Parked { point, path: _ } => {
            put(&mut head, b"parked ");
            put(&mut head, point.as_slice());
            put(&mut head, b" path");
            head
        }
        _ => write_reply(reply),
    }
}

/// The path of a reply, where it tells one.
pub fn path_of(reply: &Reply) -> Option<&TimedPath>
    ensures { MatchOption result (cells_of reply.now ≡ []) (λ path. cells_of reply.now ≡ path.now) }
{
    match reply {
        Reply::Took { task: _, path } => Some(path),
        Reply::Parked { point: _, path } => Some(path),
        _ => None,
    }
}

/// A space and a cell.
pub fn cell_piece(cell: Cell) -> ArrayVec<u8, 64>
    ensures { result.items ≡ 32 ∷ cell_word cell }
{
    let mut word = ArrayVec::new();
    put_number(&mut word, b" ", u64::from(cell.x));
    put_number(&mut word, b",", u64::from(cell.y));
    word
}

/// An entry's line up to the cells of its reply's path, without a line's end.
pub fn entry_head(entry: &Entry) -> ArrayVec<u8, 256>
    ensures { entry_line entry.now ≡ result.items ++ spaced (map cell_word (cells_of entry.now.reply)) }
{
    let mut head = ArrayVec::new();
    put_numeral(&mut head, b"", u64::from(entry.caller));
    put_event(&mut head, &entry.event);
    put_text(&mut head, b" = ");
    put_text(&mut head, reply_head(&entry.reply).as_slice());
    head
}
