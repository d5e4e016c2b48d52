//! A window on bytes that are read piece by piece: what was read of them and not told yet.

ghost use Rattle.std.specs.Prelude.{◌≡◌, [], IfOk};
ghost use Rattle.wh_log.specs.Sources.{ReadsHead, ReadsOn, Shows};

use crate::source::{Source, SourceFault};
use std::alloc::Global;
use wh_words::whole_line;

/// The bytes that were read and not told yet, and how many were read in all.
#[derive(Drop)]
pub(crate) struct Window {
    pub bytes: Vec<u8>,
    pub place: usize,
}

/// How many lines stand whole at the front of a text, of two.
#[derive(Clone, Copy, Debug, PartialEq, Eq)]
pub(crate) enum Standing {
    None,
    One,
    Two,
}

impl Window {
    /// A window at the front.
    pub fn new(alloc: Global) -> Window
        ensures bytes { result.bytes.items ≡ [] }
        ensures place { result.place ≡ 0 }
    {
        Window {
            bytes: Vec::new(alloc),
            place: 0,
        }
    }
}

/// How many lines stand whole at the front of a text, of two.
fn lines_standing(text: &[u8]) -> Standing
    ensures { Shows text.now result }
{
    let Some((_, rest)) = whole_line(text) else {
        return Standing::None;
    };
    match whole_line(rest) {
        None => Standing::One,
        Some(_) => Standing::Two,
    }
}

/// Reads one piece. True: nothing came, since no more stands there.
fn read_piece<S: Source>(source: &mut S, window: &mut Window) -> Result<bool, SourceFault>
    ensures ok { IfOk result (ReadsOn (S.held source.old) window.old.place window.old.bytes.items window.new.place window.new.bytes.items) }
    ensures same { S.held source.new ≡ S.held source.old }
{
    let known = window.bytes.len();
    source.add_piece(window.place, &mut window.bytes)?;
    let count = window.bytes.len() - known;
    match window.place.checked_add(count) {
        Some(place) => {
            window.place = place;
            Ok(count == 0)
        }
        None => Err(SourceFault::Unread),
    }
}

/// Reads as many bytes as stand in the window, or a piece more, or to the end: so a long line is looked through a few times
/// only. True: it stands at the end.
pub(crate) fn read_on<S: Source>(source: &mut S, window: &mut Window) -> Result<bool, SourceFault>
    ensures ok { IfOk result (ReadsOn (S.held source.old) window.old.place window.old.bytes.items window.new.place window.new.bytes.items) }
    ensures same { S.held source.new ≡ S.held source.old }
{
    let known = window.bytes.len();
    for _ in 0..u64::MAX {
        if read_piece(source, window)? {
            return Ok(true);
        }
        if window.bytes.len() / 2 >= known {
            return Ok(false);
        }
    }
    Err(SourceFault::Unread)
}

/// Reads on until two lines stand whole, or to the end, and returns how many do.
pub(crate) fn read_two_lines<S: Source>(
    source: &mut S,
    window: &mut Window,
) -> Result<Standing, SourceFault>
    ensures ok { IfOk result (ReadsHead (S.held source.old) window.old.place window.old.bytes.items window.new.place window.new.bytes.items) }
    ensures same { S.held source.new ≡ S.held source.old }
{
    let mut ended = false;
    for _ in 0..u64::MAX {
        let stands = lines_standing(window.bytes.as_slice());
        if ended || stands == Standing::Two {
            return Ok(stands);
        }
        ended = read_on(source, window)?;
    }
    Err(SourceFault::Unread)
}
