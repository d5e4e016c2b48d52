//! A line in a fixed room, so that a line of any length takes no memory.
ghost use Rattle.std.specs.Prelude.{◌≡◌, ◌≤◌, [], ◌++◌, length, take, MatchOption, Some, None};
ghost use Rattle.wh_lines.specs.Text.{short_line};

use std::marker::Model;
use wh_text::trimmed;

/// The first 258 bytes of a line: 256, a carriage return, and one more by which a longer line is known.
#[derive(Drop)]
pub struct CommandLine {
    bytes: [u8; 258],
    length: usize,
}

impl Model for CommandLine {
    ghost use Rattle.std.specs.Prelude.{ℕ, List, take, ◌≤◌};

    ghost Value = { List ℕ };

    ghost view = { λ l. take l.length l.bytes };

    ghost invariant = { λ l. l.length ≤ 258 };
}

impl CommandLine {
    /// An empty line.
    pub fn new() -> CommandLine
        ensures { result ≡ [] }
    {
        CommandLine {
            bytes: [0; 258],
            length: 0,
        }
    }

    /// The bytes that are kept.
    pub fn bytes(&self) -> &[u8]
        ensures { result.now ≡ self.now }
    {
        &self.bytes[..self.length]
    }

    /// The line without one carriage return at its end. None: that is longer than 256 bytes.
    pub fn text(&self) -> Option<&[u8]>
        ensures { MatchOption result (short_line self.now ≡ None) (λ text. short_line self.now ≡ Some text.now) }
    {
        let text = trimmed(self.bytes());
        if text.len() <= 256 { Some(text) } else { None }
    }

    pub(crate) fn clear(&mut self)
        ensures { self.new ≡ [] }
    {
        self.length = 0;
    }

    /// Keeps a front of up to 32 bytes of a text. All 32 are copied, since a copy of a fixed size takes no call.
    pub(crate) fn keep_front(&mut self, text: &[u8], count: usize)
        requires room { 32 ≤ length text.now }
        requires count { count ≤ 32 }
        ensures { self.new ≡ take count text.now }
    {
        self.bytes[..32].copy_from_slice(&text[..32]);
        self.length = count;
    }

    /// Adds the bytes for which there is room.
    pub(crate) fn add(&mut self, piece: &[u8])
        ensures { self.new ≡ take 258 (self.old ++ piece.now) }
    {
        let room = 258 - self.length;
        let count = if piece.len() < room {
            piece.len()
        } else {
            room
        };
        let end = self.length + count;
        self.bytes[self.length..end].copy_from_slice(&piece[..count]);
        self.length = end;
    }
}
