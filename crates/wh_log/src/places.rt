//! What stands next in a log.

ghost use Rattle.std.specs.Prelude.{◌≡◌};

use wh_event::Entry;

/// What follows the entries that were read so far.
#[derive(Drop)]
pub enum Place<'a> {
    /// A further entry, and what follows its line.
    Next { entry: Entry, rest: &'a [u8] },
    /// The end line, and nothing else.
    End,
    /// The end line, and text after it.
    TextAfter,
    /// No line that a line feed ends.
    NoLine,
    /// A line that is neither.
    WrongLine,
}
