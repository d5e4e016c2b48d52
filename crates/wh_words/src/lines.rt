//! The first line of a text.

ghost use Rattle.std.specs.Prelude.{◌≡◌, ◌∷◌, ◌++◌, IfNone, IfSome};
ghost use Rattle.wh_text.specs.Lines.{IsLine};

use crate::cuts::around;
use wh_text::first_line_feed;

/// The first line of a text and what follows its line feed, or None where no line feed stands.
pub fn whole_line(text: &[u8]) -> Option<(&[u8], &[u8])>
    ensures none { IfNone result (IsLine text.now) }
    ensures line { IfSome result (λ parts. IsLine parts.0.now) }
    ensures parts { IfSome result (λ parts. text.now ≡ parts.0.now ++ 10 ∷ parts.1.now) }
{
    match first_line_feed(text) {
        Some(end) => Some(around(text, end)),
        None => None,
    }
}
