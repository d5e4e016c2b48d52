//! Reads a request where it stands, before its line is taken.

ghost use Rattle.std.specs.Prelude.{◌≡◌, IfSome, IfNone};
ghost use Rattle.wh_event.specs.declared.event.Command.{Command};
ghost use Rattle.wh_event.specs.Fronts.{IsAtFront};

use crate::command_line::{begins_request, put_request};
use crate::event::Command;

/// A request that stands at the front of a text as a whole line.
#[derive(Clone, Copy)]
struct FrontRequest {
    agent: u32,
    length: usize,
}

#[inline(always)]
fn front_request(text: &[u8]) -> Option<FrontRequest>
    ensures { IfSome result (λ request. IsAtFront (Command.Token request.agent) request.length text.now) }
{
    if text.len() < 16 || !begins_request(&text[..6]) {
        return None;
    }
    let number = &text[6..16];
    let mut agent: u64 = 0;
    for count in 0..10 {
        let byte = number[count];
        if byte == b'\n' && count > 0 {
            return Some(FrontRequest {
                agent: agent as u32,
                length: count + 7,
            });
        }
        if byte < b'0' || byte > b'9' {
            return None;
        }
        agent = 10 * agent + u64::from(byte - b'0');
    }
    None
}

/// Reads a request that stands at the front of a text, into a room that the caller keeps: how many bytes its line has, with
/// the line feed. None, and the room is as it was: the text has fewer than 16 bytes, or its first line has another form than
/// nearly all requests, `token AGENT` with one space between and no other blank.
#[inline(always)]
pub fn read_front_into(text: &[u8], command: &mut Command) -> Option<usize>
    ensures some { IfSome result (λ length. IsAtFront command.new length text.now) }
    ensures none { IfNone result (command.new ≡ command.old) }
{
    let request = front_request(text)?;
    put_request(request.agent, command);
    Some(request.length)
}
