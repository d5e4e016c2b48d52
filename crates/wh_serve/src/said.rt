//! What a line of a client says.

ghost use Rattle.std.specs.Prelude.{◌≡◌};
ghost use Rattle.wh_lines.specs.Text.{short_line};
ghost use Rattle.wh_text.specs.Words.{words_of};
ghost use Rattle.wh_serve.specs.Sayings.{are_stop, said};

use wh_event::{Command, LineFault, read_line};
use wh_lines::CommandLine;
use wh_text::Words;

/// What a line of a client says.
#[derive(Drop)]
pub(crate) enum Said {
    /// It asks for nothing.
    Nothing,
    /// It asks for a command.
    Asks(Command),
    /// It asks to stop the service, which is no command of the warehouse.
    Stop,
    /// It is of no such form.
    NoCommand(LineFault),
}

/// Whether a line is the word `stop`, and perhaps blanks.
#[tactic(auto, using(crate::proofs::Sayings::not_stop))]
fn is_stop(line: &[u8]) -> bool
    ensures { result ≡ are_stop (words_of line.now) }
{
    let mut words = Words::of(line);
    match words.next_word() {
        Some(word) => word == b"stop".as_slice() && words.next_word().is_none(),
        None => false,
    }
}

/// Whether a line asks to stop the service.
pub(crate) fn asks_stop(line: &CommandLine) -> bool {
    match line.text() {
        Some(text) => is_stop(text),
        None => false,
    }
}

/// What a line says, of which only a front is kept.
pub(crate) fn said_by(line: &CommandLine) -> Said
    ensures { result ≡ said (short_line line.now) }
{
    let Some(text) = line.text() else {
        return Said::NoCommand(LineFault::TooLong);
    };
    if is_stop(text) {
        return Said::Stop;
    }
    match read_line(text) {
        Ok(Some(command)) => Said::Asks(command),
        Ok(None) => Said::Nothing,
        Err(fault) => Said::NoCommand(fault),
    }
}
