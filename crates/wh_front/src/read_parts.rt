//! Reads what follows the first word of a line.

ghost use Rattle.std.specs.Prelude.{◌≡◌, ◌≤◌, true, false, length};
ghost use Rattle.wh_log.specs.Reading as given;
ghost use Rattle.wh_front.specs.Reading as reading;
ghost use Rattle.wh_front.specs.Reading.{Gives, Reads, Fails};

use crate::before::Before;
use crate::form_fault::FormFault;
use crate::front::Seat;
use crate::line::Line;
use crate::read_lists::cells;
use crate::read_words::{at_end, clock_number, closed, kind, literal, slots, small, sum, wide};
use crate::rules::Rules;
use std::alloc::Global;
use wh_path::TimedPath;
use wh_words::Words;

#[tactic(auto, unfolding(crate::specs::Reading::log_of))]
fn log(number: u32, mut words: Words) -> Result<Before, FormFault>
    ensures { Gives (λ x. x) result (reading.log_of number words.entry) }
{
    let bytes = wide(&mut words)?;
    let sum = sum(&mut words)?;
    at_end(words, Before::Log { number, bytes, sum })
}

/// The log before.
#[tactic(auto, unfolding(crate::specs::Reading::before_of))]
pub fn before(mut words: Words) -> Result<Before, FormFault>
    ensures { Gives (λ x. x) result (reading.before_of words.entry) }
{
    let number = small(&mut words)?;
    if number == 0 {
        at_end(words, Before::Nothing)
    } else {
        log(number, words)
    }
}

#[tactic(auto, unfolding(crate::specs::Reading::age_of))]
fn age(homes: bool, mut words: Words) -> Result<Rules, FormFault>
    ensures { Gives (λ x. x) result (reading.age_of homes words.entry) }
{
    let age = clock_number(&mut words)?;
    if age < 1 {
        return Err(FormFault::Form);
    }
    at_end(
        words,
        Rules {
            homes,
            age: Some(age),
        },
    )
}

#[tactic(auto, unfolding(crate::specs::Reading::homes_of))]
fn homes(mut words: Words) -> Result<Rules, FormFault>
    ensures { Gives (λ x. x) result (reading.homes_of words.entry) }
{
    let Some(word) = words.next_word() else {
        return Ok(Rules {
            homes: true,
            age: None,
        });
    };
    if word == b"age".as_slice() {
        age(true, words)
    } else {
        Err(FormFault::Form)
    }
}

#[tactic(auto, unfolding(crate::specs::Reading::ends_of))]
fn ends(mut words: Words) -> Result<Rules, FormFault>
    ensures { Gives (λ x. x) result (reading.ends_of words.entry) }
{
    literal(&mut words, b"homes")?;
    homes(words)
}

/// The rules that are not the defaults, one at least.
#[tactic(auto, unfolding(crate::specs::Reading::rules_of))]
pub fn rules(mut words: Words) -> Result<Rules, FormFault>
    ensures { Gives (λ x. x) result (reading.rules_of words.entry) }
{
    let Some(word) = words.next_word() else {
        return Err(FormFault::Form);
    };
    if word == b"ends".as_slice() {
        ends(words)
    } else if word == b"age".as_slice() {
        age(false, words)
    } else {
        Err(FormFault::Form)
    }
}

/// The clock of a state, whether it is closed, and where it comes from.
#[tactic(auto, unfolding(crate::specs::Reading::state_of))]
pub fn state(mut words: Words) -> Result<Line, FormFault>
    ensures { Gives (λ x. x) result (reading.state_of words.entry) }
{
    let clock = clock_number(&mut words)?;
    let closed = closed(&mut words)?;
    let kind = kind(&mut words)?;
    at_end(
        words,
        Line::State {
            clock,
            closed,
            kind,
        },
    )
}

/// How many agents there are.
#[tactic(auto, unfolding(crate::specs::Reading::agents_of))]
pub fn agents(mut words: Words) -> Result<u32, FormFault>
    ensures { Gives (λ x. x) result (reading.agents_of words.entry) }
{
    let count = small(&mut words)?;
    if count >= 1 && count <= 256 {
        at_end(words, count)
    } else {
        Err(FormFault::Form)
    }
}

/// The path that all words that are left tell.
#[tactic(auto, unfolding(crate::specs::Reading::path_of))]
fn path(alloc: Global, words: Words) -> Result<TimedPath, FormFault>
    ensures { Gives (λ x. x) result (reading.path_of words.entry) }
{
    let cells = cells(alloc, words)?;
    if cells.is_empty() {
        Err(FormFault::Form)
    } else {
        Ok(TimedPath::over(cells))
    }
}

/// An agent's slots and path.
#[tactic(auto, unfolding(crate::specs::Reading::seat_of))]
pub fn seat(alloc: Global, mut words: Words) -> Result<Seat, FormFault>
    ensures { Gives (λ x. x) result (reading.seat_of words.entry) }
{
    literal(&mut words, b"slots")?;
    let slots = slots(&mut words)?;
    literal(&mut words, b"path")?;
    let path = path(alloc, words)?;
    Ok(Seat { slots, path })
}
