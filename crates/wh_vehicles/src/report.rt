//! Reads the line by which a vehicle reports.

ghost use Rattle.std.specs.Prelude.{◌≡◌, ◌≤◌, ◌↔◌, length, Some, Err, IfSome};
ghost use Rattle.wh_text.specs.Words.{words_of};
ghost use Rattle.wh_event.specs.CommandLines.{command_of};
ghost use Rattle.wh_event.specs.declared.fault.LineFault.TheVariants.{Form};
ghost use Rattle.wh_vehicles.specs.Reports as texts;
ghost use Rattle.wh_vehicles.specs.Reports.{Says, report_of, report_by};
ghost use Rattle.wh_vehicles.specs.declared.report.Report.{Report as Told};

use wh_text::{Words, number_up_to, small_number};

/// An agent's vehicle has arrived at a step of its way.
#[derive(Clone, Copy, Debug, PartialEq, Eq)]
pub struct Report {
    pub agent: u32,
    pub step: u64,
}

/// What the two words say that are left.
fn numbers_of(mut words: Words) -> Option<Report>
    ensures { result ≡ texts.numbers_of words.entry }
{
    let agent = words.next_word()?;
    let step = words.next_word()?;
    if words.next_word().is_some() {
        return None;
    }
    let agent = small_number(agent)?;
    let step = number_up_to(step, u32::MAX)?;
    Some(Report {
        agent,
        step: u64::from(step),
    })
}

fn read_words(mut words: Words) -> Option<Report>
    ensures { result ≡ report_by words.entry }
{
    let name = words.next_word()?;
    if name == b"at".as_slice() {
        numbers_of(words)
    } else {
        None
    }
}

fn report_in(line: &[u8]) -> Option<Report>
    ensures { result ≡ report_of line.now }
{
    if line.len() > 256 {
        return None;
    }
    read_words(Words::of(line))
}

/// What a line reports, without its line's end, if it is one of `at AGENT STEP`. Such a line is no command; any other line
/// beside commands, also one of `at` with other words behind, is what it is as a command's.
pub fn read_report(line: &[u8]) -> Option<Report>
    ensures exact { result ≡ report_of line.now }
    ensures report { (report : Told) → (result ≡ Some report) ↔ ((length line.now ≤ 256) × Says report (words_of line.now)) }
    ensures no_command { IfSome result (λ _. command_of line.now ≡ Err Form) }
{
    report_in(line)
}
