//! Reads a file of arrivals.

ghost use Rattle.std.specs.Prelude.{◌≡◌, ◌<◌, IfNone, IfSome, IfOk, IfErr, length, max, replicate, slice_index, slice_set};
ghost use Rattle.wh_vehicles.specs.declared.report.Report.{Report as Told};
ghost use Rattle.wh_arrivals.specs.declared.reading.ReadFault.TheVariants as fault;
ghost use Rattle.wh_arrivals.specs.Arrivals.{IsArrival, TellsSteps, TellsFault};

use std::alloc::{AllocError, Global};
use wh_vehicles::{Report, read_report};
use wh_words::whole_line;

/// Why a file of arrivals tells no steps.
#[derive(Clone, Copy, Debug, PartialEq, Eq)]
pub enum ReadFault {
    /// Memory ran out.
    NoMemory,
    /// The first line, from 1, that is no report, or one of an agent that there is not.
    BadLine(u64),
}

impl From<AllocError> for ReadFault {
    ghost from_gives = { λ _ e. e ≡ fault.NoMemory };

    fn from(_e: AllocError) -> ReadFault {
        ReadFault::NoMemory
    }
}

/// What a line reports of one of the given number of agents.
fn arrival(agents: u32, line: &[u8]) -> Option<Report>
    ensures none { IfNone result ((report : Told) → ¬ IsArrival agents line.now report) }
    ensures some { IfSome result (IsArrival agents line.now) }
{
    let report = read_report(line)?;
    if report.agent < agents {
        Some(report)
    } else {
        None
    }
}

/// Step 0 for each of the given number of agents.
fn no_steps(alloc: Global, agents: u32) -> Result<Vec<u64>, AllocError>
    ensures { IfOk result (λ steps. steps.items ≡ replicate agents 0) }
{
    vec![in alloc; 0; agents as usize]
}

/// The report's step is the agent's, unless the agent has come further.
fn note(steps: &mut Vec<u64>, report: Report)
    requires { report.agent < length steps.old.items }
    ensures { steps.new.items ≡ slice_set steps.old.items report.agent (max (slice_index steps.old.items report.agent) report.step) }
{
    let agent = report.agent as usize;
    steps[agent] = steps[agent].max(report.step);
}

/// The step at which each of a number of vehicles has arrived, by the text of a file of arrivals: lines `at AGENT STEP`. The file
/// may have been cut anywhere: what follows the last line feed is not an arrival. It reads the text once, and takes memory
/// for one number an agent.
pub fn read_arrivals(alloc: Global, agents: u32, text: &[u8]) -> Result<Vec<u64>, ReadFault>
    ensures ok { IfOk result (λ steps. TellsSteps agents text.now steps.items) }
    ensures err { IfErr result (TellsFault agents text.now) }
{
    let mut steps = no_steps(alloc, agents)?;
    let mut rest = text;
    let mut lines = 0u64;
    while let Some((line, after)) = whole_line(rest) {
        lines += 1;
        let Some(report) = arrival(agents, line) else {
            return Err(ReadFault::BadLine(lines));
        };
        note(&mut steps, report);
        rest = after;
    }
    Ok(steps)
}
