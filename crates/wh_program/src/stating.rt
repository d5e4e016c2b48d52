//! `state`, over the files that the options name, and what is told at its end.

ghost use Rattle.std.specs.Prelude.{◌≡◌, MatchOption, None, true};
ghost use Rattle.wh_options.specs.declared.chosen.Options.TheVariants.{State};
ghost use Rattle.wh_program.specs.Programs.{EndsStand, Stated, StatedStanding, stand_of};

use crate::running::name_beside;
use std::alloc::Global;
use std::io::{Read, Write};
use std::path::Path;
use wh_edge::{Status, Trouble};
use wh_lines::Lines;
use wh_options::{Options, StateOptions};
use wh_service::{DriveTrouble, FileJournal, write_text};

/// The options of `state`, where the vehicles' stand is asked for.
pub(crate) fn standing<'a>(options: &Options<'a>) -> Option<StateOptions<'a>>
    ensures { MatchOption result (stand_of options.now ≡ None) (λ state. (options.now ≡ State state) × (state.stand ≡ true)) }
{
    match options {
        Options::State(state) => { if state.stand { Some(*state) } else { None } }
        Options::Check(_) | Options::Replay(_) | Options::Verify(_) => None,
        Options::Live(_) | Options::Serve(_) => None,
    }
}

/// Writes the front of a log that goes on from the one in the file of the options' name.
pub(crate) fn state_by_name<R: Read, W: Write>(
    files: &HostRuntime,
    alloc: Global,
    lines: &mut Lines<R>,
    output: &mut W,
    options: &StateOptions<'_>,
) -> Result<Status, Trouble>
    ensures { Stated options.now result lines.old lines.new (W.contents output.old) (W.contents output.new) }
{
    let mut file = FileJournal::new(files, Path::new(options.log));
    wh_service::state(alloc, lines, output, options, &mut file)
}

/// Writes the front of a log that goes on from the one in the file of the options' name, as its vehicles stand by the file of arrivals
/// beside it.
pub(crate) fn stand_by_name<R: Read, W: Write>(
    files: &HostRuntime,
    alloc: Global,
    lines: &mut Lines<R>,
    output: &mut W,
    options: &StateOptions<'_>,
) -> Result<Status, DriveTrouble>
    ensures { StatedStanding options.now result lines.old lines.new (W.contents output.old) (W.contents output.new) }
{
    let Ok(at) = name_beside(alloc, options.log, ".at") else {
        return Err(DriveTrouble::Plain(Trouble::NoMemory));
    };
    let mut file = FileJournal::new(files, Path::new(options.log));
    let mut arrivals = FileJournal::new(files, Path::new(at.as_str()));
    wh_service::state_standing(alloc, lines, output, options, &mut file, &mut arrivals)
}

/// The status that tells what this came to. A trouble is told by a line on standard error, as far as that can be written.
pub(crate) fn end_stand<E: Write>(errors: &mut E, came: Result<Status, DriveTrouble>) -> Status
    ensures { EndsStand came result (E.contents errors.old) (E.contents errors.new) }
{
    match came {
        Ok(status) => status,
        Err(trouble) => {
            let _shown = write_text(errors, trouble.text().as_slice());
            trouble.status()
        }
    }
}
