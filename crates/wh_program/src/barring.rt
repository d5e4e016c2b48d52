//! What keeps a run over files from beginning before its input is read.

ghost use Rattle.std.specs.Prelude.{◌≡◌, IfErr, OnOk, is_some};
ghost use Rattle.wh_program.specs.Barring.{Begins, IsBarred, IsWhyBarred, MayBegin, names_run};
ghost use Rattle.wh_program.specs.Programs.{pace_of};

use crate::driving::late;
use crate::running::{name_beside, names_beside};
use std::alloc::Global;
use std::fs::{Files, metadata};
use std::os::unix::fs::MetadataExt;
use std::path::Path;
use wh_continue::{FileJournal, LogFile, LogFileFault};
use wh_convoy::is_driven;
use wh_edge::Trouble;
use wh_options::{Options, VehicleOptions};

/// The files that standard output and standard error are, by the names that the system gives these.
const OUTPUT: &str = "/proc/self/fd/1";

const ERRORS: &str = "/proc/self/fd/2";

/// Why a run is not begun, and whether that may be told on standard error: not where that is a file of the run.
#[derive(Clone, Copy, Debug, PartialEq, Eq)]
pub(crate) struct Bar {
    pub trouble: Trouble,
    pub is_told: bool,
}

/// The name of the log file of the run that the options name, if they name one.
fn run_name<'a>(options: &Options<'a>) -> Option<&'a str>
    ensures { is_some result ≡ names_run options.now }
{
    match options {
        Options::Replay(options) => options.log,
        Options::Serve(options) => Some(options.log),
        Options::Check(_) | Options::Verify(_) | Options::Live(_) | Options::State(_) => None,
    }
}

/// The name of the file that shows the board, if there is one.
fn board_name<'a>(options: &Options<'a>) -> Option<&'a str> {
    match options {
        Options::Serve(options) => options.board,
        _ => None,
    }
}

/// Whether both names are of one regular file. Where the system does not tell, they are not.
fn are_one<T: Files>(files: &T, path: &str, other: &str) -> bool {
    match (metadata(files, path), metadata(files, other)) {
        (Ok(one), Ok(two)) => { one.is_file() && one.dev() == two.dev() && one.ino() == two.ino() }
        _ => false,
    }
}

/// Whether a stream is one of the files of a run.
fn is_of_run<T: Files>(files: &T, stream: &str, names: &[&str]) -> bool {
    names.iter().any(|name| are_one(files, *name, stream))
}

/// Whether a run may begin: neither standard output nor standard error is a file of it, which would be written over; and where no vehicles
/// carry it out, none has so far. What is wrong with the streams is told first. Nothing changes.
fn may_begin<L: LogFile>(
    alloc: Global,
    is_own: bool,
    pace: Option<VehicleOptions>,
    arrivals: &mut L,
) -> Result<(), Trouble>
    ensures ok { OnOk result (MayBegin is_own pace (L.contents arrivals.old)) }
    ensures fault { IfErr result (IsWhyBarred is_own pace (L.contents arrivals.old)) }
    ensures same { L.contents arrivals.new ≡ L.contents arrivals.old }
{
    if is_own {
        return Err(Trouble::OwnOutput);
    }
    if pace.is_some() {
        return Ok(());
    }
    let text = match arrivals.text(alloc) {
        Ok(text) => text,
        Err(LogFileFault::Unread) => return Err(Trouble::Unkept),
        Err(LogFileFault::NoMemory) => return Err(Trouble::NoMemory),
    };
    if is_driven(text.as_slice()) {
        Err(Trouble::Unmanned)
    } else {
        Ok(())
    }
}

/// How vehicles carry out the plan, if they do.
fn pace<'a>(options: &Options<'a>) -> Option<VehicleOptions>
    ensures { result ≡ pace_of options.now }
{
    match late(options) {
        Some((_, pace)) => Some(pace),
        None => None,
    }
}

/// Finds out whether a run over the files that the options name may begin, by what the system tells of these and of the standard streams, and
/// by what the file of arrivals holds.
pub(crate) fn let_begin(
    files: &HostRuntime,
    alloc: Global,
    options: &Options<'_>,
) -> Result<(), Bar>
    ensures ok { OnOk result (Begins options.now (pace_of options.now)) }
    ensures fault { IfErr result (λ bar. IsBarred options.now (pace_of options.now) bar.trouble) }
{
    let Some(log) = run_name(options) else {
        return Ok(());
    };
    let Ok((site, at)) = names_beside(alloc, log) else {
        return Err(Bar {
            trouble: Trouble::NoMemory,
            is_told: true,
        });
    };
    // the log stands in for a board that is not shown
    let board = board_name(options).unwrap_or(log);
    let Ok(next) = name_beside(alloc, board, ".new") else {
        return Err(Bar {
            trouble: Trouble::NoMemory,
            is_told: true,
        });
    };
    let names = [log, site.as_str(), at.as_str(), board, next.as_str()];
    let is_told = !is_of_run(files, ERRORS, names.as_slice());
    let is_own = !is_told || is_of_run(files, OUTPUT, names.as_slice());
    let mut arrivals = FileJournal::new(files, Path::new(at.as_str()));
    match may_begin(alloc, is_own, pace(options), &mut arrivals) {
        Ok(()) => Ok(()),
        Err(trouble) => Err(Bar { trouble, is_told }),
    }
}
