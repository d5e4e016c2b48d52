//! The first line of a log, and a source that is read from its front.
#![tactic(auto)]

ghost use Rattle.std.specs.Prelude.{◌≡◌, ◌↔◌, IsTrue, IfSome, OnOk};
ghost use Rattle.wh_resume.specs.Behind.{IsVersionThree};
ghost use Rattle.wh_resume.specs.Resuming.{IsFront};
ghost use Rattle.wh_resume.specs.Looking.{HoldsAtLeast};

use wh_log::{Source, SourceFault};

/// The first line of a log of version 3.
const TITLE: &[u8] = b"wlog 3\n";

/// How many bytes tell whether a log is of version 3.
pub(crate) const TITLE_BYTES: usize = 7;

/// Whether the first line is that of a log of version 3.
pub(crate) fn is_version_three(text: &[u8]) -> bool
    ensures { IsTrue result ↔ IsVersionThree text.now }
{
    text.starts_with(TITLE)
}

/// Reads a source on, behind what was read from its front, until so many bytes were read in all, or to its end.
pub(crate) fn read_from<S: Source>(
    source: &mut S,
    read: &mut Vec<u8>,
    least: usize,
) -> Result<(), SourceFault>
    requires { IfSome (S.held source.old) (IsFront read.old.items) }
    ensures ok { OnOk result (HoldsAtLeast (S.held source.old) least read.new.items) }
    ensures kept { OnOk result (IsFront read.old.items read.new.items) }
    ensures same { S.held source.new ≡ S.held source.old }
{
    for _ in 0..u64::MAX {
        let place = read.len();
        if place >= least {
            return Ok(());
        }
        source.add_piece(place, read)?;
        if read.len() == place {
            return Ok(());
        }
    }
    Err(SourceFault::Unread)
}
