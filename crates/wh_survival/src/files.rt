//! A journal in a real file: what is made, read, cut, refused and left alone.

use std::alloc::Global;
use std::fs;
use std::path::Path;
use std::test::*;
use wh_journal::{FileJournal, Journal, LogFile, LogFileFault};
use wh_log::{Source, SourceFault};

const TEXT: &[u8] = b"one\ntwo\nthr";

/// Makes an empty folder, also where an earlier run left one.
pub fn make_folder(rt: &HostRuntime, folder: &str) -> Result<(), Fail> {
    let _ = fs::remove_dir_all(rt, folder);
    Ok(fs::create_dir(rt, folder)?)
}

/// Whether these bytes stand in a file.
pub fn holds(rt: &HostRuntime, path: Path<'_>, bytes: &[u8]) -> Result<bool, Fail> {
    Ok(fs::read(rt, path)?.as_slice() == bytes)
}

/// Whether these bytes are the text that a journal tells.
fn tells(alloc: Global, journal: &mut FileJournal<'_, HostRuntime>, bytes: &[u8]) -> bool {
    match journal.text(alloc) {
        Ok(text) => text.as_slice() == bytes,
        Err(_) => false,
    }
}

/// Whether these bytes are what a journal tells piece by piece.
fn tells_in_pieces(
    alloc: Global,
    journal: &mut FileJournal<'_, HostRuntime>,
    bytes: &[u8],
) -> bool {
    let mut told = Vec::new(alloc);
    for _ in 0..100 {
        let place = told.len();
        if journal.add_piece(place, &mut told).is_err() {
            return false;
        }
        if told.len() == place {
            return told.as_slice() == bytes;
        }
    }
    false
}

fn is_unread(alloc: Global, journal: &mut FileJournal<'_, HostRuntime>) -> bool {
    matches!(journal.text(alloc), Err(LogFileFault::Unread))
}

/// Whether no file stands there until a journal is cut to nothing, and then what is appended to it.
fn is_made(
    rt: &HostRuntime,
    path: Path<'_>,
    journal: &mut FileJournal<'_, HostRuntime>,
) -> Result<bool, Fail> {
    Ok(
        tells(rt.alloc(), journal, b"")
            && !fs::exists(rt, path)?
            && journal.cut(0).is_ok()
            && journal.append(TEXT).is_ok()
            && journal.sync().is_ok()
            && holds(rt, path, TEXT)?,
    )
}

/// Whether the text is cut behind its whole lines, and goes on there.
fn is_cut(
    rt: &HostRuntime,
    path: Path<'_>,
    journal: &mut FileJournal<'_, HostRuntime>,
) -> Result<bool, Fail> {
    Ok(
        tells(rt.alloc(), journal, TEXT)
            && journal.cut(8).is_ok()
            && holds(rt, path, b"one\ntwo\n")?
            && journal.append(b"four\n").is_ok()
            && tells(rt.alloc(), journal, b"one\ntwo\nfour\n"),
    )
}

#[test]
fn made_cut_and_read_again(rt: HostRuntime) -> Result<(), Fail> {
    make_folder(&rt, "survival_made")?;
    let path = Path::new("survival_made/run.log");
    let mut first = FileJournal::new(&rt, path);
    let is_made = is_made(&rt, path, &mut first);
    drop(first);
    assert!(rt; is_made?);
    let mut second = FileJournal::new(&rt, path);
    let is_cut = is_cut(&rt, path, &mut second);
    drop(second);
    assert!(rt; is_cut?);
    Ok(fs::remove_dir_all(&rt, "survival_made")?)
}

/// Whether a second journal cannot have the file of a first one, which may be cut to no more than it is, and has failed then.
fn is_locked(
    alloc: Global,
    first: &mut FileJournal<'_, HostRuntime>,
    second: &mut FileJournal<'_, HostRuntime>,
) -> bool {
    tells(alloc, first, TEXT)
        && is_unread(alloc, second)
        && second.cut(0).is_err()
        && first.cut(12).is_err()
        && first.append(b"more").is_err()
}

/// Whether a journal takes nothing before it is cut, and has failed then.
fn is_refused(
    rt: &HostRuntime,
    path: Path<'_>,
    journal: &mut FileJournal<'_, HostRuntime>,
) -> Result<bool, Fail> {
    Ok(
        tells(rt.alloc(), journal, TEXT)
            && journal.append(b"more").is_err()
            && journal.cut(0).is_err()
            && holds(rt, path, TEXT)?,
    )
}

#[test]
fn refused_and_left_alone(rt: HostRuntime) -> Result<(), Fail> {
    make_folder(&rt, "survival_refused")?;
    let path = Path::new("survival_refused/run.log");
    fs::write(&rt, path, TEXT)?;
    let mut first = FileJournal::new(&rt, path);
    let mut second = FileJournal::new(&rt, path);
    let is_locked = is_locked(rt.alloc(), &mut first, &mut second);
    drop(first);
    let mut third = FileJournal::new(&rt, path);
    let is_refused = is_refused(&rt, path, &mut third);
    drop(second);
    drop(third);
    assert!(rt; is_refused? && is_locked);
    let folder = Path::new("survival_refused");
    assert!(rt; is_unread(rt.alloc(), &mut FileJournal::new(&rt, folder)));
    Ok(fs::remove_dir_all(&rt, folder)?)
}

/// Whether a journal that told a text is not cut where another text stands by then, and that one stays.
fn is_kept(
    rt: &HostRuntime,
    path: Path<'_>,
    journal: &mut FileJournal<'_, HostRuntime>,
    before: &[u8],
    meanwhile: &[u8],
    bytes: usize,
) -> Result<bool, Fail> {
    let is_told = tells(rt.alloc(), journal, before);
    fs::write(rt, path, meanwhile)?;
    Ok(is_told && journal.cut(bytes).is_err() && holds(rt, path, meanwhile)?)
}

#[test]
fn made_or_written_meanwhile(rt: HostRuntime) -> Result<(), Fail> {
    make_folder(&rt, "survival_meanwhile")?;
    let path = Path::new("survival_meanwhile/run.log");
    let mut first = FileJournal::new(&rt, path);
    assert!(rt; is_kept(&rt, path, &mut first, b"", TEXT, 0)?);
    let mut second = FileJournal::new(&rt, path);
    assert!(rt; is_kept(&rt, path, &mut second, TEXT, b"one\n", 4)?);
    Ok(fs::remove_dir_all(&rt, "survival_meanwhile")?)
}

/// The text again and again.
fn long_text(alloc: Global) -> Result<Vec<u8>, Fail> {
    let mut text = Vec::new(alloc);
    for _ in 0..10_000 {
        text.extend_from_slice(TEXT)?;
    }
    Ok(text)
}

/// Whether a journal tells nothing of a file that another one has.
fn tells_nothing(alloc: Global, journal: &mut FileJournal<'_, HostRuntime>) -> bool {
    let mut none = Vec::new(alloc);
    journal.add_piece(0, &mut none) == Err(SourceFault::Unread) && none.is_empty()
}

/// Whether a journal that is cut behind its first 70,000 bytes goes on there.
fn goes_on(
    rt: &HostRuntime,
    path: Path<'_>,
    journal: &mut FileJournal<'_, HostRuntime>,
    text: &mut Vec<u8>,
) -> Result<bool, Fail> {
    let is_longer = journal.cut(70_000).is_ok()
        && journal.append(TEXT).is_ok()
        && journal.sync().is_ok();
    text.truncate(70_000);
    text.extend_from_slice(TEXT)?;
    Ok(
        is_longer
            && holds(rt, path, text.as_slice())?
            && tells_in_pieces(rt.alloc(), journal, text.as_slice()),
    )
}

/// Whether a long text is told piece by piece, to one journal, and goes on.
fn is_told_in_pieces(
    rt: &HostRuntime,
    path: Path<'_>,
    text: &mut Vec<u8>,
    first: &mut FileJournal<'_, HostRuntime>,
    second: &mut FileJournal<'_, HostRuntime>,
) -> Result<bool, Fail> {
    Ok(
        tells_in_pieces(rt.alloc(), first, text.as_slice())
            && tells_nothing(rt.alloc(), second)
            && goes_on(rt, path, first, text)?,
    )
}

#[test]
fn read_piece_by_piece(rt: HostRuntime) -> Result<(), Fail> {
    make_folder(&rt, "survival_pieces")?;
    let path = Path::new("survival_pieces/run.log");
    assert!(rt; tells_in_pieces(rt.alloc(), &mut FileJournal::new(&rt, path), b""));
    assert!(rt; !fs::exists(&rt, path)?);
    let mut text = long_text(rt.alloc())?;
    fs::write(&rt, path, text.as_slice())?;
    let mut first = FileJournal::new(&rt, path);
    let mut second = FileJournal::new(&rt, path);
    let is_told = is_told_in_pieces(&rt, path, &mut text, &mut first, &mut second);
    drop(first);
    drop(second);
    assert!(rt; is_told?);
    Ok(fs::remove_dir_all(&rt, "survival_pieces")?)
}
