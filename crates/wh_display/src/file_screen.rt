//! A file as a screen.
#![tactic(auto)]

ghost use Rattle.std.specs.Prelude.{◌∷◌, [], OnOk, OnErr};
ghost use Rattle.wh_display.specs.Screens.{Shows};

use crate::screen::{Screen, ShowFault};
use std::fs::{File, Files, Metadata, OpenOptions, symlink_metadata};
use std::io::{ErrorKind, Read, Write};
use std::os::unix::fs::{MetadataExt, OpenOptionsExt};
use std::{fs, io};

/// How a board begins.
const HEAD: &[u8; 7] = b"wboard ";

/// All may read a board.
const ALL_MAY_READ: u32 = 0o644;

/// A file of zeros that is longer is no board.
const MOST_ZEROS: u64 = 1_048_576;

/// A file that is replaced as a whole: a reader sees one text or another, never a part of one, also after a power cut. Anything
/// there that is not a board, such as a log by another name, a link or a pipe, is not replaced; a file that is empty or all zeros is a
/// board that was not written. The text is written into a file that was made for it, so no link is followed. What it shows is locked
/// until it ends, and no other screen replaces that. It tells nothing of what was shown, since others may write there.
#[derive(Drop)]
pub struct FileScreen<'a, T: Files<File = File>> {
    files: &'a T,
    path: &'a str,
    beside: String,
    /// The file with the text that was shown last, locked.
    showing: Option<File>,
}

impl<'a, T: Files<File = File>> FileScreen<'a, T> {
    /// The file of this path. A text is written to another one beside it, in the same folder, which then takes its name.
    pub fn new(files: &'a T, path: &'a str, beside: String) -> FileScreen<'a, T> {
        FileScreen {
            files,
            path,
            beside,
            showing: None,
        }
    }
}

/// What stands at a name.
#[derive(Clone, Copy, Debug, PartialEq, Eq)]
enum Found {
    Nothing,
    /// A board, or what is left of one that was not written to its end, which no other screen shows.
    Board,
    Other,
}

/// Whether the rest of a file is all zeros.
fn is_all_zeros(file: &mut File) -> io::Result<bool> {
    let mut room = [0; 4_096];
    for _ in 0..u64::MAX {
        let count = file.read(&mut room)?;
        if count == 0 {
            return Ok(true);
        }
        if room[..count].iter().any(|byte| *byte != 0) {
            return Ok(false);
        }
    }
    Ok(false)
}

/// Whether a file of this length holds a board, the beginning of one, or zeros.
fn holds_board(file: &mut File, length: u64) -> io::Result<bool> {
    let mut head = [0; HEAD.len()];
    let count = file.read(&mut head)?;
    if HEAD.starts_with(&head[..count]) {
        return Ok(true);
    }
    if length > MOST_ZEROS || head[..count].iter().any(|byte| *byte != 0) {
        return Ok(false);
    }
    is_all_zeros(file)
}

/// Whether a file is this one.
fn is_same(showing: &Option<File>, found: &Metadata) -> io::Result<bool> {
    match showing {
        Some(file) => {
            let own = file.metadata()?;
            Ok(own.dev() == found.dev() && own.ino() == found.ino())
        }
        None => Ok(false),
    }
}

/// What stands at a name, where this file is shown already. A file is opened for both ways, which waits for nobody, and is judged
/// only where it is the one that has the name itself, and not one behind a link.
fn find<T: Files<File = File>>(files: &T, path: &str, showing: &Option<File>) -> io::Result<Found> {
    let named = match symlink_metadata(files, path) {
        Ok(named) => named,
        Err(error) if error.kind() == ErrorKind::NotFound => return Ok(Found::Nothing),
        Err(error) => return Err(error),
    };
    if !named.is_file() {
        return Ok(Found::Other);
    }
    let mut file = OpenOptions::new().read(true).write(true).open(files, path)?;
    let held = file.metadata()?;
    if !held.is_file() || held.dev() != named.dev() || held.ino() != named.ino() {
        return Ok(Found::Other);
    }
    if !is_same(showing, &held)? {
        file.try_lock()?;
    }
    if holds_board(&mut file, held.len())? {
        Ok(Found::Board)
    } else {
        Ok(Found::Other)
    }
}

/// Makes a file of this name, locked, which holds the text, and syncs it. A board that was left there goes first.
fn write_anew<T: Files<File = File>>(files: &T, path: &str, text: &[u8]) -> io::Result<File> {
    match find(files, path, &None)? {
        Found::Nothing => {}
        Found::Board => fs::remove_file(files, path)?,
        Found::Other => return Err(io::Error::from(ErrorKind::AlreadyExists)),
    }
    let mut file = OpenOptions::new()
        .write(true)
        .create_new(true)
        .mode(ALL_MAY_READ)
        .open(files, path)?;
    file.try_lock()?;
    file.write_all(text)?;
    file.sync_all()?;
    Ok(file)
}

impl<'a, T: Files<File = File>> FileScreen<'a, T> {
    /// Puts a text into the file, where that holds a board or is not there, by way of another one beside it.
    fn replace(&mut self, text: &[u8]) -> io::Result<()> {
        let beside = self.beside.as_str();
        if find(self.files, self.path, &self.showing)? == Found::Other {
            return Err(io::Error::from(ErrorKind::AlreadyExists));
        }
        let file = write_anew(self.files, beside, text)?;
        fs::rename(self.files, beside, self.path)?;
        self.showing = Some(file);
        Ok(())
    }
}

impl<'a, T: Files<File = File>> Screen for FileScreen<'a, T> {
    fn show(&mut self, text: &[u8]) -> Result<(), ShowFault> {
        match self.replace(text) {
            Ok(()) => Ok(()),
            Err(_) => Err(ShowFault::Unshown),
        }
    }
}
