//! A journal in a file.
#![tactic(auto)]

ghost use Rattle.std.specs.Prelude.{◌≡◌, None, OnOk, false, refl};
ghost use Rattle.std.specs.Io.{ReadsAtMost};
ghost use Rattle.wh_log.specs.Sources.{AddsPiece};

use crate::journal::{Journal, JournalFault};
use crate::log_file::{LogFile, LogFileFault};
use std::alloc::Global;
use std::fs::{File, Files, OpenOptions, metadata};
use std::io;
use std::io::{ErrorKind, Read, Seek, SeekFrom};
use std::os::unix::fs::{MetadataExt, OpenOptionsExt};
use std::path::Path;
use wh_log::{PIECE, Source, SourceFault};
use wh_replay::write_all;

/// Who may read and write a file that is made: its owner alone.
const OWNER_ALONE: u32 = 0o600;

/// A file that is open and locked. What is appended goes after its last byte.
#[derive(Drop)]
struct OpenLog {
    file: File,
    length: u64,
    /// How many bytes of it were synced.
    safe: u64,
    /// Whether it was cut: before that nothing is appended.
    is_cut: bool,
}

/// What is known of what stands at a path.
#[derive(Drop)]
enum Standing {
    Unread,
    Missing,
    Found(OpenLog),
}

/// A journal in the file at a path. No contract can say anything of a file's bytes.
///
/// `text`, or the first piece that is read, opens what stands there, never empties it, and locks it before a byte is read; one that
/// another has locked, or that is no regular file, is `Unread`, and is left as it is. Where nothing stands, nothing is made, and the
/// text is empty. `put` writes one byte over another, and syncs. `cut` makes the file where nothing stood, for its owner alone, sets its
/// length, and syncs it and its folder. Both fail, and touch nothing, where nothing was read before, where the file had fewer bytes as it
/// was opened, and where another made the file or changed its length since.
///
/// No call succeeds on a file that is not the one at the path any more, or has another length than was written to it: one that others
/// renamed, removed, replaced, cut or wrote to. It is looked at before each byte is written, and after each sync, and is left as it is.
///
/// After a sync that failed, a later one may succeed although bytes were lost, so from the first fault on each call fails and
/// no byte is written. On the first fault of a write or a sync the file is set back to its length at the last sync, where
/// that can be done: it then holds what was synced, and nothing more. That may be less than a journal that tells its
/// bytes says it holds then, and is no less than was synced.
#[derive(Drop)]
pub struct FileJournal<'a, R> {
    files: &'a R,
    path: Path<'a>,
    standing: Standing,
    has_failed: bool,
}

/// Locks a file, where no other has it and it is a regular one.
fn lock(file: &File) -> io::Result<()> {
    file.try_lock()?;
    if !file.metadata()?.is_file() {
        return Err(io::Error::from(ErrorKind::InvalidInput));
    }
    Ok(())
}

/// Opens what stands at a path, where something does, and makes nothing.
fn open_standing<R: Files<File = File>>(files: &R, path: Path<'_>) -> io::Result<Option<File>> {
    match OpenOptions::new().read(true).write(true).open(files, path) {
        Ok(file) => Ok(Some(file)),
        Err(error) if error.kind() == ErrorKind::NotFound => Ok(None),
        Err(error) => Err(error),
    }
}

/// Adds to a buffer a piece of a file's bytes after the first `place`.
fn read_piece(file: &mut File, place: u64, buffer: &mut Vec<u8>) -> io::Result<()>
    ensures { OnOk result (AddsPiece None place buffer.old.items buffer.new.items) }
{
    let mut room = [0; PIECE];
    file.seek(SeekFrom::Start(place))?;
    let count = read_again(file, &mut room)?;
    buffer.extend_from_slice(&room[..count])?;
    Ok(())
}

/// All bytes of a file.
fn read_whole(alloc: Global, file: &mut File) -> io::Result<Vec<u8>> {
    let mut text: Vec<u8> = Vec::new(alloc);
    file.seek(SeekFrom::Start(0))?;
    file.read_to_end(&mut text)?;
    Ok(text)
}

/// Locks a file, and reads it.
fn lock_and_read(alloc: Global, file: &mut File) -> io::Result<Vec<u8>> {
    lock(file)?;
    read_whole(alloc, file)
}

/// Reads once, and again where that was interrupted.
fn read_again(file: &mut File, room: &mut [u8]) -> io::Result<usize>
    ensures { ReadsAtMost result room.new }
{
    for _ in 0..1_000 {
        match file.read(room) {
            Ok(count) => return Ok(count),
            Err(error) if error.kind() == ErrorKind::Interrupted => {}
            Err(error) => return Err(error),
        }
    }
    Err(io::Error::from(ErrorKind::Interrupted))
}

/// Makes a file where nothing stands, and locks it.
fn make<R: Files<File = File>>(files: &R, path: Path<'_>) -> io::Result<File> {
    let file = OpenOptions::new()
        .read(true)
        .write(true)
        .create_new(true)
        .mode(OWNER_ALONE)
        .open(files, path)?;
    match lock(&file) {
        Ok(()) => Ok(file),
        Err(error) => Err(error),
    }
}

/// Syncs the folder that a path names, so that the file's name survives a power cut.
fn sync_folder<R: Files<File = File>>(files: &R, path: Path<'_>) -> io::Result<()> {
    let folder = match path.parent() {
        Some(folder) if !folder.as_os_str().is_empty() => folder,
        _ => Path::new("."),
    };
    let folder = File::open(files, folder)?;
    folder.sync_all()
}

impl OpenLog {
    fn new(file: File, length: u64) -> OpenLog {
        OpenLog {
            file,
            length,
            safe: length,
            is_cut: false,
        }
    }

    /// Appends bytes to the file at this path, where it still is this one.
    fn append<R: Files<File = File>>(
        &mut self,
        files: &R,
        path: Path<'_>,
        bytes: &[u8],
    ) -> Result<(), JournalFault> {
        if !self.is_cut || !self.is_still_at(files, path) {
            return Err(JournalFault);
        }
        if self.write_at(self.length, bytes).is_err() {
            self.set_back();
            return Err(JournalFault);
        }
        self.length = self.length.saturating_add(bytes.len() as u64);
        Ok(())
    }

    /// Syncs the file, which then still is the one at this path.
    fn sync<R: Files<File = File>>(
        &mut self,
        files: &R,
        path: Path<'_>,
    ) -> Result<(), JournalFault> {
        if !self.is_cut {
            return Err(JournalFault);
        }
        if self.file.sync_data().is_err() {
            self.set_back();
            return Err(JournalFault);
        }
        self.safe = self.length;
        if !self.is_still_at(files, path) {
            return Err(JournalFault);
        }
        Ok(())
    }

    /// Writes bytes at a place, the number of bytes before them.
    fn write_at(&mut self, place: u64, bytes: &[u8]) -> io::Result<()> {
        self.file.seek(SeekFrom::Start(place))?;
        match write_all(&mut self.file, bytes) {
            Ok(()) => Ok(()),
            Err(_) => Err(io::Error::from(ErrorKind::Other)),
        }
    }

    /// Whether the file still is the one at this path, and as long as it was.
    fn is_still_at<R: Files<File = File>>(&self, files: &R, path: Path<'_>) -> bool {
        match (self.file.metadata(), metadata(files, path)) {
            (Ok(held), Ok(named)) => {
                held.len() == self.length && held.dev() == named.dev() && held.ino() == named.ino()
            }
            _ => false,
        }
    }

    /// Writes a byte over another, where the file still is the one at this path and as long as it was, and syncs.
    fn put<R: Files<File = File>>(
        &mut self,
        files: &R,
        path: Path<'_>,
        place: u64,
        byte: u8,
    ) -> io::Result<()> {
        if !self.is_still_at(files, path) || place >= self.length {
            return Err(io::Error::from(ErrorKind::InvalidInput));
        }
        self.write_at(place, [byte].as_slice())?;
        self.file.sync_all()
    }

    /// Lets go what was not synced, where that can be done. One that others cut is not made longer.
    fn set_back(&mut self) {
        if let Ok(held) = self.file.metadata() {
            if held.len() > self.safe {
                drop(self.file.set_len(self.safe));
            }
        }
    }

    /// Cuts the file to a length, where it still is the one at this path and as long as it was, and syncs it and its folder.
    fn cut<R: Files<File = File>>(
        &mut self,
        files: &R,
        path: Path<'_>,
        length: u64,
    ) -> io::Result<()> {
        if !self.is_still_at(files, path) || length > self.length {
            return Err(io::Error::from(ErrorKind::InvalidInput));
        }
        self.file.set_len(length)?;
        self.file.sync_all()?;
        sync_folder(files, path)?;
        self.length = length;
        self.safe = length;
        self.is_cut = true;
        Ok(())
    }
}

impl<'a, R: Files<File = File>> FileJournal<'a, R> {
    /// The journal of the file at a path. Nothing is opened yet.
    pub fn new(files: &'a R, path: Path<'a>) -> FileJournal<'a, R>
        ensures { ⟦<FileJournal<'a, R> as Journal>⟧.failed result ≡ false }
    {
        FileJournal {
            files,
            path,
            standing: Standing::Unread,
            has_failed: false,
        }
    }

    /// Whether a call has failed.
    pub fn has_failed(&self) -> bool
        ensures { result ≡ ⟦<FileJournal<'a, R> as Journal>⟧.failed self.now }
    {
        self.has_failed
    }

    /// Reads what stands at the path, whether it was opened before or not.
    fn read(&mut self, alloc: Global) -> io::Result<Vec<u8>>
        ensures { self.new.has_failed ≡ self.old.has_failed }
    {
        if let Standing::Found(log) = &mut self.standing {
            if log.is_cut {
                return read_whole(alloc, &mut log.file);
            }
        }
        // lets go of a lock of its own
        self.standing = Standing::Unread;
        let Some(mut file) = open_standing(self.files, self.path)? else {
            self.standing = Standing::Missing;
            return Ok(Vec::new(alloc));
        };
        match lock_and_read(alloc, &mut file) {
            Ok(text) => {
                self.standing = Standing::Found(OpenLog::new(file, text.len() as u64));
                Ok(text)
            }
            Err(error) => Err(error),
        }
    }

    /// Opens what stands at the path, where it was not yet.
    fn open(&mut self) -> io::Result<()> {
        if let Standing::Unread = &self.standing {
            let Some(file) = open_standing(self.files, self.path)? else {
                self.standing = Standing::Missing;
                return Ok(());
            };
            lock(&file)?;
            let length = file.metadata()?.len();
            self.standing = Standing::Found(OpenLog::new(file, length));
        }
        Ok(())
    }

    /// Adds a piece to a buffer, of the file as it was opened before, or now.
    fn read_piece(&mut self, place: u64, buffer: &mut Vec<u8>) -> io::Result<()>
        ensures { OnOk result (AddsPiece None place buffer.old.items buffer.new.items) }
    {
        self.open()?;
        match &mut self.standing {
            Standing::Found(log) => read_piece(&mut log.file, place, buffer),
            _ => Ok(()),
        }
    }

    /// Makes the file where nothing stood.
    fn make_missing(&mut self)
        ensures { self.new.has_failed ≡ self.old.has_failed }
    {
        if let Standing::Missing = &self.standing {
            if let Ok(file) = make(self.files, self.path) {
                self.standing = Standing::Found(OpenLog::new(file, 0));
            }
        }
    }
}

impl<'a, R: Files<File = File>> Journal for FileJournal<'a, R> {
    ghost failed = { λ j. j.has_failed };

    fn append(&mut self, bytes: &[u8]) -> Result<(), JournalFault> {
        if self.has_failed {
            return Err(JournalFault);
        }
        if let Standing::Found(log) = &mut self.standing {
            if log.append(self.files, self.path, bytes).is_ok() {
                return Ok(());
            }
        }
        self.has_failed = true;
        Err(JournalFault)
    }

    fn sync(&mut self) -> Result<(), JournalFault> {
        if self.has_failed {
            return Err(JournalFault);
        }
        if let Standing::Found(log) = &mut self.standing {
            if log.sync(self.files, self.path).is_ok() {
                return Ok(());
            }
        }
        self.has_failed = true;
        Err(JournalFault)
    }
}

impl<'a, R: Files<File = File>> Source for FileJournal<'a, R> {
    fn add_piece(&mut self, place: usize, buffer: &mut Vec<u8>) -> Result<(), SourceFault> {
        match self.read_piece(place as u64, buffer) {
            Ok(()) => Ok(()),
            Err(error) if error.kind() == ErrorKind::OutOfMemory => Err(SourceFault::NoMemory),
            Err(_) => Err(SourceFault::Unread),
        }
    }
}

impl<'a, R: Files<File = File>> LogFile for FileJournal<'a, R> {
    fn text(&mut self, alloc: Global) -> Result<Vec<u8>, LogFileFault> {
        match self.read(alloc) {
            Ok(text) => Ok(text),
            Err(error) if error.kind() == ErrorKind::OutOfMemory => Err(LogFileFault::NoMemory),
            Err(_) => Err(LogFileFault::Unread),
        }
    }

    fn put(&mut self, place: usize, byte: u8) -> Result<(), JournalFault> {
        if self.has_failed {
            return Err(JournalFault);
        }
        if let Standing::Found(log) = &mut self.standing {
            if log.put(self.files, self.path, place as u64, byte).is_ok() {
                return Ok(());
            }
        }
        self.has_failed = true;
        Err(JournalFault)
    }

    fn cut(&mut self, bytes: usize) -> Result<(), JournalFault> {
        if self.has_failed {
            return Err(JournalFault);
        }
        self.make_missing();
        if let Standing::Found(log) = &mut self.standing {
            if log.cut(self.files, self.path, bytes as u64).is_ok() {
                return Ok(());
            }
        }
        self.has_failed = true;
        Err(JournalFault)
    }

    ghost one_text = { λ j. refl };
}
