//! The clients' folders.
#![tactic(auto)]

use crate::beginning::Beginning;
use crate::standing::Standing;
use std::alloc::{AllocError, Global};
use std::fs::{File, Files, OpenOptions, metadata};
use std::io;
use std::io::ErrorKind;
use std::os::unix::fs::{FileTypeExt, MetadataExt};
use std::sync::Arc;
use std::sync::atomic::AtomicBool;
use std::sync::atomic::Ordering::SeqCst;
use wh_serve::Full;

/// The folder of one client, locked where it could be, its two pipes, where its thread stands in them, how far its connection is,
/// whether it was told what is full, and whether the service is over.
#[derive(Drop)]
pub(crate) struct ClientPipes {
    folder: Option<File>,
    pub(crate) commands: String,
    pub(crate) replies: String,
    pub(crate) standing: Standing,
    pub(crate) beginning: Beginning,
    share_told: AtomicBool,
    journal_told: AtomicBool,
    is_over: Arc<AtomicBool>,
}

/// Whoever owns a file may write to it, and perhaps a group: not all.
const ALL_MAY_WRITE: u32 = 0o002;

/// Opens a folder and locks it, where not all may write to it and no other service has it.
fn lock_folder<T: Files<File = File>>(files: &T, path: &str) -> io::Result<File> {
    let folder = File::open(files, path)?;
    if folder.metadata()?.mode() & ALL_MAY_WRITE != 0 {
        return Err(io::Error::from(ErrorKind::InvalidInput));
    }
    folder.try_lock()?;
    Ok(folder)
}

impl ClientPipes {
    /// Those in a folder, which is locked from now on for as long as they last, if it can be.
    pub(crate) fn new<T: Files<File = File>>(
        files: &T,
        alloc: Global,
        folder: &str,
        is_over: Arc<AtomicBool>,
    ) -> Result<ClientPipes, AllocError> {
        // a file that is no folder has no such name, and a pipe is not waited for
        let place = joined(alloc, folder, "/.")?;
        Ok(ClientPipes {
            folder: lock_folder(files, place.as_str()).ok(),
            commands: joined(alloc, folder, "/in")?,
            replies: joined(alloc, folder, "/out")?,
            standing: Standing::new(),
            beginning: Beginning::new(),
            share_told: AtomicBool::new(false),
            journal_told: AtomicBool::new(false),
            is_over,
        })
    }

    pub(crate) fn is_over(&self) -> bool {
        self.is_over.load(SeqCst)
    }

    /// Whether the folder could be locked.
    pub(crate) fn is_locked(&self) -> bool {
        self.folder.is_some()
    }

    /// Whether this is told for the first time, so that a client that asks on and on does not flood the log.
    pub(crate) fn is_first(&self, what: Full) -> bool {
        let told = match what {
            Full::Share => &self.share_told,
            Full::Journal => &self.journal_told,
        };
        !told.swap(true, SeqCst)
    }
}

fn joined(alloc: Global, folder: &str, end: &str) -> Result<String, AllocError> {
    let mut name = String::new(alloc);
    name.push_str(folder)?;
    name.push_str(end)?;
    Ok(name)
}

/// Opens a pipe. Another file of this name, which may have come there meanwhile, is left as it is.
pub(crate) fn open_pipe<T: Files<File = File>>(
    files: &T,
    how: &OpenOptions,
    path: &str,
) -> io::Result<File> {
    let file = how.open(files, path)?;
    if file.metadata()?.file_type().is_fifo() {
        Ok(file)
    } else {
        Err(io::Error::from(ErrorKind::InvalidInput))
    }
}

/// Which file it is: no two have the same numbers.
type Identity = (u64, u64);

/// Which pipe stands there, if one does that not all may write to.
fn pipe_at<T: Files>(files: &T, path: &str) -> Option<Identity> {
    match metadata(files, path) {
        Ok(found) if found.file_type().is_fifo() && found.mode() & ALL_MAY_WRITE == 0 => {
            Some((found.dev(), found.ino()))
        }
        _ => None,
    }
}

/// Adds a pipe to those found, if it is none of them.
fn is_new(found: &mut Vec<Identity>, pipe: Option<Identity>) -> Result<bool, AllocError> {
    match pipe {
        Some(pipe) if !found.iter().any(|other| *other == pipe) => {
            found.push(pipe)?;
            Ok(true)
        }
        _ => Ok(false),
    }
}

/// The first client, by its number, whose folder could not be locked, or has not two pipes that are no other client's, or whose
/// connections would have no tags, if there is one.
pub(crate) fn first_without_pipes<T: Files>(
    files: &T,
    alloc: Global,
    clients: &[Option<Arc<ClientPipes>>],
    has_tags: bool,
) -> Result<Option<u32>, AllocError> {
    let mut found = Vec::new(alloc);
    let mut number = 0u32;
    for client in clients {
        if let Some(pipes) = client {
            let commands = pipe_at(files, pipes.commands.as_str());
            let replies = pipe_at(files, pipes.replies.as_str());
            let are_new = is_new(&mut found, commands)? && is_new(&mut found, replies)?;
            if !are_new || !pipes.is_locked() || !has_tags {
                return Ok(Some(number));
            }
        }
        number = number.saturating_add(1);
    }
    Ok(None)
}
