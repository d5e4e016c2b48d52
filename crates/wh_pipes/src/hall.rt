//! How threads blocked in their clients' pipes are released.
#![tactic(auto)]

ghost use Rattle.std.specs.Prelude.{◌≡◌, Bool, IfNone, IfOk, true};

use crate::beginning::new_tag;
use crate::folders::{ClientPipes, first_without_pipes, open_pipe};
use crate::pipes::Pipes;
use crate::standing::Place;
use std::alloc::{AllocError, Global};
use std::fs::{File, Files, OpenOptions};
use std::io::{Eprint, Read, Write};
use std::random::RandomSource;
use std::sync::atomic::AtomicBool;
use std::sync::atomic::Ordering::SeqCst;
use std::time::{Clock, Duration};
use std::{io, thread};

/// Where all clients of a service connect.
pub trait Hall {
    // whether each client was found to have a way in, where that can be told
    ghost all_have: { Self → Bool } = { λ _. true };

    /// The first client, by its number, that has no way in.
    fn first_without(&self, alloc: Global) -> Result<Option<u32>, AllocError>
        ensures { IfOk result (λ found. IfNone found (all_have self.now ≡ true)) };

    /// Lets the threads that stand in a connection go once the service is over, and before that tells of connections that do not
    /// begin, until `through` is set.
    fn let_go(&self, through: &AtomicBool);
}

/// How many milliseconds whoever lets threads go rests between two rounds.
const ROUND: u64 = 20;

/// A client that has not read for this many rounds counts as not reading.
const STILL: u64 = 50;

/// So many bytes at most are taken out of a full pipe at once.
const TAKEN: usize = 65_536;

/// Opens a pipe for both ways, which waits for nobody: whoever waits for the other end to be opened waits no longer.
fn open_both_ways<T: Files<File = File>>(files: &T, path: &str) -> io::Result<File> {
    let mut how = OpenOptions::new();
    how.read(true).write(true);
    open_pipe(files, &how, path)
}

/// Ends a read. The line that it ends is not served any more. Where the pipe is full nobody stands in a read, and this waits until the
/// thread closes its own end: so no other may read it.
fn end_read<T: Files<File = File>>(files: &T, path: &str) -> io::Result<()> {
    let both = open_both_ways(files, path)?;
    let mut pipe = open_pipe(files, OpenOptions::new().write(true), path)?;
    drop(both);
    pipe.write_all(b"\n")
}

/// Ends a write that nobody reads: a part of what stands in the pipe, which is full, is taken away. Where it is not full any more, this
/// waits for more, or until the thread closes its own end: so no other may write to it.
fn end_write<T: Files<File = File>>(files: &T, path: &str) -> io::Result<()> {
    let both = open_both_ways(files, path)?;
    let mut pipe = open_pipe(files, OpenOptions::new().read(true), path)?;
    drop(both);
    let mut room = [0; TAKEN];
    pipe.read(&mut room)?;
    Ok(())
}

/// Lets one client's thread go, if it stands in a pipe.
fn let_one_go<T: Files<File = File>>(files: &T, pipes: &ClientPipes) -> io::Result<()> {
    let rounds = pipes.standing.rounds();
    match pipes.standing.place() {
        Place::Nowhere => Ok(()),
        Place::OpeningReplies => open_both_ways(files, pipes.replies.as_str()).map(drop),
        Place::OpeningCommands => open_both_ways(files, pipes.commands.as_str()).map(drop),
        Place::Reading => end_read(files, pipes.commands.as_str()),
        Place::Writing if rounds < STILL => Ok(()),
        Place::Writing => end_write(files, pipes.replies.as_str()),
    }
}

impl<'a, T: Files<File = File> + RandomSource + Eprint + Clock> Hall for Pipes<'a, T> {
    fn first_without(&self, alloc: Global) -> Result<Option<u32>, AllocError> {
        let clients = self.clients.as_slice();
        first_without_pipes(self.rt, alloc, clients, new_tag(self.rt).is_ok())
    }

    // again and again: a thread may set out for its pipe at any time
    fn let_go(&self, through: &AtomicBool) {
        for _ in 0..u64::MAX {
            if through.load(SeqCst) {
                return;
            }
            thread::sleep(self.rt, Duration::from_millis(ROUND));
            let is_over = self.is_over.load(SeqCst);
            let mut number = 0u32;
            for client in self.clients.iter() {
                if let Some(pipes) = client {
                    if is_over {
                        let _ = let_one_go(self.rt, pipes);
                    } else if pipes.beginning.is_late() {
                        let _ = eprintln!(self.rt; "client {number}: waits for begin");
                    }
                }
                number = number.saturating_add(1);
            }
        }
    }
}
