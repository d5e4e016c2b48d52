//! One connection over a client's pipes.
#![tactic(auto)]

ghost use Rattle.std.specs.Io.{ReadsAtMost};

use crate::folders::{ClientPipes, open_pipe};
use crate::standing::Place;
use std::fs::{File, Files, OpenOptions};
use std::io;
use std::io::{Read, Write};
use std::sync::Arc;

/// What a client sends. Its pipe is opened at the first read, when the first line of its replies was written: a client that waits
/// for that line before it opens its own end never joins a connection that another had. Once the service is over it is at its end.
#[derive(Drop)]
pub struct Inlet<'a, T: Files<File = File>> {
    files: &'a T,
    pipes: Arc<ClientPipes>,
    pipe: Option<File>,
}

impl<'a, T: Files<File = File>> Inlet<'a, T> {
    pub(crate) fn new(files: &'a T, pipes: Arc<ClientPipes>) -> Inlet<'a, T> {
        Inlet {
            files,
            pipes,
            pipe: None,
        }
    }

    /// Opens the pipe, if that was not done: waits until the client opens its end, or the service is over.
    fn open(&mut self) -> io::Result<()> {
        if self.pipe.is_some() {
            return Ok(());
        }
        self.pipes.standing.set(Place::OpeningCommands);
        if self.pipes.is_over() {
            return Ok(());
        }
        let mut how = OpenOptions::new();
        how.read(true);
        self.pipe = Some(open_pipe(self.files, &how, self.pipes.commands.as_str())?);
        Ok(())
    }

    fn read_open(&mut self, buffer: &mut [u8]) -> io::Result<usize>
        ensures { ReadsAtMost result buffer.new }
    {
        self.open()?;
        self.pipes.standing.set(Place::Reading);
        match &mut self.pipe {
            Some(pipe) if !self.pipes.is_over() => pipe.read(buffer),
            _ => Ok(0),
        }
    }
}

impl<'a, T: Files<File = File>> Read for Inlet<'a, T> {
    fn read(&mut self, buffer: &mut [u8]) -> io::Result<usize> {
        let read = self.read_open(buffer);
        self.pipes.standing.set(Place::Nowhere);
        read
    }
}

/// Where a client is told its replies, an open pipe. A write to a client that is gone fails; one to a client that does not read
/// waits.
#[derive(Drop)]
pub struct Outlet {
    pipes: Arc<ClientPipes>,
    pipe: File,
}

impl Outlet {
    pub(crate) fn new(pipes: Arc<ClientPipes>, pipe: File) -> Outlet {
        Outlet { pipes, pipe }
    }
}

impl Write for Outlet {
    fn write(&mut self, bytes: &[u8]) -> io::Result<usize> {
        self.pipes.standing.set(Place::Writing);
        let written = self.pipe.write(bytes);
        self.pipes.standing.set(Place::Nowhere);
        written
    }

    fn flush(&mut self) -> io::Result<()> {
        Ok(())
    }
}
