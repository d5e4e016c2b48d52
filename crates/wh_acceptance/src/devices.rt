//! Readers and writers that fail, end early, or move few bytes at a time.

use crate::answers::{AGENTS, MAP, POINTS, served};
use std::alloc::Global;
use std::io;
use std::io::{Error, ErrorKind, Read, Write};
use std::sync::Arc;
use std::test::*;
use wh_claims::Bank;
use wh_edge::{Site, Trouble, read_site};
use wh_lines::Lines;
use wh_planners::Patient;
use wh_replay::replay;
use wh_service::{Form, ReplayFault, Warehouse, claim};

const SCRIPT: &str = "submit x A B\nsubmit x A P1\ntick\nclose\ntick\n";

const ANSWERED: &str =
    "accepted 0\nrefused E2 P1\nclock 1 picked 0 dropped 0\nclosed\nrefused E8\n";

/// Gives its bytes, at most `piece` a call, and then ends or fails.
#[derive(Drop)]
struct Source<'a> {
    rest: &'a [u8],
    piece: usize,
    fails: bool,
}

impl Read for Source<'_> {
    fn read(&mut self, buf: &mut [u8]) -> io::Result<usize> {
        if self.fails && self.rest.is_empty() {
            return Err(Error::from(ErrorKind::Other));
        }
        let count = buf.len().min(self.piece).min(self.rest.len());
        buf[..count].copy_from_slice(&self.rest[..count]);
        self.rest = &self.rest[count..];
        Ok(count)
    }
}

/// Takes bytes while there is room, and then fails, or takes none.
#[derive(Drop)]
struct Sink {
    taken: Vec<u8>,
    room: usize,
    fails: bool,
}

impl Write for Sink {
    fn write(&mut self, buf: &[u8]) -> io::Result<usize> {
        if self.fails && self.room == 0 {
            return Err(Error::from(ErrorKind::Other));
        }
        let count = buf.len().min(self.room);
        match self.taken.extend_from_slice(&buf[..count]) {
            Ok(()) => {
                self.room -= count;
                Ok(count)
            }
            Err(_) => Err(Error::from(ErrorKind::OutOfMemory)),
        }
    }

    fn flush(&mut self) -> io::Result<()> {
        Ok(())
    }
}

#[test]
fn readers(rt: HostRuntime) -> Result<(), Fail> {
    let site = format!(in rt.alloc(); "{MAP}%%\n{POINTS}{AGENTS}%%\n")?;
    let input = format!(in rt.alloc(); "{site}{SCRIPT}")?;
    // how many bytes of the script are given, how many a call, whether the reader then fails
    for (given, piece, fails, wanted) in [
        (30usize, 1000usize, true, "accepted 0\nrefused E2 P1\n"),
        (30, 1, true, "accepted 0\nrefused E2 P1\n"),
        (30, 1000, false, "accepted 0\nrefused E2 P1\nrefused C1\n"),
        (
            31,
            1000,
            false,
            "accepted 0\nrefused E2 P1\nclock 1 picked 0 dropped 0\n",
        ),
        (1000, 1000, false, ANSWERED),
        (1000, 1, false, ANSWERED),
        (1000, 7, false, ANSWERED),
    ] {
        let end = site.len().saturating_add(given).min(input.len());
        let source = Source {
            rest: &input.as_bytes()[..end],
            piece,
            fails,
        };
        let mut written = Vec::new(rt.alloc());
        let trouble = served(rt.alloc(), source, &mut written);
        let told = if fails { Some(Trouble::Broken) } else { None };
        assert!(rt; trouble == told, "{given} bytes, {piece} a call");
        assert!(rt;
            written.as_slice() == wanted.as_bytes(),
            "{given} bytes, {piece} a call"
        );
    }
    Ok(())
}

#[test]
fn writers(rt: HostRuntime) -> Result<(), Fail> {
    let input = format!(in rt.alloc(); "{MAP}%%\n{POINTS}{AGENTS}%%\n{SCRIPT}")?;
    for fails in [true, false] {
        let mut sink = Sink {
            taken: Vec::new(rt.alloc()),
            room: 20,
            fails,
        };
        let trouble = served(rt.alloc(), input.as_bytes(), &mut sink);
        assert!(rt; trouble == Some(Trouble::Unwritten));
        assert!(rt; sink.taken.as_slice() == b"accepted 0\nrefused E".as_slice());
    }
    Ok(())
}

/// The warehouse at clock 0, with two planners of 4 slots.
fn opened(alloc: Global) -> Result<Warehouse<Patient>, Fail> {
    let input = format!(in alloc; "{MAP}%%\n{POINTS}{AGENTS}")?;
    let Site { grid, points, .. } = read_site(&mut Lines::new(input.as_bytes()), alloc, false)?;
    let grid = Arc::new(alloc, grid)?;
    let (bank, mut seat) = Bank::new(alloc, 8)?;
    let first = Patient::new(Arc::try_clone(&grid)?, claim(&bank, &mut seat, 4)?);
    let second = Patient::new(Arc::try_clone(&grid)?, claim(&bank, &mut seat, 4)?);
    let mut planners = Vec::new(alloc);
    planners.push(first)?;
    planners.push(second)?;
    match Warehouse::open(alloc, grid, points, planners, 0) {
        Ok(warehouse) => Ok(warehouse),
        Err(_) => Err("a warehouse")?,
    }
}

#[test]
fn entries_stand_after_a_fault(rt: HostRuntime) -> Result<(), Fail> {
    // how many bytes of the script are given, whether the reader then fails, how many the writer takes, whether it then fails
    for (given, breaks, room, fails, fault, wanted) in [
        (
            30usize,
            true,
            1000usize,
            true,
            ReplayFault::Broken,
            "accepted 0\nrefused E2 P1\n",
        ),
        (
            1000,
            false,
            20,
            true,
            ReplayFault::Unwritten,
            "accepted 0\nrefused E",
        ),
        (
            1000,
            false,
            20,
            false,
            ReplayFault::Unwritten,
            "accepted 0\nrefused E",
        ),
    ] {
        let mut warehouse = opened(rt.alloc())?;
        let mut spares = Vec::new(rt.alloc());
        let source = Source {
            rest: &SCRIPT.as_bytes()[..given.min(SCRIPT.len())],
            piece: 1000,
            fails: breaks,
        };
        let mut sink = Sink {
            taken: Vec::new(rt.alloc()),
            room,
            fails,
        };
        let mut lines = Lines::new(source);
        let replayed = replay(
            &mut lines,
            rt.alloc(),
            Form::Short,
            &mut sink,
            &mut warehouse,
            &mut spares,
        );
        assert!(rt; replayed == Err(fault), "{given} bytes");
        assert!(rt; sink.taken.as_slice() == wanted.as_bytes(), "{given} bytes");
        assert_eq!(rt; warehouse.history().len(), 2);
        // the begun line is no event
        assert_eq!(rt; warehouse.clock(), 0);
    }
    Ok(())
}
