//! A call that is made again where it found no memory.

use std::alloc::{AllocError, AllocFailed};
use std::io;
use wh_edge::Trouble;
use wh_grid::MapFault;

/// How many times a call is made.
pub const TRIES: u32 = 3;

/// Why a row was not gone through to its end.
#[derive(Clone, Copy, Debug, PartialEq, Eq)]
pub enum Halt {
    /// A call found no memory at any of its tries.
    NoMemory,
    /// Standard output failed.
    Unwritten,
    /// An answer was none that the row may have.
    Odd,
}

impl From<AllocError> for Halt {
    fn from(_: AllocError) -> Halt {
        Halt::NoMemory
    }
}

impl<T: Drop> From<AllocFailed<T>> for Halt {
    fn from(_: AllocFailed<T>) -> Halt {
        Halt::NoMemory
    }
}

impl From<io::Error> for Halt {
    fn from(_: io::Error) -> Halt {
        Halt::Unwritten
    }
}

impl From<wh_formed::NoMemory> for Halt {
    fn from(_: wh_formed::NoMemory) -> Halt {
        Halt::NoMemory
    }
}

impl From<wh_log::NoMemory> for Halt {
    fn from(_: wh_log::NoMemory) -> Halt {
        Halt::NoMemory
    }
}

impl From<MapFault> for Halt {
    fn from(fault: MapFault) -> Halt {
        match fault {
            MapFault::NoMemory => Halt::NoMemory,
            MapFault::At(_) => Halt::Odd,
        }
    }
}

impl From<Trouble> for Halt {
    fn from(trouble: Trouble) -> Halt {
        match trouble {
            Trouble::NoMemory => Halt::NoMemory,
            Trouble::Unwritten => Halt::Unwritten,
            _ => Halt::Odd,
        }
    }
}

/// Prints a line. It takes no memory.
pub fn tell<R: Print>(rt: &R, line: &[u8]) -> Result<(), Halt> {
    rt.write_all(line)?;
    rt.write_all(b"\n")?;
    Ok(())
}

/// Tells that a call was refused for memory, and whether anything is not as it was before that call.
pub fn refused<R: Print>(rt: &R, is_as_before: bool) -> Result<(), Halt> {
    tell(rt, b"refused E90")?;
    if is_as_before {
        Ok(())
    } else {
        tell(rt, b"changed")
    }
}

/// Makes a call as the body of a function, and makes it again where it found no memory.
macro_rules! again {
    ($rt:expr, $call:expr) => {{
        for _ in 0..$crate::again::TRIES {
            match $call {
                Ok(value) => return Ok(value),
                Err(error) => match $crate::again::Halt::from(error) {
                    $crate::again::Halt::NoMemory => $crate::again::refused($rt, true)?,
                    halt => return Err(halt),
                },
            }
        }
        Err($crate::again::Halt::NoMemory)
    }};
}

pub(crate) use again;
