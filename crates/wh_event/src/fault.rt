//! Why a line is not a command.

use thiserror::Error;

/// Why a line is not a command.
#[derive(Clone, Copy, Debug, PartialEq, Eq, Error)]
pub enum LineFault {
    /// C1: it has the form of no command.
    #[error("C1: no command has this form")]
    Form,
    /// C2: it is longer than 256 bytes.
    #[error("C2: the line is longer than 256 bytes")]
    TooLong,
}
