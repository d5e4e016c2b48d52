//! Why a line gave nothing.

ghost use Rattle.std.specs.Prelude.{◌≡◌};
ghost use Rattle.wh_front.specs.declared.form_fault.FormFault.TheVariants.{NoMemory};

use std::alloc::{AllocError, AllocFailed};
use thiserror::Error;

/// Why a line gave nothing.
#[derive(Clone, Copy, Debug, PartialEq, Eq, Error)]
pub enum FormFault {
    /// It is not in the format, or a number is out of its range.
    #[error("not in the format")]
    Form,
    /// Memory ran out (E90).
    #[error("memory ran out")]
    NoMemory,
}

impl From<AllocError> for FormFault {
    ghost from_gives = { λ _ e. e ≡ NoMemory };

    fn from(_e: AllocError) -> FormFault {
        FormFault::NoMemory
    }
}

impl<T: Drop> From<AllocFailed<T>> for FormFault {
    ghost from_gives = { λ _ e. e ≡ NoMemory };

    fn from(_e: AllocFailed<T>) -> FormFault {
        FormFault::NoMemory
    }
}
