ghost use Rattle.std.specs.Prelude.{◌≡◌};
ghost use Rattle.ipe_parse.specs.declared.line_error.LineError.TheVariants.{Bad, NoMemory};

use crate::BadKind;
use std::alloc::{AllocError, AllocFailed};

/// Why a line was not read.
#[derive(Debug, Drop)]
pub(crate) enum LineError {
    Bad(BadKind),
    NoMemory,
}

impl From<BadKind> for LineError {
    ghost from_gives = { λ kind e. e ≡ Bad kind };

    fn from(kind: BadKind) -> LineError {
        LineError::Bad(kind)
    }
}

impl From<AllocError> for LineError {
    ghost from_gives = { λ _ e. e ≡ NoMemory };

    fn from(_e: AllocError) -> LineError {
        LineError::NoMemory
    }
}

impl<T: Drop> From<AllocFailed<T>> for LineError {
    ghost from_gives = { λ _ e. e ≡ NoMemory };

    fn from(_e: AllocFailed<T>) -> LineError {
        LineError::NoMemory
    }
}
