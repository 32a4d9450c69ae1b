ghost use Rattle.std.specs.Prelude.{◌≡◌};
ghost use Rattle.ipe_parse.specs.declared.error.ParseError.TheVariants.{NoMemory};

use ipe_policy::Op;
use std::alloc::{AllocError, AllocFailed};
use thiserror::Error;

/// What is wrong with a line of a policy text.
#[derive(Clone, Copy, Debug, PartialEq, Eq)]
pub enum BadKind {
    /// The first line with tokens hasn't exactly `policy_name=NAME` and `policy_version=X.Y.Z`.
    NoHeader,
    /// The name has not 1 to 255 bytes, or one that may not stand there, or is `.` or `..`.
    BadName,
    /// The version isn't three parts of one to five digits, each at most 65,535.
    BadVersion,
    /// The line doesn't begin with a known operation, or `DEFAULT` is of an unknown one.
    BadOp,
    /// The line doesn't end with `action=ALLOW` or `action=DENY`.
    BadAction,
    /// Something stands before the action of a default.
    PropertyInDefault,
    /// A line before gives this default.
    TwiceDefault,
    /// A rule has more than 16 properties.
    TooManyProperties,
    /// A property isn't one of the five, or its value is neither `TRUE` nor `FALSE`.
    BadProperty,
    /// A digest isn't `ALG:HEX`.
    BadDigest,
}

/// The first fault of a policy text: a bad line, counted from 1, or the first operation that has no default.
#[derive(Clone, Copy, Debug, PartialEq, Eq)]
pub enum BadText {
    Bad { line: u32, kind: BadKind },
    NoDefault { missing: Op },
}

/// Why a text was not read as a policy.
#[derive(Debug, Drop, Error)]
pub enum ParseError {
    #[error("line {line}: {kind:?}")]
    Bad { line: u32, kind: BadKind },
    #[error("no default for {missing:?}")]
    NoDefault { missing: Op },
    #[error("out of memory")]
    NoMemory,
}

impl From<AllocError> for ParseError {
    ghost from_gives = { λ _ e. e ≡ NoMemory };

    fn from(_e: AllocError) -> ParseError {
        ParseError::NoMemory
    }
}

impl<T: Drop> From<AllocFailed<T>> for ParseError {
    ghost from_gives = { λ _ e. e ≡ NoMemory };

    fn from(_e: AllocFailed<T>) -> ParseError {
        ParseError::NoMemory
    }
}
