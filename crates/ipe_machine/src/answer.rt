ghost use Rattle.std.specs.Prelude.{◌≡◌};
ghost use Rattle.ipe_machine.specs.Refusals.{errno_of};

use ipe_parse::BadText;
use ipe_policy::Version;
use ipe_words::Errno;

/// How a command was done.
#[derive(Clone, Copy, Debug, PartialEq, Eq)]
pub enum Done {
    Loaded,
    Updated,
    Activated,
    AlreadyActive,
    Deleted,
    Changed,
    Same,
}

/// Why a command was refused. `Stale` has the version that stands and the one that was offered, `TooWide` the words
/// that the policy's image needs.
#[derive(Clone, Copy, Debug, PartialEq, Eq)]
pub enum Refusal {
    NotPermitted,
    TooBig,
    Rejected,
    NoKey,
    BadPolicy(BadText),
    TooWide { words: u64 },
    Exists,
    NoSpace,
    NoEntry,
    Direction,
    OtherName,
    Stale { present: Version, offered: Version },
    EpochFull,
    BadValue,
    IsActive,
}

impl Refusal {
    /// The error that the refusal is answered as.
    pub fn errno(&self) -> Errno
        ensures { result ≡ errno_of self.now }
    {
        match self {
            Refusal::NotPermitted | Refusal::IsActive => Errno::Perm,
            Refusal::TooBig => Errno::TooBig,
            Refusal::Rejected => Errno::KeyRejected,
            Refusal::NoKey => Errno::NoKey,
            Refusal::BadPolicy(_) => Errno::BadMsg,
            Refusal::TooWide { .. } => Errno::FBig,
            Refusal::Exists => Errno::Exist,
            Refusal::NoSpace => Errno::NoSpc,
            Refusal::NoEntry => Errno::NoEnt,
            Refusal::Direction | Refusal::OtherName | Refusal::BadValue => Errno::Inval,
            Refusal::Stale { .. } => Errno::Stale,
            Refusal::EpochFull => Errno::Overflow,
        }
    }
}
