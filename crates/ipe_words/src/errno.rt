ghost use Rattle.std.specs.Prelude.{◌≡◌, pos};
ghost use Rattle.ipe_words.specs.Number.{errno_number};

/// An error of Linux that an answer of the gate carries.
#[derive(Clone, Copy, Debug, PartialEq, Eq)]
pub enum Errno {
    Perm,
    NoEnt,
    TooBig,
    Acces,
    Exist,
    Inval,
    FBig,
    NoSpc,
    BadMsg,
    Overflow,
    Stale,
    NoKey,
    KeyRejected,
}

impl Errno {
    /// The error's number, as in Linux's `errno.h`.
    pub fn number(self) -> i32
        ensures { result ≡ pos (errno_number self) }
    {
        match self {
            Errno::Perm => 1,
            Errno::NoEnt => 2,
            Errno::TooBig => 7,
            Errno::Acces => 13,
            Errno::Exist => 17,
            Errno::Inval => 22,
            Errno::FBig => 27,
            Errno::NoSpc => 28,
            Errno::BadMsg => 74,
            Errno::Overflow => 75,
            Errno::Stale => 116,
            Errno::NoKey => 126,
            Errno::KeyRejected => 129,
        }
    }
}
