ghost use Rattle.std.specs.Prelude.{◌≡◌};
ghost use Rattle.ipe_words.specs.Number.{status_number};

/// How the program ends.
#[derive(Clone, Copy, Debug, PartialEq, Eq)]
pub enum Status {
    Done,
    No,
    Usage,
    Refused,
    ReadFault,
    WriteFault,
    DeviceFault,
    NoMemory,
}

impl Status {
    /// The exit status of the process, 0 to 7.
    pub fn number(self) -> u8
        ensures { result ≡ status_number self }
    {
        match self {
            Status::Done => 0,
            Status::No => 1,
            Status::Usage => 2,
            Status::Refused => 3,
            Status::ReadFault => 4,
            Status::WriteFault => 5,
            Status::DeviceFault => 6,
            Status::NoMemory => 7,
        }
    }
}
