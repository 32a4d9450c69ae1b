use arrayvec::ArrayVec;
use ipe_policy::Found;

/// What an image decides: its serial, what was found, and the words of the rule that decided, or none where a default
/// did.
#[derive(Debug, Drop)]
pub struct Hit {
    pub serial: u64,
    pub found: Found,
    pub rule: ArrayVec<u64, 192>,
}

/// Where in a gate's run an answer stands: the epoch of the active policy, and the count within it.
#[derive(Clone, Copy, Debug, PartialEq, Eq)]
pub struct Place {
    pub epoch: u16,
    pub count: u64,
}

/// A gate's answer to a request: its code, its place, what decided, whether it is enforced, and whether a record is
/// due.
#[derive(Debug, Drop)]
pub struct Ruling {
    pub code: i32,
    pub place: Option<Place>,
    pub hit: Option<Hit>,
    pub enforce: bool,
    pub record_due: bool,
}
