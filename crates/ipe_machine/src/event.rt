use crate::{Command, Done, Refusal};
use ipe_policy::{Context, Found, Object, Request, Subject};
use line_words::Items;

/// One event of the machine: a command, a claim of a pass, or a return of what a pass holds.
#[derive(Debug, Drop)]
pub enum Event {
    Command(Command),
    Claim {
        pass: u32,
        request: Request,
        subject: Subject,
        object: Object,
        context: Context,
    },
    Return {
        pass: u32,
    },
}

/// A claim's place: its epoch, and the number of claims before it in the epoch.
#[derive(Clone, Copy, Debug, PartialEq, Eq)]
pub struct Place {
    pub epoch: u16,
    pub count: u64,
}

/// The answer to a command, and the epoch after it.
#[derive(Clone, Copy, Debug, PartialEq, Eq)]
pub struct CoreOutcome {
    pub epoch: u16,
    pub reply: Result<Done, Refusal>,
}

/// The answer to a claim: 0, or -13 for a denial that is enforced; the claim's place; the serial of the policy that was
/// active, what it decided, whether denials are enforced, and whether an access record is due.
#[derive(Clone, Copy, Debug, PartialEq, Eq)]
pub struct CoreRuling {
    pub code: i32,
    pub place: Option<Place>,
    pub serial: Option<u64>,
    pub found: Option<Found>,
    pub enforce: bool,
    pub record_due: bool,
}

/// The answer to an event.
#[derive(Clone, Copy, Debug, PartialEq, Eq)]
pub enum Reply {
    Command(CoreOutcome),
    Claimed(CoreRuling),
    Returned,
}

/// Events, in order.
pub type Events = Items<Event>;

/// Replies, in the order of the events.
pub type Replies = Items<Reply>;
