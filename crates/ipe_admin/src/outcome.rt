use ipe_audit::Lines;
use ipe_machine::{Done, Refusal};

/// What a command comes to: the epoch after it, the answer, and the audit records that it makes, in order.
#[derive(Debug, Drop)]
pub struct Outcome {
    pub epoch: u16,
    pub reply: Result<Done, Refusal>,
    pub records: Lines,
}
