use crate::Event;
use std::collections::LinkedList;

/// Whose seat it is.
pub enum Role {
    /// The administrator's, who has made so many passes.
    Administrator(u64),
    /// The pass's of this number.
    OfPass(u64),
    /// Nobody's any more.
    Nobody,
}

/// What a seat knows: the history so far, the newest event first, what it was told of by another seat, and the passes
/// that it took in, each with the history that this had seen. No value of it is ever made.
pub struct View {
    pub role: Role,
    pub seen: LinkedList<Event>,
    pub told: LinkedList<Event>,
    pub others: LinkedList<(u64, LinkedList<Event>)>,
}
