//! The running gate: words in memory that any number of passes, each in a thread of its own, read without a lock while
//! one administrator replaces what they read.
//!
//! [`start`] gives an administrator and up to 30 passes. A [`Pass`] claims the active slot by one atomic addition,
//! reads the words of the image in it, and returns it by another. A [`GateAdmin`] places an image into a slot that
//! nobody holds, which never fails for want of one, and makes it active by one exchange, while passes go on. No call
//! but [`start`] takes memory, and none waits.
//!
//! Contracts say what each seat, a pass or the administrator, has seen of the gate's one history (`ipe_gate_rule`): a
//! list of events with the newest first.
#![tactic(auto)]

mod administrator;
mod gathering;
mod meeting;
mod opening;
mod pass;
mod slot;
mod table;

pub use administrator::{GateAdmin, Old};
pub use meeting::Closed;
pub use opening::start;
pub use pass::{Claimed, Pass};
pub use slot::Slot;
