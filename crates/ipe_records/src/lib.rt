//! Which audit records a command and an access make, and the records themselves.
//!
//! [`command_records`] makes the records of a command from its plan, before the plan is made, and [`access_record`] the
//! record of an access that is due, from the image of the active policy. [`active_brief`] tells what they say of the policy
//! that is active.
#![tactic(auto)]

mod access;
mod command;

pub use access::{access_record, image_of};
pub use command::{active_brief, command_records};
