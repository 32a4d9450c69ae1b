//! The administrator of a running gate: the policies that are loaded, and for each of them a slot of the gate that holds
//! its image.
//!
//! [`Admin::command`] carries out a command while passes go on: it puts the image of what is loaded into a free slot,
//! switches the gate where the epoch rises, and lets go of a slot that no policy has any more. [`write_node`] and
//! [`read_node`] are the same by the files of securityfs. [`Admin::start`] makes the gate with its passes.
//! [`writes_are_lines`] is the law that what a write did is one more line of the administrator's, in the words of
//! `ipe_weave`.
#![tactic(auto)]

mod admin;
mod changes;
mod commands;
mod laws;
mod nodes;
mod outcome;
mod slots;

pub use admin::Admin;
pub use ipe_audit::Lines;
pub use ipe_gate::{Closed, Pass};
pub use ipe_machine::{Act, Command, Done, Refusal, Text, Value};
pub use ipe_registry::Registry;
pub use laws::writes_are_lines;
pub use nodes::{read_node, write_node};
pub use outcome::Outcome;

#[cfg(test)]
mod tests;
