//! The files of securityfs by which an administrator acts on policies and switches.
//!
//! [`command_of`] says what a write to a file asks for, and [`read_registry`] what a read of it gives. Paths are below
//! the folder `ipe` and begin without a slash.
#![tactic(auto)]

mod node;
mod reading;
mod writing;

pub use ipe_machine::{Act, Command, Refusal};
pub use ipe_registry::Registry;
pub use reading::read_registry;
pub use writing::command_of;

#[cfg(test)]
mod tests;
