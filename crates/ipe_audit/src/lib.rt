//! The audit records of the gate, each a line to the byte.
#![tactic(auto)]

mod access;
mod lines;
mod records;

pub use access::access_line;
pub use lines::{LineBytes, Lines};
pub use records::{Brief, activation_line, enforce_line, load_line};

#[cfg(test)]
mod tests;
