//! The ground of the gate: where bytes come from and go to, the numbers of errors, and the program's answers.
//!
//! A [`Source`] gives bytes and a [`Sink`] takes them; either may fail, and counts it. [`read_all`] reads a source to
//! its end and [`write_all`] writes a text whole, each by the counts and bytes that the two traits promise.
#![tactic(auto)]

mod errno;
mod memory;
mod sink;
mod source;
mod status;
mod std_edge;

pub use errno::Errno;
pub use line_words::{Bytes, decimal};
pub use memory::{MemorySink, MemorySource};
pub use sink::{Sink, write_all};
pub use source::{Failed, ReadAllError, Source, read_all};
pub use status::Status;
pub use std_edge::{StdSink, StdSource};

#[cfg(test)]
mod tests;
