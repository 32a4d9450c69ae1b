//! From a request file and the images of its devices to its transcript, on a running gate.
//!
//! [`replay`] starts a gate with a pass for each worker, and runs the request file's phases one after another: in each, the
//! administrator and all workers beside each other, on threads. Then it closes the gate, and puts the entries of each phase
//! in their order, for which the gate's one history stands. [`replay_to_end`] tells the state after the last phase too, and
//! [`summarize`] what the run came to in numbers.
#![tactic(auto)]

mod counts;
mod end;
mod marks;
mod phases;
mod summary;
mod transcript;

pub use ipe_gate::{Closed, Pass};
pub use ipe_workers::{NoPace, Pace};
pub use summary::{Summary, summarize, summary_line};
pub use transcript::{Replayed, replay, replay_to_end};
