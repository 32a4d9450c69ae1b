//! The workers of a running gate, each with a pass of its own, and what they and the administrator do with the lines of a
//! request file's phase.
//!
//! [`Worker::run`] runs those lines of a phase that are the worker's own: each is a hook, whose record is made of what
//! its own claim found, and after which the file is read where it is allowed. [`run_beside`] runs a phase's lines in threads,
//! those of each worker beside those of the others and of the administrator. [`run_phase`] does that, and has all meet after it.
#![tactic(auto)]

mod administrator;
mod answering;
mod beside;
mod making;
mod meeting;
mod pace;
mod phase;
mod running;
mod work;
mod worker;

pub use beside::run_beside;
pub use making::{into_passes, make_workers};
pub use pace::{NoPace, Pace};
pub use phase::run_phase;
pub use work::Work;
pub use worker::Worker;
