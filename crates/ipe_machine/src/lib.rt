//! The commands of an administrator, the events of the machine, their answers, and what each of them means.
//!
//! This crate has the types that are handed to the machine and that it answers, and the definitions by which every
//! crate above it says what it does: the answer to a command, one step, a whole run.
#![tactic(auto)]

mod answer;
mod command;
mod event;
mod law;

pub use answer::{Done, Refusal};
pub use command::{Act, Command, Text, Value};
pub use event::{CoreOutcome, CoreRuling, Event, Events, Place, Replies, Reply};
pub use law::{active_version_never_falls, commands_stay_or_begin, runs_go_on};
