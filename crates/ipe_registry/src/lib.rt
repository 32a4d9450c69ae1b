//! The policies that are loaded, and the administrator's commands on them, in one thread.
//!
//! [`Registry::plan`] answers a command without changing anything, and [`Registry::commit`] makes the change that was
//! planned, which takes no memory and can't be refused. Together they are one step of the machine's definition.
#![tactic(auto)]

mod change;
mod commit;
mod entry;
mod plan;
mod registry;

pub use change::{Change, Plan, Step};
pub use entry::Entry;
pub use ipe_machine::{Act, Command, Done, Refusal, Text, Value};
pub use ipe_parse::{BadKind, BadText};
pub use registry::Registry;
