//! The pure machine: commands, claims and returns, one step at a time or a whole list, without a handle. Who needs what a
//! command is to change before it is changed plans it by `Registry::plan` and makes it by [`commit`].
#![tactic(auto)]

mod run;
mod state;
mod steps;

pub use ipe_machine::{
    Act, Command, CoreOutcome, CoreRuling, Done, Event, Events, Place, Refusal, Replies, Reply,
    Text, Value, active_version_never_falls,
};
pub use ipe_parse::{BadKind, BadText};
pub use ipe_registry::{Change, Entry, Plan, Registry, Step};
pub use ipe_signer::{Mark, Marks, Purpose, Signer, TrustList, Verdict};
pub use run::run_events;
pub use state::State;
pub use steps::{claim, commit, give_back, step};

#[cfg(test)]
mod tests;
