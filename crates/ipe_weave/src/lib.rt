//! The order in which the lines of a request file's phases are printed, and the history that stands for it: definitions
//! and laws, for any number of workers and phases.
//!
//! What a line asks and what the machine replies is told in specs/Lines.antt. A history of atomic steps stands for an
//! order (specs/Standing.antt) where its switches are those of the commands that raise the epoch and its claims those
//! of the hooks that are evaluated. What a history shows of the active policy is told by a basis (specs/Basis.antt): that of
//! the running gate stands in specs/Gate.antt. The laws hold over any basis that meets proofs/Founded.antt.
#![tactic(auto)]

mod laws;
mod seats;

pub use laws::{
    gate_history_stands_for_the_printed_order, gate_run_can_be_printed, told_entries_are_printed,
};
pub use seats::{
    administrator_runs_one_more, hooks_are_ruled_at_their_claims, phases_meet, workers_run_one_more,
};
