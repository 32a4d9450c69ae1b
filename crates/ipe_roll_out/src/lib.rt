//! The made-up roll-out of a seed, run on a gate: one line tells what it came to, and every schedule gives the same.
#![tactic(auto)]

mod run;

pub use run::roll_out;
