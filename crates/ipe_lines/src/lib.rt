//! What the lines of a request file ask of the machine, what is told of them, and in which order: definitions and laws.
//!
//! A line is a write, a read or a hook (specs/Asked.antt). What the machine replies to one line after another is told by
//! `ipe_weave`; an entry tells a line with its reply, and what the file after it came to (specs/Told.antt).
#![tactic(auto)]

mod laws;

pub use laws::{
    active_version_never_falls_along_lines, gate_run_is_told_in_order, numbers_of_lines_rise,
    transcripts_spell_their_order,
};
