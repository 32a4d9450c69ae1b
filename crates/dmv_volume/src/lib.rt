//! Verity volumes of dm-verity: the table of a target, and reads that are checked.
//!
//! [`Table`] is read from a target's table line. A [`Volume`] of it reads blocks from devices, and checks each block of
//! the path to the data against what the block above it says, or the root, before it takes the next one.
#![tactic(auto)]

mod table;
mod volume;
mod words;

pub use stored_tree::BlockPath;
pub use table::{Table, TableError, lines_are_whole_or_have_one_bad_word};
pub use volume::Volume;

#[cfg(test)]
mod tests;
