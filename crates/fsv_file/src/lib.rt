//! Files under fs-verity: their blocks are checked against the descriptor, over the stored tree of a device.
#![tactic(auto)]

mod file;

pub use file::FsvFile;
pub use stored_tree::BlockPath;

#[cfg(test)]
mod tests;
