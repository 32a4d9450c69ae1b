//! Builds the hash tree of an image, as dm-verity lays it out.
//!
//! [`layout`] says how many levels and hash blocks a tree has, and [`build`] hashes an image into its [`Tree`].
//! [`block_size_of`] and [`Salt::read`] read the words that say how.
#![tactic(auto)]

mod law;
mod shape;
mod tree;
mod words;

pub use hash_tree::Shape;
pub use law::block_sizes_are_spelled;
pub use shape::{are_blocks, is_block_size, layout};
pub use tree::{Tree, build};
pub use words::{Salt, block_size_of};

#[cfg(test)]
mod tests;
