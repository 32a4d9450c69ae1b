//! Hash trees that devices store, and paths down them: each block is checked before the next one is taken.
//!
//! A [`PathReader`] takes the hash blocks over a block of the data from the device that stores the tree, and then the block
//! itself, which it reads from a device or is handed. The laws say that a checked block is the image's, unless two blocks
//! are shown that differ and have one digest, and that nothing fails on a tree that is held as it was built.
#![tactic(auto)]

mod law;
mod path;
mod reader;
mod stored;
mod walk;

pub use law::{checked_blocks_are_of_the_image, held_trees_are_right};
pub use path::BlockPath;
pub use reader::PathReader;
pub use stored::StoredTree;
