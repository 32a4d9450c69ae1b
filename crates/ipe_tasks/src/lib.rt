//! What one thread does alone: the linter's line of a policy's text, the line of a file's digest for fs-verity, and what is
//! told of the hash tree for dm-verity over a device's image. Each text is made whole, and who prints it sees by [`Told`]
//! whether it tells what was asked for, or why that is refused. How arguments ask for it is read to a [`Task`].
#![tactic(auto)]

mod file_digest;
mod linter;
mod refusals;
mod task;
mod told;
mod tree;

pub use file_digest::{FileTree, measured};
pub use linter::linted;
pub use refusals::{bad_line, device_line};
pub use task::{Task, measure_by, tree_by};
pub use told::Told;
pub use tree::{ImageTree, Refusal, TreeError, TreePart, tree_told};
