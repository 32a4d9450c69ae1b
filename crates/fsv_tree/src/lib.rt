//! fs-verity: descriptors, file digests, and the measuring of a file in memory.
//!
//! [`Descriptor`] is read from its 256 bytes and written to them, and [`measure_bytes`] hashes a file into its
//! descriptor and its stored hash tree. The hash algorithm is SHA-256.
#![tactic(auto)]

mod descriptor;
mod law;
mod measure;
mod rows;
mod salt;

pub use descriptor::{BadDescriptor, Descriptor};
pub use law::{digests_tell_descriptors, roots_are_of_trees};
pub use measure::{Measured, measure_bytes};
pub use salt::BlockSalt;

#[cfg(test)]
mod tests;
