//! Hash trees over blocks, as dm-verity and fs-verity lay them out: what they are, how they are built, and the law of
//! checked paths.
//!
//! [`layout`] says how many levels and hash blocks a tree has, and [`build`] hashes bytes into their [`Tree`]. The laws
//! say that a path whose digests are all the wanted ones leads to the image's block, or shows two blocks with one
//! digest.
#![tactic(auto)]

mod above;
mod algorithm;
mod law;
mod shape;

pub use above::{Tree, build};
pub use algorithm::{HashAlgorithm, array_of, held};
pub use law::{checked_paths_lead_to_the_image, heights_are_least, trees_have_their_shape};
pub use shape::{Shape, layout};
