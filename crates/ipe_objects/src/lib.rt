//! The devices and files of a request file: the images of its devices, the context of each declared file, and what a
//! file comes to when it is read block by block.
//!
//! [`load_images`] loads the devices. [`Objects`] has the declared files, each with its context, found by its path.
//! [`read_file`] reads one through a worker's [`View`]: the blocks of its volume are checked first, then its own.
#![tactic(auto)]

mod declared;
mod images;
mod laws;
mod line;
mod names;
mod objects;
mod places;
mod reading;
mod seals;
mod view;

pub use declared::Declared;
pub use images::{Images, ImagesError, load_images};
pub use laws::{hashed_files_are_the_images, undamaged_files_are_hashed};
pub use objects::Objects;
pub use reading::read_file;
pub use view::View;
