use ipe_objects::{Images, Objects};
use std::alloc::Global;

/// What the lines of a phase are run with: where memory comes from, the declared files, the images of the devices, and
/// the phase's number, from 1.
#[derive(Drop)]
pub struct Work<'a> {
    pub alloc: Global,
    pub objects: &'a Objects<'a>,
    pub images: &'a Images,
    pub phase: u32,
}
