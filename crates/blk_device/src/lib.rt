//! Devices: bytes under names, which a program asks for from a place on.
//!
//! [`Devices`] is what a reader needs of them. They may fail, and count it. [`MemoryDevices`] fail where it is planned,
//! [`ImageDevices`] never answer that they failed, and [`FileDevices`] are the files of a system. [`read_exact_at`]
//! fills a buffer from a device, and [`read_device`] reads one whole.
#![tactic(auto)]

mod devices;
mod files;
mod image;
mod memory;
mod named_bytes;
mod whole;

pub use devices::{DevError, Devices, VerityError};
pub use files::FileDevices;
pub use image::ImageDevices;
pub use memory::MemoryDevices;
pub use named_bytes::NamedBytes;
pub use whole::{ReadDeviceError, has_at_least, read_device, read_exact_at};

#[cfg(test)]
mod tests;
