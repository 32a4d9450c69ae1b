use ipe_policy::{Name, Version};

/// The name and the version that a header gives.
#[derive(Debug, Drop)]
pub struct Header {
    pub name: Name,
    pub version: Version,
}
