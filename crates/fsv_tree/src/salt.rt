ghost use Rattle.fsv_tree.specs.Blocks.{block_salt};
ghost use Rattle.std.specs.Prelude.{◌≡◌, ◌≤◌, length};

use std::marker::Model;

/// What is hashed before each block of a file: its salt, filled with zeros to 64 bytes, the size of SHA-256's own
/// blocks. Of a file without salt it is nothing.
#[derive(Debug, Drop)]
pub struct BlockSalt {
    bytes: [u8; 64],
    size: usize,
}

impl Model for BlockSalt {
    ghost use Rattle.std.specs.Prelude.{◌≤◌, List, ℕ, take};

    ghost Value = { List ℕ };

    ghost view = { λ s. take s.size s.bytes };

    ghost invariant = { λ s. s.size ≤ 64 };
}

impl BlockSalt {
    /// That of a salt of at most 32 bytes.
    pub fn new(salt: &[u8]) -> BlockSalt
        requires { length salt.now ≤ 32 }
        ensures { result ≡ block_salt salt.now }
    {
        let mut bytes = [0; 64];
        if salt.is_empty() {
            return BlockSalt { bytes, size: 0 };
        }
        bytes[..salt.len()].copy_from_slice(salt);
        BlockSalt { bytes, size: 64 }
    }

    /// The bytes.
    pub fn as_slice(&self) -> &[u8]
        ensures { result.now ≡ self.now }
    {
        &self.bytes[..self.size]
    }
}
