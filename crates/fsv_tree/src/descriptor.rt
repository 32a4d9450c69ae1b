ghost use Rattle.fsv_tree.specs.Blocks.{is_file_block_size, log_of};
ghost use Rattle.fsv_tree.specs.Descriptor.{IsFirstBreak, IsSound, said_by, spelling};
ghost use Rattle.fsv_tree.specs.File.{file_digest};
ghost use Rattle.fsv_tree.specs.Kept.{MayBeSaid};
ghost use Rattle.hash_tree.specs.Hash.{sha256_hash};
ghost use Rattle.hash_tree.specs.Shape.{tree_blocks};
ghost use Rattle.hash_tree.specs.Tree.{fan_out};
ghost use Rattle.std.specs.Int.{div_ceil};
ghost use Rattle.std.specs.Prelude.{◌≡◌, ◌^◌, ◌≤◌, length, replicate, IsTrue, IfOk, IfErr};

use crate::rows::first_break;
use hash_tree::{HashAlgorithm, layout};
use sha2::{Digest, Sha256};
use std::marker::Model;

/// The place of the first byte, 0 to 255, that no descriptor of a file of the wanted size has there.
#[derive(Clone, Copy, Debug, PartialEq, Eq)]
pub struct BadDescriptor {
    /// Counted from 0. Of the eight bytes of a wrong size it is the first, 8.
    pub byte: u16,
}

/// An fs-verity descriptor with SHA-256: block size, salt, size of the file and root.
#[derive(Debug, Drop)]
pub struct Descriptor {
    log: u8,
    salt_size: u8,
    salt: [u8; 32],
    size: u64,
    root: [u8; 32],
}

impl Model for Descriptor {
    ghost use Rattle.std.specs.Prelude.{take};
    ghost use Rattle.fsv_tree.specs.Descriptor.{DescriptorParts};
    ghost use Rattle.fsv_tree.specs.Kept.{IsKept};

    ghost Value = { DescriptorParts };

    ghost view = { λ d. record { log = d.log; salt = take d.salt_size d.salt; size = d.size; root = d.root } };

    ghost invariant = { λ d. IsKept d.log d.salt_size d.salt d.size d.root };
}

impl Descriptor {
    /// The descriptor that 256 bytes spell, of a file of `size` bytes, at most 16,777,216; or the first byte that no
    /// such descriptor has.
    pub fn read(bytes: &[u8; 256], size: u64) -> Result<Descriptor, BadDescriptor>
        requires { size ≤ 16777216 }
        ensures sound { IfOk result (λ _. IsSound bytes.now size) }
        ensures said { IfOk result (λ descriptor. descriptor ≡ said_by bytes.now size) }
        ensures spelling { IfOk result (λ descriptor. bytes.now ≡ spelling descriptor) }
        ensures size { IfOk result (λ descriptor. descriptor.size ≡ size) }
        ensures first { IfErr result (λ fault. IsFirstBreak bytes.now size fault.byte) }
    {
        if let Some(byte) = first_break(bytes, size) {
            return Err(BadDescriptor { byte });
        }
        let mut root = [0; 32];
        root.copy_from_slice(&bytes[16..48]);
        let mut salt = [0; 32];
        salt.copy_from_slice(&bytes[80..112]);
        Ok(Descriptor {
            log: bytes[2],
            salt_size: bytes[3],
            salt,
            size,
            root,
        })
    }

    // The descriptor of a file.
    pub(crate) fn new(block_size: u32, salt: &[u8], size: u64, root: [u8; 32]) -> Descriptor
        requires block_size { IsTrue (is_file_block_size block_size) }
        requires salt { length salt.now ≤ 32 }
        requires few { size ≤ 16777216 }
        requires root { size ≡ 0 → root ≡ replicate 32 0 }
        ensures { result ≡ record { log = log_of block_size; salt = salt.now; size = size; root = root } }
    {
        let log = match block_size {
            1024 => 10,
            2048 => 11,
            _ => 12,
        };
        let mut padded = [0; 32];
        padded[..salt.len()].copy_from_slice(salt);
        Descriptor {
            log,
            salt_size: salt.len() as u8,
            salt: padded,
            size,
            root,
        }
    }

    /// The same descriptor once more.
    pub fn copy(&self) -> Descriptor
        ensures { result ≡ self.now }
    {
        Descriptor {
            log: self.log,
            salt_size: self.salt_size,
            salt: self.salt,
            size: self.size,
            root: self.root,
        }
    }

    /// The 256 bytes, of which `read` makes the same descriptor again.
    pub fn write(&self) -> [u8; 256]
        ensures bytes { result ≡ spelling self.now }
        ensures sound { IsSound result self.now.size }
        ensures again { said_by result self.now.size ≡ self.now }
        ensures limits { MayBeSaid self.now }
    {
        let mut bytes = [0; 256];
        bytes[..4].copy_from_slice(&[1, 1, self.log, self.salt_size]);
        bytes[8..16].copy_from_slice(&self.size.to_le_bytes());
        bytes[16..48].copy_from_slice(&self.root);
        bytes[80..112].copy_from_slice(&self.salt);
        bytes
    }

    /// The file digest: the SHA-256 of the 256 bytes.
    pub fn digest(&self) -> [u8; 32]
        ensures digest { result ≡ file_digest self.now }
        ensures limits { MayBeSaid self.now }
    {
        Sha256::digest(&self.write())
    }

    /// The size of a block in bytes: 1,024, 2,048 or 4,096.
    pub fn block_size(&self) -> u32
        ensures value { result ≡ 2 ^ self.now.log }
        ensures one_of { IsTrue (is_file_block_size result) }
    {
        match self.log {
            10 => 1024,
            11 => 2048,
            _ => 4096,
        }
    }

    /// The size of the file in bytes.
    pub fn size(&self) -> u64
        ensures value { result ≡ self.now.size }
        ensures few { result ≤ 16777216 }
    {
        self.size
    }

    /// How many blocks the file has; the last may be a short one.
    pub fn blocks(&self) -> u64
        ensures value { result ≡ div_ceil self.now.size (2 ^ self.now.log) }
        ensures few { result ≤ 16384 }
    {
        self.size.div_ceil(u64::from(self.block_size()))
    }

    /// How many hash blocks stand above the file's blocks, in all levels: none above one block, or none.
    pub fn tree_blocks(&self) -> u64
        ensures count { result
            ≡ tree_blocks (fan_out sha256_hash (2 ^ self.now.log)) (div_ceil self.now.size (2 ^ self.now.log)) }
        ensures none { div_ceil self.now.size (2 ^ self.now.log) ≤ 1 → result ≡ 0 }
        ensures few { result ≤ 16384 }
    {
        let blocks = self.blocks();
        if blocks == 0 {
            return 0;
        }
        layout(blocks, self.block_size(), HashAlgorithm::Sha256).hash_blocks
    }

    /// The root, 32 bytes of SHA-256; of an empty file, zeros.
    pub fn root(&self) -> [u8; 32]
        ensures { result ≡ self.now.root }
    {
        self.root
    }

    /// The salt, of 0 to 32 bytes.
    pub fn salt(&self) -> &[u8]
        ensures value { result.now ≡ self.now.salt }
        ensures short { length result.now ≤ 32 }
    {
        &self.salt[..usize::from(self.salt_size)]
    }
}
