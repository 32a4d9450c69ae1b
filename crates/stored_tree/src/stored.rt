use hash_tree::HashAlgorithm;
use std::marker::Model;

/// A hash tree that a device stores, and what it is checked against.
#[derive(Debug, Drop)]
pub struct StoredTree<'a> {
    /// The name of the device that has the hash blocks.
    pub device: &'a [u8],
    /// The byte at which the tree begins there: the highest level first, block after block.
    pub start: u64,
    /// The size of a block in bytes.
    pub block_size: u32,
    /// How many blocks the data have.
    pub blocks: u64,
    /// The hash function.
    pub algorithm: HashAlgorithm,
    /// The digest of the highest block.
    pub root: &'a [u8],
    /// What is hashed before each block.
    pub salt: &'a [u8],
}

impl<'a> Model for StoredTree<'a> {
    ghost use Rattle.stored_tree.specs.Stored.{Stored};

    ghost Value = { Stored };

    ghost view = { λ t. record {
      device = t.device.now;
      start = t.start;
      block_size = t.block_size;
      blocks = t.blocks;
      algorithm = t.algorithm;
      root = t.root.now;
      salt = t.salt.now;
    } };
}
