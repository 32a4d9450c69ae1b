ghost use Rattle.dmv_tree.specs.Blocks.{AreBlocks};
ghost use Rattle.hash_tree.specs.Chunks.{chunks};
ghost use Rattle.hash_tree.specs.Hash.{sha256_hash};
ghost use Rattle.hash_tree.specs.Tree.{root, stored};
ghost use Rattle.std.specs.Prelude.{◌≡◌, ◌≤◌, length, IfOk};

use hash_tree::{HashAlgorithm, array_of, trees_have_their_shape};
use std::alloc::{AllocError, Global};
use std::marker::Model;

/// The hash tree of an image.
#[derive(Debug, Drop)]
pub struct Tree {
    root: [u8; 32],
    stored: Vec<u8>,
}

impl Model for Tree {
    ghost use Rattle.dmv_tree.specs.Tree.{RootAndBytes};

    ghost Value = { RootAndBytes };

    ghost view = { λ tree. record { root = tree.root; bytes = tree.stored.items } };
}

impl Tree {
    /// The root, 32 bytes of SHA-256.
    pub fn root(&self) -> [u8; 32]
        ensures { result ≡ self.now.root }
    {
        self.root
    }

    /// The hash blocks as they are stored: the highest level first, block after block. Of an image of one block there
    /// are none.
    pub fn bytes(&self) -> &[u8]
        ensures { result.now ≡ self.now.bytes }
    {
        self.stored.as_slice()
    }
}

/// The tree of an image of 1 to 4,096 whole blocks of 512, 1,024, 2,048 or 4,096 bytes, with at most 256 bytes of salt.
/// While it is built, memory has it twice, as its levels and as it is stored.
pub fn build(alloc: Global, image: &[u8], block_size: u32, salt: &[u8]) -> Result<Tree, AllocError>
    requires blocks { AreBlocks (length image.now) block_size }
    requires salt { length salt.now ≤ 256 }
    ensures { IfOk result (λ tree. tree ≡ record {
      root = root sha256_hash block_size salt.now (chunks block_size image.now);
      bytes = stored sha256_hash block_size salt.now (chunks block_size image.now);
    }) }
{
    trees_have_their_shape();
    let hash_tree::Tree { root, stored } = hash_tree::build(
        alloc,
        image,
        block_size,
        salt,
        HashAlgorithm::Sha256,
    )?;
    let root = array_of(root.as_slice());
    Ok(Tree { root, stored })
}
