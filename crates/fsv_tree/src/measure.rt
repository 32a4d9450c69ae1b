ghost use Rattle.fsv_tree.specs.Blocks.{is_file_block_size};
ghost use Rattle.fsv_tree.specs.File.{described, file_root, file_tree};
ghost use Rattle.std.specs.Prelude.{◌≡◌, ◌≤◌, length, IsTrue, IfOk};

use crate::{BlockSalt, Descriptor};
use hash_tree::{HashAlgorithm, Tree, array_of, build, held};
use std::alloc::{AllocError, Global};
use std::marker::Model;

/// What was measured of a file: its descriptor, and its stored hash tree.
#[derive(Debug, Drop)]
pub struct Measured {
    descriptor: Descriptor,
    tree: Vec<u8>,
}

impl Model for Measured {
    ghost use Rattle.fsv_tree.specs.File.{MeasuredParts};

    ghost Value = { MeasuredParts };

    ghost view = { λ m. record { descriptor = m.descriptor; tree = m.tree.items } };
}

impl Measured {
    /// The file's descriptor.
    pub fn descriptor(&self) -> &Descriptor
        ensures { result.now ≡ self.now.descriptor }
    {
        &self.descriptor
    }

    /// The hash blocks as they are stored: the highest level first, block after block. Of a file of at most one block
    /// there are none.
    pub fn tree(&self) -> &[u8]
        ensures { result.now ≡ self.now.tree }
    {
        self.tree.as_slice()
    }
}

/// Measures a file of at most 16,777,216 bytes, in blocks of 1,024, 2,048 or 4,096 bytes, with a salt of at most 32
/// bytes. Each block is hashed once, from where it stands; only a short last block is copied.
pub fn measure_bytes(
    alloc: Global,
    bytes: &[u8],
    block_size: u32,
    salt: &[u8],
) -> Result<Measured, AllocError>
    requires few { length bytes.now ≤ 16777216 }
    requires size { IsTrue (is_file_block_size block_size) }
    requires salt { length salt.now ≤ 32 }
    ensures { IfOk result (λ measured. measured ≡ record {
      descriptor = described bytes.now block_size salt.now;
      tree = file_tree block_size salt.now bytes.now;
    }) }
{
    let Tree { root, stored } = hash_file(alloc, bytes, block_size, salt)?;
    let root = array_of(root.as_slice());
    Ok(Measured {
        descriptor: Descriptor::new(block_size, salt, bytes.len() as u64, root),
        tree: stored,
    })
}

// The root and the stored tree of a file.
fn hash_file(alloc: Global, bytes: &[u8], block_size: u32, salt: &[u8]) -> Result<Tree, AllocError>
    requires few { length bytes.now ≤ 16777216 }
    requires size { IsTrue (is_file_block_size block_size) }
    requires salt { length salt.now ≤ 32 }
    ensures root { IfOk result (λ tree. tree.root.items ≡ file_root block_size salt.now bytes.now) }
    ensures stored { IfOk result (λ tree. tree.stored.items ≡ file_tree block_size salt.now bytes.now) }
{
    if bytes.is_empty() {
        return Ok(Tree {
            root: held(&[0; 32]),
            stored: Vec::new(alloc),
        });
    }
    let salt = BlockSalt::new(salt);
    build(
        alloc,
        bytes,
        block_size,
        salt.as_slice(),
        HashAlgorithm::Sha256,
    )
}
