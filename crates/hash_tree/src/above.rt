ghost use Rattle.hash_tree.specs.Hash.{hash_of};
ghost use Rattle.hash_tree.specs.Shape.{IsHashBlockSize};
ghost use Rattle.hash_tree.specs.Tree.{data_blocks, filled, hash_blocks, root, salted, stored};
ghost use Rattle.std.specs.List.{concat};
ghost use Rattle.std.specs.Prelude.{◌≡◌, ◌<◌, ◌≤◌, ◌++◌, length, IfOk};

use crate::{HashAlgorithm, layout};
use arrayvec::ArrayVec;
use std::alloc::{AllocError, Global};

/// A hash tree.
#[derive(Debug, Drop)]
pub struct Tree {
    /// The root: one digest.
    pub root: ArrayVec<u8, 64>,
    /// The hash blocks as they are stored: the highest level first, block after block. Over one block there are none.
    pub stored: Vec<u8>,
}

/// The tree over 1 to 16,777,216 bytes, cut into blocks, of which the last is filled with zeros. A block is full of
/// digests, at least four of them, and has at most 4,096 bytes. While the tree is built, memory has it twice, as its
/// levels and as it is stored, and the last block where that is short.
pub fn build(
    alloc: Global,
    bytes: &[u8],
    block_size: u32,
    salt: &[u8],
    algorithm: HashAlgorithm,
) -> Result<Tree, AllocError>
    requires some { 1 ≤ length bytes.now }
    requires few { length bytes.now ≤ 16777216 }
    requires size { IsHashBlockSize (hash_of algorithm) block_size }
    ensures root { IfOk result (λ tree. tree.root.items
        ≡ root (hash_of algorithm) block_size salt.now (data_blocks block_size bytes.now)) }
    ensures one_digest { IfOk result (λ tree. length tree.root.items ≡ (hash_of algorithm).size) }
    ensures stored { IfOk result (λ tree.
        tree.stored.items
        ≡ stored (hash_of algorithm) block_size salt.now (data_blocks block_size bytes.now)) }
{
    let size = block_size as usize;
    let shape = layout(bytes.len().div_ceil(size) as u64, block_size, algorithm);
    let mut stored = Vec::with_capacity(alloc, shape.hash_blocks as usize * size)?;
    let root = add_levels(alloc, bytes, size, salt, algorithm, &mut stored)?;
    Ok(Tree { root, stored })
}

// Adds the levels above this one, the highest first, and gives the root.
fn add_levels(
    alloc: Global,
    level: &[u8],
    size: usize,
    salt: &[u8],
    algorithm: HashAlgorithm,
    tree: &mut Vec<u8>,
) -> Result<ArrayVec<u8, 64>, AllocError>
    requires some { 0 < length level.now }
    requires few { length level.now ≤ 16777216 }
    requires size { IsHashBlockSize (hash_of algorithm) size }
    ensures root { IfOk result (λ digest. digest.items
        ≡ root (hash_of algorithm) size salt.now (data_blocks size level.now)) }
    ensures added { IfOk result (λ digest.
        tree.new.items ≡ tree.old.items ++ stored (hash_of algorithm) size salt.now (data_blocks size level.now)) }
{
    if level.len() <= size {
        return filled_digest(alloc, salt, level, size, algorithm);
    }
    let above = hash_level(alloc, level, size, salt, algorithm)?;
    let root = add_levels(alloc, &above, size, salt, algorithm, tree)?;
    tree.extend_from_slice(&above)?;
    Ok(root)
}

// The hash blocks over a level's blocks, one after another.
fn hash_level(
    alloc: Global,
    level: &[u8],
    size: usize,
    salt: &[u8],
    algorithm: HashAlgorithm,
) -> Result<Vec<u8>, AllocError>
    requires some { 0 < length level.now }
    requires few { length level.now ≤ 16777216 }
    requires size { IsHashBlockSize (hash_of algorithm) size }
    ensures { IfOk result (λ above. above.items
        ≡ concat (hash_blocks (hash_of algorithm) size salt.now (data_blocks size level.now))) }
{
    let digest_bytes = level.len().div_ceil(size) * algorithm.digest_size();
    let full = digest_bytes.div_ceil(size) * size;
    let mut above = Vec::with_capacity(alloc, full)?;
    for block in level.chunks(size) {
        let digest = filled_digest(alloc, salt, block, size, algorithm)?;
        above.extend_from_slice(&digest)?;
    }
    above.resize(full, 0)?;
    Ok(above)
}

// The digest of a block after its salt. Only a short block is copied, and filled.
fn filled_digest(
    alloc: Global,
    salt: &[u8],
    block: &[u8],
    size: usize,
    algorithm: HashAlgorithm,
) -> Result<ArrayVec<u8, 64>, AllocError>
    requires { length block.now ≤ size }
    ensures { IfOk result (λ digest. digest.items
        ≡ salted (hash_of algorithm) salt.now (filled size block.now)) }
{
    if block.len() == size {
        return Ok(algorithm.salted_digest(salt, block));
    }
    let mut full = Vec::with_capacity(alloc, size)?;
    full.extend_from_slice(block)?;
    full.resize(size, 0)?;
    Ok(algorithm.salted_digest(salt, &full))
}
