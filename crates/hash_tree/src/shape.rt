ghost use Rattle.hash_tree.specs.Hash.{hash_of};
ghost use Rattle.hash_tree.specs.Shape.{IsHashBlockSize, height, tree_blocks};
ghost use Rattle.hash_tree.specs.Tree.{fan_out};
ghost use Rattle.std.specs.Prelude.{◌≡◌, ◌<◌, ◌≤◌};

use crate::HashAlgorithm;

/// How large a tree is.
#[derive(Clone, Copy, Debug, PartialEq, Eq)]
pub struct Shape {
    /// The levels above the data.
    pub levels: u8,
    /// The hash blocks of all these levels.
    pub hash_blocks: u64,
}

/// The shape of the tree over this many blocks, 1 to 16,777,216. A block is full of digests, at least four of them, and
/// has at most 4,096 bytes.
pub fn layout(blocks: u64, block_size: u32, algorithm: HashAlgorithm) -> Shape
    requires some { 1 ≤ blocks }
    requires few { blocks ≤ 16777216 }
    requires size { IsHashBlockSize (hash_of algorithm) block_size }
    ensures height { result.levels ≡ height (fan_out (hash_of algorithm) block_size) blocks }
    ensures count { result.hash_blocks ≡ tree_blocks (fan_out (hash_of algorithm) block_size) blocks }
    ensures fewer { result.hash_blocks < blocks }
    ensures low { result.levels ≤ 12 }
{
    let fan_out = algorithm.fan_out(block_size);
    let mut level = blocks;
    let mut levels = 0;
    let mut hash_blocks = 0;
    while level > 1 {
        level = level.div_ceil(fan_out);
        levels += 1;
        hash_blocks += level;
    }
    Shape {
        levels,
        hash_blocks,
    }
}
