ghost use Rattle.dmv_tree.specs.Blocks.{AreBlocks, AreNoBlocks, is_block_size};
ghost use Rattle.hash_tree.specs.Hash.{sha256_hash};
ghost use Rattle.hash_tree.specs.Shape.{height, tree_blocks};
ghost use Rattle.hash_tree.specs.Tree.{fan_out};
ghost use Rattle.std.specs.Prelude.{◌≡◌, ◌<◌, ◌≤◌, false, true, IsTrue};

use hash_tree::{HashAlgorithm, Shape};

/// The most blocks of an image.
const MOST_BLOCKS: u64 = 4_096;

/// Whether blocks may have this size, in bytes: 512, 1,024, 2,048 or 4,096.
pub fn is_block_size(size: u64) -> bool
    ensures { result ≡ is_block_size size }
{
    size == 512 || size == 1024 || size == 2048 || size == 4096
}

/// Whether so many bytes are 1 to 4,096 whole blocks of this size: those that have a tree.
pub fn are_blocks(bytes: u64, block_size: u32) -> bool
    requires { IsTrue (is_block_size block_size) }
    ensures yes { result ≡ true → AreBlocks bytes block_size }
    ensures no { result ≡ false → AreNoBlocks bytes block_size }
{
    let block_size = u64::from(block_size);
    if bytes == 0 || bytes % block_size != 0 || bytes / block_size > MOST_BLOCKS {
        return false;
    }
    true
}

/// The shape of the tree over this many blocks, 1 to 4,096, of 512, 1,024, 2,048 or 4,096 bytes each.
pub fn layout(blocks: u64, block_size: u32) -> Shape
    requires some { 1 ≤ blocks }
    requires few { blocks ≤ 4096 }
    requires size { IsTrue (is_block_size block_size) }
    ensures height { result.levels ≡ height (fan_out sha256_hash block_size) blocks }
    ensures count { result.hash_blocks ≡ tree_blocks (fan_out sha256_hash block_size) blocks }
    ensures fewer { result.hash_blocks < blocks }
    ensures low { result.levels ≤ 12 }
{
    hash_tree::layout(blocks, block_size, HashAlgorithm::Sha256)
}
