ghost use Rattle.std.specs.Prelude.{◌≡◌, ◌<◌, ◌≤◌, ◌++◌, ◌∷◌, [], length, slice_index_or, All, IfOk, MatchOption};

use std::alloc::{AllocError, Global};
use std::marker::Model;

/// The most blocks of a path: over 16,777,216 blocks, where a hash block has at least four digests, stand 12 levels.
const MOST_BLOCKS: usize = 13;

/// The most bytes of a block.
pub(crate) const MOST_BYTES: usize = 4_096;

/// The blocks of a path, from the top of a hash tree down to the data. All have one size.
#[derive(Debug, Drop)]
pub struct BlockPath {
    bytes: Vec<u8>,
    count: usize,
    size: usize,
}

impl Model for BlockPath {
    ghost use Rattle.hash_tree.specs.Chunks.{chunks};
    ghost use Rattle.std.specs.Prelude.{◌≡◌, ◌*◌, ◌<◌, ◌≤◌, List, ℕ, length, vec_capacity};

    ghost Value = { List (List ℕ) };

    ghost view = { λ s. chunks s.size s.bytes.items };

    ghost invariant = { λ s. (0 < s.size) × (s.size ≤ 4096) × (s.count ≤ 13) × (length s.bytes.items ≡ s.count * s.size)
        × (53248 ≤ vec_capacity s.bytes) };
}

impl BlockPath {
    // A path with room for every path, and with no block yet. The only error is out of memory.
    pub(crate) fn new(alloc: Global) -> Result<BlockPath, AllocError>
        ensures { IfOk result (λ path. path ≡ []) }
    {
        let bytes = Vec::with_capacity(alloc, MOST_BLOCKS * MOST_BYTES)?;
        Ok(BlockPath {
            bytes,
            count: 0,
            size: MOST_BYTES,
        })
    }

    // Takes all the blocks away.
    pub(crate) fn clear(&mut self)
        ensures { self.new ≡ [] }
    {
        self.bytes.clear();
        self.count = 0;
    }

    // Adds a block at the bottom, of the size of those above it.
    pub(crate) fn push(&mut self, block: &[u8])
        requires some { 0 < length block.now }
        requires small { length block.now ≤ 4096 }
        requires one_size { All (λ above. length above ≡ length block.now) self.old }
        requires room { length self.old < 13 }
        ensures { self.new ≡ self.old ++ block.now ∷ [] }
    {
        self.size = block.len();
        if self.bytes.extend_from_slice(block).is_ok() {
            self.count += 1;
        }
    }

    /// How many blocks the path has: at most 13.
    pub fn len(&self) -> usize
        ensures { result ≡ length self.now }
    {
        self.count
    }

    /// The block of a number, counted from 0 at the top.
    pub fn get(&self, number: usize) -> Option<&[u8]>
        ensures { MatchOption result (length self.now ≤ number)
            (λ block. (number < length self.now) × (block.now ≡ slice_index_or self.now number [])) }
    {
        if number < self.count {
            let at = number * self.size;
            Some(&self.bytes[at..at + self.size])
        } else {
            None
        }
    }
}
