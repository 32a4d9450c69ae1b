ghost use Rattle.hash_tree.specs.Hash.{hash_of};
ghost use Rattle.hash_tree.specs.Tree.{fan_out, salted};
ghost use Rattle.std.specs.Prelude.{◌≡◌, ◌≤◌, ◌/◌, length};

use arrayvec::ArrayVec;
use sha2::{Digest, Sha256};

/// The hash functions of hash trees.
#[derive(Clone, Copy, Debug, PartialEq, Eq)]
pub enum HashAlgorithm {
    /// SHA-256 of FIPS 180-4.
    Sha256,
}

impl HashAlgorithm {
    /// How many bytes a digest has: at most 64.
    pub fn digest_size(self) -> usize
        ensures value { result ≡ (hash_of self).size }
        ensures some { 1 ≤ result }
        ensures few { result ≤ 64 }
    {
        match self {
            HashAlgorithm::Sha256 => 32,
        }
    }

    /// How many digests a hash block of this size has.
    pub fn fan_out(self, block_size: u32) -> u64
        ensures { result ≡ fan_out (hash_of self) block_size }
    {
        u64::from(block_size) / self.digest_size() as u64
    }

    /// The digest that a tree has of a block: that of the salt and then the block.
    pub fn salted_digest(self, salt: &[u8], block: &[u8]) -> ArrayVec<u8, 64>
        ensures { result.items ≡ salted (hash_of self) salt.now block.now }
    {
        match self {
            HashAlgorithm::Sha256 => held(&salted_sha256(salt, block)),
        }
    }
}

fn salted_sha256(salt: &[u8], block: &[u8]) -> [u8; 32]
    ensures { result ≡ salted (hash_of HashAlgorithm.Sha256) salt.now block.now }
{
    let mut hasher = Sha256::new();
    hasher.update(salt);
    hasher.update(block);
    hasher.finalize()
}

/// Bytes, held in an array that has room for them.
pub fn held<const N: usize>(bytes: &[u8]) -> ArrayVec<u8, N>
    requires { length bytes.now ≤ N }
    ensures { result.items ≡ bytes.now }
{
    let mut held = ArrayVec::new();
    let _fits = held.try_extend_from_slice(bytes);
    held
}

/// Bytes, as an array of their length.
pub fn array_of<const N: usize>(bytes: &[u8]) -> [u8; N]
    requires { length bytes.now ≡ N }
    ensures { result ≡ bytes.now }
{
    let mut array = [0; N];
    array.copy_from_slice(bytes);
    array
}
