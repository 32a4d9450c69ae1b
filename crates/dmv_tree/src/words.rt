ghost use Rattle.dmv_tree.specs.Blocks.{is_block_size};
ghost use Rattle.dmv_tree.specs.Words.{block_size_of, salt_of};
ghost use Rattle.std.specs.Prelude.{◌≡◌, ◌≤◌, ◌*◌, length, IfSome, IsTrue};

use arrayvec::ArrayVec;
use hash_tree::held;
use std::marker::Model;

/// The salt of a tree: at most 256 bytes.
#[derive(Debug, Drop)]
pub struct Salt {
    bytes: ArrayVec<u8, 256>,
}

impl Model for Salt {
    ghost use Rattle.std.specs.Prelude.{List, ℕ, ◌≤◌, length};

    ghost Value = { List ℕ };

    ghost view = { λ s. s.bytes.items };

    ghost invariant = { λ s. length s.bytes.items ≤ 256 };
}

impl Salt {
    /// The salt that a word says: a dash for none, or from 2 to `most_digits` hexadecimal digits of either case, an even
    /// number of them.
    pub fn read(word: &[u8], most_digits: usize) -> Option<Salt>
        requires { most_digits ≤ 512 }
        ensures salt { result ≡ salt_of most_digits word.now }
        ensures few { IfSome result (λ salt. 2 * length salt ≤ most_digits) }
    {
        if word == b"-".as_slice() {
            return Some(Salt { bytes: held(&[]) });
        }
        if word.len() < 2 || word.len() > most_digits {
            return None;
        }
        let mut buffer = [0u8; 256];
        let bytes = &mut buffer[..word.len() / 2];
        hex::decode_to_slice(word, bytes).ok()?;
        Some(Salt { bytes: held(bytes) })
    }

    /// Its bytes.
    pub fn as_slice(&self) -> &[u8]
        ensures bytes { result.now ≡ self.now }
        ensures few { length self.now ≤ 256 }
    {
        self.bytes.as_slice()
    }
}

/// The size of a block that a word says: 512, 1024, 2048 or 4096.
pub fn block_size_of(word: &[u8]) -> Option<u32>
    ensures size { result ≡ block_size_of word.now }
    ensures rule { IfSome result (λ size. IsTrue (is_block_size size)) }
{
    if word == b"512".as_slice() {
        return Some(512);
    }
    if word == b"1024".as_slice() {
        return Some(1024);
    }
    if word == b"2048".as_slice() {
        return Some(2048);
    }
    if word == b"4096".as_slice() {
        return Some(4096);
    }
    None
}
