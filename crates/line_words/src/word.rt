ghost use Rattle.std.specs.Prelude.{◌≡◌, ◌&&◌, nat_le, length, IfOk};
ghost use Rattle.std.specs.List.{list_all};
ghost use Rattle.line_words.specs.Words.{hex_of, is_digit, is_hex, is_lower, is_lower_hex, is_visible, is_word};

use crate::Bytes;
use hex::FromHexError;
use std::alloc::{AllocError, Global};

/// Whether a byte is visible ASCII, 0x21 to 0x7E.
pub fn is_visible(byte: u8) -> bool
    ensures { result ≡ is_visible byte }
{
    (0x21..=0x7E).contains(&byte)
}

/// Whether a byte is one of `0` to `9`.
pub fn is_digit(byte: u8) -> bool
    ensures { result ≡ is_digit byte }
{
    byte.is_ascii_digit()
}

/// Whether a byte is one of `a` to `z`.
pub fn is_lower(byte: u8) -> bool
    ensures { result ≡ is_lower byte }
{
    byte.is_ascii_lowercase()
}

/// Whether bytes are at least `low` and at most `high`.
pub fn has_length(bytes: &[u8], low: usize, high: usize) -> bool
    ensures { result ≡ (nat_le low (length bytes.now) && nat_le (length bytes.now) high) }
{
    low <= bytes.len() && bytes.len() <= high
}

fn all_visible(bytes: &[u8]) -> bool
    ensures { result ≡ list_all is_visible bytes.now }
{
    bytes.iter().all(|byte| is_visible(*byte))
}

/// Whether a word has 1 to `most` bytes, all of them visible ASCII, 0x21 to 0x7E.
pub fn is_visible_word(bytes: &[u8], most: usize) -> bool
    ensures { result ≡ is_word 1 most is_visible bytes.now }
{
    has_length(bytes, 1, most) && all_visible(bytes)
}

fn is_lower_hex(byte: u8) -> bool
    ensures { result ≡ is_lower_hex byte }
{
    byte.is_ascii_digit() || (b'a'..=b'f').contains(&byte)
}

fn all_lower_hex(word: &[u8]) -> bool
    ensures { result ≡ list_all is_lower_hex word.now }
{
    word.iter().all(|byte| is_lower_hex(*byte))
}

/// Whether a word has from `low` to `high` hexadecimal digits of lower case, an even number of them.
pub fn is_hex(low: usize, high: usize, word: &[u8]) -> bool
    ensures { result ≡ is_hex low high word.now }
{
    has_length(word, low, high) && all_lower_hex(word) && word.len() % 2 == 0
}

/// The bytes that a word spells by hexadecimal digits of lower case: from `low` to `high` digits, an even number of them.
#[tactic(auto, unfolding(crate::specs::Words::hex_of))]
pub fn hex_bytes(
    alloc: Global,
    low: usize,
    high: usize,
    word: &[u8],
) -> Result<Option<Bytes>, AllocError>
    ensures { IfOk result (λ bytes. bytes ≡ hex_of low high word.now) }
{
    if !is_hex(low, high, word) {
        return Ok(None);
    }
    match hex::decode(alloc, word) {
        Ok(bytes) => Ok(Some(Bytes::from_vec(bytes))),
        Err(FromHexError::OutOfMemory) => Err(AllocError),
        Err(_) => Ok(None),
    }
}
