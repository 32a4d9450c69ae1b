ghost use Rattle.dmv_volume.specs.Table.{HasLimits, IsReason, Say};
ghost use Rattle.dmv_volume.specs.Words.{AreWhole, OneFirstBad, WholeOrBad, WordsFit, word_at};
ghost use Rattle.line_words.specs.Lines.{seen, words_of};
ghost use Rattle.dmv_tree.specs.Blocks.{is_block_size};
ghost use Rattle.dmv_tree.specs.Words.{salt_of};
ghost use Rattle.hash_tree.specs.Hash.{sha256_hash};
ghost use Rattle.hash_tree.specs.Shape.{tree_blocks};
ghost use Rattle.hash_tree.specs.Tree.{fan_out};
ghost use Rattle.hex.specs.Hex.{decode_of};
ghost use Rattle.std.specs.Fmt.{decimal};
ghost use Rattle.std.specs.Prelude.{◌≡◌, ◌<◌, ◌≤◌, ◌==◌, ℕ, IsTrue, IfErr, IfOk, Some, length};

use crate::words::{is_name, number_of, root_of, word_at};
use dmv_tree::{Salt, block_size_of, block_sizes_are_spelled, layout};
use line_words::words_of;
use std::alloc::{AllocError, Global};
use std::marker::Model;

/// The most digits of a salt.
const MOST_SALT_DIGITS: usize = 512;

/// Why a line was not read as a table.
#[derive(Clone, Copy, Debug, PartialEq, Eq)]
pub enum TableError {
    /// The word of this number, counted from 1, is bad or missing, or it is one too many.
    Bad { word: u32 },
    /// There was no memory for the table.
    NoMemory,
}

/// The table of a verity target: where its blocks are, and what they are checked against.
#[derive(Debug, Drop)]
pub struct Table {
    device: Vec<u8>,
    hash_device: Vec<u8>,
    block_size: u32,
    blocks: u64,
    hash_start: u64,
    root: [u8; 32],
    salt: Vec<u8>,
    has_option: bool,
}

impl Model for Table {
    ghost use Rattle.dmv_volume.specs.Table.{HasLimits, TableParts};

    ghost Value = { TableParts };

    ghost view = { λ s. record {
      device = s.device.items;
      hash_device = s.hash_device.items;
      block_size = s.block_size;
      blocks = s.blocks;
      hash_start = s.hash_start;
      root = s.root;
      salt = s.salt.items;
      has_option = s.has_option;
    } };

    ghost invariant = { λ s. HasLimits (record {
      device = s.device.items;
      hash_device = s.hash_device.items;
      block_size = s.block_size;
      blocks = s.blocks;
      hash_start = s.hash_start;
      root = s.root;
      salt = s.salt.items;
      has_option = s.has_option;
    }) };
}

impl Table {
    /// Reads the part of a table line that stands after the target's name. Its words are separated by one blank:
    /// `1 DEV HASHDEV DATABS HASHBS NBLOCKS HASHSTART sha256 ROOT SALT`, and then nothing or
    /// `2 root_hash_sig_key_desc WORD`.
    pub fn read(alloc: Global, line: &[u8]) -> Result<Table, TableError>
        ensures whole { IfOk result (λ table. AreWhole (words_of line.now)) }
        ensures says { IfOk result (λ table. Say (words_of line.now) table) }
        ensures limits { IfOk result (λ table. HasLimits table) }
        ensures bad { IfErr result (IsReason (words_of line.now)) }
    {
        let words = words_of(alloc, line).map_err(no_memory)?;
        Table::of_words(alloc, words.as_slice())
    }

    // The table that these words say.
    fn of_words(alloc: Global, words: &[&[u8]]) -> Result<Table, TableError>
        ensures whole { IfOk result (λ table. AreWhole (seen words.now)) }
        ensures says { IfOk result (λ table. Say (seen words.now) table) }
        ensures limits { IfOk result (λ table. HasLimits table) }
        ensures bad { IfErr result (IsReason (seen words.now)) }
    {
        let names = Names::read(words)?;
        let sizes = Sizes::read(words)?;
        let digests = Digests::read(words)?;
        let has_option = option_of(words)?;
        Ok(Table {
            device: names.device.to_vec(alloc).map_err(no_memory)?,
            hash_device: names.hash_device.to_vec(alloc).map_err(no_memory)?,
            block_size: sizes.block_size,
            blocks: sizes.blocks,
            hash_start: sizes.hash_start,
            root: digests.root,
            salt: digests.salt.as_slice().to_vec(alloc).map_err(no_memory)?,
            has_option,
        })
    }

    // The same table once more.
    pub(crate) fn copy(&self, alloc: Global) -> Result<Table, AllocError>
        ensures { IfOk result (λ table. table ≡ self.now) }
    {
        Ok(Table {
            device: self.device.to_vec(alloc)?,
            hash_device: self.hash_device.to_vec(alloc)?,
            block_size: self.block_size,
            blocks: self.blocks,
            hash_start: self.hash_start,
            root: self.root,
            salt: self.salt.to_vec(alloc)?,
            has_option: self.has_option,
        })
    }

    /// The name of the device that has the data.
    pub fn device(&self) -> &[u8]
        ensures { result.now ≡ self.now.device }
    {
        &self.device
    }

    /// The name of the device that has the hash blocks.
    pub fn hash_device(&self) -> &[u8]
        ensures { result.now ≡ self.now.hash_device }
    {
        &self.hash_device
    }

    /// The size of a block, in bytes: 512, 1,024, 2,048 or 4,096.
    pub fn block_size(&self) -> u32
        ensures value { result ≡ self.now.block_size }
        ensures limits { HasLimits self.now }
    {
        self.block_size
    }

    /// How many blocks the data have: 1 to 4,096.
    pub fn blocks(&self) -> u64
        ensures value { result ≡ self.now.blocks }
        ensures limits { HasLimits self.now }
    {
        self.blocks
    }

    /// The block of the hash device at which the hash blocks begin: at most 1,048,576.
    pub fn hash_start(&self) -> u64
        ensures value { result ≡ self.now.hash_start }
        ensures limits { HasLimits self.now }
    {
        self.hash_start
    }

    /// The root that is declared: one digest.
    pub fn root(&self) -> &[u8]
        ensures value { result.now ≡ self.now.root }
        ensures size { length result.now ≡ sha256_hash.size }
    {
        &self.root
    }

    /// The salt, at most 256 bytes.
    pub fn salt(&self) -> &[u8]
        ensures { result.now ≡ self.now.salt }
    {
        &self.salt
    }

    /// Whether the option that names a key for the root's signature is there.
    pub fn has_option(&self) -> bool
        ensures { result ≡ self.now.has_option }
    {
        self.has_option
    }

    /// How many hash blocks there are, in all levels above the data.
    pub fn hash_blocks(&self) -> u64
        ensures value { result ≡ tree_blocks (fan_out sha256_hash self.now.block_size) self.now.blocks }
        ensures fewer { result < self.now.blocks }
    {
        layout(self.blocks, self.block_size).hash_blocks
    }
}

fn no_memory(_: AllocError) -> TableError
    ensures { result ≡ TableError.NoMemory }
{
    TableError::NoMemory
}

// The first three words.
#[derive(Drop)]
struct Names<'a> {
    device: &'a [u8],
    hash_device: &'a [u8],
}

impl<'a> Names<'a> {
    fn read(words: &[&'a [u8]]) -> Result<Names<'a>, TableError>
        ensures fit { IfOk result (λ names. WordsFit (seen words.now) 3) }
        ensures device { IfOk result (λ names. word_at (seen words.now) 2 ≡ names.device.now) }
        ensures hash_device { IfOk result (λ names. word_at (seen words.now) 3 ≡ names.hash_device.now) }
        ensures bad { IfErr result (IsReason (seen words.now)) }
    {
        if word_at(words, 1) != b"1".as_slice() {
            return Err(TableError::Bad { word: 1 });
        }
        let device = word_at(words, 2);
        if !is_name(device) {
            return Err(TableError::Bad { word: 2 });
        }
        let hash_device = word_at(words, 3);
        if !is_name(hash_device) {
            return Err(TableError::Bad { word: 3 });
        }
        Ok(Names {
            device,
            hash_device,
        })
    }
}

// The fourth word to the seventh.
#[derive(Drop)]
struct Sizes {
    block_size: u32,
    blocks: u64,
    hash_start: u64,
}

impl Sizes {
    fn read(words: &[&[u8]]) -> Result<Sizes, TableError>
        requires { WordsFit (seen words.now) 3 }
        ensures fit { IfOk result (λ sizes. WordsFit (seen words.now) 7) }
        ensures block_size { IfOk result (λ sizes. word_at (seen words.now) 4 ≡ decimal sizes.block_size) }
        ensures blocks { IfOk result (λ sizes. word_at (seen words.now) 6 ≡ decimal sizes.blocks) }
        ensures hash_start { IfOk result (λ sizes. word_at (seen words.now) 7 ≡ decimal sizes.hash_start) }
        ensures size { IfOk result (λ sizes. IsTrue (is_block_size sizes.block_size)) }
        ensures some { IfOk result (λ sizes. 1 ≤ sizes.blocks) }
        ensures few { IfOk result (λ sizes. sizes.blocks ≤ 4096) }
        ensures start { IfOk result (λ sizes. sizes.hash_start ≤ 1048576) }
        ensures bad { IfErr result (IsReason (seen words.now)) }
    {
        block_sizes_are_spelled();
        let block_size = block_size_of(word_at(words, 4)).ok_or(TableError::Bad { word: 4 })?;
        if word_at(words, 5) != word_at(words, 4) {
            return Err(TableError::Bad { word: 5 });
        }
        let blocks = number_of(word_at(words, 6), 1, 4096).ok_or(TableError::Bad { word: 6 })?;
        let hash_start = number_of(word_at(words, 7), 0, 1_048_576).ok_or(TableError::Bad {
            word: 7,
        })?;
        Ok(Sizes {
            block_size,
            blocks,
            hash_start,
        })
    }
}

// The eighth word to the tenth.
#[derive(Drop)]
struct Digests {
    root: [u8; 32],
    salt: Salt,
}

impl Digests {
    fn read(words: &[&[u8]]) -> Result<Digests, TableError>
        requires { WordsFit (seen words.now) 7 }
        ensures fit { IfOk result (λ digests. WordsFit (seen words.now) 10) }
        ensures root { IfOk result (λ digests. decode_of (word_at (seen words.now) 9) ≡ Ok digests.root) }
        ensures salt { IfOk result (λ digests. salt_of 512 (word_at (seen words.now) 10) ≡ Some digests.salt) }
        ensures small { IfOk result (λ digests. length digests.salt ≤ 256) }
        ensures bad { IfErr result (IsReason (seen words.now)) }
    {
        if word_at(words, 8) != b"sha256".as_slice() {
            return Err(TableError::Bad { word: 8 });
        }
        let root = root_of(word_at(words, 9)).ok_or(TableError::Bad { word: 9 })?;
        let salt = Salt::read(word_at(words, 10), MOST_SALT_DIGITS).ok_or(TableError::Bad {
            word: 10,
        })?;
        Ok(Digests { root, salt })
    }
}

// Whether the option is there.
fn option_of(words: &[&[u8]]) -> Result<bool, TableError>
    requires { WordsFit (seen words.now) 10 }
    ensures whole { IfOk result (λ has. AreWhole (seen words.now)) }
    ensures has { IfOk result (λ has. has ≡ (length (seen words.now) == 13)) }
    ensures bad { IfErr result (IsReason (seen words.now)) }
{
    if words.len() == 10 {
        return Ok(false);
    }
    if word_at(words, 11) != b"2".as_slice() {
        return Err(TableError::Bad { word: 11 });
    }
    if word_at(words, 12) != b"root_hash_sig_key_desc".as_slice() {
        return Err(TableError::Bad { word: 12 });
    }
    if !is_name(word_at(words, 13)) {
        return Err(TableError::Bad { word: 13 });
    }
    if words.len() > 13 {
        return Err(TableError::Bad { word: 14 });
    }
    Ok(true)
}

/// A line whose words all meet their rules has no first bad word, and no line has two. The call does nothing: its
/// contract is the law.
pub fn lines_are_whole_or_have_one_bad_word()
    ensures whole { WholeOrBad }
    ensures one { OneFirstBad }
{}
