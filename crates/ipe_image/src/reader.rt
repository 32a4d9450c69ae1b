ghost use Rattle.std.specs.Prelude.{◌≡◌, ◌+◌, ◌<◌, ◌≤◌, ℕ, List, length, slice_index};
ghost use Rattle.ipe_image.specs.Reader.{CountedWords, filled, read_once};

use std::marker::Model;

/// Where the words of an image are read.
pub trait WordReader {
    /// The words: 4,096 of them, or none.
    ghost words: { Self → List ℕ };

    /// What else the reader is, which reading leaves as it is.
    ghost Kept: { Type 0 } = { Unit {0} };

    ghost kept: { Self → Kept };

    /// The number of reads, where they are counted.
    ghost reads: { Self → ℕ };

    /// The word at `i`, from 0.
    fn word(&mut self, i: u32) -> u64
        requires { i < length (words self.old) }
        ensures word { result ≡ slice_index (words self.old) i }
        ensures stays { words self.new ≡ words self.old }
        ensures kept { kept self.new ≡ kept self.old }
        ensures reads { reads self.new ≤ reads self.old + 1 }
        ensures whole { length (words self.old) ≡ 4096 };
}

// The word at `i`, or zero after the words.
fn word_or_zero(words: &[u64], i: u32) -> u64
    ensures { result ≡ slice_index (filled 4096 words.now) i }
{
    words.get(i as usize).copied().unwrap_or(0)
}

/// A reader over words in memory, with zeros after them up to 4,096.
#[derive(Debug, Drop)]
pub struct SliceReader<'a> {
    words: &'a [u64],
}

impl<'a> Model for SliceReader<'a> {
    ghost use Rattle.std.specs.Prelude.{◌≤◌, List, ℕ, length};

    ghost Value = { List ℕ };

    ghost view = { λ s. s.words.now };

    ghost invariant = { λ s. length s.words.now ≤ 4096 };
}

impl<'a> SliceReader<'a> {
    /// The reader of these words.
    pub fn new(words: &'a [u64]) -> SliceReader<'a>
        requires { length words.now ≤ 4096 }
        ensures { result ≡ words.now }
    {
        SliceReader { words }
    }
}

impl<'a> WordReader for SliceReader<'a> {
    ghost words = { λ s. filled 4096 s };

    ghost kept = { λ _. tt };

    ghost reads = { λ _. 0 };

    fn word(&mut self, i: u32) -> u64 {
        word_or_zero(self.words, i)
    }
}

/// A reader over words in memory, with zeros after them up to 4,096, that counts its reads.
#[derive(Debug, Drop)]
pub struct CountingReader<'a> {
    words: &'a [u64],
    reads: u64,
}

impl<'a> Model for CountingReader<'a> {
    ghost use Rattle.std.specs.Prelude.{◌≤◌, length};
    ghost use Rattle.ipe_image.specs.Reader.{CountedWords};

    ghost Value = { CountedWords };

    ghost view = { λ s. record { words = s.words.now; reads = s.reads } };

    ghost invariant = { λ s. length s.words.now ≤ 4096 };
}

impl<'a> CountingReader<'a> {
    /// The reader of these words, without a read.
    pub fn new(words: &'a [u64]) -> CountingReader<'a>
        requires { length words.now ≤ 4096 }
        ensures { result ≡ record { words = words.now; reads = 0 } }
    {
        CountingReader { words, reads: 0 }
    }

    /// The number of reads: the greatest number of 64 bits where there were more.
    pub fn reads(&self) -> u64
        ensures { result ≡ self.now.reads }
    {
        self.reads
    }
}

impl<'a> WordReader for CountingReader<'a> {
    ghost words = { λ s. filled 4096 s.words };

    ghost kept = { λ _. tt };

    ghost reads = { λ s. s.reads };

    fn word(&mut self, i: u32) -> u64
        ensures word { result ≡ slice_index (filled 4096 self.old.words) i }
        ensures stays { filled 4096 self.new.words ≡ filled 4096 self.old.words }
        ensures reads { self.new.reads ≤ self.old.reads + 1 }
        ensures whole { length (filled 4096 self.old.words) ≡ 4096 }
        ensures counted { self.new ≡ read_once self.old }
    {
        self.reads = self.reads.saturating_add(1);
        word_or_zero(self.words, i)
    }
}
