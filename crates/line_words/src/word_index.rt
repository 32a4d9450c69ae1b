ghost use Rattle.std.specs.Prelude.{◌≡◌, ◌↔◌, ◌<◌, List, ℕ, [], ◌∷◌, ◌++◌, None, length, position, IsTrue, IfSome, OnOk, OnErr};
ghost use Rattle.line_words.specs.Words.{is_text};
ghost use Rattle.line_words.specs.WordIndex.{words_of};

use indexmap::IndexSet;
use std::alloc::{AllocError, Global};
use std::marker::Model;

/// Words in the order in which they were added, each found by its bytes in one look-up.
#[derive(Debug, Drop)]
pub struct WordIndex {
    words: IndexSet<Vec<u8>>,
}

impl Model for WordIndex {
    ghost Value = { List (List ℕ) };

    ghost view = { λ index. words_of index.words.keys };
}

impl WordIndex {
    /// An index with no words.
    pub fn new(alloc: Global) -> WordIndex
        ensures { result ≡ [] }
    {
        WordIndex {
            words: IndexSet::new(alloc),
        }
    }

    /// The number of words.
    pub fn len(&self) -> usize
        ensures { result ≡ length self.now }
    {
        self.words.len()
    }

    /// Whether there are no words.
    pub fn is_empty(&self) -> bool
        ensures { IsTrue result ↔ (self.now ≡ []) }
    {
        self.words.is_empty()
    }

    /// The place of the word among the words, from 0, where it has been added.
    pub fn place_of(&self, word: &[u8]) -> Option<usize>
        ensures place { result ≡ position (is_text word.now) self.now }
        ensures within { IfSome result (λ place. place < length self.now) }
    {
        self.words.get_index_of(word)
    }

    /// Adds the word after the others. Where memory runs out, the words stay as they were.
    pub fn add(&mut self, alloc: Global, word: &[u8]) -> Result<(), AllocError>
        requires new { position (is_text word.now) self.old ≡ None }
        ensures added { OnOk result (self.new ≡ self.old ++ word.now ∷ []) }
        ensures err { OnErr result (self.new ≡ self.old) }
    {
        self.words.insert(word.to_vec(alloc)?)?;
        Ok(())
    }
}
