ghost use Rattle.std.specs.Prelude.{◌≡◌, ◌≤◌, ℕ, IsTrue, List, length};
ghost use Rattle.std.specs.List.{list_all};
ghost use Rattle.ipe_policy.specs.Spelling.{words_for};
ghost use Rattle.line_words.specs.Words.{is_text};
ghost use Rattle.ipe_image.specs.Packing.{byte_words, word_of};
ghost use Rattle.ipe_image.specs.Reading.{fits_byte};

/// At most eight bytes as one word, the first byte lowest.
pub(crate) fn word_of(bytes: &[u8]) -> u64
    requires { length bytes.now ≤ 8 }
    ensures word { result ≡ word_of bytes.now }
{
    let mut filled = [0; 8];
    filled[..bytes.len()].copy_from_slice(bytes);
    u64::from_le_bytes(filled)
}

/// Whether the words are those of these bytes, where they are those of as many bytes.
pub(crate) fn are_words_of(words: &[u64], bytes: &[u8]) -> bool
    requires { length words.now ≡ words_for (length bytes.now) }
    ensures { (told : List ℕ) → IsTrue (list_all fits_byte told) → length told ≡ length bytes.now →
        words.now ≡ byte_words told → result ≡ is_text told bytes.now }
{
    let mut rest = bytes;
    for word in words {
        let (first, behind) = rest.split_at(rest.len().min(8));
        if *word != word_of(first) {
            return false;
        }
        rest = behind;
    }
    true
}
