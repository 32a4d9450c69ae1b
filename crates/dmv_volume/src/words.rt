ghost use Rattle.dmv_volume.specs.Words.{AreDigits, Meets, is_name, word_at};
ghost use Rattle.line_words.specs.Lines.{seen};
ghost use Rattle.dmv_volume.specs.Words.Rule.{Number};
ghost use Rattle.hex.specs.Hex.{decode_of};
ghost use Rattle.std.specs.Fmt.{decimal as decimal_text};
ghost use Rattle.std.specs.Prelude.{◌≡◌, ◌-◌, ◌≤◌, Ok, IfNone, IfOk, IfSome, []};

use line_words::{decimal, is_visible_word};

// The word of a number, counted from 1. One that is missing is empty.
pub(crate) fn word_at<'a>(words: &[&'a [u8]], number: usize) -> &'a [u8]
    requires { 1 ≤ number }
    ensures { result.now ≡ word_at (seen words.now) number }
{
    match words.get(number - 1) {
        Some(word) => word,
        None => &[],
    }
}

pub(crate) fn is_name(word: &[u8]) -> bool
    ensures { result ≡ is_name word.now }
{
    is_visible_word(word, 255)
}

// The number that a word says, where it is from `low` to `high`.
pub(crate) fn number_of(word: &[u8], low: u64, high: u64) -> Option<u64>
    ensures some { IfSome result (λ n. (low ≤ n) × (n ≤ high) × (word.now ≡ decimal_text n)) }
    ensures none { IfNone result (Meets [] word.now (Number low high) → ⊥) }
{
    let number = decimal(word, high)?;
    if number < low { None } else { Some(number) }
}

// The root that 64 digits say.
pub(crate) fn root_of(word: &[u8]) -> Option<[u8; 32]>
    ensures some { IfSome result (λ root. AreDigits 64 64 word.now × (decode_of word.now ≡ Ok root)) }
    ensures none { IfNone result (AreDigits 64 64 word.now → ⊥) }
{
    let mut root = [0; 32];
    hex::decode_to_slice(word, &mut root).ok()?;
    Some(root)
}
