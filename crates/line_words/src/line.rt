ghost use Rattle.std.specs.Prelude.{◌≡◌, ◌∷◌, [], count_by, position, IfNone, IfOk, IfSome};
ghost use Rattle.std.specs.List.{after_first, before_first, slice_split};
ghost use Rattle.line_words.specs.Lines.{CutsLine, is_blank, is_line_feed, seen, words_of};
ghost use Rattle.line_words.specs.Words.{is_byte};

use std::alloc::{AllocError, Global};

/// The words of a line: each blank parts two, so that a word may be empty.
pub fn words_of(alloc: Global, line: &[u8]) -> Result<Vec<&[u8]>, AllocError>
    ensures { IfOk result (λ words. seen words.items ≡ words_of line.now) }
{
    line.split(|byte| *byte == b' ').collect(alloc)
}

/// How many blanks a line has. It has one word more.
pub fn blanks(line: &[u8]) -> usize
    ensures { result ≡ count_by is_blank line.now }
{
    line.iter().filter(|byte| **byte == b' ').count()
}

/// The place of the first byte of this value.
pub fn place_of(bytes: &[u8], value: u8) -> Option<usize>
    ensures { result ≡ position (is_byte value) bytes.now }
{
    bytes.iter().position(|byte| *byte == value)
}

/// The bytes before the first of this value, and those after it; all of them and none, where there is no such byte.
pub fn cut_at(bytes: &[u8], value: u8) -> (&[u8], &[u8])
    ensures before { result.0.now ≡ before_first (is_byte value) bytes.now }
    ensures after { result.1.now ≡ after_first (is_byte value) bytes.now }
{
    match place_of(bytes, value) {
        Some(place) => (&bytes[..place], &bytes[place + 1..]),
        None => (bytes, &[]),
    }
}

/// The line before the first line feed, and what follows it. None, where no line feed is left.
pub fn cut_line(bytes: &[u8]) -> Option<(&[u8], &[u8])>
    ensures line { IfSome result (λ cut. CutsLine bytes.now cut.0.now cut.1.now) }
    ensures last { IfNone result (slice_split is_line_feed bytes.now ≡ bytes.now ∷ []) }
{
    let end = place_of(bytes, b'\n')?;
    Some((&bytes[..end], &bytes[end + 1..]))
}
