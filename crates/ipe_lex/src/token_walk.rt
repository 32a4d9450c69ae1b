ghost use Rattle.std.specs.Prelude.{◌≡◌, ◌+◌, ◌<◌, ◌≤◌, drop, length, position, take};
ghost use Rattle.std.specs.List.{position_or_len};
ghost use Rattle.ipe_lex.specs.Lines.{is_in_token, is_separator};

/// A token of a line. `start` is the place of its first byte in the text.
#[derive(Clone, Copy, Debug)]
pub struct Token<'a> {
    pub start: usize,
    pub bytes: &'a [u8],
    pub ghost not_empty: { 0 < length bytes.now },
}

/// The tokens of a line from some place on, as [`tokens`](crate::tokens) gives them.
#[derive(Debug, Drop)]
pub struct TokenWalk<'a> {
    pub(crate) start: usize,
    pub(crate) rest: &'a [u8],
    ghost within_text: { start + length rest.now ≤ 1048576 },
}

fn is_separator(byte: u8) -> bool
    ensures { result ≡ is_separator byte }
{
    byte == b' ' || byte == b'\t' || byte == b'\r'
}

fn token_start(bytes: &[u8]) -> Option<usize>
    ensures { result ≡ position is_in_token bytes.now }
{
    bytes.iter().position(|byte| !is_separator(*byte))
}

fn separator_start(bytes: &[u8]) -> Option<usize>
    ensures { result ≡ position is_separator bytes.now }
{
    bytes.iter().position(|byte| is_separator(*byte))
}

fn token_length(bytes: &[u8]) -> usize
    ensures length { result ≡ position_or_len is_separator bytes.now }
    ensures bound { result ≤ length bytes.now }
{
    separator_start(bytes).unwrap_or(bytes.len())
}

// The token at the front, and what stands after it.
fn cut_token(bytes: &[u8]) -> (&[u8], &[u8])
    ensures token { result.0.now ≡ take (position_or_len is_separator bytes.now) bytes.now }
    ensures rest { result.1.now ≡ drop (position_or_len is_separator bytes.now) bytes.now }
    ensures whole { length result.0.now + length result.1.now ≡ length bytes.now }
{
    bytes.split_at(token_length(bytes))
}

impl<'a> Iterator for TokenWalk<'a> {
    ghost use Rattle.std.specs.Iterator.{YieldsFirstBy, item_count};
    ghost use Rattle.ipe_lex.specs.Walks.{placed_token, tokens_left};

    type Item = Token<'a>;

    ghost next_gives = { YieldsFirstBy placed_token tokens_left };

    ghost remaining = { item_count tokens_left };

    fn next(&mut self) -> Option<Token<'a>> {
        let skipped = token_start(self.rest)?;
        let (_, rest) = self.rest.split_at(skipped);
        let (bytes, rest) = cut_token(rest);
        let start = self.start + skipped;
        *self = TokenWalk {
            start: start + bytes.len(),
            rest,
        };
        Some(Token { start, bytes })
    }
}
