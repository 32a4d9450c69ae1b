ghost use Rattle.std.specs.Prelude.{◌≡◌, ◌+◌, ◌≤◌, length};
ghost use Rattle.ipe_lex.specs.Lines.{uncommented};

use line_words::cut_at;

/// A line without its line feed and its comment. Lines are numbered from 1, and `start` is the place of the line's
/// first byte in the text.
#[derive(Clone, Copy, Debug)]
pub struct Line<'a> {
    pub number: u32,
    pub start: usize,
    pub bytes: &'a [u8],
    pub ghost within_text: { start + length bytes.now ≤ 1048576 },
}

/// The lines of a text from some place on, as [`lines`](crate::lines) gives them.
#[derive(Debug, Drop)]
pub struct LineWalk<'a> {
    pub(crate) number: u32,
    pub(crate) start: usize,
    pub(crate) rest: &'a [u8],
    ghost within_text: { start + length rest.now ≤ 1048576 },
    ghost numbered: { number ≤ start + 1 },
}

fn without_comment(line: &[u8]) -> &[u8]
    ensures { result.now ≡ uncommented line.now }
{
    cut_at(line, b'#').0
}

impl<'a> Iterator for LineWalk<'a> {
    ghost use Rattle.std.specs.Iterator.{YieldsFirstBy, item_count};
    ghost use Rattle.ipe_lex.specs.Walks.{placed_line, lines_left};

    type Item = Line<'a>;

    ghost next_gives = { YieldsFirstBy placed_line lines_left };

    ghost remaining = { item_count lines_left };

    fn next(&mut self) -> Option<Line<'a>> {
        if self.rest.is_empty() {
            return None;
        }
        let (line, rest) = cut_at(self.rest, b'\n');
        let found = Line {
            number: self.number,
            start: self.start,
            bytes: without_comment(line),
        };
        *self = LineWalk {
            number: self.number + 1,
            start: self.start + (self.rest.len() - rest.len()),
            rest,
        };
        Some(found)
    }
}
