ghost use Rattle.std.specs.Prelude.{◌≡◌, ◌≤◌, List, ℕ, length};
ghost use Rattle.std.specs.List.{AllByRecursion};
ghost use Rattle.ipe_lex.specs.Lines.{lines_of, placed_lines, placed_tokens};
ghost use Rattle.ipe_lex.specs.Places.{IsLineOf, StandsAt};
ghost use Rattle.ipe_lex.specs.Walks.{lines_left, tokens_left};

use crate::{Line, LineWalk, TokenWalk};

/// Every line of a text in order, numbered from 1 and without its comment. A last line without a line feed is a line
/// too. Each is the slice of the text from its place on.
pub fn lines(text: &[u8]) -> LineWalk<'_>
    requires { length text.now ≤ 1048576 }
    ensures lines { lines_left result ≡ placed_lines 1 0 (lines_of text.now) }
    ensures stand { AllByRecursion (IsLineOf text.now) (lines_left result) }
{
    LineWalk {
        number: 1,
        start: 0,
        rest: text,
    }
}

/// Every token of a line in order. Blanks, tabs and carriage returns part them. Each is the slice of the text from its
/// place on.
pub fn tokens(line: Line<'_>) -> TokenWalk<'_>
    ensures tokens { tokens_left result ≡ placed_tokens line.entry.start line.entry.bytes.now }
    ensures stand { (text : List ℕ) → StandsAt text line.entry.start line.entry.bytes.now →
        AllByRecursion (λ token. StandsAt text token.start token.bytes) (tokens_left result) }
{
    TokenWalk {
        start: line.start,
        rest: line.bytes,
    }
}

#[cfg(test)]
mod tests {
    use super::*;
    use std::test::Fail;

    #[test]
    fn lines_and_tokens_of_a_text(rt: HostRuntime) -> Result<(), Fail> {
        let text = b"a\tbc \r\n# only a comment\n\n x#y z\nlast";
        let mut found = String::new(rt.alloc());
        for line in lines(text) {
            write!(found, "[{}@{}", line.number, line.start)?;
            for token in tokens(line) {
                write!(found, " {}:{:?}", token.start, token.bytes)?;
            }
            write!(found, "]")?;
        }
        assert_eq!(rt;
            found.as_str(),
            "[1@0 0:[97] 2:[98, 99]][2@7][3@24][4@25 26:[120]][5@32 32:[108, 97, 115, 116]]"
        );
        Ok(())
    }

    #[test]
    fn an_empty_text_has_no_line(rt: HostRuntime) {
        assert_eq!(rt; lines(b"").count(), 0);
        assert_eq!(rt; lines(b"\n").count(), 1);
    }
}
