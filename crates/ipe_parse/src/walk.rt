ghost use Rattle.std.specs.Prelude.{◌≡◌, IfOk};
ghost use Rattle.ipe_lex.specs.Lines.{tokens_of};
ghost use Rattle.ipe_parse.specs.Lines.{words};
ghost use Rattle.ipe_parse.specs.Walk.{TakesSpoken};

use crate::spoken::Spoken;
use ipe_lex::{Line, LineWalk, stand_in_their_text, tokens};
use std::alloc::{AllocError, Global};

fn tokens_of<'a>(alloc: Global, line: Line<'a>) -> Result<Vec<&'a [u8]>, AllocError>
    ensures { IfOk result (λ found. words found.items ≡ tokens_of line.entry.bytes.now) }
{
    stand_in_their_text();
    let mut found = Vec::new(alloc);
    for token in tokens(line) {
        found.push(token.bytes)?;
    }
    Ok(found)
}

/// Takes the next line that has tokens.
pub(crate) fn next_spoken<'a>(
    alloc: Global,
    walk: &mut LineWalk<'a>,
) -> Result<Option<Spoken<'a>>, AllocError>
    ensures { IfOk result (λ found. TakesSpoken walk.old found walk.new) }
{
    while let Some(line) = walk.next() {
        let number = line.number;
        let tokens = tokens_of(alloc, line)?;
        if !tokens.is_empty() {
            return Ok(Some(Spoken { number, tokens }));
        }
    }
    Ok(None)
}
