ghost use Rattle.std.specs.Prelude.{◌≡◌, ◌≤◌, IfErr, IfOk, length};
ghost use Rattle.std.specs.List.{AllByRecursion};
ghost use Rattle.ipe_policy.specs.Policy.{IsStatement};
ghost use Rattle.ipe_parse.specs.Defaults.{first_missing};
ghost use Rattle.ipe_parse.specs.Reading.{Gives, IsReading, completed, reading, reading_of_lines};
ghost use Rattle.ipe_parse.specs.Reads.{ReadsAsOne, Refuses};
ghost use Rattle.ipe_parse.specs.Walk.{spoken_left};
ghost use Rattle.ipe_lex.specs.Walks.{lines_left};

use crate::draft::Draft;
use crate::header::Header;
use crate::header_line::header_of;
use crate::statements::statements_in;
use crate::walk::next_spoken;
use crate::{BadKind, ParseError};
use ipe_lex::{LineWalk, lines};
use ipe_policy::{Policy, Statements};
use std::alloc::Global;

// The policy of a header and statements, where no operation is left without a default.
fn finished(header: Header, draft: Draft) -> Result<Policy, ParseError>
    requires few { length draft.items.items ≤ 1048576 }
    requires statements { AllByRecursion IsStatement draft.items.items }
    ensures { Gives (λ policy. policy) result (completed header draft.items.items (first_missing draft.items.items)) }
{
    if let Some(missing) = draft.first_missing() {
        return Err(ParseError::NoDefault { missing });
    }
    Ok(Policy {
        name: header.name,
        version: header.version,
        items: Statements::from_vec(draft.items),
    })
}

// What the lines that a walk has left say: a header, and then statements.
fn read_lines(alloc: Global, walk: &mut LineWalk<'_>) -> Result<Policy, ParseError>
    requires { length (lines_left walk.old) ≤ 1048576 }
    ensures { Gives (λ policy. policy) result (reading_of_lines (spoken_left walk.old)) }
{
    let Some(first) = next_spoken(alloc, walk)? else {
        return Err(ParseError::Bad {
            line: 1,
            kind: BadKind::NoHeader,
        });
    };
    let number = first.number;
    let header = match header_of(&first.tokens) {
        Ok(header) => header,
        Err(kind) => return Err(ParseError::Bad { line: number, kind }),
    };
    let draft = statements_in(alloc, walk)?;
    finished(header, draft)
}

/// The policy that a text reads as, and the only one, or else the text's first fault, where it reads as none.
pub fn parse(alloc: Global, text: &[u8]) -> Result<Policy, ParseError>
    requires { length text.now ≤ 1048576 }
    ensures reading { IsReading result (reading text.now) }
    ensures policy { IfOk result (ReadsAsOne text.now) }
    ensures refused { IfErr result (Refuses text.now) }
{
    read_lines(alloc, &mut lines(text))
}
