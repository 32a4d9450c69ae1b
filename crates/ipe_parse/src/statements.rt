ghost use Rattle.std.specs.Prelude.{◌≡◌, ◌≤◌, [], false, IfOk, length};
ghost use Rattle.std.specs.List.{AllByRecursion};
ghost use Rattle.ipe_lex.specs.Walks.{lines_left};
ghost use Rattle.ipe_policy.specs.Policy.{IsStatement};
ghost use Rattle.ipe_parse.specs.Defaults.{repeats_default};
ghost use Rattle.ipe_parse.specs.Reading.{Gives, next_statement, statements_from};
ghost use Rattle.ipe_parse.specs.Walk.{spoken_left, spoken_line};

use crate::draft::Draft;
use crate::line::statement_of;
use crate::line_error::LineError;
use crate::spoken::Spoken;
use crate::walk::next_spoken;
use crate::{BadKind, ParseError};
use ipe_lex::LineWalk;
use ipe_policy::Statement;
use std::alloc::Global;

// The statement of a line, after the statements of the lines before it.
fn next_statement(alloc: Global, draft: &Draft, line: &Spoken<'_>) -> Result<Statement, ParseError>
    ensures read { Gives (λ statement. statement) result (next_statement draft.now.items.items (spoken_line line.now)) }
    ensures not_twice { IfOk result (λ statement. repeats_default draft.now.items.items statement ≡ false) }
{
    let number = line.number;
    match statement_of(alloc, &line.tokens) {
        Ok(statement) => {
            if draft.repeats(&statement) {
                return Err(ParseError::Bad {
                    line: number,
                    kind: BadKind::TwiceDefault,
                });
            }
            Ok(statement)
        }
        Err(LineError::Bad(kind)) => Err(ParseError::Bad { line: number, kind }),
        Err(LineError::NoMemory) => Err(ParseError::NoMemory),
    }
}

/// The statements of the lines that a walk has left.
pub(crate) fn statements_in(alloc: Global, walk: &mut LineWalk<'_>) -> Result<Draft, ParseError>
    ensures read { Gives (λ draft. draft.items.items) result (statements_from [] (spoken_left walk.old)) }
    ensures few { IfOk result (λ draft. length draft.items.items ≤ length (lines_left walk.old)) }
    ensures statements { IfOk result (λ draft. AllByRecursion IsStatement draft.items.items) }
{
    let mut draft = Draft::new(alloc);
    while let Some(line) = next_spoken(alloc, walk)? {
        let statement = next_statement(alloc, &draft, &line)?;
        draft.push(statement)?;
    }
    Ok(draft)
}
