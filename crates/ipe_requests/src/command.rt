ghost use Rattle.std.specs.Prelude.{◌≡◌, IsTrue, IfOk};
ghost use Rattle.line_words.specs.Lines.{seen};
ghost use Rattle.ipe_requests.specs.declared.line.Shape.TheVariants as Shape;
ghost use Rattle.ipe_requests.specs.Table.{cells};
ghost use Rattle.ipe_requests.specs.Reading.{has_form, reads};

use crate::known::Known;
use crate::line::{Line, ScriptKind};
use crate::script::{PhaseLine, WriteContent};
use crate::word::{bytes, old_text, right, visible};
use std::alloc::{AllocError, Global};

const MOST_NODE: usize = 320;

const MOST_ECHO: usize = 64;

// `admin write NODE text ID`, or with `guest`
pub fn write_text(
    alloc: Global,
    known: &Known,
    words: &[&[u8]],
) -> Result<Result<Line, ScriptKind>, AllocError>
    requires { IsTrue (has_form (cells Shape.WriteText) (seen words.now)) }
    ensures { IfOk result (λ read. read ≡ reads known.now Shape.WriteText (seen words.now)) }
{
    let [who, _, node, _, text] = words else {
        return Ok(Err(ScriptKind::Form));
    };
    let may = good!(right(known, who));
    let node = good!(visible(alloc, known, node, MOST_NODE)?);
    let text = good!(old_text(known, text));
    Ok(Ok(Line::Asked(PhaseLine::Write {
        line: known.count,
        may,
        node,
        content: WriteContent::Text(text),
    })))
}

// `admin write NODE echo WORD`, or with `guest`
pub fn write_echo(
    alloc: Global,
    known: &Known,
    words: &[&[u8]],
) -> Result<Result<Line, ScriptKind>, AllocError>
    requires { IsTrue (has_form (cells Shape.WriteEcho) (seen words.now)) }
    ensures { IfOk result (λ read. read ≡ reads known.now Shape.WriteEcho (seen words.now)) }
{
    let [who, _, node, _, word] = words else {
        return Ok(Err(ScriptKind::Form));
    };
    let may = good!(right(known, who));
    let node = good!(visible(alloc, known, node, MOST_NODE)?);
    let word = good!(visible(alloc, known, word, MOST_ECHO)?);
    Ok(Ok(Line::Asked(PhaseLine::Write {
        line: known.count,
        may,
        node,
        content: WriteContent::Echo(word),
    })))
}

// `admin write NODE hex H`, or with `guest`
pub fn write_hex(
    alloc: Global,
    known: &Known,
    words: &[&[u8]],
) -> Result<Result<Line, ScriptKind>, AllocError>
    requires { IsTrue (has_form (cells Shape.WriteHex) (seen words.now)) }
    ensures { IfOk result (λ read. read ≡ reads known.now Shape.WriteHex (seen words.now)) }
{
    let [who, _, node, _, digits] = words else {
        return Ok(Err(ScriptKind::Form));
    };
    let may = good!(right(known, who));
    let node = good!(visible(alloc, known, node, MOST_NODE)?);
    let bytes = good!(bytes(alloc, known, digits)?);
    Ok(Ok(Line::Asked(PhaseLine::Write {
        line: known.count,
        may,
        node,
        content: WriteContent::Hex(bytes),
    })))
}

// `admin read NODE`
pub fn read(
    alloc: Global,
    known: &Known,
    words: &[&[u8]],
) -> Result<Result<Line, ScriptKind>, AllocError>
    requires { IsTrue (has_form (cells Shape.Read) (seen words.now)) }
    ensures { IfOk result (λ read. read ≡ reads known.now Shape.Read (seen words.now)) }
{
    let [_, _, node] = words else {
        return Ok(Err(ScriptKind::Form));
    };
    let node = good!(visible(alloc, known, node, MOST_NODE)?);
    Ok(Ok(Line::Asked(PhaseLine::Read {
        line: known.count,
        node,
    })))
}
