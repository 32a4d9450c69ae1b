ghost use Rattle.std.specs.Prelude.{◌≡◌, ◌≤◌, ◌<◌, length, IfOk};
ghost use Rattle.ipe_requests.specs.Known.{IsNew};
ghost use Rattle.ipe_requests.specs.Reading.{last_piece, read_line, take, take_due, take_line};
ghost use Rattle.ipe_requests.specs.Requests.{requests_of, script_of};
ghost use Rattle.ipe_requests.specs.Spelling.{request_text};
ghost use Rattle.ipe_requests.specs.Answers.{AnswersOrFails, Takes};

use crate::known::Known;
use crate::line::{Line, ScriptKind, Section};
use crate::requests::Requests;
use crate::shape::read_line;
use line_words::cut_line;
use std::alloc::{AllocError, Global};
use thiserror::Error;

/// Why bytes are no request file: the first bad line, counted from 1, or out of memory.
#[derive(Debug, Drop, Error)]
pub enum ScriptError {
    #[error("line {line}: {kind:?}")]
    Bad { line: u32, kind: ScriptKind },
    #[error("out of memory")]
    NoMemory,
}

impl From<AllocError> for ScriptError {
    ghost use Rattle.std.specs.Prelude.{◌≡◌};
    ghost use Rattle.ipe_requests.specs.declared.reader.ScriptError.TheVariants.{NoMemory};

    ghost from_gives = { λ _ e. e ≡ NoMemory };

    fn from(_: AllocError) -> Self {
        ScriptError::NoMemory
    }
}

// Takes what a line says, which is good by its words. It answers what is wrong with it.
fn take_line(alloc: Global, known: &mut Known, line: Line) -> Result<Option<ScriptKind>, AllocError>
    requires { IsNew known.old line }
    ensures { IfOk result (Takes (take_line known.old line) known.new) }
{
    if known.is_out_of_range(&line) {
        return Ok(Some(ScriptKind::Range));
    }
    known.add(alloc, line)?;
    if known.is_within_limits() {
        Ok(None)
    } else {
        Ok(Some(ScriptKind::Limit))
    }
}

// Takes the next line, which has the number `known.count`.
fn take_next(
    alloc: Global,
    known: &mut Known,
    bytes: &[u8],
) -> Result<Option<ScriptKind>, AllocError>
    ensures { IfOk result (Takes (take_due known.old.due known.old bytes.now) known.new) }
{
    if known.due > 0 {
        known.add_raw(bytes)?;
        return Ok(None);
    }
    match read_line(alloc, known, bytes)? {
        Ok(line) => take_line(alloc, known, line),
        Err(fault) => Ok(Some(fault)),
    }
}

// Takes the next line. It answers what is wrong with it.
fn take(alloc: Global, known: &mut Known, bytes: &[u8]) -> Result<Option<ScriptKind>, AllocError>
    requires { known.old.count < 4294967295 }
    ensures { IfOk result (Takes (take known.old bytes.now) known.new) }
{
    known.count += 1;
    take_next(alloc, known, bytes)
}

// The fault of the last piece, after which there is no line feed.
fn last_fault(section: Section, rest: &[u8]) -> Option<ScriptKind>
    ensures { result ≡ last_piece section rest.now }
{
    match (section, rest) {
        (Section::Ended, []) => None,
        (_, []) => Some(ScriptKind::Unended),
        _ => Some(ScriptKind::NoNewline),
    }
}

/// What a request file of at most 16,777,216 bytes declares and asks, or its first bad line with the first thing that is
/// wrong with it.
pub fn parse_requests(alloc: Global, bytes: &[u8]) -> Result<Requests, ScriptError>
    requires { length bytes.now ≤ 16777216 }
    ensures answer { AnswersOrFails result (requests_of bytes.now) }
    ensures spelled { IfOk result (λ requests. request_text requests ≡ bytes.now) }
{
    let mut known = Known::at_first(alloc);
    let mut rest = bytes;
    while let Some((line, behind)) = cut_line(rest) {
        let number = known.count + 1;
        match take(alloc, &mut known, line)? {
            None => rest = behind,
            Some(kind) => return Err(ScriptError::Bad { line: number, kind }),
        }
    }
    match last_fault(known.section, rest) {
        None => {
            known.close_phase(alloc)?;
            Ok(known.into_requests())
        }
        Some(kind) => Err(ScriptError::Bad {
            line: known.count + 1,
            kind,
        }),
    }
}
