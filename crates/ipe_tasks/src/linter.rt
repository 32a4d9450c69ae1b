ghost use Rattle.std.specs.Prelude.{◌≡◌, ◌≤◌, ◌++◌, length, codes, IfOk};
ghost use Rattle.line_words.specs.Lines.{line_text};
ghost use Rattle.ipe_tasks.specs.Lint.{IsFaulty, IsLinted, kind_name, lint_text};
ghost use Rattle.ipe_tasks.specs.Told.{IsTold};

use crate::Told;
use crate::refusals::bad_line;
use ipe_parse::{BadKind, ParseError, parse};
use ipe_policy::{Policy, image_words, rule_count};
use std::alloc::{AllocError, Global};

/// The line that tells the policy that a text reads as, or its first fault.
pub fn linted(alloc: Global, input: &[u8]) -> Result<Told, AllocError>
    requires { length input.now ≤ 1048576 }
    ensures { IfOk result (λ told. IsTold (IsLinted input.now) (IsFaulty input.now) told) }
{
    match parse(alloc, input) {
        Ok(policy) => Ok(Told::Done(ok_line(alloc, &policy)?)),
        Err(ParseError::Bad { line, kind }) => {
            Ok(Told::Refused(bad_line(alloc, line, name_of(kind))?))
        }
        Err(ParseError::NoDefault { missing }) => {
            Ok(Told::Refused(no_default_line(alloc, missing.word())?))
        }
        Err(ParseError::NoMemory) => Err(AllocError),
    }
}

fn ok_line(alloc: Global, policy: &Policy) -> Result<Vec<u8>, AllocError>
    ensures { IfOk result (λ text. text.items ≡ lint_text policy.now) }
{
    let version = policy.version;
    let rules = rule_count(policy.items.as_slice());
    let words = image_words(policy);
    let rest = format!(in alloc; " {version} rules={rules} words={words}\n")?;
    let mut text = b"ok ".to_vec(alloc)?;
    text.extend_from_slice(policy.name.as_slice())?;
    text.extend_from_slice(rest.as_bytes())?;
    Ok(text)
}

fn no_default_line(alloc: Global, word: &str) -> Result<Vec<u8>, AllocError>
    ensures { IfOk result (λ text. text.items ≡ codes "refused: no default for " ++ word.now ++ line_text (codes "")) }
{
    Ok(format!(in alloc; "refused: no default for {word}\n")?.into_bytes())
}

fn name_of(kind: BadKind) -> &'static str
    ensures { result.now ≡ kind_name kind }
{
    match kind {
        BadKind::NoHeader => "NoHeader",
        BadKind::BadName => "BadName",
        BadKind::BadVersion => "BadVersion",
        BadKind::BadOp => "BadOp",
        BadKind::BadAction => "BadAction",
        BadKind::PropertyInDefault => "PropertyInDefault",
        BadKind::TwiceDefault => "TwiceDefault",
        BadKind::TooManyProperties => "TooManyProperties",
        BadKind::BadProperty => "BadProperty",
        BadKind::BadDigest => "BadDigest",
    }
}
