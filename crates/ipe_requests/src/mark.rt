ghost use Rattle.std.specs.Prelude.{◌≡◌, IsTrue};
ghost use Rattle.line_words.specs.Lines.{seen};
ghost use Rattle.ipe_requests.specs.declared.line.Shape.TheVariants as Shape;
ghost use Rattle.ipe_requests.specs.Table.{cells};
ghost use Rattle.ipe_requests.specs.Reading.{has_form, reads};

use crate::known::Known;
use crate::line::{Line, ScriptKind};
use crate::script::{MarkDigest, MarkLine};
use crate::word::{digest, old_text, purpose, verdict};

// `mark PURPOSE VERDICT text ID`
pub fn mark_text(known: &Known, words: &[&[u8]]) -> Result<Line, ScriptKind>
    requires { IsTrue (has_form (cells Shape.MarkText) (seen words.now)) }
    ensures { result ≡ reads known.now Shape.MarkText (seen words.now) }
{
    let [_, what, says, _, text] = words else {
        return Err(ScriptKind::Form);
    };
    let purpose = purpose(known, what)?;
    let verdict = verdict(known, says)?;
    let text = old_text(known, text)?;
    Ok(Line::Mark(MarkLine {
        line: known.count,
        purpose,
        verdict,
        digest: MarkDigest::Text(text),
    }))
}

// `mark PURPOSE VERDICT hex H`
pub fn mark_hex(known: &Known, words: &[&[u8]]) -> Result<Line, ScriptKind>
    requires { IsTrue (has_form (cells Shape.MarkHex) (seen words.now)) }
    ensures { result ≡ reads known.now Shape.MarkHex (seen words.now) }
{
    let [_, what, says, _, digits] = words else {
        return Err(ScriptKind::Form);
    };
    let purpose = purpose(known, what)?;
    let verdict = verdict(known, says)?;
    let bytes = digest(known, digits)?;
    Ok(Line::Mark(MarkLine {
        line: known.count,
        purpose,
        verdict,
        digest: MarkDigest::Hex(bytes),
    }))
}
