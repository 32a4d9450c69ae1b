ghost use Rattle.std.specs.Prelude.{◌≡◌, ◌≤◌, ◌∷◌, ◌++◌, ℕ, IfOk, List, OnOk, Some};
ghost use Rattle.std.specs.List.{flat_map};
ghost use Rattle.std.specs.Option.{option_map};
ghost use Rattle.ipe_policy.specs.Spelling.{action_token, digest_word, op_token, property_token, statement_text};
ghost use Rattle.ipe_policy.specs.Evaluation.{deciding_statement};
ghost use Rattle.ipe_policy.specs.declared.evaluation.Context.{Context};
ghost use Rattle.ipe_policy.specs.declared.statement.Statement.{Statement};
ghost use Rattle.ipe_policy.specs.declared.statement.Property.{Property};
ghost use Rattle.ipe_image.specs.Answer.{IsHit, IsRuling};
ghost use Rattle.ipe_image.specs.Heads.{ArePropertyImages, IsWordsOf};
ghost use Rattle.ipe_image.specs.Image.{named_digest};
ghost use Rattle.ipe_image.specs.Packing.{unpacked};

use crate::Hit;
use crate::head::PropertyKind;
use crate::property::{PropertyWords, first_property};
use arrayvec::ArrayVec;
use ipe_policy::{Action, Op, Statement, Which, append_truth, statement_text};
use std::alloc::{AllocError, Global};

// The first bytes of words, so many.
fn bytes_of(words: &[u64], count: usize) -> ArrayVec<u8, 64>
    requires { count ≤ 64 }
    ensures { result.items ≡ unpacked count words.now }
{
    let mut bytes = ArrayVec::new();
    for word in words {
        let left = count - bytes.len();
        let _fits = bytes.try_extend_from_slice(&word.to_le_bytes()[..left.min(8)]);
    }
    bytes
}

fn append_digest(
    alloc: Global,
    text: &mut Vec<u8>,
    key: &[u8],
    property: &PropertyWords<'_>,
) -> Result<(), AllocError>
    requires { (named : Property) × IsWordsOf property.now.head property.now.alg.now property.now.digest.now named }
    ensures { (named : Property) → IsWordsOf property.now.head property.now.alg.now property.now.digest.now named →
        OnOk result (text.new.items ≡ text.old.items ++ (key.now ++ digest_word (named_digest named))) }
{
    let alg = bytes_of(property.alg, property.head.alg_len);
    let digest = bytes_of(property.digest, property.head.digest_len);
    let hex = hex::encode(alloc, digest.as_slice())?;
    text.extend_from_slice(key)?;
    text.extend_from_slice(alg.as_slice())?;
    text.extend_from_slice(b":")?;
    text.extend_from_slice(hex.as_bytes())
}

fn append_property(
    alloc: Global,
    text: &mut Vec<u8>,
    property: &PropertyWords<'_>,
) -> Result<(), AllocError>
    requires { (named : Property) × IsWordsOf property.now.head property.now.alg.now property.now.digest.now named }
    ensures { (named : Property) → IsWordsOf property.now.head property.now.alg.now property.now.digest.now named →
        OnOk result (text.new.items ≡ text.old.items ++ property_token named) }
{
    let wanted = property.head.wanted;
    match property.head.kind {
        PropertyKind::BootVerified => append_truth(text, b"boot_verified=", wanted),
        PropertyKind::DmveritySignature => append_truth(text, b"dmverity_signature=", wanted),
        PropertyKind::FsveritySignature => append_truth(text, b"fsverity_signature=", wanted),
        PropertyKind::DmverityRoothash => append_digest(
            alloc,
            text,
            b"dmverity_roothash=",
            property,
        ),
        PropertyKind::FsverityDigest => append_digest(alloc, text, b"fsverity_digest=", property),
    }
}

fn append_properties(alloc: Global, text: &mut Vec<u8>, words: &[u64]) -> Result<(), AllocError>
    requires { (properties : List Property) × ArePropertyImages words.now properties }
    ensures { (properties : List Property) → ArePropertyImages words.now properties →
        OnOk result (text.new.items
        ≡ text.old.items ++ flat_map (λ property. 32 ∷ property_token property) properties) }
{
    let mut rest = words;
    while !rest.is_empty() {
        let (property, behind) = first_property(rest);
        text.extend_from_slice(b" ")?;
        append_property(alloc, text, &property)?;
        rest = behind;
    }
    Ok(())
}

// The text of a rule, of whose record these are the words after the head.
fn rule_line(alloc: Global, op: Op, action: Action, words: &[u64]) -> Result<Vec<u8>, AllocError>
    requires { (properties : List Property) × ArePropertyImages words.now properties }
    ensures { (properties : List Property) → ArePropertyImages words.now properties →
        IfOk result (λ text. text.items
        ≡ op_token op ++ (flat_map (λ property. 32 ∷ property_token property) properties ++ 32 ∷ action_token action)) }
{
    let mut text = Vec::new(alloc);
    text.extend_from_slice(b"op=")?;
    text.extend_from_slice(op.word().as_bytes())?;
    append_properties(alloc, &mut text, words)?;
    text.extend_from_slice(b" action=")?;
    text.extend_from_slice(action.word().as_bytes())?;
    Ok(text)
}

/// The statement of the policy that decided, as its text has it: the rule with its properties, or the default. `op` is
/// the operation for which the hit was answered.
pub fn rule_text(alloc: Global, op: Op, hit: &Hit) -> Result<Vec<u8>, AllocError>
    requires { IsHit op hit.now }
    ensures { (serial : ℕ) (items : List Statement) (context : Context) → IsRuling serial items op context hit.now →
        IfOk result (λ text. option_map statement_text (deciding_statement items op context) ≡ Some text.items) }
{
    let action = hit.found.action;
    match hit.found.which {
        Which::Rule(_) => rule_line(alloc, op, action, &hit.rule.as_slice()[1..]),
        Which::OpDefault => statement_text(alloc, &Statement::OpDefault { op, action }),
        Which::GlobalDefault => statement_text(alloc, &Statement::GlobalDefault { action }),
    }
}
