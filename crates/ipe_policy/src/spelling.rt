ghost use Rattle.std.specs.Prelude.{◌≡◌, ◌++◌, [], ◌∷◌, IfOk, OnOk};
ghost use Rattle.std.specs.List.{flat_map};
ghost use Rattle.ipe_policy.specs.Spelling.{action_token, bit_text, digest_word, header_text, op_token, policy_text, property_token, statement_text, truth_word, version_text};

use crate::{Action, Digest, Name, Op, Policy, Property, Statement, Version};
use std::alloc::{AllocError, Global};

fn append_op(text: &mut Vec<u8>, op: Op) -> Result<(), AllocError>
    ensures { OnOk result (text.new.items ≡ text.old.items ++ op_token op) }
{
    text.extend_from_slice(b"op=")?;
    text.extend_from_slice(op.word().as_bytes())
}

fn append_action(text: &mut Vec<u8>, action: Action) -> Result<(), AllocError>
    ensures { OnOk result (text.new.items ≡ text.old.items ++ action_token action) }
{
    text.extend_from_slice(b"action=")?;
    text.extend_from_slice(action.word().as_bytes())
}

fn truth_word(wanted: bool) -> &'static str
    ensures { result.now ≡ truth_word wanted }
{
    if wanted { "TRUE" } else { "FALSE" }
}

/// Puts a key after a text, and the word of a truth value after the key.
pub fn append_truth(text: &mut Vec<u8>, key: &[u8], wanted: bool) -> Result<(), AllocError>
    ensures { OnOk result (text.new.items ≡ text.old.items ++ (key.now ++ truth_word wanted)) }
{
    text.extend_from_slice(key)?;
    text.extend_from_slice(truth_word(wanted).as_bytes())
}

fn append_digest(
    alloc: Global,
    text: &mut Vec<u8>,
    key: &[u8],
    digest: &Digest,
) -> Result<(), AllocError>
    ensures { OnOk result (text.new.items ≡ text.old.items ++ (key.now ++ digest_word digest.now)) }
{
    let hex = hex::encode(alloc, digest.bytes.as_slice())?;
    text.extend_from_slice(key)?;
    text.extend_from_slice(digest.alg.as_slice())?;
    text.extend_from_slice(b":")?;
    text.extend_from_slice(hex.as_bytes())
}

fn append_property(alloc: Global, text: &mut Vec<u8>, property: &Property) -> Result<(), AllocError>
    ensures { OnOk result (text.new.items ≡ text.old.items ++ property_token property.now) }
{
    match property {
        Property::BootVerified(wanted) => append_truth(text, b"boot_verified=", *wanted),
        Property::DmverityRoothash(digest) => append_digest(
            alloc,
            text,
            b"dmverity_roothash=",
            digest,
        ),
        Property::DmveritySignature(wanted) => append_truth(text, b"dmverity_signature=", *wanted),
        Property::FsverityDigest(digest) => append_digest(alloc, text, b"fsverity_digest=", digest),
        Property::FsveritySignature(wanted) => append_truth(text, b"fsverity_signature=", *wanted),
    }
}

fn append_properties(
    alloc: Global,
    text: &mut Vec<u8>,
    props: &[Property],
) -> Result<(), AllocError>
    ensures { OnOk result (text.new.items ≡ text.old.items
        ++ flat_map (λ property. 32 ∷ property_token property) props.now) }
{
    for property in props {
        text.extend_from_slice(b" ")?;
        append_property(alloc, text, property)?;
    }
    Ok(())
}

fn append_statement(
    alloc: Global,
    text: &mut Vec<u8>,
    statement: &Statement,
) -> Result<(), AllocError>
    ensures { OnOk result (text.new.items ≡ text.old.items ++ statement_text statement.now) }
{
    match statement {
        Statement::Rule { op, props, action } => {
            append_op(text, *op)?;
            append_properties(alloc, text, props.as_slice())?;
            text.extend_from_slice(b" ")?;
            append_action(text, *action)
        }
        Statement::OpDefault { op, action } => {
            text.extend_from_slice(b"DEFAULT ")?;
            append_op(text, *op)?;
            text.extend_from_slice(b" ")?;
            append_action(text, *action)
        }
        Statement::GlobalDefault { action } => {
            text.extend_from_slice(b"DEFAULT ")?;
            append_action(text, *action)
        }
    }
}

fn append_statements(
    alloc: Global,
    text: &mut Vec<u8>,
    statements: &[Statement],
) -> Result<(), AllocError>
    ensures { OnOk result (text.new.items ≡ text.old.items
        ++ flat_map (λ statement. statement_text statement ++ 10 ∷ []) statements.now) }
{
    for statement in statements {
        append_statement(alloc, text, statement)?;
        text.extend_from_slice(b"\n")?;
    }
    Ok(())
}

fn append_version(alloc: Global, text: &mut Vec<u8>, version: Version) -> Result<(), AllocError>
    ensures { OnOk result (text.new.items ≡ text.old.items ++ version_text version) }
{
    let version = version.to_string(alloc)?;
    text.extend_from_slice(version.as_bytes())
}

fn append_header(
    alloc: Global,
    text: &mut Vec<u8>,
    name: &Name,
    version: Version,
) -> Result<(), AllocError>
    ensures { OnOk result (text.new.items ≡ text.old.items ++ header_text name.now version) }
{
    text.extend_from_slice(b"policy_name=")?;
    text.extend_from_slice(name.as_slice())?;
    text.extend_from_slice(b" policy_version=")?;
    append_version(alloc, text, version)
}

/// A truth value as a digit, `1` or `0`.
pub fn bit_text(on: bool) -> &'static [u8]
    ensures { result.now ≡ bit_text on }
{
    if on { b"1" } else { b"0" }
}

/// A statement in its one spelling, without an end of line.
pub fn statement_text(alloc: Global, statement: &Statement) -> Result<Vec<u8>, AllocError>
    ensures { IfOk result (λ text. text.items ≡ statement_text statement.now) }
{
    let mut text = Vec::new(alloc);
    append_statement(alloc, &mut text, statement)?;
    Ok(text)
}

/// A policy in its one spelling: the header and each statement on a line of its own, each line ended by a line feed.
pub fn print(alloc: Global, policy: &Policy) -> Result<Vec<u8>, AllocError>
    ensures { IfOk result (λ text. text.items ≡ policy_text policy.now) }
{
    let mut text = Vec::new(alloc);
    append_header(alloc, &mut text, &policy.name, policy.version)?;
    text.extend_from_slice(b"\n")?;
    append_statements(alloc, &mut text, policy.items.as_slice())?;
    Ok(text)
}
