ghost use Rattle.std.specs.Prelude.{◌≡◌, Some, None, length, drop, if◌then◌else◌, ◌==◌};
ghost use Rattle.std.specs.Option.{option_copied};
ghost use Rattle.ipe_policy.specs.Spelling.{op_word};
ghost use Rattle.line_words.specs.Words.{is_text};
ghost use Rattle.ipe_parse.specs.Tokens.{action_named, begins, digest_of, digest_property_of, hex_bytes, op_named, op_of, property_of, truth_property_of};

use crate::BadKind;
use ipe_policy::{Action, AlgName, Digest, DigestBytes, Op, Property};
use line_words::cut_at;

// What stands after a prefix of a token.
pub(crate) fn behind<'a>(prefix: &[u8], token: &'a [u8]) -> Option<&'a [u8]>
    ensures { option_copied result
        ≡ (if begins prefix.now token.now then Some (drop (length prefix.now) token.now) else None) }
{
    token.strip_prefix(prefix)
}

fn is_word_of(op: Op, word: &[u8]) -> bool
    ensures { result ≡ is_text (op_word op) word.now }
{
    word == op.word().as_bytes()
}

pub(crate) fn op_named(word: &[u8]) -> Option<Op>
    ensures { result ≡ op_named word.now }
{
    Op::ALL.iter().copied().find(|op| is_word_of(*op, word))
}

pub(crate) fn op_of(token: &[u8]) -> Option<Op>
    ensures { result ≡ op_of token.now }
{
    op_named(behind(b"op=", token)?)
}

pub(crate) fn action_named(token: &[u8]) -> Option<Action>
    ensures { result ≡ action_named token.now }
{
    if token == b"action=ALLOW".as_slice() {
        return Some(Action::Allow);
    }
    if token == b"action=DENY".as_slice() {
        return Some(Action::Deny);
    }
    None
}

fn hex_bytes(digits: &[u8]) -> Option<DigestBytes>
    ensures { result ≡ hex_bytes digits.now }
{
    if digits.len() < 2 || digits.len() > 128 {
        return None;
    }
    let mut buffer = [0u8; 64];
    let bytes = &mut buffer[..digits.len() / 2];
    hex::decode_to_slice(digits, bytes).ok()?;
    DigestBytes::read(bytes)
}

fn digest_of(word: &[u8]) -> Option<Digest>
    ensures { result ≡ digest_of word.now }
{
    let (alg, digits) = cut_at(word, b':');
    let alg = AlgName::read(alg)?;
    let bytes = hex_bytes(digits)?;
    Some(Digest { alg, bytes })
}

fn truth_property_of(token: &[u8]) -> Option<Property>
    ensures { result ≡ truth_property_of token.now }
{
    if token == b"boot_verified=TRUE".as_slice() {
        return Some(Property::BootVerified(true));
    }
    if token == b"boot_verified=FALSE".as_slice() {
        return Some(Property::BootVerified(false));
    }
    if token == b"dmverity_signature=TRUE".as_slice() {
        return Some(Property::DmveritySignature(true));
    }
    if token == b"dmverity_signature=FALSE".as_slice() {
        return Some(Property::DmveritySignature(false));
    }
    if token == b"fsverity_signature=TRUE".as_slice() {
        return Some(Property::FsveritySignature(true));
    }
    if token == b"fsverity_signature=FALSE".as_slice() {
        return Some(Property::FsveritySignature(false));
    }
    None
}

fn digest_property_of(token: &[u8]) -> Result<Property, BadKind>
    ensures { result ≡ digest_property_of token.now }
{
    if let Some(word) = behind(b"dmverity_roothash=", token) {
        let digest = digest_of(word).ok_or(BadKind::BadDigest)?;
        return Ok(Property::DmverityRoothash(digest));
    }
    if let Some(word) = behind(b"fsverity_digest=", token) {
        let digest = digest_of(word).ok_or(BadKind::BadDigest)?;
        return Ok(Property::FsverityDigest(digest));
    }
    Err(BadKind::BadProperty)
}

pub(crate) fn property_of(token: &[u8]) -> Result<Property, BadKind>
    ensures { result ≡ property_of token.now }
{
    match truth_property_of(token) {
        Some(property) => Ok(property),
        None => digest_property_of(token),
    }
}
