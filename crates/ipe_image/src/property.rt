ghost use Rattle.std.specs.Prelude.{◌≡◌, ℕ, List};
ghost use Rattle.std.specs.List.{list_all};
ghost use Rattle.ipe_policy.specs.Evaluation.{has_digest, holds_in, is_signed};
ghost use Rattle.ipe_policy.specs.declared.statement.Property.{Property};
ghost use Rattle.ipe_image.specs.Image.{named_digest};
ghost use Rattle.ipe_image.specs.Heads.{ArePropertyImages, BeginsWithProperty, IsWordsOf};

use crate::head::{PropertyHead, PropertyKind, words_for};
use crate::packing::are_words_of;
use ipe_policy::{Context, Signed};

/// A property of a record: what its head tells, and the words of its algorithm's name and of its digest.
#[derive(Clone, Copy)]
pub(crate) struct PropertyWords<'a> {
    pub head: PropertyHead,
    pub alg: &'a [u64],
    pub digest: &'a [u64],
}

/// The property with which words begin, and the words after it.
pub(crate) fn first_property(words: &[u64]) -> (PropertyWords<'_>, &[u64])
    requires { (property : Property) × (behind : List ℕ) × BeginsWithProperty words.now property behind }
    ensures property { (property : Property) (behind : List ℕ) → BeginsWithProperty words.now property behind →
        IsWordsOf result.0.head result.0.alg.now result.0.digest.now property }
    ensures behind { (property : Property) (behind : List ℕ) → BeginsWithProperty words.now property behind →
        result.1.now ≡ behind }
{
    let head = PropertyHead::read(words[0]);
    let (alg, rest) = words[1..].split_at(words_for(head.alg_len));
    let (digest, behind) = rest.split_at(words_for(head.digest_len));
    (PropertyWords { head, alg, digest }, behind)
}

fn is_signed(part: &Option<Signed>) -> bool
    ensures { result ≡ is_signed part.now }
{
    match part {
        Some(signed) => signed.signed,
        None => false,
    }
}

// Whether the part has the digest of a property: of the same lengths, and word by word.
fn has_digest(property: &PropertyWords<'_>, part: &Option<Signed>) -> bool
    requires { (named : Property) × IsWordsOf property.now.head property.now.alg.now property.now.digest.now named }
    ensures { (named : Property) → IsWordsOf property.now.head property.now.alg.now property.now.digest.now named →
        result ≡ has_digest part.now (named_digest named) }
{
    let Some(signed) = part else {
        return false;
    };
    let alg = signed.digest.alg.as_slice();
    let bytes = signed.digest.bytes.as_slice();
    if alg.len() != property.head.alg_len || bytes.len() != property.head.digest_len {
        return false;
    }
    are_words_of(property.alg, alg) && are_words_of(property.digest, bytes)
}

// Whether a property holds of a file.
fn holds(property: &PropertyWords<'_>, context: &Context) -> bool
    requires { (named : Property) × IsWordsOf property.now.head property.now.alg.now property.now.digest.now named }
    ensures { (named : Property) → IsWordsOf property.now.head property.now.alg.now property.now.digest.now named →
        result ≡ holds_in context.now named }
{
    let wanted = property.head.wanted;
    match property.head.kind {
        PropertyKind::BootVerified => wanted == context.boot,
        PropertyKind::DmveritySignature => wanted == is_signed(&context.dm),
        PropertyKind::FsveritySignature => wanted == is_signed(&context.fs),
        PropertyKind::DmverityRoothash => has_digest(property, &context.dm),
        PropertyKind::FsverityDigest => has_digest(property, &context.fs),
    }
}

/// Whether all the properties hold of a file whose words these are, one after the other.
pub(crate) fn all_hold(words: &[u64], context: &Context) -> bool
    requires { (properties : List Property) × ArePropertyImages words.now properties }
    ensures { (properties : List Property) → ArePropertyImages words.now properties →
        result ≡ list_all (holds_in context.now) properties }
{
    let mut rest = words;
    while !rest.is_empty() {
        let (property, behind) = first_property(rest);
        if !holds(&property, context) {
            return false;
        }
        rest = behind;
    }
    true
}
