ghost use Rattle.std.specs.Prelude.{◌≡◌, ◌+◌, ◌*◌, ◌≤◌, ◌^◌, [], ◌∷◌, ◌++◌, IfOk, OnOk, length};
ghost use Rattle.std.specs.List.{filter_map, flat_map};
ghost use Rattle.arrayvec.specs.ArrayVec.{array_vec_len};
ghost use Rattle.ipe_policy.specs.Spelling.{property_words, words_for};
ghost use Rattle.ipe_policy.specs.Statement.{op_number, rule_of, same_op};
ghost use Rattle.ipe_image.specs.Heads.{kind_code};
ghost use Rattle.ipe_image.specs.Image.{action_number, property_image, records, rule_record, rules_of, truth_number};
ghost use Rattle.ipe_image.specs.Packing.{byte_words};

use crate::head::{PropertyKind, action_number};
use crate::packing::word_of;
use arrayvec::ArrayVec;
use ipe_policy::{Action, Digest, Op, Properties, Property, Statement};
use std::alloc::AllocError;

// The words of a rule's properties: at most 16 properties of 11 words each.
type RuleWords = ArrayVec<u64, 176>;

// Puts bytes after the words, in whole words.
fn append_bytes(words: &mut RuleWords, bytes: &[u8])
    requires { array_vec_len words.old + words_for (length bytes.now) ≤ 176 }
    ensures words { words.new.items ≡ words.old.items ++ byte_words bytes.now }
{
    let mut rest = bytes;
    while !rest.is_empty() {
        let (first, behind) = rest.split_at(rest.len().min(8));
        words.push(word_of(first));
        rest = behind;
    }
}

fn append_wanted(words: &mut RuleWords, kind: PropertyKind, wanted: bool)
    requires { array_vec_len words.old + 1 ≤ 176 }
    ensures { words.new.items ≡ words.old.items ++ (kind_code kind + 2 ^ 8 * truth_number wanted) ∷ [] }
{
    words.push(kind.number() + 256 * u64::from(wanted));
}

fn append_digest(words: &mut RuleWords, kind: PropertyKind, digest: &Digest)
    requires { array_vec_len words.old + 11 ≤ 176 }
    ensures words { words.new.items ≡ words.old.items
        ++ (kind_code kind + 2 ^ 16 * length digest.now.alg + 2 ^ 24 * length digest.now.bytes)
        ∷ (byte_words digest.now.alg ++ byte_words digest.now.bytes) }
    ensures few { words_for (length digest.now.alg) + words_for (length digest.now.bytes) ≤ 10 }
{
    let alg = digest.alg.as_slice();
    let bytes = digest.bytes.as_slice();
    let alg_len = alg.len() as u64;
    let digest_len = bytes.len() as u64;
    words.push(kind.number() + 0x1_0000 * alg_len + 0x100_0000 * digest_len);
    append_bytes(words, alg);
    append_bytes(words, bytes);
}

fn append_property(words: &mut RuleWords, property: &Property)
    requires { array_vec_len words.old + 11 ≤ 176 }
    ensures words { words.new.items ≡ words.old.items ++ property_image property.now }
    ensures few { property_words property.now ≤ 11 }
{
    match property {
        Property::BootVerified(wanted) => append_wanted(words, PropertyKind::BootVerified, *wanted),
        Property::DmveritySignature(wanted) => append_wanted(
            words,
            PropertyKind::DmveritySignature,
            *wanted,
        ),
        Property::FsveritySignature(wanted) => append_wanted(
            words,
            PropertyKind::FsveritySignature,
            *wanted,
        ),
        Property::DmverityRoothash(digest) => append_digest(
            words,
            PropertyKind::DmverityRoothash,
            digest,
        ),
        Property::FsverityDigest(digest) => append_digest(
            words,
            PropertyKind::FsverityDigest,
            digest,
        ),
    }
}

fn property_words(props: &[Property]) -> RuleWords
    requires { length props.now ≤ 16 }
    ensures words { result.items ≡ flat_map property_image props.now }
    ensures few { array_vec_len result ≤ 176 }
{
    let mut words = ArrayVec::new();
    for property in props {
        append_property(&mut words, property);
    }
    words
}

fn rule_head(number: u32, op: Op, action: Action, properties: usize, words: usize) -> u64
    requires properties { properties ≤ 16 }
    requires words { words ≤ 177 }
    ensures { result ≡ number + 2 ^ 32 * op_number op + 2 ^ 40 * action_number action + 2 ^ 48 * properties
        + 2 ^ 56 * words }
{
    u64::from(number)
        + 0x1_0000_0000 * u64::from(op.number())
        + 0x100_0000_0000 * action_number(action)
        + 0x1_0000_0000_0000 * properties as u64
        + 0x100_0000_0000_0000 * words as u64
}

fn append_rule(
    image: &mut Vec<u64>,
    number: u32,
    op: Op,
    props: &Properties,
    action: Action,
) -> Result<(), AllocError>
    ensures { OnOk result (image.new.items ≡ image.old.items
        ++ rule_record number (record { op = op; properties = props.now; action = action })) }
{
    let props = props.as_slice();
    let words = property_words(props);
    let head = rule_head(number, op, action, props.len(), 1 + words.len());
    image.push(head)?;
    image.extend_from_slice(words.as_slice())
}

fn same_op(a: Op, b: Op) -> bool
    ensures { result ≡ same_op a b }
{
    a == b
}

/// Puts the records of an operation's rules after the words, and tells how many they are.
pub(crate) fn append_records(
    words: &mut Vec<u64>,
    items: &[Statement],
    group: Op,
) -> Result<u64, AllocError>
    requires { length items.now ≤ 1048576 }
    ensures records { OnOk result (words.new.items ≡ words.old.items
        ++ records (rules_of (filter_map rule_of items.now) group)) }
    ensures count { IfOk result (λ count. count ≡ length (rules_of (filter_map rule_of items.now) group)) }
{
    let mut number: u32 = 0;
    let mut count = 0;
    for item in items {
        if let Statement::Rule { op, props, action } = item {
            number += 1;
            if same_op(group, *op) {
                append_rule(words, number, *op, props, *action)?;
                count += 1;
            }
        }
    }
    Ok(count)
}
