ghost use Rattle.std.specs.Prelude.{◌≡◌, ◌+◌, ◌≤◌, length, sum_by};
ghost use Rattle.ipe_policy.specs.Spelling.{property_words, words_for, words_of_image};

use crate::{Digest, Policy, Property, Statement};

fn words_for(bytes: &[u8]) -> u64
    requires { length bytes.now ≤ 64 }
    ensures { result ≡ words_for (length bytes.now) }
{
    bytes.len().div_ceil(8) as u64
}

fn digest_words(digest: &Digest) -> u64
    ensures words { result ≡ 1 + words_for (length digest.now.alg) + words_for (length digest.now.bytes) }
    ensures few { result ≤ 11 }
{
    1 + words_for(digest.alg.as_slice()) + words_for(digest.bytes.as_slice())
}

fn property_words(property: &Property) -> u64
    ensures words { result ≡ property_words property.now }
    ensures few { result ≤ 11 }
{
    match property {
        Property::BootVerified(_)
        | Property::DmveritySignature(_)
        | Property::FsveritySignature(_) => 1,
        Property::DmverityRoothash(digest) | Property::FsverityDigest(digest) => digest_words(
            digest,
        ),
    }
}

fn rule_words(props: &[Property]) -> u64
    requires { length props.now ≤ 16 }
    ensures words { result ≡ 1 + sum_by property_words props.now }
    ensures few { result ≤ 177 }
{
    let mut words = 1;
    for property in props {
        words += property_words(property);
    }
    words
}

/// How many words of eight bytes the image of a policy has.
pub fn image_words(policy: &Policy) -> u64
    ensures { result ≡ words_of_image policy.now.items }
{
    let mut words = 25;
    for item in policy.items.as_slice() {
        if let Statement::Rule { props, .. } = item {
            words += rule_words(props.as_slice());
        }
    }
    words
}
