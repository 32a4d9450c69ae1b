ghost use Rattle.std.specs.Prelude.{◌≡◌};
ghost use Rattle.ipe_policy.specs.Policy.{IsNamedDigest};

use crate::{CountingReader, Image, SliceReader, compile, decide_words, rule_text};
use ipe_policy::{
    Action, AlgName, Context, Digest, DigestBytes, Name, Op, Policy, Properties, Property, Signed,
    Statement, Statements, Version, Which,
};
use std::alloc::{AllocError, Global};
use std::test::Fail;

const VERSION: Version = Version {
    major: 1,
    minor: 0,
    rev: 0,
};

fn digest(rt: &impl std::process::Abort, alg: &[u8], bytes: &[u8]) -> Digest
    ensures { result ≡ record { alg = alg.now; bytes = bytes.now } }
{
    Digest {
        alg: AlgName::read(alg).expect(rt, "a name"),
        bytes: DigestBytes::read(bytes).expect(rt, "a digest"),
    }
}

fn on_volume(digest: Digest, signed: bool) -> Context {
    Context {
        boot: false,
        dm: Some(Signed { digest, signed }),
        fs: None,
    }
}

fn deciding(image: &Image, op: Op, context: &Context) -> Which {
    decide_words(&mut SliceReader::new(image.words()), op, context)
        .found
        .which
}

fn boot_policy(alloc: Global, name: Name) -> Result<Policy, AllocError> {
    let boot = Properties::from_vec(vec![in alloc; Property::BootVerified(true)]?);
    let items = vec![in alloc;
        Statement::GlobalDefault {
            action: Action::Deny
        },
        Statement::Rule {
            op: Op::Execute,
            props: boot,
            action: Action::Allow
        },
    ]?;
    Ok(Policy {
        name,
        version: VERSION,
        items: Statements::from_vec(items),
    })
}

#[test]
fn compiles_to_words(rt: HostRuntime) -> Result<(), Fail> {
    let name = Name::read(b"boot").expect(&rt, "a name");
    let policy = boot_policy(rt.alloc(), name)?;
    let image = compile(rt.alloc(), &policy, 1)?;
    let want = [
        27,
        1,
        2,
        0,
        0,
        0,
        0,
        0,
        0,
        0,
        1,
        25,
        0,
        0,
        0,
        0,
        0,
        0,
        1,
        0,
        0,
        0,
        0,
        0,
        0,
        0x0201_0100_0000_0001,
        256,
    ];
    assert_eq!(rt; image.words(), want.as_slice());
    Ok(())
}

fn volume_policy(
    alloc: Global,
    name: Name,
    root: Digest,
    other: Digest,
) -> Result<Policy, AllocError>
    requires root { IsNamedDigest root }
    requires other { IsNamedDigest other }
{
    let signed = Properties::from_vec(vec![in alloc; Property::DmveritySignature(true)]?);
    let root = Properties::from_vec(vec![in alloc; Property::DmverityRoothash(root)]?);
    let other = Properties::from_vec(vec![in alloc; Property::DmverityRoothash(other)]?);
    let items = vec![in alloc;
        Statement::Rule {
            op: Op::Firmware,
            props: signed,
            action: Action::Allow
        },
        Statement::OpDefault {
            op: Op::Execute,
            action: Action::Allow
        },
        Statement::Rule {
            op: Op::Execute,
            props: root,
            action: Action::Deny
        },
        Statement::Rule {
            op: Op::Execute,
            props: other,
            action: Action::Allow
        },
        Statement::GlobalDefault {
            action: Action::Deny
        },
    ]?;
    Ok(Policy {
        name,
        version: VERSION,
        items: Statements::from_vec(items),
    })
}

#[test]
fn decides_from_words(rt: HostRuntime) -> Result<(), Fail> {
    let root = b"0123456789abcdef";
    let swapped = b"89abcdef01234567";
    let name = Name::read(b"volumes").expect(&rt, "a name");
    let policy = volume_policy(
        rt.alloc(),
        name,
        digest(&rt, b"sha256", root),
        digest(&rt, b"sha256", swapped),
    )?;
    let image = compile(rt.alloc(), &policy, 7)?;
    let signed = on_volume(digest(&rt, b"sha256", root), true);
    let second = on_volume(digest(&rt, b"sha256", swapped), false);
    let renamed = on_volume(digest(&rt, b"sha512", root), false);
    let shorter = on_volume(digest(&rt, b"sha256", b"0123456789abcde"), false);
    assert_eq!(rt; deciding(&image, Op::Firmware, &signed), Which::Rule(1));
    assert_eq!(rt; deciding(&image, Op::Execute, &signed), Which::Rule(2));
    assert_eq!(rt; deciding(&image, Op::Execute, &second), Which::Rule(3));
    assert_eq!(rt; deciding(&image, Op::Execute, &renamed), Which::OpDefault);
    assert_eq!(rt; deciding(&image, Op::Execute, &shorter), Which::OpDefault);
    assert_eq!(rt;
        deciding(&image, Op::Firmware, &second),
        Which::GlobalDefault
    );
    Ok(())
}

fn revoking_policy(
    alloc: Global,
    name: Name,
    first: Digest,
    second: Digest,
) -> Result<Policy, AllocError>
    requires first { IsNamedDigest first }
    requires second { IsNamedDigest second }
{
    let first = Properties::from_vec(vec![in alloc; Property::DmverityRoothash(first)]?);
    let second = Properties::from_vec(vec![in alloc; Property::DmverityRoothash(second)]?);
    let boot = Properties::from_vec(vec![in alloc; Property::BootVerified(true)]?);
    let signed = Properties::from_vec(vec![in alloc; Property::DmveritySignature(true)]?);
    let module_boot = Properties::from_vec(vec![in alloc; Property::BootVerified(true)]?);
    let module_signed = Properties::from_vec(vec![in alloc; Property::DmveritySignature(true)]?);
    let items = vec![in alloc;
        Statement::GlobalDefault {
            action: Action::Deny
        },
        Statement::Rule {
            op: Op::Execute,
            props: first,
            action: Action::Deny
        },
        Statement::Rule {
            op: Op::Execute,
            props: second,
            action: Action::Deny
        },
        Statement::Rule {
            op: Op::Execute,
            props: boot,
            action: Action::Allow
        },
        Statement::Rule {
            op: Op::Execute,
            props: signed,
            action: Action::Allow
        },
        Statement::Rule {
            op: Op::Kmodule,
            props: module_boot,
            action: Action::Allow
        },
        Statement::Rule {
            op: Op::Kmodule,
            props: module_signed,
            action: Action::Allow
        },
    ]?;
    Ok(Policy {
        name,
        version: VERSION,
        items: Statements::from_vec(items),
    })
}

// The number of the rule whose record stands at a place.
fn number_at(words: &[u64], place: usize) -> u64 {
    words.get(place).copied().unwrap_or(0) % 0x1_0000_0000
}

#[test]
fn reads_the_records_of_one_operation(rt: HostRuntime) -> Result<(), Fail> {
    let name = Name::read(b"prod").expect(&rt, "a name");
    let policy = revoking_policy(
        rt.alloc(),
        name,
        digest(&rt, b"sha256", &[0xaa; 32]),
        digest(&rt, b"sha256", &[0xbb; 32]),
    )?;
    let image = compile(rt.alloc(), &policy, 1)?;
    let words = image.words();
    assert_eq!(rt; words.len(), 47);
    assert_eq!(rt; words.get(11).copied(), Some(25));
    assert_eq!(rt; words.get(18).copied(), Some(4));
    assert_eq!(rt; words.get(13).copied(), Some(43));
    assert_eq!(rt; words.get(20).copied(), Some(2));
    assert_eq!(rt; number_at(words, 43), 5);
    assert_eq!(rt; number_at(words, 45), 6);
    let mut reader = CountingReader::new(words);
    let hit = decide_words(&mut reader, Op::Kmodule, &Context::none());
    assert_eq!(rt; hit.found.which, Which::GlobalDefault);
    assert!(rt; reader.reads() <= 9);
    Ok(())
}

fn wide_policy(alloc: Global, name: Name, root: Digest, file: Digest) -> Result<Policy, AllocError>
    requires root { IsNamedDigest root }
    requires file { IsNamedDigest file }
{
    let props = Properties::from_vec(vec![in alloc;
        Property::FsverityDigest(file),
        Property::BootVerified(false),
        Property::DmveritySignature(true),
        Property::FsveritySignature(false),
        Property::DmverityRoothash(root),
    ]?);
    let items = vec![in alloc;
        Statement::Rule {
            op: Op::KexecImage,
            props,
            action: Action::Allow
        },
        Statement::OpDefault {
            op: Op::X509Cert,
            action: Action::Deny
        },
        Statement::GlobalDefault {
            action: Action::Allow
        },
    ]?;
    Ok(Policy {
        name,
        version: VERSION,
        items: Statements::from_vec(items),
    })
}

#[test]
fn spells_what_decided(rt: HostRuntime) -> Result<(), Fail> {
    let root = b"\x00\x01\x02\x03\x04\x05\x06\x07\xff";
    let name = Name::read(b"wide").expect(&rt, "a name");
    let policy = wide_policy(
        rt.alloc(),
        name,
        digest(&rt, b"sha512-256", root),
        digest(&rt, b"sha256", b"\xa0"),
    )?;
    let image = compile(rt.alloc(), &policy, 7)?;
    let context = Context {
        boot: false,
        dm: Some(Signed {
            digest: digest(&rt, b"sha512-256", root),
            signed: true,
        }),
        fs: Some(Signed {
            digest: digest(&rt, b"sha256", b"\xa0"),
            signed: false,
        }),
    };
    let rows = [
        (
            Op::KexecImage,
            concat!(
                "op=KEXEC_IMAGE fsverity_digest=sha256:a0 boot_verified=FALSE dmverity_signature=TRUE ",
                "fsverity_signature=FALSE dmverity_roothash=sha512-256:0001020304050607ff action=ALLOW",
            ),
        ),
        (Op::X509Cert, "DEFAULT op=X509_CERT action=DENY"),
        (Op::Policy, "DEFAULT action=ALLOW"),
    ];
    for (op, want) in rows {
        let hit = decide_words(&mut SliceReader::new(image.words()), op, &context);
        let text = rule_text(rt.alloc(), op, &hit)?;
        assert_eq!(rt; text.as_slice(), want.as_bytes());
    }
    Ok(())
}
