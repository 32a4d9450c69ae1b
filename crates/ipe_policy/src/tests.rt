ghost use Rattle.ipe_policy.specs.Policy.{IsNamedDigest};

use crate::{
    Action, AlgName, Comm, Context, DevName, Digest, DigestBytes, Found, Kind, Name, Op, PathName,
    Policy, Properties, Property, Request, Signed, Statement, Statements, Version, Which, decide,
    image_words, print,
};
use std::alloc::{AllocError, Global};
use std::test::Fail;

fn version(major: u16, minor: u16, rev: u16) -> Option<Version> {
    Some(Version { major, minor, rev })
}

#[test]
fn reads_versions(rt: HostRuntime) {
    let rows = [
        ("65535.65535.65535", version(65535, 65535, 65535)),
        ("00001.0.0", version(1, 0, 0)),
        ("65536.0.0", None),
        ("000001.0.0", None),
        ("1.0", None),
        ("1..0", None),
        ("1.0.0.0", None),
        ("1.0.-1", None),
    ];
    for (text, want) in rows {
        assert_eq!(rt; Version::read(text.as_bytes()), want, "at {text}");
    }
    let most = Version {
        major: 65535,
        minor: 65535,
        rev: 65535,
    };
    assert_eq!(rt; most.packed(), 281_474_976_710_655);
}

#[test]
fn reads_names(rt: HostRuntime) {
    let longest = [b'a'; 255];
    let too_long = [b'a'; 256];
    let rows = [
        (longest.as_slice(), true),
        (too_long.as_slice(), false),
        (b"".as_slice(), false),
        (b".".as_slice(), false),
        (b"..".as_slice(), false),
        (b"...".as_slice(), true),
        (b"a/b".as_slice(), false),
        (b"a#b".as_slice(), false),
        (b"a\"b".as_slice(), false),
        (b"a b".as_slice(), false),
        (b"!~".as_slice(), true),
        (b"\x7f".as_slice(), false),
    ];
    for (bytes, want) in rows {
        assert_eq!(rt; Name::read(bytes).is_some(), want, "at {bytes:?}");
    }
}

#[test]
fn reads_other_words(rt: HostRuntime) {
    assert!(rt; AlgName::read(&[b'a'; 16]).is_some());
    assert!(rt; AlgName::read(&[b'a'; 17]).is_none());
    assert!(rt; AlgName::read(b"SHA256").is_none());
    assert!(rt; DigestBytes::read(&[0; 64]).is_some());
    assert!(rt; DigestBytes::read(&[0; 65]).is_none());
    assert!(rt; DigestBytes::read(b"").is_some());
    assert!(rt; Comm::read(&[b'/'; 15]).is_some());
    assert!(rt; Comm::read(&[b'/'; 16]).is_none());
    assert!(rt; PathName::read(&[b'/'; 255]).is_some());
    assert!(rt; PathName::read(&[b'/'; 256]).is_none());
    assert!(rt; PathName::read(b"bin/sh").is_none());
    assert!(rt; DevName::read(&[b'_'; 32]).is_some());
    assert!(rt; DevName::read(&[b'_'; 33]).is_none());
    assert!(rt; DevName::read(b"dm.0").is_none());
}

#[test]
fn knows_the_operation_of_a_request(rt: HostRuntime) {
    let rows = [
        (0, None),
        (3, None),
        (4, Some(Op::Execute)),
        (7, Some(Op::Execute)),
        (8, None),
        (0xFFFF_FFFB, None),
        (0xFFFF_FFFF, Some(Op::Execute)),
    ];
    for (prot, want) in rows {
        assert_eq!(rt; Request::Mmap { prot }.op(), want, "at {prot}");
        let adds = Request::Mprotect {
            was_exec: false,
            prot,
        };
        assert_eq!(rt; adds.op(), want, "at {prot}");
        let keeps = Request::Mprotect {
            was_exec: true,
            prot,
        };
        assert_eq!(rt; keeps.op(), None, "at {prot}");
    }
    assert_eq!(rt; Request::ExecCheck.op(), Some(Op::Execute));
    assert_eq!(rt; Request::KernelRead(Kind::Module).op(), Some(Op::Kmodule));
    assert_eq!(rt; Request::KernelLoad(Kind::X509).op(), Some(Op::X509Cert));
}

fn small_policy(alloc: Global, name: Name, digest: Digest) -> Result<Policy, AllocError>
    requires { IsNamedDigest digest }
{
    let boot = Properties::from_vec(vec![in alloc; Property::BootVerified(true)]?);
    let unsigned = Properties::from_vec(vec![in alloc;
        Property::DmveritySignature(false),
        Property::DmveritySignature(false),
    ]?);
    let root = Properties::from_vec(vec![in alloc; Property::DmverityRoothash(digest)]?);
    let items = vec![in alloc;
        Statement::Rule {
            op: Op::Execute,
            props: boot,
            action: Action::Allow
        },
        Statement::OpDefault {
            op: Op::Execute,
            action: Action::Deny
        },
        Statement::Rule {
            op: Op::Execute,
            props: unsigned,
            action: Action::Deny
        },
        Statement::GlobalDefault {
            action: Action::Allow
        },
        Statement::Rule {
            op: Op::Firmware,
            props: root,
            action: Action::Deny
        },
    ]?;
    Ok(Policy {
        name,
        version: Version {
            major: 1,
            minor: 0,
            rev: 10,
        },
        items: Statements::from_vec(items),
    })
}

fn small_digest(rt: &impl std::process::Abort) -> Digest
    ensures { IsNamedDigest result }
{
    Digest {
        alg: AlgName::read(b"sha256").expect(rt, "a name"),
        bytes: DigestBytes::read(&[0, 0xFF]).expect(rt, "a digest"),
    }
}

fn found(action: Action, which: Which) -> Found {
    Found { action, which }
}

#[test]
fn decides(rt: HostRuntime) -> Result<(), Fail> {
    let name = Name::read(b"small").expect(&rt, "a name");
    let policy = small_policy(rt.alloc(), name, small_digest(&rt))?;
    let nothing = Context::none();
    let booted = Context {
        boot: true,
        ..Context::none()
    };
    let verified = Context {
        boot: false,
        dm: Some(Signed {
            digest: small_digest(&rt),
            signed: true,
        }),
        fs: None,
    };
    let rows = [
        (&booted, Op::Execute, found(Action::Allow, Which::Rule(1))),
        (&nothing, Op::Execute, found(Action::Deny, Which::Rule(2))),
        (
            &verified,
            Op::Execute,
            found(Action::Deny, Which::OpDefault),
        ),
        (&verified, Op::Firmware, found(Action::Deny, Which::Rule(3))),
        (
            &nothing,
            Op::Firmware,
            found(Action::Allow, Which::GlobalDefault),
        ),
    ];
    for (context, op, want) in rows {
        assert_eq!(rt;
            decide(&policy, op, context),
            want,
            "of {op:?} at {context:?}"
        );
    }
    Ok(())
}

#[test]
fn prints(rt: HostRuntime) -> Result<(), Fail> {
    let name = Name::read(b"small").expect(&rt, "a name");
    let policy = small_policy(rt.alloc(), name, small_digest(&rt))?;
    let want = concat!(
        "policy_name=small policy_version=1.0.10\n",
        "op=EXECUTE boot_verified=TRUE action=ALLOW\n",
        "DEFAULT op=EXECUTE action=DENY\n",
        "op=EXECUTE dmverity_signature=FALSE dmverity_signature=FALSE action=DENY\n",
        "DEFAULT action=ALLOW\n",
        "op=FIRMWARE dmverity_roothash=sha256:00ff action=DENY\n",
    );
    assert_eq!(rt; print(rt.alloc(), &policy)?.as_slice(), want.as_bytes());
    assert_eq!(rt; image_words(&policy), 34);
    Ok(())
}

#[test]
fn makes_a_policy_of_statements(rt: HostRuntime) -> Result<(), Fail> {
    let name = Name::read(b"small").expect(&rt, "a name");
    let policy = small_policy(rt.alloc(), name.clone().unwrap(), small_digest(&rt))?;
    let made = Policy::new(name, policy.version, policy.items.clone()?).expect(&rt, "a policy");
    assert!(rt; made == policy.clone()?);
    let allowing = Statement::GlobalDefault {
        action: Action::Allow,
    };
    let denying = Statement::GlobalDefault {
        action: Action::Deny,
    };
    let twice = Statements::from_vec(vec![in rt.alloc(); denying.clone()?, allowing]?);
    assert!(rt; Policy::new(made.name.clone().unwrap(), made.version, twice).is_none());
    let once = Statements::from_vec(vec![in rt.alloc(); denying]?);
    let other = Policy::new(made.name.clone().unwrap(), made.version, once).expect(&rt, "a policy");
    assert!(rt; other != made);
    Ok(())
}
