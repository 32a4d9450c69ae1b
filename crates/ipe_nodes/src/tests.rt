ghost use Rattle.ipe_signer.specs.declared.signer.Verdict.TheVariants.{Trusted};

use super::*;
use ipe_registry::{Done, Plan};
use ipe_signer::{Purpose, Signer, Verdict};
use std::alloc::Global;
use std::process::Abort;
use std::test::Fail;

const A: &str = "policy_name=a policy_version=1.0.0\nDEFAULT action=DENY\n";

const C: &str = "policy_name=c policy_version=10.2.65535\nDEFAULT action=ALLOW\n";

#[derive(Debug, Drop)]
struct TrustsAll;

impl Signer for TrustsAll {
    ghost verdict_of = { λ signer purpose digest. Trusted };

    fn verdict(&self, _purpose: Purpose, _digest: &[u8]) -> Verdict {
        Verdict::Trusted
    }
}

// What a write is answered.
fn word_of(answer: &Result<Command, Refusal>) -> &'static str {
    match answer {
        Ok(command) => match &command.act {
            Act::Load(_) => "load",
            Act::Update(_, _) => "update",
            Act::Activate(_, _) => "activate",
            Act::Delete(_, _) => "delete",
            Act::Enforce(_) => "enforce",
            Act::SuccessAudit(_) => "success_audit",
        },
        Err(Refusal::NoEntry) => "no entry",
        Err(Refusal::Direction) => "direction",
        Err(_) => "another refusal",
    }
}

#[test]
fn writes_are_told_by_the_path(rt: HostRuntime) -> Result<(), Fail> {
    let cases = [
        ("new_policy", "load"),
        ("enforce", "enforce"),
        ("success_audit", "success_audit"),
        ("policies/a/pkcs7", "direction"),
        ("policies/a/policy", "direction"),
        ("policies/a/name", "direction"),
        ("policies/a/version", "direction"),
        ("policies/a/active", "activate"),
        ("policies/a/update", "update"),
        ("policies/a/delete", "delete"),
        ("policies/new_policy/delete", "delete"),
        ("policies/a b/active", "no entry"),
        ("policies/../active", "no entry"),
        ("policies//active", "no entry"),
        ("policies/a/b", "no entry"),
        ("policies/a/b/active", "no entry"),
        ("policies/a/active/", "no entry"),
        ("policies/a/", "no entry"),
        ("policies/a", "no entry"),
        ("policies/", "no entry"),
        ("/enforce", "no entry"),
        ("enforce\n", "no entry"),
        ("nothing", "no entry"),
        ("", "no entry"),
    ];
    for (path, word) in cases {
        let answer = command_of(rt.alloc(), path.as_bytes(), b"1", true)?;
        assert_eq!(rt; word_of(&answer), word, "{path}");
    }
    Ok(())
}

#[test]
fn a_command_has_the_name_the_bytes_and_the_right(rt: HostRuntime) -> Result<(), Fail> {
    for may in [true, false] {
        let answer = command_of(rt.alloc(), b"policies/a.b/update", A.as_bytes(), may)?;
        let command = answer.ok().ok_or("a command")?;
        assert_eq!(rt; command.may, may);
        assert!(rt;
            matches!(
                &command.act,
                Act::Update(name, text) if name.as_slice() == b"a.b".as_slice() && text.as_slice() == A.as_bytes()
            )
        );
    }
    Ok(())
}

// Writes these bytes to a path, and carries the command out.
fn write(
    rt: &impl Abort,
    alloc: Global,
    registry: &mut Registry,
    path: &str,
    bytes: &str,
) -> Result<Done, Fail> {
    let answer = command_of(alloc, path.as_bytes(), bytes.as_bytes(), true)?;
    let command = answer.ok().ok_or("a command")?;
    assert!(rt; registry.next_serial() < 1 << 63);
    match registry.plan(alloc, &TrustsAll, &command)? {
        Plan::Ready(change) => Ok(registry.commit(change)),
        Plan::Same(_) | Plan::Refused(_) => Err("a change")?,
    }
}

// The policies a and c, of which a is active.
fn two_policies(rt: &impl Abort, alloc: Global) -> Result<Registry, Fail> {
    let mut registry = Registry::new(alloc)?;
    let _loaded = write(rt, alloc, &mut registry, "new_policy", A)?;
    let _loaded = write(rt, alloc, &mut registry, "new_policy", C)?;
    let done = write(rt, alloc, &mut registry, "policies/a/active", "1\n")?;
    assert_eq!(rt; done, Done::Activated);
    Ok(registry)
}

#[test]
fn reads_give_bytes(rt: HostRuntime) -> Result<(), Fail> {
    let registry = two_policies(&rt, rt.alloc())?;
    let cases = [
        ("enforce", "1"),
        ("success_audit", "0"),
        ("policies/a/pkcs7", A),
        ("policies/a/policy", A),
        ("policies/a/name", "a"),
        ("policies/a/version", "1.0.0"),
        ("policies/a/active", "1"),
        ("policies/c/policy", C),
        ("policies/c/version", "10.2.65535"),
        ("policies/c/active", "0"),
    ];
    for (path, bytes) in cases {
        let answer = read_registry(rt.alloc(), &registry, path.as_bytes())?;
        assert!(rt;
            matches!(&answer, Ok(read) if read.as_slice() == bytes.as_bytes()),
            "{path}"
        );
    }
    Ok(())
}

#[test]
fn reads_are_refused(rt: HostRuntime) -> Result<(), Fail> {
    let registry = two_policies(&rt, rt.alloc())?;
    let cases = [
        ("new_policy", Refusal::Direction),
        ("policies/a/update", Refusal::Direction),
        ("policies/a/delete", Refusal::Direction),
        ("policies/b/update", Refusal::Direction),
        ("policies/b/delete", Refusal::Direction),
        ("policies/b/name", Refusal::NoEntry),
        ("policies/b/active", Refusal::NoEntry),
        ("policies/a/nothing", Refusal::NoEntry),
        ("policies", Refusal::NoEntry),
        ("", Refusal::NoEntry),
    ];
    for (path, refusal) in cases {
        let answer = read_registry(rt.alloc(), &registry, path.as_bytes())?;
        assert!(rt; matches!(&answer, Err(why) if *why == refusal), "{path}");
    }
    Ok(())
}
