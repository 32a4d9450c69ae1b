use super::*;
use ipe_image::{SliceReader, compile, decide_words};
use ipe_policy::{
    Action, Comm, Context, DevName, Hook, Name, Object, Op, PathName, Policy, Statement,
    Statements, Subject, Version,
};
use std::alloc::Global;
use std::test::Fail;

fn brief_of(name: &[u8], byte: u8) -> Result<Brief, Fail> {
    Ok(Brief {
        name: Name::read(name).ok_or("a name")?,
        version: Version {
            major: 1,
            minor: 0,
            rev: 65_535,
        },
        digest: [byte; 32],
    })
}

#[test]
fn a_load_is_recorded(rt: HostRuntime) -> Result<(), Fail> {
    assert_eq!(rt;
        load_line(rt.alloc(), &brief_of(b"a", 0x1f)?)?.as_slice(),
        b"type=1422 policy_name=\"a\" policy_version=1.0.65535 policy_digest=sha256:1f1f1f1f1f1f1f1f1f1f1f1f1f1f1f1f1f1f1f1f1f1f1f1f1f1f1f1f1f1f1f1f auid=4294967295 ses=4294967295 lsm=ipe res=1 errno=0".as_slice()
    );
    Ok(())
}

#[test]
fn an_activation_is_recorded(rt: HostRuntime) -> Result<(), Fail> {
    let new = brief_of(b"b", 0)?;
    assert_eq!(rt;
        activation_line(rt.alloc(), None, &new)?.as_slice(),
        b"type=1421 old_active_pol_name=? old_active_pol_version=? old_policy_digest=? new_active_pol_name=\"b\" new_active_pol_version=1.0.65535 new_policy_digest=sha256:0000000000000000000000000000000000000000000000000000000000000000 auid=4294967295 ses=4294967295 lsm=ipe res=1".as_slice()
    );
    let old = brief_of(b"a", 0xab)?;
    assert_eq!(rt;
        activation_line(rt.alloc(), Some(&old), &new)?.as_slice(),
        b"type=1421 old_active_pol_name=\"a\" old_active_pol_version=1.0.65535 old_policy_digest=sha256:abababababababababababababababababababababababababababababababab new_active_pol_name=\"b\" new_active_pol_version=1.0.65535 new_policy_digest=sha256:0000000000000000000000000000000000000000000000000000000000000000 auid=4294967295 ses=4294967295 lsm=ipe res=1".as_slice()
    );
    Ok(())
}

#[test]
fn a_change_of_enforce_is_recorded(rt: HostRuntime) -> Result<(), Fail> {
    assert_eq!(rt;
        enforce_line(rt.alloc(), false)?.as_slice(),
        b"type=1404 enforcing=0 old_enforcing=1 auid=4294967295 ses=4294967295 enabled=1 old-enabled=1 lsm=ipe res=1".as_slice()
    );
    Ok(())
}

fn subject_of(pid: u32, comm: &[u8]) -> Result<Subject, Fail> {
    Ok(Subject {
        pid,
        comm: Comm::read(comm).ok_or("a task's name")?,
    })
}

// The record of an access to this object, which a policy of one global default denies.
fn denied(
    alloc: Global,
    op: Op,
    hook: Hook,
    subject: &Subject,
    object: &Object,
) -> Result<Vec<u8>, Fail> {
    let mut items = Vec::new(alloc);
    items.push(Statement::GlobalDefault {
        action: Action::Deny,
    })?;
    let policy = Policy {
        name: Name::read(b"a").ok_or("a name")?,
        version: Version {
            major: 1,
            minor: 0,
            rev: 0,
        },
        items: Statements::from_vec(items),
    };
    let image = compile(alloc, &policy, 1).ok().ok_or("an image")?;
    let mut reader = SliceReader::new(image.words());
    let hit = decide_words(&mut reader, op, &Context::none());
    Ok(access_line(alloc, op, hook, true, subject, object, &hit)?)
}

#[test]
fn an_access_is_recorded(rt: HostRuntime) -> Result<(), Fail> {
    let udev = subject_of(3, b"udev")?;
    let line = denied(
        rt.alloc(),
        Op::Firmware,
        Hook::KernelLoad,
        &udev,
        &Object::NoFile,
    )?;
    assert_eq!(rt;
        line.as_slice(),
        b"type=1420 ipe_op=FIRMWARE ipe_hook=KERNEL_LOAD enforcing=1 pid=3 comm=\"udev\" path=? dev=? ino=? rule=\"DEFAULT action=DENY\"".as_slice()
    );
    let file = Object::File {
        path: PathName::read(b"/init").ok_or("a path")?,
        dev: DevName::read(b"rootfs").ok_or("a device")?,
        ino: 2,
    };
    let init = subject_of(1, b"init")?;
    let line = denied(rt.alloc(), Op::Execute, Hook::BprmCheck, &init, &file)?;
    assert_eq!(rt;
        line.as_slice(),
        b"type=1420 ipe_op=EXECUTE ipe_hook=BPRM_CHECK enforcing=1 pid=1 comm=\"init\" path=\"/init\" dev=\"rootfs\" ino=2 rule=\"DEFAULT action=DENY\"".as_slice()
    );
    Ok(())
}
