use super::tests::{answered, called, served};
use blk_device::{ImageDevices, NamedBytes};
use ipe_program::{Closed, NoPace};
use ipe_words::{MemorySink, MemorySource};
use std::alloc::{AllocError, Global};
use std::sync::Wait;
use std::test::Fail;
use std::thread::Threads;

/// One policy that lets the initial root file system run, and a file of it that is run.
pub const FIRST_CHECK: &str = "ipe-requests 1
workers 1
text a 3
policy_name=a policy_version=1.0.0
DEFAULT action=DENY
op=EXECUTE boot_verified=TRUE action=ALLOW
text init 1
hello
file /init boot rootfs 2 init
mark policy trusted text a
phase
admin write new_policy text a
admin write policies/a/active echo 1
phase
w1 exec 1 init /init
end
";

pub const FIRST_CHECK_ANSWER: &str = "ipe-transcript 1
phase 1
line=12 admin code=0 epoch=0
type=1422 policy_name=\"a\" policy_version=1.0.0 policy_digest=sha256:a12fb4d91e8e66793020762fce63ca775103cd329a72d6a4734d290181673120 auid=4294967295 ses=4294967295 lsm=ipe res=1 errno=0
line=13 admin code=0 epoch=1
type=1421 old_active_pol_name=? old_active_pol_version=? old_policy_digest=? new_active_pol_name=\"a\" new_active_pol_version=1.0.0 new_policy_digest=sha256:a12fb4d91e8e66793020762fce63ca775103cd329a72d6a4734d290181673120 auid=4294967295 ses=4294967295 lsm=ipe res=1
phase 2
line=15 w1 code=0 epoch=1 count=0 policy=1 by=rule:1
content sha256:5891b5b522d5df086d0ff0b110fbd9d21bb4fc7163af34d08286a2e846f6be03
end
";

/// The same without the mark.
const UNMARKED: &str = "ipe-requests 1
workers 1
text a 3
policy_name=a policy_version=1.0.0
DEFAULT action=DENY
op=EXECUTE boot_verified=TRUE action=ALLOW
text init 1
hello
file /init boot rootfs 2 init
phase
admin write new_policy text a
admin write policies/a/active echo 1
phase
w1 exec 1 init /init
end
";

const UNMARKED_ANSWER: &str = "ipe-transcript 1
phase 1
line=11 admin code=-126 epoch=0
line=12 admin code=-2 epoch=0
phase 2
line=14 w1 code=0 epoch=0 count=0 policy=- by=-
content sha256:5891b5b522d5df086d0ff0b110fbd9d21bb4fc7163af34d08286a2e846f6be03
end
";

/// The policy has a further rule that would deny what its first rule allows.
const FIRST_MATCH: &str = "ipe-requests 1
workers 1
text a 4
policy_name=a policy_version=1.0.0
DEFAULT action=DENY
op=EXECUTE boot_verified=TRUE action=ALLOW
op=EXECUTE boot_verified=TRUE action=DENY
text init 1
hello
file /init boot rootfs 2 init
mark policy trusted text a
phase
admin write new_policy text a
admin write policies/a/active echo 1
phase
w1 exec 1 init /init
end
";

const FIRST_MATCH_ANSWER: &str = "ipe-transcript 1
phase 1
line=13 admin code=0 epoch=0
type=1422 policy_name=\"a\" policy_version=1.0.0 policy_digest=sha256:cf56b5b30096777c0929a9a059503da440428821ab80ae821d704a91fa2ca464 auid=4294967295 ses=4294967295 lsm=ipe res=1 errno=0
line=14 admin code=0 epoch=1
type=1421 old_active_pol_name=? old_active_pol_version=? old_policy_digest=? new_active_pol_name=\"a\" new_active_pol_version=1.0.0 new_policy_digest=sha256:cf56b5b30096777c0929a9a059503da440428821ab80ae821d704a91fa2ca464 auid=4294967295 ses=4294967295 lsm=ipe res=1
phase 2
line=16 w1 code=0 epoch=1 count=0 policy=1 by=rule:1
content sha256:5891b5b522d5df086d0ff0b110fbd9d21bb4fc7163af34d08286a2e846f6be03
end
";

/// The status and what was written, where the calls of these numbers fail.
fn replayed<R: Threads + Wait + Sync>(
    rt: &R,
    alloc: Global,
    input: &[u8],
    failing_reads: &[u32],
    failing_writes: &[u32],
) -> Result<(u8, Vec<u8>), AllocError> {
    let mut source = MemorySource::new(input.to_vec(alloc)?, 100, failing_reads.to_vec(alloc)?);
    let mut sink = MemorySink::new(alloc, 16, 4096, failing_writes.to_vec(alloc)?)?;
    let items = NamedBytes::from_vec(Vec::new(alloc));
    let mut devices = ImageDevices::new(&items);
    let status = served(rt, alloc, &["replay"], &mut source, &mut sink, &mut devices)?;
    Ok((status, sink.written().to_vec(alloc)?))
}

#[test]
fn inputs_have_their_answers(rt: HostRuntime) -> Result<(), Fail> {
    let without_phases = "ipe-requests 1\nworkers 30\nend\n";
    let too_many_workers = "ipe-requests 1\nworkers 31\nend\n";
    let cut_short = "ipe-requests 1\nworkers 1\n";
    let unknown = "ipe-requests 1\nworkers 1\nmark policy trusted text a\nend\n";
    for (input, status, answer) in [
        (FIRST_CHECK, 0, FIRST_CHECK_ANSWER),
        (UNMARKED, 0, UNMARKED_ANSWER),
        (FIRST_MATCH, 0, FIRST_MATCH_ANSWER),
        (without_phases, 0, "ipe-transcript 1\nend\n"),
        (too_many_workers, 3, "refused line 2: Number\n"),
        (cut_short, 3, "refused line 3: Unended\n"),
        (unknown, 3, "refused line 3: Unknown\n"),
        ("", 3, "refused line 1: Unended\n"),
    ] {
        let (found, written) = replayed(&rt, rt.alloc(), input.as_bytes(), &[], &[])?;
        assert_eq!(rt; found, status, "{input}");
        assert_eq!(rt; written.as_slice(), answer.as_bytes(), "{input}");
    }
    Ok(())
}

#[test]
fn an_input_above_the_limit_is_too_long(rt: HostRuntime) -> Result<(), Fail> {
    let alloc = rt.alloc();
    let input = vec![in alloc; b'\n'; 16_777_217]?;
    let mut source = MemorySource::new(input, 1 << 20, Vec::new(alloc));
    let mut sink = MemorySink::new(alloc, 4096, 4096, Vec::new(alloc))?;
    let items = NamedBytes::from_vec(Vec::new(alloc));
    let mut devices = ImageDevices::new(&items);
    let status = served(
        &rt,
        alloc,
        &["replay"],
        &mut source,
        &mut sink,
        &mut devices,
    )?;
    assert_eq!(rt; status, 3);
    assert_eq!(rt; sink.written(), b"refused: too long\n".as_slice());
    Ok(())
}

#[test]
fn faults_are_told(rt: HostRuntime) -> Result<(), Fail> {
    let (status, written) = replayed(&rt, rt.alloc(), FIRST_CHECK.as_bytes(), &[1], &[])?;
    assert_eq!(rt; status, 4);
    assert_eq!(rt; written.len(), 0);
    // The two calls before the one that fails have taken 16 bytes each.
    let (status, written) = replayed(&rt, rt.alloc(), FIRST_CHECK.as_bytes(), &[], &[3])?;
    assert_eq!(rt; status, 5);
    assert_eq!(rt;
        written.as_slice(),
        b"ipe-transcript 1\nphase 1\nline=12".as_slice()
    );
    Ok(())
}

/// The gate that is handed out, where the writes of these numbers fail.
fn gate_after<R: Threads + Wait + Sync>(
    rt: &R,
    alloc: Global,
    input: &str,
    failing_writes: &[u32],
) -> Result<Option<Closed>, AllocError> {
    let mut source = MemorySource::new(input.as_bytes().to_vec(alloc)?, 100, Vec::new(alloc));
    let mut sink = MemorySink::new(alloc, 16, 4096, failing_writes.to_vec(alloc)?)?;
    let items = NamedBytes::from_vec(Vec::new(alloc));
    let mut devices = ImageDevices::new(&items);
    let mut closed = None;
    called(
        rt,
        alloc,
        &["replay"],
        &mut source,
        &mut sink,
        &mut devices,
        &NoPace,
        &mut closed,
    )?;
    Ok(closed)
}

/// One policy is made active, and one claim is made after it.
#[test]
fn a_gate_is_handed_out_once_all_is_written(rt: HostRuntime) -> Result<(), Fail> {
    let gate = gate_after(&rt, rt.alloc(), FIRST_CHECK, &[])?.ok_or("no gate")?;
    assert_eq!(rt; gate.epoch, 1);
    assert_eq!(rt; gate.count, 1);
    let none = gate_after(&rt, rt.alloc(), FIRST_CHECK, &[3])?;
    assert!(rt; none.is_none());
    let none = gate_after(&rt, rt.alloc(), "", &[])?;
    assert!(rt; none.is_none());
    Ok(())
}

#[test]
fn other_words_are_refused(rt: HostRuntime) -> Result<(), Fail> {
    let (none, written) = answered(&rt, rt.alloc(), &[], b"")?;
    assert_eq!(rt; none, 2);
    assert_eq!(rt; written.len(), 0);
    let (other, written) = answered(&rt, rt.alloc(), &["repeat"], b"")?;
    assert_eq!(rt; other, 2);
    assert_eq!(rt; written.len(), 0);
    let (twice, written) = answered(&rt, rt.alloc(), &["replay", "replay"], b"")?;
    assert_eq!(rt; twice, 2);
    assert_eq!(rt; written.len(), 0);
    Ok(())
}

/// What stands before the hook line of a request file whose policy has this rule after its default.
fn with_rule(alloc: Global, rule: &str, hook: &str) -> Result<String, AllocError> {
    let head = format!(in alloc;
        "ipe-requests 1\nworkers 1\ntext a 3\npolicy_name=a policy_version=1.0.0\nDEFAULT action=DENY\n{rule}\ntext init 1\nhello\n"
    )?;
    let mut text = head;
    text.push_str("file /init boot rootfs 2 init\nmark policy trusted text a\nphase\n")?;
    text.push_str("admin write new_policy text a\nadmin write policies/a/active echo 1\nphase\n")?;
    text.push_str(hook)?;
    text.push_str("\nend\n")?;
    Ok(text)
}

/// The end of such a file's transcript, with this answer to its hook.
fn with_answer(alloc: Global, answer: &str) -> Result<String, AllocError> {
    format!(in alloc; "phase 2\nline=15 w1 {answer}\nend\n")
}

const BOOT_RULE: &str = "op=EXECUTE boot_verified=TRUE action=ALLOW";

const ALLOWED: &str = "code=0 epoch=1 count=0 policy=1 by=rule:1";

const READ: &str = "code=0 epoch=1 count=0 policy=1 by=rule:1
content sha256:5891b5b522d5df086d0ff0b110fbd9d21bb4fc7163af34d08286a2e846f6be03";

const DENIED_MPROTECT: &str = "code=-13 epoch=1 count=0 policy=1 by=global
type=1420 ipe_op=EXECUTE ipe_hook=MPROTECT enforcing=1 pid=5 comm=\"ld\" path=? dev=? ino=? rule=\"DEFAULT action=DENY\"";

const DENIED_FIRMWARE_READ: &str = "code=-13 epoch=1 count=0 policy=1 by=global
type=1420 ipe_op=FIRMWARE ipe_hook=KERNEL_READ enforcing=1 pid=3 comm=\"udev\" path=\"/init\" dev=\"rootfs\" ino=2 rule=\"DEFAULT action=DENY\"";

const DENIED_MODULE_LOAD: &str = "code=-13 epoch=1 count=0 policy=1 by=global
type=1420 ipe_op=KMODULE ipe_hook=KERNEL_LOAD enforcing=1 pid=3 comm=\"udev\" path=? dev=? ino=? rule=\"DEFAULT action=DENY\"";

const DENIED_FIRMWARE_LOAD: &str = "code=-13 epoch=1 count=0 policy=1 by=global
type=1420 ipe_op=FIRMWARE ipe_hook=KERNEL_LOAD enforcing=1 pid=3 comm=\"udev\" path=? dev=? ino=? rule=\"DEFAULT action=DENY\"";

const NOT_EVALUATED: &str = "code=0 epoch=- count=- policy=- by=-";

#[test]
fn each_hook_is_answered(rt: HostRuntime) -> Result<(), Fail> {
    let without =
        "op=FIRMWARE boot_verified=FALSE dmverity_signature=FALSE fsverity_signature=FALSE action=ALLOW";
    let of_a_root =
        "op=FIRMWARE dmverity_roothash=sha256:076a27c79e5ace2a3d47f9dd2e83e4ff6ea8872b3c2218f66c92b89b55f36560 action=ALLOW";
    for (rule, hook, answer) in [
        (BOOT_RULE, "w1 mprotect 5 ld 1 4 /init", NOT_EVALUATED),
        (BOOT_RULE, "w1 mmap 5 ld 1 /init", NOT_EVALUATED),
        (BOOT_RULE, "w1 mprotect 5 ld 0 4 -", DENIED_MPROTECT),
        (BOOT_RULE, "w1 mprotect 5 ld 0 4 /init", ALLOWED),
        (
            BOOT_RULE,
            "w1 read 3 udev firmware /init",
            DENIED_FIRMWARE_READ,
        ),
        (without, "w1 load 3 udev firmware", ALLOWED),
        (without, "w1 load 3 udev module", DENIED_MODULE_LOAD),
        (
            without,
            "w1 read 3 udev firmware /init",
            DENIED_FIRMWARE_READ,
        ),
        (of_a_root, "w1 load 3 udev firmware", DENIED_FIRMWARE_LOAD),
    ] {
        let input = with_rule(rt.alloc(), rule, hook)?;
        let (status, written) = answered(&rt, rt.alloc(), &["replay"], input.as_bytes())?;
        assert_eq!(rt; status, 0, "{hook}");
        let expected = with_answer(rt.alloc(), answer)?;
        assert!(rt; written.as_slice().ends_with(expected.as_bytes()), "{hook}");
    }
    Ok(())
}

#[test]
fn each_kind_has_its_operation(rt: HostRuntime) -> Result<(), Fail> {
    for (kind, operation) in [
        ("firmware", "FIRMWARE"),
        ("module", "KMODULE"),
        ("kexec-image", "KEXEC_IMAGE"),
        ("kexec-initramfs", "KEXEC_INITRAMFS"),
        ("policy", "POLICY"),
        ("x509", "X509_CERT"),
    ] {
        let rule = format!(in rt.alloc(); "op={operation} action=ALLOW")?;
        let hook = format!(in rt.alloc(); "w1 read 3 udev {kind} /init")?;
        let input = with_rule(rt.alloc(), rule.as_str(), hook.as_str())?;
        let (status, written) = answered(&rt, rt.alloc(), &["replay"], input.as_bytes())?;
        assert_eq!(rt; status, 0, "{kind}");
        let expected = with_answer(rt.alloc(), READ)?;
        assert!(rt; written.as_slice().ends_with(expected.as_bytes()), "{kind}");
    }
    Ok(())
}

/// Of the protection bits only the one of value 4 makes a mapping executable.
#[test]
fn the_bit_of_value_4_is_evaluated(rt: HostRuntime) -> Result<(), Fail> {
    for (prot, answer) in [
        ("0", NOT_EVALUATED),
        ("1", NOT_EVALUATED),
        ("2", NOT_EVALUATED),
        ("3", NOT_EVALUATED),
        ("4", ALLOWED),
        ("5", ALLOWED),
        ("6", ALLOWED),
        ("7", ALLOWED),
        ("8", NOT_EVALUATED),
        ("4294967291", NOT_EVALUATED),
        ("4294967295", ALLOWED),
    ] {
        let expected = with_answer(rt.alloc(), answer)?;
        for hook in ["mmap 5 ld", "mprotect 5 ld 0"] {
            let hook = format!(in rt.alloc(); "w1 {hook} {prot} /init")?;
            let input = with_rule(rt.alloc(), BOOT_RULE, hook.as_str())?;
            let (status, written) = answered(&rt, rt.alloc(), &["replay"], input.as_bytes())?;
            assert_eq!(rt; status, 0, "{hook}");
            assert!(rt; written.as_slice().ends_with(expected.as_bytes()), "{hook}");
        }
    }
    Ok(())
}
