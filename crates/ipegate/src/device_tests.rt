use super::tests::served;
use blk_device::{ImageDevices, MemoryDevices, NamedBytes};
use ipe_words::{Bytes, MemorySink, MemorySource};
use std::alloc::{AllocError, Global};
use std::sync::Wait;
use std::test::Fail;
use std::thread::Threads;

/// Four workers run a file of the volume and one of the initial root file system, and load a module from the volume, each in
/// a phase of its own: two before the policy is replaced by one that denies their volume's root, and two after it.
pub const REVOKED_ROOT: &str = "ipe-requests 1
workers 4
text m1 9
policy_name=prod policy_version=2.1.0
DEFAULT action=DENY
# revoked roots
op=EXECUTE dmverity_roothash=sha256:aaaaaaaaaaaaaaaaaaaaaaaaaaaaaaaaaaaaaaaaaaaaaaaaaaaaaaaaaaaaaaaa action=DENY
op=EXECUTE dmverity_roothash=sha256:bbbbbbbbbbbbbbbbbbbbbbbbbbbbbbbbbbbbbbbbbbbbbbbbbbbbbbbbbbbbbbbb action=DENY
op=EXECUTE boot_verified=TRUE action=ALLOW
op=EXECUTE dmverity_signature=TRUE action=ALLOW
op=KMODULE boot_verified=TRUE action=ALLOW
op=KMODULE dmverity_signature=TRUE action=ALLOW
text m2 10
policy_name=prod policy_version=2.1.1
DEFAULT action=DENY
# revoked roots
op=EXECUTE dmverity_roothash=sha256:076a27c79e5ace2a3d47f9dd2e83e4ff6ea8872b3c2218f66c92b89b55f36560 action=DENY
op=EXECUTE dmverity_roothash=sha256:aaaaaaaaaaaaaaaaaaaaaaaaaaaaaaaaaaaaaaaaaaaaaaaaaaaaaaaaaaaaaaaa action=DENY
op=EXECUTE dmverity_roothash=sha256:bbbbbbbbbbbbbbbbbbbbbbbbbbbbbbbbbbbbbbbbbbbbbbbbbbbbbbbbbbbbbbbb action=DENY
op=EXECUTE boot_verified=TRUE action=ALLOW
op=EXECUTE dmverity_signature=TRUE action=ALLOW
op=KMODULE boot_verified=TRUE action=ALLOW
op=KMODULE dmverity_signature=TRUE action=ALLOW
text init 1
hello
volume app 1 z.img z.img 512 512 1 0 sha256 076a27c79e5ace2a3d47f9dd2e83e4ff6ea8872b3c2218f66c92b89b55f36560 - 2 root_hash_sig_key_desc app-key
file /init boot rootfs 2 init
file /app/tool volume app 0 512 12
mark policy trusted text m1
mark policy trusted text m2
mark root trusted hex 076a27c79e5ace2a3d47f9dd2e83e4ff6ea8872b3c2218f66c92b89b55f36560
phase
admin write new_policy text m1
admin write policies/prod/active echo 1
phase
w1 exec 1 tool /app/tool
w1 exec 1 init /init
w1 read 1 modprobe module /app/tool
phase
w2 exec 2 tool /app/tool
w2 exec 2 init /init
w2 read 2 modprobe module /app/tool
phase
admin write policies/prod/update text m2
phase
w3 exec 3 tool /app/tool
w3 exec 3 init /init
w3 read 3 modprobe module /app/tool
phase
w4 exec 4 tool /app/tool
w4 exec 4 init /init
w4 read 4 modprobe module /app/tool
end
";

const REVOKED_ROOT_ANSWER: &str = "ipe-transcript 1
phase 1
line=33 admin code=0 epoch=0
type=1422 policy_name=\"prod\" policy_version=2.1.0 policy_digest=sha256:be7369f691157211f9565079c93406c8a3a9ecb4202b0b3356c0db153bb79124 auid=4294967295 ses=4294967295 lsm=ipe res=1 errno=0
line=34 admin code=0 epoch=1
type=1421 old_active_pol_name=? old_active_pol_version=? old_policy_digest=? new_active_pol_name=\"prod\" new_active_pol_version=2.1.0 new_policy_digest=sha256:be7369f691157211f9565079c93406c8a3a9ecb4202b0b3356c0db153bb79124 auid=4294967295 ses=4294967295 lsm=ipe res=1
phase 2
line=36 w1 code=0 epoch=1 count=0 policy=1 by=rule:4
content sha256:076a27c79e5ace2a3d47f9dd2e83e4ff6ea8872b3c2218f66c92b89b55f36560
line=37 w1 code=0 epoch=1 count=1 policy=1 by=rule:3
content sha256:5891b5b522d5df086d0ff0b110fbd9d21bb4fc7163af34d08286a2e846f6be03
line=38 w1 code=0 epoch=1 count=2 policy=1 by=rule:6
content sha256:076a27c79e5ace2a3d47f9dd2e83e4ff6ea8872b3c2218f66c92b89b55f36560
phase 3
line=40 w2 code=0 epoch=1 count=3 policy=1 by=rule:4
content sha256:076a27c79e5ace2a3d47f9dd2e83e4ff6ea8872b3c2218f66c92b89b55f36560
line=41 w2 code=0 epoch=1 count=4 policy=1 by=rule:3
content sha256:5891b5b522d5df086d0ff0b110fbd9d21bb4fc7163af34d08286a2e846f6be03
line=42 w2 code=0 epoch=1 count=5 policy=1 by=rule:6
content sha256:076a27c79e5ace2a3d47f9dd2e83e4ff6ea8872b3c2218f66c92b89b55f36560
phase 4
line=44 admin code=0 epoch=2
type=1422 policy_name=\"prod\" policy_version=2.1.1 policy_digest=sha256:a7da9fe2f9d265980af01cf42e70f5551e6ec789358d6411b7176ecdab47ff8b auid=4294967295 ses=4294967295 lsm=ipe res=1 errno=0
type=1421 old_active_pol_name=\"prod\" old_active_pol_version=2.1.0 old_policy_digest=sha256:be7369f691157211f9565079c93406c8a3a9ecb4202b0b3356c0db153bb79124 new_active_pol_name=\"prod\" new_active_pol_version=2.1.1 new_policy_digest=sha256:a7da9fe2f9d265980af01cf42e70f5551e6ec789358d6411b7176ecdab47ff8b auid=4294967295 ses=4294967295 lsm=ipe res=1
phase 5
line=46 w3 code=-13 epoch=2 count=0 policy=2 by=rule:1
type=1420 ipe_op=EXECUTE ipe_hook=BPRM_CHECK enforcing=1 pid=3 comm=\"tool\" path=\"/app/tool\" dev=\"app\" ino=12 rule=\"op=EXECUTE dmverity_roothash=sha256:076a27c79e5ace2a3d47f9dd2e83e4ff6ea8872b3c2218f66c92b89b55f36560 action=DENY\"
line=47 w3 code=0 epoch=2 count=1 policy=2 by=rule:4
content sha256:5891b5b522d5df086d0ff0b110fbd9d21bb4fc7163af34d08286a2e846f6be03
line=48 w3 code=0 epoch=2 count=2 policy=2 by=rule:7
content sha256:076a27c79e5ace2a3d47f9dd2e83e4ff6ea8872b3c2218f66c92b89b55f36560
phase 6
line=50 w4 code=-13 epoch=2 count=3 policy=2 by=rule:1
type=1420 ipe_op=EXECUTE ipe_hook=BPRM_CHECK enforcing=1 pid=4 comm=\"tool\" path=\"/app/tool\" dev=\"app\" ino=12 rule=\"op=EXECUTE dmverity_roothash=sha256:076a27c79e5ace2a3d47f9dd2e83e4ff6ea8872b3c2218f66c92b89b55f36560 action=DENY\"
line=51 w4 code=0 epoch=2 count=4 policy=2 by=rule:4
content sha256:5891b5b522d5df086d0ff0b110fbd9d21bb4fc7163af34d08286a2e846f6be03
line=52 w4 code=0 epoch=2 count=5 policy=2 by=rule:7
content sha256:076a27c79e5ace2a3d47f9dd2e83e4ff6ea8872b3c2218f66c92b89b55f36560
end
";

/// The device z.img with these bytes.
pub fn device(alloc: Global, bytes: Vec<u8>) -> Result<NamedBytes, AllocError> {
    let name = Bytes::from_vec(b"z.img".to_vec(alloc)?);
    let mut items = Vec::new(alloc);
    items.push((name, Bytes::from_vec(bytes)))?;
    Ok(NamedBytes::from_vec(items))
}

/// The status and what was written, over these devices.
fn replayed<R: Threads + Wait + Sync>(
    rt: &R,
    alloc: Global,
    input: &str,
    items: &NamedBytes,
) -> Result<(u8, Vec<u8>), AllocError> {
    let mut source = MemorySource::new(input.as_bytes().to_vec(alloc)?, 100, Vec::new(alloc));
    let mut sink = MemorySink::new(alloc, 100, 65_536, Vec::new(alloc))?;
    let mut devices = ImageDevices::new(items);
    let status = served(rt, alloc, &["replay"], &mut source, &mut sink, &mut devices)?;
    Ok((status, sink.written().to_vec(alloc)?))
}

#[test]
fn a_root_is_revoked_between_workers(rt: HostRuntime) -> Result<(), Fail> {
    let alloc = rt.alloc();
    let items = device(alloc, vec![in alloc; 0; 512]?)?;
    let (status, written) = replayed(&rt, alloc, REVOKED_ROOT, &items)?;
    assert_eq!(rt; status, 0);
    assert_eq!(rt; written.as_slice(), REVOKED_ROOT_ANSWER.as_bytes());
    Ok(())
}

#[test]
fn devices_are_refused(rt: HostRuntime) -> Result<(), Fail> {
    let alloc = rt.alloc();
    let none = NamedBytes::from_vec(Vec::new(alloc));
    let (status, written) = replayed(&rt, alloc, REVOKED_ROOT, &none)?;
    assert_eq!(rt; status, 3);
    assert_eq!(rt;
        written.as_slice(),
        b"refused: device z.img: missing\n".as_slice()
    );
    for (size, answer) in [
        (511, "refused: device z.img: too small\n"),
        (16_777_217, "refused: device z.img: too large\n"),
    ] {
        let items = device(alloc, vec![in alloc; 0; size]?)?;
        let (status, written) = replayed(&rt, alloc, REVOKED_ROOT, &items)?;
        assert_eq!(rt; status, 3, "{size}");
        assert_eq!(rt; written.as_slice(), answer.as_bytes(), "{size}");
    }
    Ok(())
}

/// The first byte of the block is another: the root is the hash of other data.
#[test]
fn a_corrupt_block_is_named(rt: HostRuntime) -> Result<(), Fail> {
    let alloc = rt.alloc();
    let mut bytes = vec![in alloc; 0; 512]?;
    bytes[0] = 1;
    let items = device(alloc, bytes)?;
    let (status, written) = replayed(&rt, alloc, REVOKED_ROOT, &items)?;
    assert_eq!(rt; status, 0);
    let corrupt =
        "\nline=36 w1 code=0 epoch=1 count=0 policy=1 by=rule:4\ncontent corrupt volume level=0 block=0\n";
    assert!(rt; contains(written.as_slice(), corrupt.as_bytes()));
    Ok(())
}

/// Whether the bytes have the part.
fn contains(bytes: &[u8], part: &[u8]) -> bool {
    part.is_empty() || bytes.windows(part.len()).any(|window| window == part)
}

#[test]
fn a_device_that_fails_is_told(rt: HostRuntime) -> Result<(), Fail> {
    let alloc = rt.alloc();
    let input = REVOKED_ROOT.as_bytes().to_vec(alloc)?;
    let mut source = MemorySource::new(input, 100, Vec::new(alloc));
    let mut sink = MemorySink::new(alloc, 100, 65_536, Vec::new(alloc))?;
    let mut devices = MemoryDevices::new(
        device(alloc, vec![in alloc; 0; 512]?)?,
        [1].to_vec(alloc)?,
    );
    let status = served(
        &rt,
        alloc,
        &["replay"],
        &mut source,
        &mut sink,
        &mut devices,
    )?;
    assert_eq!(rt; status, 6);
    assert_eq!(rt; sink.written().len(), 0);
    Ok(())
}
