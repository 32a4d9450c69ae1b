use blk_device::{ImageDevices, NamedBytes};
use ipe_objects::load_images;
use ipe_replay::*;
use ipe_requests::parse_requests;
use ipe_transcript::print_transcript;
use std::test::Fail;

/// Each kind of line of a phase, with the policy's own text as the file that is run.
const REQUESTS: &str = "ipe-requests 1
workers 1
text a 2
policy_name=a policy_version=1.0.0
DEFAULT action=DENY
file /init boot rootfs 2 a
mark policy trusted text a
mark file revoked hex 0707070707070707070707070707070707070707070707070707070707070707
phase
admin write new_policy text a
admin write policies/a/active echo 1
guest write enforce echo off
admin write policies/a/name echo b
admin read policies/a/version
admin read policies/b/name
admin write enforce hex 30
phase
w1 exec 7 sh /init
end
";

// The digest of the text was found by sha256sum.
const ANSWER: &str = "ipe-transcript 1
phase 1
line=10 admin code=0 epoch=0
type=1422 policy_name=\"a\" policy_version=1.0.0 policy_digest=sha256:a379bae772373d7f97146b18170544282ef65ddc391eba2093c6c425c9dd1669 auid=4294967295 ses=4294967295 lsm=ipe res=1 errno=0
line=11 admin code=0 epoch=1
type=1421 old_active_pol_name=? old_active_pol_version=? old_policy_digest=? new_active_pol_name=\"a\" new_active_pol_version=1.0.0 new_policy_digest=sha256:a379bae772373d7f97146b18170544282ef65ddc391eba2093c6c425c9dd1669 auid=4294967295 ses=4294967295 lsm=ipe res=1
line=12 guest code=-1 epoch=1
line=13 admin code=-22 epoch=1
line=14 admin code=0 epoch=1 bytes=312e302e30
line=15 admin code=-2 epoch=1
line=16 admin code=0 epoch=2
type=1404 enforcing=0 old_enforcing=1 auid=4294967295 ses=4294967295 enabled=1 old-enabled=1 lsm=ipe res=1
phase 2
line=18 w1 code=0 epoch=2 count=0 policy=1 by=global
type=1420 ipe_op=EXECUTE ipe_hook=BPRM_CHECK enforcing=0 pid=7 comm=\"sh\" path=\"/init\" dev=\"rootfs\" ino=2 rule=\"DEFAULT action=DENY\"
content sha256:a379bae772373d7f97146b18170544282ef65ddc391eba2093c6c425c9dd1669
end
";

#[test]
fn a_transcript_has_entries_records_and_contents(rt: HostRuntime) -> Result<(), Fail> {
    let alloc = rt.alloc();
    let requests = parse_requests(alloc, REQUESTS.as_bytes())?;
    let none = NamedBytes::from_vec(Vec::new(alloc));
    let mut devices = ImageDevices::new(&none);
    let images = load_images(alloc, &requests, &mut devices)
        .ok()
        .ok_or("images")?;
    let (transcript, closed) = replay(&rt, alloc, &requests, &images, &NoPace)?;
    assert_eq!(rt; (closed.epoch, closed.count), (2, 1));
    let text = print_transcript(alloc, &transcript)?;
    assert_eq!(rt; text.as_slice(), ANSWER.as_bytes());
    Ok(())
}

// Of the transcript's lines: seven of the administrator, of which 10, 11, 14 and 16 are answered with 0, and one hook.
#[test]
fn a_run_comes_to_numbers(rt: HostRuntime) -> Result<(), Fail> {
    let alloc = rt.alloc();
    let requests = parse_requests(alloc, REQUESTS.as_bytes())?;
    let none = NamedBytes::from_vec(Vec::new(alloc));
    let mut devices = ImageDevices::new(&none);
    let images = load_images(alloc, &requests, &mut devices)
        .ok()
        .ok_or("images")?;
    let (mut summary, closed) = summarize(&rt, alloc, &requests, &images, &NoPace)?;
    assert_eq!(rt; (closed.epoch, closed.count), (2, 1));
    let line =
        b"hooks=1 placed=1 commands=7 ok=4 epoch=2 active=a version=1.0.0 enforce=0 success_audit=0\n";
    assert_eq!(rt; summary_line(alloc, &summary)?.as_slice(), line.as_slice());
    summary.active = None;
    summary.success_audit = true;
    let line =
        b"hooks=1 placed=1 commands=7 ok=4 epoch=2 active=? version=? enforce=0 success_audit=1\n";
    assert_eq!(rt; summary_line(alloc, &summary)?.as_slice(), line.as_slice());
    Ok(())
}
