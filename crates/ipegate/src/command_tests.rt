use super::tests::answered;
use std::test::Fail;

/// An equal version replaces a policy of another name, a lower one does not.
const VERSIONS: &str = "ipe-requests 1
workers 1
text x 2
policy_name=x policy_version=2.0.0
DEFAULT action=DENY
text y 2
policy_name=y policy_version=1.9.9
DEFAULT action=DENY
text z 2
policy_name=y policy_version=2.0.0
DEFAULT action=DENY
text init 1
hello
file /init boot rootfs 2 init
mark policy trusted text x
mark policy trusted text y
mark policy trusted text z
phase
admin write new_policy text x
admin write new_policy text y
admin write policies/x/active echo 1
admin write policies/y/active echo 1
admin write policies/y/update text z
admin write policies/y/active echo 1
admin write policies/x/active echo 1
admin write policies/x/active echo 1
end
";

const VERSIONS_ANSWER: &str = "ipe-transcript 1
phase 1
line=19 admin code=0 epoch=0
type=1422 policy_name=\"x\" policy_version=2.0.0 policy_digest=sha256:4540d2a2d3ad72b15760ec4e5b865c65162f0377695341c761741dbbf4377f9a auid=4294967295 ses=4294967295 lsm=ipe res=1 errno=0
line=20 admin code=0 epoch=0
type=1422 policy_name=\"y\" policy_version=1.9.9 policy_digest=sha256:b1d7acd57361cfe823da240c2fdad9fb3e49c0b08af7c64502824ad67edeac57 auid=4294967295 ses=4294967295 lsm=ipe res=1 errno=0
line=21 admin code=0 epoch=1
type=1421 old_active_pol_name=? old_active_pol_version=? old_policy_digest=? new_active_pol_name=\"x\" new_active_pol_version=2.0.0 new_policy_digest=sha256:4540d2a2d3ad72b15760ec4e5b865c65162f0377695341c761741dbbf4377f9a auid=4294967295 ses=4294967295 lsm=ipe res=1
line=22 admin code=-116 epoch=1
line=23 admin code=0 epoch=1
type=1422 policy_name=\"y\" policy_version=2.0.0 policy_digest=sha256:5cda7211eb5de295c9c418eaad33704a5f1727176f39897098b794887c0e723e auid=4294967295 ses=4294967295 lsm=ipe res=1 errno=0
line=24 admin code=0 epoch=2
type=1421 old_active_pol_name=\"x\" old_active_pol_version=2.0.0 old_policy_digest=sha256:4540d2a2d3ad72b15760ec4e5b865c65162f0377695341c761741dbbf4377f9a new_active_pol_name=\"y\" new_active_pol_version=2.0.0 new_policy_digest=sha256:5cda7211eb5de295c9c418eaad33704a5f1727176f39897098b794887c0e723e auid=4294967295 ses=4294967295 lsm=ipe res=1
line=25 admin code=0 epoch=3
type=1421 old_active_pol_name=\"y\" old_active_pol_version=2.0.0 old_policy_digest=sha256:5cda7211eb5de295c9c418eaad33704a5f1727176f39897098b794887c0e723e new_active_pol_name=\"x\" new_active_pol_version=2.0.0 new_policy_digest=sha256:4540d2a2d3ad72b15760ec4e5b865c65162f0377695341c761741dbbf4377f9a auid=4294967295 ses=4294967295 lsm=ipe res=1
line=26 admin code=0 epoch=3
end
";

/// An update of the active policy rules at once.
const UPDATES: &str = "ipe-requests 1
workers 1
text a 3
policy_name=a policy_version=1.0.0
DEFAULT action=DENY
op=EXECUTE boot_verified=TRUE action=ALLOW
text b 2
policy_name=a policy_version=1.0.0
DEFAULT action=ALLOW
text c 2
policy_name=a policy_version=0.9.9
DEFAULT action=DENY
text d 2
policy_name=b policy_version=1.0.0
DEFAULT action=DENY
text init 1
hello
file /init boot rootfs 2 init
mark policy trusted text a
mark policy trusted text b
mark policy trusted text c
mark policy trusted text d
phase
admin write new_policy text a
admin write policies/a/active echo 1
phase
admin write policies/a/update text b
admin write policies/a/update text c
admin write policies/a/update text d
phase
w1 exec 1 init /init
end
";

const UPDATES_ANSWER: &str = "ipe-transcript 1
phase 1
line=24 admin code=0 epoch=0
type=1422 policy_name=\"a\" policy_version=1.0.0 policy_digest=sha256:a12fb4d91e8e66793020762fce63ca775103cd329a72d6a4734d290181673120 auid=4294967295 ses=4294967295 lsm=ipe res=1 errno=0
line=25 admin code=0 epoch=1
type=1421 old_active_pol_name=? old_active_pol_version=? old_policy_digest=? new_active_pol_name=\"a\" new_active_pol_version=1.0.0 new_policy_digest=sha256:a12fb4d91e8e66793020762fce63ca775103cd329a72d6a4734d290181673120 auid=4294967295 ses=4294967295 lsm=ipe res=1
phase 2
line=27 admin code=0 epoch=2
type=1422 policy_name=\"a\" policy_version=1.0.0 policy_digest=sha256:101c4a7be158480cd54b52e4f18ca0bf5baf76e21c20f416b61bd481edbb168c auid=4294967295 ses=4294967295 lsm=ipe res=1 errno=0
type=1421 old_active_pol_name=\"a\" old_active_pol_version=1.0.0 old_policy_digest=sha256:a12fb4d91e8e66793020762fce63ca775103cd329a72d6a4734d290181673120 new_active_pol_name=\"a\" new_active_pol_version=1.0.0 new_policy_digest=sha256:101c4a7be158480cd54b52e4f18ca0bf5baf76e21c20f416b61bd481edbb168c auid=4294967295 ses=4294967295 lsm=ipe res=1
line=28 admin code=-116 epoch=2
line=29 admin code=-22 epoch=2
phase 3
line=31 w1 code=0 epoch=2 count=0 policy=2 by=global
content sha256:5891b5b522d5df086d0ff0b110fbd9d21bb4fc7163af34d08286a2e846f6be03
end
";

/// The active policy stays.
const DELETIONS: &str = "ipe-requests 1
workers 1
text a 3
policy_name=a policy_version=1.0.0
DEFAULT action=DENY
op=EXECUTE boot_verified=TRUE action=ALLOW
text y 2
policy_name=y policy_version=2.0.0
DEFAULT action=DENY
text init 1
hello
file /init boot rootfs 2 init
mark policy trusted text a
mark policy trusted text y
phase
admin write new_policy text a
admin write policies/a/active echo 1
admin write policies/a/delete echo 1
admin write new_policy text y
admin write policies/y/active echo 1
admin write policies/a/delete echo 1
admin write policies/a/delete echo 1
admin write policies/y/delete echo 0
end
";

const DELETIONS_ANSWER: &str = "ipe-transcript 1
phase 1
line=16 admin code=0 epoch=0
type=1422 policy_name=\"a\" policy_version=1.0.0 policy_digest=sha256:a12fb4d91e8e66793020762fce63ca775103cd329a72d6a4734d290181673120 auid=4294967295 ses=4294967295 lsm=ipe res=1 errno=0
line=17 admin code=0 epoch=1
type=1421 old_active_pol_name=? old_active_pol_version=? old_policy_digest=? new_active_pol_name=\"a\" new_active_pol_version=1.0.0 new_policy_digest=sha256:a12fb4d91e8e66793020762fce63ca775103cd329a72d6a4734d290181673120 auid=4294967295 ses=4294967295 lsm=ipe res=1
line=18 admin code=-1 epoch=1
line=19 admin code=0 epoch=1
type=1422 policy_name=\"y\" policy_version=2.0.0 policy_digest=sha256:5cda7211eb5de295c9c418eaad33704a5f1727176f39897098b794887c0e723e auid=4294967295 ses=4294967295 lsm=ipe res=1 errno=0
line=20 admin code=0 epoch=2
type=1421 old_active_pol_name=\"a\" old_active_pol_version=1.0.0 old_policy_digest=sha256:a12fb4d91e8e66793020762fce63ca775103cd329a72d6a4734d290181673120 new_active_pol_name=\"y\" new_active_pol_version=2.0.0 new_policy_digest=sha256:5cda7211eb5de295c9c418eaad33704a5f1727176f39897098b794887c0e723e auid=4294967295 ses=4294967295 lsm=ipe res=1
line=21 admin code=0 epoch=2
line=22 admin code=-2 epoch=2
line=23 admin code=-22 epoch=2
end
";

/// Reads, and writes that are refused.
const NODES: &str = "ipe-requests 1
workers 1
text a 3
policy_name=a policy_version=1.0.0
DEFAULT action=DENY
op=EXECUTE boot_verified=TRUE action=ALLOW
text init 1
hello
file /init boot rootfs 2 init
mark policy trusted text a
phase
admin write new_policy text a
admin write policies/a/active echo 1
phase
admin read policies/a/version
admin read enforce
admin read success_audit
admin read policies/a/policy
admin read policies/b/name
admin read nothing
admin read new_policy
admin write policies/a/version echo 1
guest write enforce echo 0
guest write nothing echo 0
admin write enforce echo true
admin write enforce hex 300a0a
end
";

const NODES_ANSWER: &str = "ipe-transcript 1
phase 1
line=12 admin code=0 epoch=0
type=1422 policy_name=\"a\" policy_version=1.0.0 policy_digest=sha256:a12fb4d91e8e66793020762fce63ca775103cd329a72d6a4734d290181673120 auid=4294967295 ses=4294967295 lsm=ipe res=1 errno=0
line=13 admin code=0 epoch=1
type=1421 old_active_pol_name=? old_active_pol_version=? old_policy_digest=? new_active_pol_name=\"a\" new_active_pol_version=1.0.0 new_policy_digest=sha256:a12fb4d91e8e66793020762fce63ca775103cd329a72d6a4734d290181673120 auid=4294967295 ses=4294967295 lsm=ipe res=1
phase 2
line=15 admin code=0 epoch=1 bytes=312e302e30
line=16 admin code=0 epoch=1 bytes=31
line=17 admin code=0 epoch=1 bytes=30
line=18 admin code=0 epoch=1 bytes=706f6c6963795f6e616d653d6120706f6c6963795f76657273696f6e3d312e302e300a44454641554c5420616374696f6e3d44454e590a6f703d4558454355544520626f6f745f76657269666965643d5452554520616374696f6e3d414c4c4f570a
line=19 admin code=-2 epoch=1
line=20 admin code=-2 epoch=1
line=21 admin code=-22 epoch=1
line=22 admin code=-22 epoch=1
line=23 guest code=-1 epoch=1
line=24 guest code=-2 epoch=1
line=25 admin code=-22 epoch=1
line=26 admin code=-22 epoch=1
end
";

#[test]
fn commands_are_answered_and_recorded(rt: HostRuntime) -> Result<(), Fail> {
    for (input, answer) in [
        (VERSIONS, VERSIONS_ANSWER),
        (UPDATES, UPDATES_ANSWER),
        (DELETIONS, DELETIONS_ANSWER),
        (NODES, NODES_ANSWER),
    ] {
        let (status, written) = answered(&rt, rt.alloc(), &["replay"], input.as_bytes())?;
        assert_eq!(rt; status, 0, "{input}");
        assert_eq!(rt; written.as_slice(), answer.as_bytes(), "{input}");
    }
    Ok(())
}
