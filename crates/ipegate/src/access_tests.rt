use super::tests::answered;
use std::test::Fail;

/// A denial that is not enforced is recorded.
const PERMISSIVE: &str = "ipe-requests 1
workers 1
text p 3
policy_name=p\tpolicy_version=1.0.0  # c
DEFAULT action=ALLOW
op=EXECUTE boot_verified=TRUE action=DENY
text init 1
hello
file /init boot rootfs 2 init
mark policy trusted text p
phase
admin write new_policy text p
admin write policies/p/active echo 1
admin write enforce echo 0
admin write enforce echo 0
phase
w1 exec 1 init /init
end
";

const PERMISSIVE_ANSWER: &str = "ipe-transcript 1
phase 1
line=12 admin code=0 epoch=0
type=1422 policy_name=\"p\" policy_version=1.0.0 policy_digest=sha256:abdbefdf137813eb8eda779a54bbd50ecae7738c84a36a895e255ad0dc416d04 auid=4294967295 ses=4294967295 lsm=ipe res=1 errno=0
line=13 admin code=0 epoch=1
type=1421 old_active_pol_name=? old_active_pol_version=? old_policy_digest=? new_active_pol_name=\"p\" new_active_pol_version=1.0.0 new_policy_digest=sha256:abdbefdf137813eb8eda779a54bbd50ecae7738c84a36a895e255ad0dc416d04 auid=4294967295 ses=4294967295 lsm=ipe res=1
line=14 admin code=0 epoch=2
type=1404 enforcing=0 old_enforcing=1 auid=4294967295 ses=4294967295 enabled=1 old-enabled=1 lsm=ipe res=1
line=15 admin code=0 epoch=2
phase 2
line=17 w1 code=0 epoch=2 count=0 policy=1 by=rule:1
type=1420 ipe_op=EXECUTE ipe_hook=BPRM_CHECK enforcing=0 pid=1 comm=\"init\" path=\"/init\" dev=\"rootfs\" ino=2 rule=\"op=EXECUTE boot_verified=TRUE action=DENY\"
content sha256:5891b5b522d5df086d0ff0b110fbd9d21bb4fc7163af34d08286a2e846f6be03
end
";

/// An allowed access is recorded where success_audit is on.
const SUCCESS_AUDIT: &str = "ipe-requests 1
workers 1
text a 3
policy_name=a policy_version=1.0.0
DEFAULT action=DENY
op=EXECUTE boot_verified=TRUE action=ALLOW
text init 1
hello
file /init boot rootfs 2 init
mark policy trusted text a
phase
admin write new_policy text a
admin write policies/a/active echo 1
phase
w1 exec 1 init /init
phase
admin write success_audit hex 6f6e0a
phase
w1 exec 1 init /init
w1 load 3 udev firmware
end
";

const SUCCESS_AUDIT_ANSWER: &str = "ipe-transcript 1
phase 1
line=12 admin code=0 epoch=0
type=1422 policy_name=\"a\" policy_version=1.0.0 policy_digest=sha256:a12fb4d91e8e66793020762fce63ca775103cd329a72d6a4734d290181673120 auid=4294967295 ses=4294967295 lsm=ipe res=1 errno=0
line=13 admin code=0 epoch=1
type=1421 old_active_pol_name=? old_active_pol_version=? old_policy_digest=? new_active_pol_name=\"a\" new_active_pol_version=1.0.0 new_policy_digest=sha256:a12fb4d91e8e66793020762fce63ca775103cd329a72d6a4734d290181673120 auid=4294967295 ses=4294967295 lsm=ipe res=1
phase 2
line=15 w1 code=0 epoch=1 count=0 policy=1 by=rule:1
content sha256:5891b5b522d5df086d0ff0b110fbd9d21bb4fc7163af34d08286a2e846f6be03
phase 3
line=17 admin code=0 epoch=2
phase 4
line=19 w1 code=0 epoch=2 count=0 policy=1 by=rule:1
type=1420 ipe_op=EXECUTE ipe_hook=BPRM_CHECK enforcing=1 pid=1 comm=\"init\" path=\"/init\" dev=\"rootfs\" ino=2 rule=\"op=EXECUTE boot_verified=TRUE action=ALLOW\"
content sha256:5891b5b522d5df086d0ff0b110fbd9d21bb4fc7163af34d08286a2e846f6be03
line=20 w1 code=-13 epoch=2 count=1 policy=1 by=global
type=1420 ipe_op=FIRMWARE ipe_hook=KERNEL_LOAD enforcing=1 pid=3 comm=\"udev\" path=? dev=? ino=? rule=\"DEFAULT action=DENY\"
end
";

#[test]
fn accesses_are_recorded(rt: HostRuntime) -> Result<(), Fail> {
    for (input, answer) in [
        (PERMISSIVE, PERMISSIVE_ANSWER),
        (SUCCESS_AUDIT, SUCCESS_AUDIT_ANSWER),
    ] {
        let (status, written) = answered(&rt, rt.alloc(), &["replay"], input.as_bytes())?;
        assert_eq!(rt; status, 0, "{input}");
        assert_eq!(rt; written.as_slice(), answer.as_bytes(), "{input}");
    }
    Ok(())
}
