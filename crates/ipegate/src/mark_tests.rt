use super::tests::answered;
use std::test::Fail;

/// Trusted as a root, not as a policy.
const MARKED_AS_A_ROOT: &str = "ipe-requests 1
workers 1
text a 3
policy_name=a policy_version=1.0.0
DEFAULT action=DENY
op=EXECUTE boot_verified=TRUE action=ALLOW
text init 1
hello
file /init boot rootfs 2 init
mark root trusted text a
phase
admin write new_policy text a
end
";

const MARKED_AS_A_ROOT_ANSWER: &str = "ipe-transcript 1
phase 1
line=12 admin code=-126 epoch=0
end
";

/// The one mark revokes.
const REVOKED: &str = "ipe-requests 1
workers 1
text a 3
policy_name=a policy_version=1.0.0
DEFAULT action=DENY
op=EXECUTE boot_verified=TRUE action=ALLOW
text init 1
hello
file /init boot rootfs 2 init
mark policy revoked text a
phase
admin write new_policy text a
end
";

const REVOKED_ANSWER: &str = "ipe-transcript 1
phase 1
line=12 admin code=-129 epoch=0
end
";

/// The last mark revokes.
const MARKED_AS_REVOKED: &str = "ipe-requests 1
workers 1
text a 3
policy_name=a policy_version=1.0.0
DEFAULT action=DENY
op=EXECUTE boot_verified=TRUE action=ALLOW
text init 1
hello
file /init boot rootfs 2 init
mark policy trusted text a
mark policy revoked text a
phase
admin write new_policy text a
end
";

const MARKED_AS_REVOKED_ANSWER: &str = "ipe-transcript 1
phase 1
line=13 admin code=-129 epoch=0
end
";

/// The last mark trusts.
const MARKED_AGAIN: &str = "ipe-requests 1
workers 1
text a 3
policy_name=a policy_version=1.0.0
DEFAULT action=DENY
op=EXECUTE boot_verified=TRUE action=ALLOW
text init 1
hello
file /init boot rootfs 2 init
mark policy revoked text a
mark policy trusted hex a12fb4d91e8e66793020762fce63ca775103cd329a72d6a4734d290181673120
phase
admin write new_policy text a
end
";

const MARKED_AGAIN_ANSWER: &str = "ipe-transcript 1
phase 1
line=13 admin code=0 epoch=0
type=1422 policy_name=\"a\" policy_version=1.0.0 policy_digest=sha256:a12fb4d91e8e66793020762fce63ca775103cd329a72d6a4734d290181673120 auid=4294967295 ses=4294967295 lsm=ipe res=1 errno=0
end
";

/// A trusted text that is no policy, and contents that nobody trusts.
const BAD_TEXTS: &str = "ipe-requests 1
workers 1
text bad 1
policy_name=a
text init 1
hello
file /init boot rootfs 2 init
mark policy trusted text bad
phase
admin write new_policy text bad
admin write new_policy hex -
admin write new_policy echo x
end
";

const BAD_TEXTS_ANSWER: &str = "ipe-transcript 1
phase 1
line=10 admin code=-74 epoch=0
line=11 admin code=-126 epoch=0
line=12 admin code=-126 epoch=0
end
";

#[test]
fn a_load_needs_a_policy_that_the_last_mark_trusts(rt: HostRuntime) -> Result<(), Fail> {
    for (input, answer) in [
        (MARKED_AS_A_ROOT, MARKED_AS_A_ROOT_ANSWER),
        (REVOKED, REVOKED_ANSWER),
        (MARKED_AS_REVOKED, MARKED_AS_REVOKED_ANSWER),
        (MARKED_AGAIN, MARKED_AGAIN_ANSWER),
        (BAD_TEXTS, BAD_TEXTS_ANSWER),
    ] {
        let (status, written) = answered(&rt, rt.alloc(), &["replay"], input.as_bytes())?;
        assert_eq!(rt; status, 0, "{input}");
        assert_eq!(rt; written.as_slice(), answer.as_bytes(), "{input}");
    }
    Ok(())
}
