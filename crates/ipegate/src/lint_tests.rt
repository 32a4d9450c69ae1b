use super::tests::answered;
use ipe_parse::parse;
use ipe_policy::print;
use std::test::Fail;

/// The example of this name.
const SEALED_APPLIANCE: &str =
    "# A sealed appliance: nothing runs but what was in the boot image or is on the signed volume.
policy_name=sealed-appliance policy_version=1.4.0
DEFAULT action=DENY
op=EXECUTE boot_verified=TRUE action=ALLOW
op=EXECUTE dmverity_signature=TRUE action=ALLOW
op=FIRMWARE boot_verified=TRUE action=ALLOW
op=KMODULE boot_verified=TRUE action=ALLOW
op=POLICY boot_verified=TRUE action=ALLOW
";

/// [`SEALED_APPLIANCE`] as it is printed, without the comment.
const SEALED_APPLIANCE_PRINTED: &str = "policy_name=sealed-appliance policy_version=1.4.0
DEFAULT action=DENY
op=EXECUTE boot_verified=TRUE action=ALLOW
op=EXECUTE dmverity_signature=TRUE action=ALLOW
op=FIRMWARE boot_verified=TRUE action=ALLOW
op=KMODULE boot_verified=TRUE action=ALLOW
op=POLICY boot_verified=TRUE action=ALLOW
";

const SEVEN_DEFAULTS: &str = "policy_name=d policy_version=1.0.0
DEFAULT op=EXECUTE action=DENY
DEFAULT op=FIRMWARE action=DENY
DEFAULT op=KMODULE action=DENY
DEFAULT op=KEXEC_IMAGE action=DENY
DEFAULT op=KEXEC_INITRAMFS action=DENY
DEFAULT op=POLICY action=DENY
DEFAULT op=X509_CERT action=DENY
";

const EIGHT_DEFAULTS: &str = "policy_name=d policy_version=1.0.0
DEFAULT op=EXECUTE action=DENY
DEFAULT op=FIRMWARE action=DENY
DEFAULT op=KMODULE action=DENY
DEFAULT op=KEXEC_IMAGE action=DENY
DEFAULT op=KEXEC_INITRAMFS action=DENY
DEFAULT op=POLICY action=DENY
DEFAULT op=X509_CERT action=DENY
DEFAULT op=POLICY action=ALLOW
";

const AN_OPERATION_AND_AN_ACTION: &str = "policy_name=a policy_version=1.0.0
DEFAULT action=DENY
op=execute action=ALLOW
op=EXECUTE action=allow
";

const AN_ACTION_AND_AN_OPERATION: &str = "policy_name=a policy_version=1.0.0
DEFAULT action=DENY
op=EXECUTE action=allow
op=execute action=ALLOW
";

const ONE_RULE: &str = "policy_name=a policy_version=1.0.0
DEFAULT action=DENY
op=EXECUTE boot_verified=TRUE action=ALLOW
";

const TWO_DEFAULTS: &str = "policy_name=a policy_version=1.0.0
DEFAULT action=DENY
DEFAULT action=DENY
op=EXECUTE boot_verified=TRUE action=ALLOW
";

const HEADER_THE_OTHER_WAY: &str = "policy_version=1.0.0 policy_name=a
DEFAULT action=DENY
";

#[test]
fn policies_are_linted(rt: HostRuntime) -> Result<(), Fail> {
    for (text, status, answer) in [
        (ONE_RULE, 0, "ok a 1.0.0 rules=1 words=27\n"),
        (SEVEN_DEFAULTS, 0, "ok d 1.0.0 rules=0 words=25\n"),
        (EIGHT_DEFAULTS, 3, "refused line 9: TwiceDefault\n"),
        (TWO_DEFAULTS, 3, "refused line 3: TwiceDefault\n"),
        (HEADER_THE_OTHER_WAY, 3, "refused line 1: NoHeader\n"),
        (
            "policy_name=a policy_version=1.0.0\n",
            3,
            "refused: no default for EXECUTE\n",
        ),
        (
            "policy_name=a policy_version=65536.0.0\n",
            3,
            "refused line 1: BadVersion\n",
        ),
    ] {
        let (found, written) = answered(&rt, rt.alloc(), &["lint"], text.as_bytes())?;
        assert_eq!(rt; found, status, "{text}");
        assert_eq!(rt; written.as_slice(), answer.as_bytes(), "{text}");
    }
    Ok(())
}

#[test]
fn each_fault_of_a_header_is_named(rt: HostRuntime) -> Result<(), Fail> {
    for (text, answer) in [
        ("", "refused line 1: NoHeader\n"),
        ("# a comment\n\n", "refused line 1: NoHeader\n"),
        ("policy_name=a\n", "refused line 1: NoHeader\n"),
        (
            "policy_name=a policy_version=1.0.0 more\n",
            "refused line 1: NoHeader\n",
        ),
        (
            "name=a policy_version=1.0.0\n",
            "refused line 1: NoHeader\n",
        ),
        (
            "policy_name=a version=1.0.0\n",
            "refused line 1: NoHeader\n",
        ),
        (
            "\n\npolicy_name=a/b policy_version=x\n",
            "refused line 3: BadName\n",
        ),
        (
            "policy_name=.. policy_version=1.0.0\n",
            "refused line 1: BadName\n",
        ),
        (
            "policy_name=a policy_version=1.0\n",
            "refused line 1: BadVersion\n",
        ),
        (
            "policy_name=a policy_version=1.0.000000\n",
            "refused line 1: BadVersion\n",
        ),
    ] {
        let (status, written) = answered(&rt, rt.alloc(), &["lint"], text.as_bytes())?;
        assert_eq!(rt; status, 3, "{text}");
        assert_eq!(rt; written.as_slice(), answer.as_bytes(), "{text}");
    }
    Ok(())
}

#[test]
fn each_fault_of_a_statement_is_named(rt: HostRuntime) -> Result<(), Fail> {
    for (line, kind) in [
        // A line that begins with DEFAULT.
        ("DEFAULT op=RUN action=MAYBE", "BadOp"),
        ("DEFAULT op=bad", "BadOp"),
        ("DEFAULT", "BadAction"),
        ("DEFAULT op=EXECUTE", "BadAction"),
        ("DEFAULT boot_verified=TRUE action=MAYBE", "BadAction"),
        ("DEFAULT action=DENY action=DENY", "PropertyInDefault"),
        (
            "DEFAULT op=EXECUTE boot_verified=TRUE action=DENY",
            "PropertyInDefault",
        ),
        ("DEFAULT action=ALLOW", "TwiceDefault"),
        // Any other line.
        ("boot_verified=TRUE op=EXECUTE", "BadOp"),
        ("op=execute action=MAYBE", "BadOp"),
        ("op=EXECUTE", "BadAction"),
        ("op=EXECUTE boot_verified=MAYBE action=allow", "BadAction"),
        (
            "op=EXECUTE x x x x x x x x x x x x x x x x x action=DENY",
            "TooManyProperties",
        ),
        (
            "op=EXECUTE x x x x x x x x x x x x x x x x action=DENY",
            "BadProperty",
        ),
        ("op=EXECUTE dmverity_roothash action=DENY", "BadProperty"),
        (
            "op=EXECUTE boot_verified=true fsverity_digest=x action=DENY",
            "BadProperty",
        ),
        (
            "op=EXECUTE fsverity_digest=sha256:abc boot_verified=true action=DENY",
            "BadDigest",
        ),
        (
            "op=EXECUTE dmverity_roothash=SHA256:ab action=DENY",
            "BadDigest",
        ),
        (
            "op=EXECUTE dmverity_roothash=sha256: action=DENY",
            "BadDigest",
        ),
        (
            "op=EXECUTE dmverity_roothash=sha256:ag action=DENY",
            "BadDigest",
        ),
        // A comment begins within a token.
        ("op=EXECUTE act#ion=DENY", "BadAction"),
    ] {
        let text = format!(in rt.alloc();
            "policy_name=a\tpolicy_version=1.0.0\r\nDEFAULT action=DENY\n{line}"
        )?;
        let answer = format!(in rt.alloc(); "refused line 3: {kind}\n")?;
        let (status, written) = answered(&rt, rt.alloc(), &["lint"], text.as_bytes())?;
        assert_eq!(rt; status, 3, "{line}");
        assert_eq!(rt; written.as_slice(), answer.as_bytes(), "{line}");
    }
    Ok(())
}

#[test]
fn the_first_of_two_faulty_lines_is_named(rt: HostRuntime) -> Result<(), Fail> {
    for (text, answer) in [
        (AN_OPERATION_AND_AN_ACTION, "refused line 3: BadOp\n"),
        (AN_ACTION_AND_AN_OPERATION, "refused line 3: BadAction\n"),
    ] {
        let (status, written) = answered(&rt, rt.alloc(), &["lint"], text.as_bytes())?;
        assert_eq!(rt; status, 3, "{text}");
        assert_eq!(rt; written.as_slice(), answer.as_bytes(), "{text}");
    }
    Ok(())
}

#[test]
fn a_printed_policy_reads_as_itself(rt: HostRuntime) -> Result<(), Fail> {
    let policy = parse(rt.alloc(), SEALED_APPLIANCE.as_bytes()).expect(&rt, "a policy");
    let printed = print(rt.alloc(), &policy)?;
    assert_eq!(rt; printed.as_slice(), SEALED_APPLIANCE_PRINTED.as_bytes());
    let again = parse(rt.alloc(), SEALED_APPLIANCE_PRINTED.as_bytes()).expect(&rt, "a policy");
    assert_eq!(rt; again.name, policy.name);
    assert_eq!(rt; again.version, policy.version);
    assert_eq!(rt; print(rt.alloc(), &again)?.as_slice(), printed.as_slice());
    Ok(())
}
