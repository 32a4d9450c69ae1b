use super::tests::answered;
use std::alloc::{AllocError, Global};
use std::test::Fail;

const HEAD: &str = "ipe-requests 1\nworkers 1\n";

const RULE: &str = "op=EXECUTE action=ALLOW\n";

const COMMENT: &str = "# A line of 64 bytes, with the line feed that stands at its end\n";

const TRUSTED: &str = "mark policy trusted text w\n";

/// A file that loads one text: after a header and a default so many times a line, and a last one. A mark may trust it.
fn loading(
    alloc: Global,
    line: &str,
    lines: u16,
    last: &str,
    mark: &str,
) -> Result<String, AllocError> {
    let count = u32::from(lines) + 3;
    let mut text = String::from_str(alloc, HEAD)?;
    text.push_str(format!(in alloc; "text w {count}\n")?.as_str())?;
    text.push_str("policy_name=w policy_version=1.0.0\nDEFAULT action=DENY\n")?;
    for _ in 0..lines {
        text.push_str(line)?;
    }
    text.push_str(last)?;
    text.push_str(mark)?;
    text.push_str("phase\nadmin write new_policy text w\nend\n")?;
    Ok(text)
}

/// 4,096 words: 25 before the rules, and one for each of 4,071 rules.
const WIDEST_LOADED: &str = " admin code=0 epoch=0
type=1422 policy_name=\"w\" policy_version=1.0.0 policy_digest=sha256:c478a892c9928a73bd4f2171b5cab84a0b53fd231fda58783f9a75f7641848e8 auid=4294967295 ses=4294967295 lsm=ipe res=1 errno=0
end
";

/// 1,048,576 bytes.
const BIGGEST_LOADED: &str = " admin code=0 epoch=0
type=1422 policy_name=\"w\" policy_version=1.0.0 policy_digest=sha256:b39e61e2dfc626297d37de3506bed9c5aa3e7201a1506787d7bd346a97cb4c2e auid=4294967295 ses=4294967295 lsm=ipe res=1 errno=0
end
";

/// An image has at most 4,096 words, and a text at most 1,048,576 bytes, whatever its mark.
#[test]
fn a_text_is_too_wide_or_too_big(rt: HostRuntime) -> Result<(), Fail> {
    for (line, lines, last, mark, answer) in [
        (RULE, 4070, RULE, TRUSTED, WIDEST_LOADED),
        (RULE, 4071, RULE, TRUSTED, " admin code=-27 epoch=0\nend\n"),
        (COMMENT, 16_383, "# At end\n", TRUSTED, BIGGEST_LOADED),
        (
            COMMENT,
            16_383,
            "# At last\n",
            TRUSTED,
            " admin code=-7 epoch=0\nend\n",
        ),
        (
            COMMENT,
            16_383,
            "# At last\n",
            "",
            " admin code=-7 epoch=0\nend\n",
        ),
    ] {
        let input = loading(rt.alloc(), line, lines, last, mark)?;
        let (status, written) = answered(&rt, rt.alloc(), &["replay"], input.as_bytes())?;
        assert_eq!(rt; status, 0, "{last}{mark}");
        assert!(rt;
            written.as_slice().ends_with(answer.as_bytes()),
            "{last}{mark}"
        );
    }
    Ok(())
}

/// Policies of so many names are loaded, one after the other.
fn loading_each(alloc: Global, policies: u32) -> Result<String, AllocError> {
    let mut text = String::from_str(alloc, HEAD)?;
    for number in 0..policies {
        text.push_str(format!(in alloc;
            "text t{number} 2\npolicy_name=p{number} policy_version=1.0.0\n"
        )?.as_str())?;
        text.push_str("DEFAULT action=DENY\n")?;
    }
    for number in 0..policies {
        text.push_str(format!(in alloc; "mark policy trusted text t{number}\n")?.as_str())?;
    }
    text.push_str("phase\n")?;
    for number in 0..policies {
        text.push_str(format!(in alloc; "admin write new_policy text t{number}\n")?.as_str())?;
    }
    Ok(text)
}

#[test]
fn thirty_two_policies_are_kept(rt: HostRuntime) -> Result<(), Fail> {
    for (policies, again, answer) in [
        (33, "", " admin code=-28 epoch=0\nend\n"),
        (
            2,
            "admin write new_policy text t1\n",
            " admin code=-17 epoch=0\nend\n",
        ),
    ] {
        let mut input = loading_each(rt.alloc(), policies)?;
        input.push_str(again)?;
        input.push_str("end\n")?;
        let (status, written) = answered(&rt, rt.alloc(), &["replay"], input.as_bytes())?;
        assert_eq!(rt; status, 0);
        assert!(rt; written.as_slice().ends_with(answer.as_bytes()));
    }
    Ok(())
}
