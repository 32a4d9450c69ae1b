use ipe_requests::{PhaseLine, Requests, print_requests};
use ipe_sim::make_requests;
use std::test::Fail;

// The lines are those that peers/sim_lines.py writes, which knows nothing of ipe_sim.

// The last mark, and the first ten commands.
const COMMANDS_OF_1: &str = "mark policy trusted text t15
phase
admin write policies/p1/active echo 1
admin write new_policy text t6
admin write new_policy text t3
admin write policies/p2/active echo 1
admin write policies/p2/delete echo 1
admin write policies/p2/delete echo 1
admin write new_policy text t0
admin write policies/p0/active echo 1
admin write enforce echo 1
admin write enforce echo 1
";

// The last command of the first phase, and the first ten hooks.
const HOOKS_OF_1: &str = "admin write policies/p2/update text t6
w1 read 1001 sim firmware /f6
w1 mmap 1001 sim 1 /f7
w1 read 1001 sim firmware /f0
w1 load 1001 sim kexec-initramfs
w1 load 1001 sim x509
w1 read 1001 sim firmware /f1
w1 exec 1001 sim /f5
w1 mprotect 1001 sim 0 4 -
w1 mprotect 1001 sim 0 4 -
w1 mmap 1001 sim 5 /f0
";

const COMMANDS_OF_0: &str = "mark policy trusted text t15
phase
admin write success_audit echo 0
admin write policies/p0/update text t4
";

const HOOKS_OF_0: &str = "admin write policies/p3/active echo 1
w1 load 1001 sim x509
w1 mmap 1001 sim 5 /f1
w1 mprotect 1001 sim 0 4 -
";

const COMMANDS_OF_2_TO_32: &str = "mark policy trusted text t15
phase
admin write success_audit echo 1
admin write policies/p1/delete echo 1
";

const HOOKS_OF_2_TO_32: &str = "admin write policies/p3/update text t3
w1 read 1001 sim policy /f3
w1 load 1001 sim kexec-image
w1 mprotect 1001 sim 0 4 -
";

const COMMANDS_OF_THE_LAST: &str = "mark policy trusted text t15
phase
admin write enforce echo 1
admin write policies/p2/update text t2
";

const HOOKS_OF_THE_LAST: &str = "admin write policies/p3/delete echo 1
w1 read 1001 sim x509 /f6
w1 exec 1001 sim /f3
w1 load 1001 sim firmware
";

// The number of the last hook's line.
fn last_line(requests: &Requests) -> Option<u32> {
    match requests.phases.as_slice().last()?.lines.as_slice().last()? {
        PhaseLine::Hook { line, .. } => Some(*line),
        _ => None,
    }
}

#[test]
fn seeds_have_these_lines(rt: HostRuntime) -> Result<(), Fail> {
    let alloc = rt.alloc();
    for (seed, commands, hooks, last) in [
        (
            1,
            COMMANDS_OF_1,
            HOOKS_OF_1,
            "w8 mmap 1008 sim 1 /f1\nend\n",
        ),
        (
            0,
            COMMANDS_OF_0,
            HOOKS_OF_0,
            "w8 load 1008 sim module\nend\n",
        ),
        (
            4_294_967_296,
            COMMANDS_OF_2_TO_32,
            HOOKS_OF_2_TO_32,
            "w8 exec 1008 sim /f7\nend\n",
        ),
        (
            u64::MAX,
            COMMANDS_OF_THE_LAST,
            HOOKS_OF_THE_LAST,
            "w8 mprotect 1008 sim 0 4 -\nend\n",
        ),
    ] {
        let requests = make_requests(alloc, seed)?;
        assert_eq!(rt; last_line(&requests), Some(80_416));
        let text = String::from_utf8(print_requests(alloc, &requests)?).unwrap_or(String::new(
            alloc,
        ));
        assert!(rt; text.as_str().contains(commands), "{seed}");
        assert!(rt; text.as_str().contains(hooks), "{seed}");
        assert!(rt; text.as_str().ends_with(last), "{seed}");
        assert_eq!(rt; text.as_str().lines().count(), 80_417);
    }
    Ok(())
}
