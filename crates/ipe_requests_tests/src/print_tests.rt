use super::tests::ask;
use ipe_policy::{Kind, Request};
use ipe_requests::*;
use std::test::Fail;

const FIRST_CHECK: &str = "ipe-requests 1
workers 1
text a 3
policy_name=a policy_version=1.0.0
DEFAULT action=DENY
op=EXECUTE boot_verified=TRUE action=ALLOW
text init 1
hello
file /init boot rootfs 2 init
mark policy trusted text a
phase
admin write new_policy text a
admin write policies/a/active echo 1
phase
w1 exec 1 init /init
end
";

// Every form of line, with the greatest numbers, texts that are empty or look like other lines, digits of both cases in tables, and one
// id of a text and a volume.
const EVERY_FORM: &str = "ipe-requests 1
workers 30
text a 3

 phase  \"
end
text -_09 0
volume a 1 d h 512 512 4 0 sha256 076a27c79e5ace2a3d47f9dd2e83e4ff6ea8872b3c2218f66c92b89b55f36560 -
volume v 1 /dev/a /dev/b 4096 4096 4096 1048576 sha256 076A27c79e5ace2a3d47f9dd2e83e4ff6ea8872b3c2218f66c92b89b55f36560 0aF1 2 root_hash_sig_key_desc k:d
file /init boot rootfs 18446744073709551615 a
file /end volume a 4 0 0
file /four volume a 0 2048 1
file /last volume v 4095 4096 2
file /~! plain /dev/c 16777216 16777216 r 3
seal /init /dev/c 16777216
seal /end d 0
mark policy trusted text a
mark root unknown hex 000102030405060708090a0b0c0d0e0f101112131415161718191a1b1c1d1e1f
mark file revoked text -_09
phase
phase
admin write new_policy text a
guest write policies/p/active echo #~
guest write nothing/of/the/kind hex -
admin write enforce hex 00ff
admin read policies/p/pkcs7
w1 exec 0 a:b /init
w30 mmap 4294967295 ld.so 4294967295 /end
w2 mprotect 3 jit 0 5 -
w2 mprotect 3 jit 1 0 /four
w3 read 4 udev firmware /last
w3 read 4 udev module /init
w4 load 5 udev kexec-image
w4 load 5 udev kexec-initramfs
w4 load 5 udev policy
w4 load 5 udev x509
phase
end
";

#[test]
fn what_was_read_is_printed(rt: HostRuntime) -> Result<(), Fail> {
    let none = "ipe-requests 1\nworkers 1\nend\n";
    for text in [none, FIRST_CHECK, EVERY_FORM] {
        let requests = ask(&rt, rt.alloc(), text)?;
        let printed = print_requests(rt.alloc(), &requests)?;
        assert_eq!(rt; printed.as_slice(), text.as_bytes());
    }
    Ok(())
}

// A hook call: its line and its worker, what it asks, the process and its name, and the path.
type Call<'a> = (u32, u32, Request, u32, &'a str, Option<&'a str>);

fn is_call(asked: &PhaseLine, call: Call<'_>) -> bool {
    let (number, by, wanted, pid, comm, named) = call;
    match asked {
        PhaseLine::Hook {
            line,
            worker,
            request,
            subject,
            path,
        } => {
            *line == number
                && *worker == by
                && *request == wanted
                && subject.pid == pid
                && subject.comm.as_slice() == comm.as_bytes()
                && path.as_ref().map(|path| path.as_slice()) == named.map(|path| path.as_bytes())
        }
        PhaseLine::Write { .. } | PhaseLine::Read { .. } => false,
    }
}

const NOT_MAPPED: Request = Request::Mprotect {
    was_exec: false,
    prot: 5,
};

const MAPPED: Request = Request::Mprotect {
    was_exec: true,
    prot: 0,
};

#[test]
fn hooks_are_read(rt: HostRuntime) -> Result<(), Fail> {
    let requests = ask(&rt, rt.alloc(), EVERY_FORM)?;
    let [first, second, third] = requests.phases.as_slice() else {
        return Err("three phases")?;
    };
    assert_eq!(rt; (first.line, second.line, third.line), (20, 21, 37));
    let lines = second.lines.as_slice();
    assert_eq!(rt; lines.len(), 15);
    for (asked, call) in lines.iter().skip(5).zip([
        (27, 1, Request::ExecCheck, 0, "a:b", Some("/init")),
        (
            28,
            30,
            Request::Mmap { prot: u32::MAX },
            u32::MAX,
            "ld.so",
            Some("/end"),
        ),
        (29, 2, NOT_MAPPED, 3, "jit", None),
        (30, 2, MAPPED, 3, "jit", Some("/four")),
        (
            31,
            3,
            Request::KernelRead(Kind::Firmware),
            4,
            "udev",
            Some("/last"),
        ),
        (
            32,
            3,
            Request::KernelRead(Kind::Module),
            4,
            "udev",
            Some("/init"),
        ),
        (
            33,
            4,
            Request::KernelLoad(Kind::KexecImage),
            5,
            "udev",
            None,
        ),
        (
            34,
            4,
            Request::KernelLoad(Kind::KexecInitramfs),
            5,
            "udev",
            None,
        ),
        (35, 4, Request::KernelLoad(Kind::Policy), 5, "udev", None),
        (36, 4, Request::KernelLoad(Kind::X509), 5, "udev", None),
    ]) {
        assert!(rt; is_call(asked, call), "line {}", call.0);
    }
    Ok(())
}
