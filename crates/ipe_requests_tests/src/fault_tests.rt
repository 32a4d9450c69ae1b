use super::tests::{DIGITS, HEAD, fault_of, filled};
use ipe_requests::*;
use std::alloc::{AllocError, Global};
use std::test::Fail;

// A file whose lines are good. The raw lines of its text look like others.
const GOOD: &str = "ipe-requests 1
workers 2
text a 2
phase
end
volume v 1 d h 512 512 4 0 sha256 # -
file /b boot r 1 a
file /c volume v 3 512 1
seal /b s 0
mark policy trusted text a
phase
admin read enforce
end
";

// The number of a bad line, what is wrong with it, and the line. Lines of the good file stand before it.
const DECLARATIONS: &str = "1 Header ipe-requests 2
1 Header ipe-requests
1 Header ipe-requests  1
1 Header ipe-requests 1 1
1 Header workers 2
2 Form workers
2 Form workers 1 2
2 Form worker 1
2 Form ipe-requests 1
2 Form end
2 Number workers 0
2 Number workers 31
2 Number workers 02
2 Number workers two
3 Form text a
3 Form text a 1 1
3 Form text  a 1
3 Form Text a 1
3 Form workers 2
3 Form admin read enforce
3 Form w1 load 1 udev module
3 Name text A 1
3 Name text a.b x
3 Number text a 1048577
3 Number text a 01
3 Number text a -1
6 Twice text a 0
6 Twice text a x
6 Form volume v
6 Form volume v 1 d h 512 512 4 0 sha256 #
6 Form volume v 1 d h 512 512 4 0 sha256 # - 2
6 Form volume v 1 d h 512 512 4 0 sha256 # - 2 root_hash_sig_key_desc
6 Form volume v 1 d h 512 512 4 0 sha256 # - 2 root_hash_sig_key_desc k k
6 Form volume v 1 d  h 512 512 4 0 sha256 # -
6 Name volume V 1 d h 512 512 4 0 sha256 # -
6 Name volume V 2 d h 512 512 4 0 sha256 # -
6 Table volume v 2 d h 512 512 4 0 sha256 # -
6 Table volume v 1 d h 513 513 4 0 sha256 # -
6 Table volume v 1 d h 512 1024 4 0 sha256 # -
6 Table volume v 1 d h 8192 8192 4 0 sha256 # -
6 Table volume v 1 d h 512 512 0 0 sha256 # -
6 Table volume v 1 d h 512 512 4097 0 sha256 # -
6 Table volume v 1 d h 512 512 4 1048577 sha256 # -
6 Table volume v 1 d h 512 512 4 00 sha256 # -
6 Table volume v 1 d h 512 512 4 0 sha1 # -
6 Table volume v 1 d h 512 512 4 0 sha256 #00 -
6 Table volume v 1 d h 512 512 4 0 sha256 abcdefgh -
6 Table volume v 1 d h 512 512 4 0 sha256 # abc
6 Table volume v 1 d h 512 512 4 0 sha256 # xy
6 Table volume v 1 d h 512 512 4 0 sha256 # - 1 root_hash_sig_key_desc k
6 Table volume v 1 d h 512 512 4 0 sha256 # - 2 root_hash k
7 Twice volume v 1 d h 512 512 4 0 sha256 # -
7 Twice volume v 2 d h 512 512 4 0 sha256 # -
7 Form text c 0
7 Form file /b boot r 1
7 Form file /b boot r 1 a a
7 Form file /b initramfs r 1 a
7 Name file b boot r 1 a
7 Name file /\" boot r 1 a
7 Name file /b boot R 1 a
7 Number file /b boot r 18446744073709551616 a
7 Number file /b boot r 01 A
7 Name file /b boot r 1 A
7 Unknown file /b boot r 1 v
8 Twice file /b boot r 1 a
8 Twice file /b boot R x c
8 Twice file /b volume v 0 1 1
8 Twice file /b plain p 0 1 r 1
8 Form volume w 1 d h 512 512 4 0 sha256 # -
8 Form file /c volume v 0 1
8 Form file /c volume v 0 1 1 1
8 Name file c volume v 0 1 1
8 Name file /c volume V 0 1 1
8 Unknown file /c volume a 0 1 1
8 Number file /c volume v 4096 0 1
8 Number file /c volume v 0 16777217 1
8 Number file /c volume v 0 1 18446744073709551616
8 Range file /c volume v 3 513 1
8 Range file /c volume v 0 2049 1
8 Range file /c volume v 5 0 1
8 Number file /c volume v 5 0 x
8 Form file /c plain p 0 1 r
8 Form file /c plain p 0 1 r 1 1
8 Name file c plain p 0 1 r 1
8 Name file /c plain  0 1 r 1
8 Number file /c plain p 16777217 1 r 1
8 Number file /c plain p 0 16777217 r 1
8 Name file /c plain p 0 1 R 1
8 Number file /c plain p 0 1 r x
9 Form seal /b s
9 Form seal /b s 0 0
9 Name seal b s 0
9 Name seal /b  0
9 Unknown seal /d s x
9 Number seal /b s 16777217
10 Twice seal /b s 0
10 Twice seal /b s x
10 Form file /d boot r 1 a
10 Form mark policy trusted text
10 Form mark policy trusted text a a
10 Form mark policy trusted sha256 a
10 Name mark device trusted text a
10 Name mark policy trusts text a
10 Name mark policy trusted text A
10 Unknown mark policy trusted text v
10 Form mark root trusted hex
10 Name mark roots trusted hex #
10 Name mark root Trusted hex #
10 Hex mark root trusted hex -
10 Hex mark root trusted hex #0
10 Hex mark root trusted hex #00
10 Hex mark root trusted hex 00112233445566778899aabbccddeeff00112233445566778899aabbccddee
10 Hex mark root trusted hex 00112233445566778899aabbccddeeff00112233445566778899aabbccddeeFf
10 Hex mark root trusted hex 00112233445566778899aabbccddeeff00112233445566778899aabbccddeefg
11 Form seal /c s 0
11 Form phase 1
11 Form admin read enforce
11 Form w1 load 1 udev module
";

const PHASES: &str = "12 Form mark policy trusted text a
12 Form admin write enforce
12 Form admin write enforce echo
12 Form admin write enforce echo 1 1
12 Form admin write enforce word 1
12 Form root write enforce echo 1
12 Form admin writes enforce echo 1
12 Form guest read enforce
12 Form admin read
12 Form admin read enforce 1
12 Name admin write  text a
12 Name guest write new_policy text A
12 Unknown guest write new_policy text c
12 Unknown admin write new_policy text v
12 Name guest write  echo 1
12 Name admin write  hex 0
12 Hex admin write enforce hex 0
12 Hex guest write enforce hex AB
12 Hex guest write enforce hex 0g
12 Hex admin write enforce hex --
12 Form x1 exec 1 init /b
12 Form w1 execute 1 init /b
12 Form w1 exec 1 init
12 Form w1 exec 1 init /b /b
12 Number w0 exec 1 init /b
12 Number w3 exec 1 init /b
12 Number w01 exec 1 init /b
12 Number w exec 1 init /b
12 Number worker exec 1 init /b
12 Number w3 exec x \"init\" b
12 Number w1 exec 4294967296 init /b
12 Number w1 exec 01 init /b
12 Name w1 exec 1  /b
12 Name w1 exec 1 in\"it /d
12 Name w1 exec 1 init b
12 Name w1 exec 1 init -
12 Unknown w1 exec 1 init /d
12 Form w1 mmap 1 ld /b
12 Number w0 mmap 1 ld 4 /b
12 Number w1 mmap x ld 4 /b
12 Name w1 mmap 1 l\"d 4 /b
12 Number w1 mmap 1 ld 4294967296 /b
12 Name w1 mmap 1 ld 4 -
12 Unknown w1 mmap 1 ld 4 /d
12 Form w1 mprotect 1 ld 4 /b
12 Number w3 mprotect 1 ld 0 4 -
12 Number w1 mprotect x ld 0 4 -
12 Name w1 mprotect 1 l\"d 0 4 -
12 Number w1 mprotect 1 ld 2 4 -
12 Number w1 mprotect 1 ld 00 4 -
12 Number w1 mprotect 1 ld 0 4294967296 -
12 Name w1 mprotect 1 ld 0 4 --
12 Unknown w1 mprotect 1 ld 0 4 /d
12 Form w1 read 1 udev module
12 Number w0 read 1 udev module /b
12 Number w1 read x udev module /b
12 Name w1 read 1 ud\"ev module /b
12 Name w1 read 1 udev modules /d
12 Name w1 read 1 udev module b
12 Unknown w1 read 1 udev module /d
12 Form w1 load 1 udev
12 Form w1 load 1 udev module /b
12 Number w3 load 1 udev module
12 Number w1 load x udev module
12 Name w1 load 1 ud\"ev module
12 Name w1 load 1 udev Module
13 Form phase 2
13 Form end 1
13 Form End
";

// The good file up to a line, and this line in its place.
fn with_line(alloc: Global, number: usize, line: &str) -> Result<String, AllocError> {
    let mut text = String::from_str(alloc, "")?;
    for good in GOOD.lines().take(number.saturating_sub(1)) {
        text.push_str(good)?;
        text.push_str("\n")?;
    }
    text.push_str(line)?;
    text.push_str("\nend\n")?;
    filled(alloc, text.as_str(), DIGITS)
}

#[test]
fn each_fault_of_a_line_is_named(rt: HostRuntime) -> Result<(), Fail> {
    for row in DECLARATIONS.lines().chain(PHASES.lines()) {
        let (number, rest) = row.split_once(' ').ok_or("a number")?;
        let (kind, line) = rest.split_once(' ').ok_or("a kind")?;
        let text = with_line(rt.alloc(), number.parse::<usize>()?, line)?;
        let (bad, fault) = fault_of(&rt, rt.alloc(), text.as_str()).ok_or("a fault")?;
        let told = format!(in rt.alloc(); "{bad} {fault:?} {line}")?;
        assert_eq!(rt; told.as_str(), row, "{kind}");
    }
    Ok(())
}

#[test]
fn each_fault_of_a_file_is_named(rt: HostRuntime) -> Result<(), Fail> {
    for (head, rest, line, kind) in [
        ("", "", 1, ScriptKind::Unended),
        ("", "ipe-requests 1", 1, ScriptKind::NoNewline),
        ("", "x", 1, ScriptKind::NoNewline),
        ("", "\n", 1, ScriptKind::Header),
        ("", "ipe-requests 1\n", 2, ScriptKind::Unended),
        ("", "ipe-requests 1\nworkers 1", 2, ScriptKind::NoNewline),
        ("", "ipe-requests 1\nworkers \n", 2, ScriptKind::Number),
        (HEAD, "", 3, ScriptKind::Unended),
        (HEAD, "end", 3, ScriptKind::NoNewline),
        (HEAD, "end\nx", 4, ScriptKind::NoNewline),
        (HEAD, "end\n\n", 4, ScriptKind::After),
        (HEAD, "end\nend\n", 4, ScriptKind::After),
        (HEAD, "text a 2\nend\n", 5, ScriptKind::Unended),
        (HEAD, "text a 2\nend\nend", 5, ScriptKind::NoNewline),
        (HEAD, "text a 0\ntext a 9\n", 4, ScriptKind::Twice),
        (
            HEAD,
            "phase\nw1 load 1 udev module\n",
            5,
            ScriptKind::Unended,
        ),
        (HEAD, "\nend\n", 3, ScriptKind::Form),
        (HEAD, " end\n", 3, ScriptKind::Form),
        (HEAD, "end \n", 3, ScriptKind::Form),
        (HEAD, "end\r\n", 3, ScriptKind::Form),
        (HEAD, "text a \nend\n", 3, ScriptKind::Number),
        (HEAD, "text a 0\t\nend\n", 3, ScriptKind::Number),
        (HEAD, "phase\nadmin read \n", 4, ScriptKind::Name),
        (HEAD, "phase\nadmin read a\tb\n", 4, ScriptKind::Name),
        (
            HEAD,
            "phase\nadmin write enforce echo \n",
            4,
            ScriptKind::Name,
        ),
        (
            HEAD,
            "phase\nadmin write enforce hex \n",
            4,
            ScriptKind::Hex,
        ),
    ] {
        let text = format!(in rt.alloc(); "{head}{rest}")?;
        let fault = fault_of(&rt, rt.alloc(), text.as_str());
        assert_eq!(rt; fault, Some((line, kind)), "{rest}");
    }
    Ok(())
}
