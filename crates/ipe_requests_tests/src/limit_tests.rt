use super::tests::{DIGITS, HEAD, ask, fault_of, filled};
use ipe_requests::*;
use std::alloc::{AllocError, Global};
use std::process::Abort;
use std::test::Fail;

// A text with so many lines behind it. In each, `#` stands for its number from 0.
fn with_lines(alloc: Global, head: &str, line: &str, count: u32) -> Result<String, AllocError> {
    let mut text = String::from_str(alloc, head)?;
    for number in 0..count {
        let number = number.to_string(alloc)?;
        text.push_str(filled(alloc, line, number.as_str())?.as_str())?;
        text.push_str("\n")?;
    }
    Ok(text)
}

// These lines are taken, and not what comes after them: its fault is this one, at this line.
fn is_limited(
    rt: &impl Abort,
    alloc: Global,
    lines: &str,
    next: &str,
    fault: (u32, ScriptKind),
) -> Result<(), Fail> {
    let whole = format!(in alloc; "{lines}end\n")?;
    assert_eq!(rt; ask(rt, alloc, whole.as_str())?.workers, 2, "{next}");
    let more = format!(in alloc; "{lines}{next}\nend\n")?;
    assert_eq!(rt; fault_of(rt, alloc, more.as_str()), Some(fault), "{next}");
    Ok(())
}

const TEXT: &str = "ipe-requests 1
workers 2
text a 0
";

const NINE_FILES: &str = "ipe-requests 1
workers 2
text a 0
file /0 boot r 1 a
file /1 boot r 1 a
file /2 boot r 1 a
file /3 boot r 1 a
file /4 boot r 1 a
file /5 boot r 1 a
file /6 boot r 1 a
file /7 boot r 1 a
file /8 boot r 1 a
";

#[test]
fn declarations_are_limited(rt: HostRuntime) -> Result<(), Fail> {
    let alloc = rt.alloc();
    let root = format!(in alloc; "512 512 1 0 sha256 {DIGITS} -")?;
    let volume = format!(in alloc; "volume v# 1 d h {root}")?;
    let on_devices = format!(in alloc; "volume v# 1 d# h {root}")?;
    let one_more = format!(in alloc; "volume w 1 d h {root}")?;
    let mark = format!(in alloc; "mark root trusted hex {DIGITS}")?;
    let with_volume = format!(in alloc; "{TEXT}volume v 1 d h {root}\n")?;
    for (head, line, most, next, fault) in [
        (HEAD, "text t# 0", 256, "text t 0", (259, ScriptKind::Limit)),
        (
            HEAD,
            volume.as_str(),
            64,
            one_more.as_str(),
            (67, ScriptKind::Limit),
        ),
        (
            HEAD,
            on_devices.as_str(),
            7,
            one_more.as_str(),
            (10, ScriptKind::Limit),
        ),
        (
            TEXT,
            "file /# boot r 1 a",
            1024,
            "file / plain d 0 1 r 1",
            (1028, ScriptKind::Limit),
        ),
        (
            HEAD,
            "file /# plain d# 0 1 r 1",
            8,
            "file / plain d 0 1 r 1",
            (11, ScriptKind::Limit),
        ),
        (
            with_volume.as_str(),
            "file /# boot r 1 a",
            1024,
            "file / volume v 0 512 1",
            (1029, ScriptKind::Limit),
        ),
        (
            with_volume.as_str(),
            "file /# boot r 1 a",
            1024,
            "file / volume v 0 513 1",
            (1029, ScriptKind::Range),
        ),
        (
            NINE_FILES,
            "seal /# s# 0",
            8,
            "seal /8 s 0",
            (21, ScriptKind::Limit),
        ),
        (
            TEXT,
            "mark file unknown text a",
            4096,
            mark.as_str(),
            (4100, ScriptKind::Limit),
        ),
    ] {
        let lines = with_lines(alloc, head, line, most)?;
        is_limited(&rt, alloc, lines.as_str(), next, fault)?;
    }
    Ok(())
}

// A text with a line behind it, so many times.
fn with_line(alloc: Global, head: &str, line: &str, count: usize) -> Result<String, AllocError> {
    let line = format!(in alloc; "{line}\n")?;
    let lines = line.as_str().repeat(alloc, count)?;
    format!(in alloc; "{head}{lines}")
}

#[test]
fn phases_and_their_lines_are_limited(rt: HostRuntime) -> Result<(), Fail> {
    let alloc = rt.alloc();
    let phase = format!(in alloc; "{HEAD}phase\n")?;
    let writes = format!(in alloc; "{phase}guest write x echo 1\nadmin write x hex -\n")?;
    for (head, line, most, next, bad) in [
        (HEAD, "phase", 1000, "phase", 1003),
        (
            writes.as_str(),
            "admin read x",
            99_998,
            "phase\nadmin read x",
            100_005,
        ),
        (
            phase.as_str(),
            "w1 load 1 udev x509",
            200_000,
            "phase\nw2 load 1 udev x509",
            200_005,
        ),
    ] {
        let lines = with_line(alloc, head, line, most)?;
        is_limited(&rt, alloc, lines.as_str(), next, (bad, ScriptKind::Limit))?;
    }
    Ok(())
}

// Hooks that read no file, and commands that write no text and read none.
const NO_BYTES: &str = "ipe-requests 1
workers 2
file /f plain d 0 16777216 r 1
phase
w1 mmap 1 ld 4 /f
w1 mprotect 1 ld 0 4 /f
admin write x echo a
guest write x hex aa
admin read policy
admin read p/policy/
";

// Hooks and writes may name 64 files of 16,777,216 bytes, or 1,024 texts of 1,048,576. Reads may be 16,384 of 4,096 bytes, or 63 where a
// text has 1,048,577.
#[test]
fn the_bytes_of_phases_are_limited(rt: HostRuntime) -> Result<(), Fail> {
    let alloc = rt.alloc();
    let raw = "\n".repeat(alloc, 1_048_576)?;
    let written = format!(in alloc; "{HEAD}text a 1048576\n{raw}phase\n")?;
    let long = "x".repeat(alloc, 1_048_576)?;
    let read = format!(in alloc; "{HEAD}text a 1\n{long}\nphase\n")?;
    for (head, line, most, next, bad) in [
        (
            NO_BYTES,
            "w1 exec 1 init /f",
            64,
            "w2 read 1 udev x509 /f",
            75,
        ),
        (
            written.as_str(),
            "admin write x text a",
            1024,
            "guest write x text a",
            1_049_605,
        ),
        (
            NO_BYTES,
            "admin read p/policy",
            16_384,
            "admin read p/pkcs7",
            16_395,
        ),
        (
            read.as_str(),
            "admin read p/pkcs7",
            63,
            "admin read p/policy",
            69,
        ),
    ] {
        let lines = with_line(alloc, head, line, most)?;
        is_limited(&rt, alloc, lines.as_str(), next, (bad, ScriptKind::Limit))?;
    }
    Ok(())
}

// A word of so many pieces is taken, and not one with a piece more: its fault is this one, at this line. Something stands before the word
// in its file and its line, and behind it.
fn is_as_long(
    rt: &impl Abort,
    alloc: Global,
    (head, before): (&str, &str),
    (piece, most): (&str, usize),
    behind: &str,
    fault: (u32, ScriptKind),
) -> Result<(), Fail> {
    let word = piece.repeat(alloc, most)?;
    let text = format!(in alloc; "{head}{before}{word}{behind}\nend\n")?;
    assert_eq!(rt; ask(rt, alloc, text.as_str())?.workers, 2, "{before}");
    let longer = format!(in alloc; "{head}{before}{word}{piece}{behind}\nend\n")?;
    assert_eq!(rt;
        fault_of(rt, alloc, longer.as_str()),
        Some(fault),
        "{before}"
    );
    Ok(())
}

#[test]
fn words_of_declarations_are_as_long_as_they_may_be(rt: HostRuntime) -> Result<(), Fail> {
    let alloc = rt.alloc();
    for (head, before, most, behind, bad) in [
        (HEAD, "text ", 32, " 0", 3),
        (TEXT, "file /", 254, " boot r 1 a", 4),
        (TEXT, "file /f boot ", 32, " 1 a", 4),
        (TEXT, "file /f plain ", 255, " 0 1 r 1", 4),
        (NINE_FILES, "seal /0 ", 255, " 0", 13),
    ] {
        let fault = (bad, ScriptKind::Name);
        is_as_long(&rt, alloc, (head, before), ("a", most), behind, fault)?;
    }
    Ok(())
}

#[test]
fn words_of_tables_are_as_long_as_they_may_be(rt: HostRuntime) -> Result<(), Fail> {
    let alloc = rt.alloc();
    let root = format!(in alloc; "512 512 1 0 sha256 {DIGITS}")?;
    let on_device = format!(in alloc; " h {root} -")?;
    let on_hash_device = format!(in alloc; " {root} -")?;
    let salted = format!(in alloc; "volume v 1 d h {root} ")?;
    let signed = format!(in alloc; "volume v 1 d h {root} - 2 root_hash_sig_key_desc ")?;
    for (before, piece, most, behind) in [
        ("volume v 1 ", "d", 255, on_device.as_str()),
        ("volume v 1 d ", "h", 255, on_hash_device.as_str()),
        (salted.as_str(), "Ab", 256, ""),
        (signed.as_str(), "k", 255, ""),
    ] {
        let fault = (3, ScriptKind::Table);
        is_as_long(&rt, alloc, (HEAD, before), (piece, most), behind, fault)?;
    }
    Ok(())
}

#[test]
fn words_of_phases_are_as_long_as_they_may_be(rt: HostRuntime) -> Result<(), Fail> {
    let alloc = rt.alloc();
    let head = format!(in alloc; "{NINE_FILES}phase\n")?;
    for (before, piece, most, behind, kind) in [
        ("admin read ", "n", 320, "", ScriptKind::Name),
        ("admin write ", "n", 320, " echo 1", ScriptKind::Name),
        ("admin write x echo ", "w", 64, "", ScriptKind::Name),
        ("admin write x hex ", "0f", 4096, "", ScriptKind::Hex),
        ("w1 exec 1 ", "c", 15, " /0", ScriptKind::Name),
    ] {
        let head = head.as_str();
        is_as_long(
            &rt,
            alloc,
            (head, before),
            (piece, most),
            behind,
            (14, kind),
        )?;
    }
    Ok(())
}
